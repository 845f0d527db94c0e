//! Reasons in words.

use crate::explain::words::words_for;
use nbt_packet::{Packet, Reason, flags, try_classify};
use nbt_text::end_line;
use std::alloc::AllocError;

/// Appends a line with the reason, where the packet spells no message.
pub fn write_reason(packet: &Packet<'_>, out: &mut String) -> Result<(), AllocError> {
    let Err(reason) = try_classify(packet) else {
        return Ok(());
    };
    out.push_str("No message: ")?;
    write_sentence(reason, packet.flags, out)?;
    end_line(out)
}

/// Appends the reason as a sentence, without a stop. `flags` is the second word of the packet's header.
pub fn write_sentence(reason: Reason, flags: u16, out: &mut String) -> Result<(), AllocError> {
    let (sections, rtype, length) = wanted(flags);
    match reason {
        Reason::Opcode => {
            let opcode = flags::opcode(flags);
            let words = words_for(opcode, &LEFT_OUT);
            write!(out, "OPCODE {opcode}, {words}: not in this profile")
        }
        Reason::Broadcast => out.push_str(
            "the broadcast bit is set: in this profile a status request alone may have it",
        ),
        Reason::Challenge => out.push_str(
            "a positive response without RA, an end node's challenge: not in this profile",
        ),
        Reason::Sections => write!(out, "other sections than {sections}"),
        Reason::OtherType => write!(out, "another type than {rtype}"),
        Reason::OtherClass => out.push_str("another class than IN"),
        Reason::Length => write!(out, "RDATA isn't {length}"),
        Reason::OtherName => {
            out.push_str("the additional record is of another name than the question")
        }
    }
}

/// OPCODEs of which the profile has no request, or no response.
const LEFT_OUT: [(u16, &str); 2] = [(15, "multi-homed registration"), (7, "WACK in a request")];

/// Which sections, which types and what RDATA a message with this header has.
fn wanted(flags: u16) -> (&'static str, &'static str, &'static str) {
    let is_request = flags::is_request(flags);
    let is_query = flags::opcode(flags) == 0;
    let sections = if is_request && is_query {
        "a question alone"
    } else if is_request {
        "a question and an additional record"
    } else if is_query && flags::rcode(flags) != 0 {
        "an answer alone or nothing"
    } else {
        "an answer alone"
    };
    if is_query {
        (
            sections,
            "NB or NBSTAT",
            "entries of 6 octets, or as many names of 18 as it says",
        )
    } else {
        (sections, "NB", "one entry of 6 octets")
    }
}
