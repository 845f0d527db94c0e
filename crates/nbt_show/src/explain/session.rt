//! The packets of a session's stream in words.

use crate::explain::naming::write_named;
use crate::explain::words::{words_for, write_code_line};
use crate::session_packet::{Whole, next_packet};
use nbt_session::{Packet, Pieces, StreamFault};
use nbt_text::{end_line, write_address};
use std::alloc::{AllocError, Global};

/// The whole packets that the octets begin with in words, one after the other: each with its type, a message's length, a
/// request's names, the code of a negative response, and where a retarget response says to call. Of the rest, whether it is the
/// beginning of a packet or has a fault, nothing (RFC 1002 section 4.3).
pub fn explain_session(alloc: Global, octets: &[u8]) -> Result<String, AllocError> {
    let mut text = String::new(alloc);
    let mut pieces = Pieces::new();
    let mut rest = octets;
    'packets: loop {
        match next_packet(&mut pieces, rest) {
            Ok(Some((taken, packet))) => {
                write_packet(&packet, &mut text)?;
                rest = &rest[taken..];
            }
            Ok(None) => return Ok(text),
            Err(StreamFault::Malformed(_)) => return Ok(text),
            Err(StreamFault::OutOfMemory) => return Err(AllocError),
        }
    }
}

/// Appends the lines of a packet.
fn write_packet(packet: &Whole<'_>, out: &mut String) -> Result<(), AllocError> {
    match packet {
        Whole::Message(octets) => write_message(octets, out),
        Whole::Other(packet) => write_other(packet, out),
    }
}

/// Appends the lines of a packet that has its own octets.
fn write_other(packet: &Packet, out: &mut String) -> Result<(), AllocError> {
    match packet {
        Packet::Message(octets) => write_message(octets, out),
        Packet::Request { called, calling } => {
            out.push_str("Message type: Session request (0x81)\nCalled name: ")?;
            write_named(called, out)?;
            out.push_str("\nCalling name: ")?;
            write_named(calling, out)?;
            end_line(out)
        }
        Packet::Positive => out.push_str("Message type: Positive session response (0x82)\n"),
        Packet::Negative(code) => {
            out.push_str("Message type: Negative session response (0x83)\n")?;
            write_code_line(words_for(u16::from(*code), &ERRORS), *code, out)
        }
        Packet::Retarget(to) => {
            out.push_str("Message type: Retarget session response (0x84)\nRetarget address: ")?;
            write_address(*to, out)?;
            end_line(out)
        }
        Packet::KeepAlive => out.push_str("Message type: Session keep-alive (0x85)\n"),
    }
}

/// Appends the lines of a message with these octets.
fn write_message(octets: &[u8], out: &mut String) -> Result<(), AllocError> {
    let count = octets.len();
    writeln!(
        out,
        "Message type: Session message (0x00)\nData: {count} octets"
    )
}

/// The codes of a negative response (RFC 1002 section 4.3.4).
const ERRORS: [(u16, &str); 5] = [
    (0x80, "Not listening on called name"),
    (0x81, "Not listening for calling name"),
    (0x82, "Called name not present"),
    (0x83, "Called name present, but insufficient resources"),
    (0x8F, "Unspecified error"),
];
