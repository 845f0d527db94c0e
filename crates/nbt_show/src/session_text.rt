//! What the octets of a session's stream say, packet by packet, as text (our profile).

ghost use Rattle.std.specs.Prelude.{◌≡◌, ℕ, ◌++◌, List, OnOk, IfOk, codes};
ghost use Rattle.std.specs.String.{string_bytes};
ghost use Rattle.nbt_session.specs.Packet.{packet_of};
ghost use Rattle.nbt_text.specs.NameText.{PrintsName};
ghost use Rattle.nbt_show.specs.SessionText.{whole_of, PrintsPacketLine, PrintsSession, message_line, request_line, rest_line, session_fault_line};

use crate::dgram_text::write_octet;
use crate::packet_text::write_data;
use crate::session_packet::{Whole, next_packet};
use nbt_name::Name;
use nbt_session::{Fault, Packet, Pieces, StreamFault};
use nbt_text::{end_line, write_address, write_name};
use std::alloc::AllocError;

/// Appends a line for each packet that the octets begin with, one after the other, and one for how many octets are
/// left, which begin with no whole packet and have no fault; or, where they have one, the line of that fault, whose
/// place is counted from the first octet left. Returns whether there is no fault.
pub fn write_session(octets: &[u8], out: &mut String) -> Result<bool, AllocError>
    ensures { IfOk result (λ faultless. (text : List ℕ) × (string_bytes out.new ≡ string_bytes out.old ++ text)
        × PrintsSession octets.now faultless text) }
{
    nbt_session::laws::text_is_read();
    let mut pieces = Pieces::new();
    let mut rest = octets;
    'packets: loop {
        match next_packet(&mut pieces, rest) {
            Ok(Some((taken, packet))) => {
                write_packet_line(&packet, out)?;
                rest = &rest[taken..];
            }
            Ok(None) => {
                write_rest(rest, out)?;
                return Ok(true);
            }
            Err(StreamFault::Malformed(fault)) => {
                write_fault(fault, out)?;
                return Ok(false);
            }
            Err(StreamFault::OutOfMemory) => return Err(AllocError),
        }
    }
}

/// Appends the line of a packet.
fn write_packet_line(packet: &Whole<'_>, out: &mut String) -> Result<(), AllocError>
    ensures { OnOk result ((line : List ℕ) × (string_bytes out.new ≡ string_bytes out.old ++ line)
        × PrintsPacketLine (whole_of packet.now) line) }
{
    match packet {
        Whole::Message(octets) => write_message_line(octets, out),
        Whole::Other(packet) => write_other_line(packet, out),
    }
}

/// Appends the line of a packet that has its own octets.
fn write_other_line(packet: &Packet, out: &mut String) -> Result<(), AllocError>
    ensures { OnOk result ((line : List ℕ) × (string_bytes out.new ≡ string_bytes out.old ++ line)
        × PrintsPacketLine (packet_of packet.now) line) }
{
    match packet {
        Packet::Message(octets) => write_message_line(octets, out),
        Packet::Request { called, calling } => write_request_line(called, calling, out),
        Packet::Positive => out.push_str("positive\n"),
        Packet::Negative(code) => {
            out.push_str("negative ")?;
            write_octet(*code, out)?;
            end_line(out)
        }
        Packet::Retarget(to) => {
            out.push_str("retarget ")?;
            write_address(*to, out)?;
            end_line(out)
        }
        Packet::KeepAlive => out.push_str("keep-alive\n"),
    }
}

/// Appends the line of a message with these octets of data.
fn write_message_line(octets: &[u8], out: &mut String) -> Result<(), AllocError>
    ensures { OnOk result (string_bytes out.new ≡ string_bytes out.old ++ message_line octets.now) }
{
    let count = octets.len();
    write!(out, "message {count} ")?;
    write_data(octets, out)?;
    end_line(out)
}

/// Appends the line of a request.
fn write_request_line(called: &Name, calling: &Name, out: &mut String) -> Result<(), AllocError>
    ensures { OnOk result ((one : List ℕ) × (other : List ℕ)
        × (string_bytes out.new ≡ string_bytes out.old ++ request_line one other)
        × PrintsName called.now one × PrintsName calling.now other) }
{
    out.push_str("request ")?;
    write_name(called, out)?;
    out.push_str(" ")?;
    write_name(calling, out)?;
    end_line(out)
}

/// Appends the line of the octets that are left.
fn write_rest(rest: &[u8], out: &mut String) -> Result<(), AllocError>
    ensures { OnOk result (string_bytes out.new ≡ string_bytes out.old ++ rest_line rest.now) }
{
    let count = rest.len();
    writeln!(out, "rest {count}")
}

/// Appends the line of a fault.
fn write_fault(fault: Fault, out: &mut String) -> Result<(), AllocError>
    ensures { OnOk result (string_bytes out.new ≡ string_bytes out.old ++ session_fault_line fault) }
{
    let word = fault.kind.word();
    let place = fault.place;
    writeln!(out, "fault {word} at {place}")
}
