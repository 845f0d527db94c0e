//! What `nbt nbns` makes of a request that the profile leaves out or refuses.

use nbt_name::Kind;
use nbt_packet::{Message, Packet, flags, try_classify};
use std::alloc::AllocError;

/// OPCODE of a multi-homed registration (our profile: RFC 1002 section 4.2.1.1 doesn't list it).
const MULTI_HOMED: u16 = 15;

/// OPCODE 5 and RD, the flags of a registration (RFC 1002 section 4.2.2).
const REGISTRATION: u16 = 0x2900;

/// The flags beside R, OPCODE and RD.
const OTHER_FLAGS: u16 = 0x06FF;

/// Appends a line for a request of OPCODE 15 and for an overwrite: what `nbt nbns` makes of it, which takes some of them for
/// registrations, as Samba's programs need it (our profile). Of any other packet nothing.
pub fn write_at_server(packet: Packet<'_>, out: &mut String) -> Result<(), AllocError> {
    match at_server(packet) {
        Some(words) => writeln!(out, "At nbt nbns: {words}"),
        None => Ok(()),
    }
}

/// What is made of a request of OPCODE 15, and of an overwrite.
fn at_server(packet: Packet<'_>) -> Option<&'static str> {
    if !flags::is_request(packet.flags) {
        return None;
    }
    if flags::opcode(packet.flags) == MULTI_HOMED {
        return Some(of_multi_homed(packet));
    }
    match try_classify(&packet) {
        Ok(Message::Overwrite(claim)) => Some(of_overwrite(claim.kind)),
        _ => None,
    }
}

/// What is made of OPCODE 15: with that of a registration it spells one, or it is no message there either.
fn of_multi_homed(packet: Packet<'_>) -> &'static str {
    let mut packet = packet;
    packet.flags = REGISTRATION + (packet.flags & OTHER_FLAGS);
    match try_classify(&packet) {
        Ok(Message::Registration(_)) => {
            "taken for a registration, unless --strict; of a unique name a second address is refused"
        }
        _ => "no reply",
    }
}

/// What is made of an overwrite.
fn of_overwrite(kind: Kind) -> &'static str {
    match kind {
        Kind::Unique => "refused (5)",
        Kind::Group => "taken for a registration, unless --strict",
    }
}
