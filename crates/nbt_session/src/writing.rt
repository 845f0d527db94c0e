//! Writing a packet's text (RFC 1002 section 4.3).

ghost use Rattle.std.specs.Prelude.{◌≡◌, ◌<◌, ◌≤◌, ◌↔◌, ◌^◌, ◌++◌, length, OnOk, OnErr, IsErrOf};
ghost use Rattle.nbt_name.specs.Words.{word, long};
ghost use Rattle.nbt_name.specs.Wire.{IsName, AreOctets, wire};
ghost use Rattle.nbt_session.specs.declared.fault.EncodeFault.TheVariants.{TooLong};
ghost use Rattle.nbt_session.specs.declared.packet.PacketType.TheVariants.{Message, Request, Retarget};
ghost use Rattle.nbt_session.specs.Packet.{IsPacket, body_of, framed, packet_of, text};

use crate::fault::EncodeFault;
use crate::header::HEADER;
use crate::packet::{MESSAGE_MOST, Packet, PacketType};
use arrayvec::ArrayVec;
use byteorder::{BigEndian, ByteOrder};
use nbt_name::{Addr, Name, put_long, put_word};
use std::alloc::AllocError;

/// Appends the packet's text (RFC 1002 section 4.3). Refused in this order, the octets then being as they were:
/// `TooLong` (1) for a message above 131,071 octets, `OutOfMemory` (2).
pub fn encode(packet: &Packet, out: &mut Vec<u8>) -> Result<(), EncodeFault>
    ensures ok { OnOk result (out.new.items ≡ out.old.items ++ text (packet_of packet.now)) }
    ensures packet { OnOk result (IsPacket (packet_of packet.now)) }
    ensures long { IsErrOf result TooLong ↔ (131071 < length (body_of (packet_of packet.now))) }
    ensures err { OnErr result (out.new.items ≡ out.old.items) }
{
    match packet {
        Packet::Message(octets) => put_message(out, octets),
        Packet::Request { called, calling } => Ok(put_request(out, called, calling)?),
        Packet::Positive => Ok(put(out, PacketType::Positive, &[])?),
        Packet::Negative(code) => Ok(put(out, PacketType::Negative, &[*code])?),
        Packet::Retarget(to) => Ok(put_retarget(out, *to)?),
        Packet::KeepAlive => Ok(put(out, PacketType::KeepAlive, &[])?),
    }
}

/// Appends a header and the octets that it counts.
fn put(out: &mut Vec<u8>, kind: PacketType, body: &[u8]) -> Result<(), AllocError>
    requires { length body.now ≤ 131071 }
    ensures ok { OnOk result (out.new.items ≡ out.old.items ++ framed kind body.now) }
    ensures err { OnErr result (out.new.items ≡ out.old.items) }
{
    let mut header = [0; HEADER];
    BigEndian::write_u32(&mut header, body.len() as u32);
    header[0] = kind.octet();
    out.reserve(HEADER + body.len())?;
    out.extend_from_slice(&header).unwrap();
    out.extend_from_slice(body).unwrap();
    Ok(())
}

/// Appends a message's text, or refuses it (RFC 1002 section 4.3.6).
fn put_message(out: &mut Vec<u8>, octets: &[u8]) -> Result<(), EncodeFault>
    ensures ok { OnOk result (out.new.items ≡ out.old.items ++ framed Message octets.now) }
    ensures long { IsErrOf result TooLong ↔ (131071 < length octets.now) }
    ensures short { OnOk result (length octets.now ≤ 131071) }
    ensures octets { AreOctets octets.now }
    ensures err { OnErr result (out.new.items ≡ out.old.items) }
{
    if octets.len() > MESSAGE_MOST {
        return Err(EncodeFault::TooLong);
    }
    put(out, PacketType::Message, octets)?;
    Ok(())
}

/// Appends a request's text: the two names in their wire form (RFC 1002 section 4.3.2).
fn put_request(out: &mut Vec<u8>, called: &Name, calling: &Name) -> Result<(), AllocError>
    ensures ok { OnOk result (out.new.items ≡ out.old.items ++ framed Request (wire called.now ++ wire calling.now)) }
    ensures names { IsName called.now × IsName calling.now }
    ensures short { length (wire called.now ++ wire calling.now) ≤ 510 }
    ensures err { OnErr result (out.new.items ≡ out.old.items) }
{
    let mut body: ArrayVec<u8, 510> = ArrayVec::new();
    called.put_wire(&mut body);
    calling.put_wire(&mut body);
    put(out, PacketType::Request, body.as_slice())
}

/// Appends a retarget's text (RFC 1002 section 4.3.5).
fn put_retarget(out: &mut Vec<u8>, to: Addr) -> Result<(), AllocError>
    ensures ok { OnOk result (out.new.items ≡ out.old.items ++ framed Retarget (long to.ip ++ word to.port)) }
    ensures fits { (to.ip < 2 ^ 32) × (to.port < 2 ^ 16) }
    ensures err { OnErr result (out.new.items ≡ out.old.items) }
{
    let mut body: ArrayVec<u8, 6> = ArrayVec::new();
    put_long(&mut body, to.ip);
    put_word(&mut body, to.port);
    put(out, PacketType::Retarget, body.as_slice())
}
