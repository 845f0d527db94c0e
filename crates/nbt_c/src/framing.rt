//! Session packets that a program in C writes, without allocating (RFC 1002 section 4.3).

ghost use Rattle.std.specs.Prelude.{◌≡◌, ◌≢◌, ℕ, ◌<◌, ◌≤◌, ◌/◌, ◌%◌, List, ◌∷◌, length};
ghost use Rattle.nbt_session.specs.declared.fault.EncodeFault.TheVariants.{TooLong};
ghost use Rattle.nbt_session.specs.declared.packet.PacketType.TheVariants.{Message};
ghost use Rattle.nbt_session.specs.Numbers.{encode_fault_number};
ghost use Rattle.nbt_session.specs.Packet.{header, packet_of, request, retarget, text, type_of};
ghost use Rattle.nbt_c.specs.Sessions.{WritesPacket};
ghost use Rattle.nbt_c.specs.Results.{Leaves};

use crate::buffer::{Octets, put_packet};
use crate::packet::{CPacket, KEEP_ALIVE, MESSAGE, NEGATIVE, POSITIVE, REQUEST, RETARGET};
use crate::results::NO_KIND;
use arrayvec::ArrayVec;
use byteorder::{BigEndian, ByteOrder};
use nbt_name::{Addr, Name, put_long, put_word};
use nbt_session::{EncodeFault, Packet};

/// The most octets of a message: what 17 bits of length can say (RFC 1002 section 4.3.1).
const MESSAGE_MOST: usize = 0x1FFFF;

/// The header of a SESSION MESSAGE of so many octets, which follow it on the stream (RFC 1002 section 4.3.6). 0, and it stands in
/// `out`; or `TooLong` (1) above 131,071, `out` being left as it was.
#[unsafe(no_mangle)]
pub extern "C" fn nbt_session_message(count: usize, out: &mut [u8; 4]) -> u8
    ensures written { count ≤ 131071 → (result ≡ 0) × (out.new ≡ header Message count) }
    ensures long { 131071 < count → (result ≡ encode_fault_number TooLong) × (out.new ≡ out.old) }
{
    if count > MESSAGE_MOST {
        return EncodeFault::TooLong.number();
    }
    BigEndian::write_u32(out, count as u32);
    0
}

/// The text of a session packet that is no message (RFC 1002 section 4.3). 0, and it stands at the front of `out`, `size` being how
/// many octets it has, 4 to 514. Else `size` is 0: 252 where its kind is none of 0x81 to 0x85, 255 where a name of a request holds
/// none.
#[unsafe(no_mangle)]
pub extern "C" fn nbt_session_write(packet: &CPacket, out: &mut [u8; 576], size: &mut usize) -> u8
    ensures { Leaves out.old out.new size.new (WritesPacket packet.now result) }
{
    let mut octets = Octets::new();
    let result = write(packet, &mut octets);
    *size = put_packet(octets.as_slice(), out);
    result
}

/// Leaves in `out` the text of a packet, of what C passes.
fn write(packet: &CPacket, out: &mut Octets) -> u8
    ensures { WritesPacket packet.now result out.new.items }
{
    out.clear();
    if packet.kind == MESSAGE {
        return NO_KIND;
    }
    match packet.read_other() {
        Ok(read) => {
            put_text(&read, out);
            0
        }
        Err(number) => number,
    }
}

/// Leaves in `out` the text of a packet that is no message.
pub(crate) fn put_text(packet: &Packet, out: &mut Octets)
    requires { type_of (packet_of packet.now) ≢ Message }
    ensures { out.new.items ≡ text (packet_of packet.now) }
{
    match packet {
        Packet::Message(_) => {}
        Packet::Request { called, calling } => put_names(called, calling, out),
        Packet::Positive => frame(POSITIVE, &[], out),
        Packet::Negative(code) => frame(NEGATIVE, &[*code], out),
        Packet::Retarget(to) => put_endpoint(*to, out),
        Packet::KeepAlive => frame(KEEP_ALIVE, &[], out),
    }
}

/// Leaves in `out` the text of a request: its two names (RFC 1002 section 4.3.2).
pub(crate) fn put_names(called: &Name, calling: &Name, out: &mut Octets)
    ensures { out.new.items ≡ text (request called.now calling.now) }
{
    let mut body: ArrayVec<u8, 510> = ArrayVec::new();
    called.put_wire(&mut body);
    calling.put_wire(&mut body);
    frame(REQUEST, body.as_slice(), out);
}

/// Leaves in `out` the text of a retarget (RFC 1002 section 4.3.5).
fn put_endpoint(to: Addr, out: &mut Octets)
    ensures { out.new.items ≡ text (retarget to) }
{
    let mut body: ArrayVec<u8, 6> = ArrayVec::new();
    put_long(&mut body, to.ip);
    put_word(&mut body, to.port);
    frame(RETARGET, body.as_slice(), out);
}

/// Leaves in `out` a header and the octets that it counts.
fn frame(kind: u8, body: &[u8], out: &mut Octets)
    requires { length body.now ≤ 510 }
    ensures { out.new.items
        ≡ kind ∷ length body.now / 65536 ∷ length body.now / 256 % 256 ∷ length body.now % 256 ∷ body.now }
{
    let mut header = [0; 4];
    BigEndian::write_u32(&mut header, body.len() as u32);
    header[0] = kind;
    out.clear();
    out.try_extend_from_slice(&header).unwrap();
    out.try_extend_from_slice(body).unwrap();
}
