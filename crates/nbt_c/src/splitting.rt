//! Data that are split into packets of the datagram service.

ghost use Rattle.std.specs.Prelude.{◌≡◌, ◌↔◌, ◌≤◌, ℕ, List, [], Some, length, map, slice_get};
ghost use Rattle.nbt_dgram.specs.declared.msg_type.Delivery.{Delivery as Way};
ghost use Rattle.nbt_dgram.specs.declared.msg_type.MsgType.TheVariants.{Data};
ghost use Rattle.nbt_dgram.specs.Dgram.{DgramValue, dgram_of};
ghost use Rattle.nbt_dgram.specs.Numbers.{type_number};
ghost use Rattle.nbt_dgram.specs.Text.{Fits, text};
ghost use Rattle.nbt_c.specs.Datagrams.{SplitsFor, octets_of};
ghost use Rattle.nbt_c.specs.Ends.{addr_of};
ghost use Rattle.nbt_c.specs.Results.{Leaves};

use crate::buffer::{Octets, put_packet};
use crate::ends::CAddr;
use crate::name::CName;
use crate::results::{NO_KIND, NO_NAME, given};
use nbt_dgram::{Delivery, Dgram, encode, split};
use nbt_name::Addr;

/// MSG_TYPE of a DIRECT_UNIQUE DATAGRAM (RFC 1002 section 4.4.1).
const DIRECT_UNIQUE: u8 = 0x10;
/// MSG_TYPE of a DIRECT_GROUP DATAGRAM.
const DIRECT_GROUP: u8 = 0x11;
/// MSG_TYPE of a BROADCAST DATAGRAM.
const BROADCAST: u8 = 0x12;

/// Whom a datagram with data is for, by MSG_TYPE.
fn delivery_of(kind: u8) -> Option<Delivery>
    ensures { (delivery : Way) → (result ≡ Some delivery) ↔ (kind ≡ type_number (Data delivery)) }
{
    match kind {
        DIRECT_UNIQUE => Some(Delivery::DirectUnique),
        DIRECT_GROUP => Some(Delivery::DirectGroup),
        BROADCAST => Some(Delivery::Broadcast),
        _ => None,
    }
}

/// Writes the packet with this number, if there is one.
fn write(packets: &[Dgram<'_>], which: usize, out: &mut Octets)
    requires fits { (d : DgramValue) → slice_get (map dgram_of packets.now) which ≡ Some d → Fits d × (length (text d) ≤ 576) }
    requires empty { out.old.items ≡ [] }
    ensures { out.new.items ≡ octets_of (slice_get (map dgram_of packets.now) which) }
{
    if let Some(packet) = packets.get(which) {
        encode(packet, out).unwrap();
    }
}

/// Calls `nbt_dgram::split` with what C passes.
fn cut(
    kind: u8,
    id: u16,
    own: Addr,
    source: &CName,
    destination: &CName,
    data: &[u8],
    first: &mut Octets,
    second: &mut Octets,
) -> u8
    ensures { SplitsFor kind id own source.now destination.now data.now result first.new.items second.new.items }
{
    first.clear();
    second.clear();
    given!(source = source.lend(), else NO_NAME);
    given!(destination = destination.lend(), else NO_NAME);
    given!(delivery = delivery_of(kind), else NO_KIND);
    match split(delivery, id, own, &source, &destination, data) {
        Ok(packets) => {
            write(packets.as_slice(), 0, first);
            write(packets.as_slice(), 1, second);
            0
        }
        Err(refusal) => refusal.number(),
    }
}

/// `nbt_dgram::split`: the packets that carry the data from `source` at `own` to `destination`, `kind` being MSG_TYPE: 0x10 to
/// one machine, 0x11 to a group, 0x12 to all. 0, and the first stands at the front of `first`, `first_size` being how many octets
/// it has, and, where the data need two, the second so in `second`; else `second_size` is 0. Else both sizes are 0: 255 where
/// `source` or `destination` holds no name, 252 where `kind` is none of these, `TooLong` (1) above 512 octets of data (RFC 1002
/// section 5.3.2; the cut is our profile's).
#[unsafe(no_mangle)]
pub extern "C" fn nbt_datagram_split(
    kind: u8,
    id: u16,
    own: CAddr,
    source: &CName,
    destination: &CName,
    data: &[u8],
    first: &mut [u8; 576],
    first_size: &mut usize,
    second: &mut [u8; 576],
    second_size: &mut usize,
) -> u8
    ensures { Leaves first.old first.new first_size.new (λ front. Leaves second.old second.new second_size.new
        (SplitsFor kind id (addr_of own) source.now destination.now data.now result front)) }
{
    let mut front = Octets::new();
    let mut back = Octets::new();
    let result = cut(
        kind,
        id,
        own.addr(),
        source,
        destination,
        data,
        &mut front,
        &mut back,
    );
    *first_size = put_packet(front.as_slice(), first);
    *second_size = put_packet(back.as_slice(), second);
    result
}
