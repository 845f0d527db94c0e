//! Splitting data into packets (RFC 1002 section 5.3.2; where the cut lies is our profile's choice).

ghost use Rattle.std.specs.Prelude.{◌≡◌, ◌<◌, ◌↔◌, length, map, IsErr, IfOk};
ghost use Rattle.nbt_dgram.specs.Dgram.{dgram_of};
ghost use Rattle.nbt_dgram.specs.Fragments.{IsSplit, packet as of_fragment};

use crate::dgram::{Body, Dgram, Fragment, Names, Part};
use crate::fault::TooLong;
use crate::msg_type::Delivery;
use arrayvec::ArrayVec;
use nbt_name::{Addr, LentName};

/// The packets that data are split into: one, or two in order.
pub type Fragments<'a> = ArrayVec<Dgram<'a>, 2>;

/// The most octets of data (our profile; RFC 1001 section 17 leaves it to each node).
pub(crate) const DATA_MOST: usize = 512;

/// How many octets of a packet of 576 octets are left after PACKET_OFFSET, for the names and the data.
const ROOM: usize = 562;

/// The packets that carry these data from `source` at `own` to `destination`. Where all fits in 576 octets, that is one
/// packet with F set and M clear. Otherwise the first has exactly 576 octets, with F and M set, and the second carries
/// the rest, with neither and without names. `TooLong` (1) exactly where there are more than 512 octets of data. RFC
/// 1002 section 5.3.2; the cut is our profile's.
pub fn split<'a>(
    delivery: Delivery,
    id: u16,
    own: Addr,
    source: &LentName<'a>,
    destination: &LentName<'a>,
    payload: &'a [u8],
) -> Result<Fragments<'a>, TooLong>
    ensures long { IsErr result ↔ (512 < length payload.now) }
    ensures split { IfOk result (λ packets. IsSplit delivery id own
        (record { source = source.now; destination = destination.now }) payload.now (map dgram_of packets.items)) }
{
    if payload.len() > DATA_MOST {
        return Err(TooLong);
    }
    let part = Part::First(Names {
        source: source.copy(),
        destination: destination.copy(),
    });
    let room = ROOM - part.names_len();
    let mut packets = ArrayVec::new();
    if payload.len() <= room {
        packets.push(packet(delivery, id, own, part, false, payload));
        return Ok(packets);
    }
    let (front, back) = payload.split_at(room);
    packets.push(packet(delivery, id, own, part, true, front));
    packets.push(packet(delivery, id, own, Part::Later(room as u16), false, back));
    Ok(packets)
}

fn packet<'a>(
    delivery: Delivery,
    id: u16,
    own: Addr,
    part: Part<'a>,
    more: bool,
    payload: &'a [u8],
) -> Dgram<'a>
    ensures { dgram_of result
        ≡ of_fragment id own (record { delivery = delivery; part = part.entry; more = more; payload = payload.now }) }
{
    let fragment = Fragment {
        delivery,
        part,
        more,
        payload,
    };
    Dgram {
        id,
        source: own,
        body: Body::Fragment(fragment),
    }
}
