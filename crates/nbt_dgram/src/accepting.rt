//! Accepting datagrams at a node (RFC 1002 section 5.3.3).

ghost use Rattle.std.specs.Prelude.{◌≡◌, []};
ghost use Rattle.nbt_dgram.specs.declared.msg_type.Delivery.TheVariants.{Broadcast};
ghost use Rattle.nbt_dgram.specs.Dgram.{fragment, dgram_of};
ghost use Rattle.nbt_dgram.specs.Joiner.{whole, IsData};
ghost use Rattle.nbt_dgram.specs.Text.{text};
ghost use Rattle.nbt_dgram.specs.Accepting.{accept_of, Accepts, Hands, not_present};
ghost use Rattle.nbt_dgram.specs.Inner.Accepting.{PutsUp};

use crate::decoding::decode;
use crate::dgram::{Body, Dgram, Names};
use crate::joined::Joined;
use crate::joiner::Joiner;
use crate::msg_type::Delivery;
use crate::outcome::Accept;
use crate::reassembly::Reassembly;
use crate::writing::encode;
use arrayvec::ArrayVec;
use nbt_lease::Moment;
use nbt_name::Addr;
use nbt_node::Node;

/// The error's code: destination name not present (RFC 1002 section 4.4.3).
const NOT_PRESENT: u8 = 0x82;

/// Accepts the octets of one datagram at a node that receives datagrams at `own`.
///
/// - `Up` where a datagram for one holder or a group (0x10, 0x11) is whole by `Joiner::put`, and the node holds the
///   destination name at `now`, of either kind.
/// - `Reply` where one for one holder (0x10) is whole, and the node doesn't hold that name: the error packet with its id,
///   the code 0x82 and `own` as its source is in `out`, for its SOURCE_IP and SOURCE_PORT. At a time before that of the
///   node's last call it holds no name.
/// - `Error` for an error packet (0x13), with its id and its code.
/// - `Waiting` where other fragments are missing.
/// - `Nothing` for all else: what `decode` refuses (its faults 1 to 8), what `Joiner::put` drops (1 to 4), a whole one for
///   a group that isn't held, and any other type. Only 0x10 and 0x11 are put to the joiner, so nothing else changes it.
///
/// What is put together from fragments stands in `room`, which lends it. `out` is empty but for `Reply`. RFC 1002 section 5.3.3, in our profile's choice.
#[inline(never)]
pub fn accept<'a, const S: usize, const N: usize>(
    joiner: &mut Joiner<S>,
    now: Moment,
    node: &Node<N>,
    own: Addr,
    octets: &'a [u8],
    room: &'a mut Reassembly,
    out: &mut ArrayVec<u8, 576>,
) -> Accept<'a>
    ensures { Accepts joiner.old now node.now own octets.now (accept_of result) out.new.items joiner.new }
{
    out.clear();
    let Ok((dgram, _)) = decode(octets) else {
        return Accept::Nothing;
    };
    match &dgram.body {
        Body::Fragment(fragment) => put_up(
            joiner,
            now,
            node,
            own,
            &dgram,
            fragment.delivery,
            room,
            out,
        ),
        Body::Error(code) => Accept::Error(dgram.id, *code),
        Body::Lookup(_, _) => Accept::Nothing,
    }
}

/// Puts a datagram to the joiner, unless it is for every host in a scope.
fn put_up<'a, const S: usize, const N: usize>(
    joiner: &mut Joiner<S>,
    now: Moment,
    node: &Node<N>,
    own: Addr,
    dgram: &Dgram<'a>,
    delivery: Delivery,
    room: &'a mut Reassembly,
    out: &mut ArrayVec<u8, 576>,
) -> Accept<'a>
    requires body { IsData (dgram_of dgram.now) }
    requires empty { out.old.items ≡ [] }
    ensures { PutsUp joiner.old now node.now own (dgram_of dgram.now) delivery
        (accept_of result) out.new.items joiner.new }
{
    if delivery.is(Delivery::Broadcast) {
        return Accept::Nothing;
    }
    match joiner.put(now, dgram, room) {
        Joined::Whole(names, payload) => {
            hand_up(now, node, own, dgram, delivery, names, payload, out)
        }
        Joined::Waiting => Accept::Waiting,
        Joined::Dropped(_) => Accept::Nothing,
    }
}

/// Hands a whole datagram up where the node holds the destination name.
fn hand_up<'a, const N: usize>(
    now: Moment,
    node: &Node<N>,
    own: Addr,
    dgram: &Dgram<'_>,
    delivery: Delivery,
    names: Names<'a>,
    payload: &'a [u8],
    out: &mut ArrayVec<u8, 576>,
) -> Accept<'a>
    requires { out.old.items ≡ [] }
    ensures { Hands node.now now own (dgram_of dgram.now) delivery (whole names.entry payload.now)
        (accept_of result) out.new.items }
{
    if node.holds(now, &names.destination).is_some() {
        return Accept::Up(names, payload);
    }
    if !delivery.is(Delivery::DirectUnique) {
        return Accept::Nothing;
    }
    refuse(dgram.id, own, out);
    Accept::Reply(dgram.source)
}

/// Leaves in `out` the error packet that says that the destination name is not held here.
fn refuse(id: u16, own: Addr, out: &mut ArrayVec<u8, 576>)
    ensures { out.new.items ≡ text (not_present id own) }
{
    let error = Dgram {
        id,
        source: own,
        body: Body::Error(NOT_PRESENT),
    };
    encode(&error, out).unwrap();
}
