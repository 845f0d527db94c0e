//! What a datagram's octets mean for a node in C's memory.

ghost use Rattle.std.specs.Prelude.{◌≡◌, Some, None, IsSome, IsNone, replicate};
ghost use Rattle.nbt_dgram.specs.Accepting.{AcceptValue, accept_of};
ghost use Rattle.nbt_dgram.specs.Joiner.{joiner_of};
ghost use Rattle.nbt_c.specs.Datagrams.{AcceptsFor, accept_after, data_of};
ghost use Rattle.nbt_c.specs.Ends.{addr_of};
ghost use Rattle.nbt_c.specs.Memory.{Changes, Reads};
ghost use Rattle.nbt_c.specs.Results.{Leaves, PutsMost};
ghost use Rattle.nbt_c.specs.Sizes.{joiner_size, object_align};

use crate::buffer::{Octets, put_most, put_packet};
use crate::ends::CAddr;
use crate::held::{CJoiner, CNode, HeldNode};
use crate::name::CName;
use crate::results::NO_MOMENT;
use nbt_dgram::{Accept, Joiner, Reassembly, accept};
use nbt_lease::Moment;
use nbt_name::Addr;

/// What a datagram's octets mean for a node, as C sees it. A field that its kind doesn't name stays as it was.
#[repr(C)]
#[derive(Drop)]
pub struct CAccept {
    /// 0 nothing, 1 up, 2 reply, 3 error, 4 waiting.
    pub kind: u8,
    /// Of error: the code (RFC 1002 section 4.4.3).
    pub code: u8,
    /// Of error: the datagram's id.
    pub id: u16,
    /// Of reply: to whom it goes.
    pub to: CAddr,
    /// Of up: SOURCE_NAME.
    pub source: CName,
    /// Of up: DESTINATION_NAME, which the node holds.
    pub destination: CName,
    /// Of up: how many octets the data have.
    pub size: usize,
}

impl CAccept {
    /// Reports it.
    fn report(&mut self, outcome: &Accept<'_>)
        ensures { self.new ≡ accept_after self.old (accept_of outcome.now) }
    {
        match outcome {
            Accept::Nothing => self.kind = 0,
            Accept::Up(names, payload) => {
                self.kind = 1;
                self.source.store(&Some(names.source.copy()));
                self.destination.store(&Some(names.destination.copy()));
                self.size = payload.len();
            }
            Accept::Reply(to) => {
                self.kind = 2;
                self.to = CAddr::of(*to);
            }
            Accept::Error(id, code) => {
                self.kind = 3;
                self.id = *id;
                self.code = *code;
            }
            Accept::Waiting => self.kind = 4,
        }
    }
}

/// Puts as many octets of the data as fit, if there are any.
fn put_data(outcome: &Accept<'_>, data: &mut [u8])
    ensures { PutsMost (data_of (accept_of outcome.now)) data.old data.new }
{
    match outcome {
        Accept::Up(_, payload) => put_most(payload, data),
        _ => put_most(&[], data),
    }
}

/// The size of a joiner's memory in octets.
#[unsafe(no_mangle)]
pub extern "C" fn nbt_joiner_size() -> usize
    ensures { result ≡ joiner_size }
{
    size_of::<Joiner<4>>()
}

/// The alignment of that memory in octets.
#[unsafe(no_mangle)]
pub extern "C" fn nbt_joiner_align() -> usize
    ensures { result ≡ object_align }
{
    align_of::<Joiner<4>>()
}

/// `nbt_dgram::Joiner::new`: a joiner of 4 slots without unfinished datagrams stands in the memory.
#[unsafe(no_mangle)]
pub extern "C" fn nbt_joiner_start(joiner: &mut CJoiner)
    requires { IsNone joiner.old.joiner }
    ensures { joiner.new.joiner ≡ Some (joiner_of 0 (replicate 4 None)) }
{
    joiner.put(Joiner::new());
}

/// Calls `nbt_dgram::accept` with what C passes.
fn hand(
    joiner: &mut Joiner<4>,
    now: u64,
    node: &HeldNode,
    own: Addr,
    octets: &[u8],
    told: &mut CAccept,
    data: &mut [u8],
    out: &mut Octets,
) -> u8
    ensures { (outcome : AcceptValue) × AcceptsFor joiner.old now node.now own octets.now result outcome out.new.items joiner.new
        × (told.new ≡ accept_after told.old outcome) × PutsMost (data_of outcome) data.old data.new }
{
    out.clear();
    let Some(now) = Moment::new(now) else {
        told.report(&Accept::Nothing);
        put_data(&Accept::Nothing, data);
        return NO_MOMENT;
    };
    let mut room = Reassembly::new();
    let outcome = accept(joiner, now, node, own, octets, &mut room, out);
    told.report(&outcome);
    put_data(&outcome, data);
    0
}

/// `nbt_dgram::accept`: what the octets of one datagram, which came at `now`, mean for the node, whose datagrams come to `own`. 0,
/// and `told` says it; of up, the first octets of the data stand in `data`, as many as fit; of reply, the error packet stands at
/// the front of `out`, `size` being how many octets it has, else 0. 253 where `now` is above 2^60 ms: nothing, and the joiner stays
/// as it was. The node stays.
#[unsafe(no_mangle)]
pub extern "C" fn nbt_datagram_accept(
    joiner: &mut CJoiner,
    node: &mut CNode,
    now: u64,
    own: CAddr,
    octets: &[u8],
    told: &mut CAccept,
    data: &mut [u8],
    out: &mut [u8; 576],
    size: &mut usize,
) -> u8
    requires joiner { IsSome joiner.old.joiner }
    requires node { IsSome node.old.node }
    ensures { Reads node.old.node node.new.node (λ it. Changes joiner.old.joiner joiner.new.joiner (λ old new. (outcome : AcceptValue)
        × Leaves out.old out.new size.new (λ sent. AcceptsFor old now it (addr_of own) octets.now result outcome sent new)
        × (told.new ≡ accept_after told.old outcome) × PutsMost (data_of outcome) data.old data.new)) }
{
    let mut sent = Octets::new();
    let result = hand(
        joiner.get(),
        now,
        node.get(),
        own.addr(),
        octets,
        told,
        data,
        &mut sent,
    );
    *size = put_packet(sent.as_slice(), out);
    result
}
