//! One turn of a lookup.

ghost use Rattle.std.specs.Prelude.{◌≡◌, IfOk, OnErr, IsTrue, ◌↔◌};
ghost use Rattle.nbt_node.specs.Moves.{Told, told_of};
ghost use Rattle.nbt_port.specs.PortCalls.{came, receive_failed, CountsFailure};
ghost use Rattle.nbt_client.specs.Lookups.{Hears, GoesOn, is_end, BreaksTurn};
ghost use Rattle.nbt_client.specs.Inner.Steps.{TurnIs, HeardIs};

use crate::turning::poll_all;
use arrayvec::ArrayVec;
use nbt_lease::Moment;
use nbt_node::{Event, Node};
use nbt_port::{Clock, Device, Port, Route};

/// What came of a turn of a lookup.
#[derive(Clone, Copy, Debug, PartialEq, Eq)]
pub enum Progress {
    /// The lookup goes on.
    Waits,
    /// A reply has ended it.
    Told,
    /// The lookup was over at the turn's time, and nothing was done.
    Late,
}

/// Whether a lookup goes on at a time.
fn goes_on<const N: usize>(node: &Node<N>, limit: u64, now: Moment) -> bool
    ensures { IsTrue result ↔ GoesOn limit node.now now }
{
    now.get() < limit && node.lookup_open(now)
}

/// One turn of a lookup, if it goes on. What came stands in `octets`.
pub fn take_turn<P: Port, C: Clock, const N: usize>(
    port: &mut P,
    clock: &mut C,
    node: &mut Node<N>,
    limit: u64,
    octets: &mut ArrayVec<u8, 2048>,
) -> Result<Progress, Device>
    ensures err { OnErr result (BreaksTurn P.does C.tells limit
        (record { port = port.old; clock = clock.old; node = node.old }) (record { port = port.new; clock = clock.new; node = node.new })) }
    ensures ok { IfOk result (λ progress. TurnIs P.does C.tells limit progress octets.new.items
        (record { port = port.old; clock = clock.old; node = node.old }) (record { port = port.new; clock = clock.new; node = node.new })) }
    ensures device { CountsFailure (P.failures port.old) (P.failures port.new) result }
{
    let now = clock.now();
    if !goes_on(node, limit, now) {
        return Ok(Progress::Late);
    }
    let mut out = ArrayVec::new();
    poll_all(port, node, now, &mut out)?;
    match listen(port, clock, node, octets, &mut out)? {
        true => Ok(Progress::Told),
        false => Ok(Progress::Waits),
    }
}

/// Receives once, and the node handles what came. Returns whether that ended the lookup.
fn listen<P: Port, C: Clock, const N: usize>(
    port: &mut P,
    clock: &mut C,
    node: &mut Node<N>,
    octets: &mut ArrayVec<u8, 2048>,
    out: &mut ArrayVec<u8, 576>,
) -> Result<bool, Device>
    ensures err { OnErr result (P.does port.old receive_failed port.new × (node.new ≡ node.old) × (clock.new ≡ clock.old)) }
    ensures ok { IfOk result (λ ended. HeardIs P.does C.tells ended octets.new.items port.old clock.old node.old port.new clock.new node.new) }
    ensures device { CountsFailure (P.failures port.old) (P.failures port.new) result }
{
    let from = port.receive(octets)?;
    let now = clock.now();
    match from {
        Some(from) => Ok(hear(node, now, from, octets.as_slice(), out)),
        None => Ok(false),
    }
}

/// The node handles a datagram. Returns whether that ended the lookup.
fn hear<const N: usize>(
    node: &mut Node<N>,
    now: Moment,
    from: Route,
    octets: &[u8],
    out: &mut ArrayVec<u8, 576>,
) -> bool
    ensures { (told : Told) × Hears now node.old (came from octets.now) told node.new × (result ≡ is_end told) }
{
    match node.on_datagram(now, from.peer, octets, out) {
        Ok(event) => is_end(event),
        Err(_) => false,
    }
}

/// Whether an event ends a lookup.
fn is_end(event: Event<'_>) -> bool
    ensures { result ≡ is_end (told_of event.entry) }
{
    match event {
        Event::Found { .. } | Event::NotFound | Event::Status(_) => true,
        _ => false,
    }
}
