//! A node that registers a name and holds it, over a port and a clock.

ghost use Rattle.std.specs.Prelude.{◌≡◌, ℕ, List, ◌∷◌, Some, IfSome, IsNone, IfOk, OnOk, OnErr};
ghost use Rattle.nbt_node.specs.Moves.{told_of, replied};
ghost use Rattle.nbt_node.specs.Calls.{Polls};
ghost use Rattle.nbt_node.specs.Datagrams.{Handles};
ghost use Rattle.nbt_port.specs.PortCalls.{PortCall, came, receive_failed, send_failed, route_to, Chain, CountsFailure};
ghost use Rattle.nbt_client.specs.Turning.{AsksFor, Asks, PollsAll, EndsPolls, BreaksPolls, TurnHears, seen_of, TakesTurn, BreaksTurn};

use arrayvec::ArrayVec;
use nbt_lease::Moment;
use nbt_name::{Addr, Kind, Name};
use nbt_node::{Event, Node};
use nbt_port::{Clock, Device, Port, Route};

/// The most names that a node has slots for.
pub const SLOTS: usize = 14;

/// A name that is to be held, as which kind, and for how long.
#[derive(Debug, Drop)]
pub struct Want {
    /// The name.
    pub name: Name,
    /// Who may hold it.
    pub kind: Kind,
    /// The TTL to request, in seconds; 0 for the longest that the server grants.
    pub ttl: u32,
}

/// What came of a turn for the names of a node.
#[derive(Clone, Copy, Debug, PartialEq, Eq)]
pub enum Seen {
    /// Nothing that a user of names waits for.
    Nothing,
    /// The name is granted, for these seconds from the first sending of the request.
    Granted(u32),
    /// A hold was renewed, for these seconds from the first sending of the refresh.
    Renewed(u32),
    /// The name is refused, with this RCODE (RFC 1002 section 4.2.6).
    Refused(u8),
    /// A name isn't held any more.
    Lost,
}

/// One turn of a node. The clock is read, and the name is requested of `server`, unless the node refuses that. The node is
/// polled until it has nothing to send, each datagram going to its destination. Then the port receives once, the clock is read
/// again, and the node handles what came; the reply to a status request goes by the route of the request. Returns what came of
/// it. What the node refuses since the clock went back is ignored. Refused with `Device` at the first call of the port that
/// fails: nothing else of the turn is done, and the node is as it was before the receive, or as after the call that made the
/// sending, which is lost.
pub fn node_turn<P: Port, C: Clock, const N: usize>(
    port: &mut P,
    clock: &mut C,
    node: &mut Node<N>,
    server: Addr,
    want: &Want,
) -> Result<Seen, Device>
    ensures ok { IfOk result (λ seen. (acts : List PortCall) × (moments : List ℕ) × TakesTurn server want.now node.old acts moments seen node.new
        × Chain P.does port.old acts port.new × Chain C.tells clock.old moments clock.new) }
    ensures err { OnErr result ((acts : List PortCall) × (moments : List ℕ) × BreaksTurn server want.now node.old acts moments node.new
        × Chain P.does port.old acts port.new × Chain C.tells clock.old moments clock.new) }
    // It is refused exactly where the port's count of failures grew.
    ensures device { CountsFailure (P.failures port.old) (P.failures port.new) result }
{
    let mut out = ArrayVec::new();
    let now = clock.now();
    ask(port, node, server, now, want, &mut out)?;
    poll_all(port, node, now, &mut out)?;
    let mut octets = ArrayVec::new();
    let from = port.receive(&mut octets)?;
    let now = clock.now();
    match from {
        Some(from) => hear(port, node, now, from, octets.as_slice(), &mut out),
        None => Ok(Seen::Nothing),
    }
}

/// Requests the name, where the node may.
fn ask<P: Port, const N: usize>(
    port: &mut P,
    node: &mut Node<N>,
    server: Addr,
    now: Moment,
    want: &Want,
    out: &mut ArrayVec<u8, 576>,
) -> Result<(), Device>
    ensures ok { OnOk result ((acts : List PortCall) × Asks server now want.now node.old acts node.new × Chain P.does port.old acts port.new) }
    ensures err { OnErr result ((octets : List ℕ) × AsksFor now want.now node.old octets node.new × P.does port.old (send_failed (route_to server) octets) port.new) }
    ensures device { CountsFailure (P.failures port.old) (P.failures port.new) result }
{
    match node.ask(now, &want.name.lend(), want.kind, want.ttl, out) {
        Ok(()) => port.send(Route::to(server), out.as_slice()),
        Err(_) => Ok(()),
    }
}

/// Sends all that is due at a time: the node is polled until it has nothing to send, each datagram going to its destination, by
/// way of the buffer `out`. A poll that is refused since the clock went back ends that too. Refused with `Device` at the first
/// send that fails: no poll follows, and the node is as after the poll that made that sending, which is lost.
pub fn poll_all<P: Port, const N: usize>(
    port: &mut P,
    node: &mut Node<N>,
    now: Moment,
    out: &mut ArrayVec<u8, 576>,
) -> Result<(), Device>
    ensures ok { OnOk result ((acts : List PortCall) × PollsAll now node.old acts node.new × Chain P.does port.old acts port.new) }
    ensures err { OnErr result ((acts : List PortCall) × BreaksPolls now node.old acts node.new × Chain P.does port.old acts port.new) }
    // It is refused exactly where the port's count of failures grew.
    ensures device { CountsFailure (P.failures port.old) (P.failures port.new) result }
{
    nbt_node::laws::settling_ends();
    while let Some(to) = next_due(node, now, out) {
        port.send(Route::to(to), out.as_slice())?;
    }
    Ok(())
}

/// The destination of what the node has due at a time, in `out`.
fn next_due<const N: usize>(
    node: &mut Node<N>,
    now: Moment,
    out: &mut ArrayVec<u8, 576>,
) -> Option<Addr>
    ensures due { IfSome result (λ to. Polls node.old now node.new (Some to) out.new.items) }
    ensures none { IsNone result → EndsPolls now node.old node.new }
{
    match node.poll(now, out) {
        Ok(to) => to,
        Err(_) => None,
    }
}

/// Handles a datagram, and sends the reply to a status request by the same route.
fn hear<P: Port, const N: usize>(
    port: &mut P,
    node: &mut Node<N>,
    now: Moment,
    from: Route,
    octets: &[u8],
    out: &mut ArrayVec<u8, 576>,
) -> Result<Seen, Device>
    ensures ok { IfOk result (λ seen. (acts : List PortCall) × TurnHears now node.old (came from octets.now ∷ acts) seen node.new × Chain P.does port.old acts port.new) }
    ensures err { OnErr result ((reply : List ℕ) × Handles node.old now from.peer octets.now node.new replied reply × P.does port.old (send_failed from reply) port.new) }
    ensures device { CountsFailure (P.failures port.old) (P.failures port.new) result }
{
    let Ok(event) = node.on_datagram(now, from.peer, octets, out) else {
        return Ok(Seen::Nothing);
    };
    match event {
        Event::Reply => {
            port.send(from, out.as_slice())?;
            Ok(Seen::Nothing)
        }
        _ => Ok(seen_of(event)),
    }
}

/// What a user of names sees of an event.
fn seen_of(event: Event<'_>) -> Seen
    ensures { result ≡ seen_of (told_of event.entry) }
{
    match event {
        Event::Granted(seconds) => Seen::Granted(seconds),
        Event::Renewed(seconds) => Seen::Renewed(seconds),
        Event::Refused(rcode) => Seen::Refused(rcode),
        Event::Lost => Seen::Lost,
        _ => Seen::Nothing,
    }
}
