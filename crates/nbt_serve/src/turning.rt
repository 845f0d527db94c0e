//! One turn of a server that keeps its leases.

ghost use Rattle.std.specs.Prelude.{◌≡◌, ◌<◌, ◌≤◌, ◌+◌, ◌^◌, ◌++◌, ◌∷◌, [], ℕ, List, not, nat_lt, length, Option, None, Some, is_some, IfOk, OnOk, OnErr, IfErr};
ghost use Rattle.nbt_port.specs.PortCalls.{receiving, Chain};
ghost use Rattle.nbt_port.specs.declared.port.Route.{Route as RouteValue};
ghost use Rattle.nbt_store.specs.Calls.{append_failed};
ghost use Rattle.nbt_store.specs.declared.change.Change.{Change as ChangeValue};
ghost use Rattle.nbt_serve.specs.Serving.{Turn, moments_in, IsLogged};
ghost use Rattle.nbt_serve.specs.Changing.{IsChange};
ghost use Rattle.nbt_serve.specs.Waiting.{batch, with_line, dropped};
ghost use Rattle.nbt_serve.specs.Inner.Taking.{HasTaken, FailsToTake};
ghost use Rattle.nbt_serve.specs.Turning.{with_any, appends_of, KeepsTurn, BreaksKeeping};

use crate::changing::{change_of, changes_leases};
use crate::fault::KeepFault;
use crate::needing::room_for;
use crate::share::Share;
use crate::waiting::{Sent, Waiting};
use arrayvec::ArrayVec;
use nbt_lease::Moment;
use nbt_log::Entry;
use nbt_port::{Clock, Device, Port, Route};
use nbt_server::{Outcome, Server};
use nbt_store::{Broken, Store};

/// The server goes through one turn. It receives a datagram, and waits for it where no reply waits. Where one came, it reads the
/// clock. A request for a change is barred where its client has had its share of changes in this second of the clock, or memory was refused to count
/// it: it is lost, before it costs a line. So it is where the store has room for times alone, unless the server refuses it as it has it; and every datagram is lost where the store has room
/// for no line. Every change counts, that of a renewal too; a request that changes nothing doesn't. Where the moment is
/// more than a second past the last durable time, the time becomes durable first, with all that waits for it. Then it handles the datagram at that time, and has the store append what that changed. Its reply leaves ahead of those that wait where no
/// line had to become durable before it, and none waits and all is durable, or it answers a query, and no reply about its name waits; else it
/// waits with those before it. All that waits leaves where nothing came, or all is durable, or 64 wait, or 64 datagrams came from the
/// first change on that isn't durable: changes that aren't durable first become so, the clock is read once more, and a reply is dropped whose
/// request was read longer ago than LIFE. A reply leaves by the route of its datagram, from the address that was asked. `entry` is what the
/// server did in this turn; `None` where nothing came, and where the datagram was barred, or lost as [`crate::serve_turns`] says. `octets` and `reply` are
/// buffers of the turn. Returns whether the turn's reply went ahead, and the moment at which what waited left, if it did.
///
/// Refused with `Port` at a receive that fails, and at a send that fails: that reply is lost, and those behind it still wait.
/// Refused with `Store` at an append or a sync that fails: all replies are dropped, and the caller must end the server. `entry` may
/// then be anything, and so may the counts of `share`.
pub fn keep_turn<P: Port, C: Clock, S: Store>(
    port: &mut P,
    clock: &mut C,
    store: &mut S,
    server: &mut Server,
    share: &mut Share,
    waiting: &mut Waiting,
    octets: &mut ArrayVec<u8, 2048>,
    reply: &mut ArrayVec<u8, 576>,
    entry: &mut Option<Entry>,
) -> Result<Sent, KeepFault>
    requires room { length waiting.old.replies < batch }
    ensures ok { IfOk result (λ sent. KeepsTurn P.does S.does C.tells
        (record { port = port.old; store = store.old; clock = clock.old; server = server.old; share = share.old; waiting = waiting.old }) entry.new sent
        (record { port = port.new; store = store.new; clock = clock.new; server = server.new; share = share.new; waiting = waiting.new })) }
    ensures err { IfErr result (λ why. BreaksKeeping P.does S.does C.tells why
        (record { port = port.old; store = store.old; clock = clock.old; server = server.old; share = share.old; waiting = waiting.old })
        (record { port = port.new; store = store.new; clock = clock.new; server = server.new; share = share.new; waiting = waiting.new })) }
    ensures room { length waiting.new.replies < batch }
{
    let came = receive(port, waiting.is_empty(), octets)?;
    let synced = take_any(
        clock,
        store,
        server,
        share,
        waiting,
        came,
        octets.as_slice(),
        reply,
        entry,
    )?;
    match waiting.pass(came, entry, reply, synced, server, port, store, clock) {
        Ok(sent) => Ok(sent),
        Err(why) => Err(why),
    }
}

/// Receives a datagram, and waits for it or not.
fn receive<P: Port>(
    port: &mut P,
    waits: bool,
    octets: &mut ArrayVec<u8, 2048>,
) -> Result<Option<Route>, Device>
    ensures does { P.does port.old (receiving result octets.new.items) port.new }
{
    if waits {
        port.receive(octets)
    } else {
        port.receive_now(octets)
    }
}

/// Takes a datagram, if one came, as [`take`] does, with the same refusals.
fn take_any<C: Clock, S: Store>(
    clock: &mut C,
    store: &mut S,
    server: &mut Server,
    share: &mut Share,
    waiting: &mut Waiting,
    came: Option<Route>,
    octets: &[u8],
    reply: &mut ArrayVec<u8, 576>,
    entry: &mut Option<Entry>,
) -> Result<bool, Broken>
    ensures ok { IfOk result (λ synced. HasTaken S.does C.tells store.old clock.old server.old share.old waiting.old came octets.now entry.new reply.new.items synced store.new clock.new server.new share.new waiting.new) }
    ensures err { OnErr result ((from : RouteValue) × (came ≡ Some from) × FailsToTake S.does C.tells store.old clock.old server.old share.old waiting.old from octets.now store.new clock.new server.new waiting.new) }
{
    match came {
        Some(from) => take(
            clock, store, server, share, waiting, from, octets, reply, entry,
        ),
        None => {
            *entry = None;
            Ok(false)
        }
    }
}

/// Takes a datagram: reads the clock, bars the datagram or makes that time durable where it is more than a second past the last durable one, handles the
/// datagram, and has the store append what that changed. `entry` is what the server did then; `None` where the datagram was barred or lost. `reply`
/// has the reply, if there is one. Returns whether the time became durable. Refused with `Broken` if the store fails: the replies are dropped.
fn take<C: Clock, S: Store>(
    clock: &mut C,
    store: &mut S,
    server: &mut Server,
    share: &mut Share,
    waiting: &mut Waiting,
    from: Route,
    octets: &[u8],
    reply: &mut ArrayVec<u8, 576>,
    entry: &mut Option<Entry>,
) -> Result<bool, Broken>
    ensures ok { IfOk result (λ synced. HasTaken S.does C.tells store.old clock.old server.old share.old waiting.old (Some from) octets.now entry.new reply.new.items synced store.new clock.new server.new share.new waiting.new) }
    ensures err { OnErr result (FailsToTake S.does C.tells store.old clock.old server.old share.old waiting.old from octets.now store.new clock.new server.new waiting.new) }
{
    let now = clock.now();
    let room = room_for(store.room(), server, now, from.peer.ip, octets);
    let admission = share.admit_by(room, now, from.peer.ip, octets);
    if admission.is_barred() {
        *entry = None;
        return Ok(false);
    }
    let synced = waiting.reach(store, now)?;
    match server.handle(now, from.peer, octets, reply) {
        Ok(outcome) => {
            share.settle(admission, from.peer.ip, changes_leases(&outcome));
            append_change(store, waiting, server, &outcome)?;
            *entry = Some(Entry::of(from.peer, octets, outcome));
            Ok(synced)
        }
        Err(_) => {
            share.settle(admission, from.peer.ip, false);
            *entry = None;
            Ok(synced)
        }
    }
}

/// Has the store append what the server changed by the datagram that it handled last, if it changed something. Refused with `Broken` if
/// the store fails: the replies are dropped.
fn append_change<S: Store>(
    store: &mut S,
    waiting: &mut Waiting,
    server: &Server,
    outcome: &Outcome,
) -> Result<(), Broken>
    ensures ok { OnOk result ((change : Option ChangeValue) × IsChange outcome.now server.now change × Chain S.does store.old (appends_of change) store.new × (waiting.new ≡ with_any change waiting.old)) }
    ensures err { OnErr result ((change : ChangeValue) × IsChange outcome.now server.now (Some change) × S.does store.old (append_failed change) store.new × (waiting.new ≡ dropped (with_line change waiting.old))) }
{
    if !changes_leases(outcome) {
        return Ok(());
    }
    match change_of(server, outcome) {
        Some(change) => waiting.append(store, &change),
        None => Ok(()),
    }
}
