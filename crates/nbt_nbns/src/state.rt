//! A server with a state, which it keeps over a restart, or without one: its turn, what its watcher is shown of it, and the look after it.

ghost use Rattle.std.specs.Prelude.{◌≡◌, ◌↔◌, IfErr, IfOk, IsTrue, MatchResult};
ghost use Rattle.nbt_serve.specs.Looking.{FailsToLook, LooksAfter};
ghost use Rattle.nbt_nbns.specs.Staying.{Breaks, FailsToLookAfter, HasRoom, IsIdle, LooksAfterState, SeesTurn, Turns, desk_of};

use crate::staying::{Shown, Watcher};
use crate::teller::Teller;
use arrayvec::ArrayVec;
use nbt_lease::{Lease, Moment};
use nbt_log::{Entry, Health};
use nbt_name::Name;
use nbt_port::{Clock, Port};
use nbt_serve::{KeepFault, Sent, Share, Waiting, keep_turn, look_after, serve_turn};
use nbt_server::Server;
use nbt_store::{Broken, Header, Store, Syncs};
use std::io;
use std::io::Write;

/// What a server has that keeps its leases over a restart.
#[derive(Drop)]
pub struct State<S> {
    /// Where it keeps them.
    pub store: S,
    /// The header of their file.
    pub header: Header,
    /// How many changes its clients made in this second.
    pub share: Share,
    /// The replies that wait until what they rest on is kept.
    pub waiting: Waiting,
    /// The turns that aren't shown yet, since a reply waits.
    pub teller: Teller,
}

/// The server goes through one turn: with a state as [`keep_turn`] has it, and without one as [`serve_turn`] has it, so that its reply
/// leaves in the turn. `entry` is what the server did with the datagram that came. Returns what left in the turn.
pub(crate) fn take_turn<P: Port, C: Clock, S: Store>(
    port: &mut P,
    clock: &mut C,
    server: &mut Server,
    state: &mut Option<State<S>>,
    octets: &mut ArrayVec<u8, 2048>,
    reply: &mut ArrayVec<u8, 576>,
    entry: &mut Option<Entry>,
) -> Result<Sent, KeepFault>
    requires room { HasRoom state.old }
    ensures ok { IfOk result (λ sent. Turns P.does S.does C.tells (record { port = port.old; clock = clock.old; server = server.old; state = state.old }) entry.new sent
        (record { port = port.new; clock = clock.new; server = server.new; state = state.new })) }
    ensures err { IfErr result (λ why. Breaks P.does S.does C.tells why (record { port = port.old; clock = clock.old; server = server.old; state = state.old })
        (record { port = port.new; clock = clock.new; server = server.new; state = state.new })) }
    ensures room { HasRoom state.new }
{
    match state {
        Some(state) => keep_in(port, clock, server, state, octets, reply, entry),
        None => {
            let turned = serve_turn(port, clock, server, octets, reply)?;
            *entry = turned.entry;
            Ok(Sent {
                ahead: true,
                left: None,
            })
        }
    }
}

/// The same with this state.
fn keep_in<P: Port, C: Clock, S: Store>(
    port: &mut P,
    clock: &mut C,
    server: &mut Server,
    state: &mut State<S>,
    octets: &mut ArrayVec<u8, 2048>,
    reply: &mut ArrayVec<u8, 576>,
    entry: &mut Option<Entry>,
) -> Result<Sent, KeepFault>
    requires room { HasRoom (Some state.old) }
    ensures ok { IfOk result (λ sent. Turns P.does S.does C.tells (record { port = port.old; clock = clock.old; server = server.old; state = Some state.old }) entry.new sent
        (record { port = port.new; clock = clock.new; server = server.new; state = Some state.new })) }
    ensures err { IfErr result (λ why. Breaks P.does S.does C.tells why (record { port = port.old; clock = clock.old; server = server.old; state = Some state.old })
        (record { port = port.new; clock = clock.new; server = server.new; state = Some state.new })) }
    ensures room { HasRoom (Some state.new) }
{
    match keep_turn(
        port,
        clock,
        &mut state.store,
        server,
        &mut state.share,
        &mut state.waiting,
        octets,
        reply,
        entry,
    ) {
        Ok(sent) => Ok(sent),
        Err(why) => Err(why),
    }
}

/// The watcher is shown the turn: with a state once no reply waits, as [`Teller`] says, and without one at once. So much
/// left in the turn.
pub(crate) fn show<S, V: Watcher, W: Write, E: Write>(
    state: &mut Option<State<S>>,
    server: &Server,
    sent: Sent,
    shown: &mut Shown,
    watcher: &mut V,
    writer: &mut W,
    errors: &mut E,
)
    ensures seen { SeesTurn V.sees server.now sent shown.old state.old (record { watcher = watcher.old; text = W.contents writer.old }) state.new (record { watcher = watcher.new; text = W.contents writer.new }) }
    ensures room { HasRoom state.old → HasRoom state.new }
{
    match state {
        Some(state) => state.teller.tell(
            server,
            &state.waiting,
            sent,
            shown,
            watcher,
            writer,
            errors,
        ),
        None => watcher.see(server, shown, writer, errors),
    }
}

/// The file of a state is looked after at a moment and by this clock of the day, as [`look_after`] does. Without a state there is
/// nothing to do.
pub(crate) fn look_after_state<S: Store, D: Clock>(
    state: &mut Option<State<S>>,
    day: &mut D,
    rows: &mut Vec<(Name, Lease)>,
    server: &Server,
    at: Moment,
) -> Result<(), Broken>
    ensures looks { MatchResult result (λ _. LooksAfterState S.does D.tells server.now at state.old day.old state.new day.new) (λ _. FailsToLookAfter S.does D.tells server.now at state.old day.old state.new day.new) }
    ensures room { HasRoom state.old → HasRoom state.new }
{
    match state {
        Some(state) => look_in(state, day, rows, server, at),
        None => Ok(()),
    }
}

/// The same of this state.
fn look_in<S: Store, D: Clock>(
    state: &mut State<S>,
    day: &mut D,
    rows: &mut Vec<(Name, Lease)>,
    server: &Server,
    at: Moment,
) -> Result<(), Broken>
    ensures looks { MatchResult result (λ _. LooksAfter S.does D.tells server.now at (desk_of state.old day.old) (desk_of state.new day.new)) (λ _. FailsToLook S.does D.tells server.now at (desk_of state.old day.old) (desk_of state.new day.new)) }
    ensures share { state.new.share ≡ state.old.share }
    ensures teller { state.new.teller ≡ state.old.teller }
    ensures room { HasRoom (Some state.old) → HasRoom (Some state.new) }
{
    look_after(
        &mut state.store,
        day,
        &mut state.header,
        rows,
        server,
        &mut state.waiting,
        at,
    )
}

/// Whether no reply waits, and all is durable; without a state that is always so.
pub(crate) fn is_idle<S>(state: &Option<State<S>>) -> bool
    ensures { IsTrue result ↔ IsIdle state.now }
{
    match state {
        Some(state) => state.waiting.is_clear(),
        None => true,
    }
}

/// How the port and the store are.
pub(crate) fn health_of<P: Port, S: Store>(port: &P, state: &Option<State<S>>) -> Health
    ensures { result.failures ≡ P.failures port.now }
{
    let (syncs, barred) = match state {
        Some(state) => (state.store.syncs(), state.share.barred()),
        None => (Syncs::NONE, 0),
    };
    Health {
        failures: port.failures(),
        own: port.own_replies(),
        barred,
        syncs: syncs.count,
        sync_milliseconds: syncs.milliseconds(),
    }
}

/// Says why the store failed, where it knows it.
pub(crate) fn tell_store<S: Store, E: Write>(state: &Option<State<S>>, errors: &mut E) {
    if let Some(state) = state {
        let _ = write_store(&state.store, errors);
    }
}

fn write_store<S: Store, E: Write>(store: &S, errors: &mut E) -> io::Result<()> {
    write!(errors, "nbt: ")?;
    if let Some(folder) = store.folder() {
        write!(errors, "{folder}: ")?;
    }
    match store.error() {
        Some(error) => writeln!(errors, "the leases can't be kept: {error}")?,
        None => writeln!(errors, "the leases can't be kept")?,
    }
    errors.flush()
}
