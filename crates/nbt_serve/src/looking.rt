//! Looking after the file that has a server's leases.

ghost use Rattle.std.specs.Prelude.{◌≡◌, OnOk, OnErr, IfOk, IfSome, IsTrue, List, ◌||◌, MatchResult};
ghost use Rattle.nbt_port.specs.PortCalls.{Chain};
ghost use Rattle.nbt_store.specs.Calls.{StoreCall, renewal_began, renewal_failed};
ghost use Rattle.nbt_store.specs.Changes.{begun_all};
ghost use Rattle.nbt_store.specs.declared.change.Change.TheVariants.{Looked};
ghost use Rattle.nbt_serve.specs.Waiting.{none_waits, with_line, dropped, lay_down, laid_down, LineFails};
ghost use Rattle.nbt_serve.specs.Runs.{live_rows};
ghost use Rattle.nbt_serve.specs.Looking.{is_line_due, header_at, LooksAfter, FailsToLook, FailsToBegin, GoesOn};

use crate::waiting::Waiting;
use nbt_lease::{Lease, Moment};
use nbt_name::Name;
use nbt_port::Clock;
use nbt_server::Server;
use nbt_store::{Broken, Change, Header, Store, bears_out};
use std::alloc::AllocError;
use std::collections::VecDeque;

/// Looks after the file at a moment, where no reply waits, and the moment isn't before the last durable time. It reads the time of
/// day, and does one thing at most, and none where the store has room for no line. A line says what both clocks tell, and becomes durable, where a
/// quarter of the longest lease passed since the last durable time, or the time of day doesn't bear the moment out
/// since the pair of the header, as [`bears_out`] says; the header has the moment and the time of day then. A new file that was begun is gone on
/// with, by one part, and once it is whole it takes the file's place. Where the file has several times as many lines as leases with which it was written,
/// such a line becomes durable too, and a new file is begun of the server's live leases; where memory is refused for that, or there is no room, or not yet,
/// a later look tries again. Refused with `Broken` if the store fails. `rows` is a buffer.
pub fn look_after<S: Store, D: Clock>(
    store: &mut S,
    day: &mut D,
    header: &mut Header,
    rows: &mut Vec<(Name, Lease)>,
    server: &Server,
    waiting: &mut Waiting,
    at: Moment,
) -> Result<(), Broken>
    ensures { MatchResult result
        (λ _. LooksAfter S.does D.tells server.now at (record { store = store.old; day = day.old; header = header.old; waiting = waiting.old }) (record { store = store.new; day = day.new; header = header.new; waiting = waiting.new }))
        (λ _. FailsToLook S.does D.tells server.now at (record { store = store.old; day = day.old; header = header.old; waiting = waiting.old }) (record { store = store.new; day = day.new; header = header.new; waiting = waiting.new })) }
{
    if !waiting.is_clear() {
        return Ok(());
    }
    if at.get() < waiting.durable() {
        return Ok(());
    }
    let time = day.now();
    if store.room().is_spent() {
        return Ok(());
    }
    if is_line_due(header, waiting.durable(), at, time) {
        return lay_down_look(store, header, waiting, at, time);
    }
    if store.is_renewing() {
        return go_on(store);
    }
    if let Some(changes) = wanted(store, rows, server, at) {
        return begin(store, header, changes, waiting, at, time);
    }
    Ok(())
}

/// Goes on with the new file by one part.
fn go_on<S: Store>(store: &mut S) -> Result<(), Broken>
    ensures { MatchResult result (λ _. GoesOn S.does store.old store.new) (λ _. S.does store.old renewal_failed store.new) }
{
    store.go_on()?;
    Ok(())
}

/// The changes by which the live leases began at a moment, where a new file is to be begun of them; `None` where not, and where memory is refused.
fn wanted<S: Store>(
    store: &S,
    rows: &mut Vec<(Name, Lease)>,
    server: &Server,
    at: Moment,
) -> Option<VecDeque<Change>>
    ensures { IfSome result (λ changes. changes.items ≡ begun_all at (live_rows server.now)) }
{
    if !store.is_long() || !store.can_renew() {
        return None;
    }
    list_begun(server, rows, at).ok()
}

/// The changes by which the live leases of a server began at a moment. Refused where it is out of memory. `rows` is a buffer.
fn list_begun(
    server: &Server,
    rows: &mut Vec<(Name, Lease)>,
    at: Moment,
) -> Result<VecDeque<Change>, AllocError>
    ensures { IfOk result (λ changes. changes.items ≡ begun_all at (live_rows server.now)) }
{
    list_live(server, rows)?;
    begun_of(rows, at)
}

/// The changes by which these leases began at a moment.
fn begun_of(rows: &Vec<(Name, Lease)>, at: Moment) -> Result<VecDeque<Change>, AllocError>
    ensures { IfOk result (λ changes. changes.items ≡ begun_all at rows.now.items) }
{
    let mut changes = VecDeque::with_capacity(*rows.allocator(), rows.len())?;
    for row in rows {
        let (name, lease) = row;
        changes.push_back(Change::Began {
            name: name.copy(),
            lease: *lease,
            at: at.get(),
        })?;
    }
    Ok(changes)
}

/// Has the store append a line of this moment and time of day, which becomes durable, and begins a new file of these changes with such a header.
fn begin<S: Store>(
    store: &mut S,
    header: &mut Header,
    changes: VecDeque<Change>,
    waiting: &mut Waiting,
    at: Moment,
    time: Moment,
) -> Result<(), Broken>
    ensures header { header.new ≡ header_at header.old at time }
    ensures ok { OnOk result ((mid : S) × Chain S.does store.old (lay_down (Looked time at)) mid × S.does mid (renewal_began header.new changes.items) store.new × (waiting.new ≡ laid_down (Looked time at) waiting.old)) }
    ensures err { OnErr result (FailsToBegin S.does (Looked time at) waiting.old store.old store.new waiting.new) }
{
    lay_down_look(store, header, waiting, at, time)?;
    store.begin_renewal(header, changes)
}

/// Has the store append a line of this moment and time of day, which becomes durable.
fn lay_down_look<S: Store>(
    store: &mut S,
    header: &mut Header,
    waiting: &mut Waiting,
    at: Moment,
    time: Moment,
) -> Result<(), Broken>
    ensures header { header.new ≡ header_at header.old at time }
    ensures ok { OnOk result (Chain S.does store.old (lay_down (Looked time at)) store.new × (waiting.new ≡ laid_down (Looked time at) waiting.old)) }
    ensures err { OnErr result ((calls : List StoreCall) × LineFails (Looked time at) calls × Chain S.does store.old calls store.new × (waiting.new ≡ dropped (with_line (Looked time at) waiting.old))) }
{
    header.last = at.get();
    header.day = time.get();
    let line = Change::Looked {
        day: time.get(),
        at: at.get(),
    };
    waiting.lay_down(store, &line)
}

/// Whether a line of both clocks is due.
fn is_line_due(header: &Header, durable: u64, at: Moment, time: Moment) -> bool
    ensures { result ≡ is_line_due header.now durable at time }
{
    u128::from(durable) + 250 * u128::from(header.longest) <= u128::from(at.get())
        || !bears_out(header.last, header.day, at.get(), time.get())
}

/// Lists the live leases of a server, in place of what `rows` has. Refused where it is out of memory: `rows` may then be anything.
pub fn list_live(server: &Server, rows: &mut Vec<(Name, Lease)>) -> Result<(), AllocError>
    ensures { OnOk result (rows.new.items ≡ live_rows server.now) }
{
    rows.clear();
    server.table().list_rows(rows)?;
    let last = server.last().get();
    rows.retain(|row| last < row.1.end);
    Ok(())
}
