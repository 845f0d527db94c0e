//! What is done where a lease ends.

ghost use Rattle.std.specs.Prelude.{◌≡◌, ◌≤◌, [], Option, Some, None, IfSome, IfNone};
ghost use Rattle.std.specs.List.{find};
ghost use Rattle.std.specs.Option.{option_map};
ghost use Rattle.nbt_confirm.specs.Further.{is_next};
ghost use Rattle.nbt_confirm.specs.Waiting.{is_past};
ghost use Rattle.nbt_confirm.specs.declared.further.Further.{Further as FurtherRow};
ghost use Rattle.nbt_waits.specs.Asking.{lease_at};
ghost use Rattle.nbt_waits.specs.Doing.{done_by};
ghost use Rattle.nbt_waits.specs.Lapsing.{Follows, Wakes, asked_next, ends_all, follows_by, is_over, passes_on, passes_to, takes_over};

use crate::asking::Asking;
use crate::leases::{is_of, lease_of, seconds_left};
use crate::note::Settled;
use nbt_confirm::{Awaits, Further, NAME_PORT, Request};
use nbt_lease::{Lease, Moment, Table};
use nbt_name::{Addr, Kind, Name};

/// The flags of a request that nobody sent (our profile): no registration has them, and no reply to it leaves.
pub const UNASKED: u16 = 0;

impl Asking {
    /// The first request that waited for a lease's end that is there: it is asked again itself, or the one is that has the lease by now.
    /// `None` if there is none. `now` is at least the table's `last()`.
    pub fn wake(&mut self, table: &Table, now: Moment) -> Option<Settled>
        requires { table.now.last ≤ now }
        ensures woken { IfSome result (λ settled. Wakes table.now now self.old (done_by settled [] self.new)) }
        ensures none { IfNone result ((find (λ r. is_past now r.awaits) self.old.waits.requests ≡ None) × (self.new ≡ self.old)) }
    {
        let request = self.waits.wake(now)?;
        let lease = lease_of(table, now, &request.name);
        Some(self.wait(asking_next(lease, request)))
    }

    /// This holder released a name, or has it no more: the first of its machine's addresses that has answered has the server grant it, by
    /// the server's rules, and all further addresses of the name end.
    pub fn pass_on(&mut self, now: Moment, name: &Name, holder: u32) -> Settled
        ensures { done_by result [] self.new ≡ passes_on now name.now holder self.old }
    {
        let next = next_in(self.further.rows(), now, name, holder);
        self.further.end_all(name);
        match next {
            Some(request) => self.hand_on(request),
            None => Settled::silent(None),
        }
    }

    /// The first further address that isn't listed any longer, though its own refreshes last: it is listed as long as the holder's lease,
    /// where that was renewed; where another has the name, all of them end; where nobody has, the next address is granted it. `None` if
    /// there is none. `now` is at least the table's `last()`.
    pub fn follow_lease(&mut self, table: &Table, now: Moment) -> Option<Settled>
        requires { table.now.last ≤ now }
        ensures followed { IfSome result (λ settled. Follows table.now now self.old (done_by settled [] self.new)) }
        ensures none { IfNone result ((find (is_over now) self.old.further ≡ None) × (self.new ≡ self.old)) }
    {
        let row = first_over(self.further.rows(), now.get())?;
        let lease = lease_of(table, now, &row.name);
        Some(self.follow(lease, now, &row))
    }

    /// It follows this lease, the first of its name.
    fn follow(&mut self, lease: Option<Lease>, now: Moment, row: &Further) -> Settled
        ensures { done_by result [] self.new ≡ follows_by lease now row.now self.old }
    {
        let Some(lease) = lease else {
            return self.pass_on(now, &row.name, row.holder);
        };
        if is_of(lease, row.holder) {
            self.further.renew(
                &row.name,
                row.holder,
                row.addr,
                row.renewed_until,
                lease.end,
            );
        } else {
            self.further.end_all(&row.name);
        }
        Settled::silent(None)
    }
}

/// Whom a request asks after a lease's end: the address that has this lease of the name by now, or the requester itself.
fn asking_next(lease: Option<Lease>, request: Request) -> Request
    ensures { result ≡ asked_next lease request }
{
    match lease {
        Some(lease) => Request {
            awaits: Awaits::Holder,
            asked: lease.addr,
            ..request
        },
        None => Request {
            awaits: Awaits::AfterLease,
            asked: request.from.ip,
            ..request
        },
    }
}

/// The request of the address that takes the name over from this holder, which nobody sent.
fn next_in(rows: &[Further], now: Moment, name: &Name, holder: u32) -> Option<Request>
    ensures { result ≡ option_map (takes_over now name.now) (find (is_next now name.now holder) rows.now) }
{
    for row in rows {
        if is_next(row, now, name, holder) {
            return Some(taking_over(row, now, name));
        }
    }
    None
}

/// Whether it may take the lease over from this holder.
fn is_next(row: &Further, now: Moment, name: &Name, holder: u32) -> bool
    ensures { result ≡ is_next now name.now holder row.now }
{
    row.reached && row.name == *name && row.holder == holder && now.get() < row.renewed_until
}

/// The request by which it does.
fn taking_over(row: &Further, now: Moment, name: &Name) -> Request
    ensures { result ≡ takes_over now name.now row.now }
{
    Request {
        from: Addr {
            ip: row.addr,
            port: NAME_PORT,
        },
        local: None,
        id: 0,
        flags: UNASKED,
        name: name.copy(),
        kind: Kind::Unique,
        addr: row.addr,
        ttl: seconds_left(now, row.renewed_until),
        awaits: Awaits::Sender,
        asked: row.addr,
    }
}

/// A copy of the first row that isn't listed any longer, though its own refreshes last.
fn first_over(rows: &[Further], now: u64) -> Option<Further>
    ensures { result ≡ find (is_over now) rows.now }
{
    for row in rows {
        if row.end <= now && now < row.renewed_until {
            return Some(copy_of(row));
        }
    }
    None
}

/// The same row.
fn copy_of(row: &Further) -> Further
    ensures { result ≡ row.now }
{
    Further {
        name: row.name.copy(),
        holder: row.holder,
        addr: row.addr,
        end: row.end,
        renewed_until: row.renewed_until,
        reached: row.reached,
    }
}
