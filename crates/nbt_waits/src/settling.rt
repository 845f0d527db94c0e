//! What is done with a request that waited, by what came of the answer.

ghost use Rattle.std.specs.Prelude.{◌≡◌, ◌+◌, ◌≤◌, ◌&&◌, nat_eq, [], Option, Some, None, IfSome, IfNone};
ghost use Rattle.std.specs.List.{find, list_any};
ghost use Rattle.nbt_lease.specs.Config.{milliseconds};
ghost use Rattle.nbt_lease.specs.declared.config.TheConstants.{LONGEST_MOST as longest_most};
ghost use Rattle.nbt_confirm.specs.Further.{is_at, is_confirmed};
ghost use Rattle.nbt_confirm.specs.Inquiries.{ConfirmedValue};
ghost use Rattle.nbt_confirm.specs.declared.request.Awaits.TheVariants as awaited;
ghost use Rattle.nbt_waits.specs.Asking.{asking, lease_at};
ghost use Rattle.nbt_waits.specs.Doing.{done_by, note_of, refused, reply};
ghost use Rattle.nbt_waits.specs.Settling.{Serves, ServesSilence, accepts, accepts_put, confirms, further_of, holder_by, holds_back, is_full, is_reached, puts, puts_until, settles, tells_to_wait, waited_for, waits_for};

use crate::asking::Asking;
use crate::leases::{end_of, lease_of, seconds_until, until_of};
use crate::note::{Asked, Leaving, Note, Settled};
use crate::replies::{ACTIVE, REFUSED, SERVER_ERROR, write_reply};
use arrayvec::ArrayVec;
use nbt_confirm::{
    Awaits, Confirmed, Further, Machine, Outcome, Put, Request, Served, Silence, Way, wait_seconds,
    write_wait,
};
use nbt_lease::{Moment, Table};
use nbt_name::Name;

impl Asking {
    /// Serves the first request that waited for what this machine said, which waits no longer: `None` if there is none. The caller calls it
    /// until then. The reply is in `out`, if one leaves. `now` is at least the table's `last()`.
    pub fn serve(
        &mut self,
        table: &Table,
        now: Moment,
        machine: &Machine,
        out: &mut ArrayVec<u8, 576>,
    ) -> Option<Settled>
        requires { table.now.last ≤ now }
        ensures served { IfSome result (λ settled. Serves table.now now machine.now self.old (done_by settled out.new.items self.new)) }
        ensures none { IfNone result ((find (waits_for machine.now) self.old.waits.requests ≡ None) × (self.new ≡ self.old)) }
    {
        let served = self.waits.serve(machine)?;
        let further = further_in(machine, served.request.addr);
        Some(self.settle(table, now, served, further, out))
    }

    /// The same of one that waited for what nobody said.
    pub fn serve_silence(
        &mut self,
        table: &Table,
        now: Moment,
        silence: &Silence,
        out: &mut ArrayVec<u8, 576>,
    ) -> Option<Settled>
        requires { table.now.last ≤ now }
        ensures served { IfSome result (λ settled. ServesSilence table.now now silence.now self.old (done_by settled out.new.items self.new)) }
        ensures none { IfNone result ((find (waited_for silence.now) self.old.waits.requests ≡ None) × (self.new ≡ self.old)) }
    {
        let served = self.waits.serve_silence(silence)?;
        Some(self.settle(table, now, served, None, out))
    }

    /// A request that the server refused since the lease of another address, `request.asked`, stands in its way. A further address of that
    /// machine is renewed, and the positive reply is in `out`; any other request waits for what that machine says. `now` is at least the
    /// table's `last()`.
    pub fn hold_back(
        &mut self,
        table: &Table,
        now: Moment,
        request: Request,
        out: &mut ArrayVec<u8, 576>,
    ) -> Settled
        requires { table.now.last ≤ now }
        ensures { done_by result out.new.items self.new ≡ holds_back table.now now request self.old }
    {
        let holder = request.asked;
        if !self.further.has(now, &request.name, holder, request.addr) {
            return self.wait(request);
        }
        let Some(end) = end_of(table, now, &request.name, holder) else {
            return self.wait(request);
        };
        let until = until_of(table, now, request.ttl);
        self.further
            .renew(&request.name, holder, request.addr, until, end);
        self.accept(seconds_until(now, until.min(end)), request, out)
    }

    /// Does what is to be done with a request that was served; `further` is the further address that its address was confirmed to be.
    fn settle(
        &mut self,
        table: &Table,
        now: Moment,
        served: Served,
        further: Option<Confirmed>,
        out: &mut ArrayVec<u8, 576>,
    ) -> Settled
        requires { table.now.last ≤ now }
        ensures { done_by result out.new.items self.new ≡ settles table.now now served.outcome served.request further self.old }
    {
        let request = served.request;
        match served.outcome {
            Outcome::Further => self.confirm(table, now, request, further, out),
            Outcome::Refuse => {
                let holder = holder_of(table, now, &request);
                refuse(Asked::Refused(holder), ACTIVE, &request, out)
            }
            Outcome::AskRequester => self.wait(asking_requester(request)),
            Outcome::AwaitLeaseEnd => self.tell_to_wait(table, now, request, out),
            Outcome::Grant => self.hand_on(request),
            Outcome::GrantSource => self.hand_on(of_source(request)),
            Outcome::NotOwn => refuse(Asked::NotOwn, REFUSED, &request, out),
            Outcome::Reached => {
                self.further.reach(&request.name, request.addr);
                Settled::silent(Some(Note::of(Asked::Reached, &request)))
            }
            Outcome::Nothing => Settled::silent(Some(Note::of(Asked::Unanswered, &request))),
        }
    }

    /// The request's address is a further one of the holder's machine: it is put among them, and accepted; or refused with SRV_ERR where there
    /// is no room. Where it isn't one, or the holder has its lease no more, the server has the request.
    fn confirm(
        &mut self,
        table: &Table,
        now: Moment,
        request: Request,
        further: Option<Confirmed>,
        out: &mut ArrayVec<u8, 576>,
    ) -> Settled
        requires { table.now.last ≤ now }
        ensures { done_by result out.new.items self.new ≡ confirms table.now now request further self.old }
    {
        let Some(confirmed) = further else {
            return self.hand_on(request);
        };
        match end_of(table, now, confirmed.name(), confirmed.holder()) {
            Some(end) => self.put_until(end, table, now, request, &confirmed, out),
            None => self.hand_on(request),
        }
    }

    /// The same while the holder has its lease, until `end`.
    fn put_until(
        &mut self,
        end: u64,
        table: &Table,
        now: Moment,
        request: Request,
        confirmed: &Confirmed,
        out: &mut ArrayVec<u8, 576>,
    ) -> Settled
        ensures { done_by result out.new.items self.new ≡ puts_until (Some end) table.now now request confirmed.now self.old }
    {
        if self.is_full(table, now, &request.name, request.addr) {
            return refuse(Asked::Full, SERVER_ERROR, &request, out);
        }
        let until = until_of(table, now, request.ttl);
        self.put(now, until, end, request, confirmed, out)
    }

    /// It is put among the further addresses, to last by its own request until `until`.
    fn put(
        &mut self,
        now: Moment,
        until: u64,
        end: u64,
        request: Request,
        confirmed: &Confirmed,
        out: &mut ArrayVec<u8, 576>,
    ) -> Settled
        requires { until ≤ now + milliseconds longest_most }
        ensures { done_by result out.new.items self.new ≡ puts now until end request confirmed.now self.old }
    {
        let put = self.further.put(now, confirmed, until, end);
        self.accept_put(put, seconds_until(now, until.min(end)), request, out)
    }

    /// What was put is accepted; what had no room is refused.
    fn accept_put(
        &mut self,
        put: Put,
        seconds: u32,
        request: Request,
        out: &mut ArrayVec<u8, 576>,
    ) -> Settled
        ensures { done_by result out.new.items self.new ≡ accepts_put put seconds request self.old }
    {
        match put {
            Put::Begun | Put::Renewed => self.accept(seconds, request, out),
            Put::NameFull | Put::Full => refuse(Asked::Full, SERVER_ERROR, &request, out),
        }
    }

    /// The positive reply to a request of a further address. One that has never answered is asked itself, and the reply goes to the holder's
    /// address too.
    fn accept(&mut self, seconds: u32, request: Request, out: &mut ArrayVec<u8, 576>) -> Settled
        ensures { done_by result out.new.items self.new ≡ accepts seconds request self.old }
    {
        write_reply(&request, 0, seconds, out);
        let mut settled = Settled::answered(Asked::Confirmed(seconds), &request);
        if self.further.is_reached(&request.name, request.addr) {
            return settled;
        }
        settled.leaving = Some(also_to_holder(&request));
        self.wait(asking_itself(request));
        settled
    }

    /// A request to wait for the end of the lease that stands in the way, and five seconds. Where it is over, the server has the request.
    fn tell_to_wait(
        &mut self,
        table: &Table,
        now: Moment,
        request: Request,
        out: &mut ArrayVec<u8, 576>,
    ) -> Settled
        requires { table.now.last ≤ now }
        ensures { done_by result out.new.items self.new ≡ tells_to_wait (lease_at table.now now request.name) now request self.old }
    {
        let Some(lease) = lease_of(table, now, &request.name) else {
            return self.hand_on(request);
        };
        let seconds = wait_seconds(now, lease.end);
        write_wait(&request, seconds, out);
        let settled = Settled::answered(Asked::Told(seconds), &request);
        self.wait(until_lease_end(request, lease.end));
        settled
    }

    /// Whether there is no room for a further address: it isn't one yet, and its client has as many rows as it may have.
    fn is_full(&self, table: &Table, now: Moment, name: &Name, addr: u32) -> bool
        ensures { result ≡ is_full table.now now name.now addr self.now }
    {
        if is_there(self.further.rows(), name, addr) {
            return false;
        }
        let left = (self.rows_per_client as usize).saturating_sub(self.further.count_of(now, addr));
        table.has_at_least(now, addr, left as u32)
    }
}

/// A negative reply, left in `out`.
fn refuse(asked: Asked, rcode: u8, request: &Request, out: &mut ArrayVec<u8, 576>) -> Settled
    requires { rcode ≤ 15 }
    ensures octets { out.new.items ≡ reply rcode 0 request.now }
    ensures note { result.note ≡ Some (note_of asked request.now) }
    ensures leaving { result.leaving ≡ Some (record { to = request.now.from; local = request.now.local; also = None }) }
{
    write_reply(request, rcode, 0, out);
    Settled::answered(asked, request)
}

/// Back to the endpoint that sent it, and to the holder's address of the same machine.
fn also_to_holder(request: &Request) -> Leaving
    ensures { result ≡ record { to = request.now.from; local = request.now.local; also = Some (record { asked = request.now.asked; local = request.now.local }) } }
{
    Leaving {
        also: Some(Way {
            asked: request.asked,
            local: request.local,
        }),
        ..Leaving::back(request)
    }
}

/// It waits for what the requester says.
fn asking_requester(request: Request) -> Request
    ensures { result ≡ asking awaited.Requester request.from.ip request }
{
    Request {
        awaits: Awaits::Requester,
        asked: request.from.ip,
        ..request
    }
}

/// It waits for what its own address says.
fn asking_itself(request: Request) -> Request
    ensures { result ≡ asking awaited.Reach request.addr request }
{
    Request {
        awaits: Awaits::Reach,
        asked: request.addr,
        ..request
    }
}

/// It waits for a lease's end.
fn until_lease_end(request: Request, end: u64) -> Request
    ensures { result ≡ asking (awaited.LeaseEnd end) request.asked request }
{
    Request {
        awaits: Awaits::LeaseEnd(end),
        ..request
    }
}

/// It is for the address that sent it.
fn of_source(request: Request) -> Request
    ensures { result ≡ record request { addr = request.from.ip } }
{
    Request {
        addr: request.from.ip,
        ..request
    }
}

/// The address of the first lease of a request's name; the one that was asked where there is none.
fn holder_of(table: &Table, now: Moment, request: &Request) -> u32
    requires { table.now.last ≤ now }
    ensures { result ≡ holder_by (lease_at table.now now request.now.name) request.now }
{
    match lease_of(table, now, &request.name) {
        Some(lease) => lease.addr,
        None => request.asked,
    }
}

/// The further address of a machine that this is, if it is one.
fn further_in(machine: &Machine, addr: u32) -> Option<Confirmed>
    ensures { result ≡ further_of machine.now addr }
{
    machine.further(addr)
}

/// Whether one of these is of this name and address.
pub(crate) fn is_there(rows: &[Further], name: &Name, addr: u32) -> bool
    ensures { result ≡ list_any (is_at name.now addr) rows.now }
{
    rows.iter().any(|row| row.name == *name && row.addr == addr)
}
