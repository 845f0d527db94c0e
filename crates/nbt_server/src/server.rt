//! The name server.

ghost use Rattle.std.specs.Prelude.{◌≡◌, ◌≢◌, ◌+◌, ◌*◌, ◌<◌, ◌≤◌, ◌↔◌, ◌⊎◌, Option, Some, None, [], IsOk, IfOk, OnErr, IsErrOf, is_some};
ghost use Rattle.nbt_packet.specs.Message.{MessageValue};
ghost use Rattle.nbt_lease.specs.Config.{IsConfig};
ghost use Rattle.nbt_lease.specs.Lease.{leases_at, live_count, IsSound};

use crate::fault::{ResumeFault, ServerFault};
use crate::outcome::Outcome;
use crate::serving::{serve, unanswered};
use arrayvec::ArrayVec;
use nbt_lease::{Config, Lease, Moment, Table};
use nbt_name::{Addr, Name};
use nbt_packet::read;
use std::alloc::{AllocError, Global};
use std::hash::RandomState;
use std::marker::Model;

/// A name server (RFC 1001 section 15.1, RFC 1002 section 5.1.4): the leases that it has granted, the time it started, and how
/// many live leases a client may have.
#[derive(Drop)]
pub struct Server {
    start: Moment,
    last: Moment,
    table: Table,
    client_rows: Option<u32>,
}

impl Model for Server {
    ghost use Rattle.std.specs.Prelude.{◌≤◌};
    ghost use Rattle.nbt_server.specs.Serving.{ServerValue};

    ghost Value = { ServerValue };

    ghost view = { λ s. record { start = s.start; last = s.last; table = s.table; client_rows = s.client_rows } };

    ghost invariant = { λ s. (s.start ≤ s.last) × (s.table.last ≤ s.last) };
}

impl Server {
    ghost use Rattle.nbt_packet.specs.Spelling.{AreWritten};
    ghost use Rattle.nbt_server.specs.Serving.{ServerValue, speaks_from};
    ghost use Rattle.nbt_server.specs.Calls.{ServerStarts, ServerResumes, kept_server, limited, ServerTakes, ServerHandles, ServerForgets};

    /// A server without leases, which starts at `now`. A client may have any number of leases. It takes no memory.
    pub fn start(alloc: Global, config: Config, now: Moment) -> Server
        ensures { ServerStarts config now result }
    {
        Server {
            start: now,
            last: now,
            table: Table::new(alloc, config),
            client_rows: None,
        }
    }

    /// Lets each client have `rows` live leases at most, unique names and groups together, from now on (our profile). A client
    /// is a 32-bit address. What it has it keeps, and may renew, however much that is. 0 lets no client begin one.
    pub fn limit_clients(&mut self, rows: u32)
        ensures { self.new ≡ limited (Some rows) self.old }
    {
        self.client_rows = Some(rows);
    }

    /// Takes room for as many names as there may be leases, so that no later call moves those that there are as more come, and
    /// finds names by these keys from now on: who doesn't know them can't choose names that are found slowly. Nothing else
    /// changes. If out of memory, all is as before.
    pub fn make_room(&mut self, keys: RandomState) -> Result<(), AllocError>
        ensures { self.new ≡ self.old }
    {
        self.table.make_room(keys)
    }

    /// A server that goes on with what was kept of it: its limits, its start, its last time, and rows with its leases, those of
    /// a name in order of their beginnings; leases that are over at `now` are left out. Its last time is `now`. It is silent
    /// no longer than it would have been: until the longest lease has passed since `start` (our profile). `last` and the rows
    /// must be the last state: a lease that was granted after it may be granted to another node. A client may have any number
    /// of leases, as after a start.
    ///
    /// Refusals, in this order. `ClockBack` (1): `now` is before `start` or `last`. `TableFull` (2): more of the leases live
    /// than the limits allow. `Unsound` (3): a name's live leases are none that a server has at `now`: two of one address, one
    /// that is unique beside another, more than 1,000, or one that expires later than the longest lease granted now.
    /// `OutOfMemory` (4): out of memory, before all were looked at.
    pub fn resume(
        alloc: Global,
        config: Config,
        start: Moment,
        last: Moment,
        now: Moment,
        rows: &[(Name, Lease)],
    ) -> Result<Server, ResumeFault>
        ensures resumes { IfOk result (λ server. ServerResumes (kept_server config start last rows.now) now server) }
        ensures last { IfOk result (λ server. server.last ≡ now) }

        // When it is refused.
        ensures sound { IsOk result → IsSound config now (leases_at now rows.now) }
        ensures clock_back { IsErrOf result ResumeFault.ClockBack ↔ ((now < start) ⊎ (now < last)) }
        ensures full { IsErrOf result ResumeFault.TableFull ↔ ((start ≤ now) × (last ≤ now) × (config.rows < live_count now rows.now)) }
        ensures unsound { IsErrOf result ResumeFault.Unsound → ¬ IsSound config now (leases_at now rows.now) }
    {
        if now.get() < start.get() || now.get() < last.get() {
            return Err(ResumeFault::ClockBack);
        }
        match Table::restore(alloc, config, now, rows) {
            Ok(table) => Ok(Server {
                start,
                last: now,
                table,
                client_rows: None,
            }),
            Err(fault) => Err(ResumeFault::of_leases(fault)),
        }
    }

    /// Handles a datagram of these octets, received at `now` from `from`, and returns what it did. `out` then has the reply to
    /// `from`, at most 576 octets, or is empty if there is none (RFC 1002 section 5.1.4; rules of our profile are marked
    /// so):
    ///
    /// - There is no reply, and no lease changes, until the longest lease has passed since the start (our profile).
    /// - A registration or refresh is granted for its TTL, at most the longest lease; a TTL of 0 requests that. It is refused
    ///   with ACT_ERR (6) if other leases conflict, with SRV_ERR (2) if the group has 1,000 live members or the table is
    ///   full, and with RFS_ERR (5) if its address isn't that of `from`, or its name begins with `*` (our profile).
    /// - Before that, one of a name of which `from` has no lease is refused with SRV_ERR (2) if `from` has as many leases as
    ///   [`Server::limit_clients`] allows (our profile). Only this looks through the table, name after name.
    /// - A release ends the lease of the sender alone. It is refused with ACT_ERR if others have the name and the sender
    ///   doesn't, and with RFS_ERR like a registration.
    /// - A query is answered with the live leases in order of their beginnings, as many as fit in 576 octets; TC is set if
    ///   these aren't all. The TTL is the seconds until the first of all of them expires, rounded up. If there is none, the
    ///   answer is NAM_ERR (3).
    /// - An overwrite is refused with RFS_ERR (our profile). All else has no reply.
    ///
    /// Refusals, in this order; `out` is then empty. `ClockBack` (1): `now` is before the start, or before an earlier datagram
    /// that was no `ClockBack`; nothing changes. `OutOfMemory` (2): a registration or refresh that changes the leases ran
    /// out of memory; start and live leases stay, and the last time is `now`.
    pub fn handle(
        &mut self,
        now: Moment,
        from: Addr,
        octets: &[u8],
        out: &mut ArrayVec<u8, 576>,
    ) -> Result<Outcome, ServerFault>
        ensures handled { IfOk result (λ outcome. ServerHandles self.old now from.ip octets.now outcome out.new.items self.new) }

        // When it is refused, and what that leaves.
        ensures clock_back { IsErrOf result ServerFault.ClockBack ↔ (now < self.old.last) }
        ensures unchanged { IsErrOf result ServerFault.ClockBack → self.new ≡ self.old }
        ensures memory { IsErrOf result ServerFault.OutOfMemory → ServerForgets self.old now from.ip octets.now self.new }
        ensures empty { OnErr result (out.new.items ≡ []) }
    {
        out.clear();
        if now.get() < self.last.get() {
            return Err(ServerFault::ClockBack);
        }
        self.last = now;
        let Some(message) = read(octets) else {
            return Ok(Outcome::NoMessage);
        };
        if now.get() < self.speaks_from() {
            return Ok(unanswered(message));
        }
        let limit = self.client_rows;
        serve(&mut self.table, limit, now, from.ip, message, out)
    }

    /// Handles a datagram as [`Server::handle`] does, with the same refusals. Returns whether `out` has a reply to `from`, at
    /// most 576 octets; else `out` is empty.
    pub fn on_datagram(
        &mut self,
        now: Moment,
        from: Addr,
        octets: &[u8],
        out: &mut ArrayVec<u8, 576>,
    ) -> Result<bool, ServerFault>
        ensures served { IfOk result (λ is_reply. (reply : Option MessageValue) × ServerTakes self.old now from.ip octets.now reply self.new
            × (is_reply ≡ is_some reply) × AreWritten reply out.new.items) }

        // When it is refused, and what that leaves.
        ensures clock_back { IsErrOf result ServerFault.ClockBack ↔ (now < self.old.last) }
        ensures unchanged { IsErrOf result ServerFault.ClockBack → self.new ≡ self.old }
        ensures memory { IsErrOf result ServerFault.OutOfMemory → ServerForgets self.old now from.ip octets.now self.new }
        ensures empty { OnErr result (out.new.items ≡ []) }
    {
        match self.handle(now, from, octets, out) {
            Ok(outcome) => Ok(outcome.has_reply()),
            Err(fault) => Err(fault),
        }
    }

    /// The time of the last datagram that was no `ClockBack`, at first that of the start.
    pub fn last(&self) -> Moment
        ensures last { result ≡ self.now.last }
        ensures start { self.now.start ≤ self.now.last }
        ensures sound { IsSound self.now.table.config self.now.last (leases_at self.now.last self.now.table.rows) }
    {
        nbt_lease::laws::leases_stay_sound();
        let _ = self.table.last();
        self.last
    }

    /// The leases: those that live, and maybe some that are over.
    pub fn table(&self) -> &Table
        ensures table { result.now ≡ self.now.table }
        ensures last { self.now.table.last ≤ self.now.last }
    {
        &self.table
    }

    /// Until when the server is silent, in milliseconds: leases granted before its start may last that long.
    fn speaks_from(&self) -> u64
        ensures value { result ≡ speaks_from self.now }
        ensures limits { IsConfig self.now.table.config }
    {
        self.start.get() + 1000 * u64::from(self.table.config().longest())
    }
}
