//! What a name server has done, counted.

ghost use Rattle.std.specs.Prelude.{◌≡◌};
ghost use Rattle.nbt_log.specs.Tallies.{one_more, outcome_counted, refusal_counted, refused_counted, counted, no_outcomes, no_refusals, no_tally};

use crate::entry::Entry;
use nbt_server::{Outcome, Refusal};

/// How many datagrams came to each outcome. A count stays at 2^64 - 1.
#[derive(Clone, Copy, Debug, PartialEq, Eq)]
pub struct OutcomeCounts {
    /// Leases that were granted.
    pub granted: u64,
    /// Leases that were renewed.
    pub renewed: u64,
    /// Registrations, refreshes and overwrites that were refused.
    pub refused: u64,
    /// Leases that were released.
    pub released: u64,
    /// Releases of a name without leases.
    pub not_leased: u64,
    /// Releases that were refused.
    pub not_released: u64,
    /// Queries for a name that has leases.
    pub found: u64,
    /// Queries for a name that has none.
    pub not_found: u64,
    /// Requests during the silence after the start.
    pub unanswered: u64,
    /// Messages that are no requests to a server.
    pub foreign: u64,
    /// Octets that spell no message.
    pub malformed: u64,
    /// Broadcasts of B nodes that are no requests to a server.
    pub broadcast: u64,
}

impl OutcomeCounts {
    /// None came.
    fn new() -> OutcomeCounts
        ensures { result ≡ no_outcomes }
    {
        OutcomeCounts {
            granted: 0,
            renewed: 0,
            refused: 0,
            released: 0,
            not_leased: 0,
            not_released: 0,
            found: 0,
            not_found: 0,
            unanswered: 0,
            foreign: 0,
            malformed: 0,
            broadcast: 0,
        }
    }

    /// Counts one more datagram.
    fn count(&mut self, entry: &Entry)
        ensures { self.new ≡ outcome_counted entry.now.is_broadcast entry.now.outcome self.old }
    {
        match &entry.outcome {
            Outcome::Granted(_, _) => self.granted = one_more(self.granted),
            Outcome::Renewed(_, _) => self.renewed = one_more(self.renewed),
            Outcome::Refused(_, _) => self.refused = one_more(self.refused),
            Outcome::Released(_) => self.released = one_more(self.released),
            Outcome::NotLeased(_) => self.not_leased = one_more(self.not_leased),
            Outcome::NotReleased(_, _) => self.not_released = one_more(self.not_released),
            Outcome::Found(_) => self.found = one_more(self.found),
            Outcome::NotFound(_) => self.not_found = one_more(self.not_found),
            Outcome::Silent(_) => self.unanswered = one_more(self.unanswered),
            Outcome::ForNodes if !entry.is_broadcast => self.foreign = one_more(self.foreign),
            Outcome::NoMessage if !entry.is_broadcast => {
                self.malformed = one_more(self.malformed);
            }
            Outcome::ForNodes | Outcome::NoMessage => self.broadcast = one_more(self.broadcast),
        }
    }
}

/// How many registrations, refreshes, overwrites and releases were refused, by the reason. A count stays at 2^64 - 1.
#[derive(Clone, Copy, Debug, PartialEq, Eq)]
pub struct RefusalCounts {
    /// Their address isn't the sender's.
    pub not_own: u64,
    /// Their name begins with `*`.
    pub star: u64,
    /// They are overwrites.
    pub overwrite: u64,
    /// Another has the name.
    pub active: u64,
    /// The table is full.
    pub table_full: u64,
    /// The group is full.
    pub group_full: u64,
    /// The client has as many leases as it may.
    pub client_full: u64,
}

impl RefusalCounts {
    /// None was.
    fn new() -> RefusalCounts
        ensures { result ≡ no_refusals }
    {
        RefusalCounts {
            not_own: 0,
            star: 0,
            overwrite: 0,
            active: 0,
            table_full: 0,
            group_full: 0,
            client_full: 0,
        }
    }

    /// Counts one more refusal.
    fn count(&mut self, refusal: Refusal)
        ensures { self.new ≡ refusal_counted refusal self.old }
    {
        match refusal {
            Refusal::NotOwn => self.not_own = one_more(self.not_own),
            Refusal::Star => self.star = one_more(self.star),
            Refusal::Overwrite => self.overwrite = one_more(self.overwrite),
            Refusal::Active(_) => self.active = one_more(self.active),
            Refusal::TableFull => self.table_full = one_more(self.table_full),
            Refusal::GroupFull => self.group_full = one_more(self.group_full),
            Refusal::ClientFull => self.client_full = one_more(self.client_full),
        }
    }

    /// Counts the refusal of an outcome, if it is one.
    fn count_of(&mut self, outcome: &Outcome)
        ensures { self.new ≡ refused_counted outcome.now self.old }
    {
        match outcome {
            Outcome::Refused(_, refusal) | Outcome::NotReleased(_, refusal) => self.count(*refusal),
            _ => {}
        }
    }
}

/// What a name server has done, counted since it began to serve. A count stays at 2^64 - 1.
#[derive(Clone, Copy, Debug, PartialEq, Eq)]
pub struct Tally {
    /// Its datagrams, by their outcomes.
    pub outcomes: OutcomeCounts,
    /// What of them was refused, by the reasons.
    pub refusals: RefusalCounts,
    /// The lines of its log that were dropped, since the log's reader was slow or it could not be written.
    pub lines_dropped: u64,
}

impl Tally {
    /// Nothing yet.
    pub fn new() -> Tally
        ensures { result ≡ no_tally }
    {
        Tally {
            outcomes: OutcomeCounts::new(),
            refusals: RefusalCounts::new(),
            lines_dropped: 0,
        }
    }

    /// Counts a turn: what the server did with its datagram, if one came and wasn't lost, and how many lines of the log were
    /// dropped in it.
    pub fn count(&mut self, entry: &Option<Entry>, dropped: u64)
        ensures { self.new ≡ counted entry.now dropped self.old }
    {
        if let Some(entry) = entry {
            self.outcomes.count(entry);
            self.refusals.count_of(&entry.outcome);
        }
        self.lines_dropped = self.lines_dropped.saturating_add(dropped);
    }
}

/// One more.
fn one_more(count: u64) -> u64
    ensures { result ≡ one_more count }
{
    count.saturating_add(1)
}
