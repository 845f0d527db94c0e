//! What came of requests, counted; and as what a refusal is logged that came late.

ghost use Rattle.std.specs.Prelude.{◌≡◌, Some, None};
ghost use Rattle.nbt_waits.specs.Tally as spec;
ghost use Rattle.nbt_waits.specs.Tally.{counted, nothing_counted, refusal_by};

use crate::note::{Asked, Note};
use nbt_server::{Claim, Outcome, Refusal};

/// How many requests came to what. A count stays at 2^64 - 1.
#[derive(Clone, Copy, Debug, PartialEq, Eq)]
pub struct AskTally {
    /// Requests that had to wait.
    pub waits: u64,
    /// Further addresses that were confirmed or renewed.
    pub confirmed: u64,
    /// Further addresses that answered themselves.
    pub reached: u64,
    /// Requests that were refused, since another machine has the name.
    pub refused: u64,
    /// Requests that were told to wait.
    pub told: u64,
    /// Requests that the server was handed.
    pub granted: u64,
    /// Requests that were refused, since the address isn't the sender's.
    pub not_own: u64,
    /// Further addresses for which there was no room.
    pub full: u64,
    /// Requests that had no reply, since nobody answered.
    pub unanswered: u64,
    /// Requests that were lost, since too many wait.
    pub lost: u64,
}

impl AskTally {
    /// None yet.
    pub fn new() -> AskTally
        ensures { result ≡ nothing_counted }
    {
        AskTally {
            waits: 0,
            confirmed: 0,
            reached: 0,
            refused: 0,
            told: 0,
            granted: 0,
            not_own: 0,
            full: 0,
            unanswered: 0,
            lost: 0,
        }
    }

    /// Counts what came of one request more.
    pub fn count(&mut self, asked: Asked)
        ensures { self.new ≡ counted asked self.old }
    {
        match asked {
            Asked::Waits(_) => self.waits = one_more(self.waits),
            Asked::Confirmed(_) => self.confirmed = one_more(self.confirmed),
            Asked::Reached => self.reached = one_more(self.reached),
            Asked::Refused(_) => self.refused = one_more(self.refused),
            Asked::Told(_) => self.told = one_more(self.told),
            Asked::Granted => self.granted = one_more(self.granted),
            Asked::NotOwn => self.not_own = one_more(self.not_own),
            Asked::Full => self.full = one_more(self.full),
            Asked::Unanswered => self.unanswered = one_more(self.unanswered),
            Asked::Lost => self.lost = one_more(self.lost),
        }
    }
}

/// One more.
fn one_more(count: u64) -> u64
    ensures { result ≡ spec.one_more count }
{
    count.saturating_add(1)
}

impl Note {
    /// What the log has of a request that was refused after it waited: the same as of one that the server refused at once. `None` where it
    /// wasn't refused.
    pub fn refusal(&self) -> Option<Outcome>
        ensures { result ≡ refusal_by self.now.asked self.now }
    {
        let refusal = match self.asked {
            Asked::Refused(holder) => Refusal::Active(holder),
            Asked::NotOwn => Refusal::NotOwn,
            Asked::Full => Refusal::ClientFull,
            _ => return None,
        };
        Some(Outcome::Refused(self.claim(), refusal))
    }

    /// What it asked for.
    fn claim(&self) -> Claim
        ensures { result ≡ record { name = self.now.name; kind = self.now.kind; addr = self.now.addr } }
    {
        Claim {
            name: self.name.copy(),
            kind: self.kind,
            addr: self.addr,
        }
    }
}
