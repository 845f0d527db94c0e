//! Requests that no reply has ended (RFC 1002 sections 5.1.2 and 6).

ghost use Rattle.std.specs.Prelude.{◌≡◌, ◌<◌};
ghost use Rattle.nbt_node.specs.Transaction.{sendings, next_due, is_next, is_over, opened, again, put_off};

use nbt_lease::Moment;

/// How often a request is sent in all (UCAST_REQ_RETRY_COUNT, RFC 1002 section 6).
pub const SENDINGS: u8 = 3;

/// The milliseconds after which a request without a reply is sent again (UCAST_REQ_RETRY_TIMEOUT, RFC 1002 section 6).
pub const RETRY_TIMEOUT: u32 = 5_000;

/// When a request that is sent at `now` is due again.
pub fn next_due(now: Moment) -> u64
    ensures { result ≡ next_due now }
{
    now.get() + u64::from(RETRY_TIMEOUT)
}

/// Whether a request is to be sent once more.
pub fn is_next(tries: u8, due: u64, now: Moment) -> bool
    ensures { result ≡ is_next now tries due }
{
    tries < SENDINGS && due <= now.get()
}

/// Whether a request was sent three times, and the next sending would be due.
pub fn is_over(tries: u8, due: u64, now: Moment) -> bool
    ensures { result ≡ is_over now tries due }
{
    tries >= SENDINGS && due <= now.get()
}

/// A registration, a release or a refresh that no reply has ended.
#[derive(Clone, Copy, Debug, PartialEq, Eq)]
pub struct Transaction {
    pub id: u16,
    /// When it was sent first.
    pub first: Moment,
    /// How often it was sent.
    pub tries: u8,
    /// When it is sent again, or given up.
    pub due: u64,
}

impl Transaction {
    /// A request that is sent first at `now`.
    pub fn open(id: u16, now: Moment) -> Transaction
        ensures { result ≡ opened id now }
    {
        Transaction {
            id,
            first: now,
            tries: 1,
            due: next_due(now),
        }
    }

    /// The same request, sent once more at `now`.
    pub fn again(&self, now: Moment) -> Transaction
        requires { self.now.tries < sendings }
        ensures { result ≡ again now self.now }
    {
        Transaction {
            tries: self.tries + 1,
            due: next_due(now),
            ..*self
        }
    }

    /// The same request, its next sending put off.
    pub fn put_off(&self, until: u64) -> Transaction
        ensures { result ≡ put_off until self.now }
    {
        Transaction {
            due: until,
            ..*self
        }
    }
}
