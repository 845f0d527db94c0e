//! What a node knows of one name (RFC 1002 section 5.1.2; the states are our profile's).

use crate::transaction::Transaction;
use nbt_lease::Moment;
use nbt_name::{Kind, Name};

/// The state of one name at a node. A time that may be later than any `Moment` is in milliseconds.
#[derive(Clone, Copy, Debug, PartialEq, Eq)]
pub enum State {
    /// Nothing is known of the name, and it may be registered.
    Idle,
    /// No reply has ended the registration.
    Asking {
        kind: Kind,
        /// The requested TTL, in seconds.
        ttl: u32,
        /// When the last request about the name was sent.
        last: Moment,
        pending: Transaction,
    },
    /// The name is held up to `until`.
    Held {
        kind: Kind,
        ttl: u32,
        until: u64,
        /// From when on the hold is refreshed.
        renew: u64,
        last: Moment,
        /// The refresh that no reply has ended.
        pending: Option<Transaction>,
    },
    /// No reply has ended the release.
    Releasing {
        kind: Kind,
        last: Moment,
        pending: Transaction,
    },
    /// The name may not be registered until more than `Config::quiet()` has passed since the last sending.
    Resting {
        last: Moment,
    },
}

/// A name that isn't `Idle`, and its state.
#[derive(Debug, Drop)]
pub struct Slot {
    pub name: Name,
    pub state: State,
}
