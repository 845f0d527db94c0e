//! How long a disk takes to make changes durable.

use std::io;
use std::time::Duration;

/// How often changes were made durable, and how long that took, taken together. Neither goes past 2^64 - 1.
#[derive(Clone, Copy, Debug, PartialEq, Eq)]
pub struct Syncs {
    /// How often.
    pub count: u64,
    /// How long that took, in nanoseconds.
    pub nanoseconds: u64,
}

impl Syncs {
    /// Never yet.
    pub const NONE: Syncs = Syncs {
        count: 0,
        nanoseconds: 0,
    };

    /// One more, between these two readings of a clock. It took no time where one of them failed.
    pub(crate) fn add(&mut self, before: io::Result<Duration>, after: io::Result<Duration>) {
        self.count = self.count.saturating_add(1);
        if let (Ok(before), Ok(after)) = (before, after) {
            let took = after.saturating_sub(before).as_nanos();
            let took = u64::try_from(took).unwrap_or(u64::MAX);
            self.nanoseconds = self.nanoseconds.saturating_add(took);
        }
    }

    /// How long that took, in whole milliseconds.
    pub fn milliseconds(self) -> u64 {
        self.nanoseconds / 1_000_000
    }
}
