//! Until when the changes of a file go.

ghost use Rattle.std.specs.Prelude.{◌≡◌};
ghost use Rattle.nbt_store.specs.Times.{first_times, times_after};

use crate::change::Change;
use crate::header::Header;

/// Until when a file goes, and when the time of day was read last. Times are milliseconds of the server's clock.
#[derive(Clone, Copy, Debug, PartialEq, Eq)]
pub struct Times {
    /// The last time of all: no change is later.
    pub last: u64,
    /// When the time of day was read.
    pub seen: u64,
    /// The time of day at that time, in milliseconds since the beginning of 1970.
    pub day: u64,
}

impl Times {
    /// Those of a file with this header that was just written.
    pub(crate) fn first(header: &Header) -> Times
        ensures { result ≡ first_times header.now }
    {
        Times {
            last: header.last,
            seen: header.last,
            day: header.day,
        }
    }

    /// The same after a change more.
    pub(crate) fn after(self, change: &Change) -> Times
        ensures { result ≡ times_after change.now self }
    {
        let last = self.last.max(change.at());
        match change {
            Change::Looked { day, at } => Times {
                last,
                seen: *at,
                day: *day,
            },
            _ => Times {
                last,
                seen: self.seen,
                day: self.day,
            },
        }
    }
}
