//! Times of one clock.

ghost use Rattle.std.specs.Prelude.{◌≡◌, ◌<◌, ◌≤◌, ◌↔◌, IsSome, IfSome};
ghost use Rattle.nbt_lease.specs.Config.{last_moment};

use std::marker::Model;

/// A time: milliseconds since the beginning of a monotonic clock, 0 to 2^60 (our profile). A lease may expire later, so an
/// expiry is a `u64` and no `Moment`.
#[derive(Clone, Copy, Debug, PartialEq, Eq, PartialOrd, Ord, Hash)]
pub struct Moment {
    ms: u64,
}

impl Model for Moment {
    ghost use Rattle.std.specs.Prelude.{ℕ, ◌≤◌};
    ghost use Rattle.nbt_lease.specs.Config.{last_moment};

    ghost Value = { ℕ };

    ghost view = { λ m. m.ms };

    ghost invariant = { λ m. m.ms ≤ last_moment };

    ghost inverse = { λ ms. record { ms = ms } };
}

/// The last time, in milliseconds.
const LAST: u64 = 1 << 60;

impl Moment {
    /// The beginning of the clock, 0.
    pub fn zero() -> Moment
        ensures { result ≡ 0 }
    {
        Moment { ms: 0 }
    }

    /// The time of this many milliseconds; none above 2^60.
    pub fn new(ms: u64) -> Option<Moment>
        ensures found { IsSome result ↔ (ms ≤ last_moment) }
        ensures value { IfSome result (λ moment. moment ≡ ms) }
    {
        if ms > LAST {
            return None;
        }
        Some(Moment { ms })
    }

    /// The milliseconds, 0 to 2^60.
    pub fn get(self) -> u64
        ensures value { result ≡ self }
        ensures bound { result ≤ last_moment }
    {
        self.ms
    }
}
