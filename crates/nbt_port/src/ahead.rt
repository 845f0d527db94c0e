//! A clock that is ahead of another.

ghost use Rattle.std.specs.Prelude.{◌≡◌};
ghost use Rattle.nbt_port.specs.Clocks.{ahead_of};

use crate::clock::Clock;
use nbt_lease::Moment;

/// A clock that is so many milliseconds ahead of another, and stops at 2^60. So times of a clock that began anew, as the
/// machine's does at each boot, go on where they were.
#[derive(Drop)]
pub struct Ahead<C> {
    /// The other clock.
    pub clock: C,
    /// By how many milliseconds it is ahead.
    pub by: u64,
}

impl<C: Clock> Clock for Ahead<C> {
    ghost use Rattle.nbt_port.specs.Clocks.{TellsAhead};

    ghost tells = { TellsAhead C.tells };

    fn now(&mut self) -> Moment {
        ahead_of(self.clock.now(), self.by)
    }
}

/// The last time of a clock, in milliseconds (our profile).
const LAST: u64 = 1 << 60;

/// The time of a clock that is so many milliseconds ahead where the other tells this one: at most 2^60.
pub fn ahead_of(moment: Moment, by: u64) -> Moment
    ensures { result ≡ ahead_of moment by }
{
    Moment::new(moment.get().saturating_add(by).min(LAST)).unwrap()
}
