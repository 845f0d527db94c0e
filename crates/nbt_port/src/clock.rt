//! Clocks.

ghost use Rattle.std.specs.Prelude.{◌≡◌, ℕ};

use nbt_lease::Moment;

/// A clock, in milliseconds. It may go back.
pub trait Clock {
    /// What a reading is: the clock before, the time that it tells, and the clock afterwards.
    ghost tells: { Self → (moment : ℕ) → Self → Type 0 };

    /// Reads the time.
    fn now(&mut self) -> Moment
        ensures { tells self.old result self.new };
}
