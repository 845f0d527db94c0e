//! When a machine slept, by its two clocks.

ghost use Rattle.std.specs.Prelude.{◌≡◌, ◌+◌, ◌*◌};
ghost use Rattle.nbt_port.specs.PortCalls.{Chain};
ghost use Rattle.nbt_host.specs.Ticks.{ticks_of};
ghost use Rattle.nbt_host.specs.Sleeping.{has_slept, anchor_of, Reads};

use nbt_lease::Moment;
use nbt_port::Clock;

/// By how many milliseconds the time of day may go beyond a steady clock between two readings, beside a thousandth of what that
/// clock went (our profile).
pub const SLEEP: u64 = 200;

/// A machine's two clocks. Each tells milliseconds since a beginning of its own.
#[derive(Drop)]
pub struct Clocks<C, D> {
    /// The monotonic clock, which may stand while the machine sleeps.
    pub steady: C,
    /// The time of day.
    pub day: D,
}

/// Two clocks, of which one is read at a time.
pub trait TwoClocks {
    ghost use Rattle.nbt_host.specs.Ticks.{Tick, steady_told, day_told};

    /// What a reading is: the clocks before, which of them told what, and the clocks afterwards.
    ghost ticks: { Self → Tick → Self → Type 0 };

    /// Reads the monotonic clock.
    fn read_steady(&mut self) -> Moment
        ensures { ticks self.old (steady_told result) self.new };

    /// Reads the time of day.
    fn read_day(&mut self) -> Moment
        ensures { ticks self.old (day_told result) self.new };
}

impl<C: Clock, D: Clock> TwoClocks for Clocks<C, D> {
    ghost use Rattle.nbt_host.specs.Ticks.{BothTell};

    ghost ticks = { λ old tick new. BothTell C.tells D.tells (old.steady, old.day) tick (new.steady, new.day) };

    fn read_steady(&mut self) -> Moment {
        self.steady.now()
    }

    fn read_day(&mut self) -> Moment {
        self.day.now()
    }
}

/// Reads the monotonic clock, then the time of day, and then the monotonic clock again.
fn read_in_order<K: TwoClocks>(clocks: &mut K) -> Reading
    ensures { Chain K.ticks clocks.old (ticks_of result) clocks.new }
{
    let before = clocks.read_steady();
    let day = clocks.read_day();
    let after = clocks.read_steady();
    Reading { before, day, after }
}

impl<C: Clock, D: Clock> Clocks<C, D> {
    /// Reads the monotonic clock, then the time of day, and then the monotonic clock again.
    pub fn read(&mut self) -> Reading
        ensures { Reads C.tells D.tells self.old.steady self.old.day result self.new.steady self.new.day }
    {
        read_in_order(self)
    }
}

/// What both clocks of a machine told: the time of day, read between two readings of the monotonic clock.
#[derive(Clone, Copy, Debug, PartialEq, Eq)]
pub struct Reading {
    /// The steady clock before it.
    pub before: Moment,
    /// The time of day.
    pub day: Moment,
    /// The steady clock after it.
    pub after: Moment,
}

impl Reading {
    /// Whether the machine slept since an earlier reading: the time of day went more than 200 ms, and a thousandth, beyond the most
    /// that the monotonic clock can have gone between the two, from before the earlier to after this one. So being interrupted
    /// within a reading doesn't count. A time of day that is set forward counts.
    pub fn slept_since(self, earlier: Reading) -> bool
        ensures { result ≡ has_slept earlier self }
    {
        weighed(earlier.day, self.after) + 1000 * u128::from(SLEEP)
            < weighed(self.day, earlier.before)
    }

    /// Of this reading and a later one, the one since which a sleep shows first.
    pub fn anchor_with(self, later: Reading) -> Reading
        ensures { result ≡ anchor_of self later }
    {
        if weighed(later.day, self.before) < weighed(self.day, later.before) {
            later
        } else {
            self
        }
    }
}

/// A thousand times the time of day, and 1001 times that of a steady clock.
fn weighed(day: Moment, steady: Moment) -> u128
    ensures { result ≡ 1000 * day + 1001 * steady }
{
    1000 * u128::from(day.get()) + 1001 * u128::from(steady.get())
}
