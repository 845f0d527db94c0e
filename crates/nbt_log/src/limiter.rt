//! A limit for lines of one kind.

ghost use Rattle.std.specs.Prelude.{◌≡◌, ◌<◌, [], length};
ghost use Rattle.nbt_log.specs.Limiting.{Limits, limiter_at, lines_most, times_most, told_at};
ghost use Rattle.nbt_log.specs.Summary.{is_due};

use arrayvec::ArrayVec;
use nbt_lease::Moment;
use std::marker::Model;

/// How many lines there are in a second at most, where nothing else is said (our profile).
pub const LINES_MOST: u8 = 10;

/// How many times of lines are remembered at most.
const TIMES_MOST: usize = 255;

/// A second, in milliseconds.
const SECOND: u64 = 1_000;

/// Which lines may be printed: at most so many in any second, or all. A contract sees how many, the times of so many lines that were
/// the last, and how many were left out since.
#[derive(Debug, Drop)]
pub struct Limiter {
    most: u8,
    told: ArrayVec<u64, TIMES_MOST>,
    left_out: u64,
}

impl Model for Limiter {
    ghost use Rattle.nbt_log.specs.Limiting.{LimiterValue};

    ghost Value = { LimiterValue };

    ghost view = { λ l. record { most = l.most; told = l.told.items; left_out = l.left_out } };
}

impl Limiter {
    /// No line was printed yet, and ten may be in any second.
    pub fn new() -> Limiter
        ensures { result ≡ limiter_at lines_most }
    {
        Limiter::of(LINES_MOST)
    }

    /// No line was printed yet, and at most so many may be in any second; all may be where it is 0.
    pub fn of(most: u8) -> Limiter
        ensures { result ≡ limiter_at most }
    {
        Limiter {
            most,
            told: ArrayVec::new(),
            left_out: 0,
        }
    }

    /// Whether a line may be printed at `now`: where all may be, or there were fewer than so many, or the first of the last so many was
    /// printed a second ago or earlier. Returns how many were left out since the last one; or `None`, and this one is left out too.
    pub fn take(&mut self, now: Moment) -> Option<u64>
        ensures { Limits self.old now result self.new }
    {
        if self.most == 0 {
            return Some(self.count());
        }
        if self.told.len() < usize::from(self.most) {
            return Some(self.tell(now));
        }
        if now.get() < self.told.as_slice()[0].saturating_add(SECOND) {
            self.left_out = self.left_out.saturating_add(1);
            return None;
        }
        self.told.remove(0);
        Some(self.tell(now))
    }

    /// Whether lines were left out and one may be printed at `now`: then [`Limiter::take`] returns how many.
    pub fn is_due(&self, now: Moment) -> bool
        ensures { result ≡ is_due self.now now }
    {
        if self.left_out == 0 || self.most == 0 {
            return false;
        }
        if self.told.len() < usize::from(self.most) {
            return true;
        }
        self.told.as_slice()[0].saturating_add(SECOND) <= now.get()
    }

    /// Records a printed line. Returns how many were left out since the one before.
    fn tell(&mut self, now: Moment) -> u64
        requires room { length self.old.told < times_most }
        ensures left_out { result ≡ self.old.left_out }
        ensures told { self.new ≡ told_at self.old.most self.old.told now }
    {
        self.told.push(now.get());
        self.count()
    }

    /// Returns how many lines were left out; none is left out since.
    fn count(&mut self) -> u64
        ensures left_out { result ≡ self.old.left_out }
        ensures counted { self.new ≡ record self.old { left_out = 0 } }
    {
        let left_out = self.left_out;
        self.left_out = 0;
        left_out
    }
}
