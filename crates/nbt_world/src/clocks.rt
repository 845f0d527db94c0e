//! The true clock of a world, what each end reads, whether the readings kept the drift bound, and whether they were timely.

ghost use Rattle.std.specs.Prelude.{◌≡◌, ◌≢◌, ℕ, ◌+◌, ◌-◌, ◌*◌, ◌^◌, ◌<◌, ◌≤◌, ◌↔◌, IsTrue, slice_index, replicate};
ghost use Rattle.nbt_world.specs.Drift.{reading, later, least_of, numbers_of, lesser, IsAllowed, IsAllowedTimely};

use nbt_lease::Moment;

/// The most ends of a world: a server and eight nodes.
pub const ENDS_MOST: usize = 9;

/// The last moment of a clock, in milliseconds (our profile).
pub const LAST: u64 = 1 << 60;

/// The drift bound in thousandths of a millisecond: by how much the two numbers of an end may grow.
const MOST: u128 = 1000;

/// The true clock, and each end's own reading of it: the server's, and then the nodes'.
#[derive(Clone, Copy, Debug)]
pub struct Clocks {
    /// The true clock.
    pub clock: Moment,
    /// What each end reads. Those that the world hasn't say nothing.
    pub readings: [Moment; 9],
}

/// How far an end's reading was ahead of the true clock and behind it, each where it was least.
#[derive(Clone, Copy, Debug)]
pub struct Least {
    pub ahead: u128,
    pub behind: u128,
}

/// A clock goes on by this number of milliseconds, at most to 2^60.
fn later(moment: Moment, ms: u64) -> Moment
    ensures { result ≡ later moment ms }
{
    let ms = moment.get().saturating_add(ms).min(LAST);
    match Moment::new(ms) {
        Some(later) => later,
        None => unreachable!(),
    }
}

impl Clocks {
    /// All clocks are at 0.
    pub fn zero() -> Clocks
        ensures clock { result.clock ≡ 0 }
        ensures readings { result.readings ≡ replicate 9 0 }
    {
        Clocks {
            clock: Moment::zero(),
            readings: [Moment::zero(); 9],
        }
    }

    /// What the end of this number reads; 0 where there is none.
    pub fn reading(&self, number: usize) -> Moment
        ensures { result ≡ reading self.now number }
    {
        if number < ENDS_MOST {
            self.readings[number]
        } else {
            Moment::zero()
        }
    }

    /// Each clock goes on by its own number of milliseconds.
    pub fn go_on(&mut self, ms: u64, moves: &[u64; 9])
        ensures clock { self.new.clock ≡ later self.old.clock ms }
        ensures readings { (number : ℕ) → number < 9 → reading self.new number ≡ later (reading self.old number) (slice_index moves.now number) }
    {
        self.clock = later(self.clock, ms);
        for number in 0..ENDS_MOST {
            self.readings[number] = later(self.readings[number], moves[number]);
        }
    }
}

impl Least {
    /// The two numbers of an end at a moment: with D the true clock and C the reading, 1000 C - 1001 D and
    /// 999 D - 1000 C, each more by what makes it no less than 0.
    fn of(now: Moment, reading: Moment) -> Least
        ensures { result ≡ record { ahead = 1000 * reading + 1001 * (2 ^ 60 - now); behind = 999 * now + 1000 * (2 ^ 60 - reading) } }
    {
        let now = now.get();
        let reading = reading.get();
        Least {
            ahead: 1000 * u128::from(reading) + 1001 * u128::from(LAST - now),
            behind: 999 * u128::from(now) + 1000 * u128::from(LAST - reading),
        }
    }

    /// The lesser of each.
    fn lesser(self, seen: Least) -> Least
        ensures { result ≡ lesser self seen }
    {
        Least {
            ahead: self.ahead.min(seen.ahead),
            behind: self.behind.min(seen.behind),
        }
    }

    /// Whether neither number grew by more than the bound allows.
    fn allows(self, seen: Least) -> bool
        ensures { IsTrue result ↔ ((seen.ahead ≤ self.ahead + 1000) × (seen.behind ≤ self.behind + 1000)) }
    {
        seen.ahead <= self.ahead.saturating_add(MOST)
            && seen.behind <= self.behind.saturating_add(MOST)
    }

    /// Whether the first number of the end of this number grew by no more than the bound allows, and, of a node, the second.
    fn allows_timely(self, number: usize, seen: Least) -> bool
        ensures { IsTrue result ↔ ((seen.ahead ≤ self.ahead + 1000) × (number ≢ 0 → seen.behind ≤ self.behind + 1000)) }
    {
        seen.ahead <= self.ahead.saturating_add(MOST)
            && (number == 0 || seen.behind <= self.behind.saturating_add(MOST))
    }
}

/// The numbers of all ends where every clock is at 0.
pub fn at_beginning() -> [Least; 9]
    ensures { result ≡ replicate 9 (record { ahead = 1001 * 2 ^ 60; behind = 1000 * 2 ^ 60 }) }
{
    [Least::of(Moment::zero(), Moment::zero()); 9]
}

/// Takes in how the clocks of the first `ends` ends stand now. Returns whether each keeps the drift bound with all that was
/// seen before.
pub fn watch(least: &mut [Least; 9], clocks: &Clocks, ends: usize) -> bool
    requires { ends ≤ 9 }
    ensures least { (number : ℕ) → number < ends → least_of least.new number ≡ lesser (least_of least.old number) (numbers_of clocks.now number) }
    ensures allowed { IsTrue result ↔ ((number : ℕ) → number < ends → IsAllowed (least_of least.new number) clocks.now number) }
{
    let mut kept = true;
    for number in 0..ends {
        let seen = Least::of(clocks.clock, clocks.reading(number));
        least[number] = least[number].lesser(seen);
        if !least[number].allows(seen) {
            kept = false;
        }
    }
    kept
}

/// Whether each of the first `ends` ends is timely beside all that was seen so far: it isn't faster than the drift bound lets it
/// be, nor, if it is a node, slower. The server's clock may lag.
pub fn are_timely(least: &[Least; 9], clocks: &Clocks, ends: usize) -> bool
    requires { ends ≤ 9 }
    ensures { IsTrue result ↔ ((number : ℕ) → number < ends → IsAllowedTimely (least_of least.now number) clocks.now number) }
{
    let mut timely = true;
    for number in 0..ends {
        let seen = Least::of(clocks.clock, clocks.reading(number));
        if !least[number].allows_timely(number, seen) {
            timely = false;
        }
    }
    timely
}
