//! A machine's clocks, watched for sleep.

ghost use Rattle.std.specs.Prelude.{◌≡◌};
ghost use Rattle.nbt_host.specs.Sleeping.{slept_since, next_anchor, unwatched, with_earlier};
ghost use Rattle.nbt_host.specs.Hosting.{first_id};

use crate::sleeping::{Clocks, Reading};
use nbt_lease::Moment;
use nbt_port::Clock;

/// What a look at a machine's clocks told.
#[derive(Clone, Copy, Debug, PartialEq, Eq)]
pub struct Look {
    /// The steady clock.
    pub at: Moment,
    /// The time of day.
    pub day: Moment,
    /// Whether the machine slept since an earlier look.
    pub slept: bool,
    /// A number that nobody else can guess, the same at each look.
    pub salt: u16,
}

/// How many ids there are.
const IDS: u64 = 0x1_0000;

impl Look {
    /// The id of the first request of a life that begins at this look, which nobody can guess, and which differs from life to life: the
    /// last 16 bits of the salt and both clocks together (our profile).
    pub fn first_id(&self) -> u16
        ensures { result ≡ first_id self.now }
    {
        let salt = self.salt;
        ((self.at.get() + self.day.get() + u64::from(salt)) % IDS) as u16
    }

    /// This look, as the last one of a turn that began with another.
    pub fn with_earlier(self, first: Look) -> Look
        ensures { result ≡ with_earlier first self }
    {
        Look {
            slept: first.slept || self.slept,
            ..self
        }
    }
}

/// The clocks of a machine that may sleep.
pub trait Watch {
    ghost use Rattle.nbt_host.specs.declared.watching.Look.{Look};

    /// What a look is: the clocks before, what they told, and the clocks afterwards.
    ghost looks: { Self → (look : Look) → Self → Type 0 };

    /// Looks at the clocks.
    fn look(&mut self) -> Look
        ensures { looks self.old result self.new };
}

/// A machine's two clocks, and that one of their readings since which a sleep shows first: of all since the first, or since the last
/// one at which the machine had slept. It is none before the first.
#[derive(Drop)]
pub struct WatchedClocks<C, D> {
    /// The clocks.
    pub clocks: Clocks<C, D>,
    /// That reading.
    pub anchor: Option<Reading>,
    /// A number that nobody else can guess.
    pub salt: u16,
}

impl<C, D> WatchedClocks<C, D> {
    /// Clocks that were not looked at yet, with this salt.
    pub fn new(clocks: Clocks<C, D>, salt: u16) -> WatchedClocks<C, D>
        ensures { result ≡ unwatched clocks.steady clocks.day salt }
    {
        WatchedClocks {
            clocks,
            anchor: None,
            salt,
        }
    }
}

impl<C: Clock, D: Clock> Clock for WatchedClocks<C, D> {
    ghost use Rattle.nbt_host.specs.Sleeping.{SteadyAlone};

    ghost tells = { SteadyAlone C.tells };

    /// Reads the steady clock alone.
    fn now(&mut self) -> Moment {
        self.clocks.steady.now()
    }
}

impl<C: Clock, D: Clock> Watch for WatchedClocks<C, D> {
    ghost use Rattle.nbt_host.specs.Sleeping.{LooksAt};

    ghost looks = { LooksAt C.tells D.tells };

    /// Reads both clocks. The machine slept where the time of day went too far since any earlier look, back to the first, or to the
    /// last at which it had slept.
    fn look(&mut self) -> Look {
        let reading = self.clocks.read();
        let slept = slept_since(&self.anchor, &reading);
        let anchor = next_anchor(slept, &self.anchor, &reading);
        self.anchor = Some(anchor);
        Look {
            at: reading.after,
            day: reading.day,
            slept,
            salt: self.salt,
        }
    }
}

/// Whether the machine slept since the anchor, if there is one.
fn slept_since(anchor: &Option<Reading>, reading: &Reading) -> bool
    ensures { result ≡ slept_since anchor.now reading.now }
{
    match anchor {
        Some(anchor) => reading.slept_since(*anchor),
        None => false,
    }
}

/// The anchor after one reading more.
fn next_anchor(slept: bool, anchor: &Option<Reading>, reading: &Reading) -> Reading
    ensures { result ≡ next_anchor slept anchor.now reading.now }
{
    match anchor {
        Some(anchor) if !slept => anchor.anchor_with(*reading),
        _ => *reading,
    }
}
