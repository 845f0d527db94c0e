//! The system's monotonic clock.

ghost use Rattle.std.specs.Prelude.{◌≡◌, IfOk, IfErr};
ghost use Rattle.nbt_port.specs.Clocks.{later_of, SteadyBegins};

use crate::cause::{Cause, MachineCall};
use crate::clock::Clock;
use crate::fault::Fault;
use crate::time_of_day::moment_of;
use nbt_lease::Moment;
use nbt_name::Addr;
use std::io::Write;
use std::marker::Model;
use std::time::Duration;
use std::{io, time};

/// A machine whose monotonic clock can be read.
pub trait Monotonic {
    ghost use Rattle.std.specs.Prelude.{ℕ, Option, Some, None, MatchResult};
    ghost use Rattle.std.specs.Duration.{as_nanos};

    /// What that clock shows when it is read: so many nanoseconds since it began, or nothing where the reading fails.
    ghost shows: { (reading : Option ℕ) → Type 0 };

    /// How long ago that clock began: with the machine, so it goes on when a program ends and another starts.
    fn since_boot(&self) -> io::Result<Duration>
        ensures { MatchResult result (λ since. shows (Some (as_nanos since))) (λ _. shows None) };
}

impl<R: time::Clock> Monotonic for R {
    ghost use Rattle.nbt_port.specs.Clocks.{SystemShows};

    ghost shows = { SystemShows };

    fn since_boot(&self) -> io::Result<Duration> {
        self.monotonic()
    }
}

/// The milliseconds since the machine's monotonic clock began. It never goes back: where that clock does, can't be read, or is past
/// 2^60, it tells the last time again. A contract sees the last time that it told.
#[derive(Drop)]
pub struct SteadyClock<'a, R> {
    machine: &'a R,
    last: Moment,
}

impl<'a, R> Model for SteadyClock<'a, R> {
    ghost use Rattle.std.specs.Prelude.{ℕ, ◌≤◌};
    ghost use Rattle.nbt_lease.specs.Config.{last_moment};

    ghost Value = { ℕ };

    ghost view = { λ c. c.last };

    ghost invariant = { λ c. c.last ≤ last_moment };
}

impl<'a, R: Monotonic> SteadyClock<'a, R> {
    /// The clock of this machine. Refused where that can't be read, or is past 2^60.
    pub fn begin(machine: &'a R) -> io::Result<SteadyClock<'a, R>>
        ensures { IfOk result (λ clock. SteadyBegins R.shows clock) }
    {
        let since = machine.since_boot()?;
        match moment_of(since) {
            Some(last) => Ok(SteadyClock { machine, last }),
            None => Err(io::Error::other("the clock is past 2^60 ms")),
        }
    }
}

impl<'a, R: Monotonic> Clock for SteadyClock<'a, R> {
    ghost use Rattle.nbt_port.specs.Clocks.{SteadyTells};

    ghost tells = { SteadyTells R.shows };

    fn now(&mut self) -> Moment {
        if let Ok(since) = self.machine.since_boot() {
            self.last = later_of(self.last, moment_of(since));
        }
        self.last
    }
}

/// The later of two times; the last one where there is no other.
fn later_of(last: Moment, read: Option<Moment>) -> Moment
    ensures { result ≡ later_of last read }
{
    match read {
        Some(moment) if moment > last => moment,
        _ => last,
    }
}

/// Begins the monotonic clock. Refused with `NoClock` where it can't be read, or is past 2^60: a line in `errors` then says why, for
/// the host at this address.
pub fn steady_clock<'a, M: Monotonic, E: Write>(
    machine: &'a M,
    addr: Addr,
    errors: &mut E,
) -> Result<SteadyClock<'a, M>, Fault>
    ensures ok { IfOk result (λ clock. SteadyBegins M.shows clock) }
    ensures err { IfErr result (λ fault. fault ≡ Fault.NoClock) }
{
    match SteadyClock::begin(machine) {
        Ok(clock) => Ok(clock),
        Err(error) => {
            Cause::new(MachineCall::Clock, addr, error).tell("", errors);
            Err(Fault::NoClock)
        }
    }
}
