//! The system's time of day as a clock.

ghost use Rattle.std.specs.Prelude.{◌≡◌, ◌≢◌, ◌≤◌, IfOk, IfErr};
ghost use Rattle.std.specs.Duration.{as_nanos};
ghost use Rattle.nbt_lease.specs.Config.{last_moment};
ghost use Rattle.nbt_port.specs.Clocks.{moment_in};

use crate::cause::{Cause, MachineCall};
use crate::clock::Clock;
use crate::fault::Fault;
use nbt_lease::Moment;
use nbt_name::Addr;
use std::io::Write;
use std::marker::Model;
use std::time::{Duration, SystemTime};
use std::{io, time};

/// The system's time of day in milliseconds since 1970. Where it can't be read, or is past 2^60, the clock tells the last time
/// again, at first 0. A contract sees the last time that it told.
#[derive(Drop)]
pub struct MachineClock<'a, R: time::Clock> {
    machine: &'a R,
    last: Moment,
    error: Option<io::Error>,
}

impl<'a, R: time::Clock> Model for MachineClock<'a, R> {
    ghost use Rattle.std.specs.Prelude.{ℕ, ◌≤◌};
    ghost use Rattle.nbt_lease.specs.Config.{last_moment};

    ghost Value = { ℕ };

    ghost view = { λ c. c.last };

    ghost invariant = { λ c. c.last ≤ last_moment };
}

impl<'a, R: time::Clock> MachineClock<'a, R> {
    /// The clock of this system.
    pub fn new(machine: &'a R) -> MachineClock<'a, R>
        ensures { result ≡ 0 }
    {
        MachineClock {
            machine,
            last: Moment::zero(),
            error: None,
        }
    }

    /// The time that it told last, at first 0.
    pub fn last(&self) -> Moment
        ensures { result ≡ self.now }
    {
        self.last
    }

    /// Why the last reading failed, if it did.
    pub fn error(&self) -> Option<io::Error> {
        self.error
    }
}

impl<'a, R: time::Clock> Clock for MachineClock<'a, R> {
    ghost use Rattle.nbt_port.specs.Clocks.{MachineTells};

    ghost tells = { MachineTells };

    fn now(&mut self) -> Moment {
        match time_of_day(self.machine) {
            Ok(moment) => {
                self.last = moment;
                self.error = None;
            }
            Err(error) => self.error = Some(error),
        }
        self.last
    }
}

/// The time of day, where it can be read and is before 2^60.
fn time_of_day<R: time::Clock>(machine: &R) -> io::Result<Moment>
    ensures { IfOk result (λ moment. moment ≤ last_moment) }
{
    let now = SystemTime::now(machine)?;
    let Ok(since) = now.duration_since(SystemTime::UNIX_EPOCH) else {
        return Err(io::Error::other("the time is before 1970"));
    };
    match moment_of(since) {
        Some(moment) => Ok(moment),
        None => Err(io::Error::other("the time is past 2^60 ms")),
    }
}

/// A duration as a moment, in milliseconds; `None` past 2^60.
pub(crate) fn moment_of(since: Duration) -> Option<Moment>
    ensures { result ≡ moment_in (as_nanos since) }
{
    Moment::new(u64::try_from(since.as_millis()).ok()?)
}

/// The system's time of day. Refused with `NoClock` where it can't be read: a line in `errors` then says why, for the host at
/// this address. A clock that can't be read tells 0: a server that started then would be silent no more as soon as the clock
/// can be read.
pub fn readable_clock<'a, M: time::Clock, E: Write>(
    machine: &'a M,
    addr: Addr,
    errors: &mut E,
) -> Result<MachineClock<'a, M>, Fault>
    ensures ok { IfOk result (λ clock. clock ≢ 0) }
    ensures err { IfErr result (λ fault. fault ≡ Fault.NoClock) }
{
    let mut clock = MachineClock::new(machine);
    if clock.now().get() == 0 {
        let error = clock
            .error()
            .unwrap_or(io::Error::other("the time is 1970"));
        Cause::new(MachineCall::Clock, addr, error).tell("", errors);
        return Err(Fault::NoClock);
    }
    Ok(clock)
}
