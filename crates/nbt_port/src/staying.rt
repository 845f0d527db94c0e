//! How a server or a host stays up when its port fails.

ghost use Rattle.std.specs.Prelude.{◌≡◌, ◌+◌, ◌<◌, OnOk, OnErr, IfErr};
ghost use Rattle.nbt_port.specs.declared.fault.Fault.{Fault};
ghost use Rattle.nbt_port.specs.Numbers.{failures_most};
ghost use Rattle.nbt_port.specs.Staying.{StaysUntil, EndsEarly, Takes};

use crate::cause::Cause;
use crate::fault::Fault;
use crate::limits::MOST_FAILURES;
use crate::port::Device;
use crate::udp::RECEIVE_WAIT;
use std::io::Write;
use std::time::Duration;
use std::{io, thread, time};

/// How many turns in a row have failed.
#[derive(Debug, Drop)]
pub struct Row {
    /// How many.
    pub failed: u64,
}

impl Row {
    /// None has.
    pub fn new() -> Row
        ensures { result.failed ≡ 0 }
    {
        Row { failed: 0 }
    }

    /// A turn went well: the row is over. If there was one, a line in `errors` says so.
    pub fn ends<E: Write>(&mut self, errors: &mut E)
        ensures { self.new.failed ≡ 0 }
    {
        if self.failed > 0 {
            let _ = tell_count(errors, self.failed);
        }
        self.failed = 0;
    }

    /// A turn failed, for this cause. At the first of a row a line in `errors` says so. It waits 100 ms by the system's clock,
    /// as long as a turn takes in which nothing comes. Refused with `Device` at the hundredth in a row, at once.
    pub fn goes_on<M: time::Clock, E: Write>(
        &mut self,
        cause: Option<Cause>,
        machine: &M,
        errors: &mut E,
    ) -> Result<(), Device>
        requires failed_turns { self.old.failed < failures_most }
        ensures count { self.new.failed ≡ self.old.failed + 1 }
        ensures ok { OnOk result (self.new.failed < failures_most) }
        ensures err { OnErr result (self.new.failed ≡ failures_most) }
    {
        self.failed += 1;
        if self.failed >= MOST_FAILURES {
            return Err(Device);
        }
        if self.failed == 1 {
            tell_failure(cause, errors);
        }
        thread::sleep(machine, Duration::from_millis(RECEIVE_WAIT));
        Ok(())
    }
}

/// What came of a turn.
#[derive(Clone, Copy, Debug)]
pub enum Turned {
    /// It went well.
    Well,
    /// It went well, and was the last: the time is over.
    Last,
    /// The port failed, for this cause, where it knows it.
    Failed(Option<Cause>),
    /// It can't go on, for this fault; it is none of the port's.
    CutOff(Fault),
}

/// What goes on turn by turn, and is to stay up when its port fails.
pub trait Turn {
    /// What a turn changes.
    ghost State: { Type 0 };

    /// What a turn shows.
    ghost Shown: { Type 0 };

    /// What stays as it is: its arguments, and which values it borrows.
    ghost Fixed: { Type 0 };

    ghost state: { Self → State };

    ghost fixed: { Self → Fixed };

    /// A turn that goes well.
    ghost turns: { Fixed → State → Shown → State → Type 0 };

    /// A turn in which the port fails.
    ghost breaks: { Fixed → State → State → Type 0 };

    /// The last turn, after which the time is over.
    ghost last: { Fixed → State → State → Type 0 };

    /// A turn that cuts it off for a fault that isn't the port's.
    ghost cuts: { Fixed → Fault → State → State → Type 0 };

    /// Takes a turn. What can't be done about it is said in `errors`.
    fn take<E: Write>(&mut self, errors: &mut E) -> Turned
        ensures takes { Takes (turns (fixed self.old)) (breaks (fixed self.old)) (last (fixed self.old)) (cuts (fixed self.old)) result (state self.old) (state self.new) }
        ensures fixed { fixed self.new ≡ fixed self.old };
}

/// Takes `turns` turns, or as many as it takes until one is the last, and stays up when the port fails. After a turn that failed it
/// says so in `errors`, the first time of a row, waits 100 ms by the machine's clock, and goes on from where the failure left it;
/// when the row is over, it says how many failed. Refused: `Device` at the hundredth failure in a row; the fault of a turn that
/// is cut off; each at once. What can't be written to `errors` is passed over.
pub fn stay_up<T: Turn, M: time::Clock, E: Write>(
    turn: &mut T,
    turns: u64,
    machine: &M,
    errors: &mut E,
) -> Result<(), Fault>
    ensures ok { OnOk result (StaysUntil (T.turns (T.fixed turn.old)) (T.breaks (T.fixed turn.old)) (T.last (T.fixed turn.old)) turns (T.state turn.old) (T.state turn.new)) }
    ensures err { IfErr result (λ fault. EndsEarly (T.turns (T.fixed turn.old)) (T.breaks (T.fixed turn.old)) (T.cuts (T.fixed turn.old)) turns fault (T.state turn.old) (T.state turn.new)) }
    ensures fixed { T.fixed turn.new ≡ T.fixed turn.old }
{
    let mut row = Row::new();
    for _ in 0..turns {
        match turn.take(errors) {
            Turned::Well => row.ends(errors),
            Turned::Last => {
                row.ends(errors);
                return Ok(());
            }
            Turned::Failed(cause) => row.goes_on(cause, machine, errors)?,
            Turned::CutOff(fault) => return Err(fault),
        }
    }
    Ok(())
}

/// Prints to `errors` why a port failed for good, where it did and the reason is known.
pub fn tell_end_of<E: Write>(fault: Option<Fault>, cause: Option<Cause>, errors: &mut E) {
    if let (Some(Fault::Device), Some(cause)) = (fault, cause) {
        cause.tell("", errors);
    }
}

/// Prints that a port failed, and why, where that is known.
fn tell_failure<E: Write>(cause: Option<Cause>, errors: &mut E) {
    match cause {
        Some(cause) => cause.tell("; going on", errors),
        None => {
            let _ = tell(errors, "the port failed; going on");
        }
    }
}

fn tell<E: Write>(errors: &mut E, text: &str) -> io::Result<()> {
    writeln!(errors, "nbt: {text}")?;
    errors.flush()
}

fn tell_count<E: Write>(errors: &mut E, row: u64) -> io::Result<()> {
    writeln!(
        errors,
        "nbt: the port is well again after {row} failures in a row"
    )?;
    errors.flush()
}
