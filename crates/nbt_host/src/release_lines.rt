//! What a host prints when it has given its names back.

ghost use Rattle.std.specs.Prelude.{◌≡◌, ◌++◌, ℕ, List, OnOk};
ghost use Rattle.std.specs.String.{string_bytes};
ghost use Rattle.nbt_host.specs.TurnLines.{TellsAll};
ghost use Rattle.nbt_host.specs.ReleaseLines.{outcome_of, TellsEnding};

use crate::event::{Event, write_event};
use crate::goal::{Goal, Stage};
use std::alloc::AllocError;

/// Appends a line for each name, in the list's order: what came of giving it back, in this second since 1970.
pub fn write_endings(second: u64, goals: &[Goal], out: &mut String) -> Result<(), AllocError>
    ensures { OnOk result ((text : List ℕ) × TellsAll (TellsEnding second) goals.now text × (string_bytes out.new ≡ string_bytes out.old ++ text)) }
{
    for goal in goals {
        write_event(second, outcome_of(goal.stage), &goal.want.name, out)?;
    }
    Ok(())
}

/// What came of the release of a name.
fn outcome_of(stage: Stage) -> Event
    ensures { result ≡ outcome_of stage }
{
    match stage {
        Stage::Left(0) => Event::GivenBack,
        Stage::Left(rcode) => Event::Denied(rcode),
        Stage::Released | Stage::Doubtful => Event::Unconfirmed,
        Stage::Wanted | Stage::Leaving => Event::NotHeld,
    }
}
