//! The line that tells how many lines of a kind were left out, where no other line of that kind follows.

ghost use Rattle.std.specs.Prelude.{◌≡◌, ◌++◌, ℕ, List, OnOk};
ghost use Rattle.std.specs.String.{string_bytes};
ghost use Rattle.nbt_log.specs.Dates.{second_at};
ghost use Rattle.nbt_log.specs.Summary.{IsSummary, SumsUp, verb_of};

use crate::dates::Dates;
use crate::entry::LineKind;
use crate::limiters::Limiters;
use crate::time::write_time;
use nbt_lease::Moment;
use std::alloc::AllocError;

/// Appends how many lines of a kind were left out, of the first kind that is due, as `2026-11-24T09:12:03Z .. 1200 more refused`;
/// nothing where none is due. The line is one of that kind: it is limited with them, and their count begins anew.
pub fn write_summary(
    limiters: &mut Limiters,
    dates: &Dates,
    now: Moment,
    out: &mut String,
) -> Result<(), AllocError>
    ensures { OnOk result ((line : List ℕ) × SumsUp (second_at dates.now now) limiters.old now line limiters.new × (string_bytes out.new ≡ string_bytes out.old ++ line)) }
{
    let Some(kind) = limiters.due(now) else {
        return Ok(());
    };
    let left_out = limiters.take(kind, now).unwrap();
    write_more(dates.second_at(now.get()), kind, left_out, out)
}

/// Appends how many lines of this kind were left out.
fn write_more(
    second: u64,
    kind: LineKind,
    left_out: u64,
    out: &mut String,
) -> Result<(), AllocError>
    ensures { OnOk result ((line : List ℕ) × IsSummary second kind left_out line × (string_bytes out.new ≡ string_bytes out.old ++ line)) }
{
    write_time(second, out)?;
    let verb = verb_of(kind);
    writeln!(out, " .. {left_out} more {verb}")
}

/// What the lines of a kind say that was done.
fn verb_of(kind: LineKind) -> &'static str
    ensures { result.now ≡ verb_of kind }
{
    match kind {
        LineKind::Granted => "granted",
        LineKind::Renewed => "renewed",
        LineKind::Refused => "refused",
        LineKind::Released => "released",
        LineKind::NotReleased => "release refused",
        LineKind::Unanswered => "unanswered",
        LineKind::Foreign => "foreign",
        LineKind::Malformed => "malformed",
        LineKind::Broadcast => "broadcast",
    }
}
