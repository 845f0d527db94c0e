//! Times of day as text.

ghost use Rattle.std.specs.Prelude.{◌≡◌, ◌++◌, ◌*◌, ℕ, List, OnOk, min, pos};
ghost use Rattle.std.specs.String.{string_bytes};
ghost use Rattle.nbt_log.specs.Dates.{IsTimeText, last_second};

use jiff_core::Timestamp;
use jiff_fmt::temporal::DateTimePrinter;
use std::alloc::AllocError;

/// The last second that has a text, of the year 9999, in seconds since 1970.
pub const LAST_SECOND: u64 = 253_402_207_200;

/// Nanoseconds of a second.
const NANOSECONDS: i128 = 1_000_000_000;

/// Appends the date and the time of a second since 1970, in UTC, as in RFC 3339: `2026-11-24T09:12:03Z`. From 253,402,207,200
/// on the text stays the same.
pub fn write_time(second: u64, out: &mut String) -> Result<(), AllocError>
    ensures { OnOk result ((text : List ℕ) × IsTimeText second text × (string_bytes out.new ≡ string_bytes out.old ++ text)) }
{
    let printed = DateTimePrinter::new().timestamp_text(timestamp_of(second));
    let text = printed.as_str();
    write!(out, "{text}")
}

/// The instant of a second since 1970.
fn timestamp_of(second: u64) -> Timestamp
    ensures { result.nanosecond ≡ pos (min second last_second * 1000000000) }
{
    let nanosecond = i128::from(second.min(LAST_SECOND)) * NANOSECONDS;
    Timestamp::from_nanosecond(nanosecond).unwrap()
}
