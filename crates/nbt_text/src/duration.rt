//! Times with their units.

ghost use Rattle.std.specs.Prelude.{◌≡◌, ◌↔◌, ◌≤◌, ℕ, Some, IsTrue, IfSome, IfNone};
ghost use Rattle.nbt_text.specs.SuffixedNames.{IsCutAt};
ghost use Rattle.nbt_text.specs.Inner.Blanks.{IsNoDigit};
ghost use Rattle.nbt_text.specs.Times.{IsUnit, SpellsTime};

use crate::number::{between, parse_number};

/// The milliseconds of a second, of a minute, of an hour, and of a day.
const SECOND: u64 = 1_000;

const MINUTE: u64 = 60_000;

const HOUR: u64 = 3_600_000;

const DAY: u64 = 86_400_000;

/// Reads a time, as `1500ms`, `300s`, `5m`, `2h` or `1d`: a number in decimal digits, and its unit. In milliseconds, fewer than 2^64.
pub fn read_duration(text: &[u8]) -> Option<u64>
    ensures { (time : ℕ) → (result ≡ Some time) ↔ SpellsTime text.now time }
{
    let (digits, unit) = digits_before(text);
    let each = unit_of(unit)?;
    parse_number(digits)?.checked_mul(each)
}

/// Reads a time, as [`read_duration`] does, of at least `least` ms and at most `most` ms.
pub fn duration_within(text: &str, least: u64, most: u64) -> Option<u64>
    ensures read { IfSome result (λ time. SpellsTime text.now time × ((least ≤ time) × (time ≤ most))) }
    ensures none { IfNone result ((time : ℕ) → ¬ (SpellsTime text.now time × ((least ≤ time) × (time ≤ most)))) }
{
    match read_duration(text.as_bytes()) {
        Some(time) => between(time, least, most),
        None => None,
    }
}

/// The digits that a text begins with, and the rest.
pub(crate) fn digits_before(text: &[u8]) -> (&[u8], &[u8])
    ensures { IsCutAt IsNoDigit text.now result.0.now result.1.now }
{
    let mut count = 0;
    'octets: while count < text.len() && is_digit(text[count]) {
        count += 1;
    }
    text.split_at(count)
}

/// Whether an octet is a digit.
fn is_digit(octet: u8) -> bool
    ensures { IsTrue result ↔ (¬ IsNoDigit octet) }
{
    b'0' <= octet && octet <= b'9'
}

/// The milliseconds of a unit.
pub(crate) fn unit_of(unit: &[u8]) -> Option<u64>
    ensures { (each : ℕ) → (result ≡ Some each) ↔ IsUnit unit.now each }
{
    match unit {
        [b'm', b's'] => Some(1),
        [b's'] => Some(SECOND),
        [b'm'] => Some(MINUTE),
        [b'h'] => Some(HOUR),
        [b'd'] => Some(DAY),
        _ => None,
    }
}
