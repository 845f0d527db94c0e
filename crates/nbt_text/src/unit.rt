//! Why a text is no time for its unit.

ghost use Rattle.std.specs.Prelude.{◌↔◌, ◌<◌, ℕ, IsTrue, length, slice_index};
ghost use Rattle.std.specs.Option.{option_map};
ghost use Rattle.nbt_text.specs.HostNames.{IsLetter};
ghost use Rattle.nbt_text.specs.Times.{IsOtherUnit, IsUnitFault};

use crate::duration::{digits_before, unit_of};
use crate::number::parse_number;
use std::fmt;

/// What is wrong with the unit of a text that is else a time (our profile).
#[derive(Clone, Copy, Debug, PartialEq, Eq)]
pub enum UnitFault {
    /// It has none.
    Missing,
    /// It is none.
    Unknown,
}

/// What is wrong with the unit of a text: `Missing` of a number in decimal digits alone, `Unknown` where letters follow them that are
/// no unit. `None` of any other text.
pub fn unit_fault(text: &[u8]) -> Option<UnitFault>
    ensures { IsUnitFault text.now result }
{
    let (digits, unit) = digits_before(text);
    parse_number(digits)?;
    if unit.is_empty() {
        return Some(UnitFault::Missing);
    }
    if !is_other_unit(unit) {
        return None;
    }
    Some(UnitFault::Unknown)
}

/// Whether there are letters, and they are no unit.
fn is_other_unit(unit: &[u8]) -> bool
    ensures { IsTrue result ↔ IsOtherUnit unit.now }
{
    if unit.is_empty() || !are_letters(unit) {
        return false;
    }
    match unit_of(unit) {
        Some(_) => false,
        None => true,
    }
}

/// Whether there are letters alone.
fn are_letters(octets: &[u8]) -> bool
    ensures { IsTrue result ↔ ((k : ℕ) → k < length octets.now → IsLetter (slice_index octets.now k)) }
{
    'octets: for place in 0..octets.len() {
        if !is_letter(octets[place]) {
            return false;
        }
    }
    true
}

/// Whether this is a letter.
fn is_letter(octet: u8) -> bool
    ensures { IsTrue result ↔ IsLetter octet }
{
    (b'A' <= octet && octet <= b'Z') || (b'a' <= octet && octet <= b'z')
}

/// The text of a time whose unit is missing or unknown. It prints what is wrong, with the units: as
/// `has no unit: 5ms, 5s, 5m, 5h or 5d`, or `its unit is none of ms, s, m, h and d`.
#[derive(Clone, Copy)]
pub struct BadUnit<'a> {
    text: &'a str,
    fault: UnitFault,
}

impl<'a> BadUnit<'a> {
    /// Such a text; `None` of any other.
    pub fn of(text: &'a str) -> Option<BadUnit<'a>>
        ensures { IsUnitFault text.now (option_map (λ bad. bad.fault) result) }
    {
        match unit_fault(text.as_bytes()) {
            Some(fault) => Some(BadUnit { text, fault }),
            None => None,
        }
    }
}

impl fmt::Display for BadUnit<'_> {
    fn fmt<W: fmt::Write>(&self, f: &mut fmt::Formatter<W>) -> fmt::Result {
        let text = self.text;
        match self.fault {
            UnitFault::Missing => {
                write!(
                    f,
                    "has no unit: {text}ms, {text}s, {text}m, {text}h or {text}d"
                )
            }
            UnitFault::Unknown => f.write_str("its unit is none of ms, s, m, h and d"),
        }
    }
}
