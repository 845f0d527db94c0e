//! Verdicts on lines of vectors, as text (our profile).

ghost use Rattle.std.specs.Prelude.{◌≡◌, ◌≤◌, ℕ, ◌++◌, List, IfOk};
ghost use Rattle.std.specs.String.{string_bytes};
ghost use Rattle.nbt_show.specs.Verdicts.{PrintsChecked, PrintsVerdict, failed_in, passed_in};

use crate::vector::{Line, parse_line};
use nbt_text::{NEWLINE, split_at_first};
use std::alloc::AllocError;

/// Appends a verdict on each line of the input that isn't blank, with the line's number, counted from 1 and with the
/// blank ones among them; last how many passed and how many did not. Returns whether no line failed.
pub fn write_verdicts(input: &[u8], out: &mut String) -> Result<bool, AllocError>
    ensures { IfOk result (λ none_failed. (text : List ℕ) × (string_bytes out.new ≡ string_bytes out.old ++ text)
        × PrintsChecked input.now none_failed text) }
{
    let mut number = 0usize;
    let mut passed = 0usize;
    let mut failed = 0usize;
    let mut rest = Some(input);
    'lines: while let Some(lines) = rest {
        let (line, others) = split_at_first(NEWLINE, lines);
        number += 1;
        let verdict = write_verdict(number, line, out)?;
        passed += passed_in(verdict);
        failed += failed_in(verdict);
        rest = others;
    }
    writeln!(out, "{passed} passed, {failed} failed")?;
    Ok(failed == 0)
}

/// How many a verdict counts as passed: 1 or none.
fn passed_in(verdict: Option<bool>) -> usize
    ensures count { result ≡ passed_in verdict }
    ensures most { result ≤ 1 }
{
    match verdict {
        Some(true) => 1,
        _ => 0,
    }
}

/// How many a verdict counts as failed: 1 or none.
fn failed_in(verdict: Option<bool>) -> usize
    ensures count { result ≡ failed_in verdict }
    ensures most { result ≤ 1 }
{
    match verdict {
        Some(false) => 1,
        _ => 0,
    }
}

/// Appends the verdict on the line with this number, and returns whether it passes; nothing where it is blank.
fn write_verdict(number: usize, line: &[u8], out: &mut String) -> Result<Option<bool>, AllocError>
    ensures { IfOk result (λ verdict. (text : List ℕ) × (string_bytes out.new ≡ string_bytes out.old ++ text)
        × PrintsVerdict number line.now verdict text) }
{
    let said = parse_line(*out.allocator(), line)?;
    let (passes, word) = match &said {
        Line::Blank => return Ok(None),
        Line::Vector(vector) if vector.holds() => (true, "pass"),
        Line::Vector(_) => (false, "fail"),
        Line::Unreadable => (false, "unreadable"),
    };
    writeln!(out, "line {number}: {word}")?;
    Ok(Some(passes))
}
