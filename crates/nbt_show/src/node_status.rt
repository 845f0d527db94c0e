//! The names of a node, and its unit id.

ghost use Rattle.std.specs.Prelude.{◌≡◌, ℕ, List, [], ◌∷◌, ◌++◌, OnOk, if◌then◌else◌};
ghost use Rattle.std.specs.String.{string_bytes};
ghost use Rattle.nbt_show.specs.NodeStatus.{flag_words, meaning, after_word, IsNameLine, unit_line, unit_text};
ghost use Rattle.nbt_show.specs.Rows.{PrintsRows};

use crate::holders::{kind_of, kind_word};
use nbt_text::{suffix_words, write_octets, write_unit_id};
use std::alloc::AllocError;

/// Appends a line for each name, and one for the unit id, where it is there and isn't zero.
pub fn write_names(names: &[u8], statistics: &[u8], out: &mut String) -> Result<(), AllocError>
    ensures { OnOk result ((lines : List ℕ) × PrintsRows 18 IsNameLine names.now lines
        × (string_bytes out.new ≡ string_bytes out.old ++ (lines ++ unit_text statistics.now))) }
{
    write_lines(names, out)?;
    write_unit_line(statistics, out)
}

/// Appends a line for each name.
fn write_lines(names: &[u8], out: &mut String) -> Result<(), AllocError>
    ensures { OnOk result ((lines : List ℕ) × PrintsRows 18 IsNameLine names.now lines × (string_bytes out.new ≡ string_bytes out.old ++ lines)) }
{
    let mut rest = names;
    'names: while let Some((name, others)) = rest.split_first_chunk::<18>() {
        write_name_line(name, out)?;
        rest = others;
    }
    Ok(())
}

/// Appends the line of a name, as `FILER#20 unique active  file server`: of its sixteen octets, and of NAME_FLAGS.
pub fn write_name_line(name: &[u8; 18], out: &mut String) -> Result<(), AllocError>
    ensures { OnOk result ((line : List ℕ) × IsNameLine name.now line × (string_bytes out.new ≡ string_bytes out.old ++ line)) }
{
    let octets = name.first_chunk::<16>().unwrap();
    write_octets(octets, out)?;
    write_after(name, out)
}

/// Appends what stands after the name in its line.
fn write_after(name: &[u8; 18], out: &mut String) -> Result<(), AllocError>
    ensures { OnOk result (string_bytes out.new ≡ string_bytes out.old ++ after_word name.now) }
{
    let flags = name[16];
    let kind = kind_of(flags);
    let word = kind_word(kind);
    write!(out, " {word}")?;
    write_name_flags(flags, out)?;
    write_meaning(suffix_words(name[15], kind), out)?;
    out.push_str("\n")
}

/// Appends the words of the flags that are set in the first octet of NAME_FLAGS, a space before each: `deregistering` (DRG),
/// `conflict` (CNF), `active` (ACT) and `permanent` (PRM), in this order (RFC 1002 section 4.2.18).
pub fn write_name_flags(flags: u8, out: &mut String) -> Result<(), AllocError>
    ensures { OnOk result (string_bytes out.new ≡ string_bytes out.old ++ flag_words flags) }
{
    let deregistering = word_if(flags / 0x10 % 2 == 1, " deregistering");
    let conflict = word_if(flags / 0x08 % 2 == 1, " conflict");
    let active = word_if(flags / 0x04 % 2 == 1, " active");
    let permanent = word_if(flags / 0x02 % 2 == 1, " permanent");
    write!(out, "{deregistering}{conflict}{active}{permanent}")
}

/// A word, where it is wanted.
fn word_if(is: bool, word: &str) -> &str
    ensures { result.now ≡ (if is then word.now else []) }
{
    if is { word } else { "" }
}

/// Appends what a suffix means, where it means something.
fn write_meaning(words: &str, out: &mut String) -> Result<(), AllocError>
    ensures { OnOk result (string_bytes out.new ≡ string_bytes out.old ++ meaning words.now) }
{
    if words.is_empty() {
        return Ok(());
    }
    write!(out, "  {words}")
}

/// Appends the line of the unit id, the first six octets of the statistics, where it is there and isn't zero: `unit id` and
/// pairs of digits with colons between (RFC 1002 section 4.2.18; the words are our profile's).
pub fn write_unit_line(statistics: &[u8], out: &mut String) -> Result<(), AllocError>
    ensures { OnOk result (string_bytes out.new ≡ string_bytes out.old ++ unit_text statistics.now) }
{
    match statistics.first_chunk::<6>() {
        Some(unit) if *unit != [0; 6] => write_unit(unit, out),
        _ => Ok(()),
    }
}

/// Appends the line of a unit id.
fn write_unit(unit: &[u8; 6], out: &mut String) -> Result<(), AllocError>
    ensures { OnOk result (string_bytes out.new ≡ string_bytes out.old ++ unit_line unit.now) }
{
    out.push_str("unit id ")?;
    write_unit_id(unit, out)?;
    out.push_str("\n")
}
