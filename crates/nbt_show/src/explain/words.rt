//! Numbers, flags and times in words.

use crate::dgram_text::write_octet;
use std::alloc::AllocError;

/// The words for a number, or `unknown` where the table has none.
pub fn words_for(number: u16, table: &[(u16, &'static str)]) -> &'static str {
    for (other, words) in table {
        if *other == number {
            return *words;
        }
    }
    "unknown"
}

/// Appends the line of a flag, which is set where the bits of its mask are.
pub fn write_flag(label: &str, flags: u16, mask: u16, out: &mut String) -> Result<(), AllocError> {
    let state = if flags & mask == mask { "set" } else { "clear" };
    writeln!(out, "{label}: {state}")
}

/// Appends the line of an error's code: what it means, and `0x` and two digits.
pub fn write_code_line(words: &str, code: u8, out: &mut String) -> Result<(), AllocError> {
    write!(out, "Error code: {words} (0x")?;
    write_octet(code, out)?;
    writeln!(out, ")")
}

/// The type of node that two bits say (RFC 1002 section 4.2.1.3; 11 is reserved there, and an H node's since).
pub fn node_word(bits: u8) -> &'static str {
    match bits {
        0 => "B-node",
        1 => "P-node",
        2 => "M-node",
        _ => "H-node",
    }
}

/// The seconds of a minute, an hour and a day.
const MINUTE: u32 = 60;

const HOUR: u32 = 3_600;

const DAY: u32 = 86_400;

/// Appends a time in days, hours, minutes and seconds, a space before each; those that are zero are left out.
pub fn write_duration(seconds: u32, out: &mut String) -> Result<(), AllocError> {
    if seconds == 0 {
        return out.push_str(" 0 s");
    }
    write_part(seconds / DAY, "d", out)?;
    write_part(seconds / HOUR % 24, "h", out)?;
    write_part(seconds / MINUTE % 60, "min", out)?;
    write_part(seconds % MINUTE, "s", out)
}

/// Appends a count and its unit, where it isn't zero.
fn write_part(count: u32, unit: &str, out: &mut String) -> Result<(), AllocError> {
    if count == 0 {
        return Ok(());
    }
    write!(out, " {count} {unit}")
}
