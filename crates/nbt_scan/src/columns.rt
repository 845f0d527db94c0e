//! The line of a host, in columns.

ghost use Rattle.std.specs.Prelude.{◌≡◌, ◌++◌, ℕ, List, OnOk, replicate};
ghost use Rattle.std.specs.String.{string_bytes};
ghost use Rattle.nbt_text.specs.Address.{dotted};
ghost use Rattle.nbt_scan.specs.Cells.{PrintsName, column};
ghost use Rattle.nbt_scan.specs.Lines.{IsColumns};

use crate::cells::{server_word, write_name, write_unit};
use crate::host::Host;
use nbt_text::{end_line, write_dotted};
use std::alloc::AllocError;

/// The width of an address, 255.255.255.255, and of a name without its suffix.
const WIDE: usize = 15;

/// The width of `server`.
const NARROW: usize = 6;

/// Appends the line of a host: its address, its name, its workgroup, who is logged in, `server`, and its unit id; `-` for what it
/// doesn't tell.
pub fn write_columns(ip: u32, host: &Host, out: &mut String) -> Result<(), AllocError>
    ensures { OnOk result ((line : List ℕ) × IsColumns ip host.now line × (string_bytes out.new ≡ string_bytes out.old ++ line)) }
{
    write_address(ip, out)?;
    write_name_column(host.computer, out)?;
    write_name_column(host.group, out)?;
    write_name_column(host.user, out)?;
    write_column(server_word(host.server), NARROW, out)?;
    write_unit(host.unit, out)?;
    end_line(out)
}

/// Appends the column of an address.
fn write_address(ip: u32, out: &mut String) -> Result<(), AllocError>
    ensures { OnOk result (string_bytes out.new ≡ string_bytes out.old ++ column 15 (dotted ip)) }
{
    let mut word = String::new(*out.allocator());
    write_dotted(ip, &mut word)?;
    write_column(word.as_str(), WIDE, out)
}

/// Appends the column of a name.
fn write_name_column(name: Option<[u8; 18]>, out: &mut String) -> Result<(), AllocError>
    ensures { OnOk result ((word : List ℕ) × PrintsName name word × (string_bytes out.new ≡ string_bytes out.old ++ column 15 word)) }
{
    let mut word = String::new(*out.allocator());
    write_name(name, &mut word)?;
    write_column(word.as_str(), WIDE, out)
}

/// Appends a word, filled up with spaces, and two spaces.
fn write_column(word: &str, width: usize, out: &mut String) -> Result<(), AllocError>
    ensures { OnOk result (string_bytes out.new ≡ string_bytes out.old ++ column width word.now) }
{
    out.push_str(word)?;
    write_spaces(width.saturating_sub(word.len()), out)?;
    out.push_str("  ")
}

/// Appends spaces.
fn write_spaces(count: usize, out: &mut String) -> Result<(), AllocError>
    ensures { OnOk result (string_bytes out.new ≡ string_bytes out.old ++ replicate count 32) }
{
    for _ in 0..count {
        out.push(' ')?;
    }
    Ok(())
}
