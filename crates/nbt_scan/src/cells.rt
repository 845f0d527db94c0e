//! What stands in the columns of a host's line.

ghost use Rattle.std.specs.Prelude.{◌≡◌, ◌++◌, ℕ, List, OnOk};
ghost use Rattle.std.specs.String.{string_bytes};
ghost use Rattle.nbt_scan.specs.Cells.{PrintsStem, PrintsName, server_word, unit_word};

use nbt_text::{front_of, write_characters, write_hexadecimal, write_unit_id};
use std::alloc::AllocError;

/// Appends a name without its suffix, as `FILER`; as `hex:` and 32 digits with its suffix where it can't be written so; `-` for none.
pub fn write_name(name: Option<[u8; 18]>, out: &mut String) -> Result<(), AllocError>
    ensures { OnOk result ((word : List ℕ) × PrintsName name word × (string_bytes out.new ≡ string_bytes out.old ++ word)) }
{
    match name {
        Some(name) => {
            let octets = name.first_chunk::<16>().unwrap();
            write_stem(octets, out)
        }
        None => out.push_str("-"),
    }
}

/// Appends sixteen octets without their suffix.
pub fn write_stem(octets: &[u8; 16], out: &mut String) -> Result<(), AllocError>
    ensures { OnOk result ((word : List ℕ) × PrintsStem octets.now word × (string_bytes out.new ≡ string_bytes out.old ++ word)) }
{
    match front_of(octets) {
        Some(front) => write_characters(front, out),
        None => {
            out.push_str("hex:")?;
            write_hexadecimal(octets.as_slice(), out)
        }
    }
}

/// `server` for a file server, else `-`.
pub fn server_word(server: Option<[u8; 18]>) -> &'static str
    ensures { result.now ≡ server_word server }
{
    match server {
        Some(_) => "server",
        None => "-",
    }
}

/// Appends a unit id as `00:50:56:c0:00:08`, or `-`.
pub fn write_unit(unit: Option<[u8; 6]>, out: &mut String) -> Result<(), AllocError>
    ensures { OnOk result (string_bytes out.new ≡ string_bytes out.old ++ unit_word unit) }
{
    match unit {
        Some(unit) => write_unit_id(&unit, out),
        None => out.push_str("-"),
    }
}
