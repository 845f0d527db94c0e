//! The names of a host, below its line.

ghost use Rattle.std.specs.Prelude.{◌≡◌, ◌++◌, ℕ, List, OnOk};
ghost use Rattle.std.specs.String.{string_bytes};
ghost use Rattle.nbt_show.specs.Rows.{PrintsRows};
ghost use Rattle.nbt_scan.specs.Lines.{IsNameBelow};

use nbt_show::write_name_line;
use std::alloc::AllocError;

/// Appends a line for each name, as a node status has it, behind two spaces.
pub fn write_names_below(names: &[u8], out: &mut String) -> Result<(), AllocError>
    ensures { OnOk result ((lines : List ℕ) × PrintsRows 18 IsNameBelow names.now lines × (string_bytes out.new ≡ string_bytes out.old ++ lines)) }
{
    let mut rest = names;
    'names: while let Some((name, others)) = rest.split_first_chunk::<18>() {
        write_name_below(name, out)?;
        rest = others;
    }
    Ok(())
}

/// Appends the line of a name, behind two spaces.
fn write_name_below(name: &[u8; 18], out: &mut String) -> Result<(), AllocError>
    ensures { OnOk result ((line : List ℕ) × IsNameBelow name.now line × (string_bytes out.new ≡ string_bytes out.old ++ line)) }
{
    out.push_str("  ")?;
    write_name_line(name, out)
}
