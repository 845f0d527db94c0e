//! The line with which a host begins.

ghost use Rattle.std.specs.Prelude.{◌≡◌, ◌++◌, OnOk};
ghost use Rattle.std.specs.String.{string_bytes};
ghost use Rattle.nbt_host.specs.Begin.{begin_text, count_text};

use nbt_name::Addr;
use nbt_text::write_address;
use std::alloc::AllocError;

/// Appends which host asks which server for how many names, as `host 192.0.2.7:137 asks 192.0.2.1:137 for 4 names`, and the end of
/// the line.
pub fn write_begin(at: Addr, server: Addr, count: usize, out: &mut String) -> Result<(), AllocError>
    ensures { OnOk result (string_bytes out.new ≡ string_bytes out.old ++ begin_text at server count) }
{
    out.push_str("host ")?;
    write_address(at, out)?;
    out.push_str(" asks ")?;
    write_address(server, out)?;
    write_count(count, out)
}

/// Appends how many names there are, and the end of the line.
fn write_count(count: usize, out: &mut String) -> Result<(), AllocError>
    ensures { OnOk result (string_bytes out.new ≡ string_bytes out.old ++ count_text count) }
{
    if count == 1 {
        out.push_str(" for 1 name\n")
    } else {
        writeln!(out, " for {count} names")
    }
}
