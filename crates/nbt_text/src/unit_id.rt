//! The unit id of a node, as text.

ghost use Rattle.std.specs.Prelude.{◌≡◌, ◌++◌, OnOk};
ghost use Rattle.std.specs.String.{string_bytes};
ghost use Rattle.nbt_text.specs.UnitIds.{pair, unit_digits};

use crate::hexadecimal::write_hexadecimal;
use std::alloc::AllocError;

/// Appends a unit id (RFC 1002 section 4.2.18) as `00:50:56:c0:00:08`.
pub fn write_unit_id(unit: &[u8; 6], out: &mut String) -> Result<(), AllocError>
    ensures { OnOk result (string_bytes out.new ≡ string_bytes out.old ++ unit_digits unit.now) }
{
    write_hexadecimal(&[unit[0]], out)?;
    write_pair(unit[1], out)?;
    write_pair(unit[2], out)?;
    write_pair(unit[3], out)?;
    write_pair(unit[4], out)?;
    write_pair(unit[5], out)
}

/// Appends an octet after a colon, in two digits.
fn write_pair(octet: u8, out: &mut String) -> Result<(), AllocError>
    ensures { OnOk result (string_bytes out.new ≡ string_bytes out.old ++ pair octet) }
{
    out.push_str(":")?;
    write_hexadecimal(&[octet], out)
}
