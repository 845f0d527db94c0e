//! Octets printed in hexadecimal.

ghost use Rattle.std.specs.Prelude.{◌≡◌, ◌++◌, OnOk};
ghost use Rattle.std.specs.Int.{to_be_bytes, w16};
ghost use Rattle.std.specs.String.{string_bytes};
ghost use Rattle.hex.specs.Hex.{encode_lower};

use std::alloc::AllocError;

/// Appends the octets in lower-case hexadecimal, two digits each.
pub fn write_hexadecimal(octets: &[u8], out: &mut String) -> Result<(), AllocError>
    ensures { OnOk result (string_bytes out.new ≡ string_bytes out.old ++ encode_lower octets.now) }
{
    let digits = hex::encode(*out.allocator(), octets)?;
    out.push_str(digits.as_str())
}
