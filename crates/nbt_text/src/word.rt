//! A name with its suffix and its scope, as one word.

ghost use Rattle.std.specs.Prelude.{◌≡◌, ◌++◌, ℕ, List, OnOk};
ghost use Rattle.std.specs.String.{string_bytes};
ghost use Rattle.nbt_text.specs.ScopedNames.{PrintsWord};

use crate::name_text::write_labels;
use crate::suffixed_printing::write_octets;
use nbt_name::Name;
use std::alloc::AllocError;

/// Appends a name as `FILER#20`, and behind it the labels of its scope, as `FILER#20.NETBIOS.COM`. A label that can't be read back as it
/// stands is `hex:` and lower-case digits.
pub fn write_word(name: &Name, out: &mut String) -> Result<(), AllocError>
    ensures { OnOk result ((word : List ℕ) × PrintsWord name.now word × (string_bytes out.new ≡ string_bytes out.old ++ word)) }
{
    write_octets(name.octets(), out)?;
    write_labels(name.scope(), out)
}
