//! The library's version.

ghost use Rattle.std.specs.Prelude.{◌≡◌};
ghost use Rattle.nbt_c.specs.Results.{version};

/// 10,000 for each MAJOR, 100 for each MINOR, and 1 for each PATCH.
const VERSION: u32 = 100;

/// The library's version, in the header's form: 10,000 for each MAJOR, 100 for each MINOR, and 1 for each PATCH.
#[unsafe(no_mangle)]
pub extern "C" fn nbt_version() -> u32
    ensures { result ≡ version }
{
    VERSION
}
