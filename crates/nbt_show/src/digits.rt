//! HEX with marks between its digits.

ghost use Rattle.std.specs.Prelude.{◌≡◌, ◌⊎◌, Ok, Err, IfOk, IfErr};
ghost use Rattle.hex.specs.declared.error.FromHexError.TheVariants.{OutOfMemory};
ghost use Rattle.hex.specs.Hex.{decode_of};
ghost use Rattle.nbt_show.specs.Digits.{is_between, digits_in};

use hex::FromHexError;
use std::alloc::{AllocError, Global};

/// The octets of a text in hexadecimal, two digits of either case each. Spaces, colons, line feeds and carriage returns may
/// stand anywhere, also within an octet, and are passed over; a text of these alone has no octets. Refused are, in this
/// order: `OutOfMemory` at any time; `OddLength` where the number of all other characters is odd; and
/// `InvalidHexCharacter` with the first of these that is no digit, and its place among them, counted from 0 (our profile).
pub fn read_digits(alloc: Global, text: &[u8]) -> Result<Vec<u8>, FromHexError>
    ensures octets { IfOk result (λ octets. decode_of (digits_in text.now) ≡ Ok octets.items) }
    ensures refused { IfErr result (λ e. (e ≡ OutOfMemory) ⊎ (decode_of (digits_in text.now) ≡ Err e)) }
{
    let digits = digits_in(alloc, text)?;
    hex::decode(alloc, digits.as_slice())
}

/// The text without what may stand between digits.
fn digits_in(alloc: Global, text: &[u8]) -> Result<Vec<u8>, AllocError>
    ensures { IfOk result (λ digits. digits.items ≡ digits_in text.now) }
{
    text.iter()
        .copied()
        .filter(|octet| !is_between(*octet))
        .collect(alloc)
}

/// Whether an octet may stand between digits.
fn is_between(octet: u8) -> bool
    ensures { result ≡ is_between octet }
{
    octet == b' ' || octet == b':' || octet == b'\n' || octet == b'\r'
}
