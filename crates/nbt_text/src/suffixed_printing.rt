//! Sixteen octets as a word.

ghost use Rattle.std.specs.Prelude.{◌≡◌, ◌≢◌, ℕ, List, [], ◌∷◌, ◌++◌, ◌↔◌, slice_index, IsTrue, IfSome, IfNone, OnOk};
ghost use Rattle.std.specs.String.{string_bytes};
ghost use Rattle.hex.specs.Hex.{encode_upper};
ghost use Rattle.nbt_text.specs.Inner.Blanks.{IsBlank};
ghost use Rattle.nbt_text.specs.SuffixedNames.{HasNone, IsCutAt, IsMark, AreCapital, fifteen, IsSeen, PrintsOctets};

use crate::casing::Case;
use crate::hexadecimal::write_hexadecimal;
use crate::suffixed_reading::{check_front, filled, is_mark};
use std::alloc::AllocError;

/// How many of the octets stand before the suffix (RFC 1001 section 14, our profile).
const FRONT_MOST: usize = 15;

/// Appends the octets as `FILER#20`, the suffix in capitals, where they are 1 to 15 characters from 0x21 to 0x7E, no small
/// letter, `#` or `<` among them, filled up with spaces (`*` alone with zeros), and a suffix; else `hex:` and 32 lower-case
/// digits (our profile).
pub fn write_octets(octets: &[u8; 16], out: &mut String) -> Result<(), AllocError>
    ensures { OnOk result ((word : List ℕ) × (string_bytes out.new ≡ string_bytes out.old ++ word) × PrintsOctets octets.now word) }
{
    match front_of(octets) {
        Some(front) => write_front(front, octets[FRONT_MOST], out),
        None => {
            out.push_str("hex:")?;
            write_hexadecimal(octets.as_slice(), out)
        }
    }
}

/// Appends the characters, `#` and the suffix.
fn write_front(front: &[u8], suffix: u8, out: &mut String) -> Result<(), AllocError>
    requires { IsSeen front.now }
    ensures { OnOk result (string_bytes out.new ≡ string_bytes out.old ++ (front.now ++ 0x23 ∷ encode_upper (suffix ∷ []))) }
{
    write_characters(front, out)?;
    out.push('#')?;
    let digits = hex::encode_upper(*out.allocator(), [suffix].as_slice())?;
    out.push_str(digits.as_str())
}

/// Appends characters that [`front_of`] found as they stand.
pub fn write_characters(front: &[u8], out: &mut String) -> Result<(), AllocError>
    requires { IsSeen front.now }
    ensures { OnOk result (string_bytes out.new ≡ string_bytes out.old ++ front.now) }
{
    for octet in front {
        out.push(char::from(*octet))?;
    }
    Ok(())
}

/// The characters before the suffix, where `write_octets` prints the octets as characters; `None` where it prints digits.
pub fn front_of(octets: &[u8; 16]) -> Option<&[u8]>
    ensures front { IfSome result (λ front. IsSeen front.now × (octets.now ≡ fifteen front.now ++ slice_index octets.now 15 ∷ [])) }
    ensures none { IfNone result ((front : List ℕ) (suffix : ℕ) → IsSeen front → octets.now ≢ fifteen front ++ suffix ∷ []) }
{
    let front = before_blank(&octets[..FRONT_MOST]);
    if is_seen(front) && filled(Case::Exact, front, octets[FRONT_MOST]) == *octets {
        Some(front)
    } else {
        None
    }
}

/// The octets before the first that can fill up a name.
fn before_blank(octets: &[u8]) -> &[u8]
    ensures { (rest : List ℕ) × IsCutAt IsBlank octets.now result.now rest }
{
    let mut count = 0;
    'octets: while count < octets.len() && !is_blank(octets[count]) {
        count += 1;
    }
    &octets[..count]
}

/// Whether an octet can fill up a name.
fn is_blank(octet: u8) -> bool
    ensures { IsTrue result ↔ IsBlank octet }
{
    octet == b' ' || octet == 0
}

/// Whether these characters are read as they stand.
fn is_seen(front: &[u8]) -> bool
    ensures { IsTrue result ↔ IsSeen front.now }
{
    check_front(front).is_ok() && are_capital(front)
}

/// Whether none of these octets is a mark or a small letter.
fn are_capital(octets: &[u8]) -> bool
    ensures { IsTrue result ↔ (HasNone IsMark octets.now × AreCapital octets.now) }
{
    'octets: for place in 0..octets.len() {
        let octet = octets[place];
        if is_mark(octet) || octet.to_ascii_uppercase() != octet {
            return false;
        }
    }
    true
}
