//! The addresses and octets that the texts of arguments spell.

ghost use Rattle.std.specs.Prelude.{◌≡◌, IfOk, IfErr, Ok};
ghost use Rattle.hex.specs.Hex.{decode_of};
ghost use Rattle.nbt_text.specs.Address.{SpellsAddress};
ghost use Rattle.nbt_prog.specs.Failures.{IsUnreadable};
ghost use Rattle.nbt_prog.specs.Texts.{IsAddress, IsHexadecimal, SpellsDigits, AreDigits};

use crate::offline::failure::Failure;
use crate::offline::reason;
use crate::offline::reason::reporting;
use nbt_name::Addr;
use nbt_show::read_digits;
use nbt_text::parse_address;
use std::alloc::Global;
use std::io::Write;

/// The address that a text spells. Refused: `Unreadable`, and a line in `errors` says why.
pub fn address_of<E: Write>(text: &str, errors: &mut E) -> Result<Addr, Failure>
    ensures read { IfOk result (SpellsAddress text.now) }
    ensures failure { IfErr result (λ failure. ¬ IsAddress text.now × (failure ≡ Failure.Unreadable)) }
{
    match parse_address(text) {
        Some(address) => Ok(address),
        None => {
            reason::report_address(text, errors);
            Err(Failure::Unreadable)
        }
    }
}

/// The octets that a text spells in hexadecimal.
pub fn octets_of<E: Write>(alloc: Global, hex: &str, errors: &mut E) -> Result<Vec<u8>, Failure>
    ensures read { IfOk result (λ octets. decode_of hex.now ≡ Ok octets.items) }
    ensures failure { IfErr result (IsUnreadable (IsHexadecimal hex.now)) }
{
    reporting(decode(alloc, hex), reason::HEX, errors)
}

fn decode(alloc: Global, hex: &str) -> Result<Vec<u8>, Failure>
    ensures read { IfOk result (λ octets. decode_of hex.now ≡ Ok octets.items) }
    ensures failure { IfErr result (IsUnreadable (IsHexadecimal hex.now)) }
{
    Ok(hex::decode(alloc, hex)?)
}

/// The octets that a text spells in hexadecimal, with what may stand between its digits. `line` says in `errors` that it doesn't.
pub fn digits_of<E: Write>(
    alloc: Global,
    text: &[u8],
    line: &str,
    errors: &mut E,
) -> Result<Vec<u8>, Failure>
    ensures read { IfOk result (λ octets. SpellsDigits text.now octets.items) }
    ensures failure { IfErr result (IsUnreadable (AreDigits text.now)) }
{
    reporting(decode_digits(alloc, text), line, errors)
}

fn decode_digits(alloc: Global, text: &[u8]) -> Result<Vec<u8>, Failure>
    ensures read { IfOk result (λ octets. SpellsDigits text.now octets.items) }
    ensures failure { IfErr result (IsUnreadable (AreDigits text.now)) }
{
    Ok(read_digits(alloc, text)?)
}
