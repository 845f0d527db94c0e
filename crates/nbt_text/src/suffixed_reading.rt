//! The sixteen octets that a word spells.

ghost use Rattle.std.specs.Prelude.{◌≡◌, ◌≢◌, ℕ, List, [], ◌∷◌, ◌++◌, ◌≤◌, ◌↔◌, Ok, Err, Some, length, IsTrue, IfOk, IfErr, IfSome, IfNone, OnOk};
ghost use Rattle.hex.specs.Hex.{decode_of};
ghost use Rattle.nbt_text.specs.NameText.{prefix, IsPrefixed};
ghost use Rattle.nbt_text.specs.declared.fault.Fault.{Fault as Wrong};
ghost use Rattle.nbt_text.specs.SuffixedNames.{IsMark, IsCutAt, IsPlain, IsFront, IsBadFront, IsSuffix, blank, cased, fifteen, SpellsOctets, Misspells};

use crate::casing::Case;
use crate::fault::Fault;
use crate::laws;
use crate::name_text::digits_of;
use hex::FromHex;

/// The most characters before the suffix (RFC 1001 section 14, our profile).
const FRONT_MOST: usize = 15;

/// What fills up a name, and is its suffix where none is written.
const SPACE: u8 = b' ';

/// The octets that the word spells: `FILER`, `FILER#20`, `FILER<20>` with 1 to 15 characters before the suffix, or `hex:`
/// and 32 digits. Characters are 0x21 to 0x7E without `#` and `<`, and `a` to `z` are folded unless the case is exact;
/// spaces fill them up to fifteen. `*` alone is filled up with 0x00, and its suffix is 00 where none is written; any other
/// name's is 20 (RFC 1002 section 4.2.17, our profile). Refused with the first fault.
pub fn read_octets(case: Case, word: &[u8]) -> Result<[u8; 16], Fault>
    ensures octets { (octets : List ℕ) → (result ≡ Ok octets) ↔ SpellsOctets case word.now octets }
    ensures fault { (fault : Wrong) → (result ≡ Err fault) ↔ Misspells word.now fault }
{
    laws::one_reading();
    octets_of(case, word)
}

/// What is found is spelled.
fn octets_of(case: Case, word: &[u8]) -> Result<[u8; 16], Fault>
    ensures octets { IfOk result (SpellsOctets case word.now) }
    ensures fault { IfErr result (Misspells word.now) }
{
    if let Some(digits) = digits_of(word) {
        return match sixteen_of(digits) {
            Some(octets) => Ok(octets),
            None => Err(Fault::Digits),
        };
    }
    let (front, tail) = cut(word);
    if let Err(fault) = check_front(front) {
        return Err(fault);
    }
    match suffix_of(blank(front), tail) {
        Some(suffix) => Ok(filled(case, front, suffix)),
        None => Err(Fault::Suffix),
    }
}

/// The sixteen octets of 32 digits.
fn sixteen_of(digits: &[u8]) -> Option<[u8; 16]>
    ensures read { IfSome result (λ octets. (decode_of digits.now ≡ Ok octets) × (length octets ≡ 16)) }
    ensures none { IfNone result ((octets : List ℕ) → decode_of digits.now ≡ Ok octets → length octets ≢ 16) }
{
    <[u8; 16] as FromHex>::from_hex(digits).ok()
}

/// The octet of two digits.
fn octet_of(digits: &[u8]) -> Option<u8>
    ensures read { IfSome result (λ octet. decode_of digits.now ≡ Ok (octet ∷ [])) }
    ensures none { IfNone result ((octet : ℕ) → decode_of digits.now ≢ Ok (octet ∷ [])) }
{
    let octets = <[u8; 1] as FromHex>::from_hex(digits).ok()?;
    Some(octets[0])
}

/// Whether an octet begins a suffix.
pub(crate) fn is_mark(octet: u8) -> bool
    ensures { IsTrue result ↔ IsMark octet }
{
    octet == b'#' || octet == b'<'
}

/// Whether an octet is a character that can be seen.
fn is_plain(octet: u8) -> bool
    ensures { IsTrue result ↔ IsPlain octet }
{
    0x21 <= octet && octet <= 0x7E
}

/// The characters before the first mark, and the rest.
pub(crate) fn cut(word: &[u8]) -> (&[u8], &[u8])
    ensures { IsCutAt IsMark word.now result.0.now result.1.now }
{
    let mut count = 0;
    'octets: while count < word.len() && !is_mark(word[count]) {
        count += 1;
    }
    word.split_at(count)
}

/// Finds what is wrong with the characters, if anything.
pub(crate) fn check_front(front: &[u8]) -> Result<(), Fault>
    ensures ok { OnOk result (IsFront front.now) }
    ensures err { IfErr result (IsBadFront front.now) }
{
    if front.is_empty() {
        return Err(Fault::Empty);
    }
    if front.len() > FRONT_MOST {
        return Err(Fault::Long(front.len()));
    }
    'places: for place in 0..front.len() {
        if !is_plain(front[place]) {
            return Err(Fault::Character(place));
        }
    }
    Ok(())
}

/// The suffix that stands after the characters, or the usual one where none does.
fn suffix_of(usual: u8, tail: &[u8]) -> Option<u8>
    ensures read { IfSome result (IsSuffix usual tail.now) }
    ensures none { IfNone result ((suffix : ℕ) → ¬ IsSuffix usual tail.now suffix) }
{
    let Some((&mark, rest)) = tail.split_first() else {
        return Some(usual);
    };
    if mark == b'#' {
        return octet_of(rest);
    }
    match rest.split_last() {
        Some((&end, digits)) if mark == b'<' && end == b'>' => octet_of(digits),
        _ => None,
    }
}

/// What fills up these characters.
pub(crate) fn blank(front: &[u8]) -> u8
    ensures { result ≡ blank front.now }
{
    if front == b"*".as_slice() { 0 } else { SPACE }
}

/// The characters filled up to fifteen, and the suffix.
pub(crate) fn filled(case: Case, front: &[u8], suffix: u8) -> [u8; 16]
    requires { length front.now ≤ 15 }
    ensures { result ≡ cased case (fifteen front.now) ++ suffix ∷ [] }
{
    let mut octets = [blank(front); 16];
    octets[..front.len()].copy_from_slice(front);
    case.apply(octets.as_mut_slice());
    octets[FRONT_MOST] = suffix;
    octets
}
