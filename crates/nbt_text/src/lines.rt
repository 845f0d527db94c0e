//! The lines and words of an input, and what ends a line (our profile).

ghost use Rattle.std.specs.Prelude.{◌≡◌, ◌↔◌, ℕ, List, IsTrue, Some, IfOk, OnOk, MatchOption, slice_get, codes};
ghost use Rattle.std.specs.String.{string_bytes};
ghost use Rattle.nbt_text.specs.Lines.{HasNoField, IsPassedOver, SpellsOctets, fields, lines, one_line, words};
ghost use Rattle.nbt_text.specs.Texts.{texts};

use hex::FromHexError;
use std::alloc::{AllocError, Global};

/// What ends a line: a line feed.
pub const NEWLINE: u8 = b'\n';

/// Appends what ends a line.
pub fn end_line(out: &mut String) -> Result<(), AllocError>
    ensures { OnOk result (string_bytes out.new ≡ one_line (string_bytes out.old)) }
{
    out.push(char::from(NEWLINE))
}

/// The lines of an input: what stands between line feeds. So there is one at least, and the last one is empty where the
/// input ends with a line feed.
pub fn lines_of(alloc: Global, input: &[u8]) -> Result<Vec<&[u8]>, AllocError>
    ensures { IfOk result (λ found. texts found.items ≡ lines input.now) }
{
    input.split(|octet| *octet == NEWLINE).collect(alloc)
}

/// The words that a line says; `None` where it is passed over, since it is a remark, whose first octet is `#`, or has spaces
/// alone.
pub fn words_said(alloc: Global, line: &[u8]) -> Result<Option<Vec<&[u8]>>, AllocError>
    ensures { IfOk result (λ found. MatchOption found (IsPassedOver line.now)
        (λ said. (¬ IsPassedOver line.now) × (texts said.items ≡ words line.now))) }
{
    if is_remark(line) {
        return Ok(None);
    }
    let words = words_of(alloc, line)?;
    if words.is_empty() {
        return Ok(None);
    }
    Ok(Some(words))
}

/// Whether a line is a remark: its first octet is `#`.
fn is_remark(line: &[u8]) -> bool
    ensures { IsTrue result ↔ (slice_get line.now 0 ≡ Some 35) }
{
    match line {
        [b'#', ..] => true,
        _ => false,
    }
}

/// The words of a line, between spaces; none is empty.
pub fn words_of(alloc: Global, line: &[u8]) -> Result<Vec<&[u8]>, AllocError>
    ensures { IfOk result (λ found. texts found.items ≡ words line.now) }
{
    line.split(|octet| *octet == b' ')
        .filter(|word| !word.is_empty())
        .collect(alloc)
}

/// The fields of a line that people align, between spaces and tabs; `None` where it is passed over, since it is a remark, whose first octet
/// is `#`, or has spaces and tabs alone.
pub fn fields_said(alloc: Global, line: &[u8]) -> Result<Option<Vec<&[u8]>>, AllocError>
    ensures { IfOk result (λ found. MatchOption found (HasNoField line.now)
        (λ said. (¬ HasNoField line.now) × (texts said.items ≡ fields line.now))) }
{
    if is_remark(line) {
        return Ok(None);
    }
    let fields = fields_of(alloc, line)?;
    if fields.is_empty() {
        return Ok(None);
    }
    Ok(Some(fields))
}

/// The fields of a line; none is empty.
fn fields_of(alloc: Global, line: &[u8]) -> Result<Vec<&[u8]>, AllocError>
    ensures { IfOk result (λ found. texts found.items ≡ fields line.now) }
{
    line.split(|octet| *octet == b' ' || *octet == b'\t')
        .filter(|field| !field.is_empty())
        .collect(alloc)
}

/// The octets of a word: an even number of hexadecimal digits of either case, or `-`, which has none. `None` where it is
/// neither.
pub fn octets_of(alloc: Global, word: &[u8]) -> Result<Option<Vec<u8>>, AllocError>
    ensures { IfOk result (λ found. MatchOption found ((octets : List ℕ) → ¬ SpellsOctets word.now octets)
        (λ octets. SpellsOctets word.now octets.items)) }
{
    if is_dash(word) {
        return Ok(Some(Vec::new(alloc)));
    }
    match hex::decode(alloc, word) {
        Ok(octets) => Ok(Some(octets)),
        Err(FromHexError::OutOfMemory) => Err(AllocError),
        Err(_) => Ok(None),
    }
}

/// Whether the word is `-`, which stands for no octets.
fn is_dash(word: &[u8]) -> bool
    ensures { IsTrue result ↔ (word.now ≡ codes "-") }
{
    word == b"-".as_slice()
}
