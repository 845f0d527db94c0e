//! Names, types and classes in words.

use crate::explain::words::words_for;
use nbt_name::{Kind, Name};
use nbt_text::{suffix_words, write_name, write_octets};
use std::alloc::AllocError;

/// Where the suffix of a name stands (RFC 1001 section 14).
const SUFFIX: usize = 15;

/// Appends a name as `FILER#20 (file server)`, and in full where it has a scope.
pub fn write_named(name: &Name, out: &mut String) -> Result<(), AllocError> {
    let octets = name.octets();
    write_octets(octets, out)?;
    write_in_brackets(meaning(octets[SUFFIX]), out)?;
    if name.scope().is_empty() {
        return Ok(());
    }
    out.push_str(", in full ")?;
    write_name(name, out)
}

/// What a suffix means where it isn't known whose the name is.
fn meaning(suffix: u8) -> &'static str {
    let words = suffix_words(suffix, Kind::Unique);
    if words.is_empty() {
        return suffix_words(suffix, Kind::Group);
    }
    words
}

/// Appends words in brackets, where there are some.
pub fn write_in_brackets(words: &str, out: &mut String) -> Result<(), AllocError> {
    if words.is_empty() {
        return Ok(());
    }
    write!(out, " ({words})")
}

/// Types (RFC 1002 section 4.2.1.3).
const TYPES: [(u16, &str); 5] = [
    (0x0020, "NB"),
    (0x0021, "NBSTAT"),
    (0x000A, "NULL"),
    (0x0001, "A"),
    (0x0002, "NS"),
];

/// Classes (RFC 1002 section 4.2.1.3).
const CLASSES: [(u16, &str); 1] = [(0x0001, "IN")];

/// Appends a type and a class, after a comma.
pub fn write_type_and_class(rtype: u16, class: u16, out: &mut String) -> Result<(), AllocError> {
    let kind = words_for(rtype, &TYPES);
    let family = words_for(class, &CLASSES);
    write!(out, ", type {kind} ({rtype}), class {family} ({class})")
}
