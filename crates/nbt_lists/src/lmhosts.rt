//! `lmhosts`, as Windows and Samba read it:
//!
//! ```text
//! 192.0.2.7  FILER          #PRE #DOM:OFFICE
//! 192.0.2.8  PRINTER#20
//! 192.0.2.9  "BACKUP         \0x14"
//! ```
//!
//! A name without a suffix is three names, of the suffixes 00, 03 and 20, as Windows has it. `#DOM:` says that its machine is one of a
//! domain's controllers. A line that begins with `#` is a remark, or says to read another file.

use crate::naming::{name_of, octet_of};
use crate::reason::{Reason, Unread};
use nbt_front::{FixedLine, ip_in};
use nbt_name::Kind;
use nbt_text::{Case, split_at_first};
use std::alloc::Global;

/// The suffixes of a name that is written without one.
const SUFFIXES: [u8; 3] = [0x00, 0x03, 0x20];

/// The suffix of the group of a domain's controllers.
const CONTROLLERS: u8 = 0x1C;

/// The entries that a line says.
pub(crate) fn read_lmhosts(
    alloc: Global,
    line: &[u8],
    entries: &mut Vec<FixedLine>,
) -> Result<(), Unread> {
    let line = line.trim_ascii();
    if line.starts_with(b"#INCLUDE") {
        return Err(Unread::Left(Reason::Include));
    }
    if line.is_empty() || line.starts_with(b"#") {
        return Ok(());
    }
    let (word, rest) = first_word(line);
    let addr = ip_in(word).ok_or(Reason::NoLine)?;
    let (front, suffix, tags) = named_in(rest).ok_or(Reason::NoLine)?;
    if !tags.is_empty() && !tags.starts_with(b"#") {
        return Err(Unread::Left(Reason::NoLine));
    }
    add_names(addr, front, suffix, entries)?;
    add_domains(alloc, addr, tags, entries)
}

/// The octets before the first blank, and what stands behind the blanks.
fn first_word(text: &[u8]) -> (&[u8], &[u8]) {
    match text.iter().position(|octet| is_blank(*octet)) {
        Some(place) => (&text[..place], text[place..].trim_ascii_start()),
        None => (text, b""),
    }
}

/// Whether an octet stands between words.
fn is_blank(octet: u8) -> bool {
    octet == b' ' || octet == b'\t'
}

/// The characters of the name, its suffix, if it has one, and what stands behind it.
fn named_in(text: &[u8]) -> Option<(&[u8], Option<u8>, &[u8])> {
    match text.strip_prefix(b"\"") {
        Some(quoted) => quoted_in(quoted),
        None => bare_in(text),
    }
}

/// The same behind a quotation mark: a suffix is `\0x` and two digits, before which spaces fill the name up.
fn quoted_in(quoted: &[u8]) -> Option<(&[u8], Option<u8>, &[u8])> {
    let (word, tags) = split_at_first(b'"', quoted);
    let tags = tags?.trim_ascii_start();
    let (front, code) = split_at_first(b'\\', word);
    let front = front.trim_ascii_end();
    match code {
        Some(code) => Some((front, Some(octet_of(code.strip_prefix(b"0x")?)?), tags)),
        None => Some((front, None, tags)),
    }
}

/// The same without quotation marks: a suffix is `#` and two digits.
fn bare_in(text: &[u8]) -> Option<(&[u8], Option<u8>, &[u8])> {
    let (word, tags) = first_word(text);
    let (front, digits) = split_at_first(b'#', word);
    match digits {
        Some(digits) => Some((front, Some(octet_of(digits)?), tags)),
        None => Some((front, None, tags)),
    }
}

/// Adds the name with its suffix, or with each of those that it stands for.
fn add_names(
    addr: u32,
    front: &[u8],
    suffix: Option<u8>,
    entries: &mut Vec<FixedLine>,
) -> Result<(), Unread> {
    if let Some(suffix) = suffix {
        return add_name(addr, front, suffix, Kind::Unique, entries);
    }
    for suffix in SUFFIXES.iter() {
        add_name(addr, front, *suffix, Kind::Unique, entries)?;
    }
    Ok(())
}

/// Adds the group of each domain's controllers, up to the first word that is no tag.
fn add_domains(
    alloc: Global,
    addr: u32,
    tags: &[u8],
    entries: &mut Vec<FixedLine>,
) -> Result<(), Unread> {
    let words: Vec<&[u8]> = tags.split(|octet| is_blank(*octet)).collect(alloc)?;
    for tag in words.as_slice() {
        if let Some(domain) = tag.strip_prefix(b"#DOM:") {
            add_name(addr, domain, CONTROLLERS, Kind::Group, entries)?;
        } else if !tag.is_empty() && *tag != b"#PRE".as_slice() {
            return Ok(());
        }
    }
    Ok(())
}

/// Adds a name.
fn add_name(
    addr: u32,
    front: &[u8],
    suffix: u8,
    kind: Kind,
    entries: &mut Vec<FixedLine>,
) -> Result<(), Unread> {
    let name = name_of(Case::Folded, front, suffix)?;
    entries.push(FixedLine { name, kind, addr })?;
    Ok(())
}
