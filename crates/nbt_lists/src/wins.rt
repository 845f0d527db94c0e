//! The file of Samba's nmbd as a WINS server, `wins.dat`:
//!
//! ```text
//! VERSION 1 0
//! "FILER#20" 1795511463 192.0.2.7 64R
//! "OFFICE#1c" 1795511463 192.0.2.1 192.0.2.2 e4R
//! ```
//!
//! A name with its suffix, the second since 1970 at which its time is over or 0 for never, its addresses, and its flags in hexadecimal
//! behind which an R says that it was registered.

use crate::naming::{name_of, octet_of};
use crate::reason::{Reason, Unread};
use nbt_front::{FixedLine, ip_in};
use nbt_name::{Kind, Name};
use nbt_text::{Case, parse_number, split_at_first, words_of};
use std::alloc::Global;

/// G, and DRG and CNF, of a name's flags (RFC 1002 section 4.2.18).
const GROUP: u8 = 0x80;

const GONE: u8 = 0x18;

/// The entries that a line says: one for each of its addresses. A first line, and an empty one, say none. `now` is the second since 1970.
pub(crate) fn read_wins(
    alloc: Global,
    now: u64,
    line: &[u8],
    entries: &mut Vec<FixedLine>,
) -> Result<(), Unread> {
    if line.is_empty() || line.starts_with(b"VERSION ") {
        return Ok(());
    }
    let (front, digits, rest) = parts_of(line).ok_or(Reason::NoLine)?;
    let suffix = octet_of(digits).ok_or(Reason::NoLine)?;
    let name = name_of(Case::Folded, front, suffix)?;
    let words = words_of(alloc, rest)?;
    let (first, others) = words.as_slice().split_first().ok_or(Reason::NoLine)?;
    let (last, addrs) = others.split_last().ok_or(Reason::NoLine)?;
    let end = parse_number(first).ok_or(Reason::NoLine)?;
    let flags = flags_of(last).ok_or(Reason::NoLine)?;
    if addrs.is_empty() {
        return Err(Unread::Left(Reason::NoLine));
    }
    if flags & GONE != 0 {
        return Err(Unread::Left(Reason::Released));
    }
    if end != 0 && end <= now {
        return Err(Unread::Left(Reason::Over));
    }
    add_each(&name, kind_of(flags), addrs, entries)
}

/// The characters of the name, the digits of its suffix, and what stands behind both.
fn parts_of(line: &[u8]) -> Option<(&[u8], &[u8], &[u8])> {
    let quoted = line.strip_prefix(b"\"")?;
    let (word, rest) = split_at_first(b'"', quoted);
    let (front, digits) = split_at_first(b'#', word);
    Some((front, digits?, rest?))
}

/// The flags: one or two hexadecimal digits, and an R.
fn flags_of(word: &[u8]) -> Option<u8> {
    match word {
        [one, b'R'] => octet_of(&[b'0', *one]),
        [one, two, b'R'] => octet_of(&[*one, *two]),
        _ => None,
    }
}

/// Who may hold a name with these flags.
fn kind_of(flags: u8) -> Kind {
    if flags & GROUP == 0 {
        Kind::Unique
    } else {
        Kind::Group
    }
}

/// Adds an entry for each address.
fn add_each(
    name: &Name,
    kind: Kind,
    addrs: &[&[u8]],
    entries: &mut Vec<FixedLine>,
) -> Result<(), Unread> {
    for word in addrs {
        let addr = ip_in(word).ok_or(Reason::NoLine)?;
        entries.push(FixedLine {
            name: name.copy(),
            kind,
            addr,
        })?;
    }
    Ok(())
}
