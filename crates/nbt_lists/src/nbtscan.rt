//! The output of nbtscan: its table, and what it prints with `-s` and a character, a host or a name a line:
//!
//! ```text
//! IP address       NetBIOS Name     Server    User             MAC address
//! ------------------------------------------------------------------------------
//! 192.0.2.7        FILER            <server>  ADA              00:a0:c9:12:34:56
//!
//! 192.0.2.7:FILER          :<server>:ADA            :00:a0:c9:12:34:56
//!
//! 192.0.2.7:FILER          :20U
//! 192.0.2.7:OFFICE         :00G
//! 192.0.2.7:MAC:00:a0:c9:12:34:56
//! ```
//!
//! A host that is printed in one line has the name of its suffix 00, and that of its suffix 20 if it is a server. Who is logged in, in the
//! fourth column, moves from machine to machine, and isn't taken. With `-v` and `-s` each name stands with its suffix, and U for
//! unique or G for a group.

use crate::naming::{name_of, octet_of};
use crate::reason::{Reason, Unread};
use crate::source::cut_address;
use nbt_front::{FixedLine, ip_in};
use nbt_name::Kind;
use nbt_text::{Case, split_at_first};

/// Where the second and the third column of the table begin.
const NAME: usize = 17;

const SERVER: usize = 34;

/// The suffixes of a computer and of its file server.
const COMPUTER: u8 = 0x00;

const FILE_SERVER: u8 = 0x20;

/// What a table says of a server, and of a host that told no name.
const IS_SERVER: &[u8] = b"<server>";

const UNKNOWN: &[u8] = b"<unknown>";

/// How lines begin that say no name.
const HEADS: [&[u8]; 3] = [b"Doing NBT name scan", b"IP address", b"----"];

/// The entries that a line says.
pub(crate) fn read_nbtscan(line: &[u8], entries: &mut Vec<FixedLine>) -> Result<(), Unread> {
    if line.trim_ascii().is_empty() || HEADS.iter().any(|head| line.starts_with(head)) {
        return Ok(());
    }
    let (word, rest) = cut_address(line);
    let addr = ip_in(word).ok_or(Reason::NoLine)?;
    match rest.split_first() {
        Some((&b' ', _)) => read_row(addr, line, entries),
        Some((&mark, fields)) => read_fields(addr, mark, fields, entries),
        None => Err(Unread::Left(Reason::NoLine)),
    }
}

/// The names of a row of the table.
fn read_row(addr: u32, line: &[u8], entries: &mut Vec<FixedLine>) -> Result<(), Unread> {
    let (before, columns) = line.split_at_checked(NAME).ok_or(Reason::NoLine)?;
    let (name, others) = columns
        .split_at_checked(SERVER - NAME)
        .ok_or(Reason::NoLine)?;
    if !before.ends_with(b" ") || !name.ends_with(b"  ") {
        return Err(Unread::Left(Reason::NoLine));
    }
    add_host(
        addr,
        name.trim_ascii_end(),
        others.starts_with(IS_SERVER),
        entries,
    )
}

/// The names of a line whose fields stand between these marks.
fn read_fields(
    addr: u32,
    mark: u8,
    fields: &[u8],
    entries: &mut Vec<FixedLine>,
) -> Result<(), Unread> {
    let (front, rest) = split_at_first(mark, fields);
    let (third, more) = split_at_first(mark, rest.ok_or(Reason::NoLine)?);
    let front = front.trim_ascii_end();
    if let Some((suffix, kind)) = suffix_in(third) {
        return add_name(addr, front, suffix, kind, entries);
    }
    if front == b"MAC".as_slice() && octet_of(third).is_some() {
        return Ok(());
    }
    let third = third.trim_ascii();
    if more.is_none() || !(third.is_empty() || third == IS_SERVER) {
        return Err(Unread::Left(Reason::NoLine));
    }
    add_host(addr, front, third == IS_SERVER, entries)
}

/// The suffix and the kind of a name, as `20U` or `00G`.
fn suffix_in(word: &[u8]) -> Option<(u8, Kind)> {
    let (last, digits) = word.split_last()?;
    let suffix = octet_of(digits)?;
    match last {
        b'U' => Some((suffix, Kind::Unique)),
        b'G' => Some((suffix, Kind::Group)),
        _ => None,
    }
}

/// Adds the names of a host.
fn add_host(
    addr: u32,
    front: &[u8],
    is_server: bool,
    entries: &mut Vec<FixedLine>,
) -> Result<(), Unread> {
    if front == UNKNOWN {
        return Err(Unread::Left(Reason::Unknown));
    }
    add_name(addr, front, COMPUTER, Kind::Unique, entries)?;
    if is_server {
        add_name(addr, front, FILE_SERVER, Kind::Unique, entries)?;
    }
    Ok(())
}

/// Adds a name, whose letters stay as they are.
fn add_name(
    addr: u32,
    front: &[u8],
    suffix: u8,
    kind: Kind,
    entries: &mut Vec<FixedLine>,
) -> Result<(), Unread> {
    let name = name_of(Case::Exact, front, suffix)?;
    entries.push(FixedLine { name, kind, addr })?;
    Ok(())
}
