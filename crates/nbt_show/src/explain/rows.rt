//! What the RDATA of a record holds: entries, or the names of a node.

use crate::explain::naming::write_in_brackets;
use crate::explain::words::node_word;
use crate::holders::{kind_of, kind_word};
use crate::node_status::{write_name_flags, write_unit_line};
use nbt_name::Kind;
use nbt_packet::Record;
use nbt_text::{suffix_words, write_entry_address, write_octets};
use std::alloc::AllocError;

/// Type NB, a name's entries (RFC 1002 section 4.2.1.3).
const NB: u16 = 0x0020;

/// Type NBSTAT, a node's status (RFC 1002 section 4.2.1.3).
const NBSTAT: u16 = 0x0021;

/// How many octets a name of a node status has (RFC 1002 section 4.2.18).
const NODE_NAME: usize = 18;

/// Appends a line for each entry of a record of type NB; of one of type NBSTAT a line for each name, and one for the unit id,
/// where it is there and isn't zero; of any other nothing.
pub fn write_rdata(resource: &Record<'_>, out: &mut String) -> Result<(), AllocError> {
    match resource.rtype {
        NB => write_entries(resource.rdata, out),
        NBSTAT => write_status(resource.rdata, out),
        _ => Ok(()),
    }
}

/// Appends a line for each entry. Behind a group's address that is of no machine stands what it says.
fn write_entries(rdata: &[u8], out: &mut String) -> Result<(), AllocError> {
    let (entries, _) = rdata.as_chunks::<6>();
    for entry in entries {
        out.push_str("Address: ")?;
        write_entry_address(entry, out)?;
        write_holder(entry[0], out)?;
        write_in_brackets(nobody(entry), out)?;
        out.push_str("\n")?;
    }
    Ok(())
}

/// What the address of a group's entry says that is of no machine.
fn nobody(entry: &[u8; 6]) -> &'static str {
    let [flags, _, a, b, c, d] = *entry;
    match (kind_of(flags), a, b, c, d) {
        (Kind::Group, 255, 255, 255, 255) => {
            "all machines: a server that keeps no members of the group"
        }
        (Kind::Group, 0, 0, 0, 0) => "no machine: it doesn't say a member's address",
        _ => "",
    }
}

/// Appends the type of node and the kind that the first octet of flags says, a comma before each.
fn write_holder(flags: u8, out: &mut String) -> Result<(), AllocError> {
    let node = node_word(flags / 0x20 % 4);
    let kind = kind_word(kind_of(flags));
    write!(out, ", {node}, {kind}")
}

/// Appends a line for each name that RDATA counts, as far as they are there, and one for the unit id.
fn write_status(rdata: &[u8], out: &mut String) -> Result<(), AllocError> {
    let Some((count, rest)) = rdata.split_first() else {
        return Ok(());
    };
    match rest.split_at_checked(NODE_NAME * usize::from(*count)) {
        Some((names, statistics)) => {
            write_names(names, out)?;
            write_unit_line(statistics, out)
        }
        None => write_names(rest, out),
    }
}

/// Appends a line for each name: of its sixteen octets, and of NAME_FLAGS.
fn write_names(octets: &[u8], out: &mut String) -> Result<(), AllocError> {
    let (names, _) = octets.as_chunks::<18>();
    for name in names {
        let flags = name[16];
        out.push_str("Name: ")?;
        write_octets(name.first_chunk::<16>().unwrap(), out)?;
        write_in_brackets(suffix_words(name[15], kind_of(flags)), out)?;
        write_holder(flags, out)?;
        write_name_flags(flags, out)?;
        out.push_str("\n")?;
    }
    Ok(())
}
