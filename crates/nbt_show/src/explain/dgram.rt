//! A datagram in words.

use crate::explain::naming::write_named;
use crate::explain::words::{node_word, words_for, write_code_line, write_flag};
use crate::packet_text::write_word;
use nbt_dgram::{Body, Delivery, Dgram, Fragment, Lookup, MsgType, Part, decode};
use nbt_name::LentName;
use nbt_text::{end_line, write_address};
use std::alloc::{AllocError, Global};

/// Where FLAGS stands (RFC 1002 section 4.4.1).
const FLAGS: usize = 1;

/// How many octets a fragment has up to PACKET_OFFSET and with it (RFC 1002 section 4.4.2).
const HEAD: usize = 14;

/// The datagram that the octets begin with in words: its type, flags, id and source; a fragment's length, offset, names and how
/// many octets of data it has; an error's code; the name of a query or of its answer. Of octets that begin with no datagram
/// nothing (RFC 1002 section 4.4).
pub fn explain_dgram(alloc: Global, octets: &[u8]) -> Result<String, AllocError> {
    let mut text = String::new(alloc);
    if let (Ok((dgram, length)), Some(flags)) = (decode(octets), octets.get(FLAGS)) {
        write_head(*flags, &dgram, &mut text)?;
        write_body(&dgram.body, length.saturating_sub(HEAD), &mut text)?;
    }
    Ok(text)
}

/// Appends the lines of the octets that each datagram begins with: of the flags F, M and SNT.
fn write_head(flags: u8, dgram: &Dgram<'_>, out: &mut String) -> Result<(), AllocError> {
    let words = type_words(dgram.msg_type());
    let number = dgram.msg_type().number();
    writeln!(out, "Message type: {words} ({number})")?;
    write_flag("First fragment", u16::from(flags), 2, out)?;
    write_flag("More fragments", u16::from(flags), 1, out)?;
    let node = sender_word(flags / 4 % 4);
    write!(out, "Node type: {node}\nDatagram ID: 0x")?;
    write_word(dgram.id, out)?;
    out.push_str("\nSource: ")?;
    write_address(dgram.source, out)?;
    end_line(out)
}

/// The sender's type of node, of which 11 is a distribution server's (RFC 1002 section 4.4.1).
fn sender_word(bits: u8) -> &'static str {
    if bits == 3 { "NBDD" } else { node_word(bits) }
}

/// The type in words (RFC 1002 section 4.4.1).
fn type_words(msg_type: MsgType) -> &'static str {
    match msg_type {
        MsgType::Data(Delivery::DirectUnique) => "Direct_unique datagram",
        MsgType::Data(Delivery::DirectGroup) => "Direct_group datagram",
        MsgType::Data(Delivery::Broadcast) => "Broadcast datagram",
        MsgType::Error => "Datagram error",
        MsgType::Lookup(Lookup::Request) => "Datagram query request",
        MsgType::Lookup(Lookup::Positive) => "Datagram positive query response",
        MsgType::Lookup(Lookup::Negative) => "Datagram negative query response",
    }
}

/// Appends the lines of what stands after the first ten octets.
fn write_body(body: &Body<'_>, counted: usize, out: &mut String) -> Result<(), AllocError> {
    match body {
        Body::Fragment(fragment) => write_fragment(fragment, counted, out),
        Body::Error(code) => write_code_line(words_for(u16::from(*code), &ERRORS), *code, out),
        Body::Lookup(_, name) => write_name_line("Destination name: ", name, out),
    }
}

/// Appends the lines of a fragment: its length and offset, its names, where there are some, and how many octets of data it has.
fn write_fragment(
    fragment: &Fragment<'_>,
    counted: usize,
    out: &mut String,
) -> Result<(), AllocError> {
    let offset = fragment.part.offset();
    writeln!(out, "Datagram length: {counted}, packet offset: {offset}")?;
    if let Part::First(names) = &fragment.part {
        write_name_line("Source name: ", &names.source, out)?;
        write_name_line("Destination name: ", &names.destination, out)?;
    }
    let count = fragment.payload.len();
    writeln!(out, "Data: {count} octets")
}

/// Appends the line of a name.
fn write_name_line(label: &str, name: &LentName<'_>, out: &mut String) -> Result<(), AllocError> {
    out.push_str(label)?;
    write_named(&name.to_name(), out)?;
    end_line(out)
}

/// ERROR_CODE (RFC 1002 section 4.4.3).
const ERRORS: [(u16, &str); 3] = [
    (0x82, "Destination name not present"),
    (0x83, "Invalid source name format"),
    (0x84, "Invalid destination name format"),
];
