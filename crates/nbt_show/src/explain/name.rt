//! A packet of the name service in words.

use crate::explain::naming::{write_named, write_type_and_class};
use crate::explain::rows::write_rdata;
use crate::explain::sentence::write_reason;
use crate::explain::server::write_at_server;
use crate::explain::words::{words_for, write_duration, write_flag};
use crate::packet_text::write_word;
use crate::rcode::rcode_words;
use nbt_packet::{Packet, Question, Record, decode, flags};
use nbt_text::end_line;
use std::alloc::{AllocError, Global};

/// The packet that the octets begin with in words: its id, OPCODE, flags, RCODE and counts; its question and records, with
/// their names, types, classes and times, and what RDATA holds; why it spells no message, where it spells none; and what
/// `nbt nbns` makes of an overwrite and of OPCODE 15. Of octets that begin with no packet nothing (RFC 1002 section 4.2).
pub fn explain_packet(alloc: Global, octets: &[u8]) -> Result<String, AllocError> {
    let mut text = String::new(alloc);
    if let Ok((packet, _)) = decode(octets) {
        write_packet(&packet, &mut text)?;
        write_at_server(packet, &mut text)?;
    }
    Ok(text)
}

/// Appends a packet in words.
fn write_packet(packet: &Packet<'_>, out: &mut String) -> Result<(), AllocError> {
    write_header(packet, out)?;
    write_question(&packet.question, out)?;
    write_record("Answer: ", &packet.answer, out)?;
    write_record("Additional: ", &packet.additional, out)?;
    write_reason(packet, out)
}

/// OPCODEs (RFC 1002 section 4.2.1.1; 15 is in no RFC).
const OPCODES: [(u16, &str); 7] = [
    (0, "Name query"),
    (5, "Registration"),
    (6, "Release"),
    (7, "Wait for acknowledgment"),
    (8, "Refresh"),
    (9, "Refresh (alternate opcode)"),
    (15, "Multi-homed registration"),
];

/// The flags that stand behind OPCODE, by their bits (RFC 1002 section 4.2.1.1).
const FLAGS: [(&str, u16); 5] = [
    ("Authoritative", 0x400),
    ("Truncated", 0x200),
    ("Recursion desired", 0x100),
    ("Recursion available", 0x80),
    ("Broadcast", 0x10),
];

/// Appends the lines of the header; that of RCODE for a response.
fn write_header(packet: &Packet<'_>, out: &mut String) -> Result<(), AllocError> {
    out.push_str("Transaction ID: 0x")?;
    write_word(packet.id, out)?;
    end_line(out)?;
    write_flag("Response", packet.flags, 0x8000, out)?;
    let opcode = flags::opcode(packet.flags);
    let words = words_for(opcode, &OPCODES);
    writeln!(out, "Opcode: {words} ({opcode})")?;
    for (label, mask) in FLAGS.iter() {
        write_flag(label, packet.flags, *mask, out)?;
    }
    if !flags::is_request(packet.flags) {
        write_rcode(flags::rcode(packet.flags), out)?;
    }
    write_counts(packet, out)
}

/// Appends the line of an RCODE.
fn write_rcode(rcode: u8, out: &mut String) -> Result<(), AllocError> {
    let words = if rcode == 0 {
        "no error"
    } else {
        rcode_words(rcode)
    };
    writeln!(out, "Reply code: {words} ({rcode})")
}

/// Appends the line of the counts.
fn write_counts(packet: &Packet<'_>, out: &mut String) -> Result<(), AllocError> {
    let questions = u8::from(packet.question.is_some());
    let answers = u8::from(packet.answer.is_some());
    let additionals = u8::from(packet.additional.is_some());
    writeln!(
        out,
        "Questions: {questions}, answer RRs: {answers}, authority RRs: 0, additional RRs: {additionals}"
    )
}

/// Appends the line of the question, where there is one.
fn write_question(section: &Option<Question<'_>>, out: &mut String) -> Result<(), AllocError> {
    let Some(question) = section else {
        return Ok(());
    };
    out.push_str("Question: ")?;
    write_named(&question.name.to_name(), out)?;
    write_type_and_class(question.rtype, question.class, out)?;
    end_line(out)
}

/// Appends the lines of a record, where there is one.
fn write_record(
    label: &str,
    section: &Option<Record<'_>>,
    out: &mut String,
) -> Result<(), AllocError> {
    let Some(resource) = section else {
        return Ok(());
    };
    out.push_str(label)?;
    write_named(&resource.name.to_name(), out)?;
    write_type_and_class(resource.rtype, resource.class, out)?;
    out.push_str(", time to live")?;
    write_duration(resource.ttl, out)?;
    let count = resource.rdata.len();
    writeln!(out, ", {count} octets")?;
    write_rdata(resource, out)
}
