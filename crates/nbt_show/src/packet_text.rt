//! What the octets of one packet say, part by part, as text (our profile).

ghost use Rattle.std.specs.Prelude.{◌≡◌, ℕ, ◌++◌, List, OnOk, IfOk, codes};
ghost use Rattle.std.specs.Int.{to_be_bytes, w16};
ghost use Rattle.std.specs.String.{string_bytes};
ghost use Rattle.nbt_packet.specs.Message.{message_of};
ghost use Rattle.nbt_packet.specs.Packet.{packet_of, record_if};
ghost use Rattle.nbt_show.specs.PacketText.{PrintsMessage, PrintsOctets, PrintsPacket, PrintsQuestion, PrintsRecord, data_text, four_digits, type_and_class, message_word};
ghost use Rattle.nbt_text.specs.Lines.{newline};

use nbt_packet::{Message, Packet, Question, Record, classify, decode};
use nbt_text::{end_line, write_hexadecimal, write_name};
use std::alloc::AllocError;

/// Appends a line for each part of the packet that the octets begin with, for the message that it spells, and for how
/// many octets it takes; or the line of its fault. Returns whether a packet stands there.
pub fn write_packet(octets: &[u8], out: &mut String) -> Result<bool, AllocError>
    ensures { IfOk result (λ stands. (text : List ℕ) × (string_bytes out.new ≡ string_bytes out.old ++ text)
        × PrintsOctets octets.now stands text) }
{
    match decode(octets) {
        Ok((packet, length)) => {
            write_parts(&packet, out)?;
            writeln!(out, "length {length}")?;
            Ok(true)
        }
        Err(fault) => {
            let word = fault.kind.word();
            let place = fault.place;
            writeln!(out, "fault {word} at {place}")?;
            Ok(false)
        }
    }
}

/// Appends a line for the header, for each section, and for the message.
fn write_parts(packet: &Packet<'_>, out: &mut String) -> Result<(), AllocError>
    ensures { OnOk result ((text : List ℕ) × (string_bytes out.new ≡ string_bytes out.old ++ text)
        × PrintsPacket (packet_of packet.now) text) }
{
    write_header(packet.id, packet.flags, out)?;
    write_question(&packet.question, out)?;
    write_record("answer", &packet.answer, out)?;
    write_record("additional", &packet.additional, out)?;
    write_message(packet, out)
}

/// Appends the line of the header.
fn write_header(id: u16, flags: u16, out: &mut String) -> Result<(), AllocError>
    ensures { OnOk result (string_bytes out.new ≡ string_bytes out.old
        ++ codes "id " ++ four_digits id ++ codes " flags " ++ four_digits flags ++ newline) }
{
    out.push_str("id ")?;
    write_word(id, out)?;
    out.push_str(" flags ")?;
    write_word(flags, out)?;
    end_line(out)
}

/// Appends the line of the question, where there is one.
fn write_question(question: &Option<Question<'_>>, out: &mut String) -> Result<(), AllocError>
    ensures { OnOk result ((text : List ℕ) × (string_bytes out.new ≡ string_bytes out.old ++ text)
        × PrintsQuestion question.now text) }
{
    let Some(question) = question else {
        return Ok(());
    };
    out.push_str("question ")?;
    write_name(&question.name.to_name(), out)?;
    write_type_and_class(question.rtype, question.class, out)?;
    end_line(out)
}

/// Appends the line of a record, where there is one.
fn write_record(
    label: &str,
    section: &Option<Record<'_>>,
    out: &mut String,
) -> Result<(), AllocError>
    ensures { OnOk result ((text : List ℕ) × (string_bytes out.new ≡ string_bytes out.old ++ text)
        × PrintsRecord label.now (record_if section.now) text) }
{
    let Some(record) = section else {
        return Ok(());
    };
    out.push_str(label)?;
    out.push_str(" ")?;
    write_name(&record.name.to_name(), out)?;
    write_type_and_class(record.rtype, record.class, out)?;
    let ttl = record.ttl;
    write!(out, " ttl {ttl} data ")?;
    write_data(record.rdata, out)?;
    end_line(out)
}

/// Appends the type and the class, as of a question and of a record.
fn write_type_and_class(rtype: u16, class: u16, out: &mut String) -> Result<(), AllocError>
    ensures { OnOk result (string_bytes out.new ≡ string_bytes out.old ++ type_and_class rtype class) }
{
    out.push_str(" type ")?;
    write_word(rtype, out)?;
    out.push_str(" class ")?;
    write_word(class, out)
}

/// Appends the number in four hexadecimal digits.
pub fn write_word(number: u16, out: &mut String) -> Result<(), AllocError>
    ensures { OnOk result (string_bytes out.new ≡ string_bytes out.old ++ four_digits number) }
{
    write_hexadecimal(&number.to_be_bytes(), out)
}

/// Appends the octets in hexadecimal, or `-` where there are none.
pub fn write_data(octets: &[u8], out: &mut String) -> Result<(), AllocError>
    ensures { OnOk result (string_bytes out.new ≡ string_bytes out.old ++ data_text octets.now) }
{
    if octets.is_empty() {
        return out.push_str("-");
    }
    write_hexadecimal(octets, out)
}

/// Appends the line of the message that the packet spells.
fn write_message(packet: &Packet<'_>, out: &mut String) -> Result<(), AllocError>
    ensures { OnOk result ((word : List ℕ)
        × (string_bytes out.new ≡ string_bytes out.old ++ codes "message " ++ word ++ newline)
        × PrintsMessage (packet_of packet.now) word) }
{
    let word = match classify(packet) {
        Some(message) => word_of_message(&message),
        None => "none",
    };
    out.push_str("message ")?;
    out.push_str(word)?;
    end_line(out)
}

/// The word for a message.
fn word_of_message(message: &Message<'_>) -> &'static str
    ensures { result.now ≡ message_word (message_of message.now) }
{
    match message {
        Message::Registration(_) => "registration",
        Message::Overwrite(_) => "overwrite",
        Message::Refresh(_) => "refresh",
        Message::Release { .. } => "release",
        Message::Query { .. } => "query",
        Message::StatusRequest { .. } => "status-request",
        Message::Registered { .. } => "registered",
        Message::Released { .. } => "released",
        Message::Found { .. } => "found",
        Message::NotFound { .. } => "not-found",
        Message::Status { .. } => "status",
        Message::Wait { .. } => "wait",
    }
}
