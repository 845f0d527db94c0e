//! Reading a packet from octets, section by section (RFC 1002 section 4.2.1).

ghost use Rattle.std.specs.Prelude.{◌≡◌, ℕ, ◌+◌, ◌<◌, ◌≤◌, ◌↔◌, Ok, Err, Some, None, length, drop, IfOk, IfErr, OnOk};
ghost use Rattle.nbt_packet.specs.declared.fault.Fault.{Fault};
ghost use Rattle.nbt_packet.specs.Numbers.{short, too_many};
ghost use Rattle.nbt_name.specs.Words.{word_at, long_at};
ghost use Rattle.nbt_packet.specs.Packet.{PacketValue, QuestionAt, RecordAt, SectionAt, IsHeader, PacketIs, QuestionFault, RecordFault, PacketFault, record_of, record_if, packet_of, decoded};
ghost use Rattle.nbt_packet.specs.Inner.Decoding.{IsHeaderOf, CountFault};

use crate::fault::{Fault, FaultKind};
use crate::packet::{Packet, Question, Record};
use crate::wire::{ANCOUNT, ARCOUNT, FLAGS, HEADER, NAME_TRN_ID, NSCOUNT, QDCOUNT};
use nbt_name::{NameFaultKind, find_in, read_long, read_word};

/// Reads the packet that the octets begin with, and returns it with its length in octets. The fault is the first one in
/// reading order: `TooMany` (6) at a count above 1 (NSCOUNT: above 0); a name's own (1 to 5); `Short` (1) at the octets'
/// length if they end within the packet. Octets after the packet are ignored (RFC 1002 section 4.2.1; the limits on counts
/// are our profile).
pub fn decode(octets: &[u8]) -> Result<(Packet<'_>, usize), Fault>
    ensures packet { (packet : PacketValue) (n : ℕ) → (decoded result ≡ Ok (packet, n)) ↔ PacketIs octets.now packet n }
    ensures fault { (fault : Fault) → (decoded result ≡ Err fault) ↔ PacketFault octets.now fault }
    ensures within { IfOk result (λ read. read.1 ≤ length octets.now) }
{
    packet_at(octets)
}

/// Reads a packet: what is found stands there.
fn packet_at(octets: &[u8]) -> Result<(Packet<'_>, usize), Fault>
    ensures packet { IfOk result (λ read. PacketIs octets.now (packet_of read.0) read.1) }
    ensures fault { IfErr result (PacketFault octets.now) }
    ensures within { IfOk result (λ read. read.1 ≤ length octets.now) }
{
    let header = header_of(octets)?;
    let (question, asked) = question_section(octets, header.questions, HEADER)?;
    let (answer, answered) = record_section(octets, header.answers, asked)?;
    let (additional, end) = record_section(octets, header.additionals, answered)?;
    let packet = Packet {
        id: header.id,
        flags: header.flags,
        question,
        answer,
        additional,
    };
    Ok((packet, end))
}

/// The header's words but NSCOUNT, which is 0.
#[derive(Debug, Drop)]
struct Header {
    id: u16,
    flags: u16,
    questions: u16,
    answers: u16,
    additionals: u16,
}

/// The header, whose counts fit; the fault of one that doesn't stand.
fn header_of(octets: &[u8]) -> Result<Header, Fault>
    ensures header { IfOk result (IsHeaderOf octets.now) }
    ensures fault { IfErr result (PacketFault octets.now) }
{
    let id = word(octets, NAME_TRN_ID)?;
    let flags = word(octets, FLAGS)?;
    let questions = count(octets, QDCOUNT, 1)?;
    let answers = count(octets, ANCOUNT, 1)?;
    count(octets, NSCOUNT, 0)?;
    let additionals = count(octets, ARCOUNT, 1)?;
    Ok(Header {
        id,
        flags,
        questions,
        answers,
        additionals,
    })
}

/// A word of the header.
fn word(octets: &[u8], place: usize) -> Result<u16, Fault>
    requires { place ≤ 10 }
    ensures word { IfOk result (λ x. (place + 2 ≤ length octets.now) × (x ≡ word_at octets.now place)) }
    ensures cut { IfErr result (λ fault. (length octets.now < place + 2) × (fault ≡ short octets.now)) }
{
    if octets.len() < place + 2 {
        return Err(short_of(octets));
    }
    Ok(read_word(octets, place))
}

/// A count of the header, of which at most `most` are read.
fn count(octets: &[u8], place: usize, most: u16) -> Result<u16, Fault>
    requires { place ≤ 10 }
    ensures count { IfOk result (λ x. (place + 2 ≤ length octets.now) × (x ≡ word_at octets.now place) × (x ≤ most)) }
    ensures fault { IfErr result (CountFault octets.now place most) }
{
    let count = word(octets, place)?;
    if count > most {
        return Err(Fault {
            kind: FaultKind::TooMany,
            place,
        });
    }
    Ok(count)
}

/// The question that a count of 1 says stands here, and the place after it; a count of 0 says that none does.
fn question_section(
    octets: &[u8],
    count: u16,
    place: usize,
) -> Result<(Option<Question<'_>>, usize), Fault>
    requires one { count ≤ 1 }
    requires within { place ≤ length octets.now }
    ensures section { IfOk result (λ read. SectionAt (QuestionAt octets.now) count place read.0 read.1) }
    ensures within { IfOk result (λ read. read.1 ≤ length octets.now) }
    ensures fault { IfErr result (λ fault. (count ≡ 1) × QuestionFault octets.now place fault) }
{
    if count == 0 {
        return Ok((None, place));
    }
    let (question, next) = question_at(octets, place)?;
    Ok((Some(question), next))
}

/// The record that a count of 1 says stands here, and the place after it; a count of 0 says that none does.
fn record_section(
    octets: &[u8],
    count: u16,
    place: usize,
) -> Result<(Option<Record<'_>>, usize), Fault>
    requires one { count ≤ 1 }
    requires within { place ≤ length octets.now }
    ensures section { IfOk result (λ read. SectionAt (RecordAt octets.now) count place (record_if read.0) read.1) }
    ensures within { IfOk result (λ read. read.1 ≤ length octets.now) }
    ensures fault { IfErr result (λ fault. (count ≡ 1) × RecordFault octets.now place fault) }
{
    if count == 0 {
        return Ok((None, place));
    }
    let (record, next) = record_at(octets, place)?;
    Ok((Some(record), next))
}

/// The question that stands here, and the place after it (RFC 1002 section 4.2.1.2).
fn question_at(octets: &[u8], place: usize) -> Result<(Question<'_>, usize), Fault>
    requires { place ≤ length octets.now }
    ensures question { IfOk result (λ read. QuestionAt octets.now place read.0 read.1) }
    ensures within { IfOk result (λ read. read.1 ≤ length octets.now) }
    ensures fault { IfErr result (QuestionFault octets.now place) }
{
    let (name, named) = find_in(octets, place)?;
    if octets.len() - named < 4 {
        return Err(short_of(octets));
    }
    let question = Question {
        name,
        rtype: read_word(octets, named),
        class: read_word(octets, named + 2),
    };
    Ok((question, named + 4))
}

/// The record that stands here, and the place after it (RFC 1002 section 4.2.1.3).
fn record_at(octets: &[u8], place: usize) -> Result<(Record<'_>, usize), Fault>
    requires { place ≤ length octets.now }
    ensures record { IfOk result (λ read. RecordAt octets.now place (record_of read.0) read.1) }
    ensures within { IfOk result (λ read. read.1 ≤ length octets.now) }
    ensures fault { IfErr result (RecordFault octets.now place) }
{
    let (name, named) = find_in(octets, place)?;
    if octets.len() - named < 10 {
        return Err(short_of(octets));
    }
    let begin = named + 10;
    let rdlength = usize::from(read_word(octets, named + 8));
    if octets.len() - begin < rdlength {
        return Err(short_of(octets));
    }
    let end = begin + rdlength;
    let record = Record {
        name,
        rtype: read_word(octets, named),
        class: read_word(octets, named + 2),
        ttl: read_long(octets, named + 4),
        rdata: &octets[begin..end],
    };
    Ok((record, end))
}

/// The octets end where one is missing.
fn short_of(octets: &[u8]) -> Fault
    ensures { result ≡ short octets.now }
{
    Fault {
        kind: FaultKind::Name(NameFaultKind::Short),
        place: octets.len(),
    }
}
