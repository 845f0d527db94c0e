//! Which message a packet spells, or why it spells none (RFC 1002 sections 4.2.2 to 4.2.18).

ghost use Rattle.std.specs.Prelude.{◌≡◌, ℕ, ◌+◌, ◌*◌, ◌<◌, ◌≤◌, ◌↔◌, Some, length, slice_index, IsTrue, IfErr};
ghost use Rattle.std.specs.Result.{result_ok};
ghost use Rattle.nbt_name.specs.Words.{long_at};
ghost use Rattle.nbt_packet.specs.Packet.{record_of, packet_of};
ghost use Rattle.nbt_packet.specs.Message.{MessageValue, MessageIs, IsUnicast, opcode_of, Claims, IsEntry, AreEntries, HoldsNames, nb, nbstat, internet_question, internet_record, kind_in, message_of, message_if};
ghost use Rattle.nbt_packet.specs.Reasons.{IsReason, IsOfEntry, HasShape, Asked, asking, claiming, confirming, finding, denying, waiting};
ghost use Rattle.nbt_packet.specs.Inner.Classifying.{Classifies, IsWrong};

use crate::flags;
use crate::message::{Message, Registration};
use crate::packet::{Packet, Question, Record};
use crate::reason::Reason;
use crate::wire::{
    ADDR_ENTRY, GROUP, IN, NB, NBSTAT, NODE_NAME, OPCODE_QUERY, OPCODE_REFRESH, OPCODE_REFRESH_9,
    OPCODE_REGISTRATION, OPCODE_RELEASE, OPCODE_WACK,
};
use byteorder::{BigEndian, ByteOrder};
use nbt_name::Kind;

/// The message that a packet spells, or `None` if it spells none of this profile (RFC 1002 sections 4.2.2 to 4.2.18). B must
/// be clear, but in a status request. TC is read in a positive response to a query alone, as `cut`. AA, the two zero bits
/// and a request's RCODE are ignored.
pub fn classify<'a>(packet: &Packet<'a>) -> Option<Message<'a>>
    ensures { (message : MessageValue) → (message_if result ≡ Some message) ↔ MessageIs (packet_of packet.now) message }
{
    try_classify(packet).ok()
}

/// The message that a packet spells, as `classify` returns it, or the first reason why it spells none (our profile's order).
pub fn try_classify<'a>(packet: &Packet<'a>) -> Result<Message<'a>, Reason>
    ensures message { (message : MessageValue) → (message_if (result_ok result) ≡ Some message) ↔ MessageIs (packet_of packet.now) message }
    ensures reason { IfErr result (IsReason (packet_of packet.now)) }
{
    let flags = packet.flags;
    let opcode = flags::opcode(flags);
    if is_of_entry(opcode) {
        return if flags::is_request(flags) {
            claim_in(packet)
        } else {
            confirmation_in(packet)
        };
    }
    if opcode == OPCODE_QUERY {
        return query_in(packet);
    }
    if opcode == OPCODE_WACK && !flags::is_request(flags) {
        return wait_in(packet);
    }
    Err(Reason::Opcode)
}

/// Whether a message of this OPCODE has one entry.
fn is_of_entry(opcode: u16) -> bool
    ensures { IsTrue result ↔ IsOfEntry opcode }
{
    opcode == OPCODE_REGISTRATION
        || (opcode == OPCODE_RELEASE || (opcode == OPCODE_REFRESH || opcode == OPCODE_REFRESH_9))
}

/// The message of OPCODE 0, or why there is none.
fn query_in<'a>(packet: &Packet<'a>) -> Result<Message<'a>, Reason>
    requires { opcode_of packet.now.flags ≡ 0 }
    ensures message { Classifies (packet_of packet.now) (result_ok result) }
    ensures reason { IfErr result (IsReason (packet_of packet.now)) }
{
    if flags::is_request(packet.flags) {
        return question_in(packet);
    }
    if flags::rcode(packet.flags) == 0 {
        return finding_in(packet);
    }
    denial_in(packet)
}

/// A query or a status request: a question alone.
fn question_in<'a>(packet: &Packet<'a>) -> Result<Message<'a>, Reason>
    requires { HasShape packet.now.flags asking }
    ensures message { Classifies (packet_of packet.now) (result_ok result) }
    ensures reason { IfErr result (IsWrong asking (packet_of packet.now)) }
{
    if !flags::is_unicast(packet.flags) && !asks_status(packet) {
        return Err(Reason::Broadcast);
    }
    let question = match (&packet.question, &packet.answer, &packet.additional) {
        (Some(question), None, None) => question,
        _ => return Err(Reason::Sections),
    };
    if question.rtype != NB && question.rtype != NBSTAT {
        return Err(Reason::OtherType);
    }
    if question.class != IN {
        return Err(Reason::OtherClass);
    }
    let id = packet.id;
    let name = question.name.copy();
    if question.rtype == NBSTAT {
        Ok(Message::StatusRequest { id, name })
    } else {
        Ok(Message::Query { id, name })
    }
}

/// Whether there is a question of type NBSTAT.
fn asks_status(packet: &Packet<'_>) -> bool
    ensures { IsTrue result ↔ Asked (packet_of packet.now) (λ q. q.rtype ≡ nbstat) }
{
    match &packet.question {
        Some(question) => question.rtype == NBSTAT,
        None => false,
    }
}

/// A registration, an overwrite, a refresh or a release: a question and an additional record of one name, with one entry.
fn claim_in<'a>(packet: &Packet<'a>) -> Result<Message<'a>, Reason>
    requires { HasShape packet.now.flags claiming }
    ensures message { Classifies (packet_of packet.now) (result_ok result) }
    ensures reason { IfErr result (IsWrong claiming (packet_of packet.now)) }
{
    if !flags::is_unicast(packet.flags) {
        return Err(Reason::Broadcast);
    }
    let (question, additional) = match (&packet.question, &packet.answer, &packet.additional) {
        (Some(question), None, Some(additional)) => (question, additional),
        _ => return Err(Reason::Sections),
    };
    if question.rtype != NB || additional.rtype != NB {
        return Err(Reason::OtherType);
    }
    if question.class != IN || additional.class != IN {
        return Err(Reason::OtherClass);
    }
    if additional.rdata.len() != ADDR_ENTRY {
        return Err(Reason::Length);
    }
    if !have_one_name(question, additional) {
        return Err(Reason::OtherName);
    }
    Ok(claim_of(packet, additional))
}

/// Whether a question and an additional record are of one name.
fn have_one_name(question: &Question<'_>, additional: &Record<'_>) -> bool
    ensures { IsTrue result ↔ (question.now.name ≡ additional.now.name) }
{
    question.name.is_same(&additional.name)
}

/// The message of a claim, by its OPCODE and RD.
fn claim_of<'a>(packet: &Packet<'_>, additional: &Record<'a>) -> Message<'a>
    requires shape { HasShape packet.now.flags claiming }
    requires unicast { IsUnicast packet.now.flags }
    requires claims { Claims (packet_of packet.now) (internet_question additional.now.name nb) (internet_record additional.now.name nb additional.now.ttl additional.now.rdata.now) }
    requires entry { length additional.now.rdata.now ≡ 6 }
    ensures { MessageIs (packet_of packet.now) (message_of result) }
{
    match flags::opcode(packet.flags) {
        OPCODE_RELEASE => Message::Release {
            id: packet.id,
            name: additional.name.copy(),
            kind: kind_of(additional.rdata),
            addr: address_of(additional.rdata),
        },
        OPCODE_REGISTRATION if flags::desires_recursion(packet.flags) => {
            Message::Registration(registration_in(packet, additional))
        }
        OPCODE_REGISTRATION => Message::Overwrite(registration_in(packet, additional)),
        _ => Message::Refresh(registration_in(packet, additional)),
    }
}

/// A response to a claim: an answer alone, with one entry.
fn confirmation_in<'a>(packet: &Packet<'a>) -> Result<Message<'a>, Reason>
    requires { HasShape packet.now.flags confirming }
    ensures message { Classifies (packet_of packet.now) (result_ok result) }
    ensures reason { IfErr result (IsWrong confirming (packet_of packet.now)) }
{
    if !flags::is_unicast(packet.flags) {
        return Err(Reason::Broadcast);
    }
    if flags::is_challenge(packet.flags) {
        return Err(Reason::Challenge);
    }
    let answer = match (&packet.question, &packet.answer, &packet.additional) {
        (None, Some(answer), None) => answer,
        _ => return Err(Reason::Sections),
    };
    if answer.rtype != NB {
        return Err(Reason::OtherType);
    }
    if answer.class != IN {
        return Err(Reason::OtherClass);
    }
    if answer.rdata.len() != ADDR_ENTRY {
        return Err(Reason::Length);
    }
    let rcode = flags::rcode(packet.flags);
    let registration = registration_in(packet, answer);
    if flags::opcode(packet.flags) != OPCODE_RELEASE {
        return Ok(Message::Registered {
            rcode,
            registration,
        });
    }
    Ok(Message::Released {
        id: packet.id,
        rcode,
        name: registration.name,
        kind: registration.kind,
        addr: registration.addr,
    })
}

/// A positive response to a query, or a status: an answer alone, with entries or names.
fn finding_in<'a>(packet: &Packet<'a>) -> Result<Message<'a>, Reason>
    requires { HasShape packet.now.flags finding }
    ensures message { Classifies (packet_of packet.now) (result_ok result) }
    ensures reason { IfErr result (IsWrong finding (packet_of packet.now)) }
{
    if !flags::is_unicast(packet.flags) {
        return Err(Reason::Broadcast);
    }
    let answer = match (&packet.question, &packet.answer, &packet.additional) {
        (None, Some(answer), None) => answer,
        _ => return Err(Reason::Sections),
    };
    if answer.rtype != NB && answer.rtype != NBSTAT {
        return Err(Reason::OtherType);
    }
    if answer.class != IN {
        return Err(Reason::OtherClass);
    }
    let id = packet.id;
    let name = answer.name.copy();
    if answer.rtype == NB && are_entries(answer.rdata) {
        return Ok(Message::Found {
            id,
            name,
            ttl: answer.ttl,
            entries: answer.rdata,
            cut: flags::is_truncated(packet.flags),
        });
    }
    if answer.rtype == NBSTAT && holds_names(answer.rdata) {
        let names = names_in(answer.rdata);
        return Ok(Message::Status { id, name, names });
    }
    Err(Reason::Length)
}

/// A negative response to a query: an answer alone, or nothing.
fn denial_in<'a>(packet: &Packet<'a>) -> Result<Message<'a>, Reason>
    requires { HasShape packet.now.flags denying }
    ensures message { Classifies (packet_of packet.now) (result_ok result) }
    ensures reason { IfErr result (IsWrong denying (packet_of packet.now)) }
{
    if !flags::is_unicast(packet.flags) {
        return Err(Reason::Broadcast);
    }
    let id = packet.id;
    let rcode = flags::rcode(packet.flags);
    match (&packet.question, &packet.answer, &packet.additional) {
        (None, Some(answer), None) => Ok(Message::NotFound {
            id,
            rcode,
            name: Some(answer.name.copy()),
        }),
        (None, None, None) => Ok(Message::NotFound {
            id,
            rcode,
            name: None,
        }),
        _ => Err(Reason::Sections),
    }
}

/// A request to wait: an answer alone, whatever it holds.
fn wait_in<'a>(packet: &Packet<'a>) -> Result<Message<'a>, Reason>
    requires { HasShape packet.now.flags waiting }
    ensures message { Classifies (packet_of packet.now) (result_ok result) }
    ensures reason { IfErr result (IsWrong waiting (packet_of packet.now)) }
{
    if !flags::is_unicast(packet.flags) {
        return Err(Reason::Broadcast);
    }
    match (&packet.question, &packet.answer, &packet.additional) {
        (None, Some(answer), None) => Ok(Message::Wait {
            id: packet.id,
            name: answer.name.copy(),
            ttl: answer.ttl,
        }),
        _ => Err(Reason::Sections),
    }
}

/// Whether RDATA is one entry or more.
fn are_entries(rdata: &[u8]) -> bool
    ensures { IsTrue result ↔ AreEntries rdata.now }
{
    !rdata.is_empty() && rdata.len() % ADDR_ENTRY == 0
}

/// Whether RDATA holds as many names as NUM_NAMES says.
fn holds_names(rdata: &[u8]) -> bool
    ensures { IsTrue result ↔ ((0 < length rdata.now) × (1 + 18 * slice_index rdata.now 0 ≤ length rdata.now)) }
{
    !rdata.is_empty() && names_end(rdata) <= rdata.len()
}

/// Where a node's names end, by NUM_NAMES.
fn names_end(rdata: &[u8]) -> usize
    requires { 0 < length rdata.now }
    ensures { result ≡ 1 + 18 * slice_index rdata.now 0 }
{
    1 + NODE_NAME * usize::from(rdata[0])
}

/// A node's names; what comes after them is ignored.
fn names_in(rdata: &[u8]) -> &[u8]
    requires counted { 0 < length rdata.now }
    requires whole { 1 + 18 * slice_index rdata.now 0 ≤ length rdata.now }
    ensures { HoldsNames rdata.now result.now }
{
    &rdata[1..names_end(rdata)]
}

/// What a record of one entry says.
fn registration_in<'a>(packet: &Packet<'_>, resource: &Record<'a>) -> Registration<'a>
    requires { length resource.now.rdata.now ≡ 6 }
    ensures id { result.id ≡ packet.now.id }
    ensures name { result.name ≡ resource.now.name }
    ensures entry { IsEntry resource.now.rdata.now result.kind result.addr }
    ensures ttl { result.ttl ≡ resource.now.ttl }
{
    Registration {
        id: packet.id,
        name: resource.name.copy(),
        kind: kind_of(resource.rdata),
        addr: address_of(resource.rdata),
        ttl: resource.ttl,
    }
}

/// The kind of an entry: G of its NB_FLAGS.
fn kind_of(entry: &[u8]) -> Kind
    requires { length entry.now ≡ 6 }
    ensures { result ≡ kind_in entry.now }
{
    if entry[0] < GROUP {
        Kind::Unique
    } else {
        Kind::Group
    }
}

/// NB_ADDRESS of an entry.
fn address_of(entry: &[u8]) -> u32
    requires { length entry.now ≡ 6 }
    ensures { result ≡ long_at entry.now 2 }
{
    BigEndian::read_u32(&entry[2..])
}
