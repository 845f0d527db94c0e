//! Writing a message's one written form (RFC 1002 section 4.2).

ghost use Rattle.std.specs.Prelude.{◌≡◌, ◌+◌, ◌*◌, ◌<◌, ◌≤◌, ◌↔◌, [], ◌++◌, length, Some, OnOk, OnErr, IsErr};
ghost use Rattle.std.specs.Option.{ForSome};
ghost use Rattle.nbt_name.specs.Wire.{AreOctets, IsName, wire};
ghost use Rattle.nbt_name.specs.Words.{word, long};
ghost use Rattle.nbt_packet.specs.Message.{Fits, IsRegistration, HoldsNumbers, message_of, not_found, status, nb, internet};
ghost use Rattle.nbt_packet.specs.Spelling.{HasFewRows, AreWritten};
ghost use Rattle.nbt_packet.specs.Text as spec;
ghost use Rattle.nbt_packet.specs.Text.{text, entry, status_name, question_octets, claim_octets, answer_octets};

use crate::fault::Full;
use crate::laws;
use crate::message::{Message, Registration};
use crate::wire::{
    ADDR_ENTRY, DATAGRAM_MOST, GROUP, HEADER, IN, NAME_FLAGS_P_ACTIVE, NB, NB_FLAGS_P, NBSTAT,
    NODE_NAME, NULL, RECORD_FIELDS, STATISTICS,
};
use arrayvec::ArrayVec;
use byteorder::{BigEndian, ByteOrder};
use nbt_name::{Kind, LentName, Name, put_long, put_word};

/// NAME REGISTRATION REQUEST: OPCODE 5, RD (RFC 1002 section 4.2.2).
const REGISTRATION: u16 = 0x2900;
/// NAME OVERWRITE REQUEST and DEMAND: OPCODE 5 (RFC 1002 section 4.2.3).
const OVERWRITE: u16 = 0x2800;
/// NAME REFRESH REQUEST: OPCODE 8 (RFC 1002 section 4.2.4).
const REFRESH: u16 = 0x4000;
/// NAME RELEASE REQUEST and DEMAND: OPCODE 6 (RFC 1002 section 4.2.9).
const RELEASE: u16 = 0x3000;
/// NAME QUERY REQUEST: OPCODE 0, RD (RFC 1002 section 4.2.12).
const QUERY: u16 = 0x0100;
/// NODE STATUS REQUEST: OPCODE 0 (RFC 1002 section 4.2.17).
const STATUS_REQUEST: u16 = 0;
/// NAME REGISTRATION RESPONSE, without its RCODE: OPCODE 5, AA, RD, RA (RFC 1002 sections 4.2.5 and 4.2.6).
const REGISTERED: u16 = 0xAD80;
/// NAME RELEASE RESPONSE, without its RCODE: OPCODE 6, AA (RFC 1002 sections 4.2.10 and 4.2.11).
const RELEASED: u16 = 0xB400;
/// NAME QUERY RESPONSE, without its RCODE: OPCODE 0, AA, RD, RA (RFC 1002 sections 4.2.13 and 4.2.14).
const QUERIED: u16 = 0x8580;
/// TC, in a NAME QUERY RESPONSE that has not all entries (RFC 1002 section 4.2.1.1).
const TRUNCATED: u16 = 0x0200;
/// NODE STATUS RESPONSE: OPCODE 0, AA (RFC 1002 section 4.2.18).
const STATUS: u16 = 0x8400;
/// WAIT FOR ACKNOWLEDGEMENT RESPONSE: OPCODE 7, AA (RFC 1002 section 4.2.16).
const WAIT: u16 = 0xBC00;

/// A pointer to the question's name, which stands after the header (RFC 1002 section 4.2.2).
const QUESTION_NAME: u16 = 0xC00C;
/// RDATA of WAIT FOR ACKNOWLEDGEMENT RESPONSE: the flags of the request that waits (RFC 1002 section 4.2.16).
const WAITS: [u8; 2] = [0x29, 0x00];

/// Leaves in `out` the message's one written form and nothing else (RFC 1002 section 4.2). Refused with `Full` (7) if that
/// form is longer than 576 octets; `out` is then empty. The caller must ensure that the message fits: `Message::fits`
/// tests it.
pub fn encode(message: &Message<'_>, out: &mut ArrayVec<u8, 576>) -> Result<(), Full>
    requires { Fits (message_of message.now) }
    ensures ok { OnOk result (out.new.items ≡ text (message_of message.now)) }
    ensures full { IsErr result ↔ (576 < length (text (message_of message.now))) }
    ensures empty { OnErr result (out.new.items ≡ []) }
    ensures numbers { HoldsNumbers (message_of message.now) }
{
    out.clear();
    match message {
        Message::Registration(r) => put_claim_packet(out, REGISTRATION, r),
        Message::Overwrite(r) => put_claim_packet(out, OVERWRITE, r),
        Message::Refresh(r) => put_claim_packet(out, REFRESH, r),
        Message::Release {
            id,
            name,
            kind,
            addr,
        } => put_release(out, *id, name, *kind, *addr),
        Message::Query { id, name } => put_question_packet(out, *id, QUERY, name, NB),
        Message::StatusRequest { id, name } => put_question_packet(
            out,
            *id,
            STATUS_REQUEST,
            name,
            NBSTAT,
        ),
        Message::Registered {
            rcode,
            registration: r,
        } => {
            let flags = REGISTERED + u16::from(*rcode);
            return put_entry_packet(out, r.id, flags, &r.name, r.ttl, r.kind, r.addr);
        }
        Message::Released {
            id,
            rcode,
            name,
            kind,
            addr,
        } => {
            let flags = RELEASED + u16::from(*rcode);
            return put_entry_packet(out, *id, flags, name, 0, *kind, *addr);
        }
        Message::Found {
            id,
            name,
            ttl,
            entries,
            cut,
        } => return put_answer_packet(out, *id, found_flags(*cut), name, NB, *ttl, entries),
        Message::NotFound { id, rcode, name } => return put_not_found(out, *id, *rcode, name),
        Message::Status { id, name, names } => return put_status(out, *id, name, names),
        Message::Wait { id, name, ttl } => return put_answer_packet(
            out, *id, WAIT, name, NB, *ttl, &WAITS,
        ),
    }
    Ok(())
}

/// Leaves in `out` the message's one written form and nothing else: at most 576 octets, which spell that message (RFC 1002
/// section 4.2.1). The caller must ensure that the message fits, and that its entries or names do.
pub fn write(message: &Message<'_>, out: &mut ArrayVec<u8, 576>)
    requires fits { Fits (message_of message.now) }
    requires row_count { HasFewRows (message_of message.now) }
    ensures { AreWritten (Some (message_of message.now)) out.new.items }
{
    laws::few_rows_are_written();
    laws::written_form_is_read();
    let written = encode(message, out);
    prove!(written.is_ok());
}

/// A request that is its question alone (RFC 1002 sections 4.2.12 and 4.2.17).
fn put_question_packet(
    out: &mut ArrayVec<u8, 576>,
    id: u16,
    flags: u16,
    name: &LentName<'_>,
    rtype: u16,
)
    requires { out.old.items ≡ [] }
    ensures form { out.new.items ≡ question_octets id flags rtype name.now }
    ensures fits { length (question_octets id flags rtype name.now) ≤ 576 }
    ensures name { IsName name.now }
{
    put_header(out, id, flags, 1, 0, 0);
    put_question(out, name, rtype);
}

/// A request with a question, and an additional record whose name is a pointer to the question's (RFC 1002 sections
/// 4.2.2 to 4.2.4 and 4.2.9).
fn put_claim_packet(out: &mut ArrayVec<u8, 576>, flags: u16, r: &Registration<'_>)
    requires { out.old.items ≡ [] }
    ensures form { out.new.items ≡ claim_octets flags r.now }
    ensures fits { length (claim_octets flags r.now) ≤ 576 }
    ensures numbers { IsRegistration r.now }
{
    put_header(out, r.id, flags, 1, 0, 1);
    put_question(out, &r.name, NB);
    put_word(out, QUESTION_NAME);
    put_record_fields(out, NB, r.ttl, ADDR_ENTRY as u16);
    let rdata = entry_octets(r.kind, r.addr);
    out.try_extend_from_slice(&rdata).unwrap();
}

/// A release's claim, whose TTL is 0 (RFC 1002 section 4.2.9).
fn put_release(out: &mut ArrayVec<u8, 576>, id: u16, name: &LentName<'_>, kind: Kind, addr: u32)
    requires { out.old.items ≡ [] }
    ensures form { out.new.items
        ≡ claim_octets 0x3000 (record { id = id; name = name.now; kind = kind; addr = addr; ttl = 0 }) }
    ensures fits { length (claim_octets 0x3000 (record { id = id; name = name.now; kind = kind; addr = addr; ttl = 0 })) ≤ 576 }
    ensures name { IsName name.now }
{
    let claim = Registration {
        id,
        name: name.copy(),
        kind,
        addr,
        ttl: 0,
    };
    put_claim_packet(out, RELEASE, &claim);
}

/// The response to a registration or a release, with one entry (RFC 1002 sections 4.2.5, 4.2.6, 4.2.10 and 4.2.11).
fn put_entry_packet(
    out: &mut ArrayVec<u8, 576>,
    id: u16,
    flags: u16,
    name: &LentName<'_>,
    ttl: u32,
    kind: Kind,
    addr: u32,
) -> Result<(), Full>
    requires { out.old.items ≡ [] }
    ensures ok { OnOk result (out.new.items ≡ answer_octets id flags name.now nb ttl (entry kind addr)) }
    ensures full { IsErr result ↔ (576 < length (answer_octets id flags name.now nb ttl (entry kind addr))) }
    ensures empty { OnErr result (out.new.items ≡ []) }
    ensures name { IsName name.now }
{
    put_answer_packet(out, id, flags, name, NB, ttl, &entry_octets(kind, addr))
}

/// The flags of a positive name query response (RFC 1002 section 4.2.13).
fn found_flags(cut: bool) -> u16
    ensures { result ≡ spec.found_flags cut }
{
    if cut { QUERIED + TRUNCATED } else { QUERIED }
}

/// A negative name query response: with its record, which has no RDATA, or the header alone (RFC 1002 section 4.2.14).
fn put_not_found(
    out: &mut ArrayVec<u8, 576>,
    id: u16,
    rcode: u8,
    name: &Option<LentName<'_>>,
) -> Result<(), Full>
    requires empty { out.old.items ≡ [] }
    requires rcode { rcode ≤ 15 }
    ensures ok { OnOk result (out.new.items ≡ text (not_found id rcode name.now)) }
    ensures full { IsErr result ↔ (576 < length (text (not_found id rcode name.now))) }
    ensures empty { OnErr result (out.new.items ≡ []) }
    ensures name { ForSome name.now IsName }
{
    let flags = QUERIED + u16::from(rcode);
    match name {
        Some(name) => put_answer_packet(out, id, flags, name, NULL, 0, &[]),
        None => {
            put_header(out, id, flags, 0, 0, 0);
            Ok(())
        }
    }
}

/// A node status response: the count of its names, the names, and statistics that are all zero (RFC 1002 section
/// 4.2.18).
fn put_status(
    out: &mut ArrayVec<u8, 576>,
    id: u16,
    name: &LentName<'_>,
    names: &[u8],
) -> Result<(), Full>
    requires empty { out.old.items ≡ [] }
    requires names_octets { length names.now ≤ 18 * 255 }
    ensures ok { OnOk result (out.new.items ≡ text (status id name.now names.now)) }
    ensures full { IsErr result ↔ (576 < length (text (status id name.now names.now))) }
    ensures empty { OnErr result (out.new.items ≡ []) }
    ensures name { IsName name.now }
    ensures octets { AreOctets names.now }
{
    let rdlength = 1 + names.len() + STATISTICS;
    put_answer_head(out, id, STATUS, name, NBSTAT, 0, rdlength as u16);
    if out.remaining_capacity() < rdlength {
        out.clear();
        return Err(Full);
    }
    out.push((names.len() / NODE_NAME) as u8);
    out.try_extend_from_slice(names).unwrap();
    out.try_extend_from_slice(&[0; STATISTICS]).unwrap();
    Ok(())
}

/// A response with one answer. `Full` if it is longer than 576 octets.
fn put_answer_packet(
    out: &mut ArrayVec<u8, 576>,
    id: u16,
    flags: u16,
    name: &LentName<'_>,
    rtype: u16,
    ttl: u32,
    rdata: &[u8],
) -> Result<(), Full>
    requires empty { out.old.items ≡ [] }
    requires rdata_octets { length rdata.now < 65536 }
    ensures ok { OnOk result (out.new.items ≡ answer_octets id flags name.now rtype ttl rdata.now) }
    ensures full { IsErr result ↔ (576 < length (answer_octets id flags name.now rtype ttl rdata.now)) }
    ensures empty { OnErr result (out.new.items ≡ []) }
    ensures name { IsName name.now }
    ensures octets { AreOctets rdata.now }
{
    put_answer_head(out, id, flags, name, rtype, ttl, rdata.len() as u16);
    if out.remaining_capacity() < rdata.len() {
        out.clear();
        return Err(Full);
    }
    out.try_extend_from_slice(rdata).unwrap();
    Ok(())
}

/// A response up to the RDATA of its one answer.
fn put_answer_head(
    out: &mut ArrayVec<u8, 576>,
    id: u16,
    flags: u16,
    name: &LentName<'_>,
    rtype: u16,
    ttl: u32,
    rdlength: u16,
)
    requires { out.old.items ≡ [] }
    ensures form { out.new.items
        ≡ spec.header id flags 0 1 0 ++ (wire name.now ++ (word rtype ++ word internet ++ long ttl ++ word rdlength)) }
    ensures name { IsName name.now }
{
    put_header(out, id, flags, 0, 1, 0);
    name.put_wire(out);
    put_record_fields(out, rtype, ttl, rdlength);
}

/// The six words of the header; NSCOUNT is 0 (RFC 1002 section 4.2.1.1).
fn put_header(
    out: &mut ArrayVec<u8, 576>,
    id: u16,
    flags: u16,
    questions: u16,
    answers: u16,
    additionals: u16,
)
    requires { out.old.items ≡ [] }
    ensures { out.new.items ≡ spec.header id flags questions answers additionals }
{
    put_word(out, id);
    put_word(out, flags);
    put_word(out, questions);
    put_word(out, answers);
    put_word(out, 0);
    put_word(out, additionals);
}

/// A name, a type and the class IN (RFC 1002 section 4.2.1.2).
fn put_question(out: &mut ArrayVec<u8, 576>, asked: &LentName<'_>, rtype: u16)
    requires { length out.old.items ≤ 12 }
    ensures form { out.new.items ≡ out.old.items ++ (wire asked.now ++ word rtype ++ word internet) }
    ensures fits { length (wire asked.now) ≤ 255 }
    ensures name { IsName asked.now }
{
    asked.put_wire(out);
    put_word(out, rtype);
    put_word(out, IN);
}

/// What stands between a record's name and its RDATA: type, the class IN, TTL and RDLENGTH (RFC 1002 section 4.2.1.3).
fn put_record_fields(out: &mut ArrayVec<u8, 576>, rtype: u16, ttl: u32, rdlength: u16)
    requires { length out.old.items ≤ 560 }
    ensures { out.new.items ≡ out.old.items ++ (word rtype ++ word internet ++ long ttl ++ word rdlength) }
{
    put_word(out, rtype);
    put_word(out, IN);
    put_long(out, ttl);
    put_word(out, rdlength);
}

/// The most entries of six octets that fit beside this name in a positive name query response of 576 octets: 49 beside a
/// wire form of 255 octets, 86 beside one of 34, the shortest (RFC 1002 section 4.2.13).
pub fn entries_most(name: &Name) -> usize
    ensures value { result ≡ spec.entries_most name.now }
    ensures bounds { (49 ≤ result) × (result ≤ 86) }
    ensures name { IsName name.now }
{
    let beside = HEADER + RECORD_FIELDS + name.wire_len();
    (DATAGRAM_MOST - beside) / ADDR_ENTRY
}

/// The six octets of a P node's entry: NB_FLAGS, then NB_ADDRESS (RFC 1002 section 4.2.2).
pub fn entry_octets(kind: Kind, addr: u32) -> [u8; 6]
    ensures entry { result ≡ entry kind addr }
    ensures six { length result ≡ 6 }
{
    let mut octets = [0; 6];
    octets[0] = match kind {
        Kind::Unique => NB_FLAGS_P,
        Kind::Group => NB_FLAGS_P + GROUP,
    };
    BigEndian::write_u32(&mut octets[2..], addr);
    octets
}

/// The 18 octets of an active name in a P node's status: the name's sixteen, then NAME_FLAGS (RFC 1002 section 4.2.18).
pub fn status_name_octets(name: &[u8; 16], kind: Kind) -> [u8; 18]
    ensures name { result ≡ status_name name.now kind }
    ensures eighteen { length result ≡ 18 }
{
    let mut octets = [0; 18];
    octets[..16].copy_from_slice(name);
    octets[16] = match kind {
        Kind::Unique => NAME_FLAGS_P_ACTIVE,
        Kind::Group => NAME_FLAGS_P_ACTIVE + GROUP,
    };
    octets
}
