//! Packets of sessions, and streams of them in one piece and cut (RFC 1002 section 4.3), whole and in parts.

ghost use Rattle.std.specs.Prelude.{◌≤◌, length, IfOk};

use super::expect::{expect, expect_eq, expect_eq_in, expect_in};
use super::{FRED, TEAM, fred, name_of, patched};
use nbt_name::{Addr, Name};
use nbt_session::{
    EncodeFault, Fault, FaultKind, Packet, Part, Pieces, Stream, StreamFault, encode, laws,
};
use std::process::Abort;

pub(super) const SECOND: Addr = Addr {
    ip: 0x7F00_0003,
    port: 139,
};

const KEEP_ALIVE: &[u8] = b"\x85\x00\x00\x00";

/// The request that calls FRED, by TEAM.
const REQUEST: &[u8] =
    b"\x81\x00\x00\x44 EGFCEFEECACACACACACACACACACACACA\x00 FEEFEBENCACACACACACACACACACACACA\x00";

/// The same with one octet more.
const LONGER: &[u8] =
    b"\x81\x00\x00\x45 EGFCEFEECACACACACACACACACACACACA\x00 FEEFEBENCACACACACACACACACACACACA\x00\x00";

/// A packet, with the sixteen octets of its names.
#[derive(Clone, Copy)]
pub(super) enum Said<'a> {
    Message(&'a [u8]),
    Request(&'a [u8; 16], &'a [u8; 16]),
    Positive,
    Negative(u8),
    Retarget(Addr),
    KeepAlive,
}

/// The packet that is said.
pub(super) fn packet<A: Abort + AllocGlobal>(rt: &A, said: Said<'_>) -> Packet {
    match said {
        Said::Message(octets) => Packet::Message(Vec::from_slice(rt.alloc(), octets).expect(
            rt, "memory",
        )),
        Said::Request(called, calling) => Packet::Request {
            called: name_of(rt, called),
            calling: name_of(rt, calling),
        },
        Said::Positive => Packet::Positive,
        Said::Negative(code) => Packet::Negative(code),
        Said::Retarget(to) => Packet::Retarget(to),
        Said::KeepAlive => Packet::KeepAlive,
    }
}

/// Packets and their texts.
const TEXTS: [(Said<'static>, &[u8]); 8] = [
    (Said::KeepAlive, KEEP_ALIVE),
    (Said::Negative(0x82), b"\x83\x00\x00\x01\x82"),
    (Said::Request(FRED, TEAM), REQUEST),
    (Said::Message(b""), b"\x00\x00\x00\x00"),
    (Said::Message(b"hello"), b"\x00\x00\x00\x05hello"),
    (
        Said::Retarget(SECOND),
        b"\x84\x00\x00\x06\x7F\x00\x00\x03\x00\x8B",
    ),
    (Said::Positive, b"\x82\x00\x00\x00"),
    (Said::Message(b"hi"), b"\x00\x00\x00\x02hi"),
];

/// The packet is written as its text, behind what stands there, and is read from it.
fn written_and_read<R: Abort + AllocGlobal>(
    rt: &R,
    packet: Packet,
    text: &[u8],
    octets: &mut Vec<u8>,
    stream: &mut Stream,
) {
    octets.push(0xFF).expect(rt, "memory");
    encode(&packet, octets).expect(rt, "encoded");
    expect_eq_in(rt, &text, &octets[0], &0xFF);
    expect_eq_in(rt, &text, &&octets[1..], &text);
    let taken = stream.take(&octets[1..]);
    expect_in(rt, &text, taken == Ok((text.len(), Some(packet))));
}

#[test]
fn packets_are_their_texts(rt: HostRuntime) {
    laws::text_is_read();
    for (said, text) in &TEXTS {
        let packet = packet(&rt, *said);
        let mut octets = Vec::new(rt.alloc());
        let mut stream = Stream::new(rt.alloc());
        written_and_read(&rt, packet, *text, &mut octets, &mut stream);
    }
}

/// Gives a new stream the octets in pieces of a size: the packets of the table come in order, and then as many octets as are said.
fn play_cut<R: Abort + AllocGlobal>(
    rt: &R,
    stream: &mut Stream,
    octets: &[u8],
    size: usize,
    more: usize,
) {
    let mut came = 0usize;
    let mut held = 0usize;
    for piece in octets.chunks(size.max(1)) {
        let mut rest = piece;
        for _ in 0..16 {
            let (taken, answer) = stream.take(rest).expect(rt, "take");
            rest = &rest[taken..];
            held = held.saturating_add(taken);
            let Some(answer) = answer else { break };
            let (said, text) = TEXTS.get(came).expect(rt, "a packet more");
            expect_in(rt, &(*text, size), answer == packet(rt, *said));
            came = came.saturating_add(1);
            held = 0;
        }
    }
    expect_eq_in(rt, &size, &came, &TEXTS.len());
    expect_eq_in(rt, &size, &held, &more);
}

#[test]
fn a_stream_cut_anywhere(rt: HostRuntime) {
    laws::one_stream();
    laws::cutting_changes_nothing();
    let mut octets = Vec::new(rt.alloc());
    for (_, text) in &TEXTS {
        octets.extend_from_slice(*text).expect(&rt, "memory");
    }
    octets
        .extend_from_slice(b"\x00\x01\x00\x00rest")
        .expect(&rt, "memory");
    for size in &[1, 2, 3, 5, 7, 64, 200] {
        let mut stream = Stream::new(rt.alloc());
        play_cut(&rt, &mut stream, &octets, *size, 8);
    }
}

/// The packet's text comes in two parts.
fn cut_at<R: Abort + AllocGlobal>(
    rt: &R,
    stream: &mut Stream,
    said: Said<'_>,
    cut: &[u8],
    rest: &[u8],
) {
    let wanted = Ok((rest.len(), Some(packet(rt, said))));
    expect_in(rt, &(cut, rest), stream.take(cut) == Ok((cut.len(), None)));
    expect_in(rt, &(cut, rest), stream.take(rest) == wanted);
}

/// A packet of each kind that is cut short is no packet yet, and all that came of it is held: with the rest it is the packet.
#[test]
fn session_packets_cut_at_every_length(rt: HostRuntime) {
    for (said, text) in &TEXTS {
        for place in 0..text.len() {
            let (cut, rest) = text.split_at(place);
            let mut stream = Stream::new(rt.alloc());
            cut_at(&rt, &mut stream, *said, cut, rest);
        }
    }
}

/// Octets, what stands at some of their places instead, and the fault that their last octet shows.
type Fails = (&'static [u8], &'static [(usize, u8)], FaultKind, usize);

const FAULTS: [Fails; 17] = [
    (b"\x86", &[], FaultKind::BadType, 0),
    (b"\x80", &[], FaultKind::BadType, 0),
    (b"\x01", &[], FaultKind::BadType, 0),
    (b"\x00\x02", &[], FaultKind::BadFlags, 1),
    (b"\x85\x80", &[], FaultKind::BadFlags, 1),
    (b"\x83\x00\x00\x02", &[], FaultKind::BadLength, 2),
    (b"\x85\x01\x00\x00", &[], FaultKind::BadLength, 2),
    (b"\x82\x00\x00\x01", &[], FaultKind::BadLength, 2),
    (b"\x84\x00\x00\x05", &[], FaultKind::BadLength, 2),
    (b"\x81\x00\x00\x43", &[], FaultKind::BadLength, 2),
    (b"\x81\x00\x01\xFF", &[], FaultKind::BadLength, 2),
    // Both names end before the length does; and one ends after it.
    (LONGER, &[], FaultKind::BadLength, 2),
    (REQUEST, &[(71, 0x01)], FaultKind::BadLength, 2),
    // The count of a label, a half octet, a pointer, and a count again.
    (REQUEST, &[(4, 0x21)], FaultKind::BadName, 4),
    (REQUEST, &[(5, 0x51)], FaultKind::BadName, 5),
    (REQUEST, &[(38, 0xC0)], FaultKind::BadName, 38),
    (REQUEST, &[(39, 0x40)], FaultKind::BadName, 39),
];

/// The fault comes of each piece.
fn see_in_stream(rt: &impl Abort, stream: &mut Stream, pieces: &[&[u8]], fault: StreamFault) {
    for piece in pieces {
        expect_eq(rt, &stream.take(*piece), &Err(fault));
    }
}

/// Gives the octets whole, and all but the last before it: the fault comes, and then for ever.
fn see_fault<R: Abort + AllocGlobal>(rt: &R, octets: &[u8], fault: StreamFault) {
    let last = octets.len().max(1) - 1;
    let whole = [octets, b"", KEEP_ALIVE];
    see_in_stream(rt, &mut Stream::new(rt.alloc()), &whole, fault);
    let mut stream = Stream::new(rt.alloc());
    expect_eq(rt, &stream.take(&octets[..last]), &Ok((last, None)));
    let rest = [&octets[last..], KEEP_ALIVE, b""];
    see_in_stream(rt, &mut stream, &rest, fault);
}

/// So it is of a stream in parts.
fn see_in_parts(rt: &impl Abort, parts: &mut Pieces, pieces: &[&[u8]], fault: StreamFault) {
    for piece in pieces {
        expect_eq(rt, &parts.take(*piece), &Err(fault));
    }
}

/// The same of a stream in parts, which is given all but the last octet by octet.
fn see_fault_in_parts(rt: &impl Abort, octets: &[u8], fault: StreamFault) {
    let last = octets.len().max(1) - 1;
    let whole = [octets, b"", KEEP_ALIVE];
    see_in_parts(rt, &mut Pieces::new(), &whole, fault);
    let mut parts = Pieces::new();
    for octet in &octets[..last] {
        expect_eq(rt, &parts.take(&[*octet]), &Ok((1, None)));
    }
    let rest = [&octets[last..], KEEP_ALIVE, b""];
    see_in_parts(rt, &mut parts, &rest, fault);
}

#[test]
fn faults_where_they_are_seen(rt: HostRuntime) {
    laws::one_fault();
    for (octets, patches, kind, place) in &FAULTS {
        let octets = patched(&rt, *octets, *patches);
        let fault = StreamFault::Malformed(Fault {
            kind: *kind,
            place: *place,
        });
        see_fault(&rt, &octets, fault);
        see_fault_in_parts(&rt, &octets, fault);
    }
}

const NUMBERS: [(FaultKind, u8, &str); 4] = [
    (FaultKind::BadType, 1, "BadType"),
    (FaultKind::BadFlags, 2, "BadFlags"),
    (FaultKind::BadLength, 3, "BadLength"),
    (FaultKind::BadName, 4, "BadName"),
];

#[test]
fn numbers_and_words_of_faults(rt: HostRuntime) {
    for (kind, number, word) in &NUMBERS {
        expect_eq(&rt, &kind.number(), &*number);
        expect_eq(&rt, &kind.word(), &*word);
        let fault = StreamFault::Malformed(Fault {
            kind: *kind,
            place: 0,
        });
        expect_eq(&rt, &fault.number(), &*number);
    }
    expect_eq(&rt, &StreamFault::OutOfMemory.number(), &5);
    expect_eq(&rt, &EncodeFault::TooLong.number(), &1);
    expect_eq(&rt, &EncodeFault::OutOfMemory.number(), &2);
}

/// What comes of a call: a part, or none.
#[derive(Clone, Copy)]
enum Comes<'a> {
    Start(usize),
    Data(&'a [u8]),
    End,
    Other(Said<'a>),
    Nothing,
}

/// Octets that a new stream is given, and after each call those that it left: what each takes, and what comes of it.
type Parts = (&'static [u8], &'static [(usize, Comes<'static>)]);

const PARTS: [Parts; 3] = [
    (
        b"\x00\x00\x00\x02hi\x85\x00\x00\x00",
        &[
            (4, Comes::Start(2)),
            (2, Comes::Data(b"hi")),
            (0, Comes::End),
            (4, Comes::Other(Said::KeepAlive)),
            (0, Comes::Nothing),
        ],
    ),
    (
        b"\x00\x00\x00\x00\x00\x00\x00\x01",
        &[
            (4, Comes::Start(0)),
            (0, Comes::End),
            (4, Comes::Start(1)),
            (0, Comes::Nothing),
            (0, Comes::Nothing),
        ],
    ),
    (
        REQUEST,
        &[
            (72, Comes::Other(Said::Request(FRED, TEAM))),
            (0, Comes::Nothing),
        ],
    ),
];

fn part<'a, A: Abort + AllocGlobal>(rt: &A, comes: Comes<'a>) -> Option<Part<'a>> {
    match comes {
        Comes::Start(size) => Some(Part::MessageStart(size)),
        Comes::Data(octets) => Some(Part::MessageData(octets)),
        Comes::End => Some(Part::MessageEnd),
        Comes::Other(said) => Some(Part::Other(packet(rt, said))),
        Comes::Nothing => None,
    }
}

/// What comes of a call, and how many octets it takes.
fn expect_part(
    rt: &impl Abort,
    pieces: &mut Pieces,
    rest: &[u8],
    count: usize,
    wanted: &Option<Part<'_>>,
) -> usize
    ensures { result ≤ length rest.now }
{
    let (taken, returned) = pieces.take(rest).expect(rt, "take");
    expect_eq_in(rt, &rest, &taken, &count);
    expect_in(rt, &rest, returned == *wanted);
    taken
}

/// What comes of the calls, one after the other.
fn expect_parts<R: Abort + AllocGlobal>(
    rt: &R,
    pieces: &mut Pieces,
    octets: &[u8],
    calls: &[(usize, Comes<'static>)],
) {
    let mut rest = octets;
    for (count, comes) in calls {
        let wanted = part(rt, *comes);
        let taken = expect_part(rt, pieces, rest, *count, &wanted);
        rest = &rest[taken..];
    }
}

#[test]
fn parts_in_one_piece(rt: HostRuntime) {
    laws::parts_are_the_stream();
    for (octets, calls) in &PARTS {
        expect_parts(&rt, &mut Pieces::new(), *octets, *calls);
    }
}

/// The longest message: its header, and 131,071 octets.
fn longest_message<A: Abort + AllocGlobal>(rt: &A) -> Vec<u8> {
    let mut octets = Vec::from_slice(rt.alloc(), b"\x00\x01\xFF\xFF").expect(rt, "memory");
    for place in 0..131_071usize {
        octets.push((place % 251) as u8).expect(rt, "memory");
    }
    octets
}

/// The stream is given each of these octets, and no packet comes of them.
fn take_each(rt: &impl Abort, stream: &mut Stream, octets: &[u8]) {
    for octet in octets {
        let (taken, packet) = stream.take(&[*octet]).expect(rt, "take");
        expect_eq(rt, &taken, &1);
        expect(rt, packet.is_none());
    }
}

/// With the last octet of a message it comes, and what stands behind it is not taken.
fn take_last(rt: &impl Abort, stream: &mut Stream, piece: &[u8], message: &[u8]) {
    let (taken, packet) = stream.take(piece).expect(rt, "take");
    expect_eq(rt, &taken, &1);
    let Some(Packet::Message(octets)) = packet else {
        panic!(rt; "no message");
    };
    expect(rt, octets.as_slice() == message);
}

fn take_all(rt: &impl Abort, stream: &mut Stream, sent: &[u8]) {
    expect(rt, sent.len() == 131_075);
    let last = sent.len().max(1) - 1;
    take_each(rt, stream, &sent[..last]);
    take_last(rt, stream, &[sent[last], b'!'], &sent[4..])
}

#[test]
fn the_longest_message_octet_by_octet(rt: HostRuntime) {
    let sent = longest_message(&rt);
    take_all(&rt, &mut Stream::new(rt.alloc()), sent.as_slice())
}

/// A piece of a message comes: its octets are put behind those that came, and its other parts behind the others. How many parts of
/// data come.
fn take_piece<'a>(
    rt: &impl Abort,
    pieces: &mut Pieces,
    piece: &'a [u8],
    came: &mut Vec<u8>,
    others: &mut Vec<Part<'a>>,
) -> usize {
    let mut rest = piece;
    let mut parts = 0usize;
    for _ in 0..4 {
        let (taken, part) = pieces.take(rest).expect(rt, "take");
        rest = &rest[taken..];
        match part {
            None => break,
            Some(Part::MessageData(lent)) => {
                expect(rt, !lent.is_empty());
                came.extend_from_slice(lent).expect(rt, "memory");
                parts = parts.saturating_add(1);
            }
            Some(other) => {
                expect_eq(rt, &came.len(), &(131_071 * others.len().min(1)));
                others.push(other).expect(rt, "memory");
            }
        }
    }
    expect_eq(rt, &rest.len(), &0);
    parts
}

/// The longest message, cut into pieces of a size: so many parts of data come, which are its octets in order.
fn take_pieces<'a>(
    rt: &impl Abort,
    octets: &'a [u8],
    size: usize,
    wanted: usize,
    came: &mut Vec<u8>,
    others: &mut Vec<Part<'a>>,
) {
    let mut pieces = Pieces::new();
    let mut parts = 0usize;
    for piece in octets.chunks(size.max(1)) {
        let more = take_piece(rt, &mut pieces, piece, came, others);
        parts = parts.saturating_add(more);
    }
    expect(rt, octets.len() == 131_075);
    expect(rt, came.as_slice() == &octets[4..]);
    expect(rt, others.len() == 2);
    expect(rt, others[0] == Part::MessageStart(131_071));
    expect(rt, others[1] == Part::MessageEnd);
    expect_eq_in(rt, &size, &parts, &wanted);
}

#[test]
fn the_longest_message_in_pieces(rt: HostRuntime) {
    let octets = longest_message(&rt);
    for (size, parts) in &[(1, 131_071), (1_460, 90), (131_075, 1)] {
        let mut came = Vec::new(rt.alloc());
        let mut others = Vec::new(rt.alloc());
        take_pieces(
            &rt,
            octets.as_slice(),
            *size,
            *parts,
            &mut came,
            &mut others,
        );
    }
}

/// A name whose wire form has 255 octets: its scope has three labels of 63 octets and one of 28.
fn longest(rt: &impl Abort) -> Name {
    let mut scope = [b'A'; 221];
    scope[0] = 63;
    scope[64] = 63;
    scope[128] = 63;
    scope[192] = 28;
    fred(rt, &scope)
}

/// A request is written, and a stream in parts is given it octet by octet: it comes with the last one.
fn take_request(rt: &impl Abort, request: Packet, octets: &mut Vec<u8>, pieces: &mut Pieces) {
    encode(&request, octets).expect(rt, "encoded");
    expect_eq(rt, &octets.len(), &514);
    let last = octets.len().max(1) - 1;
    for octet in &octets[..last] {
        expect_eq(rt, &pieces.take(&[*octet]), &Ok((1, None)));
    }
    let taken = pieces.take(&octets[last..]);
    expect(rt, taken == Ok((1, Some(Part::Other(request)))));
}

#[test]
fn the_longest_request_octet_by_octet(rt: HostRuntime) {
    let request = Packet::Request {
        called: longest(&rt),
        calling: longest(&rt),
    };
    let mut octets = Vec::new(rt.alloc());
    take_request(&rt, request, &mut octets, &mut Pieces::new())
}

/// A message of as many octets `x` is written behind what stands there.
fn write_message<A: Abort + AllocGlobal>(
    rt: &A,
    count: usize,
    out: &mut Vec<u8>,
) -> Result<(), EncodeFault> {
    let mut octets = Vec::new(rt.alloc());
    octets.resize(count, b'x').expect(rt, "memory");
    encode(&Packet::Message(octets), out)
}

#[test]
fn a_message_of_131072_octets_is_too_long(rt: HostRuntime) {
    let mut out = Vec::new(rt.alloc());
    let written = write_message(&rt, 131_071, &mut out);
    expect_eq(&rt, &written, &Ok(()));
    expect(&rt, out.len() == 131_075);
    expect_eq(&rt, &&out[..5], &b"\x00\x01\xFF\xFFx".as_slice());
    out.truncate(2);
    let refused = write_message(&rt, 131_072, &mut out);
    expect_eq(&rt, &refused, &Err(EncodeFault::TooLong));
    expect_eq(&rt, &out.as_slice(), &b"\x00\x01".as_slice());
}

/// What `take` returns, called again where memory was refused.
fn take(stream: &mut Stream, piece: &[u8]) -> Result<(usize, Option<Packet>), StreamFault>
    ensures { IfOk result (λ t. t.0 ≤ length piece.now) }
{
    let mut answer = stream.take(piece);
    if let Err(StreamFault::OutOfMemory) = &answer {
        answer = stream.take(piece);
    }
    answer
}

/// What a stream makes of pieces, one after the other: how many octets each takes, and the packet.
const MEMORY: [(&[u8], usize, Said<'static>); 3] = [
    (b"\x85\x00\x00\x00\x00\x00\x00\x02hi", 4, Said::KeepAlive),
    (b"\x00\x00\x00\x02hi", 6, Said::Message(b"hi")),
    (REQUEST, 72, Said::Request(FRED, TEAM)),
];

/// The octets from 0 to 254 come one by one, of a message of 256 octets.
fn take_255(rt: &impl Abort, stream: &mut Stream) {
    expect(rt, take(stream, b"\x00\x00\x01\x00") == Ok((4, None)));
    for place in 0..255u8 {
        expect(rt, take(stream, &[place]) == Ok((1, None)));
    }
}

/// The octets from 0 to 255.
fn all_octets<R: Abort + AllocGlobal>(rt: &R) -> Vec<u8> {
    let mut sent = Vec::new(rt.alloc());
    for place in 0..=255u8 {
        sent.push(place).expect(rt, "memory");
    }
    sent
}

/// What the stream makes of a piece.
fn take_so(
    rt: &impl Abort,
    stream: &mut Stream,
    piece: &[u8],
    taken: usize,
    packet: Option<Packet>,
) {
    expect_in(rt, &piece, take(stream, piece) == Ok((taken, packet)));
}

/// The stream takes a message octet by octet, and then the pieces.
fn take_growing<R: Abort + AllocGlobal>(rt: &R, stream: &mut Stream) {
    let message = Packet::Message(all_octets(rt));
    take_255(rt, stream);
    take_so(rt, stream, b"\xFF\x85\x00\x00\x00", 1, Some(message));
    for (piece, taken, said) in &MEMORY {
        let wanted = packet(rt, *said);
        take_so(rt, stream, *piece, *taken, Some(wanted));
    }
}

/// With `rt try --test --fail-alloc N` the Nth allocation is refused. Where it is one of the stream's, nothing is
/// taken, and the same call with memory returns what it would have.
#[test]
fn refused_memory_leaves_the_stream(rt: HostRuntime) {
    laws::one_answer();
    take_growing(&rt, &mut Stream::new(rt.alloc()))
}

/// One packet more is written, the second time if memory was refused: then the octets are as before.
fn write_one_more(rt: &impl Abort, octets: &mut Vec<u8>) {
    let before = octets.len();
    let mut written = encode(&Packet::Retarget(SECOND), octets);
    if written == Err(EncodeFault::OutOfMemory) {
        expect_eq(rt, &octets.len(), &before);
        written = encode(&Packet::Retarget(SECOND), octets);
    }
    expect_eq(rt, &written, &Ok(()));
    let last = octets.len().max(10) - 10;
    expect_eq(rt, &last, &before);
    expect_eq(
        rt,
        &&octets[last..],
        &b"\x84\x00\x00\x06\x7F\x00\x00\x03\x00\x8B".as_slice(),
    );
}

/// The same for what is written: the octets are as before.
#[test]
fn refused_memory_leaves_the_octets(rt: HostRuntime) {
    let mut octets: Vec<u8> = Vec::new(rt.alloc());
    for count in 0..200 {
        write_one_more(&rt, &mut octets);
        expect_eq(&rt, &octets.len(), &(10 * (count + 1)));
    }
}
