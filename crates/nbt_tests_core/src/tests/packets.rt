//! Packets and messages from outside: the vectors of our profile over RFC 1002's layouts.

use super::expect::{expect, expect_eq, expect_eq_in, expect_in};
use super::{FRED, STAR, TEAM, fred, name_of, patched};
use arrayvec::ArrayVec;
use nbt_name::{Kind, Name, NameFaultKind, read_in};
use nbt_packet::laws::{
    few_rows_are_written, one_message, one_message_spelled, one_packet_or_fault,
    spelled_message_fits, written_form_is_read, written_length,
};
use nbt_packet::{
    Fault, FaultKind, Full, Message, Registration, classify, decode, encode, entries_most,
    entry_octets, read, status_name_octets,
};
use std::process::Abort;

/// The registration of FRED with id 1, by 127.0.0.2 for 60 seconds.
const REGISTRATION: &[u8] =
    b"\x00\x01\x29\x00\x00\x01\x00\x00\x00\x00\x00\x01 EGFCEFEECACACACACACACACACACACACA\x00\x00\x20\x00\x01\xC0\x0C\x00\x20\x00\x01\x00\x00\x00\x3C\x00\x06\x20\x00\x7F\x00\x00\x02";

/// Its positive reply.
const REGISTERED: &[u8] =
    b"\x00\x01\xAD\x80\x00\x00\x00\x01\x00\x00\x00\x00 EGFCEFEECACACACACACACACACACACACA\x00\x00\x20\x00\x01\x00\x00\x00\x3C\x00\x06\x20\x00\x7F\x00\x00\x02";

/// Its refresh, and its release: another opcode, and for the release no TTL.
const REFRESH: &[u8] =
    b"\x00\x01\x40\x00\x00\x01\x00\x00\x00\x00\x00\x01 EGFCEFEECACACACACACACACACACACACA\x00\x00\x20\x00\x01\xC0\x0C\x00\x20\x00\x01\x00\x00\x00\x3C\x00\x06\x20\x00\x7F\x00\x00\x02";

const RELEASE: &[u8] =
    b"\x00\x01\x30\x00\x00\x01\x00\x00\x00\x00\x00\x01 EGFCEFEECACACACACACACACACACACACA\x00\x00\x20\x00\x01\xC0\x0C\x00\x20\x00\x01\x00\x00\x00\x00\x00\x06\x20\x00\x7F\x00\x00\x02";

/// The positive reply to the release.
const RELEASED: &[u8] =
    b"\x00\x01\xB4\x00\x00\x00\x00\x01\x00\x00\x00\x00 EGFCEFEECACACACACACACACACACACACA\x00\x00\x20\x00\x01\x00\x00\x00\x00\x00\x06\x20\x00\x7F\x00\x00\x02";

/// The status request for `*` with id 9.
const STATUS_REQUEST: &[u8] =
    b"\x00\x09\x00\x00\x00\x01\x00\x00\x00\x00\x00\x00 CKAAAAAAAAAAAAAAAAAAAAAAAAAAAAAA\x00\x00\x21\x00\x01";

/// The query of FRED with id 7, and the reply that the group TEAM has two members.
const QUERY: &[u8] =
    b"\x00\x07\x01\x00\x00\x01\x00\x00\x00\x00\x00\x00 EGFCEFEECACACACACACACACACACACACA\x00\x00\x20\x00\x01";

const FOUND: &[u8] =
    b"\x00\x07\x85\x80\x00\x00\x00\x01\x00\x00\x00\x00 FEEFEBENCACACACACACACACACACACACA\x00\x00\x20\x00\x01\x00\x00\x00\x3C\x00\x0C\xA0\x00\x7F\x00\x00\x02\xA0\x00\x7F\x00\x00\x03";

/// The negative response to a query of FRED with id 8, with its record and without.
const NOT_FOUND: &[u8] =
    b"\x00\x08\x85\x83\x00\x00\x00\x01\x00\x00\x00\x00 EGFCEFEECACACACACACACACACACACACA\x00\x00\x0A\x00\x01\x00\x00\x00\x00\x00\x00";

const NOT_FOUND_BARE: &[u8] = b"\x00\x08\x85\x83\x00\x00\x00\x00\x00\x00\x00\x00";

/// The status of a node that holds FRED alone, asked for by `*` with id 9: after the one name 46 octets of zeros.
const STATUS: &[u8] =
    b"\x00\x09\x84\x00\x00\x00\x00\x01\x00\x00\x00\x00 CKAAAAAAAAAAAAAAAAAAAAAAAAAAAAAA\x00\x00\x21\x00\x01\x00\x00\x00\x00\x00\x41\x01FRED            \x24\x00\x00\x00\x00\x00\x00\x00\x00\x00\x00\x00\x00\x00\x00\x00\x00\x00\x00\x00\x00\x00\x00\x00\x00\x00\x00\x00\x00\x00\x00\x00\x00\x00\x00\x00\x00\x00\x00\x00\x00\x00\x00\x00\x00\x00\x00\x00";

/// A wait of 5 seconds for FRED with id 9.
const WAIT: &[u8] =
    b"\x00\x09\xBC\x00\x00\x00\x00\x01\x00\x00\x00\x00 EGFCEFEECACACACACACACACACACACACA\x00\x00\x20\x00\x01\x00\x00\x00\x05\x00\x02\x29\x00";

/// What a message says beside its id and its name. Who registers is 127.0.0.2, for 60 s.
#[derive(Clone, Copy)]
enum Says<'a> {
    Registration(Kind),
    Overwrite(Kind),
    Refresh(Kind),
    Release(Kind),
    Query,
    StatusRequest,
    Registered(u8, Kind),
    Released(u8, Kind),
    Found(u32, &'a [u8], bool),
    NotFound(u8),
    NotFoundBare(u8),
    Status(&'a [u8]),
    Wait(u32),
}

fn registration(id: u16, name: &Name, kind: Kind) -> Registration<'_> {
    Registration {
        id,
        name: name.lend(),
        kind,
        addr: 0x7F000002,
        ttl: 60,
    }
}

fn message<'a>(id: u16, name: &'a Name, says: Says<'a>) -> Message<'a> {
    match says {
        Says::Registration(kind) => Message::Registration(registration(id, name, kind)),
        Says::Overwrite(kind) => Message::Overwrite(registration(id, name, kind)),
        Says::Refresh(kind) => Message::Refresh(registration(id, name, kind)),
        Says::Release(kind) => Message::Release {
            id,
            name: name.lend(),
            kind,
            addr: 0x7F000002,
        },
        Says::Query => Message::Query {
            id,
            name: name.lend(),
        },
        Says::StatusRequest => Message::StatusRequest {
            id,
            name: name.lend(),
        },
        Says::Registered(rcode, kind) => Message::Registered {
            rcode,
            registration: registration(id, name, kind),
        },
        Says::Released(rcode, kind) => Message::Released {
            id,
            rcode,
            name: name.lend(),
            kind,
            addr: 0x7F000002,
        },
        Says::Found(ttl, entries, cut) => Message::Found {
            id,
            name: name.lend(),
            ttl,
            entries,
            cut,
        },
        Says::NotFound(rcode) => Message::NotFound {
            id,
            rcode,
            name: Some(name.lend()),
        },
        Says::NotFoundBare(rcode) => Message::NotFound {
            id,
            rcode,
            name: None,
        },
        Says::Status(names) => Message::Status {
            id,
            name: name.lend(),
            names,
        },
        Says::Wait(ttl) => Message::Wait {
            id,
            name: name.lend(),
            ttl,
        },
    }
}

/// A message, its id and its name; and the octets that it is written as, with others at some places.
type Written = (
    u16,
    &'static [u8; 16],
    Says<'static>,
    &'static [u8],
    &'static [(usize, u8)],
);

/// The entries of 127.0.0.2 and 127.0.0.3 in a group.
const TEAM_ENTRIES: &[u8] = b"\xA0\x00\x7F\x00\x00\x02\xA0\x00\x7F\x00\x00\x03";

const WRITTEN: &[Written] = &[
    (1, FRED, Says::Registration(Kind::Unique), REGISTRATION, &[]),
    (
        1,
        FRED,
        Says::Overwrite(Kind::Unique),
        REGISTRATION,
        &[(2, 0x28)],
    ),
    (
        1,
        FRED,
        Says::Refresh(Kind::Unique),
        REGISTRATION,
        &[(2, 0x40)],
    ),
    (
        1,
        FRED,
        Says::Release(Kind::Group),
        REGISTRATION,
        &[(2, 0x30), (59, 0), (62, 0xA0)],
    ),
    (7, FRED, Says::Query, QUERY, &[]),
    (7, FRED, Says::StatusRequest, QUERY, &[(2, 0), (47, 0x21)]),
    (1, FRED, Says::Registered(0, Kind::Unique), REGISTERED, &[]),
    (
        1,
        FRED,
        Says::Released(6, Kind::Unique),
        REGISTERED,
        &[(2, 0xB4), (3, 0x06), (53, 0)],
    ),
    (7, TEAM, Says::Found(60, TEAM_ENTRIES, false), FOUND, &[]),
    // TC: there are more.
    (
        7,
        TEAM,
        Says::Found(60, TEAM_ENTRIES, true),
        FOUND,
        &[(2, 0x87)],
    ),
    (8, FRED, Says::NotFound(3), NOT_FOUND, &[]),
    (8, FRED, Says::NotFoundBare(3), NOT_FOUND_BARE, &[]),
    (
        9,
        STAR,
        Says::Status(b"FRED            \x24\x00"),
        STATUS,
        &[],
    ),
    (9, FRED, Says::Wait(5), WAIT, &[]),
];

/// The message is written as these octets.
fn written(rt: &impl Abort, message: &Message<'_>, octets: &[u8]) {
    let mut out = ArrayVec::new();
    expect(rt, message.fits());
    encode(message, &mut out).expect(rt, "encoded");
    expect_in(rt, &octets, out.as_slice() == octets);
}

/// The message is written as these octets, and what is read from them is written so again.
fn written_and_read(rt: &impl Abort, message: &Message<'_>, octets: &[u8]) {
    written(rt, message, octets);
    let (_, length) = decode(octets).expect(rt, "decoded");
    expect_eq(rt, &length, &octets.len());
    let read = read(octets).expect(rt, "a message");
    written(rt, &read, octets)
}

#[test]
fn messages_are_written_and_read(rt: HostRuntime) {
    written_form_is_read();
    for (id, name, says, octets, patches) in WRITTEN {
        let octets = patched(&rt, octets, patches);
        let name = name_of(&rt, name);
        let message = message(*id, &name, *says);
        written_and_read(&rt, &message, &octets);
    }
}

#[test]
fn registration_of_fred(rt: HostRuntime) {
    let fred = fred(&rt, b"");
    let (packet, length) = decode(REGISTRATION).expect(&rt, "decoded");
    expect_eq(&rt, &length, &68);
    let Some(Message::Registration(read)) = classify(&packet) else {
        panic!(&rt; "no registration");
    };
    expect_eq(&rt, &read.id, &1);
    expect(&rt, read.name.is(&fred));
    expect_eq(&rt, &read.kind, &Kind::Unique);
    expect_eq(&rt, &read.addr, &0x7F000002);
    expect_eq(&rt, &read.ttl, &60);
}

/// A query whose name is FRED's first label, and then a pointer to that label again, and so on.
const ROUND_AND_ROUND: &[u8] =
    b"\x00\x01\x01\x00\x00\x01\x00\x00\x00\x00\x00\x00 EGFCEFEECACACACACACACACACACACACA\xC0\x0C\x00\x20\x00\x01";

/// Octets, with others at some places; the first fault, and its place.
type Fails = (&'static [u8], &'static [(usize, u8)], FaultKind, usize);

const FAULTS: &[Fails] = &[
    (b"", &[], FaultKind::Name(NameFaultKind::Short), 0),
    (b"\x00\x01\x01\x00\x00\x02", &[], FaultKind::TooMany, 4),
    // A pointer to itself.
    (
        QUERY,
        &[(12, 0xC0), (13, 0x0C)],
        FaultKind::Name(NameFaultKind::BadPointer),
        12,
    ),
    (
        ROUND_AND_ROUND,
        &[],
        FaultKind::Name(NameFaultKind::Long),
        12,
    ),
    (
        REGISTRATION,
        &[(12, 0x21)],
        FaultKind::Name(NameFaultKind::BadLabel),
        12,
    ),
    (
        REGISTRATION,
        &[(13, 0x51)],
        FaultKind::Name(NameFaultKind::BadHalf),
        13,
    ),
    (REGISTRATION, &[(7, 2)], FaultKind::TooMany, 6),
    (REGISTRATION, &[(9, 1)], FaultKind::TooMany, 8),
    (REGISTRATION, &[(11, 2)], FaultKind::TooMany, 10),
];

#[test]
fn faults_and_their_places(rt: HostRuntime) {
    one_packet_or_fault();
    for (octets, patches, kind, place) in FAULTS {
        let octets = patched(&rt, octets, patches);
        let fault = Fault {
            kind: *kind,
            place: *place,
        };
        expect_eq_in(&rt, &patches, &decode(&octets).err(), &Some(fault));
    }
}

const WORDS: [(FaultKind, u8, &str); 6] = [
    (FaultKind::Name(NameFaultKind::Short), 1, "Short"),
    (FaultKind::Name(NameFaultKind::BadLabel), 2, "BadLabel"),
    (FaultKind::Name(NameFaultKind::BadHalf), 3, "BadHalf"),
    (FaultKind::Name(NameFaultKind::BadPointer), 4, "BadPointer"),
    (FaultKind::Name(NameFaultKind::Long), 5, "Long"),
    (FaultKind::TooMany, 6, "TooMany"),
];

#[test]
fn numbers_and_words_of_a_packets_faults(rt: HostRuntime) {
    for (kind, number, word) in &WORDS {
        let text = format!(in rt.alloc(); "{kind}").expect(&rt, "memory");
        expect_eq(&rt, &text.as_str(), &*word);
        expect_eq(&rt, &kind.number(), &*number);
        expect_eq(&rt, &kind.word(), &*word);
        expect_eq(&rt, &FaultKind::from_word(word.as_bytes()), &Some(*kind));
    }
    for word in &["", "TooMan", "toomany", "Full", "BadType"] {
        expect_eq(&rt, &FaultKind::from_word(word.as_bytes()), &None);
    }
}

/// A registration of FRED whose additional record spells its name out, as TEAM.
const SPELLED_OUT: &[u8] =
    b"\x00\x01\x29\x00\x00\x01\x00\x00\x00\x00\x00\x01 EGFCEFEECACACACACACACACACACACACA\x00\x00\x20\x00\x01 FEEFEBENCACACACACACACACACACACACA\x00\x00\x20\x00\x01\x00\x00\x00\x3C\x00\x06\x20\x00\x7F\x00\x00\x02";

/// Octets, with others at some places, and which line of the table they meet.
const LINES: &[(&[u8], &[(usize, u8)], &str)] = &[
    (QUERY, &[(3, 0x10), (0, 0)], "none"),
    (QUERY, &[(3, 0x10), (47, 0x21)], "status request"),
    (REGISTRATION, &[(3, 0x10)], "none"),
    (REGISTRATION, &[(2, 0x41)], "refresh"),
    (REGISTRATION, &[(2, 0x48)], "refresh"),
    (REGISTRATION, &[(2, 0x49)], "refresh"),
    (REGISTRATION, &[(49, 2)], "none"),
    (REGISTRATION, &[(62, 0x00)], "registration"),
    (REGISTRATION, &[(62, 0x40)], "registration"),
    (REGISTRATION, &[(62, 0xE0)], "registration"),
    (REGISTERED, &[(3, 0x00)], "none"),
    (REGISTERED, &[(3, 0x06)], "registered"),
    (REGISTERED, &[(2, 0xC0), (3, 0x00)], "registered"),
    (REGISTERED, &[(2, 0x85)], "found"),
    // TC in a response to a query, and in other messages, where it isn't looked at.
    (REGISTERED, &[(2, 0x87)], "found, cut"),
    (FOUND, &[(2, 0x83)], "found, cut"),
    (NOT_FOUND, &[(2, 0x87)], "not found"),
    (NOT_FOUND_BARE, &[(2, 0x87)], "not found"),
    (STATUS, &[(2, 0x86)], "status"),
    (WAIT, &[(2, 0xBE)], "wait"),
    (REGISTERED, &[(2, 0xAF)], "registered"),
    (REGISTERED, &[(2, 0xB6), (3, 0x00)], "released"),
    (REGISTRATION, &[(2, 0x2B)], "registration"),
    (REGISTRATION, &[(2, 0x42)], "refresh"),
    (QUERY, &[(2, 0x03)], "query"),
    (NOT_FOUND, &[(3, 0x80)], "none"),
    (NOT_FOUND, &[(2, 0xBC), (3, 0)], "wait"),
    // The additional record is about another name, and about the same name spelled out.
    (SPELLED_OUT, &[], "none"),
    (
        SPELLED_OUT,
        &[
            (51, b'E'),
            (52, b'G'),
            (53, b'F'),
            (54, b'C'),
            (55, b'E'),
            (56, b'F'),
            (57, b'E'),
            (58, b'E'),
        ],
        "registration",
    ),
];

/// Which line of the table the octets meet.
fn word_of(rt: &impl Abort, octets: &[u8]) -> &'static str {
    let (packet, _) = decode(octets).expect(rt, "decoded");
    match classify(&packet) {
        None => "none",
        Some(Message::Registration(_)) => "registration",
        Some(Message::Overwrite(_)) => "overwrite",
        Some(Message::Refresh(_)) => "refresh",
        Some(Message::Release { .. }) => "release",
        Some(Message::Query { .. }) => "query",
        Some(Message::StatusRequest { .. }) => "status request",
        Some(Message::Registered { .. }) => "registered",
        Some(Message::Released { .. }) => "released",
        Some(Message::Found { cut: false, .. }) => "found",
        Some(Message::Found { cut: true, .. }) => "found, cut",
        Some(Message::NotFound { .. }) => "not found",
        Some(Message::Status { .. }) => "status",
        Some(Message::Wait { .. }) => "wait",
    }
}

#[test]
fn lines_of_the_table(rt: HostRuntime) {
    one_message();
    for (octets, patches, word) in LINES {
        let octets = patched(&rt, octets, patches);
        expect_eq_in(&rt, &patches, &word_of(&rt, &octets), &*word);
    }
}

/// The worked examples of every kind.
const WHOLE: &[&[u8]] = &[
    REGISTRATION,
    REGISTERED,
    QUERY,
    FOUND,
    NOT_FOUND,
    NOT_FOUND_BARE,
    STATUS_REQUEST,
    STATUS,
    WAIT,
    RELEASE,
    RELEASED,
    REFRESH,
];

/// Each packet that is cut short has its fault at its end, and is no message.
#[test]
fn packets_cut_at_every_length(rt: HostRuntime) {
    one_packet_or_fault();
    for octets in WHOLE {
        for place in 0..octets.len() {
            let cut = &octets[..place];
            let short = Fault {
                kind: FaultKind::Name(NameFaultKind::Short),
                place,
            };
            expect_eq_in(&rt, &cut, &decode(cut).err(), &Some(short));
            expect_in(&rt, &cut, read(cut).is_none());
        }
        expect_in(&rt, &octets, read(octets).is_some());
    }
}

/// A packet up to its answer's data: the answer is of FRED, and has 2,000 octets of data, from place 56 on.
const UP_TO_DATA: &[u8] =
    b"\x00\x01\x85\x80\x00\x00\x00\x01\x00\x00\x00\x01 EGFCEFEECACACACACACACACACACACACA\x00\x00\x20\x00\x01\x00\x00\x00\x00\x07\xD0";

/// An additional record without data, whose name is a pointer to place 2,054.
const ADDITIONAL: &[u8] = b"\xC8\x06\x00\x20\x00\x01\x00\x00\x00\x00\x00\x00";

/// That packet with 1,000 pointers as its data, the first one to this place, and each later one to the one before it.
fn chain_of_1000_pointers(rt: &(impl Abort + AllocGlobal), first: u8) -> Vec<u8> {
    let mut octets = Vec::from_slice(rt.alloc(), UP_TO_DATA).expect(rt, "memory");
    octets
        .extend_from_slice(&[0xC0, first])
        .expect(rt, "memory");
    for k in 0..999u16 {
        octets
            .extend_from_slice(&(0xC038 + 2 * k).to_be_bytes())
            .expect(rt, "memory");
    }
    octets.extend_from_slice(ADDITIONAL).expect(rt, "memory");
    octets
}

fn expect_a_name_at_the_end(rt: &impl Abort, octets: &[u8]) {
    let (_, length) = decode(octets).expect(rt, "decoded");
    expect_eq(rt, &length, &2_068);
    expect(rt, octets.len() == 2_068);
    let fred = fred(rt, b"");
    expect(rt, read_in(octets, 2_056) == Ok((fred, 2_058)));
}

#[test]
fn a_name_at_the_end_of_1000_pointers(rt: HostRuntime) {
    let octets = chain_of_1000_pointers(&rt, 12);
    expect_a_name_at_the_end(&rt, octets.as_slice());
    let octets = chain_of_1000_pointers(&rt, 56);
    let to_itself = Fault {
        kind: FaultKind::Name(NameFaultKind::BadPointer),
        place: 56,
    };
    expect_eq(&rt, &decode(&octets).err(), &Some(to_itself));
}

#[test]
fn octets_after_the_packet_are_not_looked_at(rt: HostRuntime) {
    one_message_spelled();
    let mut more = Vec::from_slice(rt.alloc(), REGISTRATION).expect(&rt, "memory");
    more.extend_from_slice(b"\xFF\xFF\xFF")
        .expect(&rt, "memory");
    let (_, length) = decode(&more).expect(&rt, "decoded");
    expect_eq(&rt, &length, &68);
    expect(&rt, matches!(read(&more), Some(Message::Registration(_))));
}

#[test]
fn entries_and_status_names(rt: HostRuntime) {
    spelled_message_fits();
    expect(
        &rt,
        entry_octets(Kind::Unique, 0x7F000002) == *b"\x20\x00\x7F\x00\x00\x02",
    );
    expect(
        &rt,
        entry_octets(Kind::Group, 0xC0000201) == *b"\xA0\x00\xC0\x00\x02\x01",
    );
    let unique = status_name_octets(FRED, Kind::Unique);
    expect(&rt, unique == *b"FRED            \x24\x00");
    let group = status_name_octets(TEAM, Kind::Group);
    expect(&rt, group == *b"TEAM            \xA4\x00");
}

#[test]
fn a_written_form_of_576_octets_and_one_longer(rt: HostRuntime) {
    written_length();
    few_rows_are_written();
    let entries = [0x20; 522];
    let name = fred(&rt, b"\x03abc");
    for (count, length) in &[(86usize, 576usize), (87, 0)] {
        let end = count.saturating_mul(6);
        expect(&rt, end <= entries.len());
        let found = Message::Found {
            id: 1,
            name: name.lend(),
            ttl: 60,
            entries: &entries[..end],
            cut: false,
        };
        expect(&rt, found.fits());
        let mut out = ArrayVec::new();
        let written = encode(&found, &mut out);
        expect_eq(&rt, &written.is_err(), &(*count == 87));
        expect_eq(&rt, &out.len(), &*length);
    }
    expect_eq(&rt, &Full.number(), &7);
}

/// The scope of the longest name: three labels of 63 octets and one of 28.
const LONGEST_SCOPE: &[u8] =
    b"\x3Faaaaaaaaaaaaaaaaaaaaaaaaaaaaaaaaaaaaaaaaaaaaaaaaaaaaaaaaaaaaaaa\x3Faaaaaaaaaaaaaaaaaaaaaaaaaaaaaaaaaaaaaaaaaaaaaaaaaaaaaaaaaaaaaaa\x3Faaaaaaaaaaaaaaaaaaaaaaaaaaaaaaaaaaaaaaaaaaaaaaaaaaaaaaaaaaaaaaa\x1Caaaaaaaaaaaaaaaaaaaaaaaaaaaa";

/// A scope, and how many entries have room beside FRED in it.
const ENTRIES: &[(&[u8], usize)] = &[
    (b"", 86),
    (b"\x03abc", 86),
    (b"\x04abcd", 85),
    (LONGEST_SCOPE, 49),
];

/// Beside a wire form of w octets there is room for (576 - 22 - w) / 6 entries, rounded down.
#[test]
fn as_many_entries_as_have_room_beside_a_name(rt: HostRuntime) {
    for (scope, most) in ENTRIES {
        let name = fred(&rt, scope);
        expect_eq_in(&rt, &scope, &entries_most(&name), &*most);
    }
}
