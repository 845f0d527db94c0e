//! Names and octets from outside: RFC 1001 section 14.1, and the vectors of our profile.

use super::expect::{expect, expect_eq, expect_eq_in, expect_in};
use super::{FRED, fred};
use arrayvec::ArrayVec;
use indexmap::IndexMap;
use nbt_name::laws::plain_name_is_its_wire_form;
use nbt_name::{
    Name, NameFault, NameFaultKind, NameRefusal, put_long, put_word, read_in, read_long,
    read_plain, read_word,
};
use std::collections::BTreeSet;
use std::process::Abort;

/// The name `FRED` on the wire, without a scope and in the scope of NETBIOS.COM.
const FRED_ALONE: &[u8] = b" EGFCEFEECACACACACACACACACACACACA\x00";

const FRED_IN_SCOPE: &[u8] = b" EGFCEFEECACACACACACACACACACACACA\x07NETBIOS\x03COM\x00";

/// A packet's twelve octets, FRED at 12, and pointers at 46 and at 48.
const POINTERS: &[u8] =
    b"\x00\x01\x29\x00\x00\x01\x00\x00\x00\x00\x00\x01 EGFCEFEECACACACACACACACACACACACA\x00\xC0\x0C\xC0\x2E";

/// A packet's twelve octets, and FRED at 12, which goes on at 4, where a zero stands, and at 5, where a label does.
const ON_AT_4: &[u8] =
    b"\x00\x01\x29\x00\x00\x01\x00\x00\x00\x00\x00\x01 EGFCEFEECACACACACACACACACACACACA\xC0\x04";

const ON_AT_5: &[u8] =
    b"\x00\x01\x29\x00\x00\x01\x00\x00\x00\x00\x00\x01 EGFCEFEECACACACACACACACACACACACA\xC0\x05";

/// A packet's twelve octets, and at 12 a pointer to itself, one to a later place, and the first half of one.
const TO_ITSELF: &[u8] = b"\x00\x01\x01\x00\x00\x01\x00\x00\x00\x00\x00\x00\xC0\x0C\x00\x20";

const FORWARD: &[u8] = b"\x00\x01\x01\x00\x00\x01\x00\x00\x00\x00\x00\x00\xC0\x0E\x00\x20";

const HALF_A_POINTER: &[u8] = b"\x00\x01\x01\x00\x00\x01\x00\x00\x00\x00\x00\x00\xFF";

/// A name, its scope, and its wire form.
const WIRE_FORMS: &[(&[u8; 16], &[u8], &[u8])] = &[
    (FRED, b"", FRED_ALONE),
    (FRED, b"\x07NETBIOS\x03COM", FRED_IN_SCOPE),
];

#[test]
fn names_are_their_wire_forms(rt: HostRuntime) {
    plain_name_is_its_wire_form();
    for (octets, scope, wire) in WIRE_FORMS {
        let name = Name::new(octets, scope).expect(&rt, "a name");
        let mut out = ArrayVec::new();
        name.to_wire(&mut out);
        expect_eq(&rt, &out.as_slice(), &*wire);
        expect_eq(&rt, &name.wire_len(), &wire.len());
        let mut packet: ArrayVec<u8, 257> = ArrayVec::new();
        put_word(&mut packet, 0x2900);
        name.put_wire(&mut packet);
        expect(
            &rt,
            packet.as_slice().starts_with(b"\x29\x00") && packet.as_slice().ends_with(wire),
        );
        expect_eq(&rt, &packet.len(), &(2 + wire.len()));
        let (read, next) = read_plain(wire, 0).expect(&rt, "a name");
        expect(&rt, read == name && name.copy() == name);
        expect_eq(&rt, &next, &wire.len());
        expect(&rt, !read.is_star());
        expect_eq(&rt, &read.octets().as_slice(), &octets.as_slice());
        expect_eq(&rt, &read.scope(), &*scope);
    }
}

/// A word, a long word, and the octets of both: flags and an address, a pointer and a TTL of 300,000 s, and the highest
/// bits set.
const NUMBERS: &[(u16, u32, &[u8])] = &[
    (0x2900, 0x0A00_0001, b"\x29\x00\x0A\x00\x00\x01"),
    (0xC00C, 300_000, b"\xC0\x0C\x00\x04\x93\xE0"),
    (0xFFFE, 0xFEDC_BA98, b"\xFF\xFE\xFE\xDC\xBA\x98"),
];

#[test]
fn numbers_most_significant_octet_first(rt: HostRuntime) {
    for (word, long, octets) in NUMBERS {
        let mut out: ArrayVec<u8, 6> = ArrayVec::new();
        put_word(&mut out, *word);
        put_long(&mut out, *long);
        expect_eq(&rt, &out.as_slice(), &*octets);
        expect_eq(&rt, &read_word(out.as_slice(), 0), &*word);
        expect_eq(&rt, &read_long(out.as_slice(), 2), &*long);
    }
}

#[test]
fn the_name_that_stands_for_all(rt: HostRuntime) {
    let any = Name::any(b"").expect(&rt, "a name");
    let mut wire = ArrayVec::new();
    any.to_wire(&mut wire);
    expect_eq(
        &rt,
        &wire.as_slice(),
        &b" CKAAAAAAAAAAAAAAAAAAAAAAAAAAAAAA\x00".as_slice(),
    );
    expect(&rt, any.is_star());
    let refused = Name::new(any.octets(), b"").err();
    expect_eq(&rt, &refused, &Some(NameRefusal::Star));
    expect_eq(&rt, &NameRefusal::Star.number(), &1);
}

/// Scopes that are no labels.
const NO_LABELS: &[&[u8]] = &[b"\x00x", b"\x02x", b"\x01x\x00", &[64; 65]];

#[test]
fn scopes_that_are_no_labels(rt: HostRuntime) {
    for scope in NO_LABELS {
        let refused = Some(NameRefusal::BadLabel);
        expect_eq_in(&rt, &scope, &Name::new(FRED, scope).err(), &refused);
        expect_eq_in(&rt, &scope, &Name::any(scope).err(), &refused);
    }
}

/// How a name is read.
#[derive(Clone, Copy)]
enum By {
    ReadIn,
    ReadPlain,
}

/// What is read: FRED in a scope, and the place after it; or a fault and its place.
#[derive(Clone, Copy)]
enum Read<'a> {
    Fred(&'a [u8], usize),
    Fault(NameFaultKind, usize),
}

/// What is read of some octets at a place.
const READINGS: &[(&str, &[u8], usize, By, Read<'static>)] = &[
    ("spelled out", POINTERS, 12, By::ReadIn, Read::Fred(b"", 46)),
    (
        "by a pointer",
        POINTERS,
        46,
        By::ReadIn,
        Read::Fred(b"", 48),
    ),
    (
        "by a pointer to a pointer",
        POINTERS,
        48,
        By::ReadIn,
        Read::Fred(b"", 50),
    ),
    (
        "no pointer in a plain name",
        POINTERS,
        46,
        By::ReadPlain,
        Read::Fault(NameFaultKind::BadPointer, 46),
    ),
    (
        "into the header, at a zero",
        ON_AT_4,
        12,
        By::ReadIn,
        Read::Fred(b"", 47),
    ),
    (
        "into the header, at a label",
        ON_AT_5,
        12,
        By::ReadIn,
        Read::Fred(b"\x01\x00", 47),
    ),
    (
        "to itself",
        TO_ITSELF,
        12,
        By::ReadIn,
        Read::Fault(NameFaultKind::BadPointer, 12),
    ),
    (
        "forward",
        FORWARD,
        12,
        By::ReadIn,
        Read::Fault(NameFaultKind::BadPointer, 12),
    ),
    (
        "half a pointer",
        HALF_A_POINTER,
        12,
        By::ReadIn,
        Read::Fault(NameFaultKind::Short, 13),
    ),
    (
        "a label of 33",
        b"\x21EG",
        0,
        By::ReadPlain,
        Read::Fault(NameFaultKind::BadLabel, 0),
    ),
    (
        "a bad letter before the end",
        b" EQEG",
        0,
        By::ReadPlain,
        Read::Fault(NameFaultKind::BadHalf, 2),
    ),
];

#[test]
fn names_at_a_place_and_their_faults(rt: HostRuntime) {
    for (what, octets, place, by, expected) in READINGS {
        expect(&rt, *place <= octets.len());
        let read = match by {
            By::ReadIn => read_in(octets, *place),
            By::ReadPlain => read_plain(octets, *place),
        };
        match *expected {
            Read::Fred(scope, next) => expect_in(&rt, &what, read == Ok((fred(&rt, scope), next))),
            Read::Fault(kind, place) => {
                expect_in(&rt, &what, read == Err(NameFault { kind, place }))
            }
        }
    }
}

const WORDS: [(NameFaultKind, u8, &str); 5] = [
    (NameFaultKind::Short, 1, "Short"),
    (NameFaultKind::BadLabel, 2, "BadLabel"),
    (NameFaultKind::BadHalf, 3, "BadHalf"),
    (NameFaultKind::BadPointer, 4, "BadPointer"),
    (NameFaultKind::Long, 5, "Long"),
];

#[test]
fn numbers_and_words_of_a_names_faults(rt: HostRuntime) {
    for (kind, number, word) in &WORDS {
        let text = format!(in rt.alloc(); "{kind}").expect(&rt, "memory");
        expect_eq(&rt, &text.as_str(), &*word);
        expect_eq(&rt, &kind.number(), &*number);
        expect_eq(&rt, &kind.word(), &*word);
        expect_eq(
            &rt,
            &NameFaultKind::from_word(word.as_bytes()),
            &Some(*kind),
        );
    }
    for word in &["", "long", "Shor", "TooMany", "BadType"] {
        expect_eq(&rt, &NameFaultKind::from_word(word.as_bytes()), &None);
    }
}

/// Names by what they stand in, where they begin and where they end: spelled out, by a pointer, and by a pointer to a
/// pointer.
const CUT: &[(By, &[u8], usize, usize)] = &[
    (By::ReadPlain, FRED_IN_SCOPE, 0, 46),
    (By::ReadIn, FRED_IN_SCOPE, 0, 46),
    (By::ReadIn, POINTERS, 12, 46),
    (By::ReadIn, POINTERS, 46, 48),
    (By::ReadIn, POINTERS, 48, 50),
];

/// Each name that is cut short has its fault at its end.
#[test]
fn cut_at_every_length(rt: HostRuntime) {
    for (by, octets, start, end) in CUT {
        expect(&rt, *end <= octets.len());
        for place in *start..*end {
            let cut = &octets[..place];
            let read = match by {
                By::ReadIn => read_in(cut, *start),
                By::ReadPlain => read_plain(cut, *start),
            };
            let short = Some(NameFault {
                kind: NameFaultKind::Short,
                place,
            });
            expect_eq_in(&rt, &(cut, start), &read.err(), &short);
        }
    }
}

/// `count` labels of one octet, for a scope of twice as many octets.
fn short_labels(rt: &(impl Abort + AllocGlobal), count: usize) -> Vec<u8> {
    let mut scope = Vec::new(rt.alloc());
    for _ in 0..count {
        scope.extend_from_slice(b"\x01x").expect(rt, "memory");
    }
    scope
}

#[test]
fn a_wire_form_of_255_octets_and_one_of_256(rt: HostRuntime) {
    let mut scope = short_labels(&rt, 109);
    scope.extend_from_slice(b"\x02yz").expect(&rt, "memory");
    expect_eq(&rt, &scope.len(), &221);
    let longest = fred(&rt, &scope);
    let mut wire = ArrayVec::new();
    longest.to_wire(&mut wire);
    expect_eq(&rt, &wire.len(), &255);
    expect(&rt, read_plain(wire.as_slice(), 0) == Ok((longest, 255)));

    let longer = short_labels(&rt, 111);
    expect_eq(
        &rt,
        &Name::new(FRED, &longer).err(),
        &Some(NameRefusal::ScopeLong),
    );
    let mut octets = Vec::from_slice(rt.alloc(), &FRED_ALONE[..33]).expect(&rt, "memory");
    octets.extend_from_slice(&longer).expect(&rt, "memory");
    octets.push(0).expect(&rt, "memory");
    expect_eq(&rt, &octets.len(), &256);
    let long = NameFault {
        kind: NameFaultKind::Long,
        place: 253,
    };
    expect_eq(&rt, &read_plain(&octets, 0).err(), &Some(long));
}

/// Scopes, one of them twice.
const SCOPES: &[&[u8]] = &[b"", b"\x01a", b""];

/// FRED is put into both in each scope, with the length of the scope.
fn insert_each(rt: &impl Abort, set: &mut BTreeSet<Name>, map: &mut IndexMap<Name, usize>) {
    for scope in SCOPES {
        set.insert(fred(rt, scope)).expect(rt, "memory");
        map.insert(fred(rt, scope), scope.len())
            .expect(rt, "memory");
    }
}

#[test]
fn names_are_keys(rt: HostRuntime) {
    let fred = fred(&rt, b"");
    let mut set = BTreeSet::new(rt.alloc());
    let mut map = IndexMap::new(rt.alloc());
    insert_each(&rt, &mut set, &mut map);
    expect_eq(&rt, &set.len(), &2);
    expect_eq(&rt, &map.len(), &2);
    expect(&rt, set.contains(&fred));
    expect_eq(&rt, &map.get(&fred).copied(), &Some(0));
}

#[test]
fn names_are_ordered_by_their_octets_and_then_by_their_scopes(rt: HostRuntime) {
    let bare = fred(&rt, b"");
    let scoped = fred(&rt, b"\x01z");
    let later = Name::new(b"GINA            ", b"\x01a").expect(&rt, "a name");
    expect(&rt, bare < scoped);
    expect(&rt, scoped < later);
    expect(&rt, bare < later);
}
