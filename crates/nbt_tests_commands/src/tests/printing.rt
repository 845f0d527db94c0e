//! Packets, datagrams and sessions that are cut. `nbt_cases` plays what `show` and `check` print of others.

use super::expect::{expect, expect_eq};
use arrayvec::ArrayVec;
use nbt_show::{write_dgram, write_packet, write_session};
use nbt_testing::{EVERY_KIND, octets};
use std::process::Abort;

/// What is printed: a packet, a datagram or a session.
enum Prints {
    Packet,
    Datagram,
    Session,
}

/// Prints octets.
fn print<R: Abort>(rt: &R, prints: &Prints, octets: &[u8], text: &mut String) -> bool {
    let printed = match prints {
        Prints::Packet => write_packet(octets, text),
        Prints::Datagram => write_dgram(octets, text),
        Prints::Session => write_session(octets, text),
    };
    printed.expect(rt, "memory")
}

/// A packet of each kind.
static KINDS: [&str; 12] = EVERY_KIND;

/// Datagrams of each type, as their types and what follows: data with two names, a later fragment, an error and a query.
static DATAGRAMS: [(&[u8], &[u8]); 4] = [
    (
        b"\x10\x11\x12",
        b"\x06\x00\x01\x7F\x00\x00\x02\x00\x8A\x00\x49\x00\x00 EGFCEFEECACACACACACACACACACACACA\x00 FEEFEBENCACACACACACACACACACACACA\x00hello",
    ),
    (
        b"\x11",
        b"\x04\x00\x01\x7F\x00\x00\x02\x00\x8A\x00\x05\x00\x09hello",
    ),
    (b"\x13", b"\x06\x00\x01\x7F\x00\x00\x03\x00\x8A\x82"),
    (
        b"\x14\x15\x16",
        b"\x06\x00\x01\x7F\x00\x00\x02\x00\x8A FEEFEBENCACACACACACACACACACACACA\x00",
    ),
];

/// A session's packets of each kind.
static SESSION_PACKETS: [&[u8]; 6] = [
    b"\x81\x00\x00\x44 EGFCEFEECACACACACACACACACACACACA\x00 FEEFEBENCACACACACACACACACACACACA\x00",
    b"\x82\x00\x00\x00",
    b"\x83\x00\x00\x01\x82",
    b"\x84\x00\x00\x06\x7F\x00\x00\x03\x00\x8B",
    b"\x00\x00\x00\x02hi",
    b"\x85\x00\x00\x00",
];

/// Whole octets, cut to each shorter length: of a packet or a datagram the octets end where one is missing, and of a
/// session that many are left.
fn expect_cut<R: Abort>(
    rt: &R,
    prints: &Prints,
    whole: &[u8],
    text: &mut String,
    wanted: &mut String,
) {
    let (well, words) = match prints {
        Prints::Session => (true, "rest"),
        _ => (false, "fault Short at"),
    };
    for length in 0..whole.len() {
        text.clear();
        wanted.clear();
        write!(wanted, "{words} {length}\n").expect(rt, "memory");
        expect(
            rt,
            &length,
            print(rt, prints, &whole[..length], text) == well,
        );
        expect_eq(rt, &length, &text.as_str(), &wanted.as_str());
    }
}

/// A datagram of this type, cut so.
fn expect_datagram_cut<R: Abort>(
    rt: &R,
    kind: u8,
    tail: &[u8],
    text: &mut String,
    wanted: &mut String,
) {
    let mut whole: ArrayVec<u8, 200> = ArrayVec::new();
    expect(rt, &kind, whole.try_push(kind).is_ok());
    expect(rt, &kind, whole.try_extend_from_slice(tail).is_ok());
    expect_cut(rt, &Prints::Datagram, whole.as_slice(), text, wanted);
}

/// A packet of these words, cut so.
fn expect_packet_cut<R: Abort + AllocGlobal>(
    rt: &R,
    words: &str,
    text: &mut String,
    wanted: &mut String,
) {
    let whole = octets(rt, words).expect(rt, "octets");
    expect_cut(rt, &Prints::Packet, whole.as_slice(), text, wanted);
}

#[test]
fn packets_cut_at_every_length(rt: HostRuntime) {
    let mut text = String::new(rt.alloc());
    let mut wanted = String::new(rt.alloc());
    for row in &DATAGRAMS {
        let (types, tail) = *row;
        for kind in types {
            expect_datagram_cut(&rt, *kind, tail, &mut text, &mut wanted);
        }
    }
    for whole in &SESSION_PACKETS {
        expect_cut(&rt, &Prints::Session, whole, &mut text, &mut wanted);
    }
    for words in &KINDS {
        expect_packet_cut(&rt, words, &mut text, &mut wanted);
    }
}
