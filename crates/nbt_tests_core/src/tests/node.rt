//! The ids of a node's requests, and the numbers and words of its refusals. How a node goes is in the scenes of nbt_cases.

use super::expect::{expect_eq, expect_in};
use super::{at, fred};
use arrayvec::ArrayVec;
use nbt_lease::Config;
use nbt_name::{Addr, Kind};
use nbt_node::laws::{each_name, one_move, settling_ends, settling_in_steps};
use nbt_node::{AskFault, ClockBack, LookupFault, Node, ReleaseFault};
use std::process::Abort;

const OWN: Addr = Addr {
    ip: 0x7F000002,
    port: 137,
};

const SERVER: Addr = Addr {
    ip: 0x7F000001,
    port: 137,
};

fn start(rt: &impl Abort) -> Node<1> {
    Node::start(
        OWN,
        SERVER,
        Config::new(1000, 60, 4096).expect(rt, "limits"),
        at(rt, 0),
    )
}

/// The first id that a node is given, that of its first request, a registration, and that of the next, a query.
const FIRST_IDS: &[(u16, &[u8; 2], &[u8; 2])] = &[
    (1, b"\x00\x01", b"\x00\x02"),
    (0, b"\x00\x00", b"\x00\x01"),
    (0x12FF, b"\x12\xFF", b"\x13\x00"),
    (65_535, b"\xFF\xFF", b"\x00\x00"),
];

/// The ids of two requests of a node that has rested.
fn expect_ids(rt: &impl Abort, node: &mut Node<1>, first: &[u8; 2], second: &[u8; 2]) {
    let mut out = ArrayVec::new();
    let fred = fred(rt, b"");
    node.ask(at(rt, 2_005), &fred.lend(), Kind::Unique, 60, &mut out)
        .expect(rt, "ask");
    expect_in(rt, &first, out.as_slice().starts_with(first));
    node.resolve(at(rt, 2_005), &fred.lend(), &mut out)
        .expect(rt, "resolve");
    expect_in(rt, &second, out.as_slice().starts_with(second));
}

fn play_ids(rt: &impl Abort, rows: &[(u16, &[u8; 2], &[u8; 2])]) {
    let config = Config::new(1000, 60, 4096).expect(rt, "limits");
    for (first_id, first, second) in rows {
        let mut node = Node::start_from(OWN, SERVER, config, at(rt, 0), *first_id);
        expect_ids(rt, &mut node, first, second);
    }
}

#[test]
fn ids_count_from_the_one_that_is_given(rt: HostRuntime) {
    settling_ends();
    settling_in_steps();
    one_move();
    each_name();
    play_ids(&rt, FIRST_IDS);
    expect_ids(&rt, &mut start(&rt), b"\x00\x01", b"\x00\x02")
}

const ASK_FAULTS: [(AskFault, u8, &str); 5] = [
    (AskFault::Quiet, 1, "Quiet"),
    (AskFault::Busy, 2, "Busy"),
    (AskFault::Full, 3, "Full"),
    (AskFault::ClockBack, 4, "ClockBack"),
    (AskFault::BadName, 5, "BadName"),
];

const RELEASE_FAULTS: [(ReleaseFault, u8, &str); 2] = [
    (ReleaseFault::NotHeld, 1, "NotHeld"),
    (ReleaseFault::ClockBack, 4, "ClockBack"),
];

const LOOKUP_FAULTS: [(LookupFault, u8, &str); 3] = [
    (LookupFault::Busy, 2, "Busy"),
    (LookupFault::ClockBack, 4, "ClockBack"),
    (LookupFault::BadName, 5, "BadName"),
];

#[test]
fn refusals_have_their_numbers_and_words(rt: HostRuntime) {
    for (fault, number, word) in &ASK_FAULTS {
        expect_eq(&rt, &fault.number(), &*number);
        expect_eq(&rt, &fault.word(), &*word);
        expect_eq(&rt, &AskFault::of(*number), &Some(*fault));
    }
    for (fault, number, word) in &RELEASE_FAULTS {
        expect_eq(&rt, &fault.number(), &*number);
        expect_eq(&rt, &fault.word(), &*word);
        expect_eq(&rt, &ReleaseFault::of(*number), &Some(*fault));
    }
    for (fault, number, word) in &LOOKUP_FAULTS {
        expect_eq(&rt, &fault.number(), &*number);
        expect_eq(&rt, &fault.word(), &*word);
        expect_eq(&rt, &LookupFault::of(*number), &Some(*fault));
    }
    expect_eq(&rt, &AskFault::of(0), &None);
    expect_eq(&rt, &AskFault::of(6), &None);
    expect_eq(&rt, &ReleaseFault::of(2), &None);
    expect_eq(&rt, &LookupFault::of(3), &None);
    expect_eq(&rt, &ClockBack.number(), &4);
    expect_eq(&rt, &start(&rt).addr(), &OWN);
}
