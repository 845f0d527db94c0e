//! When a machine is known to have slept, and the first id of a host.

use super::expect::{expect, expect_eq_in};
use nbt_host::{Look, Reading};
use nbt_lease::Moment;
use std::process::Abort;

/// A steady clock before the time of day and after it.
fn reading(rt: &impl Abort, before: u64, day: u64, after: u64) -> Reading {
    Reading {
        before: Moment::new(before).expect(rt, "a moment"),
        day: Moment::new(day).expect(rt, "a moment"),
        after: Moment::new(after).expect(rt, "a moment"),
    }
}

/// Readings after (1,000, 500,000, 1,010), and whether the machine slept: the steady clock went from 1,000 to the last number, and of
/// that a thousandth and 200 ms are allowed.
const READINGS: [(u64, u64, u64, bool); 10] = [
    (2_000, 501_000, 2_000, false),
    (1_100, 500_300, 1_100, false),
    (1_100, 500_301, 1_100, true),
    (2_000, 501_201, 2_000, false),
    (2_000, 501_202, 2_000, true),
    (2_000, 504_205, 5_000, true),
    (2_000, 504_204, 5_000, false),
    (2_000, 1_000, 2_000, false),
    // A hold of 1,000,000 s, by clocks that drift apart by a thousandth and by no more.
    (1_000_001_000, 1_001_500_200, 1_000_001_000, false),
    (1_000_001_000, 1_001_500_201, 1_000_001_000, true),
];

/// Whether the machine slept between (1,000, 500,000, 1,010) and this reading.
fn slept_until(rt: &impl Abort, before: u64, day: u64, after: u64) -> bool {
    let earlier = reading(rt, 1_000, 500_000, 1_010);
    reading(rt, before, day, after).slept_since(earlier)
}

#[test]
fn a_sleep_is_seen_from_201_ms_and_a_thousandth_on(rt: HostRuntime) {
    for (before, day, after, slept) in &READINGS {
        expect_eq_in(&rt, &day, &slept_until(&rt, *before, *day, *after), &*slept);
    }
}

/// The readings of many years ahead, at which no product may be too large.
#[test]
fn a_sleep_is_seen_at_the_last_moments(rt: HostRuntime) {
    let end = 1 << 60;
    let earlier = reading(&rt, end - 100, end - 301, end - 100);
    expect(&rt, reading(&rt, end, end, end).slept_since(earlier));
    let earlier = reading(&rt, end - 100, end - 300, end - 100);
    expect(&rt, !reading(&rt, end, end, end).slept_since(earlier));
}

/// What both clocks tell at a start, the salt, and the first id. Of starts that are up to half a minute apart no two have one, and none is
/// known without the salt.
const FIRST_IDS: [(u64, u64, u16, u16); 10] = [
    (0, 0, 0, 0),
    (0, 1, 0, 1),
    (2_000, 2_000, 0, 4_000),
    (3_070, 1_003_276, 0, 0x5B0A),
    (32_000, 33_535, 0, 65_535),
    (60_000, 60_000, 0, 54_464),
    (1 << 60, (1 << 60) - 1, 0, 65_535),
    (0, 0, 0xC0DE, 0xC0DE),
    (2_000, 2_000, 65_535, 3_999),
    (1 << 60, 1 << 60, 65_535, 65_535),
];

/// The first id of a host that starts at this look.
fn first_id(rt: &impl Abort, at: u64, day: u64, salt: u16) -> u16 {
    let look = Look {
        at: Moment::new(at).expect(rt, "a moment"),
        day: Moment::new(day).expect(rt, "a moment"),
        slept: false,
        salt,
    };
    look.first_id()
}

#[test]
fn ids_begin_at_the_last_bits_of_the_salt_and_both_clocks(rt: HostRuntime) {
    for (at, day, salt, wanted) in &FIRST_IDS {
        expect_eq_in(&rt, &day, &first_id(&rt, *at, *day, *salt), &*wanted);
    }
}
