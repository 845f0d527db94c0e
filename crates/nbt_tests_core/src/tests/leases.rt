//! Limits and moments, a full table, and memory refused at each growth. Leases over time are in the scenes of nbt_cases. A datagram lives 1,000 ms at most, and
//! the longest lease is 60 s.

ghost use Rattle.std.specs.Prelude.{◌≤◌};

use super::expect::{expect, expect_eq, expect_eq_in, expect_in};
use super::{FRED, TEAM, at, name_of};
use arrayvec::ArrayVec;
use nbt_lease::{Config, ConfigFault, Grant, GrantFault, Moment, Table, laws};
use nbt_name::{Kind, Name};
use std::process::Abort;

const FIRST: u32 = 0x7F000002;

/// What is asked of a table at a moment, and what has to come of it. A grant gives its seconds and its end, or why not.
#[derive(Clone, Copy)]
enum Step<'a> {
    /// A name is asked for by an address, as a kind, for some seconds. Memory isn't refused.
    Grant(u64, &'a [u8; 16], u32, Kind, u32, Result<(u32, u64), GrantFault>),
    /// The group TEAM is asked for by the addresses from 1 on, as many as there are, for 60 s.
    Join(u64, u32, Result<(u32, u64), GrantFault>),
    /// The same as by `Grant`, but memory may be refused.
    Grow(u64, &'a [u8; 16], u32, Kind, u32, Result<(u32, u64), GrantFault>),
    /// The same as by `Join`, but memory may be refused.
    JoinGrowing(u64, u32, Result<(u32, u64), GrantFault>),
    /// The least end of a name's leases.
    LeastEnd(u64, &'a [u8; 16], Option<u64>),
    /// The addresses and ends of a name's leases.
    Members(u64, &'a [u8; 16], &'a [(u32, u64)]),
}

/// The addresses and ends of a name's leases.
type Leases = ArrayVec<(u32, u64), 41>;

/// A table of leases, at 0.
fn table<R: Abort + AllocGlobal>(rt: &R, rows: usize) -> Table {
    Table::new(rt.alloc(), Config::new(1000, 60, rows).expect(rt, "limits"))
}

/// The moment, which must not lie before the table's last one.
fn later(rt: &impl Abort, table: &Table, ms: u64) -> Moment
    ensures { table.now.last ≤ result }
{
    let now = at(rt, ms);
    expect_in(rt, &"moments go on", table.last() <= now);
    now
}

/// Which step of which case it is, for the failure to print.
type Place<'a> = (&'a str, usize);

/// A table goes through the steps of a case.
fn play(rt: &impl Abort, what: &str, table: &mut Table, steps: &[Step<'_>]) {
    for (number, step) in steps.iter().enumerate() {
        go(rt, &(what, number), table, step);
    }
}

/// A step. Here are those that grant.
fn go(rt: &impl Abort, place: &Place<'_>, table: &mut Table, step: &Step<'_>) {
    match *step {
        Step::Grant(ms, octets, addr, kind, ttl, expected) => {
            let name = name_of(rt, octets);
            let answer = grant(rt, table, ms, &name, addr, kind, ttl);
            expect_eq_in(rt, place, &answer, &expected);
        }
        Step::Join(ms, count, expected) => join(rt, table, ms, count, expected),
        Step::Grow(ms, octets, addr, kind, ttl, expected) => {
            let name = name_of(rt, octets);
            let answer = grow(rt, table, ms, &name, addr, kind, ttl);
            expect_eq_in(rt, place, &answer, &expected);
        }
        Step::JoinGrowing(ms, count, expected) => {
            join_growing(rt, table, ms, count, expected);
        }
        _ => ask(rt, place, table, step),
    }
}

/// The steps that take no memory.
fn ask(rt: &impl Abort, place: &Place<'_>, table: &mut Table, step: &Step<'_>) {
    match *step {
        Step::LeastEnd(ms, octets, expected) => {
            let now = later(rt, table, ms);
            let end = table.least_end(now, &name_of(rt, octets));
            expect_eq_in(rt, place, &end, &expected);
        }
        Step::Members(ms, octets, expected) => {
            let now = later(rt, table, ms);
            let leases = leases(rt, table, now, &name_of(rt, octets));
            expect_eq_in(rt, place, &leases.as_slice(), &expected);
        }
        _ => panic!(rt; "a step that grants"),
    }
}

fn leases(rt: &impl Abort, table: &Table, now: Moment, name: &Name) -> Leases
    requires { table.now.last ≤ now }
{
    let mut leases = ArrayVec::new();
    for lease in table.members(now, name) {
        leases
            .try_push((lease.addr, lease.end))
            .ok()
            .expect(rt, "at most 41");
    }
    leases
}

fn grant(
    rt: &impl Abort,
    table: &mut Table,
    ms: u64,
    name: &Name,
    addr: u32,
    kind: Kind,
    ttl: u32,
) -> Result<(u32, u64), GrantFault> {
    let now = later(rt, table, ms);
    let answer = table.grant(now, name, addr, kind, ttl);
    expect(rt, table.last() == now);
    answer.map(|grant| (grant.seconds, grant.end))
}

fn join(
    rt: &impl Abort,
    table: &mut Table,
    ms: u64,
    count: u32,
    expected: Result<(u32, u64), GrantFault>,
) {
    let team = name_of(rt, TEAM);
    for addr in 1..=count {
        let answer = grant(rt, table, ms, &team, addr, Kind::Group, 60);
        expect_eq_in(rt, &addr, &answer, &expected);
    }
}

/// Grants; where memory was refused, the name's leases are as before, and the same is asked for again.
fn grow(
    rt: &impl Abort,
    table: &mut Table,
    ms: u64,
    name: &Name,
    addr: u32,
    kind: Kind,
    ttl: u32,
) -> Result<(u32, u64), GrantFault> {
    let now = later(rt, table, ms);
    let before = leases(rt, table, now, name);
    let least = table.least_end(now, name);
    let answer = grant(rt, table, ms, name, addr, kind, ttl);
    if answer != Err(GrantFault::OutOfMemory) {
        return answer;
    }
    let now = later(rt, table, ms);
    let after = leases(rt, table, now, name);
    expect_eq(rt, &after.as_slice(), &before.as_slice());
    expect_eq(rt, &table.least_end(now, name), &least);
    grant(rt, table, ms, name, addr, kind, ttl)
}

fn join_growing(
    rt: &impl Abort,
    table: &mut Table,
    ms: u64,
    count: u32,
    expected: Result<(u32, u64), GrantFault>,
) {
    let team = name_of(rt, TEAM);
    for addr in 1..=count {
        let answer = grow(rt, table, ms, &team, addr, Kind::Group, 60);
        expect_eq_in(rt, &addr, &answer, &expected);
    }
}

#[test]
fn moments_up_to_2_to_the_60(rt: HostRuntime) {
    let last = at(&rt, 1 << 60);
    expect_eq(&rt, &last.get(), &1_152_921_504_606_846_976);
    expect(&rt, Moment::new((1 << 60) + 1).is_none());
    expect(&rt, Moment::zero() < last);
}

/// Limits that are refused: the life, the longest lease, the rows; the fault, and its number.
const REFUSED_LIMITS: &[(u64, u32, usize, ConfigFault, u8)] = &[
    (0, 0, 0, ConfigFault::Life, 1),
    (60_001, 1, 1, ConfigFault::Life, 1),
    (1, 0, 0, ConfigFault::Longest, 2),
    (1, 1_000_001, 1, ConfigFault::Longest, 2),
    (1, 1, 0, ConfigFault::Rows, 3),
    (1, 1, 4_097, ConfigFault::Rows, 3),
];

/// The greatest limits, and what is granted by them.
fn expect_most(rt: &impl Abort, most: &Config) {
    expect_eq(rt, &most.life(), &60_000);
    expect_eq(rt, &most.longest(), &1_000_000);
    expect_eq(rt, &most.rows(), &4_096);
    expect_eq(rt, &most.granted(0), &1_000_000);
    expect_eq(rt, &most.granted(7), &7);
    expect_eq(rt, &most.granted(u32::MAX), &1_000_000);
}

#[test]
fn limits_of_a_configuration(rt: HostRuntime) {
    for (life, longest, rows, fault, number) in REFUSED_LIMITS {
        let refused = Config::new(*life, *longest, *rows).err();
        expect_eq(&rt, &refused, &Some(*fault));
        expect_eq(&rt, &fault.number(), &*number);
    }
    expect_most(
        &rt,
        &Config::new(60_000, 1_000_000, 4_096).expect(&rt, "limits"),
    );
    expect_eq(&rt, &GrantFault::TableFull.number(), &2);
    expect_eq(&rt, &GrantFault::GroupFull.number(), &3);
}

/// Seconds that are granted, and for how many milliseconds a node holds a name by them.
const HOLDS: [(u32, u64); 4] = [(0, 0), (1, 996), (60, 59_878), (1_000_000, 998_001_996)];

/// Lives of a datagram, and for how many milliseconds a name rests where a datagram lives so long.
const RESTS: [(u64, u64); 5] = [
    (1, 4),
    (499, 1_000),
    (500, 1_003),
    (1_000, 2_004),
    (60_000, 120_122),
];

#[test]
fn what_a_node_allows_for_clocks_that_drift(rt: HostRuntime) {
    for (seconds, ms) in &HOLDS {
        expect_eq(&rt, &Config::hold(*seconds), &*ms);
    }
    for (life, ms) in &RESTS {
        expect_eq(
            &rt,
            &Config::new(*life, 60, 4_096).expect(&rt, "limits").quiet(),
            &*ms,
        );
    }
    laws::hold_ends_first();
    laws::rest_outlasts_datagrams();
    laws::drift_bound_of_moves();
}

#[test]
fn laws_of_leases(_rt: HostRuntime) {
    laws::same_leases_same_count();
    laws::same_leases_later();
    laws::later_leases_live_now();
    laws::one_more_lives();
    laws::one_name_changes();
    laws::leases_stay_sound();
    laws::one_case_stands();
    laws::leases_of_others_stay();
    laws::granted_lease_stands();
}

/// One of 65,536 names.
fn one_of_many(rt: &impl Abort, number: u16) -> Name {
    let mut octets = *FRED;
    let [high, low] = number.to_be_bytes();
    octets[13] = high;
    octets[14] = low;
    Name::new(&octets, b"").expect(rt, "a name")
}

/// Grants 4,096 names: every second one ends at 90,000, and the others at 120,000.
fn fill(rt: &impl Abort, table: &mut Table) {
    for number in 0..4096u16 {
        let name = one_of_many(rt, number);
        let ttl = if number % 2 == 0 { 30 } else { 60 };
        let answer = grant(rt, table, 60_000, &name, FIRST, Kind::Unique, ttl);
        expect_eq_in(
            rt,
            &number,
            &answer,
            &Ok((ttl, 60_000 + 1000 * u64::from(ttl))),
        );
    }
}

/// One name more has no room while all live, and has room then.
fn see_room(rt: &impl Abort, table: &mut Table) {
    let further = one_of_many(rt, 4096);
    let full = grant(rt, table, 89_999, &further, FIRST, Kind::Unique, 60);
    expect_eq(rt, &full, &Err(GrantFault::TableFull));
    let answer = grant(rt, table, 90_000, &further, FIRST, Kind::Unique, 60);
    expect_eq(rt, &answer, &Ok((60, 150_000)));
}

/// 4,096 names fill a table, and one more has room once half of them are over.
fn fill_and_see_room(rt: &impl Abort, table: &mut Table) {
    fill(rt, table);
    see_room(rt, table)
}

#[test]
fn a_full_table_has_room_once_half_of_it_is_over(rt: HostRuntime) {
    fill_and_see_room(&rt, &mut table(&rt, 4096))
}

/// A new name, new members, and renewals that move the end may be refused memory. A renewal that moves no end takes none.
const EACH_GROWTH: &[Step<'static>] = &[
    Step::Grow(60_000, FRED, FIRST, Kind::Unique, 30, Ok((30, 90_000))),
    Step::JoinGrowing(60_000, 40, Ok((60, 120_000))),
    Step::JoinGrowing(61_000, 40, Ok((60, 121_000))),
    Step::Join(61_000, 40, Ok((60, 121_000))),
    Step::Grant(61_000, FRED, FIRST, Kind::Unique, 10, Ok((10, 90_000))),
    Step::Grow(61_000, FRED, FIRST, Kind::Unique, 60, Ok((60, 121_000))),
    Step::Members(61_000, FRED, &[(FIRST, 121_000)]),
    // A further member's end is the least; then it is renewed.
    Step::Grow(61_000, TEAM, 0, Kind::Group, 10, Ok((10, 71_000))),
    Step::LeastEnd(61_000, TEAM, Some(71_000)),
    Step::Grow(61_000, TEAM, 0, Kind::Group, 60, Ok((60, 121_000))),
    Step::LeastEnd(120_999, TEAM, Some(121_000)),
    Step::LeastEnd(121_000, TEAM, None),
];

/// With `rt try --test --fail-alloc N` the Nth allocation is refused. Where it is one of the table's, `grant` says so,
/// the leases are as before, and the same call with memory gives what the rule says.
#[test]
fn refused_memory_leaves_the_leases(rt: HostRuntime) {
    play(&rt, "each growth", &mut table(&rt, 4096), EACH_GROWTH)
}
