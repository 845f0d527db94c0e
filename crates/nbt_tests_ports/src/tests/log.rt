//! What a server says of itself where no datagram brings it about: flags of a broadcast beside an answer, counts that are full, the syncs of
//! a state, and moments before 1970.

use super::expect::{expect, expect_eq, expect_eq_in};
use nbt_lease::Moment;
use nbt_log::{
    Dates, Entry, Figures, Health, LineKind, OutcomeCounts, RefusalCounts, Tally, measure,
    write_stats,
};
use nbt_name::{Addr, Kind, Name};
use nbt_port::OwnReplies;
use nbt_server::{Claim, Outcome, Refusal};
use std::process::Abort;

const FROM: Addr = Addr {
    ip: 0xC000_0209,
    port: 137,
};

/// A request with B set.
const BROADCAST: [u8; 4] = [0, 1, 0x29, 0x10];

fn fred(rt: &impl Abort) -> Name {
    Name::new(b"FRED            ", b"").expect(rt, "a name")
}

fn claim(rt: &impl Abort) -> Claim {
    Claim {
        name: fred(rt),
        kind: Kind::Unique,
        addr: FROM.ip,
    }
}

/// What was a request to a server has the line of its outcome, whatever its flags are.
#[test]
fn an_answer_to_a_broadcast_is_none(rt: HostRuntime) {
    let found = Entry::of(FROM, &BROADCAST, Outcome::Found(fred(&rt)));
    let silent = Entry::of(FROM, &BROADCAST, Outcome::Silent(fred(&rt)));
    for broadcasts in [false, true] {
        expect_eq(&rt, &found.told_kind(broadcasts), &None);
        expect_eq(
            &rt,
            &silent.told_kind(broadcasts),
            &Some(LineKind::Unanswered),
        );
    }
    let granted = Entry::of(FROM, &BROADCAST, Outcome::Granted(claim(&rt), 60));
    let mut tally = Tally::new();
    tally.count(&Some(granted), 0);
    expect_eq(&rt, &tally.outcomes.granted, &1);
    expect_eq(&rt, &tally.outcomes.broadcast, &0);
}

/// A tally of which each count is this.
fn tally_of(count: u64) -> Tally {
    Tally {
        outcomes: OutcomeCounts {
            granted: count,
            renewed: count,
            refused: count,
            released: count,
            not_leased: count,
            not_released: count,
            found: count,
            not_found: count,
            unanswered: count,
            foreign: count,
            malformed: count,
            broadcast: count,
        },
        refusals: RefusalCounts {
            not_own: count,
            star: count,
            overwrite: count,
            active: count,
            table_full: count,
            group_full: count,
            client_full: count,
        },
        lines_dropped: count,
    }
}

#[test]
fn counts_go_on_and_never_wrap(rt: HostRuntime) {
    let refused = Some(Entry::of(FROM, &[], Outcome::Refused(claim(&rt), Refusal::Star)));
    let mut wanted = tally_of(7);
    wanted.outcomes.refused = 8;
    wanted.refusals.star = 8;
    wanted.lines_dropped = 9;
    let mut tally = tally_of(7);
    tally.count(&refused, 2);
    expect_eq(&rt, &tally, &wanted);
    let mut tally = tally_of(u64::MAX);
    tally.count(&refused, 2);
    expect_eq(&rt, &tally, &tally_of(u64::MAX));
}

/// What the statistics of a server with a state end with: 302 syncs, which took 303,456 ms, and the version.
const SYNCS: &str =
    "nbt_nbns_state_syncs_total 302\n# HELP nbt_nbns_state_sync_seconds_total How long it took to make the state durable, taken together.\n# TYPE nbt_nbns_state_sync_seconds_total counter\nnbt_nbns_state_sync_seconds_total 303.456\n# HELP nbt_nbns_build_info Of which version the program is; its value is always 1.\n# TYPE nbt_nbns_build_info gauge\nnbt_nbns_build_info{version=\"0.1.0\"} 1\n";

#[test]
fn statistics_end_with_the_syncs_of_a_state_and_the_version(rt: HostRuntime) {
    let figures = Figures {
        tally: tally_of(0),
        health: Health {
            failures: 0,
            own: OwnReplies::NONE,
            barred: 0,
            syncs: 302,
            sync_milliseconds: 303_456,
        },
        gauges: measure(&[], 16, Moment::zero()),
        since: 0,
        silence: 0,
        written: 0,
    };
    let mut text = String::new(rt.alloc());
    write_stats(&figures, &mut text).expect(&rt, "write stats");
    expect(&rt, text.as_str().ends_with(SYNCS));
}

/// A moment before or after that of 1970, which is the moment 10,000, and its second.
const EARLY: [(u64, u64); 3] = [(9_000, 0), (10_999, 0), (11_000, 1)];

#[test]
fn a_moment_before_1970_is_dated_to_it(rt: HostRuntime) {
    let dates = Dates {
        moment: Moment::new(10_000).expect(&rt, "a moment"),
        time: Moment::zero(),
    };
    for (at, second) in EARLY {
        expect_eq_in(&rt, &at, &dates.second_at(at), &second);
    }
}
