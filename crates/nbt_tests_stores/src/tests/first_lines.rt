//! The first line of a server that keeps its leases.

use super::damage::DAY;
use super::expect::expect_eq_in;
use nbt_lease::Moment;
use nbt_log::Dates;
use nbt_name::Addr;
use nbt_nbns::{Manner, manner_of, write_begin, write_check};
use nbt_store::{Fault, Reason, Silence};
use std::process::Abort;

/// When a server began first, the time now, from when on it serves, how many leases it has, why it begins anew, and its first line. The
/// time of day is 2023-11-14T22:13:20Z.
type Line<'a> = (u64, u64, u64, usize, Option<Reason>, &'a str);

const LINES: &[Line<'static>] = &[
    (
        5,
        60_005,
        60_005,
        0,
        None,
        "serving 127.0.0.1:137, with 0 leases kept\n",
    ),
    (
        5,
        60_005,
        60_005,
        1,
        None,
        "serving 127.0.0.1:137, with 1 lease kept\n",
    ),
    (
        5,
        60_004,
        60_004,
        2,
        None,
        "serving 127.0.0.1:137, with 2 leases kept, silent for 1 s until 2023-11-14T22:13:20Z\n",
    ),
    (
        5,
        5,
        5,
        17,
        None,
        "serving 127.0.0.1:137, with 17 leases kept, silent for 60 s until 2023-11-14T22:14:20Z\n",
    ),
    (
        1_000,
        2_001,
        2_001,
        17,
        None,
        "serving 127.0.0.1:137, with 17 leases kept, silent for 59 s until 2023-11-14T22:14:18Z\n",
    ),
    (
        5,
        70_000,
        71_000,
        2,
        None,
        "serving 127.0.0.1:137, with 2 leases kept, silent for 1 s until 2023-11-14T22:13:21Z\n",
    ),
    (
        5,
        59_500,
        60_500,
        1,
        None,
        "serving 127.0.0.1:137, with 1 lease kept, silent for 1 s until 2023-11-14T22:13:21Z\n",
    ),
    (
        5,
        58_000,
        59_000,
        0,
        None,
        "serving 127.0.0.1:137, with 0 leases kept, silent for 3 s until 2023-11-14T22:13:22Z\n",
    ),
    (
        5,
        59_005,
        60_005,
        3,
        None,
        "serving 127.0.0.1:137, with 3 leases kept, silent for 1 s until 2023-11-14T22:13:21Z\n",
    ),
    (
        9_998,
        10_070,
        11_070,
        1,
        None,
        "serving 127.0.0.1:137, with 1 lease kept, silent for 60 s until 2023-11-14T22:14:19Z\n",
    ),
    (
        5,
        5,
        5,
        0,
        Some(Reason::Nothing),
        "serving 127.0.0.1:137, silent for 60 s until 2023-11-14T22:14:20Z, since nothing was kept\n",
    ),
    (
        5,
        5,
        5,
        0,
        Some(Reason::File(Fault::Empty)),
        "serving 127.0.0.1:137, silent for 60 s until 2023-11-14T22:14:20Z, since nothing was kept\n",
    ),
    (
        5,
        5,
        5,
        0,
        Some(Reason::File(Fault::Version)),
        "serving 127.0.0.1:137, silent for 60 s until 2023-11-14T22:14:20Z, since another version\n",
    ),
    (
        5,
        5,
        5,
        0,
        Some(Reason::File(Fault::Damaged(17))),
        "serving 127.0.0.1:137, silent for 60 s until 2023-11-14T22:14:20Z, since damaged at line 17\n",
    ),
    (
        5,
        5,
        5,
        0,
        Some(Reason::Other(Silence::OtherLife)),
        "serving 127.0.0.1:137, silent for 60 s until 2023-11-14T22:14:20Z, since another LIFE\n",
    ),
    (
        5,
        5,
        5,
        0,
        Some(Reason::Other(Silence::OtherLongest)),
        "serving 127.0.0.1:137, silent for 60 s until 2023-11-14T22:14:20Z, since another LONGEST\n",
    ),
    (
        5,
        5,
        5,
        0,
        Some(Reason::Other(Silence::OtherRows)),
        "serving 127.0.0.1:137, silent for 60 s until 2023-11-14T22:14:20Z, since another number of rows\n",
    ),
    (
        5,
        5,
        5,
        0,
        Some(Reason::Other(Silence::BadTimes)),
        "serving 127.0.0.1:137, silent for 60 s until 2023-11-14T22:14:20Z, since times that no server keeps\n",
    ),
    (
        5,
        5,
        5,
        0,
        Some(Reason::Other(Silence::OtherBoot)),
        "serving 127.0.0.1:137, silent for 60 s until 2023-11-14T22:14:20Z, since another boot\n",
    ),
    (
        5,
        5,
        5,
        0,
        Some(Reason::Other(Silence::Apart)),
        "serving 127.0.0.1:137, silent for 60 s until 2023-11-14T22:14:20Z, since clocks that went apart\n",
    ),
    (
        5,
        5,
        5,
        0,
        Some(Reason::Other(Silence::Older)),
        "serving 127.0.0.1:137, silent for 60 s until 2023-11-14T22:14:20Z, since kept by an older version\n",
    ),
    (
        5,
        5,
        5,
        0,
        Some(Reason::Full),
        "serving 127.0.0.1:137, silent for 60 s until 2023-11-14T22:14:20Z, since more leases than rows\n",
    ),
    (
        5,
        5,
        5,
        0,
        Some(Reason::Unsound),
        "serving 127.0.0.1:137, silent for 60 s until 2023-11-14T22:14:20Z, since leases that no server grants\n",
    ),
    (
        5,
        5,
        5,
        0,
        Some(Reason::Over),
        "serving 127.0.0.1:137, silent for 60 s until 2023-11-14T22:14:20Z, since the kept leases are over\n",
    ),
];

fn moment(rt: &impl Abort, ms: u64) -> Moment {
    Moment::new(ms).expect(rt, "a moment")
}

/// Each server says how it begins, and is said so to begin where it is only checked.
fn say_all(rt: &(impl Abort + AllocGlobal), rows: &[Line<'_>]) {
    let end = Addr {
        ip: 0x7F00_0001,
        port: 137,
    };
    for row in rows {
        let (start, now, serves, count, reason, wanted) = *row;
        let dates = Dates {
            moment: moment(rt, now),
            time: moment(rt, DAY),
        };
        let manner: Manner = manner_of(
            60,
            moment(rt, start),
            moment(rt, serves),
            &dates,
            count,
            reason,
        );
        let mut line = String::new(rt.alloc());
        write_begin(&[end], manner, &mut line).expect(rt, "a first line");
        expect_eq_in(rt, row, &line.as_str(), &wanted);
        line.clear();
        write_check(manner, &mut line).expect(rt, "the line of a check");
        let said = line.as_str().strip_prefix("would serve");
        expect_eq_in(
            rt,
            row,
            &said.expect(rt, "its words"),
            &wanted
                .strip_prefix("serving 127.0.0.1:137")
                .expect(rt, "an address"),
        );
    }
}

#[test]
fn first_lines_of_servers_over_a_state(rt: HostRuntime) {
    say_all(&rt, LINES)
}
