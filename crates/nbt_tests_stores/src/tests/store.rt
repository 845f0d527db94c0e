//! The file of a store as text, and what is loaded of it. Its checksums were computed apart from this program.

use super::damage::{
    DAY, Made, Order, State, Until, change_each, cut_at_each, see_faults, see_made, see_orders,
    see_times,
};
use super::expect::{expect, expect_eq};
use super::{fred, header, team};
use nbt_lease::Lease;
use nbt_name::{Kind, Name};
use nbt_store::{Boot, Broken, Change, Fault, Form, Header, Store, write_change, write_file};
use std::alloc::{AllocError, Global};
use std::collections::VecDeque;
use std::process::Abort;

/// The changes by which these leases begin at this time.
fn begun_of(
    alloc: Global,
    rows: &[(Name, Lease)],
    at: u64,
) -> Result<VecDeque<Change>, AllocError> {
    let mut changes = VecDeque::new(alloc);
    for (name, lease) in rows {
        changes.push_back(Change::Began {
            name: name.copy(),
            lease: *lease,
            at,
        })?;
    }
    Ok(changes)
}

/// Has a store begin a new file of these leases. Refused if out of memory too.
pub fn begin_renewal<S: Store>(
    alloc: Global,
    store: &mut S,
    header: &Header,
    rows: &[(Name, Lease)],
) -> Result<(), Broken> {
    match begun_of(alloc, rows, header.last) {
        Ok(changes) => store.begin_renewal(header, changes),
        Err(_) => Err(Broken),
    }
}

/// The same, and goes on with it by one part: the leases are few.
pub fn renew<S: Store>(
    alloc: Global,
    store: &mut S,
    header: &Header,
    rows: &[(Name, Lease)],
) -> Result<(), Broken> {
    begin_renewal(alloc, store, header, rows)?;
    match store.go_on() {
        Ok(true) => Ok(()),
        _ => Err(Broken),
    }
}

const FIRST: u32 = 0xC000_0207;

const SECOND: u32 = 0xC000_0208;

/// A file that was written with one lease, and a line more of each kind. The checksum of each goes on from that of the line before.
pub const FILE: &str = "nbt leases, version 3\n\
1000 60 4096 boot-1 7 5 77 1700000000000 1 9086ee05\n\
began FRED 192.0.2.7:137 - unique 60077 77 858742c9\n\
began TEAM 192.0.2.8:137 - group 60078 80 88696714\n\
moved FRED 192.0.2.7:137 65000 5000 71f7829a\n\
reached 6200 0b181e94\n\
looked 1700000007000 7077 5b82cef1\n\
released TEAM 192.0.2.8:137 7100 9ea9c4d4\n";

/// The checksums of the line with which it was written, and of the last one.
const WRITTEN: u32 = 0x8587_42C9;

const LAST: u32 = 0x9EA9_C4D4;

/// How many leases there are after each number of changes of it, from the first on, and until when they go.
const STATES: [State; 6] = [
    (1, (77, 77, DAY)),
    (2, (80, 77, DAY)),
    (2, (5_000, 77, DAY)),
    (2, (6_200, 77, DAY)),
    (2, (7_077, 7_077, DAY + 7_000)),
    (1, (7_100, 7_077, DAY + 7_000)),
];

/// FRED of the first host, alone.
pub fn fred_lease() -> Lease {
    Lease {
        addr: FIRST,
        kind: Kind::Unique,
        end: 60_077,
    }
}

/// TEAM of the second host.
fn team_lease() -> Lease {
    Lease {
        addr: SECOND,
        kind: Kind::Group,
        end: 60_078,
    }
}

/// The changes of the file since it was written.
pub fn changes(rt: &impl Abort) -> [Change; 5] {
    [
        Change::Began {
            name: team(rt, b""),
            lease: team_lease(),
            at: 80,
        },
        Change::Moved {
            name: fred(rt, b""),
            addr: FIRST,
            end: 65_000,
            at: 5_000,
        },
        Change::Reached { at: 6_200 },
        Change::Looked {
            day: DAY + 7_000,
            at: 7_077,
        },
        Change::Released {
            name: team(rt, b""),
            addr: SECOND,
            at: 7_100,
        },
    ]
}

/// Writes the changes behind a line with this checksum. Returns that of the last one.
fn write_changes(rt: &impl Abort, alloc: Global, first: u32, out: &mut String) -> u32 {
    let mut sum = first;
    for change in changes(rt).iter() {
        sum = write_change(alloc, sum, change, out).expect(rt, "a line");
    }
    sum
}

#[test]
fn file_of_a_store(rt: HostRuntime) {
    let alloc = rt.alloc();
    let rows = [(fred(&rt, b""), fred_lease())];
    let mut out = String::new(alloc);
    let written = write_file(alloc, &header(&rt, 77), &rows, &mut out).expect(&rt, "a file");
    expect_eq(&rt, &written, &WRITTEN);
    let last = write_changes(&rt, alloc, written, &mut out);
    expect_eq(&rt, &last, &LAST);
    expect_eq(&rt, &out.as_str(), &FILE);
}

#[test]
fn file_of_a_store_cut_at_each_octet(rt: HostRuntime) {
    cut_at_each(&rt, Form::Three, FILE.as_bytes(), &STATES)
}

#[test]
fn file_of_a_store_with_each_octet_changed(rt: HostRuntime) {
    change_each(&rt, Form::Three, FILE.as_bytes(), &STATES)
}

/// The lines of the file in another order, without one, or with one twice. Only the last ones can be missing: a crash cuts them off.
const ORDERS: &[Order<'static>] = &[
    (&[1, 2, 3, 4, 5, 6, 7, 8], Ok(1)),
    (&[2, 3, 4, 5, 6, 7, 8], Err(Fault::Version)),
    (&[1, 3, 4, 5, 6, 7, 8], Err(Fault::Damaged(2))),
    (&[1, 2, 4, 5, 6, 7, 8], Err(Fault::Damaged(3))),
    (&[1, 2, 3, 5, 6, 7, 8], Err(Fault::Damaged(4))),
    (&[1, 2, 3, 4, 6, 7, 8], Err(Fault::Damaged(5))),
    (&[1, 2, 3, 4, 5, 7, 8], Err(Fault::Damaged(6))),
    (&[1, 2, 3, 4, 5, 6, 8], Err(Fault::Damaged(7))),
    (&[1, 2, 3, 4, 5, 6, 7], Ok(2)),
    // Two changed places.
    (&[1, 2, 4, 3, 5, 6, 7, 8], Err(Fault::Damaged(3))),
    (&[1, 2, 3, 5, 4, 6, 7, 8], Err(Fault::Damaged(4))),
    (&[1, 2, 3, 4, 6, 5, 7, 8], Err(Fault::Damaged(5))),
    (&[1, 2, 3, 4, 5, 6, 8, 7], Err(Fault::Damaged(7))),
    // One stands there twice.
    (&[1, 1, 2, 3, 4, 5, 6, 7, 8], Err(Fault::Damaged(2))),
    (&[1, 2, 2, 3, 4, 5, 6, 7, 8], Err(Fault::Damaged(3))),
    (&[1, 2, 3, 3, 4, 5, 6, 7, 8], Err(Fault::Damaged(4))),
    (&[1, 2, 3, 4, 5, 6, 6, 7, 8], Err(Fault::Damaged(7))),
    (&[1, 2, 3, 4, 5, 6, 7, 8, 8], Err(Fault::Damaged(9))),
    (&[1, 2, 3, 4, 5, 6, 7, 8, 4], Err(Fault::Damaged(9))),
];

#[test]
fn lines_of_a_store_in_another_order(rt: HostRuntime) {
    see_orders(&rt, Form::Three, FILE, ORDERS)
}

/// What files begin with: one that was written without a lease, one that was to have one, and that one with its lease.
const NO_LEASE: &str = "nbt leases, version 3\n\
1000 60 4096 boot-1 7 5 77 1700000000000 0 9086ee04\n";

const OF_ONE: &str = "nbt leases, version 3\n\
1000 60 4096 boot-1 7 5 77 1700000000000 1 9086ee05\n";

const FRED_LEASE: &str = "nbt leases, version 3\n\
1000 60 4096 boot-1 7 5 77 1700000000000 1 9086ee05\n\
began FRED 192.0.2.7:137 - unique 60077 77 858742c9\n";

/// The same with the second line of a file that was written a millisecond later.
const OF_A_LATER_ONE: &str = "nbt leases, version 3\n\
1000 60 4096 boot-1 7 5 78 1700000000000 1 7bd3827d\n\
began FRED 192.0.2.7:137 - unique 60077 77 858742c9\n";

/// Lines with the checksum that they are to have there, but for those that say otherwise.
const MADE_UP: &[Made<'static>] = &[
    ("a lease", FRED_LEASE, "", Ok(1)),
    (
        "a lease behind the second line of another file",
        OF_A_LATER_ONE,
        "",
        Err(Fault::Damaged(3)),
    ),
    (
        "a lease in words of the older form",
        OF_ONE,
        "began FRED 192.0.2.7:137 unique 60077 a07d0da8\n",
        Err(Fault::Damaged(3)),
    ),
    (
        "a lease with a further address",
        OF_ONE,
        "began FRED 192.0.2.7:137 192.0.2.9:137 unique 60077 77 0cb1fa7c\n",
        Err(Fault::Damaged(3)),
    ),
    (
        "a lease without its time",
        OF_ONE,
        "began FRED 192.0.2.7:137 - unique 60077 65e89d8b\n",
        Err(Fault::Damaged(3)),
    ),
    (
        "a lease with a word more",
        OF_ONE,
        "began FRED 192.0.2.7:137 - unique 60077 77 1 d6d896f6\n",
        Err(Fault::Damaged(3)),
    ),
    (
        "a move without its time",
        FRED_LEASE,
        "moved FRED 192.0.2.7:137 65000 61d086bb\n",
        Err(Fault::Damaged(4)),
    ),
    (
        "a release without its time",
        FRED_LEASE,
        "released FRED 192.0.2.7:137 735b27af\n",
        Err(Fault::Damaged(4)),
    ),
    (
        "no time that was reached",
        FRED_LEASE,
        "reached 5c03fce0\n",
        Err(Fault::Damaged(4)),
    ),
    (
        "two of them",
        FRED_LEASE,
        "reached 90 91 acb19a8f\n",
        Err(Fault::Damaged(4)),
    ),
    (
        "a look without its time",
        FRED_LEASE,
        "looked 1700000000000 44100332\n",
        Err(Fault::Damaged(4)),
    ),
    (
        "another verb",
        FRED_LEASE,
        "slept 90 7d1b18f8\n",
        Err(Fault::Damaged(4)),
    ),
    (
        "a move of a name without a lease",
        NO_LEASE,
        "moved FRED 192.0.2.7:137 65000 90 ac9e3426\n",
        Err(Fault::Damaged(3)),
    ),
    (
        "a move of an address without one",
        FRED_LEASE,
        "moved FRED 192.0.2.8:137 65000 90 a2c61aaf\n",
        Err(Fault::Damaged(4)),
    ),
    (
        "a move of another name of that address",
        FRED_LEASE,
        "moved TEAM 192.0.2.7:137 65000 90 57a46da8\n",
        Err(Fault::Damaged(4)),
    ),
    (
        "a move of a lease that was released",
        FRED_LEASE,
        "released FRED 192.0.2.7:137 90 ad48421a\nmoved FRED 192.0.2.7:137 65000 91 79217f45\n",
        Err(Fault::Damaged(5)),
    ),
    (
        "a move of a lease that is over",
        FRED_LEASE,
        "reached 90000 acc1b195\nmoved FRED 192.0.2.7:137 150000 90000 c25fec13\n",
        Ok(1),
    ),
    (
        "a release of a name without a lease",
        NO_LEASE,
        "released FRED 192.0.2.7:137 90 6a1c80ae\n",
        Err(Fault::Damaged(3)),
    ),
    (
        "a release of an address without one",
        FRED_LEASE,
        "released FRED 192.0.2.8:137 90 d580b2ca\n",
        Err(Fault::Damaged(4)),
    ),
    (
        "a lease that was released twice",
        FRED_LEASE,
        "released FRED 192.0.2.7:137 90 ad48421a\nreleased FRED 192.0.2.7:137 90 5c72847b\n",
        Err(Fault::Damaged(5)),
    ),
    (
        "one that began again between",
        FRED_LEASE,
        "released FRED 192.0.2.7:137 90 ad48421a\nbegan FRED 192.0.2.7:137 - unique 60077 77 153d4eb1\nreleased FRED 192.0.2.7:137 90 fd05d36b\n",
        Ok(0),
    ),
    (
        "the first lease has the checksum that it would have alone",
        OF_ONE,
        "began FRED 192.0.2.7:137 - unique 60077 77 5051dc23\n",
        Err(Fault::Damaged(3)),
    ),
    (
        "a later line has the one that it would have alone",
        FRED_LEASE,
        "reached 90 45b5de0e\n",
        Err(Fault::Damaged(4)),
    ),
    (
        "a later line goes on from the header",
        FRED_LEASE,
        "reached 90 488e8e17\n",
        Err(Fault::Damaged(4)),
    ),
];

#[test]
fn made_up_lines_of_a_store(rt: HostRuntime) {
    see_made(&rt, Form::Three, MADE_UP)
}

/// Which case it is, what the file begins with, what stands behind that, and until when it goes.
type Timed<'a> = (&'a str, &'a str, &'a str, Until);

const TIMES: &[Timed<'static>] = &[
    (
        "nothing changed since it was written",
        NO_LEASE,
        "",
        (77, 77, DAY),
    ),
    (
        "the greatest time, and not that of the last line",
        NO_LEASE,
        "reached 1400 52ca103b\nreached 1200 b539dedd\n",
        (1_400, 77, DAY),
    ),
    (
        "no line is later than the file",
        NO_LEASE,
        "reached 5 5e16127d\n",
        (77, 77, DAY),
    ),
    (
        "a lease that began",
        NO_LEASE,
        "began FRED 192.0.2.7:137 - unique 60077 90 013c86d0\n",
        (90, 77, DAY),
    ),
    (
        "one that moved",
        FRED_LEASE,
        "moved FRED 192.0.2.7:137 65000 91 24a607de\n",
        (91, 77, DAY),
    ),
    (
        "one that was released",
        FRED_LEASE,
        "released FRED 192.0.2.7:137 92 ad48421c\n",
        (92, 77, DAY),
    ),
    (
        "a look, and a time behind it",
        NO_LEASE,
        "looked 1700000000900 1000 2d181a9c\nreached 1100 76b5641c\n",
        (1_100, 1_000, DAY + 900),
    ),
    (
        "a look at an earlier time",
        NO_LEASE,
        "reached 1400 52ca103b\nlooked 1700000000900 1000 ee4834d8\n",
        (1_400, 1_000, DAY + 900),
    ),
    (
        "the last look, and not the latest",
        NO_LEASE,
        "looked 1700000002000 2000 85716a58\nlooked 1700000000009 1500 b356956f\n",
        (2_000, 1_500, DAY + 9),
    ),
    (
        "a time of day before that of the file",
        NO_LEASE,
        "looked 5 1000 a6eaaf04\n",
        (1_000, 1_000, 5),
    ),
    (
        "the greatest of all times",
        NO_LEASE,
        "reached 18446744073709551615 e38823de\n",
        (u64::MAX, 77, DAY),
    ),
];

/// Each goes until then.
fn see_each(rt: &(impl Abort + AllocGlobal), rows: &[Timed<'_>]) {
    for row in rows {
        let (_, front, behind, wanted) = *row;
        see_times(rt, row, front, behind, wanted);
    }
}

#[test]
fn times_of_a_store(rt: HostRuntime) {
    see_each(&rt, TIMES)
}

/// Octets that are no file, and why.
const FAULTS: &[(&[u8], Fault)] = &[
    (b"", Fault::Empty),
    (b"nbt leases, version 3", Fault::Empty),
    (b"\n", Fault::Version),
    (b"nbt leases, version 1\n", Fault::Version),
    (b"nbt leases, version 4\n", Fault::Version),
    (b"nbt leases, version 33\n", Fault::Version),
    (b"nbt leases, version 3\n", Fault::Damaged(2)),
    (
        b"nbt leases, version 3\n1000 60 4096 boot-1 5 77 2cf8e45b\n",
        Fault::Damaged(2),
    ),
    // It doesn't say with how many leases it was written.
    (
        b"nbt leases, version 3\n1000 60 4096 boot-1 7 5 77 1700000000000 649305e6\n",
        Fault::Damaged(2),
    ),
    // It was written with two leases, of which one is there; or with more than there are lines in the world.
    (
        b"nbt leases, version 3\n1000 60 4096 boot-1 7 5 77 1700000000000 2 9086ee06\nbegan FRED 192.0.2.7:137 - unique 60077 77 09d200c2\n",
        Fault::Damaged(4),
    ),
    (
        b"nbt leases, version 3\n1000 60 4096 boot-1 7 5 77 1700000000000 18446744073709551615 c328c7c3\n",
        Fault::Damaged(3),
    ),
    (
        b"nbt leases, version 3\n1000 60 4096 boot-1 7 5 77 1700000000000 18446744073709551616 c328c7c4\n",
        Fault::Damaged(2),
    ),
    // A damaged line comes before one that is missing.
    (
        b"nbt leases, version 3\n1000 60 4096 boot-1 7 5 77 1700000000000 2 9086ee06\nbegan FRED 192.0.2.7:137 - unique 60077 77 09d200c3\n",
        Fault::Damaged(3),
    ),
];

#[test]
fn octets_that_are_no_file_of_a_store(rt: HostRuntime) {
    see_faults(&rt, Form::Three, FAULTS);
}

/// A boot's id has 1 to 36 characters, none of which is a space.
#[test]
fn ids_of_boots(rt: HostRuntime) {
    expect(&rt, Boot::new(b"").is_none());
    expect(&rt, Boot::new(b"boot 1").is_none());
    expect(
        &rt,
        Boot::new(b"5b5b0b6e-6f5f-4b7e-8a55-6d7a1c1d2e3f").is_some(),
    );
    expect(
        &rt,
        Boot::new(b"5b5b0b6e-6f5f-4b7e-8a55-6d7a1c1d2e3f0").is_none(),
    );
}
