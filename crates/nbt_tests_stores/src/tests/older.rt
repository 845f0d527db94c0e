//! The file of a store in the older form, as an earlier version wrote it: its lines have no times, and each has a checksum of its own.

use super::damage::{
    DAY, Made, Order, State, change_each, cut_at_each, see_faults, see_made, see_orders,
};
use nbt_store::{Fault, Form};

/// A file that was written with one lease, and three more changes. The checksums were computed apart from this program.
const FILE: &str = "nbt leases, version 2\n\
1000 60 4096 boot-1 7 5 77 1700000000000 1 9086ee05\n\
began FRED 192.0.2.7:137 unique 60077 f11427eb\n\
began TEAM 192.0.2.8:137 group 60078 eb6be340\n\
moved FRED 192.0.2.7:137 65000 bc0d448f\n\
released TEAM 192.0.2.8:137 3170882e\n";

/// How many leases there are after each number of changes of it, from the first on. It goes until it was written.
const STATES: [State; 4] = [
    (1, (77, 77, DAY)),
    (2, (77, 77, DAY)),
    (2, (77, 77, DAY)),
    (1, (77, 77, DAY)),
];

#[test]
fn older_file_cut_at_each_octet(rt: HostRuntime) {
    cut_at_each(&rt, Form::Two, FILE.as_bytes(), &STATES)
}

#[test]
fn older_file_with_each_octet_changed(rt: HostRuntime) {
    change_each(&rt, Form::Two, FILE.as_bytes(), &STATES)
}

/// The lines of the file in another order, without one, or with one twice: each stands for itself.
const ORDERS: &[Order<'static>] = &[
    (&[1, 2, 3, 4, 5, 6], Ok(1)),
    (&[1, 2, 4, 5, 6], Ok(0)),
    (&[1, 2, 3, 5, 6], Ok(1)),
    (&[1, 2, 3, 4, 6], Ok(1)),
    (&[1, 2, 3, 4, 6, 5], Ok(1)),
    (&[1, 2, 6, 5, 4, 3], Ok(2)),
    (&[1, 2, 3, 3, 4, 4, 5], Ok(2)),
    (&[1, 2, 3, 4, 5, 6, 6], Ok(1)),
    (&[1, 2, 2, 3, 4, 5, 6], Err(Fault::Damaged(3))),
    (&[1, 2], Err(Fault::Damaged(3))),
];

#[test]
fn lines_of_an_older_file_in_another_order(rt: HostRuntime) {
    see_orders(&rt, Form::Two, FILE, ORDERS)
}

/// What files begin with: one that was written without a lease, and one with a lease.
const NO_LEASE: &str = "nbt leases, version 2\n\
1000 60 4096 boot-1 7 5 77 1700000000000 0 9086ee04\n";

const FRED_LEASE: &str = "nbt leases, version 2\n\
1000 60 4096 boot-1 7 5 77 1700000000000 1 9086ee05\n\
began FRED 192.0.2.7:137 unique 60077 f11427eb\n";

/// Lines with a checksum of their own, but for those that say otherwise. It isn't asked whether a lease is there that moves or goes.
const MADE_UP: &[Made<'static>] = &[
    (
        "a move of a name without a lease",
        NO_LEASE,
        "moved FRED 192.0.2.7:137 65000 bc0d448f\n",
        Ok(0),
    ),
    (
        "a move of an address without one",
        FRED_LEASE,
        "moved FRED 192.0.2.8:137 65000 90733d1e\n",
        Ok(1),
    ),
    (
        "a release of a name without a lease",
        NO_LEASE,
        "released FRED 192.0.2.7:137 c69e0d3b\n",
        Ok(0),
    ),
    (
        "a lease that was released twice",
        FRED_LEASE,
        "released FRED 192.0.2.7:137 c69e0d3b\nreleased FRED 192.0.2.7:137 c69e0d3b\n",
        Ok(0),
    ),
    (
        "a lease in words of the newer form",
        NO_LEASE,
        "began FRED 192.0.2.7:137 - unique 60077 77 5051dc23\n",
        Err(Fault::Damaged(3)),
    ),
    (
        "a move with its time",
        FRED_LEASE,
        "moved FRED 192.0.2.7:137 65000 90 4460c040\n",
        Err(Fault::Damaged(4)),
    ),
    (
        "a release with its time",
        FRED_LEASE,
        "released FRED 192.0.2.7:137 90 0784fff3\n",
        Err(Fault::Damaged(4)),
    ),
    (
        "a time that was reached",
        NO_LEASE,
        "reached 90 45b5de0e\n",
        Err(Fault::Damaged(3)),
    ),
    (
        "a look",
        NO_LEASE,
        "looked 1700000000000 90 0e073ea4\n",
        Err(Fault::Damaged(3)),
    ),
    (
        "a checksum that goes on from the header",
        NO_LEASE,
        "began FRED 192.0.2.7:137 unique 60077 afe983c3\n",
        Err(Fault::Damaged(3)),
    ),
    (
        "and one that goes on from the line before",
        FRED_LEASE,
        "released FRED 192.0.2.7:137 5ccd8087\n",
        Err(Fault::Damaged(4)),
    ),
];

#[test]
fn made_up_lines_of_an_older_file(rt: HostRuntime) {
    see_made(&rt, Form::Two, MADE_UP)
}

/// Octets that are no file, and why.
const FAULTS: &[(&[u8], Fault)] = &[
    (b"nbt leases, version 2", Fault::Empty),
    (b"nbt leases, version 2\n", Fault::Damaged(2)),
    (
        b"nbt leases, version 2\n1000 60 4096 boot-1 5 77 2cf8e45b\n",
        Fault::Damaged(2),
    ),
    // It doesn't say with how many leases it was written.
    (
        b"nbt leases, version 2\n1000 60 4096 boot-1 7 5 77 1700000000000 649305e6\n",
        Fault::Damaged(2),
    ),
    // It was written with two leases, of which one is there; or with more than there are lines in the world.
    (
        b"nbt leases, version 2\n1000 60 4096 boot-1 7 5 77 1700000000000 2 9086ee06\nbegan FRED 192.0.2.7:137 unique 60077 f11427eb\n",
        Fault::Damaged(4),
    ),
    (
        b"nbt leases, version 2\n1000 60 4096 boot-1 7 5 77 1700000000000 18446744073709551615 c328c7c3\n",
        Fault::Damaged(3),
    ),
    (
        b"nbt leases, version 2\n1000 60 4096 boot-1 7 5 77 1700000000000 18446744073709551616 c328c7c4\n",
        Fault::Damaged(2),
    ),
    // A damaged line comes before one that is missing.
    (
        b"nbt leases, version 2\n1000 60 4096 boot-1 7 5 77 1700000000000 2 9086ee06\nbegan FRED 192.0.2.7:137 unique 60077 f11427ea\n",
        Fault::Damaged(3),
    ),
];

#[test]
fn octets_that_are_no_older_file(rt: HostRuntime) {
    see_faults(&rt, Form::Two, FAULTS);
}
