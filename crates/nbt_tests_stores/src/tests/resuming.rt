//! Leases that were kept: tables that are restored, servers that resume with them, and what each datagram changes. A datagram
//! lives 1,000 ms at most, and the longest lease is 60 s.

use super::expect::{expect_eq_in, expect_in};
use super::{FRED, TEAM};
use arrayvec::ArrayVec;
use nbt_lease::{Config, Lease, Moment, RestoreFault, Table};
use nbt_name::{Addr, Kind, Name};
use nbt_serve::change_of;
use nbt_server::{ResumeFault, Server, ServerFault};
use nbt_store::Change;
use nbt_testing::{
    FIRST, FOUND, GRANTED, QUERY, REFRESH, REFUSED, REGISTRATION, RELEASE, RIVAL, SECOND, octets,
    started,
};
use std::process::Abort;

/// A row that was kept: a name, an address, a kind and an expiry.
type Kept<'a> = (&'a [u8; 16], u32, Kind, u64);

/// The addresses and expiries of a name's leases.
type Leases<'a> = &'a [(u32, u64)];

/// Which case it is, the rows that were kept, and what lives of FRED and of TEAM at 60,000 in a table of four rows; or why
/// there is none.
type Restoring<'a> = (
    &'a str,
    &'a [Kept<'a>],
    Result<(Leases<'a>, Leases<'a>), RestoreFault>,
);

const GROUP: Kind = Kind::Group;

const UNIQUE: Kind = Kind::Unique;

const RESTORINGS: &[Restoring<'static>] = &[
    ("nothing was kept", &[], Ok((&[], &[]))),
    (
        "a lease that is over is left out, and one that is over a millisecond later isn't",
        &[(FRED, FIRST, UNIQUE, 60_000), (TEAM, FIRST, GROUP, 60_001)],
        Ok((&[], &[(FIRST, 60_001)])),
    ),
    (
        "those of a name stay in their order",
        &[
            (TEAM, SECOND, GROUP, 90_000),
            (FRED, FIRST, UNIQUE, 70_000),
            (TEAM, FIRST, GROUP, 80_000),
        ],
        Ok((&[(FIRST, 70_000)], &[(SECOND, 90_000), (FIRST, 80_000)])),
    ),
    (
        "a lease that is over isn't beside another",
        &[
            (FRED, FIRST, UNIQUE, 60_000),
            (FRED, SECOND, UNIQUE, 90_000),
        ],
        Ok((&[(SECOND, 90_000)], &[])),
    ),
    (
        "the longest lease",
        &[(FRED, FIRST, UNIQUE, 120_000)],
        Ok((&[(FIRST, 120_000)], &[])),
    ),
    (
        "longer than the longest",
        &[(FRED, FIRST, UNIQUE, 120_001)],
        Err(RestoreFault::Unsound),
    ),
    (
        "two of one address",
        &[(TEAM, FIRST, GROUP, 90_000), (TEAM, FIRST, GROUP, 80_000)],
        Err(RestoreFault::Unsound),
    ),
    (
        "two owners of a unique name",
        &[
            (FRED, FIRST, UNIQUE, 90_000),
            (FRED, SECOND, UNIQUE, 80_000),
        ],
        Err(RestoreFault::Unsound),
    ),
    (
        "a member beside an owner",
        &[(FRED, FIRST, UNIQUE, 90_000), (FRED, SECOND, GROUP, 80_000)],
        Err(RestoreFault::Unsound),
    ),
    (
        "as many as there is room for, and one that is over",
        &[
            (TEAM, 1, GROUP, 90_000),
            (TEAM, 2, GROUP, 90_000),
            (TEAM, 3, GROUP, 60_000),
            (TEAM, 4, GROUP, 90_000),
            (FRED, 5, UNIQUE, 90_000),
        ],
        Ok((&[(5, 90_000)], &[(1, 90_000), (2, 90_000), (4, 90_000)])),
    ),
    (
        "more than there is room for, whatever they are",
        &[
            (TEAM, 1, GROUP, 90_000),
            (TEAM, 1, GROUP, 90_000),
            (TEAM, 3, GROUP, 90_000),
            (TEAM, 4, GROUP, 90_000),
            (FRED, 5, UNIQUE, 90_000),
        ],
        Err(RestoreFault::TableFull),
    ),
];

fn rows_of<R: Abort + AllocGlobal>(rt: &R, kept: &[Kept<'_>]) -> Vec<(Name, Lease)> {
    let mut rows = Vec::new(rt.alloc());
    for (octets, addr, kind, end) in kept {
        let lease = Lease {
            addr: *addr,
            kind: *kind,
            end: *end,
        };
        rows.push((Name::new(octets, b"").expect(rt, "a name"), lease))
            .expect(rt, "memory");
    }
    rows
}

/// The table has these leases of the name at 60,000.
fn expect_leases(
    rt: &impl Abort,
    what: &str,
    table: &mut Table,
    octets: &[u8; 16],
    wanted: Leases<'_>,
) {
    let now = Moment::new(60_000).expect(rt, "a moment");
    expect_in(rt, &what, table.last() <= now);
    table.sweep(now);
    let name = Name::new(octets, b"").expect(rt, "a name");
    let mut found: ArrayVec<(u32, u64), 4> = ArrayVec::new();
    for lease in table.members(now, &name) {
        found
            .try_push((lease.addr, lease.end))
            .ok()
            .expect(rt, "at most 4");
    }
    expect_eq_in(rt, &what, &found.as_slice(), &wanted);
}

/// A case of a table that is restored.
fn restore<R: Abort + AllocGlobal>(rt: &R, case: &Restoring<'_>) {
    let (_, kept, _) = case;
    let rows = rows_of(rt, kept);
    restore_rows(rt, case, rows.as_slice())
}

fn restore_rows<R: Abort + AllocGlobal>(rt: &R, case: &Restoring<'_>, rows: &[(Name, Lease)]) {
    let (what, _, wanted) = case;
    let config = Config::new(1000, 60, 4).expect(rt, "limits");
    match Table::restore(
        rt.alloc(),
        config,
        Moment::new(60_000).expect(rt, "a moment"),
        rows,
    ) {
        Ok(mut table) => {
            expect_in(rt, what, wanted.is_ok());
            match wanted {
                Ok(leases) => expect_both(rt, what, &mut table, leases),
                Err(_) => (),
            }
        }
        Err(fault) => {
            expect_eq_in(rt, what, &Err(fault), &wanted.map(|_| ()));
        }
    }
}

/// The table has these leases of both names.
fn expect_both(
    rt: &impl Abort,
    what: &str,
    table: &mut Table,
    (fred, team): &(Leases<'_>, Leases<'_>),
) {
    expect_leases(rt, what, table, FRED, fred);
    expect_leases(rt, what, table, TEAM, team)
}

#[test]
fn tables_are_restored_from_what_was_kept(rt: HostRuntime) {
    for case in RESTORINGS {
        restore(&rt, case);
    }
}

/// When a server started, its last time, and when it resumes; and why it doesn't, if it doesn't.
type Resuming = (u64, u64, u64, Option<ResumeFault>);

/// FRED's lease, which was kept, ends at 120,000.
const RESUMINGS: [Resuming; 6] = [
    (0, 60_000, 60_000, None),
    (0, 60_000, 119_999, None),
    (0, 60_000, 59_999, Some(ResumeFault::ClockBack)),
    (60_001, 60_000, 60_000, Some(ResumeFault::ClockBack)),
    (0, 0, 59_999, Some(ResumeFault::Unsound)),
    (0, 0, 1_000, Some(ResumeFault::Unsound)),
];

/// A server that resumes with FRED's lease, which 127.0.0.2 has until 120,000.
fn resumed<R: Abort + AllocGlobal>(
    rt: &R,
    start: u64,
    last: u64,
    now: u64,
) -> Result<Server, ResumeFault> {
    let rows = rows_of(rt, &[(FRED, FIRST, UNIQUE, 120_000)]);
    let config = Config::new(1000, 60, 4).expect(rt, "limits");
    Server::resume(
        rt.alloc(),
        config,
        Moment::new(start).expect(rt, "a moment"),
        Moment::new(last).expect(rt, "a moment"),
        Moment::new(now).expect(rt, "a moment"),
        rows.as_slice(),
    )
}

#[test]
fn a_server_resumes_or_says_why_not(rt: HostRuntime) {
    for case in &RESUMINGS {
        let (start, last, now, wanted) = *case;
        let fault = resumed(&rt, start, last, now).err();
        expect_eq_in(&rt, case, &fault, &wanted);
    }
}

/// When a datagram comes, from which address, its octets, and those of the reply; `-` where there is none.
type Row = (u64, u32, &'static str, &'static str);

/// The server started at 0 and resumed at 61,000, so it speaks at once. Its lease is as it was.
const AFTER_IT_RESUMED: [Row; 4] = [
    (61_000, SECOND, RIVAL, REFUSED),
    (119_000, SECOND, QUERY, FOUND),
    (119_999, SECOND, RIVAL, REFUSED),
    (120_000, FIRST, REGISTRATION, GRANTED),
];

/// A server that started at 1,500 and resumes at 61,000 is silent until 61,500, as it would have been.
const AS_LONG_AS_IT_WAS: [Row; 2] = [
    (61_499, FIRST, QUERY, "-"),
    (61_500, FIRST, REGISTRATION, GRANTED),
];

fn expect_reply<R: Abort + AllocGlobal>(rt: &R, server: &mut Server, row: &Row) {
    let (now, ip, asks, gives) = *row;
    let asks = octets(rt, asks).expect(rt, "octets");
    let gives = octets(rt, gives).expect(rt, "octets");
    let from = Addr { ip, port: 137 };
    let mut out = ArrayVec::new();
    server
        .on_datagram(
            Moment::new(now).expect(rt, "a moment"),
            from,
            asks.as_slice(),
            &mut out,
        )
        .expect(rt, "a reply");
    expect_eq_in(rt, row, &out.as_slice(), &gives.as_slice());
}

fn play<R: Abort + AllocGlobal>(rt: &R, start: u64, rows: &[Row]) {
    let mut server = resumed(rt, start, 60_000, 61_000).expect(rt, "a server");
    for row in rows {
        expect_reply(rt, &mut server, row);
    }
}

#[test]
fn a_server_that_resumed_goes_on_as_if_it_had_not_ended(rt: HostRuntime) {
    play(&rt, 0, &AFTER_IT_RESUMED);
    play(&rt, 1_500, &AS_LONG_AS_IT_WAS)
}

/// What a datagram changed in FRED's lease.
#[derive(Clone, Copy, Debug, PartialEq, Eq)]
enum Changed {
    /// Nothing.
    Nothing,
    /// The address's lease began, with this expiry.
    Began(u32, u64),
    /// The address's lease has this expiry from then on.
    Moved(u32, u64),
    /// The address's lease was released.
    Released(u32),
}

/// When a datagram comes, from which address, its octets, and what it changes; `None` where the server refuses it.
type Changing = (u64, u32, &'static str, Option<Changed>);

/// Each lasts for 60 s. Only what was granted, renewed or released is a change, also a renewal that moves no expiry; it was made when the
/// datagram came.
const CHANGES: [Changing; 11] = [
    (59_999, FIRST, REGISTRATION, Some(Changed::Nothing)),
    (
        60_000,
        FIRST,
        REGISTRATION,
        Some(Changed::Began(FIRST, 120_000)),
    ),
    (60_500, SECOND, RIVAL, Some(Changed::Nothing)),
    (60_500, SECOND, QUERY, Some(Changed::Nothing)),
    (61_000, FIRST, REFRESH, Some(Changed::Moved(FIRST, 121_000))),
    (61_000, FIRST, REFRESH, Some(Changed::Moved(FIRST, 121_000))),
    (60_999, FIRST, REFRESH, None),
    (62_000, SECOND, RELEASE, Some(Changed::Nothing)),
    (62_000, FIRST, RELEASE, Some(Changed::Released(FIRST))),
    (62_000, FIRST, RELEASE, Some(Changed::Nothing)),
    (62_000, SECOND, RIVAL, Some(Changed::Began(SECOND, 122_000))),
];

/// What changed in FRED's lease; `None` if it is another name's, or no lease changed.
fn changed_of(change: &Option<Change>, fred: &Name) -> Option<Changed> {
    let Some(change) = change else {
        return Some(Changed::Nothing);
    };
    let (name, changed) = match change {
        Change::Began { name, lease, .. } => (name, Changed::Began(lease.addr, lease.end)),
        Change::Moved {
            name,
            addr,
            end,
            ..
        } => (name, Changed::Moved(*addr, *end)),
        Change::Released { name, addr, .. } => (name, Changed::Released(*addr)),
        Change::Reached { .. } | Change::Looked { .. } => return None,
    };
    if name == fred { Some(changed) } else { None }
}

fn expect_change<R: Abort + AllocGlobal>(rt: &R, server: &mut Server, row: &Changing) {
    let (now, ip, asks, wanted) = *row;
    let asks = octets(rt, asks).expect(rt, "octets");
    let from = Addr { ip, port: 137 };
    let mut out = ArrayVec::new();
    match server.handle(
        Moment::new(now).expect(rt, "a moment"),
        from,
        asks.as_slice(),
        &mut out,
    ) {
        Ok(outcome) => {
            let change = change_of(server, &outcome);
            let changed = changed_of(&change, &Name::new(FRED, b"").expect(rt, "a name"));
            expect_eq_in(rt, row, &changed, &wanted);
            expect_in(rt, row, change.is_none_or(|change| change.at() == now));
        }
        Err(fault) => {
            expect_eq_in(rt, row, &fault, &ServerFault::ClockBack);
            expect_eq_in(rt, row, &None, &wanted);
        }
    }
}

fn expect_changes<R: Abort + AllocGlobal>(rt: &R, server: &mut Server) {
    for row in &CHANGES {
        expect_change(rt, server, row);
    }
}

#[test]
fn each_datagram_changes_one_lease_or_none(rt: HostRuntime) {
    expect_changes(&rt, &mut started(&rt, 4096, 0).expect(&rt, "a server"))
}
