//! A file that is written anew part by part, while changes go on: what a crash leaves at each call.

use super::expect::{expect, expect_eq, expect_eq_in, expect_in};
use super::store::begin_renewal;
use super::{TEAM, header};
use nbt_lease::{Lease, Moment};
use nbt_name::{Kind, Name};
use nbt_serve::{Waiting, look_after};
use nbt_server::Server;
use nbt_store::{Broken, Change, Disk, DiskStore, Loaded, MemoryDisk, Room, Store, Trouble, load};
use nbt_testing::{clock, config};
use std::alloc::Global;
use std::cell::Cell;
use std::io;
use std::process::Abort;

/// So many leases there are at first: their lines are two parts.
const ROWS: u32 = 300;

/// When they end.
const END: u64 = 60_000;

/// The time at which the file was first written, and that at which it was written anew.
const OLD: u64 = 77;

const NEW: u64 = 88;

/// A lease whose line is in the first part, one whose line is in the last one, and one that goes.
const EARLY: u32 = 5;

const LATE: u32 = 290;

const GONE: u32 = 100;

/// One thing that is asked of a store.
#[derive(Clone, Copy, Debug, PartialEq, Eq)]
enum Step {
    /// It begins a new file.
    Begin,
    /// It goes on with it; the file is whole then, or isn't.
    GoOn(bool),
    /// The next change is appended.
    Append,
    /// All becomes durable.
    Sync,
}

/// The steps, with the calls of the disk that each makes: 0 to 2 opened the store.
const STEPS: &[Step] = &[
    // 3 and 4.
    Step::Begin,
    // A lease moves before any has its line: 5.
    Step::Append,
    // 6 and 7.
    Step::GoOn(false),
    // One moves that has none yet, one goes that has its line, and one begins: 8 to 11.
    Step::Append,
    Step::Append,
    Step::Append,
    Step::Sync,
    // 12 to 14.
    Step::GoOn(true),
    // And one moves that moved before: 15 and 16.
    Step::Append,
    Step::Sync,
];

/// How many calls there are.
const CALLS: usize = 17;

/// That at which the new file takes the place of the old one.
const INSTALLED: usize = 14;

/// The calls that write, and behind how many octets each is torn.
const WRITES: [usize; 8] = [3, 5, 6, 8, 9, 10, 12, 15];

const TORN: [usize; 3] = [0, 40, 5_000];

/// More than a crash can leave here in different ways; of those each of so many is looked at, and the last one.
const MANY: usize = 2_000;

const EACH: usize = 40;

/// The name that the lease of this number is of: a name has a thousand at most.
fn name_of(rt: &impl Abort, number: u32) -> Name {
    let mut octets = *TEAM;
    octets[15] = u8::try_from(number / 1_000).unwrap_or(0);
    Name::new(&octets, b"").expect(rt, "a name")
}

/// The lease of this number.
fn row(rt: &impl Abort, number: u32) -> (Name, Lease) {
    let lease = Lease {
        addr: number,
        kind: Kind::Group,
        end: END,
    };
    (name_of(rt, number), lease)
}

/// So many leases.
fn rows_of<R: Abort + AllocGlobal>(rt: &R, count: u32) -> Vec<(Name, Lease)> {
    let mut rows = Vec::new(rt.alloc());
    for number in 0..count {
        rows.push(row(rt, number)).expect(rt, "memory");
    }
    rows
}

/// A move of the lease of this number.
fn moved(rt: &impl Abort, number: u32, end: u64) -> Change {
    Change::Moved {
        name: name_of(rt, number),
        addr: number,
        end,
        at: NEW,
    }
}

/// The change of this number.
fn change(rt: &impl Abort, number: usize) -> Change {
    match number {
        0 => moved(rt, EARLY, END + 1),
        1 => moved(rt, LATE, END + 2),
        2 => Change::Released {
            name: name_of(rt, GONE),
            addr: GONE,
            at: NEW,
        },
        3 => {
            let (name, lease) = row(rt, ROWS);
            Change::Began {
                name,
                lease,
                at: NEW,
            }
        }
        _ => moved(rt, EARLY, END + 3),
    }
}

/// How many leases there are, and when the early one, the late one and the new one end; 0 where there is none.
type State = (u32, u64, u64, u64);

/// What there is after so many changes.
fn after(count: usize) -> State {
    let rows = match count {
        3 => ROWS - 1,
        _ => ROWS,
    };
    let early = match count {
        0 => END,
        1 | 2 | 3 | 4 => END + 1,
        _ => END + 3,
    };
    let late = if count < 2 { END } else { END + 2 };
    let new = if count < 4 { 0 } else { END };
    (rows, early, late, new)
}

/// When the lease of this number ends; 0 where there is none.
fn end_of(loaded: &Loaded, number: u32) -> u64 {
    for (_, lease) in loaded.rows.iter() {
        if lease.addr == number {
            return lease.end;
        }
    }
    0
}

/// The same of what was loaded.
fn seen(loaded: &Loaded) -> State {
    let rows = u32::try_from(loaded.rows.len()).unwrap_or(0);
    let (early, late) = (end_of(loaded, EARLY), end_of(loaded, LATE));
    (rows, early, late, end_of(loaded, ROWS))
}

/// Asks the store for this. The changes that were appended are counted.
fn ask<D: Disk, R: Abort + AllocGlobal>(
    rt: &R,
    store: &mut DiskStore<D>,
    step: Step,
    rows: &[(Name, Lease)],
    appended: &mut usize,
) -> Result<bool, Broken> {
    match step {
        Step::Begin => begin_renewal(rt.alloc(), store, &header(rt, NEW), rows)?,
        Step::GoOn(is_whole) => {
            expect_eq(rt, &store.go_on()?, &is_whole);
            return Ok(is_whole);
        }
        Step::Append => {
            let change = change(rt, *appended);
            *appended = appended.saturating_add(1);
            store.append(&change)?;
        }
        Step::Sync => {
            store.sync()?;
            return Ok(true);
        }
    }
    Ok(false)
}

/// Takes the steps, up to the first that fails. Returns how many changes are durable, and how many were tried.
fn take<D: Disk, R: Abort + AllocGlobal>(
    rt: &R,
    store: &mut DiskStore<D>,
    rows: &[(Name, Lease)],
) -> (usize, usize) {
    let mut durable = 0;
    let mut appended = 0;
    for step in STEPS {
        match ask(rt, store, *step, rows, &mut appended) {
            Ok(true) => durable = appended,
            Ok(false) => {}
            Err(Broken) => return (durable, appended),
        }
    }
    (durable, appended)
}

/// Octets that a crash may leave have the first changes, those that are durable at least. Returns when they were written.
fn see_octets<R: Abort + AllocGlobal>(
    rt: &R,
    failing: (usize, Trouble),
    octets: &[u8],
    counts: (usize, usize),
) -> u64 {
    let loaded = load(rt.alloc(), octets).expect(rt, "load");
    let got = seen(&loaded);
    let (durable, tried) = counts;
    for count in durable..=tried {
        if after(count) == got {
            return loaded.header.last;
        }
    }
    expect_in(rt, &(failing, got), false);
    0
}

/// The same of octets that a crash may leave, cut at a few places. Returns whether it may leave the file that was first written, and the one
/// that was written anew.
fn see_left<R: Abort + AllocGlobal>(
    rt: &R,
    failing: (usize, Trouble),
    disk: &MemoryDisk,
    counts: (usize, usize),
) -> (bool, bool) {
    let mut found = (false, false);
    for number in 0..MANY {
        let Some(octets) = disk.left(number) else {
            return found;
        };
        if number % EACH != 0 && disk.left(number.saturating_add(1)).is_some() {
            continue;
        }
        let last = see_octets(rt, failing, octets, counts);
        found = (found.0 || last == OLD, found.1 || last == NEW);
    }
    found
}

/// Takes the steps with this trouble. Returns which files a crash may leave.
fn crash<R: Abort + AllocGlobal>(rt: &R, alloc: Global, failing: (usize, Trouble)) -> (bool, bool) {
    let rows = rows_of(rt, ROWS);
    let disk = MemoryDisk::new(alloc, Some(failing));
    let mut store = DiskStore::open(disk, alloc, &header(rt, OLD), rows.as_slice()).expect(
        rt, "open",
    );
    let counts = take(rt, &mut store, rows.as_slice());
    see_left(rt, failing, store.disk(), counts)
}

/// Which files a crash may leave where a call of this number is refused, and where it may have been done.
fn files_at(call: usize, trouble: Trouble) -> (bool, bool) {
    match trouble {
        Trouble::Torn(_) if call == INSTALLED => (true, true),
        _ => (call <= INSTALLED, call > INSTALLED),
    }
}

#[test]
fn crash_at_each_call_of_a_file_that_is_written_part_by_part(rt: HostRuntime) {
    for call in 3..=CALLS {
        for trouble in [Trouble::Refused, Trouble::Torn(20)] {
            let files = crash(&rt, rt.alloc(), (call, trouble));
            expect_eq_in(&rt, &(call, trouble), &files, &files_at(call, trouble));
        }
    }
}

#[test]
fn crash_within_each_write_of_a_file_that_is_written_part_by_part(rt: HostRuntime) {
    for call in WRITES {
        for most in TORN {
            crash(&rt, rt.alloc(), (call, Trouble::Full(most)));
        }
    }
}

/// So many octets are handed to a disk at once, at most, where no name has a scope.
const AT_ONCE: usize = 65_536;

/// The leases of a server with a full table, and how many parts their lines have.
const FULL: u32 = 4_096;

const PARTS: usize = 16;

/// A disk that knows how many octets it was handed.
#[derive(Drop)]
struct Measuring {
    beneath: MemoryDisk,
    handed: Cell<usize>,
}

impl Measuring {
    /// These octets are handed to it.
    fn see(&self, octets: &[u8]) {
        self.handed
            .set(self.handed.get().saturating_add(octets.len()));
    }
}

impl Disk for Measuring {
    ghost use Rattle.std.specs.Prelude.{⊤};

    ghost does = { λ _ _ _. ⊤ };

    fn create(&mut self, octets: &[u8]) -> io::Result<()> {
        self.see(octets);
        self.beneath.create(octets)
    }

    fn append_beside(&mut self, octets: &[u8]) -> io::Result<()> {
        self.see(octets);
        self.beneath.append_beside(octets)
    }

    fn install(&mut self) -> io::Result<()> {
        self.beneath.install()
    }

    fn append(&mut self, octets: &[u8]) -> io::Result<()> {
        self.see(octets);
        self.beneath.append(octets)
    }

    fn sync(&mut self) -> io::Result<()> {
        self.beneath.sync()
    }
}

/// A store over such a disk of these leases.
fn measured<R: Abort + AllocGlobal>(rt: &R, rows: &[(Name, Lease)]) -> DiskStore<Measuring> {
    let disk = Measuring {
        beneath: MemoryDisk::new(rt.alloc(), None),
        handed: Cell::new(0),
    };
    DiskStore::open(disk, rt.alloc(), &header(rt, OLD), rows).expect(rt, "open")
}

/// A file is long with so many lines more.
const LINES: u64 = 12_300;

/// Looks after a long file of a full table, until it was written anew: how often it was looked after, and how many octets the disk was handed in
/// a look at most. It is looked after at a moment at which no line of both clocks is due.
fn look_on<R: Abort + AllocGlobal>(
    rt: &R,
    store: &mut DiskStore<Measuring>,
    server: &Server,
) -> (usize, usize) {
    let mut head = header(rt, OLD);
    let mut waiting = Waiting::new(rt.alloc(), OLD).expect(rt, "waiting");
    let mut day = clock(rt, &[head.day]).expect(rt, "a clock");
    let mut rows = Vec::new(rt.alloc());
    let at = Moment::new(OLD).expect(rt, "a moment");
    let mut most = 0;
    for number in 0..2 * PARTS {
        if !store.is_long() {
            return (number, most);
        }
        store.disk().handed.set(0);
        let looked = look_after(
            store,
            &mut day,
            &mut head,
            &mut rows,
            server,
            &mut waiting,
            at,
        );
        expect_in(rt, &number, looked.is_ok());
        most = most.max(store.disk().handed.get());
    }
    (0, most)
}

/// The same, with a server that has such leases.
fn look_at_full<R: Abort + AllocGlobal>(rt: &R) -> (usize, usize) {
    let rows = rows_of(rt, FULL);
    let moment = Moment::new(OLD).expect(rt, "a moment");
    let limits = config(4_096).expect(rt, "limits");
    let server = Server::resume(rt.alloc(), limits, moment, moment, moment, rows.as_slice());
    let mut store = measured(rt, rows.as_slice());
    for _ in 0..LINES {
        expect(rt, store.append(&Change::Reached { at: OLD }).is_ok());
    }
    expect_eq(rt, &store.sync(), &Ok(()));
    look_on(rt, &mut store, &server.expect(rt, "a server"))
}

/// A full table of 4,096 leases is written in 16 parts, one at each look behind the one that begins; at none the disk is handed more than 64 KiB.
#[test]
fn no_look_writes_much_of_a_full_table(rt: HostRuntime) {
    let (looks, most) = look_at_full(&rt);
    expect_eq(&rt, &looks, &(1 + PARTS));
    expect_in(&rt, &most, 1 < most && most <= AT_ONCE)
}

/// A server of so few leases as 1: its file takes so many lines, and then no change.
const FEW: u64 = 8_200;

/// A store has room for changes up to so many lines.
fn see_lines<R: Abort + AllocGlobal>(rt: &R) {
    let mut small = header(rt, OLD);
    small.rows = 1;
    let disk = MemoryDisk::new(rt.alloc(), None);
    let mut store = DiskStore::open(disk, rt.alloc(), &small, &[]).expect(rt, "open");
    for at in 0..FEW {
        expect_in(rt, &at, store.room() == Room::Ample);
        expect_eq_in(rt, &at, &store.append(&Change::Reached { at }), &Ok(()));
    }
    expect_eq(rt, &store.room(), &Room::TooLong);
    store.disk().set_room(Room::Scarce);
    expect_eq(rt, &store.room(), &Room::Scarce);
    store.disk().set_room(Room::Spent);
    expect_eq(rt, &store.room(), &Room::Spent)
}

#[test]
fn a_file_has_as_many_lines_as_its_server_has_rows_for(rt: HostRuntime) {
    see_lines(&rt)
}
