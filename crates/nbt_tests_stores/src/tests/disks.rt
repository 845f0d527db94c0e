//! Stores over a disk in memory: what a crash leaves of them, with trouble at each call.

use super::expect::{expect, expect_eq, expect_eq_in, expect_in};
use super::store::{FILE, changes, fred_lease, renew};
use super::{fred, header, team};
use nbt_lease::Lease;
use nbt_name::{Kind, Name};
use nbt_store::{
    Broken, Change, Disk, DiskStore, Header, Loaded, MemoryDisk, ReadFault, Store, Trouble, load,
};
use std::alloc::Global;
use std::cell::Cell;
use std::io;
use std::process::Abort;

/// From which call on there is which trouble. The calls are 0 to 2 to open the store, 3 a change, 4 a change, 5 a sync, 6 a change,
/// 7 and 8 to begin a new file, 9 to 11 to write its lines and put it in place, 12 a change, 13 a sync, 14 a change, 15 a change, 16 a sync.
type Failing = (usize, Trouble);

/// The number of the call at which the changes begin, and how many calls there are.
const CHANGES: usize = 3;

const CALLS: usize = 17;

/// The calls that write.
const WRITES: [usize; 8] = [3, 4, 6, 7, 9, 12, 14, 15];

/// How many octets the line of a change here has at most.
const LINE: usize = 49;

/// More than a crash can leave here in different ways.
const MANY: usize = 2_000;

/// The time at which the file was first written, and that at which it was written anew.
const OLD: u64 = 77;

const NEW: u64 = 88;

/// The lease of this number: the first one is FRED's, and each other one TEAM's.
fn row(rt: &impl Abort, number: u32) -> (Name, Lease) {
    let (name, kind) = match number {
        0 => (fred(rt, b""), Kind::Unique),
        _ => (team(rt, b""), Kind::Group),
    };
    let end = 60_077;
    let addr = number;
    (name, Lease { addr, kind, end })
}

/// The lease of this number begins.
fn append(rt: &impl Abort, store: &mut DiskStore<MemoryDisk>, number: u32) -> Result<(), Broken> {
    let (name, lease) = row(rt, number);
    store.append(&Change::Began {
        name,
        lease,
        at: OLD,
    })
}

/// The second, the fourth and the sixth change are synced, and the third is in a file that is written anew. Returns whether that
/// is so of the change of this number.
fn settle(
    alloc: Global,
    store: &mut DiskStore<MemoryDisk>,
    header: &Header,
    rows: &[(Name, Lease)],
    number: u32,
) -> Result<bool, Broken> {
    match number {
        3 => renew(alloc, store, header, rows)?,
        2 | 4 | 6 => store.sync()?,
        _ => return Ok(false),
    }
    Ok(true)
}

/// Makes six changes, up to the first call that fails. Returns how many are durable, and how many were tried.
fn run(
    rt: &impl Abort,
    alloc: Global,
    store: &mut DiskStore<MemoryDisk>,
    header: &Header,
    rows: &[(Name, Lease)],
) -> (usize, usize) {
    let mut durable = 0;
    for number in 1..7u32 {
        let tried = number as usize;
        let Ok(()) = append(rt, store, number) else {
            return (durable, tried);
        };
        match settle(alloc, store, header, rows, number) {
            Ok(true) => durable = tried,
            Ok(false) => {}
            Err(Broken) => return (durable, tried),
        }
    }
    (durable, 6)
}

/// The leases are the first ones, in order.
fn see_rows(rt: &impl Abort, rows: &[(Name, Lease)]) {
    let mut number = 0u32;
    for (name, lease) in rows {
        let (wanted, wanted_lease) = row(rt, number);
        expect_in(rt, &number, *name == wanted && *lease == wanted_lease);
        number = number.saturating_add(1);
    }
}

/// Loads octets, once more if it was out of memory.
fn load_again(alloc: Global, octets: &[u8]) -> Result<Loaded, ReadFault> {
    match load(alloc, octets) {
        Err(ReadFault::Memory) => load(alloc, octets),
        loaded => loaded,
    }
}

/// How many changes the octets of a file have, and the time at which it was written.
fn loaded(rt: &(impl Abort + AllocGlobal), octets: &[u8]) -> (usize, u64) {
    let loaded = load_again(rt.alloc(), octets).expect(rt, "load again");
    see_rows(rt, loaded.rows.as_slice());
    let changes = loaded.rows.len().checked_sub(1).expect(rt, "a lease");
    (changes, loaded.header.last)
}

/// Octets that a crash may leave have the changes that are durable, and none that wasn't tried. Returns when they were written.
fn see_octets(
    rt: &(impl Abort + AllocGlobal),
    failing: Failing,
    octets: &[u8],
    counts: (usize, usize),
) -> u64 {
    let (durable, tried) = counts;
    let (changes, last) = loaded(rt, octets);
    let seen = (failing, octets.len(), durable, changes, tried);
    expect_in(rt, &seen, durable <= changes && changes <= tried);
    last
}

/// The same of all octets that a crash may leave. Returns whether it may leave the file that was first written, and the one that was
/// written anew.
fn see_left(
    rt: &(impl Abort + AllocGlobal),
    failing: Failing,
    disk: &MemoryDisk,
    counts: (usize, usize),
) -> (bool, bool) {
    let mut found = (false, false);
    expect(rt, disk.left(MANY).is_none());
    for number in 0..MANY {
        let Some(octets) = disk.left(number) else {
            return found;
        };
        let last = see_octets(rt, failing, octets, counts);
        found = (found.0 || last == OLD, found.1 || last == NEW);
    }
    found
}

/// Opens a store with these leases over a disk with this trouble.
fn open(
    alloc: Global,
    failing: Failing,
    header: &Header,
    rows: &[(Name, Lease)],
) -> io::Result<DiskStore<MemoryDisk>> {
    let disk = MemoryDisk::new(alloc, Some(failing));
    DiskStore::open(disk, alloc, header, rows)
}

/// The same, once more if it was refused: it may have been out of memory.
fn open_again(
    alloc: Global,
    failing: Failing,
    header: &Header,
    rows: &[(Name, Lease)],
) -> io::Result<DiskStore<MemoryDisk>> {
    match open(alloc, failing, header, rows) {
        Ok(store) => Ok(store),
        Err(_) => open(alloc, failing, header, rows),
    }
}

/// Makes the changes with this trouble. Returns the store, and how many changes are durable and how many were tried.
fn make(
    rt: &impl Abort,
    alloc: Global,
    failing: Failing,
) -> (DiskStore<MemoryDisk>, (usize, usize)) {
    let rows = [row(rt, 0), row(rt, 1), row(rt, 2), row(rt, 3)];
    let mut store = open_again(alloc, failing, &header(rt, OLD), &rows[..1]).expect(
        rt,
        "open again",
    );
    let counts = run(rt, alloc, &mut store, &header(rt, NEW), &rows);
    (store, counts)
}

/// The same, and sees what a crash may leave. Returns how many changes are durable, and which files a crash may leave.
fn crash(rt: &(impl Abort + AllocGlobal), failing: Failing) -> (usize, (bool, bool)) {
    let (store, counts) = make(rt, rt.alloc(), failing);
    let found = see_left(rt, failing, store.disk(), counts);
    (counts.0, found)
}

/// A write is torn behind each octet of its line: what is then there is what a crash may leave.
fn tear(rt: &(impl Abort + AllocGlobal), call: usize) {
    for most in 0..LINE {
        let failing = (call, Trouble::Torn(most));
        let (store, counts) = make(rt, rt.alloc(), failing);
        see_octets(rt, failing, store.disk().octets(), counts);
    }
}

#[test]
fn crash_of_a_store_at_each_call(rt: HostRuntime) {
    for call in CHANGES..CALLS {
        crash(&rt, (call, Trouble::Refused));
        crash(&rt, (call, Trouble::Torn(0)));
        crash(&rt, (call, Trouble::Full(20)));
    }
}

#[test]
fn crash_of_a_store_within_each_write(rt: HostRuntime) {
    for call in WRITES {
        tear(&rt, call);
    }
}

/// A trouble, how many changes are durable, and whether a crash may leave the old file and the new one.
type Left = (Failing, usize, (bool, bool));

const LEFT: &[Left] = &[
    ((3, Trouble::Refused), 0, (true, false)),
    ((5, Trouble::Refused), 0, (true, false)),
    ((6, Trouble::Refused), 2, (true, false)),
    // What is written anew is durable once it has taken its place: until then a crash leaves the old file.
    ((7, Trouble::Full(20)), 2, (true, false)),
    ((8, Trouble::Torn(0)), 2, (true, false)),
    ((9, Trouble::Full(20)), 2, (true, false)),
    ((10, Trouble::Torn(0)), 2, (true, false)),
    ((11, Trouble::Refused), 2, (true, false)),
    ((11, Trouble::Torn(0)), 2, (true, true)),
    ((12, Trouble::Refused), 3, (false, true)),
    ((16, Trouble::Refused), 4, (false, true)),
    ((17, Trouble::Refused), 6, (false, true)),
    // A full disk has no trouble with a sync.
    ((16, Trouble::Full(0)), 6, (false, true)),
];

/// Plays each row.
fn see_each(rt: &(impl Abort + AllocGlobal), rows: &[Left]) {
    for row in rows {
        let (failing, durable, files) = *row;
        expect_eq_in(rt, row, &crash(rt, failing), &(durable, files));
    }
}

#[test]
fn crash_of_a_store_leaves_the_old_file_or_the_new_one(rt: HostRuntime) {
    see_each(&rt, LEFT)
}

/// A store isn't opened where its file can't be written, synced or put in its place.
#[test]
fn store_that_can_not_be_opened(rt: HostRuntime) {
    let rows = [row(&rt, 0)];
    for call in 0..CHANGES {
        let opened = open(
            rt.alloc(),
            (call, Trouble::Torn(20)),
            &header(&rt, OLD),
            &rows,
        );
        expect_in(&rt, &call, opened.is_err());
    }
}

/// With `rt try --test --fail-alloc N` the Nth allocation is refused. A store that was refused memory loses no change that is
/// durable, and one more has all changes.
#[test]
fn refused_memory_of_a_store(rt: HostRuntime) {
    let failing = (CALLS, Trouble::Refused);
    let (durable, _) = crash(&rt, failing);
    if durable < 6 {
        expect_eq_in(&rt, &failing, &crash(&rt, failing), &(6, (false, true)));
    }
}

/// The file that a store writes anew at 88, of the same lease, and then has the same changes. The checksums were computed apart from this
/// program.
const WRITTEN_ANEW: &str = "nbt leases, version 3\n\
1000 60 4096 boot-1 7 5 88 1700000000000 1 b3b48e8c\n\
began FRED 192.0.2.7:137 - unique 60077 88 1a72ebcc\n\
began TEAM 192.0.2.8:137 - group 60078 80 34fb6a9f\n\
moved FRED 192.0.2.7:137 65000 5000 dfb98546\n\
reached 6200 1dbeae81\n\
looked 1700000007000 7077 0530e599\n\
released TEAM 192.0.2.8:137 7100 c2902689\n";

/// The store appends a line for each change of the file.
fn append_all(rt: &impl Abort, store: &mut DiskStore<MemoryDisk>) {
    for change in changes(rt).iter() {
        expect_eq(rt, &store.append(change), &Ok(()));
    }
}

/// The file of the store is this text.
fn expect_text(rt: &impl Abort, store: &DiskStore<MemoryDisk>, text: &str) {
    let got = str::from_utf8(store.disk().octets()).ok();
    expect_eq(rt, &got, &Some(text))
}

/// Each line goes on from the one before it, also once the file was written anew, and whatever was synced.
#[test]
fn lines_of_a_store_go_on_from_those_before(rt: HostRuntime) {
    let rows = [(fred(&rt, b""), fred_lease())];
    let disk = MemoryDisk::new(rt.alloc(), None);
    let mut store = DiskStore::open(disk, rt.alloc(), &header(&rt, OLD), &rows).expect(&rt, "open");
    append_all(&rt, &mut store);
    expect_eq(&rt, &store.sync(), &Ok(()));
    expect_text(&rt, &store, FILE);
    expect_eq(
        &rt,
        &renew(rt.alloc(), &mut store, &header(&rt, NEW), &rows),
        &Ok(()),
    );
    append_all(&rt, &mut store);
    expect_text(&rt, &store, WRITTEN_ANEW)
}

/// A disk that counts how often it is asked whether it is still there, and says that it isn't where it is to.
#[derive(Drop)]
struct Asked {
    beneath: MemoryDisk,
    count: Cell<usize>,
    is_gone: bool,
}

impl Disk for Asked {
    ghost use Rattle.std.specs.Prelude.{⊤};

    ghost does = { λ _ _ _. ⊤ };

    fn check(&self) -> io::Result<()> {
        self.count.set(self.count.get().saturating_add(1));
        if self.is_gone {
            return Err(io::Error::other("it is gone"));
        }
        Ok(())
    }

    fn create(&mut self, octets: &[u8]) -> io::Result<()> {
        self.beneath.create(octets)
    }

    fn append(&mut self, octets: &[u8]) -> io::Result<()> {
        self.beneath.append(octets)
    }

    fn sync(&mut self) -> io::Result<()> {
        self.beneath.sync()
    }

    fn append_beside(&mut self, octets: &[u8]) -> io::Result<()> {
        self.beneath.append_beside(octets)
    }

    fn install(&mut self) -> io::Result<()> {
        self.beneath.install()
    }
}

/// Whether the disk is asked before the line of each change of the file: where no lease changed.
const LOOKS: [bool; 5] = [false, false, true, true, false];

/// A store over such a disk, whose file has a lease.
fn open_asked(rt: &(impl Abort + AllocGlobal), is_gone: bool) -> DiskStore<Asked> {
    let rows = [(fred(rt, b""), fred_lease())];
    let disk = Asked {
        beneath: MemoryDisk::new(rt.alloc(), None),
        count: Cell::new(0),
        is_gone,
    };
    DiskStore::open(disk, rt.alloc(), &header(rt, OLD), &rows).expect(rt, "open")
}

/// Before the line of this change the disk is asked or not; and where it is gone then, nothing is written, and the store is broken.
fn see_asked(rt: &(impl Abort + AllocGlobal), change: &Change, looks: bool) {
    let mut store = open_asked(rt, false);
    expect_eq_in(rt, change, &store.append(change), &Ok(()));
    expect_eq_in(rt, change, &store.disk().count.get(), &usize::from(looks));
    let mut gone = open_asked(rt, true);
    let before = gone.disk().beneath.octets().len();
    expect_in(rt, change, gone.append(change).is_err() == looks);
    expect_in(
        rt,
        change,
        (gone.disk().beneath.octets().len() == before) == looks,
    );
    expect_in(rt, change, gone.error().is_some() == looks);
    expect_in(rt, change, gone.sync().is_err() == looks)
}

#[test]
fn a_disk_is_asked_before_a_line_of_no_lease(rt: HostRuntime) {
    for (change, looks) in changes(&rt).iter().zip(&LOOKS) {
        see_asked(&rt, change, *looks);
    }
}
