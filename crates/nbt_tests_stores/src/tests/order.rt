//! In which order a server asks its port, its clock and its disk: it reads the clock behind the receive, its change is durable before the reply
//! leaves, and where replies waited for that, it reads the clock once more before they do.

use super::expect::{expect, expect_eq_in};
use super::header;
use arrayvec::ArrayVec;
use nbt_lease::{Lease, Moment};
use nbt_name::{Addr, Name};
use nbt_port::{Clock, Device, MemoryClock, MemoryPort, Port, Route};
use nbt_serve::{BATCH, Share, Waiting, keep_turn, serve_turn};
use nbt_server::Server;
use nbt_store::{Disk, DiskStore, MemoryDisk};
use nbt_testing::{QUERY, REGISTRATION, Row, clock, port, started};
use std::cell::Cell;
use std::io;
use std::marker::Model;
use std::process::Abort;

const FIRST: Addr = Addr {
    ip: 0x7F000002,
    port: 137,
};

const NOTHING: Row = (FIRST, "");

/// The digits of the calls.
const RECEIVE: u64 = 1;

const READ: u64 = 2;

const APPEND: u64 = 3;

const SYNC: u64 = 4;

const SEND: u64 = 5;

/// Which calls there were so far, a digit each.
#[derive(Drop)]
struct Calls(Cell<u64>);

impl Calls {
    fn add(&self, digit: u64) {
        self.0
            .set(self.0.get().saturating_mul(10).saturating_add(digit));
    }
}

/// A port that says when it is called.
#[derive(Drop)]
struct TellingPort<'a, P> {
    beneath: P,
    calls: &'a Calls,
}

impl<'a, P> Model for TellingPort<'a, P> {
    ghost Value = { P };

    ghost view = { λ p. p.beneath };
}

impl<'a, P: Port> Port for TellingPort<'a, P> {
    ghost does = { P.does };

    ghost failures = { P.failures };

    fn receive(&mut self, octets: &mut ArrayVec<u8, 2048>) -> Result<Option<Route>, Device> {
        self.calls.add(RECEIVE);
        self.beneath.receive(octets)
    }

    fn send(&mut self, to: Route, octets: &[u8]) -> Result<(), Device> {
        self.calls.add(SEND);
        self.beneath.send(to, octets)
    }

    fn failures(&self) -> u64 {
        self.beneath.failures()
    }
}

/// A clock that says when it is read.
#[derive(Drop)]
struct TellingClock<'a, C> {
    beneath: C,
    calls: &'a Calls,
}

impl<'a, C> Model for TellingClock<'a, C> {
    ghost Value = { C };

    ghost view = { λ c. c.beneath };
}

impl<'a, C: Clock> Clock for TellingClock<'a, C> {
    ghost tells = { C.tells };

    fn now(&mut self) -> Moment {
        self.calls.add(READ);
        self.beneath.now()
    }
}

/// A disk that says when it is called.
#[derive(Drop)]
struct TellingDisk<'a> {
    beneath: MemoryDisk,
    calls: &'a Calls,
}

impl Disk for TellingDisk<'_> {
    ghost use Rattle.std.specs.Prelude.{⊤};

    ghost does = { λ _ _ _. ⊤ };

    fn create(&mut self, octets: &[u8]) -> io::Result<()> {
        self.beneath.create(octets)
    }

    fn append(&mut self, octets: &[u8]) -> io::Result<()> {
        self.calls.add(APPEND);
        self.beneath.append(octets)
    }

    fn sync(&mut self) -> io::Result<()> {
        self.calls.add(SYNC);
        self.beneath.sync()
    }

    fn append_beside(&mut self, octets: &[u8]) -> io::Result<()> {
        self.beneath.append_beside(octets)
    }

    fn install(&mut self) -> io::Result<()> {
        self.beneath.install()
    }
}

/// What comes at a server, one turn each; what its clock tells; and the calls with a store, whose last durable time is 60,000, and without one.
type Ordered = (&'static [Row], &'static [u64], u64, u64);

const ORDERED: &[Ordered] = &[
    (&[(FIRST, QUERY)], &[60_000], 125, 125),
    (&[(FIRST, REGISTRATION), NOTHING], &[60_000], 1231425, 1251),
    // A time that is more than a second later becomes durable before the query is answered, and the clock is read once more then.
    (&[(FIRST, QUERY)], &[61_500], 123425, 125),
    (&[NOTHING], &[60_000], 1, 1),
];

/// Takes the turns of a row with a store.
fn take_turns<R: Abort + AllocGlobal>(
    rt: &R,
    row: &Ordered,
    port: &mut TellingPort<'_, MemoryPort>,
    clock: &mut TellingClock<'_, MemoryClock>,
    store: &mut DiskStore<TellingDisk<'_>>,
    server: &mut Server,
) {
    let mut waiting = Waiting::new(rt.alloc(), 60_000).expect(rt, "waiting");
    let mut share = Share::new(rt.alloc(), 0);
    let mut octets = ArrayVec::new();
    for _ in row.0 {
        expect(rt, port.failures() < 1 << 62);
        expect(rt, waiting.len() < BATCH);
        let turn = keep_turn(
            port,
            clock,
            store,
            server,
            &mut share,
            &mut waiting,
            &mut octets,
            &mut ArrayVec::new(),
            &mut None,
        );
        expect(rt, turn.is_ok());
    }
}

/// Takes the turns of a row without a store.
fn take_bare_turns<R: Abort>(
    rt: &R,
    row: &Ordered,
    port: &mut TellingPort<'_, MemoryPort>,
    clock: &mut TellingClock<'_, MemoryClock>,
    server: &mut Server,
) {
    let mut octets = ArrayVec::new();
    let mut reply = ArrayVec::new();
    for _ in row.0 {
        expect(rt, port.failures() < 1 << 62);
        let turn = serve_turn(port, clock, server, &mut octets, &mut reply);
        expect(rt, turn.is_ok());
    }
}

/// Takes the turns of a row, with a store or without, at devices that tell of their calls.
fn take<R: Abort + AllocGlobal>(rt: &R, row: &Ordered, calls: &Calls, is_kept: bool) {
    let none: [(Name, Lease); 0] = [];
    let disk = TellingDisk {
        beneath: MemoryDisk::new(rt.alloc(), None),
        calls,
    };
    let mut store = DiskStore::open(disk, rt.alloc(), &header(rt, 60_000), &none).expect(
        rt, "open",
    );
    let mut port = TellingPort {
        beneath: port(rt, row.0).expect(rt, "a port"),
        calls,
    };
    let mut clock = TellingClock {
        beneath: clock(rt, row.1).expect(rt, "a clock"),
        calls,
    };
    let mut server = started(rt, 4096, 0).expect(rt, "a server");
    calls.0.set(0);
    if is_kept {
        take_turns(rt, row, &mut port, &mut clock, &mut store, &mut server);
    } else {
        take_bare_turns(rt, row, &mut port, &mut clock, &mut server);
    }
}

#[test]
fn a_clock_is_read_behind_the_receive(rt: HostRuntime) {
    let calls = Calls(Cell::new(0));
    for row in ORDERED {
        take(&rt, row, &calls, true);
        expect_eq_in(&rt, &row.0.len(), &calls.0.get(), &row.2);
        take(&rt, row, &calls, false);
        expect_eq_in(&rt, &row.0.len(), &calls.0.get(), &row.3);
    }
}
