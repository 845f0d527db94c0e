//! For which datagrams a server that keeps its leases waits: for those that come while no reply waits, and for no other, so that a reply
//! leaves as soon as nothing more has come.

use super::expect::{expect, expect_eq};
use super::keeping::store;
use arrayvec::ArrayVec;
use nbt_name::Addr;
use nbt_port::{Device, MemoryClock, MemoryPort, Port, Route};
use nbt_serve::{BATCH, Share, Waiting, keep_turn};
use nbt_server::Server;
use nbt_store::{DiskStore, MemoryDisk};
use nbt_testing::{QUERY, REGISTRATION, Row, clock, port, started};
use std::marker::Model;
use std::process::Abort;

const FIRST: Addr = Addr {
    ip: 0x7F000002,
    port: 137,
};

/// A registration, whose reply waits for a sync, and a query, whose reply waits behind it; then nothing twice.
const GIVEN: &[Row] = &[
    (FIRST, REGISTRATION),
    (FIRST, QUERY),
    (FIRST, ""),
    (FIRST, ""),
];

/// Which receives of these turns wait: the first, and the one after the turn that had no reply, in which both replies left.
const WAITS: &[bool] = &[true, false, false, true];

/// A port over another, which keeps of its receives whether they were to wait.
#[derive(Drop)]
struct Watched<P> {
    beneath: P,
    waits: ArrayVec<bool, 8>,
}

impl<P> Model for Watched<P> {
    ghost Value = { P };

    ghost view = { λ p. p.beneath };
}

impl<P: Port> Port for Watched<P> {
    ghost does = { P.does };

    ghost failures = { P.failures };

    fn receive(&mut self, octets: &mut ArrayVec<u8, 2048>) -> Result<Option<Route>, Device> {
        let _ = self.waits.try_push(true);
        self.beneath.receive(octets)
    }

    fn receive_now(&mut self, octets: &mut ArrayVec<u8, 2048>) -> Result<Option<Route>, Device> {
        let _ = self.waits.try_push(false);
        self.beneath.receive_now(octets)
    }

    fn send(&mut self, to: Route, octets: &[u8]) -> Result<(), Device> {
        self.beneath.send(to, octets)
    }

    fn failures(&self) -> u64 {
        self.beneath.failures()
    }
}

/// Takes as many turns as there are datagrams given.
fn take_turns<R: Abort + AllocGlobal>(
    rt: &R,
    port: &mut Watched<MemoryPort>,
    clock: &mut MemoryClock,
    store: &mut DiskStore<MemoryDisk>,
    server: &mut Server,
    waiting: &mut Waiting,
) {
    let mut share = Share::new(rt.alloc(), 0);
    let mut octets = ArrayVec::new();
    for _ in GIVEN {
        expect(rt, port.failures() < 1 << 62);
        expect(rt, waiting.len() < BATCH);
        let turn = keep_turn(
            port,
            clock,
            store,
            server,
            &mut share,
            waiting,
            &mut octets,
            &mut ArrayVec::new(),
            &mut None,
        );
        expect(rt, turn.is_ok());
    }
}

#[test]
fn no_datagram_is_waited_for_while_a_reply_waits(rt: HostRuntime) {
    let mut port = Watched {
        beneath: port(&rt, GIVEN).expect(&rt, "a port"),
        waits: ArrayVec::new(),
    };
    let mut clock = clock(&rt, &[60_000]).expect(&rt, "a clock");
    let mut server = started(&rt, 4096, 0).expect(&rt, "a server");
    let mut store = store(&rt, None);
    let mut waiting = Waiting::new(rt.alloc(), 60_000).expect(&rt, "waiting");
    take_turns(
        &rt,
        &mut port,
        &mut clock,
        &mut store,
        &mut server,
        &mut waiting,
    );
    expect_eq(&rt, &port.beneath.sent().len(), &2);
    expect_eq(&rt, &port.waits.as_slice(), &WAITS)
}
