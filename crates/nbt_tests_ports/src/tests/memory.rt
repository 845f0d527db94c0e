//! A port in memory that hands out many datagrams, and keeps all that are sent.

use super::expect::{expect, expect_eq};
use arrayvec::ArrayVec;
use nbt_name::Addr;
use nbt_port::{MemoryPort, Port, Route};
use nbt_testing::port as port_of;
use std::process::Abort;

const FIRST: Addr = Addr {
    ip: 0x7F00_0002,
    port: 137,
};

/// How many datagrams come.
const MANY: usize = 1_000;

/// What comes is sent back, until nothing comes. Returns how many were.
fn send_back<R: Abort>(
    rt: &R,
    port: &mut MemoryPort,
    octets: &mut ArrayVec<u8, 2048>,
    most: usize,
) -> usize {
    let mut count = 0;
    for _ in 0..most {
        expect(rt, port.failures() == 0);
        let Some(from) = port.receive(octets).expect(rt, "received") else {
            return count;
        };
        expect(rt, port.send(from, octets.as_slice()).is_ok());
        count = most.min(count.saturating_add(1));
    }
    count
}

#[test]
fn a_port_in_memory_keeps_all_that_is_sent(rt: HostRuntime) {
    let mut port = port_of(&rt, &[(FIRST, "0102"); MANY]).expect(&rt, "a port");
    let count = send_back(&rt, &mut port, &mut ArrayVec::new(), 2 * MANY);
    expect_eq(&rt, &count, &MANY);
    expect_eq(&rt, &port.sent().len(), &MANY);
    for datagram in port.sent() {
        expect_eq(&rt, &datagram.route, &Route::to(FIRST));
        expect_eq(&rt, &datagram.octets.as_slice(), &[1, 2].as_slice());
    }
}
