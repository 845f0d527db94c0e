//! How long a receive waits, which lost datagram a port tells of, and of which end of a port something is said.

use super::expect::{expect, expect_eq};
use arrayvec::ArrayVec;
use nbt_name::Addr;
use nbt_port::{
    Bind, Cause, Fault, MachineCall, Port, RECEIVE_WAIT, Route, UdpPort, UdpPorts, tell_end_of,
};
use std::io;
use std::process::Abort;
use std::time::{Clock, Duration};

/// A port that no other test has.
const HERE: Addr = Addr {
    ip: 0x7F2A_1708,
    port: 20_198,
};

const THERE: Addr = Addr {
    ip: 0x7F2A_1709,
    port: 20_198,
};

/// How long a receive of nothing takes.
fn waited<R: Abort + Clock, P: Port>(rt: &R, port: &mut P, waits: bool) -> Duration {
    let mut octets = ArrayVec::new();
    let begin = rt.monotonic().expect(rt, "monotonic");
    expect(rt, port.failures() < 1 << 62);
    let from = if waits {
        port.receive(&mut octets).expect(rt, "received")
    } else {
        port.receive_now(&mut octets).expect(rt, "receive now")
    };
    expect_eq(rt, &from, &None);
    rt.monotonic().expect(rt, "monotonic").saturating_sub(begin)
}

/// How long the shortest of three receives of nothing takes: other work on the machine makes one longer, and hardly all.
fn shortest<R: Abort + Clock, P: Port>(rt: &R, port: &mut P, waits: bool) -> Duration {
    let mut least = waited(rt, port, waits);
    for _ in 0..2 {
        let next = waited(rt, port, waits);
        if next < least {
            least = next;
        }
    }
    least
}

/// A receive waits for 100 ms; one that doesn't wait takes much less. Which of them was before doesn't matter.
fn expect_waits<R: Abort + Clock, P: Port>(rt: &R, port: &mut P) {
    for _ in 0..2 {
        let least = shortest(rt, port, true);
        expect(rt, least >= Duration::from_millis(RECEIVE_WAIT - 10));
        expect(rt, least < Duration::from_millis(RECEIVE_WAIT * 8));
        let least = shortest(rt, port, false);
        expect(rt, least < Duration::from_millis(RECEIVE_WAIT / 2));
    }
}

#[test]
fn how_long_a_receive_waits(rt: HostRuntime) {
    expect_waits(&rt, &mut UdpPort::bind(&rt, HERE).expect(&rt, "bound"));
    let bind = Bind::To(vec![in rt.alloc(); HERE, THERE].expect(&rt, "memory"));
    let mut errors = Vec::new(rt.alloc());
    expect_waits(
        &rt,
        &mut UdpPorts::bind(&rt, rt.alloc(), &bind, &mut errors).expect(&rt, "bound"),
    )
}

/// There is no way to port 0. What is lost to another host isn't told.
#[test]
fn a_port_watches_one_host(rt: HostRuntime) {
    let nowhere = Addr { port: 0, ..THERE };
    let mut port = UdpPort::bind(&rt, Addr { port: 0, ..HERE }).expect(&rt, "bound");
    port.watch(THERE);
    port.send(Route::to(nowhere), b"lost").expect(&rt, "sent");
    expect(&rt, port.lost().is_none());
    port.watch(nowhere);
    expect(&rt, port.failures() < 1 << 62);
    port.send(Route::to(nowhere), b"lost").expect(&rt, "sent");
    expect(&rt, port.lost().is_some());
    expect(&rt, port.failures() < 1 << 62);
    port.send(Route::to(THERE), b"elsewhere")
        .expect(&rt, "sent");
    expect(&rt, port.lost().is_some());
}

/// Why a port failed is said where that ended all, and at no other end.
#[test]
fn the_end_of_a_port(rt: HostRuntime) {
    let error = io::Error::from(io::ErrorKind::ConnectionRefused);
    let cause = Cause::new(MachineCall::Receive, HERE, error);
    let mut errors = Vec::new(rt.alloc());
    tell_end_of(Some(Fault::Output), Some(cause), &mut errors);
    tell_end_of(None, Some(cause), &mut errors);
    tell_end_of(Some(Fault::Device), None, &mut errors);
    expect(&rt, errors.is_empty());
    tell_end_of(Some(Fault::Device), Some(cause), &mut errors);
    let said = b"nbt: 127.42.23.8:20198: receive: connection refused\n";
    expect_eq(&rt, &errors.as_slice(), &said.as_slice());
}
