//! A port over UDP that takes Samba's registrations.

use super::expect::{expect, expect_eq};
use arrayvec::ArrayVec;
use nbt_name::Addr;
use nbt_port::{Device, Port, Route, UdpPort};
use nbt_serve::SambaPort;
use nbt_testing::octets;
use std::process::Abort;

/// nmbd's registration of NODEB#20 by OPCODE 15, and what it is taken as.
const NODEB: &str = "60f4 7900 two-parts NODEB NB again NB 20s H-unique 198.18.137.2";

const TAKEN: &str = "60f4 2900 two-parts NODEB NB again NB 20s H-unique 198.18.137.2";

/// Two ends of this machine, with a port that no other test has.
const HERE: Addr = Addr {
    ip: 0x7F2A1701,
    port: 20_141,
};

const THERE: Addr = Addr {
    ip: 0x7F2A1702,
    port: 20_141,
};

/// `receive` and `send` at such a port.
fn receive<R: Abort, P: Port>(
    rt: &R,
    port: &mut P,
    octets: &mut ArrayVec<u8, 2048>,
) -> Result<Option<Route>, Device> {
    expect(rt, port.failures() < 1 << 62);
    port.receive(octets)
}

fn send<R: Abort, P: Port>(rt: &R, port: &mut P, octets: &[u8]) -> Result<(), Device> {
    expect(rt, port.failures() < 1 << 62);
    port.send(Route::to(THERE), octets)
}

/// What is sent is sent as it is, and taken where it comes.
fn expect_taken<R: Abort + AllocGlobal>(
    rt: &R,
    near: &mut SambaPort<UdpPort>,
    far: &mut SambaPort<UdpPort>,
    came: &mut ArrayVec<u8, 2048>,
) {
    send(rt, near, octets(rt, NODEB).expect(rt, "octets").as_slice()).expect(rt, "sent");
    expect_eq(
        rt,
        &receive(rt, far, came).expect(rt, "received"),
        &Some(Route::to(HERE)),
    );
    let taken = octets(rt, TAKEN).expect(rt, "octets");
    expect_eq(rt, &came.as_slice(), &taken.as_slice());
    expect_eq(rt, &receive(rt, far, came).expect(rt, "received"), &None);
    expect(rt, near.cause().is_none());
}

/// A datagram of IPv4 has 65,535 octets at most (RFC 791).
fn expect_cause<R: Abort + AllocGlobal>(rt: &R, near: &mut SambaPort<UdpPort>) {
    let mut long = Vec::new(rt.alloc());
    long.resize(65_508, 0).expect(rt, "memory");
    expect_eq(rt, &send(rt, near, long.as_slice()), &Err(Device));
    expect_eq(rt, &near.failures(), &1);
    expect(rt, near.cause().is_some());
}

fn over_udp<R: Abort + AllocGlobal>(
    rt: &R,
    near: &mut SambaPort<UdpPort>,
    far: &mut SambaPort<UdpPort>,
) {
    expect_taken(rt, near, far, &mut ArrayVec::new());
    expect_cause(rt, near)
}

#[test]
fn over_udp_too_and_the_cause_of_a_failure_is_known(rt: HostRuntime) {
    let near = UdpPort::bind(&rt, HERE).expect(&rt, "bound");
    let far = UdpPort::bind(&rt, THERE).expect(&rt, "bound");
    over_udp(&rt, &mut SambaPort::new(near), &mut SambaPort::new(far))
}
