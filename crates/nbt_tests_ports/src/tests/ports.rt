//! Ports over UDP, and the machine's clock.

use super::expect::{expect, expect_eq, expect_eq_in};
use arrayvec::ArrayVec;
use nbt_lease::Moment;
use nbt_name::Addr;
use nbt_port::{
    Clock, Device, Fault, MachineClock, Port, Route, SteadyClock, UdpPort, steady_clock,
};
use std::cell::Cell;
use std::process::Abort;
use std::rt::Net;
use std::time::Duration;
use std::{io, time};

const HERE: Addr = Addr {
    ip: 0x7F2A1701,
    port: 20_137,
};

const THERE: Addr = Addr {
    ip: 0x7F2A1702,
    port: 20_137,
};

/// These octets are sent.
fn send<R: Abort>(rt: &R, port: &mut UdpPort, to: Addr, octets: &[u8]) -> Result<(), Device> {
    expect(rt, port.failures() < 1 << 62);
    port.send(Route::to(to), octets)
}

/// What comes into the buffer.
fn receive<R: Abort>(
    rt: &R,
    port: &mut UdpPort,
    octets: &mut ArrayVec<u8, 2048>,
) -> Result<Option<Route>, Device> {
    expect(rt, port.failures() < 1 << 62);
    port.receive(octets)
}

/// For port 0 the machine chooses one.
fn chosen<R: Net>(rt: &impl Abort, net: &R) -> Addr {
    UdpPort::bind(net, Addr { port: 0, ..HERE })
        .expect(rt, "bound")
        .local()
        .expect(rt, "local")
}

/// What is sent comes, as these octets alone.
fn expect_comes<R: Abort>(
    rt: &R,
    near: &mut UdpPort,
    far: &mut UdpPort,
    octets: &mut ArrayVec<u8, 2048>,
    sent: &[u8],
    taken: &[u8],
) {
    send(rt, near, THERE, sent).expect(rt, "sent");
    expect_eq(
        rt,
        &receive(rt, far, octets).expect(rt, "received"),
        &Some(Route::to(HERE)),
    );
    expect_eq_in(rt, &sent.len(), &octets.as_slice(), &taken);
}

/// Nothing comes, and nothing stands in the buffer.
fn expect_nothing<R: Abort>(rt: &R, far: &mut UdpPort, octets: &mut ArrayVec<u8, 2048>) {
    expect_eq(rt, &receive(rt, far, octets).expect(rt, "received"), &None);
    expect(rt, octets.is_empty());
    expect_eq(rt, &far.failures(), &0);
}

/// There is no way to port 0: what is sent there is lost, and the device is well. Where it is watched, the port knows why.
fn expect_no_way<R: Abort>(rt: &R, near: &mut UdpPort) {
    let nowhere = Addr { port: 0, ..THERE };
    expect_eq(rt, &send(rt, near, nowhere, b"hello"), &Ok(()));
    expect_eq(rt, &near.failures(), &0);
    expect(rt, near.lost().is_none());
    near.watch(nowhere);
    expect(rt, near.lost().is_none());
    expect_eq(rt, &send(rt, near, nowhere, b"hello"), &Ok(()));
    expect(rt, near.lost().is_some());
    expect_eq(rt, &near.failures(), &0);
    // What goes elsewhere says nothing of it.
    expect_eq(rt, &send(rt, near, HERE, b"hello"), &Ok(()));
    expect(rt, near.lost().is_some());
    near.watch(HERE);
    expect_eq(rt, &send(rt, near, nowhere, b"hello"), &Ok(()));
    expect(rt, near.lost().is_none());
}

/// A datagram stands alone in the buffer.
fn expect_alone<R: Abort>(
    rt: &R,
    near: &mut UdpPort,
    far: &mut UdpPort,
    octets: &mut ArrayVec<u8, 2048>,
) {
    for sent in [b"hello".as_slice(), b"the first", b"second", b"", b"3"] {
        expect_comes(rt, near, far, octets, sent, sent);
    }
}

/// The octets of a datagram, and how many of them are handed out.
const LENGTHS: [(usize, usize); 7] = [
    (576, 576),
    (577, 577),
    (1_472, 1_472),
    (2_047, 2_047),
    (2_048, 2_048),
    (2_049, 2_048),
    (4_000, 2_048),
];

/// So many octets, each of which tells its place.
fn counted<R: Abort + AllocGlobal>(rt: &R, count: usize) -> Vec<u8> {
    let mut octets = Vec::new(rt.alloc());
    for place in 0..count {
        octets.push((place % 251) as u8).expect(rt, "memory");
    }
    octets
}

/// A datagram is cut at 2,048 octets alone.
fn expect_cut<R: Abort + AllocGlobal>(
    rt: &R,
    near: &mut UdpPort,
    far: &mut UdpPort,
    octets: &mut ArrayVec<u8, 2048>,
) {
    for (sent, taken) in &LENGTHS {
        let given = counted(rt, *sent);
        let wanted = counted(rt, *taken);
        expect_comes(rt, near, far, octets, given.as_slice(), wanted.as_slice());
    }
}

/// A datagram that UDP can't carry is a failure.
fn expect_failure<R: Abort>(rt: &R, near: &mut UdpPort, long: &[u8]) {
    expect_eq(rt, &near.failures(), &0);
    expect_eq(rt, &send(rt, near, THERE, long), &Err(Device));
    expect_eq(rt, &near.failures(), &1);
    expect_eq(rt, &send(rt, near, THERE, long), &Err(Device));
    expect_eq(rt, &near.failures(), &2);
}

fn over_udp<R: Abort + AllocGlobal>(
    rt: &R,
    near: &mut UdpPort,
    far: &mut UdpPort,
    octets: &mut ArrayVec<u8, 2048>,
) {
    expect_eq(rt, &near.local().expect(rt, "local"), &HERE);
    expect_eq(rt, &near.addr(), &HERE);
    expect_alone(rt, near, far, octets);
    expect_nothing(rt, far, octets);
    expect_no_way(rt, near);
    expect_cut(rt, near, far, octets);
    // A datagram of IPv4 has 65,535 octets at most, of which 28 are headers (RFC 791, RFC 768).
    expect_failure(rt, near, counted(rt, 65_508).as_slice());
    // What is sent after it comes.
    expect_comes(rt, near, far, octets, b"hello", b"hello");
    expect_nothing(rt, far, octets)
}

#[test]
fn datagrams_go_over_udp(rt: HostRuntime) {
    let chosen = chosen(&rt, &rt);
    expect_eq(&rt, &chosen.ip, &HERE.ip);
    expect(&rt, chosen.port > 0);
    let mut near = UdpPort::bind(&rt, HERE).expect(&rt, "bound");
    let mut far = UdpPort::bind(&rt, THERE).expect(&rt, "bound");
    expect(&rt, UdpPort::bind(&rt, HERE).is_err());
    over_udp(&rt, &mut near, &mut far, &mut ArrayVec::new())
}

/// A machine whose time of day shows these milliseconds, or can't be read, and its monotonic clock, too.
#[derive(Drop)]
struct Machine {
    shows: Cell<Option<u64>>,
    since_boot: Cell<Option<u64>>,
}

impl Machine {
    /// One whose clocks can't be read.
    fn new() -> Machine {
        Machine {
            shows: Cell::new(None),
            since_boot: Cell::new(None),
        }
    }
}

/// These milliseconds, or that a clock can't be read.
fn shown(ms: Option<u64>) -> io::Result<Duration> {
    match ms {
        Some(ms) => Ok(Duration::from_millis(ms)),
        None => Err(io::Error::from(io::ErrorKind::Unsupported)),
    }
}

impl time::Clock for Machine {
    fn monotonic(&self) -> io::Result<Duration> {
        shown(self.since_boot.get())
    }

    fn since_1970(&self) -> io::Result<Duration> {
        shown(self.shows.get())
    }
}

/// The last moment that there is.
const END: u64 = 1 << 60;

/// What the machine's clock shows, and the moment that is told.
const TIMES: [(Option<u64>, u64); 6] = [
    (None, 0),
    (Some(60_000), 60_000),
    (None, 60_000),
    (Some(END + 1), 60_000),
    (Some(END), END),
    (Some(59_999), 59_999),
];

#[test]
fn the_clock_of_the_machine(rt: HostRuntime) {
    // The year is past 2001.
    expect(&rt, MachineClock::new(&rt).now().get() > 1_000_000_000_000);
}

#[test]
fn a_clock_without_a_moment_tells_the_last_one_again(rt: HostRuntime) {
    let machine = Machine::new();
    machine.since_boot.set(Some(7));
    let mut clock = MachineClock::new(&machine);
    for (shows, told) in TIMES {
        machine.shows.set(shows);
        expect_eq_in(
            &rt,
            &told,
            &clock.now(),
            &Moment::new(told).expect(&rt, "a moment"),
        );
        expect_eq_in(
            &rt,
            &told,
            &clock.last(),
            &Moment::new(told).expect(&rt, "a moment"),
        );
    }
}

/// What the machine's monotonic clock shows, and the moment that is told: it goes on past 2^32 ms, some 50 days, and for many years.
const STEADY_TIMES: [(Option<u64>, u64); 9] = [
    (Some(60_000), 60_000),
    (None, 60_000),
    (Some(59_999), 60_000),
    (Some(END + 1), 60_000),
    (Some(4_294_967_295), 4_294_967_295),
    (Some(4_294_967_296), 4_294_967_296),
    (Some(1_000_000_000_000), 1_000_000_000_000),
    (Some(END), END),
    (Some(END - 1), END),
];

fn expect_steady<R: Abort>(rt: &R, machine: &Machine, clock: &mut SteadyClock<'_, Machine>) {
    for (shows, told) in STEADY_TIMES {
        machine.since_boot.set(shows);
        // What the time of day is doesn't matter to it.
        machine.shows.set(Some(told + 5_000));
        expect_eq_in(
            rt,
            &told,
            &clock.now(),
            &Moment::new(told).expect(rt, "a moment"),
        );
    }
}

#[test]
fn a_steady_clock_goes_on_from_boot_and_never_back(rt: HostRuntime) {
    let machine = Machine::new();
    machine.since_boot.set(Some(1_000));
    let mut clock = SteadyClock::begin(&machine).expect(&rt, "begin");
    machine.since_boot.set(None);
    expect_eq(
        &rt,
        &clock.now(),
        &Moment::new(1_000).expect(&rt, "a moment"),
    );
    expect_steady(&rt, &machine, &mut clock)
}

/// A monotonic clock that can't be begun, and what is said of it.
const NOT_BEGUN: [(Option<u64>, &str); 2] = [
    (None, "nbt: 127.42.23.1:20137: clock: unsupported\n"),
    (
        Some(END + 1),
        "nbt: 127.42.23.1:20137: clock: the clock is past 2^60 ms\n",
    ),
];

#[test]
fn a_steady_clock_that_can_not_be_read_at_first(rt: HostRuntime) {
    let machine = Machine::new();
    machine.shows.set(Some(60_000));
    for (shows, said) in &NOT_BEGUN {
        machine.since_boot.set(*shows);
        let mut errors = Vec::new(rt.alloc());
        let refused = steady_clock(&machine, HERE, &mut errors).err();
        expect_eq(&rt, &refused, &Some(Fault::NoClock));
        expect_eq(
            &rt,
            &str::from_utf8(errors.as_slice()).expect(&rt, "a text"),
            said,
        );
    }
}
