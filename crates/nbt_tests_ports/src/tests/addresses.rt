//! Ports that have several addresses, and the addresses of a machine.

use super::expect::{expect, expect_eq, expect_eq_in};
use arrayvec::ArrayVec;
use nbt_name::Addr;
use nbt_port::{Bind, Device, Fault, Port, Route, UdpPort, UdpPorts, own_addresses};
use std::net::Net;
use std::process::Abort;
use std::rt::Files;
use std::time;

/// A list as Linux writes it, of a machine with two interfaces, of which one has two addresses.
const TWO_CARDS: &str = "\
Main:
  +-- 0.0.0.0/0 3 0 5
     |-- 0.0.0.0
        /0 universe UNICAST
     +-- 127.0.0.0/8 2 0 2
        +-- 127.0.0.0/31 1 0 0
           |-- 127.0.0.0
              /8 host LOCAL
           |-- 127.0.0.1
              /32 host LOCAL
        |-- 127.255.255.255
           /32 link BROADCAST
     +-- 192.0.2.0/24 2 0 2
        |-- 192.0.2.0
           /24 link UNICAST
        |-- 192.0.2.1
           /32 host LOCAL
        |-- 192.0.2.9
           /32 host LOCAL
        |-- 192.0.2.255
           /32 link BROADCAST
     |-- 198.51.100.7
        /32 host LOCAL
        /25 link UNICAST
     |-- 203.0.113.4
        /32 universe UNICAST
";

/// A list, and the machine's own addresses in it.
const LISTS: [(&str, &[u32]); 12] = [
    (
        TWO_CARDS,
        &[0x7F00_0001, 0xC000_0201, 0xC000_0209, 0xC633_6407],
    ),
    ("", &[]),
    ("Main:\nLocal:\n", &[]),
    // What belongs to no leaf, and a leaf of which nothing is said.
    ("/32 host LOCAL\n|-- 192.0.2.1\n", &[]),
    // Two tables.
    (
        "|-- 192.0.2.1\n/32 host LOCAL\nLocal:\n|-- 192.0.2.1\n/32 host LOCAL\n",
        &[0xC000_0201, 0xC000_0201],
    ),
    // Cut behind a whole line, and inside one.
    ("     |-- 192.0.2.1\n        /32 host LOCAL", &[0xC000_0201]),
    ("     |-- 192.0.2.1\n        /32 host LOCA", &[]),
    ("     |-- 192.0.2.1\n        /32 host", &[]),
    // What is said is about the leaf right above.
    (
        "|-- 192.0.2.1\n/24 link UNICAST\n|-- 192.0.2.2\n/32 host LOCAL\n",
        &[0xC000_0202],
    ),
    (
        "|-- 192.0.2.1\n/24 link UNICAST\n/32 host LOCAL\n",
        &[0xC000_0201],
    ),
    // No address, and no mark of a leaf.
    ("|-- 192.0.2.256\n/32 host LOCAL\n", &[]),
    ("+-- 192.0.2.1 2 0 2\n/32 host LOCAL\n", &[]),
];

fn expect_lists<R: Abort + AllocGlobal>(rt: &R, lists: &[(&str, &[u32])]) {
    for (list, own) in lists {
        let found = own_addresses(rt.alloc(), list.as_bytes()).expect(rt, "own addresses");
        expect_eq_in(rt, list, &found.as_slice(), own);
    }
}

#[test]
fn own_addresses_of_a_machine(rt: HostRuntime) {
    expect_lists(&rt, &LISTS)
}

/// An address of the test's ports.
const fn at(last: u32) -> Addr {
    Addr {
        ip: 0x7F2A_1D00 | last,
        port: 20_190,
    }
}

/// A host.
const fn host(last: u32) -> Addr {
    Addr {
        ip: 0x7F2A_1E00 | last,
        port: 20_191,
    }
}

/// From a host to an address of the port, or from there to the host.
const fn by(peer: u32, local: u32) -> Route {
    Route {
        peer: host(peer),
        local: Some(at(local)),
    }
}

/// What a port does.
#[derive(Clone, Copy, Debug)]
enum Act {
    /// This host sends this to that address.
    Sends(u32, u32, &'static [u8]),
    /// The port receives, and waits: this from that host, at that address.
    Receives(u32, u32, &'static [u8]),
    /// It receives without waiting.
    ReceivesNow(u32, u32, &'static [u8]),
    /// Nothing comes, whether it waits or not.
    Nothing,
    /// It sends this to that host, by the route of a datagram that came from there at that address. From this one it comes.
    Replies(u32, u32, &'static [u8]),
    /// It sends this to that host, which sent nothing. It comes from the first address.
    Begins(u32, &'static [u8]),
}

/// A reply leaves from the address at which its request came, whichever it is; also where replies wait for one another, in whatever order
/// they leave.
const ACTS: [Act; 41] = [
    Act::Nothing,
    Act::Sends(1, 2, b"one"),
    Act::Receives(1, 2, b"one"),
    Act::Replies(1, 2, b"reply"),
    Act::Sends(1, 1, b"two"),
    Act::Receives(1, 1, b"two"),
    Act::Replies(1, 1, b"reply"),
    Act::Nothing,
    // Two hosts at three addresses, whose replies wait.
    Act::Sends(1, 3, b"three"),
    Act::Receives(1, 3, b"three"),
    Act::Sends(2, 1, b"four"),
    Act::ReceivesNow(2, 1, b"four"),
    Act::Sends(1, 2, b"five"),
    Act::ReceivesNow(1, 2, b"five"),
    // The last has no reply.
    Act::Sends(2, 3, b"six"),
    Act::ReceivesNow(2, 3, b"six"),
    Act::Replies(1, 3, b"3"),
    Act::Replies(2, 1, b"4"),
    Act::Replies(1, 2, b"5"),
    Act::Nothing,
    Act::Sends(2, 2, b"seven"),
    Act::Receives(2, 2, b"seven"),
    Act::Replies(2, 2, b"7"),
    // To somebody who sent nothing it leaves from the first address.
    Act::Begins(1, b"8"),
    // One host asks at two addresses, and its replies leave in the opposite order.
    Act::Sends(1, 2, b"nine"),
    Act::Receives(1, 2, b"nine"),
    Act::Sends(1, 3, b"ten"),
    Act::ReceivesNow(1, 3, b"ten"),
    Act::Replies(1, 3, b"10"),
    Act::Replies(1, 2, b"9"),
    // One reply waits while others come and go, and a receive that waits is among them.
    Act::Sends(1, 3, b"eleven"),
    Act::Receives(1, 3, b"eleven"),
    Act::Nothing,
    Act::Sends(1, 1, b"twelve"),
    Act::Receives(1, 1, b"twelve"),
    Act::Replies(1, 1, b"12"),
    Act::Replies(1, 3, b"11"),
    // An empty datagram.
    Act::Sends(1, 3, b""),
    Act::Receives(1, 3, b""),
    Act::Replies(1, 3, b""),
    Act::Nothing,
];

fn receive<R: Abort, P: Port>(
    rt: &R,
    port: &mut P,
    waits: bool,
    octets: &mut ArrayVec<u8, 2048>,
) -> Result<Option<Route>, Device> {
    expect(rt, port.failures() < 1 << 62);
    if waits {
        port.receive(octets)
    } else {
        port.receive_now(octets)
    }
}

fn send<R: Abort, P: Port>(rt: &R, port: &mut P, to: Route, octets: &[u8]) -> Result<(), Device> {
    expect(rt, port.failures() < 1 << 62);
    port.send(to, octets)
}

/// One of two hosts.
fn host_of<'a>(first: &'a mut UdpPort, second: &'a mut UdpPort, which: u32) -> &'a mut UdpPort {
    if which == 1 { first } else { second }
}

/// This comes to a port by this route, and stands alone in the buffer.
fn expect_comes<R: Abort, P: Port>(
    rt: &R,
    act: &Act,
    port: &mut P,
    waits: bool,
    octets: &mut ArrayVec<u8, 2048>,
    by: Route,
    sent: &[u8],
) {
    expect_eq_in(
        rt,
        act,
        &receive(rt, port, waits, octets).expect(rt, "received"),
        &Some(by),
    );
    expect_eq_in(rt, act, &octets.as_slice(), &sent);
}

/// Nothing comes, whether a receive waits or not, and nothing stands in the buffer.
fn expect_nothing<R: Abort, P: Port>(
    rt: &R,
    act: &Act,
    port: &mut P,
    octets: &mut ArrayVec<u8, 2048>,
) {
    for waits in [true, false] {
        expect_eq_in(
            rt,
            act,
            &receive(rt, port, waits, octets).expect(rt, "received"),
            &None,
        );
        expect(rt, octets.is_empty());
    }
}

fn play<R: Abort, P: Port>(
    rt: &R,
    port: &mut P,
    first: &mut UdpPort,
    second: &mut UdpPort,
    acts: &[Act],
) {
    let mut octets = ArrayVec::new();
    for act in acts {
        match *act {
            Act::Sends(from, to, sent) => {
                let to = Route::to(at(to));
                send(rt, host_of(first, second, from), to, sent).expect(rt, "sent");
            }
            Act::Receives(from, to, sent) => {
                expect_comes(rt, act, port, true, &mut octets, by(from, to), sent);
            }
            Act::ReceivesNow(from, to, sent) => {
                expect_comes(rt, act, port, false, &mut octets, by(from, to), sent);
            }
            Act::Nothing => expect_nothing(rt, act, port, &mut octets),
            Act::Replies(to, from, sent) => {
                send(rt, port, by(to, from), sent).expect(rt, "sent");
                let other = host_of(first, second, to);
                let route = Route::to(at(from));
                expect_comes(rt, act, other, true, &mut octets, route, sent);
            }
            Act::Begins(to, sent) => {
                send(rt, port, Route::to(host(to)), sent).expect(rt, "sent");
                let other = host_of(first, second, to);
                let route = Route::to(at(1));
                expect_comes(rt, act, other, true, &mut octets, route, sent);
            }
        }
    }
}

/// Many datagrams at one address don't keep one at another from being received.
fn expect_fair<R: Abort, P: Port>(rt: &R, port: &mut P, first: &mut UdpPort, second: &mut UdpPort) {
    let mut octets = ArrayVec::new();
    for _ in 0..40 {
        send(rt, first, Route::to(at(1)), b"flood").expect(rt, "sent");
    }
    expect_eq(
        rt,
        &receive(rt, port, true, &mut octets).expect(rt, "received"),
        &Some(by(1, 1)),
    );
    send(rt, second, Route::to(at(3)), b"once").expect(rt, "sent");
    let mut before = 40;
    for turn in 0u32..40 {
        if receive(rt, port, true, &mut octets).expect(rt, "received") == Some(by(2, 3)) {
            before = turn;
            break;
        }
    }
    expect(rt, before < 3);
    for _ in before..39 {
        expect_eq(
            rt,
            &receive(rt, port, false, &mut octets).expect(rt, "received"),
            &Some(by(1, 1)),
        );
    }
    expect_eq(
        rt,
        &receive(rt, port, true, &mut octets).expect(rt, "received"),
        &None,
    );
}

/// What can't be sent is a failure, for which the address is known from which it should have left; what has no way is lost.
fn expect_failures<R: Abort + AllocGlobal, P: Port>(
    rt: &R,
    port: &mut P,
    first: &mut UdpPort,
    long: &[u8],
) {
    let mut octets = ArrayVec::new();
    let nowhere = Addr { port: 0, ..host(1) };
    send(rt, port, Route::to(nowhere), b"nowhere").expect(rt, "sent");
    expect_eq(rt, &port.failures(), &0);
    send(rt, first, Route::to(at(2)), b"long").expect(rt, "sent");
    expect_eq(
        rt,
        &receive(rt, port, true, &mut octets).expect(rt, "received"),
        &Some(by(1, 2)),
    );
    expect_eq(rt, &send(rt, port, by(1, 2), long), &Err(Device));
    expect_eq(rt, &port.failures(), &1);
    let mut said = Vec::new(rt.alloc());
    port.cause().expect(rt, "a cause").tell("", &mut said);
    let wanted = b"nbt: 127.42.29.2:20190: send: Message too long (os error 90)\n";
    expect_eq(rt, &said.as_slice(), &wanted.as_slice());
}

fn expect_addresses<R: Abort, M: Net + Files + time::Clock>(
    rt: &R,
    port: &UdpPorts<'_, M>,
    wanted: &[Addr],
) {
    expect_eq(
        rt,
        &port.addresses().expect(rt, "addresses").as_slice(),
        &wanted,
    );
}

#[test]
fn a_reply_leaves_from_the_address_that_was_asked(rt: HostRuntime) {
    let bind = Bind::To(vec![in rt.alloc(); at(1), at(2), at(3)].expect(&rt, "memory"));
    let mut errors = Vec::new(rt.alloc());
    let mut first = UdpPort::bind(&rt, host(1)).expect(&rt, "bound");
    let mut second = UdpPort::bind(&rt, host(2)).expect(&rt, "bound");
    let mut port = UdpPorts::bind(&rt, rt.alloc(), &bind, &mut errors).expect(&rt, "bound");
    expect_addresses(&rt, &port, &[at(1), at(2), at(3)]);
    play(&rt, &mut port, &mut first, &mut second, &ACTS);
    expect_fair(&rt, &mut port, &mut first, &mut second);
    let long = Vec::from_elem(rt.alloc(), 0, 65_508).expect(&rt, "memory");
    expect_failures(&rt, &mut port, &mut first, long.as_slice());
    expect(&rt, errors.is_empty());
}

/// How binding to these addresses ends, and what is said.
fn refused<R: AllocGlobal + Net + time::Clock + Files>(
    rt: &R,
    bind: &Bind,
) -> (Option<Fault>, Vec<u8>) {
    let mut errors = Vec::new(rt.alloc());
    let ended = UdpPorts::bind(rt, rt.alloc(), bind, &mut errors).err();
    (ended, errors)
}

#[test]
fn an_address_that_can_not_be_had(rt: HostRuntime) {
    let taken = Addr {
        port: 20_192,
        ..at(2)
    };
    let free = Addr {
        port: 20_192,
        ..at(1)
    };
    let _taken = UdpPort::bind(&rt, taken).expect(&rt, "bound");
    let (ended, said) = refused(
        &rt,
        &Bind::To(vec![in rt.alloc(); free, taken].expect(&rt, "memory")),
    );
    expect_eq(&rt, &ended, &Some(Fault::NoPort));
    let wanted = b"nbt: 127.42.29.2:20192: Address already in use (os error 98)\n";
    expect_eq(&rt, &said.as_slice(), &wanted.as_slice());
    // Where one of all is taken, the others are served.
    let (ended, _) = refused(&rt, &Bind::Every(20_192));
    expect_eq(&rt, &ended, &None);
}

/// A host that no other test has.
const fn sender() -> Addr {
    Addr {
        port: 20_194,
        ..host(1)
    }
}

/// The machine's own address 127.0.0.1.
const fn loopback(port: u16) -> Addr {
    Addr {
        ip: 0x7F00_0001,
        port,
    }
}

fn expect_served<R: Abort, M: Net + Files + time::Clock>(
    rt: &R,
    port: &mut UdpPorts<'_, M>,
    other: &mut UdpPort,
) {
    let served = port.addresses().expect(rt, "addresses");
    expect(rt, served.as_slice().contains(&loopback(20_193)));
    // Each by a socket of its own, and none twice.
    for addr in served.as_slice() {
        expect(rt, addr.ip != 0);
        expect_eq_in(
            rt,
            addr,
            &served.iter().filter(|at| *at == addr).count(),
            &1,
        );
    }
    let mut octets = ArrayVec::new();
    let route = Route {
        peer: sender(),
        local: Some(loopback(20_193)),
    };
    send(rt, other, Route::to(loopback(20_193)), b"hello").expect(rt, "sent");
    expect_eq(
        rt,
        &receive(rt, port, true, &mut octets).expect(rt, "received"),
        &Some(route),
    );
    send(rt, port, route, b"reply").expect(rt, "sent");
    expect_eq(
        rt,
        &receive(rt, other, true, &mut octets).expect(rt, "received"),
        &Some(Route::to(loopback(20_193))),
    );
}

#[test]
fn every_address_of_this_machine(rt: HostRuntime) {
    let bind = Bind::Every(20_193);
    let mut errors = Vec::new(rt.alloc());
    let mut first = UdpPort::bind(&rt, sender()).expect(&rt, "bound");
    let mut port = UdpPorts::bind(&rt, rt.alloc(), &bind, &mut errors).expect(&rt, "bound");
    expect_served(&rt, &mut port, &mut first);
    expect(&rt, errors.is_empty());
    // What comes and goes is told once; here nothing does.
    port.tell_changes(&mut errors);
    expect(&rt, errors.is_empty());
}
