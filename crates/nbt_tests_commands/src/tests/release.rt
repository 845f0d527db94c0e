//! One name server and two nodes, over moments in milliseconds. A datagram lives 1,000 ms at most, the longest lease is
//! 60 s, and all three are started at 0.

use super::expect::{expect, expect_eq};
use arrayvec::ArrayVec;
use nbt_lease::{Config, Moment};
use nbt_name::{Addr, Kind, Name};
use nbt_node::{AskFault, Event, Node};
use nbt_server::Server;
use std::process::Abort;

const SERVER: Addr = Addr {
    ip: 0x7F000001,
    port: 137,
};

const FIRST: Addr = Addr {
    ip: 0x7F000002,
    port: 137,
};

const SECOND: Addr = Addr {
    ip: 0x7F000003,
    port: 137,
};

/// The flags of a grant, of a refusal, and of the reply to a release (RFC 1002 sections 4.2.5, 4.2.6 and 4.2.10).
const GRANTED: &[u8] = b"\xAD\x80";

const REFUSED: &[u8] = b"\xAD\x86";

const FREED: &[u8] = b"\xB4\x00";

type Datagram = ArrayVec<u8, 576>;

fn at<R: Abort>(rt: &R, ms: u64) -> Moment {
    Moment::new(ms).expect(rt, "a moment")
}

fn fred<R: Abort>(rt: &R) -> Name {
    Name::new(b"FRED            ", b"").expect(rt, "a name")
}

/// The node's datagram comes to the server, which replies with these flags; by the reply the node is told this.
fn tells<R: Abort>(
    rt: &R,
    server: &mut Server,
    node: &mut Node<2>,
    ms: u64,
    from: Addr,
    request: &Datagram,
    flags: &[u8],
    told: Event<'_>,
) {
    let now = at(rt, ms);
    let mut reply: Datagram = ArrayVec::new();
    let is_reply = server.on_datagram(now, from, request.as_slice(), &mut reply);
    expect(rt, &ms, is_reply == Ok(true));
    expect(rt, &ms, reply.as_slice().get(2..4) == Some(flags));
    let mut out: Datagram = ArrayVec::new();
    let heard = node.on_datagram(now, SERVER, reply.as_slice(), &mut out);
    expect(rt, &ms, heard == Ok(told));
}

/// The node asks for FRED, for 60 s, and is told this.
fn ask<R: Abort>(
    rt: &R,
    server: &mut Server,
    node: &mut Node<2>,
    ms: u64,
    from: Addr,
    flags: &[u8],
    told: Event<'_>,
) {
    let mut request: Datagram = ArrayVec::new();
    let asked = node.ask(at(rt, ms), &fred(rt).lend(), Kind::Unique, 60, &mut request);
    expect(rt, &ms, asked.is_ok());
    tells(rt, server, node, ms, from, &request, flags, told);
}

/// It is too early for the node to ask for FRED.
fn expect_quiet<R: Abort>(rt: &R, node: &mut Node<2>, ms: u64) {
    let mut request: Datagram = ArrayVec::new();
    let asked = node.ask(at(rt, ms), &fred(rt).lend(), Kind::Unique, 60, &mut request);
    expect(rt, &ms, asked.err() == Some(AskFault::Quiet));
}

/// The first node releases FRED at 70,000, and asks too early; the release comes to the server at 71,000.
fn play<R: Abort>(rt: &R, server: &mut Server, first: &mut Node<2>, second: &mut Node<2>) {
    let granted = Event::Granted(60);
    ask(rt, server, first, 60_000, FIRST, GRANTED, granted);
    let mut release: Datagram = ArrayVec::new();
    let released = first.release(at(rt, 70_000), &fred(rt).lend(), &mut release);
    expect(rt, &70_000, released.is_ok());
    expect_quiet(rt, first, 70_500);
    let freed = Event::Freed(0);
    tells(rt, server, first, 71_000, FIRST, &release, FREED, freed);
    ask(rt, server, second, 71_000, SECOND, GRANTED, granted);
    expect_quiet(rt, first, 72_004);
    let refused = Event::Refused(6);
    ask(rt, server, first, 72_005, FIRST, REFUSED, refused);
    let now = at(rt, 72_005);
    expect_eq(rt, &FIRST, &first.holds(now, &fred(rt).lend()), &None);
    expect_eq(
        rt,
        &SECOND,
        &second.holds(now, &fred(rt).lend()),
        &Some(Kind::Unique),
    );
}

#[test]
fn an_early_ask_after_a_release_is_refused(rt: HostRuntime) {
    let config = Config::new(1000, 60, 4096).expect(&rt, "limits");
    let start = at(&rt, 0);
    let mut server = Server::start(rt.alloc(), config, start);
    let mut first: Node<2> = Node::start(FIRST, SERVER, config, start);
    let mut second: Node<2> = Node::start(SECOND, SERVER, config, start);
    play(&rt, &mut server, &mut first, &mut second);
}
