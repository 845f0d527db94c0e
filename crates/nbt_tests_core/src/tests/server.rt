//! A server to which memory is refused: the life of a datagram 1,000 ms, the longest lease 60 s.

use super::expect::{expect_eq, expect_eq_in, expect_in};
use arrayvec::ArrayVec;
use nbt_lease::Moment;
use nbt_name::Addr;
use nbt_server::{Server, ServerFault};
use nbt_testing::{FIRST, FOUND, GRANTED, QUERY, REFRESH, REGISTRATION, SECOND, octets, started};
use std::process::Abort;

/// When a datagram comes, from which address, its octets, and those of the reply.
type Row = (u64, u32, &'static str, &'static str);

/// A datagram as octets: which case it is of, for the failure to print; when it comes, and from which address.
type Came<'a> = (&'a str, u64, u32, &'a [u8]);

/// The reply to these octets.
fn expect_reply(rt: &impl Abort, server: &mut Server, came: Came<'_>, gives: &[u8]) {
    let now = Moment::new(came.1).expect(rt, "a moment");
    let from = Addr {
        ip: came.2,
        port: 137,
    };
    let mut out = ArrayVec::new();
    let is_reply = server
        .on_datagram(now, from, came.3, &mut out)
        .expect(rt, "a reply");
    expect_eq_in(rt, &came, &out.as_slice(), &gives);
    expect_eq_in(rt, &came, &is_reply, &!gives.is_empty());
}

/// `REGISTRATION`, `GRANTED`, `QUERY` and `NOT_FOUND` as octets, which take no memory.
const REGISTRATION_OCTETS: &[u8] =
    b"\x00\x01\x29\x00\x00\x01\x00\x00\x00\x00\x00\x01 EGFCEFEECACACACACACACACACACACACA\x00\x00\x20\x00\x01\xC0\x0C\x00\x20\x00\x01\x00\x00\x00\x3C\x00\x06\x20\x00\x7F\x00\x00\x02";

const GRANTED_OCTETS: &[u8] =
    b"\x00\x01\xAD\x80\x00\x00\x00\x01\x00\x00\x00\x00 EGFCEFEECACACACACACACACACACACACA\x00\x00\x20\x00\x01\x00\x00\x00\x3C\x00\x06\x20\x00\x7F\x00\x00\x02";

const QUERY_OCTETS: &[u8] =
    b"\x00\x08\x01\x00\x00\x01\x00\x00\x00\x00\x00\x00 EGFCEFEECACACACACACACACACACACACA\x00\x00\x20\x00\x01";

const NOT_FOUND_OCTETS: &[u8] =
    b"\x00\x08\x85\x83\x00\x00\x00\x01\x00\x00\x00\x00 EGFCEFEECACACACACACACACACACACACA\x00\x00\x0A\x00\x01\x00\x00\x00\x00\x00\x00";

/// FRED is granted, or memory was refused: then the server says so, has no lease, and grants the same request when it comes again.
fn expect_granted_at_last(rt: &impl Abort, server: &mut Server) {
    let asks = ("at last", 60_000, FIRST, REGISTRATION_OCTETS);
    if is_refused_memory(rt, server, asks, GRANTED_OCTETS) {
        let query = ("no lease", 60_000, SECOND, QUERY_OCTETS);
        expect_reply(rt, server, query, NOT_FOUND_OCTETS);
        expect_reply(rt, server, asks, GRANTED_OCTETS);
    }
}

/// With memory it is granted. `rt try --test --fail-alloc N` refuses the Nth allocation: where it is the server's, it says so,
/// has no lease, and grants the same request when it comes again.
#[test]
fn refused_memory_is_told_and_the_same_request_is_granted_later(rt: HostRuntime) {
    expect_eq(&rt, &ServerFault::ClockBack.number(), &1);
    expect_granted_at_last(&rt, &mut started(&rt, 4096, 0).expect(&rt, "a server"))
}

/// Each growth of a server: a new name, a group's members, and renewals that move an end. FRED's lease lasts until 121,000.
const EACH_GROWTH: [Row; 7] = [
    (60_000, FIRST, REGISTRATION, GRANTED),
    (
        60_000,
        FIRST,
        "0001 2900 two-parts TEAM NB again NB 60s group 127.0.0.2",
        "0001 ad80 reply TEAM NB 60s group 127.0.0.2",
    ),
    (
        60_000,
        SECOND,
        "0001 2900 two-parts TEAM NB again NB 60s group 127.0.0.3",
        "0001 ad80 reply TEAM NB 60s group 127.0.0.3",
    ),
    (60_500, FIRST, REGISTRATION, GRANTED),
    (61_000, FIRST, REFRESH, GRANTED),
    (
        61_000,
        SECOND,
        "0001 2900 two-parts TEAM NB again NB 60s group 127.0.0.3",
        "0001 ad80 reply TEAM NB 60s group 127.0.0.3",
    ),
    (120_000, SECOND, QUERY, FOUND),
];

/// Whether memory was refused for the reply to these octets: then the buffer is empty, and otherwise it has the reply.
fn is_refused_memory(rt: &impl Abort, server: &mut Server, came: Came<'_>, gives: &[u8]) -> bool {
    let now = Moment::new(came.1).expect(rt, "a moment");
    let from = Addr {
        ip: came.2,
        port: 137,
    };
    let mut out = ArrayVec::new();
    if let Err(fault) = server.on_datagram(now, from, came.3, &mut out) {
        expect_eq_in(rt, &came, &fault, &ServerFault::OutOfMemory);
        expect_in(rt, &came, out.is_empty());
        return true;
    }
    expect_eq_in(rt, &came, &out.as_slice(), &gives);
    false
}

/// The reply to these octets, which are given once more where memory was refused.
fn expect_at_last(rt: &impl Abort, server: &mut Server, came: Came<'_>, gives: &[u8]) {
    if is_refused_memory(rt, server, came, gives) {
        expect_reply(rt, server, came, gives);
    }
}

/// The server takes the datagrams, some of them twice, and each reply is that of its row.
fn play_growing<R: Abort + AllocGlobal>(rt: &R, server: &mut Server) {
    for (at, ip, asks, gives) in &EACH_GROWTH {
        let asks = octets(rt, asks).expect(rt, "octets");
        let gives = octets(rt, gives).expect(rt, "octets");
        let came = ("each growth", *at, *ip, asks.as_slice());
        expect_at_last(rt, server, came, gives.as_slice());
    }
}

/// With `rt try --test --fail-alloc N` the Nth allocation is refused: where it is one of the server's, the same datagram
/// has its reply when it comes again.
#[test]
fn refused_memory_at_each_growth_of_a_server(rt: HostRuntime) {
    play_growing(&rt, &mut started(&rt, 4096, 0).expect(&rt, "a server"))
}
