//! A reply leaves by the very route of its datagram. The server has three addresses, and stands over the ports that `nbt nbns` has: a
//! front, beneath it the port that takes Samba's requests, and beneath that one in memory. The life of a datagram is 1,000 ms, the longest
//! lease 60 s, and the server started at 0.

use super::expect::{expect, expect_eq_in};
use super::keeping::store;
use super::stage::{Scene, play_on};
use arrayvec::ArrayVec;
use nbt_front::{Desk, Front, FrontPort, read_fixed, read_network};
use nbt_name::Addr;
use nbt_port::{MemoryClock, MemoryPort, Port, Route};
use nbt_serve::{BATCH, SambaPort, Share, Waiting, keep_turn, serve_turns};
use nbt_server::Server;
use nbt_testing::{
    GRANTED, NOT_FOUND, QUERY, REFUSED, REGISTRATION, RELEASE, RIVAL, RoutedRow, clock as clock_of,
    config, routed_port, sent_by_routes,
};
use std::process::Abort;
use std::time;

/// Two clients that may register, and one that may not.
const FIRST: Addr = Addr {
    ip: 0x7F00_0002,
    port: 137,
};

const SECOND: Addr = Addr {
    ip: 0x7F00_0003,
    port: 1024,
};

const OUTSIDE: Addr = Addr {
    ip: 0xC612_8903,
    port: 137,
};

/// The server's addresses.
const ONE: Addr = Addr {
    ip: 0x0A00_0001,
    port: 137,
};

const TWO: Addr = Addr {
    ip: 0x0A00_0002,
    port: 137,
};

const THREE: Addr = Addr {
    ip: 0x0A00_0002,
    port: 1137,
};

const FIRST_AT_ONE: Route = Route {
    peer: FIRST,
    local: Some(ONE),
};

const FIRST_AT_TWO: Route = Route {
    peer: FIRST,
    local: Some(TWO),
};

const FIRST_AT_THREE: Route = Route {
    peer: FIRST,
    local: Some(THREE),
};

const SECOND_AT_ONE: Route = Route {
    peer: SECOND,
    local: Some(ONE),
};

const SECOND_AT_TWO: Route = Route {
    peer: SECOND,
    local: Some(TWO),
};

const SECOND_AT_THREE: Route = Route {
    peer: SECOND,
    local: Some(THREE),
};

const OUTSIDE_AT_ONE: Route = Route {
    peer: OUTSIDE,
    local: Some(ONE),
};

/// Of one that came at a port with one address.
const FIRST_ALONE: Route = Route {
    peer: FIRST,
    local: None,
};

/// Nothing comes.
const NOTHING: RoutedRow = (FIRST_ALONE, "");

/// What has no reply.
const GARBAGE: &str = "00";

/// FRED is 127.0.0.2's, for 60 seconds more.
const FOUND: &str = "0008 8580 reply FRED NB 60s unique 127.0.0.2";

const RELEASED: &str = "0002 b400 reply FRED NB 0s unique 127.0.0.2";

/// A registration as nmbd sends it, by OPCODE 15.
const BY_NMBD: &str = "0003 7900 two-parts NODEB NB again NB 60s unique 127.0.0.3";

const GRANTED_TO_NMBD: &str = "0003 ad80 reply NODEB NB 60s unique 127.0.0.3";

/// What the front replies to: claims of a fixed name by its machine, one of them as nmbd sends it, and by another one; a query for it; and
/// a claim by a client that may not register.
const CLAIM: &str = "0010 2900 two-parts TEAM NB again NB 60s unique 127.0.0.3";

const CONFIRMED: &str = "0010 ad80 reply TEAM NB 60s unique 127.0.0.3";

const CLAIM_BY_NMBD: &str = "0011 7900 two-parts TEAM NB again NB 60s unique 127.0.0.3";

const CONFIRMED_TO_NMBD: &str = "0011 ad80 reply TEAM NB 60s unique 127.0.0.3";

const CLAIM_BY_ANOTHER: &str = "0012 2900 two-parts TEAM NB again NB 60s unique 127.0.0.2";

const ACTIVE: &str = "0012 ad86 reply TEAM NB 0s unique 127.0.0.2";

const FIXED_QUERY: &str = "0013 0100 one-name TEAM NB";

const FIXED_FOUND: &str = "0013 8580 reply TEAM NB 60s unique 127.0.0.3";

const CLAIM_FROM_OUTSIDE: &str = "0014 2900 two-parts WINSB NB again NB 60s unique 198.18.137.3";

const NOT_ALLOWED: &str = "0014 ad85 reply WINSB NB 0s unique 198.18.137.3";

/// Turns of a server: up to which time all is durable at first, where it has a store; which call of the port fails, if one does; what
/// comes, a datagram or nothing a turn; and what is sent, in order.
struct Routed {
    name: &'static str,
    durable: Option<u64>,
    port_fails: Option<u64>,
    given: &'static [RoutedRow],
    sent: &'static [RoutedRow],
}

const TURNS: &[Routed] = &[
    Routed {
        name: "without a store",
        durable: None,
        port_fails: None,
        given: &[
            (FIRST_AT_TWO, REGISTRATION),
            (SECOND_AT_ONE, RIVAL),
            (FIRST_AT_ONE, QUERY),
            (SECOND_AT_THREE, CLAIM),
            (SECOND_AT_TWO, BY_NMBD),
            (OUTSIDE_AT_ONE, CLAIM_FROM_OUTSIDE),
            (FIRST_AT_THREE, FIXED_QUERY),
            (SECOND_AT_TWO, GARBAGE),
            NOTHING,
            (FIRST_ALONE, QUERY),
            (FIRST_ALONE, CLAIM_BY_ANOTHER),
        ],
        sent: &[
            (FIRST_AT_TWO, GRANTED),
            (SECOND_AT_ONE, REFUSED),
            (FIRST_AT_ONE, FOUND),
            (SECOND_AT_THREE, CONFIRMED),
            (SECOND_AT_TWO, GRANTED_TO_NMBD),
            (OUTSIDE_AT_ONE, NOT_ALLOWED),
            (FIRST_AT_THREE, FIXED_FOUND),
            (FIRST_ALONE, FOUND),
            (FIRST_ALONE, ACTIVE),
        ],
    },
    Routed {
        name: "replies that wait for one sync",
        durable: Some(60_000),
        port_fails: None,
        given: &[
            (FIRST_AT_TWO, REGISTRATION),
            (FIRST_AT_ONE, QUERY),
            (SECOND_AT_TWO, RIVAL),
            (FIRST_ALONE, QUERY),
            (SECOND_AT_ONE, BY_NMBD),
            (FIRST_AT_THREE, RELEASE),
            NOTHING,
        ],
        sent: &[
            (FIRST_AT_TWO, GRANTED),
            (FIRST_AT_ONE, FOUND),
            (SECOND_AT_TWO, REFUSED),
            (FIRST_ALONE, FOUND),
            (SECOND_AT_ONE, GRANTED_TO_NMBD),
            (FIRST_AT_THREE, RELEASED),
        ],
    },
    Routed {
        name: "the front replies to one client at another address while its grant waits",
        durable: Some(60_000),
        port_fails: None,
        given: &[(FIRST_AT_TWO, REGISTRATION), (FIRST_AT_ONE, FIXED_QUERY)],
        sent: &[(FIRST_AT_ONE, FIXED_FOUND), (FIRST_AT_TWO, GRANTED)],
    },
    Routed {
        name: "the front replies to others while replies wait",
        durable: Some(60_000),
        port_fails: None,
        given: &[
            (FIRST_AT_TWO, REGISTRATION),
            (SECOND_AT_THREE, QUERY),
            (FIRST_AT_ONE, QUERY),
            (OUTSIDE_AT_ONE, CLAIM_FROM_OUTSIDE),
            (FIRST_AT_THREE, RELEASE),
            (SECOND_AT_TWO, QUERY),
            (SECOND_AT_ONE, CLAIM_BY_NMBD),
            (SECOND_AT_TWO, CLAIM),
            (SECOND_AT_THREE, QUERY),
            (FIRST_AT_ONE, CLAIM_BY_ANOTHER),
        ],
        sent: &[
            (OUTSIDE_AT_ONE, NOT_ALLOWED),
            (FIRST_AT_TWO, GRANTED),
            (SECOND_AT_THREE, FOUND),
            (FIRST_AT_ONE, FOUND),
            (SECOND_AT_ONE, CONFIRMED_TO_NMBD),
            (FIRST_AT_THREE, RELEASED),
            (SECOND_AT_TWO, NOT_FOUND),
            (SECOND_AT_TWO, CONFIRMED),
            (SECOND_AT_THREE, NOT_FOUND),
            (FIRST_AT_ONE, ACTIVE),
        ],
    },
    Routed {
        name: "what has no reply came at another address",
        durable: Some(60_000),
        port_fails: None,
        given: &[
            (FIRST_AT_TWO, REGISTRATION),
            (FIRST_AT_ONE, GARBAGE),
            (FIRST_AT_THREE, RELEASE),
            (SECOND_AT_TWO, GARBAGE),
            NOTHING,
        ],
        sent: &[(FIRST_AT_TWO, GRANTED), (FIRST_AT_THREE, RELEASED)],
    },
    Routed {
        name: "behind a send that fails",
        durable: Some(60_000),
        port_fails: Some(4),
        given: &[
            (FIRST_AT_TWO, REGISTRATION),
            (FIRST_AT_ONE, QUERY),
            (SECOND_AT_TWO, RIVAL),
            NOTHING,
            (SECOND_AT_ONE, QUERY),
            NOTHING,
        ],
        sent: &[
            (FIRST_AT_ONE, FOUND),
            (SECOND_AT_TWO, REFUSED),
            (SECOND_AT_ONE, FOUND),
        ],
    },
    Routed {
        name: "behind a time that becomes durable first",
        durable: Some(0),
        port_fails: None,
        given: &[
            (FIRST_AT_TWO, QUERY),
            (FIRST_AT_ONE, GARBAGE),
            (SECOND_AT_THREE, QUERY),
        ],
        sent: &[(FIRST_AT_TWO, NOT_FOUND), (SECOND_AT_THREE, NOT_FOUND)],
    },
];

/// TEAM is fixed for 127.0.0.3, and only 127.0.0.0/8 may register.
fn front_of<R: Abort + AllocGlobal>(rt: &R) -> Front {
    let mut allowed = Vec::new(rt.alloc());
    allowed
        .push(read_network(b"127.0.0.0/8").expect(rt, "a network"))
        .expect(rt, "memory");
    let Ok(fixed) = read_fixed(rt.alloc(), b"TEAM#20 unique 127.0.0.3\n") else {
        panic!(rt; "no names");
    };
    Front::new(allowed, fixed, config(4096).expect(rt, "limits"))
}

/// Turns of a server without a store.
fn serve<R: Abort, P: Port>(
    rt: &R,
    row: &Routed,
    port: &mut P,
    clock: &mut MemoryClock,
    server: &mut Server,
) {
    expect(rt, port.failures() < 1 << 62);
    let counts = serve_turns(port, clock, server, row.given.len() as u64);
    expect_eq_in(rt, &row.name, &counts.is_ok(), &row.port_fails.is_none());
}

/// Turns of a server with a store.
fn keep<R: Abort + AllocGlobal, P: Port>(
    rt: &R,
    row: &Routed,
    port: &mut P,
    clock: &mut MemoryClock,
    server: &mut Server,
    durable: u64,
) {
    let mut store = store(rt, None);
    let mut share = Share::new(rt.alloc(), 0);
    let mut waiting = Waiting::new(rt.alloc(), durable).expect(rt, "waiting");
    let mut octets = ArrayVec::new();
    let mut failed = false;
    for _ in row.given {
        expect(rt, port.failures() < 1 << 62);
        expect(rt, waiting.len() < BATCH);
        let turn = keep_turn(
            port,
            clock,
            &mut store,
            server,
            &mut share,
            &mut waiting,
            &mut octets,
            &mut ArrayVec::new(),
            &mut None,
        );
        failed = failed || turn.is_err();
    }
    expect_eq_in(rt, &row.name, &failed, &row.port_fails.is_some());
}

impl Scene for Routed {
    fn play<R: Abort + AllocGlobal + time::Clock>(
        &self,
        rt: &R,
        _port: &mut MemoryPort,
        clock: &mut MemoryClock,
        server: &mut Server,
    ) {
        let mut beneath = routed_port(rt, self.given).expect(rt, "a port");
        if let Some(calls) = self.port_fails {
            beneath.fail_after(calls);
        }
        let front = front_of(rt);
        let moments = clock_of(rt, &[]).expect(rt, "a clock");
        let desk = Desk::new(rt.alloc(), &front, moments);
        let mut over = FrontPort::new(SambaPort::new(beneath), desk);
        match self.durable {
            None => serve(rt, self, &mut over, clock, server),
            Some(durable) => keep(rt, self, &mut over, clock, server, durable),
        }
        let sent = sent_by_routes(rt, over.beneath().beneath(), self.sent);
        expect_eq_in(rt, &self.name, &sent, &Ok(()));
    }
}

fn play_all<R: Abort + AllocGlobal + time::Clock>(rt: &R, rows: &[Routed]) {
    for row in rows {
        play_on(rt, &[], &[60_000], row);
    }
}

#[test]
fn a_reply_leaves_by_the_route_of_its_datagram(rt: HostRuntime) {
    play_all(&rt, TURNS)
}
