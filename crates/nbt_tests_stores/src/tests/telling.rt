//! When a log says what the turns of a server that keeps its leases were, over a port and a disk in memory: the life of a datagram
//! 1,000 ms, the longest lease 60 s, started at 0. Its store's file is opened by the disk's calls 0 to 2.

use super::expect::expect_eq_in;
use super::keeping::{header, state_of, store};
use super::stage::{Scene, play_on};
use nbt_lease::Moment;
use nbt_log::{Dates, FixedCapitals, Origin, Tally};
use nbt_name::Addr;
use nbt_nbns::{Journal, Logger, MemoryPlace, keep_on};
use nbt_port::{Fault, MemoryClock, MemoryPort};
use nbt_server::Server;
use nbt_store::Trouble;
use nbt_testing::{REGISTRATION, RIVAL, Row, clock};
use std::process::Abort;
use std::time;

const FIRST: Addr = Addr {
    ip: 0x7F000002,
    port: 137,
};

const SECOND: Addr = Addr {
    ip: 0x7F000003,
    port: 1024,
};

/// Nothing comes.
const NOTHING: Row = (FIRST, "");

/// A datagram that is no request.
const OCTET: Row = (SECOND, "00");

/// What a server is given, which moments its clock tells, and at which it ends; after how many calls a call of its port fails, if one
/// does; from which call on there is trouble at the disk, if there is; which times of the day date its log; what comes of it, and what it
/// logs.
struct Logs {
    name: &'static str,
    given: &'static [Row],
    moments: &'static [u64],
    until: u64,
    port_fails: Option<u64>,
    trouble: Option<(usize, Trouble)>,
    days: &'static [u64],
    came: Result<(), Fault>,
    printed: &'static str,
}

/// The clock is read for a datagram, before replies leave that waited, and at the end of each turn.
const LOGS: &[Logs] = &[
    Logs {
        name: "a grant is logged when its reply has left, and is dated by then",
        given: &[(FIRST, REGISTRATION), NOTHING],
        moments: &[60_000, 60_001, 60_900, 61_000],
        until: 61_000,
        port_fails: None,
        trouble: None,
        days: &[61_000],
        came: Ok(()),
        printed: "1970-01-01T00:01:01Z granted FRED#20 127.0.0.2 unique 60 s\n",
    },
    Logs {
        name: "one whose reply was dropped isn't",
        given: &[(FIRST, REGISTRATION), NOTHING],
        moments: &[60_000, 60_001, 61_001, 61_001],
        until: 61_001,
        port_fails: None,
        trouble: None,
        days: &[61_000],
        came: Ok(()),
        printed: "",
    },
    Logs {
        name: "of two the one whose reply wasn't dropped",
        given: &[(FIRST, REGISTRATION), (SECOND, RIVAL), NOTHING],
        moments: &[60_000, 60_001, 60_500, 60_501, 61_200, 61_201],
        until: 61_201,
        port_fails: None,
        trouble: None,
        days: &[61_201],
        came: Ok(()),
        printed: "1970-01-01T00:01:01Z refused FRED#20 127.0.0.3 unique from 127.0.0.3:1024: another has it: 127.0.0.2 (6)\n",
    },
    Logs {
        name: "both, in their order",
        given: &[(FIRST, REGISTRATION), (SECOND, RIVAL), NOTHING],
        moments: &[60_000, 60_001, 60_002, 60_003, 60_004, 60_005],
        until: 60_005,
        port_fails: None,
        trouble: None,
        days: &[60_000],
        came: Ok(()),
        printed: "1970-01-01T00:01:00Z granted FRED#20 127.0.0.2 unique 60 s\n1970-01-01T00:01:00Z refused FRED#20 127.0.0.3 unique from 127.0.0.3:1024: another has it: 127.0.0.2 (6)\n",
    },
    Logs {
        name: "a reply that left is logged however late, behind it what has no reply",
        given: &[(FIRST, REGISTRATION), OCTET, NOTHING],
        moments: &[60_000, 60_001, 60_002, 60_003, 60_004, 61_004],
        until: 61_004,
        port_fails: None,
        trouble: None,
        days: &[61_004],
        came: Ok(()),
        printed: "1970-01-01T00:01:01Z granted FRED#20 127.0.0.2 unique 60 s\n1970-01-01T00:01:01Z malformed from 127.0.0.3:1024: 1 octets\n",
    },
    Logs {
        name: "what has no reply is logged though a reply before it was dropped",
        given: &[(FIRST, REGISTRATION), OCTET, NOTHING],
        moments: &[60_000, 60_001, 60_002, 60_003, 61_003, 61_004],
        until: 61_004,
        port_fails: None,
        trouble: None,
        days: &[61_004],
        came: Ok(()),
        printed: "1970-01-01T00:01:01Z malformed from 127.0.0.3:1024: 1 octets\n",
    },
    Logs {
        name: "a reply that waits for nothing is logged in its turn",
        given: &[(SECOND, REGISTRATION), NOTHING],
        moments: &[60_000, 60_100, 62_000],
        until: 62_000,
        port_fails: None,
        trouble: None,
        days: &[60_100, 62_000],
        came: Ok(()),
        printed: "1970-01-01T00:01:00Z refused FRED#20 127.0.0.2 unique from 127.0.0.3:1024: not its own address (5)\n",
    },
    Logs {
        name: "nothing is logged of a grant that can't be made durable",
        given: &[(FIRST, REGISTRATION), NOTHING],
        moments: &[60_000, 60_001, 60_002, 60_003],
        until: 60_003,
        port_fails: None,
        trouble: Some((4, Trouble::Refused)),
        days: &[60_000],
        came: Err(Fault::Store),
        printed: "",
    },
    Logs {
        name: "a send fails: what waits behind it is logged once it has left, and what was before it",
        given: &[(FIRST, REGISTRATION), (SECOND, RIVAL), NOTHING, NOTHING],
        moments: &[60_000, 60_001, 60_002, 60_003, 60_004, 60_005, 60_006],
        until: 60_006,
        port_fails: Some(3),
        trouble: None,
        days: &[60_000],
        came: Ok(()),
        printed: "1970-01-01T00:01:00Z granted FRED#20 127.0.0.2 unique 60 s\n1970-01-01T00:01:00Z refused FRED#20 127.0.0.3 unique from 127.0.0.3:1024: another has it: 127.0.0.2 (6)\n",
    },
];

/// A log, and nothing else that is written about the server.
fn journal<R: Abort + AllocGlobal>(rt: &R, days: &[u64]) -> Journal<MemoryClock, MemoryPlace> {
    let start = Moment::new(0).expect(rt, "a moment");
    Journal {
        dates: Dates {
            moment: start,
            time: start,
        },
        day: clock(rt, days).expect(rt, "a clock"),
        day_read: start,
        log: Some(Logger::new(rt.alloc(), false, 10)),
        leases: None,
        hosts: None,
        fixed: FixedCapitals::none(rt.alloc()),
        stats: None,
        tally: Tally::new(),
        origin: Origin {
            since: 0,
            speaks: 0,
        },
    }
}

impl Scene for Logs {
    fn play<R: Abort + AllocGlobal + time::Clock>(
        &self,
        rt: &R,
        port: &mut MemoryPort,
        clock_of: &mut MemoryClock,
        server: &mut Server,
    ) {
        if let Some(calls) = self.port_fails {
            port.fail_after(calls);
        }
        let mut header = header(rt);
        header.last = 60_000;
        header.day = 60_000;
        let mut state = state_of(rt, store(rt, self.trouble), header, 60_000, 0);
        let mut printed: Vec<u8> = Vec::new(rt.alloc());
        let came = keep_on(
            port,
            clock_of,
            server,
            &mut state,
            &mut clock(rt, &[60_000]).expect(rt, "a clock"),
            &mut journal(rt, self.days),
            Moment::new(self.until),
            rt.alloc(),
            rt,
            &mut printed,
            &mut Vec::new(rt.alloc()),
        );
        expect_eq_in(rt, &self.name, &came, &self.came);
        expect_eq_in(
            rt,
            &self.name,
            &printed.as_slice(),
            &self.printed.as_bytes(),
        );
    }
}

#[test]
fn a_turn_is_logged_once_its_reply_has_left(rt: HostRuntime) {
    for row in LOGS {
        play_on(&rt, row.given, row.moments, row);
    }
}
