//! A client's share of the changes that a server with a store makes in a second: what is barred beyond it, and what isn't.

ghost use Rattle.std.specs.Prelude.{⊤};

use super::expect::{expect_eq, expect_eq_in};
use super::keeping::{Kept, NOTHING, header, state_of, store};
use super::stage::{Scene, play_on};
use nbt_lease::Moment;
use nbt_name::Addr;
use nbt_nbns::{Shown, Watcher, keep_on};
use nbt_port::{MemoryClock, MemoryPort};
use nbt_serve::Share;
use nbt_server::Server;
use nbt_testing::{GRANTED, QUERY, REFRESH, REFUSED, REGISTRATION, RELEASE, RIVAL, clock};
use std::io::Write;
use std::process::Abort;
use std::time;

const FIRST: Addr = Addr {
    ip: 0x7F000002,
    port: 137,
};

/// The same machine, by another port.
const FIRST_AGAIN: Addr = Addr {
    ip: 0x7F000002,
    port: 1024,
};

const SECOND: Addr = Addr {
    ip: 0x7F000003,
    port: 1024,
};

const FOUND: &str = "0008 8580 reply FRED NB 60s unique 127.0.0.2";

const RELEASED: &str = "0002 b400 reply FRED NB 0s unique 127.0.0.2";

const SECOND_TEAM: &str = "0001 2900 two-parts TEAM NB again NB 60s unique 127.0.0.3";

const SECOND_GRANTED: &str = "0001 ad80 reply TEAM NB 60s unique 127.0.0.3";

/// An overwrite, which is refused.
const OVERWRITE: &str = "0001 2800 two-parts FRED NB again NB 60s unique 127.0.0.2";

/// A response, which is no request for a change.
const RESPONSE: &str = GRANTED;

/// How many changes a client may have in a second, the turns, how many requests were barred by their end, and whose was the last of them.
struct Shared {
    limit: u32,
    kept: Kept,
    barred: u64,
    last: Option<u32>,
}

impl Scene for Shared {
    fn play<R: Abort + AllocGlobal + time::Clock>(
        &self,
        rt: &R,
        port: &mut MemoryPort,
        clock: &mut MemoryClock,
        server: &mut Server,
    ) {
        let mut share = Share::new(rt.alloc(), self.limit);
        self.kept
            .play_with(rt, port, clock, server, &mut share, &[]);
        expect_eq_in(rt, &self.kept.name, &share.barred(), &self.barred);
        expect_eq_in(rt, &self.kept.name, &share.last_barred(), &self.last);
    }
}

const ROWS: &[Shared] = &[
    Shared {
        limit: 2,
        kept: Kept {
            name: "a limit is met exactly, a query is answered, and the next second has a share of its own",
            durable: 60_000,
            moments: &[
                60_000, 60_000, 60_000, 60_000, 60_000, 60_999, 61_000, 61_000,
            ],
            given: &[
                (FIRST, REGISTRATION),
                (FIRST, REGISTRATION),
                (FIRST, REGISTRATION),
                (FIRST, QUERY),
                NOTHING,
                (FIRST, RELEASE),
                (FIRST, REFRESH),
                NOTHING,
            ],
            port_fails: None,
            trouble: None,
            turns: &[
                (Ok(()), 0, 4),
                (Ok(()), 0, 5),
                (Ok(()), 0, 5),
                (Ok(()), 0, 5),
                (Ok(()), 3, 6),
                (Ok(()), 3, 6),
                (Ok(()), 3, 7),
                (Ok(()), 4, 8),
            ],
            sent: &[
                (FIRST, GRANTED),
                (FIRST, GRANTED),
                (FIRST, FOUND),
                (FIRST, GRANTED),
            ],
        },
        barred: 2,
        last: Some(FIRST.ip),
    },
    Shared {
        limit: 1,
        kept: Kept {
            name: "each client has its own share, a machine's ports have one, and an overwrite that is refused counts for nothing",
            durable: 60_000,
            moments: &[60_000],
            given: &[
                (SECOND, OVERWRITE),
                (FIRST, REGISTRATION),
                (FIRST_AGAIN, REGISTRATION),
                (SECOND, RIVAL),
                (SECOND, SECOND_TEAM),
                (SECOND, RIVAL),
                (SECOND, OVERWRITE),
                (SECOND, RESPONSE),
                NOTHING,
            ],
            port_fails: None,
            trouble: None,
            turns: &[
                (Ok(()), 1, 3),
                (Ok(()), 1, 4),
                (Ok(()), 1, 4),
                (Ok(()), 1, 4),
                (Ok(()), 1, 5),
                (Ok(()), 1, 5),
                (Ok(()), 1, 5),
                (Ok(()), 1, 5),
                (Ok(()), 4, 6),
            ],
            sent: &[
                (SECOND, "0001 ad85 reply FRED NB 0s unique 127.0.0.2"),
                (FIRST, GRANTED),
                (SECOND, REFUSED),
                (SECOND, SECOND_GRANTED),
            ],
        },
        barred: 3,
        last: Some(SECOND.ip),
    },
    Shared {
        limit: 0,
        kept: Kept {
            name: "with a limit of 0 there is none",
            durable: 60_000,
            moments: &[60_000],
            given: &[
                (FIRST, REGISTRATION),
                (FIRST, REGISTRATION),
                (FIRST, RELEASE),
                NOTHING,
            ],
            port_fails: None,
            trouble: None,
            turns: &[
                (Ok(()), 0, 4),
                (Ok(()), 0, 5),
                (Ok(()), 0, 6),
                (Ok(()), 3, 7),
            ],
            sent: &[(FIRST, GRANTED), (FIRST, GRANTED), (FIRST, RELEASED)],
        },
        barred: 0,
        last: None,
    },
];

#[test]
fn a_client_has_its_share_of_changes(rt: HostRuntime) {
    for row in ROWS {
        play_on(&rt, row.kept.given, row.kept.moments, row);
    }
}

/// What is said of three requests that are barred: at once, not within a second after that, and then of all that were since.
const SAID: &str =
    "nbt: requests lost: 1, the last from 127.0.0.2; a client may make 1 changes a second\nnbt: requests lost: 2, the last from 127.0.0.2; a client may make 1 changes a second\n";

/// A server that stays up, with a state, at which a client may make one change a second.
struct Said;

/// What watches it: it keeps how many requests had been barred by the last turn that it was shown.
#[derive(Drop)]
struct Counted {
    barred: u64,
}

impl Watcher for Counted {
    ghost sees = { λ _ _ _ _ _ _. ⊤ };

    fn see<W: Write, E: Write>(
        &mut self,
        _server: &Server,
        shown: &Shown,
        _writer: &mut W,
        _errors: &mut E,
    ) {
        self.barred = shown.health.barred;
    }
}

impl Scene for Said {
    fn play<R: Abort + AllocGlobal + time::Clock>(
        &self,
        rt: &R,
        port: &mut MemoryPort,
        clock_of: &mut MemoryClock,
        server: &mut Server,
    ) {
        let mut state = state_of(rt, store(rt, None), header(rt), 60_000, 1);
        let mut counted = Counted { barred: 0 };
        let mut errors: Vec<u8> = Vec::new(rt.alloc());
        let came = keep_on(
            port,
            clock_of,
            server,
            &mut state,
            &mut clock(rt, &[60_000]).expect(rt, "a clock"),
            &mut counted,
            Moment::new(61_000),
            rt.alloc(),
            rt,
            &mut Vec::new(rt.alloc()),
            &mut errors,
        );
        expect_eq(rt, &came, &Ok(()));
        expect_eq(rt, &errors.as_slice(), &SAID.as_bytes());
        expect_eq(rt, &counted.barred, &3)
    }
}

#[test]
fn what_was_barred_is_said_and_counted(rt: HostRuntime) {
    let given = &[
        (FIRST, REGISTRATION),
        (FIRST, REGISTRATION),
        (FIRST, RELEASE),
        (FIRST, REFRESH),
        NOTHING,
    ];
    // Of each turn in which something came the moment, and one after each turn; in the last one before the reply leaves.
    let moments = &[
        60_000, 60_000, 60_000, 60_000, 60_999, 60_999, 60_999, 61_000, 61_000, 61_000,
    ];
    play_on(&rt, given, moments, &Said)
}
