//! A server that keeps its leases over a port and a disk in memory, turn by turn: the life of a datagram 1,000 ms, the longest lease
//! 60 s, started at 0. Its store's file is opened by the disk's calls 0 to 2.

ghost use Rattle.nbt_nbns.specs.Staying.{HasRoom};

use super::expect::{expect, expect_eq, expect_eq_in, expect_in};
use super::stage::{Scene, play_on};
use arrayvec::ArrayVec;
use nbt_lease::{Lease, Moment};
use nbt_log::{Dates, FixedCapitals, Origin, Tally};
use nbt_name::{Addr, Name};
use nbt_nbns::{Journal, MemoryPlace, State, Teller, keep_on};
use nbt_port::{Datagram, Fault, MemoryClock, MemoryPort, Port, Route};
use nbt_serve::{BATCH, KeepFault, Share, Waiting, keep_turn};
use nbt_server::Server;
use nbt_store::{Boot, DiskStore, Header, MemoryDisk, Room, Trouble, load};
use nbt_testing::{
    GRANTED, NOT_FOUND, QUERY, REFUSED, REGISTRATION, RELEASE, RIVAL, Row, clock, config, octets,
    one_of_many, registration_of_many, sent_all,
};
use std::collections::VecDeque;
use std::process::Abort;
use std::time;

const FIRST: Addr = Addr {
    ip: 0x7F000002,
    port: 137,
};

const SECOND: Addr = Addr {
    ip: 0x7F000003,
    port: 1024,
};

/// FRED is 127.0.0.2's, for 60 seconds more.
const FOUND: &str = "0008 8580 reply FRED NB 60s unique 127.0.0.2";

const RELEASED: &str = "0002 b400 reply FRED NB 0s unique 127.0.0.2";

const TEAM: &str = "0001 2900 two-parts TEAM NB again NB 60s unique 127.0.0.2";

const TEAM_NOT_OWN: &str = "0001 ad85 reply TEAM NB 0s unique 127.0.0.2";

const QUERY_TEAM: &str = "0008 0100 one-name TEAM NB";

const NO_TEAM: &str = "0008 8583 reply TEAM NULL 0s 0000";

/// Nothing comes.
pub const NOTHING: Row = (FIRST, "");

/// What came of a turn, how many datagrams were sent by its end, and how many calls the disk had.
pub type Came = (Result<(), KeepFault>, usize, usize);

/// Up to which time all is durable at first, which moments the clock tells, and what a server is given; after how many calls a call of its
/// port fails, if one does; from which call on there is which trouble at the disk; what comes of each turn, and what is sent.
pub struct Kept {
    pub name: &'static str,
    pub durable: u64,
    pub moments: &'static [u64],
    pub given: &'static [Row],
    pub port_fails: Option<u64>,
    pub trouble: Option<(usize, Trouble)>,
    pub turns: &'static [Came],
    pub sent: &'static [Row],
}

const TURNS: &[Kept] = &[
    Kept {
        name: "replies wait for one sync, whatever they are, and leave in order",
        durable: 60_000,
        moments: &[60_000],
        given: &[
            (FIRST, REGISTRATION),
            (SECOND, RIVAL),
            (SECOND, QUERY),
            (FIRST, RELEASE),
            NOTHING,
        ],
        port_fails: None,
        trouble: None,
        turns: &[
            (Ok(()), 0, 4),
            (Ok(()), 0, 4),
            (Ok(()), 0, 4),
            (Ok(()), 0, 5),
            (Ok(()), 4, 6),
            (Ok(()), 4, 6),
        ],
        sent: &[
            (FIRST, GRANTED),
            (SECOND, REFUSED),
            (SECOND, FOUND),
            (FIRST, RELEASED),
        ],
    },
    Kept {
        name: "what changes nothing leaves at once, and needs no sync",
        durable: 60_000,
        moments: &[60_000],
        given: &[(SECOND, QUERY), (FIRST, RELEASE), NOTHING],
        port_fails: None,
        trouble: None,
        turns: &[(Ok(()), 1, 3), (Ok(()), 2, 3), (Ok(()), 2, 3)],
        sent: &[(SECOND, NOT_FOUND), (FIRST, RELEASED)],
    },
    Kept {
        name: "datagrams without replies bring no sync, and hold up nothing",
        durable: 60_000,
        moments: &[60_000],
        given: &[
            (FIRST, REGISTRATION),
            (SECOND, RIVAL),
            (SECOND, "00"),
            NOTHING,
            (SECOND, "00"),
        ],
        port_fails: None,
        trouble: None,
        turns: &[
            (Ok(()), 0, 4),
            (Ok(()), 0, 4),
            (Ok(()), 0, 4),
            (Ok(()), 2, 5),
            (Ok(()), 2, 5),
        ],
        sent: &[(FIRST, GRANTED), (SECOND, REFUSED)],
    },
    Kept {
        name: "the answer to a query goes ahead, where no reply about its name waits",
        durable: 60_000,
        moments: &[60_000],
        given: &[
            (FIRST, REGISTRATION),
            (SECOND, QUERY_TEAM),
            (SECOND, QUERY),
            (SECOND, QUERY_TEAM),
            (SECOND, TEAM),
            (SECOND, QUERY_TEAM),
            NOTHING,
        ],
        port_fails: None,
        trouble: None,
        turns: &[
            (Ok(()), 0, 4),
            (Ok(()), 1, 4),
            (Ok(()), 1, 4),
            (Ok(()), 2, 4),
            (Ok(()), 2, 4),
            (Ok(()), 2, 4),
            (Ok(()), 6, 5),
        ],
        sent: &[
            (SECOND, NO_TEAM),
            (SECOND, NO_TEAM),
            (FIRST, GRANTED),
            (SECOND, FOUND),
            (SECOND, TEAM_NOT_OWN),
            (SECOND, NO_TEAM),
        ],
    },
    Kept {
        name: "a refusal waits, though it changes nothing",
        durable: 60_000,
        moments: &[60_000],
        given: &[(FIRST, REGISTRATION), (SECOND, TEAM), NOTHING],
        port_fails: None,
        trouble: None,
        turns: &[(Ok(()), 0, 4), (Ok(()), 0, 4), (Ok(()), 2, 5)],
        sent: &[(FIRST, GRANTED), (SECOND, TEAM_NOT_OWN)],
    },
    Kept {
        name: "an answer that goes ahead is lost where its send fails, and what waits still does",
        durable: 60_000,
        moments: &[60_000],
        given: &[(FIRST, REGISTRATION), (SECOND, QUERY_TEAM), NOTHING],
        port_fails: Some(2),
        trouble: None,
        turns: &[(Ok(()), 0, 4), (Err(KeepFault::Port), 0, 4), (Ok(()), 1, 5)],
        sent: &[(FIRST, GRANTED)],
    },
    Kept {
        name: "no answer goes ahead where a time became durable before it",
        durable: 60_000,
        moments: &[60_900, 61_001, 61_100],
        given: &[(FIRST, REGISTRATION), (SECOND, QUERY_TEAM)],
        port_fails: None,
        trouble: None,
        turns: &[(Ok(()), 0, 4), (Ok(()), 2, 6)],
        sent: &[(FIRST, GRANTED), (SECOND, NO_TEAM)],
    },
    Kept {
        name: "nothing leaves where a change can't be appended",
        durable: 60_000,
        moments: &[60_000],
        given: &[(FIRST, REGISTRATION), NOTHING],
        port_fails: None,
        trouble: Some((3, Trouble::Refused)),
        turns: &[(Err(KeepFault::Store), 0, 4)],
        sent: &[],
    },
    Kept {
        name: "nothing leaves where the second change can't be appended",
        durable: 60_000,
        moments: &[60_000],
        given: &[(FIRST, REGISTRATION), (FIRST, RELEASE), NOTHING],
        port_fails: None,
        trouble: Some((4, Trouble::Torn(5))),
        turns: &[(Ok(()), 0, 4), (Err(KeepFault::Store), 0, 5)],
        sent: &[],
    },
    Kept {
        name: "nothing leaves where changes can't be made durable",
        durable: 60_000,
        moments: &[60_000],
        given: &[(FIRST, REGISTRATION), (SECOND, QUERY), NOTHING],
        port_fails: None,
        trouble: Some((4, Trouble::Refused)),
        turns: &[
            (Ok(()), 0, 4),
            (Ok(()), 0, 4),
            (Err(KeepFault::Store), 0, 5),
        ],
        sent: &[],
    },
    Kept {
        name: "a reply whose send fails is lost, and those behind it leave in the next turn",
        durable: 60_000,
        moments: &[60_000],
        given: &[
            (FIRST, REGISTRATION),
            (SECOND, RIVAL),
            (SECOND, QUERY),
            NOTHING,
            NOTHING,
        ],
        port_fails: Some(5),
        trouble: None,
        turns: &[
            (Ok(()), 0, 4),
            (Ok(()), 0, 4),
            (Ok(()), 0, 4),
            (Err(KeepFault::Port), 1, 5),
            (Ok(()), 2, 5),
        ],
        sent: &[(FIRST, GRANTED), (SECOND, FOUND)],
    },
    Kept {
        name: "a reply that still waits leaves before the next one",
        durable: 60_000,
        moments: &[60_000],
        given: &[
            (FIRST, REGISTRATION),
            (SECOND, RIVAL),
            NOTHING,
            (SECOND, QUERY),
        ],
        port_fails: Some(3),
        trouble: None,
        turns: &[
            (Ok(()), 0, 4),
            (Ok(()), 0, 4),
            (Err(KeepFault::Port), 0, 5),
            (Ok(()), 2, 5),
        ],
        sent: &[(SECOND, REFUSED), (SECOND, FOUND)],
    },
    Kept {
        name: "a receive that fails leaves what waits waiting",
        durable: 60_000,
        moments: &[60_000],
        given: &[(FIRST, REGISTRATION), NOTHING],
        port_fails: Some(1),
        trouble: None,
        turns: &[(Ok(()), 0, 4), (Err(KeepFault::Port), 0, 4), (Ok(()), 1, 5)],
        sent: &[(FIRST, GRANTED)],
    },
    Kept {
        name: "a second past the last durable time a datagram is handled as it is",
        durable: 59_000,
        moments: &[60_000],
        given: &[(SECOND, QUERY)],
        port_fails: None,
        trouble: None,
        turns: &[(Ok(()), 1, 3)],
        sent: &[(SECOND, NOT_FOUND)],
    },
    Kept {
        name: "a millisecond later that time becomes durable first",
        durable: 58_999,
        // The clock is read again before a reply leaves that waited for a sync.
        moments: &[60_000, 60_500, 61_000, 61_001],
        given: &[(SECOND, QUERY), (SECOND, QUERY), (SECOND, QUERY)],
        port_fails: None,
        trouble: None,
        turns: &[(Ok(()), 1, 5), (Ok(()), 2, 5), (Ok(()), 3, 7)],
        sent: &[
            (SECOND, NOT_FOUND),
            (SECOND, NOT_FOUND),
            (SECOND, NOT_FOUND),
        ],
    },
    Kept {
        name: "so does it before a datagram without a reply",
        durable: 0,
        moments: &[60_000, 61_001],
        given: &[(SECOND, "00"), (SECOND, "00")],
        port_fails: None,
        trouble: None,
        turns: &[(Ok(()), 0, 5), (Ok(()), 0, 7)],
        sent: &[],
    },
    Kept {
        name: "where nothing comes, nothing becomes durable",
        durable: 0,
        moments: &[60_000],
        given: &[NOTHING],
        port_fails: None,
        trouble: None,
        turns: &[(Ok(()), 0, 3)],
        sent: &[],
    },
    Kept {
        name: "a change that waits becomes durable with a later time",
        durable: 60_000,
        moments: &[60_900, 61_001, 61_100],
        given: &[(FIRST, REGISTRATION), (SECOND, QUERY)],
        port_fails: None,
        trouble: None,
        turns: &[(Ok(()), 0, 4), (Ok(()), 2, 6)],
        sent: &[(FIRST, GRANTED), (SECOND, FOUND)],
    },
    Kept {
        name: "a time that is appended last is the durable one, and not that of the change before it",
        durable: 60_000,
        moments: &[60_000, 61_001, 61_001, 62_001],
        given: &[(FIRST, REGISTRATION), (SECOND, "00"), (SECOND, "00")],
        port_fails: None,
        trouble: None,
        turns: &[(Ok(()), 0, 4), (Ok(()), 0, 6), (Ok(()), 0, 6)],
        sent: &[],
    },
    Kept {
        name: "nothing leaves where a time can't be appended",
        durable: 60_000,
        moments: &[60_000, 61_001],
        given: &[(FIRST, REGISTRATION), (SECOND, QUERY), NOTHING],
        port_fails: None,
        trouble: Some((4, Trouble::Torn(5))),
        turns: &[(Ok(()), 0, 4), (Err(KeepFault::Store), 0, 5)],
        sent: &[],
    },
    Kept {
        name: "nothing leaves where a time can't be made durable",
        durable: 60_000,
        moments: &[60_000, 61_001],
        given: &[(FIRST, REGISTRATION), (SECOND, QUERY), NOTHING],
        port_fails: None,
        trouble: Some((5, Trouble::Refused)),
        turns: &[(Ok(()), 0, 4), (Err(KeepFault::Store), 0, 6)],
        sent: &[],
    },
    Kept {
        name: "a reply that waited leaves as long as a datagram lives",
        durable: 60_000,
        moments: &[60_000, 60_400, 61_000],
        given: &[(FIRST, REGISTRATION), (SECOND, RIVAL), NOTHING],
        port_fails: None,
        trouble: None,
        turns: &[(Ok(()), 0, 4), (Ok(()), 0, 4), (Ok(()), 2, 5)],
        sent: &[(FIRST, GRANTED), (SECOND, REFUSED)],
    },
    Kept {
        name: "a millisecond later it is dropped, and a younger one leaves",
        durable: 60_000,
        moments: &[60_000, 60_400, 61_001],
        given: &[(FIRST, REGISTRATION), (SECOND, RIVAL), NOTHING, NOTHING],
        port_fails: None,
        trouble: None,
        turns: &[
            (Ok(()), 0, 4),
            (Ok(()), 0, 4),
            (Ok(()), 1, 5),
            (Ok(()), 1, 5),
        ],
        sent: &[(SECOND, REFUSED)],
    },
    Kept {
        name: "a reply that waits for nothing leaves without another look at the clock",
        durable: 60_000,
        moments: &[60_000, 70_000],
        given: &[(SECOND, QUERY)],
        port_fails: None,
        trouble: None,
        turns: &[(Ok(()), 1, 3)],
        sent: &[(SECOND, NOT_FOUND)],
    },
    Kept {
        name: "one whose time took a second to become durable is dropped",
        durable: 0,
        moments: &[60_000, 61_001],
        given: &[(SECOND, QUERY), NOTHING],
        port_fails: None,
        trouble: None,
        turns: &[(Ok(()), 0, 5), (Ok(()), 0, 5)],
        sent: &[],
    },
    Kept {
        name: "what still waits behind a failed send is dropped too once it is too old",
        durable: 60_000,
        moments: &[60_000, 60_500, 61_000, 61_501],
        given: &[(FIRST, REGISTRATION), (SECOND, RIVAL), NOTHING, NOTHING],
        port_fails: Some(3),
        trouble: None,
        turns: &[
            (Ok(()), 0, 4),
            (Ok(()), 0, 4),
            (Err(KeepFault::Port), 0, 5),
            (Ok(()), 0, 5),
        ],
        sent: &[],
    },
];

/// A server, its port, its clock and its store, and what waits.
#[derive(Drop)]
struct Stage<'a> {
    port: &'a mut MemoryPort,
    clock: &'a mut MemoryClock,
    server: &'a mut Server,
    store: &'a mut DiskStore<MemoryDisk>,
    share: &'a mut Share,
    waiting: &'a mut Waiting,
}

/// The header of a server that starts at 0.
pub fn header(rt: &impl Abort) -> Header {
    let boot = Boot::new(b"boot").expect(rt, "a boot");
    Header::new(
        config(4096).expect(rt, "limits"),
        boot,
        0,
        Moment::new(0).expect(rt, "a moment"),
        Moment::new(0).expect(rt, "a moment"),
        0,
    )
}

/// A store over a disk in memory that has this trouble.
pub fn store<R: Abort + AllocGlobal>(
    rt: &R,
    trouble: Option<(usize, Trouble)>,
) -> DiskStore<MemoryDisk> {
    let disk = MemoryDisk::new(rt.alloc(), trouble);
    let rows: [(Name, Lease); 0] = [];
    DiskStore::open(disk, rt.alloc(), &header(rt), &rows).expect(rt, "open")
}

/// One turn, at a port of which few calls have failed.
fn turn<R: Abort>(
    rt: &R,
    stage: &mut Stage,
    octets: &mut ArrayVec<u8, 2048>,
) -> Result<(), KeepFault> {
    expect(rt, stage.port.failures() < 1 << 62);
    expect(rt, stage.waiting.len() < BATCH);
    match keep_turn(
        stage.port,
        stage.clock,
        stage.store,
        stage.server,
        stage.share,
        stage.waiting,
        octets,
        &mut ArrayVec::new(),
        &mut None,
    ) {
        Ok(_left) => Ok(()),
        Err(why) => Err(why),
    }
}

/// Plays the turns of a row. Before each the disk has the room that stands at its place among these, if one does.
fn expect_turns<R: Abort>(rt: &R, row: &Kept, rooms: &[Room], stage: &mut Stage) {
    let mut octets = ArrayVec::new();
    let mut rooms = rooms.iter();
    for (came, sent, calls) in row.turns {
        if let Some(room) = rooms.next() {
            stage.store.disk().set_room(*room);
        }
        expect_eq_in(rt, &row.name, &turn(rt, stage, &mut octets), came);
        expect_eq_in(rt, &row.name, &stage.port.sent().len(), sent);
        expect_eq_in(rt, &row.name, &stage.store.disk().calls(), calls);
    }
}

impl Scene for Kept {
    fn play<R: Abort + AllocGlobal + time::Clock>(
        &self,
        rt: &R,
        port: &mut MemoryPort,
        clock: &mut MemoryClock,
        server: &mut Server,
    ) {
        let mut share = Share::new(rt.alloc(), 0);
        self.play_with(rt, port, clock, server, &mut share, &[])
    }
}

impl Kept {
    /// Plays it with these shares of its clients, and with a disk that has this room in each turn.
    pub fn play_with<R: Abort + AllocGlobal + time::Clock>(
        &self,
        rt: &R,
        port: &mut MemoryPort,
        clock: &mut MemoryClock,
        server: &mut Server,
        share: &mut Share,
        rooms: &[Room],
    ) {
        if let Some(calls) = self.port_fails {
            port.fail_after(calls);
        }
        let mut store = store(rt, self.trouble);
        let mut waiting = Waiting::new(rt.alloc(), self.durable).expect(rt, "waiting");
        let mut stage = Stage {
            port,
            clock,
            server,
            store: &mut store,
            share,
            waiting: &mut waiting,
        };
        expect_turns(rt, self, rooms, &mut stage);
        sent_all(rt, stage.port, self.sent).expect(rt, "sent")
    }
}

const TEAM_REFUSED: &str = "0001 ad82 reply TEAM NB 0s unique 127.0.0.2";

/// A second name of a client that may have one: nothing is appended for it, and its refusal waits for what was before it.
const A_SECOND_NAME: &Kept = &Kept {
    name: "the refusal of a client that is full is no change",
    durable: 60_000,
    moments: &[60_000],
    given: &[(FIRST, REGISTRATION), (FIRST, TEAM), NOTHING, (FIRST, TEAM)],
    port_fails: None,
    trouble: None,
    turns: &[
        (Ok(()), 0, 4),
        (Ok(()), 0, 4),
        (Ok(()), 2, 5),
        (Ok(()), 3, 5),
    ],
    sent: &[
        (FIRST, GRANTED),
        (FIRST, TEAM_REFUSED),
        (FIRST, TEAM_REFUSED),
    ],
};

/// The same, at a server at which a client may have one name.
struct OneNameEach;

impl Scene for OneNameEach {
    fn play<R: Abort + AllocGlobal + time::Clock>(
        &self,
        rt: &R,
        port: &mut MemoryPort,
        clock: &mut MemoryClock,
        server: &mut Server,
    ) {
        server.limit_clients(1);
        A_SECOND_NAME.play(rt, port, clock, server)
    }
}

fn play_all<R: Abort + AllocGlobal + time::Clock>(rt: &R, rows: &[Kept]) {
    for row in rows {
        play_on(rt, row.given, row.moments, row);
    }
}

#[test]
fn replies_wait_until_their_changes_are_durable(rt: HostRuntime) {
    play_all(&rt, TURNS);
    play_on(
        &rt,
        A_SECOND_NAME.given,
        A_SECOND_NAME.moments,
        &OneNameEach,
    )
}

/// A port that hands out the registrations of names of these numbers; nothing where the number is `None`.
fn port_of_many<R: Abort + AllocGlobal>(rt: &R, numbers: &[Option<u16>]) -> MemoryPort {
    let mut incoming = VecDeque::new(rt.alloc());
    for number in numbers {
        incoming
            .push_back(match number {
                Some(number) => Some(Datagram {
                    route: Route::to(FIRST),
                    octets: registration_of_many(rt, *number).expect(rt, "a registration"),
                }),
                None => None,
            })
            .expect(rt, "memory");
    }
    MemoryPort::new(rt.alloc(), incoming)
}

/// 65 registrations, one after the other: the 64th leaves with those before it, at one sync.
struct Full;

impl Scene for Full {
    fn play<R: Abort + AllocGlobal + time::Clock>(
        &self,
        rt: &R,
        port: &mut MemoryPort,
        clock: &mut MemoryClock,
        server: &mut Server,
    ) {
        let mut numbers = Vec::new(rt.alloc());
        for number in 0..65 {
            numbers.push(Some(number)).expect(rt, "memory");
        }
        *port = port_of_many(rt, numbers.as_slice());
        let mut store = store(rt, None);
        let mut share = Share::new(rt.alloc(), 0);
        let mut waiting = Waiting::new(rt.alloc(), 60_000).expect(rt, "waiting");
        let mut stage = Stage {
            port,
            clock,
            server,
            store: &mut store,
            share: &mut share,
            waiting: &mut waiting,
        };
        let mut octets = ArrayVec::new();
        for number in 0..65_usize {
            expect_eq(rt, &turn(rt, &mut stage, &mut octets), &Ok(()));
            let sent = if number < 63 { 0 } else { 64 };
            expect_eq_in(rt, &number, &stage.port.sent().len(), &sent);
        }
        expect_eq(rt, &stage.store.disk().calls(), &(3 + 65 + 1));
    }
}

#[test]
fn sixty_four_replies_leave_together(rt: HostRuntime) {
    play_on(&rt, &[], &[60_000], &Full)
}

/// A registration and 64 queries of another name, which go ahead: with the 63rd of them the registration's reply leaves.
struct Busy;

impl Scene for Busy {
    fn play<R: Abort + AllocGlobal + time::Clock>(
        &self,
        rt: &R,
        port: &mut MemoryPort,
        clock: &mut MemoryClock,
        server: &mut Server,
    ) {
        *port = busy_port(rt);
        let mut store = store(rt, None);
        let mut share = Share::new(rt.alloc(), 0);
        let mut waiting = Waiting::new(rt.alloc(), 60_000).expect(rt, "waiting");
        let mut stage = Stage {
            port,
            clock,
            server,
            store: &mut store,
            share: &mut share,
            waiting: &mut waiting,
        };
        let mut octets = ArrayVec::new();
        for number in 0..65_usize {
            expect_eq(rt, &turn(rt, &mut stage, &mut octets), &Ok(()));
            let sent = if number < 63 { number } else { number + 1 };
            expect_eq_in(rt, &number, &stage.port.sent().len(), &sent);
            let calls = if number < 63 { 4 } else { 5 };
            expect_eq_in(rt, &number, &stage.store.disk().calls(), &calls);
        }
    }
}

/// A port that hands out a registration, and then 64 queries of another name.
fn busy_port<R: Abort + AllocGlobal>(rt: &R) -> MemoryPort {
    let mut incoming = VecDeque::new(rt.alloc());
    for number in 0..65 {
        let text = if number == 0 {
            REGISTRATION
        } else {
            QUERY_TEAM
        };
        let datagram = Datagram {
            route: Route::to(FIRST),
            octets: octets(rt, text).expect(rt, "a packet"),
        };
        incoming.push_back(Some(datagram)).expect(rt, "memory");
    }
    MemoryPort::new(rt.alloc(), incoming)
}

#[test]
fn no_more_than_sixty_four_datagrams_come_before_a_sync(rt: HostRuntime) {
    play_on(&rt, &[], &[60_000], &Busy)
}

/// Two batches of registrations.
const BATCHES: &[Option<u16>] = &[
    Some(1),
    Some(2),
    None,
    Some(3),
    Some(4),
    Some(5),
    None,
    None,
];

/// What the clock tells, reading by reading. Before the first registration is handled and before the fifth, a time becomes durable: that is
/// more than a second later than what is durable before.
const PASSING: &[u64] = &[60_000, 60_300, 60_600, 60_900, 61_200, 61_500, 61_800];

/// The server crashes at this call of the disk, which has this trouble from then on. Whatever is left, it resumes with it, and knows
/// of each grant that has left; and it had handled nothing more than a second later than what is left goes.
#[derive(Clone, Copy)]
struct Crash {
    trouble: (usize, Trouble),
}

/// The server of these octets of a file finds the names of all grants among what was sent.
fn expect_known<R: Abort + AllocGlobal>(rt: &R, octets: &[u8], sent: &[Datagram]) {
    let now = Moment::new(62_000).expect(rt, "a moment");
    let mut server = resumed(rt, octets, now);
    for datagram in sent {
        expect_found(rt, &mut server, now, datagram.octets.as_slice());
    }
}

/// The server that goes on with what these octets of a file keep.
fn resumed<R: Abort + AllocGlobal>(rt: &R, octets: &[u8], now: Moment) -> Server {
    let loaded = load(rt.alloc(), octets).expect(rt, "load");
    Server::resume(
        rt.alloc(),
        config(4096).expect(rt, "limits"),
        Moment::new(loaded.header.start).expect(rt, "a moment"),
        Moment::new(loaded.times.last).expect(rt, "a moment"),
        now,
        loaded.rows.as_slice(),
    )
    .expect(rt, "resume")
}

/// The server finds the name of this grant.
fn expect_found<R: Abort + AllocGlobal>(rt: &R, server: &mut Server, now: Moment, grant: &[u8]) {
    let [high, low, 0xAD, 0x80, ..] = grant else {
        panic!(rt; "no grant");
    };
    let query = one_of_many(
        rt,
        u16::from_be_bytes([*high, *low]),
        "0100 one-name",
        "00 NB",
    )
    .expect(rt, "a packet");
    let mut out = ArrayVec::new();
    server
        .on_datagram(now, SECOND, query.as_slice(), &mut out)
        .expect(rt, "a reply");
    expect(rt, matches!(out.as_slice(), [_, _, 0x85, 0x80, ..]));
}

/// What these octets of a file keep goes no less far than a second before this moment.
fn expect_near<R: Abort + AllocGlobal>(rt: &R, octets: &[u8], last: Moment) {
    let loaded = load(rt.alloc(), octets).expect(rt, "load");
    let late = last.get().saturating_sub(loaded.times.last);
    expect_in(rt, &late, late <= 1_000);
}

/// All that a crash may leave knows of what was sent, and goes as far as the server, but for a second.
fn expect_all_known<R: Abort + AllocGlobal>(
    rt: &R,
    disk: &MemoryDisk,
    sent: &[Datagram],
    last: Moment,
) {
    let mut number = 0;
    for _ in 0..10_000 {
        let Some(octets) = disk.left(number) else {
            return;
        };
        expect_known(rt, octets, sent);
        expect_near(rt, octets, last);
        number = number.saturating_add(1);
    }
    panic!(rt; "too much is left")
}

/// Goes through turns until the store fails, and after each of them looks at all that a crash would leave.
fn go_until_it_crashes<R: Abort + AllocGlobal>(rt: &R, stage: &mut Stage) {
    let mut octets = ArrayVec::new();
    for _ in BATCHES {
        let came = turn(rt, stage, &mut octets);
        expect_all_known(
            rt,
            stage.store.disk(),
            stage.port.sent(),
            stage.server.last(),
        );
        if came.is_err() {
            return;
        }
    }
    expect_eq(rt, &stage.port.sent().len(), &5);
}

impl Scene for Crash {
    fn play<R: Abort + AllocGlobal + time::Clock>(
        &self,
        rt: &R,
        port: &mut MemoryPort,
        clock: &mut MemoryClock,
        server: &mut Server,
    ) {
        *port = port_of_many(rt, BATCHES);
        let mut store = store(rt, Some(self.trouble));
        let mut share = Share::new(rt.alloc(), 0);
        let mut waiting = Waiting::new(rt.alloc(), 0).expect(rt, "waiting");
        let mut stage = Stage {
            port,
            clock,
            server,
            store: &mut store,
            share: &mut share,
            waiting: &mut waiting,
        };
        go_until_it_crashes(rt, &mut stage)
    }
}

/// The calls of both batches: 3 to open the file, 5 changes and 2 syncs, and 2 for each of two times; and one behind them.
const CALLS: usize = 15;

fn crash_at_each<R: Abort + AllocGlobal + time::Clock>(rt: &R, troubles: &[Trouble]) {
    for call in 3..CALLS {
        for trouble in troubles {
            let row = Crash {
                trouble: (call, *trouble),
            };
            play_on(rt, &[], PASSING, &row);
        }
    }
}

#[test]
fn what_left_before_a_crash_is_known_after_it(rt: HostRuntime) {
    crash_at_each(&rt, &[Trouble::Refused, Trouble::Torn(0)])
}

#[test]
fn what_left_before_a_crash_in_a_line_is_known_after_it(rt: HostRuntime) {
    crash_at_each(&rt, &[Trouble::Torn(20), Trouble::Full(20)])
}

/// A server that stays up: what it is given, which moments its clock tells, and until when it goes on; up to which time all is durable at
/// first, and which pair of a moment and a time of day the header has; the times of day at which its file is looked after; which trouble
/// the disk has, and what comes of it: how many calls the disk has then, which pair the header has, and what is said of errors.
struct Stays {
    name: &'static str,
    given: &'static [Row],
    moments: &'static [u64],
    until: u64,
    durable: u64,
    pair: (u64, u64),
    days: &'static [u64],
    trouble: Option<(usize, Trouble)>,
    came: Result<(), Fault>,
    calls: usize,
    then: (u64, u64),
    errors: &'static str,
}

/// Nobody watches.
fn journal<R: Abort + AllocGlobal>(rt: &R) -> Journal<MemoryClock, MemoryPlace> {
    let start = Moment::new(0).expect(rt, "a moment");
    Journal {
        dates: Dates {
            moment: start,
            time: start,
        },
        day: clock(rt, &[0]).expect(rt, "a clock"),
        day_read: start,
        log: None,
        leases: None,
        hosts: None,
        fixed: FixedCapitals::none(rt.alloc()),
        stats: None,
        tally: Tally::new(),
        origin: Origin {
            since: 0,
            speaks: 0,
        },
    }
}

/// A state over a disk in memory.
pub type MemoryState = State<DiskStore<MemoryDisk>>;

/// What a server keeps at first, where all is durable up to this time, and a client may make so many changes in a second.
pub fn state_of<R: Abort + AllocGlobal, S: Drop>(
    rt: &R,
    store: S,
    header: Header,
    durable: u64,
    changes: u32,
) -> Option<State<S>>
    ensures { HasRoom result }
{
    let waiting = Waiting::new(rt.alloc(), durable).expect(rt, "waiting");
    let teller = Teller::new(rt.alloc()).expect(rt, "a teller");
    Some(State {
        store,
        header,
        share: Share::new(rt.alloc(), changes),
        waiting,
        teller,
    })
}

/// Goes on until this moment. Returns what came of it, and what is said of errors.
fn stay<R: Abort + AllocGlobal + time::Clock>(
    rt: &R,
    port: &mut MemoryPort,
    clock_of: &mut MemoryClock,
    server: &mut Server,
    state: &mut Option<MemoryState>,
    days: &[u64],
    until: u64,
) -> (Result<(), Fault>, Vec<u8>)
    requires room { HasRoom state.old }
{
    let until = Some(Moment::new(until).expect(rt, "a moment"));
    let mut journal = journal(rt);
    let mut printed: Vec<u8> = Vec::new(rt.alloc());
    let mut errors: Vec<u8> = Vec::new(rt.alloc());
    let came = keep_on(
        port,
        clock_of,
        server,
        state,
        &mut clock(rt, days).expect(rt, "a clock"),
        &mut journal,
        until,
        rt.alloc(),
        rt,
        &mut printed,
        &mut errors,
    );
    (came, errors)
}

impl Scene for Stays {
    fn play<R: Abort + AllocGlobal + time::Clock>(
        &self,
        rt: &R,
        port: &mut MemoryPort,
        clock_of: &mut MemoryClock,
        server: &mut Server,
    ) {
        let mut header = header(rt);
        header.last = self.pair.0;
        header.day = self.pair.1;
        let mut state = state_of(rt, store(rt, self.trouble), header, self.durable, 0);
        let (came, errors) = stay(
            rt, port, clock_of, server, &mut state, self.days, self.until,
        );
        expect_eq_in(rt, &self.name, &came, &self.came);
        expect_eq_in(rt, &self.name, &errors.as_slice(), &self.errors.as_bytes());
        let kept = state.as_ref().expect(rt, "a state");
        expect_eq_in(rt, &self.name, &kept.store.disk().calls(), &self.calls);
        expect_eq_in(
            rt,
            &self.name,
            &(kept.header.last, kept.header.day),
            &self.then,
        );
    }
}

/// What is said where a disk in memory refuses a write.
const REFUSED_LINE: &str = "nbt: the leases can't be kept: no storage space\n";

const NOT_SYNCED_LINE: &str = "nbt: the leases can't be kept: other error\n";

/// The clock is read for a datagram, before replies leave that waited, and at the end of each turn.
const STAYS: &[Stays] = &[
    Stays {
        name: "both clocks went on by the same",
        given: &[(FIRST, REGISTRATION), NOTHING],
        moments: &[60_000, 60_001, 60_002, 60_003],
        until: 60_003,
        durable: 60_000,
        pair: (60_000, 1_000_000),
        days: &[1_000_003],
        trouble: None,
        came: Ok(()),
        calls: 5,
        then: (60_000, 1_000_000),
        errors: "",
    },
    Stays {
        name: "the day went on by 200 ms and a thousandth more",
        given: &[(FIRST, REGISTRATION), NOTHING],
        moments: &[60_000, 60_001, 60_002, 60_003],
        until: 60_003,
        durable: 60_000,
        pair: (50_000, 1_000_000),
        days: &[1_010_213],
        trouble: None,
        came: Ok(()),
        calls: 5,
        then: (50_000, 1_000_000),
        errors: "",
    },
    Stays {
        name: "by a millisecond more than that: a line says so",
        given: &[(FIRST, REGISTRATION), NOTHING],
        moments: &[60_000, 60_001, 60_002, 60_003],
        until: 60_003,
        durable: 60_000,
        pair: (50_000, 1_000_000),
        days: &[1_010_214],
        trouble: None,
        came: Ok(()),
        calls: 7,
        then: (60_003, 1_010_214),
        errors: "",
    },
    Stays {
        name: "the day went on by 200 ms and a thousandth less",
        given: &[(FIRST, REGISTRATION), NOTHING],
        moments: &[60_000, 60_001, 60_002, 60_003],
        until: 60_003,
        durable: 60_000,
        pair: (50_000, 1_000_000),
        days: &[1_009_794],
        trouble: None,
        came: Ok(()),
        calls: 5,
        then: (50_000, 1_000_000),
        errors: "",
    },
    Stays {
        name: "by a millisecond less than that",
        given: &[(FIRST, REGISTRATION), NOTHING],
        moments: &[60_000, 60_001, 60_002, 60_003],
        until: 60_003,
        durable: 60_000,
        pair: (50_000, 1_000_000),
        days: &[1_009_793],
        trouble: None,
        came: Ok(()),
        calls: 7,
        then: (60_003, 1_009_793),
        errors: "",
    },
    Stays {
        name: "the day went back by an hour",
        given: &[(FIRST, REGISTRATION), NOTHING],
        moments: &[60_000, 60_001, 60_002, 60_003],
        until: 60_003,
        durable: 60_000,
        pair: (60_000, 4_000_000),
        days: &[400_000],
        trouble: None,
        came: Ok(()),
        calls: 7,
        then: (60_003, 400_000),
        errors: "",
    },
    Stays {
        name: "a line says so once",
        given: &[(FIRST, REGISTRATION), NOTHING, NOTHING],
        moments: &[60_000, 60_001, 60_002, 60_003, 60_004],
        until: 60_004,
        durable: 60_000,
        pair: (60_000, 1_000_000),
        days: &[4_600_000, 4_600_001],
        trouble: None,
        came: Ok(()),
        calls: 7,
        then: (60_003, 4_600_000),
        errors: "",
    },
    Stays {
        name: "and once more where it is set again",
        given: &[(FIRST, REGISTRATION), NOTHING, NOTHING],
        moments: &[60_000, 60_001, 60_002, 60_003, 60_004],
        until: 60_004,
        durable: 60_000,
        pair: (60_000, 1_000_000),
        days: &[4_600_000, 1_000_001],
        trouble: None,
        came: Ok(()),
        calls: 9,
        then: (60_004, 1_000_001),
        errors: "",
    },
    Stays {
        name: "while a reply waits nothing is looked at",
        given: &[(FIRST, REGISTRATION), NOTHING],
        moments: &[60_000, 60_001, 60_002, 60_003],
        until: 60_003,
        durable: 60_000,
        pair: (60_000, 1_000_000),
        days: &[1_000_003, 4_600_000],
        trouble: None,
        came: Ok(()),
        calls: 5,
        then: (60_000, 1_000_000),
        errors: "",
    },
    Stays {
        name: "a quarter of the longest lease passed since the last durable time",
        given: &[NOTHING],
        moments: &[60_000],
        until: 60_000,
        durable: 45_000,
        pair: (45_000, 1_000_000),
        days: &[1_015_000],
        trouble: None,
        came: Ok(()),
        calls: 5,
        then: (60_000, 1_015_000),
        errors: "",
    },
    Stays {
        name: "a millisecond less",
        given: &[NOTHING],
        moments: &[60_000],
        until: 60_000,
        durable: 45_001,
        pair: (45_001, 1_000_000),
        days: &[1_014_999],
        trouble: None,
        came: Ok(()),
        calls: 3,
        then: (45_001, 1_000_000),
        errors: "",
    },
    Stays {
        name: "since the last durable time, and not since the last pair",
        given: &[NOTHING],
        moments: &[60_000],
        until: 60_000,
        durable: 45_001,
        pair: (30_000, 1_000_000),
        days: &[1_030_000],
        trouble: None,
        came: Ok(()),
        calls: 3,
        then: (30_000, 1_000_000),
        errors: "",
    },
    Stays {
        name: "a line each quarter, and no more",
        given: &[NOTHING, NOTHING, NOTHING, NOTHING],
        moments: &[60_000, 74_999, 75_000, 75_001],
        until: 75_001,
        durable: 45_000,
        pair: (45_000, 1_000_000),
        days: &[1_015_000, 1_029_999, 1_030_000, 1_030_001],
        trouble: None,
        came: Ok(()),
        calls: 7,
        then: (75_000, 1_030_000),
        errors: "",
    },
    Stays {
        name: "a moment before the last durable time isn't looked at",
        given: &[NOTHING],
        moments: &[60_000],
        until: 60_000,
        durable: 60_001,
        pair: (60_000, 1_000_000),
        days: &[4_600_000],
        trouble: None,
        came: Ok(()),
        calls: 3,
        then: (60_000, 1_000_000),
        errors: "",
    },
    Stays {
        name: "a grant that can't be appended",
        given: &[(FIRST, REGISTRATION), NOTHING],
        moments: &[60_000, 60_001, 60_002, 60_003],
        until: 60_003,
        durable: 60_000,
        pair: (60_000, 1_000_000),
        days: &[0],
        trouble: Some((3, Trouble::Refused)),
        came: Err(Fault::Store),
        calls: 4,
        then: (60_000, 1_000_000),
        errors: REFUSED_LINE,
    },
    Stays {
        name: "a line that can't be appended",
        given: &[(FIRST, REGISTRATION), NOTHING],
        moments: &[60_000, 60_001, 60_002, 60_003],
        until: 60_003,
        durable: 60_000,
        pair: (60_000, 1_000_000),
        days: &[0],
        trouble: Some((5, Trouble::Refused)),
        came: Err(Fault::Store),
        calls: 6,
        then: (60_003, 0),
        errors: REFUSED_LINE,
    },
    Stays {
        name: "a line that can't be made durable",
        given: &[(FIRST, REGISTRATION), NOTHING],
        moments: &[60_000, 60_001, 60_002, 60_003],
        until: 60_003,
        durable: 60_000,
        pair: (60_000, 1_000_000),
        days: &[0],
        trouble: Some((6, Trouble::Refused)),
        came: Err(Fault::Store),
        calls: 7,
        then: (60_003, 0),
        errors: NOT_SYNCED_LINE,
    },
];

#[test]
fn a_line_says_what_the_clocks_show(rt: HostRuntime) {
    for row in STAYS {
        play_on(&rt, row.given, row.moments, row);
    }
}

/// So many registrations of one name, one after the other.
const MANY: usize = 1_100;

/// Renewals of one lease: the file is written anew once it has more than 1,024 lines, which is at the 17th batch.
struct Long;

fn port_of_one<R: Abort + AllocGlobal>(rt: &R) -> MemoryPort {
    let mut incoming = VecDeque::new(rt.alloc());
    for _ in 0..MANY {
        incoming
            .push_back(Some(Datagram {
                route: Route::to(FIRST),
                octets: octets(rt, REGISTRATION).expect(rt, "octets"),
            }))
            .expect(rt, "memory");
    }
    MemoryPort::new(rt.alloc(), incoming)
}

/// A clock that tells 60,000 in each turn of these, and then 60,003.
fn clock_of_many<R: Abort + AllocGlobal>(rt: &R) -> MemoryClock {
    let mut moments: Vec<u64> = Vec::new(rt.alloc());
    for _ in 0..2 * MANY {
        moments.push(60_000).expect(rt, "memory");
    }
    moments.push(60_003).expect(rt, "memory");
    clock(rt, moments.as_slice()).expect(rt, "a clock")
}

impl Scene for Long {
    fn play<R: Abort + AllocGlobal + time::Clock>(
        &self,
        rt: &R,
        port: &mut MemoryPort,
        clock_of: &mut MemoryClock,
        server: &mut Server,
    ) {
        *port = port_of_one(rt);
        *clock_of = clock_of_many(rt);
        let mut state = state_of(rt, store(rt, None), header(rt), 60_000, 0);
        let (came, _) = stay(rt, port, clock_of, server, &mut state, &[60_000], 60_003);
        expect_eq(rt, &came, &Ok(()));
        expect_eq(rt, &port.sent().len(), &MANY);
        expect_written_anew(rt, state.as_ref().expect(rt, "a state"));
    }
}

/// The file was written anew, with the one lease that there is.
fn expect_written_anew<R: Abort + AllocGlobal>(rt: &R, state: &MemoryState) {
    // 17 batches of 64, 12 more, 4 calls to begin a new file, and 3 to write its lines and put it in place.
    expect_eq(
        rt,
        &state.store.disk().calls(),
        &(3 + MANY + 17 + 1 + 4 + 3),
    );
    expect_eq(rt, &state.header.last, &60_000);
    expect_eq(rt, &rows_in(rt, state.store.disk().octets()), &1);
}

/// How many leases these octets of a file have.
fn rows_in<R: Abort + AllocGlobal>(rt: &R, octets: &[u8]) -> usize {
    load(rt.alloc(), octets).expect(rt, "load").rows.len()
}

#[test]
fn a_long_file_is_written_anew(rt: HostRuntime) {
    play_on(&rt, &[], &[], &Long)
}
