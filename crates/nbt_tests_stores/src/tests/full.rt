//! A server that keeps its leases over a disk that is full for a while: what is lost then, what isn't, and what is said.

ghost use Rattle.std.specs.Prelude.{⊤};

use super::expect::{expect, expect_eq, expect_eq_in};
use super::keeping::{Kept, NOTHING, header, state_of, store};
use super::stage::{Scene, play_on};
use nbt_lease::{Lease, Moment};
use nbt_name::{Addr, Name};
use nbt_nbns::{Shown, Watcher, keep_on};
use nbt_port::{MemoryClock, MemoryPort};
use nbt_serve::{Share, Waiting, look_after};
use nbt_server::Server;
use nbt_store::{Change, Disk, DiskStore, MemoryDisk, Room, Store};
use nbt_testing::{GRANTED, QUERY, REFRESH, REFUSED, REGISTRATION, RELEASE, RIVAL, clock};
use std::cell::Cell;
use std::io::Write;
use std::process::Abort;
use std::{io, time};

const FIRST: Addr = Addr {
    ip: 0x7F000002,
    port: 137,
};

const SECOND: Addr = Addr {
    ip: 0x7F000003,
    port: 1024,
};

const FOUND: &str = "0008 8580 reply FRED NB 60s unique 127.0.0.2";

const FOUND_LATER: &str = "0008 8580 reply FRED NB 0000003b unique 127.0.0.2";

/// What another machine asks for that has no lease.
const RIVAL_REFRESH: &str = "0001 4000 two-parts FRED NB again NB 60s unique 127.0.0.3";

const RIVAL_RELEASE: &str = "0002 3000 two-parts FRED NB again NB 0s unique 127.0.0.3";

const OVERWRITE: &str = "0001 2800 two-parts FRED NB again NB 60s unique 127.0.0.3";

const OTHER: &str = "0001 2900 two-parts TEAM NB again NB 60s unique 127.0.0.3";

const OTHER_NOT_OWN: &str = "0001 ad85 reply TEAM NB 0s unique 127.0.0.3";

const STAR_NOT_OWN: &str = "0001 ad85 reply STAR NB 0s unique 127.0.0.2";

const MEMBER: &str = "0001 2900 two-parts TEAM NB again NB 60s group 127.0.0.2";

const SECOND_MEMBER: &str = "0001 2900 two-parts TEAM NB again NB 60s group 127.0.0.3";

const RELEASED: &str = "0002 b400 reply FRED NB 0s unique 127.0.0.2";

/// The turns of a server without a limit of changes, the room that the disk has in each, and how many requests were barred by their end.
struct Filled {
    kept: Kept,
    rooms: &'static [Room],
    barred: u64,
}

impl Scene for Filled {
    fn play<R: Abort + AllocGlobal + time::Clock>(
        &self,
        rt: &R,
        port: &mut MemoryPort,
        clock: &mut MemoryClock,
        server: &mut Server,
    ) {
        let mut share = Share::new(rt.alloc(), 0);
        self.kept
            .play_with(rt, port, clock, server, &mut share, self.rooms);
        expect_eq_in(rt, &self.kept.name, &share.barred(), &self.barred);
    }
}

const ROWS: &[Filled] = &[
    Filled {
        kept: Kept {
            name: "a full disk: a change is lost, what is refused and a query are answered, and with room all goes on",
            durable: 60_000,
            moments: &[60_000],
            given: &[
                (FIRST, REGISTRATION),
                NOTHING,
                (FIRST, RELEASE),
                (SECOND, RIVAL),
                (SECOND, QUERY),
                (FIRST, RELEASE),
                NOTHING,
            ],
            port_fails: None,
            trouble: None,
            turns: &[
                (Ok(()), 0, 4),
                (Ok(()), 1, 5),
                (Ok(()), 1, 5),
                (Ok(()), 2, 5),
                (Ok(()), 3, 5),
                (Ok(()), 3, 6),
                (Ok(()), 4, 7),
            ],
            sent: &[
                (FIRST, GRANTED),
                (SECOND, REFUSED),
                (SECOND, FOUND),
                (FIRST, RELEASED),
            ],
        },
        rooms: &[
            Room::Ample,
            Room::Ample,
            Room::Scarce,
            Room::Scarce,
            Room::Scarce,
            Room::Ample,
        ],
        barred: 1,
    },
    Filled {
        kept: Kept {
            name: "a full disk: a release of another machine's, a refresh of a rival, a release of what it hasn't, an overwrite, and none of them changes anything; a renewal and a new name are lost",
            durable: 60_000,
            moments: &[60_000],
            given: &[
                (FIRST, REGISTRATION),
                NOTHING,
                (SECOND, RELEASE),
                (SECOND, RIVAL_REFRESH),
                (SECOND, RIVAL_RELEASE),
                (SECOND, OVERWRITE),
                (FIRST, REFRESH),
                (SECOND, OTHER),
            ],
            port_fails: None,
            trouble: None,
            turns: &[
                (Ok(()), 0, 4),
                (Ok(()), 1, 5),
                (Ok(()), 2, 5),
                (Ok(()), 3, 5),
                (Ok(()), 4, 5),
                (Ok(()), 5, 5),
                (Ok(()), 5, 5),
                (Ok(()), 5, 5),
            ],
            sent: &[
                (FIRST, GRANTED),
                (SECOND, "0002 b405 reply FRED NB 0s unique 127.0.0.2"),
                (SECOND, REFUSED),
                (SECOND, "0002 b406 reply FRED NB 0s unique 127.0.0.3"),
                (SECOND, "0001 ad85 reply FRED NB 0s unique 127.0.0.3"),
            ],
        },
        rooms: &[
            Room::Ample,
            Room::Ample,
            Room::Scarce,
            Room::Scarce,
            Room::TooLong,
            Room::Scarce,
            Room::Scarce,
            Room::TooLong,
        ],
        barred: 2,
    },
    Filled {
        kept: Kept {
            name: "a full disk: claims that aren't the sender's own, no message, claims of a star, a group's claim by who has the name as unique, and releases of a name of nobody and of a star, and none of them changes anything; a claim by who has the name is lost",
            durable: 60_000,
            moments: &[60_000],
            given: &[
                (FIRST, REGISTRATION),
                NOTHING,
                (FIRST, OTHER),
                (
                    FIRST,
                    "0001 4000 two-parts TEAM NB again NB 60s unique 127.0.0.3",
                ),
                (SECOND, "0001 2900"),
                (
                    FIRST,
                    "0001 2900 two-parts FRED NB again NB 60s group 127.0.0.2",
                ),
                (
                    SECOND,
                    "0002 3000 two-parts TEAM NB again NB 0s unique 127.0.0.3",
                ),
                (
                    SECOND,
                    "0002 3000 two-parts STAR NB again NB 0s unique 127.0.0.3",
                ),
                (
                    FIRST,
                    "0001 2900 two-parts STAR NB again NB 60s unique 127.0.0.2",
                ),
                (
                    FIRST,
                    "0001 4000 two-parts STAR NB again NB 60s unique 127.0.0.2",
                ),
                (FIRST, REGISTRATION),
            ],
            port_fails: None,
            trouble: None,
            turns: &[
                (Ok(()), 0, 4),
                (Ok(()), 1, 5),
                (Ok(()), 2, 5),
                (Ok(()), 3, 5),
                (Ok(()), 3, 5),
                (Ok(()), 4, 5),
                (Ok(()), 5, 5),
                (Ok(()), 6, 5),
                (Ok(()), 7, 5),
                (Ok(()), 8, 5),
                (Ok(()), 8, 5),
            ],
            sent: &[
                (FIRST, GRANTED),
                (FIRST, OTHER_NOT_OWN),
                (FIRST, OTHER_NOT_OWN),
                (FIRST, "0001 ad86 reply FRED NB 0s group 127.0.0.2"),
                (SECOND, "0002 b400 reply TEAM NB 0s unique 127.0.0.3"),
                (SECOND, "0002 b405 reply STAR NB 0s unique 127.0.0.3"),
                (FIRST, STAR_NOT_OWN),
                (FIRST, STAR_NOT_OWN),
            ],
        },
        rooms: &[Room::Ample, Room::Ample, Room::Scarce],
        barred: 1,
    },
    Filled {
        kept: Kept {
            name: "a full disk: a member's claim of its group's name as unique changes nothing; a renewal is lost, and so are a second member's claim, until there is room, and its release",
            durable: 60_000,
            moments: &[60_000],
            given: &[
                (FIRST, MEMBER),
                NOTHING,
                (
                    FIRST,
                    "0001 2900 two-parts TEAM NB again NB 60s unique 127.0.0.2",
                ),
                (FIRST, MEMBER),
                (SECOND, SECOND_MEMBER),
                (SECOND, SECOND_MEMBER),
                NOTHING,
                (
                    SECOND,
                    "0002 3000 two-parts TEAM NB again NB 0s group 127.0.0.3",
                ),
            ],
            port_fails: None,
            trouble: None,
            turns: &[
                (Ok(()), 0, 4),
                (Ok(()), 1, 5),
                (Ok(()), 2, 5),
                (Ok(()), 2, 5),
                (Ok(()), 2, 5),
                (Ok(()), 2, 6),
                (Ok(()), 3, 7),
                (Ok(()), 3, 7),
            ],
            sent: &[
                (FIRST, "0001 ad80 reply TEAM NB 60s group 127.0.0.2"),
                (FIRST, "0001 ad86 reply TEAM NB 0s unique 127.0.0.2"),
                (SECOND, "0001 ad80 reply TEAM NB 60s group 127.0.0.3"),
            ],
        },
        rooms: &[
            Room::Ample,
            Room::Ample,
            Room::Scarce,
            Room::Scarce,
            Room::Scarce,
            Room::Ample,
            Room::Ample,
            Room::Scarce,
        ],
        barred: 3,
    },
    Filled {
        kept: Kept {
            name: "a disk that is full before a sync: what was appended is made durable, and its reply leaves",
            durable: 60_000,
            moments: &[60_000],
            given: &[(FIRST, REGISTRATION), (FIRST, RELEASE), NOTHING],
            port_fails: None,
            trouble: None,
            turns: &[(Ok(()), 0, 4), (Ok(()), 0, 4), (Ok(()), 1, 5)],
            sent: &[(FIRST, GRANTED)],
        },
        rooms: &[Room::Ample, Room::Scarce, Room::Spent],
        barred: 1,
    },
    Filled {
        kept: Kept {
            name: "a full disk: a later time becomes durable before a query, and not before what is lost",
            durable: 60_000,
            moments: &[60_000, 60_000, 61_500, 61_500, 61_500, 61_500, 61_500],
            given: &[
                (FIRST, REGISTRATION),
                NOTHING,
                (FIRST, RELEASE),
                (SECOND, QUERY),
            ],
            port_fails: None,
            trouble: None,
            turns: &[
                (Ok(()), 0, 4),
                (Ok(()), 1, 5),
                (Ok(()), 1, 5),
                (Ok(()), 2, 7),
            ],
            sent: &[(FIRST, GRANTED), (SECOND, FOUND_LATER)],
        },
        rooms: &[Room::Ample, Room::Ample, Room::Scarce],
        barred: 1,
    },
    Filled {
        kept: Kept {
            name: "a disk without room for a line: nothing is handled, nor is a query",
            durable: 60_000,
            moments: &[60_000],
            given: &[
                (FIRST, REGISTRATION),
                NOTHING,
                (SECOND, QUERY),
                (SECOND, "00"),
                (SECOND, QUERY),
            ],
            port_fails: None,
            trouble: None,
            turns: &[
                (Ok(()), 0, 4),
                (Ok(()), 1, 5),
                (Ok(()), 1, 5),
                (Ok(()), 1, 5),
                (Ok(()), 2, 5),
            ],
            sent: &[(FIRST, GRANTED), (SECOND, FOUND)],
        },
        rooms: &[
            Room::Ample,
            Room::Ample,
            Room::Spent,
            Room::Spent,
            Room::Scarce,
        ],
        barred: 2,
    },
];

#[test]
fn a_full_disk_bars_changes_and_no_query(rt: HostRuntime) {
    for row in ROWS {
        play_on(&rt, row.kept.given, row.kept.moments, row);
    }
}

/// A disk that has the next one of these rooms each time that it is asked, and at last the last one.
#[derive(Drop)]
struct Filling {
    beneath: MemoryDisk,
    rooms: &'static [Room],
    asked: Cell<usize>,
}

impl Disk for Filling {
    ghost use Rattle.std.specs.Prelude.{⊤};

    ghost does = { λ _ _ _. ⊤ };

    fn create(&mut self, octets: &[u8]) -> io::Result<()> {
        self.beneath.create(octets)
    }

    fn append(&mut self, octets: &[u8]) -> io::Result<()> {
        self.beneath.append(octets)
    }

    fn sync(&mut self) -> io::Result<()> {
        self.beneath.sync()
    }

    fn append_beside(&mut self, octets: &[u8]) -> io::Result<()> {
        self.beneath.append_beside(octets)
    }

    fn install(&mut self) -> io::Result<()> {
        self.beneath.install()
    }

    fn room(&self) -> Room {
        let asked = self.asked.get();
        self.asked.set(asked.saturating_add(1));
        match self.rooms.get(asked) {
            Some(room) => *room,
            None => Room::Ample,
        }
    }
}

/// A store over such a disk.
fn store_that_fills(rt: &(impl Abort + AllocGlobal), rooms: &'static [Room]) -> DiskStore<Filling> {
    let none: [(Name, Lease); 0] = [];
    let disk = Filling {
        beneath: MemoryDisk::new(rt.alloc(), None),
        rooms,
        asked: Cell::new(0),
    };
    DiskStore::open(disk, rt.alloc(), &header(rt), &none).expect(rt, "open")
}

/// What watches a server, and sees nothing.
#[derive(Drop)]
struct Blind;

impl Watcher for Blind {
    ghost sees = { λ _ _ _ _ _ _. ⊤ };

    fn see<W: Write, E: Write>(
        &mut self,
        _server: &Server,
        _shown: &Shown,
        _writer: &mut W,
        _errors: &mut E,
    ) {}
}

/// What is asked of the disk in a turn: once where a datagram came, once after the turn, and once as the file is looked after.
const ROOMS: &[Room] = &[
    // A query, and nothing, while it is full; after a minute, and when there is room for no line.
    Room::Scarce,
    Room::Scarce,
    Room::Scarce,
    Room::Scarce,
    Room::Scarce,
    Room::Scarce,
    Room::Scarce,
    Room::Spent,
    Room::Spent,
    // The disk has room, and the file is too long.
    Room::TooLong,
    Room::TooLong,
];

/// What is said of that: at once, after a minute, once there is room for no line, once the file is too long, and once there is room again.
const SAID: &str = "nbt: the disk is full: changes are lost until there is room\n\
nbt: the disk is full: changes are lost until there is room\n\
nbt: the disk is full: all requests are lost until there is room\n\
nbt: the file has as many lines as it may: changes are lost until it is written anew\n\
nbt: there is room again\n";

/// A server that stays up over a disk that is full for a while.
struct Said;

impl Scene for Said {
    fn play<R: Abort + AllocGlobal + time::Clock>(
        &self,
        rt: &R,
        port: &mut MemoryPort,
        clock_of: &mut MemoryClock,
        server: &mut Server,
    ) {
        let mut state = state_of(rt, store_that_fills(rt, ROOMS), header(rt), 60_000, 1);
        let mut errors: Vec<u8> = Vec::new(rt.alloc());
        let came = keep_on(
            port,
            clock_of,
            server,
            &mut state,
            &mut clock(rt, &[60_000]).expect(rt, "a clock"),
            &mut Blind,
            Moment::new(122_000),
            rt.alloc(),
            rt,
            &mut Vec::new(rt.alloc()),
            &mut errors,
        );
        expect_eq(rt, &came, &Ok(()));
        expect_eq(rt, &errors.as_slice(), &SAID.as_bytes())
    }
}

#[test]
fn a_full_disk_is_said_once_a_minute(rt: HostRuntime) {
    let given = &[
        NOTHING, NOTHING, NOTHING, NOTHING, NOTHING, NOTHING, NOTHING,
    ];
    let moments = &[60_000, 119_999, 120_000, 120_001, 121_000, 121_500, 122_000];
    play_on(&rt, given, moments, &Said)
}

/// More lines than a short file has.
const MANY: u64 = 1_100;

/// A look at a long file at this moment, where the disk has so much room, and how many calls of the disk it makes.
type Look = (Room, u64, usize);

const LOOKS: &[Look] = &[
    // The leases aren't written anew, and a line of both clocks is due.
    (Room::Scarce, 75_000, 2),
    (Room::Scarce, 61_000, 0),
    (Room::Spent, 75_000, 0),
    // Such a line becomes durable, and so do the first two of a new file.
    (Room::Ample, 61_000, 4),
    // Where a line is due the new file has to wait.
    (Room::Ample, 75_000, 2),
];

/// Plays a look.
fn see_look<R: Abort + AllocGlobal>(rt: &R, look: &Look, server: &Server) {
    let (room, at, calls) = *look;
    let mut store = store(rt, None);
    for at in 0..MANY {
        expect(rt, store.append(&Change::Reached { at }).is_ok());
    }
    let before = store.disk().calls();
    store.disk().set_room(room);
    let mut waiting = Waiting::new(rt.alloc(), 60_000).expect(rt, "waiting");
    let looked = look_after(
        &mut store,
        &mut clock(rt, &[at]).expect(rt, "a clock"),
        &mut header(rt),
        &mut Vec::new(rt.alloc()),
        server,
        &mut waiting,
        Moment::new(at).expect(rt, "a moment"),
    );
    expect(rt, looked.is_ok());
    expect_eq_in(
        rt,
        look,
        &store.disk().calls().saturating_sub(before),
        &calls,
    )
}

/// Looks at a long file.
struct Looks;

impl Scene for Looks {
    fn play<R: Abort + AllocGlobal + time::Clock>(
        &self,
        rt: &R,
        _port: &mut MemoryPort,
        _clock: &mut MemoryClock,
        server: &mut Server,
    ) {
        for look in LOOKS {
            see_look(rt, look, server);
        }
    }
}

#[test]
fn a_full_disk_takes_no_new_file(rt: HostRuntime) {
    play_on(&rt, &[], &[60_000], &Looks)
}
