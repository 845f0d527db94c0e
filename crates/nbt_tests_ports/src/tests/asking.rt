//! A server that asks machines for their addresses, turn by turn over a port in memory, by packets of nmbd 4.17 and of our own host (RFC
//! 1002 sections 4.2.2, 4.2.5, 4.2.6, 4.2.12, 4.2.13 and 4.2.16, and our profile).

use super::expect::{expect, expect_eq_in};
use arrayvec::ArrayVec;
use nbt_asking::{AskingPort, FlagsPort, MemoryIds, Notes};
use nbt_lease::Moment;
use nbt_name::Addr;
use nbt_port::{Clock, Datagram, MemoryPort, Port, Route};
use nbt_serve::{SambaPort, serve_turn};
use nbt_server::Server;
use nbt_testing::{octets, started};
use nbt_waits::Asking;
use std::cell::Cell;
use std::collections::VecDeque;
use std::process::Abort;

/// 198.18.137.1 to 198.18.137.6; the first is the server's.
const ONE: u32 = 0xC612_8901;

const TWO: u32 = 0xC612_8902;

const THREE: u32 = 0xC612_8903;

const FOUR: u32 = 0xC612_8904;

const FIVE: u32 = 0xC612_8905;

const SIX: u32 = 0xC612_8906;

/// 172.17.0.1, the address of a bridge that nobody else reaches.
const BRIDGE: u32 = 0xAC11_0001;

/// What comes to the server in a turn.
#[derive(Clone, Copy, Debug)]
enum Comes {
    /// These octets from port 137 of this address.
    From(u32, &'static str),
    Nothing,
    /// What was set aside, or may be granted: nothing is received beneath.
    Again,
}

use Comes::{Again, From, Nothing};

/// A turn at a moment: what comes in it, and what has left by its end and by what is done after it, each to port 137 of an address.
type Turn = (u64, Comes, &'static [(u32, &'static str)]);

const NODEM_FOUR: &str =
    "7868 7900 000100000000000120454f455045454546454e434143414341434143414341434143414341434143410000200001c00c00200001000000f000066000c6128904";

const NODEM_FIVE: &str =
    "7871 7900 000100000000000120454f455045454546454e434143414341434143414341434143414341434143410000200001c00c00200001000000f000066000c6128905";

/// nmbd's second address is found beside its first, once it has answered itself.
const TWO_ADDRESSES: &[Turn] = &[
    (
        60_000,
        From(FOUR, NODEM_FOUR),
        &[(
            FOUR,
            "0001 0000 0001000000000000 20454f455045454546454e434143414341434143414341434143414341434143410000200001",
        )],
    ),
    (
        60_002,
        From(
            FOUR,
            "0001 8580 0000000100000000 20454f455045454546454e434143414341434143414341434143414341434143410000200001000000f0000c6000c61289046000c6128905",
        ),
        &[],
    ),
    (
        60_002,
        Again,
        &[(
            FOUR,
            "7868 ad80 0000000100000000 20454f455045454546454e434143414341434143414341434143414341434143410000200001 0000003c 0006 2000c6128904",
        )],
    ),
    (60_003, From(FIVE, NODEM_FIVE), &[]),
    (
        60_003,
        Again,
        &[(
            FOUR,
            "0002 0000 0001000000000000 20454f455045454546454e434143414341434143414341434143414341434143410000200001",
        )],
    ),
    (
        60_004,
        From(
            FOUR,
            "0002 8580 0000000100000000 20454f455045454546454e434143414341434143414341434143414341434143410000200001 0000003c000c6000c61289046000c6128905",
        ),
        &[
            (
                FIVE,
                "7871 ad80 0000000100000000 20454f455045454546454e434143414341434143414341434143414341434143410000200001 0000003c 0006 2000c6128905",
            ),
            (
                FOUR,
                "7871 ad80 0000000100000000 20454f455045454546454e434143414341434143414341434143414341434143410000200001 0000003c 0006 2000c6128905",
            ),
            (
                FIVE,
                "0003 0000 0001000000000000 20454f455045454546454e434143414341434143414341434143414341434143410000200001",
            ),
        ],
    ),
    (
        60_005,
        From(
            SIX,
            "05e5 0100 0001000000000000 20454f455045454546454e434143414341434143414341434143414341434143410000200001",
        ),
        &[(
            SIX,
            "05e5 8580 0000000100000000 20454f455045454546454e434143414341434143414341434143414341434143410000200001 0000003c 0006 2000c6128904",
        )],
    ),
    (
        60_006,
        From(
            FIVE,
            "0003 8580 0000000100000000 20454f455045454546454e434143414341434143414341434143414341434143410000200001 0000003c000c6000c61289056000c6128904",
        ),
        &[],
    ),
    (
        60_007,
        From(
            SIX,
            "05e6 0100 0001000000000000 20454f455045454546454e434143414341434143414341434143414341434143410000200001",
        ),
        &[(
            SIX,
            "05e6 8580 0000000100000000 20454f455045454546454e434143414341434143414341434143414341434143410000200001 0000003c 000c 2000c6128904 2000c6128905",
        )],
    ),
    // It releases its second address, and then its first.
    (
        60_010,
        From(
            FIVE,
            "7875 3000 0001000000000001 20454f455045454546454e434143414341434143414341434143414341434143410000200001c00c00200001000000000006 6000c6128905",
        ),
        &[(
            FIVE,
            "7875 b400 0000000100000000 20454f455045454546454e434143414341434143414341434143414341434143410000200001 00000000 0006 2000c6128905",
        )],
    ),
    (
        60_011,
        From(
            SIX,
            "05e7 0100 0001000000000000 20454f455045454546454e434143414341434143414341434143414341434143410000200001",
        ),
        &[(
            SIX,
            "05e7 8580 0000000100000000 20454f455045454546454e434143414341434143414341434143414341434143410000200001 0000003c 0006 2000c6128904",
        )],
    ),
];

/// The holder releases its lease: its machine's other address has it then, though nobody asked.
const THE_HOLDER_RELEASES: &[Turn] = &[
    (
        60_010,
        From(
            FOUR,
            "7876 3000 0001000000000001 20454f455045454546454e434143414341434143414341434143414341434143410000200001c00c00200001000000000006 6000c6128904",
        ),
        &[(
            FOUR,
            "7876 b400 0000000100000000 20454f455045454546454e434143414341434143414341434143414341434143410000200001 00000000 0006 2000c6128904",
        )],
    ),
    (60_011, Again, &[]),
    (
        60_012,
        From(
            SIX,
            "05e8 0100 0001000000000000 20454f455045454546454e434143414341434143414341434143414341434143410000200001",
        ),
        &[(
            SIX,
            "05e8 8580 0000000100000000 20454f455045454546454e434143414341434143414341434143414341434143410000200001 0000003c 0006 2000c6128905",
        )],
    ),
];

/// A holder that is silent, and a requester that has the name: it waits for the lease's end, and is granted the name unasked.
const HOLDER_GONE: &[Turn] = &[
    (
        60_000,
        From(
            TWO,
            "78a1 2900 0001000000000001 20464345504542454e4341434143414341434143414341434143414341434143410000200001c00c00200001000000f000066000c6128902",
        ),
        &[(
            TWO,
            "78a1 ad80 0000000100000000 20464345504542454e4341434143414341434143414341434143414341434143410000200001 0000003c 0006 2000c6128902",
        )],
    ),
    (
        66_000,
        From(
            THREE,
            "788f 7900 0001000000000001 20464345504542454e4341434143414341434143414341434143414341434143410000200001c00c00200001000000f000066000c6128903",
        ),
        &[],
    ),
    (
        66_000,
        Again,
        &[(
            TWO,
            "0001 0000 0001000000000000 20464345504542454e4341434143414341434143414341434143414341434143410000200001",
        )],
    ),
    (66_200, Nothing, &[]),
    (
        66_250,
        Nothing,
        &[(
            TWO,
            "0001 0000 0001000000000000 20464345504542454e4341434143414341434143414341434143414341434143410000200001",
        )],
    ),
    (
        66_500,
        Nothing,
        &[(
            TWO,
            "0001 0000 0001000000000000 20464345504542454e4341434143414341434143414341434143414341434143410000200001",
        )],
    ),
    (
        66_750,
        Nothing,
        &[(
            THREE,
            "0002 0000 0001000000000000 20464345504542454e4341434143414341434143414341434143414341434143410000200001",
        )],
    ),
    (
        66_752,
        From(
            THREE,
            "0002 8580 0000000100000000 20464345504542454e4341434143414341434143414341434143414341434143410000200001000000f000066000c6128903",
        ),
        &[(
            THREE,
            "788f bc00 0000000100000000 20464345504542454e4341434143414341434143414341434143414341434143410000200001 0000003b 0002 7900",
        )],
    ),
    (119_999, Nothing, &[]),
    (
        120_000,
        Nothing,
        &[(
            THREE,
            "0003 0000 0001000000000000 20464345504542454e4341434143414341434143414341434143414341434143410000200001",
        )],
    ),
    (
        120_001,
        From(
            THREE,
            "0003 8580 0000000100000000 20464345504542454e4341434143414341434143414341434143414341434143410000200001000000f000066000c6128903",
        ),
        &[],
    ),
    (
        120_002,
        Again,
        &[(
            THREE,
            "788f ad80 0000000100000000 20464345504542454e4341434143414341434143414341434143414341434143410000200001 0000003c 0006 2000c6128903",
        )],
    ),
];

/// Our own host's name, which another host asks for: the holder lists its own address alone, and the other is refused, later than before.
const OUR_NODES: &[Turn] = &[
    (
        60_000,
        From(
            TWO,
            "4001 2900 0001000000000001 204547454a454d454646434341434143414341434143414341434143414341434100 00200001c00c00200001000000f0 0006 2000c6128902",
        ),
        &[(
            TWO,
            "4001 ad80 0000000100000000 204547454a454d454646434341434143414341434143414341434143414341434100 00200001 0000003c 0006 2000c6128902",
        )],
    ),
    (
        60_100,
        From(
            THREE,
            "4002 2900 0001000000000001 204547454a454d454646434341434143414341434143414341434143414341434100 00200001c00c00200001000000f0 0006 2000c6128903",
        ),
        &[(
            TWO,
            "0001 0000 0001000000000000 204547454a454d454646434341434143414341434143414341434143414341434100 00200001",
        )],
    ),
    (
        60_101,
        From(
            TWO,
            "0001 8500 0000000100000000 204547454a454d454646434341434143414341434143414341434143414341434100 00200001 00000000 0006 2000c6128902",
        ),
        &[(
            THREE,
            "4002 ad86 0000000100000000 204547454a454d454646434341434143414341434143414341434143414341434100 00200001 00000000 0006 2000c6128903",
        )],
    ),
];

/// A bridge that nobody reaches: no reply, and no lease. Behind a masquerade the source has the lease, where it lists both.
const BRIDGES: &[Turn] = &[
    (
        60_000,
        From(
            BRIDGE,
            "7855 7900 0001000000000001 20454f4550454545464543434143414341434143414341434143414341434143410000200001c00c00200001000000f000066000ac110001",
        ),
        &[(
            BRIDGE,
            "0001 0000 0001000000000000 20454f4550454545464543434143414341434143414341434143414341434143410000200001",
        )],
    ),
    (
        60_250,
        Nothing,
        &[(
            BRIDGE,
            "0001 0000 0001000000000000 20454f4550454545464543434143414341434143414341434143414341434143410000200001",
        )],
    ),
    (
        60_500,
        Nothing,
        &[(
            BRIDGE,
            "0001 0000 0001000000000000 20454f4550454545464543434143414341434143414341434143414341434143410000200001",
        )],
    ),
    (60_750, Nothing, &[]),
    (
        61_000,
        From(
            TWO,
            "7856 7900 0001000000000001 20454f4550454545464543434143414341434143414341434143414341434143410000200001c00c00200001000000f000066000ac110001",
        ),
        &[(
            TWO,
            "0002 0000 0001000000000000 20454f4550454545464543434143414341434143414341434143414341434143410000200001",
        )],
    ),
    (
        61_001,
        From(
            TWO,
            "0002 8580 0000000100000000 20454f4550454545464543434143414341434143414341434143414341434143410000200001000000f0000c 6000c6128902 6000ac110001",
        ),
        &[],
    ),
    (
        61_001,
        Again,
        &[(
            TWO,
            "7856 ad80 0000000100000000 20454f4550454545464543434143414341434143414341434143414341434143410000200001 0000003c 0006 2000c6128902",
        )],
    ),
    // Its refresh comes so too.
    (
        90_000,
        From(
            TWO,
            "7857 4000 0001000000000001 20454f4550454545464543434143414341434143414341434143414341434143410000200001c00c00200001000000f000066000ac110001",
        ),
        &[(
            TWO,
            "0003 0000 0001000000000000 20454f4550454545464543434143414341434143414341434143414341434143410000200001",
        )],
    ),
    (
        90_001,
        From(
            TWO,
            "0003 8580 0000000100000000 20454f4550454545464543434143414341434143414341434143414341434143410000200001000000f0000c 6000c6128902 6000ac110001",
        ),
        &[],
    ),
    (
        90_001,
        Again,
        &[(
            TWO,
            "7857 ad80 0000000100000000 20454f4550454545464543434143414341434143414341434143414341434143410000200001 0000003c 0006 2000c6128902",
        )],
    ),
];

/// After a restart a bridge's address refreshes first, which nobody reaches: it is asked, since it is no P node's, and has no lease. Our own
/// host, which is a P node, has its lease at once.
const REFRESHES: &[Turn] = &[
    (
        60_000,
        From(
            BRIDGE,
            "7858 4000 0001000000000001 20454f45504545454645434341434143414341434143414341434143414341434100 00200001c00c00200001000000f0 0006 6000ac110001",
        ),
        &[(
            BRIDGE,
            "0001 0000 0001000000000000 20454f45504545454645434341434143414341434143414341434143414341434100 00200001",
        )],
    ),
    (
        60_250,
        Nothing,
        &[(
            BRIDGE,
            "0001 0000 0001000000000000 20454f45504545454645434341434143414341434143414341434143414341434100 00200001",
        )],
    ),
    (
        60_500,
        Nothing,
        &[(
            BRIDGE,
            "0001 0000 0001000000000000 20454f45504545454645434341434143414341434143414341434143414341434100 00200001",
        )],
    ),
    (60_750, Nothing, &[]),
    (
        61_000,
        From(
            TWO,
            "7859 4000 0001000000000001 20454f45504545454645434341434143414341434143414341434143414341434100 00200001c00c00200001000000f0 0006 2000c6128902",
        ),
        &[(
            TWO,
            "7859 ad80 0000000100000000 20454f45504545454645434341434143414341434143414341434143414341434100 00200001 0000003c 0006 2000c6128902",
        )],
    ),
];

/// A clock that tells a moment which the test sets.
#[derive(Drop)]
struct Hand<'a>(&'a Cell<u64>);

impl Clock for Hand<'_> {
    ghost use Rattle.std.specs.Prelude.{⊤};

    ghost tells = { λ _ _ _. ⊤ };

    fn now(&mut self) -> Moment {
        match Moment::new(self.0.get()) {
            Some(moment) => moment,
            None => Moment::zero(),
        }
    }
}

type Stage = AskingPort<SambaPort<FlagsPort<MemoryPort>>, MemoryIds>;

fn route(ip: u32) -> Route {
    Route {
        peer: Addr { ip, port: 137 },
        local: Some(Addr { ip: ONE, port: 137 }),
    }
}

/// A port that hands out what comes in these turns, in order, and ids 1, 2 and so on.
fn stage<R: Abort + AllocGlobal>(rt: &R, parts: &[&[Turn]]) -> Stage {
    let mut incoming = VecDeque::new(rt.alloc());
    for turns in parts {
        for (_, comes, _) in *turns {
            let datagram = match comes {
                From(ip, words) => Some(Datagram {
                    route: route(*ip),
                    octets: octets(rt, words).expect(rt, "octets"),
                }),
                Nothing => None,
                Again => continue,
            };
            incoming.push_back(datagram).ok().expect(rt, "memory");
        }
    }
    let mut ids = VecDeque::new(rt.alloc());
    for id in 1..100 {
        ids.push_back(id).ok().expect(rt, "memory");
    }
    let beneath = SambaPort::new(FlagsPort::new(MemoryPort::new(rt.alloc(), incoming)));
    let asking = Asking::new(rt.alloc(), 64).ok().expect(rt, "memory");
    let notes = Notes::new(rt.alloc()).ok().expect(rt, "memory");
    AskingPort::new(beneath, MemoryIds::new(ids), asking, notes)
}

fn sent(port: &Stage) -> &[Datagram] {
    port.beneath.beneath().beneath().sent()
}

fn play<R: Abort + AllocGlobal>(rt: &R, parts: &[&[Turn]]) {
    let time = Cell::new(0);
    let mut port = stage(rt, parts);
    let mut server = started(rt, 4096, 0).expect(rt, "a server");
    for turns in parts {
        play_part(rt, &time, &mut port, &mut server, turns);
    }
}

fn play_part<R: Abort + AllocGlobal>(
    rt: &R,
    time: &Cell<u64>,
    port: &mut Stage,
    server: &mut Server,
    turns: &[Turn],
) {
    let mut came = ArrayVec::new();
    let mut reply = ArrayVec::new();
    for turn in turns {
        let (at, _, leaves) = turn;
        time.set(*at);
        let before = sent(port).len();
        let turned = serve_turn(port, &mut Hand(time), server, &mut came, &mut reply)
            .ok()
            .expect(rt, "a turn");
        let mut entry = turned.entry;
        let now = Hand(time).now();
        port.attend(server, now, came.as_slice(), &mut entry);
        let all = sent(port);
        expect(rt, before <= all.len());
        let left = &all[before..];
        expect_eq_in(rt, turn, &left.len(), &leaves.len());
        for (datagram, (ip, words)) in left.iter().zip(leaves.iter()) {
            let wanted = octets(rt, words).expect(rt, "octets");
            expect_eq_in(rt, turn, &datagram.octets.as_slice(), &wanted.as_slice());
            expect_eq_in(rt, turn, &datagram.route, &route(*ip));
        }
    }
    expect(rt, port.failures() == 0);
}

#[test]
fn another_address_of_the_machine_is_listed_once_it_answered(rt: HostRuntime) {
    play(&rt, &[TWO_ADDRESSES])
}

#[test]
fn where_the_holder_releases_the_next_address_has_the_lease(rt: HostRuntime) {
    play(&rt, &[&TWO_ADDRESSES[..9], THE_HOLDER_RELEASES])
}

#[test]
fn a_silent_holder_has_its_lease_to_its_end(rt: HostRuntime) {
    play(&rt, &[HOLDER_GONE])
}

#[test]
fn a_name_of_our_own_host_is_refused_to_another(rt: HostRuntime) {
    play(&rt, &[OUR_NODES])
}

#[test]
fn a_bridge_that_nobody_reaches_has_no_lease(rt: HostRuntime) {
    play(&rt, &[BRIDGES])
}

#[test]
fn a_refresh_of_an_address_that_nobody_reaches_has_no_lease(rt: HostRuntime) {
    play(&rt, &[REFRESHES])
}
