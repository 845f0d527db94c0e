//! Lookups of a node at 127.0.0.2 over a port in memory, at a server at 127.0.0.1.

use super::expect::{expect, expect_eq, expect_eq_in};
use super::stage::{Scene, play_on};
use arrayvec::ArrayVec;
use nbt_client::{Answer, Ending, Question, ask, ask_here, look_up, patience_of, random_id};
use nbt_lease::Moment;
use nbt_name::{Addr, Name};
use nbt_node::{LookupFault, Node};
use nbt_port::{Fault, MemoryClock, MemoryPort, Port, UdpPort};
use nbt_server::Server;
use nbt_testing::{Row, config, octets, sent_all};
use std::process::Abort;
use std::random::RandomSource;
use std::{io, time};

const SERVER: Addr = Addr {
    ip: 0x7F000001,
    port: 137,
};

const OWN: Addr = Addr {
    ip: 0x7F000002,
    port: 137,
};

/// The first query of a node.
const QUERY: &str = "0001 0100 one-name FRED NB";

const FOUND: &str = "0001 8580 reply FRED NB 1s unique 127.0.0.3";

const FOUND_BY_ANOTHER_ID: &str = "0002 8580 reply FRED NB 1s unique 127.0.0.3";

const NOT_FOUND: &str = "0001 8583 reply FRED NULL 0s 0000";

/// One lookup: the moments that the clock tells, what the port hands out, and for how long, and how often, it waits.
struct Lookup {
    asks: &'static str,
    moments: &'static [u64],
    given: &'static [Row],
    patience: u64,
    most: u64,
    ending: Ending,
    sent: &'static [Row],
}

fn question(rt: &impl Abort, asks: &str) -> Question {
    match asks {
        "FRED" => Question::Holders(
            SERVER,
            Name::new(b"FRED            ", b"").expect(rt, "a name"),
        ),
        _ => Question::Holders(SERVER, Name::any(b"").expect(rt, "a name")),
    }
}

/// Plays one lookup of a node that starts at 0. Where a reply ended it, the last datagram given is what is left in the
/// buffer.
fn see_lookup<R: Abort + AllocGlobal>(
    rt: &R,
    port: &mut MemoryPort,
    clock: &mut MemoryClock,
    node: &mut Node<1>,
    left: &mut ArrayVec<u8, 2048>,
    lookup: &Lookup,
) {
    expect(rt, port.failures() < 1 << 62);
    expect(rt, lookup.patience < 1 << 62);
    let question = question(rt, lookup.asks);
    let (patience, most) = (lookup.patience, lookup.most);
    let ending = look_up(port, clock, node, &question, patience, most, left).expect(rt, "look up");
    expect_eq(rt, &ending, &lookup.ending);
    sent_all(rt, port, lookup.sent).expect(rt, "sent");
    if ending == Ending::Told {
        let (_, words) = lookup.given.last().expect(rt, "something given");
        expect_eq_in(
            rt,
            &words,
            &left.as_slice(),
            &octets(rt, words).expect(rt, "octets").as_slice(),
        );
    }
}

impl Scene for Lookup {
    fn play<R: Abort + AllocGlobal + time::Clock>(
        &self,
        rt: &R,
        port: &mut MemoryPort,
        clock: &mut MemoryClock,
        _: &mut Server,
    ) {
        let (limits, start) = (
            config(16).expect(rt, "limits"),
            Moment::new(0).expect(rt, "a moment"),
        );
        let mut node = Node::start(OWN, SERVER, limits, start);
        see_lookup(rt, port, clock, &mut node, &mut ArrayVec::new(), self)
    }
}

/// Lookups that no command makes: of few turns, and of a name of which no server is asked.
const LOOKUPS: &[Lookup] = &[
    Lookup {
        asks: "FRED",
        moments: &[0, 0, 10],
        given: &[(SERVER, NOT_FOUND)],
        patience: 15_000,
        most: 1,
        ending: Ending::Told,
        sent: &[(SERVER, QUERY)],
    },
    Lookup {
        asks: "FRED",
        moments: &[0, 0, 10],
        given: &[(SERVER, FOUND_BY_ANOTHER_ID), (SERVER, FOUND)],
        patience: 15_000,
        most: 1,
        ending: Ending::NoReply,
        sent: &[(SERVER, QUERY)],
    },
    Lookup {
        asks: "*",
        moments: &[0],
        given: &[],
        patience: 15_000,
        most: 1_000,
        ending: Ending::Refused(LookupFault::BadName),
        sent: &[],
    },
];

fn play_lookups<R: Abort + AllocGlobal + time::Clock>(rt: &R, rows: &[Lookup]) {
    for lookup in rows {
        play_on(rt, lookup.given, lookup.moments, lookup);
    }
}

#[test]
fn lookups(rt: HostRuntime) {
    play_lookups(&rt, LOOKUPS)
}

/// A question for all names, of which no server is asked.
struct ForAll;

impl Scene for ForAll {
    fn play<R: Abort + AllocGlobal + time::Clock>(
        &self,
        rt: &R,
        port: &mut MemoryPort,
        clock: &mut MemoryClock,
        _: &mut Server,
    ) {
        let mut text = String::from_str(rt.alloc(), "> ").expect(rt, "memory");
        expect(rt, port.failures() < 1 << 62);
        let question = question(rt, "*");
        let answer = ask(port, clock, OWN, 1, &question, 15_000, &mut text);
        expect_eq(rt, &answer, &Ok(Answer::NoReply));
        expect_eq(rt, &text.as_str(), &"> no reply\n");
        expect_eq(rt, &port.failures(), &0);
        sent_all(rt, port, &[]).expect(rt, "sent")
    }
}

/// An answer, and the status with which a command ends.
const STATUSES: [(Answer, u8); 3] = [
    (Answer::Found, 0),
    (Answer::NotFound, 1),
    (Answer::NoReply, 5),
];

#[test]
fn a_question_for_all_names_and_statuses_of_answers(rt: HostRuntime) {
    play_on(&rt, &[], &[0, 0], &ForAll);
    for (answer, status) in &STATUSES {
        expect_eq(&rt, &answer.status(), &*status);
    }
}

/// There is no way to port 0: the question ends at once, and it is said why.
#[test]
fn a_question_without_a_route_ends_at_once(rt: HostRuntime) {
    let own = Addr {
        ip: 0x7F2A1705,
        port: 0,
    };
    let question = Question::Holders(
        Addr { port: 0, ..SERVER },
        Name::new(b"FRED            ", b"").expect(&rt, "a name"),
    );
    let mut text = String::new(rt.alloc());
    let mut errors = Vec::new(rt.alloc());
    let answer = ask_here(&rt, own, &question, 15_000, &mut text, &mut errors);
    expect_eq(&rt, &answer, &Err(Fault::Device));
    expect_eq(&rt, &text.as_str(), &"");
    expect_eq(
        &rt,
        &errors.as_slice(),
        &b"nbt: 127.0.0.1:0: send: Invalid argument (os error 22)\n".as_slice(),
    );
}

/// A source of random octets that gives these, or none.
struct Octets(Option<[u8; 2]>);

impl RandomSource for Octets {
    fn fill_bytes(&self, buf: &mut [u8]) -> io::Result<()> {
        let none = io::Error::from(io::ErrorKind::Unsupported);
        if buf.len() != 2 {
            return Err(none);
        }
        match self.0 {
            Some(octets) => {
                buf[0] = octets[0];
                buf[1] = octets[1];
                Ok(())
            }
            None => Err(none),
        }
    }
}

/// An id is what the system's source gives, and without a source there is none, which is said.
#[test]
fn ids_are_those_of_the_source(rt: HostRuntime) {
    let mut errors = Vec::new(rt.alloc());
    let given = random_id(&Octets(Some([0xC0, 0xDE])), &mut errors);
    expect_eq(&rt, &given, &Ok(0xC0DE));
    expect(&rt, errors.is_empty());
    let refused = random_id(&Octets(None), &mut errors);
    expect_eq(&rt, &refused, &Err(Fault::NoPort));
    let said = b"nbt: the system gives no random id, without which replies could be forged: ";
    expect(&rt, errors.as_slice().starts_with(said));
}

/// Four lookups, whose requests come to a socket of this machine: not all have one id.
#[test]
fn lookups_have_ids_of_their_own(rt: HostRuntime) {
    let server = Addr {
        ip: 0x7F2A1706,
        port: 20_197,
    };
    let own = Addr {
        ip: 0x7F2A1707,
        port: 0,
    };
    let mut port = UdpPort::bind(&rt, server).expect(&rt, "bound");
    let question = Question::Holders(
        server,
        Name::new(b"FRED            ", b"").expect(&rt, "a name"),
    );
    let mut ids = Vec::new(rt.alloc());
    for _ in 0..4 {
        let mut text = String::new(rt.alloc());
        let answer = ask_here(&rt, own, &question, 1, &mut text, &mut io::sink());
        expect_eq(&rt, &answer, &Ok(Answer::NoReply));
        let mut octets: ArrayVec<u8, 2048> = ArrayVec::new();
        let came = port.receive(&mut octets).expect(&rt, "received");
        expect(&rt, came.is_some());
        match octets.as_slice() {
            [high, low, ..] => ids
                .push(u16::from_be_bytes([*high, *low]))
                .expect(&rt, "memory"),
            _ => expect(&rt, false),
        }
    }
    expect(&rt, ids.iter().any(|id| Some(id) != ids.first()));
}

#[test]
fn how_long_is_waited(rt: HostRuntime) {
    expect_eq(&rt, &patience_of(3, 5_000), &15_000);
    expect_eq(&rt, &patience_of(2, 1), &5_001);
    expect_eq(&rt, &patience_of(1, 250), &250);
}
