//! Calls of sessions: the end that calls, and the end that listens for a node that holds FRED until 119,878 (RFC 1002
//! section 5.2.1 and our profile).

use super::expect::{expect, expect_eq, expect_in};
use super::sessions::{SECOND, Said, packet};
use super::{FRED, STAR, TEAM, at, fred, name_of, team};
use arrayvec::ArrayVec;
use nbt_lease::Config;
use nbt_name::{Addr, Kind};
use nbt_node::Node;
use nbt_session::{
    Caller, CallerAnswer, Entry, Event, Failure, Full, Listener, ListenerAnswer, laws,
};
use std::process::Abort;

const FIRST: Addr = Addr {
    ip: 0x7F00_0002,
    port: 139,
};

const SERVER: Addr = Addr {
    ip: 0x7F00_0001,
    port: 137,
};

const SOMEBODY: &[u8; 16] = b"SOMEBODY        ";

/// The request that calls FRED, by TEAM.
const REQUEST: Said<'static> = Said::Request(FRED, TEAM);

/// What happens to a connection.
#[derive(Clone, Copy)]
enum Happens<'a> {
    Stands,
    IsLost,
    Brings(Said<'a>),
}

fn event<A: Abort + AllocGlobal>(rt: &A, happens: Happens<'_>) -> Event {
    match happens {
        Happens::Stands => Event::Connected,
        Happens::IsLost => Event::Lost,
        Happens::Brings(said) => Event::Packet(packet(rt, said)),
    }
}

/// What a caller of FRED by TEAM answers.
#[derive(Clone, Copy)]
enum Calls<'a> {
    Nothing,
    Connects(Addr),
    Sends(Said<'a>),
    Opens,
    HandsUp(&'a [u8]),
    Closes,
    Fails(Failure),
}

fn caller_answer<A: Abort + AllocGlobal>(rt: &A, calls: Calls<'_>) -> CallerAnswer {
    match calls {
        Calls::Nothing => CallerAnswer::Nothing,
        Calls::Connects(to) => CallerAnswer::Connect(to),
        Calls::Sends(said) => CallerAnswer::Send(packet(rt, said)),
        Calls::Opens => CallerAnswer::Open,
        Calls::HandsUp(octets) => CallerAnswer::Up(Vec::from_slice(rt.alloc(), octets).expect(
            rt, "memory",
        )),
        Calls::Closes => CallerAnswer::Closed,
        Calls::Fails(failure) => CallerAnswer::Fail(failure),
    }
}

/// What comes of a call that began with 127.0.0.2; what happens in turn to it, and what the caller answers.
type Call = (&'static str, &'static [(Happens<'static>, Calls<'static>)]);

const CALLS: &[Call] = &[
    (
        "it is retargeted, and opened",
        &[
            (Happens::Stands, Calls::Sends(REQUEST)),
            (Happens::Brings(Said::KeepAlive), Calls::Nothing),
            (
                Happens::Brings(Said::Retarget(SECOND)),
                Calls::Connects(SECOND),
            ),
            (Happens::Stands, Calls::Sends(REQUEST)),
            (Happens::Brings(Said::Positive), Calls::Opens),
            (
                Happens::Brings(Said::Message(b"hello")),
                Calls::HandsUp(b"hello"),
            ),
            (Happens::Brings(Said::KeepAlive), Calls::Nothing),
            (Happens::IsLost, Calls::Closes),
            (Happens::Stands, Calls::Nothing),
        ],
    ),
    (
        "a fourth retarget",
        &[
            (Happens::Stands, Calls::Sends(REQUEST)),
            (
                Happens::Brings(Said::Retarget(SECOND)),
                Calls::Connects(SECOND),
            ),
            (Happens::Stands, Calls::Sends(REQUEST)),
            (
                Happens::Brings(Said::Retarget(SECOND)),
                Calls::Connects(SECOND),
            ),
            (Happens::Stands, Calls::Sends(REQUEST)),
            (
                Happens::Brings(Said::Retarget(SECOND)),
                Calls::Connects(SECOND),
            ),
            (Happens::Stands, Calls::Sends(REQUEST)),
            (
                Happens::Brings(Said::Retarget(FIRST)),
                Calls::Fails(Failure::TooManyTries),
            ),
            (Happens::Stands, Calls::Nothing),
        ],
    ),
    (
        "it is lost four times",
        &[
            (Happens::IsLost, Calls::Connects(FIRST)),
            (Happens::IsLost, Calls::Connects(FIRST)),
            (Happens::IsLost, Calls::Connects(FIRST)),
            (Happens::IsLost, Calls::Fails(Failure::NoConnection)),
        ],
    ),
    (
        "it is refused",
        &[
            (Happens::Stands, Calls::Sends(REQUEST)),
            (
                Happens::Brings(Said::Negative(0x82)),
                Calls::Fails(Failure::Refused(0x82)),
            ),
        ],
    ),
    (
        "a message answers it",
        &[
            (Happens::Stands, Calls::Sends(REQUEST)),
            (
                Happens::Brings(Said::Message(b"hi")),
                Calls::Fails(Failure::Protocol),
            ),
        ],
    ),
    (
        "a request answers it",
        &[
            (Happens::Stands, Calls::Sends(REQUEST)),
            (Happens::Brings(REQUEST), Calls::Fails(Failure::Protocol)),
        ],
    ),
    (
        "a packet before the request",
        &[(
            Happens::Brings(Said::KeepAlive),
            Calls::Fails(Failure::Protocol),
        )],
    ),
    (
        "a request has no place in a session that is open",
        &[
            (Happens::Stands, Calls::Sends(REQUEST)),
            (Happens::Brings(Said::Positive), Calls::Opens),
            (Happens::Brings(REQUEST), Calls::Fails(Failure::Protocol)),
        ],
    ),
    (
        "a positive response has no place in a session that is open",
        &[
            (Happens::Stands, Calls::Sends(REQUEST)),
            (Happens::Brings(Said::Positive), Calls::Opens),
            (
                Happens::Brings(Said::Positive),
                Calls::Fails(Failure::Protocol),
            ),
        ],
    ),
];

/// Something happens to a call, and the caller answers it so.
fn expect_answer<A: AllocGlobal + Abort>(
    rt: &A,
    place: &(&str, usize),
    caller: &mut Caller,
    happens: Happens<'_>,
    calls: Calls<'_>,
) {
    let wanted = caller_answer(rt, calls);
    let answer = caller.on(event(rt, happens));
    expect_in(rt, place, answer == wanted);
}

#[test]
fn calls_and_what_comes_of_them(rt: HostRuntime) {
    laws::one_call_move();
    for (what, steps) in CALLS {
        let (mut caller, begun) = Caller::begin(fred(&rt, b""), team(&rt, b""), FIRST);
        expect(&rt, begun == CallerAnswer::Connect(FIRST));
        for (number, (happens, calls)) in steps.iter().enumerate() {
            expect_answer(&rt, &(*what, number), &mut caller, *happens, *calls);
        }
    }
}

const NUMBERS: [(Failure, u8); 4] = [
    (Failure::NoConnection, 1),
    (Failure::Refused(0x82), 2),
    (Failure::Protocol, 3),
    (Failure::TooManyTries, 4),
];

#[test]
fn numbers_of_failures(rt: HostRuntime) {
    for (failure, number) in &NUMBERS {
        expect_eq(&rt, &failure.number(), &*number);
    }
}

/// The positive response to the registration of FRED with id 1, by 127.0.0.2 for 60 seconds.
const REGISTERED: &[u8; 62] =
    b"\x00\x01\xAD\x80\x00\x00\x00\x01\x00\x00\x00\x00 EGFCEFEECACACACACACACACACACACACA\x00\x00\x20\x00\x01\x00\x00\x00\x3C\x00\x06\x20\x00\x7F\x00\x00\x02";

/// The node asks for FRED at 60,000, and holds it by a reply at 60,900.
fn hold(rt: &impl Abort, node: &mut Node<2>, out: &mut ArrayVec<u8, 576>) {
    let fred = fred(rt, b"");
    node.ask(at(rt, 60_000), &fred.lend(), Kind::Unique, 60, out)
        .expect(rt, "ask");
    node.on_datagram(at(rt, 60_900), SERVER, REGISTERED, out)
        .expect(rt, "a reply");
}

/// What a listener answers.
#[derive(Clone, Copy)]
enum Listens<'a> {
    Nothing,
    Takes,
    Refuses(u8),
    Retargets(Addr),
    Closes,
    HandsUp(&'a [u8]),
}

fn listener_answer<A: Abort + AllocGlobal>(rt: &A, listens: Listens<'_>) -> ListenerAnswer {
    match listens {
        Listens::Nothing => ListenerAnswer::Nothing,
        Listens::Takes => ListenerAnswer::Send(packet(rt, Said::Positive)),
        Listens::Refuses(code) => ListenerAnswer::SendAndClose(packet(rt, Said::Negative(code))),
        Listens::Retargets(to) => ListenerAnswer::SendAndClose(packet(rt, Said::Retarget(to))),
        Listens::Closes => ListenerAnswer::Close,
        Listens::HandsUp(octets) => ListenerAnswer::Up(Vec::from_slice(rt.alloc(), octets).expect(
            rt, "memory",
        )),
    }
}

/// What is done with a listener of four entries and two connections.
#[derive(Clone, Copy)]
enum Step<'a> {
    /// An entry for FRED: the one calling name or none, where the call is to be made instead, and whether there is room.
    Listen(Option<&'a [u8; 16]>, Option<Addr>, Result<(), Full>),
    /// The entries of a name are taken out.
    Unlisten(&'a [u8; 16]),
    /// At a moment something happens to a connection, and this is answered.
    On(u64, usize, Happens<'a>, Listens<'a>),
}

/// An entry for FRED.
fn entry(rt: &impl Abort, calling: Option<&[u8; 16]>, retarget: Option<Addr>) -> Entry {
    let calling = match calling {
        Some(octets) => Some(name_of(rt, octets)),
        None => None,
    };
    Entry {
        called: fred(rt, b""),
        calling,
        retarget,
    }
}

/// Whether a step goes so.
fn play<A: Abort + AllocGlobal>(
    rt: &A,
    node: &Node<2>,
    listener: &mut Listener<4, 2>,
    step: Step<'_>,
) -> bool {
    match step {
        Step::Listen(calling, retarget, wanted) => {
            let entry = entry(rt, calling, retarget);
            listener.listen(entry) == wanted
        }
        Step::Unlisten(octets) => {
            listener.unlisten(&name_of(rt, octets));
            true
        }
        Step::On(now, slot, happens, wanted) => {
            let now = at(rt, now);
            let wanted = listener_answer(rt, wanted);
            listener.on(now, node, slot.min(1), event(rt, happens)) == wanted
        }
    }
}

/// An entry of any caller.
const ANYBODY: Step<'static> = Step::Listen(None, None, Ok(()));

/// The two connections stand.
const FIRST_STANDS: Step<'static> = Step::On(70_000, 0, Happens::Stands, Listens::Nothing);

const SECOND_STANDS: Step<'static> = Step::On(70_000, 1, Happens::Stands, Listens::Nothing);

/// What is shown; how many connections may be open, and what is done in turn.
type Row = (&'static str, usize, &'static [Step<'static>]);

const LISTENERS: &[Row] = &[
    (
        "a call is taken while its name is held, and no call of `*`",
        2,
        &[
            ANYBODY,
            FIRST_STANDS,
            SECOND_STANDS,
            Step::On(119_877, 0, Happens::Brings(REQUEST), Listens::Takes),
            Step::On(119_878, 1, Happens::Brings(REQUEST), Listens::Refuses(0x82)),
            SECOND_STANDS,
            Step::On(
                70_000,
                1,
                Happens::Brings(Said::Request(STAR, TEAM)),
                Listens::Refuses(0x82),
            ),
        ],
    ),
    (
        "calls are refused in order: before the node's last moment, by an entry for another caller, by none, by one open",
        1,
        &[
            Step::Listen(Some(FRED), None, Ok(())),
            FIRST_STANDS,
            SECOND_STANDS,
            Step::On(60_000, 0, Happens::Brings(REQUEST), Listens::Refuses(0x82)),
            FIRST_STANDS,
            Step::On(70_000, 0, Happens::Brings(REQUEST), Listens::Refuses(0x81)),
            Step::Unlisten(FRED),
            FIRST_STANDS,
            Step::On(70_000, 0, Happens::Brings(REQUEST), Listens::Refuses(0x80)),
            ANYBODY,
            FIRST_STANDS,
            Step::On(70_000, 0, Happens::Brings(REQUEST), Listens::Takes),
            Step::On(70_000, 1, Happens::Brings(REQUEST), Listens::Refuses(0x83)),
        ],
    ),
    (
        "the first entry that takes the call; a retarget isn't looked for where one is open",
        1,
        &[
            Step::Listen(Some(FRED), None, Ok(())),
            Step::Listen(Some(TEAM), Some(SECOND), Ok(())),
            ANYBODY,
            FIRST_STANDS,
            SECOND_STANDS,
            Step::On(
                70_000,
                0,
                Happens::Brings(REQUEST),
                Listens::Retargets(SECOND),
            ),
            FIRST_STANDS,
            Step::On(
                70_000,
                0,
                Happens::Brings(Said::Request(FRED, SOMEBODY)),
                Listens::Takes,
            ),
            Step::On(70_000, 1, Happens::Brings(REQUEST), Listens::Refuses(0x83)),
        ],
    ),
    (
        "connections come and go: a message before the request, and no connection",
        2,
        &[
            ANYBODY,
            FIRST_STANDS,
            SECOND_STANDS,
            FIRST_STANDS,
            Step::On(
                70_000,
                0,
                Happens::Brings(Said::KeepAlive),
                Listens::Nothing,
            ),
            Step::On(
                70_000,
                0,
                Happens::Brings(Said::Message(b"hi")),
                Listens::Refuses(0x8F),
            ),
            Step::On(70_000, 0, Happens::Brings(REQUEST), Listens::Nothing),
            Step::On(70_000, 0, Happens::IsLost, Listens::Nothing),
            Step::On(70_000, 1, Happens::Brings(REQUEST), Listens::Takes),
            Step::On(
                70_000,
                1,
                Happens::Brings(Said::Message(b"hello")),
                Listens::HandsUp(b"hello"),
            ),
            Step::On(
                70_000,
                1,
                Happens::Brings(Said::KeepAlive),
                Listens::Nothing,
            ),
            Step::On(70_000, 1, Happens::Brings(Said::Positive), Listens::Closes),
        ],
    ),
    (
        "four entries are full",
        2,
        &[
            ANYBODY,
            ANYBODY,
            ANYBODY,
            ANYBODY,
            Step::Listen(None, None, Err(Full)),
            Step::Unlisten(TEAM),
            Step::Listen(None, None, Err(Full)),
            Step::Unlisten(FRED),
            ANYBODY,
            ANYBODY,
            ANYBODY,
            ANYBODY,
        ],
    ),
];

/// The steps of a row, with a new listener.
fn play_row<A: AllocGlobal + Abort>(rt: &A, node: &Node<2>, row: &Row) {
    let mut listener: Listener<4, 2> = Listener::new(row.1.min(2));
    for (number, step) in row.2.iter().enumerate() {
        let is_so = play(rt, node, &mut listener, *step);
        expect_in(rt, &(row.0, number), is_so);
    }
}

#[test]
fn listeners_and_what_they_answer(rt: HostRuntime) {
    laws::calls_go_to_held_names();
    laws::one_listener_move();
    laws::at_most_so_many_are_open();
    let config = Config::new(1000, 60, 4096).expect(&rt, "limits");
    let mut holder: Node<2> = Node::start(FIRST, SERVER, config, at(&rt, 0));
    hold(&rt, &mut holder, &mut ArrayVec::new());
    for row in LISTENERS {
        play_row(&rt, &holder, row);
    }
}
