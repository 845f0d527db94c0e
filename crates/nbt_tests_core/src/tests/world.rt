//! Worlds in runs of events, and where memory is refused: a server at 127.0.0.1, nodes at 127.0.0.2 and 127.0.0.3, the life of a
//! datagram 1,000 ms, the longest lease 60 s.

use super::expect::{expect, expect_eq, expect_eq_in};
use Does::{Ask, Crash, Deliver, Join, NameStatus, Poll, Release, Resolve, Start, Stranger, Tick};
use nbt_name::{Addr, Kind, Name};
use nbt_testing::{REGISTRATION, config, octets, registration_of_many};
use nbt_world::Outcome::{self, Done, Lost, Nothing, Sent, Taken};
use nbt_world::{Event, OutOfMemory, World};
use std::process::Abort;

const SERVER: Addr = Addr {
    ip: 0x7F000001,
    port: 137,
};

const FIRST: Addr = Addr {
    ip: 0x7F000002,
    port: 137,
};

const SECOND: Addr = Addr {
    ip: 0x7F000003,
    port: 137,
};

const ENDS: [Addr; 3] = [SERVER, FIRST, SECOND];

/// An address that is no end's.
const STRANGER: Addr = Addr {
    ip: 0x0A000001,
    port: 137,
};

const FRED: &[u8; 16] = b"FRED            ";

const TEAM: &[u8; 16] = b"TEAM            ";

/// An event: a node asks for a name as unique, or asks to join it as a group, for 60 seconds; a stranger's octets are
/// words.
#[derive(Clone, Copy)]
enum Does {
    Tick(u64),
    Start(usize),
    Crash(usize),
    Ask(usize, &'static [u8; 16]),
    Join(usize, &'static [u8; 16]),
    Release(usize, &'static [u8; 16]),
    Resolve(usize, &'static [u8; 16]),
    NameStatus(usize, Addr, &'static [u8; 16]),
    Poll(usize),
    Deliver(usize),
    Stranger(Addr, usize, &'static str),
}

/// An event, and what comes of it.
type Row = (Does, Outcome);

fn world<R: Abort + AllocGlobal>(rt: &R) -> World {
    World::new(rt.alloc(), config(4096).expect(rt, "limits"), &ENDS).expect(rt, "a world")
}

fn asks(node: usize, name: Name, kind: Kind) -> Event {
    Event::Ask {
        node,
        name,
        kind,
        ttl: 60,
    }
}

/// The event, about this name if it is about one.
fn event_of<R: Abort + AllocGlobal>(rt: &R, does: Does, name: Name) -> Event {
    match does {
        Tick(ms) => Event::Tick(ms),
        Start(end) => Event::Start(end),
        Crash(end) => Event::Crash(end),
        Ask(node, _) => asks(node, name, Kind::Unique),
        Join(node, _) => asks(node, name, Kind::Group),
        Release(node, _) => Event::Release { node, name },
        Resolve(node, _) => Event::Resolve { node, name },
        NameStatus(node, to, _) => Event::NameStatus { node, to, name },
        Poll(node) => Event::Poll(node),
        Deliver(number) => Event::Deliver(number),
        Stranger(from, to, words) => {
            let octets = octets(rt, words).expect(rt, "octets");
            Event::Stranger { from, to, octets }
        }
    }
}

/// The octets of the name that an event is about, if it is about one.
fn name_in(does: Does) -> Option<&'static [u8; 16]> {
    match does {
        Ask(_, name)
        | Join(_, name)
        | Release(_, name)
        | Resolve(_, name)
        | NameStatus(_, _, name) => Some(name),
        _ => None,
    }
}

fn event<R: Abort + AllocGlobal>(rt: &R, does: Does) -> Event {
    let name = Name::new(name_in(does).unwrap_or(FRED), b"").expect(rt, "a name");
    event_of(rt, does, name)
}

/// No two ends hold the name, unless both as a group.
fn apart<R: Abort>(rt: &R, world: &World, name: &Name) {
    for i in 0..3 {
        for j in 0..3 {
            expect(rt, world.no_two_holders(i, j, name));
        }
    }
}

/// Each event in turn has this outcome, and after each no two ends hold FRED or TEAM, unless both as a group.
fn play<R: Abort + AllocGlobal>(rt: &R, what: &str, world: &mut World, rows: &[Row]) {
    let fred = Name::new(FRED, b"").expect(rt, "a name");
    let team = Name::new(TEAM, b"").expect(rt, "a name");
    for (number, (does, outcome)) in rows.iter().enumerate() {
        let event = event(rt, *does);
        let got = world.step(&event).expect(rt, "step");
        expect_eq_in(rt, &(what, number), &got, &*outcome);
        apart(rt, world, &fred);
        apart(rt, world, &team);
    }
}

/// These nodes hold the name.
fn holders(rt: &impl Abort, what: &str, world: &World, name: &[u8; 16], nodes: &[usize]) {
    let holders = world.holders(&Name::new(name, b"").expect(rt, "a name"));
    expect_eq_in(rt, &what, &holders.len(), &nodes.len());
    for (holder, node) in holders.as_slice().iter().zip(nodes) {
        expect_eq_in(rt, &what, &holder.node, &*node);
    }
}

/// Rows, and the nodes that hold FRED after them.
type Held = (&'static [Row], &'static [usize]);

const ASKED: [Row; 7] = [
    (Start(0), Done),
    (Start(1), Done),
    (Start(2), Done),
    (Tick(60_000), Done),
    (Ask(1, FRED), Sent(0)),
    (Deliver(0), Sent(1)),
    (Deliver(1), Taken),
];

/// What is polled 30 seconds after the last sending is the refresh; it goes there and back.
const RENEWED: [Row; 4] = [
    (Tick(30_000), Done),
    (Poll(1), Sent(2)),
    (Deliver(2), Sent(3)),
    (Deliver(3), Taken),
];

const RENEWED_AGAIN: [Row; 4] = [
    (Tick(30_000), Done),
    (Poll(1), Sent(4)),
    (Deliver(4), Sent(5)),
    (Deliver(5), Taken),
];

const RENEWED_ONCE_MORE: [Row; 4] = [
    (Tick(30_000), Done),
    (Poll(1), Sent(6)),
    (Deliver(6), Sent(7)),
    (Deliver(7), Taken),
];

/// The last refresh is of 150,000, and a hold for 60 seconds lasts 59,878 ms.
const ALMOST_OVER: [Row; 2] = [(Tick(59_877), Done), (Poll(2), Nothing)];

const OVER: [Row; 1] = [(Tick(1), Done)];

const RENEWING: [Held; 6] = [
    (&ASKED, &[1]),
    (&RENEWED, &[1]),
    (&RENEWED_AGAIN, &[1]),
    (&RENEWED_ONCE_MORE, &[1]),
    (&ALMOST_OVER, &[1]),
    (&OVER, &[]),
];

/// The events of the rows.
fn events<R: Abort + AllocGlobal>(rt: &R, rows: &[Row]) -> Vec<Event> {
    let mut events = Vec::new(rt.alloc());
    for (does, _) in rows {
        events.push(event(rt, *does)).expect(rt, "memory");
    }
    events
}

/// The events go on to their end in one run, and then these nodes hold FRED.
fn run_one<R: Abort + AllocGlobal>(rt: &R, world: &mut World, held: &Held) {
    let events = events(rt, held.0);
    expect_eq(rt, &world.run(events.as_slice()), &Ok(()));
    holders(rt, "in one run", world, FRED, held.1)
}

/// So do those of each part.
fn run_parts<R: Abort + AllocGlobal>(rt: &R, world: &mut World, parts: &[Held]) {
    for held in parts {
        run_one(rt, world, held);
    }
}

#[test]
fn a_run_in_which_a_node_renews_goes_on_to_its_end(rt: HostRuntime) {
    run_parts(&rt, &mut world(&rt), &RENEWING)
}

/// Of a server and the node at 127.0.0.3.
const UP: [Row; 3] = [(Start(0), Done), (Start(1), Done), (Tick(60_000), Done)];

/// A world without a node at 127.0.0.2, where a stranger is.
const BESIDE_A_STRANGER: [Addr; 2] = [SERVER, SECOND];

fn with_a_stranger<R: Abort + AllocGlobal>(rt: &R) -> World {
    World::new(
        rt.alloc(),
        config(4096).expect(rt, "limits"),
        &BESIDE_A_STRANGER,
    )
    .expect(rt, "a world")
}

/// Events of all kinds, over and over.
const ROUND: [Does; 18] = [
    Start(0),
    Start(1),
    Start(2),
    Tick(20_000),
    Ask(1, FRED),
    Ask(2, FRED),
    Join(1, TEAM),
    Join(2, TEAM),
    Tick(31_000),
    Poll(1),
    Poll(2),
    Resolve(2, FRED),
    NameStatus(2, FIRST, FRED),
    NameStatus(1, SECOND, TEAM),
    Stranger(STRANGER, 0, REGISTRATION),
    Deliver(0),
    Release(1, FRED),
    Crash(2),
];

/// An event happens, and after it the delivery of what it sent, and that of the reply; they are put into the list.
fn happen(rt: &impl Abort, world: &mut World, first: Event, events: &mut Vec<Event>) {
    let mut outcome = world.step(&first).expect(rt, "step");
    events.push(first).expect(rt, "memory");
    for _ in 0..2 {
        let Sent(number) = outcome else {
            return;
        };
        outcome = world.step(&Event::Deliver(number)).expect(rt, "step");
        events.push(Event::Deliver(number)).expect(rt, "memory");
    }
}

/// The same nodes hold the name in both worlds.
fn expect_same_holders(rt: &impl Abort, one: &World, other: &World, name: &[u8; 16]) {
    let name = Name::new(name, b"").expect(rt, "a name");
    let holders = other.holders(&name);
    expect_eq(rt, &one.holders(&name).as_slice(), &holders.as_slice());
}

/// The same comes of the event in both worlds.
fn expect_same_step(rt: &impl Abort, one: &mut World, other: &mut World, event: &Event) {
    let outcome = one.step(event).expect(rt, "step");
    expect_eq(rt, &outcome, &other.step(event).expect(rt, "step"));
}

/// Both worlds have the same holders, and the same comes of the delivery of each datagram, and of a request after them.
fn expect_same<R: Abort + AllocGlobal>(rt: &R, one: &mut World, other: &mut World) {
    expect_same_holders(rt, one, other, FRED);
    expect_same_holders(rt, one, other, TEAM);
    for number in 0..400 {
        expect_same_step(rt, one, other, &Event::Deliver(number));
    }
    expect_same_step(rt, one, other, &Event::Start(2));
    let lookup = event(rt, Resolve(2, FRED));
    expect_same_step(rt, one, other, &lookup)
}

/// Events of all kinds happen once, each after what came of the one before it. They are put into the list.
fn round<R: Abort + AllocGlobal>(rt: &R, world: &mut World, list: &mut Vec<Event>) {
    for does in &ROUND {
        happen(rt, world, event(rt, *does), list);
    }
}

/// Hundreds of events happen, one by one. They are put into the list.
fn rounds<R: Abort + AllocGlobal>(rt: &R, world: &mut World, list: &mut Vec<Event>) {
    for _ in 0..12 {
        round(rt, world, list);
    }
}

/// In one run of a new world the same comes of these events as in one where they happened one by one.
fn expect_same_run<R: Abort + AllocGlobal>(rt: &R, stepped: &mut World, events: &[Event]) {
    expect(rt, events.len() > 300);
    let mut run = world(rt);
    expect_eq(rt, &run.run(events), &Ok(()));
    expect_same(rt, &mut run, stepped)
}

/// In a world that is new the events happen one by one, and then in one run of another.
fn expect_same_in_a_run<R: Abort + AllocGlobal>(rt: &R, stepped: &mut World) {
    let mut list = Vec::new(rt.alloc());
    rounds(rt, stepped, &mut list);
    expect_same_run(rt, stepped, list.as_slice())
}

#[test]
fn a_run_of_hundreds_of_events_ends_where_they_do_one_by_one(rt: HostRuntime) {
    expect_same_in_a_run(&rt, &mut world(&rt))
}

/// The registrations of 4,096 names by the stranger at 127.0.0.2.
fn registrations<R: Abort + AllocGlobal>(rt: &R) -> Vec<Event> {
    let mut events = Vec::new(rt.alloc());
    for number in 0..4096 {
        let octets = registration_of_many(rt, number).expect(rt, "a registration");
        events
            .push(Event::Stranger {
                from: FIRST,
                to: 0,
                octets,
            })
            .expect(rt, "memory");
    }
    events
}

/// One by one each of these is replied to in one world. In a run they are too in another: the next datagram has the number of as
/// many.
fn expect_replies<R: Abort + AllocGlobal>(
    rt: &R,
    one: &mut World,
    other: &mut World,
    events: &[Event],
) {
    play(rt, "one by one", one, &UP);
    for (number, event) in events.iter().enumerate() {
        expect_eq(rt, &one.step(event).expect(rt, "step"), &Sent(number));
    }
    play(rt, "in a run", other, &UP);
    expect_eq(rt, &other.run(events), &Ok(()));
    play(rt, "after a run", other, &[(Resolve(1, FRED), Sent(4096))])
}

#[test]
fn nothing_lost_in_a_world(rt: HostRuntime) {
    let events = registrations(&rt);
    let mut one = with_a_stranger(&rt);
    let mut other = with_a_stranger(&rt);
    expect_replies(&rt, &mut one, &mut other, events.as_slice())
}

/// The events are taken, and the delivery of the grant: what is refused memory happens once more.
fn run_at_last<R: Abort>(rt: &R, world: &mut World, events: &[Event]) {
    if let Err((number, OutOfMemory)) = world.run(events) {
        expect(rt, number >= 3);
        expect(rt, number < events.len());
        world.run(&events[number..]).expect(rt, "run");
    }
    let first = world.step(&Event::Deliver(1));
    let taken = match first {
        Ok(outcome) => outcome,
        Err(_) => world.step(&Event::Deliver(1)).expect(rt, "step"),
    };
    expect_eq(rt, &taken, &Taken);
    holders(rt, "at last", world, FRED, &[1])
}

/// With memory all events are taken. `rt try --test --fail-alloc N` refuses the Nth allocation: one that the world
/// needed stops the run before its event, which is then taken once more; one that the server needed loses a datagram,
/// which comes again.
#[test]
fn refused_memory_stops_a_run_before_its_event_or_loses_a_datagram(rt: HostRuntime) {
    let ask = asks(1, Name::new(FRED, b"").expect(&rt, "a name"), Kind::Unique);
    let events = [
        Event::Start(0),
        Event::Start(1),
        Event::Tick(60_000),
        ask,
        Event::Deliver(0),
        Event::Deliver(0),
    ];
    run_at_last(&rt, &mut world(&rt), events.as_slice())
}

/// Each growth of a world: what is sent, and the leases of its server.
const EACH_GROWTH: [Row; 15] = [
    (Start(0), Done),
    (Start(1), Done),
    (Start(2), Done),
    (Tick(60_000), Done),
    (Ask(1, FRED), Sent(0)),
    (Deliver(0), Sent(1)),
    (Deliver(1), Taken),
    (Join(1, TEAM), Sent(2)),
    (Join(2, TEAM), Sent(3)),
    (Deliver(2), Sent(4)),
    (Deliver(3), Sent(5)),
    (Deliver(4), Taken),
    (Deliver(5), Taken),
    (Resolve(2, FRED), Sent(6)),
    (
        Stranger(
            STRANGER,
            0,
            "0001 2900 two-parts TEAM NB again NB 60s group 0a000001",
        ),
        Sent(7),
    ),
];

/// An event's outcome. Where memory was refused to the world, or to its server, which lost the datagram, the event happens
/// once more.
fn expect_at_last<R: Abort + AllocGlobal>(rt: &R, world: &mut World, does: Does, outcome: Outcome) {
    let happens = event(rt, does);
    let mut got = world.step(&happens);
    if got == Err(OutOfMemory) || got == Ok(Lost) {
        got = world.step(&happens);
    }
    expect_eq(rt, &got, &Ok(outcome));
}

/// Each event in turn has its outcome, some of them at the second time.
fn play_growing<R: Abort + AllocGlobal>(rt: &R, world: &mut World) {
    for (does, outcome) in &EACH_GROWTH {
        expect_at_last(rt, world, *does, *outcome);
    }
    holders(rt, "each growth", world, FRED, &[1]);
    holders(rt, "each growth", world, TEAM, &[1, 2])
}

/// `rt try --test --fail-alloc N` refuses the Nth allocation: where it is one of the world's, the same event has its
/// outcome when it happens again.
#[test]
fn refused_memory_at_each_growth_of_a_world(rt: HostRuntime) {
    play_growing(&rt, &mut world(&rt))
}
