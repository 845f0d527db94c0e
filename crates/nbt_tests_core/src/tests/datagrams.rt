//! Datagrams from outside: the packets of our profile over RFC 1002's layouts (section 4.4), FRED's and TEAM's.

use super::expect::{expect, expect_eq, expect_eq_in, expect_in};
use super::{at, fred, patched, team};
use arrayvec::ArrayVec;
use nbt_dgram::laws::{
    a_joiner_carries_the_fragments_of_each_key, a_packet_does_one_thing,
    a_slot_is_whole_where_its_fragments_make_up_data, fragments_make_up_one_whole,
    octets_mean_one_thing, one_datagram_or_fault, what_is_read_fits, written_form_is_read,
};
use nbt_dgram::{
    Accept, Body, Delivery, Dgram, DgramFault, DgramFaultKind, Dropped, Fragment, Fragments, Full,
    Joined, Joiner, Lookup, MsgType, Names, Part, Reassembly, TooLong, accept, decode, encode,
    split,
};
use nbt_lease::Config;
use nbt_name::{Addr, Kind, Name};
use nbt_node::{Event, Node};
use std::process::Abort;

/// Five octets from FRED at 127.0.0.2:138 to the group TEAM, with id 1.
const HELLO: &[u8] =
    b"\x11\x06\x00\x01\x7F\x00\x00\x02\x00\x8A\x00\x49\x00\x00 EGFCEFEECACACACACACACACACACACACA\x00 FEEFEBENCACACACACACACACACACACACA\x00hello";

/// The error packet that 127.0.0.3:138 returns where TEAM is not held there.
const NOT_PRESENT: &[u8] = b"\x13\x06\x00\x01\x7F\x00\x00\x03\x00\x8A\x82";

/// Four labels of at most 63 octets, 221 octets with their length octets.
const LONG_SCOPE: &[u8] =
    b"\x3Faaaaaaaaaaaaaaaaaaaaaaaaaaaaaaaaaaaaaaaaaaaaaaaaaaaaaaaaaaaaaaa\x3Faaaaaaaaaaaaaaaaaaaaaaaaaaaaaaaaaaaaaaaaaaaaaaaaaaaaaaaaaaaaaaa\x3Faaaaaaaaaaaaaaaaaaaaaaaaaaaaaaaaaaaaaaaaaaaaaaaaaaaaaaaaaaaaaaa\x1Caaaaaaaaaaaaaaaaaaaaaaaaaaaa";

const FIRST_END: Addr = Addr {
    ip: 0x7F000002,
    port: 138,
};

const SECOND_END: Addr = Addr {
    ip: 0x7F000003,
    port: 138,
};

/// The packets that these octets of data are split into, from one of two names to the other.
fn fragments<'a>(
    rt: &impl Abort,
    delivery: Delivery,
    source: &'a Name,
    destination: &'a Name,
    payload: &'a [u8],
) -> Fragments<'a> {
    split(
        delivery,
        1,
        FIRST_END,
        &source.lend(),
        &destination.lend(),
        payload,
    )
    .expect(rt, "split")
}

/// The octets of a packet.
fn octets_of(rt: &(impl Abort + AllocGlobal), packet: &Dgram<'_>) -> Vec<u8> {
    if !packet.fits() {
        panic!(rt; "a packet that doesn't fit");
    }
    let mut out = ArrayVec::new();
    encode(packet, &mut out).expect(rt, "encoded");
    Vec::from_slice(rt.alloc(), out.as_slice()).expect(rt, "memory")
}

/// The octets of the packets that data of 512 octets are split into.
fn written(rt: &(impl Abort + AllocGlobal), scope: &[u8]) -> Vec<Vec<u8>> {
    let payload = [7; 512];
    let (source, destination) = (fred(rt, scope), team(rt, scope));
    let packets = fragments(rt, Delivery::DirectGroup, &source, &destination, &payload);
    let mut all = Vec::new(rt.alloc());
    for packet in packets.as_slice() {
        all.push(octets_of(rt, packet)).expect(rt, "memory");
    }
    all
}

/// A fragment of a datagram to TEAM with this id.
fn piece<'a>(id: u16, part: Part<'a>, more: bool, payload: &'a [u8]) -> Dgram<'a> {
    Dgram {
        id,
        source: FIRST_END,
        body: Body::Fragment(Fragment {
            delivery: Delivery::DirectGroup,
            part,
            more,
            payload,
        }),
    }
}

#[test]
fn hello_is_read_and_written(rt: HostRuntime) {
    let (dgram, count) = decode(HELLO).expect(&rt, "decoded");
    expect_eq(&rt, &count, &87);
    expect_eq(&rt, &dgram.msg_type().number(), &0x11);
    expect_eq(&rt, &dgram.id, &1);
    expect_eq(&rt, &dgram.source, &FIRST_END);
    expect(&rt, dgram.has_data());
    expect(&rt, dgram.fits());
    let mut out = ArrayVec::new();
    encode(&dgram, &mut out).expect(&rt, "encoded");
    expect_eq(&rt, &out.as_slice(), &HELLO);
    let Body::Fragment(fragment) = dgram.body else {
        panic!(&rt; "no data");
    };
    expect_eq(&rt, &fragment.payload, &b"hello".as_slice());
    expect_eq(&rt, &fragment.part.offset(), &0);
    expect(&rt, !fragment.more);
    let Part::First(names) = fragment.part else {
        panic!(&rt; "no names");
    };
    expect(&rt, names.source.is(&fred(&rt, b"")));
    expect(&rt, names.copy().destination.is(&team(&rt, b"")));
}

/// The scope of two names; of the packets that data of 512 octets are split into the lengths, and of some octets, by
/// packet and place, what they are: flags, lengths and offsets.
type Splits = (&'static [u8], [usize; 2], &'static [(usize, usize, u8)]);

const SPLITS: &[Splits] = &[
    // Two names of 255 octets leave 52 octets in the first packet.
    (
        LONG_SCOPE,
        [576, 474],
        &[
            (0, 1, 0x07),
            (0, 10, 0x02),
            (0, 11, 0x32),
            (0, 12, 0x00),
            (0, 13, 0x00),
            (1, 1, 0x04),
            (1, 12, 0x00),
            (1, 13, 0x34),
        ],
    ),
    // Two names without a scope leave 494.
    (
        b"",
        [576, 32],
        &[(1, 10, 0x00), (1, 11, 0x12), (1, 12, 0x01), (1, 13, 0xEE)],
    ),
];

/// The packets are of these lengths, and have these octets at some places.
fn expect_split(
    rt: &impl Abort,
    packets: &[Vec<u8>],
    lengths: &[usize],
    octets: &[(usize, usize, u8)],
) {
    expect_eq(rt, &packets.len(), &2);
    for (packet, length) in packets.iter().zip(lengths) {
        expect_eq(rt, &packet.len(), &*length);
    }
    for (which, place, octet) in octets {
        let packet = packets.get(*which).expect(rt, "a packet");
        expect_eq_in(rt, &place, &packet.get(*place), &Some(octet));
    }
}

#[test]
fn data_of_512_octets_are_split(rt: HostRuntime) {
    for (scope, lengths, octets) in SPLITS {
        let packets = written(&rt, scope);
        expect_split(&rt, packets.as_slice(), lengths, octets);
    }
}

#[test]
fn more_than_512_octets_are_too_long(rt: HostRuntime) {
    let source = fred(&rt, b"");
    let destination = team(&rt, b"");
    let long = [7; 513];
    let delivery = Delivery::DirectUnique;
    let refused = split(
        delivery,
        1,
        FIRST_END,
        &source.lend(),
        &destination.lend(),
        &long,
    );
    expect(&rt, matches!(refused, Err(TooLong)));
    expect_eq(&rt, &TooLong.number(), &1);
    let packets = fragments(&rt, delivery, &source, &destination, b"hello");
    expect_eq(&rt, &packets.len(), &1);
}

/// What is done with a joiner of one slot, and what that leads to.
#[derive(Clone, Copy)]
enum Step {
    /// A packet of those that data of 512 octets are split into, with other octets at some places, is put at a moment.
    Put(usize, &'static [(usize, u8)], u64, Told),
    /// At moment 0 two octets at an offset are put, the last ones or not, of a datagram with an id.
    Piece(u16, u16, bool, Told),
    /// A sweep at a moment empties as many slots.
    Sweep(u64, usize),
}

/// What a joiner tells, in a word and a number: `whole` and the length of the data, `waiting`, or `dropped` and the reason's number.
type Told = (&'static str, usize);

const WAITING: Told = ("waiting", 0);

const TOO_LONG: Told = ("dropped", 1);

const CONFLICT: Told = ("dropped", 2);

const FULL: Told = ("dropped", 3);

const CLOCK_BACK: Told = ("dropped", 4);

fn outcome_of(joined: Joined<'_>) -> Told {
    match joined {
        Joined::Whole(_, payload) => ("whole", payload.len()),
        Joined::Waiting => WAITING,
        Joined::Dropped(why) => ("dropped", why.number() as usize),
    }
}

fn put<'a>(
    rt: &impl Abort,
    joiner: &mut Joiner<1>,
    ms: u64,
    dgram: &Dgram<'a>,
    room: &'a mut Reassembly,
) -> Told {
    if !dgram.has_data() {
        panic!(rt; "no data");
    }
    outcome_of(joiner.put(at(rt, ms), dgram, room))
}

const JOINS: &[(&str, &[u8], &[Step])] = &[
    (
        "fragments are joined in any order",
        LONG_SCOPE,
        &[
            Step::Put(1, &[], 100, WAITING),
            Step::Put(0, &[], 200, ("whole", 512)),
            Step::Put(0, &[], 300, WAITING),
            Step::Sweep(2300, 0),
            Step::Sweep(2301, 1),
            Step::Put(0, &[], 2300, CLOCK_BACK),
            Step::Sweep(2300, 0),
        ],
    ),
    (
        "fragments that disagree empty the slot",
        b"",
        &[
            Step::Put(1, &[], 100, WAITING),
            Step::Put(1, &[(14, 8)], 100, CONFLICT),
            Step::Put(0, &[], 100, WAITING),
            Step::Put(1, &[(14, 8), (3, 2)], 100, FULL),
        ],
    ),
    (
        "a gap stays a gap",
        b"",
        &[
            Step::Piece(1, 0, true, WAITING),
            Step::Piece(1, 4, false, WAITING),
            Step::Piece(1, 2, true, ("whole", 6)),
            Step::Piece(2, 511, true, TOO_LONG),
        ],
    ),
    (
        "a datagram is waited for 2,000 ms",
        b"",
        &[
            Step::Put(0, &[], 0, WAITING),
            Step::Put(1, &[], 2000, ("whole", 512)),
            Step::Put(0, &[], 3000, WAITING),
            Step::Put(1, &[], 5001, WAITING),
        ],
    ),
];

/// A packet is put with other octets at some places.
fn put_patched<R: Abort + AllocGlobal>(
    rt: &R,
    joiner: &mut Joiner<1>,
    packet: &[u8],
    patches: &[(usize, u8)],
    ms: u64,
) -> Told {
    let octets = patched(rt, packet, patches);
    let mut room = Reassembly::new();
    let (dgram, _) = decode(&octets).expect(rt, "decoded");
    put(rt, joiner, ms, &dgram, &mut room)
}

/// A step of those of a joiner.
fn join_step<R: Abort + AllocGlobal>(
    rt: &R,
    what: &str,
    joiner: &mut Joiner<1>,
    packets: &[Vec<u8>],
    step: &Step,
) {
    match *step {
        Step::Put(which, patches, ms, expected) => {
            let packet = packets.get(which).expect(rt, "a packet");
            let told = put_patched(rt, joiner, packet, patches, ms);
            expect_eq_in(rt, &what, &told, &expected);
        }
        Step::Piece(id, offset, more, expected) => {
            let (source, destination) = (fred(rt, b""), team(rt, b""));
            let mut room = Reassembly::new();
            let dgram = piece(id, part_at(offset, &source, &destination), more, b"ab");
            let told = put(rt, joiner, 0, &dgram, &mut room);
            expect_eq_in(rt, &what, &told, &expected);
        }
        Step::Sweep(ms, emptied) => {
            expect_eq_in(rt, &what, &joiner.sweep(at(rt, ms)), &emptied);
        }
    }
}

/// The steps, one after the other.
fn join_steps<R: Abort + AllocGlobal>(
    rt: &R,
    what: &str,
    joiner: &mut Joiner<1>,
    packets: &[Vec<u8>],
    steps: &[Step],
) {
    for step in steps {
        join_step(rt, what, joiner, packets, step);
    }
}

#[test]
fn fragments_are_joined(rt: HostRuntime) {
    one_datagram_or_fault();
    written_form_is_read();
    a_packet_does_one_thing();
    octets_mean_one_thing();
    what_is_read_fits();
    a_joiner_carries_the_fragments_of_each_key();
    fragments_make_up_one_whole();
    a_slot_is_whole_where_its_fragments_make_up_data();
    for (what, scope, steps) in JOINS {
        let packets = written(&rt, scope);
        join_steps(&rt, what, &mut Joiner::new(), packets.as_slice(), steps);
    }
}

/// The part at an offset: the first one has the names.
fn part_at<'a>(offset: u16, source: &'a Name, destination: &'a Name) -> Part<'a> {
    if offset > 0 {
        return Part::Later(offset);
    }
    Part::First(Names {
        source: source.lend(),
        destination: destination.lend(),
    })
}

/// What a datagram means for the node at 127.0.0.3: a word, and for an error its id and code.
type Means = (&'static str, u16, u8);

/// `hello` for TEAM.
const UP: Means = ("up", 0, 0);

/// The error packet for its sender.
const REPLY: Means = ("reply", 0, 0);

const WAITS: Means = ("waiting", 0, 0);

const NOTHING: Means = ("nothing", 0, 0);

fn meaning_of(rt: &impl Abort, accepted: Accept<'_>) -> Means {
    match accepted {
        Accept::Up(names, payload) => {
            if payload != b"hello".as_slice() || !names.destination.is(&team(rt, b"")) {
                panic!(rt; "something else is handed up");
            }
            UP
        }
        Accept::Reply(to) if to == FIRST_END => REPLY,
        Accept::Reply(_) => panic!(rt; "a reply to somebody else"),
        Accept::Error(id, code) => ("error", id, code),
        Accept::Waiting => WAITS,
        Accept::Nothing => NOTHING,
    }
}

/// The positive response to the registration of the group TEAM by 127.0.0.3, for 60 s.
const TEAM_GRANTED: &[u8] =
    b"\x00\x01\xAD\x80\x00\x00\x00\x01\x00\x00\x00\x00 FEEFEBENCACACACACACACACACACACACA\x00\x00\x20\x00\x01\x00\x00\x00\x3C\x00\x06\xA0\x00\x7F\x00\x00\x03";

/// The node is granted the group TEAM for 60 s at 60,000.
fn hold_team(rt: &impl Abort, node: &mut Node<1>, out: &mut ArrayVec<u8, 576>) {
    let team = team(rt, b"");
    node.ask(at(rt, 60_000), &team.lend(), Kind::Group, 60, out)
        .expect(rt, "ask");
    let heard = node.on_datagram(at(rt, 60_000), FIRST_END, TEAM_GRANTED, out);
    if !matches!(heard, Ok(Event::Granted(60))) {
        panic!(rt; "TEAM isn't granted");
    }
}

/// Whether TEAM was granted, the moment, who sent the datagram, its octets with others at some places, and what it means.
type Accepts = (
    bool,
    u64,
    Addr,
    &'static [u8],
    &'static [(usize, u8)],
    Means,
);

const ACCEPTS: &[Accepts] = &[
    (true, 60_000, SECOND_END, HELLO, &[], UP),
    (true, 120_000, SECOND_END, HELLO, &[], NOTHING),
    (false, 1, SECOND_END, HELLO, &[(0, 0x10)], REPLY),
    (false, 1, SECOND_END, HELLO, &[], NOTHING),
    (false, 1, SECOND_END, HELLO, &[(0, 0x12)], NOTHING),
    (false, 1, SECOND_END, HELLO, &[(0, 0x17)], NOTHING),
    (false, 1, FIRST_END, NOT_PRESENT, &[], ("error", 1, 0x82)),
    (false, 1, SECOND_END, HELLO, &[(1, 0x07)], WAITS),
];

/// What the octets mean for the node.
fn meaning(
    rt: &impl Abort,
    node: &Node<1>,
    joiner: &mut Joiner<1>,
    ms: u64,
    from: Addr,
    octets: &[u8],
    out: &mut ArrayVec<u8, 576>,
) -> Means {
    let mut room = Reassembly::new();
    let accepted = accept(joiner, at(rt, ms), node, from, octets, &mut room, out);
    meaning_of(rt, accepted)
}

/// The octets mean this for the node, and if it is a reply, the error packet is written.
fn expect_meaning(
    rt: &impl Abort,
    node: &Node<1>,
    row: &Accepts,
    octets: &[u8],
    out: &mut ArrayVec<u8, 576>,
) {
    let means = meaning(rt, node, &mut Joiner::new(), row.1, row.2, octets, out);
    expect_eq_in(rt, &octets, &means, &row.5);
    let is_reply = means.0 == "reply";
    let reply: &[u8] = if is_reply { NOT_PRESENT } else { b"" };
    expect_eq(rt, &out.as_slice(), &reply);
}

/// The datagram of a row comes to the node.
fn expect_row<R: Abort + AllocGlobal>(rt: &R, node: &Node<1>, row: &Accepts) {
    let octets = patched(rt, row.3, row.4);
    expect_meaning(rt, node, row, &octets, &mut ArrayVec::new())
}

#[test]
fn datagrams_are_for_names_that_are_held(rt: HostRuntime) {
    let config = Config::new(1000, 60, 4096).expect(&rt, "limits");
    let nobody: Node<1> = Node::start(SECOND_END, FIRST_END, config, at(&rt, 0));
    let mut holder: Node<1> = Node::start(SECOND_END, FIRST_END, config, at(&rt, 0));
    hold_team(&rt, &mut holder, &mut ArrayVec::new());
    for row in ACCEPTS {
        let node = if row.0 { &holder } else { &nobody };
        expect_row(&rt, node, row);
    }
}

/// Octets, with others at some places; the first fault, and its place.
type Fails = (&'static [u8], &'static [(usize, u8)], DgramFaultKind, usize);

const FAULTS: &[Fails] = &[
    (b"", &[], DgramFaultKind::Short, 0),
    (b"\x10", &[], DgramFaultKind::Short, 1),
    (b"\x17", &[], DgramFaultKind::BadType, 0),
    (
        b"\x10\x06\x00\x01\x7F\x00\x00\x02\x00\x8A\x00\x00\x00\x01",
        &[],
        DgramFaultKind::BadOffset,
        12,
    ),
    (
        b"\x10\x06\x00\x01\x7F\x00\x00\x02\x00\x8A\x00\x00\x00\x00",
        &[],
        DgramFaultKind::BadLength,
        10,
    ),
    (HELLO, &[(14, 0x21)], DgramFaultKind::BadLabel, 14),
    (HELLO, &[(49, 0x51)], DgramFaultKind::BadHalf, 49),
    (HELLO, &[(47, 0xC0)], DgramFaultKind::BadPointer, 47),
    (HELLO, &[(11, 0x43)], DgramFaultKind::BadLength, 10),
];

#[test]
fn faults_have_their_places(rt: HostRuntime) {
    for (octets, patches, kind, place) in FAULTS {
        let octets = patched(&rt, octets, patches);
        let fault = DgramFault {
            kind: *kind,
            place: *place,
        };
        expect_eq_in(&rt, &patches, &decode(&octets).err(), &Some(fault));
    }
    expect_eq(&rt, &DgramFaultKind::BadLength.number(), &8);
}

/// A query of TEAM, of FRED's end.
const QUERY: &[u8] =
    b"\x14\x06\x00\x01\x7F\x00\x00\x02\x00\x8A FEEFEBENCACACACACACACACACACACACA\x00";

/// A later fragment, without names.
const LATER: &[u8] = b"\x11\x04\x00\x01\x7F\x00\x00\x02\x00\x8A\x00\x05\x00\x09hello";

/// A datagram of each type, as octets with others at some places.
const WHOLE: &[(&[u8], &[(usize, u8)])] = &[
    (HELLO, &[(0, 0x10)]),
    (HELLO, &[]),
    (HELLO, &[(0, 0x12)]),
    (LATER, &[]),
    (NOT_PRESENT, &[]),
    (QUERY, &[]),
    (QUERY, &[(0, 0x15)]),
    (QUERY, &[(0, 0x16)]),
];

const WORDS: [(DgramFaultKind, u8, &str); 8] = [
    (DgramFaultKind::Short, 1, "Short"),
    (DgramFaultKind::BadLabel, 2, "BadLabel"),
    (DgramFaultKind::BadHalf, 3, "BadHalf"),
    (DgramFaultKind::BadPointer, 4, "BadPointer"),
    (DgramFaultKind::Long, 5, "Long"),
    (DgramFaultKind::BadType, 6, "BadType"),
    (DgramFaultKind::BadOffset, 7, "BadOffset"),
    (DgramFaultKind::BadLength, 8, "BadLength"),
];

#[test]
fn numbers_and_words_of_faults(rt: HostRuntime) {
    for (kind, number, word) in &WORDS {
        expect_eq(&rt, &kind.number(), &*number);
        expect_eq(&rt, &kind.word(), &*word);
        expect_eq(
            &rt,
            &DgramFaultKind::from_word(word.as_bytes()),
            &Some(*kind),
        );
    }
    for word in &["", "short", "Shorter", "TooMany", "BadName"] {
        expect_eq(&rt, &DgramFaultKind::from_word(word.as_bytes()), &None);
    }
}

/// Each datagram that is cut short has its fault at its end.
#[test]
fn datagrams_cut_at_every_length(rt: HostRuntime) {
    for (octets, patches) in WHOLE {
        let octets = patched(&rt, octets, patches);
        for place in 0..octets.len() {
            let short = DgramFault {
                kind: DgramFaultKind::Short,
                place,
            };
            expect_eq_in(&rt, &octets, &decode(&octets[..place]).err(), &Some(short));
        }
        expect_in(&rt, &octets, decode(&octets).is_ok());
    }
}

/// A fragment of `hello`, the last one or not.
fn fragment(delivery: Delivery, part: Part<'_>, more: bool) -> Body<'_> {
    Body::Fragment(Fragment {
        delivery,
        part,
        more,
        payload: b"hello",
    })
}

/// Fragments of this delivery, the first and a later one, are read back.
fn fragments_are_read_back(rt: &impl Abort, delivery: Delivery, more: bool) {
    let (source, destination) = (fred(rt, b""), team(rt, LONG_SCOPE));
    let first = fragment(delivery, part_at(0, &source, &destination), more);
    expect(rt, is_read_back(rt, first));
    let later = fragment(delivery, Part::Later(9), more);
    expect(rt, is_read_back(rt, later));
}

/// Every type of a packet with data, and whether more fragments come.
const DELIVERIES: [(Delivery, bool); 6] = [
    (Delivery::DirectUnique, false),
    (Delivery::DirectUnique, true),
    (Delivery::DirectGroup, false),
    (Delivery::DirectGroup, true),
    (Delivery::Broadcast, false),
    (Delivery::Broadcast, true),
];

const LOOKUPS: [Lookup; 3] = [Lookup::Request, Lookup::Positive, Lookup::Negative];

#[test]
fn every_type_is_read_back(rt: HostRuntime) {
    for (delivery, more) in &DELIVERIES {
        fragments_are_read_back(&rt, *delivery, *more);
    }
    let team = team(&rt, b"");
    for lookup in &LOOKUPS {
        let body = Body::Lookup(*lookup, team.lend());
        expect(&rt, is_read_back(&rt, body));
    }
    expect(&rt, is_read_back(&rt, Body::Error(0x84)));
}

/// Whether a datagram with this body is read as it was written, also with octets after it: what is read has the same written form.
fn is_read_back(rt: &impl Abort, body: Body<'_>) -> bool {
    let dgram = Dgram {
        id: 0x1234,
        source: SECOND_END,
        body,
    };
    if !dgram.fits() {
        panic!(rt; "a datagram that doesn't fit");
    }
    let mut out = ArrayVec::new();
    encode(&dgram, &mut out).expect(rt, "encoded");
    let count = out.len();
    out.try_push(0xFF).expect(rt, "memory");
    let (read, taken) = decode(out.as_slice()).expect(rt, "decoded");
    let mut again = ArrayVec::new();
    encode(&read, &mut again).expect(rt, "encoded");
    taken == count && again.as_slice() == &out.as_slice()[..count]
}

#[test]
fn a_datagram_of_more_than_576_octets_is_not_written(rt: HostRuntime) {
    let payload = [7; 563];
    let long = piece(1, Part::Later(0), false, &payload);
    let mut out = ArrayVec::new();
    out.push(1);
    expect(&rt, long.fits());
    expect_eq(&rt, &encode(&long, &mut out), &Err(Full));
    expect(&rt, out.is_empty());
    expect_eq(&rt, &Full.number(), &1);
    let just = piece(1, Part::Later(0), false, &payload[1..]);
    expect(&rt, just.fits());
    expect_eq(&rt, &encode(&just, &mut out), &Ok(()));
    expect_eq(&rt, &out.len(), &576);
}

#[test]
fn a_joiner_takes_1584_octets_a_slot(rt: HostRuntime) {
    expect_eq(&rt, &size_of::<Joiner<4>>(), &(8 + 4 * 1584));
    expect_eq(
        &rt,
        &MsgType::of(0x16).expect(&rt, "a type").number(),
        &0x16,
    );
    expect_eq(&rt, &MsgType::of(0x0F), &None);
    expect_eq(&rt, &Dropped::ClockBack.number(), &4);
}
