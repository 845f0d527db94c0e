//! A name server that asks machines which addresses they have, by packets of nmbd 4.17 and of our own host (RFC 1002 sections 4.2.12,
//! 4.2.13 and 4.2.16, and our profile).

ghost use Rattle.std.specs.Prelude.{◌≤◌, ◌+◌};

use super::at;
use super::expect::{expect_eq_in, expect_in};
use arrayvec::ArrayVec;
use nbt_confirm::{
    Answer, Awaits, Came, FurtherAddresses, Machine, NAME_PORT, Outcome, Put, Request, Served,
    Silence, Taken, WAITS_MOST, Waits, asks_first, held_back, laws, outcome_of, request_of,
    wait_seconds, write_wait,
};
use nbt_lease::Moment;
use nbt_name::{Addr, Kind, Name};
use nbt_packet::{Message, read};
use nbt_server::Server;
use nbt_testing::{FIRST, QUERY, REFRESH, REGISTRATION, RIVAL, SECOND, octets, started};
use std::process::Abort;

const NODEM: &[u8; 16] = b"NODEM           ";

const ROAM: &[u8; 16] = b"ROAM            ";

const TWIN: &[u8; 16] = b"TWIN            ";

const FILER: &[u8; 16] = b"FILER           ";

const NODEB: &[u8; 16] = b"NODEB           ";

/// 198.18.137.2 to 198.18.137.5.
const TWO: u32 = 0xC612_8902;

const THREE: u32 = 0xC612_8903;

const FOUR: u32 = 0xC612_8904;

const FIVE: u32 = 0xC612_8905;

/// 172.17.0.1, the address of a bridge that nobody else reaches.
const BRIDGE: u32 = 0xAC11_0001;

/// A registration by OPCODE 15 for 240 s: the address that sends it, its id, its name, the address that it is for, and what it waits for of
/// which address.
type Asks = (u32, u16, &'static [u8; 16], u32, Awaits, u32);

/// What happens in turn, and what it gives. Octets are those of the wire.
#[derive(Clone, Copy)]
enum Step {
    Take(Asks, Taken),
    /// At this time the next inquiry begins, with this id: its query goes to this address.
    Begin(u64, u16, Option<u32>, &'static str),
    Repeat(u64, Option<u32>, &'static str),
    /// These octets come from this address and port, and are the answer of a machine of these addresses.
    Hear(u32, u16, &'static str, Option<&'static [u32]>),
    /// A request that waited for that machine is served: its id, and what is to be done.
    Serve(Option<(u16, Outcome)>),
    /// At this time an inquiry was never answered.
    GiveUp(u64, bool),
    ServeSilence(Option<(u16, Outcome)>),
    Wake(u64, Option<u16>),
    Due(Option<u64>),
    /// The request that was served last is told to wait at this time for a lease that ends then.
    Wait(u64, u64, &'static str),
}

const ASKS_NODEM: &str =
    "86900000 0001000000000000 20454f455045454546454e434143414341434143414341434143414341434143410000200001";

const NODEM_ANSWERS: &str =
    "86908580 0000000100000000 20454f455045454546454e4341434143414341434143414341434143414341434100002000010000003c000c 6000c6128904 6000c6128905";

const ASKS_TWIN: &str =
    "621b0000 0001000000000000 2046454648454a454f4341434143414341434143414341434143414341434143410000200001";

const TWIN_ANSWERS: &str =
    "621b8580 0000000100000000 2046454648454a454f434143414341434143414341434143414341434143414341000020000100000037000c 6000c6128904 6000c6128905";

const ASKS_ROAM: &str =
    "288d0000 0001000000000000 20464345504542454e4341434143414341434143414341434143414341434143410000200001";

const ASKS_THE_REQUESTER: &str =
    "44900000 0001000000000000 20464345504542454e4341434143414341434143414341434143414341434143410000200001";

const THE_REQUESTER_ANSWERS: &str =
    "44908580 0000000100000000 20464345504542454e4341434143414341434143414341434143414341434143410000200001000000f00006 6000c6128903";

const ROAM_WAITS: &str =
    "788fbc00 0000000100000000 20464345504542454e43414341434143414341434143414341434143414341434100002000010000003b0002 7900";

const ASKS_ROAM_AGAIN: &str =
    "ff500000 0001000000000000 20464345504542454e4341434143414341434143414341434143414341434143410000200001";

const ROAM_IS_NOT_THERE: &str =
    "ff508583 0000000100000000 20464345504542454e43414341434143414341434143414341434143414341434100000a0001000000000000";

const ASKS_FILER: &str =
    "40780000 0001000000000000 204547454a454d45464643434143414341434143414341434143414341434143410000200001";

const FILER_ANSWERS: &str =
    "40788500 0000000100000000 204547454a454d454646434341434143414341434143414341434143414341434100002000010000000000062000c6128902";

const ASKS_NODEB: &str =
    "78550000 0001000000000000 20454f4550454545464543434143414341434143414341434143414341434143410000200001";

const NODEB_ANSWERS: &str =
    "78558580 0000000100000000 20454f4550454545464543434143414341434143414341434143414341434143410000200001000000f0000c 6000c6128902 6000ac110001";

const SECOND_OF_NODEM: Asks = (FIVE, 0x7871, NODEM, FIVE, Awaits::Holder, FOUR);

const RIVAL_OF_ROAM: Asks = (THREE, 0x788F, ROAM, THREE, Awaits::Holder, TWO);

/// What is asked and answered, each beginning with nothing that waits.
const EXCHANGES: &[(&str, &[Step])] = &[
    (
        "another address of the holder's machine",
        &[
            Step::Take(SECOND_OF_NODEM, Taken::Waits),
            Step::Take(SECOND_OF_NODEM, Taken::Resent),
            Step::Due(None),
            Step::Begin(22, 0x8690, Some(FOUR), ASKS_NODEM),
            Step::Begin(22, 0x8691, None, "-"),
            Step::Due(Some(272)),
            Step::Hear(FOUR, 137, NODEM_ANSWERS, Some(&[FOUR, FIVE])),
            Step::Serve(Some((0x7871, Outcome::Further))),
            Step::Serve(None),
            Step::Hear(FOUR, 137, NODEM_ANSWERS, None),
        ],
    ),
    (
        "responses that are none to it",
        &[
            Step::Take(SECOND_OF_NODEM, Taken::Waits),
            Step::Hear(FOUR, 137, NODEM_ANSWERS, None),
            Step::Begin(22, 0x8690, Some(FOUR), ASKS_NODEM),
            Step::Hear(FIVE, 137, NODEM_ANSWERS, None),
            Step::Hear(FOUR, 138, NODEM_ANSWERS, None),
            Step::Hear(FOUR, 137, TWIN_ANSWERS, None),
            Step::Hear(FOUR, 137, ASKS_NODEM, None),
            Step::Repeat(271, None, "-"),
            Step::Repeat(272, Some(FOUR), ASKS_NODEM),
        ],
    ),
    (
        "another machine than the holder's",
        &[
            Step::Take(
                (THREE, 0x78BF, TWIN, THREE, Awaits::Holder, FOUR),
                Taken::Waits,
            ),
            Step::Begin(5_245, 0x621B, Some(FOUR), ASKS_TWIN),
            Step::Hear(FOUR, 137, TWIN_ANSWERS, Some(&[FOUR, FIVE])),
            Step::Serve(Some((0x78BF, Outcome::Refuse))),
        ],
    ),
    (
        "a holder that is silent, and a machine that has its name",
        &[
            Step::Take(RIVAL_OF_ROAM, Taken::Waits),
            Step::Begin(6_216, 0x288D, Some(TWO), ASKS_ROAM),
            Step::Repeat(6_466, Some(TWO), ASKS_ROAM),
            Step::Repeat(6_716, Some(TWO), ASKS_ROAM),
            Step::GiveUp(6_965, false),
            Step::GiveUp(6_966, true),
            Step::ServeSilence(Some((0x788F, Outcome::AskRequester))),
            Step::Take(
                (THREE, 0x788F, ROAM, THREE, Awaits::Requester, THREE),
                Taken::Waits,
            ),
            Step::Begin(6_966, 0x4490, Some(THREE), ASKS_THE_REQUESTER),
            Step::Hear(THREE, 137, THE_REQUESTER_ANSWERS, Some(&[THREE])),
            Step::Serve(Some((0x788F, Outcome::AwaitLeaseEnd))),
            Step::Wait(6_968, 60_014, ROAM_WAITS),
            Step::Take(
                (THREE, 0x788F, ROAM, THREE, Awaits::LeaseEnd(60_014), THREE),
                Taken::Waits,
            ),
            Step::Begin(6_968, 0x4491, None, "-"),
            Step::Due(Some(60_014)),
            Step::Wake(60_013, None),
            Step::Wake(60_014, Some(0x788F)),
            Step::Take(
                (THREE, 0x788F, ROAM, THREE, Awaits::AfterLease, THREE),
                Taken::Waits,
            ),
            Step::Begin(60_014, 0x4490, Some(THREE), ASKS_THE_REQUESTER),
            Step::Hear(THREE, 137, THE_REQUESTER_ANSWERS, Some(&[THREE])),
            Step::Serve(Some((0x788F, Outcome::Grant))),
        ],
    ),
    (
        "an address that is another machine's by now",
        &[
            Step::Take(
                (THREE, 0x791C, ROAM, THREE, Awaits::Holder, TWO),
                Taken::Waits,
            ),
            Step::Begin(9_847, 0xFF50, Some(TWO), ASKS_ROAM_AGAIN),
            Step::Hear(TWO, 137, ROAM_IS_NOT_THERE, None),
            Step::Repeat(10_097, Some(TWO), ASKS_ROAM_AGAIN),
        ],
    ),
    (
        "a host of ours, which lists itself alone",
        &[
            Step::Take(
                (THREE, 0x0100, FILER, THREE, Awaits::Holder, TWO),
                Taken::Waits,
            ),
            Step::Begin(2_391, 0x4078, Some(TWO), ASKS_FILER),
            Step::Hear(TWO, 137, FILER_ANSWERS, Some(&[TWO])),
            Step::Serve(Some((0x0100, Outcome::Refuse))),
        ],
    ),
    (
        "a machine behind a masquerade",
        &[
            Step::Take(
                (TWO, 0x7855, NODEB, BRIDGE, Awaits::Source, TWO),
                Taken::Waits,
            ),
            Step::Begin(9, 0x7855, Some(TWO), ASKS_NODEB),
            Step::Hear(TWO, 137, NODEB_ANSWERS, Some(&[TWO, BRIDGE])),
            Step::Serve(Some((0x7855, Outcome::GrantSource))),
        ],
    ),
];

/// What waits, and what the last steps left.
#[derive(Drop)]
struct Asking {
    waits: Waits,
    machine: Option<Machine>,
    silence: Option<Silence>,
    served: Option<Served>,
}

fn nothing_waits<R: Abort + AllocGlobal>(rt: &R) -> Asking {
    Asking {
        waits: Waits::new(rt.alloc()).expect(rt, "memory"),
        machine: None,
        silence: None,
        served: None,
    }
}

fn request_in(rt: &impl Abort, asks: Asks) -> Request {
    let (ip, id, name, addr, awaits, asked) = asks;
    Request {
        from: Addr {
            ip,
            port: NAME_PORT,
        },
        id,
        local: None,
        flags: 0x7900,
        name: Name::new(name, b"").expect(rt, "a name"),
        kind: Kind::Unique,
        addr,
        ttl: 240,
        awaits,
        asked,
    }
}

/// The octets are those of a row.
fn expect_octets<R: Abort + AllocGlobal>(rt: &R, out: &ArrayVec<u8, 576>, text: &str) {
    let wanted = octets(rt, text).expect(rt, "octets");
    expect_eq_in(rt, &text, &out.as_slice(), &wanted.as_slice());
}

/// What was served is a request of this id, with what is to be done.
fn expect_served(rt: &impl Abort, served: &Option<Served>, wanted: &Option<(u16, Outcome)>) {
    let got = served
        .as_ref()
        .map(|served| (served.request.id, served.outcome));
    expect_eq_in(rt, wanted, &got, wanted);
}

/// The moment at which a lease is told to wait, which ends no more than a minute later.
fn before(rt: &impl Abort, ms: u64, end: u64) -> Moment
    ensures { end ≤ result + 60000 }
{
    let now = at(rt, ms);
    expect_in(rt, &end, end <= now.get() + 60_000);
    now
}

impl Asking {
    /// Steps that write octets.
    fn write<R: Abort + AllocGlobal>(&mut self, rt: &R, step: Step) {
        let mut out = ArrayVec::new();
        match step {
            Step::Begin(now, id, to, text) => {
                let got = self.waits.begin(at(rt, now), id, &mut out);
                expect_eq_in(rt, &text, &got.map(|way| way.asked), &to);
                expect_octets(rt, &out, text);
            }
            Step::Repeat(now, to, text) => {
                let got = self.waits.repeat(at(rt, now), &mut out);
                expect_eq_in(rt, &text, &got.map(|way| way.asked), &to);
                expect_octets(rt, &out, text);
            }
            Step::Wait(now, end, text) => {
                let served = self.served.as_ref().expect(rt, "a request");
                let seconds = wait_seconds(before(rt, now, end), end);
                write_wait(&served.request, seconds, &mut out);
                expect_octets(rt, &out, text);
            }
            _ => {}
        }
    }

    /// Steps of what comes, and of what is served by it.
    fn hear<R: Abort + AllocGlobal>(&mut self, rt: &R, step: Step) {
        match step {
            Step::Hear(ip, port, text, wanted) => {
                let came = octets(rt, text).expect(rt, "octets");
                self.machine = self.waits.hear(Addr { ip, port }, came.as_slice());
                let got = self.machine.as_ref().map(|machine| machine.addrs());
                expect_eq_in(rt, &text, &got, &wanted);
            }
            Step::Serve(wanted) => {
                let machine = self.machine.as_ref().expect(rt, "a machine");
                self.served = self.waits.serve(machine);
                expect_served(rt, &self.served, &wanted);
            }
            _ => {}
        }
    }

    /// Steps of what comes of time.
    fn pass(&mut self, rt: &impl Abort, step: Step) {
        match step {
            Step::Take(asks, wanted) => {
                let taken = self.waits.take(request_in(rt, asks));
                expect_eq_in(rt, &asks.1, &taken, &wanted);
            }
            Step::GiveUp(now, is) => {
                self.silence = self.waits.give_up(at(rt, now));
                expect_eq_in(rt, &now, &self.silence.is_some(), &is);
            }
            Step::ServeSilence(wanted) => {
                let silence = self.silence.as_ref().expect(rt, "a silence");
                self.served = self.waits.serve_silence(silence);
                expect_served(rt, &self.served, &wanted);
            }
            Step::Wake(now, wanted) => {
                let woken = self.waits.wake(at(rt, now)).map(|request| request.id);
                expect_eq_in(rt, &now, &woken, &wanted);
            }
            Step::Due(wanted) => expect_eq_in(rt, &"due", &self.waits.next_due(), &wanted),
            _ => {}
        }
    }

    fn go<R: Abort + AllocGlobal>(&mut self, rt: &R, step: Step) {
        match step {
            Step::Begin(..) | Step::Repeat(..) | Step::Wait(..) => self.write(rt, step),
            Step::Hear(..) | Step::Serve(..) => self.hear(rt, step),
            _ => self.pass(rt, step),
        }
    }
}

fn play<R: Abort + AllocGlobal>(rt: &R, asking: &mut Asking, steps: &[Step]) {
    for step in steps {
        asking.go(rt, *step);
    }
}

#[test]
fn machines_that_are_asked(rt: HostRuntime) {
    for (about, steps) in EXCHANGES {
        expect_in(&rt, about, !steps.is_empty());
        play(&rt, &mut nothing_waits(&rt), steps);
    }
}

/// What becomes of a further address at this time: it is confirmed anew or refreshed until a time, while the holder's lease goes on until another;
/// it answers itself; it is there, and listed; and where it takes the lease over.
#[derive(Clone, Copy)]
enum Happens {
    Put(u64, u64, u64, Put),
    Refresh(u64, u64),
    Reach,
    Has(u64, bool),
    Listed(u64, bool),
    Counts(u64, usize),
    Next(u64, Option<u32>),
}

/// NODEM's second address, 198.18.137.5, beside its holder, 198.18.137.4.
const FURTHER: [Happens; 20] = [
    Happens::Reach,
    Happens::Has(0, false),
    Happens::Put(0, 60_000, 50_000, Put::Begun),
    Happens::Has(0, true),
    Happens::Listed(0, false),
    Happens::Reach,
    Happens::Has(49_999, true),
    Happens::Has(50_000, false),
    Happens::Listed(49_999, true),
    Happens::Listed(50_000, false),
    Happens::Counts(59_999, 1),
    Happens::Counts(60_000, 0),
    Happens::Put(40_000, 55_000, 90_000, Put::Renewed),
    Happens::Listed(59_999, true),
    Happens::Listed(60_000, false),
    Happens::Refresh(110_000, 100_000),
    Happens::Has(99_999, true),
    Happens::Listed(99_999, true),
    Happens::Next(109_999, Some(FIVE)),
    Happens::Next(109_999, None),
];

/// The machine that was asked at 198.18.137.4 lists that address and 198.18.137.5, of which the other one alone is a further one.
fn expect_further(rt: &impl Abort, machine: &Machine) {
    for (addr, is) in [(FIVE, true), (FOUR, false), (THREE, false)] {
        expect_eq_in(rt, &addr, &machine.further(addr).is_some(), &is);
    }
}

fn happen(rt: &impl Abort, further: &mut FurtherAddresses, machine: &Machine, happens: Happens) {
    let name = machine.name();
    match happens {
        Happens::Put(now, until, end, wanted) => {
            let confirmed = machine.further(FIVE).expect(rt, "a further address");
            let put = further.put(at(rt, now), &confirmed, until, end);
            expect_eq_in(rt, &now, &put, &wanted);
        }
        Happens::Refresh(until, end) => further.renew(name, FOUR, FIVE, until, end),
        Happens::Listed(now, is) => {
            let mut out = ArrayVec::new();
            further.list(at(rt, now), name, FOUR, &mut out);
            let wanted: &[u32] = if is { &[FIVE] } else { &[] };
            expect_eq_in(rt, &now, &out.as_slice(), &wanted);
        }
        Happens::Has(now, is) => {
            expect_eq_in(rt, &now, &further.has(at(rt, now), name, FOUR, FIVE), &is);
        }
        Happens::Reach => {
            further.reach(name, FIVE);
            let is = further.has(Moment::zero(), name, FOUR, FIVE);
            expect_eq_in(rt, &is, &further.is_reached(name, FIVE), &is);
        }
        Happens::Counts(now, rows) => {
            expect_eq_in(rt, &now, &further.count_of(at(rt, now), FIVE), &rows);
        }
        Happens::Next(now, wanted) => {
            let next = further.take_next(at(rt, now), name, FOUR);
            expect_eq_in(rt, &now, &next, &wanted);
        }
    }
}

#[test]
fn a_further_address_is_listed_as_long_as_its_holder(rt: HostRuntime) {
    let mut asking = nothing_waits(&rt);
    play(
        &rt,
        &mut asking,
        &[
            Step::Take(SECOND_OF_NODEM, Taken::Waits),
            Step::Begin(22, 0x8690, Some(FOUR), ASKS_NODEM),
            Step::Hear(FOUR, 137, NODEM_ANSWERS, Some(&[FOUR, FIVE])),
        ],
    );
    let machine = asking.machine.as_ref().expect(&rt, "a machine");
    let mut further = FurtherAddresses::new(rt.alloc()).expect(&rt, "memory");
    expect_further(&rt, machine);
    for happens in &FURTHER {
        happen(&rt, &mut further, machine, *happens);
    }
}

/// With `rt try --test --fail-alloc N` the Nth allocation is refused. Each of the two values says so, and has its memory the second time.
#[test]
fn refused_memory_at_the_start_of_an_inquiry(rt: HostRuntime) {
    if Waits::new(rt.alloc()).is_err() {
        expect_in(&rt, &"waits", Waits::new(rt.alloc()).is_ok());
    }
    if FurtherAddresses::new(rt.alloc()).is_err() {
        expect_in(&rt, &"further", FurtherAddresses::new(rt.alloc()).is_ok());
    }
}

#[test]
fn what_comes_of_answers(rt: HostRuntime) {
    laws::a_machine_answered();
    laws::a_node_of_ours_has_no_further_address();
    laws::what_an_answer_can_do();
    laws::few_requests_wait();
    laws::numbers();
    let outcome = outcome_of(Awaits::Requester, Answer::Silent);
    expect_eq_in(&rt, &"silent", &outcome, &Outcome::Refuse);
    expect_eq_in(&rt, &"waits", &WAITS_MOST, &256);
}

/// What a server is asked at 60,000 and later, by which address: which address's answer the request waits for, once the server refused it,
/// and, as one of OPCODE 15, what it would wait for before.
type Asked = (u32, &'static str, Option<u32>, Option<Awaits>);

const ASKED: [Asked; 11] = [
    (FIRST, REGISTRATION, None, Some(Awaits::Sender)),
    (SECOND, RIVAL, Some(FIRST), None),
    (FIRST, RIVAL, None, Some(Awaits::Source)),
    (FIRST, REFRESH, None, None),
    (SECOND, QUERY, None, None),
    (
        SECOND,
        "0001 2900 two-parts FRED NB again NB 60s group 127.0.0.3",
        None,
        None,
    ),
    (
        FIRST,
        "0002 2900 two-parts TEAM NB again NB 60s group 127.0.0.2",
        None,
        Some(Awaits::Sender),
    ),
    (
        FIRST,
        "0003 2900 two-parts TEAM NB again NB 60s group 127.0.0.2",
        None,
        None,
    ),
    (
        SECOND,
        "0004 2900 two-parts TEAM NB again NB 60s unique 127.0.0.3",
        None,
        None,
    ),
    (
        SECOND,
        "0005 2900 two-parts TEAM NB again NB 60s group 127.0.0.3",
        None,
        Some(Awaits::Sender),
    ),
    (
        SECOND,
        "0006 4000 two-parts FRED NB again NB 60s unique 127.0.0.3",
        Some(FIRST),
        None,
    ),
];

/// A request of OPCODE 15 from an endpoint.
fn came_from(from: Addr) -> Came {
    Came {
        from,
        local: None,
        flags: 0x7900,
    }
}

/// What the octets would wait for as a request of OPCODE 15.
fn first_of(rt: &impl Abort, server: &Server, from: Addr, came: &[u8]) -> Option<Awaits> {
    match read(came)? {
        Message::Registration(claim) | Message::Refresh(claim) => {
            let awaits = asks_first(server.table(), server.last(), from, &claim)?;
            let request = request_of(came_from(from), &claim, awaits, from.ip);
            expect_eq_in(rt, &awaits, &request.awaits, &awaits);
            Some(awaits)
        }
        _ => None,
    }
}

/// The server handles it, and the request waits so.
fn ask<R: Abort + AllocGlobal>(rt: &R, server: &mut Server, row: &Asked) {
    let (ip, text, wanted, first) = *row;
    let from = Addr {
        ip,
        port: NAME_PORT,
    };
    let came = octets(rt, text).expect(rt, "octets");
    expect_eq_in(
        rt,
        row,
        &first_of(rt, server, from, came.as_slice()),
        &first,
    );
    let mut out = ArrayVec::new();
    let now = server.last();
    let outcome = server
        .handle(now, from, came.as_slice(), &mut out)
        .ok()
        .expect(rt, "a reply");
    let request = held_back(
        server.table(),
        server.last(),
        came_from(from),
        came.as_slice(),
        &outcome,
    );
    let asked = request.as_ref().map(|request| request.asked);
    expect_eq_in(rt, row, &asked, &wanted);
    if let Some(request) = request {
        expect_in(
            rt,
            row,
            request.awaits == Awaits::Holder && request.addr == SECOND,
        );
        expect_in(
            rt,
            row,
            came.as_slice().starts_with(&request.id.to_be_bytes()),
        );
        expect_eq_in(rt, row, &request.flags, &0x7900);
    }
}

fn ask_all<R: Abort + AllocGlobal>(rt: &R, server: &mut Server) {
    let mut out = ArrayVec::new();
    let from = Addr {
        ip: FIRST,
        port: NAME_PORT,
    };
    expect_in(
        rt,
        &"later",
        server.handle(at(rt, 60_000), from, b"", &mut out).is_ok(),
    );
    for row in &ASKED {
        ask(rt, server, row);
    }
}

#[test]
fn a_server_says_whose_answer_a_request_waits_for(rt: HostRuntime) {
    ask_all(&rt, &mut started(&rt, 4096, 0).expect(&rt, "a server"));
}
