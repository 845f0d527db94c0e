//! A name server that asks, step by step: what it does with requests that wait, and where leases end, by packets of nmbd and of our own host
//! (RFC 1002 sections 4.2.2 to 4.2.6, 4.2.10 to 4.2.13 and 4.2.16, and our profile).

use super::at;
use super::expect::{expect_eq_in, expect_in};
use arrayvec::ArrayVec;
use nbt_confirm::{Came, NAME_PORT, held_back};
use nbt_name::{Addr, Name};
use nbt_server::{Outcome, Server};
use nbt_testing::{octets, started};
use nbt_waits::{
    Aside, AskTally, Asked, Asking, Reply, Settled, UNASKED, claim_in, is_aside, laws, write_claim,
};
use std::process::Abort;

const NODEB: &[u8; 16] = b"NODEB           ";

/// 198.18.137.2 and 198.18.137.3, two addresses of one machine, or of two.
const TWO: u32 = 0xC612_8902;

const THREE: u32 = 0xC612_8903;

/// 198.18.137.6, which asks for a name.
const SIX: u32 = 0xC612_8906;

/// The flags of a registration and of a refresh as nmbd sends them, by OPCODE 15 and 8, and of a response.
const MULTI_HOMED: u16 = 0x7900;

const REFRESH: u16 = 0x4000;

const RESPONSE: u16 = 0x8580;

/// What happens, and what it gives. Each step is at a time, in milliseconds; octets are those of port 137 of an address.
#[derive(Clone, Copy, Debug)]
enum Step {
    /// The server is asked. What comes of the request, if it waits, or is answered in the server's place.
    Asks(u32, &'static str, Option<Asked>),
    /// The next inquiry begins, with this id, and goes to this address.
    Begins(u16, u32),
    /// An address answers. What comes of the first request that waited for it, and what leaves, also to another address.
    Answers(u32, &'static str, Asked, &'static str, Option<u32>),
    /// Nobody answers the second query, which goes out now, nor the third. What comes of the first request that waited, 500 ms later.
    NobodyAnswers(Asked),
    /// A request waited for a lease's end.
    Wakes(Option<Asked>),
    /// A further address follows its holder's lease.
    Follows(bool),
    /// This holder has the name no more.
    Passes(u32, Option<Asked>),
    /// The first request that the server may grant comes to it, as these octets with these flags, and is granted.
    IsGranted(u16, &'static str),
    /// The server replies to an address. What leaves.
    Replies(u32, &'static str, Reply, &'static str),
    /// A datagram came with these flags, and was set aside. What comes of it, if it waits.
    Looks(u32, u16, &'static str, Option<Asked>),
}

const TWO_REGISTERS: &str = "7868 2900 two-parts NODEB NB again NB 60s H-unique 198.18.137.2";

const THREE_REGISTERS: &str = "7871 2900 two-parts NODEB NB again NB 60s H-unique 198.18.137.3";

const TWO_ASKED: &str = "0002 8580 reply NODEB NB 60s 000c 6000 198.18.137.2 6000 198.18.137.3";

const THREE_ASKED: &str = "0003 8580 reply NODEB NB 60s 000c 6000 198.18.137.3 6000 198.18.137.2";

const TWO_ALONE: &str = "0002 8580 reply NODEB NB 60s unique 198.18.137.2";

const THREE_ALONE: &str = "0003 8580 reply NODEB NB 60s H-unique 198.18.137.3";

const THREE_IS_CONFIRMED: &str = "7871 ad80 reply NODEB NB 60s unique 198.18.137.3";

const FOUND: &str = "05e5 8580 reply NODEB NB 60s unique 198.18.137.2";

const FOUND_BOTH: &str = "05e5 8580 reply NODEB NB 60s 000c 2000 198.18.137.2 2000 198.18.137.3";

/// The second address of a machine, up to the moment at which it is listed.
const IS_LISTED: &[(u64, Step)] = &[
    (60_000, Step::Asks(TWO, TWO_REGISTERS, None)),
    (
        60_003,
        Step::Asks(THREE, THREE_REGISTERS, Some(Asked::Waits(TWO))),
    ),
    (60_003, Step::Begins(2, TWO)),
    (
        60_004,
        Step::Answers(
            TWO,
            TWO_ASKED,
            Asked::Confirmed(60),
            THREE_IS_CONFIRMED,
            Some(TWO),
        ),
    ),
    (60_005, Step::Replies(SIX, FOUND, Reply::AsItIs, "-")),
    (60_005, Step::Begins(3, THREE)),
    (
        60_006,
        Step::Answers(THREE, THREE_ASKED, Asked::Reached, "-", None),
    ),
    (
        60_007,
        Step::Replies(SIX, FOUND, Reply::Changed, FOUND_BOTH),
    ),
];

/// What happens to it then, each after the steps before.
const LISTED: &[(&str, &[(u64, Step)])] = &[
    (
        "it is refreshed, and released",
        &[
            (
                90_000,
                Step::Asks(THREE, THREE_REGISTERS, Some(Asked::Confirmed(30))),
            ),
            (
                90_001,
                Step::Replies(
                    THREE,
                    "7875 b406 reply NODEB NB 0s unique 198.18.137.3",
                    Reply::Changed,
                    "7875 b400 reply NODEB NB 0s unique 198.18.137.3",
                ),
            ),
            (90_002, Step::Replies(SIX, FOUND, Reply::AsItIs, "-")),
        ],
    ),
    (
        "its holder's lease ends, and it takes it over",
        &[
            (
                119_999,
                Step::Asks(THREE, THREE_REGISTERS, Some(Asked::Confirmed(1))),
            ),
            (119_999, Step::Follows(false)),
            (120_000, Step::Follows(true)),
            (
                120_000,
                Step::IsGranted(
                    UNASKED,
                    "0000 2900 two-parts NODEB NB again NB 60s unique 198.18.137.3",
                ),
            ),
        ],
    ),
    (
        "its holder's lease is renewed",
        &[
            (
                90_000,
                Step::Asks(THREE, THREE_REGISTERS, Some(Asked::Confirmed(30))),
            ),
            (110_000, Step::Asks(TWO, TWO_REGISTERS, None)),
            (120_000, Step::Replies(SIX, FOUND, Reply::AsItIs, "-")),
            (120_000, Step::Follows(true)),
            (
                120_000,
                Step::Replies(SIX, FOUND, Reply::Changed, FOUND_BOTH),
            ),
        ],
    ),
    (
        "its holder releases the name",
        &[
            (60_010, Step::Passes(TWO, Some(Asked::Granted))),
            (60_010, Step::Passes(TWO, None)),
        ],
    ),
];

/// What else happens to a request that was refused, each beginning with nothing that waits.
const OTHERS: &[(&str, &[(u64, Step)])] = &[
    (
        "another machine than the holder's",
        &[
            (60_000, Step::Asks(TWO, TWO_REGISTERS, None)),
            (
                60_003,
                Step::Asks(THREE, THREE_REGISTERS, Some(Asked::Waits(TWO))),
            ),
            (60_003, Step::Asks(THREE, THREE_REGISTERS, None)),
            (60_003, Step::Begins(2, TWO)),
            (
                60_004,
                Step::Answers(
                    TWO,
                    TWO_ALONE,
                    Asked::Refused(TWO),
                    "7871 ad86 reply NODEB NB 0s unique 198.18.137.3",
                    None,
                ),
            ),
            (
                60_005,
                Step::Replies(
                    THREE,
                    "7871 ad86 reply NODEB NB 0s unique 198.18.137.3",
                    Reply::HeldBack,
                    "-",
                ),
            ),
        ],
    ),
    (
        "a holder that is silent, and a machine that has its name",
        &[
            (60_000, Step::Asks(TWO, TWO_REGISTERS, None)),
            (
                66_000,
                Step::Asks(THREE, THREE_REGISTERS, Some(Asked::Waits(TWO))),
            ),
            (66_000, Step::Begins(2, TWO)),
            (66_250, Step::NobodyAnswers(Asked::Waits(THREE))),
            (66_750, Step::Begins(3, THREE)),
            (
                66_752,
                Step::Answers(
                    THREE,
                    THREE_ALONE,
                    Asked::Told(59),
                    "7871 bc00 reply NODEB NB 0000003b 0002 7900",
                    None,
                ),
            ),
            (119_999, Step::Wakes(None)),
            (120_000, Step::Wakes(Some(Asked::Waits(THREE)))),
            (120_000, Step::Begins(3, THREE)),
            (
                120_001,
                Step::Answers(THREE, THREE_ALONE, Asked::Granted, "-", None),
            ),
            (
                120_001,
                Step::IsGranted(
                    MULTI_HOMED,
                    "7871 2900 two-parts NODEB NB again NB 60s unique 198.18.137.3",
                ),
            ),
        ],
    ),
    (
        "a requester that is silent too",
        &[
            (60_000, Step::Asks(TWO, TWO_REGISTERS, None)),
            (
                66_000,
                Step::Asks(THREE, THREE_REGISTERS, Some(Asked::Waits(TWO))),
            ),
            (66_000, Step::Begins(2, TWO)),
            (66_250, Step::NobodyAnswers(Asked::Waits(THREE))),
            (66_750, Step::Begins(3, THREE)),
            (67_000, Step::NobodyAnswers(Asked::Refused(TWO))),
        ],
    ),
    (
        "a request of OPCODE 15, whose sender is asked first",
        &[
            (
                60_000,
                Step::Looks(TWO, MULTI_HOMED, TWO_REGISTERS, Some(Asked::Waits(TWO))),
            ),
            (60_000, Step::Begins(2, TWO)),
            (
                60_001,
                Step::Answers(TWO, TWO_ALONE, Asked::Granted, "-", None),
            ),
            (
                60_001,
                Step::IsGranted(
                    MULTI_HOMED,
                    "7868 2900 two-parts NODEB NB again NB 60s unique 198.18.137.2",
                ),
            ),
            (60_002, Step::Looks(TWO, MULTI_HOMED, TWO_REGISTERS, None)),
        ],
    ),
    (
        "an address behind a masquerade, which its sender doesn't have",
        &[
            (
                60_000,
                Step::Looks(TWO, MULTI_HOMED, THREE_REGISTERS, Some(Asked::Waits(TWO))),
            ),
            (60_000, Step::Begins(2, TWO)),
            (
                60_001,
                Step::Answers(
                    TWO,
                    TWO_ALONE,
                    Asked::NotOwn,
                    "7871 ad85 reply NODEB NB 0s unique 198.18.137.3",
                    None,
                ),
            ),
        ],
    ),
];

/// A server, and what it has beside its leases.
#[derive(Drop)]
struct Site {
    server: Server,
    asking: Asking,
    out: ArrayVec<u8, 576>,
}

fn nothing_waits<R: Abort + AllocGlobal>(rt: &R) -> Site {
    Site {
        server: started(rt, 4096, 0).expect(rt, "a server"),
        asking: Asking::new(rt.alloc(), 64).expect(rt, "memory"),
        out: ArrayVec::new(),
    }
}

fn from(ip: u32) -> Addr {
    Addr {
        ip,
        port: NAME_PORT,
    }
}

fn came(ip: u32, flags: u16) -> Came {
    Came {
        from: from(ip),
        local: None,
        flags,
    }
}

/// What was noted is this.
fn expect_noted(rt: &impl Abort, step: Step, settled: &Settled, wanted: Option<Asked>) {
    let got = settled.note.as_ref().map(|note| note.asked);
    expect_eq_in(rt, &step, &got, &wanted);
}

impl Site {
    /// The server's time is this.
    fn pass(&mut self, rt: &impl Abort, ms: u64) {
        let done = self.server.handle(at(rt, ms), from(0), b"", &mut self.out);
        expect_in(rt, &ms, done.is_ok());
    }

    /// The octets that were left are these.
    fn expect_left<R: Abort + AllocGlobal>(&self, rt: &R, step: Step, text: &str) {
        let wanted = octets(rt, text).expect(rt, "octets");
        expect_eq_in(rt, &step, &self.out.as_slice(), &wanted.as_slice());
    }

    /// The server handles octets, and a request that it refused is held back.
    fn ask(&mut self, rt: &impl Abort, step: Step, ip: u32, octets: &[u8], wanted: Option<Asked>) {
        let now = self.server.last();
        let outcome = self
            .server
            .handle(now, from(ip), octets, &mut self.out)
            .ok()
            .expect(rt, "a reply");
        let now = self.server.last();
        let held = held_back(
            self.server.table(),
            now,
            came(ip, MULTI_HOMED),
            octets,
            &outcome,
        );
        let Some(request) = held else {
            expect_in(rt, &step, wanted.is_none());
            return;
        };
        let settled = self
            .asking
            .hold_back(self.server.table(), now, request, &mut self.out);
        expect_noted(rt, step, &settled, wanted);
    }

    fn begin(&mut self, rt: &impl Abort, step: Step, id: u16, asked: u32) {
        expect_in(rt, &step, self.asking.wants_id());
        let now = self.server.last();
        let way = self.asking.waits.begin(now, id, &mut self.out);
        expect_eq_in(rt, &step, &way.map(|way| way.asked), &Some(asked));
    }

    /// An address answers, and serves one request.
    fn answer(&mut self, rt: &impl Abort, step: Step, ip: u32, octets: &[u8]) -> Settled {
        let machine = self.asking.waits.hear(from(ip), octets);
        let machine = machine.expect(rt, "a machine");
        let now = self.server.last();
        self.out.clear();
        let table = self.server.table();
        let settled = self.asking.serve(table, now, &machine, &mut self.out);
        let none = self
            .asking
            .serve(table, now, &machine, &mut ArrayVec::new());
        expect_in(rt, &step, none.is_none());
        settled.expect(rt, "a request that waited")
    }

    /// Nobody answers in time.
    fn give_up(&mut self, rt: &impl Abort, step: Step) -> Settled {
        for gap in 0..2 {
            let now = self.server.last();
            let way = self.asking.waits.repeat(now, &mut self.out);
            expect_in(rt, &gap, way.is_some());
            self.pass(rt, now.get().saturating_add(250));
        }
        let end = self.server.last();
        let silence = self.asking.waits.give_up(end).expect(rt, "silence");
        let table = self.server.table();
        let settled = self
            .asking
            .serve_silence(table, end, &silence, &mut self.out);
        expect_in(rt, &step, settled.is_some());
        settled.expect(rt, "a request that waited")
    }

    /// The first request that the server may grant comes to it.
    fn grant<R: Abort + AllocGlobal>(&mut self, rt: &R, step: Step, flags: u16, text: &str) {
        let request = self.asking.granted.take().expect(rt, "a request");
        expect_eq_in(rt, &step, &request.flags, &flags);
        let mut claim = ArrayVec::new();
        write_claim(&request, &mut claim);
        let wanted = octets(rt, text).expect(rt, "octets");
        expect_eq_in(rt, &step, &claim.as_slice(), &wanted.as_slice());
        let now = self.server.last();
        let outcome = self
            .server
            .handle(now, request.from, claim.as_slice(), &mut self.out)
            .ok()
            .expect(rt, "a reply");
        expect_in(rt, &step, matches!(outcome, Outcome::Granted(..)));
    }

    /// What is done where a lease ends.
    fn end(&mut self, rt: &impl Abort, step: Step) {
        let now = self.server.last();
        let table = self.server.table();
        match step {
            Step::Wakes(wanted) => match self.asking.wake(table, now) {
                Some(settled) => expect_noted(rt, step, &settled, wanted),
                None => expect_in(rt, &step, wanted.is_none()),
            },
            Step::Follows(is) => {
                let followed = self.asking.follow_lease(table, now);
                expect_eq_in(rt, &step, &followed.is_some(), &is);
            }
            Step::Passes(holder, wanted) => {
                let name = Name::new(NODEB, b"").expect(rt, "a name");
                let settled = self.asking.pass_on(now, &name, holder);
                expect_noted(rt, step, &settled, wanted);
            }
            _ => {}
        }
    }

    /// What was set aside is looked at.
    fn look(
        &mut self,
        rt: &impl Abort,
        step: Step,
        came: Came,
        octets: &[u8],
        wanted: Option<Asked>,
    ) {
        let now = self.server.last();
        match self.asking.look(self.server.table(), now, came, octets) {
            Some(settled) => expect_noted(rt, step, &settled, wanted),
            None => expect_in(rt, &step, wanted.is_none()),
        }
    }

    /// The server's reply leaves so.
    fn reply<R: Abort + AllocGlobal>(
        &mut self,
        rt: &R,
        step: Step,
        ip: u32,
        reply: &[u8],
        wanted: Reply,
    ) {
        let now = self.server.last();
        let left = self.asking.reply(now, ip, reply, &mut self.out);
        expect_eq_in(rt, &step, &left, &wanted);
    }

    fn go<R: Abort + AllocGlobal>(&mut self, rt: &R, step: Step) {
        match step {
            Step::Asks(ip, text, wanted) => {
                let octets = octets(rt, text).expect(rt, "octets");
                self.ask(rt, step, ip, octets.as_slice(), wanted);
            }
            Step::Begins(id, asked) => self.begin(rt, step, id, asked),
            Step::Answers(ip, text, asked, left, also) => {
                let octets = octets(rt, text).expect(rt, "octets");
                let settled = self.answer(rt, step, ip, octets.as_slice());
                expect_noted(rt, step, &settled, Some(asked));
                self.expect_left(rt, step, left);
                let way = settled.leaving.and_then(|leaving| leaving.also);
                expect_eq_in(rt, &step, &way.map(|way| way.asked), &also);
            }
            Step::NobodyAnswers(asked) => {
                let settled = self.give_up(rt, step);
                expect_noted(rt, step, &settled, Some(asked));
            }
            Step::IsGranted(flags, text) => self.grant(rt, step, flags, text),
            Step::Replies(ip, text, reply, left) => {
                let octets = octets(rt, text).expect(rt, "octets");
                self.out.clear();
                self.reply(rt, step, ip, octets.as_slice(), reply);
                self.expect_left(rt, step, left);
            }
            Step::Looks(ip, flags, text, wanted) => {
                let octets = octets(rt, text).expect(rt, "octets");
                self.look(rt, step, came(ip, flags), octets.as_slice(), wanted);
            }
            Step::Wakes(_) | Step::Follows(_) | Step::Passes(..) => self.end(rt, step),
        }
    }
}

fn play<R: Abort + AllocGlobal>(rt: &R, site: &mut Site, steps: &[(u64, Step)]) {
    for (ms, step) in steps {
        site.pass(rt, *ms);
        site.go(rt, *step);
    }
}

#[test]
fn a_further_address_of_a_machine(rt: HostRuntime) {
    for (about, steps) in LISTED {
        let mut site = nothing_waits(&rt);
        expect_in(&rt, about, !steps.is_empty() && site.asking.is_idle());
        play(&rt, &mut site, IS_LISTED);
        play(&rt, &mut site, steps);
    }
}

#[test]
fn requests_that_wait(rt: HostRuntime) {
    for (about, steps) in OTHERS {
        expect_in(&rt, about, !steps.is_empty());
        play(&rt, &mut nothing_waits(&rt), steps);
    }
}

/// What came with which flags from which address, and whether it is set aside: while nobody is asked, and while somebody is.
const ASIDE: &[(u16, u32, &str, bool, bool)] = &[
    (MULTI_HOMED, TWO, TWO_REGISTERS, true, true),
    (0x2900, TWO, TWO_REGISTERS, false, false),
    (RESPONSE, TWO, TWO_ALONE, false, true),
    (0xAD80, TWO, THREE_IS_CONFIRMED, false, false),
    (
        REFRESH,
        TWO,
        "7868 4000 two-parts NODEB NB again NB 60s unique 198.18.137.2",
        false,
        false,
    ),
    (
        REFRESH,
        THREE,
        "7868 4000 two-parts NODEB NB again NB 60s unique 198.18.137.2",
        true,
        true,
    ),
    (
        REFRESH,
        TWO,
        "7868 4000 two-parts NODEB NB again NB 60s H-unique 198.18.137.2",
        true,
        true,
    ),
    (0x0100, SIX, "05e5 0100 one-name NODEB NB", false, false),
];

#[test]
fn which_datagrams_are_set_aside(rt: HostRuntime) {
    for row in ASIDE {
        let (flags, ip, text, alone, asking) = row;
        let octets = octets(&rt, *text).expect(&rt, "octets");
        let came = came(*ip, *flags);
        expect_eq_in(&rt, row, &is_aside(came, octets.as_slice(), false), alone);
        expect_eq_in(&rt, row, &is_aside(came, octets.as_slice(), true), asking);
        let is_claim = claim_in(octets.as_slice()).is_some();
        expect_eq_in(&rt, row, &is_claim, &(*flags < 0x8000 && *ip != SIX));
    }
}

#[test]
fn a_datagram_that_was_set_aside_comes_back_once(rt: HostRuntime) {
    let mut aside = Aside::new();
    let mut out = ArrayVec::new();
    aside.put(came(TWO, MULTI_HOMED), b"abc");
    expect_in(
        &rt,
        &"there",
        aside.is_there() && aside.octets() == b"abc".as_slice(),
    );
    expect_in(&rt, &"aside", aside.take_back(&mut out).is_none());
    aside.come_back();
    let back = aside.take_back(&mut out);
    expect_eq_in(&rt, &"back", &back, &Some(came(TWO, MULTI_HOMED)));
    expect_in(&rt, &"octets", out.as_slice() == b"abc".as_slice());
    expect_in(&rt, &"once", aside.take_back(&mut out).is_none());
    aside.put(aside.came(), b"");
    aside.let_go();
    expect_in(&rt, &"gone", !aside.is_there());
}

#[test]
fn what_came_of_requests_is_counted(rt: HostRuntime) {
    laws::a_further_address_was_confirmed();
    laws::a_further_address_has_answered();
    laws::numbers();
    let mut tally = AskTally::new();
    tally.count(Asked::Full);
    tally.count(Asked::Waits(TWO));
    tally.count(Asked::Waits(THREE));
    let wanted = AskTally {
        waits: 2,
        full: 1,
        ..AskTally::new()
    };
    expect_eq_in(&rt, &"tally", &tally, &wanted);
}

/// With `rt try --test --fail-alloc N` the Nth allocation is refused. It says so, and has its memory the second time.
#[test]
fn refused_memory_of_what_waits(rt: HostRuntime) {
    if Asking::new(rt.alloc(), 64).is_err() {
        expect_in(&rt, &"asking", Asking::new(rt.alloc(), 64).is_ok());
    }
}
