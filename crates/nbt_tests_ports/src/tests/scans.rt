//! What a scan is made of, a scan of no address, and scans over this machine.

use super::expect::{expect, expect_eq, expect_eq_in};
use super::stage::{Scene, play_on};
use nbt_name::Addr;
use nbt_port::{Fault, MemoryClock, MemoryPort, Port, UdpPort};
use nbt_scan::{
    Form, Layout, Meter, Plan, Span, SpanFault, addresses_of, are_ascending, are_few, place_of,
    run_scan, scan_over, span_of,
};
use nbt_server::Server;
use nbt_testing::{Row, sent_all};
use std::process::Abort;
use std::time;

const ALL: &[u32] = &[0xC0000207, 0xC0000208, 0xC0000209];

const AT_ONCE: Layout = Layout {
    form: Form::Plain,
    sorted: false,
};

/// A scan of no address, which no command line spells.
struct OfNobody;

impl Scene for OfNobody {
    fn play<R: Abort + AllocGlobal + time::Clock>(
        &self,
        rt: &R,
        port: &mut MemoryPort,
        clock: &mut MemoryClock,
        _: &mut Server,
    ) {
        let plan = Plan {
            ips: Vec::new(rt.alloc()),
            port: 137,
            rate: 500,
            tries: 3,
            wait: 1_000,
        };
        let mut printed = Vec::new(rt.alloc());
        let mut errors = Vec::new(rt.alloc());
        expect(rt, plan.is_sound());
        expect(rt, port.failures() < 1 << 61);
        let any = scan_over(
            port,
            clock,
            rt.alloc(),
            &plan,
            &[],
            AT_ONCE,
            &mut printed,
            &mut Meter::new(false),
            &mut errors,
        );
        expect_eq(rt, &any, &Ok(false));
        expect(rt, printed.is_empty());
        expect(rt, errors.is_empty());
        expect(rt, port.sent().is_empty());
    }
}

#[test]
fn a_scan_of_nobody(rt: HostRuntime) {
    play_on(&rt, &[], &[1], &OfNobody)
}

/// A scan of two addresses in one pass, each by an id of its own: what the port hands out, what is sent, and what is printed.
struct OfTwo {
    given: &'static [Row],
    printed: &'static str,
}

const FIRST: Addr = Addr {
    ip: 0xC0000207,
    port: 137,
};

const SECOND: Addr = Addr {
    ip: 0xC0000208,
    port: 137,
};

/// The requests, and replies by either id: of a host that is called A, and of one that is called B.
const SENT: [Row; 2] = [
    (FIRST, "a1b2 0000 one-name STAR NBSTAT"),
    (SECOND, "c3d4 0000 one-name STAR NBSTAT"),
];

const A_BY_FIRST: &str =
    "a1b2 8400 reply STAR NBSTAT 0s 0013 01 41202020202020202020202020202000 0400";

const B_BY_FIRST: &str =
    "a1b2 8400 reply STAR NBSTAT 0s 0013 01 42202020202020202020202020202000 0400";

const B_BY_SECOND: &str =
    "c3d4 8400 reply STAR NBSTAT 0s 0013 01 42202020202020202020202020202000 0400";

/// Replies that come in turn, one in each.
const OF_TWO: [OfTwo; 3] = [
    OfTwo {
        given: &[(FIRST, A_BY_FIRST), (SECOND, B_BY_SECOND)],
        printed: "192.0.2.7        A                -                -                -       -\n192.0.2.8        B                -                -                -       -\n",
    },
    // A host that answers for another by the id that it was asked by itself.
    OfTwo {
        given: &[(FIRST, A_BY_FIRST), (SECOND, B_BY_FIRST)],
        printed: "192.0.2.7        A                -                -                -       -\n",
    },
    // The second before it was asked, and the first from another port.
    OfTwo {
        given: &[
            (SECOND, B_BY_SECOND),
            (
                Addr {
                    ip: 0xC0000207,
                    port: 138,
                },
                A_BY_FIRST,
            ),
        ],
        printed: "",
    },
];

impl Scene for OfTwo {
    fn play<R: Abort + AllocGlobal + time::Clock>(
        &self,
        rt: &R,
        port: &mut MemoryPort,
        clock: &mut MemoryClock,
        _: &mut Server,
    ) {
        let plan = Plan {
            ips: Vec::from_slice(rt.alloc(), &[FIRST.ip, SECOND.ip]).expect(rt, "memory"),
            port: 137,
            rate: 500,
            tries: 1,
            wait: 10,
        };
        let mut printed = Vec::new(rt.alloc());
        let mut errors = Vec::new(rt.alloc());
        expect(rt, plan.is_sound());
        expect(rt, port.failures() < 1 << 61);
        let any = scan_over(
            port,
            clock,
            rt.alloc(),
            &plan,
            &[0xA1B2, 0xC3D4],
            AT_ONCE,
            &mut printed,
            &mut Meter::new(false),
            &mut errors,
        );
        expect_eq(rt, &any, &Ok(!self.printed.is_empty()));
        expect_eq(rt, &printed.as_slice(), &self.printed.as_bytes());
        sent_all(rt, port, &SENT).expect(rt, "sent")
    }
}

/// The clock is read at the start, in a turn for each address, and in turns up to the end of the wait.
#[test]
fn each_address_has_an_id_of_its_own(rt: HostRuntime) {
    for row in &OF_TWO {
        play_on(&rt, row.given, &[1, 1, 3, 5, 20, 30], row);
    }
}

/// Ascending lists, addresses, and their places.
const PLACES: &[(&[u32], u32, Option<usize>)] = &[
    (&[], 7, None),
    (&[7], 7, Some(0)),
    (&[7], 6, None),
    (&[7], 8, None),
    (&[1, 3, 5, 7], 1, Some(0)),
    (&[1, 3, 5, 7], 3, Some(1)),
    (&[1, 3, 5, 7], 5, Some(2)),
    (&[1, 3, 5, 7], 7, Some(3)),
    (&[1, 3, 5, 7], 4, None),
    (&[1, 3, 5, 7], 0xFFFF_FFFF, None),
];

fn see_places<R: Abort>(rt: &R, places: &[(&'static [u32], u32, Option<usize>)]) {
    for (ips, ip, place) in places {
        expect(rt, are_ascending(ips));
        expect_eq_in(rt, ip, &place_of(ips, *ip), place);
    }
}

#[test]
fn places_of_addresses(rt: HostRuntime) {
    see_places(&rt, PLACES)
}

/// Texts, with the first and the last address that they spell, or 0 and what is wrong with them.
const SPANS: &[(&str, u32, u32, &str)] = &[
    ("192.0.2.7", 0xC0000207, 0xC0000207, ""),
    ("192.0.2.7-9", 0xC0000207, 0xC0000209, ""),
    ("192.0.2.7-192.0.3.9", 0xC0000207, 0xC0000309, ""),
    ("192.0.2.7-7", 0xC0000207, 0xC0000207, ""),
    // The first and the last address of a network are no host's, where it has more than two.
    ("192.0.2.0/24", 0xC0000201, 0xC00002FE, ""),
    ("192.0.2.77/24", 0xC0000201, 0xC00002FE, ""),
    ("192.0.2.4/30", 0xC0000205, 0xC0000206, ""),
    ("192.0.2.4/31", 0xC0000204, 0xC0000205, ""),
    ("192.0.2.4/32", 0xC0000204, 0xC0000204, ""),
    ("255.255.255.255/16", 0xFFFF0001, 0xFFFFFFFE, ""),
    ("0.0.0.0/16", 0x00000001, 0x0000FFFE, ""),
    ("192.0.2.0/15", 0, 0, "bits"),
    ("192.0.2.0/33", 0, 0, "bits"),
    ("192.0.2.0/", 0, 0, "bits"),
    ("192.0.2.0/2a", 0, 0, "bits"),
    ("192.0.2/24", 0, 0, "address"),
    ("192.0.2.0-9/24", 0, 0, "address"),
    ("192.0.2.9-8", 0, 0, "backwards"),
    ("192.0.2.9-192.0.1.10", 0, 0, "backwards"),
    ("192.0.2.9-256", 0, 0, "address"),
    ("192.0.2.9-", 0, 0, "address"),
    ("192.0.2.9-1.2", 0, 0, "address"),
    ("192.0.2.256", 0, 0, "address"),
    ("192.0.2.07", 0, 0, "address"),
    ("192.0.2.7:137", 0, 0, "address"),
    ("", 0, 0, "address"),
];

fn told(span: Result<Span, SpanFault>) -> (u32, u32, &'static str) {
    match span {
        Ok(span) => (span.first, span.last, ""),
        Err(SpanFault::Address) => (0, 0, "address"),
        Err(SpanFault::Bits) => (0, 0, "bits"),
        Err(SpanFault::Backwards) => (0, 0, "backwards"),
    }
}

fn see_spans<R: Abort>(rt: &R, spans: &[(&'static str, u32, u32, &'static str)]) {
    for (text, first, last, fault) in spans {
        let (begins, ends, wrong) = told(span_of(text));
        expect_eq_in(rt, text, &begins, first);
        expect_eq_in(rt, text, &ends, last);
        expect_eq_in(rt, text, &wrong, fault);
    }
}

#[test]
fn networks_ranges_and_addresses(rt: HostRuntime) {
    see_spans(&rt, SPANS);
}

/// What a scan can't do: addresses that aren't ascending, or twice the same; a rate of 0; no pass.
#[test]
fn plans_that_no_scan_does(rt: HostRuntime) {
    let mut plan = Plan {
        ips: Vec::from_slice(rt.alloc(), ALL).expect(&rt, "memory"),
        port: 137,
        rate: 1,
        tries: 1,
        wait: 0,
    };
    expect(&rt, plan.is_sound());
    plan.rate = 0;
    expect(&rt, !plan.is_sound());
    plan.rate = 1;
    plan.tries = 0;
    expect(&rt, !plan.is_sound());
    expect(&rt, !are_ascending(&[1, 3, 2]));
    expect(&rt, !are_ascending(&[3, 3]));
}

/// A socket of this machine at 127.42.23.5, where nobody listens at 127.42.23.6.
#[test]
fn a_scan_over_this_machine(rt: HostRuntime) {
    let plan = Plan {
        ips: Vec::from_slice(rt.alloc(), &[0x7F2A1706]).expect(&rt, "memory"),
        port: 20_192,
        rate: 500,
        tries: 2,
        wait: 50,
    };
    expect(&rt, plan.is_sound());
    let here = Addr {
        ip: 0x7F2A1705,
        port: 20_192,
    };
    let mut printed = Vec::new(rt.alloc());
    let mut errors = Vec::new(rt.alloc());
    let any = run_scan(
        &rt,
        rt.alloc(),
        here,
        &plan,
        AT_ONCE,
        false,
        &mut printed,
        &mut errors,
    );
    expect_eq(&rt, &any, &Ok(false));
    expect(&rt, printed.is_empty());
    expect(&rt, errors.is_empty());
}

/// There is no way to port 0, which is said once, of the first address. All requests are lost, and none is a failure.
#[test]
fn a_scan_without_a_route(rt: HostRuntime) {
    let plan = Plan {
        ips: Vec::from_slice(rt.alloc(), &[0x7F2A1706, 0x7F2A1707]).expect(&rt, "memory"),
        port: 0,
        rate: 500,
        tries: 2,
        wait: 50,
    };
    expect(&rt, plan.is_sound());
    let here = Addr {
        ip: 0x7F2A1705,
        port: 20_196,
    };
    let mut printed = Vec::new(rt.alloc());
    let mut errors = Vec::new(rt.alloc());
    let any = run_scan(
        &rt,
        rt.alloc(),
        here,
        &plan,
        AT_ONCE,
        false,
        &mut printed,
        &mut errors,
    );
    expect_eq(&rt, &any, &Ok(false));
    expect(&rt, printed.is_empty());
    expect_eq(
        &rt,
        &str::from_utf8(errors.as_slice()).expect(&rt, "a text"),
        &"nbt: 127.42.23.6:0: send: Invalid argument (os error 22)\n",
    );
}

#[test]
fn a_scan_from_an_address_in_use(rt: HostRuntime) {
    let plan = Plan {
        ips: Vec::from_slice(rt.alloc(), &[0x7F2A1706]).expect(&rt, "memory"),
        port: 20_193,
        rate: 500,
        tries: 1,
        wait: 50,
    };
    expect(&rt, plan.is_sound());
    let here = Addr {
        ip: 0x7F2A1705,
        port: 20_193,
    };
    let _taken = UdpPort::bind(&rt, here).expect(&rt, "bound");
    let mut printed = Vec::new(rt.alloc());
    let mut errors = Vec::new(rt.alloc());
    let any = run_scan(
        &rt,
        rt.alloc(),
        here,
        &plan,
        AT_ONCE,
        false,
        &mut printed,
        &mut errors,
    );
    expect_eq(&rt, &any, &Err(Fault::NoPort));
    expect(&rt, printed.is_empty());
    expect_eq(
        &rt,
        &str::from_utf8(errors.as_slice()).expect(&rt, "a text"),
        &"nbt: 127.42.23.5:20193: Address already in use (os error 98)\n",
    );
}

/// Runs of addresses that overlap: each address once, in order. And how many there may be.
#[test]
fn addresses_of_runs(rt: HostRuntime) {
    let runs = [
        Span { first: 7, last: 9 },
        Span { first: 1, last: 2 },
        Span { first: 8, last: 10 },
    ];
    expect(&rt, are_few(&runs));
    let ips = addresses_of(rt.alloc(), &runs).expect(&rt, "addresses of");
    expect_eq(&rt, &ips.as_slice(), &[1, 2, 7, 8, 9, 10].as_slice());
    expect(
        &rt,
        are_few(&[Span {
            first: 0,
            last: 0xFFFF,
        }]),
    );
    expect(
        &rt,
        !are_few(&[
            Span {
                first: 0,
                last: 0xFFFF,
            },
            Span { first: 0, last: 0 },
        ]),
    );
    expect(
        &rt,
        !are_few(&[Span {
            first: 0,
            last: 0xFFFF_FFFF,
        }]),
    );
}
