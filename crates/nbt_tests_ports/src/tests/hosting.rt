//! Hosts of this machine, and the lines of hosts.

use super::expect::{expect, expect_eq};
use nbt_client::Want;
use nbt_host::{
    Event, Goal, HostArguments, News, Refusal, Stage, run_host, write_begin, write_endings,
    write_event, write_turn,
};
use nbt_lease::{Config, Moment};
use nbt_name::{Addr, Kind, Name};
use nbt_port::{Fault, UdpPort};
use nbt_testing::config;
use std::net::Net;
use std::process::Abort;
use std::random::RandomSource;
use std::time;

const SERVER: Addr = Addr {
    ip: 0x7F000001,
    port: 137,
};

const HOST: Addr = Addr {
    ip: 0x7F000002,
    port: 137,
};

fn want(rt: &impl Abort) -> Want {
    Want {
        name: Name::new(b"FRED            ", b"").expect(rt, "a name"),
        kind: Kind::Unique,
        ttl: 0,
    }
}

/// A host of this machine at a port that no other test has, which ends after its first turn.
fn arguments_here<R: Abort + AllocGlobal>(rt: &R, port: u16) -> HostArguments {
    HostArguments {
        bind: Addr {
            ip: 0x7F2A1704,
            port,
        },
        server: Addr {
            ip: 0x7F2A1704,
            port: 20_189,
        },
        others: Vec::new(rt.alloc()),
        config: config(4096).expect(rt, "limits"),
        wants: vec![in rt.alloc(); want(rt)].expect(rt, "memory"),
        time: Some(0),
        log: false,
    }
}

/// Runs it. Returns how it ended, what it printed, and what it said of errors.
fn run_here<R: Abort + AllocGlobal + Net + time::Clock + RandomSource>(
    rt: &R,
    port: u16,
) -> (Result<bool, Fault>, Vec<u8>, Vec<u8>) {
    let arguments = arguments_here(rt, port);
    let mut printed = Vec::new(rt.alloc());
    let mut errors = Vec::new(rt.alloc());
    let all = run_host(rt, rt.alloc(), &arguments, &mut printed, &mut errors);
    (all, printed, errors)
}

/// The last line has a time of day, which no test can foresee.
fn expect_not_held<R: Abort>(rt: &R, printed: &[u8]) {
    let begin = b"host 127.42.23.4:20181 asks 127.42.23.4:20189 for 1 name\n".as_slice();
    let rest = printed.strip_prefix(begin).expect(rt, "another line");
    expect(rt, rest.ends_with(b"Z not held FRED#20\n"));
    expect_eq(rt, &rest.len(), &38);
}

#[test]
fn a_host_over_this_machine(rt: HostRuntime) {
    let (all, printed, errors) = run_here(&rt, 20_181);
    expect_eq(&rt, &all, &Ok(false));
    expect(&rt, errors.is_empty());
    expect_not_held(&rt, printed.as_slice())
}

#[test]
fn a_host_tells_the_port_that_it_got(rt: HostRuntime) {
    let (all, printed, _) = run_here(&rt, 0);
    expect_eq(&rt, &all, &Ok(false));
    expect(&rt, printed.as_slice().starts_with(b"host 127.42.23.4:"));
    expect(&rt, !printed.as_slice().starts_with(b"host 127.42.23.4:0 "));
}

/// There is no way to port 0. A datagram lives 1 ms, so that it asks at once.
#[test]
fn a_host_says_that_its_server_has_no_route(rt: HostRuntime) {
    let mut arguments = arguments_here(&rt, 20_183);
    arguments.server.port = 0;
    arguments.config = Config::new(1, 60, 1).expect(&rt, "limits");
    arguments.time = Some(300);
    let mut printed = Vec::new(rt.alloc());
    let mut errors = Vec::new(rt.alloc());
    let all = run_host(&rt, rt.alloc(), &arguments, &mut printed, &mut errors);
    expect_eq(&rt, &all, &Ok(false));
    expect_eq(
        &rt,
        &errors.as_slice(),
        &b"nbt: 127.42.23.4:0: send: Invalid argument (os error 22); going on\n".as_slice(),
    );
}

#[test]
fn a_host_whose_port_can_not_be_had(rt: HostRuntime) {
    let taken = Addr {
        ip: 0x7F2A1704,
        port: 20_182,
    };
    let _taken = UdpPort::bind(&rt, taken).expect(&rt, "bound");
    let (all, printed, errors) = run_here(&rt, 20_182);
    expect_eq(&rt, &all, &Err(Fault::NoPort));
    expect(&rt, printed.is_empty());
    expect_eq(
        &rt,
        &errors.as_slice(),
        &b"nbt: 127.42.23.4:20182: Address already in use (os error 98)\n".as_slice(),
    );
}

/// Each event, at the second at which it was 2026-11-24T09:12:03Z, of a name, and of one in a scope.
const EVENTS: [(Event, &str); 11] = [
    (
        Event::Granted(300),
        "2026-11-24T09:12:03Z granted FRED#20 300 s\n",
    ),
    (
        Event::Renewed(60),
        "2026-11-24T09:12:03Z renewed FRED#20 60 s\n",
    ),
    (
        Event::Doubted,
        "2026-11-24T09:12:03Z refreshes FRED#20: the server says that it isn't held\n",
    ),
    (
        Event::Refused(7),
        "2026-11-24T09:12:03Z refused FRED#20: in conflict (7)\n",
    ),
    (
        Event::AsksAgain,
        "2026-11-24T09:12:03Z asks again for FRED#20 after 5 s, 10 s .. at most 5 min\n",
    ),
    (Event::Lost, "2026-11-24T09:12:03Z lost FRED#20\n"),
    (Event::Lapsed, "2026-11-24T09:12:03Z lapsed FRED#20\n"),
    (
        Event::GivenBack,
        "2026-11-24T09:12:03Z given back FRED#20\n",
    ),
    (
        Event::Denied(2),
        "2026-11-24T09:12:03Z give-back denied FRED#20: server failure (2)\n",
    ),
    (
        Event::Unconfirmed,
        "2026-11-24T09:12:03Z give-back unconfirmed FRED#20\n",
    ),
    (Event::NotHeld, "2026-11-24T09:12:03Z not held FRED#20\n"),
];

/// The second since 1970 at which it was 2026-11-24T09:12:03Z.
const SECOND: u64 = 1_795_511_523;

#[test]
fn lines_of_events(rt: HostRuntime) {
    let name = Name::new(b"FRED            ", b"").expect(&rt, "a name");
    for (event, expected) in EVENTS {
        let mut text = String::new(rt.alloc());
        write_event(SECOND, event, &name, &mut text).expect(&rt, "write event");
        expect_eq(&rt, &text.as_str(), &expected);
    }
}

fn goal(rt: &impl Abort, stage: Stage, lapsed: bool, news: Option<News>, times: u8) -> Goal {
    let mut goal = Goal::new(want(rt));
    goal.stage = stage;
    goal.lapsed = lapsed;
    goal.news = news;
    goal.refusal = Some(Refusal {
        rcode: 6,
        times,
        at: Moment::new(0).expect(rt, "a moment"),
    });
    goal
}

/// The first line, the lines of a turn on a machine that slept, and those of the end.
fn write_lines(rt: &impl Abort, goals: &[Goal], text: &mut String) {
    write_begin(HOST, SERVER, 0, text).expect(rt, "a first line");
    write_turn(SECOND, false, SERVER, true, goals, text).expect(rt, "write turn");
    write_endings(SECOND, goals, text).expect(rt, "write endings");
}

#[test]
fn lines_of_a_turn_and_of_the_end(rt: HostRuntime) {
    let goals = [
        goal(&rt, Stage::Left(0), true, Some(News::Refused(6)), 1),
        goal(&rt, Stage::Left(1), false, Some(News::Refused(6)), 2),
        goal(&rt, Stage::Released, true, Some(News::Freed(0)), 1),
        goal(&rt, Stage::Wanted, false, None, 1),
        goal(&rt, Stage::Wanted, false, Some(News::Doubted), 1),
    ];
    let mut text = String::new(rt.alloc());
    write_lines(&rt, &goals, &mut text);
    expect_eq(
        &rt,
        &text.as_str(),
        &"host 127.0.0.2:137 asks 127.0.0.1:137 for 0 names\n2026-11-24T09:12:03Z slept, or its clock was set: asks anew\n2026-11-24T09:12:03Z lapsed FRED#20\n2026-11-24T09:12:03Z refused FRED#20: held by another (6)\n2026-11-24T09:12:03Z asks again for FRED#20 after 5 s, 10 s .. at most 5 min\n2026-11-24T09:12:03Z refused FRED#20: held by another (6)\n2026-11-24T09:12:03Z lapsed FRED#20\n2026-11-24T09:12:03Z refreshes FRED#20: the server says that it isn't held\n2026-11-24T09:12:03Z given back FRED#20\n2026-11-24T09:12:03Z give-back denied FRED#20: malformed request (1)\n2026-11-24T09:12:03Z give-back unconfirmed FRED#20\n2026-11-24T09:12:03Z not held FRED#20\n2026-11-24T09:12:03Z not held FRED#20\n",
    );
}
