//! The commands `lookup` and `status`: what they ask and print over UDP and a clock that is set.

use super::LimitedWriter;
use super::expect::{expect, expect_eq};
use super::machine::Machine;
use super::serving::{self, FAILED, NO_CLOCK, Row, machine_of};
use super::street::Street;
use nbt_client::{Answer, Question, ask_here};
use nbt_name::{Addr, Name};
use nbt_port::Fault;
use std::net::{Net, TcpListener, TcpStream, UdpSocket};
use std::process::Abort;

/// The first query for FRED, and for `fred` in the scope `lab`; and a status request by `*`, and by FRED.
const QUERY: &str = "0001_0100_0001_0000_0000_0000_{FRED}_0020_0001";

const QUERY_AS_IT_STANDS: &str =
    "0001_0100_0001_0000_0000_0000_204747484347464745434143414341434143414341434143414341434143414341036c616200_0020_0001";

const QUERY_IN_A_SCOPE: &str =
    "0001_0100_0001_0000_0000_0000_204547464345464545434143414341434143414341434143414341434143414341036c616200_0020_0001";

const ASKS_FOR_ALL: &str = "0001_0000_0001_0000_0000_0000_{STAR}_0021_0001";

const ASKS_BY_FRED: &str = "0001_0000_0001_0000_0000_0000_{FRED}_0021_0001";

/// Replies to them: two ends hold FRED, as a group; another's id; nobody does; and what a host is called, with its unit id.
const FOUND: &str =
    "0001_8580_0000_0001_0000_0000_{FRED}_0020_0001_0000003c_000c_a000_7f2a1603_a000_7f2a1604";

const FOUND_BY_ANOTHER_ID: &str =
    "0002_8580_0000_0001_0000_0000_{FRED}_0020_0001_0000003c_0006_2000_7f2a1605";

const FOUND_AS_IT_STANDS: &str =
    "0001_8580_0000_0001_0000_0000_204747484347464745434143414341434143414341434143414341434143414341036c616200_0020_0001_0000003c_0006_2000_7f2a1603";

const NOT_FOUND: &str = "0001_8583_0000_0001_0000_0000_{FRED}_000a_0001_00000000_0000";

const FOUND_IN_A_SCOPE: &str =
    "0001_8580_0000_0001_0000_0000_204547464345464545434143414341434143414341434143414341434143414341036c616200_0020_0001_0000003c_0006_2000_7f2a1603";

const ASKS_IN_A_SCOPE: &str =
    "0001_0000_0001_0000_0000_0000_204547464345464545434143414341434143414341434143414341434143414341036c616200_0021_0001";

const NOT_FOUND_IN_A_SCOPE: &str =
    "0001_8583_0000_0001_0000_0000_204547464345464545434143414341434143414341434143414341434143414341036c616200_000a_0001_00000000_0000";

const NAMES: &str =
    "0001_8400_0000_0001_0000_0000_{STAR}_0021_0001_00000000_0041_01_46524544202020202020202020202020_2400_005056c00008_00000000000000000000000000000000000000000000000000000000000000000000000000000000";

const NOBODY_HAS_IT: Row = Row {
    about: "a name that nobody has",
    words: "nbt lookup FRED --server 127.42.22.3:20139 --bind 127.42.22.2:20138",
    moments: &[1_000_000],
    sends: &[(4, NOT_FOUND)],
    breaks_at: 0,
    sets: &[],
    status: 1,
    readings: 5,
    text: "not found: no such name (3)\n",
    errors: "",
    sent: &[QUERY],
};

const NO_REPLY: Row = Row {
    about: "no reply to one try in 250 ms",
    words: "nbt lookup FRED --server 127.42.22.3:20139 --bind 127.42.22.2:20138 --tries 1 --wait 250ms",
    moments: &[
        1_000_000, 1_000_000, 1_000_000, 1_000_000, 1_000_000, 1_000_249, 1_000_249, 1_000_250,
    ],
    sends: &[],
    breaks_at: 0,
    sets: &[],
    status: 5,
    readings: 8,
    text: "no reply\n",
    errors: "",
    sent: &[QUERY],
};

pub static LOOKUPS: [Row; 11] = [
    Row {
        about: "a name of two ends, where small letters are folded, and another id is passed over",
        words: "nbt lookup fred<20> --server 127.42.22.3:20139 --bind 127.42.22.2:20138",
        moments: &[1_000_000],
        sends: &[(4, FOUND_BY_ANOTHER_ID), (6, FOUND)],
        breaks_at: 0,
        sets: &[],
        status: 0,
        readings: 7,
        text: "127.42.22.3 group\n127.42.22.4 group\n",
        errors: "",
        sent: &[QUERY],
    },
    Row {
        about: "a name as it stands, with a scope",
        words: "nbt lookup fred --exact --scope lab --server 127.42.22.3:20139 --bind 127.42.22.2:20138",
        moments: &[1_000_000],
        sends: &[(4, FOUND_AS_IT_STANDS)],
        breaks_at: 0,
        sets: &[],
        status: 0,
        readings: 5,
        text: "127.42.22.3 unique\n",
        errors: "",
        sent: &[QUERY_AS_IT_STANDS],
    },
    Row {
        about: "a name whose scope stands behind its suffix, and whose small letters alone are folded",
        words: "nbt lookup fred#20.lab --scope com --server 127.42.22.3:20139 --bind 127.42.22.2:20138",
        moments: &[1_000_000],
        sends: &[(4, FOUND_IN_A_SCOPE)],
        breaks_at: 0,
        sets: &[],
        status: 0,
        readings: 5,
        text: "127.42.22.3 unique\n",
        errors: "",
        sent: &[QUERY_IN_A_SCOPE],
    },
    NOBODY_HAS_IT,
    NO_REPLY,
    Row {
        about: "no reply to two tries",
        words: "nbt lookup FRED --server 127.42.22.3:20139 --bind 127.42.22.2:20138 --tries 2 --wait 1ms",
        moments: &[
            1_000_000, 1_000_000, 1_000_000, 1_004_999, 1_004_999, 1_005_000, 1_005_000, 1_005_001,
        ],
        sends: &[],
        breaks_at: 0,
        sets: &[],
        status: 5,
        readings: 8,
        text: "no reply\n",
        errors: "",
        sent: &[QUERY, QUERY],
    },
    Row {
        about: "the same, while the time of day is set forward by an hour and then back by one",
        words: "nbt lookup FRED --server 127.42.22.3:20139 --bind 127.42.22.2:20138 --tries 2 --wait 1ms",
        moments: &[
            1_000_000, 1_000_000, 1_000_000, 1_004_999, 1_004_999, 1_005_000, 1_005_000, 1_005_001,
        ],
        sends: &[],
        breaks_at: 0,
        sets: &[(2, 3_600_000, 0), (5, 0, 3_600_000)],
        status: 5,
        readings: 8,
        text: "no reply\n",
        errors: "",
        sent: &[QUERY, QUERY],
    },
    Row {
        about: "no reply in three tries of 5 s",
        words: "nbt lookup FRED --server 127.42.22.3:20139 --bind 127.42.22.2:20138",
        moments: &[
            1_000_000, 1_000_000, 1_000_000, 1_005_000, 1_005_000, 1_010_000, 1_010_000, 1_014_999,
            1_014_999, 1_015_000,
        ],
        sends: &[],
        breaks_at: 0,
        sets: &[],
        status: 5,
        readings: 10,
        text: "no reply\n",
        errors: "",
        sent: &[QUERY, QUERY, QUERY],
    },
    PORT_FAILS,
    CLOCK_FAILS,
    Row {
        about: "the longest wait, of one try",
        words: "nbt lookup FRED --server 127.42.22.3:20139 --bind 127.42.22.2:20138 --tries 1",
        moments: &[
            1_000_000, 1_000_000, 1_000_000, 1_004_999, 1_004_999, 1_005_000,
        ],
        sends: &[],
        breaks_at: 0,
        sets: &[],
        status: 5,
        readings: 6,
        text: "no reply\n",
        errors: "",
        sent: &[QUERY],
    },
];

const PORT_FAILS: Row = Row {
    about: "a port that fails",
    words: "nbt lookup FRED --server 127.42.22.3:20139 --bind 127.42.22.2:20138",
    moments: &[1_000_000],
    sends: &[],
    breaks_at: 4,
    sets: &[],
    status: 3,
    readings: 4,
    text: "device\n",
    errors: FAILED,
    sent: &[QUERY],
};

const CLOCK_FAILS: Row = Row {
    about: "a clock that can't be read",
    words: "nbt lookup FRED --server 127.42.22.3:20139 --bind 127.42.22.2:20138",
    moments: &[],
    sends: &[],
    breaks_at: 0,
    sets: &[],
    status: 3,
    readings: 1,
    text: "device\n",
    errors: NO_CLOCK,
    sent: &[],
};

pub static STATUSES: [Row; 6] = [
    Row {
        about: "the names of a host",
        words: "nbt status 127.42.22.3:20139 --bind 127.42.22.2:20138",
        moments: &[1_000_000],
        sends: &[(4, NAMES)],
        breaks_at: 0,
        sets: &[],
        status: 0,
        readings: 5,
        text: "FRED#20 unique active  file server\nunit id 00:50:56:c0:00:08\n",
        errors: "",
        sent: &[ASKS_FOR_ALL],
    },
    Row {
        about: "a host that doesn't hold the name by which it is asked",
        words: "nbt status 127.42.22.3:20139 fred --bind 127.42.22.2:20138",
        moments: &[1_000_000],
        sends: &[(4, NOT_FOUND)],
        breaks_at: 0,
        sets: &[],
        status: 1,
        readings: 5,
        text: "not found: no such name (3)\n",
        errors: "",
        sent: &[ASKS_BY_FRED],
    },
    Row {
        about: "a name whose scope stands behind its suffix",
        words: "nbt status 127.42.22.3:20139 fred<20>.lab --bind 127.42.22.2:20138",
        moments: &[1_000_000],
        sends: &[(4, NOT_FOUND_IN_A_SCOPE)],
        breaks_at: 0,
        sets: &[],
        status: 1,
        readings: 5,
        text: "not found: no such name (3)\n",
        errors: "",
        sent: &[ASKS_IN_A_SCOPE],
    },
    Row {
        about: "no reply",
        words: "nbt status 127.42.22.3:20139 --bind 127.42.22.2:20138 --tries 1 --wait 1ms",
        moments: &[
            1_000_000, 1_000_000, 1_000_000, 1_000_000, 1_000_000, 1_000_001,
        ],
        sends: &[],
        breaks_at: 0,
        sets: &[],
        status: 5,
        readings: 6,
        text: "no reply\n",
        errors: "",
        sent: &[ASKS_FOR_ALL],
    },
    Row {
        about: "the names of two hosts, the second of which is the first again: each line begins with its host's address",
        words: "nbt status 127.42.22.3:20139 --also 127.42.22.3:20139 --bind 127.42.22.2:20138",
        moments: &[1_000_000],
        sends: &[(4, NAMES), (9, NAMES)],
        breaks_at: 0,
        sets: &[],
        status: 0,
        readings: 10,
        text: "127.42.22.3:20139 FRED#20 unique active  file server\n127.42.22.3:20139 unit id 00:50:56:c0:00:08\n127.42.22.3:20139 FRED#20 unique active  file server\n127.42.22.3:20139 unit id 00:50:56:c0:00:08\n",
        errors: "",
        sent: &[ASKS_FOR_ALL, ASKS_FOR_ALL],
    },
    Row {
        about: "no reply of the first: the second is asked, and the status is the greatest",
        words: "nbt status 127.42.22.3:20139 --also 127.42.22.3:20139 --bind 127.42.22.2:20138 --tries 1 --wait 1ms",
        moments: &[
            1_000_000, 1_000_000, 1_000_000, 1_000_000, 1_000_000, 1_000_001,
        ],
        sends: &[(10, NAMES)],
        breaks_at: 0,
        sets: &[],
        status: 5,
        readings: 11,
        text: "127.42.22.3:20139 no reply\n127.42.22.3:20139 FRED#20 unique active  file server\n127.42.22.3:20139 unit id 00:50:56:c0:00:08\n",
        errors: "",
        sent: &[ASKS_FOR_ALL, ASKS_FOR_ALL],
    },
];

/// Where the command of those rows is, where it asks, and an address that is for documents alone (RFC 5737).
const OWN: Addr = Addr {
    ip: 0x7F2A1602,
    port: 20138,
};

const OTHER: Addr = Addr {
    ip: 0x7F2A1603,
    port: 20139,
};

const NOBODY: Addr = Addr {
    ip: 0xC0000201,
    port: 20138,
};

/// What `ask_here` returns at a row's machine, and what it appends and says.
fn expect_answer<R>(
    rt: &R,
    machine: &Machine<'_, R>,
    about: &str,
    own: Addr,
    answer: Result<Answer, Fault>,
    text: &str,
    said: &str,
)
where
    R: Abort + AllocGlobal + Net<Stream = TcpStream, Listener = TcpListener>,
{
    let name = Name::new(b"FRED            ", b"").expect(rt, "a name");
    let question = Question::Holders(OTHER, name);
    let mut out = String::from_str(rt.alloc(), "> ").expect(rt, "memory");
    let mut errors = LimitedWriter::new();
    let got = ask_here(machine, own, &question, 250, &mut out, &mut errors);
    expect(rt, &about, got == answer);
    expect_eq(rt, &about, &out.as_str().strip_prefix("> "), &Some(text));
    expect_eq(rt, &about, &errors.text.as_slice(), &said.as_bytes());
}

/// A machine that has no such address.
const NO_ADDRESS: &str = "nbt: 192.0.2.1:20138: Cannot assign requested address (os error 99)\n";

/// Rows, whose machines are asked from an address; what is returned, what is appended, and what is said.
static QUESTIONS: [(Row, Addr, Result<Answer, Fault>, &str, &str); 5] = [
    (
        NOBODY_HAS_IT,
        OWN,
        Ok(Answer::NotFound),
        "not found: no such name (3)\n",
        "",
    ),
    (NO_REPLY, OWN, Ok(Answer::NoReply), "no reply\n", ""),
    (PORT_FAILS, OWN, Err(Fault::Device), "", FAILED),
    (CLOCK_FAILS, OWN, Err(Fault::NoClock), "", NO_CLOCK),
    (PORT_FAILS, NOBODY, Err(Fault::NoPort), "", NO_ADDRESS),
];

#[test]
fn questions_over_this_machine(rt: HostRuntime) {
    for (row, own, answer, text, said) in &QUESTIONS {
        let port = UdpSocket::bind(&rt, serving::OWN).expect(&rt, "its port");
        let other = UdpSocket::bind(&rt, serving::OTHER).expect(&rt, "the other end's port");
        let street = Street::new();
        let machine = machine_of(&rt, &port, &other, &street, row);
        expect_answer(&rt, &machine, row.about, *own, *answer, text, said);
    }
}
