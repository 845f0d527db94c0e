//! The commands over UDP with another end and a clock that is set: what they print and send. The rows here are those of `serve` and `node`.

use super::LimitedWriter;
use super::ending::{expect_ending, expect_printed, status_of};
use super::expect::{expect, expect_eq};
use super::hosts::HOSTS;
use super::lookups::{LOOKUPS, STATUSES};
use super::machine::{Machine, Set, WELL};
use super::nbns::NAME_SERVERS;
use super::scans::{RELEASING, SCANS};
use super::street::Street;
use super::terminal::octets_of;
use std::fs::File;
use std::net::{Net, TcpListener, TcpStream, UdpSocket};
use std::process::Abort;
use std::rt::Files;
use std::time::Duration;

/// Where the command is, as its BIND says.
pub const OWN: &str = "127.42.22.2:20138";

/// Where the other end is.
pub const OTHER: &str = "127.42.22.3:20139";

/// A command, the moments that its clock tells, and what the other end sends at which reading of it; at which reading the
/// port breaks, or 0; how the time of day is set; and how it ends, after how many readings, what is printed, what is said of errors, and what the other end
/// is sent.
#[derive(Clone, Copy)]
pub struct Row {
    pub about: &'static str,
    pub words: &'static str,
    pub moments: &'static [u64],
    pub sends: &'static [(usize, &'static str)],
    pub breaks_at: usize,
    pub sets: &'static [Set],
    pub status: u8,
    pub readings: usize,
    pub text: &'static str,
    pub errors: &'static str,
    pub sent: &'static [&'static str],
}

/// The other end's requests for names, in their order: for FRED, unique, for as long as may be, twice; and for the group
/// TEAM for a minute.
const FIRST: &str =
    "0001_2900_0001_0000_0000_0001_{FRED}_0020_0001_c00c_0020_0001_00000000_0006_2000_7f2a1603";

const AGAIN: &str =
    "0002_2900_0001_0000_0000_0001_{FRED}_0020_0001_c00c_0020_0001_00000000_0006_2000_7f2a1603";

const TEAM: &str =
    "0003_2900_0001_0000_0000_0001_{TEAM}_0020_0001_c00c_0020_0001_0000003c_0006_a000_7f2a1603";

/// The replies to them where the longest lease is a minute.
const FIRST_GRANTED: &str =
    "0001_ad80_0000_0001_0000_0000_{FRED}_0020_0001_0000003c_0006_2000_7f2a1603";

const AGAIN_GRANTED: &str =
    "0002_ad80_0000_0001_0000_0000_{FRED}_0020_0001_0000003c_0006_2000_7f2a1603";

const TEAM_GRANTED: &str =
    "0003_ad80_0000_0001_0000_0000_{TEAM}_0020_0001_0000003c_0006_a000_7f2a1603";

/// A node's request for FRED, unique, for a minute; the second one, and its refresh.
const ASKS: &str =
    "0001_2900_0001_0000_0000_0001_{FRED}_0020_0001_c00c_0020_0001_0000003c_0006_2000_7f2a1602";

const ASKS_AGAIN: &str =
    "0002_2900_0001_0000_0000_0001_{FRED}_0020_0001_c00c_0020_0001_0000003c_0006_2000_7f2a1602";

const REFRESHES: &str =
    "0002_4000_0001_0000_0000_0001_{FRED}_0020_0001_c00c_0020_0001_0000003c_0006_2000_7f2a1602";

/// Replies to them: granted for a minute, refused since it is active, and lost since there is a conflict.
const GRANTED: &str = "0001_ad80_0000_0001_0000_0000_{FRED}_0020_0001_0000003c_0006_2000_7f2a1602";

const SECOND_GRANTED: &str =
    "0002_ad80_0000_0001_0000_0000_{FRED}_0020_0001_0000003c_0006_2000_7f2a1602";

const REFUSED: &str = "0001_ad86_0000_0001_0000_0000_{FRED}_0020_0001_00000000_0006_2000_7f2a1602";

const CONFLICT: &str = "0002_ad87_0000_0001_0000_0000_{FRED}_0020_0001_00000000_0006_2000_7f2a1602";

/// What is said of a port that fails for good; of one that fails where there is no end; and of a clock.
pub const FAILED: &str = "nbt: 127.42.22.2:20138: receive: Connection refused (os error 111)\n";

pub const GIVES_UP: &str = "\
nbt: 127.42.22.2:20138: receive: Connection refused (os error 111); going on
nbt: 127.42.22.2:20138: receive: Connection refused (os error 111)
";

pub const NO_CLOCK: &str = "nbt: 127.42.22.2:20138: clock: unsupported\n";

pub const NO_TIME: &str = "nbt: 127.42.22.2:20138: clock: the time is 1970\n";

static SERVERS: [Row; 9] = [
    Row {
        about: "BIND, LONGEST and TURNS: silent for 70 s, and then leases of 70 s at most, of two names and more",
        words: "nbt serve 127.42.22.2:20138 1000 70 5",
        moments: &[1_000_000, 1_000_000, 1_069_999, 1_070_000, 1_070_000],
        sends: &[(1, FIRST), (1, AGAIN), (1, TEAM)],
        breaks_at: 0,
        sets: &[],
        status: 0,
        readings: 5,
        text: "turns 5 replies 2 lost 0\n",
        errors: "",
        sent: &[
            "0002_ad80_0000_0001_0000_0000_{FRED}_0020_0001_00000046_0006_2000_7f2a1603",
            TEAM_GRANTED,
        ],
    },
    Row {
        about: "a millisecond before the silence is over",
        words: "nbt serve 127.42.22.2:20138 1000 60 1",
        moments: &[1_000_000, 1_000_000, 1_059_999],
        sends: &[(1, FIRST)],
        breaks_at: 0,
        sets: &[],
        status: 0,
        readings: 3,
        text: "turns 1 replies 0 lost 0\n",
        errors: "",
        sent: &[],
    },
    Row {
        about: "the silence is over",
        words: "nbt serve 127.42.22.2:20138 1000 60 1",
        moments: &[1_000_000, 1_000_000, 1_060_000],
        sends: &[(1, FIRST)],
        breaks_at: 0,
        sets: &[],
        status: 0,
        readings: 3,
        text: "turns 1 replies 1 lost 0\n",
        errors: "",
        sent: &[FIRST_GRANTED],
    },
    Row {
        about: "a datagram at whose moment the clock goes back is lost",
        words: "nbt serve 127.42.22.2:20138 1000 60 4",
        moments: &[1_000_000, 1_000_000, 1_060_000, 1_059_999, 1_060_001],
        sends: &[(1, FIRST), (1, TEAM), (1, AGAIN)],
        breaks_at: 0,
        sets: &[],
        status: 0,
        readings: 5,
        text: "turns 4 replies 2 lost 1\n",
        errors: "",
        sent: &[FIRST_GRANTED, AGAIN_GRANTED],
    },
    Row {
        about: "with no end it says that it has begun before it receives anything",
        words: "nbt serve 127.42.22.2:20138 1000 60 --forever",
        moments: &[1_000_000],
        sends: &[],
        breaks_at: 2,
        sets: &[],
        status: 3,
        readings: 2,
        text: "serving 127.42.22.2:20138, silent for 60 s\ndevice\n",
        errors: GIVES_UP,
        sent: &[],
    },
    Row {
        about: "with no end it says that it has begun, and goes on until its port fails 100 times in a row",
        words: "nbt serve 127.42.22.2:20138 1000 60 --forever",
        moments: &[1_000_000, 1_000_000, 1_060_000, 1_060_000],
        sends: &[(1, FIRST), (1, "00")],
        breaks_at: 4,
        sets: &[],
        status: 3,
        readings: 4,
        text: "serving 127.42.22.2:20138, silent for 60 s\ndevice\n",
        errors: GIVES_UP,
        sent: &[FIRST_GRANTED],
    },
    Row {
        about: "of turns that its port doesn't bear it says nothing but that",
        words: "nbt serve 127.42.22.2:20138 1000 60 9",
        moments: &[1_000_000, 1_000_000, 1_060_000, 1_060_000],
        sends: &[(1, FIRST), (1, "00")],
        breaks_at: 4,
        sets: &[],
        status: 3,
        readings: 4,
        text: "device\n",
        errors: FAILED,
        sent: &[FIRST_GRANTED],
    },
    Row {
        about: "a clock that can't be read",
        words: "nbt serve 127.42.22.2:20138 1000 60 1",
        moments: &[],
        sends: &[],
        breaks_at: 0,
        sets: &[],
        status: 3,
        readings: 1,
        text: "device\n",
        errors: NO_CLOCK,
        sent: &[],
    },
    Row {
        about: "a clock at 0",
        words: "nbt serve 127.42.22.2:20138 1000 60 1",
        moments: &[0, 1],
        sends: &[],
        breaks_at: 0,
        sets: &[],
        status: 3,
        readings: 1,
        text: "device\n",
        errors: NO_TIME,
        sent: &[],
    },
];

static NODES: [Row; 5] = [
    Row {
        about: "each argument: it asks for 300 s as a group, once more than 1,403 ms have passed, and is granted 70 s at most",
        words: "nbt node 127.42.22.2:20138 127.42.22.3:20139 700 70 FRED group 300 4",
        moments: &[1_000_000, 1_000_000, 1_001_403, 1_001_403, 1_001_404],
        // The first reply comes before the node asks, so it replies to nothing.
        sends: &[
            (
                3,
                "0001_ad80_0000_0001_0000_0000_{FRED}_0020_0001_0000002c_0006_a000_7f2a1602",
            ),
            (
                5,
                "0001_ad80_0000_0001_0000_0000_{FRED}_0020_0001_00000064_0006_a000_7f2a1602",
            ),
        ],
        breaks_at: 0,
        sets: &[],
        status: 0,
        readings: 10,
        text: "granted 70\nheld\n",
        errors: "",
        sent: &[
            "0001_2900_0001_0000_0000_0001_{FRED}_0020_0001_c00c_0020_0001_0000012c_0006_a000_7f2a1602",
        ],
    },
    Row {
        about: "a name is granted, and renewed after half its time",
        words: "nbt node 127.42.22.2:20138 127.42.22.3:20139 1000 60 FRED unique 60 3",
        moments: &[
            1_000_000, 1_000_000, 1_002_005, 1_002_005, 1_032_004, 1_032_004, 1_032_005,
        ],
        sends: &[(3, GRANTED), (5, SECOND_GRANTED), (7, SECOND_GRANTED)],
        breaks_at: 0,
        sets: &[],
        status: 0,
        readings: 8,
        text: "granted 60\nrenewed 60\nheld\n",
        errors: "",
        sent: &[ASKS, REFRESHES],
    },
    Row {
        about: "a name is refused, granted and lost",
        words: "nbt node 127.42.22.2:20138 127.42.22.3:20139 1000 60 FRED unique 60 5",
        moments: &[
            1_000_000, 1_000_000, 1_002_004, 1_002_004, 1_002_005, 1_002_005, 1_004_009, 1_004_009,
            1_004_010,
        ],
        sends: &[
            (3, GRANTED),
            (5, REFUSED),
            (9, SECOND_GRANTED),
            (11, CONFLICT),
        ],
        breaks_at: 0,
        sets: &[],
        status: 0,
        readings: 12,
        text: "refused 6\ngranted 60\nlost\nnot held\n",
        errors: "",
        sent: &[ASKS, ASKS_AGAIN],
    },
    Row {
        about: "with no end it goes on until its port fails 100 times in a row",
        words: "nbt node 127.42.22.2:20138 127.42.22.3:20139 1000 60 FRED unique 60 --forever",
        moments: &[1_000_000, 1_000_000, 1_002_005],
        sends: &[(3, GRANTED)],
        breaks_at: 6,
        sets: &[],
        status: 3,
        readings: 106,
        text: "granted 60\ndevice\n",
        errors: GIVES_UP,
        sent: &[ASKS],
    },
    Row {
        about: "a clock that can't be read",
        words: "nbt node 127.42.22.2:20138 127.42.22.3:20139 1000 60 FRED unique 60 1",
        moments: &[],
        sends: &[],
        breaks_at: 0,
        sets: &[],
        status: 3,
        readings: 1,
        text: "device\n",
        errors: NO_CLOCK,
        sent: &[],
    },
];

/// A query for FRED of the other end, and the reply to it.
const ASKS_FOR_FRED: &str = "0004_0100_0001_0000_0000_0000_{FRED}_0020_0001";

const HAS_FRED: &str = "0004_8580_0000_0001_0000_0000_{FRED}_0020_0001_0000003c_0006_2000_7f2a1603";

/// What is said of a port that fails three times in a row, is well again, and then fails for good.
const OUTLASTED: &str = "\
nbt: 127.42.22.2:20138: receive: Connection refused (os error 111); going on
nbt: the port is well again after 3 failures in a row
nbt: 127.42.22.2:20138: receive: Connection refused (os error 111); going on
nbt: 127.42.22.2:20138: receive: Connection refused (os error 111)
";

/// A server and a node whose ports do so, and the reading at which each breaks again.
static OUTLASTING: [(Row, usize); 2] = [(SERVER_OUTLASTS, 6), (NODE_OUTLASTS, 9)];

const SERVER_OUTLASTS: Row = Row {
    about: "after three failures it goes on with the leases that it has",
    words: "nbt serve 127.42.22.2:20138 1000 60 --forever",
    moments: &[1_000_000, 1_000_000, 1_060_000],
    sends: &[(1, FIRST), (1, "00"), (WELL, ASKS_FOR_FRED), (WELL, "00")],
    breaks_at: 4,
    sets: &[],
    status: 3,
    readings: 6,
    text: "serving 127.42.22.2:20138, silent for 60 s\ndevice\n",
    errors: OUTLASTED,
    sent: &[FIRST_GRANTED, HAS_FRED],
};

const NODE_OUTLASTS: Row = Row {
    about: "after three failures it renews the name that it holds",
    words: "nbt node 127.42.22.2:20138 127.42.22.3:20139 1000 60 FRED unique 60 --forever",
    moments: &[
        1_000_000, 1_000_000, 1_002_005, 1_002_005, 1_002_005, 1_002_005, 1_002_005, 1_032_005,
    ],
    sends: &[(3, GRANTED), (WELL, SECOND_GRANTED)],
    breaks_at: 4,
    sets: &[],
    status: 3,
    readings: 109,
    text: "granted 60\nrenewed 60\ndevice\n",
    errors: OUTLASTED,
    sent: &[ASKS, REFRESHES],
};

/// The first line of each row of a node.
static FIRST_LINES: [&str; 5] = [
    "granted 70\n",
    "granted 60\n",
    "refused 6\n",
    "granted 60\n",
    "device\n",
];

/// The machine of a row.
pub fn machine_of<'a, R>(
    rt: &'a R,
    port: &'a UdpSocket,
    other: &'a UdpSocket,
    street: &'a Street,
    row: &Row,
) -> Machine<'a, R>
where
    R: Net<Stream = TcpStream, Listener = TcpListener>,
{
    Machine {
        moments: row.moments,
        sends: row.sends,
        breaks_at: row.breaks_at,
        sets: row.sets,
        ..Machine::new(rt, port, other, street)
    }
}

/// Runs a row's command, with this last word if it isn't empty, while the other end sends. Where its port breaks again at a reading,
/// it is well after three failures before. A command that goes on waits after each failure but the last: 99 times, and those three.
pub fn expect_row<R>(rt: &R, row: &Row, last: &str, breaks_again_at: usize)
where
    R: Abort + AllocGlobal + Net<Stream = TcpStream, Listener = TcpListener> + Files<File = File>,
{
    let well_after = if breaks_again_at == 0 { 0 } else { 3 };
    let goes_on = row.errors.split_once("; going on").is_some();
    let waits = if goes_on && row.status == 3 { 99 } else { 0 };
    let port = UdpSocket::bind(rt, OWN).expect(rt, "its port");
    let other = UdpSocket::bind(rt, OTHER).expect(rt, "the other end's port");
    let street = Street::new();
    let machine = Machine {
        well_after,
        breaks_again_at,
        ..machine_of(rt, &port, &other, &street, row)
    };
    expect_ending(
        rt, &machine, row.about, row.words, last, row.status, row.text, row.errors,
    );
    let about = (row.about, row.words);
    expect_eq(rt, &about, &machine.readings.get(), &row.readings);
    expect_eq(rt, &about, &machine.sleeps.get(), &(well_after + waits));
    let wait = Some(Duration::from_millis(1));
    expect(rt, &about, other.set_read_timeout(wait).is_ok());
    expect_sent(rt, row, &other);
}

/// What came to the other end: these, each from the command's own port, and nothing else.
fn expect_sent<R: Abort>(rt: &R, row: &Row, other: &UdpSocket) {
    let about = (row.about, row.words);
    let mut buffer = [0; 600];
    for text in row.sent {
        match (other.recv_from(&mut buffer), octets_of(text)) {
            (Ok((count, from)), Ok(octets)) => {
                expect_eq(rt, &about, &&buffer[..count], &octets.as_slice());
                expect(rt, &about, OWN.parse() == Ok(from));
            }
            _ => expect(rt, &about, false),
        }
    }
    expect(rt, &about, other.recv_from(&mut buffer).is_err());
}

fn expect_rows<R>(rt: &R, rows: &[Row])
where
    R: Abort + AllocGlobal + Net<Stream = TcpStream, Listener = TcpListener> + Files<File = File>,
{
    for row in rows {
        expect_row(rt, row, "", 0);
    }
}

#[test]
fn commands_with_another_end(rt: HostRuntime) {
    expect_rows(&rt, &SERVERS);
    expect_rows(&rt, &NODES);
    expect_rows(&rt, &LOOKUPS);
    expect_rows(&rt, &STATUSES);
    expect_rows(&rt, &HOSTS);
    expect_rows(&rt, &NAME_SERVERS);
    expect_rows(&rt, &SCANS);
    expect_rows(&rt, &RELEASING);
    for (row, breaks_again_at) in &OUTLASTING {
        expect_row(&rt, row, "", *breaks_again_at);
    }
}

/// Runs a row's command, of which no line can be flushed: the first ends it.
fn expect_untold<R>(rt: &R, row: &Row, line: &str)
where
    R: Abort + AllocGlobal + Net<Stream = TcpStream, Listener = TcpListener> + Files<File = File>,
{
    let port = UdpSocket::bind(rt, OWN).expect(rt, "its port");
    let other = UdpSocket::bind(rt, OTHER).expect(rt, "the other end's port");
    let street = Street::new();
    let machine = machine_of(rt, &port, &other, &street, row);
    let mut paper = LimitedWriter::stuck();
    let mut errors = LimitedWriter::new();
    let status = status_of(rt, &machine, row.words, "", &mut paper, &mut errors);
    expect_printed(rt, &row.about, status, &paper, 3, line.as_bytes());
}

/// An event's line that can't be flushed ends the node, and nothing is printed after it.
#[test]
fn an_event_that_can_not_be_told(rt: HostRuntime) {
    for (row, line) in NODES.iter().zip(FIRST_LINES.iter()) {
        expect_untold(&rt, row, line);
    }
}
