//! The command `nbns`: what it serves, logs and keeps over UDP and clocks that are set.

use super::ending::expect_ending;
use super::expect::{expect, expect_eq};
use super::serving::{GIVES_UP, NO_CLOCK, NO_TIME, Row, expect_row};
use std::{env, fs, process};

/// The other end's requests: for FRED, unique; its refresh, its release, and a query for it.
const ASKS: &str =
    "0001_2900_0001_0000_0000_0001_{FRED}_0020_0001_c00c_0020_0001_00000000_0006_6000_7f2a1603";

const REFRESHES: &str =
    "0002_4000_0001_0000_0000_0001_{FRED}_0020_0001_c00c_0020_0001_00000000_0006_6000_7f2a1603";

const RELEASES: &str =
    "0003_3000_0001_0000_0000_0001_{FRED}_0020_0001_c00c_0020_0001_00000000_0006_6000_7f2a1603";

const QUERIES: &str = "0004_0100_0001_0000_0000_0000_{FRED}_0020_0001";

/// For FRED at an address that isn't the sender's, which is refused.
const ASKS_FOR_ANOTHER: &str =
    "0005_2900_0001_0000_0000_0001_{FRED}_0020_0001_c00c_0020_0001_00000000_0006_6000_7f2a1604";

/// The replies to them where the longest lease is a minute.
const GRANTED: &str = "0001_ad80_0000_0001_0000_0000_{FRED}_0020_0001_0000003c_0006_2000_7f2a1603";

const RENEWED: &str = "0002_ad80_0000_0001_0000_0000_{FRED}_0020_0001_0000003c_0006_2000_7f2a1603";

const RELEASED: &str = "0003_b400_0000_0001_0000_0000_{FRED}_0020_0001_00000000_0006_2000_7f2a1603";

const FOUND: &str = "0004_8580_0000_0001_0000_0000_{FRED}_0020_0001_0000003c_0006_2000_7f2a1603";

const REFUSED: &str = "0005_ad85_0000_0001_0000_0000_{FRED}_0020_0001_00000000_0006_2000_7f2a1604";

const NOT_FOUND: &str = "0004_8583_0000_0001_0000_0000_{FRED}_000a_0001_00000000_0000";

/// The replies about FRED where it is fixed for 127.42.22.4, and to who asks for TEAM, and may not register.
const FOUND_FIXED: &str =
    "0004_8580_0000_0001_0000_0000_{FRED}_0020_0001_0000003c_0006_2000_7f2a1604";

const REFUSED_FIXED: &str =
    "0001_ad86_0000_0001_0000_0000_{FRED}_0020_0001_00000000_0006_2000_7f2a1603";

const ASKS_FOR_TEAM: &str =
    "0006_2900_0001_0000_0000_0001_{TEAM}_0020_0001_c00c_0020_0001_00000000_0006_a000_7f2a1603";

const NOT_ALLOWED: &str =
    "0006_ad85_0000_0001_0000_0000_{TEAM}_0020_0001_00000000_0006_a000_7f2a1603";

/// As nmbd registers its names (captured, with FRED for its name), and the reply; and as a domain controller joins a group.
const ASKS_AS_NMBD: &str =
    "60f4_7900_0001_0000_0000_0001_{FRED}_0020_0001_c00c_0020_0001_00000014_0006_6000_7f2a1603";

const GRANTED_TO_NMBD: &str =
    "60f4_ad80_0000_0001_0000_0000_{FRED}_0020_0001_00000014_0006_2000_7f2a1603";

const JOINS: &str =
    "15e9_2800_0001_0000_0000_0001_{TEAM}_0020_0001_c00c_0020_0001_00000014_0006_c000_7f2a1603";

const JOINED: &str = "15e9_ad80_0000_0001_0000_0000_{TEAM}_0020_0001_00000014_0006_a000_7f2a1603";

/// 2026-11-24T09:11:03Z, when the server starts, and when it is silent no longer.
const START: u64 = 1_795_511_463_000;

const OPEN: u64 = START + 60_000;

/// A millisecond before it is, and one after.
const SILENT: u64 = OPEN - 1;

const END: u64 = OPEN + 1;

/// When it starts again.
const AGAIN: u64 = END + 1;

/// What is said of the longest lease that is not long, and of one that is.
const LONG: &str = "nbt: longest lease 3601 s: after each start the server is silent for as long\n";

pub static NAME_SERVERS: [Row; 11] = [
    Row {
        about: "silent for the longest lease, and then it serves, until its time is over",
        words: "nbt nbns --bind 127.42.22.2:20138 --longest 60s --for 60001ms",
        moments: &[
            START, START, START, START, START, SILENT, SILENT, OPEN, OPEN, OPEN, END,
        ],
        sends: &[(1, ASKS), (1, REFRESHES), (1, QUERIES), (1, RELEASES)],
        breaks_at: 0,
        sets: &[],
        status: 0,
        readings: 12,
        text: "serving 127.42.22.2:20138, silent for 60 s until 2026-11-24T09:12:03Z\n",
        errors: "",
        sent: &[RENEWED, FOUND, RELEASED],
    },
    Row {
        about: "the same, while the time of day is set forward by an hour and then back by one",
        words: "nbt nbns --bind 127.42.22.2:20138 --longest 60s --for 60001ms",
        moments: &[
            START, START, START, START, START, SILENT, SILENT, OPEN, OPEN, OPEN, END,
        ],
        sends: &[(1, ASKS), (1, REFRESHES), (1, QUERIES), (1, RELEASES)],
        breaks_at: 0,
        sets: &[(6, 3_600_000, 0), (9, 0, 3_600_000)],
        status: 0,
        readings: 12,
        text: "serving 127.42.22.2:20138, silent for 60 s until 2026-11-24T09:12:03Z\n",
        errors: "",
        sent: &[RENEWED, FOUND, RELEASED],
    },
    Row {
        about: "it logs what it made of each, but of a query nothing",
        words: "nbt nbns --bind 127.42.22.2:20138 --longest 60s --for 60001ms --log",
        moments: &[
            START, START, START, START, START, OPEN, OPEN, OPEN, OPEN, OPEN, OPEN, OPEN, END,
        ],
        sends: &[
            (1, ASKS),
            (1, REFRESHES),
            (1, ASKS_FOR_ANOTHER),
            (1, "00"),
            (1, FOUND),
            (1, RELEASES),
            (1, QUERIES),
        ],
        breaks_at: 0,
        sets: &[],
        status: 0,
        readings: 14,
        text: "\
serving 127.42.22.2:20138, silent for 60 s until 2026-11-24T09:12:03Z
2026-11-24T09:12:03Z granted FRED#20 127.42.22.3 unique 60 s
2026-11-24T09:12:03Z renewed FRED#20 127.42.22.3 unique 60 s
2026-11-24T09:12:03Z refused FRED#20 127.42.22.4 unique from 127.42.22.3:20139: not its own address (5)
2026-11-24T09:12:03Z malformed from 127.42.22.3:20139: 1 octets
2026-11-24T09:12:03Z foreign from 127.42.22.3:20139: 62 octets
2026-11-24T09:12:03Z released FRED#20 127.42.22.3 unique
",
        errors: "",
        sent: &[GRANTED, RENEWED, REFUSED, RELEASED, NOT_FOUND],
    },
    Row {
        about: "registrations of Samba's programs are taken for what they are to mean",
        words: "nbt nbns --bind 127.42.22.2:20138 --longest 60s --for 60001ms",
        moments: &[START, START, START, START, START, OPEN, OPEN, END],
        sends: &[(1, ASKS_AS_NMBD), (1, JOINS)],
        breaks_at: 0,
        sets: &[],
        status: 0,
        readings: 9,
        text: "serving 127.42.22.2:20138, silent for 60 s until 2026-11-24T09:12:03Z\n",
        errors: "",
        sent: &[GRANTED_TO_NMBD, JOINED],
    },
    Row {
        about: "unless it is strict",
        words: "nbt nbns --bind 127.42.22.2:20138 --longest 60s --for 60001ms --strict --log",
        moments: &[START, START, START, START, START, END],
        sends: &[(1, ASKS_AS_NMBD)],
        breaks_at: 0,
        sets: &[],
        status: 0,
        readings: 7,
        text: "\
serving 127.42.22.2:20138, silent for 60 s until 2026-11-24T09:12:03Z
2026-11-24T09:12:03Z malformed from 127.42.22.3:20139: 68 octets
",
        errors: "",
        sent: &[],
    },
    Row {
        about: "LIFE, and a longest lease of an hour, of which nothing is said",
        words: "nbt nbns --bind 127.42.22.2:20138 --life 60s --longest 60m --for 0ms",
        moments: &[START],
        sends: &[],
        breaks_at: 0,
        sets: &[],
        status: 0,
        readings: 6,
        text: "serving 127.42.22.2:20138, silent for 3600 s until 2026-11-24T10:11:03Z\n",
        errors: "",
        sent: &[],
    },
    Row {
        about: "one above an hour",
        words: "nbt nbns --bind 127.42.22.2:20138 --longest 3601s --for 0ms",
        moments: &[START],
        sends: &[],
        breaks_at: 0,
        sets: &[],
        status: 0,
        readings: 6,
        text: "serving 127.42.22.2:20138, silent for 3601 s until 2026-11-24T10:11:04Z\n",
        errors: LONG,
        sent: &[],
    },
    Row {
        about: "without them a datagram lives 1 s, and the longest lease is 5 min",
        words: "nbt nbns --bind 127.42.22.2:20138 --for 0ms",
        moments: &[START],
        sends: &[],
        breaks_at: 0,
        sets: &[],
        status: 0,
        readings: 6,
        text: "serving 127.42.22.2:20138, silent for 300 s until 2026-11-24T09:16:03Z\n",
        errors: "",
        sent: &[],
    },
    Row {
        about: "a clock that can't be read",
        words: "nbt nbns --bind 127.42.22.2:20138 --longest 60s",
        moments: &[],
        sends: &[],
        breaks_at: 0,
        sets: &[],
        status: 3,
        readings: 1,
        text: "device\n",
        errors: NO_CLOCK,
        sent: &[],
    },
    Row {
        about: "a clock that tells 1970",
        words: "nbt nbns --bind 127.42.22.2:20138 --longest 60s",
        moments: &[0],
        sends: &[],
        breaks_at: 0,
        sets: &[],
        status: 3,
        readings: 3,
        text: "device\n",
        errors: NO_TIME,
        sent: &[],
    },
    Row {
        about: "it goes on until a port fails 100 times in a row, and says which, and why it failed",
        words: "nbt nbns --bind 127.42.22.5:20138 --bind 127.42.22.2:20138 --longest 60s",
        moments: &[START],
        sends: &[],
        breaks_at: 5,
        sets: &[],
        status: 3,
        readings: 5,
        text: "serving 127.42.22.5:20138, 127.42.22.2:20138, silent for 60 s until 2026-11-24T09:12:03Z\ndevice\n",
        errors: GIVES_UP,
        sent: &[],
    },
];

/// A server that keeps its leases, at a path that is its last word. One is granted, and then another: a second isn't over yet, so the list has the first alone.
const KEPT: Row = Row {
    about: "the list of leases",
    words: "nbt nbns --bind 127.42.22.2:20138 --longest 60s --for 60001ms --leases",
    moments: &[START, START, START, START, START, OPEN, OPEN, END],
    sends: &[(1, ASKS), (1, JOINS)],
    breaks_at: 0,
    sets: &[],
    status: 0,
    readings: 9,
    text: "serving 127.42.22.2:20138, silent for 60 s until 2026-11-24T09:12:03Z\n",
    errors: "",
    sent: &[GRANTED, JOINED],
};

/// The list is in the folder for temporary files, where no other run of the tests has one.
#[test]
fn a_list_of_leases(rt: HostRuntime) {
    let folder = env::temp_dir(&rt).expect(&rt, "a folder for temporary files");
    let folder = folder.as_path().to_str().expect(&rt, "a folder as text");
    let id = process::id(rt.process());
    let path = format!(in rt.alloc(); "{folder}/nbt-tests-{id}-leases").expect(&rt, "memory");
    expect_row(&rt, &KEPT, path.as_str(), 0);
    let list = fs::read_to_string(&rt, path.as_str()).expect(&rt, "the list of leases");
    expect_eq(
        &rt,
        &KEPT.about,
        &list.as_str(),
        &"# live leases of nbt nbns\nFRED#20 unique 127.42.22.3 2026-11-24T09:13:03Z\n",
    );
    fs::remove_file(&rt, path.as_str()).expect(&rt, "the list of leases");
}

/// Servers with a file that is read elsewhere, at a path that is their last word, and what it has, or the line that it begins with.
static SHOWN: [(Row, &str); 2] = [
    (
        Row {
            about: "the hosts",
            words: "nbt nbns --bind 127.42.22.2:20138 --longest 60s --for 60001ms --hosts",
            ..KEPT
        },
        "# hosts of nbt nbns\n127.42.22.3 FRED\n",
    ),
    (
        Row {
            about: "the statistics",
            words: "nbt nbns --bind 127.42.22.2:20138 --longest 60s --for 60001ms --stats",
            ..KEPT
        },
        "# statistics of nbt nbns\n# HELP nbt_nbns_requests_total ",
    ),
];

/// The files are in the folder for temporary files, where no other run of the tests has them.
#[test]
fn files_that_are_read_elsewhere(rt: HostRuntime) {
    let folder = env::temp_dir(&rt).expect(&rt, "a folder for temporary files");
    let folder = folder.as_path().to_str().expect(&rt, "a folder as text");
    let id = process::id(rt.process());
    let path = format!(in rt.alloc(); "{folder}/nbt-tests-{id}-shown").expect(&rt, "memory");
    for (row, begin) in &SHOWN {
        expect_row(&rt, row, path.as_str(), 0);
        let text = fs::read_to_string(&rt, path.as_str()).expect(&rt, "the file");
        expect(&rt, &row.about, text.as_str().starts_with(*begin));
        fs::remove_file(&rt, path.as_str()).expect(&rt, "the file");
    }
}

/// Servers with a file of fixed names, whose path is the last word: a query and a registration while it is silent, by a machine that may
/// not register, and by another than the name's.
static FIXED: [Row; 2] = [
    Row {
        about: "a fixed name is found while the server is silent, and another machine is refused it",
        words: "nbt nbns --bind 127.42.22.2:20138 --longest 60s --for 60001ms --fixed",
        moments: &[
            START, START, START, START, START, SILENT, SILENT, SILENT, END,
        ],
        sends: &[(1, QUERIES), (1, ASKS)],
        breaks_at: 0,
        sets: &[],
        status: 0,
        readings: 10,
        text: "serving 127.42.22.2:20138, silent for 60 s until 2026-11-24T09:12:03Z\n",
        errors: "nbt: refused FRED#20 127.42.22.3: a fixed name\n",
        sent: &[FOUND_FIXED, REFUSED_FIXED],
    },
    Row {
        about: "a machine of no network is refused each name, and one that is fixed is found",
        words: "nbt nbns --bind 127.42.22.2:20138 --longest 60s --for 60001ms --allow 127.42.22.2 --allow 127.42.22.4/31 --strict --fixed",
        moments: &[
            START, START, START, START, START, SILENT, SILENT, SILENT, END,
        ],
        sends: &[(1, QUERIES), (1, ASKS_FOR_TEAM)],
        breaks_at: 0,
        sets: &[],
        status: 0,
        readings: 10,
        text: "serving 127.42.22.2:20138, silent for 60 s until 2026-11-24T09:12:03Z\n",
        errors: "nbt: refused TEAM#20 127.42.22.3: not allowed\n",
        sent: &[FOUND_FIXED, NOT_ALLOWED],
    },
];

/// Files that aren't read: no such file, and one whose first line has more words than three.
static NOT_FIXED: [Row; 2] = [
    Row {
        about: "a file that isn't there",
        words: "nbt nbns --bind 127.42.22.2:20138 --fixed",
        moments: &[START],
        sends: &[],
        breaks_at: 0,
        sets: &[],
        status: 3,
        readings: 0,
        text: "device\n",
        errors: "nbt: /proc/no-such-file: No such file or directory (os error 2)\n",
        sent: &[],
    },
    Row {
        about: "a file with a wrong first line",
        words: "nbt nbns --bind 127.42.22.2:20138 --fixed",
        moments: &[START],
        sends: &[],
        breaks_at: 0,
        sets: &[],
        status: 2,
        readings: 0,
        text: "",
        errors: "nbt: /proc/version: line 1: a name, its kind and an address are wanted, as FILER#20 unique 192.0.2.7\n",
        sent: &[],
    },
];

/// The file is in the folder for temporary files, where no other run of the tests has one.
#[test]
fn fixed_names_and_networks(rt: HostRuntime) {
    let folder = env::temp_dir(&rt).expect(&rt, "a folder for temporary files");
    let folder = folder.as_path().to_str().expect(&rt, "a folder as text");
    let id = process::id(rt.process());
    let path = format!(in rt.alloc(); "{folder}/nbt-tests-{id}-fixed").expect(&rt, "memory");
    fs::write(&rt, path.as_str(), "# one\n\nfred unique 127.42.22.4\n").expect(&rt, "a file");
    for row in &FIXED {
        expect_row(&rt, row, path.as_str(), 0);
    }
    fs::remove_file(&rt, path.as_str()).expect(&rt, "the file");
    expect_row(&rt, &NOT_FIXED[0], "/proc/no-such-file", 0);
    expect_row(&rt, &NOT_FIXED[1], "/proc/version", 0);
}

/// A list that another program keeps, given as a file of fixed names: its text, the line that can't be taken, what is wrong with it, and what
/// the file looks like.
static OTHER_LISTS: [(&str, usize, &str, &str); 3] = [
    (
        "VERSION 1 0\n\"FILER#20\" 1732528800 192.0.2.7 64R\n",
        1,
        "kind: unique or group is wanted",
        "wins.dat",
    ),
    (
        "# The machines of an office.\n192.0.2.7\tFILER\t#PRE\n",
        2,
        "kind: unique or group is wanted",
        "lmhosts",
    ),
    (
        "192.0.2.9 PRINTER\n",
        1,
        "a name, its kind and an address are wanted, as FILER#20 unique 192.0.2.7",
        "lmhosts",
    ),
];

/// The file is in the folder for temporary files, where no other run of the tests has one.
#[test]
fn lists_of_other_programs_as_fixed_names(rt: HostRuntime) {
    let folder = env::temp_dir(&rt).expect(&rt, "a folder for temporary files");
    let folder = folder.as_path().to_str().expect(&rt, "a folder as text");
    let id = process::id(rt.process());
    let path = format!(in rt.alloc(); "{folder}/nbt-tests-{id}-list").expect(&rt, "memory");
    let line = "nbt nbns --bind 127.42.22.2:20138 --fixed";
    for (text, number, fault, kind) in &OTHER_LISTS {
        fs::write(&rt, path.as_str(), *text).expect(&rt, "a file");
        let said = format!(in rt.alloc();
            "nbt: {path}: line {number}: {fault}; it looks like {kind}: nbt import {path} makes a file of fixed names of it\n"
        ).expect(&rt, "memory");
        expect_ending(&rt, &rt, text, line, path.as_str(), 2, "", said.as_str());
        fs::remove_file(&rt, path.as_str()).expect(&rt, "the file");
    }
}

/// Servers over one state, whose folder is the last word: the first grants two leases, the second and the third go on with them, the
/// fourth has another limit, the port of the fifth breaks, and of the long silence of the sixth nothing is said: it is no silence at a restart.
static STATES: [Row; 6] = [
    Row {
        about: "nothing was kept",
        words: "nbt nbns --bind 127.42.22.2:20138 --longest 60s --for 60001ms --state",
        moments: &[
            START, START, START, START, START, START, START, START, OPEN, OPEN, OPEN, OPEN, OPEN,
            OPEN, OPEN, OPEN, OPEN, END,
        ],
        sends: &[(1, ASKS), (1, JOINS)],
        breaks_at: 0,
        sets: &[],
        status: 0,
        readings: 20,
        text: "serving 127.42.22.2:20138, silent for 60 s until 2026-11-24T09:12:03Z, since nothing was kept\n",
        errors: "",
        sent: &[GRANTED, JOINED],
    },
    Row {
        about: "two leases were kept",
        words: "nbt nbns --bind 127.42.22.2:20138 --longest 60s --for 0ms --state",
        moments: &[AGAIN],
        sends: &[(1, QUERIES)],
        breaks_at: 0,
        sets: &[],
        status: 0,
        readings: 11,
        text: "serving 127.42.22.2:20138, with 2 leases kept\n",
        errors: "",
        sent: &[FOUND],
    },
    Row {
        about: "they were kept once more",
        words: "nbt nbns --bind 127.42.22.2:20138 --longest 60s --for 0ms --state",
        moments: &[AGAIN],
        sends: &[(1, QUERIES)],
        breaks_at: 0,
        sets: &[],
        status: 0,
        readings: 11,
        text: "serving 127.42.22.2:20138, with 2 leases kept\n",
        errors: "",
        sent: &[FOUND],
    },
    Row {
        about: "they were kept under another limit",
        words: "nbt nbns --bind 127.42.22.2:20138 --longest 61s --for 0ms --state",
        moments: &[AGAIN],
        sends: &[],
        breaks_at: 0,
        sets: &[],
        status: 0,
        readings: 10,
        text: "serving 127.42.22.2:20138, silent for 61 s until 2026-11-24T09:13:04Z, since another LONGEST\n",
        errors: "",
        sent: &[],
    },
    Row {
        about: "it goes on until its port fails 100 times in a row, and says why it failed",
        words: "nbt nbns --bind 127.42.22.2:20138 --longest 61s --state",
        moments: &[AGAIN],
        sends: &[],
        breaks_at: 8,
        sets: &[],
        status: 3,
        readings: 8,
        text: "serving 127.42.22.2:20138, with 0 leases kept, silent for 61 s until 2026-11-24T09:13:04Z\ndevice\n",
        errors: GIVES_UP,
        sent: &[],
    },
    Row {
        about: "a longest lease above an hour, of which nothing is said",
        words: "nbt nbns --bind 127.42.22.2:20138 --longest 3601s --for 0ms --state",
        moments: &[AGAIN],
        sends: &[],
        breaks_at: 0,
        sets: &[],
        status: 0,
        readings: 10,
        text: "serving 127.42.22.2:20138, silent for 3601 s until 2026-11-24T10:12:04Z, since another LONGEST\n",
        errors: "",
        sent: &[],
    },
];

/// The folder is in that for temporary files, where no other run of the tests has one.
#[test]
fn servers_over_a_state(rt: HostRuntime) {
    let folder = env::temp_dir(&rt).expect(&rt, "a folder for temporary files");
    let folder = folder.as_path().to_str().expect(&rt, "a folder as text");
    let id = process::id(rt.process());
    let path = format!(in rt.alloc(); "{folder}/nbt-tests-{id}-state").expect(&rt, "memory");
    fs::create_dir(&rt, path.as_str()).expect(&rt, "a folder");
    for row in &STATES {
        expect_row(&rt, row, path.as_str(), 0);
    }
    fs::remove_dir_all(&rt, path.as_str()).expect(&rt, "the folder");
}
