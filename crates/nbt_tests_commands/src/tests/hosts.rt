//! The rows of the command `host`: what it holds and tells over UDP and clocks that are set.

use super::serving::{GIVES_UP, NO_CLOCK, Row};

/// The requests of the host, each for its longest lease, 60 s: for FRED alone, for TEAM as a group; and its releases. Their ids count from the
/// last 16 bits of what both clocks show at START together, START, and START without BOOT, and of the machine's random number, which is 1.
const ASKS: &str =
    "b791_2900_0001_0000_0000_0001_{FRED}_0020_0001_c00c_0020_0001_0000003c_0006_2000_7f2a1602";

const JOINS: &str =
    "b792_2900_0001_0000_0000_0001_{TEAM}_0020_0001_c00c_0020_0001_0000003c_0006_a000_7f2a1602";

const RELEASES: &str =
    "b793_3000_0001_0000_0000_0001_{FRED}_0020_0001_c00c_0020_0001_00000000_0006_2000_7f2a1602";

const LEAVES: &str =
    "b794_3000_0001_0000_0000_0001_{TEAM}_0020_0001_c00c_0020_0001_00000000_0006_a000_7f2a1602";

/// The replies to them.
const GRANTED: &str = "b791_ad80_0000_0001_0000_0000_{FRED}_0020_0001_0000003c_0006_2000_7f2a1602";

const JOINED: &str = "b792_ad80_0000_0001_0000_0000_{TEAM}_0020_0001_0000003c_0006_a000_7f2a1602";

const RELEASED: &str = "b793_b400_0000_0001_0000_0000_{FRED}_0020_0001_00000000_0006_2000_7f2a1602";

const LEFT: &str = "b794_b400_0000_0001_0000_0000_{TEAM}_0020_0001_00000000_0006_a000_7f2a1602";

const REFUSED: &str = "b791_ad86_0000_0001_0000_0000_{FRED}_0020_0001_00000000_0006_2000_7f2a1602";

/// A query for FRED, and the answer to it.
const QUERIES: &str = "0009_0100_0001_0000_0000_0000_{FRED}_0020_0001";

const ANSWERS: &str = "0009_8500_0000_0001_0000_0000_{FRED}_0020_0001_00000000_0006_2000_7f2a1602";

/// A refresh of FRED, and its renewal.
const REFRESHES: &str =
    "b792_4000_0001_0000_0000_0001_{FRED}_0020_0001_c00c_0020_0001_0000003c_0006_2000_7f2a1602";

const RENEWED: &str = "b792_ad80_0000_0001_0000_0000_{FRED}_0020_0001_0000003c_0006_2000_7f2a1602";

/// For `fred` in the scope `lab`, as it stands.
const ASKS_AS_IT_STANDS: &str =
    "b791_2900_0001_0000_0000_0001_204747484347464745434143414341434143414341434143414341434143414341036c616200_0020_0001_c00c_0020_0001_0000003c_0006_2000_7f2a1602";

/// 2026-11-24T09:11:03Z, when the host starts; when it may ask for names, where a datagram lives 1 s; and a millisecond later.
const START: u64 = 1_795_511_463_000;

const ASK: u64 = START + 2_005;

const LATER: u64 = ASK + 1;

/// When a request without a reply is sent again.
const RETRY: u64 = ASK + 5_000;

/// The readings of a host: five at its start, and seven a turn, three at each look, and one after it.
const ASKING: &[u64] = &[
    START, START, START, START, START, ASK, ASK, ASK, ASK, ASK, ASK, ASK, LATER,
];

pub static HOSTS: [Row; 12] = [
    Row {
        about: "a name and a group, which are granted, held at the end and given back",
        words: "nbt host fred --group TEAM --server 127.42.22.3:20139 --bind 127.42.22.2:20138 --longest 60s --for 2006ms",
        moments: ASKING,
        sends: &[(8, GRANTED), (15, JOINED), (20, RELEASED), (20, LEFT)],
        breaks_at: 0,
        sets: &[],
        status: 0,
        readings: 36,
        text: "\
host 127.42.22.2:20138 asks 127.42.22.3:20139 for 2 names
2026-11-24T09:11:05Z granted FRED#20 60 s
2026-11-24T09:11:05Z granted TEAM#20 60 s
2026-11-24T09:11:05Z given back FRED#20
2026-11-24T09:11:05Z given back TEAM#20
",
        errors: "",
        sent: &[ASKS, JOINS, RELEASES, LEAVES],
    },
    Row {
        about: "it answers for a name that it holds, and logs its renewal",
        words: "nbt host FRED --server 127.42.22.3:20139 --bind 127.42.22.2:20138 --longest 60s --for 40s --log",
        moments: &[
            START,
            START,
            START,
            START,
            START,
            ASK,
            ASK,
            ASK,
            ASK,
            ASK,
            ASK,
            ASK,
            LATER,
            LATER,
            LATER,
            LATER,
            LATER,
            LATER,
            LATER,
            START + 40_000,
        ],
        sends: &[(8, GRANTED), (15, QUERIES), (22, RENEWED), (27, RELEASED)],
        breaks_at: 0,
        sets: &[],
        status: 0,
        readings: 36,
        text: "\
host 127.42.22.2:20138 asks 127.42.22.3:20139 for 1 name
2026-11-24T09:11:05Z granted FRED#20 60 s
2026-11-24T09:11:43Z renewed FRED#20 60 s
2026-11-24T09:11:43Z given back FRED#20
",
        errors: "",
        sent: &[ASKS, ANSWERS, REFRESHES, RELEASES],
    },
    Row {
        about: "a name that is refused",
        words: "nbt host FRED --server 127.42.22.3:20139 --bind 127.42.22.2:20138 --longest 60s --for 2005ms",
        moments: &[START, START, START, START, START, ASK],
        sends: &[(8, REFUSED)],
        breaks_at: 0,
        sets: &[],
        status: 5,
        readings: 22,
        text: "\
host 127.42.22.2:20138 asks 127.42.22.3:20139 for 1 name
2026-11-24T09:11:05Z refused FRED#20: held by another (6)
2026-11-24T09:11:05Z asks again for FRED#20 after 5 s, 10 s .. at most 5 min
2026-11-24T09:11:05Z not held FRED#20
",
        errors: "",
        sent: &[ASKS],
    },
    Row {
        about: "a name as it stands, with a scope, for which no reply comes; LIFE says when it asks",
        words: "nbt host fred --exact --scope lab --server 127.42.22.3:20139 --bind 127.42.22.2:20138 --life 500ms --longest 60s --for 1010ms",
        moments: &[START, START, START, START, START, START + 1_010],
        sends: &[],
        breaks_at: 0,
        sets: &[],
        status: 5,
        readings: 22,
        text: "\
host 127.42.22.2:20138 asks 127.42.22.3:20139 for 1 name
2026-11-24T09:11:04Z not held hex:66726564202020202020202020202020.lab
",
        errors: "",
        sent: &[ASKS_AS_IT_STANDS],
    },
    Row {
        about: "a millisecond before it may ask, without LIFE",
        words: "nbt host FRED --server 127.42.22.3:20139 --bind 127.42.22.2:20138 --for 2004ms",
        moments: &[START, START, START, START, START, ASK - 1],
        sends: &[],
        breaks_at: 0,
        sets: &[],
        status: 5,
        readings: 22,
        text: "\
host 127.42.22.2:20138 asks 127.42.22.3:20139 for 1 name
2026-11-24T09:11:05Z not held FRED#20
",
        errors: "",
        sent: &[],
    },
    Row {
        about: "as many names as a node holds",
        words: "nbt host A B C D E F G H I J K L M --group N --server 127.42.22.3:20139 --bind 127.42.22.2:20138 --for 2004ms",
        moments: &[START, START, START, START, START, ASK - 1],
        sends: &[],
        breaks_at: 0,
        sets: &[],
        status: 5,
        readings: 22,
        text: "\
host 127.42.22.2:20138 asks 127.42.22.3:20139 for 14 names
2026-11-24T09:11:05Z not held A#20
2026-11-24T09:11:05Z not held B#20
2026-11-24T09:11:05Z not held C#20
2026-11-24T09:11:05Z not held D#20
2026-11-24T09:11:05Z not held E#20
2026-11-24T09:11:05Z not held F#20
2026-11-24T09:11:05Z not held G#20
2026-11-24T09:11:05Z not held H#20
2026-11-24T09:11:05Z not held I#20
2026-11-24T09:11:05Z not held J#20
2026-11-24T09:11:05Z not held K#20
2026-11-24T09:11:05Z not held L#20
2026-11-24T09:11:05Z not held M#20
2026-11-24T09:11:05Z not held N#20
",
        errors: "",
        sent: &[],
    },
    Row {
        about: "the time of day is set back by an hour",
        words: "nbt host fred --group TEAM --server 127.42.22.3:20139 --bind 127.42.22.2:20138 --longest 60s --for 2006ms",
        moments: ASKING,
        sends: &[(8, GRANTED), (15, JOINED), (20, RELEASED), (20, LEFT)],
        breaks_at: 0,
        sets: &[(7, 0, 3_600_000)],
        status: 0,
        readings: 36,
        text: "\
host 127.42.22.2:20138 asks 127.42.22.3:20139 for 2 names
2026-11-24T08:11:05Z granted FRED#20 60 s
2026-11-24T08:11:05Z granted TEAM#20 60 s
2026-11-24T08:11:05Z given back FRED#20
2026-11-24T08:11:05Z given back TEAM#20
",
        errors: "",
        sent: &[ASKS, JOINS, RELEASES, LEAVES],
    },
    Row {
        about: "the machine sleeps for 201 ms between two turns, and what was granted is forgotten",
        words: "nbt host fred --group TEAM --server 127.42.22.3:20139 --bind 127.42.22.2:20138 --longest 60s --for 2006ms",
        moments: ASKING,
        sends: &[(8, GRANTED), (15, JOINED)],
        breaks_at: 0,
        sets: &[(13, 201, 0)],
        status: 5,
        readings: 29,
        text: "\
host 127.42.22.2:20138 asks 127.42.22.3:20139 for 2 names
2026-11-24T09:11:05Z granted FRED#20 60 s
2026-11-24T09:11:05Z slept, or its clock was set: asks anew
2026-11-24T09:11:05Z not held FRED#20
2026-11-24T09:11:05Z not held TEAM#20
",
        errors: "",
        sent: &[ASKS, JOINS],
    },
    Row {
        about: "it sleeps while it waits for what comes, and no query is answered",
        words: "nbt host fred --group TEAM --server 127.42.22.3:20139 --bind 127.42.22.2:20138 --longest 60s --for 2006ms",
        moments: ASKING,
        sends: &[(8, GRANTED), (15, QUERIES)],
        breaks_at: 0,
        sets: &[(17, 201, 0)],
        status: 5,
        readings: 29,
        text: "\
host 127.42.22.2:20138 asks 127.42.22.3:20139 for 2 names
2026-11-24T09:11:05Z granted FRED#20 60 s
2026-11-24T09:11:05Z slept, or its clock was set: asks anew
2026-11-24T09:11:05Z not held FRED#20
2026-11-24T09:11:05Z not held TEAM#20
",
        errors: "",
        sent: &[ASKS, JOINS],
    },
    Row {
        about: "a clock that can't be read",
        words: "nbt host FRED --server 127.42.22.3:20139 --bind 127.42.22.2:20138",
        moments: &[],
        sends: &[],
        breaks_at: 0,
        sets: &[],
        status: 3,
        readings: 1,
        text: "device\n",
        errors: NO_CLOCK,
        sent: &[],
    },
    Row {
        about: "its first request has no route, and the next one has",
        words: "nbt host fred --server 127.42.22.3:20139 --bind 127.42.22.2:20138 --longest 60s --for 7005ms",
        moments: &[
            START, START, START, START, START, ASK, ASK, ASK, ASK, ASK, ASK, ASK, RETRY,
        ],
        sends: &[],
        breaks_at: 8,
        sets: &[],
        status: 5,
        readings: 29,
        text: "\
host 127.42.22.2:20138 asks 127.42.22.3:20139 for 1 name
2026-11-24T09:11:10Z not held FRED#20
",
        errors: "\
nbt: 127.42.22.3:20139: send: Connection refused (os error 111); going on
nbt: 127.42.22.3:20139 has a route again
",
        sent: &[ASKS],
    },
    // (a turn that fails has one look at the clocks, and a reading after it)
    Row {
        about: "it goes on until its port fails 100 times in a row, and says why it failed",
        words: "nbt host FRED --server 127.42.22.3:20139 --bind 127.42.22.2:20138",
        moments: &[START],
        sends: &[],
        breaks_at: 5,
        sets: &[],
        status: 3,
        readings: 405,
        text: "host 127.42.22.2:20138 asks 127.42.22.3:20139 for 1 name\ndevice\n",
        errors: GIVES_UP,
        sent: &[],
    },
];
