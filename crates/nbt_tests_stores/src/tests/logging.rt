//! What comes of the lines of a log: each is written, or waits, or is dropped and counted.

use super::expect::expect_eq_in;
use nbt_lease::Moment;
use nbt_log::{Dates, Entry, Health};
use nbt_name::Addr;
use nbt_nbns::{Logger, Outbox, Shown};
use nbt_port::OwnReplies;
use nbt_server::Outcome;
use std::io;
use std::io::{ErrorKind, Write};
use std::process::Abort;

/// More octets than a log has here.
const ROOM: usize = 500;

/// An output that has this much room, and then a write would wait. Where it is failing, each flush fails.
#[derive(Drop)]
struct Paper {
    room: usize,
    is_failing: bool,
    text: Vec<u8>,
}

impl Paper {
    /// It has no room yet, and needs no memory for what is written.
    fn new<R: Abort + AllocGlobal>(rt: &R) -> Paper {
        Paper {
            room: 0,
            is_failing: false,
            text: Vec::with_capacity(rt.alloc(), ROOM).expect(rt, "paper"),
        }
    }
}

impl Write for Paper {
    fn write(&mut self, buf: &[u8]) -> io::Result<usize> {
        if self.room == 0 {
            return Err(io::Error::from(ErrorKind::WouldBlock));
        }
        let count = self.room.min(buf.len());
        self.text.extend_from_slice(&buf[..count])?;
        self.room -= count;
        Ok(count)
    }

    fn flush(&mut self) -> io::Result<()> {
        if self.is_failing {
            Err(io::Error::from(ErrorKind::StorageFull))
        } else {
            Ok(())
        }
    }
}

/// What is sent, into how much room, and whether flushes fail; whether that goes well, what is written then, and how many lines are dropped
/// of which no note tells.
struct Sending {
    line: &'static str,
    room: usize,
    is_failing: bool,
    goes_well: bool,
    written: &'static str,
    dropped: u64,
}

const SENDINGS: &[Sending] = &[
    Sending {
        line: "one\n",
        room: ROOM,
        is_failing: false,
        goes_well: true,
        written: "one\n",
        dropped: 0,
    },
    // Nothing waits, and the flush fails.
    Sending {
        line: "two\n",
        room: ROOM,
        is_failing: true,
        goes_well: false,
        written: "",
        dropped: 1,
    },
    // No line is none that is dropped.
    Sending {
        line: "",
        room: ROOM,
        is_failing: true,
        goes_well: false,
        written: "",
        dropped: 1,
    },
    Sending {
        line: "three\n",
        room: ROOM,
        is_failing: false,
        goes_well: true,
        written: ".. 1 lines dropped: the reader of the log was slow, or it could not be written\nthree\n",
        dropped: 0,
    },
    Sending {
        line: "four\n",
        room: 2,
        is_failing: false,
        goes_well: true,
        written: "fo",
        dropped: 0,
    },
    // What waits is written, and the flush behind it fails.
    Sending {
        line: "five\n",
        room: ROOM,
        is_failing: true,
        goes_well: false,
        written: "ur\n",
        dropped: 1,
    },
    Sending {
        line: "six\n",
        room: ROOM,
        is_failing: true,
        goes_well: false,
        written: "",
        dropped: 2,
    },
    Sending {
        line: "seven\n",
        room: ROOM,
        is_failing: false,
        goes_well: true,
        written: ".. 2 lines dropped: the reader of the log was slow, or it could not be written\nseven\n",
        dropped: 0,
    },
];

#[test]
fn a_line_that_is_not_written_is_counted(rt: HostRuntime) {
    let mut outbox = Outbox::new(rt.alloc());
    let mut paper = Paper::new(&rt);
    for row in SENDINGS {
        paper.room = row.room;
        paper.is_failing = row.is_failing;
        paper.text.clear();
        let goes_well = outbox.send(row.line, &mut paper).is_ok();
        expect_eq_in(&rt, &row.line, &goes_well, &row.goes_well);
        let written = paper.text.as_slice();
        expect_eq_in(&rt, &row.line, &written, &row.written.as_bytes());
        expect_eq_in(&rt, &row.line, &outbox.dropped(), &row.dropped);
    }
}

/// With `rt try --test --fail-alloc N` the Nth allocation is refused. A line for which that was is dropped, and so is one before which another
/// waits; the next one that is written has a note of them, and nothing else of a note is written.
#[test]
fn refused_memory_of_a_line_that_is_sent(rt: HostRuntime) {
    let mut outbox = Outbox::new(rt.alloc());
    let mut paper = Paper::new(&rt);
    let has_one = outbox.send("one\n", &mut paper).is_ok();
    let has_two = outbox.send("two\n", &mut paper).is_ok();
    paper.room = ROOM;
    let has_three = outbox.send("three\n", &mut paper).is_ok();
    let has_four = outbox.send("four\n", &mut paper).is_ok();
    let wanted = match (has_one, has_three) {
        (true, true) => {
            "one\n.. 1 lines dropped: the reader of the log was slow, or it could not be written\nthree\nfour\n"
        }
        (true, false) => {
            "one\n.. 2 lines dropped: the reader of the log was slow, or it could not be written\nfour\n"
        }
        (false, _) => {
            ".. 1 lines dropped: the reader of the log was slow, or it could not be written\ntwo\nthree\nfour\n"
        }
    };
    expect_eq_in(&rt, &"two, four", &(has_two, has_four), &(true, true));
    let written = paper.text.as_slice();
    expect_eq_in(&rt, &"written", &written, &wanted.as_bytes());
    expect_eq_in(&rt, &"dropped", &outbox.dropped(), &0);
}

/// An octet that is no message came.
fn shown(rt: &impl Abort) -> Shown {
    let from = Addr {
        ip: 0x7F00_0003,
        port: 1024,
    };
    Shown {
        entry: Some(Entry::of(from, &[0], Outcome::NoMessage)),
        at: Moment::new(61_000).expect(rt, "a moment"),
        health: Health {
            failures: 0,
            own: OwnReplies::NONE,
            barred: 0,
            syncs: 0,
            sync_milliseconds: 0,
        },
    }
}

/// With `rt try --test --fail-alloc N` the Nth allocation is refused. A line for which that was is dropped, and
/// counted, and nothing of it is written.
#[test]
fn refused_memory_of_a_line_that_is_made(rt: HostRuntime) {
    let start = Moment::zero();
    let dates = Dates {
        moment: start,
        time: start,
    };
    let mut logger = Logger::new(rt.alloc(), false, 0);
    let mut paper = Paper::new(&rt);
    paper.room = ROOM;
    for count in 0..3 {
        paper.text.clear();
        let before = logger.dropped();
        let is_logged = logger.log(&dates, &shown(&rt), &mut paper, &mut io::sink());
        let (wanted, dropped) = match (is_logged, before) {
            (true, 0) => (
                "1970-01-01T00:01:01Z malformed from 127.0.0.3:1024: 1 octets\n",
                0,
            ),
            (true, _) => (
                ".. 1 lines dropped: the reader of the log was slow, or it could not be written\n1970-01-01T00:01:01Z malformed from 127.0.0.3:1024: 1 octets\n",
                0,
            ),
            (false, _) => ("", 1),
        };
        let written = paper.text.as_slice();
        expect_eq_in(&rt, &count, &written, &wanted.as_bytes());
        expect_eq_in(&rt, &count, &logger.dropped(), &dropped);
    }
}
