//! What writers that wait for no reader hand on.

use super::expect::{expect, expect_eq};
use nbt_admin::{FirstLineWriter, JournalWriter, Lines, LossyWriter};
use std::alloc::Global;
use std::io;
use std::io::{ErrorKind, Write};
use std::process::Abort;

/// A pipe with this much room, to which a write that would wait is refused; then it has the room that its reader made meanwhile. Where it
/// fails, it refuses each write and flush so. It counts how often it was flushed.
#[derive(Drop)]
struct Pipe {
    room: usize,
    made: usize,
    failure: Option<ErrorKind>,
    text: Vec<u8>,
    flushes: usize,
}

impl Pipe {
    fn full(alloc: Global) -> Pipe {
        Pipe {
            room: 0,
            made: 0,
            failure: None,
            text: Vec::new(alloc),
            flushes: 0,
        }
    }
}

impl Write for Pipe {
    fn write(&mut self, buf: &[u8]) -> io::Result<usize> {
        if let Some(kind) = self.failure {
            return Err(io::Error::from(kind));
        }
        if self.room == 0 {
            self.room = self.made;
            return Err(io::Error::from(ErrorKind::WouldBlock));
        }
        let count = self.room.min(buf.len());
        self.text.extend_from_slice(&buf[..count])?;
        self.room -= count;
        Ok(count)
    }

    fn flush(&mut self) -> io::Result<()> {
        self.flushes = self.flushes.saturating_add(1);
        match self.failure {
            Some(kind) => Err(io::Error::from(kind)),
            None => Ok(()),
        }
    }
}

/// What is written, with how much room, whether it was taken, and all that the reader has when it was flushed.
const WRITTEN: [(&str, usize, &str); 6] = [
    ("one", 100, ""),
    (" line\ntwo\nthr", 100, "one line\ntwo\n"),
    ("ee\n", 3, "one line\ntwo\nthr"),
    ("four\nfive\n", 0, "one line\ntwo\nthr"),
    ("si", 3, "one line\ntwo\nthree\n"),
    (
        "x\n",
        500,
        "one line\ntwo\nthree\n.. 2 lines dropped: the reader of the log was slow, or it could not be written\nsix\n",
    ),
];

/// Writes these, and holds what the reader has each time to the row.
fn write_all<R: Abort>(rt: &R, lines: &mut LossyWriter<Pipe>) {
    for (text, room, expected) in WRITTEN {
        lines.get_mut().room = room;
        let is_taken = lines.write_all(text.as_bytes()).is_ok() && lines.flush().is_ok();
        expect_eq(rt, &text, &is_taken, &true);
        let got = lines.get_mut().text.as_slice();
        expect_eq(rt, &text, &got, &expected.as_bytes());
    }
}

/// A line to a closed pipe is refused, and so is one that isn't UTF-8.
fn expect_refused<R: Abort>(rt: &R, lines: &mut LossyWriter<Pipe>) {
    let other = lines.write_all(b"\xff\n").map_err(|error| error.kind());
    expect_eq(
        rt,
        &"not UTF-8",
        &other.err(),
        &Some(ErrorKind::InvalidData),
    );
    lines.get_mut().failure = Some(ErrorKind::BrokenPipe);
    let closed = lines.write_all(b"seven\n").map_err(|error| error.kind());
    expect_eq(rt, &"closed", &closed.err(), &Some(ErrorKind::BrokenPipe));
}

#[test]
fn lines_that_a_slow_reader_leaves_are_dropped_whole(rt: HostRuntime) {
    let alloc: Global = rt.alloc();
    let mut lines = LossyWriter::new(alloc, Pipe::full(alloc));
    write_all(&rt, &mut lines);
    expect_refused(&rt, &mut lines);
}

/// What is written behind a first line that has no room, with how much room; how many octets are taken, or how they are refused; and all
/// that the reader has then. Nothing written is a flush.
type Handing = (&'static str, usize, Result<usize, ErrorKind>, &'static str);

/// The first line is taken in two parts. While it waits, lines are refused, and it alone is handed on. Then each write is that of the pipe.
static HANDED: [Handing; 10] = [
    ("serving ", 0, Ok(8), ""),
    ("here\none", 0, Ok(5), ""),
    ("two\n", 0, Err(ErrorKind::WouldBlock), ""),
    ("", 3, Ok(0), "ser"),
    ("three\n", 4, Err(ErrorKind::WouldBlock), "serving"),
    ("four\nfive\n", 100, Ok(10), "serving here\nfour\nfive\n"),
    ("", 0, Ok(0), "serving here\nfour\nfive\n"),
    (
        "six\n",
        0,
        Err(ErrorKind::WouldBlock),
        "serving here\nfour\nfive\n",
    ),
    ("seven\n", 2, Ok(2), "serving here\nfour\nfive\nse"),
    ("ven", 100, Ok(3), "serving here\nfour\nfive\nseven"),
];

/// Writes a text, or flushes, and returns how many octets were taken, or how they were refused.
fn hand(lines: &mut FirstLineWriter<Pipe>, text: &str) -> Result<usize, ErrorKind> {
    let handed = if text.is_empty() {
        lines.flush().map(|()| 0)
    } else {
        lines.write(text.as_bytes())
    };
    handed.map_err(|error| error.kind())
}

/// Each flush comes to the pipe, also while something waits.
fn expect_flushed<R: Abort>(rt: &R, lines: &mut FirstLineWriter<Pipe>, room: usize) {
    let before = lines.get_mut().flushes;
    lines.get_mut().room = room;
    expect_eq(rt, &"flush", &hand(lines, ""), &Ok(0));
    expect(rt, &"flush", before < lines.get_mut().flushes);
}

#[test]
fn a_first_line_without_room_stands_before_all_others(rt: HostRuntime) {
    let alloc: Global = rt.alloc();
    let mut lines = FirstLineWriter::new(alloc, Pipe::full(alloc));
    for (text, room, taken, expected) in &HANDED {
        lines.get_mut().room = *room;
        expect_eq(&rt, text, &hand(&mut lines, text), taken);
        let got = lines.get_mut().text.as_slice();
        expect_eq(&rt, text, &got, &expected.as_bytes());
    }
}

/// A reader makes room between a write of the first line and that of the next one, which is refused all the same, and the one after it is
/// written behind the first line. Then nothing waits, and a flush that fails is a failure.
#[test]
fn a_line_that_comes_as_room_is_made_waits_for_the_first(rt: HostRuntime) {
    let alloc: Global = rt.alloc();
    let mut lines = FirstLineWriter::new(alloc, Pipe::full(alloc));
    expect_eq(&rt, &"first", &hand(&mut lines, "serving\n"), &Ok(8));
    lines.get_mut().made = 100;
    let refused = Err(ErrorKind::WouldBlock);
    expect_eq(&rt, &"one", &hand(&mut lines, "one\n"), &refused);
    expect_eq(&rt, &"two", &hand(&mut lines, "two\n"), &Ok(4));
    let got = lines.get_mut().text.as_slice();
    expect_eq(&rt, &"in order", &got, &"serving\ntwo\n".as_bytes());
    lines.get_mut().failure = Some(ErrorKind::BrokenPipe);
    let closed = Err(ErrorKind::BrokenPipe);
    expect_eq(&rt, &"flush", &hand(&mut lines, ""), &closed);
}

/// A pipe that fails otherwise refuses the first line at once, and each write after it. One that fails later refuses what waits.
#[test]
fn a_first_line_that_can_not_be_written_is_refused(rt: HostRuntime) {
    let alloc: Global = rt.alloc();
    let mut lines = FirstLineWriter::new(alloc, Pipe::full(alloc));
    lines.get_mut().failure = Some(ErrorKind::StorageFull);
    let refused = Err(ErrorKind::StorageFull);
    expect_eq(&rt, &"first", &hand(&mut lines, "serving\n"), &refused);
    expect_eq(&rt, &"next", &hand(&mut lines, "one\n"), &refused);
    let mut later = FirstLineWriter::new(alloc, Pipe::full(alloc));
    expect_eq(&rt, &"taken", &hand(&mut later, "serving\n"), &Ok(8));
    expect_flushed(&rt, &mut later, 0);
    later.get_mut().failure = Some(ErrorKind::BrokenPipe);
    let closed = Err(ErrorKind::BrokenPipe);
    expect_eq(&rt, &"closed", &hand(&mut later, "one\n"), &closed);
    expect_eq(&rt, &"flush", &hand(&mut later, ""), &closed);
}

/// A line of the output, and what stands before it for a journal.
static MARKED: [(&str, &str); 21] = [
    (
        "serving 127.0.0.1:137, silent for 300 s until 2026-11-24T09:17:03Z\n",
        "<6>",
    ),
    (
        "2026-11-24T09:12:03Z granted FILER#20 192.0.2.7 unique 300 s\n",
        "<6>",
    ),
    (
        "2026-11-24T09:12:03Z granted REFUSED#20 192.0.2.7 unique 300 s\n",
        "<6>",
    ),
    (
        "2026-11-24T09:12:03Z released FILER#20 192.0.2.7 unique\n",
        "<6>",
    ),
    (
        "2026-11-24T09:12:03Z malformed from 192.0.2.9:137: 12 octets\n",
        "<6>",
    ),
    (
        "2026-11-24T09:12:03Z refused FILER#20 192.0.2.8 unique from 192.0.2.8:137: not its own address (5)\n",
        "<4>",
    ),
    (
        "2026-11-24T09:12:03Z release refused FILER#20 192.0.2.8 unique from 192.0.2.8:137: not its own address (5)\n",
        "<4>",
    ),
    ("2026-11-24T09:12:03Z .. 1200 more refused\n", "<4>"),
    ("2026-11-24T09:12:03Z .. 1200 more release refused\n", "<4>"),
    ("2026-11-24T09:12:03Z .. 1200 more granted\n", "<6>"),
    (
        ".. 312 lines dropped: the reader of the log was slow, or it could not be written\n",
        "<4>",
    ),
    (
        "2026-11-24T09:12:03Z refused FILER#20: held by another (6)\n",
        "<4>",
    ),
    ("2026-11-24T09:12:03Z lost FILER#20\n", "<4>"),
    ("2026-11-24T09:12:03Z lapsed FILER#20\n", "<4>"),
    (
        "2026-11-24T09:12:03Z give-back unconfirmed FILER#20\n",
        "<4>",
    ),
    ("2026-11-24T09:12:03Z not held FILER#20\n", "<4>"),
    (
        "2026-11-24T09:12:03Z asks again for FILER#20 after 5 s, 10 s .. at most 5 min\n",
        "<6>",
    ),
    ("device\n", "<3>"),
    ("memory\n", "<3>"),
    ("error: unexpected argument 'x' found\n", "<3>"),
    ("\n", "<6>"),
];

/// Writes a line in two parts, which stands in the pipe with its mark.
fn expect_marked<R: Abort + AllocGlobal>(rt: &R, lines: Lines, line: &str, mark: &str) {
    let mut pipe = Pipe::full(rt.alloc());
    pipe.room = 500;
    let mut writer = JournalWriter::new(rt.alloc(), lines, pipe);
    let (front, rest) = line
        .as_bytes()
        .split_at(1.min(line.len().saturating_sub(1)));
    let is_taken = writer.write_all(front).is_ok() && writer.write_all(rest).is_ok();
    expect_eq(rt, &line, &is_taken, &true);
    let expected = format!(in rt.alloc(); "{mark}{line}").expect(rt, "memory");
    let got = writer.get_mut().text.as_slice();
    expect_eq(rt, &line, &got, &expected.as_bytes());
}

#[test]
fn lines_are_marked_for_a_journal(rt: HostRuntime) {
    for (line, mark) in &MARKED {
        expect_marked(&rt, Lines::Output, line, mark);
        expect_marked(&rt, Lines::Errors, line, "<4>");
    }
}

/// What is written for a journal, with how much room; how many octets are taken, or how they are refused; and all that it has then. Nothing
/// written is a flush.
static JOURNALED: [Handing; 8] = [
    ("one", 100, Ok(3), ""),
    (" line\ntwo\n", 100, Ok(6), "<4>one line\n"),
    ("two\nthree\n", 3, Ok(4), "<4>one line\n<4>"),
    (
        "three\n",
        2,
        Err(ErrorKind::WouldBlock),
        "<4>one line\n<4>tw",
    ),
    ("", 1, Ok(0), "<4>one line\n<4>two"),
    ("", 0, Ok(0), "<4>one line\n<4>two"),
    ("", 1, Ok(0), "<4>one line\n<4>two\n"),
    ("four\n", 100, Ok(5), "<4>one line\n<4>two\n<4>four\n"),
];

#[test]
fn lines_for_a_slow_journal_wait_whole(rt: HostRuntime) {
    let alloc: Global = rt.alloc();
    let mut lines = JournalWriter::new(alloc, Lines::Errors, Pipe::full(alloc));
    for (text, room, taken, expected) in &JOURNALED {
        lines.get_mut().room = *room;
        let handed = if text.is_empty() {
            lines.flush().map(|()| 0)
        } else {
            lines.write(text.as_bytes())
        };
        expect_eq(&rt, text, &handed.map_err(|error| error.kind()), taken);
        let got = lines.get_mut().text.as_slice();
        expect_eq(&rt, text, &got, &expected.as_bytes());
    }
    let other = lines.write(b"\xff\n").map_err(|error| error.kind());
    expect_eq(
        &rt,
        &"not UTF-8",
        &other.err(),
        &Some(ErrorKind::InvalidData),
    );
}
