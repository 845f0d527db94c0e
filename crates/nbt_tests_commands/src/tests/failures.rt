//! Writers and readers that fail.

use super::LimitedWriter;
use super::ending::{expect_printed, status_of};
use nbt_prog::command;
use std::fs::File;
use std::io;
use std::io::Read;
use std::net::Net;
use std::process::Abort;
use std::random::RandomSource;
use std::rt::Files;
use std::time::Clock;

/// Commands and what they print.
static PRINTED: [(&[&str], &[u8]); 5] = [
    (&["nbt", "answer", "127.0.0.2:137", "8094"], b"none\n"),
    (
        &[
            "nbt",
            "answer",
            "127.0.0.2:137",
            "0001290000010000000000012045474643454645454341434143414341434143414341434143414341434143410000200001c00c002000010000003c000620007f000002",
        ],
        b"0001ad80000000010000000020454746434546454543414341434143414341434143414341434143414341434100002000010000003c000620007f000002\n",
    ),
    (&["nbt", "answer", "x", ""], b"unreadable\n"),
    (&["nbt", "show", "name", ""], b"fault Short at 0\n"),
    (&["nbt", "--version"], b"nbt 0.1.0\n"),
];

/// Each write that fails ends the program, and what was written before stays. So does a flush that fails.
fn expect_cut<R: Abort + AllocGlobal>(rt: &R, words: &[&str], text: &[u8]) {
    for calls in 0..text.len() {
        let mut paper = LimitedWriter::short(calls);
        let status = command(rt.alloc(), words, &mut io::empty(), &mut paper);
        expect_printed(rt, &(words, calls), status, &paper, 3, &text[..calls]);
    }
    let mut paper = LimitedWriter::stuck();
    let status = command(rt.alloc(), words, &mut io::empty(), &mut paper);
    expect_printed(rt, &words, status, &paper, 3, text);
}

/// The first line that is printed of each.
static LINES: [(&str, &[u8]); 5] = [
    (
        "nbt status 127.42.22.1:20138 --bind 127.42.22.2:20138 --tries 1 --wait 1ms",
        b"no reply\n",
    ),
    (
        "nbt serve 127.42.22.1:20138 1000 60 1",
        b"turns 1 replies 0 lost 0\n",
    ),
    (
        "nbt node 127.42.22.2:20138 127.42.22.1:20138 1000 60 FRED unique 60 1",
        b"not held\n",
    ),
    (
        "nbt serve 127.42.22.1:20138 1000 60 --forever",
        b"serving 127.42.22.1:20138, silent for 60 s\n",
    ),
    ("nbt loop 21737", b"server up\n"),
];

/// A flush that fails, and a write, end the command, and what was written before stays: no `device` comes after it.
fn expect_nothing_more<R>(rt: &R, line: &str, text: &[u8])
where
    R: Abort + AllocGlobal + Net + Clock + RandomSource + Files<File = File>,
{
    let mut errors = LimitedWriter::new();
    let mut paper = LimitedWriter::stuck();
    let status = status_of(rt, rt, line, "", &mut paper, &mut errors);
    expect_printed(rt, &line, status, &paper, 3, text);
    let mut paper = LimitedWriter::short(3);
    let status = status_of(rt, rt, line, "", &mut paper, &mut errors);
    expect_printed(rt, &line, status, &paper, 3, &text[..text.len().min(3)]);
}

#[test]
fn writers_that_fail(rt: HostRuntime) {
    for row in &PRINTED {
        let (words, text) = *row;
        expect_cut(&rt, words, text);
    }
    let mut paper = LimitedWriter::short(0);
    let status = command(rt.alloc(), &["nbt", "--help"], &mut io::empty(), &mut paper);
    expect_printed(&rt, &"help", status, &paper, 3, b"");
    for row in &LINES {
        let (line, text) = *row;
        expect_nothing_more(&rt, line, text);
    }
    // Where standard error can't be written, that is passed over.
    let mut paper = LimitedWriter::new();
    let mut errors = LimitedWriter::short(0);
    let status = status_of(&rt, &rt, "nbt answer x 0", "", &mut paper, &mut errors);
    expect_printed(&rt, &"errors", status, &paper, 1, b"unreadable\n");
}

/// So many spaces, and then an error.
#[derive(Drop)]
struct Spaces {
    left: usize,
}

impl Read for Spaces {
    fn read(&mut self, buf: &mut [u8]) -> io::Result<usize> {
        if self.left == 0 {
            return Err(io::Error::from(io::ErrorKind::BrokenPipe));
        }
        let count = buf.len().min(self.left);
        buf[..count].fill(b' ');
        self.left -= count;
        Ok(count)
    }
}

#[test]
fn a_reader_that_fails(rt: HostRuntime) {
    let mut reader = Spaces { left: 5 };
    let mut paper = LimitedWriter::new();
    let status = command(rt.alloc(), &["nbt", "check"], &mut reader, &mut paper);
    expect_printed(&rt, &"spaces", status, &paper, 3, b"device\n");
}
