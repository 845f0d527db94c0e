//! Runs a command on a machine, and holds what comes of it to what is wanted.

use super::LimitedWriter;
use super::expect::{expect, expect_eq};
use super::terminal::words_of;
use nbt_prog::command_telling;
use std::fmt::Debug;
use std::fs::File;
use std::io;
use std::net::Net;
use std::process::Abort;
use std::random::RandomSource;
use std::rt::Files;
use std::time::Clock;

/// The status of a command of these words, and of one more if it isn't empty.
pub fn status_of<R: Abort + AllocGlobal, M: Net + Clock + RandomSource + Files<File = File>>(
    rt: &R,
    machine: &M,
    line: &str,
    last: &str,
    paper: &mut LimitedWriter,
    errors: &mut LimitedWriter,
) -> u8 {
    let words = words_of(rt, line, last);
    command_telling(
        machine,
        rt.alloc(),
        words.as_slice(),
        &mut io::empty(),
        paper,
        errors,
    )
}

/// The command ended with this status, and printed this.
pub fn expect_printed<R: Abort>(
    rt: &R,
    row: &impl Debug,
    got: u8,
    paper: &LimitedWriter,
    status: u8,
    text: &[u8],
) {
    expect_eq(rt, row, &paper.text.as_slice(), &text);
    expect_eq(rt, row, &got, &status);
}

/// The command, without input, ends with this status, and prints and says this. Each line that it prints is flushed before the next.
pub fn expect_ending<R: Abort + AllocGlobal, M: Net + Clock + RandomSource + Files<File = File>>(
    rt: &R,
    machine: &M,
    about: &str,
    line: &str,
    last: &str,
    status: u8,
    text: &str,
    said: &str,
) {
    let row = (about, line);
    let mut paper = LimitedWriter::new();
    let mut errors = LimitedWriter::new();
    let got = status_of(rt, machine, line, last, &mut paper, &mut errors);
    expect_printed(rt, &row, got, &paper, status, text.as_bytes());
    expect_eq(rt, &row, &errors.text.as_slice(), &said.as_bytes());
    expect(rt, &row, paper.is_line_by_line());
    expect(rt, &row, errors.is_flushed());
}
