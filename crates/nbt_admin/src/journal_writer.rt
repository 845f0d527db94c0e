//! A writer that says of each line how urgent it is, as a journal reads it.

use nbt_nbns::Outbox;
use std::alloc::Global;
use std::io::{ErrorKind, Write};
use std::{io, str};

/// Which lines are written (our profile).
#[derive(Clone, Copy, Debug, PartialEq, Eq)]
pub enum Lines {
    /// What a server or a host says of its names.
    Output,
    /// What is wrong.
    Errors,
}

/// Error, in the form that a journal takes it before a line (sd-daemon(3)).
const ERROR: &str = "<3>";

/// Warning.
const WARNING: &str = "<4>";

/// Information.
const INFORMATION: &str = "<6>";

/// Puts before each line how urgent it is, and hands whole lines on. What the writer below doesn't take of a line waits; while it does, each
/// write is refused with `WouldBlock`, so that its caller drops what it can spare.
#[derive(Drop)]
pub struct JournalWriter<W> {
    writer: W,
    lines: Lines,
    line: Vec<u8>,
    marked: String,
    outbox: Outbox,
}

impl<W: Write + Drop> JournalWriter<W> {
    /// Nothing was written yet.
    pub fn new(alloc: Global, lines: Lines, writer: W) -> JournalWriter<W> {
        JournalWriter {
            writer,
            lines,
            line: Vec::new(alloc),
            marked: String::new(alloc),
            outbox: Outbox::new(alloc),
        }
    }

    /// The writer to which lines are handed on.
    pub fn get_mut(&mut self) -> &mut W {
        &mut self.writer
    }

    /// Hands on what waits of a line. Refused with `WouldBlock` where some of it still does.
    fn push_out(&mut self) -> io::Result<()> {
        self.outbox.push_out(&mut self.writer)?;
        if self.outbox.is_empty() {
            Ok(())
        } else {
            Err(io::Error::from(ErrorKind::WouldBlock))
        }
    }

    /// Hands on the line that ended.
    fn send_line(&mut self) -> io::Result<()> {
        let sent = self.send_marked();
        self.line.clear();
        sent
    }

    fn send_marked(&mut self) -> io::Result<()> {
        let line = self.line.as_slice();
        let Ok(text) = str::from_utf8(line) else {
            return Err(io::Error::from(ErrorKind::InvalidData));
        };
        self.marked.clear();
        self.marked.push_str(mark_of(self.lines, line))?;
        self.marked.push_str(text)?;
        self.outbox.send(self.marked.as_str(), &mut self.writer)
    }
}

impl<W: Write + Drop> Write for JournalWriter<W> {
    /// Takes the octets up to the end of a line, and hands the line on. Refused while some of an earlier line waits, where it is out of memory,
    /// where the line isn't UTF-8, and where the writer fails otherwise than that it would wait.
    fn write(&mut self, buf: &[u8]) -> io::Result<usize> {
        self.push_out()?;
        let (count, is_line) = match buf.iter().position(|octet| *octet == b'\n') {
            Some(place) => (place + 1, true),
            None => (buf.len(), false),
        };
        self.line.extend_from_slice(&buf[..count])?;
        if is_line {
            self.send_line()?;
        }
        Ok(count)
    }

    /// Hands on what waits, as much as the writer takes without waiting, and flushes that writer.
    fn flush(&mut self) -> io::Result<()> {
        self.outbox.push_out(&mut self.writer)?;
        self.writer.flush()
    }
}

/// How urgent a line is: of standard error each is a warning; of the output what was refused, lost, dropped or not done is one, and the word of
/// a fault, or wrong usage, an error.
fn mark_of(lines: Lines, line: &[u8]) -> &'static str {
    if lines == Lines::Errors {
        return WARNING;
    }
    if line == b"device\n".as_slice()
        || line == b"memory\n".as_slice()
        || line.starts_with(b"error: ")
    {
        return ERROR;
    }
    if is_warning(line) {
        WARNING
    } else {
        INFORMATION
    }
}

/// Whether a line of the output is of something that was refused, lost, dropped or not done: it begins with a time and such a word, or it says
/// how many such lines there are more, or how many were dropped.
fn is_warning(line: &[u8]) -> bool {
    let mut words = line.split(|octet| *octet == b' ' || *octet == b'\n');
    let first = words.next();
    let second = words.next();
    let third = words.next();
    if first == Some(b"..".as_slice()) {
        return true;
    }
    match second {
        Some(b"..") => {
            let _more = words.next();
            is_of_refusals(words.next(), words.next())
        }
        Some(b"release") => third == Some(b"refused".as_slice()),
        Some(word) => is_urgent(word),
        None => false,
    }
}

/// Whether these words name lines of refusals: `refused`, or `release refused`.
fn is_of_refusals(one: Option<&[u8]>, other: Option<&[u8]>) -> bool {
    let refused = Some(b"refused".as_slice());
    one == refused || other == refused
}

/// Whether this word begins what is said of something that was refused, lost or not done.
fn is_urgent(word: &[u8]) -> bool {
    matches!(
        word,
        b"refused" | b"lost" | b"lapsed" | b"refreshes" | b"give-back" | b"not"
    )
}
