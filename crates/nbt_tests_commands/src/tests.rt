//! What `command` and `command_telling` print, and how they end.

use arrayvec::ArrayVec;
use std::io;
use std::io::Write;

mod drawings;
mod ending;
mod expect;
mod failures;
mod hosts;
mod lists;
mod long;
mod lookups;
mod looping;
mod lossy;
mod machine;
mod names;
mod nbns;
mod network;
mod printing;
mod release;
mod scans;
mod scripts;
mod serving;
mod street;
mod terminal;
mod texts;

/// The most that a test prints.
const ROOM: usize = 8192;

/// A writer that takes `at_once` octets a call, and fails at its first call past `calls`. It tells whether each line
/// was flushed before the next.
#[derive(Drop)]
struct LimitedWriter {
    text: ArrayVec<u8, ROOM>,
    at_once: usize,
    calls: usize,
    flushes: bool,
    flushed: usize,
    late: bool,
}

impl LimitedWriter {
    fn new() -> LimitedWriter {
        LimitedWriter {
            text: ArrayVec::new(),
            at_once: ROOM,
            calls: usize::MAX,
            flushes: true,
            flushed: 0,
            late: false,
        }
    }

    /// Takes one octet a call, for `calls` calls.
    fn short(calls: usize) -> LimitedWriter {
        LimitedWriter {
            at_once: 1,
            calls,
            ..LimitedWriter::new()
        }
    }

    /// Takes all, and can't flush.
    fn stuck() -> LimitedWriter {
        LimitedWriter {
            flushes: false,
            ..LimitedWriter::new()
        }
    }

    /// Whether all that was written is flushed.
    fn is_flushed(&self) -> bool {
        self.flushed == self.text.len()
    }

    /// Whether each line was flushed before the next was begun.
    fn is_line_by_line(&self) -> bool {
        self.is_flushed() && !self.late
    }
}

impl Write for LimitedWriter {
    fn write(&mut self, buf: &[u8]) -> io::Result<usize> {
        if self.calls == 0 {
            return Err(io::Error::from(io::ErrorKind::StorageFull));
        }
        self.calls -= 1;
        if !self.is_flushed() && self.text.as_slice().ends_with(b"\n") {
            self.late = true;
        }
        let most = buf.len().min(self.at_once);
        match self.text.try_extend_from_slice(&buf[..most]) {
            Ok(()) => Ok(most),
            Err(_) => Err(io::Error::from(io::ErrorKind::FileTooLarge)),
        }
    }

    fn flush(&mut self) -> io::Result<()> {
        if self.flushes {
            self.flushed = self.text.len();
            Ok(())
        } else {
            Err(io::Error::from(io::ErrorKind::BrokenPipe))
        }
    }
}
