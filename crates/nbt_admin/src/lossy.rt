//! A writer that waits for no reader.

use nbt_nbns::Outbox;
use std::alloc::Global;
use std::io::{ErrorKind, Write};
use std::{io, str};

/// Hands whole lines on to a writer that refuses what would wait for its reader. A line that the writer takes in part waits for it, and
/// the lines that come meanwhile are dropped and counted, as [`Outbox::send`] says. So what prints its lines here waits for no reader.
#[derive(Drop)]
pub struct LossyWriter<W> {
    writer: W,
    line: Vec<u8>,
    outbox: Outbox,
}

impl<W: Write + Drop> LossyWriter<W> {
    /// Nothing was written yet.
    pub fn new(alloc: Global, writer: W) -> LossyWriter<W> {
        LossyWriter {
            writer,
            line: Vec::new(alloc),
            outbox: Outbox::new(alloc),
        }
    }

    /// The writer to which lines are handed on.
    pub fn get_mut(&mut self) -> &mut W {
        &mut self.writer
    }

    /// Whether something of a line waits for the writer.
    pub(crate) fn is_waiting(&self) -> bool {
        !self.outbox.is_empty()
    }

    /// Hands on the line that ended.
    fn send_line(&mut self) -> io::Result<()> {
        let sent = match str::from_utf8(self.line.as_slice()) {
            Ok(line) => self.outbox.send(line, &mut self.writer),
            Err(_) => Err(io::Error::from(ErrorKind::InvalidData)),
        };
        self.line.clear();
        sent
    }
}

impl<W: Write + Drop> Write for LossyWriter<W> {
    /// Takes the octets up to the end of a line, and hands the line on. Refused where it is out of memory, where the line isn't UTF-8, and
    /// where the writer fails otherwise than that it would wait.
    fn write(&mut self, buf: &[u8]) -> io::Result<usize> {
        let (count, is_line) = match buf.iter().position(|octet| *octet == b'\n') {
            Some(place) => (place + 1, true),
            None => (buf.len(), false),
        };
        self.line.extend_from_slice(&buf[..count])?;
        if is_line {
            self.send_line()?;
        }
        Ok(count)
    }

    /// Hands on what waits, as much as the writer takes without waiting.
    fn flush(&mut self) -> io::Result<()> {
        self.outbox.push_out(&mut self.writer)
    }
}
