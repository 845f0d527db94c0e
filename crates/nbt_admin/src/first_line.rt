//! A writer whose first line waits in its place.

use crate::lossy::LossyWriter;
use std::alloc::Global;
use std::io;
use std::io::{ErrorKind, Write};

/// Takes a first line also where its reader has no room for it. What the writer below doesn't take of that line waits, and stands before
/// all that is written later. Nothing else waits here: while that line does, each other write is refused with `WouldBlock`, so that
/// its caller drops what it can spare. From then on the writer below is handed each write as it is.
#[derive(Drop)]
pub struct FirstLineWriter<W> {
    lines: LossyWriter<W>,
    /// Whether the end of the first line was written.
    is_over: bool,
}

impl<W: Write + Drop> FirstLineWriter<W> {
    /// Nothing was written yet.
    pub fn new(alloc: Global, writer: W) -> FirstLineWriter<W> {
        FirstLineWriter {
            lines: LossyWriter::new(alloc, writer),
            is_over: false,
        }
    }

    /// The writer to which octets are handed on.
    pub fn get_mut(&mut self) -> &mut W {
        self.lines.get_mut()
    }

    /// Hands on what waits of the first line. Refused with `WouldBlock` where some of it still does.
    fn push_out(&mut self) -> io::Result<()> {
        self.lines.flush()?;
        if self.lines.is_waiting() {
            return Err(io::Error::from(ErrorKind::WouldBlock));
        }
        Ok(())
    }
}

impl<W: Write + Drop> Write for FirstLineWriter<W> {
    /// Takes the octets of the first line, up to its end, and hands the line on as [`LossyWriter`] does. Behind it each write is refused while
    /// some of the line waits, and else is that of the writer below.
    fn write(&mut self, buf: &[u8]) -> io::Result<usize> {
        if self.is_over {
            self.push_out()?;
            return self.get_mut().write(buf);
        }
        self.is_over = buf.contains(&b'\n');
        self.lines.write(buf)
    }

    /// Hands on what waits, as much as the writer below takes without waiting, and flushes that writer.
    fn flush(&mut self) -> io::Result<()> {
        self.lines.flush()?;
        self.get_mut().flush()
    }
}
