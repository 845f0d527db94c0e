//! Lines that wait for the reader of a log.

ghost use Rattle.std.specs.Prelude.{◌≡◌, ◌≤◌, ◌↔◌, ◌++◌, [], length, take, OnOk, OnErr, IsTrue};
ghost use Rattle.std.specs.String.{string_bytes};
ghost use Rattle.std.specs.Io.KnownBytes.{Appends, Keeps, append_known};
ghost use Rattle.nbt_nbns.specs.Outboxes.{new_outbox, one_dropped, Sends, SendsOrDrops, note};

use std::alloc::{AllocError, Global};
use std::io;
use std::io::{ErrorKind, Write};
use std::marker::Model;

/// What of a log its writer didn't take yet, since its reader is slow or it can't be written: the rest of a line and its note, and how
/// many lines were dropped meanwhile. A contract sees both.
#[derive(Drop)]
pub struct Outbox {
    text: String,
    start: usize,
    dropped: u64,
}

impl Model for Outbox {
    ghost use Rattle.std.specs.Prelude.{◌≤◌, drop, length};
    ghost use Rattle.std.specs.String.{string_bytes};
    ghost use Rattle.nbt_nbns.specs.Outboxes.{OutboxValue};

    ghost Value = { OutboxValue };

    ghost view = { λ o. record { waiting = drop o.start (string_bytes o.text); dropped = o.dropped } };

    ghost invariant = { λ o. o.start ≤ length (string_bytes o.text) };
}

impl Outbox {
    /// Nothing waits, and nothing was dropped.
    pub fn new(alloc: Global) -> Outbox
        ensures { result ≡ new_outbox }
    {
        Outbox {
            text: String::new(alloc),
            start: 0,
            dropped: 0,
        }
    }

    /// Whether nothing waits.
    pub fn is_empty(&self) -> bool
        ensures { IsTrue result ↔ (self.now.waiting ≡ []) }
    {
        self.start == self.text.as_bytes().len()
    }

    /// How many lines were dropped that no note tells of yet.
    pub fn dropped(&self) -> u64
        ensures { result ≡ self.now.dropped }
    {
        self.dropped
    }

    /// Hands what waits to the writer, as much as it takes without waiting. Refused where the writer fails otherwise; what it took
    /// no longer waits.
    pub fn push_out<W: Write>(&mut self, writer: &mut W) -> io::Result<()>
        ensures text { Keeps (append_known (W.contents writer.old) self.old.waiting) (append_known (W.contents writer.new) self.new.waiting) }
        ensures dropped { self.new.dropped ≡ self.old.dropped }
    {
        let (count, outcome) = write_out(&self.text.as_bytes()[self.start..], writer);
        self.start += count;
        outcome
    }

    /// Hands a line to the writer, behind what waits, with a note of how many lines were dropped before it, if some were. Where something
    /// still waits, the line is dropped, and counted. Of an empty line only what waits is handed on. Refused where the writer fails, or
    /// it is out of memory: then too the line is written, or waits, or is dropped and counted.
    pub fn send<W: Write>(&mut self, line: &str, writer: &mut W) -> io::Result<()>
        ensures sent { OnOk result (Sends self.old line.now (W.contents writer.old) self.new (W.contents writer.new)) }
        ensures refused { OnErr result (SendsOrDrops self.old line.now (W.contents writer.old) self.new (W.contents writer.new)) }
    {
        if line.is_empty() {
            return self.push_out(writer);
        }
        let pushed = self.push_out(writer);
        if !self.is_empty() {
            self.drop_line();
            return pushed;
        }
        if let Err(error) = pushed {
            self.drop_line();
            return Err(error);
        }
        self.fill(line)?;
        self.push_out(writer)
    }

    /// Counts a line that is dropped.
    pub fn drop_line(&mut self)
        ensures { self.new ≡ record self.old { dropped = one_dropped self.old.dropped } }
    {
        self.dropped = self.dropped.saturating_add(1);
    }

    /// Puts a line where nothing waits, with the note. Where memory is refused, nothing waits, and the line is dropped and counted.
    fn fill(&mut self, line: &str) -> Result<(), AllocError>
        ensures filled { OnOk result (self.new ≡ record { waiting = note self.old.dropped ++ line.now; dropped = 0 }) }
        ensures refused { OnErr result (self.new ≡ record { waiting = []; dropped = one_dropped self.old.dropped }) }
    {
        self.text.clear();
        self.start = 0;
        match write_noted(self.dropped, line, &mut self.text) {
            Ok(()) => {
                self.dropped = 0;
                Ok(())
            }
            Err(error) => {
                self.text.clear();
                self.drop_line();
                Err(error)
            }
        }
    }
}

/// Appends a line behind the note of how many were dropped.
fn write_noted(dropped: u64, line: &str, out: &mut String) -> Result<(), AllocError>
    ensures { OnOk result (string_bytes out.new ≡ string_bytes out.old ++ (note dropped ++ line.now)) }
{
    write_note(dropped, out)?;
    out.push_str(line)
}

/// Appends how many lines were dropped, if some were.
fn write_note(dropped: u64, out: &mut String) -> Result<(), AllocError>
    ensures { OnOk result (string_bytes out.new ≡ string_bytes out.old ++ note dropped) }
{
    if dropped == 0 {
        return Ok(());
    }
    writeln!(
        out,
        ".. {dropped} lines dropped: the reader of the log was slow, or it could not be written"
    )
}

/// Writes octets until all are written, the writer would wait, or it fails. Returns how many were written.
fn write_out<W: Write>(octets: &[u8], writer: &mut W) -> (usize, io::Result<()>)
    ensures bound { result.0 ≤ length octets.now }
    ensures bytes { Appends (W.contents writer.old) (W.contents writer.new) (take result.0 octets.now) }
{
    let mut written = 0;
    while written < octets.len() {
        match writer.write(&octets[written..]) {
            Ok(0) => {
                let error = io::Error::new(ErrorKind::WriteZero, "failed to write whole buffer");
                return (written, Err(error));
            }
            Ok(count) => written += count,
            Err(error) if would_wait(&error) => return (written, Ok(())),
            Err(error) => return (written, Err(error)),
        }
    }
    (written, writer.flush())
}

/// Whether an error says that the writer would have waited.
fn would_wait(error: &io::Error) -> bool {
    matches!(error.kind(), ErrorKind::WouldBlock | ErrorKind::Interrupted)
}
