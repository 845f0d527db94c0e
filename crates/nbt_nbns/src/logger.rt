//! The log of a name server.

ghost use Rattle.std.specs.Prelude.{◌≡◌, [], ◌++◌, ℕ, List, IsTrue, IsFalse, OnOk, OnErr};
ghost use Rattle.std.specs.String.{string_bytes};
ghost use Rattle.nbt_nbns.specs.Logging.{IsUnmade, Logs, Prints, PrintsOrDrops, new_logger};

use crate::complaint::Complaint;
use crate::outbox::Outbox;
use crate::staying::Shown;
use nbt_log::{Dates, Limiters, write_entry, write_summary};
use std::alloc::{AllocError, Global};
use std::io;
use std::io::Write;
use std::marker::Model;

/// Prints a line for what a server did with each datagram, of each kind at most so many in any second, or all. A contract sees which of those
/// may be printed, whether broadcasts are, and what waits for the reader of the log.
#[derive(Drop)]
pub struct Logger {
    line: String,
    broadcasts: bool,
    limiters: Limiters,
    outbox: Outbox,
    complaint: Complaint,
}

impl Model for Logger {
    ghost use Rattle.nbt_nbns.specs.Logging.{LoggerValue};

    ghost Value = { LoggerValue };

    ghost view = { λ l. record { broadcasts = l.broadcasts; limiters = l.limiters; outbox = l.outbox } };
}

impl Logger {
    /// Nothing is printed yet. Broadcasts of B nodes are printed where that is wanted, and at most so many lines of each kind in any
    /// second; all where it is 0.
    pub fn new(alloc: Global, broadcasts: bool, most: u8) -> Logger
        ensures { result ≡ new_logger broadcasts most }
    {
        Logger {
            line: String::new(alloc),
            broadcasts,
            limiters: Limiters::new(most),
            outbox: Outbox::new(alloc),
            complaint: Complaint::new(),
        }
    }

    /// How many lines were dropped that no note in the log tells of yet.
    pub fn dropped(&self) -> u64
        ensures { result ≡ self.now.outbox.dropped }
    {
        self.outbox.dropped()
    }

    /// Prints the line of what a server did with a datagram, at once, where it may be printed, and what waits of the lines before it. Of
    /// a turn that has no line it prints how many of a kind were left out, if a line of that kind may be printed. Where the reader of the
    /// log is slow, a line waits or is dropped, as [`Outbox::send`] says. Returns whether that was done: not where it was out of memory
    /// or the log can't be written, which is said in `errors`, the first time of a row, as is that it can be written again. Then too the
    /// line is written, or waits, or is dropped and counted.
    pub fn log<W: Write, E: Write>(
        &mut self,
        dates: &Dates,
        shown: &Shown,
        writer: &mut W,
        errors: &mut E,
    ) -> bool
        ensures printed { IsTrue result → Prints self.old dates.now shown.now.at shown.now.entry (W.contents writer.old) self.new (W.contents writer.new) }
        ensures refused { IsFalse result → PrintsOrDrops self.old dates.now shown.now.at shown.now.entry (W.contents writer.old) self.new (W.contents writer.new) }
    {
        match self.print_line(dates, shown, writer) {
            Ok(()) => {
                if self.outbox.is_empty() {
                    self.complaint.end("the log", errors);
                }
                true
            }
            Err(error) => {
                self.complaint.tell("the log", error, errors);
                false
            }
        }
    }

    /// Prints the line, where it may be printed. One for which memory is refused is dropped.
    fn print_line<W: Write>(
        &mut self,
        dates: &Dates,
        shown: &Shown,
        writer: &mut W,
    ) -> io::Result<()>
        ensures printed { OnOk result (Prints self.old dates.now shown.now.at shown.now.entry (W.contents writer.old) self.new (W.contents writer.new)) }
        ensures refused { OnErr result (PrintsOrDrops self.old dates.now shown.now.at shown.now.entry (W.contents writer.old) self.new (W.contents writer.new)) }
    {
        self.line.clear();
        let made = write_limited(
            &mut self.limiters,
            self.broadcasts,
            dates,
            shown,
            &mut self.line,
        );
        if let Err(error) = made {
            self.outbox.drop_line();
            return Err(io::Error::from(error));
        }
        self.outbox.send(self.line.as_str(), writer)
    }
}

/// Appends the line, where it may be printed. Of a turn that has none it appends how many lines of a kind were left out, as
/// [`write_summary`] says.
fn write_limited(
    limiters: &mut Limiters,
    broadcasts: bool,
    dates: &Dates,
    shown: &Shown,
    out: &mut String,
) -> Result<(), AllocError>
    ensures made { OnOk result ((line : List ℕ) × Logs broadcasts limiters.old dates.now shown.now.at shown.now.entry line limiters.new × (string_bytes out.new ≡ string_bytes out.old ++ line)) }
    ensures unmade { OnErr result (IsUnmade broadcasts limiters.old shown.now.at shown.now.entry limiters.new) }
{
    let Some(entry) = &shown.entry else {
        return write_summary(limiters, dates, shown.at, out);
    };
    let Some(kind) = entry.told_kind(broadcasts) else {
        return write_summary(limiters, dates, shown.at, out);
    };
    match limiters.take(kind, shown.at) {
        Some(left_out) => {
            let second = dates.second_at(shown.at.get());
            write_entry(second, entry, left_out, out)
        }
        None => Ok(()),
    }
}
