//! A file of fixed names out of the files of other programs.

ghost use Rattle.std.specs.Prelude.{◌≡◌, ◌++◌, ℕ, List, IfOk, OnOk};
ghost use Rattle.std.specs.String.{string_bytes};
ghost use Rattle.nbt_front.specs.Files.{IsFile};
ghost use Rattle.nbt_front.specs.FixedNames.{FixedNames as FixedNamesValue};
ghost use Rattle.nbt_text.specs.ScopedNames.{PrintsWord};
ghost use Rattle.nbt_lists.specs.Written.{between, entry_text};

use crate::list::read_row;
use crate::lmhosts::read_lmhosts;
use crate::nbtscan::read_nbtscan;
use crate::reason::{Reason, Unread};
use crate::source::Source;
use crate::wins::read_wins;
use nbt_front::{FileFault, FixedLine, FixedNames, Refused, read_fixed, take_line};
use nbt_name::Kind;
use nbt_show::kind_word;
use nbt_text::{end_line, lines_of, write_dotted, write_word};
use std::alloc::{AllocError, AllocFailed, Global};

/// How many remarks on what is left out a file has at most (our profile); more are counted alone.
pub const REMARKS_MOST: usize = 1_000;

/// What was made of one file.
#[derive(Clone, Copy, Debug, PartialEq, Eq)]
pub struct Added {
    /// Which kind of file it is.
    pub source: Source,
    /// How many names of it were taken.
    pub taken: usize,
    /// How many names, and lines that can't be read, were left out.
    pub left: usize,
}

/// Why a file isn't imported.
#[derive(Clone, Copy, Debug, PartialEq, Eq)]
pub enum ImportFault {
    /// Out of memory.
    Memory,
    /// It doesn't look like a file of any kind.
    Unknown,
    /// The reader of fixed names refuses what was made.
    Refused(FileFault),
}

impl From<AllocError> for ImportFault {
    fn from(_error: AllocError) -> ImportFault {
        ImportFault::Memory
    }
}

impl<T: Drop> From<AllocFailed<T>> for ImportFault {
    fn from(_error: AllocFailed<T>) -> ImportFault {
        ImportFault::Memory
    }
}

/// A file of fixed names that is made of other files.
#[derive(Drop)]
pub struct Import {
    alloc: Global,
    names: FixedNames,
    text: String,
    remarks: usize,
}

impl Import {
    /// Of no file yet.
    pub fn new(alloc: Global) -> Import {
        Import {
            alloc,
            names: FixedNames::none(alloc),
            text: String::new(alloc),
            remarks: 0,
        }
    }

    /// Adds what a file says, of this kind, or of the one that it looks like: a line for each unique name that `nbns --fixed` takes, and
    /// for each one that is left out a remark with the number of its line, and why. `now` is the second since 1970; without it no time
    /// is over. Refused with `Unknown` where the file looks like none, and with `Memory` if out of memory.
    pub fn add(
        &mut self,
        octets: &[u8],
        from: Option<Source>,
        now: Option<u64>,
    ) -> Result<Added, ImportFault> {
        let lines = lines_of(self.alloc, octets)?;
        let lines = lines.as_slice();
        let Some(source) = from.or(Source::of(lines)) else {
            return Err(ImportFault::Unknown);
        };
        let word = source.word();
        writeln!(self.text, "# by nbt import, of {word}")?;
        let mut added = Added {
            source,
            taken: 0,
            left: 0,
        };
        for place in 0..lines.len() {
            self.add_line(lines[place], place + 1, now, &mut added)?;
        }
        Ok(added)
    }

    /// The file, which the reader of fixed names has taken. Refused with its fault where that refuses it, and with `Memory` if out of memory.
    pub fn finish(self) -> Result<String, ImportFault>
        ensures { IfOk result (λ text. (names : FixedNamesValue) × IsFile (string_bytes text) names) }
    {
        match read_fixed(self.alloc, self.text.as_bytes()) {
            Ok(_) => Ok(self.text),
            Err(FileFault::Memory) => Err(ImportFault::Memory),
            Err(fault) => Err(ImportFault::Refused(fault)),
        }
    }

    /// Adds what a line says, or a remark where it can't be read.
    fn add_line(
        &mut self,
        text: &[u8],
        number: usize,
        now: Option<u64>,
        added: &mut Added,
    ) -> Result<(), AllocError> {
        let text = text.strip_suffix(b"\r").unwrap_or(text);
        let mut entries = Vec::new(self.alloc);
        match read_line(self.alloc, added.source, now, text, &mut entries) {
            Ok(()) => self.add_entries(entries.as_slice(), number, added),
            Err(Unread::Memory) => Err(AllocError),
            Err(Unread::Left(reason)) => self.leave_out(number, "", reason, added),
        }
    }

    /// Adds what a line says.
    fn add_entries(
        &mut self,
        entries: &[FixedLine],
        number: usize,
        added: &mut Added,
    ) -> Result<(), AllocError> {
        for entry in entries {
            self.add_entry(entry, number, added)?;
        }
        Ok(())
    }

    /// Adds a name with its address.
    fn add_entry(
        &mut self,
        entry: &FixedLine,
        number: usize,
        added: &mut Added,
    ) -> Result<(), AllocError> {
        let mut line = String::new(self.alloc);
        write_entry(entry, &mut line)?;
        if entry.kind == Kind::Group {
            return self.leave_out(number, line.as_str(), Reason::Group, added);
        }
        match take_line(self.alloc, line.as_bytes(), &mut self.names) {
            Ok(()) => {
                added.taken = added.taken.saturating_add(1);
                self.text.push_str(line.as_str())?;
                end_line(&mut self.text)
            }
            Err(Refused::Memory) => Err(AllocError),
            Err(Refused::Line(fault)) => {
                self.leave_out(number, line.as_str(), Reason::Fixed(fault), added)
            }
        }
    }

    /// Counts what is left out, and appends a remark on it.
    fn leave_out(
        &mut self,
        number: usize,
        line: &str,
        reason: Reason,
        added: &mut Added,
    ) -> Result<(), AllocError> {
        added.left = added.left.saturating_add(1);
        if self.remarks >= REMARKS_MOST {
            return Ok(());
        }
        self.remarks += 1;
        write!(self.text, "# line {number}: ")?;
        if !line.is_empty() {
            write!(self.text, "{line}: ")?;
        }
        writeln!(self.text, "{reason}")
    }
}

/// Adds the entries that a line of such a file says.
fn read_line(
    alloc: Global,
    source: Source,
    now: Option<u64>,
    text: &[u8],
    entries: &mut Vec<FixedLine>,
) -> Result<(), Unread> {
    match source {
        Source::Wins => read_wins(alloc, now.unwrap_or(0), text, entries),
        Source::Lmhosts => read_lmhosts(alloc, text, entries),
        Source::Nbtscan => read_nbtscan(text, entries),
        Source::List => read_listed(alloc, text, entries),
    }
}

/// The entry of a line of a list of leases. Its time isn't looked at: when the list was written, the lease lived.
fn read_listed(alloc: Global, text: &[u8], entries: &mut Vec<FixedLine>) -> Result<(), Unread> {
    if text.is_empty() || text.starts_with(b"#") {
        return Ok(());
    }
    let row = read_row(alloc, text)?.ok_or(Reason::NoLine)?;
    entries.push(FixedLine {
        name: row.name,
        kind: row.kind,
        addr: row.addr,
    })?;
    Ok(())
}

/// Appends a name, its kind and its address, as the file of fixed names has them.
fn write_entry(entry: &FixedLine, out: &mut String) -> Result<(), AllocError>
    ensures { OnOk result ((word : List ℕ) × PrintsWord entry.now.name word × (string_bytes out.new ≡ string_bytes out.old ++ entry_text word entry.now)) }
{
    write_word(&entry.name, out)?;
    write_between(entry.kind, out)?;
    write_dotted(entry.addr, out)
}

/// Appends a kind, between a name and an address.
fn write_between(kind: Kind, out: &mut String) -> Result<(), AllocError>
    ensures { OnOk result (string_bytes out.new ≡ string_bytes out.old ++ between kind) }
{
    let word = kind_word(kind);
    write!(out, " {word} ")
}
