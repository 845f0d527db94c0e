//! What can't be written, and what can be written again.

ghost use Rattle.std.specs.Prelude.{◌≡◌, IsTrue, IsFalse};

use std::io;
use std::io::Write;

/// Says why something can't be written, at the first failure of a row alone, and when the row is over.
#[derive(Debug, Drop)]
pub(crate) struct Complaint {
    is_told: bool,
}

impl Complaint {
    /// Nothing has failed yet.
    pub fn new() -> Complaint
        ensures { IsFalse result.is_told }
    {
        Complaint { is_told: false }
    }

    /// It was written: the row is over. If there was one, a line in `errors` says so, else nothing does. A failure to write to `errors` is
    /// ignored.
    pub fn end<E: Write>(&mut self, what: &str, errors: &mut E)
        ensures over { IsFalse self.new.is_told }
        ensures silent { IsFalse self.old.is_told → errors.new ≡ errors.old }
    {
        if self.is_told {
            let _ = write_end(what, errors);
        }
        self.is_told = false;
    }

    /// It failed: says so as [`complain`] does, if it is the first of the row, and nothing if it isn't.
    pub fn tell<E: Write>(&mut self, what: &str, error: io::Error, errors: &mut E)
        ensures told { IsTrue self.new.is_told }
        ensures once { IsTrue self.old.is_told → errors.new ≡ errors.old }
    {
        if !self.is_told {
            complain(what, error, errors);
        }
        self.is_told = true;
    }
}

/// Prints what can't be written, as `the log` or a file's path, and why, and flushes. A failure to write to `errors` is
/// ignored.
pub(crate) fn complain<E: Write>(what: &str, error: io::Error, errors: &mut E) {
    let _ = write_line(what, error, errors);
}

fn write_line<E: Write>(what: &str, error: io::Error, errors: &mut E) -> io::Result<()> {
    writeln!(errors, "nbt: {what} can't be written: {error}")?;
    errors.flush()
}

fn write_end<E: Write>(what: &str, errors: &mut E) -> io::Result<()> {
    writeln!(errors, "nbt: {what} is written again")?;
    errors.flush()
}
