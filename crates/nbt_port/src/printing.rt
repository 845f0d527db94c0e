//! Printed texts.

ghost use Rattle.std.specs.Prelude.{◌≡◌, OnOk};
ghost use Rattle.std.specs.Io.KnownBytes.{Appends};

use crate::fault::Fault;
use std::io;
use std::io::Write;

/// Writes a text and flushes.
pub fn print<W: Write>(text: &str, writer: &mut W) -> io::Result<()>
    ensures { OnOk result (Appends (W.contents writer.old) (W.contents writer.new) text.now) }
{
    writer.write_all(text.as_bytes())?;
    writer.flush()
}

/// What a text that can't be written ends in: `Output`. A line in `errors` says why; a failure to write that one is ignored.
pub fn not_printed<E: Write>(error: io::Error, errors: &mut E) -> Fault
    ensures { result ≡ Fault.Output }
{
    let _ = tell(error, errors);
    Fault::Output
}

fn tell<E: Write>(error: io::Error, errors: &mut E) -> io::Result<()> {
    writeln!(errors, "nbt: the output can't be written: {error}")?;
    errors.flush()
}
