//! Lines on standard error that say why a command printed `unreadable` (our profile). A failed write is ignored.

ghost use Rattle.std.specs.Prelude.{◌≡◌};

use crate::offline::failure::Failure;
use std::io::Write;

/// HEX can't be read.
pub const HEX: &str = "nbt: HEX: not an even number of hexadecimal digits\n";

/// The input of a command is too long.
pub const INPUT: &str = "nbt: standard input: more than 1048576 octets\n";

/// The input that stands for HEX can't be read.
pub const HEX_INPUT: &str =
    "nbt: standard input: not an even number of hexadecimal digits, or more than 1048576 octets\n";

/// Writes a line, at once.
pub fn report<E: Write>(line: &str, errors: &mut E) {
    let _ = errors.write_all(line.as_bytes());
    let _ = errors.flush();
}

/// Hands the outcome on, and writes the line where something can't be read.
pub fn reporting<T, E: Write>(
    outcome: Result<T, Failure>,
    line: &str,
    errors: &mut E,
) -> Result<T, Failure>
    ensures { result ≡ outcome }
{
    if let Err(Failure::Unreadable) = &outcome {
        report(line, errors);
    }
    outcome
}

/// Says that a text is no address.
pub fn report_address<E: Write>(text: &str, errors: &mut E) {
    let _ = writeln!(errors, "nbt: address '{text}': no A.B.C.D:PORT in decimal");
    let _ = errors.flush();
}

/// Says which line of a script can't be read, or asks for what can't be done.
pub fn report_line<E: Write>(number: usize, errors: &mut E) {
    let _ = writeln!(errors, "nbt: line {number}: unreadable");
    let _ = errors.flush();
}
