//! The file of fixed names.

ghost use Rattle.std.specs.Prelude.{◌≡◌, IfOk, IfErr};
ghost use Rattle.nbt_front.specs.Files.{FileFails, IsFile};
ghost use Rattle.nbt_front.specs.Inner.Refusals.{fault_at};

use crate::fault::{FileFault, Refused};
use crate::line::take_line;
use crate::names::FixedNames;
use nbt_text::lines_of;
use std::alloc::Global;

/// Reads the octets of a file of fixed names: lines as `FILER#20 unique 192.0.2.7`, whose words stand between spaces and tabs, with small
/// letters of names taken as capitals. A line ends with a line feed, or with a carriage return and a line feed. Several lines of a
/// group are its addresses. A line that begins with `#` is a remark; it is passed over, as an empty one is. Refused with `Line` at
/// the first line that can't be taken, with its number, from 1 on, and what is wrong with it; and with `Memory` if out of memory.
pub fn read_fixed(alloc: Global, text: &[u8]) -> Result<FixedNames, FileFault>
    ensures names { IfOk result (IsFile text.now) }
    ensures fault { IfErr result (FileFails text.now) }
{
    let lines = lines_of(alloc, text)?;
    let lines = lines.as_slice();
    let mut names = FixedNames::none(alloc);
    'lines: for place in 0..lines.len() {
        match take_line(alloc, lines[place], &mut names) {
            Ok(()) => {}
            Err(refused) => return Err(fault_at(place + 1, refused)),
        }
    }
    Ok(names)
}

/// Why a file isn't read whose line of this number isn't taken.
fn fault_at(number: usize, refused: Refused) -> FileFault
    ensures { result ≡ fault_at number refused }
{
    match refused {
        Refused::Line(fault) => FileFault::Line(number, fault),
        Refused::Memory => FileFault::Memory,
    }
}
