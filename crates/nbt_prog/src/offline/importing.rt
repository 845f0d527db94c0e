//! The command `import`: files of other programs in, a file of fixed names out (our profile).

ghost use Rattle.std.specs.Prelude.{IfOk};
ghost use Rattle.std.specs.String.{string_bytes};
ghost use Rattle.nbt_prog.specs.Importing.{Imports};

use crate::offline::failure::Failure;
use crate::offline::files::{INPUT_PATH, Place, called, read_file};
use crate::offline::printed::{Ending, Printed};
use nbt_lists::{Added, Import, ImportFault, Source};
use nbt_port::Fault;
use std::alloc::Global;
use std::io;
use std::io::{Read, Write};

/// The paths of who names no file.
static INPUT: [&str; 1] = [INPUT_PATH];

/// Imports each file, or what `reader` has where there is none, of the kind that this word names, or of the one that it looks like. A line
/// in `errors` says of each what was taken. The ending is `Refused` where no name was taken, or where a file looks like none of those that
/// are imported: then nothing is printed, and a line in `errors` says so. Refused: `Device` where a file can't be read, which
/// `errors` says too; or out of memory.
pub fn import<P: Place, R: Read, E: Write>(
    place: &P,
    alloc: Global,
    paths: &[&str],
    from: Option<&str>,
    reader: &mut R,
    errors: &mut E,
) -> Result<Printed, Failure>
    ensures { IfOk result (λ printed. Imports (string_bytes printed.text)) }
{
    let mut import = Import::new(alloc);
    let from = match from {
        Some(word) => Source::named(word),
        None => None,
    };
    let inputs = if paths.is_empty() {
        INPUT.as_slice()
    } else {
        paths
    };
    let mut is_any = false;
    for path in inputs {
        let octets = read_file(place, alloc, *path, reader, errors)?;
        match import.add(octets.as_slice(), from, place.second()) {
            Ok(added) => {
                is_any = is_any || added.taken > 0;
                let _ = tell(*path, added, errors);
            }
            Err(ImportFault::Unknown) => {
                let _ = tell_unknown(*path, errors);
                return finished(Import::new(alloc), false);
            }
            Err(_) => return Err(Failure::Fault(Fault::Memory)),
        }
    }
    finished(import, is_any)
}

/// What is printed where names were taken, or where none was.
fn finished(import: Import, is_any: bool) -> Result<Printed, Failure>
    ensures { IfOk result (λ printed. Imports (string_bytes printed.text)) }
{
    match import.finish() {
        Ok(text) => Ok(Printed {
            text,
            ending: Ending::of(is_any),
        }),
        Err(ImportFault::Memory) => Err(Failure::Fault(Fault::Memory)),
        Err(_) => Err(Failure::Fault(Fault::Device)),
    }
}

/// Says what was taken of a file.
fn tell<E: Write>(path: &str, added: Added, errors: &mut E) -> io::Result<()> {
    let path = called(path);
    let kind = added.source.word();
    let taken = added.taken;
    let left = added.left;
    writeln!(
        errors,
        "nbt: {path}: {kind}: names taken: {taken}, left out: {left}"
    )?;
    errors.flush()
}

/// Says that a file looks like none that is imported.
fn tell_unknown<E: Write>(path: &str, errors: &mut E) -> io::Result<()> {
    let path = called(path);
    writeln!(
        errors,
        "nbt: {path}: no line as in wins.dat, lmhosts, nbtscan's output or a list; --from says what it is"
    )?;
    errors.flush()
}
