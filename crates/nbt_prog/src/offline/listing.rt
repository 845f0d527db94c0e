//! The command `leases`: the list of a name server's leases in, a table or objects of JSON out (our profile).

use crate::offline::failure::Failure;
use crate::offline::files::{INPUT_PATH, Place, called, read_file};
use crate::offline::printed::{Ending, Printed};
use nbt_lists::{ListFault, Row, read_list, write_objects, write_table};
use nbt_port::Fault;
use std::alloc::{AllocError, Global};
use std::io;
use std::io::{Read, Write};

/// Prints the leases of the list of this path, or of that which `reader` has where there is none, as a table or as objects of JSON. The
/// ending is `Refused` where it is no list: nothing is printed, and a line in `errors` says which line of it is none. Refused: `Device`
/// where it can't be read, which `errors` says too; or out of memory.
pub fn leases<P: Place, R: Read, E: Write>(
    place: &P,
    alloc: Global,
    path: Option<&str>,
    in_objects: bool,
    reader: &mut R,
    errors: &mut E,
) -> Result<Printed, Failure> {
    let path = path.unwrap_or(INPUT_PATH);
    let octets = read_file(place, alloc, path, reader, errors)?;
    match read_list(alloc, octets.as_slice()) {
        Ok(rows) => Ok(printed_of(alloc, rows.as_slice(), place.second(), in_objects)?),
        Err(ListFault::Memory) => Err(Failure::Fault(Fault::Memory)),
        Err(fault) => {
            let _ = tell(path, fault, errors);
            Ok(Printed {
                text: String::new(alloc),
                ending: Ending::Refused,
            })
        }
    }
}

/// What is printed of these rows.
fn printed_of(
    alloc: Global,
    rows: &[Row],
    now: Option<u64>,
    in_objects: bool,
) -> Result<Printed, AllocError> {
    let mut text = String::new(alloc);
    if in_objects {
        write_objects(rows, now, &mut text)?;
    } else {
        write_table(rows, now, &mut text)?;
    }
    Ok(Printed {
        text,
        ending: Ending::Done,
    })
}

/// Says which line isn't one of a list.
fn tell<E: Write>(path: &str, fault: ListFault, errors: &mut E) -> io::Result<()> {
    let path = called(path);
    writeln!(errors, "nbt: {path}: {fault}")?;
    errors.flush()
}
