//! Standard input, read to its end.

ghost use Rattle.std.specs.Prelude.{◌≤◌, IfOk, vec_len};
ghost use Rattle.nbt_prog.specs.Input.{IsInput};

use crate::offline::failure::Failure;
use crate::offline::reason::reporting;
use std::alloc::Global;
use std::io::{Read, Write};

/// The most octets that a command reads.
const MOST: usize = 1_048_576;

/// Reads the input to its end. Refused: more than 1,048,576 octets are `Unreadable` (our profile), and `line` says so in `errors`; a reader
/// that fails is `Device`.
pub fn read_input<R: Read, E: Write>(
    alloc: Global,
    reader: &mut R,
    line: &str,
    errors: &mut E,
) -> Result<Vec<u8>, Failure>
    ensures bound { IfOk result (λ octets. vec_len octets ≤ 1048576) }
    ensures input { IfOk result (λ octets. IsInput (R.remaining reader.old) octets.items) }
{
    reporting(read_whole(alloc, reader), line, errors)
}

fn read_whole<R: Read>(alloc: Global, reader: &mut R) -> Result<Vec<u8>, Failure>
    ensures bound { IfOk result (λ octets. vec_len octets ≤ 1048576) }
    ensures input { IfOk result (λ octets. IsInput (R.remaining reader.old) octets.items) }
{
    let mut octets = Vec::new(alloc);
    reader.take(MOST as u64 + 1).read_to_end(&mut octets)?;
    if octets.len() > MOST {
        return Err(Failure::Unreadable);
    }
    Ok(octets)
}
