//! The command `check`: vectors in, a verdict on each out (our profile).

ghost use Rattle.std.specs.Prelude.{◌≡◌, ℕ, List, IfOk};
ghost use Rattle.std.specs.String.{string_bytes};
ghost use Rattle.nbt_show.specs.Verdicts.{PrintsChecked};
ghost use Rattle.nbt_prog.specs.Input.{IsInput};
ghost use Rattle.nbt_prog.specs.Printed.{is_done};

use crate::offline::failure::Failure;
use crate::offline::input::read_input;
use crate::offline::printed::{Ending, Printed};
use crate::offline::reason;
use nbt_show::write_verdicts;
use std::alloc::{AllocError, Global};
use std::io::{Read, Write};

/// Reads vectors to the end of `reader`: a verdict on each line that isn't blank, with the line's number, counted from 1 and with the blank ones
/// among them; last how many passed and how many did not. The ending is `Refused` where one did not. Refused: `Unreadable` where there are more
/// than 1,048,576 octets, and a line in `errors` says so; `Device` where `reader` fails; or out of memory.
pub fn check<R: Read, E: Write>(
    alloc: Global,
    reader: &mut R,
    errors: &mut E,
) -> Result<Printed, Failure>
    ensures checked { IfOk result (λ printed. (input : List ℕ) × IsInput (R.remaining reader.old) input
        × PrintsChecked input (is_done printed.ending) (string_bytes printed.text)) }
{
    let input = read_input(alloc, reader, reason::INPUT, errors)?;
    let printed = check_input(alloc, input.as_slice())?;
    Ok(printed)
}

fn check_input(alloc: Global, input: &[u8]) -> Result<Printed, AllocError>
    ensures { IfOk result (λ printed.
        PrintsChecked input.now (is_done printed.ending) (string_bytes printed.text)) }
{
    let mut text = String::new(alloc);
    let ending = Ending::of(write_verdicts(input, &mut text)?);
    Ok(Printed { text, ending })
}
