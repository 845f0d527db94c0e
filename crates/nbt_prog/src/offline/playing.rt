//! The command `sim`: a script in, what comes of its lines out (our profile).

ghost use Rattle.std.specs.Prelude.{◌≡◌, ℕ, List, None, IfOk};
ghost use Rattle.std.specs.String.{string_bytes};
ghost use Rattle.nbt_text.specs.Lines.{lines};
ghost use Rattle.nbt_sim.specs.Script.{Plays};
ghost use Rattle.nbt_prog.specs.Input.{IsInput};
ghost use Rattle.nbt_prog.specs.Printed.{is_done};

use crate::offline::failure::Failure;
use crate::offline::input::read_input;
use crate::offline::printed::{Ending, Printed};
use crate::offline::reason;
use nbt_sim::play;
use std::alloc::{AllocError, Global};
use std::io::{Read, Write};

/// Reads a script to the end of `reader`, and plays it: what its lines print, in order, as far as they can be read. The ending is `Refused` where
/// one can't. Refused as [`check`](crate::check) is.
pub fn sim<R: Read, E: Write>(
    alloc: Global,
    reader: &mut R,
    errors: &mut E,
) -> Result<Printed, Failure>
    ensures played { IfOk result (λ printed. (input : List ℕ) × IsInput (R.remaining reader.old) input
        × Plays 1 None (lines input) (is_done printed.ending) (string_bytes printed.text)) }
{
    let input = read_input(alloc, reader, reason::INPUT, errors)?;
    let printed = play_input(alloc, input.as_slice())?;
    Ok(printed)
}

fn play_input(alloc: Global, input: &[u8]) -> Result<Printed, AllocError>
    ensures { IfOk result (λ printed. Plays 1 None (lines input.now) (is_done printed.ending) (string_bytes printed.text)) }
{
    let mut text = String::new(alloc);
    let ending = Ending::of(play(input, &mut text)?);
    Ok(Printed { text, ending })
}
