//! The command `sim --draw`: a script in, a picture of its run out (our profile).

ghost use Rattle.std.specs.Prelude.{◌≡◌, ℕ, List, IfOk, is_none};
ghost use Rattle.nbt_text.specs.Lines.{lines};
ghost use Rattle.nbt_sim.specs.Drawing.{EndsAt};
ghost use Rattle.nbt_prog.specs.Drawing.{Draws};
ghost use Rattle.nbt_prog.specs.Input.{IsInput};
ghost use Rattle.nbt_prog.specs.Printed.{is_done};

use crate::offline::failure::Failure;
use crate::offline::input::read_input;
use crate::offline::printed::{Ending, Printed};
use crate::offline::reason;
use std::alloc::{AllocError, Global};
use std::io::{Read, Write};

/// A picture, and the number of the line that ended its script, if one did.
#[derive(Drop)]
struct Drawn {
    printed: Printed,
    stopped: Option<usize>,
}

/// Reads a script to the end of `reader`: the picture of its run, as far as its lines can be read. The ending is `Refused` where one can't, and
/// a line in `errors` says which. Refused as [`check`](crate::check) is.
pub fn draw<R: Read, E: Write>(
    alloc: Global,
    reader: &mut R,
    errors: &mut E,
) -> Result<Printed, Failure>
    ensures drawn { IfOk result (λ printed. (input : List ℕ) × IsInput (R.remaining reader.old) input
        × Draws input (is_done printed.ending)) }
{
    let input = read_input(alloc, reader, reason::INPUT, errors)?;
    let drawn = draw_input(alloc, input.as_slice())?;
    if let Some(number) = drawn.stopped {
        reason::report_line(number, errors);
    }
    Ok(drawn.printed)
}

/// The picture of a script, as far as its lines can be read.
fn draw_input(alloc: Global, input: &[u8]) -> Result<Drawn, AllocError>
    ensures ends { IfOk result (λ drawn. EndsAt (lines input.now) drawn.stopped) }
    ensures ending { IfOk result (λ drawn. is_done drawn.printed.ending ≡ is_none drawn.stopped) }
{
    let mut text = String::new(alloc);
    let stopped = nbt_sim::draw(input, &mut text)?;
    let ending = Ending::of(stopped.is_none());
    Ok(Drawn {
        printed: Printed { text, ending },
        stopped,
    })
}
