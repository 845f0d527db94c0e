//! A script as a picture.

ghost use Rattle.std.specs.Prelude.{◌≡◌, ◌↔◌, ◌++◌, ℕ, List, None, IfOk, OnOk, IsTrue};
ghost use Rattle.std.specs.String.{string_bytes};
ghost use Rattle.nbt_text.specs.Lines.{lines};
ghost use Rattle.nbt_text.specs.Texts.{texts};
ghost use Rattle.nbt_sim.specs.Script.{PlaysLine};
ghost use Rattle.nbt_sim.specs.Drawing.{EndsAt};

use crate::picture::charting::write_picture;
use crate::picture::sketch::Sketch;
use crate::script::{Played, play_line};
use nbt_text::lines_of;
use nbt_world::World;
use std::alloc::{AllocError, Global};

/// Appends the picture of a script: an SVG document. A script's lines are played as [`crate::play`] plays them. The first one
/// that can't be read, or asks for what can't be done, ends the script: its number is returned, counted from 1 and with the
/// blank ones among them, and the picture shows what came before it. `None` where there was none. `AllocError` only where out
/// of memory; to a server, out of memory is a datagram lost.
pub fn draw(script: &[u8], out: &mut String) -> Result<Option<usize>, AllocError>
    ensures ends { IfOk result (EndsAt (lines script.now)) }
    ensures drawn { OnOk result ((picture : List ℕ) × (string_bytes out.new ≡ string_bytes out.old ++ picture)) }
{
    let alloc = *out.allocator();
    let mut sketch = Sketch::new(alloc);
    let stopped = watch_script(alloc, script, &mut sketch)?;
    let mut picture = String::new(alloc);
    write_picture(&sketch.chart, &mut picture)?;
    out.push_str(picture.as_str())?;
    Ok(stopped)
}

/// Keeps what the lines of a script do. Returns the number of the line that ends it, if one does.
fn watch_script(
    alloc: Global,
    script: &[u8],
    sketch: &mut Sketch,
) -> Result<Option<usize>, AllocError>
    ensures { IfOk result (EndsAt (lines script.now)) }
{
    let lines = lines_of(alloc, script)?;
    watch_lines(alloc, lines.as_slice(), &mut None, sketch)
}

/// Keeps what the lines of a script do, of which none is played yet.
fn watch_lines(
    alloc: Global,
    lines: &[&[u8]],
    world: &mut Option<World>,
    sketch: &mut Sketch,
) -> Result<Option<usize>, AllocError>
    requires { world.old ≡ None }
    ensures { IfOk result (EndsAt (texts lines.now)) }
{
    'lines: for (index, line) in lines.iter().enumerate() {
        if watch_line(alloc, line, world, sketch)? {
            finish(sketch, world)?;
            return Ok(Some(index + 1));
        }
    }
    finish(sketch, world)?;
    Ok(None)
}

/// Keeps what a line does in a script's world. Returns whether it ends the script.
fn watch_line(
    alloc: Global,
    line: &[u8],
    world: &mut Option<World>,
    sketch: &mut Sketch,
) -> Result<bool, AllocError>
    ensures { IfOk result (λ is_last. (played : Played) × (text : List ℕ) × PlaysLine world.old line.now played world.new text
        × (IsTrue is_last ↔ (played ≡ Played.Unreadable))) }
{
    let mut printed = String::new(alloc);
    let played = play_line(alloc, line, world, &mut printed)?;
    watch(sketch, &played, world, printed.as_str())
}

/// Keeps what came of a line that printed this. Returns whether the line ends the script.
fn watch(
    sketch: &mut Sketch,
    played: &Played,
    world: &Option<World>,
    printed: &str,
) -> Result<bool, AllocError>
    ensures { IfOk result (λ is_last. IsTrue is_last ↔ (played.now ≡ Played.Unreadable)) }
{
    if let (Some(world), Played::Done(instruction, report)) = (world, played) {
        let line = printed.strip_suffix("\n").unwrap_or(printed);
        sketch.watch(instruction, report, world, line)?;
    }
    Ok(matches!(played, Played::Unreadable))
}

/// Keeps what was over by the end of the script.
fn finish(sketch: &mut Sketch, world: &Option<World>) -> Result<(), AllocError> {
    match world {
        Some(world) => sketch.finish(world),
        None => Ok(()),
    }
}
