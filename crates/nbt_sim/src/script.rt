//! Scripts, line by line.

ghost use Rattle.std.specs.Prelude.{◌≡◌, ◌↔◌, ◌++◌, ℕ, List, None, MatchOption, IfOk, IsTrue};
ghost use Rattle.std.specs.String.{string_bytes};
ghost use Rattle.nbt_text.specs.Lines.{lines};
ghost use Rattle.nbt_text.specs.Texts.{texts};
ghost use Rattle.nbt_sim.specs.Script.{Does, Fits, Plays, PlaysLine};

use crate::instruction::{Instruction, Line, parse_line};
use crate::printing::write_report;
use crate::report::Report;
use crate::script_world::{begin, drift, go_on};
use nbt_text::lines_of;
use nbt_world::World;
use std::alloc::{AllocError, Global};

/// What came of a line.
#[derive(Debug, Drop)]
pub enum Played {
    /// It is blank.
    Blank,
    /// This was done, and this came of it.
    Done(Instruction, Report),
    /// It can't be read, or asks for what can't be done.
    Unreadable,
}

impl Played {
    /// Whether it ends the script.
    fn is_unreadable(&self) -> bool
        ensures { IsTrue result ↔ (self.now ≡ Played.Unreadable) }
    {
        matches!(self, Played::Unreadable)
    }
}

/// Appends what the lines of a script print, in order; the first line that can't be read, or asks for what can't be done,
/// is named by its number, counted from 1 and with the blank ones among them, and ends the script. Returns whether
/// there was none. `AllocError` only where out of memory; to a server, out of memory is a datagram lost.
pub fn play(script: &[u8], out: &mut String) -> Result<bool, AllocError>
    ensures { IfOk result (λ well. (text : List ℕ) × (string_bytes out.new ≡ string_bytes out.old ++ text)
        × Plays 1 None (lines script.now) well text) }
{
    let alloc = *out.allocator();
    let lines = lines_of(alloc, script)?;
    play_lines(alloc, lines.as_slice(), &mut None, out)
}

/// Plays lines as `play` does, in a script's world.
fn play_lines(
    alloc: Global,
    lines: &[&[u8]],
    world: &mut Option<World>,
    out: &mut String,
) -> Result<bool, AllocError>
    ensures { IfOk result (λ well. (text : List ℕ) × (string_bytes out.new ≡ string_bytes out.old ++ text)
        × Plays 1 world.old (texts lines.now) well text) }
{
    'lines: for (index, line) in lines.iter().enumerate() {
        if play_line(alloc, line, world, out)?.is_unreadable() {
            let number = index + 1;
            writeln!(out, "line {number}: unreadable")?;
            return Ok(false);
        }
    }
    Ok(true)
}

/// Does what a line of a script says in the script's world, which `config` begins, and appends what the line prints.
/// Returns what was done and what came of it. `AllocError` as with `play`; then only a part may be printed.
pub fn play_line(
    alloc: Global,
    line: &[u8],
    world: &mut Option<World>,
    out: &mut String,
) -> Result<Played, AllocError>
    ensures { IfOk result (λ played. (text : List ℕ) × (string_bytes out.new ≡ string_bytes out.old ++ text)
        × PlaysLine world.old line.now played world.new text) }
{
    match parse_line(alloc, line)? {
        Line::Blank => Ok(Played::Blank),
        Line::Unreadable => Ok(Played::Unreadable),
        Line::Says(instruction) => {
            let Some(report) = follow(alloc, world, &instruction)? else {
                return Ok(Played::Unreadable);
            };
            write_report(&instruction, &report, out)?;
            Ok(Played::Done(instruction, report))
        }
    }
}

/// Does what a line asks for. Returns what came of it; `None` where it can't be done.
fn follow(
    alloc: Global,
    world: &mut Option<World>,
    instruction: &Instruction,
) -> Result<Option<Report>, AllocError>
    ensures { IfOk result (λ done. MatchOption done (¬ Fits world.old instruction.now)
        (Does world.old instruction.now world.new)) }
{
    let Some(world) = world else {
        return Ok(begins(alloc, world, instruction));
    };
    match instruction {
        Instruction::Config(..) => Ok(None),
        Instruction::At(moment) => Ok(go_on(world, *moment)),
        Instruction::Advance { ms, moves } => Ok(drift(world, *ms, moves)),
        Instruction::Happens(event) => match world.step(event) {
            Ok(outcome) => Ok(Some(Report::Event(outcome))),
            Err(_) => Err(AllocError),
        },
        Instruction::Holders(name) => Ok(Some(Report::Holders(world.holders(name)))),
        Instruction::Kept => Ok(Some(Report::Kept(world.kept()))),
        Instruction::Timely => Ok(Some(Report::Timely(world.timely()))),
    }
}

/// Begins a world where a line asks for one, and the world can be.
fn begins(alloc: Global, world: &mut Option<World>, instruction: &Instruction) -> Option<Report>
    requires { world.old ≡ None }
    ensures { MatchOption result (¬ Fits None instruction.now) (Does None instruction.now world.new) }
{
    let Instruction::Config(config, nodes) = instruction else {
        return None;
    };
    *world = begin(alloc, *config, *nodes);
    if world.is_some() {
        Some(Report::Quiet)
    } else {
        None
    }
}
