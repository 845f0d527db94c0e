//! What comes of an instruction, as text.

ghost use Rattle.std.specs.Prelude.{◌≡◌, ◌++◌, ℕ, List, Option, OnOk};
ghost use Rattle.std.specs.String.{string_bytes};
ghost use Rattle.nbt_node.specs.declared.fault.AskFault.{AskFault};
ghost use Rattle.nbt_node.specs.declared.fault.ReleaseFault.{ReleaseFault};
ghost use Rattle.nbt_node.specs.declared.fault.LookupFault.{LookupFault};
ghost use Rattle.nbt_node.specs.Numbers.{ask_fault_number, ask_fault_word, release_fault_number, release_fault_word, lookup_fault_number, lookup_fault_word};
ghost use Rattle.nbt_text.specs.Lines.{newline};
ghost use Rattle.nbt_text.specs.NameText.{PrintsName};
ghost use Rattle.nbt_world.specs.World.{WorldValue};
ghost use Rattle.nbt_world.specs.Step.{Step};
ghost use Rattle.nbt_sim.specs.Script.{Does, NamesRefusal, Prints, PrintsOutcome, holder_text, holders_line, holders_text};
ghost use Rattle.nbt_sim.specs.Words.{kept_word, timely_word};

use crate::instruction::Instruction;
use crate::report::Report;
use nbt_name::Name;
use nbt_node::{AskFault, LookupFault, ReleaseFault};
use nbt_show::kind_word;
use nbt_text::{end_line, write_name};
use nbt_world::{Event, Holder, Outcome};
use std::alloc::AllocError;

/// Appends what an instruction prints that reports this.
pub fn write_report(
    instruction: &Instruction,
    report: &Report,
    out: &mut String,
) -> Result<(), AllocError>
    requires { (old : Option WorldValue) × (new : Option WorldValue) × Does old instruction.now new report.now }
    ensures { OnOk result ((text : List ℕ) × (string_bytes out.new ≡ string_bytes out.old ++ text)
        × Prints instruction.now report.now text) }
{
    match report {
        Report::Quiet => Ok(()),
        Report::Event(outcome) => {
            let Instruction::Happens(event) = instruction else {
                unreachable!();
            };
            write_outcome(event, *outcome, out)
        }
        Report::Holders(holders) => {
            let Instruction::Holders(name) = instruction else {
                unreachable!();
            };
            write_holders(name, holders.as_slice(), out)
        }
        Report::Kept(kept) => write_kept(*kept, out),
        Report::Timely(timely) => write_timely(*timely, out),
    }
}

/// Appends the line of what came of an event.
fn write_outcome(event: &Event, outcome: Outcome, out: &mut String) -> Result<(), AllocError>
    requires { (old : WorldValue) × (new : WorldValue) × Step old event.now outcome new }
    ensures { OnOk result ((text : List ℕ) × (string_bytes out.new ≡ string_bytes out.old ++ text ++ newline)
        × PrintsOutcome event.now outcome text) }
{
    match outcome {
        Outcome::Done => writeln!(out, "ok"),
        Outcome::Sent(k) => writeln!(out, "sent {k}"),
        Outcome::Refused(number) => {
            let word = word_of_refusal(event, number);
            writeln!(out, "refused {number} {word}")
        }
        Outcome::Nothing => writeln!(out, "none"),
        Outcome::Down => writeln!(out, "down"),
        Outcome::Nobody => writeln!(out, "nobody"),
        Outcome::Lost => writeln!(out, "lost"),
        Outcome::Taken => writeln!(out, "taken"),
    }
}

/// The word of the fault with this number, with which a call of a node was refused.
fn word_of_refusal(event: &Event, number: u8) -> &'static str
    requires { (word : List ℕ) × NamesRefusal event.now number word }
    ensures { NamesRefusal event.now number result.now }
{
    match event {
        Event::Ask { .. } => word_of_ask(number),
        Event::Release { .. } => word_of_release(number),
        Event::Resolve { .. } => word_of_lookup(number),
        Event::NameStatus { .. } => word_of_lookup(number),
        _ => unreachable!(),
    }
}

/// The word of the fault of an ask.
fn word_of_ask(number: u8) -> &'static str
    requires { (fault : AskFault) × (number ≡ ask_fault_number fault) }
    ensures { (fault : AskFault) × (number ≡ ask_fault_number fault) × (result.now ≡ ask_fault_word fault) }
{
    AskFault::of(number).unwrap().word()
}

/// The word of the fault of a release.
fn word_of_release(number: u8) -> &'static str
    requires { (fault : ReleaseFault) × (number ≡ release_fault_number fault) }
    ensures { (fault : ReleaseFault) × (number ≡ release_fault_number fault) × (result.now ≡ release_fault_word fault) }
{
    ReleaseFault::of(number).unwrap().word()
}

/// The word of the fault of a lookup.
fn word_of_lookup(number: u8) -> &'static str
    requires { (fault : LookupFault) × (number ≡ lookup_fault_number fault) }
    ensures { (fault : LookupFault) × (number ≡ lookup_fault_number fault) × (result.now ≡ lookup_fault_word fault) }
{
    LookupFault::of(number).unwrap().word()
}

/// Appends the line of the nodes that hold a name.
fn write_holders(name: &Name, holders: &[Holder], out: &mut String) -> Result<(), AllocError>
    ensures { OnOk result ((printed : List ℕ) × PrintsName name.now printed
        × (string_bytes out.new ≡ string_bytes out.old ++ holders_line printed holders.now)) }
{
    out.push_str("holders ")?;
    write_name(name, out)?;
    out.push_str(": ")?;
    write_list(holders, out)?;
    end_line(out)
}

/// Appends the line of whether the clocks kept the drift bound so far.
fn write_kept(kept: bool, out: &mut String) -> Result<(), AllocError>
    ensures { OnOk result (string_bytes out.new ≡ string_bytes out.old ++ kept_word kept ++ newline) }
{
    out.push_str(if kept { "kept\n" } else { "broken\n" })
}

/// Appends the line of whether the clocks were timely so far.
fn write_timely(timely: bool, out: &mut String) -> Result<(), AllocError>
    ensures { OnOk result (string_bytes out.new ≡ string_bytes out.old ++ timely_word timely ++ newline) }
{
    out.push_str(if timely { "timely\n" } else { "untimely\n" })
}

/// Appends holders, or `none` where there are none.
fn write_list(holders: &[Holder], out: &mut String) -> Result<(), AllocError>
    ensures { OnOk result (string_bytes out.new ≡ string_bytes out.old ++ holders_text holders.now) }
{
    let Some((first, others)) = holders.split_first() else {
        return out.push_str("none");
    };
    write_holder(*first, out)?;
    for holder in others {
        out.push_str(", ")?;
        write_holder(*holder, out)?;
    }
    Ok(())
}

/// Appends a holder, as in `n1 unique`.
fn write_holder(holder: Holder, out: &mut String) -> Result<(), AllocError>
    ensures { OnOk result (string_bytes out.new ≡ string_bytes out.old ++ holder_text holder) }
{
    let node = holder.node;
    let kind = kind_word(holder.kind);
    write!(out, "n{node} {kind}")
}
