//! Reads the numbers of a command line, each within the limits that the help states.

ghost use Rattle.std.specs.Prelude.{IfOk, IfErr, IsSome, IfSome};
ghost use Rattle.nbt_args.specs.declared.limits.LimitedArgument.TheVariants.{At, Port};
ghost use Rattle.nbt_prog.specs.Inner.Failure.{UsageFails};
ghost use Rattle.nbt_prog.specs.Network.{IsWithin, SpellsWithin};

use crate::failure::Failure;
use nbt_args::{LimitedArgument, LimitedCommand, bad_value};
use nbt_bench::Ports;
use nbt_lease::Moment;
use nbt_text::number_within;
use std::alloc::Global;

/// Reads the time of `answer`, in milliseconds.
pub fn time_of(alloc: Global, text: &str) -> Result<Moment, Failure>
    ensures read { IfOk result (λ at. SpellsWithin At text.now at) }
    ensures failure { IfErr result (UsageFails (IsWithin At text.now)) }
{
    let at = number(alloc, LimitedCommand::Answer, LimitedArgument::At, text)?;
    Ok(Moment::new(at).unwrap())
}

/// Reads the first of the three ports of `loop`.
pub fn ports_of(alloc: Global, text: &str) -> Result<Ports, Failure>
    ensures read { IfOk result (λ ports. SpellsWithin Port text.now ports.names) }
    ensures failure { IfErr result (UsageFails (IsWithin Port text.now)) }
{
    let first = number(alloc, LimitedCommand::Loop, LimitedArgument::Port, text)?;
    Ok(Ports::new(first).unwrap())
}

/// Reads a number within its limits. Refused as wrong usage: anything else.
pub fn number(
    alloc: Global,
    command: LimitedCommand,
    limited: LimitedArgument,
    text: &str,
) -> Result<u64, Failure>
    ensures read { IfOk result (SpellsWithin limited text.now) }
    ensures failure { IfErr result (UsageFails (IsWithin limited text.now)) }
{
    match parse_within(limited, text) {
        Some(number) => Ok(number),
        None => Err(bad_value(alloc, command, limited, text))?,
    }
}

/// Reads a number within its limits, in digits alone; leading zeros are accepted.
fn parse_within(limited: LimitedArgument, text: &str) -> Option<u64>
    ensures read { IfSome result (SpellsWithin limited text.now) }
    ensures found { IsWithin limited text.now → IsSome result }
{
    number_within(text, limited.least(), limited.most())
}
