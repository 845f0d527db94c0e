//! The limits of arguments, and the refusal of a value beyond them.

ghost use Rattle.std.specs.Prelude.{◌≡◌, IfOk};
ghost use Rattle.clap.specs.Words.{kind_of};
ghost use Rattle.nbt_args.specs.Limits.{least_of, most_of};
ghost use Rattle.nbt_args.specs.Refusal.{IsWrongUsage};

use crate::argument::{Argument, Description, command_of};
use crate::refusal::Refusal;
use crate::{admin, bench, network};
use clap::Error;
use clap::error::ErrorKind;
use nbt_lease::{LIFE_MOST, LONGEST_MOST};
use nbt_text::BadUnit;
use std::alloc::{AllocError, Global};
use std::fmt;

/// The greatest time of a server, in milliseconds: the last time of a clock.
const AT_MOST: u64 = 1 << 60;

/// The longest wait for replies after the last request, or after a pass of a scan, in milliseconds (our profile).
pub const WAIT_MOST: u64 = 5_000;

/// The greatest TTL of a request, in seconds, which has 32 bits (RFC 1002 section 4.2.1.3).
const TTL_MOST: u64 = 0xFFFF_FFFF;

/// The greatest number of turns (our profile).
const TURNS_MOST: u64 = 1_000_000;

/// The greatest port that two more ports follow.
const PORT_MOST: u64 = 65_533;

/// A command whose arguments have limits.
#[derive(Clone, Copy)]
pub enum LimitedCommand {
    Lookup,
    Status,
    Answer,
    Serve,
    Node,
    Loop,
}

impl LimitedCommand {
    fn description(self) -> &'static Description {
        match self {
            LimitedCommand::Lookup => &admin::LOOKUP,
            LimitedCommand::Status => &admin::STATUS,
            LimitedCommand::Answer => &bench::ANSWER,
            LimitedCommand::Serve => &network::SERVE,
            LimitedCommand::Node => &network::NODE,
            LimitedCommand::Loop => &network::LOOP,
        }
    }
}

/// An argument whose value has limits.
#[derive(Clone, Copy)]
pub enum LimitedArgument {
    /// The time of the server, in milliseconds.
    At,
    /// The wait for a reply: a number with its unit, whose limits are in milliseconds.
    Wait,
    /// The greatest life of a datagram, in milliseconds.
    Life,
    /// The longest lease, in seconds.
    Longest,
    /// The requested TTL, in seconds.
    Ttl,
    /// The number of turns.
    Turns,
    /// The first of three ports.
    Port,
}

impl LimitedArgument {
    /// The smallest value, in the unit of the argument.
    pub fn least(self) -> u64
        ensures { result ≡ least_of self }
    {
        match self {
            LimitedArgument::At | LimitedArgument::Ttl => 0,
            _ => 1,
        }
    }

    /// The greatest value, in the unit of the argument.
    pub fn most(self) -> u64
        ensures { result ≡ most_of self }
    {
        match self {
            LimitedArgument::At => AT_MOST,
            LimitedArgument::Wait => WAIT_MOST,
            LimitedArgument::Life => LIFE_MOST,
            LimitedArgument::Longest => u64::from(LONGEST_MOST),
            LimitedArgument::Ttl => TTL_MOST,
            LimitedArgument::Turns => TURNS_MOST,
            LimitedArgument::Port => PORT_MOST,
        }
    }

    fn argument(self) -> Argument {
        match self {
            LimitedArgument::At => bench::AT,
            LimitedArgument::Wait => admin::WAIT,
            LimitedArgument::Life => network::LIFE,
            LimitedArgument::Longest => network::LONGEST,
            LimitedArgument::Ttl => network::TTL,
            LimitedArgument::Turns => network::TURNS,
            LimitedArgument::Port => network::PORT,
        }
    }
}

/// What its value must be.
impl fmt::Display for LimitedArgument {
    fn fmt<W: fmt::Write>(&self, f: &mut fmt::Formatter<W>) -> fmt::Result {
        let least = self.least();
        let most = self.most();
        match self {
            LimitedArgument::Wait => {
                let seconds = most / 1_000;
                write!(f, "a time from {least}ms to {seconds}s")
            }
            _ => write!(f, "a whole number from {least} to {most}"),
        }
    }
}

/// Refuses a value beyond the limits of this command's argument, with clap's own text around it; or is out of memory.
pub fn bad_value(
    alloc: Global,
    command: LimitedCommand,
    argument: LimitedArgument,
    value: &str,
) -> Refusal
    ensures { IsWrongUsage result }
{
    match bad_value_error(alloc, command.description(), argument, value) {
        Ok(error) => Refusal::from(error),
        Err(_) => Refusal::Memory,
    }
}

fn bad_value_error(
    alloc: Global,
    command: &Description,
    argument: LimitedArgument,
    value: &str,
) -> Result<Error, AllocError>
    ensures { IfOk result (λ e. kind_of e ≡ ErrorKind.ValueValidation) }
{
    let shown = argument.argument();
    let message = match bad_unit(argument, value) {
        Some(reason) => format!(in alloc; "invalid value '{value}' for '{shown}': {reason}")?,
        None => format!(in alloc; "invalid value '{value}' for '{shown}': not {argument}")?,
    };
    let name = command.name;
    let called = format!(in alloc; "nbt {name}")?;
    let mut command = command_of(alloc, command)?.bin_name(called.as_str())?;
    command.error(ErrorKind::ValueValidation, message.as_str())
}

/// Returns the value if it is a time whose unit is missing or unknown.
fn bad_unit<'a>(argument: LimitedArgument, value: &'a str) -> Option<BadUnit<'a>> {
    match argument {
        LimitedArgument::Wait => BadUnit::of(value),
        _ => None,
    }
}
