//! The program with its commands, and the help on it.

ghost use Rattle.std.specs.Prelude.{◌≡◌, IfOk};
ghost use Rattle.clap.specs.Words.{kind_of};
ghost use Rattle.nbt_args.specs.Refusal.{IsWrongUsage};

use crate::argument::command_of;
use crate::refusal::Refusal;
use crate::{admin, bench, lists, network, scan};
use clap::error::ErrorKind;
use clap::{Command, Error};
use std::alloc::{AllocError, Global};

const ABOUT: &str =
    "NetBIOS over TCP and UDP, as RFC 1001 and RFC 1002 specify it: names, and the packets of the name service";

const HELP: &str = "\
`lookup`, `status`, `scan`, `nbns`, `host`, `release`, `import` and `leases` are for people who run a network. The others are a bench
on which the protocol is tried: their arguments and texts are fixed. `nbt COMMAND --help` has the arguments of each.

Examples:
  nbt lookup FILER --server 192.0.2.1
  nbt status 192.0.2.7
  nbt nbns --bind 192.0.2.1 --log
  nbt host FILER --server 192.0.2.1 --bind 192.0.2.7
  nbt show --explain session '85:00:00:00'

Exit status:
  0  done
  1  of `lookup` and `status`: not found; of `release`: a name was not released; of `scan`: no host replied; of `import` and
     `leases`: a file is none of those that they read, or no name was taken; of the bench: octets are refused, or an address, a
     hexadecimal text or the input can't be read (prints `unreadable`)
  2  wrong usage, which standard output explains, or an invalid argument of a command for people, which standard error explains
  3  a port, a clock, a socket, a file, the input or the output failed; prints `device` where it can
  4  out of memory; prints `memory`
  5  of `lookup` and `status`: no reply; of `host`: a name wasn't held at the end
  6  of `nbns`: another server uses the folder of --state";

/// Makes the program with its commands, in the order of the help.
pub fn program<'a>(alloc: Global) -> Result<Command<'a>, AllocError> {
    let commands = [
        &admin::LOOKUP,
        &admin::STATUS,
        &admin::NBNS,
        &admin::HOST,
        &admin::RELEASE,
        &scan::SCAN,
        &lists::IMPORT,
        &lists::LEASES,
        &bench::ANSWER,
        &bench::SHOW,
        &bench::CHECK,
        &bench::SIM,
        &network::SERVE,
        &network::NODE,
        &network::LOOP,
    ];
    let mut program = Command::new(alloc, "nbt")
        .version("0.1.0")
        .about(ABOUT)
        .after_help(HELP)
        .subcommand_required(true)
        .arg_required_else_help(true)
        .bin_name("nbt")?;
    for command in &commands {
        program = program.subcommand(command_of(alloc, command)?)?;
    }
    Ok(program)
}

/// Refuses an argument that is not UTF-8, with clap's own text around it; or is out of memory.
pub fn no_text(alloc: Global) -> Refusal
    ensures { IsWrongUsage result }
{
    match no_text_error(alloc) {
        Ok(error) => Refusal::from(error),
        Err(_) => Refusal::Memory,
    }
}

fn no_text_error(alloc: Global) -> Result<Error, AllocError>
    ensures { IfOk result (λ e. kind_of e ≡ ErrorKind.InvalidValue) }
{
    program(alloc)?.error(
        ErrorKind::InvalidValue,
        "invalid UTF-8 was detected in an argument",
    )
}
