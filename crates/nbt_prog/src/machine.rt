//! Runs a command line on a machine.

ghost use Rattle.std.specs.Prelude.{◌≡◌, ◌≤◌, IfOk, IfErr};
ghost use Rattle.nbt_prog.specs.Inner.Failure.{prints_objects};
ghost use Rattle.nbt_prog.specs.Inner.Refusals.{FailsOn};
ghost use Rattle.nbt_prog.specs.Running.{Ends, EndsOn};

use crate::concluding::{conclude, conclude_failed};
use crate::failure::Failure;
use crate::network::{node_arguments, serve_arguments};
use crate::numbers::ports_of;
use crate::offline::{Here, Place};
use crate::running::{listed, reported, run};
use nbt_args::{AdminLine, CommandLine};
use std::alloc::Global;
use std::fs::File;
use std::io::{Read, Write};
use std::net::Net;
use std::random::RandomSource;
use std::rt::Files;
use std::time;

/// Runs a command line on this machine, and returns the exit status. The commands that open sockets write to `writer` while they run,
/// `lookup` and `status` at their end; the others as [`run`] does. The word of a failure is printed in an object where `scan --json`
/// fails. `errors` gets the lines of [`command_telling`](crate::command_telling), except the one for memory that is out.
pub fn run_on<
    M: Net + time::Clock + RandomSource + Files<File = File>,
    R: Read,
    W: Write,
    E: Write,
>(
    machine: &M,
    alloc: Global,
    line: &CommandLine<'_>,
    reader: &mut R,
    writer: &mut W,
    errors: &mut E,
) -> u8
    ensures bound { result ≤ 6 }
    ensures ends { EndsOn line.now (R.remaining reader.old) result (W.contents writer.old) (W.contents writer.new) }
{
    match done_on(machine, alloc, line, reader, writer, errors) {
        Ok(status) => status,
        Err(failure) => conclude_failed(failure, prints_objects(line), writer),
    }
}

/// Whether each line that the command prints is an object of JSON.
fn prints_objects(line: &CommandLine<'_>) -> bool
    ensures { result ≡ prints_objects line.now }
{
    match line {
        CommandLine::Admin(AdminLine::Scan(texts)) => texts.json,
        _ => false,
    }
}

/// Runs a command line up to its status, or to its failure, which is not printed yet.
fn done_on<M: Net + time::Clock + RandomSource + Files<File = File>, R: Read, W: Write, E: Write>(
    machine: &M,
    alloc: Global,
    line: &CommandLine<'_>,
    reader: &mut R,
    writer: &mut W,
    errors: &mut E,
) -> Result<u8, Failure>
    ensures bound { IfOk result (λ status. status ≤ 6) }
    ensures ends { IfOk result (λ status.
        EndsOn line.now (R.remaining reader.old) status (W.contents writer.old) (W.contents writer.new)) }
    ensures failure { IfErr result (FailsOn line.now) }
{
    match line {
        CommandLine::Admin(line) => match nbt_admin::run(machine, alloc, line, writer, errors) {
            Ok(status) => Ok(status),
            Err(failure) => Err(reported(alloc, failure, errors)),
        },
        CommandLine::Serve(texts) => {
            let arguments = serve_arguments(alloc, texts, errors)?;
            nbt_bench::run_server(machine, alloc, &arguments, writer, errors)?;
            Ok(0)
        }
        CommandLine::Node(texts) => {
            let arguments = node_arguments(alloc, texts, errors)?;
            nbt_bench::run_node(machine, &arguments, writer, errors)?;
            Ok(0)
        }
        CommandLine::Loop(port) => {
            let ports = ports_of(alloc, port)?;
            nbt_bench::run_loop(machine, alloc, ports, writer, errors)?;
            Ok(0)
        }
        CommandLine::Import(_) | CommandLine::Leases(_) => {
            Ok(run_listed(&Here { machine }, alloc, line, reader, writer, errors))
        }
        CommandLine::Answer(_)
        | CommandLine::Show(_)
        | CommandLine::Check
        | CommandLine::Sim
        | CommandLine::Draw => Ok(run(alloc, line, reader, writer, errors)),
    }
}

/// Runs a command that reads lists, with the files of this place, and returns its status.
fn run_listed<P: Place, R: Read, W: Write, E: Write>(
    place: &P,
    alloc: Global,
    line: &CommandLine<'_>,
    reader: &mut R,
    writer: &mut W,
    errors: &mut E,
) -> u8
    ensures bound { result ≤ 4 }
    ensures ends { Ends line.now (R.remaining reader.old) result (W.contents writer.old) (W.contents writer.new) }
{
    let outcome = listed(place, alloc, line, reader, errors);
    conclude(outcome, writer)
}
