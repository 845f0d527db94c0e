//! Runs a command line without a machine: the commands that open no socket.

ghost use Rattle.std.specs.Prelude.{◌≡◌, ◌≢◌, ◌≤◌, ◌⊎◌, IfOk, IfErr, codes};
ghost use Rattle.std.specs.String.{string_bytes};
ghost use Rattle.std.specs.Io.KnownBytes.{Appends};
ghost use Rattle.nbt_prog.specs.Printed.{is_done};
ghost use Rattle.nbt_text.specs.Lines.{one_line};
ghost use Rattle.nbt_prog.specs.Inner.Failure.{failure_status};
ghost use Rattle.nbt_prog.specs.Running.{Ends, Prints, PrintsAnswer, PrintsShow};

use crate::concluding::conclude;
use crate::failure::Failure;
use crate::network::{node_arguments, serve_arguments};
use crate::numbers::{ports_of, time_of};
use crate::offline;
use crate::offline::{Nowhere, Place, Printed};
use nbt_args::{AnswerTexts, CommandLine, ShowTexts};
use nbt_port::Fault;
use std::alloc::Global;
use std::io::{Read, Write};

/// Runs a command line without a machine, and returns the exit status. All output goes to `writer`, at once. A line in `errors` says why
/// something can't be read, or which argument of a command for people who run a network is invalid. Failures to write it are ignored.
/// The statuses are those of [`command`](crate::command).
pub fn run<R: Read, W: Write, E: Write>(
    alloc: Global,
    line: &CommandLine<'_>,
    reader: &mut R,
    writer: &mut W,
    errors: &mut E,
) -> u8
    ensures bound { result ≤ 4 }
    ensures ends { Ends line.now (R.remaining reader.old) result (W.contents writer.old) (W.contents writer.new) }
    ensures memory { result ≡ 4
        → Appends (W.contents writer.old) (W.contents writer.new) (one_line (codes "memory")) }
{
    let outcome = outcome_of(alloc, line, reader, errors);
    conclude(outcome, writer)
}

/// Runs a command up to its whole output, which is not printed yet.
fn outcome_of<R: Read, E: Write>(
    alloc: Global,
    line: &CommandLine<'_>,
    reader: &mut R,
    errors: &mut E,
) -> Result<Printed, Failure>
    ensures printed { IfOk result (λ printed.
        Prints line.now (R.remaining reader.old) (is_done printed.ending) (string_bytes printed.text)) }
    ensures failure { IfErr result (λ failure. failure_status failure ≢ 0) }
{
    match line {
        CommandLine::Answer(texts) => answer(alloc, texts, errors),
        CommandLine::Show(texts) => show(alloc, texts, reader, errors),
        CommandLine::Check => Ok(offline::check(alloc, reader, errors)?),
        CommandLine::Sim => Ok(offline::sim(alloc, reader, errors)?),
        CommandLine::Draw => Ok(offline::draw(alloc, reader, errors)?),
        CommandLine::Import(_) | CommandLine::Leases(_) => {
            listed(&Nowhere, alloc, line, reader, errors)
        }
        _ => {
            check_arguments(alloc, line, errors)?;
            Err(Failure::Fault(Fault::Device))
        }
    }
}

/// Runs a command that reads lists up to its whole output, with the files of this place.
pub fn listed<P: Place, R: Read, E: Write>(
    place: &P,
    alloc: Global,
    line: &CommandLine<'_>,
    reader: &mut R,
    errors: &mut E,
) -> Result<Printed, Failure>
    ensures printed { IfOk result (λ printed.
        Prints line.now (R.remaining reader.old) (is_done printed.ending) (string_bytes printed.text)) }
    ensures failure { IfErr result (λ failure. failure_status failure ≢ 0) }
{
    match line {
        CommandLine::Import(texts) => Ok(offline::import(
            place,
            alloc,
            texts.files.as_slice(),
            texts.from,
            reader,
            errors,
        )?),
        CommandLine::Leases(texts) => Ok(offline::leases(
            place, alloc, texts.file, texts.json, reader, errors,
        )?),
        _ => Err(Failure::Fault(Fault::Device)),
    }
}

fn answer<E: Write>(
    alloc: Global,
    texts: &AnswerTexts<'_>,
    errors: &mut E,
) -> Result<Printed, Failure>
    ensures printed { IfOk result (λ printed. PrintsAnswer texts.now (is_done printed.ending) (string_bytes printed.text)) }
    ensures failure { IfErr result (λ failure. failure_status failure ≢ 0) }
{
    let at = time_of(alloc, texts.at)?;
    let printed = offline::answer(alloc, texts.from, texts.hex, at, errors)?;
    Ok(printed)
}

fn show<R: Read, E: Write>(
    alloc: Global,
    texts: &ShowTexts<'_>,
    reader: &mut R,
    errors: &mut E,
) -> Result<Printed, Failure>
    ensures printed { IfOk result (λ printed.
        PrintsShow texts.now texts.now.explain (R.remaining reader.old) (is_done printed.ending) (string_bytes printed.text)) }
    ensures failure { IfErr result (λ failure. failure_status failure ≢ 0) }
{
    if texts.explain {
        Ok(offline::explain(alloc, texts.kind, texts.hex, reader, errors)?)
    } else {
        Ok(offline::show(alloc, texts.kind, texts.hex, errors)?)
    }
}

/// Reads the arguments of a command that needs a machine.
fn check_arguments<E: Write>(
    alloc: Global,
    line: &CommandLine<'_>,
    errors: &mut E,
) -> Result<(), Failure>
    ensures { IfErr result (λ failure. failure_status failure ≢ 0) }
{
    match line {
        CommandLine::Admin(line) => {
            if let Err(failure) = nbt_admin::check(alloc, line) {
                return Err(reported(alloc, failure, errors));
            }
        }
        CommandLine::Serve(texts) => {
            serve_arguments(alloc, texts, errors)?;
        }
        CommandLine::Node(texts) => {
            node_arguments(alloc, texts, errors)?;
        }
        CommandLine::Loop(port) => {
            ports_of(alloc, port)?;
        }
        _ => {}
    }
    Ok(())
}

/// Converts the failure of a command for people who run a network. A line in `errors` reports an invalid argument.
pub fn reported<E: Write>(alloc: Global, failure: nbt_admin::Failure, errors: &mut E) -> Failure
    ensures { 2 ≤ failure_status result }
{
    match failure {
        nbt_admin::Failure::Usage(text) => Failure::Usage(text),
        nbt_admin::Failure::Complaint(complaint) => {
            complaint.report(alloc, errors);
            Failure::Complaint
        }
        nbt_admin::Failure::Fault(fault) => Failure::Fault(fault),
    }
}
