//! Runs a command for people who run a network on this machine.

ghost use Rattle.std.specs.Prelude.{◌≡◌, ◌≤◌, IfOk, IfErr};
ghost use Rattle.std.specs.Io.KnownBytes.{Appends};
ghost use Rattle.nbt_scan.specs.Plans.{IsPlan};
ghost use Rattle.nbt_admin.specs.Running.{Runs, Refuses, Stops, AskedHere, CheckedHere, EndedHere, HostedHere, ReleasedHere, ScannedHere, ServedHere};

use crate::asking::{AskArguments, lookup_arguments, status_requests};
use crate::failure::Failure;
use crate::fronting::read_front;
use crate::hosting::{host_arguments, release_arguments};
use crate::scanning::{ScanArguments, scan_arguments};
use crate::serving::server_arguments;
use crate::statuses::ask_all;
use nbt_args::AdminLine;
use nbt_client::ask_here;
use nbt_host::{HostArguments, run_host, run_release};
use nbt_lease::Config;
use nbt_nbns::{Judged, ServerArguments, check_server, judge, run_server, write_warning};
use nbt_port::{Fault, print};
use nbt_scan::run_scan;
use std::alloc::Global;
use std::fs::File;
use std::io::Write;
use std::net::Net;
use std::random::RandomSource;
use std::rt::Files;
use std::{io, time};

/// The status of a host that didn't hold all its names at its end (our profile).
const NOT_HELD: u8 = 5;

/// The status of a scan to which no host replied (our profile).
const NONE_REPLIED: u8 = 1;

/// The status of releases of which one wasn't confirmed (our profile).
const NOT_RELEASED: u8 = 1;

/// Runs a command over this machine's UDP, clocks and files, prints its output, and returns the status: of a lookup or a status request
/// 0, 1 or 5, as its answer has it, and of several requests the greatest; of a name server 0, or 6 where another one has its folder; of a host 0 if it held all its names at its
/// end, else 5; of releases 0 if all were confirmed, else 1; of a scan 0 if a host replied, else 1. The first invalid argument is refused
/// before anything is done. Then it fails as `ask_here`, `run_server`, `run_host` and `run_release` do, and with `Output` if an answer
/// can't be printed. If the longest lease of a name server that keeps no leases is above an hour, a line in `errors` says for how long
/// the server is silent.
pub fn run<M: Net + time::Clock + RandomSource + Files<File = File>, W: Write, E: Write>(
    machine: &M,
    alloc: Global,
    line: &AdminLine<'_>,
    writer: &mut W,
    errors: &mut E,
) -> Result<u8, Failure>
    ensures done { IfOk result (λ status. Runs line.now status (W.contents writer.old) (W.contents writer.new)) }
    ensures bound { IfOk result (λ status. status ≤ 6) }
    ensures failure { IfErr result (Stops line.now) }
{
    match line {
        AdminLine::Lookup(texts) => {
            let lookup = lookup_arguments(alloc, texts)?;
            Ok(ask(machine, alloc, &lookup, writer, errors)?)
        }
        AdminLine::Status(texts) => {
            let requests = status_requests(alloc, texts)?;
            let status = ask_all(machine, alloc, requests.as_slice(), writer, errors)?;
            Ok(status)
        }
        AdminLine::Nbns(texts) => {
            let mut nbns = server_arguments(alloc, texts)?;
            read_front(machine, alloc, texts, &mut nbns.nbns.front, errors)?;
            Ok(serve(machine, alloc, &nbns, texts.check, writer, errors)?)
        }
        AdminLine::Host(texts) => {
            let host = host_arguments(alloc, texts)?;
            Ok(hold(machine, alloc, &host, writer, errors)?)
        }
        AdminLine::Release(texts) => {
            let host = release_arguments(alloc, texts)?;
            Ok(release(machine, alloc, &host, writer, errors)?)
        }
        AdminLine::Scan(texts) => {
            let arguments = scan_arguments(alloc, texts)?;
            Ok(scan(machine, alloc, &arguments, writer, errors)?)
        }
    }
}

/// Reads the arguments of a command line, as [`run`] does first.
pub fn check(alloc: Global, line: &AdminLine<'_>) -> Result<(), Failure>
    ensures failure { IfErr result (Refuses line.now) }
{
    match line {
        AdminLine::Lookup(texts) => {
            lookup_arguments(alloc, texts)?;
        }
        AdminLine::Status(texts) => {
            status_requests(alloc, texts)?;
        }
        AdminLine::Nbns(texts) => {
            server_arguments(alloc, texts)?;
        }
        AdminLine::Host(texts) => {
            host_arguments(alloc, texts)?;
        }
        AdminLine::Release(texts) => {
            release_arguments(alloc, texts)?;
        }
        AdminLine::Scan(texts) => {
            scan_arguments(alloc, texts)?;
        }
    }
    Ok(())
}

/// Sends a request, prints its answer, and returns the status.
fn ask<M: Net + time::Clock + RandomSource, W: Write, E: Write>(
    machine: &M,
    alloc: Global,
    arguments: &AskArguments,
    writer: &mut W,
    errors: &mut E,
) -> Result<u8, Fault>
    ensures done { IfOk result (λ status. AskedHere arguments.now status (W.contents writer.old) (W.contents writer.new)) }
    ensures bound { IfOk result (λ status. status ≤ 5) }
{
    let mut text = String::new(alloc);
    let answer = ask_here(
        machine,
        arguments.bind,
        &arguments.question,
        arguments.patience,
        &mut text,
        errors,
    )?;
    print(text.as_str(), writer).map_err(|_| Fault::Output)?;
    Ok(answer.status())
}

/// Runs a name server, or only says what it would do, and returns the status.
fn serve<M: Net + time::Clock + RandomSource + Files<File = File>, W: Write, E: Write>(
    machine: &M,
    alloc: Global,
    arguments: &ServerArguments,
    check: bool,
    writer: &mut W,
    errors: &mut E,
) -> Result<u8, Fault>
    ensures done { IfOk result (λ status. ServedHere arguments.now check status (W.contents writer.old) (W.contents writer.new)) }
    ensures bound { IfOk result (λ status. status ≤ 6) }
{
    let config = arguments.nbns.config;
    if arguments.state.is_none() && judge(config) == Judged::Long {
        let _ = warn(alloc, config, errors);
    }
    if check {
        check_start(machine, alloc, arguments, writer, errors)
    } else {
        serve_on(machine, alloc, arguments, writer, errors)
    }
}

/// Says what a name server would do that started now, and returns the status.
fn check_start<M: Net + time::Clock + Files<File = File>, W: Write, E: Write>(
    machine: &M,
    alloc: Global,
    arguments: &ServerArguments,
    writer: &mut W,
    errors: &mut E,
) -> Result<u8, Fault>
    ensures done { IfOk result (λ status. CheckedHere arguments.now status (W.contents writer.old) (W.contents writer.new)) }
    ensures bound { IfOk result (λ status. status ≤ 6) }
{
    let folder = check_server(machine, alloc, arguments, writer, errors)?;
    Ok(folder.status())
}

/// Runs a name server to its end, and returns the status.
fn serve_on<M: Net + time::Clock + RandomSource + Files<File = File>, W: Write, E: Write>(
    machine: &M,
    alloc: Global,
    arguments: &ServerArguments,
    writer: &mut W,
    errors: &mut E,
) -> Result<u8, Fault>
    ensures done { IfOk result (λ status. EndedHere arguments.now status (W.contents writer.old) (W.contents writer.new)) }
    ensures bound { IfOk result (λ status. status ≤ 6) }
{
    let folder = run_server(machine, alloc, arguments, writer, errors)?;
    Ok(folder.status())
}

/// Warns for how long a server is silent.
fn warn<E: Write>(alloc: Global, config: Config, errors: &mut E) -> io::Result<()> {
    let mut text = String::new(alloc);
    write_warning(config, &mut text)?;
    writeln!(errors, "nbt: {text}")?;
    errors.flush()
}

/// Runs a host, and returns the status.
fn hold<M: Net + time::Clock + RandomSource, W: Write, E: Write>(
    machine: &M,
    alloc: Global,
    arguments: &HostArguments,
    writer: &mut W,
    errors: &mut E,
) -> Result<u8, Fault>
    ensures done { IfOk result (λ status. HostedHere arguments.now status (W.contents writer.old) (W.contents writer.new)) }
    ensures bound { IfOk result (λ status. status ≤ 5) }
{
    let all = run_host(machine, alloc, arguments, writer, errors)?;
    Ok(if all { 0 } else { NOT_HELD })
}

/// Gives back what a host left, and returns the status.
fn release<M: Net + time::Clock + RandomSource, W: Write, E: Write>(
    machine: &M,
    alloc: Global,
    arguments: &HostArguments,
    writer: &mut W,
    errors: &mut E,
) -> Result<u8, Fault>
    ensures done { IfOk result (λ status. ReleasedHere arguments.now status (W.contents writer.old) (W.contents writer.new)) }
    ensures bound { IfOk result (λ status. status ≤ 5) }
{
    let wants = arguments.wants.as_slice();
    let all = run_release(
        machine,
        alloc,
        arguments.bind,
        arguments.server,
        wants,
        writer,
        errors,
    )?;
    Ok(if all { 0 } else { NOT_RELEASED })
}

/// Asks the hosts of a network for their names, and returns the status.
fn scan<M: Net + time::Clock + RandomSource, W: Write, E: Write>(
    machine: &M,
    alloc: Global,
    arguments: &ScanArguments,
    writer: &mut W,
    errors: &mut E,
) -> Result<u8, Fault>
    requires { IsPlan arguments.now.plan }
    ensures done { IfOk result (λ status. ScannedHere arguments.now status (W.contents writer.old) (W.contents writer.new)) }
    ensures bound { IfOk result (λ status. status ≤ 5) }
{
    let plan = &arguments.plan;
    let any = run_scan(
        machine,
        alloc,
        arguments.bind,
        plan,
        arguments.layout,
        arguments.progress,
        writer,
        errors,
    )?;
    Ok(if any { 0 } else { NONE_REPLIED })
}
