//! What a name server would do that started now, over this machine: nothing is bound, made or written.

ghost use Rattle.std.specs.Prelude.{◌≡◌, ◌++◌, ◌⊎◌, List, ℕ, Some, None, length, IfOk, IfErr, OnOk};
ghost use Rattle.std.specs.Io.KnownBytes.{Appends};
ghost use Rattle.std.specs.String.{string_bytes};
ghost use Rattle.nbt_serve.specs.Runs.{live_rows};
ghost use Rattle.nbt_nbns.specs.Begin.{manner_of};
ghost use Rattle.nbt_nbns.specs.Checking.{ChecksNot, ChecksServer, ChecksWith, IsCheck};
ghost use Rattle.nbt_nbns.specs.Opening.{IsFoundHere, IsStoreFault};
ghost use Rattle.nbt_nbns.specs.Servers.{dates_of};

use crate::arguments::{NbnsArguments, ServerArguments, StateFolder};
use crate::complaint::complain;
use crate::first_line::{Manner, manner_at_first, manner_of, write_manner};
use crate::in_the_way::tell_standing;
use crate::opening::{Told, begin_with, boot_here, read_clocks, tell_used};
use crate::resuming::standing_of;
use crate::server::Folder;
use crate::starting::journal_of;
use crate::unlocked::{is_held, leases_in};
use nbt_lease::{Config, Moment};
use nbt_log::Dates;
use nbt_port::{Clock, Fault, print, readable_clock, steady_clock};
use nbt_serve::list_live;
use nbt_store::Begun;
use nbt_text::end_line;
use std::alloc::{AllocError, Global};
use std::fs::File;
use std::io::Write;
use std::net::Net;
use std::rt::Files;
use std::time;

/// Prints how a server would begin that started now, by all that [`run_server`](crate::run_server) reads before it serves, and returns whose
/// its folder is: where another server has the lock a line in `errors` says so, and what is read is as that one left it at this moment. No port is bound, and nothing of the folder and the files is changed. Refused as [`run_server`](crate::run_server) is, by the
/// first of these: the folder can't be used, a clock can't be read, the file can't be read, a kept lease may outlast the silence, one of
/// the files is none that may be replaced; or the line can't be written.
pub fn check_server<M: Net + time::Clock + Files<File = File>, W: Write, E: Write>(
    machine: &M,
    alloc: Global,
    arguments: &ServerArguments,
    writer: &mut W,
    errors: &mut E,
) -> Result<Folder, Fault>
    ensures ok { IfOk result (λ folder. ChecksServer arguments.now folder (W.contents writer.old) (W.contents writer.new)) }
    ensures err { IfErr result (ChecksNot (W.contents writer.old) (W.contents writer.new)) }
{
    match &arguments.state {
        Some(state) => check_kept(machine, alloc, &arguments.nbns, state, writer, errors),
        None => match check_new(machine, alloc, &arguments.nbns, writer, errors) {
            Ok(()) => Ok(Folder::Own),
            Err(why) => Err(why),
        },
    }
}

/// The same of a server without a state.
fn check_new<M: Net + time::Clock + Files<File = File>, W: Write, E: Write>(
    machine: &M,
    alloc: Global,
    arguments: &NbnsArguments,
    writer: &mut W,
    errors: &mut E,
) -> Result<(), Fault>
    ensures ok { OnOk result (ChecksWith arguments.now None Folder.Own (W.contents writer.old) (W.contents writer.new)) }
    ensures err { IfErr result (ChecksNot (W.contents writer.old) (W.contents writer.new)) }
{
    let mut clock = steady_clock(machine, arguments.bind.first(), errors)?;
    let mut day = readable_clock(machine, arguments.bind.first(), errors)?;
    let start = clock.now();
    let dates = Dates {
        moment: start,
        time: day.now(),
    };
    journal_of(machine, alloc, arguments, dates, (), start, errors)?;
    let manner = manner_at_first(arguments.config.longest(), &dates);
    print_check(alloc, manner, writer, errors)
}

/// The same of a server with a state.
fn check_kept<M: Net + time::Clock + Files<File = File>, W: Write, E: Write>(
    machine: &M,
    alloc: Global,
    arguments: &NbnsArguments,
    state: &StateFolder,
    writer: &mut W,
    errors: &mut E,
) -> Result<Folder, Fault>
    ensures ok { IfOk result (λ folder. ChecksWith arguments.now (Some state.now) folder (W.contents writer.old) (W.contents writer.new)) }
    ensures err { IfErr result (ChecksNot (W.contents writer.old) (W.contents writer.new)) }
{
    let held = is_held(machine, alloc, state.path.as_str(), errors)?;
    let clocks = read_clocks(machine, arguments.bind.first(), errors)?;
    let told = clocks.told;
    let time = told.time;
    let begun = begin_unlocked(machine, alloc, state, arguments.config, told, errors)?;
    let manner = manner_kept(machine, alloc, arguments, &begun, time, errors)?;
    print_check(alloc, manner, writer, errors)?;
    Ok(told_folder(held, state.path.as_str(), errors))
}

/// Whose a folder is. Where it is another server's a line in `errors` says so.
fn told_folder<E: Write>(held: bool, folder: &str, errors: &mut E) -> Folder {
    if held {
        let _ = tell_used(folder, errors);
        Folder::Held
    } else {
        Folder::Own
    }
}

/// A server begins with what is found in a folder, as one does that has locked it.
fn begin_unlocked<M: Files<File = File>, E: Write>(
    machine: &M,
    alloc: Global,
    state: &StateFolder,
    config: Config,
    told: Told,
    errors: &mut E,
) -> Result<Begun, Fault>
    ensures ok { IfOk result (IsFoundHere config told state.now.silent_after_boot) }
    ensures err { IfErr result IsStoreFault }
{
    let folder = state.path.as_str();
    let boot = boot_here(machine, alloc, folder, errors)?;
    let kept = leases_in(machine, alloc, folder, config.rows());
    begin_with(alloc, &boot, kept, state, config, told, errors)
}

/// How one begins that begins so, at this time of the day. A line in `errors` says of each lease that stands in the way of a fixed name until
/// when it does. Refused with `Memory`, and with `Output` where one of its files is none that may be replaced.
fn manner_kept<M: Files, E: Write>(
    machine: &M,
    alloc: Global,
    arguments: &NbnsArguments,
    begun: &Begun,
    time: Moment,
    errors: &mut E,
) -> Result<Manner, Fault>
    ensures ok { IfOk result (λ manner. manner ≡ manner_of arguments.now.config.longest begun.now.start begun.now.server.last (dates_of begun.now time) (length (live_rows begun.now.server)) begun.now.reason) }
    ensures err { IfErr result (λ fault. (fault ≡ Fault.Output) ⊎ (fault ≡ Fault.Memory)) }
{
    let mut rows = Vec::new(alloc);
    list_live(&begun.server, &mut rows)?;
    let count = rows.len();
    let standing = standing_of(alloc, &arguments.front, rows);
    tell_standing(alloc, standing.as_slice(), begun.reads, time, errors);
    let dates = Dates {
        moment: begun.reads,
        time,
    };
    journal_of(machine, alloc, arguments, dates, (), begun.start, errors)?;
    let longest = arguments.config.longest();
    let speaks = begun.server.last();
    Ok(manner_of(longest, begun.start, speaks, &dates, count, begun.reason))
}

/// Prints how a server would begin, and flushes. Refused: `Memory`, and then nothing is printed; `Output` where the line can't be written, and a
/// line in `errors` says why.
fn print_check<W: Write, E: Write>(
    alloc: Global,
    manner: Manner,
    writer: &mut W,
    errors: &mut E,
) -> Result<(), Fault>
    ensures ok { OnOk result ((line : List ℕ) × IsCheck manner line × Appends (W.contents writer.old) (W.contents writer.new) line) }
    ensures err { IfErr result (λ fault. (fault ≡ Fault.Output) ⊎ ((fault ≡ Fault.Memory) × (W.contents writer.new ≡ W.contents writer.old))) }
{
    let mut line = String::new(alloc);
    write_check(manner, &mut line)?;
    match print(line.as_str(), writer) {
        Ok(()) => Ok(()),
        Err(error) => {
            complain("the line", error, errors);
            Err(Fault::Output)
        }
    }
}

/// Appends how a server would begin, as `would serve, with 17 leases kept`, or `would serve, silent for 300 s until 2026-11-24T09:17:03Z, since
/// nothing was kept`.
pub fn write_check(manner: Manner, out: &mut String) -> Result<(), AllocError>
    ensures { OnOk result ((line : List ℕ) × IsCheck manner line × (string_bytes out.new ≡ string_bytes out.old ++ line)) }
{
    out.push_str("would serve")?;
    write_manner(manner, out)?;
    end_line(out)
}
