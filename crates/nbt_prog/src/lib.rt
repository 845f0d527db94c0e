//! Runs the command line of `nbt`: chooses the command, runs it, prints its output, and returns its status.
//!
//! A program passes its arguments, standard input and standard output to [`command`], and exits with the status that it
//! returns. [`run`] and [`run_on`] run a command line that `nbt_args` has read, without and on a machine.
#![tactic(auto)]

ghost use Rattle.std.specs.Prelude.{◌≡◌, ◌≢◌, ◌≤◌, ◌⊎◌, codes};
ghost use Rattle.std.specs.IoError.{error_kind};
ghost use Rattle.std.specs.declared.io.ErrorKind.TheVariants.{InvalidData};
ghost use Rattle.std.specs.Io.KnownBytes.{Appends};
ghost use Rattle.nbt_text.specs.Lines.{one_line};

mod concluding;
mod failure;
mod machine;
mod network;
mod numbers;
mod offline;
mod running;

use concluding::conclude;
use failure::Failure;
pub use machine::run_on;
use nbt_port::Fault;
pub use running::run;
use std::alloc::Global;
use std::convert::AsStr;
use std::fs::File;
use std::io::{Read, Write};
use std::net::Net;
use std::random::RandomSource;
use std::rt::Files;
use std::{io, time};

/// The line on standard error if the command is out of memory.
const OUT_OF_MEMORY: &str = "nbt: memory was refused\n";

/// Runs the command that `arguments` name, the first of which is the program's own name, and returns the exit status. All output goes to
/// `writer`, at once: the command's output, the help that was requested, or a text that says what is wrong. No socket is opened.
///
/// - 0: done.
/// - 1: an address, a hexadecimal text or the input can't be read; prints `unreadable`. Or `show` found a fault, which it
///   prints, or `check` a vector that failed, or `sim` a line that can't be read. Or a file is none that `import` or `leases` reads, or
///   `import` took no name of it.
/// - 2: wrong usage; prints what is wrong and the usage. Or an argument of a command for people who run a network (`lookup`, `status`,
///   `nbns`, `host`, `release`, `scan`) is invalid; prints nothing: see [`command_telling`].
/// - 3: `reader` or `writer` failed; prints `device`, unless it was the writer. `import` and `leases` end so where they are to read
///   another file than standard input, and know no time. The commands for people who run a network, `serve`,
///   `node` and `loop` end so too, since they need a machine: see [`command_telling`].
/// - 4: out of memory; prints `memory`.
pub fn command<S: AsStr, R: Read, W: Write>(
    alloc: Global,
    arguments: &[S],
    reader: &mut R,
    writer: &mut W,
) -> u8
    ensures bound { result ≤ 4 }
    ensures memory { result ≡ 4
        → Appends (W.contents writer.old) (W.contents writer.new) (one_line (codes "memory")) }
{
    match nbt_args::read(alloc, arguments) {
        Ok(line) => run(alloc, &line, reader, writer, &mut io::sink()),
        Err(refusal) => conclude(Err(Failure::from(refusal)), writer),
    }
}

/// Runs the command that `arguments` name, as [`command`] does, and on this machine also those that open sockets: `lookup`, `status`,
/// `nbns`, `host`, `release`, `scan`, `serve`, `node` and `loop`. The first two write to `writer` at their end, with the status 0, 1 if
/// the name isn't found, or 5 if no reply came; the others write while they run, `host` with the status 5 if a name wasn't held at its
/// end, and `nbns` with the status 6 if another server has its folder. If an argument of the first six is invalid, a line in `errors` says what is wrong, and the status is 2. A line in `errors` also
/// explains `unreadable` and `memory`. `import` and `leases` read files of the machine, and its time of day; a line in `errors` says why
/// one can't be read, with the status 3, or what was made of it. `scan --json` prints `device` and `memory` in an object of JSON. The status is 3 too if a port
/// can't be bound, if a clock can't be read at the start, or if a socket failed. Then a line in `errors` says which call of the system
/// failed, for which address, and why. With `--forever` a line in `errors` reports a socket that failed, and only the hundredth failed
/// turn in a row ends the command. Failures to write to `errors` are ignored.
pub fn command_telling<
    M: Net + time::Clock + RandomSource + Files<File = File>,
    S: AsStr,
    R: Read,
    W: Write,
    E: Write,
>(machine: &M, alloc: Global, arguments: &[S], reader: &mut R, writer: &mut W, errors: &mut E) -> u8
    ensures bound { result ≤ 6 }
{
    let status = match nbt_args::read(alloc, arguments) {
        Ok(line) => run_on(machine, alloc, &line, reader, writer, errors),
        Err(refusal) => conclude(Err(Failure::from(refusal)), writer),
    };
    if status == Fault::Memory.status() {
        offline::report(OUT_OF_MEMORY, errors);
    }
    status
}

/// Ends a program whose arguments could not be read, as [`command`] would: an argument that is not UTF-8 is wrong usage, with status 2;
/// any other error prints `device`, with status 3, or `memory`, with status 4.
pub fn command_without_words<W: Write>(alloc: Global, error: io::Error, writer: &mut W) -> u8
    ensures bound { result ≤ 4 }
    ensures usage { error_kind error ≡ InvalidData → (result ≡ 2) ⊎ (3 ≤ result) }
    ensures failed { error_kind error ≢ InvalidData → 3 ≤ result }
    ensures memory { result ≡ 4
        → Appends (W.contents writer.old) (W.contents writer.new) (one_line (codes "memory")) }
{
    let failure = match error.kind() {
        io::ErrorKind::InvalidData => nbt_args::no_text(alloc).into(),
        _ => Failure::from(error),
    };
    conclude(Err(failure), writer)
}
