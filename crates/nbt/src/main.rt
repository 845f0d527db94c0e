//! Runs one command of `nbt`, with the program's arguments and over its standard input, output and error.
#![tactic(auto)]

use nbt_admin::{FirstLineWriter, JournalWriter, Lines, LossyWriter};
use std::env::Env;
use std::io::{IsTerminal, Write};
use std::os::fd::AsFd;
use std::os::unix::fs::MetadataExt;
use std::os::unix::net::UnixStream;
use std::process::ExitCode;
use std::{env, fs, io};

fn arguments(rt: &(impl Env + AllocGlobal)) -> io::Result<Vec<String>> {
    Ok(env::args(rt)?.collect(rt.alloc())?)
}

/// The word of the command.
fn word_of(arguments: &[String]) -> &str {
    match arguments.get(1) {
        Some(word) => word.as_str(),
        None => "",
    }
}

/// The option of `scan` that says how far it is.
const PROGRESS: &str = "--progress";

/// Whether the arguments name `scan`, without that option.
fn is_silent_scan(arguments: &[String]) -> bool {
    word_of(arguments) == "scan"
        && !arguments
            .iter()
            .any(|argument| argument.as_str() == PROGRESS)
}

/// Has a scan say how far it is. Where memory is out it doesn't.
fn say_progress(rt: &impl AllocGlobal, arguments: &mut Vec<String>) {
    if is_silent_scan(arguments.as_slice()) && arguments.len() >= 2 {
        if let Ok(option) = String::from_str(rt.alloc(), PROGRESS) {
            let _ = arguments.insert(2, option);
        }
    }
}

/// Has a write to what this stream is open on wait for its reader, or be refused if it would. A terminal stays as it is: a shell has it
/// open too.
fn set_waiting<S: AsFd + IsTerminal>(stream: &S, waits: bool) -> io::Result<()> {
    if stream.is_terminal() {
        return Ok(());
    }
    let same = stream.as_fd().try_clone_to_owned()?;
    UnixStream::from(same).set_nonblocking(!waits)
}

/// What says which file a stream of a service is open on, where that is the journal: its device and its inode (systemd.exec(5)).
const JOURNAL: &str = "JOURNAL_STREAM";

/// Whether the file at this path is the journal.
fn is_journal(rt: &HostRuntime, path: &str) -> bool {
    let Ok(journal) = env::var(rt, JOURNAL) else {
        return false;
    };
    match mark_of(rt, path) {
        Ok(mark) => mark.as_str() == journal.as_str(),
        Err(_) => false,
    }
}

/// The device and the inode of the file at this path, as the journal's are written.
fn mark_of(rt: &HostRuntime, path: &str) -> io::Result<String> {
    let metadata = fs::metadata(rt, path)?;
    let device = metadata.dev();
    let inode = metadata.ino();
    Ok(format!(in rt.alloc(); "{device}:{inode}")?)
}

/// Runs the command, and prints its output here.
fn run<W: Write, E: Write>(
    rt: &HostRuntime,
    arguments: &[String],
    writer: &mut W,
    errors: &mut E,
) -> u8 {
    let mut reader = rt.reader();
    nbt_prog::command_telling(rt, rt.alloc(), arguments, &mut reader, writer, errors)
}

/// The same of a command that goes on while the reader of what it prints is slow, and says to a journal how urgent each line is.
fn run_service<W: Write + Drop>(rt: &HostRuntime, arguments: &[String], writer: W) -> u8 {
    let alloc = rt.alloc();
    if is_journal(rt, "/proc/self/fd/1") {
        let mut writer = JournalWriter::new(alloc, Lines::Output, writer);
        run_on(rt, arguments, &mut writer)
    } else {
        let mut writer = writer;
        run_on(rt, arguments, &mut writer)
    }
}

/// The same with this output. What waits for its reader at its end is handed on, as far as there is room. Both streams wait again then, since
/// another program may write there next.
fn run_on<W: Write>(rt: &HostRuntime, arguments: &[String], writer: &mut W) -> u8 {
    let _ = set_waiting(&rt.stdout(), false);
    let _ = set_waiting(&rt.stderr(), false);
    let status = if is_journal(rt, "/proc/self/fd/2") {
        let mut errors = JournalWriter::new(rt.alloc(), Lines::Errors, rt.stderr());
        run(rt, arguments, writer, &mut errors)
    } else {
        let mut errors = rt.stderr();
        run(rt, arguments, writer, &mut errors)
    };
    let _ = writer.flush();
    let _ = set_waiting(&rt.stdout(), true);
    let _ = set_waiting(&rt.stderr(), true);
    status
}

fn main(rt: HostRuntime) -> ExitCode {
    let mut writer = io::writer(&rt);
    let mut arguments = match arguments(&rt) {
        Ok(arguments) => arguments,
        Err(error) => {
            let status = nbt_prog::command_without_words(rt.alloc(), error, &mut writer);
            return ExitCode::from(status);
        }
    };
    if rt.stderr().is_terminal() {
        say_progress(&rt, &mut arguments);
    }
    let arguments = arguments.as_slice();
    let status = match word_of(arguments) {
        // Its log drops lines itself.
        "nbns" => run_service(&rt, arguments, FirstLineWriter::new(rt.alloc(), writer)),
        "host" => run_service(&rt, arguments, LossyWriter::new(rt.alloc(), writer)),
        _ => {
            let mut errors = rt.stderr();
            run(&rt, arguments, &mut writer, &mut errors)
        }
    };
    ExitCode::from(status)
}
