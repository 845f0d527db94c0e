//! Plays what `nbt` prints: cases that read like a terminal, from the files of `data/` whose names end with `.txt`; and what it does, call by
//! call: scenes, from those of `data/scenes/`. Or it plays the files that the program's arguments name. A case or a scene ends at a blank
//! line. The lines of a case:
//!
//! - `# TEXT`: what the case shows, which is its name.
//! - `$ nbt WORD ..`: the command, with one space between words; `''` is an empty word. `< FILE` after it: its standard input is
//!   that file, which lies beside.
//! - `< TEXT`: a line of its standard input, where `<` alone is an empty one.
//! - `! TEXT`: a line of standard error, where `!` alone says that there is none. With no such line standard error isn't looked at.
//! - `[status N]`: how it ends.
//! - `= NAME TEXT`: `NAME` stands for the text in `${..}`, from here to the end of the file. It may stand in a case of its own.
//! - Any other line is printed, in this order and no other. `...` stands for anything.
//!
//! In each text `\XX` is the octet with these hexadecimal digits, and a `\` at the end takes the line's end away. `${ITEM_ITEM_..}` is
//! these items, one after the other: a name, a text, or `ITEM*N`, which is N times the item.
//!
//! Each case is played twice: on this machine, and without one. What was printed has to be flushed. The cases of `wrong.txt`
//! have to fail, so that a player that lets all pass is found out.
//!
//! A scene is played in memory. Its lines stand for the calls of the command, in order, and no call may be another:
//!
//! - `# TEXT` and `= NAME TEXT`: as in a case. In a command and in a datagram a word that is a name is its text.
//! - `$ nbt WORD ..`: the command, `lookup`, `status`, `nbns`, `host`, `release` or `scan`. `$ server ROWS` is a server alone, of so many rows,
//!   and `$ fixed` a file of fixed names.
//! - `start MS`: it starts at this moment, in milliseconds, in place of 0. `room N`: standard output takes so many octets.
//! - `at MS`: it is this moment from here on, to which a receive comes that waits. Nothing has come until then, unless the next line says so.
//! - `set MS`: the time of day is so many milliseconds ahead of what it was at first, 2026-11-24T09:11:03Z at the moment 0.
//! - `limit N`: a client of the server may have so many leases from here on.
//! - `rows N`: a name server without `--rows` has so many rows. `kept NAME KIND ADDR END`: it goes on with this lease. `fixed TEXT`: a line of its file of fixed names.
//! - `output N`: standard output takes so many octets from here on, and then a write would wait; it takes `all`, or its device is `full`, or a
//!   write is `interrupted`.
//! - `from ADDR WORDS`: a receive hands out this datagram. `cuts ADDR WORDS`: it comes cut to each shorter length. `fails`: a receive fails.
//! - `sends ADDR WORDS`: this is sent. `loses ADDR WORDS`: this is sent, and the call fails. In each of these `ADDR at ADDR` says at which
//!   of its own addresses the port has it come, or is to send it, where that isn't its first.
//! - `leases TEXT`, `hosts TEXT`, `stats TEXT`: a line of the text that is put in place of the list of leases, the hosts or the statistics; with
//!   `...` any lines stand there. `refuses leases`: it is put there, and refused.
//! - `> TEXT`: a line that is printed, and `! TEXT`: a line of standard error, as in a case but for `...`.
//! - `[status N]`, `[device]`, `[output]`, `[end]`: how it ends, with all flushed that it wrote.
//! - `for A B`, lines, and `next`: these lines for each number from A to B, which stands in them for `@`: `@` is eight hexadecimal digits,
//!   `@4` four, `@.` an address, and `@n` four letters of a name.
//!
//! The words of a datagram are the pieces of `nbt_testing`, hexadecimal digits, and `WORD:A-B`, which is the word and a number of four
//! octets for each number from A to B. Each line that the command has to bring about is a check: those from `sends` on. How many checks
//! the scenes of a file made is printed, and so stands in the gate. A scene without an end, and one with a line that is none, fails; the
//! scenes of `scenes/wrong.txt` have to.
#![tactic(auto)]

mod case;
mod ending;
mod scene;
mod text;

use case::Case;
use ending::Ending;
use scene::{Scene, Verdict};
use std::io::Write;
use std::process::ExitCode;
use std::{env, fs, io};
use text::Names;

/// The file whose cases have to fail.
const WRONG: &str = "wrong.txt";

/// The folder of the scenes.
const SCENES: &str = "scenes";

/// The files that the program's arguments name, or else those of this folder and of the folder of scenes, in order.
fn files(rt: &HostRuntime) -> io::Result<Vec<String>> {
    let mut names: Vec<String> = env::args(rt)?.skip(1).collect(rt.alloc())?;
    if names.is_empty() {
        add_files(rt, ".", "", &mut names)?;
        add_files(rt, SCENES, "scenes/", &mut names)?;
        names.sort()?;
    }
    Ok(names)
}

/// Adds the files of a folder, with this before their names.
fn add_files(
    rt: &HostRuntime,
    folder: &str,
    before: &str,
    names: &mut Vec<String>,
) -> io::Result<()> {
    for entry in fs::read_dir(rt, folder)? {
        let entry = entry?;
        if entry.file_name().ends_with(".txt") {
            names.push(format!(in rt.alloc(); "{before}{}", entry.file_name())?)?;
        }
    }
    Ok(())
}

/// How a case ended otherwise than it has to, if it did: on this machine, and then without one.
fn failure(rt: &HostRuntime, case: &Case) -> Option<Ending> {
    let ending = Ending::on(rt, case);
    if !ending.is_wanted(case) {
        return Some(ending);
    }
    let ending = Ending::without(rt.alloc(), case);
    if ending.is_wanted(case) {
        None
    } else {
        Some(ending)
    }
}

/// Tells what was wanted, and what there was.
fn tell(rt: &HostRuntime, case: &Case, got: &Ending) -> io::Result<()> {
    println!(rt; "wanted:")?;
    let said = case.said.as_ref().map(|said| said.as_slice());
    tell_ending(rt, case.printed.as_slice(), said, case.status)?;
    println!(rt; "got:")?;
    let said = got.said.as_ref().map(|said| said.octets.as_slice());
    tell_ending(rt, got.printed.octets.as_slice(), said, Some(got.status))
}

/// Tells what is printed, what is said on standard error, and the status.
fn tell_ending(
    rt: &HostRuntime,
    printed: &[u8],
    said: Option<&[u8]>,
    status: Option<u8>,
) -> io::Result<()> {
    let mut writer = io::writer(rt);
    writer.write_all(printed)?;
    if let Some(said) = said {
        writer.write_all(b"standard error:\n")?;
        writer.write_all(said)?;
    }
    match status {
        Some(status) => writeln!(writer, "[status {status}]"),
        None => writeln!(writer, "no status"),
    }
}

/// How many cases or scenes of a file did as they have to, how many didn't, and how many checks the scenes made.
#[derive(Clone, Copy)]
struct Count {
    right: u64,
    wrong: u64,
    checks: u64,
}

impl Count {
    const NONE: Count = Count {
        right: 0,
        wrong: 0,
        checks: 0,
    };

    fn add(&mut self, is_right: bool) {
        if is_right {
            self.right = self.right.saturating_add(1);
        } else {
            self.wrong = self.wrong.saturating_add(1);
        }
    }
}

/// Plays the cases of a file, and names each that failed.
fn play_cases(rt: &HostRuntime, file: &str, text: &str) -> io::Result<Count> {
    let has_to_fail = file.ends_with(WRONG);
    let mut names = Names::new(rt.alloc());
    let mut count = Count::NONE;
    for lines in text.split("\n\n") {
        let case = Case::read(rt, &mut names, lines)?;
        if case.is_empty() {
            continue;
        }
        let failure = failure(rt, &case);
        if let Some(got) = &failure {
            println!(rt; "{file}: failed: {}", case.name)?;
            if !has_to_fail {
                tell(rt, &case, got)?;
            }
        }
        count.add(failure.is_some() == has_to_fail);
    }
    Ok(count)
}

/// Plays the scenes of a file, and names each that failed.
fn play_scenes(rt: &HostRuntime, file: &str, text: &str) -> io::Result<Count> {
    let has_to_fail = file.ends_with(WRONG);
    let mut names = Names::new(rt.alloc());
    let mut count = Count::NONE;
    for lines in text.split("\n\n") {
        let scene = Scene::read(rt, &mut names, lines)?;
        if scene.is_empty() {
            continue;
        }
        let verdict = scene::play(rt, &scene);
        if verdict.is_wrong {
            println!(rt; "{file}: failed: {}", scene.name)?;
            if !has_to_fail {
                tell_scene(rt, &scene, &verdict)?;
            }
        }
        count.add(verdict.is_wrong == has_to_fail);
        count.checks = count.checks.saturating_add(verdict.checks);
    }
    Ok(count)
}

/// Tells at which line a scene went wrong, and what there was in its place.
fn tell_scene(rt: &HostRuntime, scene: &Scene, verdict: &Verdict) -> io::Result<()> {
    println!(rt; "wanted:")?;
    match scene.texts.get(verdict.place) {
        Some(line) => println!(rt; "{line}")?,
        None => println!(rt; "nothing more")?,
    }
    println!(rt; "got:")?;
    match &verdict.missed {
        Some(text) => println!(rt; "{text}"),
        None => println!(rt; "memory was refused"),
    }
}

/// Plays a file, and tells its counts. Returns how many did as they have to, and how many didn't.
fn play(rt: &HostRuntime, file: &str) -> io::Result<(u64, u64)> {
    let text = fs::read_to_string(rt, file)?;
    let count = if file.starts_with(SCENES) {
        let count = play_scenes(rt, file, text.as_str())?;
        println!(rt;
            "{file}: {} passed, with {} checks, {} failed",
            count.right, count.checks, count.wrong
        )?;
        count
    } else {
        let count = play_cases(rt, file, text.as_str())?;
        println!(rt; "{file}: {} passed, {} failed", count.right, count.wrong)?;
        count
    };
    Ok((count.right, count.wrong))
}

fn main(rt: HostRuntime) -> io::Result<ExitCode> {
    let (mut passed, mut failed) = (0u64, 0u64);
    for file in files(&rt)?.iter() {
        let (right, wrong) = play(&rt, file.as_str())?;
        passed = passed.saturating_add(right);
        failed = failed.saturating_add(wrong);
    }
    println!(rt; "{passed} passed, {failed} failed")?;
    Ok(ExitCode::from(u8::from(failed > 0)))
}
