//! A table of leases alone: one line a call.

ghost use Rattle.std.specs.Prelude.{◌≤◌};

use crate::scene::paper::tell;
use crate::scene::script::Scene;
use crate::scene::stage::Stage;
use nbt_lease::{Config, Moment, Table};
use nbt_name::{Kind, Name};
use nbt_text::{parse_name, read_address};
use std::alloc::{AllocError, Global};

/// The greatest life of a datagram, in milliseconds, and the longest lease, in seconds.
const LIFE: u64 = 1_000;

const LONGEST: u32 = 60;

/// Has a table of so many rows do what a scene asks.
pub fn play_table(
    stage: &Stage<'_>,
    alloc: Global,
    scene: &Scene,
    rows: usize,
) -> Result<(), AllocError> {
    let Ok(config) = Config::new(LIFE, LONGEST, rows) else {
        return Ok(stage.end("limits"));
    };
    let mut table = Table::new(alloc, config);
    for _ in 0..scene.lines.len() {
        if let Some(words) = stage.request() {
            ask(stage, alloc, &mut table, words)?;
        } else if !stage.wait() {
            break;
        }
    }
    Ok(stage.end("end"))
}

/// A call: a word, a name, and what goes with it. It is none at a moment before the table's last one.
fn ask(stage: &Stage<'_>, alloc: Global, table: &mut Table, words: &str) -> Result<(), AllocError> {
    let now = stage.now();
    let (word, rest) = words.split_once(" ").unwrap_or((words, ""));
    let (text, rest) = rest.split_once(" ").unwrap_or((rest, ""));
    if word == "has" {
        return tell_count(stage, alloc, table, now, text, rest);
    }
    if table.last() <= now {
        let name = parse_name(text.as_bytes());
        call(stage, alloc, table, now, word, name, rest)?;
    } else {
        stage.refuse(words);
    }
    Ok(())
}

/// A call about a name, and what goes with it.
fn call(
    stage: &Stage<'_>,
    alloc: Global,
    table: &mut Table,
    now: Moment,
    word: &str,
    name: Option<Name>,
    rest: &str,
) -> Result<(), AllocError>
    requires { table.old.last ≤ now }
{
    let (addr, asked) = rest.split_once(" ").unwrap_or((rest, ""));
    let addr = read_address(alloc, addr)?.map_or(0, |addr| addr.ip);
    match (word, name) {
        ("sweep", None) => table.sweep(now),
        ("grant", Some(name)) => grant(stage, table, now, &name, addr, asked),
        ("release", Some(name)) => tell(stage, &table.release(now, &name, addr)),
        ("least", Some(name)) => tell(stage, &table.least_end(now, &name)),
        ("after", Some(name)) => tell_least_after(stage, table, now, &name, rest),
        ("members", Some(name)) => tell_members(stage, table, now, &name),
        _ => stage.refuse(word),
    }
    Ok(())
}

/// A grant's seconds and its end, or why there is none.
fn grant(stage: &Stage<'_>, table: &mut Table, now: Moment, name: &Name, addr: u32, asked: &str)
    requires { table.old.last ≤ now }
{
    let (kind, ttl) = asked.split_once(" ").unwrap_or((asked, ""));
    let kind = if kind == "group" {
        Kind::Group
    } else {
        Kind::Unique
    };
    match table.grant(now, name, addr, kind, ttl.parse().unwrap_or(0)) {
        Ok(grant) => tell(stage, &(grant.seconds, grant.end)),
        Err(fault) => tell(stage, &fault),
    }
}

/// Whether an address has at least so many live leases.
fn tell_count(
    stage: &Stage<'_>,
    alloc: Global,
    table: &Table,
    now: Moment,
    addr: &str,
    count: &str,
) -> Result<(), AllocError> {
    match (read_address(alloc, addr)?, count.parse()) {
        (Some(addr), Ok(count)) => tell(stage, &table.has_at_least(now, addr.ip, count)),
        _ => stage.refuse(addr),
    }
    Ok(())
}

/// The least end of a name's leases but the first ones, of which there are so many.
fn tell_least_after(stage: &Stage<'_>, table: &Table, now: Moment, name: &Name, count: &str)
    requires { table.now.last ≤ now }
{
    let mut members = table.members(now, name);
    for _ in 0..count.parse::<u32>().unwrap_or(0) {
        members.next();
    }
    tell(stage, &members.least_end())
}

/// The addresses and ends of a name's leases.
fn tell_members(stage: &Stage<'_>, table: &Table, now: Moment, name: &Name)
    requires { table.now.last ≤ now }
{
    for lease in table.members(now, name) {
        let [first, second, third, fourth] = lease.addr.to_be_bytes();
        tell(stage, &(first, second, third, fourth, lease.end))
    }
}
