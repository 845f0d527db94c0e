//! A world alone: what comes of each event, and who holds a name.

use crate::scene::paper::tell;
use crate::scene::script::Scene;
use crate::scene::stage::Stage;
use nbt_lease::Config;
use nbt_name::{Addr, Kind, Name};
use nbt_testing::octets;
use nbt_text::{parse_name, read_address};
use nbt_world::{Event, Outcome, World};
use std::alloc::AllocError;

/// The greatest life of a datagram, in milliseconds, the longest lease, in seconds, and the server's rows.
const LIFE: u64 = 1_000;

const LONGEST: u32 = 60;

const ROWS: usize = 4_096;

/// The names that no two ends may hold at any time.
const NAMES: [&[u8]; 2] = [b"FRED", b"TEAM"];

/// Has a world whose ends have these addresses do what a scene says.
pub fn play_world<R: AllocGlobal>(
    rt: &R,
    stage: &Stage<'_>,
    scene: &Scene,
    addresses: &[String],
) -> Result<(), AllocError> {
    let mut ends = Vec::new(rt.alloc());
    for text in addresses {
        if let Some(end) = read_address(rt.alloc(), text.as_str())? {
            ends.push(end)?;
        }
    }
    let Ok(config) = Config::new(LIFE, LONGEST, ROWS) else {
        return Ok(stage.end("limits"));
    };
    let Ok(mut world) = World::new(rt.alloc(), config, ends.as_slice()) else {
        return Ok(stage.end("addresses"));
    };
    for _ in 0..scene.lines.len() {
        let Some(words) = stage.request() else {
            break;
        };
        happen(rt, stage, &mut world, words)?;
        expect_apart(stage, &world);
    }
    Ok(stage.end("end"))
}

/// An event happens, or the world is asked something.
fn happen<R: AllocGlobal>(
    rt: &R,
    stage: &Stage<'_>,
    world: &mut World,
    words: &str,
) -> Result<(), AllocError> {
    let (word, rest) = words.split_once(" ").unwrap_or((words, ""));
    match word {
        "holders" => tell_holders(stage, world, rest),
        "clock" => tell(stage, &world.clock().get()),
        "kept" => tell(stage, &world.kept()),
        "timely" => tell(stage, &world.timely()),
        "limit" => match rest.parse() {
            Ok(rows) => tell(stage, &world.limit_clients(rows)),
            Err(_) => stage.refuse(words),
        },
        "cuts" => cut(rt, stage, world, rest)?,
        _ => match event_of(rt, word, rest)? {
            Some(event) => step(stage, world, &event),
            None => stage.refuse(words),
        },
    }
    Ok(())
}

fn step(stage: &Stage<'_>, world: &mut World, event: &Event) {
    match world.step(event) {
        Ok(outcome) => tell(stage, &outcome),
        Err(fault) => tell(stage, &fault),
    }
}

/// The numbers of the nodes that hold a name, and as what.
fn tell_holders(stage: &Stage<'_>, world: &World, text: &str) {
    match parse_name(text.as_bytes()) {
        Some(name) => {
            for holder in world.holders(&name).as_slice() {
                tell(stage, &(holder.node, holder.kind));
            }
        }
        None => stage.refuse(text),
    }
}

/// No two ends hold one name, unless both as a group.
fn expect_apart(stage: &Stage<'_>, world: &World) {
    for text in NAMES {
        if let Some(name) = parse_name(text) {
            for i in 0..3 {
                for j in 0..3 {
                    if !world.no_two_holders(i, j, &name) {
                        stage.refuse("two ends hold one name");
                    }
                }
            }
        }
    }
}

/// A stranger's datagram comes to an end, cut to each shorter length. What comes of it is told once: that it is taken, unless one wasn't.
fn cut<R: AllocGlobal>(
    rt: &R,
    stage: &Stage<'_>,
    world: &mut World,
    text: &str,
) -> Result<(), AllocError> {
    let Some(Event::Stranger { from, to, octets }) = event_of(rt, "stranger", text)? else {
        return Ok(stage.refuse(text));
    };
    let mut outcome = Outcome::Taken;
    for length in 0..octets.len() {
        let octets = Vec::from_slice(rt.alloc(), &octets[..length])?;
        match world.step(&Event::Stranger { from, to, octets }) {
            Ok(Outcome::Taken) => {}
            Ok(other) => outcome = other,
            Err(_) => return Err(AllocError),
        }
    }
    tell(stage, &outcome);
    Ok(())
}

/// The event of a word, and of the numbers, the name and the octets behind it.
fn event_of<R: AllocGlobal>(rt: &R, word: &str, rest: &str) -> Result<Option<Event>, AllocError> {
    let (first, second) = rest.split_once(" ").unwrap_or((rest, ""));
    match word {
        "tick" => Ok(first.parse().ok().map(Event::Tick)),
        "advance" => Ok(advance(first, second)),
        "start" => Ok(first.parse().ok().map(Event::Start)),
        "crash" => Ok(first.parse().ok().map(Event::Crash)),
        "resume" => Ok(Some(Event::Resume)),
        "poll" => Ok(first.parse().ok().map(Event::Poll)),
        "deliver" => Ok(first.parse().ok().map(Event::Deliver)),
        "stranger" => stranger(rt, first, second),
        "status" => status(rt, first, second),
        _ => Ok(of_node(word, first, second)),
    }
}

/// The clocks go on, each by its own milliseconds.
fn advance(ms: &str, texts: &str) -> Option<Event> {
    let mut readings = [0; 9];
    for (reading, text) in readings.iter_mut().zip(texts.split(" ")) {
        *reading = text.parse().ok()?;
    }
    Some(Event::Advance {
        ms: ms.parse().ok()?,
        readings,
    })
}

/// A node's request about a name, for 60 s.
fn of_node(word: &str, node: &str, name: &str) -> Option<Event> {
    let node = node.parse().ok()?;
    let name = parse_name(name.as_bytes())?;
    match word {
        "ask" => Some(asking(node, name, Kind::Unique)),
        "join" => Some(asking(node, name, Kind::Group)),
        "release" => Some(Event::Release { node, name }),
        "resolve" => Some(Event::Resolve { node, name }),
        _ => None,
    }
}

fn asking(node: usize, name: Name, kind: Kind) -> Event {
    Event::Ask {
        node,
        name,
        kind,
        ttl: LONGEST,
    }
}

/// A node asks an address for the names of a name's holder.
fn status<R: AllocGlobal>(rt: &R, node: &str, rest: &str) -> Result<Option<Event>, AllocError> {
    let (addr, name) = rest.split_once(" ").unwrap_or((rest, ""));
    let to = read_address(rt.alloc(), addr)?;
    Ok(asking_names(node, to, name))
}

fn asking_names(node: &str, to: Option<Addr>, name: &str) -> Option<Event> {
    Some(Event::NameStatus {
        node: node.parse().ok()?,
        to: to?,
        name: parse_name(name.as_bytes())?,
    })
}

/// A stranger's datagram comes to an end.
fn stranger<R: AllocGlobal>(rt: &R, addr: &str, rest: &str) -> Result<Option<Event>, AllocError> {
    let (to, text) = rest.split_once(" ").unwrap_or((rest, "-"));
    let from = read_address(rt.alloc(), addr)?;
    Ok(coming(from, to, octets(rt, text).ok()))
}

fn coming(from: Option<Addr>, to: &str, octets: Option<Vec<u8>>) -> Option<Event> {
    Some(Event::Stranger {
        from: from?,
        to: to.parse().ok()?,
        octets: octets?,
    })
}
