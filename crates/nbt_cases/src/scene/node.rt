//! An end node alone, with room for one name: what it has to send, and what it tells of datagrams.

use crate::scene::paper::tell;
use crate::scene::port::ScenePort;
use crate::scene::script::Scene;
use crate::scene::stage::Stage;
use crate::scene::watch::Steady;
use arrayvec::ArrayVec;
use nbt_client::{Want, node_turn};
use nbt_lease::{Config, Moment};
use nbt_name::{Addr, Kind, Name};
use nbt_node::{Event, Node};
use nbt_port::Route;
use nbt_text::parse_name;

/// The node's address, and its server's.
const OWN: Addr = Addr {
    ip: 0x7F00_0002,
    port: 137,
};

const SERVER: Addr = Addr {
    ip: 0x7F00_0001,
    port: 137,
};

/// The greatest life of a datagram, in milliseconds, the longest lease, in seconds, and its rows.
const LIFE: u64 = 1_000;

const LONGEST: u32 = 60;

const ROWS: usize = 4_096;

/// Has a node do what a scene asks of it, and hear what comes, with one buffer for all that it sends.
pub fn play_node(stage: &Stage<'_>, scene: &Scene) {
    let Ok(config) = Config::new(LIFE, LONGEST, ROWS) else {
        return stage.end("limits");
    };
    let mut node = Node::start(OWN, SERVER, config, stage.now());
    let mut out = ArrayVec::new();
    for _ in 0..scene.lines.len() {
        if let Some(words) = stage.request() {
            ask(stage, &mut node, words, &mut out);
        } else if stage.has_more() {
            hear(stage, &mut node, &mut out);
        } else {
            break;
        }
    }
    stage.end("end")
}

/// Receives once.
fn hear(stage: &Stage<'_>, node: &mut Node<1>, out: &mut ArrayVec<u8, 576>) {
    let mut octets = ArrayVec::new();
    let Ok(Some(from)) = stage.receive(true, &mut octets) else {
        return;
    };
    match node.on_datagram(stage.now(), from.peer, octets.as_slice(), out) {
        Ok(Event::Reply) => send(stage, from, out),
        Ok(Event::Nothing) => expect_none(stage, out),
        Ok(event) => {
            tell(stage, &event);
            expect_none(stage, out);
        }
        Err(fault) => tell(stage, &fault),
    }
}

/// Does what is asked of the node: a word, and a name and a kind where there have to be.
fn ask(stage: &Stage<'_>, node: &mut Node<1>, words: &str, out: &mut ArrayVec<u8, 576>) {
    let now = stage.now();
    let (word, rest) = words.split_once(" ").unwrap_or((words, ""));
    let (text, kind) = rest.split_once(" ").unwrap_or((rest, ""));
    match (word, parse_name(text.as_bytes())) {
        ("poll", None) => poll(stage, node, now, out),
        ("due", None) => tell(stage, &node.next_due()),
        ("open", None) => tell(stage, &node.lookup_open(now)),
        ("holds", Some(name)) => tell(stage, &node.holds(now, &name.lend())),
        ("stands", Some(name)) => tell(stage, &node.standing(now, &name.lend())),
        ("refresh", Some(name)) => node.refresh_soon(&name.lend()),
        ("turn", Some(name)) => turn(stage, node, name),
        (word, Some(name)) => request(stage, node, word, &name, kind, out),
        _ => stage.refuse(words),
    }
}

/// A request, which is sent, or why it isn't.
fn request(
    stage: &Stage<'_>,
    node: &mut Node<1>,
    word: &str,
    name: &Name,
    kind: &str,
    out: &mut ArrayVec<u8, 576>,
) {
    let now = stage.now();
    let kind = if kind == "group" {
        Kind::Group
    } else {
        Kind::Unique
    };
    let refused = match word {
        "ask" => node
            .ask(now, &name.lend(), kind, LONGEST, out)
            .err()
            .map(|fault| fault.word()),
        "release" => node
            .release(now, &name.lend(), out)
            .err()
            .map(|fault| fault.word()),
        "resolve" => node
            .resolve(now, &name.lend(), out)
            .err()
            .map(|fault| fault.word()),
        "names" => node
            .name_status(now, OWN, &name.lend(), out)
            .err()
            .map(|fault| fault.word()),
        _ => return stage.refuse(word),
    };
    match refused {
        None => {
            let to = if word == "names" { OWN } else { SERVER };
            send(stage, Route::to(to), out)
        }
        Some(fault) => {
            stage.print(fault);
            expect_none(stage, out);
        }
    }
}

/// A turn of a node that wants a unique name, over the port of the scene: what is seen of it, or that the port failed.
fn turn(stage: &Stage<'_>, node: &mut Node<1>, name: Name) {
    let want = Want {
        name,
        kind: Kind::Unique,
        ttl: LONGEST,
    };
    let mut port = ScenePort::new(stage);
    match node_turn(&mut port, &mut Steady(stage), node, SERVER, &want) {
        Ok(seen) => tell(stage, &seen),
        Err(device) => tell(stage, &device),
    }
}

fn poll(stage: &Stage<'_>, node: &mut Node<1>, now: Moment, out: &mut ArrayVec<u8, 576>) {
    match node.poll(now, out) {
        Ok(Some(to)) => send(stage, Route::to(to), out),
        Ok(None) => expect_none(stage, out),
        Err(fault) => tell(stage, &fault),
    }
}

fn send(stage: &Stage<'_>, to: Route, out: &ArrayVec<u8, 576>) {
    let _ = stage.send(to, out.as_slice());
}

/// The buffer holds nothing, where there is nothing to be sent.
fn expect_none(stage: &Stage<'_>, out: &ArrayVec<u8, 576>) {
    if !out.is_empty() {
        stage.refuse("nothing is to be sent");
    }
}
