//! A server alone: its replies to datagrams, by its rules and without a port of its own.

use crate::scene::paper::{ScenePaper, tell};
use crate::scene::port::ScenePort;
use crate::scene::script::Scene;
use crate::scene::stage::Stage;
use crate::scene::watch::Steady;
use arrayvec::ArrayVec;
use nbt_lease::Config;
use nbt_port::Route;
use nbt_serve::serve_turns;
use nbt_server::Server;
use std::alloc::Global;
use std::io::Write;

/// The greatest life of a datagram, in milliseconds, and the longest lease, in seconds.
const LIFE: u64 = 1_000;

const LONGEST: u32 = 60;

/// Has a server of so many rows reply to each datagram of a scene, which it starts with. It prints why it refuses one.
pub fn play_server(stage: &Stage<'_>, alloc: Global, scene: &Scene, rows: usize) {
    let Ok(config) = Config::new(LIFE, LONGEST, rows) else {
        return stage.end("limits");
    };
    let mut server = Server::start(alloc, config, stage.now());
    for _ in 0..scene.lines.len() {
        if let Some(words) = stage.request() {
            ask(stage, &mut server, words);
        } else if stage.has_more() {
            turn(stage, &mut server);
        } else {
            break;
        }
    }
    stage.end("end")
}

/// Goes through turns, and prints what was done in them, or that the port failed; or prints the server's last moment.
fn ask(stage: &Stage<'_>, server: &mut Server, words: &str) {
    let (word, count) = words.split_once(" ").unwrap_or((words, ""));
    match (word, count.parse()) {
        ("turns", Ok(turns)) => {
            let counts = serve_turns(
                &mut ScenePort::new(stage),
                &mut Steady(stage),
                server,
                turns,
            );
            tell(stage, &counts)
        }
        ("last", _) => tell(stage, &server.last().get()),
        _ => stage.refuse(words),
    }
}

/// Receives once, and replies.
fn turn(stage: &Stage<'_>, server: &mut Server) {
    let mut octets = ArrayVec::new();
    let received = stage.receive(true, &mut octets);
    if let Some(rows) = stage.limit() {
        server.limit_clients(rows);
    }
    if let Ok(Some(from)) = received {
        answer(stage, server, from, octets.as_slice());
    }
}

fn answer(stage: &Stage<'_>, server: &mut Server, from: Route, octets: &[u8]) {
    let mut out = ArrayVec::new();
    match server.on_datagram(stage.now(), from.peer, octets, &mut out) {
        Ok(true) => {
            let _ = stage.send(from, out.as_slice());
        }
        Ok(false) => {}
        Err(fault) => {
            let mut paper = ScenePaper::new(stage, false);
            let _ = writeln!(paper, "{fault}");
            let _ = paper.flush();
        }
    }
}
