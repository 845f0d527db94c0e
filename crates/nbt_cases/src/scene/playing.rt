//! Plays scenes, by what each begins with.

use crate::scene::command::play_command;
use crate::scene::fixed::play_fixed;
use crate::scene::node::play_node;
use crate::scene::script::Scene;
use crate::scene::server::play_server;
use crate::scene::stage::{Stage, Verdict};
use crate::scene::table::play_table;
use crate::scene::words::play_words;
use crate::scene::world::play_world;
use std::alloc::AllocError;

/// Plays a scene. Where memory is refused, it fails.
pub fn play<R: AllocGlobal>(rt: &R, scene: &Scene) -> Verdict {
    let stage = Stage::new(rt.alloc(), scene);
    if play_on(rt, &stage, scene).is_err() {
        stage.refuse("memory was refused");
    }
    stage.into_verdict()
}

fn play_on<R: AllocGlobal>(rt: &R, stage: &Stage<'_>, scene: &Scene) -> Result<(), AllocError> {
    let alloc = rt.alloc();
    match scene.words.as_slice() {
        [word] if word.as_str() == "node" => Ok(play_node(stage, scene)),
        [word] if word.as_str() == "fixed" => play_fixed(stage, alloc, scene),
        [word] if word.as_str() == "words" => play_words(rt, stage, scene),
        [word, rows] if word.as_str() == "server" => {
            Ok(play_server(stage, alloc, scene, rows.parse().unwrap_or(0)))
        }
        [word, rows] if word.as_str() == "table" => {
            play_table(stage, alloc, scene, rows.parse().unwrap_or(0))
        }
        [word, ends @ ..] if word.as_str() == "world" => play_world(rt, stage, scene, ends),
        _ => play_command(stage, alloc, scene),
    }
}
