//! The files of fixed names that a scene has one after the other.

use crate::scene::script::Scene;
use nbt_front::{Front, FrontSource, read_fixed};
use nbt_lease::{Config, Moment};
use std::alloc::Global;
use std::io::Write;

/// What says which names are fixed: the files of a scene.
#[derive(Drop)]
pub struct SceneFiles<'a> {
    alloc: Global,
    scene: &'a Scene,
    config: Config,
    next: usize,
}

impl<'a> SceneFiles<'a> {
    pub fn new(alloc: Global, scene: &'a Scene, config: Config) -> SceneFiles<'a> {
        SceneFiles {
            alloc,
            scene,
            config,
            next: 0,
        }
    }
}

impl FrontSource for SceneFiles<'_> {
    fn look<E: Write>(&mut self, present: &Front, now: Moment, _errors: &mut E) -> Option<Front> {
        let file = self.scene.later.as_slice().get(self.next)?;
        if now.get() < file.at {
            return None;
        }
        self.next = self.next.saturating_add(1);
        let names = read_fixed(self.alloc, file.octets.as_slice()).ok()?;
        let allowed = Vec::from_slice(self.alloc, present.allowed()).ok()?;
        Some(Front::new(allowed, names, self.config))
    }

    fn again(&mut self) {
        self.next = self.next.saturating_sub(1);
    }
}
