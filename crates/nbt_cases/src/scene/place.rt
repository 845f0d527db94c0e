//! The files that a name server keeps in a scene.

use crate::scene::line::content_word;
use crate::scene::stage::Stage;
use nbt_nbns::{Content, Place};
use std::io;

/// A file whose texts are the scene's.
#[derive(Drop)]
pub struct ScenePlace<'s, 'a> {
    stage: &'s Stage<'a>,
    content: Content,
}

impl<'s, 'a> ScenePlace<'s, 'a> {
    pub fn new(stage: &'s Stage<'a>, content: Content) -> ScenePlace<'s, 'a> {
        ScenePlace { stage, content }
    }
}

impl Place for ScenePlace<'_, '_> {
    ghost use Rattle.std.specs.Prelude.{⊤};

    ghost puts = { λ _ _ _. ⊤ };

    ghost refuses = { λ _ _ _. ⊤ };

    fn name(&self) -> &str {
        content_word(self.content)
    }

    fn replace(&mut self, text: &str) -> io::Result<()> {
        if self.stage.keep(self.content, text) {
            Ok(())
        } else {
            Err(io::Error::other("the place is full"))
        }
    }
}
