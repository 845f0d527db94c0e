//! The outputs of a scene.

use crate::scene::stage::Stage;
use std::fmt::Debug;
use std::io;
use std::io::{ErrorKind, Write};

/// Standard output of a scene, or standard error, which takes so many octets.
#[derive(Drop)]
pub struct ScenePaper<'s, 'a> {
    stage: &'s Stage<'a>,
    is_error: bool,
    room: usize,
}

impl<'s, 'a> ScenePaper<'s, 'a> {
    /// Standard output of a scene, or standard error. Only the former may have little room.
    pub fn new(stage: &'s Stage<'a>, is_error: bool) -> ScenePaper<'s, 'a> {
        let room = if is_error { usize::MAX } else { stage.room() };
        ScenePaper {
            stage,
            is_error,
            room,
        }
    }
}

impl ScenePaper<'_, '_> {
    /// How many of so many octets it takes.
    fn take(&self, count: usize) -> Result<usize, ErrorKind> {
        if self.is_error {
            Ok(count)
        } else {
            self.stage.take_output(count)
        }
    }
}

impl Write for ScenePaper<'_, '_> {
    fn write(&mut self, buf: &[u8]) -> io::Result<usize> {
        let most = buf.len().min(self.room);
        let count = match self.take(most) {
            Ok(count) => count.min(most),
            Err(kind) => {
                self.stage.flush();
                return Err(io::Error::from(kind));
            }
        };
        self.room -= count;
        self.stage.write(self.is_error, &buf[..count]);
        if count < buf.len() {
            // A full output isn't flushed any more.
            self.stage.flush();
        }
        Ok(count)
    }

    fn flush(&mut self) -> io::Result<()> {
        self.stage.flush();
        Ok(())
    }
}

/// Prints a value as a line.
pub fn tell(stage: &Stage<'_>, value: &impl Debug) {
    let mut paper = ScenePaper::new(stage, false);
    let _ = writeln!(paper, "{value:?}");
    let _ = paper.flush();
}
