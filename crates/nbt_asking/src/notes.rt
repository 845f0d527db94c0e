//! What came of requests, counted, and kept for the log.

ghost use Rattle.std.specs.Prelude.{◌≡◌, IfOk};
ghost use Rattle.nbt_waits.specs.Tally.{nothing_counted};

use nbt_waits::{AskTally, Note};
use std::alloc::{AllocError, Global};
use std::marker::Model;

/// How many notes wait for the log at most (our profile): those past them are lost, and counted all the same.
const NOTES_MOST: usize = 64;

/// What came of requests, counted; and what of it the log doesn't have yet. A contract sees the counts. The memory is taken at the start.
#[derive(Drop)]
pub struct Notes {
    tally: AskTally,
    waiting: Vec<Note>,
}

impl Model for Notes {
    ghost use Rattle.std.specs.Prelude.{◌≡◌, vec_capacity};
    ghost use Rattle.nbt_waits.specs.declared.tally.AskTally.{AskTally};

    ghost Value = { AskTally };

    ghost view = { λ n. n.tally };

    ghost invariant = { λ n. vec_capacity n.waiting ≡ 64 };
}

impl Notes {
    ghost use Rattle.std.specs.Prelude.{Option, Some, None};
    ghost use Rattle.nbt_waits.specs.Tally.{counted};

    /// Nothing came yet. The memory for 64 notes is taken here.
    pub fn new(alloc: Global) -> Result<Notes, AllocError>
        ensures { IfOk result (λ notes. notes ≡ nothing_counted) }
    {
        Ok(Notes {
            tally: AskTally::new(),
            waiting: Vec::with_capacity(alloc, NOTES_MOST)?,
        })
    }

    /// How many requests came to what.
    pub fn tally(&self) -> AskTally
        ensures { result ≡ self.now }
    {
        self.tally
    }

    /// Counts what came of a request, and keeps it for the log.
    pub fn put(&mut self, note: Note)
        ensures { self.new ≡ counted note.asked self.old }
    {
        self.tally.count(note.asked);
        if self.waiting.len() < NOTES_MOST {
            self.waiting.push_reserved(note);
        }
    }

    /// The first note that the log doesn't have yet.
    pub fn take(&mut self) -> Option<Note>
        ensures { self.new ≡ self.old }
    {
        if self.waiting.is_empty() {
            return None;
        }
        Some(self.waiting.remove(0))
    }
}
