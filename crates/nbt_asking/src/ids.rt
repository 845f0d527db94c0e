//! Ids of inquiries.

ghost use Rattle.std.specs.Prelude.{◌≡◌, Option, ℕ};
ghost use Rattle.nbt_asking.specs.Ids.{DrawsFirst};

use std::collections::VecDeque;
use std::marker::Model;

/// A source of ids that nobody can guess, so that nobody can forge a response (RFC 1002 section 4.2.1.1: NAME_TRN_ID).
pub trait Ids {
    /// What drawing is: the source before, the id, if it gave one, and the source afterwards.
    ghost draws: { Self → (id : Option ℕ) → Self → Type 0 };

    /// An id, or none where the source gives none: nobody is asked then.
    fn draw(&mut self) -> Option<u16>
        ensures { draws self.old result self.new };
}

/// Ids that were given, in order, and then none.
#[derive(Drop)]
pub struct MemoryIds {
    left: VecDeque<u16>,
}

impl Model for MemoryIds {
    ghost use Rattle.std.specs.Prelude.{List, ℕ};

    ghost Value = { List ℕ };

    ghost view = { λ m. m.left.items };
}

impl MemoryIds {
    /// A source of these.
    pub fn new(left: VecDeque<u16>) -> MemoryIds
        ensures { result ≡ left.items }
    {
        MemoryIds { left }
    }
}

impl Ids for MemoryIds {
    ghost draws = { DrawsFirst };

    fn draw(&mut self) -> Option<u16> {
        self.left.pop_front()
    }
}
