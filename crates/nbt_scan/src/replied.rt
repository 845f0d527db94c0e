//! Which addresses have replied.

ghost use Rattle.std.specs.Prelude.{◌≡◌, ◌<◌, true, false, Some, IfOk, not, count_by, length, replicate, slice_get, slice_set};
ghost use Rattle.std.specs.List.{list_any};

use std::alloc::{AllocError, Global};
use std::marker::Model;

/// Which addresses have replied, by their places. It takes an octet an address. A contract sees the list.
#[derive(Drop)]
pub struct Replied {
    flags: Vec<bool>,
    missing: usize,
    ghost counted: { missing ≡ count_by not flags.items },
}

impl Model for Replied {
    ghost use Rattle.std.specs.Prelude.{List, Bool};

    ghost Value = { List Bool };

    ghost view = { λ r. r.flags.items };
}

impl Replied {
    ghost use Rattle.nbt_scan.specs.Progressing.{all_replied};

    /// None of this many.
    pub fn none(alloc: Global, count: usize) -> Result<Replied, AllocError>
        ensures { IfOk result (λ replied. replied ≡ replicate count false) }
    {
        Ok(Replied {
            flags: vec![in alloc; false; count]?,
            missing: count,
        })
    }

    /// Whether the address at this place has.
    pub fn has(&self, place: usize) -> bool
        requires { place < length self.now }
        ensures { slice_get self.now place ≡ Some result }
    {
        self.flags[place]
    }

    /// The address at this place, which hadn't, has now.
    pub fn mark(&mut self, place: usize)
        requires { slice_get self.old place ≡ Some false }
        ensures { self.new ≡ slice_set self.old place true }
    {
        self.flags[place] = true;
        self.missing -= 1;
    }

    /// Whether all have.
    pub fn is_all(&self) -> bool
        ensures { result ≡ all_replied self.now }
    {
        self.missing == 0
    }

    /// How many have.
    pub fn count(&self) -> usize
        ensures { result ≡ count_by (λ reply. reply) self.now }
    {
        self.flags.len() - self.missing
    }

    /// Whether one has.
    pub fn is_any(&self) -> bool
        ensures { result ≡ list_any (λ reply. reply) self.now }
    {
        self.flags.iter().any(|reply| *reply)
    }
}
