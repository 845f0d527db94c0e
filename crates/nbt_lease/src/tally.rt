//! How many leases each address has.

ghost use Rattle.std.specs.Prelude.{◌≡◌, ◌+◌, ◌-◌, nat_eq, if◌then◌else◌, OnOk, OnErr};
ghost use Rattle.nbt_lease.specs.Inner.Tally.{kept};

use indexmap::IndexMap;
use std::alloc::{AllocError, Global};
use std::marker::Model;

/// How many leases each address has, over all names. An address without leases isn't there.
#[derive(Drop)]
pub(crate) struct Tally {
    leases: IndexMap<u32, u32>,
}

impl Model for Tally {
    ghost use Rattle.std.specs.Prelude.{ℕ, List};

    ghost Value = { List (ℕ × ℕ) };

    ghost view = { λ t. t.leases.entries };
}

impl Tally {
    ghost use Rattle.std.specs.Prelude.{ℕ};

    /// No leases. Takes no memory.
    pub fn new(alloc: Global) -> Tally
        ensures { (a : ℕ) → kept result a ≡ 0 }
    {
        Tally {
            leases: IndexMap::new(alloc),
        }
    }

    /// How many leases the address has. One look-up; takes no memory.
    pub fn count_of(&self, addr: u32) -> u32
        ensures { result ≡ kept self.now addr }
    {
        match self.leases.get(&addr) {
            Some(count) => *count,
            None => 0,
        }
    }

    /// One lease more of the address. Only the first of an address takes memory. If out of memory, or of numbers, all is as
    /// before.
    pub fn add(&mut self, addr: u32) -> Result<(), AllocError>
        ensures added { OnOk result ((a : ℕ) → kept self.new a ≡ (if nat_eq addr a then kept self.old a + 1 else kept self.old a)) }
        ensures unchanged { OnErr result ((a : ℕ) → kept self.new a ≡ kept self.old a) }
    {
        let Some(more) = self.count_of(addr).checked_add(1) else {
            return Err(AllocError);
        };
        self.leases.insert(addr, more)?;
        Ok(())
    }

    /// One lease fewer of the address; none where it has none. Takes no memory.
    pub fn remove(&mut self, addr: u32)
        ensures { (a : ℕ) → kept self.new a ≡ (if nat_eq addr a then kept self.old a - 1 else kept self.old a) }
    {
        if self.count_of(addr) <= 1 {
            self.leases.swap_remove(&addr);
            return;
        }
        if let Some(count) = self.leases.get_mut(&addr) {
            *count = count.saturating_sub(1);
        }
    }
}
