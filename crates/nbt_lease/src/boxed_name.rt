//! A name in memory of its own, as the expiries have it: a small key in their ordered set.

ghost use Rattle.std.specs.Prelude.{◌≡◌, IfOk};
ghost use Rattle.std.proofs.Common.{rules};
ghost use Rattle.std.specs.Cmp.{partial_order_from_own_ties};
ghost use Rattle.std.specs.Cmp.Rules.{comparing};
ghost use Rattle.std.specs.Ordering.{as_partial_cmp};

use nbt_name::Name;
use std::alloc::{AllocError, Global};
use std::cmp::Ordering;
use std::marker::Model;

/// A name in memory of its own. It is compared as the name is.
#[derive(Drop)]
pub(crate) struct BoxedName {
    name: Box<Name>,
}

impl Model for BoxedName {
    ghost use Rattle.nbt_name.specs.Wire.{NameValue};

    ghost Value = { NameValue };

    ghost view = { λ b. b.name.value };
}

impl BoxedName {
    /// A copy of a name.
    pub fn new(alloc: Global, name: &Name) -> Result<BoxedName, AllocError>
        ensures { IfOk result (λ boxed. boxed ≡ name.now) }
    {
        let name = Box::new(alloc, name.copy())?;
        Ok(BoxedName { name })
    }

    /// Makes it a copy of another name. Takes no memory.
    pub fn set(&mut self, name: &Name)
        ensures { self.new ≡ name.now }
    {
        Box::replace(&mut self.name, name.copy());
    }

    /// The name.
    pub fn as_name(&self) -> &Name
        ensures { result.now ≡ self.now }
    {
        self.name.as_ref()
    }
}

impl PartialEq for BoxedName {
    ghost eq = { ⟦<Name as PartialEq>⟧.eq };

    ghost laws = { Prim.search (comparing, rules) };

    fn eq(&self, other: &BoxedName) -> bool {
        self.as_name() == other.as_name()
    }
}

impl Eq for BoxedName {
    ghost laws = { Prim.search (comparing, rules) };
}

impl Ord for BoxedName {
    ghost cmp = { ⟦<Name as Ord>⟧.cmp };

    ghost total = { Prim.search (comparing, rules) };

    ghost matches_partial_cmp = { Prim.search (comparing, rules) };

    ghost matches_eq = { Prim.search (comparing, rules) };

    fn cmp(&self, other: &BoxedName) -> Ordering {
        self.as_name().cmp(other.as_name())
    }
}

impl PartialOrd for BoxedName {
    ghost partial_cmp = { as_partial_cmp ⟦<Name as Ord>⟧.cmp };

    ghost laws = { partial_order_from_own_ties (Prim.search (comparing, rules))
        (Prim.search (comparing, rules)) };

    fn partial_cmp(&self, other: &BoxedName) -> Option<Ordering> {
        Some(self.cmp(other))
    }
}
