//! The expiries of all leases, in order.

ghost use Rattle.std.specs.Prelude.{◌≡◌, ◌+◌, ◌<◌, ◌≤◌, true, false, length, if◌then◌else◌, IfSome, IfNone, OnOk, OnErr, [], IsTrue};
ghost use Rattle.std.specs.Bool.{OnFalse};

use crate::boxed_name::BoxedName;
use crate::looks::Looks;
use crate::tally::Tally;
use nbt_name::Name;
use std::alloc::{AllocError, Global};
use std::collections::BTreeSet;
use std::marker::Model;
use std::sync::ledger::Ledger;

/// When the lease of a name and an address expires. The order is that of the expiries, then of the names and the
/// addresses.
#[derive(PartialEq, Eq, PartialOrd, Ord, Drop)]
pub(crate) struct Due {
    pub end: u64,
    pub name: BoxedName,
    pub addr: u32,
}

/// The expiries of all leases, each with its name and address, and how many leases each address has. Only `take_due` and
/// `any_over` look at one, and they count that as a look.
#[derive(Drop)]
pub(crate) struct Ends {
    alloc: Global,
    dues: BTreeSet<Due>,
    /// The name that is looked for, in memory that was taken with the first expiry: so a removal takes none.
    sought: Option<BoxedName>,
    tally: Tally,
}

impl Model for Ends {
    ghost use Rattle.std.specs.Prelude.{◌≡◌, List, []};
    ghost use Rattle.std.specs.Option.{ForNone};
    ghost use Rattle.nbt_lease.specs.declared.ends.Due.{Due as Seen};
    ghost use Rattle.nbt_lease.specs.Inner.Tally.{Tallies};

    ghost Value = { List Seen };

    ghost view = { λ e. e.dues.keys };

    ghost invariant = { λ e. ForNone e.sought (e.dues.keys ≡ []) × Tallies e.tally e.dues.keys };
}

impl Ends {
    ghost use Rattle.std.specs.List.{IsDistinct};
    ghost use Rattle.nbt_lease.specs.declared.ends.Due.{Due as Seen};
    ghost use Rattle.nbt_lease.specs.Inner.Index.{due, is_due, in_set};
    ghost use Rattle.nbt_lease.specs.Inner.Tally.{dues_of_client};

    /// No expiries. Takes no memory.
    pub fn new(alloc: Global) -> Ends
        ensures { result ≡ [] }
    {
        Ends {
            alloc,
            dues: BTreeSet::new(alloc),
            sought: None,
            tally: Tally::new(alloc),
        }
    }

    /// How many leases there are.
    pub fn count(&self) -> usize
        ensures { result ≡ length self.now }
    {
        self.dues.len()
    }

    /// How many leases the address has. One look-up; takes no memory.
    pub fn count_of(&self, addr: u32) -> usize
        ensures { result ≡ dues_of_client addr self.now }
    {
        self.tally.count_of(addr) as usize
    }

    /// Adds the expiry of a lease that isn't there. If out of memory, all is as before.
    pub fn insert(&mut self, end: u64, name: &Name, addr: u32) -> Result<(), AllocError>
        requires absent { in_set self.old (due end name.now addr) ≡ false }
        ensures found { OnOk result ((d : Seen) → in_set self.new d ≡ (if is_due (due end name.now addr) d then true else in_set self.old d)) }
        ensures count { OnOk result (length self.new ≡ length self.old + 1) }
        ensures distinct { OnOk result (IsDistinct is_due self.new) }
        ensures unchanged { OnErr result (self.new ≡ self.old) }
    {
        let key = BoxedName::new(self.alloc, name)?;
        let sought = match self.sought.take() {
            Some(sought) => sought,
            None => BoxedName::new(self.alloc, name)?,
        };
        self.sought = Some(sought);
        self.tally.add(addr)?;
        let due = Due {
            end,
            name: key,
            addr,
        };
        match self.dues.insert(due) {
            Ok(_) => Ok(()),
            Err(refused) => {
                self.tally.remove(addr);
                Err(refused.into())
            }
        }
    }

    /// Removes the expiry of a lease that is there. Takes no memory.
    pub fn remove(&mut self, end: u64, name: &Name, addr: u32)
        requires there { in_set self.old (due end name.now addr) ≡ true }
        ensures found { (d : Seen) → in_set self.new d ≡ (if is_due (due end name.now addr) d then false else in_set self.old d) }
        ensures count { length self.new + 1 ≡ length self.old }
        ensures distinct { IsDistinct is_due self.new }
    {
        let Some(mut sought) = self.sought.take() else {
            return;
        };
        sought.set(name);
        let due = Due {
            end,
            name: sought,
            addr,
        };
        self.dues.remove(&due);
        self.sought = Some(due.name);
        self.tally.remove(addr);
    }

    /// Moves the expiry of a lease that is there from `before` to `end`. The set grows by the new one before the old one goes. If
    /// out of memory, all is as before.
    pub fn postpone(
        &mut self,
        before: u64,
        end: u64,
        name: &Name,
        addr: u32,
    ) -> Result<(), AllocError>
        requires there { in_set self.old (due before name.now addr) ≡ true }
        requires absent { in_set self.old (due end name.now addr) ≡ false }
        ensures found { OnOk result ((d : Seen) → in_set self.new d ≡ (if is_due (due before name.now addr) d then false else (if is_due (due end name.now addr) d then true else in_set self.old d))) }
        ensures count { OnOk result (length self.new ≡ length self.old) }
        ensures distinct { OnOk result (IsDistinct is_due self.new) }
        ensures unchanged { OnErr result (self.new ≡ self.old) }
    {
        let key = BoxedName::new(self.alloc, name)?;
        let due = Due {
            end,
            name: key,
            addr,
        };
        self.dues.insert(due)?;
        let Some(mut sought) = self.sought.take() else {
            return Ok(());
        };
        sought.set(name);
        let due = Due {
            end: before,
            name: sought,
            addr,
        };
        self.dues.remove(&due);
        self.sought = Some(due.name);
        Ok(())
    }

    /// Looks at the first expiry, and removes it if it is over at `now`. Takes no memory.
    pub fn take_due<L: Ledger>(&mut self, now: u64, looks: &mut Looks<L>) -> Option<Due>
        ensures looks { looks.new ≡ looks.old + 1 }
        ensures over { IfSome result (λ d. d.end ≤ now) }
        ensures there { IfSome result (λ d. in_set self.old d ≡ true) }
        ensures found { IfSome result (λ taken. (d : Seen) → in_set self.new d ≡ (if is_due taken d then false else in_set self.old d)) }
        ensures count { IfSome result (λ d. length self.new + 1 ≡ length self.old) }
        ensures distinct { IfSome result (λ d. IsDistinct is_due self.new) }
        ensures live { IfNone result ((d : Seen) → in_set self.old d ≡ true → now < d.end) }
        ensures unchanged { IfNone result (self.new ≡ self.old) }
    {
        looks.add_one();
        match self.dues.first() {
            Some(due) if due.end <= now => {
                self.tally.remove(due.addr);
                self.dues.pop_first()
            }
            _ => None,
        }
    }

    /// Looks at the first expiry: whether it is over at `now`. Takes no memory.
    pub fn any_over<L: Ledger>(&self, now: u64, looks: &mut Looks<L>) -> bool
        ensures looks { looks.new ≡ looks.old + 1 }
        ensures over { IsTrue result → (d : Seen) × (in_set self.now d ≡ true) × (d.end ≤ now) }
        ensures live { OnFalse result ((d : Seen) → in_set self.now d ≡ true → now < d.end) }
    {
        looks.add_one();
        match self.dues.first() {
            Some(due) => due.end <= now,
            None => false,
        }
    }
}
