//! The live leases of one name.

ghost use Rattle.std.specs.Prelude.{◌≡◌, filter};
ghost use Rattle.nbt_lease.specs.Rules.{IsLeastEnd};

use crate::lease::Lease;
use std::marker::Model;

/// The live leases of a name at a time, in order of their beginnings. It borrows the table and takes no memory.
#[derive(Drop)]
pub struct Members<'a> {
    leases: &'a [Lease],
    /// The first expiry among those that live, if known: none is over, and none was read yet.
    least: Option<u64>,
    moment: u64,
}

impl<'a> Model for Members<'a> {
    ghost use Rattle.std.specs.Prelude.{List, filter, Some, IfSome};
    ghost use Rattle.nbt_lease.specs.declared.lease.Lease.{Lease};
    ghost use Rattle.nbt_lease.specs.Lease.{is_live};
    ghost use Rattle.nbt_lease.specs.Rules.{IsLeastEnd};

    ghost Value = { List Lease };

    ghost view = { λ m. filter (is_live m.moment) m.leases.now };

    ghost invariant = { λ m. IfSome m.least (λ end. IsLeastEnd (filter (is_live m.moment) m.leases.now) (Some end)) };
}

impl<'a> Members<'a> {
    ghost use Rattle.nbt_lease.specs.Lease.{is_live};

    /// Those of these leases that live at `now`; `least` is the first expiry of all of them.
    pub(crate) fn new(leases: &'a [Lease], least: Option<u64>, now: u64) -> Members<'a>
        requires { IsLeastEnd leases.now least }
        ensures { result ≡ filter (is_live now) leases.now }
    {
        let least = match least {
            Some(end) if now < end => Some(end),
            _ => None,
        };
        Members {
            leases,
            least,
            moment: now,
        }
    }

    /// The first expiry among those that are left, in milliseconds; none if none is left. Takes no memory. The table keeps it
    /// beside each name, so after a sweep at this time, and before a lease is read, it is a look-up; else it takes a pass
    /// over those that are left.
    pub fn least_end(&self) -> Option<u64>
        ensures { IsLeastEnd self.now result }
    {
        if self.least.is_some() {
            return self.least;
        }
        let left = Members {
            leases: self.leases,
            least: None,
            moment: self.moment,
        };
        left.map(|lease| lease.end).min()
    }
}

impl Iterator for Members<'_> {
    ghost use Rattle.std.specs.Iterator.{YieldsFirst, item_count};

    type Item = Lease;

    ghost next_gives = { YieldsFirst (λ s. s) };

    ghost remaining = { item_count (λ s. s) };

    fn next(&mut self) -> Option<Lease> {
        self.least = None;
        while let Some((lease, others)) = self.leases.split_first() {
            self.leases = others;
            if self.moment < lease.end {
                return Some(*lease);
            }
        }
        None
    }
}
