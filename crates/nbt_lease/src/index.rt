//! The leases by name, and their expiries in order.

ghost use Rattle.std.specs.Prelude.{◌≡◌, ◌+◌, ◌<◌, ◌≤◌, ◌↔◌, IsTrue, true, false, [], ◌∷◌, ◌++◌, length, map, filter, IfOk, IfSome, IfNone, OnOk, OnErr, if◌then◌else◌};
ghost use Rattle.std.specs.Bool.{OnFalse};
ghost use Rattle.std.specs.List.{IsDistinct};
ghost use Rattle.std.specs.Map.{keys_of};
ghost use Rattle.nbt_name.specs.Wire.{NameValue};
ghost use Rattle.nbt_lease.specs.Lease.{count_of};
ghost use Rattle.nbt_lease.specs.declared.ends.Due.{Due};
ghost use Rattle.nbt_lease.specs.Inner.Index.{rows_of, in_set, has_over};

use crate::both::{begin_in, take_out};
use crate::by_name::{ByName, Hashing};
use crate::ends::Ends;
use crate::lease::Lease;
use crate::looks::Looks;
use crate::members::Members;
use crate::named::Named;
use indexmap::IndexMap;
use nbt_name::Name;
use std::alloc::{AllocError, Global};
use std::hash::RandomState;
use std::marker::{Brand, Model};
use std::mem::swap;
use std::sync::ledger::{Blank, Ledger};

/// The leases by name, and their expiries in order. Each name has a member at least; its members are of different
/// addresses; and the set holds the expiry, name and address of each member, and no other.
#[derive(Drop)]
pub(crate) struct Index {
    members: ByName,
    ends: Ends,
    alloc: Global,
}

impl Model for Index {
    ghost use Rattle.nbt_lease.specs.Inner.Index.{Entries, Agrees};

    ghost Value = { Entries };

    ghost view = { λ i. i.members.entries };

    ghost invariant = { λ i. Agrees i.members.entries i.ends };
}

impl Index {
    ghost use Rattle.nbt_name.specs.Wire.{same_name};
    ghost use Rattle.nbt_lease.specs.Lease.{is_live, at_name, HasNone};
    ghost use Rattle.nbt_lease.specs.Inner.Index.{members_of, living, AreLive, Renewed, Moves, Ended};

    /// No leases. Takes no memory.
    pub fn new(alloc: Global) -> Index
        ensures { result ≡ [] }
    {
        Index {
            members: IndexMap::with_hasher(alloc, Hashing::Fixed),
            ends: Ends::new(alloc),
            alloc,
        }
    }

    /// Takes room for so many names, none of which moves as long as there are no more, and hashes names by these keys from
    /// now on. If out of memory, all is as before.
    pub fn make_room(&mut self, names: usize, keys: RandomState) -> Result<(), AllocError>
        ensures { self.new ≡ self.old }
    {
        let mut roomy = IndexMap::with_capacity_and_hasher(
            self.alloc,
            names,
            Hashing::Keyed(keys),
        )?;
        roomy.append(&mut self.members)?;
        swap(&mut self.members, &mut roomy);
        Ok(())
    }

    /// The members of a name, in order of their beginnings. One look-up; takes no memory.
    pub fn members(&self, name: &Name) -> &[Lease]
        ensures { result.now ≡ members_of self.now name.now }
    {
        match self.members.get(name) {
            Some(named) => named.as_slice(),
            None => &[],
        }
    }

    /// Those members of a name that live at `now`, with their first expiry. One look-up; takes no memory.
    pub fn live(&self, name: &Name, now: u64) -> Members<'_>
        ensures { result ≡ filter (is_live now) (members_of self.now name.now) }
    {
        match self.members.get(name) {
            Some(named) => named.live(now),
            None => Members::new(&[], None, now),
        }
    }

    /// How many leases there are.
    pub fn count(&self) -> usize
        ensures { result ≡ length (rows_of self.now) }
    {
        self.ends.count()
    }

    /// Whether at least `count` members of this address live at `now`, over all names. One look-up if the address has fewer
    /// leases, or none of all leases is over; else it reads name after name. Takes no memory.
    pub fn has_at_least(&self, addr: u32, now: u64, count: usize) -> bool
        ensures { IsTrue result ↔ (count ≤ count_of now addr (rows_of self.now)) }
    {
        if self.ends.count_of(addr) < count {
            return false;
        }
        if !any_over::<Brand>(&self.ends, now, Blank::new(1)) {
            return true;
        }
        reaches(&self.members, addr, now, count)
    }

    /// Appends each name with each of its members, name after name, those of one name in order of their beginnings. Takes room
    /// for all of them first, and no more. If out of memory, only some may be appended.
    pub fn list(&self, out: &mut Vec<(Name, Lease)>) -> Result<(), AllocError>
        ensures { OnOk result (out.new.items ≡ out.old.items ++ rows_of self.now) }
    {
        out.reserve(self.count())?;
        list_in(&self.members, out)
    }

    /// Begins a lease, which goes last at its name. If out of memory, the leases are as before.
    pub fn begin(&mut self, name: &Name, lease: Lease) -> Result<(), AllocError>
        requires none { HasNone lease.addr (members_of self.old name.now) }
        ensures begun { OnOk result (members_of self.new ≡ at_name name.now (members_of self.old name.now ++ lease ∷ []) (members_of self.old)) }
        ensures unchanged { OnErr result (members_of self.new ≡ members_of self.old) }
        ensures count { OnOk result (length (rows_of self.new) ≡ length (rows_of self.old) + 1) }
        ensures count_left { OnErr result (length (rows_of self.new) ≡ length (rows_of self.old)) }
        ensures names { IsDistinct same_name (keys_of self.new) }
    {
        begin_in(&mut self.members, &mut self.ends, self.alloc, name, lease)
    }

    /// Gives the member of this address this expiry, if its own is earlier, and returns its expiry; none if there is no such
    /// member. Only an expiry that moves takes memory: the set grows by the new one before the old one goes. If out of
    /// memory, the leases are as before.
    pub fn renew(&mut self, name: &Name, addr: u32, end: u64) -> Result<Option<u64>, AllocError>
        ensures renewed { IfOk result (λ found. IfSome found (λ until. Renewed (members_of self.old) name.now addr end until (members_of self.new))) }
        ensures none { IfOk result (λ found. IfNone found (HasNone addr (members_of self.old name.now))) }
        ensures none_left { IfOk result (λ found. IfNone found (members_of self.new ≡ members_of self.old)) }
        ensures moves { OnErr result (Moves (members_of self.old) name.now addr end) }
        ensures unchanged { OnErr result (members_of self.new ≡ members_of self.old) }
        ensures count { length (rows_of self.new) ≡ length (rows_of self.old) }
        ensures names { IsDistinct same_name (keys_of self.new) }
    {
        let Some(named) = self.members.get_mut(name) else {
            return Ok(None);
        };
        let Some(place) = named.place_of(addr) else {
            return Ok(None);
        };
        let before = named.end_at(place);
        if end <= before {
            return Ok(Some(before));
        }
        self.ends.postpone(before, end, name, addr)?;
        named.set_end(place, end);
        Ok(Some(end))
    }

    /// Removes the lease of the name and the address, if there is one. Takes no memory.
    pub fn end(&mut self, name: &Name, addr: u32) -> bool
        ensures gone { IsTrue result → Ended (members_of self.old) name.now addr (members_of self.new) }
        ensures none { OnFalse result (HasNone addr (members_of self.old name.now)) }
        ensures unchanged { OnFalse result (members_of self.new ≡ members_of self.old) }
        ensures left { HasNone addr (members_of self.new name.now) }
        ensures count { length (rows_of self.new) ≤ length (rows_of self.old) }
        ensures names { IsDistinct same_name (keys_of self.new) }
    {
        let Some(lease) = take_out(&mut self.members, name, addr) else {
            return false;
        };
        self.ends.remove(lease.end, name, addr);
        true
    }

    /// Removes the lease of the name and the address, if it is over at `now`. No look-up if none of all leases is. Takes no
    /// memory.
    pub fn end_over(&mut self, name: &Name, addr: u32, now: u64)
        requires names { IsDistinct same_name (keys_of self.old) }
        ensures leases { living now self.new ≡ living now self.old }
        ensures none { has_over addr now (members_of self.new name.now) ≡ false }
        ensures fewer { length (rows_of self.new) ≤ length (rows_of self.old) }
        ensures names { IsDistinct same_name (keys_of self.new) }
    {
        if !any_over::<Brand>(&self.ends, now, Blank::new(1)) {
            return;
        }
        if has_over(self.members(name), addr, now) {
            self.end(name, addr);
        }
    }

    /// Removes the lease that expired first, if one is over at `now`. Takes no memory.
    fn pop_due<L: Ledger>(&mut self, now: u64, looks: &mut Looks<L>) -> bool
        ensures leases { (q : NameValue) → filter (is_live now) (members_of self.new q) ≡ filter (is_live now) (members_of self.old q) }
        ensures looks { looks.new ≡ looks.old + 1 }
        ensures count { length (rows_of self.new) + (if result then 1 else 0) ≡ length (rows_of self.old) }
        ensures live { OnFalse result ((q : NameValue) → AreLive now (members_of self.new q)) }
        ensures names { IsDistinct same_name (keys_of self.new) }
    {
        let Some(due) = self.ends.take_due(now, looks) else {
            return false;
        };
        take_out(&mut self.members, due.name.as_name(), due.addr);
        true
    }

    /// Removes the leases that are over at `now`: one look at each, and one more. Takes no memory.
    pub fn drop_expired<L: Ledger>(&mut self, now: u64, looks: &mut Looks<L>)
        ensures leases { (q : NameValue) → members_of self.new q ≡ filter (is_live now) (members_of self.old q) }
        ensures looks { looks.new + length (rows_of self.new) ≡ looks.old + length (rows_of self.old) + 1 }
        ensures fewer { length (rows_of self.new) ≤ length (rows_of self.old) }
        ensures names { IsDistinct same_name (keys_of self.new) }
    {
        'dues: while self.pop_due(now, looks) {}
    }

    /// Removes leases that are over at `now`, those that expired first, `most` at the most. Takes no memory.
    pub fn drop_some<L: Ledger>(&mut self, now: u64, most: u32, looks: &mut Looks<L>)
        requires names { IsDistinct same_name (keys_of self.old) }
        ensures leases { (q : NameValue) → filter (is_live now) (members_of self.new q) ≡ filter (is_live now) (members_of self.old q) }
        ensures looks { looks.new ≤ looks.old + most }
        ensures fewer { length (rows_of self.new) ≤ length (rows_of self.old) }
        ensures bound { length (rows_of self.old) ≤ length (rows_of self.new) + most }
        ensures over { length (rows_of self.old) < length (rows_of self.new) + most → (q : NameValue) → AreLive now (members_of self.new q) }
        ensures names { IsDistinct same_name (keys_of self.new) }
    {
        let mut left = most;
        'dues: while 0 < left {
            if !self.pop_due(now, looks) {
                return;
            }
            left -= 1;
        }
    }
}

/// Whether one of these leases is of this address and over at `now`.
fn has_over(leases: &[Lease], addr: u32, now: u64) -> bool
    ensures { result ≡ has_over addr now leases.now }
{
    leases
        .iter()
        .any(|lease| lease.addr == addr && lease.end <= now)
}

/// Whether any lease is over at `now`, without counting the look.
fn any_over<L: Ledger>(ends: &Ends, now: u64, blank: Blank) -> bool
    requires name { blank.name ≡ L.name }
    requires parts { blank.parts ≡ L.parts }
    requires part_count { 0 < blank.parts }
    ensures live { OnFalse result ((d : Due) → in_set ends.now d ≡ true → now < d.end) }
{
    let mut looks = Looks::<L>::new(blank);
    ends.any_over(now, &mut looks)
}

/// Whether at least `count` members of this address live at `now`. It reads name after name until it has found so many.
fn reaches(members: &ByName, addr: u32, now: u64, count: usize) -> bool
    ensures { IsTrue result ↔ (count ≤ count_of now addr (rows_of members.now.entries)) }
{
    let mut rest = members.as_slice();
    let mut left = count;
    'names: while let Some(((_, named), others)) = rest.split_first() {
        let found = named.count_of(addr, now);
        if left <= found {
            return true;
        }
        left -= found;
        rest = others;
    }
    left == 0
}

/// Appends each name with each of its members.
fn list_in(members: &ByName, out: &mut Vec<(Name, Lease)>) -> Result<(), AllocError>
    ensures { OnOk result (out.new.items ≡ out.old.items ++ rows_of members.now.entries) }
{
    let mut rest = members.as_slice();
    'names: while let Some(((name, named), others)) = rest.split_first() {
        list_members(name, named.as_slice(), out)?;
        rest = others;
    }
    Ok(())
}

/// Appends a name with each of these leases.
fn list_members(
    name: &Name,
    leases: &[Lease],
    out: &mut Vec<(Name, Lease)>,
) -> Result<(), AllocError>
    ensures { OnOk result (out.new.items ≡ out.old.items ++ map (λ lease. (name.now, lease)) leases.now) }
{
    for lease in leases {
        out.push((name.copy(), *lease))?;
    }
    Ok(())
}
