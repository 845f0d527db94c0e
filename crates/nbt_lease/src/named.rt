//! The members of one name.

ghost use Rattle.std.specs.Prelude.{◌≡◌, ◌≢◌, ◌+◌, ◌<◌, List, [], ◌∷◌, ◌++◌, length, filter, min, unwrap_or, Some, IfSome, IfNone, OnOk, OnErr, MatchOption};
ghost use Rattle.nbt_lease.specs.declared.lease.Lease.{Lease};
ghost use Rattle.nbt_lease.specs.Lease.{HasNone, is_live};
ghost use Rattle.nbt_lease.specs.Rules.{IsLeastEnd};
ghost use Rattle.nbt_lease.specs.Inner.Index.{IsMember, is_live_of};

use crate::lease::Lease;
use crate::members::Members;
use std::alloc::{AllocError, Global};
use std::marker::Model;

/// The members of one name, in order of their beginnings, and their first expiry.
#[derive(Drop)]
pub(crate) struct Named {
    leases: Vec<Lease>,
    /// None if there is no member.
    least: Option<u64>,
}

impl Model for Named {
    ghost use Rattle.std.specs.Prelude.{List};
    ghost use Rattle.nbt_lease.specs.declared.lease.Lease.{Lease};
    ghost use Rattle.nbt_lease.specs.Rules.{IsLeastEnd};

    ghost Value = { List Lease };

    ghost view = { λ n. n.leases.items };

    ghost invariant = { λ n. IsLeastEnd n.leases.items n.least };
}

impl Named {
    /// No members. Takes no memory.
    pub fn new(alloc: Global) -> Named
        ensures { result ≡ [] }
    {
        Named {
            leases: Vec::new(alloc),
            least: None,
        }
    }

    /// The members.
    pub fn as_slice(&self) -> &[Lease]
        ensures { result.now ≡ self.now }
    {
        self.leases.as_slice()
    }

    /// Those members that live at `now`, with their first expiry.
    pub fn live(&self, now: u64) -> Members<'_>
        ensures { result ≡ filter (is_live now) self.now }
    {
        Members::new(self.leases.as_slice(), self.least, now)
    }

    /// How many members of this address live at `now`.
    pub fn count_of(&self, addr: u32, now: u64) -> usize
        ensures { result ≡ length (filter (is_live_of addr now) self.now) }
    {
        self.leases
            .iter()
            .filter(|lease| lease.addr == addr && now < lease.end)
            .count()
    }

    /// Adds a member, which goes last. If out of memory, all is as before.
    pub fn push(&mut self, lease: Lease) -> Result<(), AllocError>
        ensures added { OnOk result (self.new ≡ self.old ++ lease ∷ []) }
        ensures unchanged { OnErr result (self.new ≡ self.old) }
    {
        self.leases.push(lease)?;
        self.least = Some(least_with(self.least, lease.end));
        Ok(())
    }

    /// Removes the last member.
    pub fn pop(&mut self)
        ensures { (leases : List Lease) (lease : Lease) → self.old ≡ leases ++ lease ∷ [] → self.new ≡ leases }
    {
        let Some(last) = self.leases.pop() else {
            return;
        };
        self.least = least_without(self.leases.as_slice(), self.least, last.end);
    }

    /// Removes the member of this address, if there is one. Takes no memory.
    pub fn take(&mut self, addr: u32) -> Option<Lease>
        ensures taken { IfSome result (λ lease. (before : List Lease) × (behind : List Lease) × IsMember addr self.old before lease behind × (self.new ≡ before ++ behind)) }
        ensures none { IfNone result (HasNone addr self.old) }
        ensures unchanged { IfNone result (self.new ≡ self.old) }
    {
        let place = self.place_of(addr)?;
        let taken = self.leases.remove(place);
        self.least = least_without(self.leases.as_slice(), self.least, taken.end);
        Some(taken)
    }

    /// The place of the member of this address, if there is one.
    pub fn place_of(&self, addr: u32) -> Option<usize>
        ensures { MatchOption result (HasNone addr self.now) (λ place. (before : List Lease) × (lease : Lease) × (behind : List Lease) × IsMember addr self.now before lease behind × (length before ≡ place)) }
    {
        for (place, lease) in self.leases.iter().enumerate() {
            if lease.addr == addr {
                return Some(place);
            }
        }
        None
    }

    /// The expiry of the member at this place.
    pub fn end_at(&self, place: usize) -> u64
        requires { place < length self.now }
        ensures { (before : List Lease) (lease : Lease) (behind : List Lease) → self.now ≡ before ++ lease ∷ behind → length before ≡ place → result ≡ lease.end }
    {
        self.leases[place].end
    }

    /// Gives the member at this place another expiry.
    pub fn set_end(&mut self, place: usize, end: u64)
        requires { place < length self.old }
        ensures { (before : List Lease) (lease : Lease) (behind : List Lease) → self.old ≡ before ++ lease ∷ behind → length before ≡ place → self.new ≡ before ++ record lease { end = end } ∷ behind }
    {
        let lease = &mut self.leases[place];
        let gone = lease.end;
        lease.end = end;
        let least = Some(least_with(self.least, end));
        self.least = least_without(self.leases.as_slice(), least, gone);
    }
}

/// The earlier of an expiry and the first of others, if there are others.
fn least_with(least: Option<u64>, end: u64) -> u64
    ensures { result ≡ min (unwrap_or least end) end }
{
    least.unwrap_or(end).min(end)
}

/// The first expiry of these leases, if it was `least` while one more expired at `gone`. Only if that one had it, it is
/// found anew, in one pass.
fn least_without(leases: &[Lease], least: Option<u64>, gone: u64) -> Option<u64>
    requires { least ≢ Some gone → IsLeastEnd leases.now least }
    ensures { IsLeastEnd leases.now result }
{
    if least != Some(gone) {
        return least;
    }
    least_of(leases)
}

/// The first expiry of these leases, in one pass.
fn least_of(leases: &[Lease]) -> Option<u64>
    ensures { IsLeastEnd leases.now result }
{
    let mut least = None;
    for lease in leases {
        least = Some(least_with(least, lease.end));
    }
    least
}
