//! How a requester stands with a name.

ghost use Rattle.std.specs.Prelude.{◌≡◌, ◌≢◌, ◌+◌, ◌<◌, ◌≤◌, ◌↔◌, true, false, IsTrue, length, filter, List};
ghost use Rattle.nbt_lease.specs.declared.lease.Lease.{Lease};

use crate::lease::Lease;
use nbt_name::Kind;

/// The most live members of a group (our profile).
const MEMBERS_MOST: usize = 1_000;

/// How a requester stands with a name: among those of its leases that live.
#[derive(Drop)]
pub(crate) struct Standing {
    /// Whether one of them is the requester's.
    pub own: bool,
    /// How many they are.
    pub members: usize,
    /// Whether all of them are of a group.
    pub group: bool,
}

impl Standing {
    ghost use Rattle.nbt_lease.specs.Inner.Standing.{StandsIn, MayStand};
    ghost use Rattle.nbt_lease.specs.Lease.{is_live, members_most};
    ghost use Rattle.nbt_lease.specs.Rules.{Asked, IsAllowed};

    /// How the address stands among those of these leases of a name that live at `now`.
    pub fn find(leases: &[Lease], addr: u32, now: u64) -> Standing
        ensures { StandsIn addr (filter (is_live now) leases.now) result }
    {
        let mut standing = Standing {
            own: false,
            members: 0,
            group: true,
        };
        for (index, lease) in leases.iter().enumerate() {
            if now < lease.end {
                standing.add(*lease, addr);
            }
        }
        standing
    }

    /// Counts a lease.
    fn add(&mut self, lease: Lease, addr: u32)
        requires { self.old.members < usize.MAX }
        ensures members { self.new.members ≡ self.old.members + 1 }
        ensures group { IsTrue self.new.group ↔ (IsTrue self.old.group × (lease.kind ≡ Kind.Group)) }
        ensures own { lease.addr ≡ addr → self.new.own ≡ true }
        ensures other { lease.addr ≢ addr → self.new.own ≡ self.old.own }
    {
        self.members += 1;
        self.group = self.group && lease.kind == Kind::Group;
        self.own = self.own || lease.addr == addr;
    }

    /// Whether a lease of this kind may begin, or the requester's may be renewed as one.
    pub fn allows(&self, kind: Kind) -> bool
        ensures { (leases : List Lease) (a : Asked) → StandsIn a.addr leases self.now → a.kind ≡ kind → IsTrue result ↔ IsAllowed a leases }
    {
        match kind {
            Kind::Group => self.group,
            Kind::Unique => self.members == 0 || (self.members == 1 && !self.group && self.own),
        }
    }

    /// Whether the group has no room for a further member.
    pub fn is_full(&self) -> bool
        ensures { IsTrue result ↔ (members_most ≤ self.now.members) }
    {
        self.members >= MEMBERS_MOST
    }

    /// Whether a lease of this kind and of the requester may stand last among the name's.
    pub fn admits(&self, kind: Kind) -> bool
        ensures { (leases : List Lease) (lease : Lease) → StandsIn lease.addr leases self.now → lease.kind ≡ kind → IsTrue result ↔ MayStand lease leases }
    {
        if let Kind::Unique = kind {
            return self.members == 0;
        }
        if self.own || !self.group {
            return false;
        }
        self.members < MEMBERS_MOST
    }
}
