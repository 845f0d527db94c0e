//! What is fixed of a name.

ghost use Rattle.std.specs.Prelude.{◌≡◌, ◌↔◌, ◌++◌, ℕ, ◌<◌, ◌≤◌, not, nat_eq, Some, None, IsTrue, Contains, length, IfOk, IfErr, OnOk};
ghost use Rattle.std.specs.List.{list_any};
ghost use Rattle.nbt_front.specs.Files.{IsBarred, Joins};
ghost use Rattle.nbt_front.specs.Deciding.{IsHolder, entries_of};
ghost use Rattle.nbt_front.specs.Numbers.{addrs_most};
ghost use Rattle.nbt_front.specs.Standing.{are_group, is_in_the_way, leases_of};

use crate::fault::LineFault;
use crate::line::FixedLine;
use arrayvec::ArrayVec;
use nbt_lease::Lease;
use nbt_name::{Kind, Name};
use nbt_packet::entry_octets;
use std::alloc::AllocError;
use std::marker::Model;

/// The most addresses of a group: they fit beside any name in a response of 576 octets (RFC 1002 section 4.2.13, our profile).
pub const ADDRS_MOST: usize = 48;

/// The octets of so many entries, of six octets each (RFC 1002 section 4.2.13).
const ENTRIES_OCTETS: usize = 288;

/// The kind of a fixed name, and its addresses: one of a unique name, 1 to 48 of a group.
#[derive(Drop)]
pub struct Fixed {
    kind: Kind,
    addrs: ArrayVec<u32, ADDRS_MOST>,
}

impl Model for Fixed {
    ghost use Rattle.nbt_front.specs.FixedNames.{FixedValue, IsFixed};

    ghost Value = { FixedValue };

    ghost view = { λ f. record { kind = f.kind; addrs = f.addrs.items } };

    ghost invariant = { λ f. IsFixed (record { kind = f.kind; addrs = f.addrs.items }) };
}

impl Fixed {
    /// What the first line of a name makes of it.
    pub(crate) fn first(line: &FixedLine) -> Fixed
        ensures { Joins None line.now result }
    {
        let mut addrs = ArrayVec::new();
        addrs.push(line.addr);
        Fixed {
            kind: line.kind,
            addrs,
        }
    }

    /// What a further line makes of it. Refused as [`LineFault`] has it.
    pub(crate) fn with(&self, line: &FixedLine) -> Result<Fixed, LineFault>
        ensures ok { IfOk result (Joins (Some self.now) line.now) }
        ensures err { IfErr result (λ fault. (count : ℕ) → IsBarred count (Some self.now) line.now fault) }
    {
        if self.kind != line.kind {
            return Err(LineFault::Kinds);
        }
        if self.kind == Kind::Unique {
            return Err(LineFault::Twice);
        }
        if self.has(line.addr) {
            return Err(LineFault::Twice);
        }
        if self.addrs.is_full() {
            return Err(LineFault::Many);
        }
        let mut addrs = ArrayVec::new();
        addrs.try_extend_from_slice(self.addrs.as_slice()).unwrap();
        addrs.push(line.addr);
        Ok(Fixed {
            kind: self.kind,
            addrs,
        })
    }

    /// The same once more.
    pub(crate) fn copied(&self) -> Fixed
        ensures { result ≡ self.now }
    {
        let mut addrs = ArrayVec::new();
        addrs.try_extend_from_slice(self.addrs.as_slice()).unwrap();
        Fixed {
            kind: self.kind,
            addrs,
        }
    }

    /// Its kind.
    pub fn kind(&self) -> Kind
        ensures { result ≡ self.now.kind }
    {
        self.kind
    }

    /// Its addresses, in the order of their lines.
    pub fn addrs(&self) -> &[u32]
        ensures value { result.now ≡ self.now.addrs }
        ensures some { 0 < length self.now.addrs }
        ensures few { length self.now.addrs ≤ addrs_most }
    {
        self.addrs.as_slice()
    }

    /// Whether it has the kind and the addresses of another one, in the same order.
    pub(crate) fn is_same_as(&self, other: &Fixed) -> bool {
        self.kind == other.kind && self.addrs.as_slice() == other.addrs.as_slice()
    }

    /// Whether one of its addresses is this.
    fn has(&self, addr: u32) -> bool
        ensures { IsTrue result ↔ Contains self.now.addrs addr }
    {
        self.addrs.as_slice().contains(&addr)
    }

    /// Whether a sender claims the name for its own address, as that kind, and the address is one of the name's.
    pub(crate) fn is_held_by(&self, ip: u32, kind: Kind, addr: u32) -> bool
        ensures { IsTrue result ↔ IsHolder ip kind addr self.now }
    {
        addr == ip && kind == self.kind && self.has(addr)
    }

    /// Whether a lease of its name stands in its way: one of its addresses is another one than the lease's, and not both are a group.
    pub(crate) fn is_barred_by(&self, lease: &Lease) -> bool
        ensures { result ≡ is_in_the_way (Some self.now) lease.now }
    {
        !are_group(self.kind, lease.kind) && self.has_other(lease.addr)
    }

    /// Appends the leases that machines may have by what is fixed of a name, one for each address, which end then.
    pub(crate) fn list_leases(
        &self,
        name: &Name,
        end: u64,
        rows: &mut Vec<(Name, Lease)>,
    ) -> Result<(), AllocError>
        ensures { OnOk result (rows.new.items ≡ rows.old.items ++ leases_of end (name.now, self.now)) }
    {
        let kind = self.kind;
        let mut rest = self.addrs.as_slice();
        'addrs: while let Some((addr, others)) = rest.split_first() {
            let addr = *addr;
            rows.push((name.lend().to_name(), Lease { addr, kind, end }))?;
            rest = others;
        }
        Ok(())
    }

    /// Whether one of its addresses is another one than this.
    fn has_other(&self, addr: u32) -> bool
        ensures { result ≡ list_any (λ other. not (nat_eq other addr)) self.now.addrs }
    {
        self.addrs.as_slice().iter().any(|other| *other != addr)
    }

    /// The entries of its addresses, in their order (RFC 1002 section 4.2.13).
    pub(crate) fn entries(&self) -> ArrayVec<u8, ENTRIES_OCTETS>
        ensures { result.items ≡ entries_of self.now }
    {
        let mut entries = ArrayVec::new();
        for addr in self.addrs.as_slice() {
            let entry = entry_octets(self.kind, *addr);
            entries.try_extend_from_slice(&entry).unwrap();
        }
        entries
    }
}

/// Whether both are a group.
pub(crate) fn are_group(one: Kind, other: Kind) -> bool
    ensures { result ≡ are_group one other }
{
    one == Kind::Group && other == Kind::Group
}
