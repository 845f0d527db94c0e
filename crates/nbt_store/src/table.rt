//! The leases of each name, as changes make them.

ghost use Rattle.std.specs.Prelude.{◌≡◌, ◌↔◌, ◌++◌, ◌∷◌, [], Any, IsTrue, Some, None, map, OnOk, IfOk, IfSome, IfNone, if◌then◌else◌};
ghost use Rattle.std.specs.List.{IsDistinct};
ghost use Rattle.std.specs.Map.{keys_of, lookup};
ghost use Rattle.nbt_name.specs.Wire.{NameValue, same_name};
ghost use Rattle.nbt_lease.specs.Inner.Index.{members_of, rows_of};
ghost use Rattle.nbt_store.specs.Lines.{StandsIn};
ghost use Rattle.nbt_store.specs.Changes.{Stands, after, begins, goes, moved, moves, with_end, without};

use crate::change::Change;
use crate::form::Form;
use indexmap::IndexMap;
use nbt_lease::Lease;
use nbt_name::Name;
use std::alloc::{AllocError, Global};
use std::marker::Model;

/// The leases of one name, in order of their beginnings.
#[derive(Drop)]
pub(crate) struct Group {
    leases: Vec<Lease>,
}

impl Model for Group {
    ghost use Rattle.std.specs.Prelude.{List};
    ghost use Rattle.nbt_lease.specs.declared.lease.Lease.{Lease};

    ghost Value = { List Lease };

    ghost view = { λ g. g.leases.items };
}

impl Group {
    /// No leases. Takes no memory.
    fn new(alloc: Global) -> Group
        ensures { result ≡ [] }
    {
        Group {
            leases: Vec::new(alloc),
        }
    }

    /// The leases.
    fn as_slice(&self) -> &[Lease]
        ensures { result.now ≡ self.now }
    {
        self.leases.as_slice()
    }

    /// Whether there is a lease of this address.
    fn has(&self, addr: u32) -> bool
        ensures { IsTrue result ↔ Any (λ lease. lease.addr ≡ addr) self.now }
    {
        self.leases.iter().any(|lease| lease.addr == addr)
    }

    /// A lease begins: it goes last, and one of its address goes. If out of memory, it may have gone.
    fn begin(&mut self, lease: Lease) -> Result<(), AllocError>
        ensures { OnOk result (self.new ≡ without lease.addr self.old ++ lease ∷ []) }
    {
        remove_of(&mut self.leases, lease.addr);
        self.leases.push(lease)?;
        Ok(())
    }

    /// The lease of this address gets this expiry. If out of memory, all is as before.
    fn set_end(&mut self, alloc: Global, addr: u32, end: u64) -> Result<(), AllocError>
        ensures { OnOk result (self.new ≡ with_end addr end self.old) }
    {
        self.leases = leases_with_end(alloc, self.leases.as_slice(), addr, end)?;
        Ok(())
    }

    /// The lease of this address goes.
    fn release(&mut self, addr: u32)
        ensures { self.new ≡ without addr self.old }
    {
        remove_of(&mut self.leases, addr);
    }
}

/// Removes the leases of this address.
fn remove_of(leases: &mut Vec<Lease>, addr: u32)
    ensures { leases.new.items ≡ without addr leases.old.items }
{
    leases.retain(|lease| lease.addr != addr);
}

/// The leases, those of this address with this expiry.
fn leases_with_end(
    alloc: Global,
    leases: &[Lease],
    addr: u32,
    end: u64,
) -> Result<Vec<Lease>, AllocError>
    ensures { IfOk result (λ all. all.items ≡ with_end addr end leases.now) }
{
    let mut all = Vec::new(alloc);
    for lease in leases {
        all.push(lease_with_end(*lease, addr, end))?;
    }
    Ok(all)
}

/// The lease, with this expiry if it is of this address.
fn lease_with_end(lease: Lease, addr: u32, end: u64) -> Lease
    ensures { result ≡ moved addr end lease }
{
    if lease.addr == addr {
        Lease {
            addr,
            kind: lease.kind,
            end,
        }
    } else {
        lease
    }
}

/// Whether a change that moves or releases a lease has one; in the older form that isn't asked.
pub(crate) fn stands_in(form: Form, members: &IndexMap<Name, Group>, change: &Change) -> bool
    ensures { IsTrue result ↔ StandsIn form change.now (members_of members.now.entries) }
{
    match form {
        Form::Two => true,
        Form::Three => stands(members, change),
    }
}

/// Whether a change that moves or releases a lease has one.
fn stands(members: &IndexMap<Name, Group>, change: &Change) -> bool
    ensures { IsTrue result ↔ Stands change.now (members_of members.now.entries) }
{
    match change {
        Change::Moved { name, addr, .. } => has_lease(members, name, *addr),
        Change::Released { name, addr, .. } => has_lease(members, name, *addr),
        Change::Began { .. } | Change::Reached { .. } | Change::Looked { .. } => true,
    }
}

/// Whether an address has a lease of a name.
fn has_lease(members: &IndexMap<Name, Group>, name: &Name, addr: u32) -> bool
    ensures { IsTrue result ↔ Any (λ lease. lease.addr ≡ addr) (members_of members.now.entries name.now) }
{
    match members.get(name) {
        Some(group) => group.has(addr),
        None => false,
    }
}

/// Makes a change in the leases of each name.
pub(crate) fn apply(
    alloc: Global,
    members: &mut IndexMap<Name, Group>,
    change: Change,
) -> Result<(), AllocError>
    requires names { IsDistinct same_name (keys_of members.old.entries) }
    ensures members { OnOk result (members_of members.new.entries ≡ after change (members_of members.old.entries)) }
    ensures names { IsDistinct same_name (keys_of members.new.entries) }
{
    match change {
        Change::Began { name, lease, .. } => begin(alloc, members, name, lease),
        Change::Moved {
            name,
            addr,
            end,
            ..
        } => move_end(alloc, members, &name, addr, end),
        Change::Released { name, addr, .. } => {
            release(members, &name, addr);
            Ok(())
        }
        Change::Reached { .. } | Change::Looked { .. } => Ok(()),
    }
}

/// Makes a lease begin.
fn begin(
    alloc: Global,
    members: &mut IndexMap<Name, Group>,
    name: Name,
    lease: Lease,
) -> Result<(), AllocError>
    requires names { IsDistinct same_name (keys_of members.old.entries) }
    ensures members { OnOk result (members_of members.new.entries ≡ begins name lease (members_of members.old.entries)) }
    ensures names { IsDistinct same_name (keys_of members.new.entries) }
{
    match begin_in(members, &name, lease) {
        Some(done) => done,
        None => begin_first(alloc, members, name, lease),
    }
}

/// Makes a lease begin at a name that has some or had some; none if the name is new.
fn begin_in(
    members: &mut IndexMap<Name, Group>,
    name: &Name,
    lease: Lease,
) -> Option<Result<(), AllocError>>
    requires names { IsDistinct same_name (keys_of members.old.entries) }
    ensures members { IfSome result (λ done. OnOk done ((q : NameValue) → lookup (same_name q) members.new.entries ≡ (if same_name name.now q then Some (without lease.addr (members_of members.old.entries name.now) ++ lease ∷ []) else lookup (same_name q) members.old.entries))) }
    ensures new { IfNone result (lookup (same_name name.now) members.old.entries ≡ None) }
    ensures left { IfNone result (members.new.entries ≡ members.old.entries) }
    ensures names { IsDistinct same_name (keys_of members.new.entries) }
{
    let group = members.get_mut(name)?;
    Some(group.begin(lease))
}

/// Makes the first lease of a name begin.
fn begin_first(
    alloc: Global,
    members: &mut IndexMap<Name, Group>,
    name: Name,
    lease: Lease,
) -> Result<(), AllocError>
    requires new { lookup (same_name name) members.old.entries ≡ None }
    requires names { IsDistinct same_name (keys_of members.old.entries) }
    ensures members { OnOk result ((q : NameValue) → lookup (same_name q) members.new.entries ≡ (if same_name name q then Some (lease ∷ []) else lookup (same_name q) members.old.entries)) }
    ensures names { IsDistinct same_name (keys_of members.new.entries) }
{
    let mut group = Group::new(alloc);
    group.begin(lease)?;
    members.insert(name, group)?;
    Ok(())
}

/// Gives the lease of a name and an address another expiry, if there is one.
fn move_end(
    alloc: Global,
    members: &mut IndexMap<Name, Group>,
    name: &Name,
    addr: u32,
    end: u64,
) -> Result<(), AllocError>
    requires names { IsDistinct same_name (keys_of members.old.entries) }
    ensures members { OnOk result (members_of members.new.entries ≡ moves name.now addr end (members_of members.old.entries)) }
    ensures names { IsDistinct same_name (keys_of members.new.entries) }
{
    match move_in(alloc, members, name, addr, end) {
        Some(done) => done,
        None => Ok(()),
    }
}

/// The same at a name that has leases or had some; none if it is new.
fn move_in(
    alloc: Global,
    members: &mut IndexMap<Name, Group>,
    name: &Name,
    addr: u32,
    end: u64,
) -> Option<Result<(), AllocError>>
    requires names { IsDistinct same_name (keys_of members.old.entries) }
    ensures members { IfSome result (λ done. OnOk done ((q : NameValue) → lookup (same_name q) members.new.entries ≡ (if same_name name.now q then Some (with_end addr end (members_of members.old.entries name.now)) else lookup (same_name q) members.old.entries))) }
    ensures new { IfNone result (lookup (same_name name.now) members.old.entries ≡ None) }
    ensures left { IfNone result (members.new.entries ≡ members.old.entries) }
    ensures names { IsDistinct same_name (keys_of members.new.entries) }
{
    let group = members.get_mut(name)?;
    Some(group.set_end(alloc, addr, end))
}

/// Ends the lease of a name and an address, if there is one.
fn release(members: &mut IndexMap<Name, Group>, name: &Name, addr: u32)
    requires names { IsDistinct same_name (keys_of members.old.entries) }
    ensures members { members_of members.new.entries ≡ goes name.now addr (members_of members.old.entries) }
    ensures names { IsDistinct same_name (keys_of members.new.entries) }
{
    match release_in(members, name, addr) {
        Some(()) => {}
        None => {}
    }
}

/// The same at a name that has leases or had some; none if it is new.
fn release_in(members: &mut IndexMap<Name, Group>, name: &Name, addr: u32) -> Option<()>
    requires names { IsDistinct same_name (keys_of members.old.entries) }
    ensures members { IfSome result (λ done. (q : NameValue) → lookup (same_name q) members.new.entries ≡ (if same_name name.now q then Some (without addr (members_of members.old.entries name.now)) else lookup (same_name q) members.old.entries)) }
    ensures new { IfNone result (lookup (same_name name.now) members.old.entries ≡ None) }
    ensures left { IfNone result (members.new.entries ≡ members.old.entries) }
    ensures names { IsDistinct same_name (keys_of members.new.entries) }
{
    let group = members.get_mut(name)?;
    group.release(addr);
    Some(())
}

/// Lists each name with each of its leases.
pub(crate) fn list_rows(
    alloc: Global,
    members: &IndexMap<Name, Group>,
) -> Result<Vec<(Name, Lease)>, AllocError>
    ensures { IfOk result (λ rows. rows.items ≡ rows_of members.now.entries) }
{
    let mut rows = Vec::with_capacity(alloc, members.len())?;
    let mut rest = members.as_slice();
    'names: while let Some(((name, group), others)) = rest.split_first() {
        list_leases(name, group.as_slice(), &mut rows)?;
        rest = others;
    }
    Ok(rows)
}

/// Appends a name with each of these leases.
fn list_leases(
    name: &Name,
    leases: &[Lease],
    out: &mut Vec<(Name, Lease)>,
) -> Result<(), AllocError>
    ensures { OnOk result (out.new.items ≡ out.old.items ++ map (λ lease. (name.now, lease)) leases.now) }
{
    for lease in leases {
        out.push((name.copy(), *lease))?;
    }
    Ok(())
}
