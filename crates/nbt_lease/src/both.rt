//! A lease that begins, in the map of names and in the set of expiries, both at once.

ghost use Rattle.std.specs.Prelude.{◌≡◌, ◌+◌, None, Some, true, false, [], ◌∷◌, ◌++◌, length, if◌then◌else◌, IfSome, IfNone, OnOk, OnErr};
ghost use Rattle.std.specs.List.{IsDistinct};
ghost use Rattle.std.specs.Map.{lookup, keys_of};
ghost use Rattle.nbt_name.specs.Wire.{NameValue, same_name};
ghost use Rattle.nbt_lease.specs.declared.ends.Due.{Due};
ghost use Rattle.nbt_lease.specs.Lease.{HasNone};
ghost use Rattle.nbt_lease.specs.Inner.Index.{members_of, due, is_due, in_set, TakenFrom};

use crate::by_name::ByName;
use crate::ends::Ends;
use crate::lease::Lease;
use crate::named::Named;
use nbt_name::Name;
use std::alloc::{AllocError, Global};

/// Begins a lease, which goes last at its name. Memory is taken by the members' vector, then by the set for the new expiry,
/// then by the map for a new name. If out of memory, the members and the expiries are as before.
pub(crate) fn begin_in(
    members: &mut ByName,
    ends: &mut Ends,
    alloc: Global,
    name: &Name,
    lease: Lease,
) -> Result<(), AllocError>
    requires absent { in_set ends.old (due lease.end name.now lease.addr) ≡ false }
    requires distinct { IsDistinct is_due ends.old }
    ensures members { OnOk result ((q : NameValue) → lookup (same_name q) members.new.entries ≡ (if same_name name.now q then Some (members_of members.old.entries name.now ++ lease ∷ []) else lookup (same_name q) members.old.entries)) }
    ensures ends { OnOk result ((d : Due) → in_set ends.new d ≡ (if is_due (due lease.end name.now lease.addr) d then true else in_set ends.old d)) }
    ensures members_left { OnErr result ((q : NameValue) → lookup (same_name q) members.new.entries ≡ lookup (same_name q) members.old.entries) }
    ensures ends_left { OnErr result ((d : Due) → in_set ends.new d ≡ in_set ends.old d) }
    ensures count { OnOk result (length ends.new ≡ length ends.old + 1) }
    ensures count_left { OnErr result (length ends.new ≡ length ends.old) }
    ensures names { IsDistinct same_name (keys_of members.new.entries) }
    ensures distinct { IsDistinct is_due ends.new }
{
    let Some(named) = members.get_mut(name) else {
        return begin_first(members, ends, alloc, name, lease);
    };
    named.push(lease)?;
    if let Err(refused) = ends.insert(lease.end, name, lease.addr) {
        named.pop();
        return Err(refused);
    }
    Ok(())
}

/// Begins the first lease of a name.
fn begin_first(
    members: &mut ByName,
    ends: &mut Ends,
    alloc: Global,
    name: &Name,
    lease: Lease,
) -> Result<(), AllocError>
    requires new { lookup (same_name name.now) members.old.entries ≡ None }
    requires names { IsDistinct same_name (keys_of members.old.entries) }
    requires absent { in_set ends.old (due lease.end name.now lease.addr) ≡ false }
    requires distinct { IsDistinct is_due ends.old }
    ensures members { OnOk result ((q : NameValue) → lookup (same_name q) members.new.entries ≡ (if same_name name.now q then Some (lease ∷ []) else lookup (same_name q) members.old.entries)) }
    ensures ends { OnOk result ((d : Due) → in_set ends.new d ≡ (if is_due (due lease.end name.now lease.addr) d then true else in_set ends.old d)) }
    ensures members_left { OnErr result ((q : NameValue) → lookup (same_name q) members.new.entries ≡ lookup (same_name q) members.old.entries) }
    ensures ends_left { OnErr result ((d : Due) → in_set ends.new d ≡ in_set ends.old d) }
    ensures count { OnOk result (length ends.new ≡ length ends.old + 1) }
    ensures count_left { OnErr result (length ends.new ≡ length ends.old) }
    ensures names { IsDistinct same_name (keys_of members.new.entries) }
    ensures distinct { IsDistinct is_due ends.new }
{
    let mut named = Named::new(alloc);
    named.push(lease)?;
    ends.insert(lease.end, name, lease.addr)?;
    if let Err(refused) = members.insert(name.copy(), named) {
        ends.remove(lease.end, name, lease.addr);
        return Err(refused.into());
    }
    Ok(())
}

/// Removes the member of this address from its name, and the name from the map with its last member. Takes no memory.
pub(crate) fn take_out(members: &mut ByName, name: &Name, addr: u32) -> Option<Lease>
    requires names { IsDistinct same_name (keys_of members.old.entries) }
    ensures taken { IfSome result (λ lease. TakenFrom members.old.entries members.new.entries name.now addr lease) }
    ensures none { IfNone result (HasNone addr (members_of members.old.entries name.now)) }
    ensures left { IfNone result ((q : NameValue) → lookup (same_name q) members.new.entries ≡ lookup (same_name q) members.old.entries) }
    ensures names { IsDistinct same_name (keys_of members.new.entries) }
{
    let named = members.get_mut(name)?;
    let lease = named.take(addr)?;
    if !named.as_slice().is_empty() {
        return Some(lease);
    }
    members.swap_remove(name);
    Some(lease)
}
