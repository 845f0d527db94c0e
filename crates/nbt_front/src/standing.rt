//! Leases that stand in the way of fixed names.

ghost use Rattle.std.specs.Prelude.{◌≡◌, ◌↔◌, ◌++◌, ℕ, false, IsTrue, IfSome, IfNone, OnOk};
ghost use Rattle.nbt_name.specs.Wire.{NameValue};
ghost use Rattle.nbt_front.specs.Standing.{IsLeased, ReleasesOwn, is_taken, without};

use crate::fixed::are_group;
use nbt_lease::{Lease, Moment};
use nbt_name::{Addr, Kind, Name};
use nbt_packet::{Message, read};
use std::alloc::AllocError;

/// Leases that stand in the way of fixed names, and those that machines may have by what was fixed before, at a moment.
#[derive(Clone, Copy, Debug, Drop)]
pub struct Standing<'a> {
    /// The leases, whether they are over or not.
    pub rows: &'a [(Name, Lease)],
    /// Leases that machines may have of names that were fixed otherwise before, whether they are over or not.
    pub past: &'a [(Name, Lease)],
    /// The moment.
    pub at: Moment,
}

impl Standing<'_> {
    /// Whether one of them has this name, and isn't over.
    pub(crate) fn has(&self, name: &Name) -> bool
        ensures { IsTrue result ↔ IsLeased self.now.rows.now self.now.at name.now }
    {
        let now = self.at.get();
        self.rows
            .iter()
            .any(|row| row.0 == *name && now < row.1.end)
    }

    /// Whether neither a lease stands in the way of such a claim, nor a machine that may hold the name by what was fixed before.
    pub(crate) fn is_free(&self, name: &Name, kind: Kind, ip: u32) -> bool
        ensures { IsTrue result ↔ ((¬ IsLeased self.now.rows.now self.now.at name.now) × (is_taken self.now.past.now self.now.at name.now kind ip ≡ false)) }
    {
        !self.has(name) && !self.is_taken(name, kind, ip)
    }

    /// Whether a claim of a name from this address, as this kind, would make a second holder beside a machine that may hold it by what was
    /// fixed before.
    pub(crate) fn is_taken(&self, name: &Name, kind: Kind, ip: u32) -> bool
        ensures { result ≡ is_taken self.now.past.now self.now.at name.now kind ip }
    {
        let now = self.at.get();
        self.past.iter().any(|row| {
            row.0 == *name && now < row.1.end && !are_group(kind, row.1.kind) && ip != row.1.addr
        })
    }
}

/// Appends copies of these leases.
pub(crate) fn copy_rows(
    rows: &[(Name, Lease)],
    out: &mut Vec<(Name, Lease)>,
) -> Result<(), AllocError>
    ensures { OnOk result (out.new.items ≡ out.old.items ++ rows.now) }
{
    let mut rest = rows;
    'rows: while let Some(((name, lease), others)) = rest.split_first() {
        out.push((name.lend().to_name(), *lease))?;
        rest = others;
    }
    Ok(())
}

/// Takes out the leases of a name by this address.
pub(crate) fn take_out(rows: &mut Vec<(Name, Lease)>, name: &Name, addr: u32)
    ensures { rows.new.items ≡ without name.now addr rows.old.items }
{
    rows.retain(|row| !(row.0 == *name && row.1.addr == addr));
}

/// The name that octets release, where they are a release by the sender's own address.
pub(crate) fn name_released(ip: u32, octets: &[u8]) -> Option<Name>
    ensures found { IfSome result (ReleasesOwn ip octets.now) }
    ensures none { IfNone result ((name : NameValue) → ¬ ReleasesOwn ip octets.now name) }
{
    match read(octets)? {
        Message::Release { name, addr, .. } if addr == ip => Some(name.to_name()),
        _ => None,
    }
}
