//! The names that are fixed.

ghost use Rattle.std.specs.Prelude.{◌≡◌, ◌↔◌, ◌<◌, ◌++◌, Some, None, [], IsTrue, IfSome, IfNone, OnOk, IfOk, IfErr, length};
ghost use Rattle.nbt_front.specs.FixedNames.{capitals_of, fixed_of};
ghost use Rattle.nbt_front.specs.Files.{Adds, IsBarred, IsRefusedBy, Joins};
ghost use Rattle.nbt_front.specs.Numbers.{names_most};
ghost use Rattle.std.specs.List.{flat_map};
ghost use Rattle.nbt_front.specs.Standing.{in_the_way, is_in_the_way, is_left, leases_of, left_of};

use crate::fault::{LineFault, Refused};
use crate::fixed::Fixed;
use crate::line::FixedLine;
use indexmap::IndexMap;
use nbt_lease::{Lease, Moment};
use nbt_log::FixedCapitals;
use nbt_name::Name;
use std::alloc::{AllocError, Global};
use std::marker::Model;

/// How many names may be fixed (our profile).
pub const NAMES_MOST: usize = 65_536;

/// The names that are fixed, each with its kind and its addresses. One is found by one look-up.
#[derive(Drop)]
pub struct FixedNames {
    names: IndexMap<Name, Fixed>,
}

impl Model for FixedNames {
    ghost use Rattle.nbt_front.specs.FixedNames.{FixedNames as FixedNamesValue};

    ghost Value = { FixedNamesValue };

    ghost view = { λ f. f.names.entries };
}

impl FixedNames {
    /// No name is fixed. Takes no memory.
    pub fn none(alloc: Global) -> FixedNames
        ensures { result ≡ [] }
    {
        FixedNames {
            names: IndexMap::new(alloc),
        }
    }

    /// How many names there are.
    pub fn len(&self) -> usize
        ensures { result ≡ length self.now }
    {
        self.names.len()
    }

    /// Whether no name is fixed.
    pub fn is_empty(&self) -> bool
        ensures { IsTrue result ↔ (self.now ≡ []) }
    {
        self.names.is_empty()
    }

    /// The same names once more, in the same order.
    pub(crate) fn copied(&self, alloc: Global) -> Result<FixedNames, AllocError> {
        let mut copied = FixedNames::none(alloc);
        for (name, fixed) in &self.names {
            copied.names.insert(name.copy(), fixed.copied())?;
        }
        Ok(copied)
    }

    /// Each name with what is fixed of it, in the order of their first lines.
    pub(crate) fn entries(&self) -> &IndexMap<Name, Fixed> {
        &self.names
    }

    /// What is fixed of a name, if it is among them.
    pub fn get(&self, name: &Name) -> Option<&Fixed>
        ensures found { IfSome result (λ fixed. fixed_of self.now name.now ≡ Some fixed.now) }
        ensures none { IfNone result (fixed_of self.now name.now ≡ None) }
    {
        self.names.get(name)
    }

    /// The octets of each name in capitals, in their order: a resolver is told no host that reads like one of them.
    pub fn capitals(&self, alloc: Global) -> Result<FixedCapitals, AllocError>
        ensures { IfOk result (λ capitals. capitals ≡ capitals_of self.now) }
    {
        capitals_in(alloc, &self.names)
    }

    /// Leaves of these leases those that stand in the way of one of the names.
    pub fn retain_in_the_way(&self, rows: &mut Vec<(Name, Lease)>)
        ensures { rows.new.items ≡ in_the_way self.now rows.old.items }
    {
        rows.retain(|row| self.is_barred_by(&row.0, &row.1));
    }

    /// Leaves of these leases, which machines may have by what was fixed before, those that aren't over at a moment, and whose names another
    /// machine could get.
    pub(crate) fn retain_left(&self, at: Moment, rows: &mut Vec<(Name, Lease)>)
        ensures { rows.new.items ≡ left_of self.now at rows.old.items }
    {
        let now = at.get();
        rows.retain(|row| now < row.1.end && self.leaves(&row.0, &row.1));
    }

    /// Whether another machine could get the name of such a lease.
    fn leaves(&self, name: &Name, lease: &Lease) -> bool
        ensures { result ≡ is_left (fixed_of self.now name.now) lease.now }
    {
        match self.get(name) {
            Some(fixed) => fixed.is_barred_by(lease),
            None => true,
        }
    }

    /// Appends the leases that machines may have by what is fixed of the names, which end then.
    pub(crate) fn list_leases(
        &self,
        end: u64,
        rows: &mut Vec<(Name, Lease)>,
    ) -> Result<(), AllocError>
        ensures { OnOk result (rows.new.items ≡ rows.old.items ++ flat_map (leases_of end) self.now) }
    {
        list_leases_of(&self.names, end, rows)
    }

    /// Whether a lease of this name stands in its way.
    fn is_barred_by(&self, name: &Name, lease: &Lease) -> bool
        ensures { result ≡ is_in_the_way (fixed_of self.now name.now) lease.now }
    {
        match self.get(name) {
            Some(fixed) => fixed.is_barred_by(lease),
            None => false,
        }
    }

    /// Adds what a line says.
    pub(crate) fn add(&mut self, line: FixedLine) -> Result<(), Refused>
        ensures ok { OnOk result (Adds self.old line self.new) }
        ensures err { IfErr result (IsRefusedBy (IsBarred (length self.old) (fixed_of self.old line.name) line)) }
    {
        let fixed = match self.joined(&line) {
            Ok(fixed) => fixed,
            Err(fault) => return Err(Refused::Line(fault)),
        };
        self.names.insert(line.name, fixed)?;
        Ok(())
    }

    /// What a line makes of its name.
    fn joined(&self, line: &FixedLine) -> Result<Fixed, LineFault>
        ensures ok { IfOk result (Joins (fixed_of self.now line.now.name) line.now) }
        ensures room { OnOk result (fixed_of self.now line.now.name ≡ None → length self.now < names_most) }
        ensures err { IfErr result (IsBarred (length self.now) (fixed_of self.now line.now.name) line.now) }
    {
        match self.get(&line.name) {
            Some(fixed) => fixed.with(line),
            None => {
                if self.len() >= NAMES_MOST {
                    return Err(LineFault::Full);
                }
                Ok(Fixed::first(line))
            }
        }
    }
}

/// The octets of each name in capitals.
fn capitals_in(alloc: Global, names: &IndexMap<Name, Fixed>) -> Result<FixedCapitals, AllocError>
    ensures { IfOk result (λ capitals. capitals ≡ capitals_of names.now.entries) }
{
    let mut capitals = FixedCapitals::none(alloc);
    let mut rest = names.as_slice();
    'names: while let Some(((name, _), others)) = rest.split_first() {
        capitals.add(name.octets())?;
        rest = others;
    }
    Ok(capitals)
}

/// Appends the leases that machines may have by what is fixed of each name, which end then.
fn list_leases_of(
    names: &IndexMap<Name, Fixed>,
    end: u64,
    rows: &mut Vec<(Name, Lease)>,
) -> Result<(), AllocError>
    ensures { OnOk result (rows.new.items ≡ rows.old.items ++ flat_map (leases_of end) names.now.entries) }
{
    let mut rest = names.as_slice();
    'names: while let Some(((name, fixed), others)) = rest.split_first() {
        fixed.list_leases(name, end, rows)?;
        rest = others;
    }
    Ok(())
}
