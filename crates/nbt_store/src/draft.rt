//! A new file of a store, whose lines are written a part at a time.

ghost use Rattle.std.specs.Prelude.{◌≡◌, ◌≤◌, ◌+◌, ◌-◌, ◌^◌, ◌++◌, ◌∷◌, ◌↔◌, [], ℕ, List, IsTrue, IfOk, OnOk, length, min};
ghost use Rattle.std.specs.String.{string_bytes};
ghost use Rattle.nbt_store.specs.declared.change.Change.{Change as ChangeValue};

use crate::change::Change;
use crate::header::Header;
use crate::writing::{write_change, write_front};
use std::alloc::{AllocError, Global};
use std::collections::VecDeque;

/// So many lines are written at once, at most (our profile).
pub(crate) const PART: usize = 256;

/// A new file that isn't whole yet.
#[derive(Drop)]
pub(crate) struct Draft {
    /// With how many leases it began.
    leases: usize,
    /// How many lines it is to have by now.
    lines: usize,
    /// The changes whose lines aren't written yet.
    left: VecDeque<Change>,
    /// The checksum of the last line that is.
    sum: u32,
}

impl Draft {
    ghost use Rattle.nbt_store.specs.DiskStores.{AreNewLines, IsNewFront, beside_of, with_line_of, part_most};
    ghost use Rattle.std.specs.Prelude.{Some};

    /// One that begins with these changes. Appends the first two lines. If out of memory, only a part may be appended.
    pub fn begin(
        alloc: Global,
        header: &Header,
        changes: VecDeque<Change>,
        out: &mut String,
    ) -> Result<Draft, AllocError>
        requires { string_bytes out.old ≡ [] }
        ensures front { IfOk result (λ draft. IsNewFront (string_bytes out.new) header.now (length changes.items) (beside_of draft).sum) }
        ensures begun { IfOk result (λ draft. beside_of draft ≡ record { leases = length changes.items; lines = length changes.items; left = changes.items; sum = (beside_of draft).sum }) }
    {
        let leases = changes.len();
        let sum = write_front(alloc, header, leases as u64, out)?;
        Ok(Draft {
            leases,
            lines: leases,
            left: changes,
            sum,
        })
    }

    /// A change more is to be written. If out of memory, it isn't.
    pub fn add(&mut self, change: &Change) -> Result<(), AllocError>
        ensures { OnOk result (Some (beside_of self.new) ≡ with_line_of change.now (Some (beside_of self.old))) }
    {
        self.left.push_back(change.copy())?;
        self.lines = self.lines.saturating_add(1);
        Ok(())
    }

    /// Appends the lines of the next changes, so many as are written at once at most. If out of memory, only some may be appended.
    pub fn write_part(&mut self, alloc: Global, out: &mut String) -> Result<(), AllocError>
        requires { string_bytes out.old ≡ [] }
        ensures written { OnOk result ((part : List ChangeValue) × ((beside_of self.old).left ≡ part ++ (beside_of self.new).left) × (length part ≤ part_most) × AreNewLines (beside_of self.old).sum (string_bytes out.new) part (beside_of self.new).sum) }
        ensures leases { (beside_of self.new).leases ≡ (beside_of self.old).leases }
        ensures lines { (beside_of self.new).lines ≡ (beside_of self.old).lines }
    {
        for _ in 0..PART {
            let Some(change) = self.left.pop_front() else {
                return Ok(());
            };
            self.sum = write_change(alloc, self.sum, &change, out)?;
        }
        Ok(())
    }

    /// Whether the lines of all changes are written.
    pub fn is_whole(&self) -> bool
        ensures { IsTrue result ↔ ((beside_of self.now).left ≡ []) }
    {
        self.left.is_empty()
    }

    /// With how many leases it began.
    pub fn leases(&self) -> usize
        ensures { result ≡ (beside_of self.now).leases }
    {
        self.leases
    }

    /// How many lines it is to have by now.
    pub fn lines(&self) -> usize
        ensures { result ≡ (beside_of self.now).lines }
    {
        self.lines
    }

    /// The checksum of its last line that is written.
    pub fn sum(&self) -> u32
        ensures { result ≡ (beside_of self.now).sum }
    {
        self.sum
    }
}
