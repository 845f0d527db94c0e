//! Which live names read alike, where small letters and capitals are one.

ghost use Rattle.std.specs.Prelude.{◌≡◌, ◌↔◌, ℕ, List, [], ◌∷◌, ◌++◌, IsTrue, IfOk, OnOk, Contains};
ghost use Rattle.nbt_log.specs.Hosts.{in_capitals};
ghost use Rattle.nbt_lease.specs.Lease.{Rows};
ghost use Rattle.nbt_log.specs.Inner.Casing.{IsClearIn, IsOnly, KnowsAll, Notes, noted, spelled};

use indexmap::IndexMap;
use nbt_lease::{Lease, Moment};
use nbt_name::Name;
use std::alloc::{AllocError, Global};
use std::marker::Model;

/// Names that are fixed, by their octets in capitals: a resolver is told no host that reads like one of them.
#[derive(Drop)]
pub struct FixedCapitals {
    names: Vec<[u8; 16]>,
}

impl Model for FixedCapitals {
    ghost Value = { List (List ℕ) };

    ghost view = { λ f. f.names.items };
}

impl FixedCapitals {
    /// No name is fixed. Takes no memory.
    pub fn none(alloc: Global) -> FixedCapitals
        ensures { result ≡ [] }
    {
        FixedCapitals {
            names: Vec::new(alloc),
        }
    }

    /// Adds a name. If out of memory, the names are as before.
    pub fn add(&mut self, octets: &[u8; 16]) -> Result<(), AllocError>
        ensures { OnOk result (self.new ≡ self.old ++ in_capitals octets.now ∷ []) }
    {
        self.names.push(in_capitals(octets))?;
        Ok(())
    }

    /// The same names.
    pub(crate) fn copy(&self) -> Result<FixedCapitals, AllocError>
        ensures { IfOk result (λ names. names ≡ self.now) }
    {
        let names = self.names.clone()?;
        Ok(FixedCapitals { names })
    }

    /// Whether a name has these octets in capitals.
    fn has(&self, capitals: &[u8; 16]) -> bool
        ensures { IsTrue result ↔ Contains self.now capitals.now }
    {
        self.names.as_slice().contains(capitals)
    }
}

/// How the live names that read alike are spelled.
#[derive(Clone, Copy, Debug, PartialEq, Eq, Drop)]
pub(crate) enum Spelling {
    /// All have these octets.
    One([u8; 16]),
    /// Two of them differ.
    Several,
}

/// The live names of rows by their octets in capitals, each with how they are spelled.
#[derive(Drop)]
pub(crate) struct Cases {
    spellings: IndexMap<[u8; 16], Spelling>,
}

impl Model for Cases {
    ghost use Rattle.nbt_log.specs.Inner.Casing.{Cases as CasesValue};

    ghost Value = { CasesValue };

    ghost view = { λ c. c.spellings.entries };
}

impl Cases {
    /// No names.
    pub(crate) fn new(alloc: Global) -> Cases
        ensures { (now : ℕ) → KnowsAll now [] result }
    {
        Cases {
            spellings: IndexMap::new(alloc),
        }
    }

    /// Notes the names of these rows whose leases live, behind others.
    pub(crate) fn note_rows(
        &mut self,
        now: Moment,
        rows: &[(Name, Lease)],
    ) -> Result<(), AllocError>
        ensures { OnOk result ((before : Rows) → KnowsAll now before self.old → KnowsAll now (before ++ rows.now) self.new) }
    {
        let mut rest = rows;
        'rows: while let Some((row, others)) = rest.split_first() {
            self.note_row(now, row)?;
            rest = others;
        }
        Ok(())
    }

    /// Notes the name of one more row, if its lease lives.
    fn note_row(&mut self, now: Moment, row: &(Name, Lease)) -> Result<(), AllocError>
        ensures { OnOk result ((rows : Rows) → KnowsAll now rows self.old → KnowsAll now (rows ++ row.now ∷ []) self.new) }
    {
        if now.get() < row.1.end {
            self.note(row.0.octets())
        } else {
            Ok(())
        }
    }

    /// Notes a live name of these octets.
    fn note(&mut self, octets: &[u8; 16]) -> Result<(), AllocError>
        ensures { OnOk result (Notes octets.now self.old self.new) }
    {
        let capitals = in_capitals(octets);
        let spelling = noted(self.spelled(&capitals), octets);
        self.spellings.insert(capitals, spelling)?;
        Ok(())
    }

    /// How the live names that read so are spelled, if there are any.
    fn spelled(&self, capitals: &[u8; 16]) -> Option<Spelling>
        ensures { result ≡ spelled self.now capitals.now }
    {
        self.spellings.get(capitals).copied()
    }

    /// Whether all live names that read so have these octets.
    fn are_only(&self, capitals: &[u8; 16], octets: &[u8; 16]) -> bool
        ensures { IsTrue result ↔ IsOnly (spelled self.now capitals.now) octets.now }
    {
        match self.spelled(capitals) {
            Some(Spelling::One(one)) => one == *octets,
            Some(Spelling::Several) => false,
            None => true,
        }
    }
}

/// Whether a resolver may be told a host whose name has these octets, beside these names that are fixed and these that live.
pub(crate) fn may_tell(fixed: &FixedCapitals, cases: &Cases, octets: &[u8; 16]) -> bool
    ensures { IsTrue result ↔ IsClearIn fixed.now cases.now octets.now }
{
    let capitals = in_capitals(octets);
    !fixed.has(&capitals) && (capitals == *octets || cases.are_only(&capitals, octets))
}

/// What one more name of these octets makes of how those that read so are spelled.
fn noted(known: Option<Spelling>, octets: &[u8; 16]) -> Spelling
    ensures { result ≡ noted known octets.now }
{
    match known {
        None => Spelling::One(*octets),
        Some(Spelling::One(one)) => {
            if one == *octets {
                Spelling::One(one)
            } else {
                Spelling::Several
            }
        }
        Some(Spelling::Several) => Spelling::Several,
    }
}

/// The octets, with their small letters as capitals.
fn in_capitals(octets: &[u8; 16]) -> [u8; 16]
    ensures { result ≡ in_capitals octets.now }
{
    let mut capitals = *octets;
    capitals[..].make_ascii_uppercase();
    capitals
}
