//! A name that is lent (RFC 1002 section 4.1).

ghost use Rattle.std.specs.Prelude.{◌≡◌, ◌≢◌, ℕ, List, ◌+◌, ◌*◌, ◌++◌, ◌<◌, ◌≤◌, ◌↔◌, Ok, Err, IsOk, IfOk, IfErr, IsErrOf, IsTrue, length};
ghost use Rattle.nbt_name.specs.declared.fault.NameFault.{NameFault};
ghost use Rattle.nbt_name.specs.Reading.{steps_on, Stands, Fails, NameAt, FaultAt, PlainNameAt, PlainFaultAt};
ghost use Rattle.nbt_name.specs.Scope.{IsScope};
ghost use Rattle.nbt_name.specs.Wire.{NameValue, IsName, IsStar, name_of, wire};

use crate::fault::{NameFault, NameRefusal};
use crate::form::Form;
use crate::labels::Labels;
use crate::name::{Name, is_scope, put_form};
use crate::reader::Reader;
use crate::reading::pass;
use crate::steps::Steps;
use crate::wire::{SCOPE_MOST, WIRE_WITHOUT_SCOPE};
use arrayvec::ArrayVec;
use std::marker::{Brand, Model};
use std::sync::ledger::{Blank, Ledger};

/// A name that is lent: one that somebody holds, or one as it stands in octets. It is small, where a `Name` has room for a scope
/// of 221 octets: what passes names on passes this, and makes a `Name` of it where it keeps one.
#[derive(Debug, Drop)]
pub struct LentName<'a> {
    octets: [u8; 16],
    scope: Labels<'a>,
}

impl<'a> Model for LentName<'a> {
    ghost use Rattle.nbt_name.specs.Wire.{NameValue, IsName, name_of};

    ghost Value = { NameValue };

    ghost view = { λ n. name_of n.octets n.scope };

    ghost invariant = { λ n. IsName (name_of n.octets n.scope) };
}

impl<'a> LentName<'a> {
    /// The name of sixteen octets and a scope, given as its labels, each after its length octet, without the closing zero. It
    /// may begin with 0x2A. Refused as by `Name::any`: `ScopeLong` (2) if the scope has more than 221 octets; `BadLabel` (3) if
    /// it is no sequence of labels of 1 to 63 octets.
    pub fn new(octets: &[u8; 16], scope: &'a [u8]) -> Result<LentName<'a>, NameRefusal>
        ensures found { IsOk result ↔ ((length scope.now ≤ 221) × IsScope scope.now) }
        ensures name { IfOk result (λ name. name ≡ name_of octets.now scope.now) }
        ensures long { IsErrOf result NameRefusal.ScopeLong ↔ (221 < length scope.now) }
        ensures bad { IsErrOf result NameRefusal.BadLabel ↔ ((length scope.now ≤ 221) × (¬ IsScope scope.now)) }
        ensures not_star { result ≢ Err NameRefusal.Star }
    {
        if scope.len() > SCOPE_MOST {
            return Err(NameRefusal::ScopeLong);
        }
        if !is_scope(scope) {
            return Err(NameRefusal::BadLabel);
        }
        Ok(LentName {
            octets: *octets,
            scope: Labels::of_scope(scope),
        })
    }

    /// The sixteen octets.
    pub fn octets(&self) -> &[u8; 16]
        ensures value { result.now ≡ self.now.octets }
        ensures name { IsName self.now }
    {
        &self.octets
    }

    /// Whether the first octet is `*` (0x2A).
    pub fn is_star(&self) -> bool
        ensures { IsTrue result ↔ IsStar self.now }
    {
        self.octets[0] == Name::STAR
    }

    /// Whether its scope is that of another name.
    pub fn has_scope_of(&self, name: &Name) -> bool
        ensures { IsTrue result ↔ (self.now.scope ≡ name.now.scope) }
    {
        self.scope.copy().are(name.lend().scope)
    }

    /// The same name, lent once more.
    pub fn copy(&self) -> LentName<'a>
        ensures { result ≡ self.now }
    {
        LentName {
            octets: self.octets,
            scope: self.scope.copy(),
        }
    }

    /// An equal name that borrows nothing. It stands apart for its room on the stack, which a caller takes once.
    #[inline(never)]
    pub fn to_name(&self) -> Name
        ensures { result ≡ self.now }
    {
        let mut name = Name::blank();
        name.set(self);
        name
    }

    /// Whether it is the same name as another one.
    pub fn is_same(&self, other: &LentName<'_>) -> bool
        ensures { IsTrue result ↔ (self.now ≡ other.now) }
    {
        self.octets == other.octets && self.scope.copy().are(other.scope.copy())
    }

    /// Whether it is this name.
    pub fn is(&self, name: &Name) -> bool
        ensures { IsTrue result ↔ (self.now ≡ name.now) }
    {
        self.is_same(&name.lend())
    }

    /// How many octets the wire form has: 34 to 255 (RFC 1002 section 4.1).
    pub fn wire_len(&self) -> usize
        ensures value { result ≡ length (wire self.now) }
        ensures bounds { (34 ≤ result) × (result ≤ 255) }
        ensures name { IsName self.now }
    {
        WIRE_WITHOUT_SCOPE + self.scope.copy().len()
    }

    /// Appends the wire form, 34 to 255 octets. The caller must ensure that 255 fit (RFC 1001 section 14, RFC 1002 section
    /// 4.1).
    pub fn put_wire<const CAP: usize>(&self, out: &mut ArrayVec<u8, CAP>)
        requires { length out.old.items + 255 ≤ CAP }
        ensures form { out.new.items ≡ out.old.items ++ wire self.now }
        ensures fits { length (wire self.now) ≤ 255 }
        ensures name { IsName self.now }
    {
        put_form(&self.octets, self.scope.copy(), out);
    }
}

impl Name {
    /// The name, lent.
    pub fn lend(&self) -> LentName<'_>
        ensures { result ≡ self.now }
    {
        LentName {
            octets: *self.octets(),
            scope: Labels::of_scope(self.scope()),
        }
    }

    /// Becomes an equal name to one that is lent, where it stands: no other name is made.
    #[inline(never)]
    pub fn set(&mut self, name: &LentName<'_>)
        ensures { self.new ≡ name.now }
    {
        self.become_name(&name.octets, name.scope.copy());
    }
}

/// Finds the plain name at `place`, as `read_plain` reads it, and returns it with the place after it. The fault is the same one.
/// The caller must ensure that `place` is at most the length.
pub fn find_plain(octets: &[u8], place: usize) -> Result<(LentName<'_>, usize), NameFault>
    requires { place ≤ length octets.now }
    ensures name { (name : NameValue) (next : ℕ) → (result ≡ Ok (name, next)) ↔ PlainNameAt octets.now place name next }
    ensures fault { (fault : NameFault) → (result ≡ Err fault) ↔ PlainFaultAt octets.now place fault }
    ensures within { IfOk result (λ read. read.1 ≤ length octets.now) }
{
    find_uncounted::<Brand>(Form::Plain, octets, place, Blank::new(1))
}

/// Finds the name at `place`, following pointers, as `read_in` reads it, and returns it with the place after it. The fault is
/// the same one. The caller must ensure that `place` is at most the length.
pub fn find_in(octets: &[u8], place: usize) -> Result<(LentName<'_>, usize), NameFault>
    requires { place ≤ length octets.now }
    ensures name { (name : NameValue) (next : ℕ) → (result ≡ Ok (name, next)) ↔ NameAt octets.now place name next }
    ensures fault { (fault : NameFault) → (result ≡ Err fault) ↔ FaultAt octets.now place fault }
    ensures within { IfOk result (λ read. read.1 ≤ length octets.now) }
{
    find_uncounted::<Brand>(Form::Compressed, octets, place, Blank::new(1))
}

/// Finds a name in one of the two forms, without counting the steps.
fn find_uncounted<L: Ledger>(
    form: Form,
    octets: &[u8],
    place: usize,
    blank: Blank,
) -> Result<(LentName<'_>, usize), NameFault>
    requires place { place ≤ length octets.now }
    requires name { blank.name ≡ L.name }
    requires parts { blank.parts ≡ L.parts }
    requires part_count { 0 < blank.parts }
    ensures name { IfOk result (λ read. Stands form octets.now place read.0 read.1) }
    ensures fault { IfErr result (Fails form octets.now place) }
{
    let mut steps = Steps::<L>::new(blank);
    find(form, octets, place, &mut steps)
}

/// Finds a name in one of the two forms: what is found stands there.
pub(crate) fn find<'a, L: Ledger>(
    form: Form,
    octets: &'a [u8],
    place: usize,
    steps: &mut Steps<L>,
) -> Result<(LentName<'a>, usize), NameFault>
    requires { place ≤ length octets.now }
    ensures name { IfOk result (λ read. Stands form octets.now place read.0 read.1) }
    ensures fault { IfErr result (Fails form octets.now place) }
    ensures steps { IfOk result (λ read. (stands : Stands form octets.now place read.0 read.1) → steps.new ≡ steps.old + steps_on stands.path + 1) }
    ensures refused { IfErr result (λ fault. (fails : Fails form octets.now place fault) → steps.new ≡ steps.old + steps_on fails.path) }
    ensures step_count { steps.new ≤ steps.old + 112 * (length octets.now + 1) }
{
    let mut reader = Reader::new(place);
    let (sixteen, next) = pass(&mut reader, form, octets, place, steps)?;
    let name = placed(form, octets, place, sixteen, reader.scope, next);
    Ok((name, next))
}

/// The name that stands at this place, of these sixteen octets and a scope of so many octets, as it is lent.
fn placed<'a>(
    form: Form,
    octets: &'a [u8],
    place: usize,
    sixteen: [u8; 16],
    scope: usize,
    next: usize,
) -> LentName<'a>
    requires within { place ≤ length octets.now }
    requires stands { (labels : List ℕ) × (length labels ≡ scope) × Stands form octets.now place (name_of sixteen labels) next }
    ensures { Stands form octets.now place result next }
{
    if scope == 0 {
        return LentName {
            octets: sixteen,
            scope: Labels::none(),
        };
    }
    let mut labels = Labels::at(octets, place);
    labels.next();
    LentName {
        octets: sixteen,
        scope: labels,
    }
}
