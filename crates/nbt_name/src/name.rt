//! A NetBIOS name: sixteen octets and a scope.

ghost use Rattle.std.specs.Prelude.{◌≡◌, ◌≢◌, ◌+◌, ◌<◌, ◌≤◌, ◌↔◌, List, [], ◌∷◌, ◌++◌, length, slice_index, replicate, IsTrue, IsOk, IfOk, IsErrOf};
ghost use Rattle.nbt_name.specs.Scope.{IsScope};
ghost use Rattle.nbt_name.specs.Wire.{IsName, IsStar, letters, name_of, wire};

use crate::fault::NameRefusal;
use crate::labels::Labels;
use crate::lent::LentName;
use crate::wire::{LABEL_MOST, LETTERS, LETTERS_COUNT, WIRE_WITHOUT_SCOPE};
use arrayvec::ArrayVec;
use std::marker::Model;

/// A NetBIOS name (RFC 1001 section 14): sixteen octets, the last of them mostly a service's number, and a scope of
/// at most 221 octets. Two names are equal if their octets are, and their scopes' octets; the order is that of the
/// sixteen octets, then of the scope's.
#[derive(Debug, PartialEq, Eq, PartialOrd, Ord, Hash, Drop)]
pub struct Name {
    octets: [u8; 16],
    scope: ArrayVec<u8, 221>,
}

impl Model for Name {
    ghost use Rattle.nbt_name.specs.Wire.{NameValue, IsName};

    ghost Value = { NameValue };

    ghost view = { λ n. record { octets = n.octets; scope = n.scope.items } };

    ghost invariant = { λ n. IsName (record { octets = n.octets; scope = n.scope.items }) };

    ghost inverse = { λ v. record { octets = v.octets; scope = record { items = v.scope } } };
}

impl Name {
    /// The first octet of the name that stands for all names, `*` (RFC 1002 section 4.2.17).
    pub(crate) const STAR: u8 = 0x2A;

    /// The name of sixteen octets and a scope, given as its labels, each after its length octet, without the closing
    /// zero. Refused in this order: `Star` (1) if the first octet is 0x2A; `ScopeLong` (2) if the scope has more than 221
    /// octets; `BadLabel` (3) if it is no sequence of labels of 1 to 63 octets. Our profile's order; RFC 1002 section 4.1.
    pub fn new(octets: &[u8; 16], scope: &[u8]) -> Result<Name, NameRefusal>
        ensures found { IsOk result
            ↔ ((slice_index octets.now 0 ≢ 0x2A) × (length scope.now ≤ 221) × IsScope scope.now) }
        ensures name { IfOk result (λ name. name ≡ name_of octets.now scope.now) }

        // Which refusal it is.
        ensures star { IsErrOf result NameRefusal.Star ↔ (slice_index octets.now 0 ≡ 0x2A) }
        ensures long { IsErrOf result NameRefusal.ScopeLong
            ↔ ((slice_index octets.now 0 ≢ 0x2A) × (221 < length scope.now)) }
        ensures bad { IsErrOf result NameRefusal.BadLabel
            ↔ ((slice_index octets.now 0 ≢ 0x2A) × (length scope.now ≤ 221) × (¬ IsScope scope.now)) }
    {
        if octets[0] == Name::STAR {
            return Err(NameRefusal::Star);
        }
        Ok(LentName::new(octets, scope)?.to_name())
    }

    /// The name that stands for all names of a scope: 0x2A and fifteen zero octets (RFC 1002 section 4.2.17). Refused
    /// as by `new`, with `ScopeLong` (2) and `BadLabel` (3).
    pub fn any(scope: &[u8]) -> Result<Name, NameRefusal>
        ensures found { IsOk result ↔ ((length scope.now ≤ 221) × IsScope scope.now) }
        ensures name { IfOk result (λ name. name ≡ name_of (0x2A ∷ replicate 15 0) scope.now) }
        ensures long { IsErrOf result NameRefusal.ScopeLong ↔ (221 < length scope.now) }
        ensures bad { IsErrOf result NameRefusal.BadLabel ↔ ((length scope.now ≤ 221) × (¬ IsScope scope.now)) }
    {
        let mut octets = [0; 16];
        octets[0] = Name::STAR;
        Ok(LentName::new(&octets, scope)?.to_name())
    }

    /// Room for a name that is set: sixteen zero octets, without a scope.
    pub fn blank() -> Name
        ensures { result ≡ name_of (replicate 16 0) [] }
    {
        Name::without_scope(&[0; 16])
    }

    /// The name of sixteen octets without a scope, also one that begins with 0x2A.
    fn without_scope(octets: &[u8; 16]) -> Name
        ensures { result ≡ name_of octets.now [] }
    {
        Name {
            octets: *octets,
            scope: ArrayVec::new(),
        }
    }

    /// Becomes the name of sixteen octets and a scope, also one that begins with 0x2A.
    pub(crate) fn become_name(&mut self, octets: &[u8; 16], scope: Labels<'_>)
        requires { IsName (name_of octets.now scope) }
        ensures { self.new ≡ name_of octets.now scope.entry }
    {
        self.octets = *octets;
        self.scope.clear();
        scope.put(&mut self.scope);
    }

    /// The sixteen octets.
    pub fn octets(&self) -> &[u8; 16]
        ensures value { result.now ≡ self.now.octets }
        ensures name { IsName self.now }
    {
        &self.octets
    }

    /// The scope: its labels, each after its length octet, without the closing zero; at most 221 octets.
    pub fn scope(&self) -> &[u8]
        ensures value { result.now ≡ self.now.scope }
        ensures name { IsName self.now }
    {
        self.scope.as_slice()
    }

    /// Whether the first octet is `*` (0x2A).
    pub fn is_star(&self) -> bool
        ensures { IsTrue result ↔ IsStar self.now }
    {
        self.octets[0] == Name::STAR
    }

    /// An equal name.
    pub fn copy(&self) -> Name
        ensures { result ≡ self.now }
    {
        Name {
            octets: self.octets,
            scope: scope_of(self.scope.as_slice()),
        }
    }

    /// How many octets the wire form has: 34 to 255 (RFC 1002 section 4.1).
    pub fn wire_len(&self) -> usize
        ensures value { result ≡ length (wire self.now) }
        ensures bounds { (34 ≤ result) × (result ≤ 255) }
        ensures name { IsName self.now }
    {
        WIRE_WITHOUT_SCOPE + self.scope.len()
    }

    /// Leaves in `out` the wire form and nothing else: 34 to 255 octets (RFC 1001 section 14, RFC 1002 section 4.1).
    pub fn to_wire(&self, out: &mut ArrayVec<u8, 255>)
        ensures form { out.new.items ≡ wire self.now }
        ensures name { IsName self.now }
    {
        out.clear();
        self.put_wire(out);
    }

    /// Appends the wire form, 34 to 255 octets. The caller must ensure that 255 fit (RFC 1001 section 14, RFC 1002 section
    /// 4.1).
    pub fn put_wire<const CAP: usize>(&self, out: &mut ArrayVec<u8, CAP>)
        requires { length out.old.items + 255 ≤ CAP }
        ensures form { out.new.items ≡ out.old.items ++ wire self.now }
        ensures fits { length (wire self.now) ≤ 255 }
        ensures name { IsName self.now }
    {
        self.lend().put_wire(out);
    }
}

/// Appends the wire form of a name of sixteen octets and a scope.
pub(crate) fn put_form<const CAP: usize>(
    octets: &[u8; 16],
    scope: Labels<'_>,
    out: &mut ArrayVec<u8, CAP>,
)
    requires name { IsName (name_of octets.now scope) }
    requires room { length out.old.items + 255 ≤ CAP }
    ensures { out.new.items ≡ out.old.items ++ wire (name_of octets.now scope.entry) }
{
    out.push(LETTERS);
    out.try_extend_from_slice(&letters_of(octets)).unwrap();
    scope.put(out);
    out.push(0);
}

/// The letters of sixteen octets, two for each (RFC 1001 section 14.1).
fn letters_of(octets: &[u8; 16]) -> [u8; 32]
    ensures { result ≡ letters octets.now }
{
    let mut letters = [0; LETTERS_COUNT];
    for (k, octet) in octets.iter().enumerate() {
        letters[2 * k] = b'A' + *octet / 16;
        letters[2 * k + 1] = b'A' + *octet % 16;
    }
    letters
}

/// Whether these are labels of 1 to 63 octets, each after its length octet (RFC 1002 section 4.1).
pub(crate) fn is_scope(scope: &[u8]) -> bool
    ensures { IsTrue result ↔ IsScope scope.now }
{
    let mut rest = scope;
    while let Some((&count, labels)) = rest.split_first() {
        let count = usize::from(count);
        if count == 0 || count > LABEL_MOST || count > labels.len() {
            return false;
        }
        rest = &labels[count..];
    }
    true
}

/// A scope's octets in a list of their own.
pub(crate) fn scope_of(scope: &[u8]) -> ArrayVec<u8, 221>
    requires { length scope.now ≤ 221 }
    ensures { result.items ≡ scope.now }
{
    let mut copy = ArrayVec::new();
    copy.try_extend_from_slice(scope).unwrap();
    copy
}
