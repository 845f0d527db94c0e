//! The labels of a name, where they stand (RFC 1002 section 4.1).

ghost use Rattle.std.specs.Prelude.{◌≡◌, ◌+◌, ◌<◌, ◌≤◌, ◌∷◌, ◌++◌, ◌↔◌, ℕ, List, [], length, slice_index, IsTrue, IfSome, IfNone};
ghost use Rattle.nbt_name.specs.Labels.{LabelsAt};
ghost use Rattle.nbt_name.specs.Scope.{IsScope};

use crate::wire::POINTER;
use arrayvec::ArrayVec;
use std::marker::Model;

/// Labels that stand in octets from a place on, each after its length octet, as far as a zero or the octets' end. Where a pointer
/// stands, they go on at the place to which it leads.
#[derive(Debug, Drop)]
pub(crate) struct Labels<'a> {
    octets: &'a [u8],
    place: usize,
}

impl<'a> Model for Labels<'a> {
    ghost use Rattle.std.specs.Prelude.{ℕ, List};
    ghost use Rattle.nbt_name.specs.Labels.{labels_at, HasLabels};

    ghost Value = { List ℕ };

    ghost view = { λ l. labels_at l.octets.now l.place };

    ghost invariant = { λ l. HasLabels l.octets.now l.place (labels_at l.octets.now l.place) };
}

impl<'a> Labels<'a> {
    /// No labels.
    pub(crate) fn none() -> Labels<'a>
        ensures { result ≡ [] }
    {
        Labels {
            octets: &[],
            place: 0,
        }
    }

    /// Those of a scope.
    pub(crate) fn of_scope(scope: &'a [u8]) -> Labels<'a>
        requires labels { IsScope scope.now }
        requires fits { length scope.now ≤ 221 }
        ensures { result ≡ scope.now }
    {
        Labels {
            octets: scope,
            place: 0,
        }
    }

    /// Those from a place on.
    pub(crate) fn at(octets: &'a [u8], place: usize) -> Labels<'a>
        requires within { place ≤ length octets.now }
        requires stand { (labels : List ℕ) × (length labels ≤ 255) × LabelsAt octets.now place labels }
        ensures { LabelsAt octets.now place result }
    {
        Labels { octets, place }
    }

    /// The same labels once more.
    pub(crate) fn copy(&self) -> Labels<'a>
        ensures { result ≡ self.now }
    {
        Labels {
            octets: self.octets,
            place: self.place,
        }
    }

    /// Takes the first label, with its length octet.
    pub(crate) fn next(&mut self) -> Option<&'a [u8]>
        ensures label { IfSome result (λ label. (self.old ≡ label.now ++ self.new) × (length label.now ≡ slice_index label.now 0 + 1)) }
        ensures none { IfNone result (self.old ≡ []) }
    {
        let octets = self.octets;
        let mut place = self.place;
        'pointers: while place < octets.len() && octets[place] >= POINTER {
            place = usize::from(octets[place] - POINTER) * 256 + usize::from(octets[place + 1]);
        }
        if place >= octets.len() || octets[place] == 0 {
            return None;
        }
        let end = place + 1 + usize::from(octets[place]);
        self.place = end;
        Some(&octets[place..end])
    }

    /// How many octets they have.
    pub(crate) fn len(self) -> usize
        ensures { result ≡ length self.entry }
    {
        let mut labels = self;
        let mut count = 0;
        'labels: while let Some(label) = labels.next() {
            count += label.len();
        }
        count
    }

    /// Appends them to a list.
    pub(crate) fn put<const CAP: usize>(self, out: &mut ArrayVec<u8, CAP>)
        requires { length out.old.items + length self ≤ CAP }
        ensures { out.new.items ≡ out.old.items ++ self.entry }
    {
        let mut labels = self;
        'labels: while let Some(label) = labels.next() {
            out.try_extend_from_slice(label).unwrap();
        }
    }

    /// Whether they are these.
    pub(crate) fn are(self, others: Labels<'_>) -> bool
        ensures { IsTrue result ↔ (self.entry ≡ others.entry) }
    {
        let mut labels = self;
        let mut others = others;
        'labels: while let Some(label) = labels.next() {
            let Some(other) = others.next() else {
                return false;
            };
            if label != other {
                return false;
            }
        }
        others.next().is_none()
    }
}
