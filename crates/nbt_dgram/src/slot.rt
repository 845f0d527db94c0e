//! An unfinished datagram, and what its fragments say (RFC 1002 section 5.3.3).

ghost use Rattle.std.specs.Prelude.{◌≡◌, ℕ, ◌<◌, ◌≤◌, ◌↔◌, false, List, length, IsTrue, IsFalse, Some, None};
ghost use Rattle.nbt_dgram.specs.declared.dgram.Names.{Names};
ghost use Rattle.nbt_dgram.specs.declared.dgram.Part.TheVariants.{First};
ghost use Rattle.nbt_dgram.specs.Dgram.{fragment_of};
ghost use Rattle.nbt_dgram.specs.Fragments.{end_of};
ghost use Rattle.nbt_dgram.specs.Slot.{known_at, fresh, Agrees, joined, IsWhole};

use crate::dgram::{Fragment, Names as LentNames, Part};
use crate::known;
use crate::msg_type::Delivery;
use crate::reassembly::{KeptNames, Reassembly};
use crate::splitting::DATA_MOST;
use nbt_lease::Moment;
use nbt_name::Addr;

/// By what the fragments of one datagram are known: SOURCE_IP, SOURCE_PORT and DGM_ID.
#[derive(Clone, Copy, Debug, PartialEq, Eq)]
pub(crate) struct Key {
    pub(crate) source: Addr,
    pub(crate) id: u16,
}

/// What is known of an unfinished datagram.
#[derive(Debug, Drop)]
pub(crate) struct Slot {
    pub(crate) key: Key,
    /// The time of the fragment that began the slot.
    pub(crate) began: Moment,
    pub(crate) delivery: Delivery,
    /// The names, once the first fragment came.
    pub(crate) names: Option<KeptNames>,
    /// How many octets of data there are, once the last fragment came.
    pub(crate) end: Option<usize>,
    /// The octets of data, where they are known.
    pub(crate) octets: [Option<u8>; 512],
}

impl Slot {
    /// A slot that begins now, of which nothing is known but the type.
    pub(crate) fn new(key: Key, now: Moment, delivery: Delivery) -> Slot
        ensures { result ≡ fresh key now delivery }
    {
        Slot {
            key,
            began: now,
            delivery,
            names: None,
            end: None,
            octets: [None; 512],
        }
    }

    /// Whether the fragment agrees with what is known.
    pub(crate) fn agrees(&self, fragment: &Fragment<'_>) -> bool
        requires whole { length self.now.octets ≡ 512 }
        requires fits { end_of (fragment_of fragment.now) ≤ 512 }
        ensures { IsTrue result ↔ Agrees self.now (fragment_of fragment.now) }
    {
        if !self.delivery.is(fragment.delivery) {
            return false;
        }
        if !are_same_names(&self.names, &fragment.part) {
            return false;
        }
        if !is_same_end(self.end, fragment.end(), fragment.more) {
            return false;
        }
        if !is_behind_all(&self.octets, fragment.end(), fragment.more) {
            return false;
        }
        known::agree(&self.octets, fragment.begin(), fragment.payload)
    }

    /// Takes in what the fragment says.
    pub(crate) fn join(&mut self, fragment: &Fragment<'_>)
        requires whole { length self.old.octets ≡ 512 }
        requires fits { end_of (fragment_of fragment.now) ≤ 512 }
        ensures { self.new ≡ joined (fragment_of fragment.now) self.old }
    {
        if let Part::First(names) = &fragment.part {
            keep(&mut self.names, names);
        }
        if !fragment.more {
            self.end = Some(fragment.end());
        }
        known::write(&mut self.octets, fragment.begin(), fragment.payload);
    }

    /// Puts the names and the data into the room, where the names, the end and every octet below it are known. Returns whether
    /// they are.
    pub(crate) fn put_together(&self, room: &mut Reassembly) -> bool
        requires { length self.now.octets ≡ 512 }
        ensures whole { IsTrue result → IsWhole self.now room.new.names room.new.data.items }
        ensures unfinished { IsFalse result → (names : Names) (payload : List ℕ) → ¬ IsWhole self.now names payload }
    {
        let (Some(names), Some(end)) = (&self.names, self.end) else {
            return false;
        };
        if end > DATA_MOST || !known::read(&self.octets, end, &mut room.data) {
            return false;
        }
        room.keep(names);
        true
    }
}

/// Makes these the names that are known. They are set where they stand, which takes less of the stack than to move them there.
fn keep(known: &mut Option<KeptNames>, names: &LentNames<'_>)
    ensures { known.new ≡ Some names.now }
{
    *known = Some(KeptNames::blank());
    match known {
        Some(known) => known.set(names),
        None => unreachable!(),
    }
}

/// Whether a first fragment's names are those that are known.
fn are_same_names(known: &Option<KeptNames>, part: &Part<'_>) -> bool
    ensures { IsTrue result ↔ ((a b : Names) → known.now ≡ Some a → part.now ≡ First b → a ≡ b) }
{
    match (known, part) {
        (Some(known), Part::First(names)) => known.are(names),
        _ => true,
    }
}

/// Whether a fragment doesn't pass the known end, and is the last one only at that end.
fn is_same_end(known: Option<usize>, end: usize, more: bool) -> bool
    ensures { IsTrue result ↔ ((known_end : ℕ) → known ≡ Some known_end
        → (end ≤ known_end) × (more ≡ false → end ≡ known_end)) }
{
    match known {
        Some(known) if more => end <= known,
        Some(known) => end == known,
        None => true,
    }
}

/// Whether a fragment is not the last one, or ends after all known octets.
fn is_behind_all(known: &[Option<u8>], end: usize, more: bool) -> bool
    requires { end ≤ length known.now }
    ensures { IsTrue result ↔ (more ≡ false → (place octet : ℕ) → known_at known.now place ≡ Some octet → place < end) }
{
    more || known::end_by(known, end)
}
