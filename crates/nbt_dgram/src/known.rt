//! Octets of which some are known: a list with a gap where one isn't.

ghost use Rattle.std.specs.Prelude.{◌≡◌, ℕ, ◌+◌, ◌<◌, ◌≤◌, ◌↔◌, length, map, take, slice_index, Some, IsTrue, IsFalse, List};
ghost use Rattle.nbt_dgram.specs.Slot.{known_at, octets_with};

use arrayvec::ArrayVec;

/// Whether each octet that is known where the payload would stand is the payload's.
pub(crate) fn agree(known: &[Option<u8>], begin: usize, payload: &[u8]) -> bool
    requires { begin + length payload.now ≤ length known.now }
    ensures { IsTrue result ↔ ((k octet : ℕ) → k < length payload.now
        → known_at known.now (begin + k) ≡ Some octet → octet ≡ slice_index payload.now k) }
{
    for (k, octet) in payload.iter().enumerate() {
        if !allows(known[begin + k], *octet) {
            return false;
        }
    }
    true
}

/// Whether a place's octet is unknown, or this one.
fn allows(known: Option<u8>, octet: u8) -> bool
    ensures { IsTrue result ↔ ((there : ℕ) → known ≡ Some there → there ≡ octet) }
{
    match known {
        Some(there) => there == octet,
        None => true,
    }
}

/// Whether no octet is known from a place on.
pub(crate) fn end_by(known: &[Option<u8>], end: usize) -> bool
    requires { end ≤ length known.now }
    ensures { IsTrue result ↔ ((place octet : ℕ) → known_at known.now place ≡ Some octet → place < end) }
{
    for place in end..known.len() {
        if known[place].is_some() {
            return false;
        }
    }
    true
}

/// Makes the payload's octets known from a place on.
pub(crate) fn write(known: &mut [Option<u8>], begin: usize, payload: &[u8])
    requires { begin + length payload.now ≤ length known.old }
    ensures { known.new ≡ octets_with begin payload.now known.old }
{
    for (k, octet) in payload.iter().enumerate() {
        known[begin + k] = Some(*octet);
    }
}

/// Leaves in `out` the octets before the end and nothing else, where all of them are known. Returns whether they are.
pub(crate) fn read(known: &[Option<u8>], end: usize, out: &mut ArrayVec<u8, 512>) -> bool
    requires known { end ≤ length known.now }
    requires room { end ≤ 512 }
    ensures filled { IsTrue result → take end known.now ≡ map Some out.new.items }
    ensures gap { IsFalse result → (payload : List ℕ) → take end known.now ≡ map Some payload → ⊥ }
{
    out.clear();
    for octet in &known[..end] {
        let Some(octet) = octet else {
            return false;
        };
        out.push(*octet);
    }
    true
}
