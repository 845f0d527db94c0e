//! Octets that are put into the caller's buffer.

ghost use Rattle.nbt_c.specs.Results.{Puts, PutsMost, no_room};
ghost use Rattle.std.specs.Prelude.{◌≡◌, ◌<◌, ◌≤◌, ◌↔◌, ◌++◌, length, drop, IsTrue, IsFalse};

use crate::results::NO_ROOM;
use arrayvec::ArrayVec;

/// What goes out: a packet of at most 576 octets, or nothing.
pub(crate) type Octets = ArrayVec<u8, 576>;

/// Puts the octets at the front of `out`, if they fit; the others stay.
pub(crate) fn put_front(octets: &[u8], out: &mut [u8]) -> bool
    ensures room { IsTrue result ↔ (length octets.now ≤ length out.old) }
    ensures put { IsTrue result → out.new ≡ octets.now ++ drop (length octets.now) out.old }
    ensures left { IsFalse result → out.new ≡ out.old }
{
    if octets.len() > out.len() {
        return false;
    }
    out[..octets.len()].copy_from_slice(octets);
    true
}

/// Puts a form of a name at the front of `out`, the others staying, and writes how many octets it has: 0. Else nothing is written:
/// 254 where `out` has fewer.
pub(crate) fn put_form(form: &[u8], out: &mut [u8], size: &mut usize) -> u8
    ensures written { length form.now ≤ length out.old
        → (result ≡ 0) × (out.new ≡ form.now ++ drop (length form.now) out.old) × (size.new ≡ length form.now) }
    ensures left { length out.old < length form.now → (result ≡ no_room) × (out.new ≡ out.old) × (size.new ≡ size.old) }
{
    if !put_front(form, out) {
        return NO_ROOM;
    }
    *size = form.len();
    0
}

/// Puts a packet at the front of the caller's 576 octets, the others staying. Returns how many octets it has.
pub(crate) fn put_packet(octets: &[u8], out: &mut [u8; 576]) -> usize
    requires { length octets.now ≤ 576 }
    ensures { Puts octets.now out.old out.new result }
{
    out[..octets.len()].copy_from_slice(octets);
    octets.len()
}

/// Puts as many of the octets at the front of `out` as fit; the others of `out` stay.
pub(crate) fn put_most(octets: &[u8], out: &mut [u8])
    ensures { PutsMost octets.now out.old out.new }
{
    let count = octets.len().min(out.len());
    out[..count].copy_from_slice(&octets[..count]);
}
