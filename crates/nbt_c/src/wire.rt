//! Names to the wire and from it.

ghost use Rattle.std.specs.Prelude.{◌≡◌, ℕ, ◌≤◌, ◌<◌, length, Ok, Err};
ghost use Rattle.nbt_name.specs.declared.fault.NameFault.{NameFault};
ghost use Rattle.nbt_name.specs.Numbers.{fault_number};
ghost use Rattle.nbt_name.specs.Reading.{NameAt, PlainNameAt, FaultAt, PlainFaultAt};
ghost use Rattle.nbt_name.specs.Wire.{NameValue};
ghost use Rattle.nbt_c.specs.Names.{stored, IsWire, Writes};
ghost use Rattle.nbt_c.specs.Results.{no_place};

use crate::buffer::put_form;
use crate::name::CName;
use crate::results::{NO_NAME, NO_PLACE, given};
use arrayvec::ArrayVec;
use nbt_name::{Name, NameFault, read_in, read_plain};

/// `nbt_name::Name::to_wire`: the name's wire form, 34 to 255 octets (RFC 1002 section 4.1). 0, and it stands at the front of
/// `out`, `size` being how many octets it has. Else nothing is written: 255 where `name` holds no name, 254 where `out` has
/// fewer octets than the wire form.
#[unsafe(no_mangle)]
pub extern "C" fn nbt_name_to_wire(name: &CName, out: &mut [u8], size: &mut usize) -> u8
    ensures { Writes IsWire name.now out.old size.old result out.new size.new }
{
    given!(name = name.read(), else NO_NAME);
    let mut wire = ArrayVec::new();
    name.to_wire(&mut wire);
    put_form(wire.as_slice(), out, size)
}

/// `nbt_name::read_plain`: the name that stands at `place`, without pointers. 0, and the name stands in `out`, `next` being the
/// place after it; or the first fault's number, 1 to 5, `out` being left as it was and `next` being the fault's place (RFC
/// 1002 section 4.1); or 251, nothing being written, where `place` is above the number of the octets.
#[unsafe(no_mangle)]
pub extern "C" fn nbt_name_from_wire(
    octets: &[u8],
    place: usize,
    out: &mut CName,
    next: &mut usize,
) -> u8
    ensures name { (name : NameValue) (end : ℕ) → place ≤ length octets.now → PlainNameAt octets.now place name end
        → (result ≡ 0) × (out.new ≡ stored name) × (next.new ≡ end) }
    ensures fault { (fault : NameFault) → place ≤ length octets.now → PlainFaultAt octets.now place fault
        → (result ≡ fault_number fault.kind) × (out.new ≡ out.old) × (next.new ≡ fault.place) }
    ensures behind { length octets.now < place → (result ≡ no_place) × (out.new ≡ out.old) × (next.new ≡ next.old) }
{
    if place > octets.len() {
        return NO_PLACE;
    }
    report(read_plain(octets, place), out, next)
}

/// `nbt_name::read_in`: what `nbt_name_from_wire` does, for a name in a packet: pointers to smaller places are followed, and
/// `next` is the place after the first of them, or after the closing zero where there is none.
#[unsafe(no_mangle)]
pub extern "C" fn nbt_name_in_packet(
    octets: &[u8],
    place: usize,
    out: &mut CName,
    next: &mut usize,
) -> u8
    ensures name { (name : NameValue) (end : ℕ) → place ≤ length octets.now → NameAt octets.now place name end
        → (result ≡ 0) × (out.new ≡ stored name) × (next.new ≡ end) }
    ensures fault { (fault : NameFault) → place ≤ length octets.now → FaultAt octets.now place fault
        → (result ≡ fault_number fault.kind) × (out.new ≡ out.old) × (next.new ≡ fault.place) }
    ensures behind { length octets.now < place → (result ≡ no_place) × (out.new ≡ out.old) × (next.new ≡ next.old) }
{
    if place > octets.len() {
        return NO_PLACE;
    }
    report(read_in(octets, place), out, next)
}

/// Reports what was read: 0, the name and the place after it, or the fault's number and its place.
fn report(read: Result<(Name, usize), NameFault>, out: &mut CName, next: &mut usize) -> u8
    ensures name { (name : NameValue) (end : ℕ) → read ≡ Ok (name, end)
        → (result ≡ 0) × (out.new ≡ stored name) × (next.new ≡ end) }
    ensures fault { (fault : NameFault) → read ≡ Err fault
        → (result ≡ fault_number fault.kind) × (out.new ≡ out.old) × (next.new ≡ fault.place) }
{
    match read {
        Ok((name, end)) => {
            *out = CName::of(&name);
            *next = end;
            0
        }
        Err(fault) => {
            *next = fault.place;
            fault.kind.number()
        }
    }
}
