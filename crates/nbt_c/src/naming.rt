//! Names from sixteen octets and a scope, and from text as tools spell it.

ghost use Rattle.std.specs.Prelude.{◌≡◌, ◌≢◌};
ghost use Rattle.nbt_name.specs.Wire.{NameValue};
ghost use Rattle.nbt_text.specs.declared.fault.Fault.{Fault as Wrong};
ghost use Rattle.nbt_text.specs.ScopedNames.{SpellsName, MisspellsName};
ghost use Rattle.nbt_text.specs.Faults.{fault_number};
ghost use Rattle.nbt_c.specs.Names.{stored, Makes, MakesAny, case_of, place_in};

use crate::name::CName;
use nbt_name::Name;
use nbt_text::{Case, Fault, read_name};

/// `nbt_name::Name::new`: the name of sixteen octets and a scope, given as its labels, each after its length octet, without
/// the closing zero. 0, and the name stands in `out`; or, `out` being left as it was, the first refusal's number: `Star` (1),
/// `ScopeLong` (2), `BadLabel` (3).
#[unsafe(no_mangle)]
pub extern "C" fn nbt_name_make(octets: &[u8; 16], scope: &[u8], out: &mut CName) -> u8
    ensures { Makes octets.now scope.now out.old result out.new }
{
    match Name::new(octets, scope) {
        Ok(name) => {
            *out = CName::of(&name);
            0
        }
        Err(refusal) => refusal.number(),
    }
}

/// `nbt_name::Name::any`: the name that stands for all names of a scope, 0x2A and fifteen zero octets. 0, and the name stands
/// in `out`; or, `out` being left as it was, the first refusal's number: `ScopeLong` (2), `BadLabel` (3).
#[unsafe(no_mangle)]
pub extern "C" fn nbt_name_any(scope: &[u8], out: &mut CName) -> u8
    ensures { MakesAny scope.now out.old result out.new }
{
    match Name::any(scope) {
        Ok(name) => {
            *out = CName::of(&name);
            0
        }
        Err(refusal) => refusal.number(),
    }
}

/// `nbt_text::read_name`: the name whose sixteen octets the word spells, as `FILER`, `FILER#20`, `FILER<20>`, `*` or `hex:`
/// and 32 digits, and whose scope the text does, as `NETBIOS.COM`, or nothing. Small letters become capitals unless `exact`.
/// 0, and the name stands in `out`; or the first fault's number, 1 to 6, `out` being left as it was. `place` is then how many
/// characters there are for `Long` (2), the character's place for `Character` (3), and 0 for all else.
#[unsafe(no_mangle)]
pub extern "C" fn nbt_name_read(
    exact: bool,
    word: &[u8],
    scope: &[u8],
    out: &mut CName,
    place: &mut usize,
) -> u8
    ensures name { result ≡ 0 → (name : NameValue) × SpellsName (case_of exact) word.now scope.now name
        × (out.new ≡ stored name) × (place.new ≡ 0) }
    ensures fault { result ≢ 0 → (fault : Wrong) × MisspellsName (case_of exact) word.now scope.now fault
        × (result ≡ fault_number fault) × (place.new ≡ place_in fault) × (out.new ≡ out.old) }
{
    match read_name(case_of(exact), word, scope) {
        Ok(name) => {
            *out = CName::of(&name);
            *place = 0;
            0
        }
        Err(fault) => {
            *place = place_in(fault);
            fault.number()
        }
    }
}

fn case_of(exact: bool) -> Case
    ensures { result ≡ case_of exact }
{
    if exact { Case::Exact } else { Case::Folded }
}

/// The number that a fault has.
fn place_in(fault: Fault) -> usize
    ensures { result ≡ place_in fault }
{
    match fault {
        Fault::Long(count) => count,
        Fault::Character(place) => place,
        _ => 0,
    }
}
