//! Reading names from octets (RFC 1002 section 4.1).

ghost use Rattle.std.specs.Prelude.{◌≡◌, ℕ, List, ◌+◌, ◌*◌, ◌<◌, ◌≤◌, ◌↔◌, Ok, Err, IfOk, IfErr, length};
ghost use Rattle.nbt_name.specs.declared.fault.NameFault.{NameFault};
ghost use Rattle.nbt_name.specs.Wire.{NameValue, name_of};
ghost use Rattle.nbt_name.specs.Inner.Reader.{IsAtStart, HasPassed};
ghost use Rattle.nbt_name.specs.Reading.{steps_on, Stands, Fails, NameAt, PlainNameAt, FaultAt, PlainFaultAt};

use crate::fault::NameFault;
use crate::form::Form;
use crate::lent::{LentName, find, find_in, find_plain};
use crate::name::Name;
use crate::reader::{Progress, Reader};
use crate::steps::Steps;
use std::sync::ledger::Ledger;

/// Reads the plain name at `place`, and returns it with the place after it. A pointer is a fault (`BadPointer`). The fault is
/// the first one in reading order, with its place (RFC 1002 section 4.1). The caller must ensure that `place` is at most the
/// length.
pub fn read_plain(octets: &[u8], place: usize) -> Result<(Name, usize), NameFault>
    requires { place ≤ length octets.now }
    ensures name { (name : NameValue) (next : ℕ) → (result ≡ Ok (name, next)) ↔ PlainNameAt octets.now place name next }
    ensures fault { (fault : NameFault) → (result ≡ Err fault) ↔ PlainFaultAt octets.now place fault }
    ensures within { IfOk result (λ read. read.1 ≤ length octets.now) }
{
    kept(find_plain(octets, place))
}

/// Reads the name at `place`, following pointers, and returns it with the place after it: after the first pointer, or after
/// the closing zero if there is none. The fault is the first one in reading order, with its place (RFC 1002 section 4.1).
/// The caller must ensure that `place` is at most the length.
pub fn read_in(octets: &[u8], place: usize) -> Result<(Name, usize), NameFault>
    requires { place ≤ length octets.now }
    ensures name { (name : NameValue) (next : ℕ) → (result ≡ Ok (name, next)) ↔ NameAt octets.now place name next }
    ensures fault { (fault : NameFault) → (result ≡ Err fault) ↔ FaultAt octets.now place fault }
    ensures within { IfOk result (λ read. read.1 ≤ length octets.now) }
{
    kept(find_in(octets, place))
}

/// Reads as `read_in` does, in at most 112 steps for each octet and 112 more, whatever the octets are (our profile). A step
/// is a label passed, a pointer followed, or the closing zero. `steps` grows by exactly their number: by those on the way
/// to the closing zero and by one for it, or by those on the way to the fault.
pub fn read_in_counted<L: Ledger>(
    octets: &[u8],
    place: usize,
    steps: &mut Steps<L>,
) -> Result<(Name, usize), NameFault>
    requires { place ≤ length octets.now }
    ensures name { (name : NameValue) (next : ℕ) → (result ≡ Ok (name, next)) ↔ NameAt octets.now place name next }
    ensures fault { (fault : NameFault) → (result ≡ Err fault) ↔ FaultAt octets.now place fault }
    ensures within { IfOk result (λ read. read.1 ≤ length octets.now) }
    ensures steps { IfOk result (λ read. (stands : NameAt octets.now place read.0 read.1) → steps.new ≡ steps.old + steps_on stands.path + 1) }
    ensures refused { IfErr result (λ fault. (fails : FaultAt octets.now place fault) → steps.new ≡ steps.old + steps_on fails.path) }
    ensures step_count { steps.new ≤ steps.old + 112 * (length octets.now + 1) }
{
    kept(find(Form::Compressed, octets, place, steps))
}

/// What was found, with a name that borrows nothing.
fn kept(found: Result<(LentName<'_>, usize), NameFault>) -> Result<(Name, usize), NameFault>
    ensures { result ≡ found.entry }
{
    let (name, next) = found?;
    Ok((name.to_name(), next))
}

/// Has a reader pass the name at `place`, in one of the two forms, and returns the sixteen octets and the place after the
/// name. The reader then has the length of the scope.
pub(crate) fn pass<L: Ledger>(
    reader: &mut Reader,
    form: Form,
    octets: &[u8],
    place: usize,
    steps: &mut Steps<L>,
) -> Result<([u8; 16], usize), NameFault>
    requires place { place ≤ length octets.now }
    requires starts { IsAtStart place reader.old }
    ensures name { IfOk result (λ read. (scope : List ℕ) × HasPassed reader.new scope × Stands form octets.now place (name_of read.0 scope) read.1) }
    ensures fault { IfErr result (Fails form octets.now place) }
    ensures steps { IfOk result (λ read. (name : NameValue) (stands : Stands form octets.now place name read.1) → steps.new ≡ steps.old + steps_on stands.path + 1) }
    ensures refused { IfErr result (λ fault. (fails : Fails form octets.now place fault) → steps.new ≡ steps.old + steps_on fails.path) }
    ensures step_count { steps.new ≤ steps.old + 112 * (length octets.now + 1) }
{
    'steps: loop {
        let progress = reader.turn(form, octets)?;
        steps.add_one();
        match progress {
            Progress::Moved => {}
            Progress::Closed(sixteen) => {
                let next = reader.resume.unwrap_or(reader.place + 1);
                return Ok((sixteen, next));
            }
        }
    }
}
