//! Names with their scope.

ghost use Rattle.std.specs.Prelude.{◌≡◌, ℕ, List, ◌++◌, ◌≤◌, length, IfOk, IfErr, IfSome, IfNone, codes};
ghost use Rattle.nbt_text.specs.SuffixedNames.{SpellsOctets, cased};
ghost use Rattle.nbt_text.specs.ScopedNames.{dotted, SpellsScope, SpellsName, MisspellsName};

use crate::casing::Case;
use crate::fault::Fault;
use crate::name_text::{parse_name, with_octets};
use crate::suffixed_reading::read_octets;
use arrayvec::ArrayVec;
use nbt_name::Name;

/// The most characters of a scope's text (our profile).
const SCOPE_MOST: usize = 1_000;

/// The name whose sixteen octets the word spells, as `read_octets` has it, and whose scope the text does: its labels with
/// dots between them, as in `NETBIOS.COM`, or nothing. A label begins with `hex:` only where the case is exact. Refused with
/// the word's first fault, or else with `Scope` (6).
pub fn read_name(case: Case, word: &[u8], scope: &[u8]) -> Result<Name, Fault>
    ensures name { IfOk result (SpellsName case word.now scope.now) }
    ensures fault { IfErr result (MisspellsName case word.now scope.now) }
{
    match read_octets(case, word) {
        Ok(octets) => with_scope(case, word, &octets, scope),
        Err(fault) => Err(fault),
    }
}

/// The name of the octets that the word spells, with the scope that the text does.
fn with_scope(case: Case, word: &[u8], octets: &[u8; 16], scope: &[u8]) -> Result<Name, Fault>
    requires { SpellsOctets case word.now octets.now }
    ensures name { IfOk result (SpellsName case word.now scope.now) }
    ensures fault { IfErr result (MisspellsName case word.now scope.now) }
{
    match scoped(case, scope) {
        Some(name) => Ok(with_octets(octets, &name)),
        None => Err(Fault::Scope),
    }
}

/// Some name with the scope that the text spells.
pub(crate) fn scoped(case: Case, text: &[u8]) -> Option<Name>
    ensures read { IfSome result (λ name. SpellsScope case text.now name.scope) }
    ensures none { IfNone result ((scope : List ℕ) → ¬ SpellsScope case text.now scope) }
{
    if text.len() > SCOPE_MOST {
        return None;
    }
    let whole = with_a_name(case, text);
    parse_name(whole.as_slice())
}

/// The text of the name `A` with this scope.
fn with_a_name(case: Case, text: &[u8]) -> ArrayVec<u8, 1002>
    requires { length text.now ≤ 1000 }
    ensures { result.items ≡ codes "A" ++ dotted (cased case text.now) }
{
    let mut whole = ArrayVec::new();
    whole.push(b'A');
    if text.is_empty() {
        return whole;
    }
    whole.push(b'.');
    whole.try_extend_from_slice(text).unwrap();
    case.apply(whole.as_mut_slice());
    whole
}
