//! Names whose scope stands behind their suffix.

ghost use Rattle.std.specs.Prelude.{◌≡◌, ℕ, List, IfOk, IfErr, IfSome, IfNone, MatchOption};
ghost use Rattle.nbt_text.specs.ScopedNames.{IsOpened, HasNoScope, HasScope, SpellsOwnScope, SpellsBehind, MisspellsBehind, SpellsScopedName, MisspellsScopedName};

use crate::casing::Case;
use crate::fault::Fault;
use crate::name_text::{digits_of, with_octets};
use crate::pieces::split_at_first;
use crate::scoped_name::{read_name, scoped};
use crate::suffixed_reading::{cut, read_octets};
use nbt_name::Name;

/// What stands before a scope, and between two of its labels.
const DOT: u8 = b'.';

/// The name that the word spells. Its scope may stand behind the suffix, as in `FILER#20.NETBIOS.COM`: the first dot there begins it,
/// and it is taken as it stands, also where the name's letters are folded. Any other word is read as [`read_name`] reads it, with
/// the scope that the text spells. Refused with the word's first fault, or else with `Scope` (6).
pub fn read_scoped_name(case: Case, word: &[u8], scope: &[u8]) -> Result<Name, Fault>
    ensures name { IfOk result (SpellsScopedName case word.now scope.now) }
    ensures fault { IfErr result (MisspellsScopedName case word.now scope.now) }
{
    let (bare, own) = parted(word);
    match own {
        Some(own) => read_behind(case, bare, own),
        None => read_name(case, word, scope),
    }
}

/// The word without a scope of its own, and the text of that scope, if it has one.
fn parted(word: &[u8]) -> (&[u8], Option<&[u8]>)
    ensures { MatchOption result.1 (HasNoScope word.now) (λ own. HasScope word.now result.0.now own.now) }
{
    let (front, tail) = opened(word);
    let (suffix, own) = split_at_first(DOT, tail);
    let count = front.len() + suffix.len();
    (&word[..count], own)
}

/// The characters of a word before its suffix, and the rest. A word that begins with `hex:` has no characters.
fn opened(word: &[u8]) -> (&[u8], &[u8])
    ensures { IsOpened word.now result.0.now result.1.now }
{
    match digits_of(word) {
        Some(_) => (&word[..0], word),
        None => cut(word),
    }
}

/// The name that the word spells, with the scope that stands behind it.
fn read_behind(case: Case, bare: &[u8], own: &[u8]) -> Result<Name, Fault>
    ensures name { IfOk result (SpellsBehind case bare.now own.now) }
    ensures fault { IfErr result (MisspellsBehind case bare.now own.now) }
{
    match read_octets(case, bare) {
        Ok(octets) => match own_scope(own) {
            Some(name) => Ok(with_octets(&octets, &name)),
            None => Err(Fault::Scope),
        },
        Err(fault) => Err(fault),
    }
}

/// Some name with the scope that stands behind another one.
fn own_scope(text: &[u8]) -> Option<Name>
    ensures read { IfSome result (λ name. SpellsOwnScope text.now name.scope) }
    ensures none { IfNone result ((scope : List ℕ) → ¬ SpellsOwnScope text.now scope) }
{
    if text.is_empty() {
        None
    } else {
        scoped(Case::Exact, text)
    }
}
