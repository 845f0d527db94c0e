//! The line of a change.

ghost use Rattle.std.specs.Prelude.{◌≡◌, ◌↔◌, Some, IfOk, MatchOption};
ghost use Rattle.nbt_text.specs.Texts.{texts};
ghost use Rattle.nbt_store.specs.declared.change.Change.{Change as ChangeValue};
ghost use Rattle.nbt_store.specs.declared.form.Form.TheVariants as forms;
ghost use Rattle.nbt_store.specs.declared.verb.Verb.TheVariants as verbs;
ghost use Rattle.nbt_store.specs.Lines.{IsNone};
ghost use Rattle.nbt_store.specs.Records.{IsRecord, Says, SaysOf};

use crate::change::Change;
use crate::form::Form;
use crate::sealing::unsealed;
use crate::verb::{Verb, verb_of};
use crate::word::{Host, NoFurther, Words};
use nbt_lease::Lease;
use nbt_name::{Kind, Name};
use nbt_text::words_of;
use std::alloc::{AllocError, Global};

/// Reads the line of a change behind one with this checksum, without its line feed; returns its own beside. `None` if it is no such line.
pub(crate) fn read_record(
    alloc: Global,
    form: Form,
    sum: u32,
    line: &[u8],
) -> Result<Option<(Change, u32)>, AllocError>
    ensures { IfOk result (λ found. MatchOption found (IsNone form sum line.now) (λ p. IsRecord form sum line.now p.0 p.1)) }
{
    let Some((body, next)) = unsealed(form.chained(sum), line) else {
        return Ok(None);
    };
    let words = words_of(alloc, body)?;
    let Some(change) = change_of(form, words.as_slice()) else {
        return Ok(None);
    };
    Ok(Some((change, next)))
}

/// The change that words say.
fn change_of(form: Form, words: &[&[u8]]) -> Option<Change>
    ensures { MatchOption result ((c : ChangeValue) → ¬ Says form (texts words.now) c) (Says form (texts words.now)) }
{
    let (first, rest) = words.split_first()?;
    let verb = verb_of(first)?;
    match form {
        Form::Two => after_older_verb(verb, rest),
        Form::Three => after_verb(verb, rest),
    }
}

/// What the words after a verb say.
fn after_verb(verb: Verb, words: &[&[u8]]) -> Option<Change>
    ensures { (c : ChangeValue) → (result ≡ Some c) ↔ SaysOf forms.Three verb (texts words.now) c }
{
    match verb {
        Verb::Began => began_of(words),
        Verb::Moved => moved_of(words),
        Verb::Released => released_of(words),
        Verb::Reached => reached_of(words),
        Verb::Looked => looked_of(words),
    }
}

/// The same in the older form.
fn after_older_verb(verb: Verb, words: &[&[u8]]) -> Option<Change>
    ensures { (c : ChangeValue) → (result ≡ Some c) ↔ SaysOf forms.Two verb (texts words.now) c }
{
    match verb {
        Verb::Began => older_began_of(words),
        Verb::Moved => older_moved_of(words),
        Verb::Released => older_released_of(words),
        Verb::Reached | Verb::Looked => None,
    }
}

/// `NAME HOST FURTHER KIND END TIME`.
fn began_of(words: &[&[u8]]) -> Option<Change>
    ensures { (c : ChangeValue) → (result ≡ Some c) ↔ SaysOf forms.Three verbs.Began (texts words.now) c }
{
    let values = <(Name, (Host, (NoFurther, (Kind, (u64, (u64, ()))))))>::read_all(words);
    values.map(|(name, (addr, ((), (kind, (end, (at, ()))))))| Change::Began {
        name,
        lease: Lease { addr, kind, end },
        at,
    })
}

/// `NAME HOST END TIME`.
fn moved_of(words: &[&[u8]]) -> Option<Change>
    ensures { (c : ChangeValue) → (result ≡ Some c) ↔ SaysOf forms.Three verbs.Moved (texts words.now) c }
{
    let values = <(Name, (Host, (u64, (u64, ()))))>::read_all(words);
    values.map(|(name, (addr, (end, (at, ()))))| Change::Moved {
        name,
        addr,
        end,
        at,
    })
}

/// `NAME HOST TIME`.
fn released_of(words: &[&[u8]]) -> Option<Change>
    ensures { (c : ChangeValue) → (result ≡ Some c) ↔ SaysOf forms.Three verbs.Released (texts words.now) c }
{
    let values = <(Name, (Host, (u64, ())))>::read_all(words);
    values.map(|(name, (addr, (at, ())))| Change::Released { name, addr, at })
}

/// `TIME`.
fn reached_of(words: &[&[u8]]) -> Option<Change>
    ensures { (c : ChangeValue) → (result ≡ Some c) ↔ SaysOf forms.Three verbs.Reached (texts words.now) c }
{
    let values = <(u64, ())>::read_all(words);
    values.map(|(at, ())| Change::Reached { at })
}

/// `DAY TIME`.
fn looked_of(words: &[&[u8]]) -> Option<Change>
    ensures { (c : ChangeValue) → (result ≡ Some c) ↔ SaysOf forms.Three verbs.Looked (texts words.now) c }
{
    let values = <(u64, (u64, ()))>::read_all(words);
    values.map(|(day, (at, ()))| Change::Looked { day, at })
}

/// `NAME HOST KIND END`, whose time isn't known.
fn older_began_of(words: &[&[u8]]) -> Option<Change>
    ensures { (c : ChangeValue) → (result ≡ Some c) ↔ SaysOf forms.Two verbs.Began (texts words.now) c }
{
    let values = <(Name, (Host, (Kind, (u64, ()))))>::read_all(words);
    values.map(|(name, (addr, (kind, (end, ()))))| Change::Began {
        name,
        lease: Lease { addr, kind, end },
        at: 0,
    })
}

/// `NAME HOST END`, whose time isn't known.
fn older_moved_of(words: &[&[u8]]) -> Option<Change>
    ensures { (c : ChangeValue) → (result ≡ Some c) ↔ SaysOf forms.Two verbs.Moved (texts words.now) c }
{
    let values = <(Name, (Host, (u64, ())))>::read_all(words);
    values.map(|(name, (addr, (end, ())))| Change::Moved {
        name,
        addr,
        end,
        at: 0,
    })
}

/// `NAME HOST`, whose time isn't known.
fn older_released_of(words: &[&[u8]]) -> Option<Change>
    ensures { (c : ChangeValue) → (result ≡ Some c) ↔ SaysOf forms.Two verbs.Released (texts words.now) c }
{
    let values = <(Name, (Host, ()))>::read_all(words);
    values.map(|(name, (addr, ()))| Change::Released { name, addr, at: 0 })
}
