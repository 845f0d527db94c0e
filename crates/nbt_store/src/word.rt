//! The words of a line: kinds of words, one after the other.

ghost use Rattle.std.specs.Prelude.{◌≡◌, ◌↔◌, ℕ, List, Some};
ghost use Rattle.nbt_text.specs.Texts.{texts};

use nbt_name::{Kind, Name};
use nbt_text::{parse_address, parse_name, parse_number};

/// The port of the name service (RFC 1002 section 4.2.1).
pub(crate) const NAME_SERVICE: u16 = 137;

/// A kind of word: what one word is read as.
pub(crate) trait Word {
    /// What the word says.
    type Value: Drop;

    ghost spells: { List ℕ → Self.Value → Type 0 };

    /// What the word spells.
    fn read(word: &[u8]) -> Option<Self::Value>
        ensures { (value : Self.Value) → (result ≡ Some value) ↔ spells word.now value };
}

/// Kinds of words in their order: `()`, or the first one and the others.
pub(crate) trait Words {
    /// What the words say.
    type Values;

    ghost spell: { List (List ℕ) → Self.Values → Type 0 };

    /// What the words spell.
    fn read_all(words: &[&[u8]]) -> Option<Self::Values>
        ensures { (values : Self.Values) → (result ≡ Some values) ↔ spell (texts words.now) values };
}

impl Words for () {
    ghost use Rattle.nbt_store.specs.Words.{NoMore};

    type Values = ();

    ghost spell = { NoMore };

    fn read_all(words: &[&[u8]]) -> Option<()> {
        if words.is_empty() { Some(()) } else { None }
    }
}

impl<A: Word, R: Words> Words for (A, R) {
    ghost use Rattle.nbt_store.specs.Words.{Then};

    type Values = (A::Value, R::Values);

    ghost spell = { Then A.spells R.spell };

    fn read_all(words: &[&[u8]]) -> Option<(A::Value, R::Values)> {
        let (first, others) = words.split_first()?;
        let value = A::read(*first)?;
        let values = R::read_all(others)?;
        Some((value, values))
    }
}

impl Word for Name {
    ghost use Rattle.nbt_text.specs.NameText.{SpellsName};

    type Value = Name;

    ghost spells = { SpellsName };

    fn read(word: &[u8]) -> Option<Name> {
        parse_name(word)
    }
}

/// A host's 32-bit address, at the port of the name service.
pub(crate) struct Host;

impl Word for Host {
    ghost use Rattle.nbt_store.specs.Words.{SpellsHost};

    type Value = u32;

    ghost spells = { SpellsHost };

    fn read(word: &[u8]) -> Option<u32> {
        let end = parse_address(str::from_utf8(word).ok()?)?;
        if end.port == NAME_SERVICE {
            Some(end.ip)
        } else {
            None
        }
    }
}

/// Room for the further addresses of a lease, which has none: `-`.
pub(crate) struct NoFurther;

impl Word for NoFurther {
    ghost use Rattle.nbt_store.specs.Words.{SpellsNone};

    type Value = ();

    ghost spells = { SpellsNone };

    fn read(word: &[u8]) -> Option<()> {
        match word {
            b"-" => Some(()),
            _ => None,
        }
    }
}

/// A kind, `unique` or `group`.
impl Word for Kind {
    ghost use Rattle.nbt_store.specs.Words.{SpellsKind};

    type Value = Kind;

    ghost spells = { SpellsKind };

    fn read(word: &[u8]) -> Option<Kind> {
        match word {
            b"unique" => Some(Kind::Unique),
            b"group" => Some(Kind::Group),
            _ => None,
        }
    }
}

/// A number below 2^64.
impl Word for u64 {
    ghost use Rattle.nbt_text.specs.Number.{SpellsNumber};

    type Value = u64;

    ghost spells = { SpellsNumber };

    fn read(word: &[u8]) -> Option<u64> {
        parse_number(word)
    }
}
