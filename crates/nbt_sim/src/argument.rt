//! The words after a verb: kinds of argument, one after the other.

ghost use Rattle.std.specs.Prelude.{◌≡◌, ◌↔◌, ℕ, List, Some};
ghost use Rattle.nbt_text.specs.Texts.{texts};

/// A kind of argument: what one word is read as.
pub trait Argument {
    /// What the word says.
    type Value: Drop;

    ghost spells: { List ℕ → Self.Value → Type 0 };

    /// What the word spells.
    fn read(word: &[u8]) -> Option<Self::Value>
        ensures { (value : Self.Value) → (result ≡ Some value) ↔ spells word.now value };
}

/// The kinds of the arguments of a verb, in their order: `()`, or the first one and the others.
pub trait Arguments {
    /// What the words say.
    type Values;

    ghost spell: { List (List ℕ) → Self.Values → Type 0 };

    /// What the words spell.
    fn read_all(words: &[&[u8]]) -> Option<Self::Values>
        ensures { (values : Self.Values) → (result ≡ Some values) ↔ spell (texts words.now) values };
}

impl Arguments for () {
    ghost use Rattle.nbt_sim.specs.Arguments.{NoMore};

    type Values = ();

    ghost spell = { NoMore };

    fn read_all(words: &[&[u8]]) -> Option<()> {
        if words.is_empty() { Some(()) } else { None }
    }
}

impl<A: Argument, R: Arguments> Arguments for (A, R) {
    ghost use Rattle.nbt_sim.specs.Arguments.{Then};

    type Values = (A::Value, R::Values);

    ghost spell = { Then A.spells R.spell };

    fn read_all(words: &[&[u8]]) -> Option<(A::Value, R::Values)> {
        let (first, others) = words.split_first()?;
        let value = A::read(*first)?;
        let values = R::read_all(others)?;
        Some((value, values))
    }
}
