//! The word that the line of a change begins with.

ghost use Rattle.std.specs.Prelude.{◌≡◌, ◌↔◌, Some};
ghost use Rattle.nbt_store.specs.declared.verb.Verb.{Verb};
ghost use Rattle.nbt_store.specs.Records.{verb_word};

/// What a change is, by the first word of its line.
#[derive(Clone, Copy, Debug, PartialEq, Eq)]
pub(crate) enum Verb {
    /// `began`: a lease began.
    Began,
    /// `moved`: a lease has another expiry.
    Moved,
    /// `released`: a lease was released.
    Released,
    /// `reached`: the server's clock came to a time.
    Reached,
    /// `looked`: the same, with the time of day.
    Looked,
}

/// The verb that a word is.
pub(crate) fn verb_of(word: &[u8]) -> Option<Verb>
    ensures { (verb : Verb) → (result ≡ Some verb) ↔ (word.now ≡ verb_word verb) }
{
    match word {
        b"began" => Some(Verb::Began),
        b"moved" => Some(Verb::Moved),
        b"released" => Some(Verb::Released),
        b"reached" => Some(Verb::Reached),
        b"looked" => Some(Verb::Looked),
        _ => None,
    }
}
