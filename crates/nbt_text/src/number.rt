//! Numbers as text (our profile): decimal digits alone, by value.

ghost use Rattle.std.specs.Prelude.{◌≡◌, ◌↔◌, ◌≤◌, ℕ, Some, IsSome, IfSome, IfNone};
ghost use Rattle.nbt_text.specs.Number.{SpellsNumber, SpellsWithin};

/// Reads a number below 2^64: one digit or more and nothing else, of which the first ones may be zeros. So there is
/// no sign and no space.
pub fn parse_number(text: &[u8]) -> Option<u64>
    ensures { (number : ℕ) → (result ≡ Some number) ↔ SpellsNumber text.now number }
{
    if text.first() == Some(&b'+') {
        return None;
    }
    str::from_utf8(text).ok()?.parse::<u64>().ok()
}

/// Reads a number, as [`parse_number`] does, of at least `least` and at most `most`.
pub fn number_within(text: &str, least: u64, most: u64) -> Option<u64>
    ensures read { IfSome result (SpellsWithin least most text.now) }
    ensures none { IfNone result ((number : ℕ) → ¬ SpellsWithin least most text.now number) }
{
    match parse_number(text.as_bytes()) {
        Some(number) => between(number, least, most),
        None => None,
    }
}

/// The number, if it is within these limits.
pub(crate) fn between(number: u64, least: u64, most: u64) -> Option<u64>
    ensures found { IsSome result ↔ ((least ≤ number) × (number ≤ most)) }
    ensures value { IfSome result (λ n. n ≡ number) }
{
    if least <= number && number <= most {
        Some(number)
    } else {
        None
    }
}
