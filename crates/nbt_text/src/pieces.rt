//! Octets in pieces: the lines of an input, the components of a name.

ghost use Rattle.std.specs.Prelude.{◌≡◌, ◌∷◌, ◌++◌, MatchOption};
ghost use Rattle.nbt_text.specs.Lines.{HasNo};

/// The octets before the first `mark`, and those after it, or all of them and nothing where there is no `mark`.
pub fn split_at_first(mark: u8, octets: &[u8]) -> (&[u8], Option<&[u8]>)
    ensures whole { MatchOption result.1 (octets.now ≡ result.0.now) (λ rest. octets.now ≡ result.0.now ++ mark ∷ rest.now) }
    ensures first { HasNo mark result.0.now }
{
    match octets.iter().position(|octet| *octet == mark) {
        Some(place) => (&octets[..place], Some(&octets[place + 1..])),
        None => (octets, None),
    }
}
