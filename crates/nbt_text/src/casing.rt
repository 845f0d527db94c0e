//! Whether small letters become capitals.

ghost use Rattle.std.specs.Prelude.{◌≡◌};
ghost use Rattle.nbt_text.specs.SuffixedNames.{cased};

/// Whether small letters of a word become capitals, as other tools have it (our profile).
#[derive(Clone, Copy, Debug, PartialEq, Eq)]
pub enum Case {
    /// They do.
    Folded,
    /// They stay.
    Exact,
}

impl Case {
    /// Folds the letters `a` to `z`, where they are to be.
    pub(crate) fn apply(self, octets: &mut [u8])
        ensures { octets.new ≡ cased self octets.old }
    {
        match self {
            Case::Folded => octets.make_ascii_uppercase(),
            Case::Exact => {}
        }
    }
}
