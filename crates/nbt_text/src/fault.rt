//! Why a word spells no name.

ghost use Rattle.std.specs.Prelude.{◌≡◌};
ghost use Rattle.nbt_text.specs.Faults.{fault_number};

use thiserror::Error;

/// What is wrong with a word that is to spell a name (our profile's numbers, words and order). The first of them is reported:
/// `Digits` alone of a word that begins with `hex:`, and then `Scope`; else they come in their order.
#[derive(Clone, Copy, Debug, PartialEq, Eq, Error)]
pub enum Fault {
    /// 1: no character stands before the suffix.
    #[error("no characters, at least 1")]
    Empty,
    /// 2: more than 15 characters stand before the suffix; it is how many.
    #[error("{0} characters, at most 15")]
    Long(usize),
    /// 3: at this place, counted from 0, stands an octet outside 0x21 to 0x7E. The text counts from 1.
    #[error("character {} is none from ! to ~; write hex: and 32 digits", .0.saturating_add(1))]
    Character(usize),
    /// 4: what follows the characters is no suffix: `#` and two hexadecimal digits, or these between `<` and `>`.
    #[error("a suffix is #20 or <20>, with two hexadecimal digits")]
    Suffix,
    /// 5: no 32 hexadecimal digits follow `hex:`.
    #[error("hex: stands before 32 hexadecimal digits")]
    Digits,
    /// 6: the scope's text is no row of labels with dots between them, or has more than 1,000 characters, or its labels
    /// and their length octets more than 221 octets.
    #[error("the scope can't be read")]
    Scope,
}

impl Fault {
    /// The number of the fault, 1 to 6 (our profile).
    pub fn number(self) -> u8
        ensures { result ≡ fault_number self }
    {
        match self {
            Fault::Empty => 1,
            Fault::Long(_) => 2,
            Fault::Character(_) => 3,
            Fault::Suffix => 4,
            Fault::Digits => 5,
            Fault::Scope => 6,
        }
    }
}
