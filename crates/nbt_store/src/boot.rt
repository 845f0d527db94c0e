//! Which boot of the machine it is.

ghost use Rattle.std.specs.Prelude.{◌≡◌, ◌↔◌, List, ℕ, Some, IsTrue};
ghost use Rattle.nbt_store.specs.Boot.{AreMarks, IsBoot, IsMark, SpellsBoot};

use crate::word::Word;
use arrayvec::ArrayVec;
use std::marker::Model;

/// The id of a boot, 1 to 36 characters 0x21 to 0x7E, as Linux has it in `/proc/sys/kernel/random/boot_id`. Times of the
/// machine's monotonic clock are times of one boot.
#[derive(Debug, PartialEq, Eq, Drop)]
pub struct Boot {
    octets: ArrayVec<u8, 36>,
}

impl Model for Boot {
    ghost use Rattle.std.specs.Prelude.{List, ℕ};
    ghost use Rattle.nbt_store.specs.Boot.{IsBoot};

    ghost Value = { List ℕ };

    ghost view = { λ b. b.octets.items };

    ghost invariant = { λ b. IsBoot b.octets.items };

    ghost inverse = { λ v. record { octets = record { items = v } } };
}

/// The most characters of a boot's id.
const BOOT_MOST: usize = 36;

impl Boot {
    /// The id of these characters: `None` if they are none or more than 36, or one isn't 0x21 to 0x7E.
    pub fn new(text: &[u8]) -> Option<Boot>
        ensures { (boot : List ℕ) → (result ≡ Some boot) ↔ SpellsBoot text.now boot }
    {
        if text.is_empty() || text.len() > BOOT_MOST || !are_marks(text) {
            return None;
        }
        let mut octets = ArrayVec::new();
        octets.try_extend_from_slice(text).unwrap();
        Some(Boot { octets })
    }

    /// The characters.
    pub fn octets(&self) -> &[u8]
        ensures value { result.now ≡ self.now }
        ensures boot { IsBoot self.now }
    {
        self.octets.as_slice()
    }
}

/// Whether each octet is a character that is no space.
fn are_marks(octets: &[u8]) -> bool
    ensures { IsTrue result ↔ AreMarks octets.now }
{
    octets.iter().all(|octet| is_mark(*octet))
}

/// Whether an octet is a character that is no space.
fn is_mark(octet: u8) -> bool
    ensures { IsTrue result ↔ IsMark octet }
{
    0x21 <= octet && octet <= 0x7E
}

impl Word for Boot {
    ghost use Rattle.nbt_store.specs.Boot.{SpellsBoot as Spells};

    type Value = Boot;

    ghost spells = { Spells };

    fn read(word: &[u8]) -> Option<Boot> {
        Boot::new(word)
    }
}
