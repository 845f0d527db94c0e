//! What can be wrong with a name's octets, and where.

ghost use Rattle.std.specs.Prelude.{◌≡◌, ◌↔◌, Some};
ghost use Rattle.nbt_name.specs.declared.fault.NameFaultKind.{NameFaultKind};
ghost use Rattle.nbt_name.specs.Numbers.{fault_number, fault_word, refusal_number};

use thiserror::Error;

/// What is wrong at a place where a name was due (RFC 1002 section 4.1; the numbers are our profile's).
#[derive(Clone, Copy, Debug, PartialEq, Eq, Error)]
#[error("{}", self.word())]
pub enum NameFaultKind {
    /// 1: the octets end within the name. The place is their length.
    Short,
    /// 2: no label begins with this octet. The place is the octet's.
    BadLabel,
    /// 3: one of the 32 letters is outside `A` to `P`. The place is the letter's.
    BadHalf,
    /// 4: a pointer that doesn't lead to a smaller place, or one in a plain name. The place is the pointer's.
    BadPointer,
    /// 5: with this label the wire form would pass 255 octets. The place is that of the label's length octet.
    Long,
}

impl NameFaultKind {
    /// The number of the fault, 1 to 5 (our profile).
    pub fn number(self) -> u8
        ensures { result ≡ fault_number self }
    {
        match self {
            NameFaultKind::Short => 1,
            NameFaultKind::BadLabel => 2,
            NameFaultKind::BadHalf => 3,
            NameFaultKind::BadPointer => 4,
            NameFaultKind::Long => 5,
        }
    }

    /// The word by which the fault is printed and read: its name (our profile).
    pub fn word(self) -> &'static str
        ensures { result.now ≡ fault_word self }
    {
        match self {
            NameFaultKind::Short => "Short",
            NameFaultKind::BadLabel => "BadLabel",
            NameFaultKind::BadHalf => "BadHalf",
            NameFaultKind::BadPointer => "BadPointer",
            NameFaultKind::Long => "Long",
        }
    }

    /// The kind of fault that a word names; `None` if it names none.
    pub fn from_word(word: &[u8]) -> Option<NameFaultKind>
        ensures { (kind : NameFaultKind) → (result ≡ Some kind) ↔ (word.now ≡ fault_word kind) }
    {
        match word {
            b"Short" => Some(NameFaultKind::Short),
            b"BadLabel" => Some(NameFaultKind::BadLabel),
            b"BadHalf" => Some(NameFaultKind::BadHalf),
            b"BadPointer" => Some(NameFaultKind::BadPointer),
            b"Long" => Some(NameFaultKind::Long),
            _ => None,
        }
    }
}

/// The first fault of a name, and its place, counted from the first of the octets.
#[derive(Clone, Copy, Debug, PartialEq, Eq, Error)]
#[error("{kind} at {place}")]
pub struct NameFault {
    /// What is wrong.
    pub kind: NameFaultKind,
    /// Where.
    pub place: usize,
}

/// Why sixteen octets and a scope make no name that a node may hold (our profile's numbers and order).
#[derive(Clone, Copy, Debug, PartialEq, Eq, Error)]
pub enum NameRefusal {
    /// 1: the first octet is `*` (0x2A), with which no node's name begins (RFC 1001 section 5.2).
    #[error("Star")]
    Star,
    /// 2: the scope has more than 221 octets, so that the wire form would pass 255.
    #[error("ScopeLong")]
    ScopeLong,
    /// 3: the scope is no sequence of labels of 1 to 63 octets, each after its length octet.
    #[error("BadLabel")]
    BadLabel,
}

impl NameRefusal {
    /// The number of the refusal, 1 to 3 (our profile).
    pub fn number(self) -> u8
        ensures { result ≡ refusal_number self }
    {
        match self {
            NameRefusal::Star => 1,
            NameRefusal::ScopeLong => 2,
            NameRefusal::BadLabel => 3,
        }
    }
}
