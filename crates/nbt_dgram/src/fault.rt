//! What a datagram's octets can have wrong, and where; and why a datagram is not written, split or joined.

ghost use Rattle.std.specs.Prelude.{◌≡◌, ◌↔◌, Some};
ghost use Rattle.nbt_dgram.specs.declared.fault.DgramFaultKind.{DgramFaultKind};

use nbt_name::{NameFault, NameFaultKind};
use thiserror::Error;

/// What is wrong at a place of a datagram (RFC 1002 section 4.4; the numbers are our profile's).
#[derive(Clone, Copy, Debug, PartialEq, Eq, Error)]
#[error("{}", self.word())]
pub enum DgramFaultKind {
    /// 1: the octets end within the datagram. The place is their length.
    Short,
    /// 2: no label begins with this octet. The place is the octet's.
    BadLabel,
    /// 3: one of a name's 32 letters is outside `A` to `P`. The place is the letter's.
    BadHalf,
    /// 4: a pointer, which no name of a datagram has. The place is the pointer's.
    BadPointer,
    /// 5: with this label a name's wire form would pass 255 octets. The place is that of the label's length octet.
    Long,
    /// 6: MSG_TYPE is not 0x10 to 0x16. The place is 0.
    BadType,
    /// 7: F is set, and PACKET_OFFSET isn't 0. The place is 12.
    BadOffset,
    /// 8: the names end after the octets that DGM_LENGTH counts. The place is 10.
    BadLength,
}

impl DgramFaultKind {
    ghost use Rattle.nbt_dgram.specs.Numbers.{fault_number, fault_word};

    /// The number of the fault, 1 to 8 (our profile).
    pub fn number(self) -> u8
        ensures { result ≡ fault_number self }
    {
        match self {
            DgramFaultKind::Short => 1,
            DgramFaultKind::BadLabel => 2,
            DgramFaultKind::BadHalf => 3,
            DgramFaultKind::BadPointer => 4,
            DgramFaultKind::Long => 5,
            DgramFaultKind::BadType => 6,
            DgramFaultKind::BadOffset => 7,
            DgramFaultKind::BadLength => 8,
        }
    }

    /// The word by which the fault is printed and read: its name (our profile).
    pub fn word(self) -> &'static str
        ensures { result.now ≡ fault_word self }
    {
        match self {
            DgramFaultKind::Short => "Short",
            DgramFaultKind::BadLabel => "BadLabel",
            DgramFaultKind::BadHalf => "BadHalf",
            DgramFaultKind::BadPointer => "BadPointer",
            DgramFaultKind::Long => "Long",
            DgramFaultKind::BadType => "BadType",
            DgramFaultKind::BadOffset => "BadOffset",
            DgramFaultKind::BadLength => "BadLength",
        }
    }

    /// The kind of fault that a word names; `None` where it names none.
    pub fn from_word(word: &[u8]) -> Option<DgramFaultKind>
        ensures { (kind : DgramFaultKind) → (result ≡ Some kind) ↔ (word.now ≡ fault_word kind) }
    {
        match word {
            b"Short" => Some(DgramFaultKind::Short),
            b"BadLabel" => Some(DgramFaultKind::BadLabel),
            b"BadHalf" => Some(DgramFaultKind::BadHalf),
            b"BadPointer" => Some(DgramFaultKind::BadPointer),
            b"Long" => Some(DgramFaultKind::Long),
            b"BadType" => Some(DgramFaultKind::BadType),
            b"BadOffset" => Some(DgramFaultKind::BadOffset),
            b"BadLength" => Some(DgramFaultKind::BadLength),
            _ => None,
        }
    }
}

impl From<NameFaultKind> for DgramFaultKind {
    ghost use Rattle.std.specs.Prelude.{◌≡◌};
    ghost use Rattle.nbt_dgram.specs.Numbers.{kind_of};

    ghost from_gives = { λ n k. k ≡ kind_of n };

    fn from(kind: NameFaultKind) -> DgramFaultKind {
        match kind {
            NameFaultKind::Short => DgramFaultKind::Short,
            NameFaultKind::BadLabel => DgramFaultKind::BadLabel,
            NameFaultKind::BadHalf => DgramFaultKind::BadHalf,
            NameFaultKind::BadPointer => DgramFaultKind::BadPointer,
            NameFaultKind::Long => DgramFaultKind::Long,
        }
    }
}

/// The first fault of a datagram in reading order, and its place, counted from the datagram's first octet.
#[derive(Clone, Copy, Debug, PartialEq, Eq, Error)]
#[error("{kind} at {place}")]
pub struct DgramFault {
    /// What is wrong.
    pub kind: DgramFaultKind,
    /// Where.
    pub place: usize,
}

impl From<NameFault> for DgramFault {
    ghost use Rattle.std.specs.Prelude.{◌≡◌};
    ghost use Rattle.nbt_dgram.specs.Numbers.{fault_of};

    ghost from_gives = { λ n f. f ≡ fault_of n };

    fn from(fault: NameFault) -> DgramFault {
        DgramFault {
            kind: DgramFaultKind::from(fault.kind),
            place: fault.place,
        }
    }
}

/// 1: a datagram's written form is longer than the 576 octets of a packet (RFC 1002 section 6).
#[derive(Clone, Copy, Debug, PartialEq, Eq, Error)]
#[error("Full")]
pub struct Full;

impl Full {
    /// The number of the refusal, 1 (our profile).
    pub fn number(self) -> u8
        ensures { result ≡ 1 }
    {
        1
    }
}

/// 1: more than 512 octets of data (our profile).
#[derive(Clone, Copy, Debug, PartialEq, Eq, Error)]
#[error("TooLong")]
pub struct TooLong;

impl TooLong {
    /// The number of the refusal, 1 (our profile).
    pub fn number(self) -> u8
        ensures { result ≡ 1 }
    {
        1
    }
}
