//! What can be wrong with a packet's octets, and where; and a message too long to be written.

ghost use Rattle.std.specs.Prelude.{◌≡◌, ◌↔◌, Some};
ghost use Rattle.nbt_packet.specs.declared.fault.FaultKind.{FaultKind};

use nbt_name::{NameFault, NameFaultKind};
use thiserror::Error;

/// What is wrong at a place of a packet (RFC 1002 section 4.2; the numbers are our profile's).
#[derive(Clone, Copy, Debug, PartialEq, Eq, Error)]
#[error("{}", self.word())]
pub enum FaultKind {
    /// 1 to 5, the kinds of a name's fault, with their places. `Short` (1) stands for octets that end anywhere in the
    /// packet, at their length.
    Name(NameFaultKind),
    /// 6: a count is above 1, or NSCOUNT above 0. The place is the count's.
    TooMany,
}

impl FaultKind {
    ghost use Rattle.nbt_packet.specs.Numbers.{fault_number, fault_word};

    /// The number of the fault, 1 to 6 (our profile).
    pub fn number(self) -> u8
        ensures { result ≡ fault_number self }
    {
        match self {
            FaultKind::Name(kind) => kind.number(),
            FaultKind::TooMany => 6,
        }
    }

    /// The word by which the fault is printed and read: its name, or that of a name's fault (our profile).
    pub fn word(self) -> &'static str
        ensures { result.now ≡ fault_word self }
    {
        match self {
            FaultKind::Name(kind) => kind.word(),
            FaultKind::TooMany => "TooMany",
        }
    }

    /// The kind of fault that a word names; `None` if it names none.
    pub fn from_word(word: &[u8]) -> Option<FaultKind>
        ensures { (kind : FaultKind) → (result ≡ Some kind) ↔ (word.now ≡ fault_word kind) }
    {
        match word {
            b"TooMany" => Some(FaultKind::TooMany),
            _ => {
                let kind = NameFaultKind::from_word(word)?;
                Some(FaultKind::Name(kind))
            }
        }
    }
}

/// The first fault of a packet in reading order, and its place, counted from the packet's first octet.
#[derive(Clone, Copy, Debug, PartialEq, Eq, Error)]
#[error("{kind} at {place}")]
pub struct Fault {
    /// What is wrong.
    pub kind: FaultKind,
    /// Where.
    pub place: usize,
}

impl From<NameFault> for Fault {
    ghost use Rattle.std.specs.Prelude.{◌≡◌};
    ghost use Rattle.nbt_packet.specs.Numbers.{fault_of};

    ghost from_gives = { λ n f. f ≡ fault_of n };

    fn from(fault: NameFault) -> Fault {
        Fault {
            kind: FaultKind::Name(fault.kind),
            place: fault.place,
        }
    }
}

/// 7: a message's written form is longer than the 576 octets of a datagram (RFC 1002 section 6).
#[derive(Clone, Copy, Debug, PartialEq, Eq, Error)]
#[error("Full")]
pub struct Full;

impl Full {
    /// The number of the refusal, 7 (our profile).
    pub fn number(self) -> u8
        ensures { result ≡ 7 }
    {
        7
    }
}
