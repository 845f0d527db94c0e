//! What a session's stream can have wrong, and where; and why a packet is not written.

ghost use Rattle.std.specs.Prelude.{◌≡◌};
ghost use Rattle.nbt_session.specs.Numbers.{kind_number, kind_word, stream_fault_number, encode_fault_number};

use std::alloc::AllocError;
use thiserror::Error;

/// What is wrong at a place of a session packet (RFC 1002 section 4.3.1; the numbers are our profile's).
#[derive(Clone, Copy, Debug, PartialEq, Eq, Error)]
#[error("{}", self.word())]
pub enum FaultKind {
    /// 1: no packet has this TYPE. The place is 0.
    BadType,
    /// 2: a bit of FLAGS other than E is set. The place is 1.
    BadFlags,
    /// 3: packets of the type don't have this LENGTH, or a request's names don't fill it. The place is 2.
    BadLength,
    /// 4: a request's name can't be read. The place is that of the name's fault.
    BadName,
}

impl FaultKind {
    /// The number of the fault, 1 to 4 (our profile).
    pub fn number(self) -> u8
        ensures { result ≡ kind_number self }
    {
        match self {
            FaultKind::BadType => 1,
            FaultKind::BadFlags => 2,
            FaultKind::BadLength => 3,
            FaultKind::BadName => 4,
        }
    }

    /// The word by which the fault is printed: its name (our profile).
    pub fn word(self) -> &'static str
        ensures { result.now ≡ kind_word self }
    {
        match self {
            FaultKind::BadType => "BadType",
            FaultKind::BadFlags => "BadFlags",
            FaultKind::BadLength => "BadLength",
            FaultKind::BadName => "BadName",
        }
    }
}

/// The first fault of a session packet, and its place, counted from the packet's first octet.
#[derive(Clone, Copy, Debug, PartialEq, Eq, Error)]
#[error("{kind} at {place}")]
pub struct Fault {
    /// What is wrong.
    pub kind: FaultKind,
    /// Where.
    pub place: usize,
}

/// Why a stream took no octets (our profile's numbers).
#[derive(Clone, Copy, Debug, PartialEq, Eq, Error)]
pub enum StreamFault {
    /// 1 to 4: what comes next on the stream is no packet. The stream returns this from then on.
    #[error("{0}")]
    Malformed(Fault),
    /// 5: out of memory. The stream is as it was.
    #[error("OutOfMemory")]
    OutOfMemory,
}

impl StreamFault {
    /// The number of the fault, 1 to 5 (our profile).
    pub fn number(self) -> u8
        ensures { result ≡ stream_fault_number self }
    {
        match self {
            StreamFault::Malformed(fault) => fault.kind.number(),
            StreamFault::OutOfMemory => 5,
        }
    }
}

impl From<Fault> for StreamFault {
    ghost use Rattle.std.specs.Prelude.{◌≡◌};
    ghost use Rattle.nbt_session.specs.declared.fault.StreamFault.TheVariants.{Malformed};

    ghost from_gives = { λ fault stream. stream ≡ Malformed fault };

    fn from(fault: Fault) -> StreamFault {
        StreamFault::Malformed(fault)
    }
}

impl From<AllocError> for StreamFault {
    ghost use Rattle.std.specs.Prelude.{◌≡◌};
    ghost use Rattle.nbt_session.specs.declared.fault.StreamFault.TheVariants.{OutOfMemory};

    ghost from_gives = { λ _ fault. fault ≡ OutOfMemory };

    fn from(_error: AllocError) -> StreamFault {
        StreamFault::OutOfMemory
    }
}

/// Why a packet wasn't written (our profile's numbers and order).
#[derive(Clone, Copy, Debug, PartialEq, Eq, Error)]
pub enum EncodeFault {
    /// 1: the message is longer than the 131,071 octets that 17 bits of length can say (RFC 1002 section 4.3.1).
    #[error("TooLong")]
    TooLong,
    /// 2: out of memory.
    #[error("OutOfMemory")]
    OutOfMemory,
}

impl EncodeFault {
    /// The number of the refusal, 1 or 2 (our profile).
    pub fn number(self) -> u8
        ensures { result ≡ encode_fault_number self }
    {
        match self {
            EncodeFault::TooLong => 1,
            EncodeFault::OutOfMemory => 2,
        }
    }
}

impl From<AllocError> for EncodeFault {
    ghost use Rattle.std.specs.Prelude.{◌≡◌};
    ghost use Rattle.nbt_session.specs.declared.fault.EncodeFault.TheVariants.{OutOfMemory};

    ghost from_gives = { λ _ fault. fault ≡ OutOfMemory };

    fn from(_error: AllocError) -> EncodeFault {
        EncodeFault::OutOfMemory
    }
}
