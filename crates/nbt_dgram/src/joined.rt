//! What a packet that is put to a joiner leads to.

ghost use Rattle.std.specs.Prelude.{◌≡◌};

use crate::dgram::Names;
use thiserror::Error;

/// Why a packet is dropped (our profile).
#[derive(Clone, Copy, Debug, PartialEq, Eq, Error)]
pub enum Dropped {
    /// 1: the fragment ends past 512 octets of data.
    #[error("TooLong")]
    TooLong,
    /// 2: the fragment doesn't agree with those that came before it.
    #[error("Conflict")]
    Conflict,
    /// 3: the fragment is of a new datagram, and no slot is free.
    #[error("Full")]
    Full,
    /// 4: the time is before an earlier one.
    #[error("ClockBack")]
    ClockBack,
}

impl Dropped {
    ghost use Rattle.nbt_dgram.specs.Numbers.{dropped_number};

    /// The number of the refusal, 1 to 4 (our profile).
    pub fn number(self) -> u8
        ensures { result ≡ dropped_number self }
    {
        match self {
            Dropped::TooLong => 1,
            Dropped::Conflict => 2,
            Dropped::Full => 3,
            Dropped::ClockBack => 4,
        }
    }
}

/// What a packet that is put to a joiner leads to.
#[derive(Debug, Drop)]
pub enum Joined<'a> {
    /// The datagram is whole: its names and its data, lent by the one packet that has them, of any length, or by the room in
    /// which the fragments were put together, of at most 512 octets.
    Whole(Names<'a>, &'a [u8]),
    /// Other fragments are missing.
    Waiting,
    /// The packet is dropped.
    Dropped(Dropped),
}

/// What a fragment leads to. The datagram that it makes whole stands in the room for it.
#[derive(Debug, Drop)]
pub(crate) enum Step {
    Whole,
    Waiting,
    Dropped(Dropped),
}
