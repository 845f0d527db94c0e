//! What a file can have wrong.

ghost use Rattle.std.specs.Prelude.{◌≡◌};
ghost use Rattle.nbt_store.specs.Numbers.{fault_number};
ghost use Rattle.nbt_store.specs.declared.fault.ReadFault.TheVariants.{Memory};

use std::alloc::{AllocError, AllocFailed};
use thiserror::Error;

/// Why octets are no file of a store (our profile's numbers and order).
#[derive(Clone, Copy, Debug, PartialEq, Eq, Error)]
pub enum Fault {
    /// 1: no line has its end.
    #[error("nothing kept")]
    Empty,
    /// 2: the first line is of another version.
    #[error("another version")]
    Version,
    /// 3: this line, counted from 1, is not what it should be, or is missing.
    #[error("damaged at line {0}")]
    Damaged(usize),
}

impl Fault {
    /// The number of the fault, 1 to 3 (our profile).
    pub fn number(self) -> u8
        ensures { result ≡ fault_number self }
    {
        match self {
            Fault::Empty => 1,
            Fault::Version => 2,
            Fault::Damaged(_) => 3,
        }
    }
}

/// Why a file isn't read.
#[derive(Clone, Copy, Debug, PartialEq, Eq, Error)]
pub enum ReadFault {
    /// Out of memory.
    #[error("out of memory")]
    Memory,
    /// The octets are no file of a store.
    #[error("{0}")]
    File(Fault),
}

impl From<AllocError> for ReadFault {
    ghost from_gives = { λ _ fault. fault ≡ Memory };

    fn from(_: AllocError) -> Self {
        ReadFault::Memory
    }
}

impl<T: Drop> From<AllocFailed<T>> for ReadFault {
    ghost from_gives = { λ _ fault. fault ≡ Memory };

    fn from(_: AllocFailed<T>) -> Self {
        ReadFault::Memory
    }
}
