//! Why a command that opens no socket failed.

ghost use Rattle.std.specs.Prelude.{◌≡◌};

use hex::FromHexError;
use nbt_port::Fault;
use std::alloc::AllocError;
use std::io;

/// Why a command that opens no socket failed.
#[derive(Clone, Copy)]
pub enum Failure {
    /// An argument or the input can't be read.
    Unreadable,
    /// The input failed, or out of memory.
    Fault(Fault),
}

impl From<AllocError> for Failure {
    ghost use Rattle.nbt_prog.specs.Failures.{out_of_memory};

    ghost from_gives = { λ _ failure. failure ≡ out_of_memory };

    fn from(_error: AllocError) -> Failure {
        Failure::Fault(Fault::Memory)
    }
}

impl From<FromHexError> for Failure {
    ghost use Rattle.nbt_prog.specs.Failures.{failure_of_hex};

    ghost from_gives = { λ error failure. failure ≡ failure_of_hex error };

    fn from(error: FromHexError) -> Failure {
        match error {
            FromHexError::OutOfMemory => Failure::Fault(Fault::Memory),
            _ => Failure::Unreadable,
        }
    }
}

impl From<io::Error> for Failure {
    ghost use Rattle.nbt_port.specs.Faults.{fault_of_io};
    ghost use Rattle.nbt_prog.specs.declared.offline.failure.Failure.TheVariants as failure;

    ghost from_gives = { λ error result. result ≡ failure.Fault (fault_of_io error) };

    fn from(error: io::Error) -> Failure {
        Failure::Fault(Fault::from(error))
    }
}
