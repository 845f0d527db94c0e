//! Why a server doesn't accept a datagram, and why it doesn't resume.

ghost use Rattle.std.specs.Prelude.{◌≡◌};
ghost use Rattle.nbt_server.specs.Numbers.{server_fault_number, resume_fault_number, resume_fault_of};

use nbt_lease::RestoreFault;
use thiserror::Error;

/// Why a server doesn't accept a datagram (our profile).
#[derive(Clone, Copy, Debug, PartialEq, Eq, Error)]
pub enum ServerFault {
    /// 1: the time is before the server's start, or before that of an earlier datagram that was no `ClockBack`.
    #[error("ClockBack")]
    ClockBack,
    /// 2: out of memory for a new lease, or for a later expiry.
    #[error("OutOfMemory")]
    OutOfMemory,
}

impl ServerFault {
    /// The number of the fault, 1 or 2 (our profile).
    pub fn number(self) -> u8
        ensures { result ≡ server_fault_number self }
    {
        match self {
            ServerFault::ClockBack => 1,
            ServerFault::OutOfMemory => 2,
        }
    }
}

/// Why a server doesn't resume with leases that were kept (our profile's numbers and order).
#[derive(Clone, Copy, Debug, PartialEq, Eq, Error)]
pub enum ResumeFault {
    /// 1: the time is before the server's start, or before its last time.
    #[error("ClockBack")]
    ClockBack,
    /// 2: more of the leases live than the limits allow.
    #[error("TableFull")]
    TableFull,
    /// 3: a name's live leases are none that a server grants by now.
    #[error("Unsound")]
    Unsound,
    /// 4: out of memory.
    #[error("OutOfMemory")]
    OutOfMemory,
}

impl ResumeFault {
    /// The number of the fault, 1 to 4 (our profile).
    pub fn number(self) -> u8
        ensures { result ≡ resume_fault_number self }
    {
        match self {
            ResumeFault::ClockBack => 1,
            ResumeFault::TableFull => 2,
            ResumeFault::Unsound => 3,
            ResumeFault::OutOfMemory => 4,
        }
    }

    /// Why the leases aren't restored.
    pub(crate) fn of_leases(fault: RestoreFault) -> ResumeFault
        ensures { result ≡ resume_fault_of fault }
    {
        match fault {
            RestoreFault::TableFull => ResumeFault::TableFull,
            RestoreFault::Unsound => ResumeFault::Unsound,
            RestoreFault::OutOfMemory => ResumeFault::OutOfMemory,
        }
    }
}
