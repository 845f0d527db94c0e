//! Why a server, a node or a command ends early.

ghost use Rattle.std.specs.Prelude.{◌≡◌, ◌≤◌};
ghost use Rattle.nbt_port.specs.Faults.{fault_status, fault_line};

use crate::port::Device;
use std::alloc::{AllocError, AllocFailed};
use std::io;
use thiserror::Error;

/// Why a server, a node or a command ends early.
#[derive(Clone, Copy, Debug, PartialEq, Eq, Error)]
pub enum Fault {
    /// A port can't be bound.
    #[error("device")]
    NoPort,
    /// The clock can't be read.
    #[error("device")]
    NoClock,
    /// A port, a socket or a reader failed.
    #[error("device")]
    Device,
    /// What is printed can't be written.
    #[error("output")]
    Output,
    /// What keeps a server's leases failed.
    #[error("device")]
    Store,
    /// Out of memory.
    #[error("memory")]
    Memory,
}

impl Fault {
    /// The exit status of a program that ends so: 4 where it is out of memory, else 3.
    pub fn status(self) -> u8
        ensures value { result ≡ fault_status self }
        ensures bound { (3 ≤ result) × (result ≤ 4) }
    {
        match self {
            Fault::NoPort | Fault::NoClock | Fault::Device | Fault::Output | Fault::Store => 3,
            Fault::Memory => 4,
        }
    }

    /// All that the program prints, with the end of the line: `device` or `memory`; nothing where the output failed.
    pub fn line(self) -> &'static str
        ensures { result.now ≡ fault_line self }
    {
        match self {
            Fault::NoPort | Fault::NoClock | Fault::Device | Fault::Store => "device\n",
            Fault::Output => "",
            Fault::Memory => "memory\n",
        }
    }
}

impl From<Device> for Fault {
    ghost use Rattle.nbt_port.specs.declared.fault.Fault.TheVariants as fault;

    ghost from_gives = { λ _ result. result ≡ fault.Device };

    fn from(_failure: Device) -> Fault {
        Fault::Device
    }
}

impl<T: Drop> From<AllocFailed<T>> for Fault {
    ghost use Rattle.nbt_port.specs.declared.fault.Fault.TheVariants.{Memory};

    ghost from_gives = { λ _ result. result ≡ Memory };

    fn from(_error: AllocFailed<T>) -> Fault {
        Fault::Memory
    }
}

impl From<AllocError> for Fault {
    ghost use Rattle.nbt_port.specs.declared.fault.Fault.TheVariants.{Memory};

    ghost from_gives = { λ _ result. result ≡ Memory };

    fn from(_error: AllocError) -> Fault {
        Fault::Memory
    }
}

impl From<io::Error> for Fault {
    ghost use Rattle.nbt_port.specs.Faults.{fault_of_io};

    ghost from_gives = { λ error result. result ≡ fault_of_io error };

    /// What the system refuses is a device's fault, unless it is out of memory.
    fn from(error: io::Error) -> Fault {
        match error.kind() {
            io::ErrorKind::OutOfMemory => Fault::Memory,
            _ => Fault::Device,
        }
    }
}
