//! Why a command failed.

ghost use Rattle.std.specs.Prelude.{◌≡◌, ◌≤◌};

use crate::offline;
use nbt_args::{Refusal, Text};
use nbt_port::Fault;
use std::io;

/// Why a command failed.
#[derive(Drop)]
pub enum Failure {
    /// Help or the version was requested.
    Help(Text),
    /// Wrong usage.
    Usage(Text),
    /// An address, a hexadecimal text or the input can't be read.
    Unreadable,
    /// An argument of a command for people who run a network is invalid; standard error says why.
    Complaint,
    /// A port, a clock, a socket, the input or the output failed, or it is out of memory.
    Fault(Fault),
}

impl Failure {
    ghost use Rattle.std.specs.Prelude.{IfSome};
    ghost use Rattle.nbt_prog.specs.Inner.Failure.{failure_status, failure_text};

    /// The exit status: 0 for help, since it was requested.
    pub fn status(&self) -> u8
        ensures value { result ≡ failure_status self.now }
        ensures bound { result ≤ 4 }
    {
        match self {
            Failure::Help(_) => 0,
            Failure::Unreadable => 1,
            Failure::Usage(_) | Failure::Complaint => 2,
            Failure::Fault(fault) => fault.status(),
        }
    }

    /// The line to print, with its end. Empty for help and wrong usage, which have a text of their own, and for a complaint, which standard
    /// error has.
    pub fn line(&self) -> &'static str
        ensures { IfSome (failure_text self.now) (λ text. result.now ≡ text) }
    {
        match self {
            Failure::Help(_) | Failure::Usage(_) | Failure::Complaint => "",
            Failure::Unreadable => "unreadable\n",
            Failure::Fault(fault) => fault.line(),
        }
    }
}

impl From<Fault> for Failure {
    ghost use Rattle.nbt_prog.specs.declared.failure.Failure.TheVariants as failure;

    ghost from_gives = { λ fault result. result ≡ failure.Fault fault };

    fn from(fault: Fault) -> Failure {
        Failure::Fault(fault)
    }
}

impl From<Refusal> for Failure {
    ghost use Rattle.nbt_prog.specs.Inner.Failure.{failure_of_usage};

    ghost from_gives = { λ refusal failure. failure ≡ failure_of_usage refusal };

    fn from(refusal: Refusal) -> Failure {
        match refusal {
            Refusal::Help(text) => Failure::Help(text),
            Refusal::Wrong(text) => Failure::Usage(text),
            Refusal::Memory => Failure::Fault(Fault::Memory),
        }
    }
}

impl From<offline::Failure> for Failure {
    ghost use Rattle.nbt_prog.specs.Inner.Failure.{failure_of_offline};

    ghost from_gives = { λ error failure. failure ≡ failure_of_offline error };

    fn from(error: offline::Failure) -> Failure {
        match error {
            offline::Failure::Unreadable => Failure::Unreadable,
            offline::Failure::Fault(fault) => Failure::Fault(fault),
        }
    }
}

impl From<io::Error> for Failure {
    ghost use Rattle.nbt_port.specs.Faults.{fault_of_io};
    ghost use Rattle.nbt_prog.specs.declared.failure.Failure.TheVariants as failure;

    ghost from_gives = { λ error result. result ≡ failure.Fault (fault_of_io error) };

    fn from(error: io::Error) -> Failure {
        Failure::Fault(Fault::from(error))
    }
}
