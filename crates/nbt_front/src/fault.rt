//! What a file of fixed names can have wrong.

ghost use Rattle.std.specs.Prelude.{◌≡◌};
ghost use Rattle.nbt_front.specs.declared.fault.Refused.TheVariants.{Memory};

use crate::fixed::ADDRS_MOST;
use crate::names::NAMES_MOST;
use std::alloc::{AllocError, AllocFailed};
use std::fmt;

/// What is wrong with a line of the file. The first of them is reported, in this order (our profile).
#[derive(Clone, Copy, Debug, PartialEq, Eq)]
pub enum LineFault {
    /// It hasn't three words.
    Words,
    /// The name can't be read.
    Name(nbt_text::Fault),
    /// The name begins with `*`, and is no node's (RFC 1001 section 5.2).
    Star,
    /// The kind is neither `unique` nor `group`.
    Kind,
    /// The address is none.
    Address,
    /// The address isn't of one machine.
    NotOne,
    /// The name would be one more than there may be.
    Full,
    /// An earlier line has the name as another kind.
    Kinds,
    /// A unique name would have a second address, or a group an address twice.
    Twice,
    /// A group would have more addresses than it may have.
    Many,
}

impl fmt::Display for LineFault {
    fn fmt<W: fmt::Write>(&self, f: &mut fmt::Formatter<W>) -> fmt::Result {
        match self {
            LineFault::Words => f.write_str(
                "a name, its kind and an address are wanted, as FILER#20 unique 192.0.2.7",
            ),
            LineFault::Name(fault) => write!(f, "name: {fault}"),
            LineFault::Star => f.write_str("name: no name that begins with * is fixed"),
            LineFault::Kind => f.write_str("kind: unique or group is wanted"),
            LineFault::Address => f.write_str("address: no A.B.C.D in decimal"),
            LineFault::NotOne => f.write_str("address: an address of one machine is wanted"),
            LineFault::Full => {
                let most = NAMES_MOST;
                write!(f, "more than {most} names")
            }
            LineFault::Kinds => f.write_str("an earlier line has this name as another kind"),
            LineFault::Twice => f.write_str(
                "an earlier line has this name: a unique name has one address, and a group each address once",
            ),
            LineFault::Many => {
                let most = ADDRS_MOST;
                write!(f, "more than {most} addresses of one group")
            }
        }
    }
}

/// Why a file of fixed names isn't read.
#[derive(Clone, Copy, Debug, PartialEq, Eq)]
pub enum FileFault {
    /// Out of memory.
    Memory,
    /// This line, counted from 1, can't be taken.
    Line(usize, LineFault),
}

impl From<AllocError> for FileFault {
    ghost use Rattle.nbt_front.specs.declared.fault.FileFault.TheVariants.{Memory};

    ghost from_gives = { λ _ fault. fault ≡ Memory };

    fn from(_: AllocError) -> Self {
        FileFault::Memory
    }
}

/// Why a line of the file isn't taken.
#[derive(Clone, Copy, Debug, PartialEq, Eq)]
pub enum Refused {
    /// Out of memory.
    Memory,
    /// This is wrong with it.
    Line(LineFault),
}

impl From<AllocError> for Refused {
    ghost from_gives = { λ _ refused. refused ≡ Memory };

    fn from(_: AllocError) -> Self {
        Refused::Memory
    }
}

impl<T: Drop> From<AllocFailed<T>> for Refused {
    ghost from_gives = { λ _ refused. refused ≡ Memory };

    fn from(_: AllocFailed<T>) -> Self {
        Refused::Memory
    }
}
