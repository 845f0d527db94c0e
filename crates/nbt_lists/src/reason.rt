//! Why something of a file isn't imported.

use nbt_front::LineFault;
use std::alloc::{AllocError, AllocFailed};
use std::fmt;

/// Why a line, or a name of it, is left out.
#[derive(Clone, Copy, Debug, PartialEq, Eq)]
pub enum Reason {
    /// The line is none of such a file.
    NoLine,
    /// No character, or more than fifteen.
    Length,
    /// An octet that isn't from 0x20 to 0x7E: which character it is depends on a code page.
    Character,
    /// Its time is over.
    Over,
    /// It was released, or is in conflict.
    Released,
    /// The line names another file.
    Include,
    /// The machine told no name.
    Unknown,
    /// It is a group's.
    Group,
    /// `nbns --fixed` wouldn't take it.
    Fixed(LineFault),
}

impl fmt::Display for Reason {
    fn fmt<W: fmt::Write>(&self, f: &mut fmt::Formatter<W>) -> fmt::Result {
        match self {
            Reason::NoLine => f.write_str("no line of such a file"),
            Reason::Length => f.write_str("a name has 1 to 15 characters"),
            Reason::Character => {
                f.write_str("no character of ASCII; write the name as hex: and 32 digits")
            }
            Reason::Over => f.write_str("its time is over"),
            Reason::Released => f.write_str("released, or in conflict"),
            Reason::Include => f.write_str("names in another file, which can be imported too"),
            Reason::Unknown => f.write_str("no name"),
            Reason::Group => f.write_str("a group, which its machines join by themselves"),
            Reason::Fixed(fault) => fault.fmt(f),
        }
    }
}

/// Why a line isn't read.
#[derive(Clone, Copy, Debug, PartialEq, Eq)]
pub enum Unread {
    /// Out of memory.
    Memory,
    /// It is left out.
    Left(Reason),
}

impl From<Reason> for Unread {
    fn from(reason: Reason) -> Unread {
        Unread::Left(reason)
    }
}

impl From<AllocError> for Unread {
    fn from(_error: AllocError) -> Unread {
        Unread::Memory
    }
}

impl<T: Drop> From<AllocFailed<T>> for Unread {
    fn from(_error: AllocFailed<T>) -> Unread {
        Unread::Memory
    }
}
