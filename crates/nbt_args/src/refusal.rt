//! Why arguments are refused, and what is printed then.

ghost use Rattle.std.specs.Prelude.{◌≡◌};

use clap::Error;
use clap::error::ErrorKind;
use std::alloc::AllocError;
use std::fmt;

/// The text to be printed: help, the version, or what is wrong.
#[derive(Drop)]
pub struct Text {
    error: Error,
}

impl fmt::Display for Text {
    fn fmt<W: fmt::Write>(&self, f: &mut fmt::Formatter<W>) -> fmt::Result {
        self.error.fmt(f)
    }
}

/// Why the program's arguments are refused.
#[derive(Drop)]
pub enum Refusal {
    /// Help or the version was requested.
    Help(Text),
    /// Wrong usage.
    Wrong(Text),
    /// Out of memory.
    Memory,
}

impl From<Error> for Refusal {
    ghost use Rattle.nbt_args.specs.Inner.Refusal.{refusal_of};

    ghost from_gives = { λ error refusal. refusal ≡ refusal_of error };

    fn from(error: Error) -> Refusal {
        match error.kind() {
            ErrorKind::OutOfMemory => Refusal::Memory,
            ErrorKind::DisplayHelp | ErrorKind::DisplayVersion => Refusal::Help(Text { error }),
            _ => Refusal::Wrong(Text { error }),
        }
    }
}

impl From<AllocError> for Refusal {
    ghost use Rattle.nbt_args.specs.declared.refusal.Refusal.TheVariants.{Memory};

    ghost from_gives = { λ _ refusal. refusal ≡ Memory };

    fn from(_error: AllocError) -> Refusal {
        Refusal::Memory
    }
}
