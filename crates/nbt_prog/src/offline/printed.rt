//! What a command prints that succeeds, and how it ends.

ghost use Rattle.std.specs.Prelude.{◌≡◌};
ghost use Rattle.nbt_prog.specs.Printed.{ending_status, is_done};

/// How a command that succeeds ends.
#[derive(Clone, Copy)]
pub enum Ending {
    /// Nothing is wrong.
    Done,
    /// The output reports octets that are refused.
    Refused,
}

impl Ending {
    /// The ending for an input without a fault, or with one.
    pub(crate) fn of(is_well: bool) -> Ending
        ensures { is_done result ≡ is_well }
    {
        if is_well {
            Ending::Done
        } else {
            Ending::Refused
        }
    }

    /// The status with which the program exits.
    pub fn status(self) -> u8
        ensures { result ≡ ending_status self }
    {
        match self {
            Ending::Done => 0,
            Ending::Refused => 1,
        }
    }
}

/// The whole output of a command that succeeds.
#[derive(Drop)]
pub struct Printed {
    pub text: String,
    pub ending: Ending,
}
