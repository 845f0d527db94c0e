//! With which flags a datagram came, before another port changed them.

ghost use Rattle.std.specs.Prelude.{◌≡◌, ℕ, Ok};
ghost use Rattle.nbt_port.specs.PortCalls.{receiving, sending, CountsFailure};
ghost use Rattle.nbt_asking.specs.Flags.{FlagsDoes, flags_in};

use arrayvec::ArrayVec;
use nbt_front::FrontPort;
use nbt_name::read_word;
use nbt_port::{Cause, Device, OwnReplies, Port, Route};
use nbt_serve::SambaPort;
use std::io::Write;
use std::marker::Model;

/// Where the word of R, OPCODE, NM_FLAGS and RCODE stands (RFC 1002 section 4.2.1.1).
const FLAGS: usize = 2;

/// Where that word ends.
const FLAGS_END: usize = 4;

/// What knows with which flags the last datagram came.
pub trait TellsFlags {
    /// Those flags.
    ghost told: { Self → ℕ };

    /// The word of R, OPCODE, NM_FLAGS and RCODE that it had, or 0 if it was too short for one.
    fn flags(&self) -> u16
        ensures { result ≡ told self.now };
}

/// A port over another, which hands on what that one receives and sends what it is given, and remembers the flags of the last
/// datagram.
#[derive(Drop)]
pub struct FlagsPort<P> {
    beneath: P,
    flags: u16,
}

impl<P> Model for FlagsPort<P> {
    ghost use Rattle.nbt_asking.specs.Flags.{FlagsPortValue};

    ghost Value = { FlagsPortValue P };

    ghost view = { λ p. record { port = p.beneath; flags = p.flags } };
}

impl<P> FlagsPort<P> {
    /// A port over this one.
    pub fn new(beneath: P) -> FlagsPort<P>
        ensures { result ≡ record { port = beneath; flags = 0 } }
    {
        FlagsPort { beneath, flags: 0 }
    }

    /// The port beneath.
    pub fn beneath(&self) -> &P
        ensures { result.now ≡ self.now.port }
    {
        &self.beneath
    }
}

impl<P> TellsFlags for FlagsPort<P> {
    ghost told = { λ p. p.flags };

    fn flags(&self) -> u16 {
        self.flags
    }
}

impl<P: Port> Port for FlagsPort<P> {
    ghost does = { FlagsDoes P.does };

    ghost failures = { λ p. P.failures p.port };

    fn receive(&mut self, octets: &mut ArrayVec<u8, 2048>) -> Result<Option<Route>, Device> {
        let from = self.beneath.receive(octets)?;
        self.flags = flags_of(octets.as_slice());
        Ok(from)
    }

    fn receive_now(&mut self, octets: &mut ArrayVec<u8, 2048>) -> Result<Option<Route>, Device> {
        let from = self.beneath.receive_now(octets)?;
        self.flags = flags_of(octets.as_slice());
        Ok(from)
    }

    fn send(&mut self, to: Route, octets: &[u8]) -> Result<(), Device> {
        self.beneath.send(to, octets)
    }

    fn failures(&self) -> u64 {
        self.beneath.failures()
    }

    fn cause(&self) -> Option<Cause> {
        self.beneath.cause()
    }

    fn lost(&self) -> Option<Cause> {
        self.beneath.lost()
    }

    fn own_replies(&self) -> OwnReplies {
        self.beneath.own_replies()
    }

    fn tell_changes<E: Write>(&self, errors: &mut E) {
        self.beneath.tell_changes(errors)
    }
}

impl<P: TellsFlags> TellsFlags for SambaPort<P> {
    ghost told = { P.told };

    fn flags(&self) -> u16 {
        self.beneath().flags()
    }
}

impl<P: TellsFlags, C> TellsFlags for FrontPort<'_, P, C> {
    ghost told = { λ p. P.told p.port };

    fn flags(&self) -> u16 {
        self.beneath().flags()
    }
}

/// The word of flags of these octets; 0 if they have none.
fn flags_of(octets: &[u8]) -> u16
    ensures { result ≡ flags_in octets.now }
{
    if octets.len() < FLAGS_END {
        return 0;
    }
    read_word(octets, FLAGS)
}
