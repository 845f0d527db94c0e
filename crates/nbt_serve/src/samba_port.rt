//! A port over which Samba's registrations come as registrations.

ghost use Rattle.std.specs.Prelude.{◌≡◌, Ok};
ghost use Rattle.nbt_port.specs.PortCalls.{receiving};
ghost use Rattle.nbt_serve.specs.SambaPort.{Becomes};

use crate::samba::take_registration;
use arrayvec::ArrayVec;
use nbt_port::{Cause, Device, OwnReplies, Port, Route};
use std::io::Write;
use std::marker::Model;

/// A port over another, which hands on what that one receives and sends what it is given. A datagram that
/// [`take_registration`] takes comes as a registration, one octet of it changed; every other comes as it is. A contract
/// sees of it the port beneath.
#[derive(Drop)]
pub struct SambaPort<P> {
    beneath: P,
}

impl<P> Model for SambaPort<P> {
    ghost Value = { P };

    ghost view = { λ p. p.beneath };
}

impl<P> SambaPort<P> {
    /// A port over this one.
    pub fn new(beneath: P) -> SambaPort<P>
        ensures { result ≡ beneath }
    {
        SambaPort { beneath }
    }

    /// The port beneath.
    pub fn beneath(&self) -> &P
        ensures { result.now ≡ self.now }
    {
        &self.beneath
    }
}

impl<P: Port> Port for SambaPort<P> {
    ghost use Rattle.nbt_serve.specs.SambaPort.{HandsOn};

    ghost does = { HandsOn P.does };

    ghost failures = { P.failures };

    fn receive(&mut self, octets: &mut ArrayVec<u8, 2048>) -> Result<Option<Route>, Device> {
        let from = self.beneath.receive(octets)?;
        hand_on(from, octets);
        Ok(from)
    }

    fn receive_now(&mut self, octets: &mut ArrayVec<u8, 2048>) -> Result<Option<Route>, Device> {
        let from = self.beneath.receive_now(octets)?;
        hand_on(from, octets);
        Ok(from)
    }

    fn send(&mut self, to: Route, octets: &[u8]) -> Result<(), Device> {
        self.beneath.send(to, octets)
    }

    fn failures(&self) -> u64 {
        self.beneath.failures()
    }

    fn cause(&self) -> Option<Cause> {
        self.beneath.cause()
    }

    fn own_replies(&self) -> OwnReplies {
        self.beneath.own_replies()
    }

    fn tell_changes<E: Write>(&self, errors: &mut E) {
        self.beneath.tell_changes(errors)
    }
}

/// Makes of what was received, if something was, what is handed on.
fn hand_on(from: Option<Route>, octets: &mut ArrayVec<u8, 2048>)
    ensures { Becomes (receiving (Ok from) octets.old.items) (receiving (Ok from) octets.new.items) }
{
    if from.is_some() {
        take_registration(octets.as_mut_slice());
    }
}
