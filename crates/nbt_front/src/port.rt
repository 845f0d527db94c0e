//! A port before which a front stands.

ghost use Rattle.std.specs.Prelude.{◌≡◌, ◌<◌, ◌^◌, Ok, OnOk, OnErr};
ghost use Rattle.nbt_port.specs.PortCalls.{CountsFailure, receiving};
ghost use Rattle.nbt_front.specs.Deciding.{renewed};
ghost use Rattle.nbt_front.specs.FrontPort.{FrontDoes};

use crate::deciding::Front;
use crate::desk::Desk;
use arrayvec::ArrayVec;
use nbt_lease::{Lease, Moment};
use nbt_name::Name;
use nbt_port::{Cause, Clock, Device, OwnReplies, Port, Route};
use std::alloc::AllocError;
use std::io::Write;
use std::marker::Model;

/// A port over another. It answers each datagram of which the front decides, and hands on every other as it is: so that nothing came is
/// also said of a datagram that was answered. It sends what it is given. A contract sees the port beneath and the front at work.
#[derive(Drop)]
pub struct FrontPort<'a, P, C> {
    beneath: P,
    desk: Desk<'a, C>,
    reply: ArrayVec<u8, 576>,
}

impl<'a, P, C> Model for FrontPort<'a, P, C> {
    ghost use Rattle.nbt_front.specs.FrontPort.{Fronted};

    ghost Value = { Fronted P };

    ghost view = { λ p. record { port = p.beneath; desk = p.desk } };
}

impl<'a, P, C> FrontPort<'a, P, C> {
    /// A port over this one, before which this front stands.
    pub fn new(beneath: P, desk: Desk<'a, C>) -> FrontPort<'a, P, C>
        ensures { result ≡ record { port = beneath; desk = desk.entry } }
    {
        FrontPort {
            beneath,
            desk,
            reply: ArrayVec::new(),
        }
    }

    /// The front at work.
    pub fn desk(&self) -> &Desk<'a, C>
        ensures { result.now ≡ self.now.desk }
    {
        &self.desk
    }

    /// Another front takes the place of this one, as [`Desk::renew`] says.
    pub fn renew(
        &mut self,
        front: Front,
        live: Vec<(Name, Lease)>,
        at: Moment,
    ) -> Result<(), AllocError>
        ensures ok { OnOk result (self.new ≡ record self.old { desk = renewed front live.items at self.old.desk }) }
        ensures err { OnErr result (self.new ≡ self.old) }
    {
        self.desk.renew(front, live, at)
    }

    /// The port beneath.
    pub fn beneath(&self) -> &P
        ensures { result.now ≡ self.now.port }
    {
        &self.beneath
    }
}

impl<'a, P: Port, C: Clock> FrontPort<'a, P, C> {
    /// Answers what came beneath, by its route, where the front decides of it; else hands it on. Refused with `Device` where the
    /// reply can't be sent.
    fn pass(
        &mut self,
        from: Option<Route>,
        octets: &mut ArrayVec<u8, 2048>,
    ) -> Result<Option<Route>, Device>
        ensures does { (before : P) → P.does before (receiving (Ok from) octets.old.items) self.old.port
            → FrontDoes P.does (record { port = before; desk = self.old.desk }) (receiving result octets.new.items) self.new }
        ensures count { CountsFailure (P.failures self.old.port) (P.failures self.new.port) result }
    {
        let Some(route) = from else {
            return Ok(None);
        };
        let reply = &mut self.reply;
        let Some(decision) = self.desk.decide(route.peer, octets.as_slice(), reply) else {
            self.desk.hand_on(route, octets.as_slice());
            return Ok(Some(route));
        };
        octets.clear();
        self.beneath.send(route, self.reply.as_slice())?;
        self.desk.note(route.peer.ip, decision);
        Ok(None)
    }
}

impl<P: Port, C: Clock> Port for FrontPort<'_, P, C> {
    ghost use Rattle.nbt_front.specs.FrontPort.{FrontDoes};

    ghost does = { FrontDoes P.does };

    ghost failures = { λ p. P.failures p.port };

    fn receive(&mut self, octets: &mut ArrayVec<u8, 2048>) -> Result<Option<Route>, Device> {
        self.desk.clear();
        let from = self.beneath.receive(octets)?;
        self.pass(from, octets)
    }

    fn receive_now(&mut self, octets: &mut ArrayVec<u8, 2048>) -> Result<Option<Route>, Device> {
        self.desk.clear();
        let from = self.beneath.receive_now(octets)?;
        self.pass(from, octets)
    }

    fn send(&mut self, to: Route, octets: &[u8]) -> Result<(), Device> {
        self.beneath.send(to, octets)
    }

    fn failures(&self) -> u64 {
        self.beneath.failures()
    }

    fn cause(&self) -> Option<Cause> {
        self.beneath.cause()
    }

    fn lost(&self) -> Option<Cause> {
        self.beneath.lost()
    }

    fn own_replies(&self) -> OwnReplies {
        self.desk.replied()
    }

    fn tell_changes<E: Write>(&self, errors: &mut E) {
        self.beneath.tell_changes(errors);
        self.desk.tell(errors);
    }
}
