//! Ports for datagrams.

ghost use Rattle.std.specs.Prelude.{◌≡◌, ℕ};
ghost use Rattle.nbt_port.specs.PortCalls.{PortCall, receiving, sending, CountsFailure, one_more, route_to};

use crate::cause::Cause;
use arrayvec::ArrayVec;
use nbt_name::Addr;
use std::io::Write;
use thiserror::Error;

/// The most octets of a datagram that a port hands out.
pub const MOST: usize = 2048;

/// A call of a port failed.
#[derive(Clone, Copy, Debug, PartialEq, Eq, Error)]
#[error("device")]
pub struct Device;

/// The two ends of a datagram, as a port sees them.
#[derive(Clone, Copy, Debug, PartialEq, Eq)]
pub struct Route {
    /// The other end: where a datagram came from, or goes to.
    pub peer: Addr,
    /// The port's own end, where it has several addresses: at which of them a datagram came, or from which it is to leave. `None` for
    /// its first.
    pub local: Option<Addr>,
}

impl Route {
    /// To a host, from the port's first address.
    pub fn to(peer: Addr) -> Route
        ensures { result ≡ route_to peer }
    {
        Route { peer, local: None }
    }
}

/// What a port replied by itself, in place of the server over it, since it was made.
#[derive(Clone, Copy, Debug, PartialEq, Eq)]
pub struct OwnReplies {
    /// Requests refused since their sender may not register.
    pub not_allowed: u64,
    /// Requests refused since the name is a fixed one of another address.
    pub fixed_refused: u64,
    /// Registrations, refreshes and releases of a fixed name by its own address.
    pub fixed_confirmed: u64,
    /// Queries for a fixed name.
    pub fixed_found: u64,
}

impl OwnReplies {
    /// None yet.
    pub const NONE: OwnReplies = OwnReplies {
        not_allowed: 0,
        fixed_refused: 0,
        fixed_confirmed: 0,
        fixed_found: 0,
    };
}

/// One failure more, up to 2^64 - 1.
pub(crate) fn one_more(count: u64) -> u64
    ensures { result ≡ one_more count }
{
    count.saturating_add(1)
}

/// A port for datagrams, as UDP has (RFC 768).
pub trait Port {
    /// What a call of it is: the port before, what the call did, and the port afterwards.
    ghost does: { Self → PortCall → Self → Type 0 };

    /// How many calls have failed: 2^64 - 1 stands for all that are more.
    ghost failures: { Self → ℕ };

    /// Waits for a datagram, as long as the port does. Returns its route, or `None` where none came; `octets` then holds its first
    /// 2,048 octets, or as many as it has, or none. Refused with `Device` where the device fails.
    fn receive(&mut self, octets: &mut ArrayVec<u8, 2048>) -> Result<Option<Route>, Device>
        ensures does { does self.old (receiving result octets.new.items) self.new }
        ensures count { CountsFailure (failures self.old) (failures self.new) result };

    /// Receives as [`Port::receive`] does, with the same refusal, but doesn't wait: `None` where nothing has come yet.
    fn receive_now(&mut self, octets: &mut ArrayVec<u8, 2048>) -> Result<Option<Route>, Device>
        ensures does { does self.old (receiving result octets.new.items) self.new }
        ensures count { CountsFailure (failures self.old) (failures self.new) result }
    {
        self.receive(octets)
    }

    /// Sends these octets by a route, a reply by that of its datagram. Refused with `Device` where the device fails: they are lost.
    fn send(&mut self, to: Route, octets: &[u8]) -> Result<(), Device>
        ensures does { does self.old (sending to octets.now result) self.new }
        ensures count { CountsFailure (failures self.old) (failures self.new) result };

    /// How many calls have failed, up to 2^64 - 1.
    fn failures(&self) -> u64
        ensures { result ≡ failures self.now };

    /// Why the last call that failed did, where the port knows it.
    fn cause(&self) -> Option<Cause> {
        None
    }

    /// Why the last datagram to the host that it watches was lost, where it was, and the port watches one: there is no route, and the
    /// device is well.
    fn lost(&self) -> Option<Cause> {
        None
    }

    /// What the port replied by itself, in place of the server over it: nothing, but for a port that replies itself.
    fn own_replies(&self) -> OwnReplies {
        OwnReplies::NONE
    }

    /// Says in `errors` which addresses the port has, or hasn't any more, since its last receive but one, where these change. What can't
    /// be written is passed over.
    fn tell_changes<E: Write>(&self, _errors: &mut E) {}
}
