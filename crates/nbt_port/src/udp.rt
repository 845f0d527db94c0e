//! A port over UDP.

ghost use Rattle.std.specs.Prelude.{◌≡◌, ◌≤◌, ◌↔◌, [], None, Ok, IfOk, IsTrue};
ghost use Rattle.std.specs.IoError.{error_kind};
ghost use Rattle.nbt_port.specs.Numbers.{octets_most};
ghost use Rattle.nbt_port.specs.PortCalls.{receiving, CountsFailure};
ghost use Rattle.nbt_port.specs.Inner.Sockets.{IsNothing, HasNoWay, Received, Sent};

use crate::cause::{Cause, MachineCall};
use crate::port::{Device, MOST, Port, Route, one_more};
use arrayvec::ArrayVec;
use nbt_name::Addr;
use std::io;
use std::io::ErrorKind;
use std::marker::Model;
use std::net::{IpAddr, Ipv4Addr, Net, SocketAddr, UdpSocket};
use std::time::Duration;

/// How long a receive waits for a datagram, in milliseconds (our profile).
pub const RECEIVE_WAIT: u64 = 100;

/// A port over UDP (RFC 768). A receive waits 100 ms at most; one that doesn't wait switches the socket, until a call waits
/// again. A contract sees the address that it was bound to, as it was asked for, and how many calls have failed.
#[derive(Drop)]
pub struct UdpPort {
    socket: UdpSocket,
    addr: Addr,
    buffer: [u8; MOST],
    failures: u64,
    cause: Option<Cause>,
    waits: bool,
    watched: Option<Addr>,
    lost: Option<Cause>,
    strict: bool,
}

impl Model for UdpPort {
    ghost use Rattle.nbt_port.specs.Udp.{UdpValue};

    ghost Value = { UdpValue };

    ghost view = { λ p. record { addr = p.addr; failures = p.failures } };
}

impl UdpPort {
    ghost use Rattle.nbt_port.specs.Udp.{UdpDoes};

    /// Binds a port to an address of this system; for port 0 the system chooses one. Refused where the system refuses it, as an
    /// address in use, or one that isn't its.
    pub fn bind<R: Net>(net: &R, addr: Addr) -> io::Result<UdpPort>
        ensures { IfOk result (λ p. p ≡ record { addr = addr; failures = 0 }) }
    {
        let socket = UdpSocket::bind(net, socket_addr(addr))?;
        socket.set_read_timeout(Some(Duration::from_millis(RECEIVE_WAIT)))?;
        Ok(UdpPort {
            socket,
            addr,
            buffer: [0; MOST],
            failures: 0,
            cause: None,
            waits: true,
            watched: None,
            lost: None,
            strict: false,
        })
    }

    /// From now on it keeps why the last datagram to this host was lost, if it was: `Port::lost` tells it.
    pub fn watch(&mut self, to: Addr)
        ensures { self.new ≡ self.old }
    {
        self.watched = Some(to);
        self.lost = None;
    }

    /// From now on a datagram without a route is a failure of the port, as any other that the system refuses to send.
    pub fn be_strict(&mut self)
        ensures { self.new ≡ self.old }
    {
        self.strict = true;
    }

    /// The address that it was bound to, as it was asked for.
    pub fn addr(&self) -> Addr
        ensures { result ≡ self.now.addr }
    {
        self.addr
    }

    /// The address that it really has: for port 0 the one that the system chose.
    pub fn local(&self) -> io::Result<Addr> {
        match self.socket.local_addr()? {
            SocketAddr::V4(here) => Ok(Addr {
                ip: here.ip().to_bits(),
                port: here.port(),
            }),
            SocketAddr::V6(_) => Ok(self.addr),
        }
    }

    /// Receives, and waits for it or not.
    fn receive_as(
        &mut self,
        waits: bool,
        octets: &mut ArrayVec<u8, 2048>,
    ) -> Result<Option<Route>, Device>
        ensures does { UdpDoes self.old (receiving result octets.new.items) self.new }
        ensures count { CountsFailure self.old.failures self.new.failures result }
        ensures empty { result ≡ Ok None → octets.new.items ≡ [] }
    {
        let answer = self.answer_to(waits);
        let error = answer.err();
        let received = received(answer, None, &self.buffer, octets);
        if received.is_err() {
            self.failures = one_more(self.failures);
            self.cause = self.cause_of(MachineCall::Receive, error);
        }
        received
    }

    /// The system's answer to a receive that waits or not, with what it received in the buffer.
    fn answer_to(&mut self, waits: bool) -> io::Result<(usize, SocketAddr)>
        ensures same { self.new ≡ self.old }
        ensures within { IfOk result (λ a. a.0 ≤ octets_most) }
    {
        self.set_waiting(waits)?;
        self.socket.recv_from(&mut self.buffer)
    }

    /// Has its calls wait or not. Asks the system only where they do otherwise.
    fn set_waiting(&mut self, waits: bool) -> io::Result<()>
        ensures { self.new ≡ self.old }
    {
        if self.waits != waits {
            self.socket.set_nonblocking(!waits)?;
            self.waits = waits;
        }
        Ok(())
    }

    /// The system's answer to a send, which waits.
    fn answer_to_send(&mut self, to: Addr, octets: &[u8]) -> io::Result<usize>
        ensures { self.new ≡ self.old }
    {
        self.set_waiting(true)?;
        self.socket.send_to(octets, socket_addr(to))
    }

    /// Why this call of it failed.
    fn cause_of(&self, call: MachineCall, error: Option<io::Error>) -> Option<Cause> {
        match error {
            Some(error) => Some(Cause::new(call, self.addr, error)),
            None => None,
        }
    }
}

impl Port for UdpPort {
    ghost use Rattle.nbt_port.specs.Udp.{UdpDoes};

    ghost does = { UdpDoes };

    ghost failures = { λ p. p.failures };

    fn receive(&mut self, octets: &mut ArrayVec<u8, 2048>) -> Result<Option<Route>, Device>
        ensures does { UdpDoes self.old (receiving result octets.new.items) self.new }
        ensures count { CountsFailure self.old.failures self.new.failures result }
        // Where nothing came, nothing is left of an earlier datagram.
        ensures empty { result ≡ Ok None → octets.new.items ≡ [] }
    {
        self.receive_as(true, octets)
    }

    /// Nothing has come yet where the socket says so, which then doesn't wait.
    fn receive_now(&mut self, octets: &mut ArrayVec<u8, 2048>) -> Result<Option<Route>, Device>
        ensures does { UdpDoes self.old (receiving result octets.new.items) self.new }
        ensures count { CountsFailure self.old.failures self.new.failures result }
        ensures empty { result ≡ Ok None → octets.new.items ≡ [] }
    {
        self.receive_as(false, octets)
    }

    fn send(&mut self, to: Route, octets: &[u8]) -> Result<(), Device> {
        let to = to.peer;
        let answer = self.answer_to_send(to, octets);
        let why = answer.err();
        if self.watched == Some(to) {
            self.lost = lost_to(to, why);
        }
        let sent = sent(answer, self.strict);
        if sent.is_err() {
            self.failures = one_more(self.failures);
            self.cause = if self.strict {
                lost_to(to, why)
            } else {
                self.cause_of(MachineCall::Send, why)
            };
        }
        sent
    }

    fn failures(&self) -> u64 {
        self.failures
    }

    fn cause(&self) -> Option<Cause> {
        self.cause
    }

    fn lost(&self) -> Option<Cause> {
        self.lost
    }
}

/// What a receive at this address returns, by the system's answer: the route, with as many octets as it says; nothing, where none
/// came in time, or the sender has no address of 32 bits; or `Device` at any other error.
pub(crate) fn received(
    answer: io::Result<(usize, SocketAddr)>,
    local: Option<Addr>,
    buffer: &[u8; MOST],
    octets: &mut ArrayVec<u8, 2048>,
) -> Result<Option<Route>, Device>
    requires within { IfOk answer (λ a. a.0 ≤ octets_most) }
    ensures { Received answer local buffer.now result octets.new.items }
{
    octets.clear();
    match answer {
        Ok((len, SocketAddr::V4(from))) => {
            let _ = octets.try_extend_from_slice(&buffer[..len]);
            let peer = Addr {
                ip: from.ip().to_bits(),
                port: from.port(),
            };
            Ok(Some(Route { peer, local }))
        }
        Ok((_, SocketAddr::V6(_))) => Ok(None),
        Err(error) if is_nothing(&error) => Ok(None),
        Err(_) => Err(Device),
    }
}

/// Why a datagram to this host was not sent, if it wasn't.
fn lost_to(to: Addr, error: Option<io::Error>) -> Option<Cause> {
    match error {
        Some(error) => Some(Cause::new(MachineCall::Send, to, error)),
        None => None,
    }
}

/// What a send returns, by the system's answer: `Device`, but at an error that says that there is no route, if the port isn't strict.
pub(crate) fn sent(answer: io::Result<usize>, strict: bool) -> Result<(), Device>
    ensures { Sent strict answer result }
{
    match answer {
        Ok(_) => Ok(()),
        Err(error) if !strict && has_no_way(&error) => Ok(()),
        Err(_) => Err(Device),
    }
}

/// Whether the error says that nothing came in time.
fn is_nothing(error: &io::Error) -> bool
    ensures { IsTrue result ↔ IsNothing (error_kind error.now) }
{
    matches!(
        error.kind(),
        ErrorKind::WouldBlock | ErrorKind::TimedOut | ErrorKind::Interrupted
    )
}

/// Whether the error says that there is no route for this one datagram, as to port 0, which an unknown sender can write into
/// what it sends. The device is well, and the datagram is lost, as UDP may lose any.
fn has_no_way(error: &io::Error) -> bool
    ensures { IsTrue result ↔ HasNoWay (error_kind error.now) }
{
    matches!(
        error.kind(),
        ErrorKind::InvalidInput
            | ErrorKind::PermissionDenied
            | ErrorKind::AddrNotAvailable
            | ErrorKind::HostUnreachable
            | ErrorKind::NetworkUnreachable
            | ErrorKind::ConnectionRefused
    )
}

/// The address as sockets take it.
pub(crate) fn socket_addr(addr: Addr) -> SocketAddr {
    SocketAddr::new(IpAddr::V4(Ipv4Addr::from_bits(addr.ip)), addr.port)
}
