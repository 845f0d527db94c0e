//! A port over UDP that has several addresses.

ghost use Rattle.std.specs.Prelude.{◌≡◌, [], Ok, IfOk, IfErr};
ghost use Rattle.nbt_port.specs.Faults.{IsNotBound};
ghost use Rattle.nbt_port.specs.PortCalls.{receiving, CountsFailure};

use crate::bind::{Bind, anywhere};
use crate::binding::{not_bound, own_not_bound};
use crate::cause::{Cause, MachineCall};
use crate::fault::Fault;
use crate::machine_addresses::{LIST, read_own};
use crate::port::{Device, MOST, Port, Route, one_more};
use crate::sockets::Sockets;
use crate::udp::{RECEIVE_WAIT, received, sent};
use arrayvec::ArrayVec;
use nbt_name::Addr;
use std::alloc::{AllocError, Global};
use std::io::Write;
use std::marker::Model;
use std::net::{Ipv4Addr, Net, SocketAddrV4};
use std::rt::Files;
use std::time::Duration;
use std::{io, time};

/// So many milliseconds after the last look it looks for the machine's addresses again (our profile).
pub const LOOK_WAIT: u64 = 1_000;

/// What changed at a port.
#[derive(Clone, Copy, Debug)]
enum Change {
    /// The machine has this address now, and it is served.
    Came(Addr),
    /// The machine has this address no more.
    Gone(Addr),
    /// The machine has an address that can't be served.
    Refused(Cause),
}

/// What a port knows that follows the addresses of its machine.
#[derive(Drop)]
struct Following {
    port: u16,
    /// When it last looked for them, by the monotonic clock.
    looked: Duration,
    /// Those that it could not serve at the last look.
    refused: Vec<u32>,
}

/// A port over UDP (RFC 768) that has several addresses, each by a socket of its own. A receive waits 100 ms at most for a datagram
/// at any of them, and takes them in turn. A datagram leaves from the address that its route names, or from the first; it is lost
/// where the port has that address no more. Where it has every address of the machine, a receive looks at most once a second which
/// these are. A contract sees which addresses it was told to have, and how many calls have failed.
#[derive(Drop)]
pub struct UdpPorts<'a, M> {
    machine: &'a M,
    alloc: Global,
    bind: &'a Bind,
    sockets: Sockets,
    buffer: [u8; MOST],
    following: Option<Following>,
    changes: Vec<Change>,
    failures: u64,
    cause: Option<Cause>,
}

impl<'a, M> Model for UdpPorts<'a, M> {
    ghost use Rattle.nbt_port.specs.Udp.{PortsValue};

    ghost Value = { PortsValue };

    ghost view = { λ p. record { bind = p.bind.now; failures = p.failures } };
}

impl<'a, M: Net + Files + time::Clock> UdpPorts<'a, M> {
    ghost use Rattle.nbt_port.specs.Udp.{PortsDo};

    /// Binds a port to these addresses of the system. Of each that can't be bound a line in `errors` says why. Refused where one that
    /// is named can't be bound; where all are meant, and none can be bound; or where it is out of memory: as [`own_not_bound`] says.
    /// Where all are meant, and the system doesn't list them, one socket at 0.0.0.0 stands for all, and a line in `errors` says why.
    pub fn bind<E: Write>(
        machine: &'a M,
        alloc: Global,
        bind: &'a Bind,
        errors: &mut E,
    ) -> Result<UdpPorts<'a, M>, Fault>
        ensures ok { IfOk result (λ port. port ≡ record { bind = bind.now; failures = 0 }) }
        ensures err { IfErr result IsNotBound }
    {
        let mut port = match UdpPorts::closed(machine, alloc, bind) {
            Ok(port) => port,
            Err(error) => return Err(not_bound(bind.first(), error, errors)),
        };
        port.open(errors)?;
        Ok(port)
    }

    /// One without an address.
    fn closed(machine: &'a M, alloc: Global, bind: &'a Bind) -> io::Result<UdpPorts<'a, M>>
        ensures { IfOk result (λ port. port ≡ record { bind = bind.now; failures = 0 }) }
    {
        Ok(UdpPorts {
            machine,
            alloc,
            bind,
            sockets: Sockets::new(machine, alloc)?,
            buffer: [0; MOST],
            following: None,
            changes: Vec::new(alloc),
            failures: 0,
            cause: None,
        })
    }

    /// Opens its sockets.
    fn open<E: Write>(&mut self, errors: &mut E) -> Result<(), Fault>
        ensures same { self.new ≡ self.old }
        ensures err { IfErr result IsNotBound }
    {
        match self.bind {
            Bind::To(addresses) => self.open_all(addresses.as_slice(), errors),
            Bind::Every(port) => match read_own(self.machine, self.alloc) {
                Ok(own) => self.open_every(*port, own.as_slice(), errors),
                Err(error) => {
                    let _ = tell_no_list(error, errors);
                    self.open_all(&[anywhere(*port)], errors)
                }
            },
        }
    }

    /// Opens a socket at each of these addresses. Refused at the first that can't be bound: a line in `errors` says why.
    fn open_all<E: Write>(&mut self, addresses: &[Addr], errors: &mut E) -> Result<(), Fault>
        ensures same { self.new ≡ self.old }
        ensures err { IfErr result IsNotBound }
    {
        for addr in addresses {
            if let Err(error) = self.sockets.open(self.machine, *addr) {
                return Err(own_not_bound(*addr, error, errors));
            }
        }
        Ok(())
    }

    /// Opens a socket at each of the machine's addresses. Refused where none can be bound. Of each that can't a line in `errors` says
    /// why.
    fn open_every<E: Write>(&mut self, port: u16, own: &[u32], errors: &mut E) -> Result<(), Fault>
        ensures same { self.new ≡ self.old }
        ensures err { IfErr result IsNotBound }
    {
        let mut following = Following {
            port,
            looked: self.machine.monotonic().unwrap_or(Duration::ZERO),
            refused: Vec::new(self.alloc),
        };
        self.follow(&mut following, own);
        self.following = Some(following);
        self.tell_refused(errors);
        if self.sockets.len() == 0 {
            self.advise(errors);
            return Err(self.refusal());
        }
        self.advise_on_files(errors);
        self.changes.clear();
        Ok(())
    }

    /// Why no address can be bound.
    fn refusal(&self) -> Fault
        ensures { IsNotBound result }
    {
        for change in self.changes.as_slice() {
            if let Change::Refused(cause) = change {
                if cause.is_of_memory() {
                    return Fault::Memory;
                }
            }
        }
        Fault::NoPort
    }

    /// The addresses that it has now.
    pub fn addresses(&self) -> Result<Vec<Addr>, AllocError> {
        let mut addresses = Vec::new(self.alloc);
        for place in 0..self.sockets.len() {
            if let Some(at) = self.sockets.at(place) {
                addresses.push(at)?;
            }
        }
        Ok(addresses)
    }

    /// Looks which addresses the machine has, if it follows them, and didn't look in the last second. Where the list can't be read, it
    /// keeps those that it has.
    fn look(&mut self)
        ensures { self.new ≡ self.old }
    {
        self.changes.clear();
        let Some(mut following) = self.following.take() else {
            return;
        };
        if self.is_due(&mut following) {
            if let Ok(own) = read_own(self.machine, self.alloc) {
                self.follow(&mut following, own.as_slice());
            }
        }
        self.following = Some(following);
    }

    /// Whether a second has passed since it last looked; it then looks now.
    fn is_due(&self, following: &mut Following) -> bool {
        let Ok(now) = self.machine.monotonic() else {
            return false;
        };
        if now.saturating_sub(following.looked) < Duration::from_millis(LOOK_WAIT) {
            return false;
        }
        following.looked = now;
        true
    }

    /// Closes the sockets of addresses that the machine has no more, and opens one at each that is new.
    fn follow(&mut self, following: &mut Following, own: &[u32])
        ensures { self.new ≡ self.old }
    {
        self.note_gone(own);
        self.sockets.keep(own);
        following.refused.retain(|ip| own.contains(ip));
        for ip in own {
            if !self.sockets.has(*ip) {
                self.open_new(following, *ip);
            }
        }
    }

    /// Notes the addresses that are gone.
    fn note_gone(&mut self, own: &[u32])
        ensures { self.new ≡ self.old }
    {
        for place in 0..self.sockets.len() {
            if let Some(at) = self.sockets.at(place) {
                if !own.contains(&at.ip) {
                    self.note(Change::Gone(at));
                }
            }
        }
    }

    /// Opens a socket at an address that is new. Where it can't be bound, this is noted once, as long as the machine has it.
    fn open_new(&mut self, following: &mut Following, ip: u32)
        ensures { self.new ≡ self.old }
    {
        let addr = Addr {
            ip,
            port: following.port,
        };
        match self.sockets.open(self.machine, addr) {
            Ok(at) => {
                following.refused.retain(|other| *other != ip);
                self.note(Change::Came(at));
            }
            Err(error) => {
                if !following.refused.contains(&ip) && following.refused.push(ip).is_ok() {
                    self.note(Change::Refused(Cause::new(MachineCall::Bind, addr, error)));
                }
            }
        }
    }

    /// Notes a change; without memory for it, it isn't told.
    fn note(&mut self, change: Change)
        ensures { self.new ≡ self.old }
    {
        let _ = self.changes.push(change);
    }

    /// Says which addresses can't be bound.
    fn tell_refused<E: Write>(&self, errors: &mut E) {
        for change in self.changes.as_slice() {
            if let Change::Refused(cause) = change {
                cause.tell("", errors);
            }
        }
    }

    /// Says what to do where the system keeps the port for privileged programs.
    fn advise<E: Write>(&self, errors: &mut E) {
        if let Some(Change::Refused(cause)) = self.changes.as_slice().first() {
            cause.advise(errors);
        }
    }

    /// Says what to do where the program may have no more open files, once.
    fn advise_on_files<E: Write>(&self, errors: &mut E) {
        for change in self.changes.as_slice() {
            if let Change::Refused(cause) = change {
                if cause.is_of_files() {
                    return cause.advise(errors);
                }
            }
        }
    }

    /// Receives, and waits for it or not.
    fn receive_as(
        &mut self,
        waits: bool,
        octets: &mut ArrayVec<u8, 2048>,
    ) -> Result<Option<Route>, Device>
        ensures does { PortsDo self.old (receiving result octets.new.items) self.new }
        ensures count { CountsFailure self.old.failures self.new.failures result }
        ensures empty { result ≡ Ok None → octets.new.items ≡ [] }
    {
        self.look();
        let wait = Duration::from_millis(if waits { RECEIVE_WAIT } else { 0 });
        let answer = self.sockets.receive(wait, &mut self.buffer);
        let error = answer.err();
        let received = received(answer, self.sockets.last(), &self.buffer, octets);
        if received.is_err() {
            self.failures = one_more(self.failures);
            self.cause = self.cause_of(MachineCall::Receive, self.sockets.last(), error);
        }
        received
    }

    /// Why this call failed, at this address, if it is one.
    fn cause_of(
        &self,
        call: MachineCall,
        at: Option<Addr>,
        error: Option<io::Error>,
    ) -> Option<Cause> {
        match error {
            Some(error) => Some(Cause::new(call, at.unwrap_or(self.bind.first()), error)),
            None => None,
        }
    }
}

impl<M: Net + Files + time::Clock> Port for UdpPorts<'_, M> {
    ghost use Rattle.nbt_port.specs.Udp.{PortsDo};

    ghost does = { PortsDo };

    ghost failures = { λ p. p.failures };

    fn receive(&mut self, octets: &mut ArrayVec<u8, 2048>) -> Result<Option<Route>, Device>
        ensures does { PortsDo self.old (receiving result octets.new.items) self.new }
        ensures count { CountsFailure self.old.failures self.new.failures result }
        ensures empty { result ≡ Ok None → octets.new.items ≡ [] }
    {
        self.receive_as(true, octets)
    }

    fn receive_now(&mut self, octets: &mut ArrayVec<u8, 2048>) -> Result<Option<Route>, Device>
        ensures does { PortsDo self.old (receiving result octets.new.items) self.new }
        ensures count { CountsFailure self.old.failures self.new.failures result }
        ensures empty { result ≡ Ok None → octets.new.items ≡ [] }
    {
        self.receive_as(false, octets)
    }

    fn send(&mut self, to: Route, octets: &[u8]) -> Result<(), Device> {
        let answer = self.sockets.send(to.local, to.peer, octets);
        let error = answer.err();
        let sent = sent(answer, false);
        if sent.is_err() {
            self.failures = one_more(self.failures);
            self.cause = self.cause_of(MachineCall::Send, to.local, error);
        }
        sent
    }

    fn failures(&self) -> u64 {
        self.failures
    }

    fn cause(&self) -> Option<Cause> {
        self.cause
    }

    fn tell_changes<E: Write>(&self, errors: &mut E) {
        for change in self.changes.as_slice() {
            match change {
                Change::Came(at) => {
                    let _ = tell("serving ", *at, " too", errors);
                }
                Change::Gone(at) => {
                    let _ = tell("", *at, " is gone, not served any more", errors);
                }
                Change::Refused(cause) => cause.tell("", errors),
            }
        }
    }
}

fn tell<E: Write>(before: &str, at: Addr, after: &str, errors: &mut E) -> io::Result<()> {
    let at = SocketAddrV4::new(Ipv4Addr::from_bits(at.ip), at.port);
    writeln!(errors, "nbt: {before}{at}{after}")?;
    errors.flush()
}

/// Says that one socket serves all addresses, and why.
fn tell_no_list<E: Write>(error: io::Error, errors: &mut E) -> io::Result<()> {
    writeln!(
        errors,
        "nbt: {LIST}: {error}; one socket serves all addresses"
    )?;
    errors.flush()
}
