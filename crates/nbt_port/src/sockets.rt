//! The sockets of a port that has several addresses.

ghost use Rattle.std.specs.Prelude.{◌≤◌, IfOk};
ghost use Rattle.nbt_port.specs.Numbers.{octets_most};

use crate::port::MOST;
use crate::udp::socket_addr;
use mio::unix::SourceFd;
use mio::{Events, Interest, Poll, Token};
use nbt_name::Addr;
use std::alloc::Global;
use std::io;
use std::io::ErrorKind;
use std::net::{Net, SocketAddr, UdpSocket};
use std::os::fd::AsRawFd;
use std::time::Duration;

/// From so many sockets one wait learns at most that they are ready; the next wait learns of others.
const EVENTS: usize = 64;

/// A socket that doesn't wait.
#[derive(Drop)]
struct OpenSocket {
    socket: UdpSocket,
    at: Addr,
    token: Token,
    ready: bool,
}

impl OpenSocket {
    /// The system's answer to a receive. Where that says that nothing has come, it isn't ready from then on.
    fn receive(&mut self, buffer: &mut [u8; MOST]) -> io::Result<(usize, SocketAddr)>
        ensures within { IfOk result (λ a. a.0 ≤ octets_most) }
    {
        let answer = self.socket.recv_from(buffer);
        if says_nothing_came(&answer) {
            self.ready = false;
        }
        answer
    }

    /// The system's answer to a send, which waits where the socket has no room.
    fn send(&self, to: Addr, octets: &[u8]) -> io::Result<usize> {
        match self.socket.send_to(octets, socket_addr(to)) {
            Err(error) if error.kind() == ErrorKind::WouldBlock => self.send_waiting(to, octets),
            answer => answer,
        }
    }

    /// The system's answer to a send that waits.
    fn send_waiting(&self, to: Addr, octets: &[u8]) -> io::Result<usize> {
        self.socket.set_nonblocking(false)?;
        let answer = self.socket.send_to(octets, socket_addr(to));
        self.socket.set_nonblocking(true)?;
        answer
    }
}

/// Sockets, each at an address of its own. A receive takes one datagram, from the ready sockets in turn.
#[derive(Drop)]
pub struct Sockets {
    poll: Poll,
    events: Events,
    list: Vec<OpenSocket>,
    next: usize,
    tokens: usize,
    last: Option<Addr>,
}

impl Sockets {
    /// No socket yet. Refused where the system refuses to tell which sockets are ready, or memory is out.
    pub fn new<M: Net>(machine: &M, alloc: Global) -> io::Result<Sockets> {
        Ok(Sockets {
            poll: Poll::new(machine)?,
            events: Events::with_capacity(alloc, EVENTS)?,
            list: Vec::new(alloc),
            next: 0,
            tokens: 0,
            last: None,
        })
    }

    /// Opens one more, at this address; for port 0 the system chooses one. Returns the address that it has. Refused where the system
    /// refuses it, as an address in use, or one that isn't its.
    pub fn open<M: Net>(&mut self, machine: &M, addr: Addr) -> io::Result<Addr> {
        let socket = UdpSocket::bind(machine, socket_addr(addr))?;
        socket.set_nonblocking(true)?;
        let at = local_of(&socket)?.unwrap_or(addr);
        let token = Token(self.tokens);
        self.tokens = self.tokens.wrapping_add(1);
        let fd = socket.as_raw_fd();
        self.poll
            .registry()
            .register(&mut SourceFd(&fd), token, Interest::READABLE)?;
        self.list.push(OpenSocket {
            socket,
            at,
            token,
            ready: true,
        })?;
        Ok(at)
    }

    /// Closes those whose address isn't among these.
    pub fn keep(&mut self, own: &[u32]) {
        self.list.retain(|socket| own.contains(&socket.at.ip));
    }

    /// How many there are.
    pub fn len(&self) -> usize {
        self.list.len()
    }

    /// The address of one of them.
    pub fn at(&self, place: usize) -> Option<Addr> {
        Some(self.list.get(place)?.at)
    }

    /// Whether one has this address.
    pub fn has(&self, ip: u32) -> bool {
        self.list.iter().any(|socket| socket.at.ip == ip)
    }

    /// The address of the socket that the last answer was from.
    pub fn last(&self) -> Option<Addr> {
        self.last
    }

    /// The answer to a receive from the first ready socket behind the one that the last answer was from. Where none is ready, it waits
    /// so long at most until one is.
    pub fn receive(
        &mut self,
        wait: Duration,
        buffer: &mut [u8; MOST],
    ) -> io::Result<(usize, SocketAddr)>
        ensures within { IfOk result (λ a. a.0 ≤ octets_most) }
    {
        if self.are_ready()? {
            let answer = self.answer_to(buffer);
            if !says_nothing_came(&answer) {
                return answer;
            }
        }
        self.learn(wait)?;
        self.answer_to(buffer)
    }

    /// Whether some socket is ready. Where only some are, it first learns which others are too, so that these don't starve them.
    fn are_ready(&mut self) -> io::Result<bool> {
        if self.list.iter().all(|socket| socket.ready) {
            return Ok(true);
        }
        let some = self.list.iter().any(|socket| socket.ready);
        if some {
            self.learn(Duration::ZERO)?;
        }
        Ok(some)
    }

    /// Learns which sockets are ready, and waits so long at most until one is.
    fn learn(&mut self, wait: Duration) -> io::Result<()> {
        self.last = None;
        self.poll.poll(&mut self.events, Some(wait))?;
        for event in self.events.iter() {
            for socket in self.list.iter_mut() {
                if socket.token == event.token() {
                    socket.ready = true;
                }
            }
        }
        Ok(())
    }

    /// The answer of the first ready socket behind the one that the last answer was from, to which something has come. It says where
    /// nothing has come to any.
    fn answer_to(&mut self, buffer: &mut [u8; MOST]) -> io::Result<(usize, SocketAddr)>
        ensures within { IfOk result (λ a. a.0 ≤ octets_most) }
    {
        for _ in 0..self.list.len() {
            let Some(place) = self.next_ready() else {
                break;
            };
            let answer = self.answer_at(place, buffer);
            if !says_nothing_came(&answer) {
                return answer;
            }
        }
        Err(io::Error::from(ErrorKind::WouldBlock))
    }

    /// The place of the first ready socket behind the one that the last answer was from; after the last place comes the first.
    fn next_ready(&self) -> Option<usize> {
        match self.ready_within(self.next, usize::MAX) {
            Some(place) => Some(place),
            None => self.ready_within(0, self.next),
        }
    }

    /// The place of the first ready socket of those in these places.
    fn ready_within(&self, from: usize, to: usize) -> Option<usize> {
        for place in from..to.min(self.list.len()) {
            if self.list[place].ready {
                return Some(place);
            }
        }
        None
    }

    /// The answer of the socket in this place.
    fn answer_at(
        &mut self,
        place: usize,
        buffer: &mut [u8; MOST],
    ) -> io::Result<(usize, SocketAddr)>
        ensures within { IfOk result (λ a. a.0 ≤ octets_most) }
    {
        let Some(socket) = self.list.get_mut(place) else {
            return Err(io::Error::from(ErrorKind::WouldBlock));
        };
        let answer = socket.receive(buffer);
        if !says_nothing_came(&answer) {
            self.last = Some(socket.at);
            self.next = place.wrapping_add(1);
        }
        answer
    }

    /// The answer to a send from the socket at this address, or from the first one for none. An error says that the address isn't
    /// available where there is no such socket.
    pub fn send(&self, at: Option<Addr>, to: Addr, octets: &[u8]) -> io::Result<usize> {
        let found = match at {
            Some(at) => self.list.iter().find(|socket| socket.at == at),
            None => self.list.first(),
        };
        match found {
            Some(socket) => socket.send(to, octets),
            None => Err(io::Error::from(ErrorKind::AddrNotAvailable)),
        }
    }
}

/// Whether an answer says that nothing has come.
fn says_nothing_came(answer: &io::Result<(usize, SocketAddr)>) -> bool {
    match answer {
        Ok(_) => false,
        Err(error) => error.kind() == ErrorKind::WouldBlock,
    }
}

/// The address that a socket has, if it is one of 32 bits.
fn local_of(socket: &UdpSocket) -> io::Result<Option<Addr>> {
    match socket.local_addr()? {
        SocketAddr::V4(here) => Ok(Some(Addr {
            ip: here.ip().to_bits(),
            port: here.port(),
        })),
        SocketAddr::V6(_) => Ok(None),
    }
}
