//! The session service: a call, a message, and the end of the session (RFC 1002 sections 5.2.1 to 5.2.3).

use crate::connection::{Connection, send};
use crate::end_node::SLOTS;
use crate::listening_end::ListeningEnd;
use crate::outcome::Outcome;
use nbt_lease::Moment;
use nbt_name::{Addr, Name};
use nbt_node::Node;
use nbt_port::{Cause, Fault};
use nbt_session::{Caller, CallerAnswer, Event, Packet};
use std::alloc::Global;
use std::io;
use std::net::{IpAddr, Ipv4Addr, Net, OpenStream, SocketAddr, TcpStream};
use std::time::Duration;

/// How many events are waited for in a call: three for each of its four tries.
const EVENTS: u32 = 12;

/// How long it may take to connect, in milliseconds (our profile).
const CONNECT_WAIT: u64 = 1_000;

/// A call: to which name, by which name, and where.
#[derive(Debug, Drop)]
pub struct Call {
    /// The name that is called.
    pub called: Name,
    /// The name that calls.
    pub calling: Name,
    /// Where the call is made.
    pub to: Addr,
}

/// Both ends of a session: the end that listens with its node, and the connection of the end that calls.
#[derive(Drop)]
pub struct Session<R: Net> {
    alloc: Global,
    listening: ListeningEnd<R>,
    connection: Option<Connection<R::Stream>>,
}

impl<R: Net> Session<R> {
    /// Listens at `addr` for calls to the name.
    pub fn listen(rt: &R, alloc: Global, addr: Addr, called: Name) -> io::Result<Session<R>> {
        Ok(Session {
            alloc,
            listening: ListeningEnd::bind(rt, alloc, addr, called)?,
            connection: None,
        })
    }

    /// Why the socket that listens failed, where it did.
    pub fn cause(&self) -> Option<Cause> {
        self.listening.cause()
    }

    /// Makes the call at this time, and returns what became of it (RFC 1002 section 5.2.1). `Nothing` where that isn't known by
    /// the last event that is waited for.
    pub fn call(
        &mut self,
        rt: &R,
        now: Moment,
        node: &Node<SLOTS>,
        call: &Call,
    ) -> Result<Outcome<'static>, Fault> {
        let (mut caller, mut answer) = Caller::begin(
            call.called.copy(),
            call.calling.copy(),
            call.to,
        );
        for _ in 0..EVENTS {
            let event = match answer {
                CallerAnswer::Connect(to) => self.connect(rt, now, node, to)?,
                CallerAnswer::Send(packet) => self.request(now, node, &packet)?,
                CallerAnswer::Open => return Ok(Outcome::Open),
                CallerAnswer::Fail(failure) => {
                    self.connection = None;
                    return Ok(Outcome::Failed(failure));
                }
                _ => self.next_event()?,
            };
            answer = caller.on(event);
        }
        Ok(Outcome::Nothing)
    }

    /// Sends a message of these octets, and returns how many were handed up (RFC 1002 section 5.2.2).
    pub fn send_message(
        &mut self,
        now: Moment,
        node: &Node<SLOTS>,
        octets: &[u8],
    ) -> Result<Outcome<'static>, Fault> {
        let message = Packet::Message(Vec::from_slice(self.alloc, octets)?);
        if !send(&mut self.connection, &message)? {
            return Ok(Outcome::Nothing);
        }
        match self.listening.serve(now, node)? {
            Some(octets) => Ok(Outcome::Octets(octets.len())),
            None => Ok(Outcome::Nothing),
        }
    }

    /// Ends the session: the end that calls closes its connection, and the end that listens sees it (RFC 1002 section
    /// 5.2.3).
    pub fn hang_up(&mut self, now: Moment, node: &Node<SLOTS>) -> Result<(), Fault> {
        self.connection = None;
        self.listening.serve(now, node)?;
        Ok(())
    }

    /// Connects, and lets the end that listens take the connection. A connection that fails, or takes more than a second, is lost.
    fn connect(
        &mut self,
        rt: &R,
        now: Moment,
        node: &Node<SLOTS>,
        to: Addr,
    ) -> Result<Event, Fault> {
        self.connection = None;
        let there = SocketAddr::new(IpAddr::V4(Ipv4Addr::from_bits(to.ip)), to.port);
        let wait = Duration::from_millis(CONNECT_WAIT);
        let Ok(socket) = TcpStream::connect_timeout(rt, &there, wait) else {
            return Ok(Event::Lost);
        };
        let Ok(own) = socket.local_addr() else {
            return Ok(Event::Lost);
        };
        if to == self.listening.addr() {
            self.listening.take_connection(now, node, own)?;
        }
        self.connection = Connection::new(self.alloc, socket)?;
        if self.connection.is_some() {
            Ok(Event::Connected)
        } else {
            Ok(Event::Lost)
        }
    }

    /// Sends the request, lets the end that listens take it, and waits for its response (RFC 1002 sections 4.3.2 to
    /// 4.3.5).
    fn request(
        &mut self,
        now: Moment,
        node: &Node<SLOTS>,
        packet: &Packet,
    ) -> Result<Event, Fault> {
        if !send(&mut self.connection, packet)? {
            return Ok(Event::Lost);
        }
        self.listening.serve(now, node)?;
        self.next_event()
    }

    /// Waits for what happens next to the connection of the end that calls.
    fn next_event(&mut self) -> Result<Event, Fault> {
        match &mut self.connection {
            Some(connection) => connection.next_event(),
            None => Ok(Event::Lost),
        }
    }
}
