//! A TCP connection that carries a session's packets (RFC 1002 section 4.3).

use nbt_port::Fault;
use nbt_session::{EncodeFault, Event, Packet, Stream, StreamFault, encode};
use std::alloc::Global;
use std::io;
use std::io::{BufRead, BufReader, Read, Write};
use std::net::OpenStream;
use std::time::Duration;

/// How long a read waits, in milliseconds.
const WAIT: u64 = 1000;

/// How many reads a packet may take: one for each octet of the longest. One that was interrupted is a read too.
const READS: u32 = 131_075;

/// A connection, and the packet that comes over it.
#[derive(Drop)]
pub struct Connection<S: Read + Drop> {
    alloc: Global,
    reader: BufReader<S>,
    stream: Stream,
}

impl<S: Read + Write + OpenStream + Drop> Connection<S> {
    /// A connection over a socket that is connected, or none where the socket fails.
    pub fn new(alloc: Global, socket: S) -> Result<Option<Connection<S>>, Fault> {
        match timed_reader(alloc, socket) {
            Ok(reader) => Ok(Some(Connection {
                alloc,
                reader,
                stream: Stream::new(alloc),
            })),
            Err(error) => match error.kind() {
                io::ErrorKind::OutOfMemory => Err(Fault::Memory),
                _ => Ok(None),
            },
        }
    }

    /// Sends a packet, and returns whether it could be sent.
    fn send(&mut self, packet: &Packet) -> Result<bool, Fault> {
        let mut octets = Vec::new(self.alloc);
        match encode(packet, &mut octets) {
            Ok(()) => Ok(self.reader.get_mut().write_all(octets.as_slice()).is_ok()),
            Err(EncodeFault::TooLong) => Ok(false),
            Err(EncodeFault::OutOfMemory) => Err(Fault::Memory),
        }
    }

    /// Waits for the next packet. The connection is lost where the other end closed it, a read fails or gets nothing
    /// within a second, or the stream has a fault. A packet may come in pieces, and the wait for each of them is a
    /// second at most. A read that was interrupted is made once more, and its second begins anew.
    pub fn next_event(&mut self) -> Result<Event, Fault> {
        for _ in 0..READS {
            let piece = match self.reader.fill_buf() {
                Ok(piece) => piece,
                Err(error) if error.kind() == io::ErrorKind::Interrupted => continue,
                Err(_) => return Ok(Event::Lost),
            };
            if piece.is_empty() {
                return Ok(Event::Lost);
            }
            let (count, packet) = match self.stream.take(piece) {
                Ok(taken) => taken,
                Err(StreamFault::OutOfMemory) => return Err(Fault::Memory),
                Err(StreamFault::Malformed(_)) => return Ok(Event::Lost),
            };
            self.reader.consume(count);
            if let Some(packet) = packet {
                return Ok(Event::Packet(packet));
            }
        }
        Ok(Event::Lost)
    }
}

/// A reader of a socket, each of whose reads waits a second at most.
fn timed_reader<S: Read + OpenStream + Drop>(alloc: Global, socket: S) -> io::Result<BufReader<S>> {
    socket.set_read_timeout(Some(Duration::from_millis(WAIT)))?;
    BufReader::new(alloc, socket)
}

/// Sends a packet over the connection, if there is one. Returns whether it could be sent.
pub fn send<S: Read + Write + OpenStream + Drop>(
    connection: &mut Option<Connection<S>>,
    packet: &Packet,
) -> Result<bool, Fault> {
    match connection {
        Some(connection) => connection.send(packet),
        None => Ok(false),
    }
}
