//! A network with strangers on it, and with connections that fail.

use std::cell::Cell;
use std::io;
use std::io::{Read, Write};
use std::net::{OpenListener, OpenStream, SocketAddr, TcpListener, TcpStream, UdpSocket};
use std::os::fd::{AsRawFd, RawFd};
use std::time::Duration;

/// A status request for the name `*`, which a node replies to.
static STATUS_REQUEST: &[u8] =
    b"\x00\x09\x00\x00\x00\x01\x00\x00\x00\x00\x00\x00 CKAAAAAAAAAAAAAAAAAAAAAAAAAAAAAA\x00\x00\x21\x00\x01";

/// A reply to a node's first request: FRED is refused to n1, since it is active. The server sends none such.
static REFUSAL: &[u8] =
    b"\x00\x01\xAD\x86\x00\x00\x00\x01\x00\x00\x00\x00 EGFCEFEECACACACACACACACACACACACA\x00\x00\x20\x00\x01\x00\x00\x00\x00\x00\x06\x20\x00\x7F\x00\x00\x02";

/// What strangers do, and what becomes of connections. Where there are strangers, they send to each UDP socket as soon as it is bound;
/// and once the UDP port of the first address is bound, it sends these octets to the second one. A stranger connects to each TCP
/// socket as soon as it listens. The first other connection that is made has its luck at each end, and all others are well; how many
/// are made is counted, and how many ends of them are open.
#[derive(Drop)]
pub struct Street {
    pub strangers: Option<(SocketAddr, &'static [u8], SocketAddr)>,
    pub caller: Cell<Luck>,
    pub listener: Luck,
    pub connections: Cell<usize>,
    pub open: Cell<usize>,
}

impl Street {
    /// Without strangers, where all connections are well.
    pub fn new() -> Street {
        Street {
            strangers: None,
            caller: Cell::new(Luck::Well),
            listener: Luck::Well,
            connections: Cell::new(0),
            open: Cell::new(0),
        }
    }

    /// What comes to a UDP socket that is bound to this address, and from it.
    pub fn meets(
        &self,
        stranger: &UdpSocket,
        socket: &UdpSocket,
        addr: SocketAddr,
    ) -> io::Result<()> {
        if let Some((from, octets, to)) = self.strangers {
            stranger.send_to(STATUS_REQUEST, addr)?;
            stranger.send_to(REFUSAL, addr)?;
            if addr == from {
                socket.send_to(octets, to)?;
            }
        }
        Ok(())
    }

    /// The luck of the connection that is made next.
    pub fn next_luck(&self) -> Luck {
        self.connections
            .set(self.connections.get().saturating_add(1));
        self.caller.replace(Luck::Well)
    }
}

/// What becomes of a connection.
#[derive(Clone, Copy)]
pub enum Luck {
    /// It can't be made, or not be accepted.
    Refused,
    /// Nothing can be written to it.
    Mute,
    /// Nothing can be read from it.
    Deaf,
    /// What is read from it is no session's stream.
    Garbled,
    /// What is written to it never comes.
    Silent,
    /// Its first read is interrupted.
    Interrupted,
    /// A read gets one octet.
    Slow,
    /// The accept of it is interrupted once.
    Signalled,
    /// How long its reads wait can't be set.
    Untimed,
    /// It doesn't tell its own address.
    Nameless,
    /// All is well.
    Well,
}

/// How long a read waits at most, in milliseconds (our profile).
const WAIT: u64 = 1000;

/// One end of a TCP connection, with its luck, and how long its reads wait. One that would wait otherwise fails. It counts among
/// the open ones until it is closed.
pub struct Line<'a> {
    socket: TcpStream,
    luck: Cell<Luck>,
    waits: Cell<Option<Duration>>,
    street: &'a Street,
}

impl<'a> Line<'a> {
    pub fn new(socket: TcpStream, luck: Luck, street: &'a Street) -> Line<'a> {
        street.open.set(street.open.get().saturating_add(1));
        Line {
            socket,
            luck: Cell::new(luck),
            waits: Cell::new(None),
            street,
        }
    }
}

impl<'a> Drop for Line<'a> {
    fn drop(self) {
        let Line {
            socket: _,
            luck: _,
            waits: _,
            street,
        } = self;
        street.open.set(street.open.get().saturating_sub(1));
    }
}

impl<'a> Read for Line<'a> {
    fn read(&mut self, buf: &mut [u8]) -> io::Result<usize> {
        if self.waits.get() != Some(Duration::from_millis(WAIT)) {
            return Err(io::Error::from(io::ErrorKind::Unsupported));
        }
        match self.luck.get() {
            Luck::Deaf => Err(io::Error::from(io::ErrorKind::ConnectionReset)),
            Luck::Garbled => {
                buf.fill(0xFF);
                Ok(buf.len())
            }
            Luck::Interrupted => {
                self.luck.set(Luck::Well);
                Err(io::Error::from(io::ErrorKind::Interrupted))
            }
            Luck::Slow => {
                let most = buf.len().min(1);
                self.socket.read(&mut buf[..most])
            }
            _ => self.socket.read(buf),
        }
    }
}

impl<'a> Write for Line<'a> {
    fn write(&mut self, buf: &[u8]) -> io::Result<usize> {
        match self.luck.get() {
            Luck::Mute => Err(io::Error::from(io::ErrorKind::BrokenPipe)),
            Luck::Silent => Ok(buf.len()),
            _ => self.socket.write(buf),
        }
    }

    fn flush(&mut self) -> io::Result<()> {
        Ok(())
    }
}

impl<'a> OpenStream for Line<'a> {
    fn local_addr(&self) -> io::Result<SocketAddr> {
        match self.luck.get() {
            Luck::Nameless => Err(io::Error::from(io::ErrorKind::AddrNotAvailable)),
            _ => self.socket.local_addr(),
        }
    }

    fn set_read_timeout(&self, dur: Option<Duration>) -> io::Result<()> {
        match self.luck.get() {
            Luck::Untimed => Err(io::Error::from(io::ErrorKind::InvalidInput)),
            _ => {
                self.waits.set(dur);
                self.socket.set_read_timeout(dur)
            }
        }
    }
}

impl<'a> AsRawFd for Line<'a> {
    fn as_raw_fd(&self) -> RawFd {
        self.socket.as_raw_fd()
    }
}

/// A TCP socket that listens. The first connection that it accepts after that of the stranger has its luck; all others
/// are well.
#[derive(Drop)]
pub struct Door<'a> {
    socket: TcpListener,
    strangers: Cell<usize>,
    next: Cell<Luck>,
    street: &'a Street,
}

impl<'a> Door<'a> {
    /// One that a stranger has connected to.
    pub fn new(socket: TcpListener, street: &'a Street) -> Door<'a> {
        Door {
            socket,
            strangers: Cell::new(1),
            next: Cell::new(street.listener),
            street,
        }
    }

    /// The luck of the connection that is accepted next.
    fn next_luck(&self) -> Luck {
        let strangers = self.strangers.get();
        self.strangers.set(strangers.saturating_sub(1));
        if strangers == 0 {
            self.next.replace(Luck::Well)
        } else {
            Luck::Well
        }
    }
}

impl<'a> OpenListener for Door<'a> {
    type Stream = Line<'a>;

    fn accept(&self) -> io::Result<(Line<'a>, SocketAddr)> {
        match self.next_luck() {
            Luck::Signalled => Err(io::Error::from(io::ErrorKind::Interrupted)),
            luck => {
                let (socket, from) = self.socket.accept()?;
                match luck {
                    Luck::Refused => Err(io::Error::from(io::ErrorKind::InvalidInput)),
                    _ => Ok((Line::new(socket, luck, self.street), from)),
                }
            }
        }
    }
}

impl<'a> AsRawFd for Door<'a> {
    fn as_raw_fd(&self) -> RawFd {
        self.socket.as_raw_fd()
    }
}
