//! This machine with a clock that a test sets, another end on its network, and strangers there.

use super::street::{Door, Line, Luck, Street};
use super::terminal::octets_of;
use std::alloc::Allocator;
use std::cell::Cell;
use std::fs::{Metadata, OpenOptions};
use std::io;
use std::net::{Net, SocketAddr, TcpListener, TcpStream, UdpSocket};
use std::random::RandomSource;
use std::rt::Files;
use std::time::{Clock, Duration};

/// A UDP port of this machine that nobody has: what is sent there comes back as an error.
const NOBODY: &str = "127.42.22.9:9";

/// When the port is well again, in place of a reading.
pub const WELL: usize = usize::MAX;

/// From a reading on, the time of day is so many milliseconds ahead of what it would be, or behind.
pub type Set = (usize, u64, u64);

/// When its monotonic clock began, by the time of day.
pub const BOOT: u64 = 500_000;

/// Its time of day tells these moments, in milliseconds, one a reading, and then the last again; where there are none, it can't
/// be read. Its monotonic clock tells how long before that [`BOOT`] was, each reading of either clock being the next. `sets` says how
/// the time of day is set meanwhile, which the monotonic clock doesn't tell. At its `n`th reading the other end sends to `port` what is to be sent then. At the reading `breaks_at` the port
/// breaks: its next call fails, and the first one after each sleep. After `well_after` sleeps it is well again, for the other
/// end alone, which sends then what is to be sent at [`WELL`]; and it breaks again at the reading `breaks_again_at`. Where `port` is,
/// whoever binds a UDP port is given that one. TCP, and strangers, are as `street` says. Where it refuses something, none of its
/// sockets is bound or connected, and no file is opened, for that reason. Its files are the host's.
#[derive(Drop)]
pub struct Machine<'a, N> {
    pub host: &'a N,
    pub port: &'a UdpSocket,
    pub other: &'a UdpSocket,
    pub street: &'a Street,
    pub refusal: Option<io::Error>,
    pub moments: &'static [u64],
    pub sends: &'static [(usize, &'static str)],
    pub breaks_at: usize,
    pub sets: &'static [Set],
    pub readings: Cell<usize>,
    pub sleeps: Cell<usize>,
    pub well_after: usize,
    pub breaks_again_at: usize,
}

impl<'a, N: Net<Stream = TcpStream, Listener = TcpListener>> Machine<'a, N> {
    /// A machine with a clock that can't be read, where all is well.
    pub fn new(
        host: &'a N,
        port: &'a UdpSocket,
        other: &'a UdpSocket,
        street: &'a Street,
    ) -> Machine<'a, N> {
        Machine {
            host,
            port,
            other,
            street,
            refusal: None,
            moments: &[],
            sends: &[],
            breaks_at: 0,
            sets: &[],
            readings: Cell::new(0),
            sleeps: Cell::new(0),
            well_after: 0,
            breaks_again_at: 0,
        }
    }

    /// What happens at a reading of the clock.
    fn happens(&self, reading: usize) -> io::Result<()> {
        for (when, text) in self.sends {
            if *when == reading {
                let octets = octets_of(text)?;
                self.other
                    .send_to(octets.as_slice(), self.port.local_addr()?)?;
            }
        }
        if reading == self.breaks_at || reading == self.breaks_again_at {
            self.breaks()?;
        }
        Ok(())
    }

    /// A reading of a clock: the moment of it.
    fn next_moment(&self) -> io::Result<u64> {
        let before = self.readings.get();
        let reading = before.saturating_add(1);
        self.readings.set(reading);
        self.happens(reading)?;
        match self.moments.get(before).or(self.moments.last()) {
            Some(ms) => Ok(*ms),
            None => Err(io::Error::from(io::ErrorKind::Unsupported)),
        }
    }

    /// How the time of day is set at the reading that was made last.
    fn last_set(&self) -> Set {
        let mut last = (0, 0, 0);
        for set in self.sets {
            if set.0 <= self.readings.get() {
                last = *set;
            }
        }
        last
    }

    /// The port is well again.
    fn is_well(&self) -> io::Result<()> {
        self.port.connect(self.other.local_addr()?)?;
        self.happens(WELL)
    }

    /// The next call of the port fails.
    fn breaks(&self) -> io::Result<()> {
        self.port.connect(NOBODY)?;
        self.port.send(b"x")?;
        Ok(())
    }

    /// Fails where it refuses something.
    fn leave(&self) -> io::Result<()> {
        match self.refusal {
            None => Ok(()),
            Some(error) => Err(error),
        }
    }

    /// A UDP socket at this address.
    fn socket(&self, addr: SocketAddr) -> io::Result<UdpSocket> {
        self.leave()?;
        if addr == self.port.local_addr()? {
            self.port.try_clone()
        } else {
            self.host.bind_udp(addr)
        }
    }
}

impl<'a, N: Net<Stream = TcpStream, Listener = TcpListener>> Clock for Machine<'a, N> {
    fn monotonic(&self) -> io::Result<Duration> {
        Ok(Duration::from_millis(self.next_moment()?.saturating_sub(BOOT)))
    }

    fn since_1970(&self) -> io::Result<Duration> {
        let moment = self.next_moment()?;
        let (_, ahead, behind) = self.last_set();
        Ok(Duration::from_millis(moment.saturating_add(ahead).saturating_sub(behind)))
    }

    fn sleep(&self, duration: Duration) {
        if duration == Duration::from_millis(100) {
            self.sleeps.set(self.sleeps.get().saturating_add(1));
        }
        let _ = if self.sleeps.get() == self.well_after {
            self.is_well()
        } else {
            self.breaks()
        };
    }
}

impl<'a, N: Net<Stream = TcpStream, Listener = TcpListener>> Net for Machine<'a, N> {
    type Stream = Line<'a>;

    type Listener = Door<'a>;

    fn bind(&self, addr: SocketAddr) -> io::Result<Door<'a>> {
        self.leave()?;
        let socket = self.host.bind(addr)?;
        self.host.connect(addr)?;
        Ok(Door::new(socket, self.street))
    }

    fn bind_udp(&self, addr: SocketAddr) -> io::Result<UdpSocket> {
        let socket = self.socket(addr)?;
        self.street.meets(self.other, &socket, addr)?;
        Ok(socket)
    }

    fn connect(&self, addr: SocketAddr) -> io::Result<Line<'a>> {
        self.leave()?;
        match self.street.next_luck() {
            Luck::Refused => Err(io::Error::from(io::ErrorKind::ConnectionRefused)),
            luck => Ok(Line::new(self.host.connect(addr)?, luck, self.street)),
        }
    }

    fn connect_timeout(&self, addr: SocketAddr, _timeout: Duration) -> io::Result<Line<'a>> {
        self.connect(addr)
    }
}

/// Its source of random octets gives zeros, and behind them a 1.
impl<'a, N> RandomSource for Machine<'a, N> {
    fn fill_bytes(&self, buf: &mut [u8]) -> io::Result<()> {
        buf.fill(0);
        if let Some(last) = buf.last_mut() {
            *last = 1;
        }
        Ok(())
    }
}

impl<'a, N: Files + Net<Stream = TcpStream, Listener = TcpListener>> Files for Machine<'a, N> {
    type File = N::File;

    type Dir = N::Dir;

    fn open_file(&self, how: &OpenOptions, path: &str) -> io::Result<N::File> {
        self.leave()?;
        self.host.open_file(how, path)
    }

    fn open_dir(&self, path: &str) -> io::Result<N::Dir> {
        self.host.open_dir(path)
    }

    fn metadata(&self, path: &str) -> io::Result<Metadata> {
        self.host.metadata(path)
    }

    fn symlink_metadata(&self, path: &str) -> io::Result<Metadata> {
        self.host.symlink_metadata(path)
    }

    fn copy(&self, from: &str, to: &str) -> io::Result<u64> {
        self.host.copy(from, to)
    }

    fn rename(&self, from: &str, to: &str) -> io::Result<()> {
        self.host.rename(from, to)
    }

    fn remove_file(&self, path: &str) -> io::Result<()> {
        self.host.remove_file(path)
    }

    fn create_dir(&self, path: &str) -> io::Result<()> {
        self.host.create_dir(path)
    }

    fn remove_dir(&self, path: &str) -> io::Result<()> {
        self.host.remove_dir(path)
    }

    fn remove_dir_all<B: Allocator>(&self, alloc: B, path: &str) -> io::Result<()> {
        self.host.remove_dir_all(alloc, path)
    }
}
