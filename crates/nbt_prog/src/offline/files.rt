//! Where the commands that read lists find their files, and what time it is.

use nbt_port::{Clock, MachineClock};
use std::alloc::Global;
use std::fs::{File, OpenFile};
use std::io::{Read, Write};
use std::rt::Files;
use std::{io, time};

/// The most octets of a file, and one more (our profile): the list of a million leases has no more.
const FILE_MOST: u64 = 1 << 27;

/// How standard input is called as a file.
pub const INPUT_PATH: &str = "-";

/// Milliseconds of a second.
const SECOND: u64 = 1_000;

/// Where files are, and a clock.
pub trait Place {
    /// The octets of the file of this path. Refused where it can't be read, and where it has 128 MiB or more.
    fn octets_in(&self, alloc: Global, path: &str) -> io::Result<Vec<u8>>;

    /// The time of day in seconds since 1970, if it is known.
    fn second(&self) -> Option<u64>;
}

/// This machine.
#[derive(Clone, Copy)]
pub struct Here<'a, M> {
    pub machine: &'a M,
}

impl<'a, M: Files<File = File> + time::Clock> Place for Here<'a, M> {
    fn octets_in(&self, alloc: Global, path: &str) -> io::Result<Vec<u8>> {
        whole(alloc, &mut File::open(self.machine, path)?)
    }

    fn second(&self) -> Option<u64> {
        match MachineClock::new(self.machine).now().get() {
            0 => None,
            now => Some(now / SECOND),
        }
    }
}

/// No machine: there is no file, and no clock.
#[derive(Clone, Copy)]
pub struct Nowhere;

impl Place for Nowhere {
    fn octets_in(&self, _alloc: Global, _path: &str) -> io::Result<Vec<u8>> {
        Err(io::Error::other("no machine"))
    }

    fn second(&self) -> Option<u64> {
        None
    }
}

/// The octets of the file of this path, or of standard input for `-`. A line in `errors` says why they can't be read.
pub fn read_file<P: Place, R: Read, E: Write>(
    place: &P,
    alloc: Global,
    path: &str,
    reader: &mut R,
    errors: &mut E,
) -> io::Result<Vec<u8>> {
    let read = match path {
        INPUT_PATH => whole(alloc, reader),
        _ => place.octets_in(alloc, path),
    };
    if let Err(error) = &read {
        let path = called(path);
        let _ = writeln!(errors, "nbt: {path}: {error}");
        let _ = errors.flush();
    }
    read
}

/// All that a reader has. Refused where it has 128 MiB or more.
fn whole<R: Read>(alloc: Global, reader: &mut R) -> io::Result<Vec<u8>> {
    let mut octets = Vec::new(alloc);
    reader.take(FILE_MOST).read_to_end(&mut octets)?;
    if octets.len() as u64 >= FILE_MOST {
        return Err(io::Error::other("it is too long"));
    }
    Ok(octets)
}

/// How a file is called in what is said of it.
pub fn called(path: &str) -> &str {
    match path {
        INPUT_PATH => "standard input",
        _ => path,
    }
}
