//! The files that say who may register and which names are fixed, read anew while a server serves.

use crate::deciding::Front;
use crate::fault::{FileFault, LineFault};
use crate::names::FixedNames;
use crate::network::Network;
use crate::network_file::{NetworkFault, NetworksFault, read_networks};
use crate::reading::read_fixed;
use crate::renewal::{is_same, write_renewal};
use nbt_lease::Moment;
use std::alloc::{AllocError, Global};
use std::fs::{File, Metadata, OpenFile};
use std::io::{ErrorKind, Read, Write};
use std::os::unix::fs::MetadataExt;
use std::rt::Files;
use std::{fs, io};

/// Such a file has fewer octets (our profile).
const FILE_MOST: u64 = 1 << 24;

/// How long no file is looked at after a look, in milliseconds (our profile).
const PAUSE: u64 = 1_000;

/// What says who may register and which names are fixed, and may say something else while a server serves.
pub trait FrontSource {
    /// Looks, at a moment of the server's clock, whether it says something else than this front. Returns a front of what it says then; and says so in
    /// `errors`, as it says there what it can't read.
    fn look<E: Write>(&mut self, present: &Front, now: Moment, errors: &mut E) -> Option<Front>;

    /// What it returned last couldn't be put in place: it returns that again at the next look.
    fn again(&mut self);
}

/// What a file is at a look.
#[derive(Clone, Copy, Debug, PartialEq, Eq)]
enum Look {
    /// It can't be looked at, for this.
    Refused(ErrorKind),
    /// It is there.
    There(Stamp),
}

/// By what a file is known that was replaced or written.
#[derive(Clone, Copy, Debug, PartialEq, Eq)]
struct Stamp {
    device: u64,
    node: u64,
    octets: u64,
    written: i64,
    written_nanos: i64,
    changed: i64,
    changed_nanos: i64,
}

impl Stamp {
    fn new(metadata: &Metadata) -> Stamp {
        Stamp {
            device: metadata.dev(),
            node: metadata.ino(),
            octets: metadata.len(),
            written: metadata.mtime(),
            written_nanos: metadata.mtime_nsec(),
            changed: metadata.ctime(),
            changed_nanos: metadata.ctime_nsec(),
        }
    }
}

/// A file that is looked at.
#[derive(Drop)]
struct Watched<'a> {
    path: &'a str,
    seen: Option<Look>,
    read: Option<Look>,
}

impl<'a> Watched<'a> {
    fn new(path: &'a str) -> Watched<'a> {
        Watched {
            path,
            seen: None,
            read: None,
        }
    }

    /// Whether it is to be read: it isn't what it was when it was read last, and it is what it was at the look before. A file that is being
    /// written is read once that is done.
    fn is_new<M: Files>(&mut self, machine: &M) -> bool {
        let look = look_at(machine, self.path);
        let is_settled = self.seen == Some(look);
        let is_read = self.read == Some(look);
        self.seen = Some(look);
        if !is_settled || is_read {
            return false;
        }
        self.read = Some(look);
        true
    }
}

fn look_at<M: Files>(machine: &M, path: &str) -> Look {
    match fs::metadata(machine, path) {
        Ok(metadata) => Look::There(Stamp::new(&metadata)),
        Err(error) => Look::Refused(error.kind()),
    }
}

/// The files of a front over a machine. Each is looked at once a second, and read where it was replaced or written a second ago or earlier.
/// While one has a fault, what was read of it before stays, whatever the other one says.
#[derive(Drop)]
pub struct FrontFiles<'a, M> {
    machine: &'a M,
    alloc: Global,
    first: &'a Front,
    networks: Option<Watched<'a>>,
    fixed: Option<Watched<'a>>,
    looked: Option<Moment>,
    is_first: bool,
}

impl<'a, M: Files> FrontFiles<'a, M> {
    /// The files from which this front was read.
    pub fn new(machine: &'a M, alloc: Global, first: &'a Front) -> FrontFiles<'a, M> {
        FrontFiles {
            machine,
            alloc,
            first,
            networks: watch_at(first.networks_path()),
            fixed: watch_at(first.fixed_path()),
            looked: None,
            is_first: true,
        }
    }

    /// Whether a look at a moment comes too early after the last.
    fn is_early(&self, now: Moment) -> bool {
        match self.looked {
            Some(looked) => now.get().saturating_sub(looked.get()) < PAUSE,
            None => false,
        }
    }

    /// What the file of networks says, without a fault, which is said in `errors`.
    fn read_networks<E: Write>(&self, errors: &mut E) -> Option<Vec<Network>> {
        let path = self.first.networks_path()?;
        without_fault(networks_in(self.machine, self.alloc, path), errors)
    }

    /// What the file of fixed names says, without a fault, which is said in `errors`.
    fn read_names<E: Write>(&self, errors: &mut E) -> Option<FixedNames> {
        let path = self.first.fixed_path()?;
        without_fault(names_in(self.machine, self.alloc, path), errors)
    }

    /// A front of the networks and the names that were read, and of those of another front where there are none.
    fn renewed(
        &self,
        present: &Front,
        networks: Option<Vec<Network>>,
        names: Option<FixedNames>,
    ) -> Result<Front, AllocError> {
        let mut front = match networks {
            Some(networks) => {
                let mut front = self.first.given(self.alloc)?;
                front.allow(networks)?;
                front
            }
            None => present.without_names(self.alloc)?,
        };
        front.fix(match names {
            Some(names) => names,
            None => present.fixed().copied(self.alloc)?,
        });
        Ok(front)
    }
}

impl<M: Files> FrontSource for FrontFiles<'_, M> {
    fn look<E: Write>(&mut self, present: &Front, now: Moment, errors: &mut E) -> Option<Front> {
        if self.is_early(now) {
            return None;
        }
        self.looked = Some(now);
        let has_networks = is_new(&mut self.networks, self.machine);
        let has_names = is_new(&mut self.fixed, self.machine);
        if !has_networks && !has_names {
            return None;
        }
        let is_first = self.is_first;
        self.is_first = false;
        let networks = if has_networks {
            self.read_networks(errors)
        } else {
            None
        };
        let names = if has_names {
            self.read_names(errors)
        } else {
            None
        };
        if networks.is_none() && names.is_none() {
            return None;
        }
        let Ok(front) = self.renewed(present, networks, names) else {
            let _ = tell_fault(ReadFault::Memory, errors);
            return None;
        };
        if is_same(present, &front) {
            if !is_first {
                let _ = tell_same(errors);
            }
            return None;
        }
        let _ = tell_renewal(self.alloc, present, &front, errors);
        Some(front)
    }

    fn again(&mut self) {
        forget(&mut self.networks);
        forget(&mut self.fixed);
    }
}

/// What was read, if it has no fault; else the fault is said in `errors`.
fn without_fault<T, E: Write>(read: Result<T, ReadFault<'_>>, errors: &mut E) -> Option<T> {
    match read {
        Ok(said) => Some(said),
        Err(fault) => {
            let _ = tell_fault(fault, errors);
            None
        }
    }
}

fn watch_at(path: Option<&str>) -> Option<Watched<'_>> {
    match path {
        Some(path) => Some(Watched::new(path)),
        None => None,
    }
}

/// Whether a file is to be read, if there is one.
fn is_new<M: Files>(file: &mut Option<Watched<'_>>, machine: &M) -> bool {
    match file {
        Some(file) => file.is_new(machine),
        None => false,
    }
}

/// A file, if there is one, is read again at the next look.
fn forget(file: &mut Option<Watched<'_>>) {
    if let Some(file) = file {
        file.read = None;
    }
}

/// Why a file isn't read.
#[derive(Drop)]
enum ReadFault<'a> {
    /// Out of memory.
    Memory,
    /// The system can't read the file of this path.
    File(&'a str, io::Error),
    /// This line of the file of networks, counted from 1, can't be taken.
    Network(&'a str, usize, NetworkFault),
    /// The file of networks names none.
    NoNetwork(&'a str),
    /// This line of the file of fixed names, counted from 1, can't be taken.
    Fixed(&'a str, usize, LineFault),
}

fn networks_in<'a, M: Files>(
    machine: &M,
    alloc: Global,
    path: &'a str,
) -> Result<Vec<Network>, ReadFault<'a>> {
    let octets = match octets_in(machine, alloc, path) {
        Ok(octets) => octets,
        Err(error) => return Err(ReadFault::File(path, error)),
    };
    match read_networks(alloc, octets.as_slice()) {
        Ok(networks) => Ok(networks),
        Err(NetworksFault::Memory) => Err(ReadFault::Memory),
        Err(NetworksFault::NoNetwork) => Err(ReadFault::NoNetwork(path)),
        Err(NetworksFault::Line(number, fault)) => Err(ReadFault::Network(path, number, fault)),
    }
}

fn names_in<'a, M: Files>(
    machine: &M,
    alloc: Global,
    path: &'a str,
) -> Result<FixedNames, ReadFault<'a>> {
    let octets = match octets_in(machine, alloc, path) {
        Ok(octets) => octets,
        Err(error) => return Err(ReadFault::File(path, error)),
    };
    match read_fixed(alloc, octets.as_slice()) {
        Ok(names) => Ok(names),
        Err(FileFault::Memory) => Err(ReadFault::Memory),
        Err(FileFault::Line(number, fault)) => Err(ReadFault::Fixed(path, number, fault)),
    }
}

/// The octets of the file of this path. Refused where that is no regular file, since a pipe that nobody writes would keep the server, and a
/// device doesn't end; and where it has 16 MiB or more.
pub fn octets_in<M: Files>(machine: &M, alloc: Global, path: &str) -> io::Result<Vec<u8>> {
    if !fs::metadata(machine, path)?.is_file() {
        return Err(io::Error::other("no regular file"));
    }
    let mut octets = Vec::new(alloc);
    File::open(machine, path)?
        .take(FILE_MOST)
        .read_to_end(&mut octets)?;
    if octets.len() as u64 >= FILE_MOST {
        return Err(io::Error::other("it is too long"));
    }
    Ok(octets)
}

/// Says why nothing changes.
fn tell_fault<E: Write>(fault: ReadFault<'_>, errors: &mut E) -> io::Result<()> {
    write!(errors, "nbt: ")?;
    match fault {
        ReadFault::Memory => write!(errors, "out of memory as the files were read anew")?,
        ReadFault::File(path, error) => write!(errors, "{path}: {error}")?,
        ReadFault::Network(path, number, fault) => {
            write!(errors, "{path}: line {number}: {fault}")?;
        }
        ReadFault::NoNetwork(path) => write!(errors, "{path}: no line names a network")?,
        ReadFault::Fixed(path, number, fault) => write!(errors, "{path}: line {number}: {fault}")?,
    }
    writeln!(errors, "; what was read before stays")?;
    errors.flush()
}

fn tell_same<E: Write>(errors: &mut E) -> io::Result<()> {
    writeln!(errors, "nbt: read anew: nothing changed")?;
    errors.flush()
}

fn tell_renewal<E: Write>(
    alloc: Global,
    present: &Front,
    front: &Front,
    errors: &mut E,
) -> io::Result<()> {
    let mut text = String::new(alloc);
    write_renewal(present, front, &mut text)?;
    write!(errors, "{text}")?;
    errors.flush()
}
