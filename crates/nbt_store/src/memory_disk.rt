//! A disk in memory, for tests: it fails where it is told to, and shows what a crash leaves.

ghost use Rattle.std.specs.Prelude.{⊤};

use crate::disk::Disk;
use crate::room::Room;
use std::alloc::Global;
use std::cell::Cell;
use std::io;
use std::io::ErrorKind;

/// What a disk in memory does from a call on.
#[derive(Clone, Copy, Debug, PartialEq, Eq)]
pub enum Trouble {
    /// Each call fails, and does nothing.
    Refused,
    /// Each call fails: a write writes so many octets at most, a sync makes nothing durable, and a new file takes the place of the
    /// old one, but a crash can take that back.
    Torn(usize),
    /// The disk is full: each write writes so many octets at most, and fails where it has more. The other calls go well.
    Full(usize),
}

/// A file, and how many octets of it, from the first one on, every crash keeps.
#[derive(Drop)]
struct Written {
    octets: Vec<u8>,
    synced: usize,
}

/// A disk in memory: the file, and the new one beside it, if there is one.
#[derive(Drop)]
pub struct MemoryDisk {
    file: Written,
    new: Option<Written>,
    installing: bool,
    calls: usize,
    trouble: Option<(usize, Trouble)>,
    room: Cell<Room>,
    alloc: Global,
}

impl Written {
    /// A file of no octets. Takes no memory.
    fn empty(alloc: Global) -> Written {
        Written {
            octets: Vec::new(alloc),
            synced: 0,
        }
    }

    /// Writes the first octets, so many at most. Fails where there are more, or if out of memory.
    fn write(&mut self, octets: &[u8], most: usize) -> io::Result<()> {
        let part = &octets[..most.min(octets.len())];
        self.octets.extend_from_slice(part)?;
        if part.len() < octets.len() {
            return Err(io::Error::from(ErrorKind::StorageFull));
        }
        Ok(())
    }

    /// Makes all of it durable, with this trouble.
    fn sync(&mut self, trouble: Option<Trouble>) -> io::Result<()> {
        match trouble {
            Some(Trouble::Refused) | Some(Trouble::Torn(_)) => Err(failure()),
            _ => {
                self.synced = self.octets.len();
                Ok(())
            }
        }
    }

    /// How many cuts of it a crash may leave.
    fn cuts(&self) -> usize {
        self.octets
            .len()
            .saturating_sub(self.synced)
            .saturating_add(1)
    }

    /// What a crash leaves, numbered from 0: what is synced, and then one octet more each time.
    fn left(&self, number: usize) -> Option<&[u8]> {
        self.octets.get(..self.synced.checked_add(number)?)
    }
}

impl MemoryDisk {
    /// A disk whose file is empty. From the call of this number on, counted from 0, there is this trouble.
    pub fn new(alloc: Global, trouble: Option<(usize, Trouble)>) -> MemoryDisk {
        MemoryDisk {
            file: Written::empty(alloc),
            new: None,
            installing: false,
            calls: 0,
            trouble,
            room: Cell::new(Room::Ample),
            alloc,
        }
    }

    /// It has so much room from now on, and room for a new file where that is ample.
    pub fn set_room(&self, room: Room) {
        self.room.set(room);
    }

    /// How many calls there have been: a write of a new file is one, and that it becomes durable is another.
    pub fn calls(&self) -> usize {
        self.calls
    }

    /// The octets of the file.
    pub fn octets(&self) -> &[u8] {
        self.file.octets.as_slice()
    }

    /// What a crash may leave as the file, numbered from 0; `None` from the first number on that has no more. It is the file, cut
    /// anywhere from what was synced on; and where a new file may have taken its place or not, that one as well, so cut.
    pub fn left(&self, number: usize) -> Option<&[u8]> {
        match number.checked_sub(self.file.cuts()) {
            None => self.file.left(number),
            Some(others) => self.left_installing(others),
        }
    }

    /// What a crash may leave of a new file that may have taken the place of the old one or not.
    fn left_installing(&self, number: usize) -> Option<&[u8]> {
        match &self.new {
            Some(new) if self.installing => new.left(number),
            _ => None,
        }
    }

    /// The trouble of the next call, which is counted.
    fn next_trouble(&mut self) -> Option<Trouble> {
        let call = self.calls;
        self.calls = call.saturating_add(1);
        let (first, trouble) = self.trouble?;
        if call < first { None } else { Some(trouble) }
    }
}

impl Disk for MemoryDisk {
    ghost does = { λ _ _ _. ⊤ };

    fn create(&mut self, octets: &[u8]) -> io::Result<()> {
        self.installing = false;
        self.new = Some(Written::empty(self.alloc));
        self.append_beside(octets)
    }

    fn append_beside(&mut self, octets: &[u8]) -> io::Result<()> {
        let trouble = self.next_trouble();
        match &mut self.new {
            Some(new) => new.write(octets, most(trouble))?,
            None => return Err(failure()),
        }
        let trouble = self.next_trouble();
        match &mut self.new {
            Some(new) => new.sync(trouble),
            None => Err(failure()),
        }
    }

    fn install(&mut self) -> io::Result<()> {
        match self.next_trouble() {
            Some(Trouble::Refused) => Err(failure()),
            Some(Trouble::Torn(_)) => {
                self.installing = true;
                Err(failure())
            }
            _ => {
                self.file = self.new.take().ok_or(failure())?;
                Ok(())
            }
        }
    }

    fn append(&mut self, octets: &[u8]) -> io::Result<()> {
        let trouble = self.next_trouble();
        self.file.write(octets, most(trouble))
    }

    fn sync(&mut self) -> io::Result<()> {
        let trouble = self.next_trouble();
        self.file.sync(trouble)
    }

    fn room(&self) -> Room {
        self.room.get()
    }

    fn has_room_beside(&self) -> bool {
        self.room.get().is_ample()
    }
}

/// Why a call fails that does nothing.
fn failure() -> io::Error {
    io::Error::from(ErrorKind::Other)
}

/// How many octets a write may write.
fn most(trouble: Option<Trouble>) -> usize {
    match trouble {
        None => usize::MAX,
        Some(Trouble::Refused) => 0,
        Some(Trouble::Torn(most)) => most,
        Some(Trouble::Full(most)) => most,
    }
}
