//! A folder of the system as a disk.
//!
//! What a file keeps no contract can say. That the octets are written, synced and renamed can be read here.

ghost use Rattle.std.specs.Prelude.{⊤};

use crate::boot::Boot;
use crate::disk::Disk;
use crate::disk_store::lines_most;
use crate::room::Room;
use crate::spare::{
    LINE_MOST, PAUSE, PAUSE_BESIDE, ROOM, ROOM_PART, is_full, lacks_part, part_of, room_of,
    without_room, write_zeros,
};
use crate::syncs::Syncs;
use nbt_lease::ROWS_MOST;
use std::alloc::Global;
use std::cell::Cell;
use std::fs::{File, Metadata, OpenFile, Permissions};
use std::io::{ErrorKind, Read, Seek, SeekFrom, Write};
use std::os::unix::fs::{MetadataExt, OpenOptionsExt, PermissionsExt};
use std::rt::Files;
use std::time::Duration;
use std::{fs, io, time};

/// What the file `lock` says (our profile): an empty file might be taken for one that may be replaced, and a lock whose file is
/// replaced locks nobody out.
const LOCK_LINE: &[u8] = b"# lock of nbt nbns\n";

/// Who may open the file `lock`: its owner alone (our profile). Who can open it can hold its lock.
const LOCK_MODE: u32 = 0o600;

/// The bits of a mode that say who may do what.
const MODES: u32 = 0o777;

/// What is said of a file `lock` that says something else.
pub const OTHER_LOCK: &str = "lock is another file";

/// So many octets of it are read at most: more than it says.
pub const LOCK_MOST: usize = 64;

/// Where Linux has the id of the boot.
const BOOT_ID: &str = "/proc/sys/kernel/random/boot_id";

/// The id of this boot, where the system has one.
pub fn this_boot<R: Files>(rt: &R, alloc: Global) -> io::Result<Option<Boot>> {
    let text = octets_of(rt, alloc, BOOT_ID, file_most(ROWS_MOST))?;
    let octets = text.as_slice();
    match octets.split_last() {
        Some((b'\n', id)) => Ok(Boot::new(id)),
        _ => Ok(Boot::new(octets)),
    }
}

/// Which file of the system it is: that of no other path, but for a further link to it.
#[derive(Clone, Copy, Debug, PartialEq, Eq)]
struct Mark {
    device: u64,
    inode: u64,
}

impl Mark {
    /// That of a file with these attributes.
    fn of(metadata: &Metadata) -> Mark {
        Mark {
            device: metadata.dev(),
            inode: metadata.ino(),
        }
    }
}

/// A new file: it is open at the end of its lines, of so many octets, and has so many with its room.
#[derive(Drop)]
struct Beside<F> {
    file: F,
    mark: Mark,
    lines: u64,
    size: u64,
}

/// A folder of the system: its file `leases`, the new file `leases.new` beside it, and the file `lock`, which it holds locked for
/// as long as it lasts. Whoever has this value has the lock. What is appended stays in memory until the next sync, which writes all
/// of it at once, over the zeros that the file has behind its lines as room for them. Where a disk is full, the file gets no room anew, and
/// that is tried again once a second.
#[derive(Drop)]
pub struct SystemDisk<'a, R: Files> {
    machine: &'a R,
    folder: &'a str,
    path: String,
    new_path: String,
    bad_path: String,
    lock_path: String,
    lock: Mark,
    _locked: File,
    open: Option<R::File>,
    /// Which file that is.
    mark: Option<Mark>,
    /// How many octets its lines have that were written.
    lines: u64,
    /// How many it has with its room.
    size: Cell<u64>,
    /// When the disk had no room for it last.
    refused: Cell<Option<Duration>>,
    /// The new file beside it, where it is getting its room, or has it, and no lines yet.
    prepared: Cell<Option<Mark>>,
    /// The new file beside it, once it has lines.
    beside: Option<Beside<R::File>>,
    /// When the disk had no room for a new file last.
    refused_beside: Cell<Option<Duration>>,
    /// What was appended to the file since the last sync.
    unwritten: Vec<u8>,
    syncs: Syncs,
}

impl<'a, R: Files<File = File>> SystemDisk<'a, R> {
    /// Opens a folder, which has to be there, and locks its file `lock`, which is made if it isn't there, for its owner alone, and says
    /// then what it is. Refused with an error of the kind `WouldBlock` if another holds that lock, and with no such error otherwise, as
    /// where `lock` is no regular file, or one that says something else; or if out of memory.
    pub fn open_folder(
        machine: &'a R,
        alloc: Global,
        folder: &'a str,
    ) -> io::Result<SystemDisk<'a, R>> {
        let lock_path = format!(in alloc; "{folder}/lock")?;
        let (mut locked, lock) = open_lock(machine, lock_path.as_str())?;
        locked.try_lock()?;
        say_lock(&mut locked)?;
        keep_to_owner(&locked)?;
        let disk = SystemDisk {
            machine,
            folder,
            path: format!(in alloc; "{folder}/leases")?,
            new_path: format!(in alloc; "{folder}/leases.new")?,
            bad_path: format!(in alloc; "{folder}/leases.bad")?,
            lock_path,
            lock,
            _locked: locked,
            open: None,
            mark: None,
            lines: 0,
            size: Cell::new(0),
            refused: Cell::new(None),
            prepared: Cell::new(None),
            beside: None,
            refused_beside: Cell::new(None),
            unwritten: Vec::new(alloc),
            syncs: Syncs::NONE,
        };
        disk.check_lock()?;
        Ok(disk)
    }

    /// The octets of the file, as [`leases_at`] has them for a server of so many rows.
    pub fn read(&self, alloc: Global, rows: usize) -> io::Result<Option<Vec<u8>>> {
        leases_at(self.machine, alloc, self.path.as_str(), rows)
    }

    /// Renames the file `leases.bad`, in place of an earlier one of that name, so that what could not be loaded isn't lost where
    /// the store is opened anew. To be called where the file is damaged or of another version, before the store is opened.
    pub fn set_aside(&mut self) -> io::Result<()> {
        fs::rename(self.machine, self.path.as_str(), self.bad_path.as_str())?;
        sync_folder(self.machine, self.folder)
    }
}

impl<'a, R: Files> SystemDisk<'a, R> {
    /// The folder, as it was given.
    pub fn folder(&self) -> &'a str {
        self.folder
    }
}

/// The octets of the file of leases at a path, without its room; `None` where there is none. Refused where it is no regular file, or has
/// more octets than a store writes of the leases of a server of so many rows, or of 4,096 where that is more; or if out of memory.
pub fn leases_at<R: Files>(
    machine: &R,
    alloc: Global,
    path: &str,
    rows: usize,
) -> io::Result<Option<Vec<u8>>> {
    check_kind(machine, path, "leases is no regular file")?;
    match octets_of(machine, alloc, path, file_most(rows.max(ROWS_MOST))) {
        Ok(octets) => Ok(Some(cut(octets))),
        Err(why) if why.kind() == ErrorKind::NotFound => Ok(None),
        Err(why) => Err(why),
    }
}

/// These octets of a file, without its room.
fn cut(octets: Vec<u8>) -> Vec<u8> {
    let mut octets = octets;
    let count = without_room(octets.as_slice()).len();
    octets.truncate(count);
    octets
}

impl<R: Files> SystemDisk<'_, R> {
    /// Refused where the file `lock` of the folder isn't the one any more that is locked: the folder was moved, or another is in its
    /// place.
    fn check_lock(&self) -> io::Result<()> {
        check_mark(self.machine, self.lock_path.as_str(), self.lock)
    }
}

impl<R: Files + time::Clock> SystemDisk<'_, R> {
    /// How many octets of the open file's room are left for what is still to be appended.
    fn left(&self) -> u64 {
        self.size
            .get()
            .saturating_sub(self.lines)
            .saturating_sub(self.unwritten.len() as u64)
    }

    /// The reading of the clock, where it has one.
    fn now(&self) -> Option<Duration> {
        self.machine.monotonic().ok()
    }

    /// Whether it is so many milliseconds since a time, if there was one.
    fn is_since(&self, before: Option<Duration>, pause: u64) -> bool {
        match (before, self.now()) {
            (Some(before), Some(now)) => {
                now.saturating_sub(before).as_millis() >= u128::from(pause)
            }
            _ => true,
        }
    }

    /// Gives the open file a part of the room that it lacks, and so much that there is room for changes, as far as the disk has it, and makes
    /// that durable. Refused where another file is
    /// in its place, and where the disk fails or is full.
    fn extend(&self) -> io::Result<()> {
        let mut how = File::options();
        how.append(true);
        let mut file = how.open(self.machine, self.path.as_str())?;
        if self.mark != Some(Mark::of(&file.metadata()?)) {
            return Err(moved());
        }
        let done = write_zeros(&mut file, part_of(self.left()));
        file.sync_data()?;
        self.size.set(file.seek(SeekFrom::End(0))?);
        done
    }

    /// Gives the new file beside the file a part more of its room, with zeros where its lines will be too, and makes that durable; it is made
    /// first, where there is none. Returns whether it has all of it.
    fn prepare(&self) -> io::Result<bool> {
        let mut file = self.open_prepared()?;
        let size = file.seek(SeekFrom::End(0))?;
        let lacks = self.lines.saturating_add(ROOM).saturating_sub(size);
        if lacks > 0 {
            write_zeros(&mut file, lacks.min(ROOM_PART))?;
            file.sync_data()?;
        }
        Ok(lacks <= ROOM_PART)
    }

    /// The new file that is getting its room; a new one, where there is none.
    fn open_prepared(&self) -> io::Result<R::File> {
        check_new(self.machine, self.new_path.as_str())?;
        if let Some(mark) = self.prepared.get() {
            return opened_as(self.machine, self.new_path.as_str(), mark);
        }
        self.check()?;
        let file = new_file(self.machine, self.new_path.as_str())?;
        self.prepared.set(Some(Mark::of(&file.metadata()?)));
        Ok(file)
    }

    /// The new file: that which was prepared, or one without octets.
    fn open_new(&self) -> io::Result<R::File> {
        let path = self.new_path.as_str();
        check_new(self.machine, path)?;
        match self.prepared.replace(None) {
            Some(mark) => opened_as(self.machine, path, mark),
            None => new_file(self.machine, path),
        }
    }
}

/// Refused where something else than a regular file stands where the new file is to be.
fn check_new<R: Files>(machine: &R, path: &str) -> io::Result<()> {
    check_kind(machine, path, "leases.new is no regular file")
}

/// Opens the file of this mark at a path, to be written over from its begin on. Refused where another one is there.
fn opened_as<R: Files>(machine: &R, path: &str, mark: Mark) -> io::Result<R::File> {
    let mut how = File::options();
    how.write(true);
    let file = how.open(machine, path)?;
    if Mark::of(&file.metadata()?) == mark {
        Ok(file)
    } else {
        Err(moved())
    }
}

/// Gives a file room behind lines of so many octets, as far as the disk has it, and goes back to their end. Returns how many octets it has
/// then. Refused where the disk fails in another way than that it is full.
fn add_room<F: Write + Seek>(file: &mut F, lines: u64) -> io::Result<u64> {
    let size = file.seek(SeekFrom::End(0))?;
    match write_zeros(file, lines.saturating_add(ROOM).saturating_sub(size)) {
        Err(error) if !is_full(&error) => return Err(error),
        _ => {}
    }
    let size = file.seek(SeekFrom::End(0))?;
    file.seek(SeekFrom::Start(lines))?;
    Ok(size)
}

/// What is said of a folder, or a file, in whose place there is another.
fn moved() -> io::Error {
    io::Error::other("the folder was moved or replaced")
}

/// Refused where another file than this one is at a path. No link is followed.
fn check_mark<R: Files>(machine: &R, path: &str, mark: Mark) -> io::Result<()> {
    let there = fs::symlink_metadata(machine, path)?;
    if there.is_file() && Mark::of(&there) == mark {
        Ok(())
    } else {
        Err(moved())
    }
}

/// A file has fewer octets: this is more than any store writes, by the lines that it has at most where a server has so many rows.
fn file_most(rows: usize) -> u64 {
    lines_most(rows as u64)
        .saturating_mul(LINE_MOST)
        .saturating_add(ROOM)
}

/// The octets of a file. Refused where it has so many.
fn octets_of<R: Files>(machine: &R, alloc: Global, path: &str, most: u64) -> io::Result<Vec<u8>> {
    let mut octets = Vec::new(alloc);
    File::open(machine, path)?
        .take(most)
        .read_to_end(&mut octets)?;
    if octets.len() as u64 >= most {
        return Err(io::Error::other("the file is too long"));
    }
    Ok(octets)
}

/// Refused, with these words, where something stands that is no regular file: who opens a pipe may wait for ever, a device keeps nothing
/// or has no end, and what a link leads to is somebody else's.
fn check_kind<R: Files>(machine: &R, path: &str, why_not: &'static str) -> io::Result<()> {
    match fs::symlink_metadata(machine, path) {
        Ok(metadata) if metadata.is_file() => Ok(()),
        Ok(_) => Err(io::Error::other(why_not)),
        Err(error) if error.kind() == ErrorKind::NotFound => Ok(()),
        Err(error) => Err(error),
    }
}

/// Opens the file `lock` of a folder, and makes it if it isn't there, for its owner alone. Refused where a link led to it meanwhile.
fn open_lock<R: Files>(machine: &R, path: &str) -> io::Result<(R::File, Mark)> {
    check_kind(machine, path, "lock is no regular file")?;
    let mut how = File::options();
    how.read(true);
    how.write(true);
    how.create(true);
    how.mode(LOCK_MODE);
    let file = how.open(machine, path)?;
    let mark = Mark::of(&file.metadata()?);
    check_mark(machine, path, mark)?;
    Ok((file, mark))
}

/// Lets the owner of a file alone open it: an older server made its lock for everybody.
fn keep_to_owner(file: &File) -> io::Result<()> {
    if file.metadata()?.mode() & MODES == LOCK_MODE {
        return Ok(());
    }
    file.set_permissions(Permissions::from_mode(LOCK_MODE))
}

/// Whether the file `lock` of a folder may say this: that it is a server's, or nothing yet.
pub fn is_lock_text(text: &[u8]) -> bool {
    text.is_empty() || text == LOCK_LINE
}

/// Has the file `lock` say what it is, where it is empty. Refused where it says something else: it is somebody's file.
fn say_lock(file: &mut File) -> io::Result<()> {
    let mut octets = [0; LOCK_MOST];
    let count = file.read(&mut octets)?;
    let said = &octets[..count];
    if said.is_empty() {
        return file.write_all(LOCK_LINE);
    }
    if is_lock_text(said) {
        Ok(())
    } else {
        Err(io::Error::other(OTHER_LOCK))
    }
}

/// A new file at this path, in place of one that a crash left there. No link is followed: where something stands there again meanwhile, it is
/// refused.
fn new_file<R: Files>(machine: &R, path: &str) -> io::Result<R::File> {
    match fs::remove_file(machine, path) {
        Err(error) if error.kind() != ErrorKind::NotFound => return Err(error),
        _ => {}
    }
    let mut how = File::options();
    how.write(true);
    how.create_new(true);
    how.open(machine, path)
}

/// Makes the names of a folder durable.
fn sync_folder<R: Files>(machine: &R, folder: &str) -> io::Result<()> {
    File::open(machine, folder)?.sync_all()
}

/// The file that is open; an error where none is.
fn opened<F>(file: &mut Option<F>) -> io::Result<&mut F> {
    file.as_mut().ok_or(io::Error::from(ErrorKind::NotFound))
}

impl<'a, R: Files + time::Clock> Disk for SystemDisk<'a, R> {
    ghost does = { λ _ _ _. ⊤ };

    fn check(&self) -> io::Result<()> {
        self.check_lock()
    }

    fn create(&mut self, octets: &[u8]) -> io::Result<()> {
        self.check_lock()?;
        self.beside = None;
        let mut file = self.open_new()?;
        file.write_all(octets)?;
        let lines = octets.len() as u64;
        let size = add_room(&mut file, lines)?;
        let before = self.machine.monotonic();
        file.sync_data()?;
        self.syncs.add(before, self.machine.monotonic());
        let mark = Mark::of(&file.metadata()?);
        self.beside = Some(Beside {
            file,
            mark,
            lines,
            size,
        });
        Ok(())
    }

    fn append_beside(&mut self, octets: &[u8]) -> io::Result<()> {
        let beside = opened(&mut self.beside)?;
        beside.file.write_all(octets)?;
        beside.lines = beside.lines.saturating_add(octets.len() as u64);
        beside.size = beside.size.max(beside.lines);
        let before = self.machine.monotonic();
        beside.file.sync_data()?;
        self.syncs.add(before, self.machine.monotonic());
        Ok(())
    }

    fn install(&mut self) -> io::Result<()> {
        self.check()?;
        let beside = self
            .beside
            .take()
            .ok_or(io::Error::from(ErrorKind::NotFound))?;
        check_mark(self.machine, self.new_path.as_str(), beside.mark)?;
        fs::rename(self.machine, self.new_path.as_str(), self.path.as_str())?;
        sync_folder(self.machine, self.folder)?;
        self.lines = beside.lines;
        self.size.set(beside.size);
        self.mark = Some(beside.mark);
        self.open = Some(beside.file);
        self.unwritten.clear();
        Ok(())
    }

    fn append(&mut self, octets: &[u8]) -> io::Result<()> {
        opened(&mut self.open)?;
        self.unwritten.extend_from_slice(octets)?;
        Ok(())
    }

    fn sync(&mut self) -> io::Result<()> {
        let before = self.machine.monotonic();
        let file = opened(&mut self.open)?;
        file.write_all(self.unwritten.as_slice())?;
        self.lines = self.lines.saturating_add(self.unwritten.len() as u64);
        self.unwritten.clear();
        file.sync_data()?;
        self.syncs.add(before, self.machine.monotonic());
        Ok(())
    }

    fn room(&self) -> Room {
        if lacks_part(self.left()) && self.is_since(self.refused.get(), PAUSE) {
            match self.extend() {
                Ok(()) => self.refused.set(None),
                Err(_) => self.refused.set(self.now()),
            }
        }
        room_of(self.left())
    }

    fn has_room_beside(&self) -> bool {
        if !self.is_since(self.refused_beside.get(), PAUSE_BESIDE) {
            return false;
        }
        match self.prepare() {
            Ok(is_whole) => is_whole,
            Err(error) if is_full(&error) => {
                let _ = fs::remove_file(self.machine, self.new_path.as_str());
                self.prepared.set(None);
                self.refused_beside.set(self.now());
                false
            }
            // Its writing fails then, and says why.
            Err(_) => true,
        }
    }

    fn syncs(&self) -> Syncs {
        self.syncs
    }
}
