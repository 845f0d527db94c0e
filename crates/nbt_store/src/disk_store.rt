//! A store over a disk.

ghost use Rattle.std.specs.Prelude.{◌≡◌, [], ◌∷◌, List, ℕ, false, true, is_err, is_some, if◌then◌else◌, length, Ok, IfOk, OnOk, Some};
ghost use Rattle.nbt_port.specs.PortCalls.{Chain};
ghost use Rattle.nbt_store.specs.Calls.{appending, beginning, going_on};
ghost use Rattle.nbt_store.specs.DiskCalls.{DiskCall, created, installed};
ghost use Rattle.nbt_store.specs.DiskStores.{AsksForLine, AsksToBegin, AsksToGoOn, IsNewFile, beside_in, beside_of, disk_of, is_broken, is_long_by, lines_of, tail_of, tail_at, tail_with, with_line_of, written_of};

use crate::change::Change;
use crate::disk::Disk;
use crate::draft::Draft;
use crate::header::Header;
use crate::room::Room;
use crate::store::{Broken, Store};
use crate::syncs::Syncs;
use crate::writing::{LINE_ROOM, write_change, write_file};
use nbt_lease::Lease;
use nbt_name::Name;
use std::alloc::Global;
use std::collections::VecDeque;
use std::io;

/// The file is long from so many times as many lines on as leases with which it was written (our profile).
const TIMES: usize = 4;

/// A file of so many lines, or fewer, is never long (our profile).
const LINES_LEAST: usize = 1_024;

/// For each lease that its server may have a file gets no more lines than this, and these more (our profile).
const LINES_A_ROW: u64 = 8;

const LINES_MORE: u64 = 8_192;

/// So many lines a file has at most, where its server may have so many leases. One that couldn't be written anew so long, as where memory is
/// refused for that, takes no more changes.
pub(crate) fn lines_most(rows: u64) -> u64 {
    rows.saturating_mul(LINES_A_ROW).saturating_add(LINES_MORE)
}

/// A store over a disk: its file has the lines of the leases with which it was written, and one for each change since. After a
/// call that failed the store is broken: each later call is refused, and asks nothing of the disk. The store knows the checksum of the
/// last line, from which that of the next goes on. A new file is written beside it part by part, and meanwhile each change has a line in both.
#[derive(Drop)]
pub struct DiskStore<D> {
    disk: D,
    /// The most leases that its server may have.
    rows: u64,
    written: usize,
    lines: usize,
    sum: u32,
    draft: Option<Draft>,
    error: Option<io::Error>,
    alloc: Global,
}

impl<D: Disk + Drop> DiskStore<D> {
    /// Opens a store with these leases: it writes a file of them in the place of the one that is there, if there is one. A crash
    /// within the call leaves the old file or the new one. Refused with the error of the disk, or if out of memory.
    pub fn open(
        mut disk: D,
        alloc: Global,
        header: &Header,
        rows: &[(Name, Lease)],
    ) -> io::Result<DiskStore<D>>
        ensures { IfOk result (λ store. (text : List ℕ) × (sum : ℕ) × IsNewFile text header.now rows.now sum × Chain D.does disk (created text ∷ installed ∷ []) (disk_of store) × (tail_of store ≡ tail_at sum)
            × (is_broken store ≡ false) × (lines_of store ≡ length rows.now) × (written_of store ≡ length rows.now)) }
    {
        let sum = write_anew(alloc, header, rows, &mut disk)?;
        Ok(DiskStore {
            disk,
            rows: header.rows,
            written: rows.len(),
            lines: rows.len(),
            sum,
            draft: None,
            error: None,
            alloc,
        })
    }
}

impl<D> DiskStore<D> {
    /// Goes on with a new file, or with that which is whole in the place of the file.
    fn keep(&mut self, draft: Draft, is_whole: bool)
        ensures disk { disk_of self.new ≡ disk_of self.old }
        ensures broken { is_broken self.new ≡ is_broken self.old }
        ensures tail { tail_of self.new ≡ tail_with is_whole (beside_of draft) (tail_of self.old) }
        ensures written { written_of self.new ≡ (if is_whole then (beside_of draft).leases else written_of self.old) }
        ensures lines { lines_of self.new ≡ (if is_whole then (beside_of draft).lines else lines_of self.old) }
    {
        if !is_whole {
            self.draft = Some(draft);
            return;
        }
        self.written = draft.leases();
        self.lines = draft.lines();
        self.sum = draft.sum();
        self.draft = None;
    }

    /// The disk.
    pub fn disk(&self) -> &D
        ensures { result.now ≡ disk_of self.now }
    {
        &self.disk
    }

    /// What a call of the disk did, with what it returned; if it failed, the store keeps why, and is broken.
    fn note<T: Drop>(&mut self, done: io::Result<T>) -> Result<T, Broken>
        ensures result { is_err result ≡ is_err done }
        ensures value { IfOk done (λ value. result ≡ Ok value) }
        ensures disk { disk_of self.new ≡ disk_of self.old }
        ensures tail { tail_of self.new ≡ tail_of self.old }
        ensures lines { lines_of self.new ≡ lines_of self.old }
        ensures written { written_of self.new ≡ written_of self.old }
        ensures broken { is_broken self.old ≡ false → is_broken self.new ≡ is_err done }
    {
        match done {
            Ok(value) => Ok(value),
            Err(why) => {
                self.error = Some(why);
                Err(Broken)
            }
        }
    }
}

/// Writes the file of these leases beside the old one, and puts it in its place. Returns the checksum of its last line.
fn write_anew<D: Disk>(
    alloc: Global,
    header: &Header,
    rows: &[(Name, Lease)],
    disk: &mut D,
) -> io::Result<u32>
    ensures { IfOk result (λ sum. (text : List ℕ) × IsNewFile text header.now rows.now sum × Chain D.does disk.old (created text ∷ installed ∷ []) disk.new) }
{
    let mut text = String::new(alloc);
    let sum = write_file(alloc, header, rows, &mut text)?;
    disk.create(text.as_bytes())?;
    disk.install()?;
    Ok(sum)
}

/// Writes the line of a change at the end of the file, behind one with this checksum, and has a new file, if there is one, have it too.
/// Returns its checksum. Where nothing but a time is to be written, the disk is asked first whether it is there still.
fn write_line<D: Disk>(
    alloc: Global,
    sum: u32,
    change: &Change,
    draft: &mut Option<Draft>,
    disk: &mut D,
) -> io::Result<u32>
    ensures { AsksForLine D.does change.now sum (beside_in draft.old) disk.old result (beside_in draft.new) disk.new }
{
    check_before(change, disk)?;
    let mut line = String::with_capacity(alloc, LINE_ROOM)?;
    let next = write_change(alloc, sum, change, &mut line)?;
    add_to(draft, change)?;
    disk.append(line.as_bytes())?;
    Ok(next)
}

/// Asks the disk whether it is there still, where the change is none of a lease.
fn check_before<D: Disk>(change: &Change, disk: &D) -> io::Result<()> {
    match change {
        Change::Reached { .. } | Change::Looked { .. } => disk.check(),
        Change::Began { .. } | Change::Moved { .. } | Change::Released { .. } => Ok(()),
    }
}

/// Has a new file, if there is one, have a line of a change.
fn add_to(draft: &mut Option<Draft>, change: &Change) -> io::Result<()>
    ensures { OnOk result (beside_in draft.new ≡ with_line_of change.now (beside_in draft.old)) }
{
    if let Some(draft) = draft {
        draft.add(change)?;
    }
    Ok(())
}

/// Begins a new file of these changes beside the file, with its first two lines.
fn begin_beside<D: Disk>(
    alloc: Global,
    header: &Header,
    changes: VecDeque<Change>,
    disk: &mut D,
) -> io::Result<Draft>
    ensures { AsksToBegin D.does header.now changes.items disk.old result disk.new }
{
    let mut text = String::with_capacity(alloc, LINE_ROOM)?;
    let draft = Draft::begin(alloc, header, changes, &mut text)?;
    disk.create(text.as_bytes())?;
    Ok(draft)
}

/// Writes the next part of a new file, and if it is whole then, puts it in the file's place. Returns whether it did.
fn write_part<D: Disk>(alloc: Global, draft: &mut Draft, disk: &mut D) -> io::Result<bool>
    ensures asks { AsksToGoOn D.does (beside_of draft.old) disk.old result (beside_of draft.new) disk.new }
    ensures leases { (beside_of draft.new).leases ≡ (beside_of draft.old).leases }
    ensures lines { (beside_of draft.new).lines ≡ (beside_of draft.old).lines }
{
    let mut text = String::new(alloc);
    draft.write_part(alloc, &mut text)?;
    disk.append_beside(text.as_bytes())?;
    if !draft.is_whole() {
        return Ok(false);
    }
    disk.install()?;
    Ok(true)
}

impl<D: Disk> Store for DiskStore<D> {
    ghost use Rattle.nbt_store.specs.DiskStores.{StoreDoes};

    ghost does = { StoreDoes D.does };

    fn append(&mut self, change: &Change) -> Result<(), Broken> {
        if self.error.is_some() {
            return Err(Broken);
        }
        let done = write_line(
            self.alloc,
            self.sum,
            change,
            &mut self.draft,
            &mut self.disk,
        );
        self.sum = self.note(done)?;
        self.lines = self.lines.saturating_add(1);
        Ok(())
    }

    fn sync(&mut self) -> Result<(), Broken> {
        if self.error.is_some() {
            return Err(Broken);
        }
        let done = self.disk.sync();
        self.note(done)
    }

    fn begin_renewal(&mut self, header: &Header, changes: VecDeque<Change>) -> Result<(), Broken> {
        if self.error.is_some() {
            return Err(Broken);
        }
        let done = begin_beside(self.alloc, header, changes, &mut self.disk);
        let draft = self.note(done)?;
        self.draft = Some(draft);
        Ok(())
    }

    fn go_on(&mut self) -> Result<bool, Broken> {
        if self.error.is_some() {
            return Err(Broken);
        }
        let Some(mut draft) = self.draft.take() else {
            return Ok(false);
        };
        let done = write_part(self.alloc, &mut draft, &mut self.disk);
        let is_whole = self.note(done)?;
        self.keep(draft, is_whole);
        Ok(is_whole)
    }

    fn is_renewing(&self) -> bool {
        self.draft.is_some()
    }

    fn is_long(&self) -> bool
        ensures { result ≡ is_long_by (written_of self.now) (lines_of self.now) }
    {
        self.lines / TIMES > self.written && self.lines > LINES_LEAST
    }

    fn error(&self) -> Option<&io::Error>
        ensures { is_some result ≡ is_broken self.now }
    {
        self.error.as_ref()
    }

    /// What the disk says of it; but room for times alone, where the file has as many lines as it may.
    fn room(&self) -> Room {
        let room = self.disk.room();
        if room.is_ample() && self.lines as u64 >= lines_most(self.rows) {
            Room::TooLong
        } else {
            room
        }
    }

    /// What the disk says of it.
    fn can_renew(&self) -> bool {
        self.disk.has_room_beside()
    }

    /// What the disk says of it.
    fn syncs(&self) -> Syncs {
        self.disk.syncs()
    }
}
