//! What a server reads and writes at its start, where it keeps its leases.

ghost use Rattle.std.specs.Prelude.{◌≡◌, IfOk, IfErr};
ghost use Rattle.nbt_nbns.specs.Folders.{IsOpenedWith};
ghost use Rattle.nbt_nbns.specs.Opening.{IsStoreFault, IsFoundHere, seen_in};
ghost use Rattle.nbt_nbns.specs.Inner.Starting.{AreRead};
ghost use Rattle.nbt_serve.specs.Runs.{live_rows};

use crate::arguments::StateFolder;
use crate::folder::FolderStore;
use crate::roomy::make_room;
use nbt_lease::{Config, Lease, Moment};
use nbt_log::write_time;
use nbt_name::{Addr, Name};
use nbt_port::{Clock, Fault, MachineClock, SteadyClock, readable_clock, steady_clock};
use nbt_serve::list_live;
use nbt_store::{
    Begun, Boot, Fault as FileFault, Found, Reason, Seen, SystemDisk, begin, load_header, outlasts,
    outlasts_for, this_boot,
};
use std::alloc::{AllocError, Global};
use std::fs::File;
use std::io::{ErrorKind, Write};
use std::net::Net;
use std::random::RandomSource;
use std::rt::Files;
use std::{io, time};

/// The milliseconds of a second.
const SECOND: u64 = 1_000;

/// A store that was opened, and the leases that it has.
#[derive(Drop)]
pub(crate) struct Opened<'a, M: Files> {
    /// The store.
    pub store: FolderStore<'a, M>,
    /// The leases that it has.
    pub rows: Vec<(Name, Lease)>,
}

/// A folder that is locked for this server alone. Its file and the machine's clocks are read through it, so after it was locked: no server
/// that had it before does anything by then.
#[derive(Drop)]
pub(crate) struct Locked<'a, M: Files> {
    disk: SystemDisk<'a, M>,
    folder: &'a str,
}

/// What both clocks of a machine told at a start.
#[derive(Clone, Copy, Debug, PartialEq, Eq)]
pub(crate) struct Told {
    /// The monotonic clock, at first.
    pub before: Moment,
    /// Then the time of day.
    pub time: Moment,
    /// Then the monotonic clock again.
    pub monotonic: Moment,
}

impl Told {
    /// The same in this boot.
    fn seen_in(self, boot: &Boot) -> Seen<'_>
        ensures { result ≡ seen_in self boot.entry }
    {
        Seen {
            boot,
            before: self.before,
            day: self.time,
            monotonic: self.monotonic,
        }
    }
}

/// Both clocks of a machine, and what they told.
#[derive(Drop)]
pub(crate) struct Clocks<'a, M: time::Clock> {
    /// The monotonic clock.
    pub steady: SteadyClock<'a, M>,
    /// The clock of the time of day.
    pub day: MachineClock<'a, M>,
    /// What they told.
    pub told: Told,
}

impl<'a, M: Files<File = File> + RandomSource> Locked<'a, M> {
    /// Locks a folder, which has to be there; `None` where another server has locked it, and a line in `errors` says so. Refused with `Memory`
    /// or `Store`: a line in `errors` says why.
    pub fn lock<E: Write>(
        machine: &'a M,
        alloc: Global,
        folder: &'a str,
        errors: &mut E,
    ) -> Result<Option<Locked<'a, M>>, Fault>
        ensures { IfErr result IsStoreFault }
    {
        match SystemDisk::open_folder(machine, alloc, folder) {
            Ok(disk) => Ok(Some(Locked { disk, folder })),
            Err(error) if error.kind() == ErrorKind::WouldBlock => {
                let _ = tell_used(folder, errors);
                Ok(None)
            }
            Err(error) => Err(refused("the folder can't be used", folder, error, errors)),
        }
    }

    /// Reads the boot and the file, and a server begins with what is found, by what these clocks of this machine told, with room for all
    /// that it may have. Refused with
    /// `Memory`; with `Store` where they can't be read, and where a lease that was kept may outlast the silence of a server that begins
    /// anew, as [`outlasts`] says: a line in `errors` says which.
    pub fn begin<E: Write>(
        &self,
        machine: &M,
        alloc: Global,
        state: &StateFolder,
        config: Config,
        told: Told,
        errors: &mut E,
    ) -> Result<Begun, Fault>
        ensures ok { IfOk result (IsFoundHere config told state.now.silent_after_boot) }
        ensures err { IfErr result IsStoreFault }
    {
        let boot = boot_here(machine, alloc, self.folder, errors)?;
        let kept = self.disk.read(alloc, config.rows());
        let mut begun = begin_with(alloc, &boot, kept, state, config, told, errors)?;
        make_room(machine, &mut begun.server, errors)?;
        Ok(begun)
    }
}

impl<'a, M: Net + time::Clock + Files<File = File>> Locked<'a, M> {
    /// Reads both clocks of the machine, as [`read_clocks`] does, after the folder was locked.
    pub fn clocks<'m, E: Write>(
        &self,
        machine: &'m M,
        addr: Addr,
        errors: &mut E,
    ) -> Result<Clocks<'m, M>, Fault>
        ensures ok { IfOk result (λ clocks. AreRead clocks.steady clocks.told clocks.day) }
        ensures err { IfErr result (λ fault. fault ≡ Fault.NoClock) }
    {
        read_clocks(machine, addr, errors)
    }
}

/// Reads both clocks of the machine. Refused with `NoClock` where one can't be read: a line in `errors` says why.
pub(crate) fn read_clocks<'m, M: Net + time::Clock + Files<File = File>, E: Write>(
    machine: &'m M,
    addr: Addr,
    errors: &mut E,
) -> Result<Clocks<'m, M>, Fault>
    ensures ok { IfOk result (λ clocks. AreRead clocks.steady clocks.told clocks.day) }
    ensures err { IfErr result (λ fault. fault ≡ Fault.NoClock) }
{
    let mut steady = steady_clock(machine, addr, errors)?;
    let mut day = readable_clock(machine, addr, errors)?;
    let before = steady.now();
    let time = day.now();
    let monotonic = steady.now();
    let told = Told {
        before,
        time,
        monotonic,
    };
    Ok(Clocks { steady, day, told })
}

/// A server begins with these octets of the file, in this boot, by what these clocks told. Refused as [`Locked::begin`] is.
pub(crate) fn begin_with<E: Write>(
    alloc: Global,
    boot: &Boot,
    kept: io::Result<Option<Vec<u8>>>,
    state: &StateFolder,
    config: Config,
    told: Told,
    errors: &mut E,
) -> Result<Begun, Fault>
    ensures ok { IfOk result (IsFoundHere config told state.now.silent_after_boot) }
    ensures err { IfErr result IsStoreFault }
{
    let folder = state.path.as_str();
    let kept = match kept {
        Ok(kept) => kept,
        Err(error) => return Err(refused("the leases can't be read", folder, error, errors)),
    };
    let found = Found {
        kept: kept.as_ref().map(|octets| octets.as_slice()),
        config,
        seen: told.seen_in(boot),
        silent_after_boot: state.silent_after_boot,
    };
    if outlasts(alloc, &found)? {
        let _ = tell_outlasted(alloc, folder, &found, errors);
        return Err(Fault::Store);
    }
    Ok(begin(alloc, &found)?)
}

/// Opens the store of a folder with the header and the leases of a server that begins. A file that is damaged or of another version is set aside before.
/// Refused with `Memory` or `Store`.
pub(crate) fn open_store<'a, M: Files<File = File> + time::Clock, E: Write>(
    locked: Locked<'a, M>,
    alloc: Global,
    begun: &Begun,
    errors: &mut E,
) -> Result<Opened<'a, M>, Fault>
    ensures store { IfOk result (λ opened. IsOpenedWith begun.now.header (live_rows begun.now.server) opened.store) }
    ensures rows { IfOk result (λ opened. opened.rows.items ≡ live_rows begun.now.server) }
    ensures err { IfErr result IsStoreFault }
{
    let Locked { mut disk, folder } = locked;
    if is_unreadable(&begun.reason) {
        if let Err(error) = disk.set_aside() {
            return Err(refused("the old leases can't be set aside", folder, error, errors));
        }
    }
    let mut rows = Vec::new(alloc);
    list_live(&begun.server, &mut rows)?;
    match FolderStore::open(disk, alloc, &begun.header, rows.as_slice()) {
        Ok(store) => Ok(Opened { store, rows }),
        Err(error) => Err(refused("the leases can't be kept", folder, error, errors)),
    }
}

/// The boot of this machine. Refused with `Memory` or `Store`.
pub(crate) fn boot_here<M: Files, E: Write>(
    machine: &M,
    alloc: Global,
    folder: &str,
    errors: &mut E,
) -> Result<Boot, Fault>
    ensures { IfErr result IsStoreFault }
{
    match this_boot(machine, alloc) {
        Ok(Some(boot)) => Ok(boot),
        Ok(None) => {
            let none = io::Error::other("it has no id");
            Err(refused("the boot of this machine isn't known", folder, none, errors))
        }
        Err(error) => Err(refused(
            "the boot of this machine isn't known",
            folder,
            error,
            errors,
        )),
    }
}

/// Whether there is a file that can't be loaded.
fn is_unreadable(reason: &Option<Reason>) -> bool {
    match reason {
        Some(Reason::File(FileFault::Version)) | Some(Reason::File(FileFault::Damaged(_))) => true,
        _ => false,
    }
}

/// What an error of the folder is to the program: `Memory` where the system is out of memory, else `Store`. A line in `errors` says
/// what can't be done, and why; a failure to write it is ignored.
pub(crate) fn refused<E: Write>(what: &str, folder: &str, error: io::Error, errors: &mut E) -> Fault
    ensures { IsStoreFault result }
{
    let _ = tell(what, folder, error, errors);
    match error.kind() {
        ErrorKind::OutOfMemory => Fault::Memory,
        _ => Fault::Store,
    }
}

fn tell<E: Write>(what: &str, folder: &str, error: io::Error, errors: &mut E) -> io::Result<()> {
    writeln!(errors, "nbt: {folder}: {what}: {error}")?;
    errors.flush()
}

/// Says that a lease may outlast the silence, under which longest lease it was kept, and from when on a start outlasts it, where these are
/// known.
fn tell_outlasted<E: Write>(
    alloc: Global,
    folder: &str,
    found: &Found<'_>,
    errors: &mut E,
) -> io::Result<()> {
    let silent = found.config.longest();
    let mut known = String::new(alloc);
    write_outlasted(alloc, found, &mut known)?;
    writeln!(
        errors,
        "nbt: {folder}: a lease that was kept under a longer LONGEST may outlast a silence of {silent} s{known}: start with that LONGEST, or remove leases there when it has passed"
    )?;
    errors.flush()
}

/// Appends what is known of it, as ` (was 300 s; starts at 2026-11-24T09:17:03Z)`.
fn write_outlasted(alloc: Global, found: &Found<'_>, out: &mut String) -> Result<(), AllocError> {
    let Some(octets) = found.kept else {
        return Ok(());
    };
    let Some(header) = load_header(alloc, octets)? else {
        return Ok(());
    };
    let was = header.longest;
    write!(out, " (was {was} s")?;
    if let Some(wait) = outlasts_for(alloc, found)? {
        out.push_str("; starts at ")?;
        let at = found.seen.day.get().saturating_add(wait);
        write_time(at.div_ceil(SECOND), out)?;
    }
    out.push_str(")")
}

/// Says that another server has the lock of a folder.
pub(crate) fn tell_used<E: Write>(folder: &str, errors: &mut E) -> io::Result<()> {
    writeln!(errors, "nbt: another server uses {folder}")?;
    errors.flush()
}
