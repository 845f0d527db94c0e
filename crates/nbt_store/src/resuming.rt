//! Whether a server that starts goes on with what was kept.

ghost use Rattle.std.specs.Prelude.{◌≡◌, ◌≤◌, ◌↔◌, IsTrue, IfOk};
ghost use Rattle.nbt_lease.specs.Config.{last_moment};
ghost use Rattle.nbt_store.specs.Silence.{IsInTime};
ghost use Rattle.nbt_store.specs.Resuming.{GoesOnWith, IsRecent, IsRefusal, ResumesAs, ResumesOn, later_row, later_rows as later_rows_by};

use crate::fault::{Fault, ReadFault};
use crate::reading::{Loaded, load};
use crate::silence::{Onward, Seen, Silence, why_silent};
use nbt_lease::{Config, Lease, Moment};
use nbt_name::Name;
use nbt_server::{ResumeFault, Server};
use std::alloc::{AllocError, Global};

/// The milliseconds of a second.
const SECOND: u64 = 1_000;

/// What a server finds when it starts.
#[derive(Drop)]
pub struct Found<'a> {
    /// The octets of the file, if there is one.
    pub kept: Option<&'a [u8]>,
    /// Its limits.
    pub config: Config,
    /// The boot of its machine, and what the clocks show.
    pub seen: Seen<'a>,
    /// Whether it is silent after another boot, and where the clocks went apart.
    pub silent_after_boot: bool,
}

/// Why a server doesn't go on with what was kept (our profile).
#[derive(Clone, Copy, Debug, PartialEq, Eq)]
pub enum Reason {
    /// Nothing was kept.
    Nothing,
    /// What was kept is no file of a store.
    File(Fault),
    /// It was kept under other limits, or no clock goes on with it.
    Other(Silence),
    /// More leases live than the limits allow.
    Full,
    /// The leases are none that a server has.
    Unsound,
    /// The longest lease has passed since the last time of the file: another server may have served since.
    Over,
}

/// What a server that starts does.
#[derive(Drop)]
pub enum Decided {
    /// It goes on with what was kept.
    Goes(Going),
    /// It has no leases, and is silent for its longest lease.
    Silent(Reason),
}

/// A server that goes on.
#[derive(Drop)]
pub struct Going {
    /// The server, with the leases that live.
    pub server: Server,
    /// When it first began, before its silence.
    pub start: Moment,
    /// What its clock reads at the start. It serves from the server's last time on.
    pub reads: Moment,
    /// By how many milliseconds its clock is ahead of the machine's monotonic clock.
    pub ahead: u64,
}

/// Decides whether a server goes on with what was kept, with the leases of it that live when it serves, or is silent for its longest
/// lease. The first reason counts: nothing was kept; the octets are no file of a store, as [`load`] says; the header isn't of these
/// limits, or no clock goes on with it, as [`why_silent`] says; the longest lease has passed since the last time of the file, by the
/// clock that shows the most; the leases aren't restored, as [`Server::resume`] says. Refused where it is out of memory.
///
/// That so much time has passed is a reason against an old file: what is younger was kept by a server after which no other that began
/// anew can have granted anything yet, since it is silent for as long.
pub fn resume(alloc: Global, found: &Found<'_>) -> Result<Decided, AllocError>
    ensures { IfOk result (ResumesAs found.now) }
{
    match found.kept {
        Some(octets) => match load(alloc, octets) {
            Ok(loaded) => resume_with(alloc, found, &loaded),
            Err(why) => refused_as(why),
        },
        None => Ok(Decided::Silent(Reason::Nothing)),
    }
}

/// What a server does with octets that aren't read for this reason.
fn refused_as(why: ReadFault) -> Result<Decided, AllocError>
    ensures { IfOk result (IsRefusal why) }
{
    match why {
        ReadFault::File(fault) => Ok(Decided::Silent(Reason::File(fault))),
        ReadFault::Memory => Err(AllocError),
    }
}

/// The same, with what was loaded.
fn resume_with(alloc: Global, found: &Found<'_>, loaded: &Loaded) -> Result<Decided, AllocError>
    ensures { IfOk result (GoesOnWith found.now loaded.now.form loaded.now.header loaded.now.times loaded.now.rows.items) }
{
    match why_silent(
        loaded.form,
        &loaded.header,
        &loaded.times,
        found.config,
        &found.seen,
        found.silent_after_boot,
    ) {
        Ok(onward) => resume_on(alloc, found, loaded, onward),
        Err(why) => Ok(Decided::Silent(Reason::Other(why))),
    }
}

/// The same, by this clock.
fn resume_on(
    alloc: Global,
    found: &Found<'_>,
    loaded: &Loaded,
    onward: Onward,
) -> Result<Decided, AllocError>
    requires { IsInTime loaded.now.header loaded.now.times found.now.seen onward }
    ensures { IfOk result (ResumesOn found.now loaded.now.header loaded.now.times loaded.now.rows.items onward) }
{
    if !is_recent(found.config, onward) {
        return Ok(Decided::Silent(Reason::Over));
    }
    let rows = later_rows(alloc, loaded.rows.as_slice(), onward.shift)?;
    let start = moment_of(loaded.header.start + onward.shift);
    let last = moment_of(loaded.times.last + onward.shift);
    let now = moment_of(onward.serves);
    match Server::resume(alloc, found.config, start, last, now, rows.as_slice()) {
        Ok(server) => Ok(Decided::Goes(Going {
            server,
            start,
            reads: moment_of(onward.reads),
            ahead: onward.ahead,
        })),
        Err(ResumeFault::ClockBack) => Ok(Decided::Silent(Reason::Other(Silence::BadTimes))),
        Err(ResumeFault::TableFull) => Ok(Decided::Silent(Reason::Full)),
        Err(ResumeFault::Unsound) => Ok(Decided::Silent(Reason::Unsound)),
        Err(ResumeFault::OutOfMemory) => Err(AllocError),
    }
}

/// The leases, each of which ends so much later, and no later than 2^64 - 1.
fn later_rows(
    alloc: Global,
    rows: &[(Name, Lease)],
    by: u64,
) -> Result<Vec<(Name, Lease)>, AllocError>
    ensures { IfOk result (λ later. later.items ≡ later_rows_by by rows.now) }
{
    let mut later = Vec::with_capacity(alloc, rows.len())?;
    for row in rows {
        later.push(later_row(row, by))?;
    }
    Ok(later)
}

/// The lease, which ends so much later, and no later than 2^64 - 1.
fn later_row(row: &(Name, Lease), by: u64) -> (Name, Lease)
    ensures { result ≡ later_row by row.now }
{
    let (name, lease) = row;
    let lease = Lease {
        addr: lease.addr,
        kind: lease.kind,
        end: lease.end.saturating_add(by),
    };
    (name.copy(), lease)
}

/// A time that a clock can tell.
fn moment_of(ms: u64) -> Moment
    requires { ms ≤ last_moment }
    ensures { result ≡ ms }
{
    Moment::new(ms).unwrap()
}

/// Whether the longest lease hasn't passed since the last time of the file.
fn is_recent(config: Config, onward: Onward) -> bool
    ensures { IsTrue result ↔ IsRecent config onward }
{
    onward.passed < SECOND * u64::from(config.longest())
}
