//! Whether a lease that was kept outlasts the silence of a server that begins anew.

ghost use Rattle.std.specs.Prelude.{◌≡◌, ◌-◌, ◌<◌, ◌≤◌, ◌↔◌, ◌⊎◌, Any, IsTrue, Ok, IfOk, IfSome};
ghost use Rattle.nbt_store.specs.declared.fault.Fault.{Fault as FaultSeen};
ghost use Rattle.nbt_store.specs.declared.silence.Onward.{Onward as OnwardSeen};
ghost use Rattle.nbt_store.specs.declared.fault.ReadFault.TheVariants as read;
ghost use Rattle.nbt_store.specs.Silence.{IsInTime};
ghost use Rattle.nbt_store.specs.Outlasting.{clock_now, latest, silent_until, speaks_anew, with_limits, MayHaveLost, OutlastsAs, OutlastsFor, OutlastsWith};

use crate::beginning::copy_of;
use crate::fault::ReadFault;
use crate::header::Header;
use crate::reading::{Loaded, load, load_header};
use crate::resuming::Found;
use crate::silence::{Onward, why_silent};
use nbt_lease::{Config, Lease};
use nbt_name::Name;
use std::alloc::{AllocError, Global};

/// The milliseconds of a second.
const SECOND: u64 = 1_000;

/// Whether a lease of what is found may end after the silence of a server that begins anew now, with the limits of `found`: such a
/// server could grant its name to another while it lives. It is said only of what was kept under a longer longest lease: where a lease
/// ends later; where the silence of the server that kept it does, since what was leased before that is in no file; where no clock goes on
/// with the file; and where the file can't be loaded, but its header can, since a lease of it may be lost. Refused
/// where it is out of memory.
pub fn outlasts(alloc: Global, found: &Found<'_>) -> Result<bool, AllocError>
    ensures { IfOk result (OutlastsAs found.now) }
{
    match found.kept {
        Some(octets) => match load(alloc, octets) {
            Ok(loaded) => Ok(outlasts_with(found, &loaded)),
            Err(why) => without_leases(alloc, found, octets, why),
        },
        None => Ok(false),
    }
}

/// In how many milliseconds a server that begins anew outlasts each lease of what is found, by the silence with which it begins then; `None`
/// where that isn't known: nothing is kept, it can't be loaded, no clock goes on with it, or one that stood while nobody served, or its times
/// are too great for a clock. Refused where it is out of memory.
pub fn outlasts_for(alloc: Global, found: &Found<'_>) -> Result<Option<u64>, AllocError>
    ensures { IfOk result (λ wait. IfSome wait (OutlastsFor found.now)) }
{
    let Some(octets) = found.kept else {
        return Ok(None);
    };
    match load(alloc, octets) {
        Ok(loaded) => Ok(wait_for(found, &loaded)),
        Err(ReadFault::File(_)) => Ok(None),
        Err(ReadFault::Memory) => Err(AllocError),
    }
}

/// The same, with what was loaded.
fn wait_for(found: &Found<'_>, loaded: &Loaded) -> Option<u64>
    ensures { IfSome result (λ wait. (onward : OnwardSeen) × (clock_now found.now loaded.now.form loaded.now.header loaded.now.times ≡ Ok onward)
        × (onward.serves ≡ onward.reads) × (wait ≡ latest (silent_until loaded.now.header) loaded.now.rows.items - speaks_anew found.now onward)) }
{
    let header = with_limits(found.config, &loaded.header);
    let silent_after_boot = false;
    let onward = why_silent(
        loaded.form,
        &header,
        &loaded.times,
        found.config,
        &found.seen,
        silent_after_boot,
    )
    .ok()?;
    if onward.serves != onward.reads {
        return None;
    }
    let speaks = speaks_anew(found, loaded, onward);
    let first = silent_until(&loaded.header)?;
    let over = latest(first, loaded.rows.as_slice());
    Some(over.saturating_sub(speaks))
}

/// When the silence of the server that kept it was over; `None` where that is too late for a clock.
fn silent_until(header: &Header) -> Option<u64>
    ensures { IfSome result (λ time. time ≡ silent_until header.now) }
{
    header
        .start
        .checked_add(SECOND.checked_mul(header.longest)?)
}

/// When all of these leases are over, and this time is.
fn latest(time: u64, rows: &[(Name, Lease)]) -> u64
    ensures { result ≡ latest time rows.now }
{
    let mut over = time;
    for row in rows {
        over = over.max(row.1.end);
    }
    over
}

/// What is said of octets that aren't loaded for this reason.
fn without_leases(
    alloc: Global,
    found: &Found<'_>,
    octets: &[u8],
    why: ReadFault,
) -> Result<bool, AllocError>
    ensures { IfOk result (λ is. (fault : FaultSeen) × (why ≡ read.File fault) × MayHaveLost found.now octets.now is) }
{
    match why {
        ReadFault::File(_) => may_have_lost(alloc, found, octets),
        ReadFault::Memory => Err(AllocError),
    }
}

/// The same, where they are no file.
fn may_have_lost(alloc: Global, found: &Found<'_>, octets: &[u8]) -> Result<bool, AllocError>
    ensures { IfOk result (MayHaveLost found.now octets.now) }
{
    match load_header(alloc, octets)? {
        Some(header) => Ok(was_longer(found, &header)),
        None => Ok(false),
    }
}

/// Whether the longest lease was longer.
fn was_longer(found: &Found<'_>, header: &Header) -> bool
    ensures { IsTrue result ↔ (found.now.config.longest < header.now.longest) }
{
    u64::from(found.config.longest()) < header.longest
}

/// The same, with what was loaded.
fn outlasts_with(found: &Found<'_>, loaded: &Loaded) -> bool
    ensures { OutlastsWith found.now loaded.now.form loaded.now.header loaded.now.times loaded.now.rows.items result }
{
    if loaded.header.longest <= u64::from(found.config.longest()) {
        return false;
    }
    outlasts_by_time(found, loaded)
}

/// The same, where the longest lease was longer.
fn outlasts_by_time(found: &Found<'_>, loaded: &Loaded) -> bool
    requires { found.now.config.longest < loaded.now.header.longest }
    ensures { OutlastsWith found.now loaded.now.form loaded.now.header loaded.now.times loaded.now.rows.items result }
{
    let header = with_limits(found.config, &loaded.header);
    match why_silent(
        loaded.form,
        &header,
        &loaded.times,
        found.config,
        &found.seen,
        false,
    ) {
        Ok(onward) => outlasts_at(loaded, speaks_anew(found, loaded, onward)),
        Err(_why) => true,
    }
}

/// The same header, as if it were of these limits.
fn with_limits(config: Config, header: &Header) -> Header
    ensures { result ≡ with_limits config header.now }
{
    Header {
        life: config.life(),
        longest: u64::from(config.longest()),
        rows: config.rows() as u64,
        boot: copy_of(&header.boot),
        ahead: header.ahead,
        start: header.start,
        last: header.last,
        day: header.day,
    }
}

/// When the silence of a server ends that begins anew now, by the clock of the file as it was.
fn speaks_anew(found: &Found<'_>, loaded: &Loaded, onward: Onward) -> u64
    requires { IsInTime loaded.now.header loaded.now.times found.now.seen onward }
    ensures speaks { result ≡ speaks_anew found.now onward }
    ensures begun { loaded.now.header.start ≤ result }
{
    onward.reads - onward.shift + SECOND * u64::from(found.config.longest())
}

/// Whether a lease may end after this time: one that was loaded, or one from before the silence of the server that kept it.
fn outlasts_at(loaded: &Loaded, time: u64) -> bool
    requires { loaded.now.header.start ≤ time }
    ensures { IsTrue result ↔ ((time < silent_until loaded.now.header) ⊎ Any (λ row. time < row.1.end) loaded.now.rows.items) }
{
    is_silent_after(&loaded.header, time) || has_after(loaded.rows.as_slice(), time)
}

/// Whether the silence of the server that kept it ended after this time.
fn is_silent_after(header: &Header, time: u64) -> bool
    requires { header.now.start ≤ time }
    ensures { IsTrue result ↔ (time < silent_until header.now) }
{
    (time - header.start) / SECOND < header.longest
}

/// Whether one of the leases ends after this time.
fn has_after(rows: &[(Name, Lease)], time: u64) -> bool
    ensures { IsTrue result ↔ Any (λ row. time < row.1.end) rows.now }
{
    rows.iter().any(|row| time < row.1.end)
}
