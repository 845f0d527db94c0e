//! The line with which a name server begins.

ghost use Rattle.std.specs.Prelude.{◌≡◌, ◌++◌, ℕ, List, OnOk};
ghost use Rattle.std.specs.String.{string_bytes};
ghost use Rattle.nbt_nbns.specs.Begin.{IsBegin, IsManner, IsSilence, addresses_text, fault_text, kept_text, manner_at_first, manner_of, more_addresses_text, reason_text, silence_text};

use nbt_lease::Moment;
use nbt_log::{Dates, write_time};
use nbt_name::Addr;
use nbt_store::{Fault, Reason, Silence};
use nbt_text::{end_line, write_address};
use std::alloc::AllocError;

/// The milliseconds of a second.
const SECOND: u64 = 1_000;

/// How a server begins. A time is a second since 1970.
#[derive(Clone, Copy, Debug, PartialEq, Eq)]
pub enum Manner {
    /// Without a state: silent for so many seconds, until that time.
    Starts(u64, u64),
    /// With so many leases that were kept.
    Speaks(usize),
    /// With so many, and silent for so many seconds more, until that time.
    Waits(usize, u64, u64),
    /// Silent for so many seconds, until that time, for this reason.
    Silent(u64, u64, Reason),
}

/// What is said of a server without a state, which starts at the moment of the dates, and whose longest lease has so many seconds.
pub fn manner_at_first(longest: u32, dates: &Dates) -> Manner
    ensures { result ≡ manner_at_first longest dates.now }
{
    let silent_until = dates.moment.get() + SECOND * u64::from(longest);
    Manner::Starts(u64::from(longest), dates.second_at(silent_until))
}

/// What is said of a server that begins at the moment of the dates, which serves from this moment on, with so many live leases, and
/// whose longest lease has so many seconds.
pub fn manner_of(
    longest: u32,
    start: Moment,
    serves: Moment,
    dates: &Dates,
    count: usize,
    reason: Option<Reason>,
) -> Manner
    ensures { result ≡ manner_of longest start serves dates.now count reason }
{
    let silent_until = start.get() + SECOND * u64::from(longest);
    if let Some(reason) = reason {
        return Manner::Silent(u64::from(longest), dates.second_at(silent_until), reason);
    }
    let speaks = silent_until.max(serves.get());
    let until = dates.second_at(speaks);
    let now = dates.moment.get();
    if now < speaks {
        return Manner::Waits(count, (speaks - now).div_ceil(SECOND), until);
    }
    Manner::Speaks(count)
}

/// Appends where a server serves, and how it begins: without a state as `serving 127.0.0.1:137, 192.0.2.1:137, silent for 300 s until
/// 2026-11-24T09:17:03Z`; else as `serving 0.0.0.0:137, with 17 leases kept`, then maybe `, silent for 120 s until 2026-11-24T09:17:03Z`; or
/// as `serving 0.0.0.0:137, silent for 300 s until 2026-11-24T09:17:03Z, since nothing was kept`.
pub fn write_begin(at: &[Addr], manner: Manner, out: &mut String) -> Result<(), AllocError>
    ensures { OnOk result ((line : List ℕ) × IsBegin at.now manner line × (string_bytes out.new ≡ string_bytes out.old ++ line)) }
{
    out.push_str("serving ")?;
    write_addresses(at, out)?;
    write_manner(manner, out)?;
    end_line(out)
}

/// Appends how it begins.
pub(crate) fn write_manner(manner: Manner, out: &mut String) -> Result<(), AllocError>
    ensures { OnOk result ((text : List ℕ) × IsManner manner text × (string_bytes out.new ≡ string_bytes out.old ++ text)) }
{
    match manner {
        Manner::Starts(silent, until) => write_silence(silent, until, out),
        Manner::Speaks(count) => write_kept(count, out),
        Manner::Waits(count, silent, until) => {
            write_kept(count, out)?;
            write_silence(silent, until, out)
        }
        Manner::Silent(silent, until, reason) => {
            write_silence(silent, until, out)?;
            out.push_str(", since ")?;
            write_reason(reason, out)
        }
    }
}

/// Appends how many leases were kept.
fn write_kept(count: usize, out: &mut String) -> Result<(), AllocError>
    ensures { OnOk result (string_bytes out.new ≡ string_bytes out.old ++ kept_text count) }
{
    let leases = if count == 1 { "lease" } else { "leases" };
    write!(out, ", with {count} {leases} kept")
}

/// Appends for how many seconds it is silent, and until when.
fn write_silence(silent: u64, until: u64, out: &mut String) -> Result<(), AllocError>
    ensures { OnOk result ((text : List ℕ) × IsSilence silent until text × (string_bytes out.new ≡ string_bytes out.old ++ text)) }
{
    write!(out, ", silent for {silent} s until ")?;
    write_time(until, out)
}

/// Appends why a server doesn't go on with what was kept.
pub fn write_reason(reason: Reason, out: &mut String) -> Result<(), AllocError>
    ensures { OnOk result (string_bytes out.new ≡ string_bytes out.old ++ reason_text reason) }
{
    match reason {
        Reason::Nothing => out.push_str("nothing was kept"),
        Reason::File(fault) => write_fault(fault, out),
        Reason::Other(silence) => out.push_str(silence_word(silence)),
        Reason::Full => out.push_str("more leases than rows"),
        Reason::Unsound => out.push_str("leases that no server grants"),
        Reason::Over => out.push_str("the kept leases are over"),
    }
}

/// Appends why octets are no file of a store.
fn write_fault(fault: Fault, out: &mut String) -> Result<(), AllocError>
    ensures { OnOk result (string_bytes out.new ≡ string_bytes out.old ++ fault_text fault) }
{
    match fault {
        Fault::Empty => out.push_str("nothing was kept"),
        Fault::Version => out.push_str("another version"),
        Fault::Damaged(line) => write!(out, "damaged at line {line}"),
    }
}

/// Why a server is silent though leases are kept.
fn silence_word(silence: Silence) -> &'static str
    ensures { result.now ≡ silence_text silence }
{
    match silence {
        Silence::OtherLife => "another LIFE",
        Silence::OtherLongest => "another LONGEST",
        Silence::OtherRows => "another number of rows",
        Silence::BadTimes => "times that no server keeps",
        Silence::OtherBoot => "another boot",
        Silence::Apart => "clocks that went apart",
        Silence::Older => "kept by an older version",
    }
}

/// Appends addresses, with a comma between two.
pub fn write_addresses(addresses: &[Addr], out: &mut String) -> Result<(), AllocError>
    ensures { OnOk result (string_bytes out.new ≡ string_bytes out.old ++ addresses_text addresses.now) }
{
    match addresses.split_first() {
        Some((first, others)) => {
            write_address(*first, out)?;
            write_more(others, out)
        }
        None => Ok(()),
    }
}

/// Appends more addresses, each behind a comma.
fn write_more(addresses: &[Addr], out: &mut String) -> Result<(), AllocError>
    ensures { OnOk result (string_bytes out.new ≡ string_bytes out.old ++ more_addresses_text addresses.now) }
{
    for address in addresses {
        out.push_str(", ")?;
        write_address(*address, out)?;
    }
    Ok(())
}
