//! Reads times, limits and numbers.

ghost use Rattle.std.specs.Prelude.{◌≡◌, ◌<◌, ◌^◌, ℕ, unwrap_or, IfOk, IsSome, IfSome, IfNone};
ghost use Rattle.nbt_lease.specs.Config.{IsLargeRows, IsLongest, large_rows_most, milliseconds, rows_most};
ghost use Rattle.nbt_admin.specs.Reading.{IfGiven};
ghost use Rattle.nbt_admin.specs.Times.{SpellsLongest, ReadsChanges, ReadsConfig, ReadsLogRate, NeedsFit, ReadsTime, ReadsUpTo, with_rows};
ghost use Rattle.nbt_admin.specs.declared.failure.ArgumentFault.TheVariants.{ClientRows};

use crate::failure::{ArgumentFault, Complaint, Failure};
use nbt_lease::{Config, LARGE_ROWS_MOST, LIFE_MOST, LONGEST_MOST, ROWS_MOST};
use nbt_nbns::{Judged, judge};
use nbt_text::{duration_within, number_within, read_duration};
use std::alloc::Global;

/// How many changes of a client in a second may be allowed at most (our profile).
pub const CHANGES_MOST: u32 = 1_000_000;

/// How many lines of a kind a log may have in a second at most, where not all may be (our profile).
pub const LOG_RATE_MOST: u8 = 255;

/// How many live leases a server keeps, without an argument (our profile).
const ROWS: u32 = 4_096;

/// The milliseconds of a second.
const SECOND: u64 = 1_000;

/// Reads the limits that a server and its hosts share, for the greatest number of leases.
pub fn config_of(alloc: Global, life: &str, longest: &str) -> Result<Config, Failure>
    ensures { ReadsConfig life.now longest.now result }
{
    let Some(milliseconds) = duration_within(life, 1, LIFE_MOST) else {
        return Err(Failure::of_argument(alloc, life, ArgumentFault::Life));
    };
    let Some(seconds) = parse_longest(longest) else {
        return Err(Failure::of_argument(alloc, longest, ArgumentFault::Longest));
    };
    Ok(Config::new(milliseconds, seconds, ROWS_MOST).unwrap())
}

/// Returns the same limits for so many live leases, and for 4,096 without a number.
pub fn with_rows(config: Config, rows: Option<u32>) -> Config
    requires { IsLargeRows (unwrap_or rows rows_most) }
    ensures { result ≡ with_rows config rows }
{
    let count = rows.unwrap_or(ROWS);
    Config::large(config.life(), config.longest(), count as usize).unwrap()
}

/// Refuses limits with which no network can run, as `nbt_nbns::judge` decides.
pub fn fit(config: Config) -> Result<(), Failure>
    ensures { NeedsFit config result }
{
    match judge(config) {
        Judged::Short => Err(Failure::Complaint(Complaint::Short(config))),
        _ => Ok(()),
    }
}

/// Reads for how many milliseconds a command runs; `None` for no limit.
pub fn ending_of(alloc: Global, text: Option<&str>) -> Result<Option<u64>, Failure>
    ensures { IfGiven ReadsTime text.entry result }
{
    match text {
        Some(text) => Ok(Some(time_of(alloc, text)?)),
        None => Ok(None),
    }
}

/// Reads a time, in milliseconds.
fn time_of(alloc: Global, text: &str) -> Result<u64, Failure>
    ensures { ReadsTime text.now result }
{
    match read_duration(text.as_bytes()) {
        Some(time) => Ok(time),
        None => Err(Failure::of_argument(alloc, text, ArgumentFault::Time)),
    }
}

/// Reads how many live leases a server keeps: a whole number from 1 to 1,048,576; `None` without a text.
pub fn rows_of(alloc: Global, text: Option<&str>) -> Result<Option<u32>, Failure>
    ensures read { IfGiven (ReadsUpTo large_rows_most ArgumentFault.Rows) text.entry result }
    ensures limits { IfOk result (λ rows. IsLargeRows (unwrap_or rows rows_most)) }
{
    match text {
        Some(text) => {
            let rows = number_of(alloc, text, LARGE_ROWS_MOST as u64, ArgumentFault::Rows)?;
            Ok(Some(rows))
        }
        None => Ok(None),
    }
}

/// Reads how many live leases a client of a server may have: a whole number from 1 to 1,048,576; `None` without a text.
pub fn client_rows_of(alloc: Global, text: Option<&str>) -> Result<Option<u32>, Failure>
    ensures { IfGiven (ReadsUpTo large_rows_most ClientRows) text.entry result }
{
    match text {
        Some(text) => {
            let most = LARGE_ROWS_MOST as u64;
            Ok(Some(number_of(alloc, text, most, ArgumentFault::ClientRows)?))
        }
        None => Ok(None),
    }
}

/// Reads how many changes a client of a server may make in a second: a whole number from 0 to 1,000,000; `None` without a text.
pub fn client_changes_of(alloc: Global, text: Option<&str>) -> Result<Option<u32>, Failure>
    ensures { IfGiven ReadsChanges text.entry result }
{
    match text {
        Some(text) => Ok(Some(changes_of(alloc, text)?)),
        None => Ok(None),
    }
}

fn changes_of(alloc: Global, text: &str) -> Result<u32, Failure>
    ensures { ReadsChanges text.now result }
{
    match number_within(text, 0, u64::from(CHANGES_MOST)) {
        Some(number) => Ok(number as u32),
        None => Err(Failure::of_argument(alloc, text, ArgumentFault::ClientChanges)),
    }
}

/// Reads how many lines of a kind a log has in a second at most: a whole number from 0 to 255; `None` without a text.
pub fn log_rate_of(alloc: Global, text: Option<&str>) -> Result<Option<u8>, Failure>
    ensures { IfGiven ReadsLogRate text.entry result }
{
    match text {
        Some(text) => Ok(Some(rate_of(alloc, text)?)),
        None => Ok(None),
    }
}

fn rate_of(alloc: Global, text: &str) -> Result<u8, Failure>
    ensures { ReadsLogRate text.now result }
{
    match number_within(text, 0, u64::from(LOG_RATE_MOST)) {
        Some(number) => Ok(number as u8),
        None => Err(Failure::of_argument(alloc, text, ArgumentFault::LogRate)),
    }
}

/// Reads a whole number from 1 to `most`.
pub fn number_of(alloc: Global, text: &str, most: u64, fault: ArgumentFault) -> Result<u32, Failure>
    requires { most < 2 ^ 32 }
    ensures { ReadsUpTo most fault text.now result }
{
    match number_within(text, 1, most) {
        Some(number) => Ok(number as u32),
        None => Err(Failure::of_argument(alloc, text, fault)),
    }
}

/// Reads the longest lease: from 1 to 1,000,000 s, in whole seconds.
fn parse_longest(text: &str) -> Option<u32>
    ensures read { IfSome result (SpellsLongest text.now) }
    ensures none { IfNone result ((seconds : ℕ) → ¬ SpellsLongest text.now seconds) }
{
    match read_duration(text.as_bytes()) {
        Some(time) => seconds_within(time),
        None => None,
    }
}

/// Returns the seconds of a time, if they are whole and within their limits.
fn seconds_within(time: u64) -> Option<u32>
    ensures found { (seconds : ℕ) → time ≡ milliseconds seconds → IsLongest seconds → IsSome result }
    ensures value { IfSome result (λ seconds. (time ≡ milliseconds seconds) × IsLongest seconds) }
{
    let seconds = time / SECOND;
    if time % SECOND == 0 && 1 <= seconds && seconds <= u64::from(LONGEST_MOST) {
        Some(seconds as u32)
    } else {
        None
    }
}
