//! Whether a longest lease is one under which a network can be run.

ghost use Rattle.std.specs.Prelude.{◌≡◌, ◌++◌, OnOk};
ghost use Rattle.std.specs.String.{string_bytes};
ghost use Rattle.nbt_nbns.specs.Limits.{judged, refusal_text, warning_text};

use nbt_lease::Config;
use std::alloc::AllocError;

/// How many seconds the longest lease has at least (our profile).
pub const HOLDS_LEAST: u32 = 30;

/// How many lives of a datagram it lasts at least (our profile).
pub const LIVES_LEAST: u64 = 20;

/// Up to how many seconds a server may be silent after its start without a warning (our profile).
pub const LONGEST_QUIET: u32 = 3_600;

/// What is said of a longest lease.
#[derive(Clone, Copy, Debug, PartialEq, Eq)]
pub enum Judged {
    /// Nothing.
    Fits,
    /// It is too short: a hold would lapse before it can be refreshed.
    Short,
    /// It is so long that a restart is silent for more than an hour.
    Long,
}

/// Judges the longest lease: `Short` where it is under 20 lives of a datagram, or under 30 s; else `Long` where it is above an
/// hour. A node refreshes its hold when half of the seconds have passed, and sends the refresh up to three times, one every 5 s: with
/// these limits a reply to the third still comes within the hold (our profile).
pub fn judge(config: Config) -> Judged
    ensures { result ≡ judged config }
{
    let longest = config.longest();
    if longest < HOLDS_LEAST || 1000 * u64::from(longest) < LIVES_LEAST * config.life() {
        Judged::Short
    } else if longest > LONGEST_QUIET {
        Judged::Long
    } else {
        Judged::Fits
    }
}

/// Appends why a longest lease is too short, without the end of the line.
pub fn write_refusal(config: Config, out: &mut String) -> Result<(), AllocError>
    ensures { OnOk result (string_bytes out.new ≡ string_bytes out.old ++ refusal_text config) }
{
    let longest = config.longest();
    let life = config.life();
    write!(
        out,
        "longest lease {longest} s, life of a datagram {life} ms: it has to be 30 s and 20 lives at least, else a hold would lapse before it can be refreshed"
    )
}

/// Appends for how long a restart is silent, without the end of the line.
pub fn write_warning(config: Config, out: &mut String) -> Result<(), AllocError>
    ensures { OnOk result (string_bytes out.new ≡ string_bytes out.old ++ warning_text config) }
{
    let longest = config.longest();
    write!(
        out,
        "longest lease {longest} s: after each start the server is silent for as long"
    )
}
