//! The line of an event of a name.

ghost use Rattle.std.specs.Prelude.{◌≡◌, ◌++◌, ℕ, List, OnOk};
ghost use Rattle.std.specs.String.{string_bytes};
ghost use Rattle.nbt_host.specs.Events.{words_before, seconds_and, text_after, IsLine};

use nbt_log::{write_reason, write_seconds, write_time};
use nbt_name::Name;
use nbt_text::{end_line, write_word};
use std::alloc::AllocError;

/// What a line of a host tells of a name.
#[derive(Clone, Copy, Debug, PartialEq, Eq)]
pub enum Event {
    /// It is held, for these seconds from the first sending of its request.
    Granted(u32),
    /// The same, by the host's own longest lease, since the server says no time.
    Untimed(u32),
    /// The same, for so few that it can't be renewed in time: such holds come and go, and the others of a row aren't told.
    Brief(u32),
    /// Its hold was renewed, for these seconds from the first sending of the refresh.
    Renewed(u32),
    /// The server said, unasked, that it isn't held: it is refreshed before its time.
    Doubted,
    /// It isn't granted, with this RCODE (RFC 1002 section 4.2.6).
    Refused(u8),
    /// It is requested again, as long as it is refused.
    AsksAgain,
    /// It isn't held any more, since the server refused to renew it, or demanded it.
    Lost,
    /// It isn't held any more, since its time was over.
    Lapsed,
    /// The server confirmed that it was released.
    GivenBack,
    /// The server denied that, with this RCODE (RFC 1002 section 4.2.11).
    Denied(u8),
    /// It was released, and the server didn't say that it knows.
    Unconfirmed,
    /// It wasn't held when the names were released.
    NotHeld,
}

impl Event {
    /// What stands between the time and the name.
    fn words_before(self) -> &'static str
        ensures { result.now ≡ words_before self }
    {
        match self {
            Event::Granted(_) | Event::Untimed(_) | Event::Brief(_) => " granted ",
            Event::Renewed(_) => " renewed ",
            Event::Doubted => " refreshes ",
            Event::Refused(_) => " refused ",
            Event::AsksAgain => " asks again for ",
            Event::Lost => " lost ",
            Event::Lapsed => " lapsed ",
            Event::GivenBack => " given back ",
            Event::Denied(_) => " give-back denied ",
            Event::Unconfirmed => " give-back unconfirmed ",
            Event::NotHeld => " not held ",
        }
    }

    /// Appends what stands after the name, and the end of the line.
    fn write_after(self, out: &mut String) -> Result<(), AllocError>
        ensures { OnOk result (string_bytes out.new ≡ string_bytes out.old ++ text_after self) }
    {
        match self {
            Event::Granted(seconds) => write_seconds(seconds, out),
            Event::Untimed(seconds) => write_seconds_and(seconds, "the server says no time", out),
            Event::Brief(seconds) => write_seconds_and(
                seconds,
                "too short to be renewed in time",
                out,
            ),
            Event::Renewed(seconds) => write_seconds(seconds, out),
            Event::Doubted => out.push_str(": the server says that it isn't held\n"),
            Event::Refused(rcode) => write_reason(rcode, out),
            Event::Denied(rcode) => write_reason(rcode, out),
            Event::AsksAgain => out.push_str(" after 5 s, 10 s .. at most 5 min\n"),
            Event::Lost | Event::Lapsed | Event::GivenBack | Event::Unconfirmed | Event::NotHeld =>
                end_line(out),
        }
    }
}

/// Appends the seconds of a hold, what more there is to say of it, and the end of the line.
fn write_seconds_and(seconds: u32, more: &str, out: &mut String) -> Result<(), AllocError>
    ensures { OnOk result (string_bytes out.new ≡ string_bytes out.old ++ seconds_and seconds more.now) }
{
    writeln!(out, " {seconds} s: {more}")
}

/// Appends the line of an event of a name in a second since 1970, as `2026-11-24T09:12:03Z granted FILER#20 300 s` or
/// `2026-11-24T09:12:03Z refused FILER#20: held by another (6)`.
pub fn write_event(
    second: u64,
    event: Event,
    name: &Name,
    out: &mut String,
) -> Result<(), AllocError>
    ensures { OnOk result ((line : List ℕ) × IsLine second name.now event line × (string_bytes out.new ≡ string_bytes out.old ++ line)) }
{
    write_time(second, out)?;
    out.push_str(event.words_before())?;
    write_word(name, out)?;
    event.write_after(out)
}
