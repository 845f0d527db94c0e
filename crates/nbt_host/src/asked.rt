//! The server that a host asks, and how long it has been silent.

ghost use Rattle.std.specs.Prelude.{◌≡◌};
ghost use Rattle.std.specs.List.{slice_get};
ghost use Rattle.nbt_host.specs.Servers.{after_turn, was_tried, is_silent, begun_at, follows, next_of};

use crate::arguments::HostArguments;
use nbt_lease::{Config, Moment};
use nbt_name::Addr;

/// For how many milliseconds a server is asked at least before it counts as silent: three sendings, and 5 s after each (RFC 1002
/// section 6).
pub const TRIED: u64 = 15_000;

/// How many milliseconds a second has.
const SECOND: u64 = 1_000;

/// What a turn's calls of the port were to a server.
#[derive(Clone, Copy, Debug, PartialEq, Eq)]
pub struct Noted {
    /// Whether a datagram came from it.
    pub heard: bool,
    /// Whether one was sent to it.
    pub asked: bool,
}

/// The server that a host asks.
#[derive(Clone, Copy, Debug, PartialEq, Eq)]
pub struct Asked {
    /// Its address and port.
    pub server: Addr,
    /// How many of the host's servers stand before it.
    pub place: usize,
    /// When a datagram came from it last, or else when the host began to ask it.
    pub heard: Moment,
    /// When it was first asked since then, if it was.
    pub since: Option<Moment>,
}

impl Asked {
    /// A server that a host begins to ask, before which so many of its servers stand.
    pub fn begin(server: Addr, place: usize, now: Moment) -> Asked
        ensures { result ≡ begun_at now place server }
    {
        Asked {
            server,
            place,
            heard: now,
            since: None,
        }
    }

    /// The same after a turn that ended at `now`, whose calls of the port were these to it.
    pub fn after_turn(self, noted: Noted, now: Moment) -> Asked
        ensures { result ≡ after_turn noted now self }
    {
        if noted.heard {
            return Asked {
                heard: now,
                since: None,
                ..self
            };
        }
        if noted.asked {
            return Asked {
                since: Some(self.since.unwrap_or(now)),
                ..self
            };
        }
        self
    }

    /// Whether it was asked 15 s ago or more, and not heard since, nor for as long as a lease may be.
    pub fn is_silent(&self, config: Config, now: Moment) -> bool
        ensures { result ≡ is_silent config now self.now }
    {
        was_tried(self.since, now)
            && self.heard.get() + SECOND * u64::from(config.longest()) <= now.get()
    }

    /// Who is asked in its place from `now` on: where it is silent and isn't the only one, the server that follows it in the list, and
    /// after the last the first.
    pub fn next(&self, arguments: &HostArguments, now: Moment) -> Option<Asked>
        ensures { result ≡ next_of arguments.now now self.now }
    {
        let config = arguments.config;
        let others = arguments.others.as_slice();
        if others.is_empty() || !self.is_silent(config, now) {
            return None;
        }
        Some(following(arguments.server, others, self.place, now))
    }
}

/// Whether a server that was first asked then was asked with all sendings of a request.
fn was_tried(since: Option<Moment>, now: Moment) -> bool
    ensures { result ≡ was_tried now since }
{
    match since {
        Some(since) => since.get() + TRIED <= now.get(),
        None => false,
    }
}

/// The server after the one before which so many stand.
fn following(first: Addr, others: &[Addr], place: usize, now: Moment) -> Asked
    ensures { result ≡ follows now first place (slice_get others.now place) }
{
    match others.get(place) {
        Some(server) => Asked::begin(*server, place + 1, now),
        None => Asked::begin(first, 0, now),
    }
}
