//! A limit for the lines of each kind.

ghost use Rattle.std.specs.Prelude.{◌≡◌};
ghost use Rattle.nbt_log.specs.Limiting.{LimitsKind, limiters_at};
ghost use Rattle.nbt_log.specs.Summary.{first_due, kinds};

use crate::entry::LineKind;
use crate::limiter::Limiter;
use nbt_lease::Moment;
use std::marker::Model;

/// Which lines may be printed: of each kind at most so many in any second, or all. A contract sees what is remembered of each kind.
#[derive(Debug, Drop)]
pub struct Limiters {
    granted: Limiter,
    renewed: Limiter,
    refused: Limiter,
    released: Limiter,
    not_released: Limiter,
    unanswered: Limiter,
    foreign: Limiter,
    malformed: Limiter,
    broadcast: Limiter,
}

impl Model for Limiters {
    ghost use Rattle.nbt_log.specs.Limiting.{LimitersValue};

    ghost Value = { LimitersValue };

    ghost view = { λ l. record { granted = l.granted; renewed = l.renewed; refused = l.refused; released = l.released; not_released = l.not_released; unanswered = l.unanswered; foreign = l.foreign; malformed = l.malformed; broadcast = l.broadcast } };
}

impl Limiters {
    /// No line was printed yet, and of each kind at most so many may be in any second; all may be where it is 0.
    pub fn new(most: u8) -> Limiters
        ensures { result ≡ limiters_at most }
    {
        Limiters {
            granted: Limiter::of(most),
            renewed: Limiter::of(most),
            refused: Limiter::of(most),
            released: Limiter::of(most),
            not_released: Limiter::of(most),
            unanswered: Limiter::of(most),
            foreign: Limiter::of(most),
            malformed: Limiter::of(most),
            broadcast: Limiter::of(most),
        }
    }

    /// Whether a line of this kind may be printed at `now`, as [`Limiter::take`] says of the lines of its kind.
    pub fn take(&mut self, kind: LineKind, now: Moment) -> Option<u64>
        ensures { LimitsKind self.old kind now result self.new }
    {
        match kind {
            LineKind::Granted => self.granted.take(now),
            LineKind::Renewed => self.renewed.take(now),
            LineKind::Refused => self.refused.take(now),
            LineKind::Released => self.released.take(now),
            LineKind::NotReleased => self.not_released.take(now),
            LineKind::Unanswered => self.unanswered.take(now),
            LineKind::Foreign => self.foreign.take(now),
            LineKind::Malformed => self.malformed.take(now),
            LineKind::Broadcast => self.broadcast.take(now),
        }
    }

    /// The first kind of which lines were left out and one may be printed at `now`, if there is one.
    pub fn due(&self, now: Moment) -> Option<LineKind>
        ensures { result ≡ first_due self.now now kinds }
    {
        if self.granted.is_due(now) {
            return Some(LineKind::Granted);
        }
        if self.renewed.is_due(now) {
            return Some(LineKind::Renewed);
        }
        if self.refused.is_due(now) {
            return Some(LineKind::Refused);
        }
        if self.released.is_due(now) {
            return Some(LineKind::Released);
        }
        if self.not_released.is_due(now) {
            return Some(LineKind::NotReleased);
        }
        if self.unanswered.is_due(now) {
            return Some(LineKind::Unanswered);
        }
        if self.foreign.is_due(now) {
            return Some(LineKind::Foreign);
        }
        if self.malformed.is_due(now) {
            return Some(LineKind::Malformed);
        }
        if self.broadcast.is_due(now) {
            return Some(LineKind::Broadcast);
        }
        None
    }
}
