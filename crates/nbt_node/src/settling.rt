//! What time alone makes of a name's state (our profile).

ghost use Rattle.std.specs.Prelude.{◌≡◌, ◌+◌, nat_le};
ghost use Rattle.nbt_lease.specs.Drift.{quiet};
ghost use Rattle.nbt_node.specs.Settling.{rested, pending_at, settled};

use crate::state::State;
use crate::transaction::{Transaction, is_over};
use nbt_lease::{Config, Moment};
use nbt_name::Kind;

/// Whether no more than `Config::quiet()` has passed at `now` since this time, so that a datagram from before it, or the reply
/// to one, may still be on its way.
pub fn is_resting(since: Moment, config: Config, now: Moment) -> bool
    ensures { result ≡ nat_le now (since + quiet config.life) }
{
    now.get() <= since.get() + config.quiet()
}

/// A name rests until more than `Config::quiet()` has passed since the last sending about it: an old request may live
/// one life, its reply one more, and the node's clock may be fast.
pub fn rested(last: Moment, config: Config, now: Moment) -> State
    ensures { result ≡ rested config.life now last }
{
    if last.get() + config.quiet() < now.get() {
        State::Idle
    } else {
        State::Resting { last }
    }
}

/// The refresh that is still open.
pub fn pending_at(pending: Option<Transaction>, now: Moment) -> Option<Transaction>
    ensures { result ≡ pending_at now pending }
{
    pending.filter(|refresh| !is_over(refresh.tries, refresh.due, now))
}

impl State {
    ghost use Rattle.nbt_node.specs.Node.{held_at};
    ghost use Rattle.nbt_node.specs.Calls.{due_soon, is_busy, is_quiet, held_kind};

    /// The state once time alone has done its part at `now`.
    pub fn settled(&self, config: Config, now: Moment) -> State
        ensures { result ≡ settled config.life now self.now }
    {
        match self {
            State::Asking { last, pending, .. } | State::Releasing { last, pending, .. }
                if is_over(pending.tries, pending.due, now) => rested(*last, config, now),
            State::Held { until, last, .. } if *until <= now.get() => rested(*last, config, now),
            State::Held {
                kind,
                ttl,
                until,
                renew,
                last,
                pending,
            } => State::Held {
                kind: *kind,
                ttl: *ttl,
                until: *until,
                renew: *renew,
                last: *last,
                pending: pending_at(*pending, now),
            },
            State::Resting { last } => rested(*last, config, now),
            State::Idle | State::Asking { .. } | State::Releasing { .. } => *self,
        }
    }

    /// The state whose refresh is due since the last sending about the name, where it is held.
    pub fn due_soon(&self) -> State
        ensures { result ≡ due_soon self.now }
    {
        match self {
            State::Held {
                kind,
                ttl,
                until,
                last,
                pending,
                ..
            } => State::Held {
                kind: *kind,
                ttl: *ttl,
                until: *until,
                renew: last.get(),
                last: *last,
                pending: *pending,
            },
            _ => *self,
        }
    }

    /// As which kind the name is held at `now`.
    pub fn held_at(&self, now: Moment) -> Option<Kind>
        ensures { result ≡ held_at now self.now }
    {
        match self {
            State::Held { kind, until, .. } if now.get() < *until => Some(*kind),
            _ => None,
        }
    }

    /// Whether a registration is pending, or the name is held.
    pub fn is_busy(&self) -> bool
        ensures { result ≡ is_busy self.now }
    {
        matches!(self, State::Asking { .. } | State::Held { .. })
    }

    /// Whether the name rests from the last sending about it.
    pub fn is_quiet(&self) -> bool
        ensures { result ≡ is_quiet self.now }
    {
        matches!(self, State::Releasing { .. } | State::Resting { .. })
    }

    /// As which kind the name is held.
    pub fn held_kind(&self) -> Option<Kind>
        ensures { result ≡ held_kind self.now }
    {
        match self {
            State::Held { kind, .. } => Some(*kind),
            _ => None,
        }
    }
}
