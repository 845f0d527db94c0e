//! When a node has something to send next, if nothing happens to it before.

ghost use Rattle.std.specs.Prelude.{◌≡◌, ℕ, ◌≤◌, Bool, ◌||◌, List, [], ◌∷◌, map, is_some, nat_le};
ghost use Rattle.nbt_name.specs.declared.addr.Kind.{Kind as NameKind};
ghost use Rattle.nbt_node.specs.Transaction.{is_next};
ghost use Rattle.nbt_node.specs.Settling.{settled, pending_at};
ghost use Rattle.nbt_node.specs.Node.{settled_slot, settled_lookup};
ghost use Rattle.nbt_node.specs.Moves.{is_due};
ghost use Rattle.nbt_node.specs.Calls.{first_due, due_lookup};
ghost use Rattle.nbt_node.specs.Waiting.{IsFirst};

use crate::lookup::Lookup;
use crate::state::{Slot, State};
use crate::transaction::{SENDINGS, Transaction};
use nbt_lease::{Config, Moment};

/// The earlier of two times, where there are two.
pub fn earlier(a: Option<u64>, b: Option<u64>) -> Option<u64>
    ensures { (f g : ℕ → Bool) (since : ℕ) → IsFirst f since a → IsFirst g since b → IsFirst (λ time. f time || g time) since result }
{
    let Some(first) = a else {
        return b;
    };
    let Some(second) = b else {
        return a;
    };
    if first <= second {
        Some(first)
    } else {
        Some(second)
    }
}

/// When a request is sent once more, from `since` on.
fn next_sending(tries: u8, due: u64, since: Moment) -> Option<u64>
    ensures { IsFirst (λ time. is_next time tries due) since result }
{
    if tries < SENDINGS {
        Some(due.max(since.get()))
    } else {
        None
    }
}

/// From when on the refresh of a hold is sent, first or once more, from `since` on, while the name is held.
fn next_refresh(
    pending: &Option<Transaction>,
    renew: u64,
    last: Moment,
    config: Config,
    since: Moment,
) -> u64
    ensures later { since ≤ result }
    ensures due { (kind : NameKind) (ttl until now : ℕ) → since ≤ now
        → is_due config.life now (State.Held kind ttl until renew last (pending_at now pending.now)) ≡ nat_le result now }
{
    let begins = renew.max(last.get() + config.quiet() + 1);
    match pending {
        Some(refresh) if refresh.tries < SENDINGS => refresh.due.max(since.get()),
        Some(refresh) => begins.max(refresh.due).max(since.get()),
        None => begins.max(since.get()),
    }
}

impl State {
    /// When something is sent next about a name in this state, from `since` on.
    fn next_due(&self, config: Config, since: Moment) -> Option<u64>
        ensures { IsFirst (λ now. is_due config.life now (settled config.life now self.now)) since result }
    {
        match self {
            State::Asking { pending, .. } => next_sending(pending.tries, pending.due, since),
            State::Releasing { pending, .. } => next_sending(pending.tries, pending.due, since),
            State::Held {
                until,
                renew,
                last,
                pending,
                ..
            } => {
                let refresh = next_refresh(pending, *renew, *last, config, since);
                if refresh < *until {
                    Some(refresh)
                } else {
                    None
                }
            }
            State::Idle => None,
            State::Resting { .. } => None,
        }
    }
}

/// The same of a slot.
fn slot_next_due(slot: &Option<Slot>, config: Config, since: Moment) -> Option<u64>
    ensures { IsFirst (λ now. is_some (first_due config.life now (settled_slot config.life now slot.now ∷ []))) since result }
{
    match slot {
        Some(kept) => kept.state.next_due(config, since),
        None => None,
    }
}

/// The same of all slots.
pub fn slots_next_due(slots: &[Option<Slot>], config: Config, since: Moment) -> Option<u64>
    ensures { IsFirst (λ now. is_some (first_due config.life now (map (settled_slot config.life now) slots.now))) since result }
{
    let mut next = None;
    for slot in slots {
        next = earlier(next, slot_next_due(slot, config, since));
    }
    next
}

/// When the lookup's request is sent once more, from `since` on.
pub fn lookup_next_due(lookup: &Option<Lookup>, since: Moment) -> Option<u64>
    ensures { IsFirst (λ now. is_some (due_lookup now (settled_lookup now lookup.now))) since result }
{
    match lookup {
        Some(open) => next_sending(open.tries, open.due, since),
        None => None,
    }
}
