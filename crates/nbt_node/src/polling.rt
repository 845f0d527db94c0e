//! What is sent again when its time has come, and when a hold is refreshed (RFC 1002 sections 5.1.2.6 and 6).

ghost use Rattle.std.specs.Prelude.{◌≡◌, ℕ, List, [], ◌∷◌, map, Option, Some, None, is_some, IfSome, IsNone};
ghost use Rattle.nbt_node.specs.declared.state.Slot.{Slot as Kept};
ghost use Rattle.nbt_name.specs.declared.addr.Kind.{Kind as NameKind};
ghost use Rattle.nbt_name.specs.Wire.{NameValue};
ghost use Rattle.nbt_packet.specs.Message.{Fits, message_of, message_if, refresh};
ghost use Rattle.nbt_packet.specs.Spelling.{AreWritten, HasFewRows};
ghost use Rattle.nbt_node.specs.Node.{NodeValue, settled_slot};
ghost use Rattle.nbt_node.specs.Moves as spec;
ghost use Rattle.nbt_node.specs.Moves.{Move, poll, nothing, is_due};
ghost use Rattle.nbt_node.specs.Calls.{first_due};
ghost use Rattle.nbt_node.specs.Inner.Sending.{IsSending, request_in};

use crate::asking::{claim, id_after, release};
use crate::state::{Slot, State};
use crate::transaction::{Transaction, is_next};
use arrayvec::ArrayVec;
use nbt_lease::{Config, Moment};
use nbt_name::LentName;
use nbt_packet::{Message, write};

/// What is sent about a name: the request that its state then waits for a reply to. And what is then that state and the next id.
#[derive(Drop)]
pub struct Sending<'a> {
    pub name: LentName<'a>,
    pub state: State,
    pub next_id: u16,
}

impl Sending<'_> {
    /// Leaves in `out` what a node with this address sends.
    #[inline(never)]
    pub fn put(&self, own: u32, out: &mut ArrayVec<u8, 576>)
        requires { out.old.items ≡ [] }
        ensures { AreWritten (request_in own self.now.name self.now.state) out.new.items }
    {
        if let Some(message) = request_in(&self.state, own, &self.name) {
            write(&message, out);
        }
    }
}

/// The request about a name, by a node with this address, that a state waits for a reply to.
fn request_in<'a>(state: &State, own: u32, name: &LentName<'a>) -> Option<Message<'a>>
    ensures value { message_if result ≡ request_in own name.now state.now }
    ensures fits { IfSome result (λ m. Fits (message_of m) × HasFewRows (message_of m)) }
{
    match state {
        State::Asking {
            kind,
            ttl,
            pending,
            ..
        } => Some(Message::Registration(claim(own, pending.id, name, *kind, *ttl))),
        State::Held {
            kind,
            ttl,
            pending: Some(refresh),
            ..
        } => Some(Message::Refresh(claim(own, refresh.id, name, *kind, *ttl))),
        State::Releasing { kind, pending, .. } => Some(release(own, pending.id, name, *kind)),
        _ => None,
    }
}

/// What is to be sent about a name, if anything, by a node with this next id.
fn polled<'a>(
    state: &State,
    name: &LentName<'a>,
    id: u16,
    config: Config,
    now: Moment,
) -> Option<Sending<'a>>
    ensures due { is_some result ≡ is_due config.life now state.now }
    ensures sending { IfSome result (λ s. IsSending config.life now id name.now state.now s) }
{
    match state {
        State::Asking {
            kind,
            ttl,
            pending,
            ..
        } => {
            if !is_next(pending.tries, pending.due, now) {
                return None;
            }
            Some(Sending {
                name: name.copy(),
                state: State::Asking {
                    kind: *kind,
                    ttl: *ttl,
                    last: now,
                    pending: pending.again(now),
                },
                next_id: id,
            })
        }
        State::Releasing { kind, pending, .. } => {
            if !is_next(pending.tries, pending.due, now) {
                return None;
            }
            Some(Sending {
                name: name.copy(),
                state: State::Releasing {
                    kind: *kind,
                    last: now,
                    pending: pending.again(now),
                },
                next_id: id,
            })
        }
        State::Held {
            kind,
            ttl,
            until,
            renew,
            last,
            pending,
        } => {
            let (refresh, next_id) = match next_refresh(pending, *renew, *last, id, config, now) {
                Some(next) => next,
                None => return None,
            };
            Some(Sending {
                name: name.copy(),
                state: State::Held {
                    kind: *kind,
                    ttl: *ttl,
                    until: *until,
                    renew: *renew,
                    last: now,
                    pending: Some(refresh),
                },
                next_id,
            })
        }
        State::Idle => None,
        State::Resting { .. } => None,
    }
}

/// The refresh that is open once one was sent at `now`, and then the next id: the open one's once more, where it is due,
/// or else a new one.
fn next_refresh(
    pending: &Option<Transaction>,
    renew: u64,
    last: Moment,
    id: u16,
    config: Config,
    now: Moment,
) -> Option<(Transaction, u16)>
    ensures due { (kind : NameKind) (ttl until : ℕ) → is_some result ≡ is_due config.life now (State.Held kind ttl until renew last pending.now) }
    ensures moves { IfSome result (λ r. (node : NodeValue) (name : NameValue) (kind : NameKind) (ttl until : ℕ) → node.next_id ≡ id → node.config.life ≡ config.life
        → Move node now name (State.Held kind ttl until renew last pending.now) poll (State.Held kind ttl until renew now (Some r.0)) (Some (refresh (spec.claim node r.0.id name kind ttl))) nothing r.1) }
{
    match pending {
        Some(refresh) => {
            if !is_next(refresh.tries, refresh.due, now) {
                return None;
            }
            Some((refresh.again(now), id))
        }
        None => {
            if now.get() < renew || now.get() <= last.get() + config.quiet() {
                return None;
            }
            Some((Transaction::open(id, now), id_after(id)))
        }
    }
}

/// The same of a slot, once it is settled at `now`.
fn slot_due<'a>(slot: &'a Option<Slot>, id: u16, config: Config, now: Moment) -> Option<Sending<'a>>
    ensures nothing_due { IsNone result → (rest : List (Option Kept)) → first_due config.life now (settled_slot config.life now slot.now ∷ rest) ≡ first_due config.life now rest }
    ensures sending { IfSome result (λ s. (kept : Kept) × ((rest : List (Option Kept)) → first_due config.life now (settled_slot config.life now slot.now ∷ rest) ≡ Some kept) × IsSending config.life now id kept.name kept.state s) }
{
    match slot {
        Some(kept) => polled(
            &kept.state.settled(config, now),
            &kept.name.lend(),
            id,
            config,
            now,
        ),
        None => None,
    }
}

/// The same of the first slot that has something to send.
#[inline(never)]
pub fn first_due<'a>(
    slots: &'a [Option<Slot>],
    id: u16,
    config: Config,
    now: Moment,
) -> Option<Sending<'a>>
    ensures nothing_due { IsNone result → first_due config.life now (map (settled_slot config.life now) slots.now) ≡ None }
    ensures sending { IfSome result (λ s. (kept : Kept) × (first_due config.life now (map (settled_slot config.life now) slots.now) ≡ Some kept) × IsSending config.life now id kept.name kept.state s) }
{
    for slot in slots {
        match slot_due(slot, id, config, now) {
            Some(sending) => return Some(sending),
            None => {}
        }
    }
    None
}
