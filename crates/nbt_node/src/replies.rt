//! What a reply of the server makes of a name's state (RFC 1002 section 5.1.2).

ghost use Rattle.std.specs.Prelude.{◌≡◌, ◌≢◌, ℕ, ◌≤◌, false, IfSome, IsNone};
ghost use Rattle.nbt_name.specs.Wire.{NameValue};
ghost use Rattle.nbt_name.specs.declared.addr.Kind.{Kind as NameKind};
ghost use Rattle.nbt_packet.specs.declared.message.Registration.{Registration as Claim};
ghost use Rattle.nbt_packet.specs.Message.{registered, released, wait};
ghost use Rattle.nbt_lease.specs.Config.{granted};
ghost use Rattle.nbt_lease.specs.declared.config.TheConstants.{LONGEST_MOST};
ghost use Rattle.nbt_node.specs.Node.{NodeValue};
ghost use Rattle.nbt_node.specs.Transaction.{wait_until};
ghost use Rattle.nbt_node.specs.Moves.{Move, hear, told_of, nothing, is_lost, waits, conflict, matters, held_for};

use crate::event::Event;
use crate::state::State;
use nbt_lease::{Config, Moment};
use nbt_name::Kind;

/// RCODE of a conflict demand (RFC 1002 section 4.2.8).
const CONFLICT: u8 = 7;

/// The most seconds by which a WACK puts off the next sending (our profile).
const LONGEST_WAIT: u32 = 60;

/// What became of a name by a reply.
#[derive(Drop)]
pub struct Outcome<'a> {
    pub state: State,
    pub event: Event<'a>,
}

/// The reply is about nothing that the name waits for.
fn unmoved<'a>(state: &State) -> Outcome<'a>
    ensures state { result.state ≡ state.now }
    ensures told { told_of result.event ≡ nothing }
{
    Outcome {
        state: *state,
        event: Event::Nothing,
    }
}

/// The transaction is over, and the name isn't held: it rests from the last sending about it.
fn rests<'a>(last: Moment, event: Event<'a>) -> Outcome<'a>
    ensures state { result.state ≡ State.Resting last }
    ensures told { result.event ≡ event.entry }
{
    Outcome {
        state: State::Resting { last },
        event,
    }
}

/// A hold for what was granted, counted from the transaction's first sending: it ends before the lease, also where the
/// node's clock is slow. It is refreshed after half of the seconds.
fn hold(kind: Kind, ttl: u32, first: Moment, last: Moment, seconds: u32) -> State
    requires { seconds ≤ LONGEST_MOST }
    ensures { result ≡ held_for kind ttl first seconds last }
{
    State::Held {
        kind,
        ttl,
        until: first.get() + Config::hold(seconds),
        renew: first.get() + 500 * u64::from(seconds),
        last,
        pending: None,
    }
}

/// A registration's reply that isn't about what is open. A conflict demand drops the name (our profile).
fn demanded<'a>(state: &State, last: Moment, rcode: u8) -> Outcome<'a>
    ensures lost { rcode ≡ conflict → (result.state ≡ State.Resting last) × (told_of result.event ≡ is_lost) }
    ensures unmoved { rcode ≢ conflict → (result.state ≡ state.now) × (told_of result.event ≡ nothing) }
{
    if rcode != CONFLICT {
        return unmoved(state);
    }
    rests(last, Event::Lost)
}

/// What the reply to a registration or a refresh, with this RCODE and id, makes of a name. A hold is counted from the
/// transaction's first sending, and is `Config::hold` of the seconds that the reply's TTL grants. A conflict demand (RCODE 7) drops a name
/// that is asked for or held, whatever its id (our profile).
#[inline(never)]
pub fn on_registered<'a>(state: &State, rcode: u8, id: u16, seconds: u32) -> Outcome<'a>
    requires { seconds ≤ LONGEST_MOST }
    ensures { (node : NodeValue) (now : ℕ) (name : NameValue) (r : Claim) → r.id ≡ id → granted node.config.longest r.ttl ≡ seconds
        → Move node now name state.now (hear (registered rcode r)) result.state None (told_of result.event) node.next_id }
{
    match state {
        State::Asking {
            kind,
            ttl,
            last,
            pending: asked,
        } => {
            if asked.id != id {
                return demanded(state, *last, rcode);
            }
            if rcode != 0 {
                return rests(*last, Event::Refused(rcode));
            }
            Outcome {
                state: hold(*kind, *ttl, asked.first, *last, seconds),
                event: Event::Granted(seconds),
            }
        }
        State::Held {
            kind,
            ttl,
            last,
            pending,
            ..
        } => {
            match pending {
                None => demanded(state, *last, rcode),
                Some(refresh) => {
                    if refresh.id != id {
                        return demanded(state, *last, rcode);
                    }
                    if rcode != 0 {
                        return rests(*last, Event::Lost);
                    }
                    Outcome {
                        state: hold(*kind, *ttl, refresh.first, *last, seconds),
                        event: Event::Renewed(seconds),
                    }
                }
            }
        }
        _ => unmoved(state),
    }
}

/// What the reply to a release, with this RCODE and id, makes of a name.
pub fn on_released<'a>(state: &State, rcode: u8, id: u16) -> Outcome<'a>
    ensures { (node : NodeValue) (now : ℕ) (name n : NameValue) (k : NameKind) (a : ℕ)
        → Move node now name state.now (hear (released id rcode n k a)) result.state None (told_of result.event) node.next_id }
{
    let State::Releasing { last, pending, .. } = state else {
        return unmoved(state);
    };
    if pending.id != id {
        return unmoved(state);
    }
    rests(*last, Event::Freed(rcode))
}

/// What a WACK with this id and TTL makes of a name: the next sending is put off.
#[inline(never)]
pub fn on_wait<'a>(state: &State, id: u16, ttl: u32, now: Moment) -> Outcome<'a>
    ensures { (node : NodeValue) (name n : NameValue) → Move node now name state.now (hear (wait id n ttl)) result.state None (told_of result.event) node.next_id }
{
    let due = now.get() + 1000 * u64::from(ttl.min(LONGEST_WAIT));
    match put_off(state, id, due) {
        Some(state) => Outcome {
            state,
            event: Event::Wait,
        },
        None => unmoved(state),
    }
}

/// The state whose open transaction has this id, its next sending put off to `due`. `None` where nothing with this id
/// is open.
fn put_off(state: &State, id: u16, due: u64) -> Option<State>
    ensures moved { IfSome result (λ after. (node : NodeValue) (now t : ℕ) (name n : NameValue) → wait_until now t ≡ due → Move node now name state.now (hear (wait id n t)) after None waits node.next_id) }
    ensures unmoved { IsNone result → (n : NameValue) (t : ℕ) → matters state.now (wait id n t) ≡ false }
{
    match state {
        State::Asking {
            kind,
            ttl,
            last,
            pending,
        } => {
            if pending.id != id {
                return None;
            }
            Some(State::Asking {
                kind: *kind,
                ttl: *ttl,
                last: *last,
                pending: pending.put_off(due),
            })
        }
        State::Releasing {
            kind,
            last,
            pending,
        } => {
            if pending.id != id {
                return None;
            }
            Some(State::Releasing {
                kind: *kind,
                last: *last,
                pending: pending.put_off(due),
            })
        }
        State::Held {
            kind,
            ttl,
            until,
            renew,
            last,
            pending,
        } => {
            let Some(refresh) = pending else {
                return None;
            };
            if refresh.id != id {
                return None;
            }
            Some(State::Held {
                kind: *kind,
                ttl: *ttl,
                until: *until,
                renew: *renew,
                last: *last,
                pending: Some(refresh.put_off(due)),
            })
        }
        State::Idle => None,
        State::Resting { .. } => None,
    }
}
