//! The slots of a node: each is free, or has a name that isn't `Idle`.

ghost use Rattle.std.specs.Prelude.{◌≡◌, map, is_none, Some};
ghost use Rattle.std.specs.List.{position};
ghost use Rattle.nbt_name.specs.Wire.{same_name};
ghost use Rattle.nbt_node.specs.declared.state.Slot.{Slot as Kept};
ghost use Rattle.nbt_node.specs.Node.{state_in, slot_of, settled_slot, is_named, has_room, with_state};
ghost use Rattle.nbt_node.specs.Settling.{settled};

use crate::state::{Slot, State};
use nbt_lease::{Config, Moment};
use nbt_name::{LentName, Name};

/// The state of a name: `Idle` where it has no slot.
pub fn state_in(slots: &[Option<Slot>], name: &LentName<'_>) -> State
    ensures { result ≡ state_in slots.now name.now }
{
    for slot in slots {
        if let Some(kept) = slot {
            if is_of(kept, name) {
                return kept.state;
            }
        }
    }
    State::Idle
}

/// What time makes of a slot.
fn settle_slot(slot: &mut Option<Slot>, config: Config, now: Moment)
    ensures { slot.new ≡ settled_slot config.life now slot.old }
{
    if let Some(kept) = slot {
        let state = kept.state.settled(config, now);
        if state == State::Idle {
            *slot = None;
        } else {
            kept.state = state;
        }
    }
}

/// Settles every name at `now`.
#[inline(never)]
pub fn settle(slots: &mut [Option<Slot>], config: Config, now: Moment)
    ensures { slots.new ≡ map (settled_slot config.life now) slots.old }
{
    for slot in slots.iter_mut() {
        settle_slot(slot, config, now);
    }
}

/// Whether a slot is free once it is settled at `now`.
fn is_free(slot: &Option<Slot>, config: Config, now: Moment) -> bool
    ensures { result ≡ is_none (settled_slot config.life now slot.now) }
{
    match slot {
        Some(kept) => kept.state.settled(config, now) == State::Idle,
        None => true,
    }
}

/// Whether a slot is free once every name is settled at `now`.
pub fn has_room(slots: &[Option<Slot>], config: Config, now: Moment) -> bool
    ensures { result ≡ has_room (map (settled_slot config.life now) slots.now) }
{
    for slot in slots {
        if is_free(slot, config, now) {
            return true;
        }
    }
    false
}

/// Whether this is the name's slot.
fn is_named(slot: &Option<Slot>, name: &LentName<'_>) -> bool
    ensures { result ≡ is_named slot.now name.now }
{
    match slot {
        Some(kept) => is_of(kept, name),
        None => false,
    }
}

/// Whether a slot that isn't free is the name's.
fn is_of(kept: &Slot, name: &LentName<'_>) -> bool
    ensures { result ≡ same_name kept.now.name name.now }
{
    name.is(&kept.name)
}

/// The place of the name's slot.
fn find(slots: &[Option<Slot>], name: &LentName<'_>) -> Option<usize>
    ensures { result ≡ position (λ slot. is_named slot name.now) slots.now }
{
    slots.iter().position(|slot| is_named(slot, name))
}

/// The lowest free place.
fn find_free(slots: &[Option<Slot>]) -> Option<usize>
    ensures { result ≡ position is_none slots.now }
{
    slots.iter().position(|slot| slot.is_none())
}

/// Puts another state into the name's slot, or else into the lowest free one. It stands apart for its room on the stack, as `settle`
/// does, which what calls one after the other takes once.
#[inline(never)]
pub fn change(slots: &mut [Option<Slot>], name: &LentName<'_>, state: &State)
    ensures { slots.new ≡ with_state slots.old name.now state.now }
{
    if let Some(place) = find(slots, name) {
        set(&mut slots[place], state);
        return;
    }
    let Some(place) = find_free(slots) else {
        return;
    };
    begin(&mut slots[place], name, state);
}

/// Gives the name of a slot that isn't free another state. A name that is `Idle` has no slot.
fn set(slot: &mut Option<Slot>, state: &State)
    ensures { (kept : Kept) → slot.old ≡ Some kept → slot.new ≡ slot_of kept.name state.now }
{
    if *state == State::Idle {
        *slot = None;
        return;
    }
    if let Some(kept) = slot {
        kept.state = *state;
    }
}

/// Makes a slot that of a name in this state. A name that is `Idle` has none.
fn begin(slot: &mut Option<Slot>, name: &LentName<'_>, state: &State)
    ensures { slot.new ≡ slot_of name.now state.now }
{
    if *state == State::Idle {
        *slot = None;
        return;
    }
    fill(slot, name, state);
}

/// The same of a state that isn't `Idle`. It stands apart for its room on the stack, which a name whose slot is there, and one that
/// gets none, don't take.
#[inline(never)]
fn fill(slot: &mut Option<Slot>, name: &LentName<'_>, state: &State)
    ensures { slot.new ≡ Some (record { name = name.now; state = state.now }) }
{
    *slot = Some(Slot {
        name: Name::blank(),
        state: *state,
    });
    match slot {
        Some(kept) => kept.name.set(name),
        None => unreachable!(),
    }
}
