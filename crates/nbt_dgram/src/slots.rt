//! The slots of a joiner, each free or with an unfinished datagram.

ghost use Rattle.std.specs.Prelude.{◌≡◌, ◌<◌, ◌≤◌, length, map, count_by, Some};
ghost use Rattle.std.specs.List.{position, All};
ghost use Rattle.nbt_dgram.specs.Dgram.{fragment_of};
ghost use Rattle.nbt_dgram.specs.Fragments.{end_of};
ghost use Rattle.nbt_dgram.specs.Slot.{fresh, joined};
ghost use Rattle.nbt_dgram.specs.Joiner as spec;
ghost use Rattle.nbt_dgram.specs.Joiner.{kept, emptied, is_free, Joins};
ghost use Rattle.nbt_dgram.specs.declared.reassembly.Reassembly.{Reassembly as Room};
ghost use Rattle.nbt_dgram.specs.Inner.Joining.{led_to, JoinsSlot, HasRoom, IsTaken, JoinsAt, Begins};

use crate::dgram::Fragment;
use crate::joined::{Dropped, Step};
use crate::msg_type::Delivery;
use crate::reassembly::Reassembly;
use crate::slot::{Key, Slot};
use crate::splitting::DATA_MOST;
use nbt_lease::Moment;

/// How long the fragments of a datagram are waited for, in milliseconds (FRAGMENT_TO, RFC 1002
/// section 6).
const TIMEOUT: u64 = 2000;

/// Empties the slots that are too old, and returns how many these were.
pub(crate) fn give_up(slots: &mut [Option<Slot>], now: Moment) -> usize
    ensures kept { slots.new ≡ map (kept now) slots.old }
    ensures count { result ≡ count_by (spec.is_old now) slots.old }
{
    let mut count = 0;
    for slot in slots.iter_mut() {
        if give_up_one(slot, now) {
            count += 1;
        }
    }
    count
}

/// Empties a slot that is too old, and returns whether it is.
fn give_up_one(slot: &mut Option<Slot>, now: Moment) -> bool
    ensures kept { slot.new ≡ kept now slot.old }
    ensures old { result ≡ spec.is_old now slot.old }
{
    let old = is_old(slot, now);
    if old {
        *slot = None;
    }
    old
}

/// Whether a slot's datagram is too old.
fn is_old(slot: &Option<Slot>, now: Moment) -> bool
    ensures { result ≡ spec.is_old now slot.now }
{
    match slot {
        Some(slot) => slot.began.get() + TIMEOUT < now.get(),
        None => false,
    }
}

/// Joins a fragment to the slot of its key, or begins one.
pub(crate) fn join(
    slots: &mut [Option<Slot>],
    now: Moment,
    key: Key,
    fragment: &Fragment<'_>,
    room: &mut Reassembly,
) -> Step
    requires { All HasRoom slots.old }
    ensures joins { Joins slots.old now key (fragment_of fragment.now) (led_to result room.new) slots.new }
    ensures room { All HasRoom slots.new }
{
    if fragment.end() > DATA_MOST {
        empty(slots, &key);
        return Step::Dropped(Dropped::TooLong);
    }
    let Some(place) = find(slots, &key) else {
        return begin(slots, now, key, fragment);
    };
    match join_at(slots, place, fragment, room) {
        Step::Waiting => Step::Waiting,
        done => {
            empty(slots, &key);
            done
        }
    }
}

/// Begins a slot with its first fragment, in the lowest free place.
fn begin(slots: &mut [Option<Slot>], now: Moment, key: Key, fragment: &Fragment<'_>) -> Step
    requires { end_of (fragment_of fragment.now) ≤ 512 }
    ensures { (room : Room) → Begins slots.old now key (fragment_of fragment.now) (led_to result room) slots.new }
{
    let Some(place) = find_free(slots) else {
        return Step::Dropped(Dropped::Full);
    };
    begin_at(&mut slots[place], now, key, fragment);
    Step::Waiting
}

/// Makes a free slot that of the datagram which this fragment begins.
fn begin_at(slot: &mut Option<Slot>, now: Moment, key: Key, fragment: &Fragment<'_>)
    requires { end_of (fragment_of fragment.now) ≤ 512 }
    ensures { slot.new ≡ Some (joined (fragment_of fragment.now) (fresh key now fragment.now.delivery)) }
{
    open(slot, now, key, fragment.delivery);
    match slot {
        Some(slot) => slot.join(fragment),
        None => unreachable!(),
    }
}

/// Makes a slot that of a datagram of which nothing is known but the type. It stands apart for its room on the stack, which joining a
/// fragment doesn't take.
#[inline(never)]
fn open(slot: &mut Option<Slot>, now: Moment, key: Key, delivery: Delivery)
    ensures slot { slot.new ≡ Some (fresh key now delivery) }
    ensures room { HasRoom slot.new }
{
    *slot = Some(Slot::new(key, now, delivery));
}

/// Joins a fragment to the slot in this place.
fn join_at(
    slots: &mut [Option<Slot>],
    place: usize,
    fragment: &Fragment<'_>,
    room: &mut Reassembly,
) -> Step
    requires fits { end_of (fragment_of fragment.now) ≤ 512 }
    requires taken { IsTaken slots.old place }
    requires room { All HasRoom slots.old }
    ensures { JoinsAt slots.old place (fragment_of fragment.now) (led_to result room.new) slots.new }
{
    match &mut slots[place] {
        Some(slot) => join_slot(slot, fragment, room),
        None => unreachable!(),
    }
}

/// Joins a fragment to a slot, where it agrees.
fn join_slot(slot: &mut Slot, fragment: &Fragment<'_>, room: &mut Reassembly) -> Step
    requires fits { end_of (fragment_of fragment.now) ≤ 512 }
    requires room { length slot.old.octets ≡ 512 }
    ensures { JoinsSlot slot.old (fragment_of fragment.now) (led_to result room.new) slot.new }
{
    if !slot.agrees(fragment) {
        return Step::Dropped(Dropped::Conflict);
    }
    slot.join(fragment);
    if slot.put_together(room) {
        Step::Whole
    } else {
        Step::Waiting
    }
}

/// Empties the slot of this key.
fn empty(slots: &mut [Option<Slot>], key: &Key)
    ensures { slots.new ≡ map (emptied key.now) slots.old }
{
    for slot in slots.iter_mut() {
        empty_one(slot, key);
    }
}

fn empty_one(slot: &mut Option<Slot>, key: &Key)
    ensures { slot.new ≡ emptied key.now slot.old }
{
    if is_of(slot, key) {
        *slot = None;
    }
}

/// The place of the slot of this key.
fn find(slots: &[Option<Slot>], key: &Key) -> Option<usize>
    ensures { result ≡ position (spec.is_of key.now) slots.now }
{
    slots.iter().position(|slot| is_of(slot, key))
}

/// The lowest free place.
fn find_free(slots: &[Option<Slot>]) -> Option<usize>
    ensures { result ≡ position is_free slots.now }
{
    slots.iter().position(|slot| slot.is_none())
}

fn is_of(slot: &Option<Slot>, key: &Key) -> bool
    ensures { result ≡ spec.is_of key.now slot.now }
{
    match slot {
        Some(slot) => {
            slot.key.id == key.id
                && slot.key.source.ip == key.source.ip
                && slot.key.source.port == key.source.port
        }
        None => false,
    }
}
