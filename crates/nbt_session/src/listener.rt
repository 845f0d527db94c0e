//! The listener for sessions (RFC 1001 section 16.1.1, RFC 1002 section 5.2.1).

ghost use Rattle.std.specs.Prelude.{◌≡◌, ◌≢◌, ℕ, ◌<◌, ◌≤◌, ◌↔◌, List, [], ◌∷◌, ◌++◌, length, replicate, Option, is_some, IfSome, IfNone, OnOk, OnErr, IsErr, IsTrue, All, Any};
ghost use Rattle.std.specs.Bool.{OnTrue, OnFalse};
ghost use Rattle.nbt_name.specs.declared.addr.Kind.{Kind};
ghost use Rattle.nbt_name.specs.Wire.{NameValue, same_name};
ghost use Rattle.nbt_node.specs.Node.{holds as node_holds};
ghost use Rattle.nbt_session.specs.declared.listener.Entry.{Entry};
ghost use Rattle.nbt_session.specs.declared.listener.Slot.TheVariants.{Free, Fresh, Open};
ghost use Rattle.nbt_session.specs.Event.{event_of, packet};
ghost use Rattle.nbt_session.specs.Inner.Listening.{Tells, AreEntries, is_for};
ghost use Rattle.nbt_session.specs.Listener as spec;
ghost use Rattle.nbt_session.specs.Listener.{Without, TakesCall, FirstThatTakes, CallMoves, SlotMoves, ListenerMoves, answer_of, send_and_close};
ghost use Rattle.nbt_session.specs.Packet.{negative, packet_of};

use crate::event::Event;
use crate::packet::Packet;
use arrayvec::ArrayVec;
use nbt_lease::Moment;
use nbt_name::{Addr, Name};
use nbt_node::Node;
use std::marker::Model;
use thiserror::Error;

/// A NEGATIVE SESSION RESPONSE's code: not listening on the called name (RFC 1002 section 4.3.4).
const NOT_LISTENING: u8 = 0x80;
/// Not listening for the calling name.
const NOT_LISTENING_FOR: u8 = 0x81;
/// The called name isn't present.
const NOT_PRESENT: u8 = 0x82;
/// Insufficient resources.
const INSUFFICIENT: u8 = 0x83;
/// Unspecified.
const UNSPECIFIED: u8 = 0x8F;

/// Calls that are accepted: to a name, by anybody or by one name; here, or at the endpoint that they are retargeted to.
#[derive(Debug, PartialEq, Eq, Drop)]
pub struct Entry {
    /// The name that is called.
    pub called: Name,
    /// The one name that may call, or none where any may.
    pub calling: Option<Name>,
    /// The endpoint to which the call is retargeted.
    pub retarget: Option<Addr>,
}

/// The listener has as many entries as it may have.
#[derive(Clone, Copy, Debug, PartialEq, Eq, Error)]
#[error("Full")]
pub struct Full;

/// Where a connection stands.
#[derive(Clone, Copy, Debug, PartialEq, Eq)]
pub enum Slot {
    /// There is none.
    Free,
    /// It is established, and no request came.
    Fresh,
    /// The call was accepted.
    Open,
}

/// What the listener does next with a connection.
#[derive(Debug, PartialEq, Eq, Drop)]
pub enum ListenerAnswer {
    /// Nothing.
    Nothing,
    /// Sends the packet.
    Send(Packet),
    /// Sends the packet, and then closes the connection.
    SendAndClose(Packet),
    /// Closes the connection.
    Close,
    /// Hands up a message's octets.
    Up(Vec<u8>),
}

/// A listener of up to `L` entries, over `M` connections. Its methods allocate no memory.
#[derive(Debug, Drop)]
pub struct Listener<const L: usize, const M: usize> {
    /// The entries, in order. A place without one is none: to begin a listener takes no room on the stack for names.
    entries: ArrayVec<Option<Entry>, L>,
    slots: [Slot; M],
    most: usize,
}

impl<const L: usize, const M: usize> Model for Listener<L, M> {
    ghost use Rattle.nbt_session.specs.Listener.{ListenerValue};
    ghost use Rattle.nbt_session.specs.Inner.Listening.{AreEntries, entries_in};

    ghost Value = { ListenerValue };

    ghost view = { λ l. record { entries = entries_in l.entries.items; slots = l.slots; most = l.most } };

    ghost invariant = { λ l. AreEntries l.entries.items (entries_in l.entries.items) };
}

impl<const L: usize, const M: usize> Listener<L, M> {
    /// A listener that accepts no calls yet, and of whose connections `most` may be open at a time. The caller must ensure
    /// that `most` is at most `M`.
    pub fn new(most: usize) -> Listener<L, M>
        requires { most ≤ M }
        ensures { result ≡ record { entries = []; slots = replicate M Free; most = most } }
    {
        Listener {
            entries: ArrayVec::new(),
            slots: [Slot::Free; M],
            most,
        }
    }

    /// Accepts calls by the entry from now on, where no earlier entry accepts them. `Full` where there are `L` entries;
    /// nothing changes then.
    pub fn listen(&mut self, entry: Entry) -> Result<(), Full>
        ensures ok { OnOk result (self.new ≡ record self.old { entries = self.old.entries ++ entry ∷ [] }) }
        ensures full { IsErr result ↔ (length self.old.entries ≡ L) }
        ensures err { OnErr result (self.new ≡ self.old) }
    {
        if self.entries.is_full() {
            return Err(Full);
        }
        self.entries.push(Some(entry));
        Ok(())
    }

    /// Removes all entries of the name.
    pub fn unlisten(&mut self, called: &Name)
        ensures entries { Without called.now self.old.entries self.new.entries }
        ensures slots { self.new.slots ≡ self.old.slots }
        ensures most { self.new.most ≡ self.old.most }
    {
        without(&mut self.entries, called);
    }

    /// What the listener does when something happens to a connection, by the names that the node holds at `now`
    /// (RFC 1002 section 5.2.1; what may follow what is our profile). A call is refused by the first reason that
    /// applies, with the code of a NEGATIVE SESSION RESPONSE: the node doesn't hold the called name (0x82), no entry
    /// has it (0x80), none of these accepts the calling name (0x81), `most` connections are open (0x83). Else the first
    /// entry that accepts it says whether it is retargeted or accepted. The caller must ensure that `slot` is below `M`.
    pub fn on<const N: usize>(
        &mut self,
        now: Moment,
        node: &Node<N>,
        slot: usize,
        event: Event,
    ) -> ListenerAnswer
        requires { slot < M }
        ensures { ListenerMoves (λ name. node_holds node.now name now) self.old slot (event_of event) self.new (answer_of result) }
    {
        let held = match &event {
            Event::Packet(Packet::Request { called, calling: _ }) => {
                node.holds(now, &called.lend()).is_some()
            }
            _ => false,
        };
        self.moved(held, slot, event)
    }

    /// The same, by a node that holds the called name or doesn't.
    fn moved(&mut self, held: bool, slot: usize, event: Event) -> ListenerAnswer
        requires { slot < M }
        ensures { (holds : NameValue → Option Kind) → Tells holds (event_of event) held
            → ListenerMoves holds self.old slot (event_of event) self.new (answer_of result) }
    {
        let opened = open_count(&self.slots);
        let (after, answer) = match self.slots[slot] {
            Slot::Free => on_free(event),
            Slot::Fresh => on_fresh(self.entries.as_slice(), self.most, opened, held, event),
            Slot::Open => on_open(event),
        };
        self.slots[slot] = after;
        answer
    }
}

/// How many connections are open.
fn open_count(slots: &[Slot]) -> usize
    ensures { result ≡ spec.open_count slots.now }
{
    slots.iter().filter(|slot| slot.is_open()).count()
}

impl Slot {
    ghost use Rattle.nbt_session.specs.Listener.{is_open};

    fn is_open(&self) -> bool
        ensures { result ≡ is_open self.now }
    {
        match self {
            Slot::Open => true,
            Slot::Free | Slot::Fresh => false,
        }
    }
}

/// There is no connection.
fn on_free(event: Event) -> (Slot, ListenerAnswer)
    ensures { (holds : NameValue → Option Kind) (entries : List Entry) (most opened : ℕ)
        → SlotMoves holds entries most opened Free (event_of event) result.0 (answer_of result.1) }
{
    match event {
        Event::Connected => (Slot::Fresh, ListenerAnswer::Nothing),
        Event::Packet(_) => (Slot::Free, ListenerAnswer::Nothing),
        Event::Lost => (Slot::Free, ListenerAnswer::Nothing),
    }
}

/// The connection is established, and no request came.
fn on_fresh(
    entries: &[Option<Entry>],
    most: usize,
    opened: usize,
    held: bool,
    event: Event,
) -> (Slot, ListenerAnswer)
    ensures { (holds : NameValue → Option Kind) (listed : List Entry) → Tells holds (event_of event) held → AreEntries entries.now listed
        → SlotMoves holds listed most opened Fresh (event_of event) result.0 (answer_of result.1) }
{
    match event {
        Event::Connected => (Slot::Fresh, ListenerAnswer::Nothing),
        Event::Packet(packet) => on_first(entries, most, opened, held, &packet),
        Event::Lost => (Slot::Free, ListenerAnswer::Nothing),
    }
}

/// The first packet came, or one after keep alives.
fn on_first(
    entries: &[Option<Entry>],
    most: usize,
    opened: usize,
    held: bool,
    first: &Packet,
) -> (Slot, ListenerAnswer)
    ensures { (holds : NameValue → Option Kind) (listed : List Entry) → Tells holds (packet (packet_of first.now)) held → AreEntries entries.now listed
        → SlotMoves holds listed most opened Fresh (packet (packet_of first.now)) result.0 (answer_of result.1) }
{
    match first {
        Packet::Request { called, calling } => {
            on_call(entries, most, opened, held, called, calling)
        }
        Packet::KeepAlive => (Slot::Fresh, ListenerAnswer::Nothing),
        _ => refused(UNSPECIFIED),
    }
}

/// The session is open.
fn on_open(event: Event) -> (Slot, ListenerAnswer)
    ensures { (holds : NameValue → Option Kind) (entries : List Entry) (most opened : ℕ)
        → SlotMoves holds entries most opened Open (event_of event) result.0 (answer_of result.1) }
{
    let packet = match event {
        Event::Connected => return (Slot::Open, ListenerAnswer::Nothing),
        Event::Lost => return (Slot::Free, ListenerAnswer::Nothing),
        Event::Packet(packet) => packet,
    };
    match packet {
        Packet::Message(octets) => (Slot::Open, ListenerAnswer::Up(octets)),
        Packet::KeepAlive => (Slot::Open, ListenerAnswer::Nothing),
        _ => (Slot::Free, ListenerAnswer::Close),
    }
}

/// A call.
fn on_call(
    entries: &[Option<Entry>],
    most: usize,
    opened: usize,
    held: bool,
    called: &Name,
    calling: &Name,
) -> (Slot, ListenerAnswer)
    ensures { (holds : NameValue → Option Kind) (listed : List Entry) → held ≡ is_some (holds called.now) → AreEntries entries.now listed
        → CallMoves holds listed most opened called.now calling.now result.0 (answer_of result.1) }
{
    if !held {
        return refused(NOT_PRESENT);
    }
    let Some(entry) = first_that_takes(entries, called, calling) else {
        if listens_on(entries, called) {
            return refused(NOT_LISTENING_FOR);
        }
        return refused(NOT_LISTENING);
    };
    if opened >= most {
        return refused(INSUFFICIENT);
    }
    match entry.retarget {
        Some(to) => (
            Slot::Free,
            ListenerAnswer::SendAndClose(Packet::Retarget(to)),
        ),
        None => (Slot::Open, ListenerAnswer::Send(Packet::Positive)),
    }
}

fn refused(code: u8) -> (Slot, ListenerAnswer)
    ensures slot { result.0 ≡ Free }
    ensures answer { answer_of result.1 ≡ send_and_close (negative code) }
{
    (
        Slot::Free,
        ListenerAnswer::SendAndClose(Packet::Negative(code)),
    )
}

/// The first entry that accepts the call.
fn first_that_takes<'a>(
    entries: &'a [Option<Entry>],
    called: &Name,
    calling: &Name,
) -> Option<&'a Entry>
    ensures found { (listed : List Entry) → AreEntries entries.now listed → IfSome result (λ entry. FirstThatTakes listed called.now calling.now entry.now) }
    ensures none { (listed : List Entry) → AreEntries entries.now listed → IfNone result (All (λ e. ¬ TakesCall e called.now calling.now) listed) }
{
    for place in entries {
        if let Some(entry) = place {
            if takes(entry, called, calling) {
                return Some(entry);
            }
        }
    }
    None
}

/// Whether an entry has the called name.
fn listens_on(entries: &[Option<Entry>], called: &Name) -> bool
    ensures called_entry { (listed : List Entry) → AreEntries entries.now listed → OnTrue result (Any (λ e. e.called ≡ called.now) listed) }
    ensures none { (listed : List Entry) → AreEntries entries.now listed → OnFalse result (All (λ e. e.called ≢ called.now) listed) }
{
    for place in entries {
        if is_for(place, called) {
            return true;
        }
    }
    false
}

/// Whether an entry stands there, and has the called name.
fn is_for(place: &Option<Entry>, called: &Name) -> bool
    ensures { result ≡ is_for place.now called.now }
{
    match place {
        Some(entry) => is_same(&entry.called, called),
        None => false,
    }
}

/// Whether the entry accepts the call.
fn takes(entry: &Entry, called: &Name, calling: &Name) -> bool
    ensures { IsTrue result ↔ TakesCall entry.now called.now calling.now }
{
    if !is_same(&entry.called, called) {
        return false;
    }
    match &entry.calling {
        Some(one) => is_same(one, calling),
        None => true,
    }
}

/// Removes all entries of the name.
fn without<const L: usize>(entries: &mut ArrayVec<Option<Entry>, L>, called: &Name)
    ensures { (old : List Entry) → AreEntries entries.old.items old → (new : List Entry) × Without called.now old new × AreEntries entries.new.items new }
{
    entries.retain(|place| !is_for(place, called));
}

fn is_same(a: &Name, b: &Name) -> bool
    ensures value { result ≡ same_name a.now b.now }
    ensures same { IsTrue result ↔ (a.now ≡ b.now) }
{
    a == b
}
