//! An end node: the names that it registers and holds.

ghost use Rattle.std.specs.Prelude.{◌≡◌, false, true, Some, ℕ, ◌≤◌, ◌<◌, ◌↔◌, List, [], Option, None, IsNone, OnOk, OnErr, IfOk, IsErr};
ghost use Rattle.std.specs.Result.{result_err};

use crate::answering::asks_names;
use crate::asking::{claim, id_after, release};
use crate::event::Event;
use crate::fault::{AskFault, ClockBack, LookupFault, ReleaseFault};
use crate::lookup::{Lookup, Wanted, is_same_end};
use crate::polling::first_due;
use crate::replies::{Outcome, on_registered, on_released, on_wait};
use crate::settling::is_resting;
use crate::slots;
use crate::standing::Standing;
use crate::state::{Slot, State};
use crate::status::write_listed;
use crate::transaction::{Transaction, next_due};
use crate::waiting::{earlier, lookup_next_due, slots_next_due};
use arrayvec::ArrayVec;
use nbt_lease::{Config, Moment};
use nbt_name::{Addr, Kind, LentName, Name};
use nbt_packet::{Message, Registration, read, write};
use std::marker::Model;

/// The id of the first request of a node that isn't given another (our profile).
const FIRST_ID: u16 = 1;

/// A node of `N` slots, 1 to 14 (RFC 1001 section 10.2): one for each name that isn't `Idle`.
#[derive(Debug, Drop)]
pub struct Node<const N: usize> {
    addr: Addr,
    server: Addr,
    config: Config,
    start: Moment,
    last: Moment,
    next_id: u16,
    lookup: Option<Lookup>,
    slots: [Option<Slot>; N],
}

impl<const N: usize> Model for Node<N> {
    ghost use Rattle.nbt_node.specs.Inner.Keeping.{IsNode};
    ghost use Rattle.nbt_node.specs.Node.{NodeValue};

    ghost Value = { NodeValue };

    ghost view = { λ n. record { addr = n.addr; server = n.server; config = n.config; start = n.start; last = n.last; next_id = n.next_id; lookup = n.lookup; slots = n.slots } };

    ghost invariant = { λ n. IsNode N (record { addr = n.addr; server = n.server; config = n.config; start = n.start; last = n.last; next_id = n.next_id; lookup = n.lookup; slots = n.slots }) };
}

impl<const N: usize> Node<N> {
    ghost use Rattle.nbt_name.specs.declared.addr.Addr.{Addr as End};
    ghost use Rattle.nbt_name.specs.declared.addr.Kind.{Kind as NameKind};
    ghost use Rattle.nbt_packet.specs.Message.{MessageValue, message_of, message_if, registered, released, wait};
    ghost use Rattle.nbt_lease.specs.Config.{granted};
    ghost use Rattle.nbt_lease.specs.declared.config.TheConstants.{LONGEST_MOST};
    ghost use Rattle.nbt_node.specs.Node.{slots_most, holds, changed, settled_node, state_at, lookup_open, AreDistinct};
    ghost use Rattle.nbt_node.specs.Moves.{Move, ask, give_back, hear, told_of};
    ghost use Rattle.nbt_packet.specs.Spelling.{AreWritten};
    ghost use Rattle.nbt_node.specs.Calls.{started_from, started, refreshing_soon, ask_refusal, release_refusal, resolve_refusal, status_refusal, Sends, Opens, Polls, slot_due};
    ghost use Rattle.nbt_node.specs.Standing.{standing};
    ghost use Rattle.nbt_node.specs.Waiting.{sends_at, IsFirst};
    ghost use Rattle.nbt_node.specs.Datagrams.{NodeHears, Lists, Ends, NodeTakes, Handles, Says, asks_names, is_listed_for};

    /// A node at `addr` whose name server is at `server`. It holds no name, and registers none until more than
    /// `Config::quiet()` has passed: two lives of a datagram, and what its clock may be fast by (our profile). All times
    /// that a node is given are read from its own clock. The caller must ensure that `N` is 1 to 14.
    pub fn start(addr: Addr, server: Addr, config: Config, now: Moment) -> Node<N>
        requires slots_at_least { 1 ≤ N }
        requires slots_at_most { N ≤ slots_most }
        ensures { result ≡ started N addr server config now }
    {
        Node::start_from(addr, server, config, now, FIRST_ID)
    }

    /// The same, but its first request has the id `first_id`, where that of [`Node::start`] has 1. A reply that an earlier life of the
    /// node requested counts in a later one only if it comes later than a datagram lives and has the id of what is pending. So let
    /// `first_id` differ from start to start.
    pub fn start_from(
        addr: Addr,
        server: Addr,
        config: Config,
        now: Moment,
        first_id: u16,
    ) -> Node<N>
        requires slots_at_least { 1 ≤ N }
        requires slots_at_most { N ≤ slots_most }
        ensures { result ≡ started_from N addr server config now first_id }
    {
        let free = |_: usize| -> Option<Slot>
            ensures { result ≡ None }
        { None };
        Node {
            addr,
            server,
            config,
            start: now,
            last: now,
            next_id: first_id,
            lookup: None,
            slots: std::array::from_fn(free),
        }
    }

    /// The node's own address and port.
    pub fn addr(&self) -> Addr
        ensures { result ≡ self.now.addr }
    {
        // The proof opens the node by a field that may be absent.
        let _lookup = &self.lookup;
        self.addr
    }

    /// As which kind the node holds the name at `now`; `None` where it doesn't, or where `now` is before the time of its
    /// last call.
    pub fn holds(&self, now: Moment, name: &LentName<'_>) -> Option<Kind>
        ensures { result ≡ holds self.now name.now now }
    {
        if now.get() < self.last.get() {
            return None;
        }
        slots::state_in(&self.slots, name).held_at(now)
    }

    /// How the name stands at `now`, as time alone has left it; `None` where `now` is before the time of its last call. A
    /// registration that got no reply, and a hold that ended, show here alone: no call reports them.
    pub fn standing(&self, now: Moment, name: &LentName<'_>) -> Option<Standing>
        ensures { result ≡ standing self.now name.now now }
    {
        if now.get() < self.last.get() {
            return None;
        }
        let state = slots::state_in(&self.slots, name).settled(self.config, now);
        Some(state.standing())
    }

    /// Why the name may not be registered, judged by the node that is settled at `now`.
    #[inline(never)]
    fn ask_fault(&self, now: Moment, name: &LentName<'_>) -> Option<AskFault>
        ensures fault { result ≡ ask_refusal self.now now name.now }
        ensures later { IsNone result → self.now.last ≤ now }
    {
        if now.get() < self.last.get() {
            return Some(AskFault::ClockBack);
        }
        if name.is_star() {
            return Some(AskFault::BadName);
        }
        let state = slots::state_in(&self.slots, name).settled(self.config, now);
        if state.is_busy() {
            return Some(AskFault::Busy);
        }
        if state.is_quiet() || is_resting(self.start, self.config, now) {
            return Some(AskFault::Quiet);
        }
        if !slots::has_room(&self.slots, self.config, now) {
            return Some(AskFault::Full);
        }
        None
    }

    /// Settles the node at `now`, gives the name another state, which settles too, and takes the next id. It stands apart for its room
    /// on the stack.
    #[inline(never)]
    fn change(&mut self, now: Moment, name: &LentName<'_>, after: &State, next_id: u16)
        requires { self.old.last ≤ now }
        ensures node { self.new ≡ changed self.old now name.now after.now next_id }
        ensures apart { AreDistinct self.old.slots }
    {
        Lookup::settle(&mut self.lookup, now);
        slots::settle(&mut self.slots, self.config, now);
        slots::change(&mut self.slots, name, &after.settled(self.config, now));
        self.next_id = next_id;
        self.last = now;
    }

    /// Registers the name at the server, for `ttl` seconds or, where that is 0, for as long as the server grants: `out`
    /// then holds the NAME REGISTRATION REQUEST for the server, and nothing else (RFC 1002 section 4.2.2). Refused in
    /// this order, the node staying as it was and `out` empty: `ClockBack` (4), where `now` is before the node's start or
    /// the time of an earlier call that wasn't refused; `BadName` (5), where the name begins with `*`; `Busy` (2), where
    /// a registration of the name is pending or the name is held; `Quiet` (1), where the name is being released, or no
    /// more than `Config::quiet()` has passed since the node's start, or since the last sending about the name; `Full`
    /// (3), where no slot is free.
    pub fn ask(
        &mut self,
        now: Moment,
        name: &LentName<'_>,
        kind: Kind,
        ttl: u32,
        out: &mut ArrayVec<u8, 576>,
    ) -> Result<(), AskFault>
        ensures refused { result_err result ≡ ask_refusal self.old now name.now }
        ensures ok { OnOk result (Sends self.old now name.now (ask kind ttl) self.new out.new.items) }
        ensures err { OnErr result ((self.new ≡ self.old) × (out.new.items ≡ [])) }
    {
        out.clear();
        match self.ask_fault(now, name) {
            Some(fault) => return Err(fault),
            None => {}
        }
        let id = self.next_id;
        let message = Message::Registration(claim(self.addr.ip, id, name, kind, ttl));
        let asking = State::Asking {
            kind,
            ttl,
            last: now,
            pending: Transaction::open(id, now),
        };
        self.change(now, name, &asking, id_after(id));
        write(&message, out);
        Ok(())
    }

    /// Releases the name: `out` then holds the NAME RELEASE REQUEST for the server, and nothing else (RFC 1002 section
    /// 4.2.9). The name isn't held any more, and may not be registered until more than `Config::quiet()` has passed since
    /// the last sending about it. Refused in this order, the node staying as it was and `out` empty: `ClockBack` (4),
    /// where `now` is before the node's start or the time of an earlier call that wasn't refused; `NotHeld` (1), where
    /// the name isn't held.
    pub fn release(
        &mut self,
        now: Moment,
        name: &LentName<'_>,
        out: &mut ArrayVec<u8, 576>,
    ) -> Result<(), ReleaseFault>
        ensures refused { result_err result ≡ release_refusal self.old now name.now }
        ensures ok { OnOk result (Sends self.old now name.now give_back self.new out.new.items) }
        ensures err { OnErr result ((self.new ≡ self.old) × (out.new.items ≡ [])) }
    {
        out.clear();
        if now.get() < self.last.get() {
            return Err(ReleaseFault::ClockBack);
        }
        let kind = match self.state_at(now, name).held_kind() {
            Some(kind) => kind,
            None => return Err(ReleaseFault::NotHeld),
        };
        let id = self.next_id;
        let message = release(self.addr.ip, id, name, kind);
        let releasing = State::Releasing {
            kind,
            last: now,
            pending: Transaction::open(id, now),
        };
        self.change(now, name, &releasing, id_after(id));
        write(&message, out);
        Ok(())
    }

    /// Has the refresh of a name that is held due before its time: `poll` sends it as soon as more than `Config::quiet()` has passed
    /// since the last sending about the name, unless a refresh is pending. For a user that doubts whether the server still has the
    /// lease: only the reply to that refresh decides. The hold ends when it did; nothing else changes, and nothing at all where the
    /// name isn't held.
    pub fn refresh_soon(&mut self, name: &LentName<'_>)
        ensures { self.new ≡ refreshing_soon self.old name.now }
    {
        let state = slots::state_in(&self.slots, name);
        slots::change(&mut self.slots, name, &state.due_soon());
    }

    /// Settles every name and the lookup at `now`.
    fn settle(&mut self, now: Moment)
        requires { self.old.last ≤ now }
        ensures node { self.new ≡ settled_node self.old now }
        ensures apart { AreDistinct self.old.slots }
    {
        Lookup::settle(&mut self.lookup, now);
        slots::settle(&mut self.slots, self.config, now);
        self.last = now;
    }

    /// Sends at most one datagram that is due at `now`: that of the lowest slot that has one, or else the lookup's.
    /// Returns the endpoint to which the caller must send what `out` holds, or `None`, `out` being empty. The caller polls
    /// until `None` comes. A request is sent again 5,000 ms after its last sending, three times in all, and a hold is refreshed
    /// after half of the seconds that were granted, but only where more than `Config::quiet()` has passed since the last
    /// sending about the name (RFC 1002 sections 5.1.2.6 and 6; the numbers are our profile's). Refused with
    /// `ClockBack` (4) where `now` is before the node's start or the time of an earlier call that wasn't refused: the
    /// node stays as it was, and `out` is empty.
    pub fn poll(
        &mut self,
        now: Moment,
        out: &mut ArrayVec<u8, 576>,
    ) -> Result<Option<Addr>, ClockBack>
        ensures refused { IsErr result ↔ (now < self.old.last) }
        ensures ok { IfOk result (λ to. Polls self.old now self.new to out.new.items) }
        ensures err { OnErr result ((self.new ≡ self.old) × (out.new.items ≡ [])) }
    {
        out.clear();
        if now.get() < self.last.get() {
            return Err(ClockBack);
        }
        match first_due(&self.slots, self.next_id, self.config, now) {
            Some(sending) => {
                sending.put(self.addr.ip, out);
                let mut name = Name::blank();
                name.set(&sending.name);
                let (state, next_id) = (sending.state, sending.next_id);
                self.change(now, &name.lend(), &state, next_id);
                Ok(Some(self.server))
            }
            None => Ok(self.poll_lookup(now, out)),
        }
    }

    #[inline(never)]
    fn poll_lookup(&mut self, now: Moment, out: &mut ArrayVec<u8, 576>) -> Option<Addr>
        requires later { self.old.last ≤ now }
        requires slot { slot_due self.old now ≡ None }
        requires empty { out.old.items ≡ [] }
        ensures { Polls self.old now self.new result out.new.items }
    {
        self.settle(now);
        Lookup::poll(&mut self.lookup, now, out)
    }

    /// When `poll` sends something next, in milliseconds, if nothing happens to the node before: the first time, of those that
    /// aren't before its last call, at which it would. `None` where there is no such time. It may be later than any `Moment`.
    pub fn next_due(&self) -> Option<u64>
        ensures { IsFirst (sends_at self.now) self.now.last result }
    {
        earlier(
            slots_next_due(&self.slots, self.config, self.last),
            lookup_next_due(&self.lookup, self.last),
        )
    }

    /// Whether a lookup is open at `now`; `false` where `now` is before the time of the last call.
    pub fn lookup_open(&self, now: Moment) -> bool
        ensures { result ≡ lookup_open self.now now }
    {
        now.get() >= self.last.get() && Lookup::is_open(&self.lookup, now)
    }

    /// Looks up at the server who holds the name: `out` then holds the NAME QUERY REQUEST for the server, and nothing
    /// else (RFC 1002 section 4.2.12). Refused in this order, the node staying as it was and `out` empty: `ClockBack`
    /// (4), where `now` is before the node's start or the time of an earlier call that wasn't refused; `BadName` (5),
    /// where the name begins with `*`; `Busy` (2), where a lookup is open. No name's state changes but by time.
    pub fn resolve(
        &mut self,
        now: Moment,
        name: &LentName<'_>,
        out: &mut ArrayVec<u8, 576>,
    ) -> Result<(), LookupFault>
        ensures refused { result_err result ≡ resolve_refusal self.old now name.now }
        ensures ok { OnOk result (Opens self.old now name.now self.old.server Wanted.Entries self.new out.new.items) }
        ensures err { OnErr result ((self.new ≡ self.old) × (out.new.items ≡ [])) }
    {
        out.clear();
        if now.get() < self.last.get() {
            return Err(LookupFault::ClockBack);
        }
        if name.is_star() {
            return Err(LookupFault::BadName);
        }
        if Lookup::is_open(&self.lookup, now) {
            return Err(LookupFault::Busy);
        }
        let server = self.server;
        self.look_up(now, name, server, Wanted::Entries, out);
        Ok(())
    }

    /// Asks the host at `to` for the names that it holds: `out` then holds the NODE STATUS REQUEST for it, and nothing
    /// else (RFC 1002 section 4.2.17). Refused in this order, the node staying as it was and `out` empty: `ClockBack`
    /// (4), where `now` is before the node's start or the time of an earlier call that wasn't refused; `Busy` (2),
    /// where a lookup is open. No name's state changes but by time.
    pub fn name_status(
        &mut self,
        now: Moment,
        to: Addr,
        name: &LentName<'_>,
        out: &mut ArrayVec<u8, 576>,
    ) -> Result<(), LookupFault>
        ensures refused { result_err result ≡ status_refusal self.old now }
        ensures ok { OnOk result (Opens self.old now name.now to Wanted.Names self.new out.new.items) }
        ensures err { OnErr result ((self.new ≡ self.old) × (out.new.items ≡ [])) }
    {
        out.clear();
        if now.get() < self.last.get() {
            return Err(LookupFault::ClockBack);
        }
        if Lookup::is_open(&self.lookup, now) {
            return Err(LookupFault::Busy);
        }
        self.look_up(now, name, to, Wanted::Names, out);
        Ok(())
    }

    /// Opens a lookup at the endpoint `to`.
    fn look_up(
        &mut self,
        now: Moment,
        name: &LentName<'_>,
        to: Addr,
        wanted: Wanted,
        out: &mut ArrayVec<u8, 576>,
    )
        requires { self.old.last ≤ now }
        ensures { Opens self.old now name.now to wanted self.new out.new.items }
    {
        self.settle(now);
        let id = self.next_id;
        let lookup = Lookup {
            id,
            name: name.to_name(),
            to,
            wanted,
            tries: 1,
            due: next_due(now),
        };
        write(&lookup.question(), out);
        self.next_id = id_after(id);
        self.lookup = Some(lookup);
    }

    /// Handles a datagram from an endpoint, and returns what it was to the node. A reply of the server counts only from the
    /// server's address and port, with the id and name of the pending request; a conflict demand (RCODE 7) drops a name
    /// that is being registered or held, whatever its id (our profile). A lookup ends only by the endpoint that was
    /// queried. A status request for a name that begins with `*`, or that the node holds, is replied to whoever sent it:
    /// `out` then holds the NODE STATUS RESPONSE for `from`, at most 576 octets (RFC 1002 section 4.2.18); else `out` is
    /// empty. Refused with
    /// `ClockBack` (4) where `now` is before the node's start or the time of an earlier call that wasn't refused: the
    /// node stays as it was, and `out` is empty.
    pub fn on_datagram<'a>(
        &mut self,
        now: Moment,
        from: Addr,
        octets: &'a [u8],
        out: &mut ArrayVec<u8, 576>,
    ) -> Result<Event<'a>, ClockBack>
        ensures refused { IsErr result ↔ (now < self.old.last) }
        ensures ok { IfOk result (λ event. Handles self.old now from octets.now self.new (told_of event) out.new.items) }
        ensures err { OnErr result ((self.new ≡ self.old) × (out.new.items ≡ [])) }
    {
        let message = read(octets);
        self.handle(now, from, &message, out)
    }

    /// Handles a datagram that was read before, as `on_datagram` handles its octets: `message` is what they spell, if they
    /// spell one. Refused as there.
    pub fn handle<'a>(
        &mut self,
        now: Moment,
        from: Addr,
        message: &Option<Message<'a>>,
        out: &mut ArrayVec<u8, 576>,
    ) -> Result<Event<'a>, ClockBack>
        ensures refused { IsErr result ↔ (now < self.old.last) }
        ensures ok { IfOk result (λ event. (octets : List ℕ) → Says octets (message_if message.now) → Handles self.old now from octets self.new (told_of event) out.new.items) }
        ensures err { OnErr result ((self.new ≡ self.old) × (out.new.items ≡ [])) }
    {
        out.clear();
        if !asks_names(message) {
            return self.handle_unanswered(now, from, message);
        }
        if now.get() < self.last.get() {
            return Err(ClockBack);
        }
        match message {
            Some(message) => Ok(self.take_request(now, message, out)),
            None => unreachable!(),
        }
    }

    /// Handles a message that is no status request, the one request to which a node itself replies, as `handle` does: it has no
    /// room for a reply, for a caller that has none to spare. The caller must ensure that [`asks_names`] is false of the message.
    /// Refused as there.
    pub fn handle_unanswered<'a>(
        &mut self,
        now: Moment,
        from: Addr,
        message: &Option<Message<'a>>,
    ) -> Result<Event<'a>, ClockBack>
        requires { asks_names (message_if message.now) ≡ false }
        ensures refused { IsErr result ↔ (now < self.old.last) }
        ensures ok { IfOk result (λ event. (octets : List ℕ) → Says octets (message_if message.now) → Handles self.old now from octets self.new (told_of event) []) }
        ensures err { OnErr result (self.new ≡ self.old) }
    {
        if now.get() < self.last.get() {
            return Err(ClockBack);
        }
        match message {
            Some(message) => Ok(self.take(now, from, message)),
            None => {
                self.settle(now);
                Ok(Event::Nothing)
            }
        }
    }

    /// What a message from an endpoint makes of the node, if it is no status request.
    #[inline(never)]
    fn take<'a>(&mut self, now: Moment, from: Addr, message: &Message<'a>) -> Event<'a>
        requires later { self.old.last ≤ now }
        requires unanswered { asks_names (message_if (Some message.now)) ≡ false }
        ensures { NodeTakes self.old now from (message_of message.now) self.new None (told_of result) }
    {
        match message {
            Message::Registered {
                rcode,
                registration,
            } => self.take_registered(now, from, *rcode, registration),
            Message::Released {
                id,
                rcode,
                name,
                ..
            } => self.take_released(now, from, *id, *rcode, name),
            Message::Wait { id, name, ttl } => self.take_wait(now, from, *id, name, *ttl),
            Message::Found { entries, cut, .. } => {
                let found = Event::Found { entries, cut: *cut };
                self.end_lookup(now, from, message, found)
            }
            Message::NotFound { .. } => self.end_lookup(now, from, message, Event::NotFound),
            Message::Status { names, .. } => self.end_lookup(
                now,
                from,
                message,
                Event::Status(names),
            ),
            Message::StatusRequest { .. } => unreachable!(),
            Message::Registration(_)
            | Message::Overwrite(_)
            | Message::Refresh(_)
            | Message::Release { .. }
            | Message::Query { .. } => {
                self.settle(now);
                Event::Nothing
            }
        }
    }

    /// The reply to a registration or a refresh.
    #[inline(never)]
    fn take_registered<'a>(
        &mut self,
        now: Moment,
        from: Addr,
        rcode: u8,
        registration: &Registration<'_>,
    ) -> Event<'a>
        requires { self.old.last ≤ now }
        ensures { NodeHears self.old now from registration.now.name (registered rcode registration.now) self.new None (told_of result) }
    {
        let seconds = self.config.granted(registration.ttl);
        let outcome = self.after_registered(now, rcode, registration, seconds);
        self.hear(now, from, &registration.name, &outcome.state, outcome.event)
    }

    /// What that reply makes of its name, if it is the server's and grants these seconds. It stands apart for its room on the stack, as
    /// those below, which the change of the name's state doesn't take.
    #[inline(never)]
    fn after_registered<'a>(
        &self,
        now: Moment,
        rcode: u8,
        registration: &Registration<'_>,
        seconds: u32,
    ) -> Outcome<'a>
        requires bound { seconds ≤ LONGEST_MOST }
        requires granted { granted self.now.config.longest registration.now.ttl ≡ seconds }
        ensures { Move self.now now registration.now.name (state_at self.now now registration.now.name) (hear (registered rcode registration.now)) result.state None (told_of result.event) self.now.next_id }
    {
        let state = self.state_at(now, &registration.name);
        on_registered(&state, rcode, registration.id, seconds)
    }

    /// The reply to a release.
    #[inline(never)]
    fn take_released<'a>(
        &mut self,
        now: Moment,
        from: Addr,
        id: u16,
        rcode: u8,
        name: &LentName<'_>,
    ) -> Event<'a>
        requires { self.old.last ≤ now }
        ensures { (kind : NameKind) (addr : ℕ) → NodeHears self.old now from name.now (released id rcode name.now kind addr) self.new None (told_of result) }
    {
        let outcome = self.after_released(now, id, rcode, name);
        self.hear(now, from, name, &outcome.state, outcome.event)
    }

    /// What that reply makes of its name, if it is the server's.
    #[inline(never)]
    fn after_released<'a>(
        &self,
        now: Moment,
        id: u16,
        rcode: u8,
        name: &LentName<'_>,
    ) -> Outcome<'a>
        ensures { (kind : NameKind) (addr : ℕ) → Move self.now now name.now (state_at self.now now name.now) (hear (released id rcode name.now kind addr)) result.state None (told_of result.event) self.now.next_id }
    {
        let state = self.state_at(now, name);
        on_released(&state, rcode, id)
    }

    /// A WACK.
    #[inline(never)]
    fn take_wait<'a>(
        &mut self,
        now: Moment,
        from: Addr,
        id: u16,
        name: &LentName<'_>,
        ttl: u32,
    ) -> Event<'a>
        requires { self.old.last ≤ now }
        ensures { NodeHears self.old now from name.now (wait id name.now ttl) self.new None (told_of result) }
    {
        let outcome = self.after_wait(now, id, name, ttl);
        self.hear(now, from, name, &outcome.state, outcome.event)
    }

    /// What it makes of its name, if it is the server's.
    #[inline(never)]
    fn after_wait<'a>(&self, now: Moment, id: u16, name: &LentName<'_>, ttl: u32) -> Outcome<'a>
        ensures { Move self.now now name.now (state_at self.now now name.now) (hear (wait id name.now ttl)) result.state None (told_of result.event) self.now.next_id }
    {
        let state = self.state_at(now, name);
        on_wait(&state, id, ttl, now)
    }

    /// What a message makes of the node, if it is a status request.
    fn take_request<'a>(
        &mut self,
        now: Moment,
        message: &Message<'_>,
        out: &mut ArrayVec<u8, 576>,
    ) -> Event<'a>
        requires later { self.old.last ≤ now }
        requires answered { asks_names (message_if (Some message.now)) ≡ true }
        requires empty { out.old.items ≡ [] }
        ensures { (sent : Option MessageValue) × ((from : End) → NodeTakes self.old now from (message_of message.now) self.new sent (told_of result)) × AreWritten sent out.new.items }
    {
        match message {
            Message::StatusRequest { id, name } => self.list_names(now, *id, name, out),
            _ => unreachable!(),
        }
    }

    /// A status request. The names are those of the node that is settled at `now`.
    fn list_names<'a>(
        &mut self,
        now: Moment,
        id: u16,
        name: &LentName<'_>,
        out: &mut ArrayVec<u8, 576>,
    ) -> Event<'a>
        requires later { self.old.last ≤ now }
        requires empty { out.old.items ≡ [] }
        ensures { (sent : Option MessageValue) × Lists self.old now id name.now self.new sent (told_of result) × AreWritten sent out.new.items }
    {
        let is_listed_for = self.is_listed_for(now, name);
        self.settle(now);
        if !is_listed_for {
            return Event::Nothing;
        }
        write_listed(&self.slots, id, name, out);
        Event::Reply
    }

    /// Whether a status request for this name is replied to.
    #[inline(never)]
    fn is_listed_for(&self, now: Moment, name: &LentName<'_>) -> bool
        ensures { result ≡ is_listed_for self.now now name.now }
    {
        name.is_star() || self.state_at(now, name).held_kind().is_some()
    }

    /// Ends the lookup where the message answers it, and reports this event then.
    fn end_lookup<'a>(
        &mut self,
        now: Moment,
        from: Addr,
        message: &Message<'_>,
        event: Event<'a>,
    ) -> Event<'a>
        requires { self.old.last ≤ now }
        ensures { Ends self.old now from (message_of message.now) (told_of event.entry) self.new None (told_of result) }
    {
        self.settle(now);
        if !Lookup::ends(&self.lookup, from, message) {
            return Event::Nothing;
        }
        self.lookup = None;
        event
    }

    /// Gives a name the state that a reply leads to, and reports the event, where the server sent the reply.
    #[inline(never)]
    fn hear<'a>(
        &mut self,
        now: Moment,
        from: Addr,
        name: &LentName<'_>,
        state: &State,
        event: Event<'a>,
    ) -> Event<'a>
        requires { self.old.last ≤ now }
        ensures { (message : MessageValue) → Move self.old now name.now (state_at self.old now name.now) (hear message) state.now None (told_of event.entry) self.old.next_id
            → NodeHears self.old now from name.now message self.new None (told_of result) }
    {
        if !is_same_end(from, self.server) {
            self.settle(now);
            return Event::Nothing;
        }
        let id = self.next_id;
        self.change(now, name, state, id);
        event
    }

    /// The name's state at `now`.
    #[inline(never)]
    fn state_at(&self, now: Moment, name: &LentName<'_>) -> State
        ensures { result ≡ state_at self.now now name.now }
    {
        slots::state_in(&self.slots, name).settled(self.config, now)
    }
}
