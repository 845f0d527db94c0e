//! Replies that wait until the changes that they rest on are durable.

ghost use Rattle.std.specs.Prelude.{◌≡◌, ◌<◌, ◌≤◌, ◌+◌, ◌-◌, ◌^◌, ◌↔◌, ◌||◌, ◌&&◌, ◌++◌, ◌∷◌, [], ℕ, List, Bool, true, false, not, nat_eq, nat_le, nat_lt, length, map, Any, Option, Some, is_some, IfOk, OnOk, OnErr, IfErr, IsTrue};
ghost use Rattle.std.specs.List.{flat_map};
ghost use Rattle.nbt_name.specs.Wire.{NameValue};
ghost use Rattle.std.specs.Option.{option_to_list};
ghost use Rattle.std.specs.VecDeque.{deque_capacity};
ghost use Rattle.nbt_port.specs.PortCalls.{Chain, send_failed};
ghost use Rattle.nbt_port.specs.declared.port.Route.{Route as RouteValue};
ghost use Rattle.nbt_store.specs.Calls.{StoreCall, appending, sync_failed};
ghost use Rattle.nbt_store.specs.declared.change.Change.TheVariants.{Reached};
ghost use Rattle.nbt_serve.specs.Devices.{DeviceCall, DeviceDoes};
ghost use Rattle.nbt_serve.specs.Waiting.{ReplyValue, WaitingValue, batch, none_waits, more_of, counted, IsAbout, IsClear, with_line, all_durable, dropped, lay_down, laid_down, LineFails, syncs_of, sends_of, timely, leaving, value_of};
ghost use Rattle.nbt_serve.specs.Turning.{is_any_reply, sent_ahead, reach, reached, with_lines, behind, leaves, LeavingFails};
ghost use Rattle.nbt_serve.specs.Inner.Passing.{Leaves, GoesFirst, IsFree, PassesOn, PassingFails, goes_to, name_in_any, query_in, reply_to, with_held};
ghost use Rattle.nbt_serve.specs.declared.fault.KeepFault.TheVariants as fault;

use crate::asking::{name_in, query_in};
use crate::fault::KeepFault;
use arrayvec::ArrayVec;
use nbt_lease::{Config, Moment};
use nbt_log::Entry;
use nbt_name::Name;
use nbt_port::{Clock, Device, Port, Route};
use nbt_server::Server;
use nbt_store::{Broken, Change, Store};
use std::alloc::{AllocError, Global};
use std::collections::VecDeque;
use std::marker::Model;

/// At so many replies that wait they leave, and after so many datagrams behind the first change that isn't durable (our profile).
pub const BATCH: usize = 64;

/// No datagram is handled more than so many milliseconds past the last durable time (our profile).
pub const REACH: u64 = 1_000;

/// A reply.
#[derive(Debug, Drop)]
pub struct Reply {
    /// By which route it goes.
    pub to: Route,
    /// Its octets.
    pub octets: ArrayVec<u8, 576>,
    /// When the request was read that it answers.
    pub read: Moment,
    /// Which name that is about.
    pub about: Option<Name>,
}

/// What is known of lines that aren't durable.
#[derive(Clone, Copy, Debug, PartialEq, Eq)]
pub struct Unsynced {
    /// The time of the last one, in milliseconds.
    pub at: u64,
    /// How many datagrams more may come before they are made so.
    pub more: usize,
}

/// What left in a turn.
#[derive(Clone, Copy, Debug, PartialEq, Eq)]
pub struct Sent {
    /// Whether the turn's own reply went ahead of those that wait, or there was none and none waits.
    pub ahead: bool,
    /// At which moment what waited left, if it did.
    pub left: Option<Moment>,
}

/// Replies that wait until the changes that they rest on are durable, in the order of their datagrams. A contract sees them, up to
/// which time all is durable, and where there are lines that aren't, the time of the last, and how many datagrams more may come before they are.
/// Times are milliseconds of the server's clock.
#[derive(Drop)]
pub struct Waiting {
    replies: VecDeque<Reply>,
    durable: u64,
    unsynced: Option<Unsynced>,
    ghost room: { batch ≤ deque_capacity replies },
}

impl Model for Waiting {
    ghost use Rattle.std.specs.Prelude.{map};
    ghost use Rattle.nbt_serve.specs.Waiting.{WaitingValue, value_of};

    ghost Value = { WaitingValue };

    ghost view = { λ w. record { replies = map value_of w.replies.items; durable = w.durable; unsynced = w.unsynced } };
}

impl Waiting {
    /// No reply waits, and all is durable up to this time: LAST of the file's header. The memory for 64 replies is taken here.
    pub fn new(alloc: Global, durable: u64) -> Result<Waiting, AllocError>
        ensures { IfOk result (λ waiting. waiting ≡ none_waits durable) }
    {
        let replies = VecDeque::with_capacity(alloc, BATCH)?;
        Ok(Waiting {
            replies,
            durable,
            unsynced: None,
        })
    }

    /// How many replies wait.
    pub fn len(&self) -> usize
        ensures { result ≡ length self.now.replies }
    {
        self.replies.len()
    }

    /// Whether no reply waits.
    pub fn is_empty(&self) -> bool
        ensures { IsTrue result ↔ (self.now.replies ≡ []) }
    {
        self.replies.is_empty()
    }

    /// Up to which time all is durable, in milliseconds.
    pub(crate) fn durable(&self) -> u64
        ensures { result ≡ self.now.durable }
    {
        self.durable
    }

    /// Whether no reply waits, and all is durable.
    pub fn is_clear(&self) -> bool
        ensures { IsTrue result ↔ IsClear self.now }
    {
        self.replies.is_empty() && self.unsynced.is_none()
    }

    /// Whether the reply of a turn, if there is one, leaves ahead of those that wait: no line had to become durable before it, and none
    /// waits and all is durable, or it answers a query, and no reply about its name waits.
    fn goes_first(&self, synced: bool, entry: &Option<Entry>) -> bool
        ensures { IsTrue result ↔ GoesFirst synced (query_in entry.now) self.now }
    {
        !synced && self.is_free(entry)
    }

    /// Whether none waits and all is durable, or this is a query that was answered, and no reply about its name waits.
    fn is_free(&self, entry: &Option<Entry>) -> bool
        ensures { IsTrue result ↔ IsFree (query_in entry.now) self.now }
    {
        if self.is_clear() {
            return true;
        }
        match query_in(entry) {
            Some(name) => !self.is_about(name),
            None => false,
        }
    }

    /// Whether a reply about this name waits.
    fn is_about(&self, name: &Name) -> bool
        ensures { IsTrue result ↔ IsAbout name.now self.now.replies }
    {
        is_any_about(&self.replies, name)
    }

    /// Whether something waits.
    fn is_any(&self) -> bool
        ensures { result ≡ (is_any_reply self.now.replies || is_some self.now.unsynced) }
    {
        !self.replies.is_empty() || self.unsynced.is_some()
    }

    /// Whether they leave though something came: all is durable, or as many wait as may, or no datagram more may come before all is.
    fn is_due(&self) -> bool
        ensures { result ≡ (not (is_some self.now.unsynced) || (nat_le batch (length self.now.replies) || nat_eq (more_of self.now.unsynced) 0)) }
    {
        self.unsynced.is_none() || self.replies.len() >= BATCH || self.more() == 0
    }

    /// Whether a moment is more than a second past the last durable time.
    fn is_past(&self, now: Moment) -> bool
        ensures { result ≡ nat_lt (self.now.durable + reach) now }
    {
        u128::from(self.durable) + u128::from(REACH) < u128::from(now.get())
    }

    /// One datagram more came, where a change isn't durable.
    fn count(&mut self)
        ensures { self.new ≡ counted self.old }
    {
        if let Some(unsynced) = self.unsynced {
            self.unsynced = Some(Unsynced {
                at: unsynced.at,
                more: unsynced.more.saturating_sub(1),
            });
        }
    }

    /// One more reply waits, if there is one, to a request that was read at this moment, and was about this name.
    fn put_any(
        &mut self,
        to: Option<Route>,
        octets: &ArrayVec<u8, 576>,
        read: Moment,
        about: Option<Name>,
    )
        requires room { length self.old.replies < batch }
        ensures { self.new ≡ behind (reply_to read about to octets.now.items) self.old }
    {
        if let Some(to) = to {
            let octets = copy_of(octets);
            let reply = Reply {
                to,
                octets,
                read,
                about,
            };
            self.replies.push_back_reserved(reply);
        }
    }

    /// How many datagrams more may come before all is made durable.
    fn more(&self) -> usize
        ensures { result ≡ more_of self.now.unsynced }
    {
        match self.unsynced {
            Some(unsynced) => unsynced.more,
            None => BATCH,
        }
    }

    /// Has the store append a change, which isn't durable then. Where the store fails, the replies are dropped.
    pub(crate) fn append<S: Store>(&mut self, store: &mut S, change: &Change) -> Result<(), Broken>
        ensures did { S.does store.old (appending change.now result) store.new }
        ensures ok { OnOk result (self.new ≡ with_line change.now self.old) }
        ensures err { OnErr result (self.new ≡ dropped (with_line change.now self.old)) }
    {
        self.unsynced = Some(Unsynced {
            at: change.at(),
            more: self.more(),
        });
        match store.append(change) {
            Ok(()) => Ok(()),
            Err(broken) => {
                self.replies.clear();
                Err(broken)
            }
        }
    }

    /// Has the store append a line that becomes durable at once, as all before it. Where the store fails, the replies are dropped.
    pub(crate) fn lay_down<S: Store>(&mut self, store: &mut S, line: &Change) -> Result<(), Broken>
        ensures ok { OnOk result (Chain S.does store.old (lay_down line.now) store.new × (self.new ≡ laid_down line.now self.old)) }
        ensures err { OnErr result ((calls : List StoreCall) × LineFails line.now calls × Chain S.does store.old calls store.new × (self.new ≡ dropped (with_line line.now self.old))) }
    {
        self.append(store, line)?;
        self.sync(store)
    }

    /// Before a datagram is handled that was read at a moment more than a second past the last durable time, that moment becomes
    /// durable, as all before it. Returns whether it did. Where the store fails, the replies are dropped.
    pub(crate) fn reach<S: Store>(&mut self, store: &mut S, now: Moment) -> Result<bool, Broken>
        ensures ok { IfOk result (λ synced. (synced ≡ nat_lt (self.old.durable + reach) now)
            × Chain S.does store.old (flat_map lay_down (reached self.old.durable (now ∷ []))) store.new × (self.new ≡ with_lines (reached self.old.durable (now ∷ [])) self.old)) }
        ensures err { OnErr result ((nat_lt (self.old.durable + reach) now ≡ true) × (calls : List StoreCall) × LineFails (Reached now) calls
            × Chain S.does store.old calls store.new × (self.new ≡ dropped (with_line (Reached now) self.old))) }
    {
        if !self.is_past(now) {
            return Ok(false);
        }
        let line = Change::Reached { at: now.get() };
        self.lay_down(store, &line)?;
        Ok(true)
    }

    /// The reply of a turn, if there is one, leaves ahead of those that wait, or waits behind them: it goes ahead where the turn had no
    /// sync, and none waits and all is durable, or it answers a query, and no reply about its name waits; then it is never copied. Its
    /// request was read at the server's time. Then all that waits leaves as [`Waiting::leave`] has it, with the same refusals, where
    /// something does, and nothing came in the turn, or all is durable, or as many wait as may, or no datagram more may come before all is.
    /// Refused with `Port` at a reply that goes ahead too: it is lost.
    pub(crate) fn pass<P: Port, S: Store, C: Clock>(
        &mut self,
        came: Option<Route>,
        entry: &Option<Entry>,
        octets: &ArrayVec<u8, 576>,
        synced: bool,
        server: &Server,
        port: &mut P,
        store: &mut S,
        clock: &mut C,
    ) -> Result<Sent, KeepFault>
        requires room { length self.old.replies < batch }
        ensures ok { IfOk result (λ sent. (calls : List DeviceCall) × (readings : List ℕ)
            × PassesOn server.now.table.config.life (not (is_some came)) synced (query_in entry.now) (reply_to server.now.last (name_in_any entry.now) (goes_to came entry.now) octets.now.items) self.old sent.ahead calls readings self.new
            × Chain (DeviceDoes P.does S.does) (record { port = port.old; store = store.old }) calls (record { port = port.new; store = store.new })
            × Chain C.tells clock.old readings clock.new × (readings ≡ option_to_list sent.left)) }
        ensures err { IfErr result (λ why. (calls : List DeviceCall) × (readings : List ℕ)
            × PassingFails server.now.table.config.life (not (is_some came)) synced (query_in entry.now) (reply_to server.now.last (name_in_any entry.now) (goes_to came entry.now) octets.now.items) self.old why calls readings self.new
            × Chain (DeviceDoes P.does S.does) (record { port = port.old; store = store.old }) calls (record { port = port.new; store = store.new })
            × Chain C.tells clock.old readings clock.new) }
    {
        let to = goes_to(came, entry);
        let ahead = self.goes_first(synced, entry);
        self.send_or_hold(ahead, to, entry, octets, server.last(), port)?;
        let limits = server.table().config();
        match self.leave_where_due(came.is_none(), limits, port, store, clock) {
            Ok(left) => Ok(Sent { ahead, left }),
            Err(why) => Err(why),
        }
    }

    /// The reply of a turn, if there is one, is sent ahead, or waits behind those that wait. Its request was read at this moment. Refused
    /// with `Port` where it is sent and that fails: it is lost.
    fn send_or_hold<P: Port>(
        &mut self,
        ahead: bool,
        to: Option<Route>,
        entry: &Option<Entry>,
        octets: &ArrayVec<u8, 576>,
        read: Moment,
        port: &mut P,
    ) -> Result<(), KeepFault>
        requires room { length self.old.replies < batch }
        ensures ok { OnOk result (Chain P.does port.old (sends_of (sent_ahead ahead (reply_to read (name_in_any entry.now) to octets.now.items))) port.new × (self.new ≡ with_held ahead (reply_to read (name_in_any entry.now) to octets.now.items) self.old)) }
        ensures err { IfErr result (λ why. (lost : RouteValue) × (ahead ≡ true) × (to ≡ Some lost) × (why ≡ fault.Port) × P.does port.old (send_failed lost octets.now.items) port.new × (self.new ≡ counted self.old)) }
    {
        self.count();
        if ahead {
            return send_any(to, octets.as_slice(), port);
        }
        self.put_any(to, octets, read, name_in(entry));
        Ok(())
    }

    /// Whether they leave after a turn in which nothing came, or something did.
    fn is_to_leave(&self, idle: bool) -> bool
        ensures { result ≡ leaves idle self.now }
    {
        self.is_any() && (idle || self.is_due())
    }

    /// All that waits leaves as [`Waiting::leave`] has it, with the same refusals, where something does, and nothing came in the turn, or
    /// all is durable, or as many wait as may, or no datagram more may come before all is. Returns at which moment, if it does.
    fn leave_where_due<P: Port, S: Store, C: Clock>(
        &mut self,
        idle: bool,
        limits: Config,
        port: &mut P,
        store: &mut S,
        clock: &mut C,
    ) -> Result<Option<Moment>, KeepFault>
        ensures ok { IfOk result (λ left. (calls : List DeviceCall) × (readings : List ℕ) × Leaves limits.life idle self.old calls readings self.new
            × Chain (DeviceDoes P.does S.does) (record { port = port.old; store = store.old }) calls (record { port = port.new; store = store.new })
            × Chain C.tells clock.old readings clock.new × (readings ≡ option_to_list left)) }
        ensures err { IfErr result (λ why. (calls : List DeviceCall) × (readings : List ℕ) × (leaves idle self.old ≡ true) × LeavingFails limits.life self.old why calls readings self.new
            × Chain (DeviceDoes P.does S.does) (record { port = port.old; store = store.old }) calls (record { port = port.new; store = store.new })
            × Chain C.tells clock.old readings clock.new) }
    {
        if !self.is_to_leave(idle) {
            return Ok(None);
        }
        match self.leave(limits, port, store, clock) {
            Ok(now) => Ok(Some(now)),
            Err(why) => Err(why),
        }
    }

    /// All becomes durable, the clock is read, and then the replies leave, in order: those whose requests were read no longer before
    /// than the life of a datagram. The others are dropped. Returns that moment. Refused with `Store` if the store fails: the replies are dropped; with
    /// `Port` at the first send that fails: the replies behind that one still wait.
    fn leave<P: Port, S: Store, C: Clock>(
        &mut self,
        limits: Config,
        port: &mut P,
        store: &mut S,
        clock: &mut C,
    ) -> Result<Moment, KeepFault>
        ensures ok { IfOk result (λ now. Chain (DeviceDoes P.does S.does) (record { port = port.old; store = store.old }) (leaving limits.life now self.old) (record { port = port.new; store = store.new })
            × Chain C.tells clock.old (now ∷ []) clock.new × (self.new ≡ dropped (all_durable self.old))) }
        ensures err { IfErr result (λ why. (calls : List DeviceCall) × (readings : List ℕ) × LeavingFails limits.life self.old why calls readings self.new
            × Chain (DeviceDoes P.does S.does) (record { port = port.old; store = store.old }) calls (record { port = port.new; store = store.new })
            × Chain C.tells clock.old readings clock.new) }
    {
        self.sync(store)?;
        let now = clock.now();
        self.drop_late(limits, now);
        self.send_all(port)?;
        Ok(now)
    }

    /// The replies are dropped that would leave too late at a moment: a datagram's life after their requests were read.
    fn drop_late(&mut self, limits: Config, now: Moment)
        ensures { self.new ≡ record self.old { replies = timely limits.life now self.old.replies } }
    {
        let life = limits.life();
        self.replies
            .retain(|reply| now.get() <= reply.read.get() + life);
    }

    /// All replies leave, in order. Refused with `Device` at the first send that fails: the replies behind that one still wait.
    fn send_all<P: Port>(&mut self, port: &mut P) -> Result<(), Device>
        ensures ok { OnOk result (Chain P.does port.old (sends_of self.old.replies) port.new × (self.new ≡ record self.old { replies = [] })) }
        ensures err { OnErr result ((before : List ReplyValue) × (lost : ReplyValue) × (self.old.replies ≡ before ++ lost ∷ self.new.replies)
            × Chain P.does port.old (sends_of before ++ send_failed lost.datagram.route lost.datagram.octets ∷ []) port.new × (self.new ≡ record self.old { replies = self.new.replies })) }
    {
        send_each(&mut self.replies, port)
    }

    /// All becomes durable, if it isn't. Where the store fails, the replies are dropped.
    fn sync<S: Store>(&mut self, store: &mut S) -> Result<(), Broken>
        ensures ok { OnOk result (Chain S.does store.old (syncs_of self.old.unsynced) store.new × (self.new ≡ all_durable self.old)) }
        ensures err { OnErr result ((is_some self.old.unsynced ≡ true) × S.does store.old sync_failed store.new × (self.new ≡ dropped self.old)) }
    {
        let Some(unsynced) = self.unsynced else {
            return Ok(());
        };
        match store.sync() {
            Ok(()) => {
                self.durable = self.durable.max(unsynced.at);
                self.unsynced = None;
                Ok(())
            }
            Err(broken) => {
                self.replies.clear();
                Err(broken)
            }
        }
    }
}

/// These octets in a list of their own.
fn copy_of(octets: &ArrayVec<u8, 576>) -> ArrayVec<u8, 576>
    ensures { result.items ≡ octets.now.items }
{
    let mut copy = ArrayVec::new();
    copy.try_extend_from_slice(octets.as_slice()).unwrap();
    copy
}

/// By which route the reply of a turn goes, if it has one, by what the server did: by that of the datagram that came.
fn goes_to(came: Option<Route>, entry: &Option<Entry>) -> Option<Route>
    ensures { result ≡ goes_to came entry.now }
{
    match entry {
        Some(entry) if entry.outcome.has_reply() => came,
        _ => None,
    }
}

/// Whether one of these replies is about this name.
fn is_any_about(replies: &VecDeque<Reply>, name: &Name) -> bool
    ensures { IsTrue result ↔ Any (λ reply. reply.about ≡ Some name.now) replies.now.items }
{
    replies.iter().any(|reply| is_of(&reply.about, name))
}

/// Whether a request was about this name.
fn is_of(about: &Option<Name>, name: &Name) -> bool
    ensures { IsTrue result ↔ (about.now ≡ Some name.now) }
{
    match about {
        Some(about) => *about == *name,
        None => false,
    }
}

/// Sends a reply, if there is one. Refused with `Port` where that fails: it is lost.
fn send_any<P: Port>(to: Option<Route>, octets: &[u8], port: &mut P) -> Result<(), KeepFault>
    ensures ok { OnOk result ((read : ℕ) (about : Option NameValue) → Chain P.does port.old (sends_of (reply_to read about to octets.now)) port.new) }
    ensures err { IfErr result (λ why. (lost : RouteValue) × (to ≡ Some lost) × (why ≡ fault.Port) × P.does port.old (send_failed lost octets.now) port.new) }
{
    match to {
        Some(to) => Ok(port.send(to, octets)?),
        None => Ok(()),
    }
}

/// Sends all replies, in order. Refused with `Device` at the first send that fails: that reply is lost, and those behind it stay.
fn send_each<P: Port>(replies: &mut VecDeque<Reply>, port: &mut P) -> Result<(), Device>
    ensures ok { OnOk result (Chain P.does port.old (sends_of (map value_of replies.old.items)) port.new × (replies.new.items ≡ [])) }
    ensures err { OnErr result ((before : List ReplyValue) × (lost : ReplyValue) × (map value_of replies.old.items ≡ before ++ lost ∷ map value_of replies.new.items)
        × Chain P.does port.old (sends_of before ++ send_failed lost.datagram.route lost.datagram.octets ∷ []) port.new) }
    ensures capacity { deque_capacity replies.new ≡ deque_capacity replies.old }
{
    'sends: while let Some(reply) = replies.pop_front() {
        port.send(reply.to, reply.octets.as_slice())?;
    }
    Ok(())
}
