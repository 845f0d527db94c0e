//! The world: its events, one at a time and in a row.

ghost use Rattle.std.specs.Prelude.{cond, ◌≡◌, ◌≤◌, ◌<◌, ◌↔◌, ℕ, Some, None, List, length, take, slice_get, slice_index, slice_index_or, IsOk, IsTrue, IfSome, IfOk, OnOk, IfErr, OnErr, MatchResult, Contains, is_some};
ghost use Rattle.nbt_name.specs.declared.addr.Kind.{Kind as KindValue};
ghost use Rattle.std.specs.Option.{option_map};
ghost use Rattle.nbt_world.specs.Drift.{reading as reading_of};
ghost use Rattle.nbt_world.specs.World.{WorldValue, AreAddrs, IsEnd, IsFresh, addr_of, node_of, with_limit};
ghost use Rattle.nbt_world.specs.Step.{Advances, Step, number_in, TakesNoMemory};
ghost use Rattle.nbt_world.specs.Safety.{Run, holding, MayHold, IsSafe, RunsSafely};
ghost use Rattle.nbt_world.specs.Clocks.{RunsByClocks};
ghost use Rattle.nbt_world.specs.Getting.{CanGet, getting};
ghost use Rattle.nbt_world.specs.Inner.Kept.{AreRead};
ghost use Rattle.nbt_world.specs.Inner.Handing.{Origin, HandsOver};
ghost use Rattle.nbt_world.specs.declared.event.Outcome.TheVariants as outcome;
ghost use Rattle.nbt_world.specs.declared.ends.Holder.{Holder as HolderValue};

use crate::clocks::{Clocks, ENDS_MOST, Least, are_timely, at_beginning, watch};
use crate::ends::{Ends, Holder, are_apart};
use crate::event::{Event, OutOfMemory, Outcome};
use crate::network::{Datagram, give, reply, spell_move};
use crate::node_call::SLOTS;
use arrayvec::ArrayVec;
use nbt_lease::{Config, Moment};
use nbt_name::{Addr, Kind, Name};
use nbt_node::Node;
use nbt_server::Server;
use std::alloc::Global;
use std::marker::Model;
use thiserror::Error;

/// The most nodes of a world.
const NODES_MOST: usize = ENDS_MOST - 1;

/// The addresses of a world's ends aren't 2 to 9, or two of them are equal in their 32 bits.
#[derive(Clone, Copy, Debug, PartialEq, Eq, Error)]
#[error("Addrs")]
pub struct Addrs;

/// All ends of a network, the datagrams between them, the true clock and what each end reads.
#[derive(Drop)]
pub struct World {
    alloc: Global,
    clocks: Clocks,
    config: Config,
    ends: Ends,
    sent: Vec<Datagram>,
    least: [Least; 9],
    kept: bool,
    timely: bool,
}

impl Model for World {
    ghost use Rattle.nbt_world.specs.World.{WorldValue};
    ghost use Rattle.nbt_world.specs.Inner.Kept.{Invariant};

    ghost Value = { WorldValue };

    ghost view = { λ w. record { now = w.clocks; config = w.config; ends = w.ends; sent = w.sent.items; least = w.least; kept = w.kept; timely = w.timely } };

    ghost invariant = { λ w. Invariant (record { now = w.clocks; config = w.config; ends = w.ends; sent = w.sent.items; least = w.least; kept = w.kept; timely = w.timely }) };
}

/// What comes of a change of an end, where it was made and where there was nothing to do.
fn done(changed: bool) -> Outcome
    ensures { result ≡ cond changed outcome.Done outcome.Nothing }
{
    if changed {
        Outcome::Done
    } else {
        Outcome::Nothing
    }
}

impl World {
    /// A world with a server at the first of the addresses and a node at each other one, numbered from 1, each of 14
    /// slots. All ends are down, all clocks are at 0, and no datagram was sent. Refused exactly where there aren't 2 to 9
    /// addresses, or where two are equal in their 32 bits, whatever their ports. Takes no memory.
    pub fn new(alloc: Global, config: Config, addrs: &[Addr]) -> Result<World, Addrs>
        ensures found { IsOk result ↔ AreAddrs addrs.now }
        ensures world { IfOk result (λ world. IsFresh config addrs.now world) }
    {
        let Some((server_addr, others)) = addrs.split_first() else {
            return Err(Addrs);
        };
        if others.is_empty() || others.len() > NODES_MOST || !are_apart(addrs) {
            return Err(Addrs);
        }
        Ok(World {
            alloc,
            clocks: Clocks::zero(),
            config,
            ends: Ends::new(*server_addr, others),
            sent: Vec::new(alloc),
            least: at_beginning(),
            kept: true,
            timely: true,
        })
    }

    /// The clocks go on, and with them whether the readings keep the drift bound.
    fn go_on(&mut self, ms: u64, readings: &[u64; 9])
        ensures step { Advances self.old ms (slice_index readings.now) self.new }
        ensures nodes_at_most { length self.old.ends.nodes.items ≤ 8 }
    {
        nbt_lease::laws::leases_stay_sound();
        nbt_lease::laws::later_leases_live_now();
        nbt_lease::laws::hold_ends_first();
        self.clocks.go_on(ms, readings);
        let ends = self.ends.nodes.len() + 1;
        let allowed = watch(&mut self.least, &self.clocks, ends);
        let timely = are_timely(&self.least, &self.clocks, ends);
        self.kept = self.kept && allowed;
        self.timely = self.timely && timely;
    }

    /// All clocks go on alike.
    fn tick(&mut self, ms: u64) -> Outcome
        ensures { Step self.old (Event.Tick ms) result self.new }
    {
        self.go_on(ms, &[ms; 9]);
        Outcome::Done
    }

    /// The clocks go on, each by its own number of milliseconds.
    fn advance(&mut self, ms: u64, readings: &[u64; 9]) -> Outcome
        ensures { Step self.old (Event.Advance ms readings.now) result self.new }
    {
        self.go_on(ms, readings);
        Outcome::Done
    }

    /// An end starts.
    fn start(&mut self, number: usize) -> Outcome
        ensures { Step self.old (Event.Start number) result self.new }
    {
        let now = self.clocks.reading(number);
        done(self.ends.start(self.alloc, number, self.config, now))
    }

    /// An end crashes.
    fn crash(&mut self, number: usize) -> Outcome
        ensures { Step self.old (Event.Crash number) result self.new }
    {
        done(self.ends.crash(number))
    }

    /// The server resumes after a crash.
    fn resume(&mut self) -> Outcome
        ensures { Step self.old Event.Resume result self.new }
    {
        done(self.ends.resume())
    }

    /// A node does something of its own.
    fn node_event(&mut self, number: usize, event: &Event) -> Result<Outcome, OutOfMemory>
        requires { number_in event.now ≡ Some number }
        ensures step { IfOk result (λ outcome. Step self.old event.now outcome self.new) }
        ensures refused { OnErr result (self.new ≡ self.old) }
    {
        nbt_packet::laws::one_message_spelled();
        nbt_lease::laws::rest_outlasts_datagrams();
        if self.sent.try_reserve(1).is_err() {
            return Err(OutOfMemory);
        }
        let now = self.clocks.reading(number);
        let mut octets = ArrayVec::new();
        let done = self.ends.node_event(number, now, event, &mut octets);
        let Some((from, given)) = done else {
            return Ok(Outcome::Down);
        };
        Ok(give(&mut self.sent, given, from, self.clocks, octets))
    }

    /// The end of this number, at the address `to`, takes octets from an address, and its reply is sent back. The octets are
    /// those of a datagram of the list that may still be delivered, a stranger's, or such as move no name.
    fn hand_over(
        &mut self,
        number: usize,
        from: Addr,
        to: Addr,
        octets: &[u8],
    ) -> Result<Outcome, OutOfMemory>
        requires there { addr_of self.old.ends number ≡ Some to }
        requires origin { Origin self.old from to octets.now }
        ensures handed { IfOk result (λ outcome. HandsOver self.old number from to octets.now outcome self.new) }
        ensures refused { OnErr result (self.new ≡ self.old) }
    {
        nbt_packet::laws::one_message_spelled();
        nbt_lease::laws::leases_stay_sound();
        nbt_lease::laws::one_name_changes();
        nbt_lease::laws::leases_of_others_stay();
        nbt_lease::laws::granted_lease_stands();
        nbt_lease::laws::hold_ends_first();
        nbt_lease::laws::rest_outlasts_datagrams();
        if self.sent.try_reserve(1).is_err() {
            return Err(OutOfMemory);
        }
        let now = self.clocks.reading(number);
        let mut out = ArrayVec::new();
        let taken = self.ends.take(number, now, from, octets, &mut out);
        Ok(reply(&mut self.sent, taken, to, from, self.clocks, out))
    }

    /// A datagram of the list is delivered.
    fn deliver(&mut self, k: usize) -> Result<Outcome, OutOfMemory>
        ensures step { IfOk result (λ outcome. Step self.old (Event.Deliver k) outcome self.new) }
        ensures refused { OnErr result (self.new ≡ self.old) }
    {
        let Some(datagram) = self.sent.as_slice().get(k) else {
            return Ok(Outcome::Nobody);
        };
        let from = datagram.from;
        let to = datagram.to;
        let Some(number) = self.ends.find(to) else {
            return Ok(Outcome::Nobody);
        };
        if datagram.moment.clock.get() + self.config.life() < self.clocks.clock.get() {
            return Ok(Outcome::Lost);
        }
        let octets = datagram.copy_octets();
        self.hand_over(number, from, to, octets.as_slice())
    }

    /// A datagram comes from an address that is no end's.
    fn stranger(
        &mut self,
        from: Addr,
        number: usize,
        octets: &Vec<u8>,
    ) -> Result<Outcome, OutOfMemory>
        ensures step { IfOk result (λ outcome. Step self.old (Event.Stranger from number octets.now) outcome self.new) }
        ensures refused { OnErr result (self.new ≡ self.old) }
    {
        if self.ends.has_ip(from.ip) {
            return Ok(Outcome::Nobody);
        }
        let Some(to) = self.ends.addr(number) else {
            return Ok(Outcome::Nobody);
        };
        self.hand_over(number, from, to, octets.as_slice())
    }

    /// Another program on an end's machine sends a datagram.
    fn beside(
        &mut self,
        from: Addr,
        number: usize,
        octets: &Vec<u8>,
    ) -> Result<Outcome, OutOfMemory>
        ensures step { IfOk result (λ outcome. Step self.old (Event.Beside from number octets.now) outcome self.new) }
        ensures refused { OnErr result (self.new ≡ self.old) }
    {
        if !self.ends.has_ip(from.ip) {
            return Ok(Outcome::Nobody);
        }
        if spell_move(octets.as_slice()) {
            return Ok(Outcome::Nobody);
        }
        let Some(to) = self.ends.addr(number) else {
            return Ok(Outcome::Nobody);
        };
        self.hand_over(number, from, to, octets.as_slice())
    }

    /// What happens next: the clocks go on, an end starts or crashes, a node does something of its own, a datagram of
    /// the list is delivered, or one comes from a stranger. Returns what came of it. With `OutOfMemory`, where room for
    /// one datagram more was refused, the world is as it was. A `Tick`, `Advance`, `Start`, `Crash` or `Resume` takes no
    /// memory. No two nodes hold one name afterwards, unless both as a group, where `timely` answers true, and so where
    /// `kept` does.
    pub fn step(&mut self, event: &Event) -> Result<Outcome, OutOfMemory>
        ensures step { IfOk result (λ outcome. Step self.old event.now outcome self.new) }
        ensures safe_timely { IsTrue self.new.timely → IsSafe self.new }
        ensures safe { IsTrue self.new.kept → IsSafe self.new }
        ensures refused { OnErr result (self.new ≡ self.old) }
        ensures memory { TakesNoMemory event.now → IsOk result }
    {
        let outcome = match event {
            Event::Tick(ms) => Ok(self.tick(*ms)),
            Event::Advance { ms, readings } => Ok(self.advance(*ms, readings)),
            Event::Start(number) => Ok(self.start(*number)),
            Event::Crash(number) => Ok(self.crash(*number)),
            Event::Resume => Ok(self.resume()),
            Event::Ask { node, .. } => self.node_event(*node, event),
            Event::Release { node, .. } => self.node_event(*node, event),
            Event::Resolve { node, .. } => self.node_event(*node, event),
            Event::NameStatus { node, .. } => self.node_event(*node, event),
            Event::Poll(node) => self.node_event(*node, event),
            Event::Deliver(k) => self.deliver(*k),
            Event::Stranger { from, to, octets } => self.stranger(*from, *to, octets),
            Event::Beside { from, to, octets } => self.beside(*from, *to, octets),
        };
        self.is_safe();
        outcome
    }

    /// The events in order, as far as memory is there. With `OutOfMemory`, the number of the event that it was refused
    /// to, which is no `Tick`, `Advance`, `Start`, `Crash` or `Resume`: the world is then as after those before it. In no world along
    /// the run up to which the readings were timely, or kept the drift bound, do two nodes hold one name, unless both as a group.
    pub fn run(&mut self, events: &[Event]) -> Result<(), (usize, OutOfMemory)>
        ensures ran { OnOk result ((worlds : List WorldValue) × Run events.now self.old worlds self.new
            × RunsSafely self.old worlds self.new × RunsByClocks events.now self.old worlds self.new) }
        ensures stopped { IfErr result (λ stop. (stop.0 < length events.now) × (worlds : List WorldValue) × Run (take stop.0 events.now) self.old worlds self.new
            × RunsSafely self.old worlds self.new × RunsByClocks (take stop.0 events.now) self.old worlds self.new) }
        ensures memory { IfErr result (λ stop. IfSome (slice_get events.now stop.0) (λ event. ¬ TakesNoMemory event)) }
    {
        self.is_safe();
        for (number, event) in events.iter().enumerate() {
            match self.step(event) {
                Ok(_) => {}
                Err(fault) => return Err((number, fault)),
            }
        }
        Ok(())
    }

    /// A node gets a free name, by three events: the node requests it, its datagram is delivered, and then the server's reply.
    /// The name must be free, the server must be up and past its silence with room for a lease, also by its limit of clients, and the node must be up and
    /// rested, with a free slot and the name Idle. On `OutOfMemory`, also where the server was out of memory for the
    /// request, the world is as after the events before.
    pub fn get(&mut self, node: usize, name: Name, kind: Kind, ttl: u32) -> Result<(), OutOfMemory>
        requires { CanGet self.old node name }
        ensures got { OnOk result (holding self.new node name ≡ Some kind) }
        ensures ran { OnOk result ((worlds : List WorldValue) × Run (getting self.old node name kind ttl) self.old worlds self.new) }
        ensures stopped { OnErr result ((k : ℕ) × (worlds : List WorldValue) × Run (take k (getting self.old node name kind ttl)) self.old worlds self.new) }
    {
        crate::laws::free_name_is_got();
        let asked = self.sent.len();
        self.step(&Event::Ask {
            node,
            name,
            kind,
            ttl,
        })?;
        match self.step(&Event::Deliver(asked))? {
            Outcome::Lost => return Err(OutOfMemory),
            _ => {}
        }
        self.step(&Event::Deliver(asked + 1))?;
        Ok(())
    }

    /// The server, where it is up, lets each client have `rows` live leases at most from now on, as [`Server::limit_clients`]
    /// does. It keeps that until it starts anew. Returns whether it is up. Takes no memory.
    pub fn limit_clients(&mut self, rows: u32) -> bool
        ensures up { result ≡ is_some self.old.ends.server }
        ensures limited { self.new ≡ record self.old { ends = with_limit self.old.ends rows } }
    {
        self.ends.limit_clients(rows)
    }

    /// What the facts that every world keeps come to: no two nodes hold one name, unless both as a group, where the readings
    /// were timely so far, as they were where they kept the drift bound.
    fn is_safe(&self)
        ensures safe_timely { IsTrue self.now.timely → IsSafe self.now }
        ensures safe { IsTrue self.now.kept → IsSafe self.now }
        ensures read { AreRead self.now }
    {
        let _facts = &self.sent;
    }

    /// As which kind the node of this number holds the name now; `None` where it doesn't, where it is down, and where
    /// there is none.
    fn holding(&self, number: usize, name: &Name) -> Option<Kind>
        ensures { result ≡ holding self.now number name.now }
    {
        if number == 0 || number > self.ends.nodes.len() {
            return None;
        }
        self.ends.nodes.as_slice()[number - 1].holding(self.clocks.reading(number), name)
    }

    /// Whether these two, if they are different nodes, don't both hold the name now, each by its own reading, unless both as
    /// a group. It is true wherever `timely` is: what shows it is `step`, `run` and `holders`, and not this call's result.
    pub fn no_two_holders(&self, i: usize, j: usize, name: &Name) -> bool
        ensures exactly { IsTrue result ↔ MayHold self.now i j name.now }
        ensures always { IsTrue self.now.timely → IsTrue result }
        ensures kept { IsTrue self.now.kept → IsTrue result }
    {
        self.is_safe();
        if i == j {
            return true;
        }
        match (self.holding(i, name), self.holding(j, name)) {
            (Some(Kind::Group), Some(Kind::Group)) => true,
            (Some(_), Some(_)) => false,
            _ => true,
        }
    }

    /// The true clock. Takes no memory.
    pub fn clock(&self) -> Moment
        ensures { result ≡ self.now.now.clock }
    {
        self.clocks.clock
    }

    /// How many ends the world has, the server among them: 2 to 9. Takes no memory.
    pub fn end_count(&self) -> usize
        ensures exactly { (number : ℕ) → (number < result) ↔ IsEnd self.now.ends number }
        ensures within { (2 ≤ result) × (result ≤ 9) }
    {
        self.ends.nodes.len() + 1
    }

    /// Whether the readings of all ends kept the drift bound so far: between any two worlds since the beginning, with d what
    /// the true clock moved and c what a reading did, in milliseconds, 1000 |c - d| was at most d + 1000 (our profile). It
    /// is true in a new world, and once it is false it stays so. Takes no memory.
    pub fn kept(&self) -> bool
        ensures { result ≡ self.now.kept }
    {
        self.kept
    }

    /// Whether the readings of all ends were timely so far: between any two such worlds, with d and c as for `kept`, 1000 (c - d)
    /// was at most d + 1000 for each end, and 1000 (d - c) for each node. So no clock was too fast, and no node's too slow: the
    /// server's may be slow or stand still, by any time. It is true wherever `kept` is, and once it is false it stays so. Where it
    /// is true, no two nodes hold one name, unless both as a group. Takes no memory.
    pub fn timely(&self) -> bool
        ensures told { result ≡ self.now.timely }
        ensures kept { IsTrue self.now.kept → IsTrue result }
    {
        self.is_safe();
        self.timely
    }

    /// What the end of this number reads; 0 where there is none. Takes no memory.
    pub fn reading(&self, number: usize) -> Moment
        ensures { result ≡ reading_of self.now.now number }
    {
        self.clocks.reading(number)
    }

    /// The address of the end of this number, if there is one: 0 is the server, and the nodes are numbered from 1. Takes no
    /// memory.
    pub fn addr(&self, number: usize) -> Option<Addr>
        ensures { result ≡ addr_of self.now.ends number }
    {
        self.ends.addr(number)
    }

    /// The server, where it is up. Takes no memory.
    pub fn server(&self) -> Option<&Server>
        ensures { option_map (λ server. server.now) result ≡ self.now.ends.server }
    {
        self.ends.server.as_ref()
    }

    /// The node of this number, where there is one and it is up. Takes no memory.
    pub fn node(&self, number: usize) -> Option<&Node<SLOTS>>
        ensures { option_map (λ node. node.now) result ≡ node_of self.now.ends number }
    {
        if number == 0 {
            return None;
        }
        match self.ends.nodes.as_slice().get(number - 1) {
            Some(end) => end.node.as_ref(),
            None => None,
        }
    }

    /// Every datagram that an end sent so far, in order: the place of each is its number. Takes no memory.
    pub fn sent(&self) -> &[Datagram]
        ensures { result.now ≡ self.now.sent }
    {
        self.sent.as_slice()
    }

    /// The nodes that hold the name now, each by its own reading, with their kinds, in order of their numbers. Takes no
    /// memory.
    pub fn holders(&self, name: &Name) -> ArrayVec<Holder, 8>
        ensures exactly { (number : ℕ) (kind : KindValue) → Contains result.items (record { node = number; kind = kind }) ↔ (holding self.now number name.now ≡ Some kind) }
        ensures in_order { (i j : ℕ) (d : HolderValue) → i < j → j < length result.items → (slice_index_or result.items i d).node < (slice_index_or result.items j d).node }
    {
        let nodes = self.ends.nodes.as_slice();
        let mut holders = ArrayVec::new();
        for (index, end) in nodes.iter().enumerate() {
            match end.holding(self.clocks.reading(index + 1), name) {
                Some(kind) => holders.push(Holder {
                    node: index + 1,
                    kind,
                }),
                None => {}
            }
        }
        holders
    }
}
