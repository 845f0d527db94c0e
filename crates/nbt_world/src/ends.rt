//! The ends of a world: the server and its nodes.

ghost use Rattle.std.specs.Prelude.{◌≡◌, ◌≢◌, ℕ, ◌≤◌, ◌↔◌, length, Some, None, MatchOption, MatchBool, IsTrue, IsSome, IsNone, IfSome, Option, is_some};
ghost use Rattle.nbt_packet.specs.Message.{MessageValue};
ghost use Rattle.nbt_node.specs.Node.{NodeValue};
ghost use Rattle.nbt_node.specs.Calls.{started};
ghost use Rattle.nbt_server.specs.Serving.{ServerValue};
ghost use Rattle.nbt_name.specs.declared.addr.Addr.{Addr};
ghost use Rattle.nbt_world.specs.World.{addr_at, IsAmong, AreApart, with_limit};
ghost use Rattle.nbt_world.specs.Step.{TakenValue, takes, ServerDoes, NodeHandles, IsTaken};

use crate::event::Event;
use crate::node_call::{CallOutcome, SLOTS, call_node};
use arrayvec::ArrayVec;
use nbt_lease::{Config, Moment};
use nbt_name::{Addr, Kind, Name};
use nbt_node::Node;
use nbt_server::{Server, ServerFault};
use std::alloc::Global;

/// A node's address, and what it is while it is up.
#[derive(Debug, Drop)]
pub struct NodeEnd {
    pub addr: Addr,
    pub node: Option<Node<SLOTS>>,
}

/// All ends: the server's address, what it is while it is up, what it was when it crashed, until it starts or resumes, and
/// the nodes in order of their numbers.
#[derive(Drop)]
pub struct Ends {
    pub server_addr: Addr,
    pub server: Option<Server>,
    pub crashed: Option<Server>,
    pub nodes: ArrayVec<NodeEnd, 8>,
}

/// A node that holds a name, by its number, and as which kind.
#[derive(Clone, Copy, Debug, PartialEq, Eq)]
pub struct Holder {
    /// The node's number, from 1.
    pub node: usize,
    /// As which kind it holds the name.
    pub kind: Kind,
}

impl Default for Holder {
    fn default() -> Holder {
        Holder {
            node: 0,
            kind: Kind::Unique,
        }
    }
}

impl Default for NodeEnd {
    fn default() -> NodeEnd {
        NodeEnd {
            addr: Addr { ip: 0, port: 0 },
            node: None,
        }
    }
}

impl NodeEnd {
    ghost use Rattle.nbt_world.specs.Safety.{held_by};

    /// As which kind the node holds the name at a moment; `None` where it is down.
    pub fn holding(&self, now: Moment, name: &Name) -> Option<Kind>
        ensures { result ≡ held_by self.now.node name.now now }
    {
        match &self.node {
            Some(node) => node.holds(now, &name.lend()),
            None => None,
        }
    }
}

/// What becomes of a datagram at an end: the end is down, has no memory for it, takes it, or replies with the octets in
/// the buffer.
pub enum Taken {
    Down,
    Lost,
    Silent,
    Replies,
}

impl Ends {
    ghost use Rattle.nbt_world.specs.World.{ends_at, latest, addr_of, node_of, IsOfEnd, with_node};
    ghost use Rattle.nbt_world.specs.Step.{number_in, given_of, NodeDoes, Starts, Crashes, Resumes, CannotResume, EndTakes, IsDown, IsUp, TakenValue, IsTaken};

    /// A server and nodes at these addresses, which are all down.
    pub fn new(server_addr: Addr, others: &[Addr]) -> Ends
        requires { length others.now ≤ 8 }
        ensures { result ≡ ends_at server_addr others.now }
    {
        let mut nodes = ArrayVec::new();
        for addr in others {
            nodes.push(NodeEnd {
                addr: *addr,
                node: None,
            });
        }
        Ends {
            server_addr,
            server: None,
            crashed: None,
            nodes,
        }
    }

    /// The address of the end of this number, if there is one.
    pub fn addr(&self, number: usize) -> Option<Addr>
        ensures { result ≡ addr_of self.now number }
    {
        if number == 0 {
            return Some(self.server_addr);
        }
        match self.nodes.as_slice().get(number - 1) {
            Some(end) => Some(end.addr),
            None => None,
        }
    }

    /// The number of the end at this address and port, if there is one.
    pub fn find(&self, addr: Addr) -> Option<usize>
        ensures found { IfSome result (λ number. addr_of self.now number ≡ Some addr) }
        ensures none { IsNone result → (number : ℕ) → addr_of self.now number ≢ Some addr }
    {
        if self.server_addr == addr {
            return Some(0);
        }
        Some(place_of(self.nodes.as_slice(), addr)? + 1)
    }

    /// Whether some end has this 32-bit address.
    pub fn has_ip(&self, ip: u32) -> bool
        ensures { IsTrue result ↔ IsOfEnd self.now ip }
    {
        self.server_addr.ip == ip || any_has_ip(self.nodes.as_slice(), ip)
    }

    /// Starts the end of this number where it is down. Returns whether it was.
    pub fn start(&mut self, alloc: Global, number: usize, config: Config, now: Moment) -> bool
        ensures { MatchBool result (Starts config now self.old number self.new) ((¬ IsDown self.old number) × (self.new ≡ self.old)) }
    {
        if number == 0 {
            if self.server.is_some() {
                return false;
            }
            self.server = Some(Server::start(alloc, config, now));
            self.crashed = None;
            return true;
        }
        if number > self.nodes.len() {
            return false;
        }
        let server = self.server_addr;
        start_node(&mut self.nodes[number - 1], server, config, now)
    }

    /// Crashes the end of this number where it is up. Returns whether it was.
    pub fn crash(&mut self, number: usize) -> bool
        ensures { MatchBool result (Crashes self.old number self.new) ((¬ IsUp self.old number) × (self.new ≡ self.old)) }
    {
        if number == 0 {
            if self.server.is_none() {
                return false;
            }
            self.crashed = self.server.take();
            return true;
        }
        if number > self.nodes.len() {
            return false;
        }
        crash_node(&mut self.nodes[number - 1])
    }

    /// Brings the server back with the leases that it had when it crashed, where it is down and was up. Returns whether it
    /// was.
    pub fn resume(&mut self) -> bool
        ensures { (now : ℕ) → ((was : ServerValue) → latest self.old ≡ Some was → was.last ≤ now) → MatchBool result (Resumes now self.old self.new) (CannotResume self.old × (self.new ≡ self.old)) }
    {
        if self.server.is_some() || self.crashed.is_none() {
            return false;
        }
        self.server = self.crashed.take();
        true
    }

    /// Has the server, where it is up, limit its clients. Returns whether it is up.
    pub fn limit_clients(&mut self, rows: u32) -> bool
        ensures up { result ≡ is_some self.old.server }
        ensures limited { self.new ≡ with_limit self.old rows }
    {
        match &mut self.server {
            Some(server) => {
                server.limit_clients(rows);
                true
            }
            None => false,
        }
    }

    /// A node does what an event says, where it is there and up: its address, and what it gives.
    pub fn node_event(
        &mut self,
        number: usize,
        now: Moment,
        event: &Event,
        out: &mut ArrayVec<u8, 576>,
    ) -> Option<(Addr, CallOutcome)>
        requires own { IsSome (number_in event.now) }
        requires server { (node : NodeValue) → node_of self.old number ≡ Some node → node.server ≡ self.old.server_addr }
        requires time { (node : NodeValue) → node_of self.old number ≡ Some node → node.last ≤ now }
        ensures down { IsNone result → (node_of self.old number ≡ None) × (self.new ≡ self.old) }
        ensures does { IfSome result (λ given. (node : NodeValue) × (new : NodeValue) × (node_of self.old number ≡ Some node) × NodeDoes node now event.now new (given_of given.1 out.new.items)
            × (self.new ≡ with_node self.old number (Some new)) × (given.0 ≡ new.addr)) }
    {
        if number == 0 || number > self.nodes.len() {
            return None;
        }
        let server = self.server_addr;
        let end = &mut self.nodes[number - 1];
        match &mut end.node {
            Some(node) => {
                let given = call_node(node, server, now, event, out);
                Some((node.addr(), given))
            }
            None => None,
        }
    }

    /// The end of this number takes a datagram.
    pub fn take(
        &mut self,
        number: usize,
        now: Moment,
        from: Addr,
        octets: &[u8],
        out: &mut ArrayVec<u8, 576>,
    ) -> Taken
        requires there { IsSome (addr_of self.old number) }
        requires node { (node : NodeValue) → node_of self.old number ≡ Some node → node.last ≤ now }
        requires server { (server : ServerValue) → number ≡ 0 → self.old.server ≡ Some server → server.last ≤ now }
        ensures { (taken : TakenValue) × EndTakes now self.old from octets.now number taken self.new × IsTaken result out.new.items taken }
    {
        if number == 0 {
            return match &mut self.server {
                Some(server) => serve(server, now, from, octets, out),
                None => Taken::Down,
            };
        }
        let end = &mut self.nodes[number - 1];
        match &mut end.node {
            Some(node) => hear(node, now, from, octets, out),
            None => Taken::Down,
        }
    }
}

/// Starts a node that is down. Returns whether it was.
fn start_node(end: &mut NodeEnd, server: Addr, config: Config, now: Moment) -> bool
    ensures { MatchBool result ((end.old.node ≡ None) × (end.new ≡ record end.old { node = Some (started 14 end.old.addr server config now) })) (IsSome end.old.node × (end.new ≡ end.old)) }
{
    if end.node.is_some() {
        return false;
    }
    end.node = Some(Node::start(end.addr, server, config, now));
    true
}

/// Crashes a node that is up. Returns whether it was.
fn crash_node(end: &mut NodeEnd) -> bool
    ensures { MatchBool result (IsSome end.old.node × (end.new ≡ record end.old { node = None })) ((end.old.node ≡ None) × (end.new ≡ end.old)) }
{
    if end.node.is_none() {
        return false;
    }
    end.node = None;
    true
}

/// The server takes a datagram.
fn serve(
    server: &mut Server,
    now: Moment,
    from: Addr,
    octets: &[u8],
    out: &mut ArrayVec<u8, 576>,
) -> Taken
    requires { server.old.last ≤ now }
    ensures { (taken : TakenValue) × ServerDoes now server.old from.ip octets.now taken server.new × IsTaken result out.new.items taken }
{
    match server.on_datagram(now, from, octets, out) {
        Ok(true) => Taken::Replies,
        Ok(false) => Taken::Silent,
        Err(ServerFault::OutOfMemory) => Taken::Lost,
        Err(ServerFault::ClockBack) => unreachable!(),
    }
}

/// A node takes a datagram.
fn hear(
    node: &mut Node<SLOTS>,
    now: Moment,
    from: Addr,
    octets: &[u8],
    out: &mut ArrayVec<u8, 576>,
) -> Taken
    requires { node.old.last ≤ now }
    ensures { (reply : Option MessageValue) × NodeHandles now node.old from octets.now reply node.new × IsTaken result out.new.items (takes reply) }
{
    if node.on_datagram(now, from, octets, out).is_err() {
        unreachable!();
    }
    if out.is_empty() {
        Taken::Silent
    } else {
        Taken::Replies
    }
}

/// The place of the node at an address.
fn place_of(nodes: &[NodeEnd], addr: Addr) -> Option<usize>
    ensures found { IfSome result (λ index. addr_at nodes.now index ≡ Some addr) }
    ensures none { IsNone result → (index : ℕ) → addr_at nodes.now index ≢ Some addr }
{
    for (index, end) in nodes.iter().enumerate() {
        if end.addr == addr {
            return Some(index);
        }
    }
    None
}

/// Whether some node has this 32-bit address.
fn any_has_ip(nodes: &[NodeEnd], ip: u32) -> bool
    ensures { IsTrue result ↔ ((index : ℕ) × (addr : Addr) × (addr_at nodes.now index ≡ Some addr) × (addr.ip ≡ ip)) }
{
    for end in nodes {
        if end.addr.ip == ip {
            return true;
        }
    }
    false
}

/// Whether no two of the addresses are equal in their 32 bits.
pub fn are_apart(addrs: &[Addr]) -> bool
    ensures { IsTrue result ↔ AreApart addrs.now }
{
    let mut rest = addrs;
    while let Some((first, others)) = rest.split_first() {
        if stands_in(others, first.ip) {
            return false;
        }
        rest = others;
    }
    true
}

/// Whether one of the addresses has these 32 bits.
fn stands_in(addrs: &[Addr], ip: u32) -> bool
    ensures { IsTrue result ↔ IsAmong ip addrs.now }
{
    for addr in addrs {
        if addr.ip == ip {
            return true;
        }
    }
    false
}
