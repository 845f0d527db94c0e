//! An end node with its two ports, and the name server with its port and its clock.

ghost use Rattle.std.specs.Prelude.{◌≡◌, ◌<◌, OnOk, IsErr};
ghost use Rattle.nbt_port.specs.PortCalls.{receiving, sending, route_to};
ghost use Rattle.nbt_serve.specs.Serving.{Runs};
ghost use Rattle.nbt_serve.specs.declared.serving.Counts.{Counts};
ghost use Rattle.nbt_bench.specs.Counting.{CountsOn};
ghost use Rattle.nbt_bench.specs.Numbers.{loop_begin};

use crate::clock::CountedClock;
use arrayvec::ArrayVec;
use nbt_dgram::Joiner;
use nbt_lease::{Config, Moment};
use nbt_name::Addr;
use nbt_node::Node;
use nbt_port::{Cause, Clock, Device, Port, Route};
use nbt_serve::serve_turns;
use nbt_server::Server;
use std::alloc::Global;

/// When the program's clock begins: then the server isn't silent any more.
const BEGIN: u64 = 60_000;

/// The names that an end node has room for: one of its own, and one of a group.
pub const SLOTS: usize = 2;

/// An end node, the port of its name service and that of its datagrams.
#[derive(Drop)]
pub struct EndNode<P: Drop> {
    /// The node.
    pub node: Node<SLOTS>,
    /// The port of the name service.
    pub names: P,
    /// The port of datagrams.
    pub datagrams: P,
    /// Where datagrams come to.
    pub datagrams_at: Addr,
    /// The datagrams of which fragments are missing.
    pub joiner: Joiner<1>,
}

impl<P: Port + Drop> EndNode<P> {
    /// Why one of its ports failed, where one did.
    pub fn cause(&self) -> Option<Cause> {
        self.names.cause().or(self.datagrams.cause())
    }
}

/// The name server, its port, and the clock of all.
#[derive(Drop)]
pub struct NameServer<P: Drop> {
    server: Server,
    port: P,
    addr: Addr,
    clock: CountedClock,
}

impl<P: Port + Drop> NameServer<P> {
    /// A server over this port, which is at `addr`. It started at 0, and the clock is at `BEGIN`.
    pub fn start(alloc: Global, config: Config, addr: Addr, port: P) -> NameServer<P>
        ensures addr { result.addr ≡ addr }
        ensures clock { result.clock ≡ loop_begin }
    {
        NameServer {
            server: Server::start(alloc, config, Moment::zero()),
            port,
            addr,
            clock: CountedClock::from(Moment::new(BEGIN).unwrap()),
        }
    }

    /// Where requests go.
    pub fn addr(&self) -> Addr
        ensures { result ≡ self.now.addr }
    {
        self.addr
    }

    /// Why its port failed, where it did.
    pub fn cause(&self) -> Option<Cause> {
        self.port.cause()
    }

    /// The next time.
    pub fn now(&mut self) -> Moment
        ensures clock { CountsOn self.old.clock result self.new.clock }
        ensures addr { self.new.addr ≡ self.old.addr }
    {
        self.clock.now()
    }

    /// Takes one turn: receives once, and sends the reply.
    pub fn serve(&mut self) -> Result<(), Device>
        ensures ok { OnOk result ((counts : Counts) × Runs P.does CountsOn 1 counts self.old.port self.old.clock self.old.server
            self.new.port self.new.clock self.new.server) }
        ensures addr { self.new.addr ≡ self.old.addr }
    {
        if self.port.failures() > 0 {
            return Err(Device);
        }
        serve_turns(&mut self.port, &mut self.clock, &mut self.server, 1)?;
        Ok(())
    }
}

/// Sends octets through a port to a host. One that has failed isn't used again.
pub fn send<P: Port>(port: &mut P, to: Addr, octets: &[u8]) -> Result<(), Device>
    ensures does { P.failures port.old ≡ 0 → P.does port.old (sending (route_to to) octets.now result) port.new }
    ensures failed { 0 < P.failures port.old → IsErr result × (port.new ≡ port.old) }
{
    if port.failures() > 0 {
        return Err(Device);
    }
    port.send(Route::to(to), octets)
}

/// Receives once from a port. One that has failed isn't used again.
pub fn receive<P: Port>(
    port: &mut P,
    octets: &mut ArrayVec<u8, 2048>,
) -> Result<Option<Route>, Device>
    ensures does { P.failures port.old ≡ 0 → P.does port.old (receiving result octets.new.items) port.new }
    ensures failed { 0 < P.failures port.old → IsErr result × (port.new ≡ port.old) }
{
    if port.failures() > 0 {
        return Err(Device);
    }
    port.receive(octets)
}
