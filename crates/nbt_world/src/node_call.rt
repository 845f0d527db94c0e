//! What a node does at an event of its own.

ghost use Rattle.std.specs.Prelude.{◌≡◌, ℕ, ◌≤◌, IsSome};
ghost use Rattle.nbt_world.specs.Step.{NodeDoes, given_of, number_in};

use crate::event::Event;
use arrayvec::ArrayVec;
use nbt_lease::Moment;
use nbt_name::{Addr, Kind, Name};
use nbt_node::Node;

/// The slots of a world's nodes: the most that a node may have.
pub const SLOTS: usize = 14;

/// What a call of a node gives: nothing, a refusal with its number, or the octets in the buffer for an end.
pub enum CallOutcome {
    Nothing,
    Refusal(u8),
    To(Addr),
}

/// A node asks for a name.
fn ask(
    node: &mut Node<SLOTS>,
    server: Addr,
    now: Moment,
    name: &Name,
    kind: Kind,
    ttl: u32,
    out: &mut ArrayVec<u8, 576>,
) -> CallOutcome
    requires { node.old.server ≡ server }
    ensures { (number : ℕ) → NodeDoes node.old now (Event.Ask number name.now kind ttl) node.new (given_of result out.new.items) }
{
    match node.ask(now, &name.lend(), kind, ttl, out) {
        Ok(()) => CallOutcome::To(server),
        Err(fault) => CallOutcome::Refusal(fault.number()),
    }
}

/// A node gives a name back.
fn release(
    node: &mut Node<SLOTS>,
    server: Addr,
    now: Moment,
    name: &Name,
    out: &mut ArrayVec<u8, 576>,
) -> CallOutcome
    requires { node.old.server ≡ server }
    ensures { (number : ℕ) → NodeDoes node.old now (Event.Release number name.now) node.new (given_of result out.new.items) }
{
    match node.release(now, &name.lend(), out) {
        Ok(()) => CallOutcome::To(server),
        Err(fault) => CallOutcome::Refusal(fault.number()),
    }
}

/// A node asks the server who holds a name.
fn resolve(
    node: &mut Node<SLOTS>,
    server: Addr,
    now: Moment,
    name: &Name,
    out: &mut ArrayVec<u8, 576>,
) -> CallOutcome
    requires { node.old.server ≡ server }
    ensures { (number : ℕ) → NodeDoes node.old now (Event.Resolve number name.now) node.new (given_of result out.new.items) }
{
    match node.resolve(now, &name.lend(), out) {
        Ok(()) => CallOutcome::To(server),
        Err(fault) => CallOutcome::Refusal(fault.number()),
    }
}

/// A node asks an end which names it holds.
fn name_status(
    node: &mut Node<SLOTS>,
    now: Moment,
    to: Addr,
    name: &Name,
    out: &mut ArrayVec<u8, 576>,
) -> CallOutcome
    ensures { (number : ℕ) → NodeDoes node.old now (Event.NameStatus number to name.now) node.new (given_of result out.new.items) }
{
    match node.name_status(now, to, &name.lend(), out) {
        Ok(()) => CallOutcome::To(to),
        Err(fault) => CallOutcome::Refusal(fault.number()),
    }
}

/// A node sends what is due.
fn poll(node: &mut Node<SLOTS>, now: Moment, out: &mut ArrayVec<u8, 576>) -> CallOutcome
    requires { node.old.last ≤ now }
    ensures { (number : ℕ) → NodeDoes node.old now (Event.Poll number) node.new (given_of result out.new.items) }
{
    match node.poll(now, out) {
        Ok(Some(to)) => CallOutcome::To(to),
        Ok(None) => CallOutcome::Nothing,
        Err(_) => unreachable!(),
    }
}

/// A node does what an event says.
pub fn call_node(
    node: &mut Node<SLOTS>,
    server: Addr,
    now: Moment,
    event: &Event,
    out: &mut ArrayVec<u8, 576>,
) -> CallOutcome
    requires server { node.old.server ≡ server }
    requires time { node.old.last ≤ now }
    requires own { IsSome (number_in event.now) }
    ensures { NodeDoes node.old now event.now node.new (given_of result out.new.items) }
{
    match event {
        Event::Ask {
            name,
            kind,
            ttl,
            ..
        } => ask(node, server, now, name, *kind, *ttl, out),
        Event::Release { name, .. } => release(node, server, now, name, out),
        Event::Resolve { name, .. } => resolve(node, server, now, name, out),
        Event::NameStatus { to, name, .. } => name_status(node, now, *to, name, out),
        Event::Poll(_) => poll(node, now, out),
        _ => unreachable!(),
    }
}
