//! All ends of a network as one value, moved by events: a name server, its nodes, what each reads of the true clock, and
//! the datagrams between them, which may be lost, repeated, late and out of order (RFC 1001 section 15). Each world keeps
//! what the safety of names rests on: sound leases, requests that have ended, replies that are fresh, and claims that
//! leases cover. So in no world along a run up to which the clocks were timely do two nodes hold one name, unless both as a
//! group: no clock was ahead of the true one by more than one part in a thousand and a millisecond, and no node's behind.
#![tactic(auto)]

mod clocks;
mod ends;
mod event;
pub mod laws;
mod network;
mod node_call;
mod world;

pub use clocks::Clocks;
pub use ends::Holder;
pub use event::{Event, OutOfMemory, Outcome};
pub use network::Datagram;
pub use node_call::SLOTS;
pub use world::{Addrs, World};
