//! NetBIOS sessions over TCP (RFC 1002 section 4.3): the stream of packets, the caller and the listener.
#![tactic(auto)]

mod body;
mod caller;
mod coming;
mod event;
mod fault;
mod header;
pub mod laws;
mod listener;
mod packet;
mod part;
mod pieces;
mod stream;
mod writing;

pub use caller::{Caller, CallerAnswer, Failure};
pub use event::Event;
pub use fault::{EncodeFault, Fault, FaultKind, StreamFault};
pub use listener::{Entry, Full, Listener, ListenerAnswer};
pub use packet::Packet;
pub use part::Part;
pub use pieces::Pieces;
pub use stream::Stream;
pub use writing::encode;
