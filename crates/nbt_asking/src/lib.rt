//! The port of a name server that asks machines which addresses they have, and what is done between two of its turns (our profile).
//!
//! The server and its turns are as ever. New is a port before it, [`AskingPort`], and what that port does between two turns,
//! [`AskingPort::attend`]. The port sets responses of machines that were asked aside, and requests of which the sender is asked first: these
//! come to the server once it may handle them. A refusal of a unique name that another address leases doesn't leave, since the request waits
//! for what the holder says. A reply to a query has the further addresses of the holder's machine. Between two turns it looks at the
//! server's table, and changes none of it.
#![tactic(auto)]

mod desk;
mod flags;
mod ids;
pub mod laws;
mod notes;
mod port;
mod sending;

pub use desk::Desk;
pub use flags::{FlagsPort, TellsFlags};
pub use ids::{Ids, MemoryIds};
pub use notes::Notes;
pub use port::AskingPort;
