//! NetBIOS name service packets and the messages that they spell (RFC 1002 section 4.2). No call takes memory.
#![tactic(auto)]

mod classifying;
mod decoding;
mod fault;
pub mod flags;
pub mod laws;
mod message;
mod packet;
mod reading;
mod reason;
mod wire;
mod writing;

pub use classifying::{classify, try_classify};
pub use decoding::decode;
pub use fault::{Fault, FaultKind, Full};
pub use message::{Message, Registration};
pub use packet::{Packet, Question, Record};
pub use reading::read;
pub use reason::Reason;
pub use writing::{encode, entries_most, entry_octets, status_name_octets, write};
