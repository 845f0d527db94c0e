//! NetBIOS datagrams (RFC 1001 section 17, RFC 1002 sections 4.4 and 5.3). No call allocates memory.
#![tactic(auto)]

mod accepting;
mod decoding;
mod dgram;
mod fault;
mod joined;
mod joiner;
mod known;
pub mod laws;
mod msg_type;
mod outcome;
mod reassembly;
mod slot;
mod slots;
mod splitting;
mod writing;

pub use accepting::accept;
pub use decoding::decode;
pub use dgram::{Body, Dgram, Fragment, Names, Part};
pub use fault::{DgramFault, DgramFaultKind, Full, TooLong};
pub use joined::{Dropped, Joined};
pub use joiner::Joiner;
pub use msg_type::{Delivery, Lookup, MsgType};
pub use outcome::Accept;
pub use reassembly::Reassembly;
pub use splitting::{Fragments, split};
pub use writing::encode;
