//! An end node of the name service: it registers names, holds, refreshes and releases them, looks up names, and replies to
//! status requests (RFC 1001 section 15, RFC 1002 section 5.1). No call allocates memory.
#![tactic(auto)]

mod answering;
mod asking;
mod event;
mod fault;
pub mod laws;
mod lookup;
mod node;
mod polling;
mod replies;
mod settling;
mod slots;
mod standing;
mod state;
mod status;
mod transaction;
mod waiting;

pub use answering::{asks_names, reply_to};
pub use event::Event;
pub use fault::{AskFault, ClockBack, LookupFault, ReleaseFault};
pub use node::Node;
pub use standing::Standing;
pub use transaction::RETRY_TIMEOUT;
