//! A name server over a port and a clock, turn by turn (RFC 1002 section 5.1.4). One that keeps its leases over a crash (our profile) has a
//! store too: its replies leave only once what they rest on is durable, many at one sync.
//!
//! A [`SambaPort`] has Samba's requests come as registrations (our profile). nmbd registers the names of its machine by OPCODE 15,
//! as a machine with several addresses does; RFC 1002 section 4.2.1.1 doesn't list that OPCODE. The server of Samba's domain
//! controllers registers its groups with RD clear, which is an overwrite (RFC 1002 section 4.2.3). Both become registrations (RFC
//! 1002 section 4.2.2) by one octet of their flags.
#![tactic(auto)]

mod asking;
mod changing;
mod fault;
pub mod laws;
mod looking;
mod needing;
mod samba;
mod samba_port;
mod serving;
mod share;
mod turning;
mod waiting;

pub use changing::change_of;
pub use fault::KeepFault;
pub use looking::{list_live, look_after};
pub use samba::take_registration;
pub use samba_port::SambaPort;
pub use serving::{Counts, ServedTurn, serve_turn, serve_turns};
pub use share::Share;
pub use turning::keep_turn;
pub use waiting::{BATCH, REACH, Reply, Sent, Unsynced, Waiting};
