//! A name server for point-to-point nodes (RFC 1001 section 15.1, RFC 1002 section 5.1.4). The standard calls it NBNS;
//! others call it WINS.
//!
//! A [`Server`] is a value. It handles each datagram with the time at which it came, writes the reply into the caller's
//! buffer, and returns what it did. It opens no socket and reads no clock.
#![tactic(auto)]

mod fault;
pub mod laws;
mod outcome;
mod server;
mod serving;

pub use fault::{ResumeFault, ServerFault};
pub use outcome::{Claim, Outcome, Refusal};
pub use server::Server;
