//! Asking machines which addresses they have, for a name server that knows machines with several addresses (our profile; the
//! questions and answers are those of RFC 1002 sections 4.2.12, 4.2.13 and 4.2.16). `nbt nbns` doesn't use it yet.
//!
//! Where an address asks for a unique name that another address leases, the server asks the holder, at the address of its lease:
//! a [`Machine`] is what its own response lists. [`Waits`] has the requests that wait for such an answer or for a lease's end, and
//! the inquiries under way; [`outcome_of`] says what comes of each answer; [`FurtherAddresses`] has the addresses that were
//! confirmed, each put by a [`Confirmed`], which a machine alone gives. Times and octets are arguments, and so are the ids, which
//! the caller draws at random. No call has a table of leases among its arguments, so none changes one: leases begin, are renewed
//! and end by the server's rules alone.
#![tactic(auto)]

mod deciding;
mod further;
mod inquiry;
pub mod laws;
mod machine;
mod outcome;
mod request;
mod response;
mod waits;
mod wire;

pub use deciding::{asks_first, held_back, request_of};
pub use further::{FURTHER_MOST, Further, FurtherAddresses, NAME_MOST, Put};
pub use inquiry::{Inquiry, NAME_PORT, Way, write_inquiry};
pub use machine::{Confirmed, Machine};
pub use outcome::{Answer, Outcome, outcome_of};
pub use request::{Awaits, Came, Request, wait_seconds, write_wait};
pub use waits::{CLIENT_MOST, GAP, Pending, QUERIES, Served, Silence, Taken, WAITS_MOST, Waits};
