//! A node over a port and a clock, turn by turn (RFC 1002 sections 5.1.2, 4.2.12 and 4.2.17): names that it registers, and lookups,
//! with the text of how one came out (our profile).
//!
//! [`node_turn`] registers a name and holds it. [`look_up`] sends its question at once: a node that has started rests before it
//! registers a name, and not before it looks one up. [`ask`] starts a node for one lookup and prints how it came out, and
//! [`ask_here`] does so over UDP.
#![tactic(auto)]

mod answer;
mod asking;
mod ids;
pub mod laws;
mod lookup;
mod lookup_turn;
mod over_udp;
mod patience;
mod question;
mod turning;

pub use answer::Answer;
pub use asking::ask;
pub use ids::{random_id, random_octets};
pub use lookup::{Ending, look_up};
pub use over_udp::ask_here;
pub use patience::{TRIES_MOST, TRY, patience_of};
pub use question::Question;
pub use turning::{SLOTS, Seen, Want, node_turn, poll_all};
