//! Packets, datagrams, sessions and replies as text (our profile).
//!
//! `write_packet`, `write_dgram`, `write_session` and `write_verdicts` have the fixed texts of `show` and `check`. `write_reply`
//! has what the commands that run a network print of a reply: an address a line as `192.0.2.7 unique`, or why there is none;
//! a node's names, a line each, as `FILER#20 unique active  file server`. `explain_packet`, `explain_dgram` and
//! `explain_session` have the words of `show --explain`, and `read_digits` HEX as people copy it. Octets and lines come in, and
//! texts go out, most at the end of a `String`.
#![tactic(auto)]

mod dgram_text;
mod digits;
mod explain;
mod holders;
mod node_status;
mod packet_text;
mod rcode;
mod reply;
mod session_packet;
mod session_text;
mod vector;
mod verdicts;

pub use dgram_text::write_dgram;
pub use digits::read_digits;
pub use explain::{explain_dgram, explain_packet, explain_session};
pub use holders::kind_word;
pub use node_status::write_name_line;
pub use packet_text::write_packet;
pub use rcode::rcode_words;
pub use reply::{Reply, statistics_of, write_reply};
pub use session_text::write_session;
pub use verdicts::write_verdicts;
