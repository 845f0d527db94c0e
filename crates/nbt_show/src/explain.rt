//! The same octets in the words that Wireshark uses, part by part, and why a packet spells no message: what `show --explain`
//! prints after its fixed lines (our profile).
//!
//! Only people read these words, so no contract says them: runs of `nbt_cases` hold each word for word.

mod dgram;
mod name;
mod naming;
mod rows;
mod sentence;
mod server;
mod session;
mod words;

pub use dgram::explain_dgram;
pub use name::explain_packet;
pub use session::explain_session;
