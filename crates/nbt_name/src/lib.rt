//! NetBIOS names and their wire form (RFC 1001 section 14, RFC 1002 section 4.1).
//!
//! A name is sixteen octets and a scope. On the wire it is a label of 32 letters, the scope's labels and a closing
//! zero: at most 255 octets. In a packet a name may end in a pointer to a smaller place. The words and long words that
//! stand beside names in packets are read and put here too. No call takes memory.
#![tactic(auto)]

mod addr;
mod fault;
mod form;
mod labels;
pub mod laws;
mod lent;
mod name;
mod reader;
mod reading;
mod steps;
mod wire;
mod words;

pub use addr::{Addr, Kind};
pub use fault::{NameFault, NameFaultKind, NameRefusal};
pub use lent::{LentName, find_in, find_plain};
pub use name::Name;
pub use reading::{read_in, read_in_counted, read_plain};
pub use steps::Steps;
pub use words::{put_long, put_word, read_long, read_word};
