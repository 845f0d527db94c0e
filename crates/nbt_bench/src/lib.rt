//! `serve`, `node` and `loop` over this system's sockets, with fixed texts (RFC 1002 section 5): a name server, an end node,
//! and both kinds in one process.
//!
//! `loop` runs a name server and two end nodes, one after the other, through names, datagrams and sessions, as a new user may try
//! them. The server is at 127.0.0.1, the end nodes `n1` and `n2` at 127.0.0.2 and 127.0.0.3. It reads no clock of the machine: the
//! program counts the time itself.
#![tactic(auto)]

mod clock;
mod connection;
mod datagrams;
mod demo;
mod end_node;
mod listening_end;
mod names;
mod node;
mod outcome;
mod port;
mod ports;
mod serve;
mod sessions;

pub use demo::run_loop;
pub use node::{NodeArguments, run_node};
pub use ports::{FIRST_PORT_MOST, Ports};
pub use serve::{ServeArguments, run_server};
