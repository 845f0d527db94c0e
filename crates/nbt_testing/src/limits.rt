//! The usual limits.

use nbt_lease::{Config, ConfigFault, Moment};
use nbt_server::Server;

/// The life of a datagram 1,000 ms, the longest lease 60 s.
pub fn config(rows: usize) -> Result<Config, ConfigFault> {
    Config::new(1000, 60, rows)
}

/// A server that starts at this millisecond, with room for so many rows.
pub fn started<R: AllocGlobal>(rt: &R, rows: usize, start: u64) -> Option<Server> {
    Some(Server::start(rt.alloc(), config(rows).ok()?, Moment::new(start)?))
}
