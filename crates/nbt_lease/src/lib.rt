//! Names that are leased for a time: times, the limits that server and nodes share, and the name server's table of leases.
//!
//! A lease is a name's address, kind and expiry. It lives until its expiry, and no longer at it. Only `Table::grant`,
//! `Table::restore`, `Table::make_room` and `Table::list_rows` take memory.
#![tactic(auto)]

mod both;
mod boxed_name;
mod by_name;
mod config;
mod ends;
mod fault;
mod index;
pub mod laws;
mod lease;
mod looks;
mod members;
mod moment;
mod named;
mod restoring;
mod standing;
mod table;
mod tally;

pub use config::{Config, LARGE_ROWS_MOST, LIFE_MOST, LONGEST_MOST, ROWS_MOST};
pub use fault::{ConfigFault, GrantFault, RestoreFault};
pub use lease::{Grant, Lease, Released};
pub use looks::Looks;
pub use members::Members;
pub use moment::Moment;
pub use table::Table;
