//! The words in which rows of tests are written: packets by their pieces, the usual limits, and ports and clocks in memory. A crate
//! for tests alone.
#![tactic(auto)]

mod limits;
mod memory;
mod packets;
mod pieces;

pub use limits::{config, started};
pub use memory::{RoutedRow, Row, clock, port, routed_port, sent_all, sent_by_routes};
pub use packets::{
    EVERY_KIND, FIRST, FOUND, GRANTED, NOT_FOUND, QUERY, REFRESH, REFUSED, REGISTRATION, RELEASE,
    RIVAL, SECOND, one_of_many, registration_of_many,
};
pub use pieces::octets;
