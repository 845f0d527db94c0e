//! What a name server says of itself as text (our profile): the lines of its log, with the words that a host's lines share; the list of its
//! live leases; the names of its hosts, for a resolver; and its statistics, for Prometheus. All of it is made of values: no port, clock
//! or file is read.
//!
//! ```text
//! 2026-11-24T09:12:03Z granted FILER#20 192.0.2.7 unique 300 s
//! 2026-11-24T09:12:04Z refused FILER#20 192.0.2.8 unique from 192.0.2.8:137: another has it: 192.0.2.7 (6)
//! 2026-11-24T09:12:05Z malformed from 192.0.2.9:137: 12 octets
//! 2026-11-24T09:12:06Z .. 37 more malformed
//! ```
#![tactic(auto)]

mod casing;
mod dates;
mod draft;
mod entry;
mod gauges;
mod health;
mod hosts;
mod leases;
mod limiter;
mod limiters;
mod line;
mod metrics;
mod origin;
mod stats;
mod summary;
mod tally;
mod time;

pub use casing::FixedCapitals;
pub use dates::Dates;
pub use draft::{Draft, Listing, PART_MOST};
pub use entry::{Entry, LineKind};
pub use gauges::{Gauges, measure};
pub use health::Health;
pub use hosts::HOSTS_HEAD;
pub use leases::{LIST_HEAD, may_replace};
pub use limiter::{LINES_MOST, Limiter};
pub use limiters::Limiters;
pub use line::{write_entry, write_reason, write_seconds};
pub use origin::Origin;
pub use stats::{Figures, STATS_HEAD, write_stats};
pub use summary::write_summary;
pub use tally::{OutcomeCounts, RefusalCounts, Tally};
pub use time::write_time;
