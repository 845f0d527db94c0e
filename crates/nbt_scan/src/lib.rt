//! Asks the hosts of a network for their names (RFC 1002 sections 4.2.17 and 4.2.18), over a port and a clock, or over UDP and the
//! system's clock, with the lines that it prints (our profile).
//!
//! A [`Plan`] says which addresses are asked, how fast and how often. [`scan_over`] asks them in passes and tells each reply in a line;
//! [`run_scan`] does so on this system. The lines are as
//!
//! ```text
//! 192.0.2.7        FILER            OFFICE           -                server  00:50:56:c0:00:08
//! ```
#![tactic(auto)]

mod acting;
mod addresses;
mod cells;
mod columns;
mod form;
mod hearing;
mod host;
mod hosts_line;
mod ids;
mod json;
pub mod laws;
mod lines;
mod meter;
mod names_below;
mod plan;
mod progress;
mod replied;
mod request;
mod running;
mod scan;
mod scanning;
mod sheet;
mod span;
mod spans;
mod status;
mod words;

pub use addresses::{ADDRESSES_MOST, are_ascending, place_of};
pub use form::{Form, Layout};
pub use host::{Host, Wanted, first_name};
pub use meter::Meter;
pub use plan::Plan;
pub use progress::{Progress, Step};
pub use replied::Replied;
pub use running::{run_scan, scan_over};
pub use scan::Scan;
pub use scanning::{TURNS_MOST, scan_all};
pub use sheet::{Kept, write_kept};
pub use span::Span;
pub use spans::{addresses_of, are_few};
pub use status::{Status, status_in};
pub use words::{SpanFault, span_of};
