//! Names and addresses out of the files of other programs, as a file of fixed names, and the list of a name server's leases for people
//! and for programs (our profile).
//!
//! [`Import`] takes what a `wins.dat`, an `lmhosts`, the output of nbtscan or a list of leases says, and gives a file for `nbns --fixed`.
//! [`read_list`] reads a list of leases, of which [`write_table`] and [`write_objects`] print each row. All of it is made of octets and
//! of values: no file or clock is read.
#![tactic(auto)]

mod import;
pub mod laws;
mod left;
mod list;
mod lmhosts;
mod naming;
mod nbtscan;
mod objects;
mod reason;
mod source;
mod table;
mod wins;

pub use import::{Added, Import, ImportFault, REMARKS_MOST};
pub use list::{ListFault, Row, read_list};
pub use objects::write_objects;
pub use source::Source;
pub use table::write_table;
