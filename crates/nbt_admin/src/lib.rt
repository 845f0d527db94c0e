//! The commands for people who run a network, `lookup`, `status`, `nbns`, `host`, `release` and `scan` (our profile).
//!
//! [`run`] reads the arguments whose texts `nbt_args` found, runs the command on this machine, prints its output, and returns the status.
#![tactic(auto)]

mod asking;
mod binding;
mod failure;
mod first_line;
mod fronting;
mod hosting;
mod journal_writer;
mod letters;
mod lossy;
mod naming;
mod other_lists;
mod reading;
mod reason;
mod running;
mod scanning;
mod serving;
mod spans;
mod statuses;
mod timing;

pub use asking::{AskArguments, HostAsked, lookup_arguments, status_requests};
pub use failure::{ArgumentFault, BadArgument, BadLine, BadNetworks, Complaint, Failure};
pub use first_line::FirstLineWriter;
pub use hosting::{NAMES_MOST, host_arguments, release_arguments};
pub use journal_writer::{JournalWriter, Lines};
pub use lossy::LossyWriter;
pub use other_lists::OtherList;
pub use running::{check, run};
pub use scanning::{ScanArguments, scan_arguments};
