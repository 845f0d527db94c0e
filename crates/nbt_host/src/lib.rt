//! A host: a node that is to hold the names of a list and answers for them (RFC 1002 sections 5.1.2 and 4.2.13), over a port
//! and a clock, or over UDP and the system's clocks, with the lines that it prints (our profile).
//!
//! A [`Goal`] is a wanted name with what its host keeps of it. [`host_turn`] registers and refreshes the names, takes what comes and
//! answers queries for what is held; a [`Watch`] tells it where the machine slept, after which the host starts again;
//! [`give_back`] releases all names. These take no memory, but what a port may take. [`Host`] prints what each turn showed:
//!
//! ```text
//! host 192.0.2.7:137 asks 192.0.2.1:137 for 2 names
//! 2026-11-24T09:12:03Z granted FILER#20 300 s
//! 2026-11-24T09:12:03Z refused FILER#00: held by another (6)
//! 2026-11-24T09:12:03Z asks again for FILER#00 after 5 s, 10 s .. at most 5 min
//! ```
//!
//! A host may have several servers, which are addresses of one table. It asks one of them. Where that one is silent for as long as a lease
//! may be, the host is as one whose machine crashed and started, and asks the next ([`Asked`]).
//!
//! A [`Release`] is a name that a host which has ended left at its server (RFC 1002 sections 4.2.9 to 4.2.11). [`release_all`] sends
//! the requests and takes the replies; [`write_outcomes`] prints what came of each name; [`run_release`] does both on this system, at
//! the address and the port of the host, which therefore doesn't run beside it:
//!
//! ```text
//! released FILER#20
//! refused FILER#00: held by another (6)
//! no reply for WORKGROUP#00
//! ```
#![tactic(auto)]

mod arguments;
mod asked;
mod begin;
mod event;
mod goal;
mod hearing;
mod host;
pub mod laws;
mod news;
mod noting;
mod outcomes;
mod release;
mod release_hearing;
mod release_lines;
mod release_running;
mod release_sending;
mod release_turns;
mod releasing;
mod requesting;
mod running;
mod sleeping;
mod turn_lines;
mod turning;
mod watching;

pub use arguments::HostArguments;
pub use asked::{Asked, Noted, TRIED};
pub use begin::write_begin;
pub use event::{Event, write_event};
pub use goal::{Goal, Refusal, Stage};
pub use host::{Host, Shown};
pub use news::News;
pub use outcomes::{are_confirmed, write_outcomes};
pub use release::Release;
pub use release_lines::write_endings;
pub use release_running::{release_over, run_release};
pub use release_turns::{TURNS_MOST, release_all};
pub use releasing::{GIVING_BACK, give_back};
pub use running::{host_over, run_host};
pub use sleeping::{Clocks, Reading, SLEEP, TwoClocks};
pub use turn_lines::{has_lines, write_change, write_turn};
pub use turning::host_turn;
pub use watching::{Look, Watch, WatchedClocks};
