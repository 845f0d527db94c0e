//! What stands before a name server: which senders may register, and names that are always there, for machines that never register
//! (our profile; WINS calls these names static mappings).
//!
//! A [`Front`] decides of a datagram, or leaves it to the server. A [`FrontPort`] asks it of each datagram that the port beneath
//! receives, sends the replies of those that it decides, and hands on all others as they are. So a server over it never sees a
//! datagram that the front decides.
#![tactic(auto)]

mod deciding;
mod desk;
mod fault;
mod files;
mod fixed;
pub mod laws;
mod line;
mod names;
mod network;
mod network_file;
mod port;
mod reading;
mod renewal;
mod standing;
mod telling;

pub use deciding::{Decision, Front};
pub use desk::Desk;
pub use fault::{FileFault, LineFault, Refused};
pub use files::{FrontFiles, FrontSource, octets_in};
pub use fixed::{ADDRS_MOST, Fixed};
pub use line::{FixedLine, kind_in, take_line};
pub use names::{FixedNames, NAMES_MOST};
pub use network::{Network, ip_in, read_network};
pub use network_file::{NETWORKS_MOST, NetworkFault, NetworksFault, read_networks};
pub use port::FrontPort;
pub use reading::read_fixed;
pub use standing::Standing;
