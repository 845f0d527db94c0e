//! Ports and clocks: UDP and the system's clocks, the same over memory, why a call of the system failed, and how a server or a
//! host stays up when its port fails (our profile).
//!
//! A [`Port`] receives and sends datagrams, and a [`Clock`] tells the time. All above is the same over UDP and the system's
//! clocks as over memory.
#![tactic(auto)]

mod ahead;
mod bind;
mod binding;
mod cause;
mod clock;
mod fault;
pub mod laws;
mod limits;
mod machine_addresses;
mod memory;
mod monotonic;
mod port;
mod printing;
mod sockets;
mod staying;
mod time_of_day;
mod udp;
mod udp_ports;
mod until;

pub use ahead::{Ahead, ahead_of};
pub use bind::Bind;
pub use binding::{bound_port, local_of, not_bound, own_not_bound, own_port};
pub use cause::{Cause, MachineCall};
pub use clock::Clock;
pub use fault::Fault;
pub use limits::{FOREVER, MOST_FAILURES};
pub use machine_addresses::own_addresses;
pub use memory::{Datagram, MemoryClock, MemoryPort};
pub use monotonic::{Monotonic, SteadyClock, steady_clock};
pub use port::{Device, OwnReplies, Port, Route};
pub use printing::{not_printed, print};
pub use staying::{Turn, Turned, stay_up, tell_end_of};
pub use time_of_day::{MachineClock, readable_clock};
pub use udp::{RECEIVE_WAIT, UdpPort};
pub use udp_ports::{LOOK_WAIT, UdpPorts};
pub use until::{is_over, until_of};
