//! Which addresses of its machine a server serves.

use nbt_name::Addr;

/// Which addresses of its machine a server serves.
#[derive(Debug, Drop)]
pub enum Bind {
    /// These. For port 0 the system chooses one. 0.0.0.0 stands for all of them, by one socket.
    To(Vec<Addr>),
    /// Each IPv4 address that the machine has while the server runs, at this port.
    Every(u16),
}

impl Bind {
    /// The address that stands for them in a line that names one: the first, or 0.0.0.0 for all of them.
    pub fn first(&self) -> Addr {
        match self {
            Bind::To(addresses) => match addresses.as_slice() {
                [first, ..] => *first,
                [] => anywhere(0),
            },
            Bind::Every(port) => anywhere(*port),
        }
    }
}

/// 0.0.0.0 at this port.
pub(crate) fn anywhere(port: u16) -> Addr {
    Addr { ip: 0, port }
}
