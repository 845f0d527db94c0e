//! Endpoints and limits as C passes them.

ghost use Rattle.std.specs.Prelude.{◌≡◌};
ghost use Rattle.nbt_c.specs.Ends.{kind_number};

use nbt_name::{Addr, Kind};

/// An endpoint as C passes it: a 32-bit address and a port, in the machine's byte order.
#[repr(C)]
#[derive(Clone, Copy)]
pub struct CAddr {
    /// The 32-bit address.
    pub ip: u32,
    /// The UDP or TCP port.
    pub port: u16,
}

impl CAddr {
    ghost use Rattle.nbt_c.specs.Ends.{addr_of, addr_for};

    pub(crate) fn addr(self) -> Addr
        ensures { result ≡ addr_of self }
    {
        Addr {
            ip: self.ip,
            port: self.port,
        }
    }

    pub(crate) fn of(addr: Addr) -> CAddr
        ensures { result ≡ addr_for addr }
    {
        CAddr {
            ip: addr.ip,
            port: addr.port,
        }
    }
}

/// The limits as C passes them: a call that is given them tests them.
#[repr(C)]
#[derive(Clone, Copy)]
pub struct CConfig {
    /// The greatest life of one datagram, 1 to 60,000 milliseconds.
    pub life: u64,
    /// The longest lease, 1 to 1,000,000 seconds.
    pub longest: u32,
    /// The most live leases of a server, 1 to 4,096.
    pub rows: u32,
}

/// 1 as one machine's, 2 as a group's.
pub(crate) fn kind_number(kind: Kind) -> u8
    ensures { result ≡ kind_number kind }
{
    match kind {
        Kind::Unique => 1,
        Kind::Group => 2,
    }
}
