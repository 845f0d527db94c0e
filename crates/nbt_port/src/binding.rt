//! UDP ports of this system.

ghost use Rattle.std.specs.Prelude.{◌≡◌, IfOk, IfErr};
ghost use Rattle.nbt_port.specs.Faults.{fault_of_bind, IsNotBound};

use crate::cause::{Cause, MachineCall};
use crate::fault::Fault;
use crate::udp::UdpPort;
use nbt_name::Addr;
use std::io;
use std::io::Write;
use std::net::Net;

/// The UDP port at this address of the system. Where it can't be bound, a line in `errors` says why, and it is refused as
/// [`not_bound`] says: `NoPort`, or `Memory`.
pub fn bound_port<M: Net, E: Write>(
    machine: &M,
    addr: Addr,
    errors: &mut E,
) -> Result<UdpPort, Fault>
    ensures ok { IfOk result (λ port. port ≡ record { addr = addr; failures = 0 }) }
    ensures err { IfErr result IsNotBound }
{
    match UdpPort::bind(machine, addr) {
        Ok(port) => Ok(port),
        Err(error) => Err(not_bound(addr, error, errors)),
    }
}

/// The same for a command that takes `--bind`: where the system keeps the port for privileged programs, a second line in `errors` says what to do.
pub fn own_port<M: Net, E: Write>(machine: &M, addr: Addr, errors: &mut E) -> Result<UdpPort, Fault>
    ensures ok { IfOk result (λ port. port ≡ record { addr = addr; failures = 0 }) }
    ensures err { IfErr result IsNotBound }
{
    let bound = UdpPort::bind(machine, addr);
    match bound {
        Ok(own) => Ok(own),
        Err(error) => Err(own_not_bound(addr, error, errors)),
    }
}

/// Why its socket can't be bound, as [`not_bound`] says, with that second line.
pub fn own_not_bound<E: Write>(addr: Addr, error: io::Error, errors: &mut E) -> Fault
    ensures value { result ≡ fault_of_bind error }
    ensures either { IsNotBound result }
{
    let fault = not_bound(addr, error, errors);
    Cause::new(MachineCall::Bind, addr, error).advise(errors);
    fault
}

/// Why no socket can be bound to this address: `Memory` where the system is out of memory, else `NoPort`. A line in `errors`
/// says so; a failure to write it is ignored.
pub fn not_bound<E: Write>(addr: Addr, error: io::Error, errors: &mut E) -> Fault
    ensures value { result ≡ fault_of_bind error }
    ensures either { IsNotBound result }
{
    Cause::new(MachineCall::Bind, addr, error).tell("", errors);
    match error.kind() {
        io::ErrorKind::OutOfMemory => Fault::Memory,
        _ => Fault::NoPort,
    }
}

/// The address that a port really has, where the system reports it; else the one that was asked for.
pub fn local_of(port: &UdpPort) -> Addr {
    port.local().unwrap_or(port.addr())
}
