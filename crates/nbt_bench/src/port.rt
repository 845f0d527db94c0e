//! The UDP port of `serve` and `node`.

ghost use Rattle.std.specs.Prelude.{◌≡◌, IfOk, IfErr};

use nbt_name::Addr;
use nbt_port::{Fault, UdpPort};
use std::io::Write;
use std::net::Net;

/// The port at an address of this system, as [`nbt_port::bound_port`] binds it. Where it can't be bound it is `NoPort`, also when out
/// of memory: `serve` and `node` print `device` for each.
pub fn bound_port<M: Net, E: Write>(
    machine: &M,
    addr: Addr,
    errors: &mut E,
) -> Result<UdpPort, Fault>
    ensures ok { IfOk result (λ port. port ≡ record { addr = addr; failures = 0 }) }
    ensures err { IfErr result (λ fault. fault ≡ Fault.NoPort) }
{
    match nbt_port::bound_port(machine, addr, errors) {
        Ok(port) => Ok(port),
        Err(_) => Err(Fault::NoPort),
    }
}
