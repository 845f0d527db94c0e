//! Names are given back over UDP and the system's monotonic clock.

ghost use Rattle.std.specs.Prelude.{◌≡◌, ◌<◌, ◌^◌, IfOk, OnOk, OnErr, Err};
ghost use Rattle.std.specs.Io.KnownBytes.{Appends};
ghost use Rattle.nbt_host.specs.Releases.{fresh_all};
ghost use Rattle.nbt_host.specs.ReleaseRunning.{ReleasesOver, ReleasesHere};

use crate::outcomes::{are_confirmed, write_outcomes};
use crate::release::Release;
use crate::release_turns::{TURNS_MOST, release_all};
use nbt_client::{Want, random_id};
use nbt_name::Addr;
use nbt_port::{
    Cause, Clock, Fault, MachineCall, Port, UdpPort, own_not_bound, print, steady_clock,
    tell_end_of,
};
use std::alloc::{AllocError, Global};
use std::io::Write;
use std::net::Net;
use std::random::RandomSource;
use std::{io, time};

/// Gives names back from a UDP port of this system, over its monotonic clock, and prints a line for each, as [`write_outcomes`] does.
/// `bind` is the host's own address and port: while the host runs it can't be bound, and nothing is sent. Returns whether the server
/// confirmed of each name that it isn't leased any more. The ids begin at one that nobody can guess. Refused: `NoPort` where the port can't
/// be bound, or the system gives no such id; then `NoClock` where the clock
/// can't be read; `Device` at the first call of the port that fails, as where a request has no route, and nothing is printed then; `Output` where a line can't be written;
/// `Memory` where it is out of memory. Of each but the last two a line in `errors` says which call of the system failed, for which
/// address, and why; a failure to write it is ignored.
pub fn run_release<M: Net + time::Clock + RandomSource, W: Write, E: Write>(
    machine: &M,
    alloc: Global,
    bind: Addr,
    server: Addr,
    wants: &[Want],
    writer: &mut W,
    errors: &mut E,
) -> Result<bool, Fault>
    ensures ok { IfOk result (λ all. ReleasesHere bind server wants.now all (W.contents writer.old) (W.contents writer.new)) }
{
    let mut port = host_port(machine, bind, errors)?;
    let first_id = random_id(machine, errors)?;
    let mut clock = steady_clock(machine, bind, errors)?;
    let released = release_over(
        &mut port, &mut clock, alloc, bind, server, first_id, wants, writer,
    );
    tell_end_of(released.err(), port.cause(), errors);
    released
}

/// The port of the host, of which a request without a route is a failure. Refused as `nbt_port::own_port` refuses it; where the address is in
/// use, the line says that a host runs there.
fn host_port<M: Net, E: Write>(machine: &M, addr: Addr, errors: &mut E) -> Result<UdpPort, Fault>
    ensures ok { IfOk result (λ port. port ≡ record { addr = addr; failures = 0 }) }
{
    match UdpPort::bind(machine, addr) {
        Ok(mut port) => {
            port.be_strict();
            Ok(port)
        }
        Err(error) if error.kind() == io::ErrorKind::AddrInUse => {
            Cause::new(MachineCall::Bind, addr, error).tell(": a host runs there", errors);
            Err(Fault::NoPort)
        }
        Err(error) => Err(own_not_bound(addr, error, errors)),
    }
}

/// Gives names back over a port and a clock, with ids from the first on, and prints a line for each. Refused as [`run_release`] is.
pub fn release_over<P: Port, C: Clock, W: Write>(
    port: &mut P,
    clock: &mut C,
    alloc: Global,
    bind: Addr,
    server: Addr,
    first_id: u16,
    wants: &[Want],
    writer: &mut W,
) -> Result<bool, Fault>
    ensures ok { IfOk result (λ all. ReleasesOver P.does C.tells bind server first_id wants.now all port.old clock.old (W.contents writer.old) port.new clock.new (W.contents writer.new)) }
{
    let mut releases = releases_of(alloc, wants, u64::from(first_id))?;
    release_all(port, clock, server, bind.ip, &mut releases, TURNS_MOST)?;
    let mut text = String::new(alloc);
    write_outcomes(releases.as_slice(), &mut text)?;
    print(text.as_str(), writer).map_err(|_| Fault::Output)?;
    Ok(are_confirmed(releases.as_slice()))
}

/// What is known of names before a request was sent.
fn releases_of(alloc: Global, wants: &[Want], number: u64) -> Result<Vec<Release>, AllocError>
    requires { number < 2 ^ 62 }
    ensures { IfOk result (λ releases. releases.items ≡ fresh_all number wants.now) }
{
    let mut releases = Vec::new(alloc);
    for (i, want) in wants.iter().enumerate() {
        releases.push(Release::new(want, number + i as u64))?;
    }
    Ok(releases)
}
