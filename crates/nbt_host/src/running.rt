//! A host over UDP and the system's clocks.

ghost use Rattle.std.specs.Prelude.{◌≡◌, Err, IfOk, IfErr};
ghost use Rattle.nbt_host.specs.Running.{HostsOver, HostOverEnds, HostOverFails, HostsHere, HostFailsHere};

use crate::arguments::HostArguments;
use crate::host::Host;
use crate::sleeping::Clocks;
use crate::watching::{Watch, WatchedClocks};
use nbt_client::random_id;
use nbt_name::Addr;
use nbt_port::{
    Clock, Fault, Port, local_of, own_port, readable_clock, steady_clock, tell_end_of, until_of,
};
use std::alloc::Global;
use std::io::Write;
use std::net::Net;
use std::random::RandomSource;
use std::time;

/// Runs a host on a UDP port of this system, over the monotonic clock and its time of day. It first prints which host asks
/// which server for how many names, the first of several, and then holds them until its time is over, and goes on when the port fails, as
/// [`Host::stay`] does; then it releases them. Its ids begin at one that nobody can guess. Returns whether all were held when its time was
/// over. Refused: `NoPort` where the port can't be bound, or the system gives no such number; `NoClock` where a clock can't be read at first; `Device` at the hundredth turn in a row that fails,
/// and at the first failure while the names are released; `Output` where a line can't be written; `Memory` where it is out of
/// memory. Of each but the last a line in `errors` says what failed, and why: which call of the system, for which address, or the
/// output. Where a request to the first server has no route, a line there says so once, and another when it has one again.
pub fn run_host<M: Net + time::Clock + RandomSource, W: Write, E: Write>(
    machine: &M,
    alloc: Global,
    arguments: &HostArguments,
    writer: &mut W,
    errors: &mut E,
) -> Result<bool, Fault>
    ensures ok { IfOk result (λ all. HostsHere arguments.now all (W.contents writer.old) (W.contents writer.new)) }
    ensures device { result ≡ Err Fault.Device → HostFailsHere arguments.now Fault.Device (W.contents writer.old) (W.contents writer.new) }
{
    let mut port = own_port(machine, arguments.bind, errors).map_err(|_| Fault::NoPort)?;
    let salt = random_id(machine, errors)?;
    let steady = steady_clock(machine, arguments.bind, errors)?;
    let day = readable_clock(machine, arguments.bind, errors)?;
    port.watch(arguments.server);
    let at = local_of(&port);
    let watch = WatchedClocks {
        clocks: Clocks { steady, day },
        anchor: None,
        salt,
    };
    host_over(
        &mut port, watch, alloc, at, arguments, machine, writer, errors,
    )
}

/// Runs a host over a port and its machine's clocks, as [`run_host`] does. `at` is the address that the first line tells. Where the port
/// failed for good, a line in `errors` says why, if the port knows it.
pub fn host_over<P: Port, K: Clock + Watch + Drop, M: time::Clock, W: Write, E: Write>(
    port: &mut P,
    watch: K,
    alloc: Global,
    at: Addr,
    arguments: &HostArguments,
    machine: &M,
    writer: &mut W,
    errors: &mut E,
) -> Result<bool, Fault>
    ensures ok { IfOk result (λ all. HostsOver P.does K.tells K.looks at arguments.now all port.old watch (W.contents writer.old) port.new (W.contents writer.new)) }
    ensures device { result ≡ Err Fault.Device → HostOverFails P.does K.tells K.looks at arguments.now Fault.Device port.old watch (W.contents writer.old) port.new (W.contents writer.new) }
    ensures err { IfErr result (λ fault. HostOverEnds P.does K.tells K.looks at arguments.now fault port.old watch (W.contents writer.old) port.new (W.contents writer.new)) }
{
    let mut host = Host::start(alloc, watch, arguments)?;
    host.tell_begin(at, arguments.server, writer, errors)?;
    let until = until_of(host.last().at, arguments.time);
    let ran = host.run(port, arguments, until, machine, writer, errors);
    tell_end_of(ran.err(), port.cause(), errors);
    ran
}
