//! A name server that keeps its leases, over UDP, the system's clocks and its files.

ghost use Rattle.std.specs.Prelude.{◌≡◌, ◌≤◌, ◌⊎◌, Err, OnOk, IfErr, IfOk};
ghost use Rattle.nbt_nbns.specs.Servers.{EndsKept, EndsServer, FailsServer, KeptFails, RunsKept};

use crate::arguments::{NbnsArguments, ServerArguments, StateFolder};
use crate::opening::Locked;
use crate::resuming::{StartedServer, start};
use crate::running::{keep_over, run_nbns};
use nbt_front::{Desk, FrontFiles};
use nbt_port::{Ahead, Fault, UdpPorts, steady_clock, until_of};
use std::alloc::Global;
use std::fs::File;
use std::io::Write;
use std::net::Net;
use std::random::RandomSource;
use std::rt::Files;
use std::time;

/// Whose the folder of a server is.
#[derive(Clone, Copy, Debug, PartialEq, Eq)]
pub enum Folder {
    /// Its own, or it needs none.
    Own,
    /// Another server's, which has its lock.
    Held,
}

impl Folder {
    ghost use Rattle.nbt_nbns.specs.Servers.{folder_status};

    /// The exit status of a server that ended so: 6 where it didn't begin (our profile).
    pub fn status(self) -> u8
        ensures value { result ≡ folder_status self }
        ensures bound { result ≤ 6 }
    {
        match self {
            Folder::Own => 0,
            Folder::Held => 6,
        }
    }
}

/// Runs a name server on UDP ports of this system, over the monotonic clock. Without a state it is [`run_nbns`].
///
/// With one it binds the ports, locks the folder, reads the boot, the clocks and the file, and goes on with what was kept or begins
/// anew, as [`nbt_store::begin`] decides. It writes the file of its leases, prints where it serves, how many leases were kept, for how
/// long it is silent and why, and stays up as [`crate::keep_on`] does, by a clock that goes on over boots. Returns `Own` once its time is over.
/// Where another server has the lock it prints nothing, returns `Held`, and a line in `errors` says so. Refused as [`run_nbns`]; and with `Store` where the folder can't be used, read
/// or written at the start, or later: a line in `errors` says why.
pub fn run_server<M: Net + time::Clock + RandomSource + Files<File = File>, W: Write, E: Write>(
    machine: &M,
    alloc: Global,
    arguments: &ServerArguments,
    writer: &mut W,
    errors: &mut E,
) -> Result<Folder, Fault>
    ensures ok { IfOk result (λ folder. EndsServer arguments.now folder (W.contents writer.old) (W.contents writer.new)) }
    ensures err { IfErr result (λ why. FailsServer arguments.now why (W.contents writer.old) (W.contents writer.new)) }
{
    match &arguments.state {
        Some(state) => run_kept(machine, alloc, &arguments.nbns, state, writer, errors),
        None => match run_nbns(machine, alloc, &arguments.nbns, writer, errors) {
            Ok(()) => Ok(Folder::Own),
            Err(why) => Err(why),
        },
    }
}

/// Runs a name server that keeps its leases.
fn run_kept<M: Net + time::Clock + RandomSource + Files<File = File>, W: Write, E: Write>(
    machine: &M,
    alloc: Global,
    arguments: &NbnsArguments,
    state: &StateFolder,
    writer: &mut W,
    errors: &mut E,
) -> Result<Folder, Fault>
    ensures ok { IfOk result (λ folder. EndsKept arguments.now state.now folder (W.contents writer.old) (W.contents writer.new)) }
    ensures device { result ≡ Err Fault.Device → KeptFails arguments.now state.now Fault.Device (W.contents writer.old) (W.contents writer.new) }
    ensures store { result ≡ Err Fault.Store → (W.contents writer.new ≡ W.contents writer.old) ⊎ KeptFails arguments.now state.now Fault.Store (W.contents writer.old) (W.contents writer.new) }
    ensures port { result ≡ Err Fault.NoPort → W.contents writer.new ≡ W.contents writer.old }
    ensures clock { result ≡ Err Fault.NoClock → W.contents writer.new ≡ W.contents writer.old }
{
    let port = UdpPorts::bind(machine, alloc, &arguments.bind, errors)?;
    match Locked::lock(machine, alloc, state.path.as_str(), errors)? {
        Some(locked) => match run_locked(
            machine, alloc, arguments, state, port, locked, writer, errors,
        ) {
            Ok(()) => Ok(Folder::Own),
            Err(why) => Err(why),
        },
        None => Ok(Folder::Held),
    }
}

/// The same over a port that was bound, and a folder that was locked. Its front has a clock of its own that tells the times of the server's,
/// since the leases that stand in the way of fixed names end by those.
fn run_locked<'a, M: Net + time::Clock + RandomSource + Files<File = File>, W: Write, E: Write>(
    machine: &'a M,
    alloc: Global,
    arguments: &NbnsArguments,
    state: &'a StateFolder,
    port: UdpPorts<'_, M>,
    locked: Locked<'a, M>,
    writer: &mut W,
    errors: &mut E,
) -> Result<(), Fault>
    requires { port ≡ record { bind = arguments.now.bind; failures = 0 } }
    ensures ok { OnOk result (RunsKept arguments.now state.now (W.contents writer.old) (W.contents writer.new)) }
    ensures device { result ≡ Err Fault.Device → KeptFails arguments.now state.now Fault.Device (W.contents writer.old) (W.contents writer.new) }
    ensures store { result ≡ Err Fault.Store → (W.contents writer.new ≡ W.contents writer.old) ⊎ KeptFails arguments.now state.now Fault.Store (W.contents writer.old) (W.contents writer.new) }
    ensures port { result ≡ Err Fault.NoPort → W.contents writer.new ≡ W.contents writer.old }
    ensures clock { result ≡ Err Fault.NoClock → W.contents writer.new ≡ W.contents writer.old }
{
    let clock = steady_clock(machine, arguments.bind.first(), errors)?;
    let StartedServer { kept, standing } = start(
        machine, alloc, arguments, state, locked, &port, writer, errors,
    )?;
    let until = until_of(kept.server.last(), arguments.time);
    let by = kept.clock.by;
    let mut desk = Desk::new(alloc, &arguments.front, Ahead { clock, by });
    desk.keep(standing);
    let mut files = FrontFiles::new(machine, alloc, &arguments.front);
    keep_over(
        port,
        arguments.strict,
        desk,
        kept,
        &mut files,
        until,
        alloc,
        machine,
        writer,
        errors,
    )
}
