//! A name server over UDP, the system's clocks and its files.

ghost use Rattle.std.specs.Prelude.{◌≡◌, Err, OnOk, IfErr};
ghost use Rattle.nbt_port.specs.Numbers.{forever};
ghost use Rattle.nbt_port.specs.Staying.{StaysUntil, EndsEarly};
ghost use Rattle.nbt_port.specs.Udp.{PortsValue};
ghost use Rattle.nbt_front.specs.FrontPort.{Fronted};
ghost use Rattle.nbt_nbns.specs.Running.{PortDoes, PortFailures, RunsNbns, NbnsFails};
ghost use Rattle.nbt_nbns.specs.Renewing.{RenewsOn, RenewsPort};
ghost use Rattle.nbt_nbns.specs.Staying.{BreaksStaying, CutsStaying, HasRoom, WatchesLast};
ghost use Rattle.nbt_nbns.specs.Inner.Starting.{staying_of};
ghost use Rattle.nbt_nbns.specs.declared.starting.Started.{Started as Begun};
ghost use Rattle.nbt_serve.specs.declared.fault.KeepFault.TheVariants as fault;

use crate::arguments::NbnsArguments;
use crate::renewing::{NotesFixed, Renewable, keep_renewed};
use crate::starting::{Started, start};
use crate::staying::Watcher;
use nbt_front::{Desk, FrontFiles, FrontPort, FrontSource};
use nbt_lease::Moment;
use nbt_port::{Clock, Fault, Port, UdpPorts, steady_clock, tell_end_of, until_of};
use nbt_serve::SambaPort;
use nbt_store::Store;
use std::alloc::Global;
use std::io::Write;
use std::net::Net;
use std::random::RandomSource;
use std::rt::Files;
use std::time;

/// Runs a name server on UDP ports of this system, over the monotonic clock. It first prints where it serves, for how long it is silent
/// and until when, and then stays up for 2^61 turns or until its time is over, also where the port fails, as [`crate::keep_on`] does. It logs
/// to `writer`, and keeps the list of its leases, its hosts and its statistics in files, where the arguments say so. Refused: `NoPort`
/// where a port can't be bound, as [`UdpPorts::bind`] has it; `NoClock` where a clock can't be read at first; `Memory` where it is out of
/// memory before the first line; `Output` where one of these files is none that may be replaced, and then nothing is printed, or where
/// the first line can't be written; `Device` at the hundredth turn in a row that fails. Of each but `Memory` a line in `errors` says what
/// failed, and why. A failure to write to `errors` is ignored.
pub fn run_nbns<M: Net + time::Clock + RandomSource + Files, W: Write, E: Write>(
    machine: &M,
    alloc: Global,
    arguments: &NbnsArguments,
    writer: &mut W,
    errors: &mut E,
) -> Result<(), Fault>
    ensures ok { OnOk result (RunsNbns arguments.now (W.contents writer.old) (W.contents writer.new)) }
    ensures device { result ≡ Err Fault.Device → NbnsFails arguments.now (W.contents writer.old) (W.contents writer.new) }
    ensures port { result ≡ Err Fault.NoPort → W.contents writer.new ≡ W.contents writer.old }
    ensures clock { result ≡ Err Fault.NoClock → W.contents writer.new ≡ W.contents writer.old }
    ensures memory { result ≡ Err Fault.Memory → W.contents writer.new ≡ W.contents writer.old }
{
    let port = UdpPorts::bind(machine, alloc, &arguments.bind, errors)?;
    let clock = steady_clock(machine, arguments.bind.first(), errors)?;
    let started = start(machine, alloc, arguments, &port, writer, errors)?;
    let until = until_of(started.server.last(), arguments.time);
    let desk = Desk::new(alloc, &arguments.front, clock);
    let mut files = FrontFiles::new(machine, alloc, &arguments.front);
    keep_over(
        port,
        arguments.strict,
        desk,
        started,
        &mut files,
        until,
        alloc,
        machine,
        writer,
        errors,
    )
}

/// Keeps a server up until it ends, over this port as it is where that is `strict`, else over one on which Samba's registrations
/// come as registrations, and behind this front.
pub(crate) fn keep_over<
    F: Clock + Drop,
    S: Store + Drop,
    C: Clock + Drop,
    D: Clock + Drop,
    V: Watcher + NotesFixed + Drop,
    R: FrontSource,
    M: Net + time::Clock + Files,
    W: Write,
    E: Write,
>(
    port: UdpPorts<'_, M>,
    strict: bool,
    desk: Desk<'_, F>,
    started: Started<S, C, D, V>,
    source: &mut R,
    until: Option<Moment>,
    alloc: Global,
    machine: &M,
    writer: &mut W,
    errors: &mut E,
) -> Result<(), Fault>
    requires room { HasRoom started.state }
    ensures ok { OnOk result ((last_port : Fronted PortsValue) × (last : Begun S C D V) × StaysUntil (RenewsOn (PortDoes strict) PortFailures RenewsPort S.does C.tells D.tells V.sees V.notes until)
        (BreaksStaying (PortDoes strict) S.does C.tells fault.Port) (WatchesLast (PortDoes strict) PortFailures S.does C.tells D.tells V.sees until) forever
        (staying_of (record { port = port.entry; desk = desk.entry }) started (W.contents writer.old)) (staying_of last_port last (W.contents writer.new))) }
    ensures err { IfErr result (λ why. (last_port : Fronted PortsValue) × (last : Begun S C D V) × EndsEarly (RenewsOn (PortDoes strict) PortFailures RenewsPort S.does C.tells D.tells V.sees V.notes until)
        (BreaksStaying (PortDoes strict) S.does C.tells fault.Port) (CutsStaying (PortDoes strict) PortFailures S.does C.tells D.tells V.sees) forever why
        (staying_of (record { port = port.entry; desk = desk.entry }) started (W.contents writer.old)) (staying_of last_port last (W.contents writer.new))) }
{
    let mut started = started;
    if strict {
        let port = FrontPort::new(port, desk);
        keep_to_its_end(
            port,
            &mut started,
            source,
            until,
            alloc,
            machine,
            writer,
            errors,
        )
    } else {
        let port = FrontPort::new(SambaPort::new(port), desk);
        keep_to_its_end(
            port,
            &mut started,
            source,
            until,
            alloc,
            machine,
            writer,
            errors,
        )
    }
}

/// Keeps a server up until it ends, as [`keep_renewed`] does. Where the port failed for good, a line in `errors` says why.
fn keep_to_its_end<
    P: Port + Renewable + Drop,
    S: Store,
    C: Clock,
    D: Clock,
    V: Watcher + NotesFixed,
    R: FrontSource,
    M: time::Clock,
    W: Write,
    E: Write,
>(
    port: P,
    started: &mut Started<S, C, D, V>,
    source: &mut R,
    until: Option<Moment>,
    alloc: Global,
    machine: &M,
    writer: &mut W,
    errors: &mut E,
) -> Result<(), Fault>
    requires room { HasRoom started.old.state }
    ensures ok { OnOk result ((last : P) × StaysUntil (RenewsOn P.does P.failures P.renews S.does C.tells D.tells V.sees V.notes until) (BreaksStaying P.does S.does C.tells fault.Port)
        (WatchesLast P.does P.failures S.does C.tells D.tells V.sees until) forever (staying_of port started.old (W.contents writer.old)) (staying_of last started.new (W.contents writer.new))) }
    ensures err { IfErr result (λ why. (last : P) × EndsEarly (RenewsOn P.does P.failures P.renews S.does C.tells D.tells V.sees V.notes until) (BreaksStaying P.does S.does C.tells fault.Port)
        (CutsStaying P.does P.failures S.does C.tells D.tells V.sees) forever why (staying_of port started.old (W.contents writer.old)) (staying_of last started.new (W.contents writer.new))) }
{
    let mut port = port;
    let ended = keep_renewed(
        &mut port,
        &mut started.clock,
        &mut started.server,
        &mut started.state,
        &mut started.day,
        &mut started.journal,
        source,
        until,
        alloc,
        machine,
        writer,
        errors,
    );
    tell_end_of(ended.err(), port.cause(), errors);
    ended
}
