//! A scan over UDP and the system's monotonic clock.

ghost use Rattle.std.specs.Prelude.{◌≡◌, ◌≢◌, ◌≤◌, false, ℕ, List, Ok, Err, IfOk, OnOk, length};
ghost use Rattle.std.specs.Io.KnownBytes.{Appends};
ghost use Rattle.nbt_port.specs.PortCalls.{one_more};
ghost use Rattle.nbt_scan.specs.Plans.{IsPlan};
ghost use Rattle.nbt_scan.specs.Running.{ScansOver, ScansHere};
ghost use Rattle.nbt_scan.specs.Sheets.{PrintsKept};

use crate::form::Layout;
use crate::ids::random_ids;
use crate::meter::Meter;
use crate::plan::Plan;
use crate::scan::Scan;
use crate::scanning::scan_all;
use crate::sheet::{Kept, write_kept};
use nbt_name::Addr;
use nbt_port::{Cause, Clock, Fault, Port, UdpPort, bound_port, print, steady_clock, tell_end_of};
use std::alloc::Global;
use std::io::Write;
use std::net::Net;
use std::random::RandomSource;
use std::{io, time};

/// Asks the addresses of a plan from a UDP port of this system, over its monotonic clock, and prints the hosts that reply. `bind` is the
/// own address; for 0.0.0.0:0 the system chooses both. Where `shows`, a line in `errors` says once a second how far it is, and is hidden
/// at the end. Returns whether any host replied. A request that has no route, or that
/// the system refuses to send, is lost; of the latter a line in `errors` says how many there were, and why the last was. If there were
/// none, and the last request to the first address had no route, a line there says so. Refused:
/// `NoPort` where the port can't be bound, or the system gives no random octets for the ids; then `NoClock` where the clock can't be read; then as [`scan_over`] is. Of each but `Memory` and
/// `Output` a line in `errors` says which call of the system failed, for which address, and why; a failure to write it is ignored.
pub fn run_scan<M: Net + time::Clock + RandomSource, W: Write, E: Write>(
    machine: &M,
    alloc: Global,
    bind: Addr,
    plan: &Plan,
    layout: Layout,
    shows: bool,
    writer: &mut W,
    errors: &mut E,
) -> Result<bool, Fault>
    requires { IsPlan plan.now }
    ensures ok { IfOk result (λ any. ScansHere bind plan.now layout any (W.contents writer.old) (W.contents writer.new)) }
{
    let mut port = bound_port(machine, bind, errors)?;
    let ids = random_ids(machine, alloc, plan.ips.len(), errors)?;
    let mut clock = steady_clock(machine, bind, errors)?;
    watch_first(&mut port, plan);
    let mut meter = Meter::new(shows);
    let scanned = scan_over(
        &mut port,
        &mut clock,
        alloc,
        plan,
        ids.as_slice(),
        layout,
        writer,
        &mut meter,
        errors,
    );
    meter.hide(errors);
    tell_end_of(scanned.err(), port.cause(), errors);
    if scanned.is_ok() {
        tell_lost(&port, errors);
    }
    scanned
}

/// From now on the port keeps why the last request to the first address was lost, if it was.
fn watch_first(port: &mut UdpPort, plan: &Plan)
    ensures { port.new ≡ port.old }
{
    if let Some(ip) = plan.ips.first() {
        port.watch(Addr {
            ip: *ip,
            port: plan.port,
        });
    }
}

/// Says how many requests were lost since the port failed, if any were, and why the last was. If none was, it says why the last one to the
/// first address had no route, if it had none. A failure to write it is ignored.
fn tell_lost<E: Write>(port: &UdpPort, errors: &mut E) {
    match port.cause() {
        Some(cause) => {
            let _ = write_lost(port.failures(), cause, errors);
        }
        None => {
            if let Some(cause) = port.lost() {
                cause.tell("", errors);
            }
        }
    }
}

fn write_lost<E: Write>(count: u64, cause: Cause, errors: &mut E) -> io::Result<()> {
    writeln!(
        errors,
        "nbt: {count} requests were not sent, the last since {cause}"
    )?;
    errors.flush()
}

/// Asks the addresses of a plan over a port and a clock, each by its id, and prints the hosts that reply: each at once, or at the end by
/// address. Returns whether any host replied. A request that the port fails to send is
/// lost. `meter` says in `errors` how far it is. Refused with `Device` at the first receive that fails, and at the end where no host replied and a request was lost so; with `Output` where a line can't be written; with `Memory` where it is out of memory.
pub fn scan_over<P: Port, C: Clock, W: Write, E: Write>(
    port: &mut P,
    clock: &mut C,
    alloc: Global,
    plan: &Plan,
    ids: &[u16],
    layout: Layout,
    writer: &mut W,
    meter: &mut Meter,
    errors: &mut E,
) -> Result<bool, Fault>
    requires plan { IsPlan plan.now }
    requires ids { length ids.now ≡ length plan.now.ips.items }
    ensures ok { IfOk result (λ any. ScansOver P.does C.tells plan.now ids.now layout any port.old clock.old (W.contents writer.old) port.new clock.new (W.contents writer.new)) }
    // It is `Device` only where a call of the port failed, and where one did, a host replied.
    ensures failed { result ≡ Err Fault.Device → one_more (P.failures port.old) ≤ P.failures port.new }
    ensures lost { result ≡ Ok false → P.failures port.new ≡ P.failures port.old }
{
    let failures = port.failures();
    let now = clock.now();
    let mut scan = Scan::begin(alloc, plan, now)?;
    let mut kept = Vec::new(alloc);
    scan_all(
        port, clock, plan, ids, layout, &mut scan, &mut kept, writer, meter, errors,
    )?;
    meter.hide(errors);
    print_kept(alloc, &mut kept, writer)?;
    let any = scan.replied.is_any();
    if !any && failures < port.failures() {
        return Err(Fault::Device);
    }
    Ok(any)
}

/// Prints the lines that were kept, by address.
fn print_kept<W: Write>(alloc: Global, kept: &mut Vec<Kept>, writer: &mut W) -> Result<(), Fault>
    ensures ok { OnOk result ((lines : List ℕ) × PrintsKept kept.old.items lines × Appends (W.contents writer.old) (W.contents writer.new) lines) }
    ensures port { result ≢ Err Fault.Device }
{
    let mut text = String::new(alloc);
    write_kept(kept, &mut text)?;
    match print(text.as_str(), writer) {
        Ok(()) => Ok(()),
        Err(_) => Err(Fault::Output),
    }
}
