//! A scan, turn by turn.

ghost use Rattle.std.specs.Prelude.{◌≡◌, ◌<◌, ◌≤◌, Err, OnOk, IsTrue, ◌↔◌, length};
ghost use Rattle.nbt_port.specs.PortCalls.{one_more};
ghost use Rattle.nbt_scan.specs.Plans.{IsPlan};
ghost use Rattle.nbt_scan.specs.Scanning.{Scans};
ghost use Rattle.nbt_scan.specs.Inner.Steps.{WasHeard, Went};

use crate::acting::act;
use crate::form::Layout;
use crate::hearing::{receive, take_from};
use crate::meter::Meter;
use crate::plan::Plan;
use crate::progress::Step;
use crate::scan::Scan;
use crate::sheet::{Kept, tell};
use arrayvec::ArrayVec;
use nbt_lease::Moment;
use nbt_port::{Clock, Fault, Port};
use std::io::Write;

/// The most turns, of which each waits for one datagram: more than come in the time that a scan has (our profile).
pub const TURNS_MOST: u64 = 1 << 40;

/// Asks the addresses of a plan. Turn after turn the clock is read; the request goes to the next address, if it is due and hasn't replied;
/// and the port receives once. Behind the last address, `wait` milliseconds after it was passed, the next pass begins. The first node
/// status response from each address that was asked counts, by its own id and from the port that was asked: it is printed, or kept. It is over where all have replied, or the wait of
/// the last pass is over. A request that the port fails to send is lost. Refused
/// with `Device` at the first receive that fails; with `Output` where a line can't be written;
/// with `Memory` where it is out of memory. `meter` says in `errors` how far it is; a line that is printed has the place of its own.
pub fn scan_all<P: Port, C: Clock, W: Write, E: Write>(
    port: &mut P,
    clock: &mut C,
    plan: &Plan,
    ids: &[u16],
    layout: Layout,
    scan: &mut Scan,
    kept: &mut Vec<Kept>,
    writer: &mut W,
    meter: &mut Meter,
    errors: &mut E,
) -> Result<(), Fault>
    requires plan { IsPlan plan.now }
    requires ids { length ids.now ≡ length plan.now.ips.items }
    requires flags { length scan.old.replied ≡ length plan.now.ips.items }
    ensures ok { OnOk result (Scans P.does C.tells plan.now ids.now layout
        (record { clock = clock.old; here = record { port = port.old; scan = scan.old; sheet = record { kept = kept.old.items; text = W.contents writer.old } } })
        (record { clock = clock.new; here = record { port = port.new; scan = scan.new; sheet = record { kept = kept.new.items; text = W.contents writer.new } } })) }
    // It is `Device` only where a call of the port failed.
    ensures failed { result ≡ Err Fault.Device → one_more (P.failures port.old) ≤ P.failures port.new }
    ensures least { P.failures port.old ≤ P.failures port.new }
{
    for _ in 0..TURNS_MOST {
        let now = clock.now();
        if scan.is_over(plan, now) {
            return Ok(());
        }
        meter.say(plan, scan, now, errors);
        turn(
            port, plan, ids, layout, now, scan, kept, writer, meter, errors,
        )?;
    }
    Ok(())
}

/// The calls of one turn.
fn turn<P: Port, W: Write, E: Write>(
    port: &mut P,
    plan: &Plan,
    ids: &[u16],
    layout: Layout,
    now: Moment,
    scan: &mut Scan,
    kept: &mut Vec<Kept>,
    writer: &mut W,
    meter: &mut Meter,
    errors: &mut E,
) -> Result<(), Fault>
    requires plan { IsPlan plan.now }
    requires ids { length ids.now ≡ length plan.now.ips.items }
    requires flags { length scan.old.replied ≡ length plan.now.ips.items }
    ensures ok { OnOk result (Went P.does plan.now ids.now layout now
        (record { port = port.old; scan = scan.old; sheet = record { kept = kept.old.items; text = W.contents writer.old } })
        (record { port = port.new; scan = scan.new; sheet = record { kept = kept.new.items; text = W.contents writer.new } })) }
    ensures flags { length scan.new.replied ≡ length scan.old.replied }
    ensures failed { result ≡ Err Fault.Device → one_more (P.failures port.old) ≤ P.failures port.new }
    ensures least { P.failures port.old ≤ P.failures port.new }
{
    let step = scan.progress.step_at(plan, now);
    act(port, step, plan, ids, now, scan);
    hear(
        port,
        waits(step),
        plan,
        ids,
        layout,
        scan,
        kept,
        writer,
        meter,
        errors,
    )
}

/// Whether nothing is to be done yet, so that a receive may wait.
fn waits(step: Step) -> bool
    ensures { IsTrue result ↔ (step ≡ Step.Wait) }
{
    matches!(step, Step::Wait)
}

/// Receives once, and tells the reply that came, if one did.
fn hear<P: Port, W: Write, E: Write>(
    port: &mut P,
    waits: bool,
    plan: &Plan,
    ids: &[u16],
    layout: Layout,
    scan: &mut Scan,
    kept: &mut Vec<Kept>,
    writer: &mut W,
    meter: &mut Meter,
    errors: &mut E,
) -> Result<(), Fault>
    requires plan { IsPlan plan.now }
    requires ids { length ids.now ≡ length plan.now.ips.items }
    requires flags { length scan.old.replied ≡ length plan.now.ips.items }
    ensures ok { OnOk result (WasHeard P.does plan.now ids.now layout
        (record { port = port.old; scan = scan.old; sheet = record { kept = kept.old.items; text = W.contents writer.old } })
        (record { port = port.new; scan = scan.new; sheet = record { kept = kept.new.items; text = W.contents writer.new } })) }
    ensures flags { length scan.new.replied ≡ length scan.old.replied }
    ensures failed { result ≡ Err Fault.Device → P.failures port.new ≡ one_more (P.failures port.old) }
    ensures least { P.failures port.old ≤ P.failures port.new }
{
    let mut octets = ArrayVec::new();
    let from = receive(port, waits, &mut octets)?;
    let progress = scan.progress;
    let replied = &mut scan.replied;
    match take_from(plan, ids, progress, from, octets.as_slice(), replied) {
        Some(heard) => {
            meter.hide(errors);
            tell(layout, &heard, kept, writer)
        }
        None => Ok(()),
    }
}
