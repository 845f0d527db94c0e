//! What a scan does at a moment.

ghost use Rattle.std.specs.Prelude.{◌≡◌, ◌<◌, ◌≤◌, length};
ghost use Rattle.nbt_scan.specs.Plans.{IsPlan};
ghost use Rattle.nbt_scan.specs.Sheets.{Sheet};
ghost use Rattle.nbt_scan.specs.Inner.Steps.{Acted};

use crate::plan::Plan;
use crate::progress::Step;
use crate::request::write_request;
use crate::scan::Scan;
use arrayvec::ArrayVec;
use nbt_lease::Moment;
use nbt_name::Addr;
use nbt_port::{Port, Route};

/// Does what a moment asks for: sends the request to the next address, by its id, unless that has replied; or begins the next pass; or nothing. A
/// request that the port fails to send is lost.
pub fn act<P: Port>(
    port: &mut P,
    step: Step,
    plan: &Plan,
    ids: &[u16],
    now: Moment,
    scan: &mut Scan,
)
    requires plan { IsPlan plan.now }
    requires ids { length ids.now ≡ length plan.now.ips.items }
    requires flags { length scan.old.replied ≡ length plan.now.ips.items }
    requires place { step ≡ Step.Ask → scan.old.progress.place < length plan.now.ips.items }
    requires left { step ≡ Step.Again → 0 < scan.old.progress.left }
    ensures acts { (sheet : Sheet) → Acted P.does plan.now ids.now now step (record { port = port.old; scan = scan.old; sheet = sheet }) (record { port = port.new; scan = scan.new; sheet = sheet }) }
    ensures flags { scan.new.replied ≡ scan.old.replied }
    ensures least { P.failures port.old ≤ P.failures port.new }
{
    match step {
        Step::Ask => ask(port, plan, ids, now, scan),
        Step::Again => scan.progress.go_again(now),
        Step::Wait | Step::Over => {}
    }
}

/// Sends the request to the next address, unless that has replied.
fn ask<P: Port>(port: &mut P, plan: &Plan, ids: &[u16], now: Moment, scan: &mut Scan)
    requires plan { IsPlan plan.now }
    requires ids { length ids.now ≡ length plan.now.ips.items }
    requires flags { length scan.old.replied ≡ length plan.now.ips.items }
    requires place { scan.old.progress.place < length plan.now.ips.items }
    ensures acts { (sheet : Sheet) → Acted P.does plan.now ids.now now Step.Ask (record { port = port.old; scan = scan.old; sheet = sheet }) (record { port = port.new; scan = scan.new; sheet = sheet }) }
    ensures flags { scan.new.replied ≡ scan.old.replied }
    ensures least { P.failures port.old ≤ P.failures port.new }
{
    let place = scan.progress.place;
    if scan.replied.has(place) {
        scan.progress.go_past(now);
        return;
    }
    let to = Addr {
        ip: plan.ips[place],
        port: plan.port,
    };
    let mut request = ArrayVec::new();
    write_request(ids[place], &mut request);
    let _ = port.send(Route::to(to), request.as_slice());
    scan.progress.go_past(now);
}
