//! The requests that are due.

ghost use Rattle.std.specs.Prelude.{◌≡◌, OnOk, OnErr, true, false};
ghost use Rattle.std.specs.List.{list_any};
ghost use Rattle.nbt_packet.specs.Text.{text};
ghost use Rattle.nbt_port.specs.PortCalls.{send_failed, route_to, CountsFailure};
ghost use Rattle.nbt_host.specs.Releases.{request, is_due};
ghost use Rattle.nbt_host.specs.ReleaseTurns.{Fails};
ghost use Rattle.nbt_host.specs.Inner.ReleaseSteps.{SendsOne, Reached};

use crate::release::Release;
use arrayvec::ArrayVec;
use nbt_lease::Moment;
use nbt_name::Addr;
use nbt_packet::write;
use nbt_port::{Device, Port, Route};

/// Sends the request of each name that is due, in the list's order. Refused with `Device` at the first sending that fails: no other
/// follows.
pub fn send_due<P: Port>(
    port: &mut P,
    server: Addr,
    own: u32,
    now: Moment,
    releases: &mut [Release],
) -> Result<(), Device>
    ensures ok { OnOk result (Reached P.does server own now (record { port = port.old; releases = releases.old }) (record { port = port.new; releases = releases.new })) }
    ensures all { OnOk result (list_any (is_due now) releases.new ≡ false) }
    ensures err { OnErr result (Fails P.does server own now (record { port = port.old; releases = releases.old }) (record { port = port.new; releases = releases.new })) }
    ensures device { CountsFailure (P.failures port.old) (P.failures port.new) result }
{
    for release in releases.iter_mut() {
        send_one(port, server, own, now, release)?;
    }
    Ok(())
}

/// Sends the request of a name, if it is due.
fn send_one<P: Port>(
    port: &mut P,
    server: Addr,
    own: u32,
    now: Moment,
    release: &mut Release,
) -> Result<(), Device>
    ensures ok { OnOk result (SendsOne P.does server own now port.old release.old port.new release.new) }
    ensures err { OnErr result ((is_due now release.old ≡ true) × P.does port.old (send_failed (route_to server) (text (request own release.old))) port.new × (release.new ≡ release.old)) }
    ensures device { CountsFailure (P.failures port.old) (P.failures port.new) result }
{
    if !release.is_due(now) {
        return Ok(());
    }
    let mut out = ArrayVec::new();
    write(&release.request(own), &mut out);
    port.send(Route::to(server), out.as_slice())?;
    release.sent_at(now);
    Ok(())
}
