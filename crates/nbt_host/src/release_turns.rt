//! Names are given back, turn by turn.

ghost use Rattle.std.specs.Prelude.{◌≡◌, OnOk, OnErr};
ghost use Rattle.std.specs.List.{list_any};
ghost use Rattle.nbt_port.specs.PortCalls.{CountsFailure};
ghost use Rattle.nbt_host.specs.Releases.{is_open};
ghost use Rattle.nbt_host.specs.ReleaseTurns.{Releases, Breaks, Fails};
ghost use Rattle.nbt_host.specs.Inner.ReleaseSteps.{Went};

use crate::release::Release;
use crate::release_hearing::hear;
use crate::release_sending::send_due;
use nbt_lease::Moment;
use nbt_name::Addr;
use nbt_port::{Clock, Device, Port};

/// The most turns, of which each waits for one datagram: more than come in the time that the releases have (our profile).
pub const TURNS_MOST: u64 = 1 << 40;

/// Gives names back. Turn after turn the clock is read; the request of each name that is due is sent to `server`, for a node at the
/// address `own`; and the port receives once. A name is due at first, and again each 5,000 ms, up to its third sending (RFC 1002 section
/// 6), while no reply came for it: a datagram of the server with its request's id and its name. It is over at a time at which each
/// name has a reply, or 5,000 ms have passed since its third sending; and after `most` turns. Refused with `Device` at the first call
/// of the port that fails: nothing follows it, and what is known of the names is in `releases`.
pub fn release_all<P: Port, C: Clock>(
    port: &mut P,
    clock: &mut C,
    server: Addr,
    own: u32,
    releases: &mut [Release],
    most: u64,
) -> Result<(), Device>
    ensures ok { OnOk result (Releases P.does C.tells server own most
        (record { clock = clock.old; here = record { port = port.old; releases = releases.old } }) (record { clock = clock.new; here = record { port = port.new; releases = releases.new } })) }
    ensures err { OnErr result (Breaks P.does C.tells server own most
        (record { clock = clock.old; here = record { port = port.old; releases = releases.old } }) (record { clock = clock.new; here = record { port = port.new; releases = releases.new } })) }
    // It is refused exactly where the port's count of failures grew.
    ensures device { CountsFailure (P.failures port.old) (P.failures port.new) result }
{
    for _ in 0..most {
        let now = clock.now();
        if !is_any_open(releases, now) {
            return Ok(());
        }
        go(port, server, own, now, releases)?;
    }
    Ok(())
}

/// The calls of one turn.
fn go<P: Port>(
    port: &mut P,
    server: Addr,
    own: u32,
    now: Moment,
    releases: &mut [Release],
) -> Result<(), Device>
    ensures ok { OnOk result (Went P.does server own now (record { port = port.old; releases = releases.old }) (record { port = port.new; releases = releases.new })) }
    ensures err { OnErr result (Fails P.does server own now (record { port = port.old; releases = releases.old }) (record { port = port.new; releases = releases.new })) }
    ensures device { CountsFailure (P.failures port.old) (P.failures port.new) result }
{
    send_due(port, server, own, now, releases)?;
    hear(port, server, releases)
}

/// Whether a name is open.
fn is_any_open(releases: &[Release], now: Moment) -> bool
    ensures { result ≡ list_any (is_open now) releases.now }
{
    releases.iter().any(|release| release.is_open(now))
}
