//! The replies to a scan.

ghost use Rattle.std.specs.Prelude.{◌≡◌, ◌≢◌, Ok, Err, OnOk, length};
ghost use Rattle.nbt_port.specs.PortCalls.{receiving, CountsFailure};
ghost use Rattle.nbt_scan.specs.Plans.{IsPlan};
ghost use Rattle.nbt_scan.specs.Scanning.{Hears};
ghost use Rattle.nbt_scan.specs.Inner.Steps.{reply_in};

use crate::addresses::place_of;
use crate::plan::Plan;
use crate::progress::Progress;
use crate::replied::Replied;
use crate::status::status_in;
use arrayvec::ArrayVec;
use nbt_port::{Device, Port, Route};

/// A reply: whose, its names, and the statistics behind them.
#[derive(Clone, Copy)]
pub struct Heard<'a> {
    /// The address.
    pub ip: u32,
    /// The names of 18 octets each.
    pub names: &'a [u8],
    /// The statistics.
    pub statistics: &'a [u8],
}

/// Receives once: waits for a datagram, or takes one that has come already.
pub fn receive<P: Port>(
    port: &mut P,
    waits: bool,
    octets: &mut ArrayVec<u8, 2048>,
) -> Result<Option<Route>, Device>
    ensures does { P.does port.old (receiving result octets.new.items) port.new }
    ensures device { CountsFailure (P.failures port.old) (P.failures port.new) result }
{
    if waits {
        return port.receive(octets);
    }
    port.receive_now(octets)
}

/// Takes a datagram, if one came: the first reply of each address of the list counts, from the port that was asked, by the id of that
/// address, and not before it was asked.
pub fn take_from<'a>(
    plan: &Plan,
    ids: &[u16],
    progress: Progress,
    from: Option<Route>,
    octets: &'a [u8],
    replied: &mut Replied,
) -> Option<Heard<'a>>
    requires plan { IsPlan plan.now }
    requires ids { length ids.now ≡ length plan.now.ips.items }
    requires flags { length replied.old ≡ length plan.now.ips.items }
    ensures hears { Hears plan.now ids.now progress replied.old (receiving (Ok from) octets.now) (reply_in result) replied.new }
    ensures flags { length replied.new ≡ length replied.old }
{
    let Some(from) = from else {
        return None;
    };
    if from.peer.port != plan.port {
        return None;
    }
    let Some(place) = place_of(plan.ips.as_slice(), from.peer.ip) else {
        return None;
    };
    if !progress.has_passed(plan, place) {
        return None;
    }
    if replied.has(place) {
        return None;
    }
    let Some(status) = status_in(octets, ids[place]) else {
        return None;
    };
    replied.mark(place);
    Some(Heard {
        ip: from.peer.ip,
        names: status.names,
        statistics: status.statistics,
    })
}
