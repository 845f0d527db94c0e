//! What is sent by the port beneath: where that fails, a datagram was lost.

ghost use Rattle.std.specs.Prelude.{◌≡◌};
ghost use Rattle.nbt_port.specs.PortCalls.{Chain};
ghost use Rattle.nbt_waits.specs.Doing.{sent};
ghost use Rattle.nbt_asking.specs.Attending.{TriesToSend, datagrams, query};
ghost use Rattle.nbt_asking.specs.Desk.{route_of};

use crate::desk::by_route;
use nbt_confirm::{Came, NAME_PORT, Way};
use nbt_name::Addr;
use nbt_port::{Port, Route};
use nbt_waits::Leaving;

/// Sends a query on its way.
pub(crate) fn send_query<P: Port>(beneath: &mut P, way: Way, octets: &[u8])
    ensures { TriesToSend P.does beneath.old (query way octets.now) beneath.new }
{
    let _ = beneath.send(to_way(way), octets);
}

/// Sends a reply to a request that came so.
pub(crate) fn send_back<P: Port>(beneath: &mut P, came: Came, octets: &[u8])
    ensures { TriesToSend P.does beneath.old (record { route = route_of came; octets = octets.now }) beneath.new }
{
    let _ = beneath.send(by_route(came), octets);
}

/// Sends a reply, if there is one.
pub(crate) fn leave<P: Port>(beneath: &mut P, leaving: Option<Leaving>, octets: &[u8])
    ensures { Chain (TriesToSend P.does) beneath.old (datagrams (sent leaving octets.now)) beneath.new }
{
    let Some(leaving) = leaving else {
        return;
    };
    let to = Route {
        peer: leaving.to,
        local: leaving.local,
    };
    let _ = beneath.send(to, octets);
    if let Some(way) = leaving.also {
        let _ = beneath.send(to_way(way), octets);
    }
}

/// To the port of the name service.
fn to_way(way: Way) -> Route
    ensures { result ≡ record { peer = record { ip = way.asked; port = 137 }; local = way.local } }
{
    Route {
        peer: Addr {
            ip: way.asked,
            port: NAME_PORT,
        },
        local: way.local,
    }
}
