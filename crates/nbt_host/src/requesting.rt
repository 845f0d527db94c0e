//! The requests of a host about its names, one a name.

ghost use Rattle.std.specs.Prelude.{◌≡◌, List, [], ◌∷◌, ℕ, Option, Some, None, IfOk, OnOk, OnErr, if◌then◌else◌};
ghost use Rattle.nbt_port.specs.PortCalls.{PortCall, send_failed, route_to, Chain, CountsFailure};
ghost use Rattle.nbt_host.specs.Hosting.{sending_to, Requests, RequestsAll, BreaksRequests};

use crate::goal::{Goal, Stage};
use arrayvec::ArrayVec;
use nbt_lease::Moment;
use nbt_name::Addr;
use nbt_node::Node;
use nbt_port::{Device, Port, Route};

/// Leaves in `out` the request about one name, if there is one. Returns whether there is.
fn request_for<const N: usize>(
    node: &mut Node<N>,
    now: Moment,
    goal: &Goal,
    out: &mut ArrayVec<u8, 576>,
) -> bool
    ensures { Requests now node.old goal.now (if result then Some out.new.items else None) node.new }
{
    let name = &goal.want.name;
    match goal.stage {
        Stage::Wanted if !goal.may_ask(now) => false,
        Stage::Wanted => node
            .ask(now, &name.lend(), goal.want.kind, goal.want.ttl, out)
            .is_ok(),
        _ => node.release(now, &name.lend(), out).is_ok(),
    }
}

/// Sends the request about one name, if there is one.
fn request<P: Port, const N: usize>(
    port: &mut P,
    node: &mut Node<N>,
    server: Addr,
    now: Moment,
    goal: &Goal,
    out: &mut ArrayVec<u8, 576>,
) -> Result<(), Device>
    ensures ok { OnOk result ((request : Option (List ℕ)) × Requests now node.old goal.now request node.new × Chain P.does port.old (sending_to (route_to server) request) port.new) }
    ensures err { OnErr result ((octets : List ℕ) × Requests now node.old goal.now (Some octets) node.new × P.does port.old (send_failed (route_to server) octets) port.new) }
    ensures device { CountsFailure (P.failures port.old) (P.failures port.new) result }
{
    if !request_for(node, now, goal, out) {
        return Ok(());
    }
    port.send(Route::to(server), out.as_slice())
}

/// Sends the request about each name that has one, in the list's order. Refused with `Device` at the first sending that fails:
/// no other follows.
pub fn request_all<P: Port, const N: usize>(
    port: &mut P,
    node: &mut Node<N>,
    server: Addr,
    now: Moment,
    goals: &[Goal],
    out: &mut ArrayVec<u8, 576>,
) -> Result<(), Device>
    ensures ok { OnOk result ((acts : List PortCall) × RequestsAll server now node.old goals.now acts node.new × Chain P.does port.old acts port.new) }
    ensures err { OnErr result ((acts : List PortCall) × BreaksRequests server now node.old goals.now acts node.new × Chain P.does port.old acts port.new) }
    ensures device { CountsFailure (P.failures port.old) (P.failures port.new) result }
{
    for goal in goals {
        request(port, node, server, now, goal, out)?;
    }
    Ok(())
}
