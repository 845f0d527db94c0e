//! What a host makes of what came.

ghost use Rattle.std.specs.Prelude.{◌≡◌, List, [], ◌∷◌, ℕ, Some, Ok, IfOk, OnOk, OnErr};
ghost use Rattle.nbt_packet.specs.Message.{message_if};
ghost use Rattle.nbt_node.specs.Moves.{told_of};
ghost use Rattle.nbt_port.specs.declared.port.Route.{Route as RouteValue};
ghost use Rattle.nbt_port.specs.PortCalls.{PortCall, send_failed, receiving, Chain, CountsFailure};
ghost use Rattle.nbt_node.specs.Answering.{sent_back};
ghost use Rattle.nbt_host.specs.Hosting.{sending_to, doubting, HostHears, LosesReply};

use crate::news::{Notice, doubted, notice_of};
use arrayvec::ArrayVec;
use nbt_lease::Moment;
use nbt_name::{Addr, Name};
use nbt_node::{Event, Node, reply_to};
use nbt_packet::{Message, read};
use nbt_port::{Device, Port, Route};

/// The node handles a datagram, if one came, and what there is to say is sent by the datagram's own route. A name of which the server says
/// unasked that it is refused or released is refreshed as soon as it may be, where it is held: the datagram may be late or forged, so its
/// hold goes on as it was, and the reply to the refresh decides. Returns what the datagram says of a name.
pub fn hear<P: Port, const N: usize>(
    port: &mut P,
    node: &mut Node<N>,
    server: Addr,
    now: Moment,
    from: Option<Route>,
    octets: &[u8],
    out: &mut ArrayVec<u8, 576>,
) -> Result<Option<Notice>, Device>
    ensures ok { IfOk result (λ notice. (acts : List PortCall) × HostHears server now node.old (receiving (Ok from) octets.now ∷ acts) notice node.new × Chain P.does port.old acts port.new) }
    ensures err { OnErr result ((to : RouteValue) × (lost : List ℕ) × LosesReply now node.old (receiving (Ok from) octets.now ∷ send_failed to lost ∷ []) node.new × P.does port.old (send_failed to lost) port.new) }
    ensures device { CountsFailure (P.failures port.old) (P.failures port.new) result }
{
    let Some(from) = from else {
        return Ok(None);
    };
    let message = read(octets);
    let Ok(event) = node.handle(now, from.peer, &message, out) else {
        return Ok(None);
    };
    send_back(port, node, now, from, &message, event, out)?;
    doubt(node, &doubted(server, from.peer, &message, event));
    Ok(notice_of(server, from.peer, &message, event))
}

/// Has a name refreshed as soon as it may be, if there is one.
fn doubt<const N: usize>(node: &mut Node<N>, name: &Option<Name>)
    ensures { node.new ≡ doubting node.old name.now }
{
    if let Some(name) = name {
        node.refresh_soon(&name.lend());
    }
}

/// Sends what there is to say.
fn send_back<P: Port, const N: usize>(
    port: &mut P,
    node: &Node<N>,
    now: Moment,
    to: Route,
    message: &Option<Message<'_>>,
    event: Event<'_>,
    out: &mut ArrayVec<u8, 576>,
) -> Result<(), Device>
    ensures ok { OnOk result (Chain P.does port.old (sending_to to (sent_back node.now now (message_if message.now) (told_of event.entry) out.old.items)) port.new) }
    ensures err { OnErr result ((lost : List ℕ) × (sent_back node.now now (message_if message.now) (told_of event.entry) out.old.items ≡ Some lost) × P.does port.old (send_failed to lost) port.new) }
    ensures device { CountsFailure (P.failures port.old) (P.failures port.new) result }
{
    if !reply_to(node, now, message, event, out) {
        return Ok(());
    }
    port.send(to, out.as_slice())
}
