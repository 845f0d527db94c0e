//! The reply to a status request.

ghost use Rattle.std.specs.Prelude.{◌≡◌, ◌≢◌, ◌+◌, ℕ, List, Some, IfSome, IfNone, drop, length};
ghost use Rattle.nbt_packet.specs.Packet.{RecordValue, packet_of};
ghost use Rattle.nbt_packet.specs.Message.{MessageIs, NameValue, message_of, status};
ghost use Rattle.nbt_scan.specs.Statuses.{IsStatus, IsNoStatus};

use nbt_packet::{Message, Packet, classify, decode};
use nbt_show::statistics_of;

/// What a node status response says (RFC 1002 section 4.2.18).
#[derive(Clone, Copy)]
pub struct Status<'a> {
    /// The node's names of 18 octets each, the sixteen octets and NAME_FLAGS.
    pub names: &'a [u8],
    /// The statistics behind them, or as much of these as there is.
    pub statistics: &'a [u8],
}

/// The node status response of this id with which the octets begin; `None` where they don't.
pub fn status_in(octets: &[u8], id: u16) -> Option<Status<'_>>
    ensures found { IfSome result (λ s. IsStatus id octets.now s.names.now s.statistics.now) }
    ensures none { IfNone result (IsNoStatus id octets.now) }
{
    let Ok((packet, _)) = decode(octets) else {
        return None;
    };
    let Some(message) = classify(&packet) else {
        return None;
    };
    status_of(&packet, &message, id)
}

/// What a packet's message says, if it is such a response.
fn status_of<'a>(packet: &Packet<'a>, message: &Message<'a>, id: u16) -> Option<Status<'a>>
    requires { MessageIs (packet_of packet.now) (message_of message.now) }
    ensures found { IfSome result (λ s. (name : NameValue) × (answer : RecordValue) × (message_of message.now ≡ status id name s.names.now)
        × ((packet_of packet.now).answer ≡ Some answer) × (s.statistics.now ≡ drop (1 + length s.names.now) answer.rdata)) }
    ensures none { IfNone result ((name : NameValue) (names : List ℕ) → message_of message.now ≢ status id name names) }
{
    let Message::Status {
        id: told,
        names,
        ..
    } = message
    else {
        return None;
    };
    if *told != id {
        return None;
    }
    Some(Status {
        names,
        statistics: statistics_of(packet, names),
    })
}
