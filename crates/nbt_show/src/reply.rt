//! What the octets of a reply say.

ghost use Rattle.std.specs.Prelude.{◌≡◌, ◌+◌, ℕ, List, ◌++◌, IfOk, Some, drop, length};
ghost use Rattle.std.specs.String.{string_bytes};
ghost use Rattle.nbt_packet.specs.Packet.{RecordValue, packet_of};
ghost use Rattle.nbt_packet.specs.Message.{MessageIs, message_of};
ghost use Rattle.nbt_show.specs.Replies.{PrintsReplyMessage, PrintsReply};

use crate::holders::{write_holders, write_not_found};
use crate::node_status::write_names;
use nbt_packet::{Message, Packet, classify, decode};
use std::alloc::AllocError;

/// What a reply was.
#[derive(Clone, Copy, Debug, PartialEq, Eq)]
pub enum Reply {
    /// It has entries, or names.
    Found,
    /// There is no such name.
    NotFound,
    /// It is no reply to a lookup, and nothing is printed of it.
    Other,
}

/// Appends what the octets of a reply say, and returns what it was. Of a positive query response a line for each entry, its
/// address and `unique` or `group`, and the line `cut` where there are more (RFC 1002 section 4.2.13). Of a negative one a line
/// with its RCODE, in words and as a number (RFC 1002 section 4.2.14). Of a status response a line for each name, with
/// its flags and what its suffix means, and one for the unit id, where it is there and isn't zero (RFC 1002 section 4.2.18). Of
/// any other message, and of octets that begin with no packet, nothing.
pub fn write_reply(octets: &[u8], out: &mut String) -> Result<Reply, AllocError>
    ensures { IfOk result (λ reply. (text : List ℕ) × PrintsReply octets.now reply text × (string_bytes out.new ≡ string_bytes out.old ++ text)) }
{
    let Ok((packet, _)) = decode(octets) else {
        return Ok(Reply::Other);
    };
    match classify(&packet) {
        Some(message) => write_message(&packet, &message, out),
        None => Ok(Reply::Other),
    }
}

/// Appends what a packet's message says, if it is a reply.
fn write_message(
    packet: &Packet<'_>,
    message: &Message<'_>,
    out: &mut String,
) -> Result<Reply, AllocError>
    requires { MessageIs (packet_of packet.now) (message_of message.now) }
    ensures { IfOk result (λ reply. (text : List ℕ) × PrintsReplyMessage (packet_of packet.now) (message_of message.now) reply text
        × (string_bytes out.new ≡ string_bytes out.old ++ text)) }
{
    match message {
        Message::Found { entries, cut, .. } => {
            write_holders(entries, *cut, out)?;
            Ok(Reply::Found)
        }
        Message::NotFound { rcode, .. } => {
            write_not_found(*rcode, out)?;
            Ok(Reply::NotFound)
        }
        Message::Status { names, .. } => {
            write_names(names, statistics_of(packet, names), out)?;
            Ok(Reply::Found)
        }
        _ => Ok(Reply::Other),
    }
}

/// What stands after the names in RDATA of a node status response, if anything.
pub fn statistics_of<'a>(packet: &Packet<'a>, names: &[u8]) -> &'a [u8]
    ensures { (answer : RecordValue) → (packet_of packet.now).answer ≡ Some answer → result.now ≡ drop (1 + length names.now) answer.rdata }
{
    match &packet.answer {
        Some(answer) => match answer.rdata.split_at_checked(1 + names.len()) {
            Some((_, statistics)) => statistics,
            None => &[],
        },
        None => &[],
    }
}
