//! Reading a message from octets (RFC 1002 section 4.2).

ghost use Rattle.std.specs.Prelude.{◌≡◌, ◌↔◌, Some};
ghost use Rattle.nbt_packet.specs.Message.{MessageValue, message_if};
ghost use Rattle.nbt_packet.specs.Spelling.{Spells};

use crate::classifying::classify;
use crate::decoding::decode;
use crate::message::Message;

/// The message that the octets spell, or `None` if they begin with no packet, or with one that spells no message of this
/// profile. Octets after the packet are ignored (RFC 1002 section 4.2).
pub fn read(octets: &[u8]) -> Option<Message<'_>>
    ensures { (message : MessageValue) → (message_if result ≡ Some message) ↔ Spells octets.now message }
{
    let Ok((packet, _)) = decode(octets) else {
        return None;
    };
    classify(&packet)
}
