//! The requests that a node sends about a name (RFC 1002 sections 4.2.2, 4.2.4 and 4.2.9), and the ids that it gives them.

ghost use Rattle.std.specs.Prelude.{◌≡◌};
ghost use Rattle.nbt_packet.specs.Message.{message_of, IsRegistration, HoldsNumbers, release};
ghost use Rattle.nbt_node.specs.Moves.{id_after};

use nbt_name::{Kind, LentName};
use nbt_packet::{Message, Registration};

/// The id after this one; 0 follows 65,535.
pub fn id_after(id: u16) -> u16
    ensures { result ≡ id_after id }
{
    id.checked_add(1).unwrap_or(0)
}

/// What a node with this address says of a name in a request for it.
pub fn claim<'a>(own: u32, id: u16, name: &LentName<'a>, kind: Kind, ttl: u32) -> Registration<'a>
    ensures value { result ≡ record { id = id; name = name.now; kind = kind; addr = own; ttl = ttl } }
    ensures whole { IsRegistration result }
{
    let _is_a_name = name.octets();
    Registration {
        id,
        name: name.copy(),
        kind,
        addr: own,
        ttl,
    }
}

/// The request that releases a name.
pub fn release<'a>(own: u32, id: u16, name: &LentName<'a>, kind: Kind) -> Message<'a>
    ensures value { message_of result ≡ release id name.now kind own }
    ensures whole { HoldsNumbers (message_of result) }
{
    let _is_a_name = name.octets();
    Message::Release {
        id,
        name: name.copy(),
        kind,
        addr: own,
    }
}
