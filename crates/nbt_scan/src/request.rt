//! What a scan asks.

ghost use Rattle.std.specs.Prelude.{◌≡◌};
ghost use Rattle.nbt_scan.specs.Requests.{request_text};

use arrayvec::ArrayVec;
use nbt_name::Name;
use nbt_packet::{Message, write};

/// Leaves in `out` a node status request for all names, 50 octets (RFC 1002 section 4.2.17).
pub fn write_request(id: u16, out: &mut ArrayVec<u8, 576>)
    ensures { out.new.items ≡ request_text id }
{
    let name = Name::any(&[]).unwrap();
    let name = name.lend();
    write(&Message::StatusRequest { id, name }, out);
}
