//! What is written of requests that waited.

ghost use Rattle.std.specs.Prelude.{◌≡◌, ◌≤◌};
ghost use Rattle.nbt_packet.specs.Message.{registration};
ghost use Rattle.nbt_packet.specs.Text.{text};
ghost use Rattle.nbt_waits.specs.Asking as spec;
ghost use Rattle.nbt_waits.specs.Asking.{claim_of};
ghost use Rattle.nbt_waits.specs.Doing.{reply};

use arrayvec::ArrayVec;
use nbt_confirm::Request;
use nbt_packet::{Message, Registration, write};

/// RCODE SRV_ERR: there is no room for a further address (RFC 1002 section 4.2.6).
pub(crate) const SERVER_ERROR: u8 = 2;
/// RCODE RFS_ERR: the address isn't the sender's (RFC 1002 section 4.2.6).
pub(crate) const REFUSED: u8 = 5;
/// RCODE ACT_ERR: another machine has the name (RFC 1002 section 4.2.6).
pub(crate) const ACTIVE: u8 = 6;

/// Leaves in `out` the response to a request, for so many seconds, and nothing else (RFC 1002 sections 4.2.5 and 4.2.6).
pub(crate) fn write_reply(request: &Request, rcode: u8, seconds: u32, out: &mut ArrayVec<u8, 576>)
    requires { rcode ≤ 15 }
    ensures { out.new.items ≡ reply rcode seconds request.now }
{
    let reply = Message::Registered {
        rcode,
        registration: claim_with(request, seconds),
    };
    write(&reply, out);
}

/// Leaves in `out` the registration that a request is, and nothing else (RFC 1002 section 4.2.2): so it comes to the server.
pub fn write_claim(request: &Request, out: &mut ArrayVec<u8, 576>)
    ensures { out.new.items ≡ text (registration (claim_of request.now)) }
{
    write(
        &Message::Registration(claim_with(request, request.ttl)),
        out,
    );
}

/// What a request asks for, with these seconds.
fn claim_with(request: &Request, ttl: u32) -> Registration<'_>
    ensures { result ≡ record (claim_of request.now) { ttl = ttl } }
{
    Registration {
        id: request.id,
        name: request.name.lend(),
        kind: request.kind,
        addr: request.addr,
        ttl,
    }
}
