//! The name service, step by step: a node's request, the server's turns, and what the reply is to the node (RFC 1002
//! sections 5.1.2 and 5.1.4).

ghost use Rattle.std.specs.Prelude.{◌≡◌, ◌≤◌, ◌↔◌, length, take, IsTrue};

use crate::end_node::{EndNode, NameServer, receive, send};
use arrayvec::ArrayVec;
use nbt_name::{Kind, Name};
use nbt_node::Event;
use nbt_port::{Device, Port};

/// The TTL of a registration, in seconds.
const TTL: u32 = 60;

/// How many turns the server has for one request. One is enough, but where another program of this system sends something to
/// the server or to the node, or a receive ends early.
const TURNS: u32 = 8;

/// What an end node requests of the server about a name.
#[derive(Clone, Copy, Debug, PartialEq, Eq)]
pub enum Request {
    /// It registers the name.
    Register(Kind),
    /// It releases the name.
    Release,
    /// It looks the name up.
    Query,
}

/// The end node makes a request about the name. Returns what the server's reply was to it: `Nothing` where the node makes none.
pub fn make_request<'a, P: Port + Drop>(
    end: &mut EndNode<P>,
    server: &mut NameServer<P>,
    name: &Name,
    request: Request,
    octets: &'a mut ArrayVec<u8, 2048>,
) -> Result<Event<'a>, Device> {
    let mut out = ArrayVec::new();
    let now = server.now();
    let is_made = match request {
        Request::Register(kind) => end.node.ask(now, &name.lend(), kind, TTL, &mut out).is_ok(),
        Request::Release => end.node.release(now, &name.lend(), &mut out).is_ok(),
        Request::Query => end.node.resolve(now, &name.lend(), &mut out).is_ok(),
    };
    if is_made {
        exchange(end, server, &out, octets)
    } else {
        Ok(Event::Nothing)
    }
}

/// Sends a request to the server, and lets the server and the node take turns until its reply is there, which the node takes.
/// What another program sent to the node is ignored, and so is a reply that came too late for its request. `Nothing` where no
/// reply is there after the last turn.
fn exchange<'a, P: Port + Drop>(
    end: &mut EndNode<P>,
    server: &mut NameServer<P>,
    request: &ArrayVec<u8, 576>,
    octets: &'a mut ArrayVec<u8, 2048>,
) -> Result<Event<'a>, Device> {
    send(&mut end.names, server.addr(), request.as_slice())?;
    for _ in 0..TURNS {
        server.serve()?;
        let from = receive(&mut end.names, octets)?.map(|route| route.peer);
        if from == Some(server.addr()) && is_reply(request.as_slice(), octets.as_slice()) {
            return Ok(hear(end, server, octets.as_slice()));
        }
    }
    Ok(Event::Nothing)
}

/// Whether the octets have the NAME_TRN_ID of the request: its first two octets (RFC 1002 section 4.2.1.1).
fn is_reply(request: &[u8], octets: &[u8]) -> bool
    ensures { IsTrue result ↔ ((2 ≤ length request.now) × (take 2 octets.now ≡ take 2 request.now)) }
{
    match request.first_chunk::<2>() {
        Some(id) => octets.starts_with(id),
        None => false,
    }
}

/// The node handles what came from the server.
fn hear<'a, P: Port + Drop>(
    end: &mut EndNode<P>,
    server: &mut NameServer<P>,
    octets: &'a [u8],
) -> Event<'a> {
    let mut out = ArrayVec::new();
    match end
        .node
        .on_datagram(server.now(), server.addr(), octets, &mut out)
    {
        Ok(event) => event,
        Err(_) => Event::Nothing,
    }
}
