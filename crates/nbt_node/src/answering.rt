//! What an endpoint sends back to who sent it a datagram, where it answers queries (RFC 1002 section 4.2.13).

ghost use Rattle.std.specs.Prelude.{◌≡◌, ℕ, ◌+◌, ◌≤◌, List, [], ◌++◌, length, Some, None, if◌then◌else◌};
ghost use Rattle.nbt_name.specs.Wire.{wire};
ghost use Rattle.nbt_name.specs.Words.{word, long};
ghost use Rattle.nbt_packet.specs.Message.{message_if, nb, internet};
ghost use Rattle.nbt_packet.specs.Text.{header, answer_octets, entry};
ghost use Rattle.nbt_node.specs.Node.{holds};
ghost use Rattle.nbt_node.specs.Datagrams.{asks_names};
ghost use Rattle.nbt_node.specs.Moves.{told_of};
ghost use Rattle.nbt_node.specs.Answering.{answer_if, own_reply, sent_back};

use crate::event::Event;
use crate::node::Node;
use arrayvec::ArrayVec;
use nbt_lease::Moment;
use nbt_name::{Kind, LentName, put_long, put_word};
use nbt_packet::{Message, entry_octets};

/// The flags of a positive reply of an end node to a query: R, OPCODE 0, AA, RD; RA is clear (RFC 1002 section 4.2.13).
const ANSWER: u16 = 0x8500;
/// Type NB, a name's entries (RFC 1002 section 4.2.1.3).
const NB: u16 = 0x0020;
/// Class IN (RFC 1002 section 4.2.1.3).
const IN: u16 = 0x0001;
/// How many octets one entry has (RFC 1002 section 4.2.13).
const ENTRY: u16 = 6;

/// Whether a message is a status request, the one request to which a node itself replies (RFC 1002 section 4.2.17).
pub fn asks_names(message: &Option<Message<'_>>) -> bool
    ensures { result ≡ asks_names (message_if message.now) }
{
    matches!(message, Some(Message::StatusRequest { .. }))
}

/// The header of a reply with one answer (RFC 1002 section 4.2.1.1).
fn put_header(id: u16, out: &mut ArrayVec<u8, 576>)
    requires { out.old.items ≡ [] }
    ensures { out.new.items ≡ header id 0x8500 0 1 0 }
{
    put_word(out, id);
    put_word(out, ANSWER);
    put_word(out, 0);
    put_word(out, 1);
    put_word(out, 0);
    put_word(out, 0);
}

/// Type, class, a TTL of 0, and the length of one entry (RFC 1002 section 4.2.1.3).
fn put_fields(out: &mut ArrayVec<u8, 576>)
    requires { length out.old.items ≤ 560 }
    ensures { out.new.items ≡ out.old.items ++ (word nb ++ word internet ++ long 0 ++ word 6) }
{
    put_word(out, NB);
    put_word(out, IN);
    put_long(out, 0);
    put_word(out, ENTRY);
}

/// The reply up to its entry.
fn put_head(id: u16, name: &LentName<'_>, out: &mut ArrayVec<u8, 576>)
    requires { out.old.items ≡ [] }
    ensures form { out.new.items ≡ header id 0x8500 0 1 0 ++ (wire name.now ++ (word nb ++ word internet ++ long 0 ++ word 6)) }
    ensures room { length out.new.items ≤ 300 }
{
    put_header(id, out);
    name.put_wire(out);
    put_fields(out);
}

/// Leaves in `out` a reply with this one entry and a TTL of 0, and nothing else (RFC 1002 section 4.2.13).
fn put_answer(id: u16, name: &LentName<'_>, kind: Kind, addr: u32, out: &mut ArrayVec<u8, 576>)
    ensures { out.new.items ≡ answer_octets id 0x8500 name.now nb 0 (entry kind addr) }
{
    out.clear();
    put_head(id, name, out);
    let octets = entry_octets(kind, addr);
    out.try_extend_from_slice(&octets).unwrap();
}

/// Leaves in `out` the reply to a query, where the name is held at `now`. Returns whether it is.
fn answer<const N: usize>(
    node: &Node<N>,
    now: Moment,
    id: u16,
    name: &LentName<'_>,
    out: &mut ArrayVec<u8, 576>,
) -> bool
    ensures { answer_if node.now id name.now (holds node.now name.now now) ≡ (if result then Some out.new.items else None) }
{
    let Some(kind) = node.holds(now, name) else {
        return false;
    };
    put_answer(id, name, kind, node.addr().ip, out);
    true
}

/// Whether the node itself has something to say.
fn is_reply(event: Event<'_>) -> bool
    ensures { (reply : List ℕ) → own_reply (told_of event.entry) reply ≡ (if result then Some reply else None) }
{
    matches!(event, Event::Reply)
}

/// Leaves in `out`, where the node's own reply stands, if it has one, what is sent back at `now` to who sent this message.
/// Returns whether there is something.
#[inline(never)]
pub fn reply_to<const N: usize>(
    node: &Node<N>,
    now: Moment,
    message: &Option<Message<'_>>,
    event: Event<'_>,
    out: &mut ArrayVec<u8, 576>,
) -> bool
    ensures { sent_back node.now now (message_if message.now) (told_of event.entry) out.old.items ≡ (if result then Some out.new.items else None) }
{
    match message {
        Some(Message::Query { id, name }) => answer(node, now, *id, name, out),
        _ => is_reply(event),
    }
}
