//! What the server's replies say of a host's names.

ghost use Rattle.std.specs.Prelude.{◌≡◌, ◌&&◌, None};
ghost use Rattle.nbt_packet.specs.Message.{message_if};
ghost use Rattle.nbt_node.specs.Moves.{told_of};
ghost use Rattle.nbt_node.specs.Datagrams.{same_end};
ghost use Rattle.nbt_host.specs.Noticing.{news_of, news_in, name_told, denies, doubted, notice_of};

use nbt_name::{Addr, Name};
use nbt_node::Event;
use nbt_packet::Message;

/// What is told of a name, but that its hold lapsed.
#[derive(Clone, Copy, Debug, PartialEq, Eq)]
pub enum News {
    /// It is held, for these seconds from the first sending of its request.
    Granted(u32),
    /// It is held, for these seconds of the host's own, since the server's reply says no time: it has TTL 0.
    Untimed(u32),
    /// It is held, for these seconds, which are too few to be renewed in time.
    Brief(u32),
    /// Its hold was renewed, for these seconds from the first sending of the refresh.
    Renewed(u32),
    /// The server said, unasked, that it isn't held: its hold is refreshed before its time.
    Doubted,
    /// It isn't granted, with this RCODE (RFC 1002 section 4.2.6).
    Refused(u8),
    /// It isn't held any more, or isn't asked for: the refresh was refused, or the server demands it.
    Lost,
    /// The server knows that it was released, with this RCODE (RFC 1002 sections 4.2.10 and 4.2.11).
    Freed(u8),
}

/// What came for a name.
#[derive(Drop)]
pub struct Notice {
    pub name: Name,
    pub news: News,
}

/// What an event says of one of the node's names, if it does, by a reply with this TTL.
fn news_of(ttl: u32, event: Event<'_>) -> Option<News>
    ensures { result ≡ news_of ttl (told_of event.entry) }
{
    match event {
        Event::Granted(seconds) if ttl == 0 => Some(News::Untimed(seconds)),
        Event::Granted(seconds) => Some(News::Granted(seconds)),
        Event::Renewed(seconds) => Some(News::Renewed(seconds)),
        Event::Refused(rcode) => Some(News::Refused(rcode)),
        Event::Lost => Some(News::Lost),
        Event::Freed(rcode) => Some(News::Freed(rcode)),
        Event::Nothing
        | Event::Reply
        | Event::Wait
        | Event::Found { .. }
        | Event::NotFound
        | Event::Status(_) => None,
    }
}

/// What a message was to a node that waited for it, as news of the name that it is about.
fn news_in(message: &Option<Message<'_>>, event: Event<'_>) -> Option<News>
    ensures { result ≡ news_in (message_if message.now) (told_of event.entry) }
{
    match message {
        Some(Message::Registered { registration, .. }) => news_of(registration.ttl, event),
        Some(Message::Released { .. }) => news_of(0, event),
        _ => None,
    }
}

/// The name of which a message says that it is registered or refused, or released.
fn name_told(message: &Option<Message<'_>>) -> Option<Name>
    ensures { result ≡ name_told (message_if message.now) }
{
    match message {
        Some(Message::Registered { registration, .. }) => Some(registration.name.to_name()),
        Some(Message::Released { name, .. }) => Some(name.to_name()),
        _ => None,
    }
}

/// Whether nothing waited for the message, and it says that its name is refused, or released.
fn denies(message: &Option<Message<'_>>, event: Event<'_>) -> bool
    ensures { result ≡ denies (message_if message.now) (told_of event.entry) }
{
    match (message, event) {
        (Some(Message::Registered { rcode, .. }), Event::Nothing) => *rcode != 0,
        (Some(Message::Released { .. }), Event::Nothing) => true,
        _ => false,
    }
}

/// Whether an endpoint's message is the server's, nothing waited for it, and it says that its name is refused, or released.
fn is_doubt(server: Addr, from: Addr, message: &Option<Message<'_>>, event: Event<'_>) -> bool
    ensures { result ≡ (same_end from server && denies (message_if message.now) (told_of event.entry)) }
{
    from == server && denies(message, event)
}

/// The name of which the server said so.
pub fn doubted(
    server: Addr,
    from: Addr,
    message: &Option<Message<'_>>,
    event: Event<'_>,
) -> Option<Name>
    ensures { result ≡ doubted server from (message_if message.now) (told_of event.entry) }
{
    if is_doubt(server, from, message, event) {
        name_told(message)
    } else {
        None
    }
}

/// What a message from an endpoint was to a node, as news of the name that it is about.
pub fn notice_of(
    server: Addr,
    from: Addr,
    message: &Option<Message<'_>>,
    event: Event<'_>,
) -> Option<Notice>
    ensures { result ≡ notice_of server from (message_if message.now) (told_of event.entry) }
{
    let name = name_told(message)?;
    if is_doubt(server, from, message, event) {
        return Some(Notice {
            name,
            news: News::Doubted,
        });
    }
    let news = news_in(message, event)?;
    Some(Notice { name, news })
}
