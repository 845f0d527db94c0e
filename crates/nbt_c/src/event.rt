//! What a datagram was to a node, as C sees it.

ghost use Rattle.std.specs.Prelude.{◌≡◌, List, ℕ, None};
ghost use Rattle.nbt_packet.specs.Message.{message_if};
ghost use Rattle.nbt_node.specs.Answering.{sent_back};
ghost use Rattle.nbt_node.specs.Moves.{told_of, nothing};
ghost use Rattle.nbt_c.specs.Events.{event_with, event_for, lent_by, rcode_in, about, octets_back, reported};

use crate::buffer::Octets;
use crate::held::HeldNode;
use crate::name::CName;
use nbt_lease::Moment;
use nbt_name::LentName;
use nbt_node::{Event, reply_to};
use nbt_packet::Message;

/// What a datagram was to a node, as C sees it. A field that its kind doesn't name is 0.
#[repr(C)]
#[derive(Drop)]
pub struct CEvent {
    /// 0 nothing, 1 reply, 2 granted, 3 renewed, 4 refused, 5 lost, 6 freed, 7 wait, 8 found, 9 not found, 10 status.
    pub kind: u8,
    /// Of refused, lost, freed and not found: the RCODE (RFC 1002 sections 4.2.6, 4.2.10, 4.2.11 and 4.2.14).
    pub rcode: u8,
    /// Of found: the name has more entries than these.
    pub cut: bool,
    /// Of granted and renewed: for how many seconds.
    pub seconds: u32,
    /// Of found: how many octets the entries have, six each; of status: the names, eighteen each.
    pub size: usize,
    /// Of all but nothing: the name that the datagram is about. Of a not found without a name it is zeros.
    pub name: CName,
}

impl CEvent {
    /// Becomes an event of a kind, with what its kind names, and with what a message says.
    fn set(&mut self, kind: u8, cut: bool, seconds: u32, size: usize, message: &Option<Message<'_>>)
        ensures { self.new ≡ event_with kind cut seconds size (message_if message.now) }
    {
        self.kind = kind;
        self.rcode = rcode_in(message);
        self.cut = cut;
        self.seconds = seconds;
        self.size = size;
        self.name.store(&about(message));
    }

    /// Becomes nothing. It stands apart for its room on the stack.
    #[inline(never)]
    pub(crate) fn become_nothing(&mut self)
        ensures { self.new ≡ event_for nothing None }
    {
        self.report(&Event::Nothing, &None);
    }

    /// Becomes what the node reports of a message.
    pub(crate) fn report(&mut self, told: &Event<'_>, message: &Option<Message<'_>>)
        ensures { self.new ≡ event_for (told_of told.now) (message_if message.now) }
    {
        match told {
            Event::Nothing => self.set(0, false, 0, 0, &None),
            Event::Reply => self.set(1, false, 0, 0, message),
            Event::Granted(seconds) => self.set(2, false, *seconds, 0, message),
            Event::Renewed(seconds) => self.set(3, false, *seconds, 0, message),
            Event::Refused(_) => self.set(4, false, 0, 0, message),
            Event::Lost => self.set(5, false, 0, 0, message),
            Event::Freed(_) => self.set(6, false, 0, 0, message),
            Event::Wait => self.set(7, false, 0, 0, message),
            Event::Found { entries, cut } => self.set(8, *cut, 0, entries.len(), message),
            Event::NotFound => self.set(9, false, 0, 0, message),
            Event::Status(names) => self.set(10, false, 0, names.len(), message),
        }
    }
}

/// The RCODE of a message that has one.
fn rcode_in(message: &Option<Message<'_>>) -> u8
    ensures { result ≡ rcode_in (message_if message.now) }
{
    match message {
        Some(Message::Registered { rcode, .. }) => *rcode,
        Some(Message::Released { rcode, .. }) => *rcode,
        Some(Message::NotFound { rcode, .. }) => *rcode,
        _ => 0,
    }
}

/// The name that a message is about, if there is one.
fn about<'a>(message: &Option<Message<'a>>) -> Option<LentName<'a>>
    ensures { result ≡ about (message_if message.now) }
{
    match message {
        Some(message) => name_in(message),
        None => None,
    }
}

/// The same of a message that there is.
fn name_in<'a>(message: &Message<'a>) -> Option<LentName<'a>>
    ensures { result ≡ about (message_if (Some message.now)) }
{
    match message {
        Message::Registration(registration) => Some(registration.name.copy()),
        Message::Overwrite(registration) => Some(registration.name.copy()),
        Message::Refresh(registration) => Some(registration.name.copy()),
        Message::Registered { registration, .. } => Some(registration.name.copy()),
        Message::Release { name, .. } => Some(name.copy()),
        Message::Query { name, .. } => Some(name.copy()),
        Message::StatusRequest { name, .. } => Some(name.copy()),
        Message::Released { name, .. } => Some(name.copy()),
        Message::Found { name, .. } => Some(name.copy()),
        Message::Status { name, .. } => Some(name.copy()),
        Message::Wait { name, .. } => Some(name.copy()),
        Message::NotFound { name, .. } => match name {
            Some(name) => Some(name.copy()),
            None => None,
        },
    }
}

/// The octets that an event borrows, if any.
pub(crate) fn lent_by<'a>(event: &Event<'a>) -> &'a [u8]
    ensures { result.now ≡ lent_by (told_of event.now) }
{
    match event {
        Event::Found { entries, .. } => entries,
        Event::Status(names) => names,
        _ => &[],
    }
}

/// Leaves in `out`, where the node's own reply stands, if it has one, what is sent back, and nothing else. Returns what is reported.
pub(crate) fn answer<'a>(
    node: &HeldNode,
    now: Moment,
    message: &Option<Message<'_>>,
    event: Event<'a>,
    out: &mut Octets,
) -> Event<'a>
    ensures octets { out.new.items ≡ octets_back (sent_back node.now now (message_if message.now) (told_of event.entry) out.old.items) }
    ensures told { told_of result ≡ reported (told_of event.entry) (sent_back node.now now (message_if message.now) (told_of event.entry) out.old.items) }
{
    if reply_to(node, now, message, event, out) {
        return Event::Reply;
    }
    out.clear();
    event
}
