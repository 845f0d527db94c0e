//! Looking up who holds a name, and which names a host holds (RFC 1002 sections 4.2.12 and 4.2.17).

ghost use Rattle.std.specs.Prelude.{◌≡◌, ◌+◌, [], None, Some, is_some, nat_eq, ◌&&◌, MatchOption};
ghost use Rattle.nbt_packet.specs.Message.{message_of, HoldsNumbers};
ghost use Rattle.nbt_packet.specs.Spelling.{id_of, name_in, AreWritten};
ghost use Rattle.nbt_node.specs.Node.{settled_lookup};
ghost use Rattle.nbt_node.specs.Transaction.{next_due};
ghost use Rattle.nbt_node.specs.Calls.{question, due_lookup};
ghost use Rattle.nbt_node.specs.Datagrams.{same_end, wants, tells_name, ends};

use crate::transaction::{is_next, is_over, next_due};
use arrayvec::ArrayVec;
use nbt_lease::Moment;
use nbt_name::{Addr, LentName, Name};
use nbt_packet::{Message, write};

/// What a lookup asks for.
#[derive(Clone, Copy, Debug, PartialEq, Eq)]
pub enum Wanted {
    /// The entries of a name's holders.
    Entries,
    /// The names that a host holds.
    Names,
}

/// A lookup that no reply has ended.
#[derive(Debug, Drop)]
pub struct Lookup {
    pub id: u16,
    pub name: Name,
    /// The endpoint that is queried.
    pub to: Addr,
    pub wanted: Wanted,
    pub tries: u8,
    pub due: u64,
}

/// Whether two endpoints are the same, by address and port.
pub fn is_same_end(a: Addr, b: Addr) -> bool
    ensures { result ≡ same_end a b }
{
    a == b
}

impl Lookup {
    /// The request of a lookup.
    pub fn question(&self) -> Message<'_>
        ensures value { message_of result ≡ question self.now }
        ensures numbers { HoldsNumbers (message_of result) }
    {
        let _is_a_name = self.name.octets();
        let (id, name) = (self.id, self.name.lend());
        match self.wanted {
            Wanted::Entries => Message::Query { id, name },
            Wanted::Names => Message::StatusRequest { id, name },
        }
    }

    /// Ends a lookup that time has ended at `now`.
    pub fn settle(lookup: &mut Option<Lookup>, now: Moment)
        ensures { lookup.new ≡ settled_lookup now lookup.old }
    {
        if let Some(open) = lookup {
            if is_over(open.tries, open.due, now) {
                *lookup = None;
            }
        }
    }

    /// Whether a lookup is open at `now`.
    pub fn is_open(lookup: &Option<Lookup>, now: Moment) -> bool
        ensures { result ≡ is_some (settled_lookup now lookup.now) }
    {
        match lookup {
            Some(open) => !is_over(open.tries, open.due, now),
            None => false,
        }
    }

    /// Sends a lookup's request once more, where that is due. Returns the endpoint that is queried.
    pub fn poll(
        lookup: &mut Option<Lookup>,
        now: Moment,
        out: &mut ArrayVec<u8, 576>,
    ) -> Option<Addr>
        requires { out.old.items ≡ [] }
        ensures { MatchOption (due_lookup now lookup.old)
            ((lookup.new ≡ lookup.old) × (result ≡ None) × (out.new.items ≡ []))
            (λ l. (lookup.new ≡ Some (record l { tries = l.tries + 1; due = next_due now })) × (result ≡ Some l.to) × AreWritten (Some (question l)) out.new.items) }
    {
        match lookup {
            Some(open) => {
                if !is_next(open.tries, open.due, now) {
                    return None;
                }
                open.tries += 1;
                open.due = next_due(now);
                write(&open.question(), out);
                Some(open.to)
            }
            None => None,
        }
    }

    /// Whether a message from an endpoint ends the lookup: it has what the lookup asks for, or says that it doesn't exist,
    /// with the lookup's id and name, and comes from the endpoint that was queried.
    pub fn ends(lookup: &Option<Lookup>, from: Addr, message: &Message<'_>) -> bool
        ensures { result ≡ ends lookup.now from (message_of message.now) }
    {
        match lookup {
            Some(open) => is_same_end(from, open.to) && open.is_told(message),
            None => false,
        }
    }

    /// Whether a message answers the lookup, with its id and its name where it has one.
    fn is_told(&self, message: &Message<'_>) -> bool
        ensures { result ≡ (wants (message_of message.now) self.now.wanted && (nat_eq (id_of (message_of message.now)) self.now.id && tells_name (name_in (message_of message.now)) self.now.name)) }
    {
        match message {
            Message::Found { id, name, .. } => {
                self.wanted == Wanted::Entries && *id == self.id && name.is(&self.name)
            }
            Message::Status { id, name, .. } => {
                self.wanted == Wanted::Names && *id == self.id && name.is(&self.name)
            }
            Message::NotFound { id, name, .. } => *id == self.id && self.is_named(name),
            _ => false,
        }
    }

    /// Whether this is the lookup's name, where it is one.
    fn is_named(&self, name: &Option<LentName<'_>>) -> bool
        ensures { result ≡ tells_name name.now self.now.name }
    {
        match name {
            Some(name) => name.is(&self.name),
            None => true,
        }
    }
}
