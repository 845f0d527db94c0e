//! The messages of the name service (RFC 1002 sections 4.2.2 to 4.2.18).

ghost use Rattle.std.specs.Prelude.{◌≡◌, ◌↔◌, IsTrue};

use crate::wire::{ADDR_ENTRIES_MOST, ADDR_ENTRY, NODE_NAME, NODE_NAMES_MOST, RCODE_MOST};
use nbt_name::{Kind, LentName};

/// What a node says of a name that it requests or has: the name, its kind, its address, and for how long.
#[derive(Debug, Drop)]
pub struct Registration<'a> {
    /// The transaction's id.
    pub id: u16,
    /// The name.
    pub name: LentName<'a>,
    /// Unique, or a group's.
    pub kind: Kind,
    /// NB_ADDRESS, the node's 32-bit address.
    pub addr: u32,
    /// The TTL in seconds; 0 is as long as possible.
    pub ttl: u32,
}

/// A message of the name service.
#[derive(Debug, Drop)]
pub enum Message<'a> {
    /// NAME REGISTRATION REQUEST (RFC 1002 section 4.2.2).
    Registration(Registration<'a>),
    /// NAME OVERWRITE REQUEST and DEMAND (RFC 1002 section 4.2.3).
    Overwrite(Registration<'a>),
    /// NAME REFRESH REQUEST (RFC 1002 section 4.2.4).
    Refresh(Registration<'a>),
    /// NAME RELEASE REQUEST and DEMAND (RFC 1002 section 4.2.9).
    Release {
        /// The transaction's id.
        id: u16,
        /// The name that is released.
        name: LentName<'a>,
        /// Unique, or a group's.
        kind: Kind,
        /// NB_ADDRESS, the node's 32-bit address.
        addr: u32,
    },
    /// NAME QUERY REQUEST (RFC 1002 section 4.2.12).
    Query {
        /// The transaction's id.
        id: u16,
        /// The name that is queried.
        name: LentName<'a>,
    },
    /// NODE STATUS REQUEST (RFC 1002 section 4.2.17).
    StatusRequest {
        /// The transaction's id.
        id: u16,
        /// A name of the queried node, or `*` for all.
        name: LentName<'a>,
    },
    /// POSITIVE and NEGATIVE NAME REGISTRATION RESPONSE (RFC 1002 sections 4.2.5 and 4.2.6).
    Registered {
        /// RCODE: 0 if the name is registered, 1 to 15 why it is not.
        rcode: u8,
        /// The registration that is replied to: its id, name, kind and address, and the TTL that is granted.
        registration: Registration<'a>,
    },
    /// POSITIVE and NEGATIVE NAME RELEASE RESPONSE (RFC 1002 sections 4.2.10 and 4.2.11).
    Released {
        /// The transaction's id.
        id: u16,
        /// RCODE: 0 if the name is released, 1 to 15 why it is not.
        rcode: u8,
        /// The name that was released.
        name: LentName<'a>,
        /// Unique, or a group's.
        kind: Kind,
        /// NB_ADDRESS, the node's 32-bit address.
        addr: u32,
    },
    /// POSITIVE NAME QUERY RESPONSE (RFC 1002 section 4.2.13).
    Found {
        /// The transaction's id.
        id: u16,
        /// The name that was queried.
        name: LentName<'a>,
        /// How long the entries may be kept, in seconds.
        ttl: u32,
        /// The name's entries of six octets each, NB_FLAGS and NB_ADDRESS, borrowed from the packet's octets.
        entries: &'a [u8],
        /// TC: the name has more entries than these (RFC 1002 section 4.2.1.1).
        cut: bool,
    },
    /// NEGATIVE NAME QUERY RESPONSE (RFC 1002 section 4.2.14), with or without its record.
    NotFound {
        /// The transaction's id.
        id: u16,
        /// RCODE, 1 to 15: why there are no entries.
        rcode: u8,
        /// The name that was queried, if the response has its record.
        name: Option<LentName<'a>>,
    },
    /// NODE STATUS RESPONSE (RFC 1002 section 4.2.18).
    Status {
        /// The transaction's id.
        id: u16,
        /// The name that was queried.
        name: LentName<'a>,
        /// The node's names of 18 octets each, the sixteen octets and NAME_FLAGS, borrowed from the packet's octets.
        names: &'a [u8],
    },
    /// WAIT FOR ACKNOWLEDGEMENT RESPONSE (RFC 1002 section 4.2.16).
    Wait {
        /// The transaction's id.
        id: u16,
        /// The name of the request that waits.
        name: LentName<'a>,
        /// For how many seconds the node is to wait.
        ttl: u32,
    },
}

impl Message<'_> {
    ghost use Rattle.nbt_packet.specs.Message.{Fits, message_of};

    /// Whether the message has a written form: its RCODE is at most 15 (for `NotFound` 1 to 15), it has 1 to 10,922
    /// entries, or at most 255 names. A row of entries or names is whole: a multiple of 6 or of 18 octets.
    pub fn fits(&self) -> bool
        ensures { IsTrue result ↔ Fits (message_of self.now) }
    {
        match self {
            Message::Registered { rcode, .. } | Message::Released { rcode, .. } => {
                *rcode <= RCODE_MOST
            }
            Message::Found { entries, .. } => {
                !entries.is_empty()
                    && entries.len() <= ADDR_ENTRY * ADDR_ENTRIES_MOST
                    && entries.len() % ADDR_ENTRY == 0
            }
            Message::NotFound { rcode, .. } => 0 < *rcode && *rcode <= RCODE_MOST,
            Message::Status { names, .. } => {
                names.len() <= NODE_NAME * NODE_NAMES_MOST && names.len() % NODE_NAME == 0
            }
            _ => true,
        }
    }
}
