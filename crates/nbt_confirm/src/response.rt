//! A positive name query response, as far as it may confirm (RFC 1002 section 4.2.13).

ghost use Rattle.std.specs.Prelude.{◌≡◌, ◌+◌, ◌*◌, ◌≤◌, length, IfSome, IfNone, IsTrue};
ghost use Rattle.nbt_packet.specs.Message.{kind_in};
ghost use Rattle.nbt_name.specs.Words.{long_at};
ghost use Rattle.nbt_confirm.specs.Inquiries.{IsResponse, ResponseValue, addr_if, is_answered_by, listed, response_of, same_kind};

use crate::inquiry::{Inquiry, NAME_PORT};
use crate::request::is_same_kind;
use arrayvec::ArrayVec;
use nbt_name::{Addr, Kind, LentName, read_long};
use nbt_packet::{Message, read};

/// The most entries of a response that counts (our profile): as many as fit in a datagram beside a name without a scope.
pub(crate) const ENTRIES_MOST: usize = 86;

/// How many octets an entry has, NB_FLAGS and NB_ADDRESS (RFC 1002 section 4.2.13).
const ENTRY: usize = 6;

/// The most octets of a response that counts, MAX_DATAGRAM_LENGTH (RFC 1002 section 6).
pub(crate) const OCTETS_MOST: usize = 576;

/// G of NB_FLAGS, in its first octet: the name is a group's (RFC 1002 section 4.2.1.3).
const GROUP: u8 = 0x80;

/// A positive response: which address sent it, and what it says.
#[derive(Drop)]
pub(crate) struct Response<'a> {
    pub addr: u32,
    pub id: u16,
    pub name: LentName<'a>,
    pub entries: &'a [u8],
}

/// The positive response that these octets from an endpoint are, if they count as one: they come from port 137, are no longer than
/// 576 octets, and spell a positive name query response of at most 86 entries.
pub(crate) fn response_in(from: Addr, octets: &[u8]) -> Option<Response<'_>>
    ensures response { IfSome result (λ r. IsResponse from octets.now (response_of r)) }
    ensures none { IfNone result ((r : ResponseValue) → ¬ IsResponse from octets.now r) }
{
    if from.port != NAME_PORT || octets.len() > OCTETS_MOST {
        return None;
    }
    match read(octets)? {
        Message::Found {
            id,
            name,
            entries,
            ..
        } if entries.len() <= ENTRY * ENTRIES_MOST => Some(Response {
            addr: from.ip,
            id,
            name,
            entries,
        }),
        _ => None,
    }
}

impl Response<'_> {
    /// Whether it answers an inquiry.
    pub fn answers(&self, inquiry: &Inquiry) -> bool
        ensures { result ≡ is_answered_by (response_of self.now) inquiry.now }
    {
        self.name.is(&inquiry.name) && inquiry.asked == self.addr && inquiry.id == self.id
    }
}

/// The addresses of the entries of this kind, in their order.
pub(crate) fn listed_in(kind: Kind, entries: &[u8]) -> ArrayVec<u32, ENTRIES_MOST>
    requires { length entries.now ≤ 6 * ENTRIES_MOST }
    ensures { result.items ≡ listed kind entries.now }
{
    let mut addrs = ArrayVec::new();
    for n in 0..entries.len() / ENTRY {
        let entry = &entries[ENTRY * n..ENTRY * n + ENTRY];
        if is_of_kind(entry, kind) {
            addrs.push(read_long(entry, 2));
        }
    }
    addrs
}

/// Whether an entry is of this kind, by G alone.
fn is_of_kind(entry: &[u8], kind: Kind) -> bool
    requires { length entry.now ≡ 6 }
    ensures { result ≡ same_kind (kind_in entry.now) kind }
{
    let own = if entry[0] < GROUP {
        Kind::Unique
    } else {
        Kind::Group
    };
    is_same_kind(own, kind)
}
