//! What the log has of a datagram.

ghost use Rattle.std.specs.Prelude.{◌≡◌, if◌then◌else◌};
ghost use Rattle.nbt_log.specs.Kinds.{entry_of, is_broadcast, kind_of, told_kind};

use nbt_name::{Addr, read_word};
use nbt_server::Outcome;

/// Where the word of R, OPCODE, NM_FLAGS and RCODE ends (RFC 1002 section 4.2.1.1).
const FLAGS_END: usize = 4;

/// Of which kind the line of a datagram is. Lines of each kind are limited by themselves.
#[derive(Clone, Copy, Debug, PartialEq, Eq)]
pub enum LineKind {
    /// A lease was granted.
    Granted,
    /// A lease was renewed.
    Renewed,
    /// A registration, a refresh or an overwrite was refused.
    Refused,
    /// A lease was released.
    Released,
    /// A release was refused.
    NotReleased,
    /// A request came during the silence after the start.
    Unanswered,
    /// A message that is no request to a server, sent to this server.
    Foreign,
    /// Octets that spell no message.
    Malformed,
    /// A broadcast of a B node: a request with B set that is no request to a server.
    Broadcast,
}

/// A datagram that a name server handled.
#[derive(Debug, PartialEq, Eq, Drop)]
pub struct Entry {
    /// Its sender.
    pub from: Addr,
    /// How many octets it had.
    pub count: usize,
    /// Whether its flags are those of a broadcast: a request with B set.
    pub is_broadcast: bool,
    /// What the server did with it.
    pub outcome: Outcome,
}

impl Entry {
    /// The entry of a datagram of these octets, with which the server did this.
    pub fn of(from: Addr, octets: &[u8], outcome: Outcome) -> Entry
        ensures { result ≡ entry_of from octets.now outcome }
    {
        Entry {
            from,
            count: octets.len(),
            is_broadcast: is_broadcast(octets),
            outcome,
        }
    }

    /// Of which kind its line is, if it has one: a broadcast has one where `broadcasts` are wanted. A query, a release of a name
    /// without leases and a lost datagram have none.
    pub fn told_kind(&self, broadcasts: bool) -> Option<LineKind>
        ensures { result ≡ told_kind broadcasts self.now }
    {
        let kind = self.kind()?;
        if kind == LineKind::Broadcast && !broadcasts {
            return None;
        }
        Some(kind)
    }

    /// Of which kind its line is, if it has one.
    fn kind(&self) -> Option<LineKind>
        ensures { result ≡ kind_of self.now }
    {
        match &self.outcome {
            Outcome::Granted(_, _) => Some(LineKind::Granted),
            Outcome::Renewed(_, _) => Some(LineKind::Renewed),
            Outcome::Refused(_, _) => Some(LineKind::Refused),
            Outcome::Released(_) => Some(LineKind::Released),
            Outcome::NotReleased(_, _) => Some(LineKind::NotReleased),
            Outcome::Silent(_) => Some(LineKind::Unanswered),
            Outcome::ForNodes => Some(unknown_kind(self.is_broadcast, LineKind::Foreign)),
            Outcome::NoMessage => Some(unknown_kind(self.is_broadcast, LineKind::Malformed)),
            Outcome::NotLeased(_) | Outcome::Found(_) | Outcome::NotFound(_) => None,
        }
    }
}

/// The kind of what was no request to a server.
fn unknown_kind(is_broadcast: bool, kind: LineKind) -> LineKind
    ensures { result ≡ (if is_broadcast then LineKind.Broadcast else kind) }
{
    if is_broadcast {
        LineKind::Broadcast
    } else {
        kind
    }
}

/// Whether R is clear and B is set (RFC 1002 section 4.2.1.1).
fn is_broadcast(octets: &[u8]) -> bool
    ensures { result ≡ is_broadcast octets.now }
{
    if octets.len() < FLAGS_END {
        return false;
    }
    let flags = read_word(octets, 2);
    flags < 0x8000 && flags / 0x10 % 2 == 1
}
