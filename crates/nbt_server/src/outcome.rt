//! What a server did with a datagram.

ghost use Rattle.std.specs.Prelude.{◌≡◌, ◌≤◌};
ghost use Rattle.nbt_server.specs.Outcomes.{claim_in, has_reply, rcode_of};

use nbt_name::{Kind, Name};
use nbt_packet::Registration;

/// RCODE SRV_ERR: the server failed (RFC 1002 section 4.2.6).
const SERVER_ERROR: u8 = 2;
/// RCODE RFS_ERR: the request is refused for policy reasons (RFC 1002 section 4.2.6).
const REFUSED: u8 = 5;
/// RCODE ACT_ERR: another node owns the name (RFC 1002 section 4.2.6).
const ACTIVE: u8 = 6;

/// What a registration, a refresh, an overwrite or a release is about.
#[derive(Debug, PartialEq, Eq, Drop)]
pub struct Claim {
    /// The name.
    pub name: Name,
    /// Unique, or a group's.
    pub kind: Kind,
    /// NB_ADDRESS, the node's 32-bit address.
    pub addr: u32,
}

impl Claim {
    /// The claim of a registration, a refresh or an overwrite.
    pub(crate) fn from_registration(asked: &Registration<'_>) -> Claim
        ensures { result ≡ claim_in asked.now }
    {
        Claim {
            name: asked.name.to_name(),
            kind: asked.kind,
            addr: asked.addr,
        }
    }
}

/// Why a request is refused (RFC 1002 sections 4.2.6 and 4.2.11; which RCODE stands for what is our profile).
#[derive(Clone, Copy, Debug, PartialEq, Eq)]
pub enum Refusal {
    /// RFS_ERR (5): its address isn't the sender's.
    NotOwn,
    /// RFS_ERR (5): its name begins with `*`.
    Star,
    /// RFS_ERR (5): it is an overwrite.
    Overwrite,
    /// ACT_ERR (6): the name has other live leases; this is the 32-bit address of the first.
    Active(u32),
    /// SRV_ERR (2): the table is full of live leases.
    TableFull,
    /// SRV_ERR (2): the group has 1,000 live members.
    GroupFull,
    /// SRV_ERR (2): the sender has as many live leases as a client may have.
    ClientFull,
}

impl Refusal {
    /// The RCODE of the response: 2, 5 or 6.
    pub fn rcode(self) -> u8
        ensures value { result ≡ rcode_of self }
        ensures bound { result ≤ 15 }
    {
        match self {
            Refusal::NotOwn | Refusal::Star | Refusal::Overwrite => REFUSED,
            Refusal::Active(_) => ACTIVE,
            Refusal::TableFull | Refusal::GroupFull | Refusal::ClientFull => SERVER_ERROR,
        }
    }
}

/// What a server did with a datagram.
#[derive(Debug, PartialEq, Eq, Drop)]
pub enum Outcome {
    /// A lease was granted for this many seconds.
    Granted(Claim, u32),
    /// The node's lease was renewed for this many seconds.
    Renewed(Claim, u32),
    /// A registration, a refresh or an overwrite was refused.
    Refused(Claim, Refusal),
    /// The node's lease was released.
    Released(Claim),
    /// A release of a name without leases: the response is positive, and nothing changes.
    NotLeased(Claim),
    /// A release was refused: `NotOwn`, `Star` or `Active`.
    NotReleased(Claim, Refusal),
    /// A query for this name was answered with its leases.
    Found(Name),
    /// A query for this name was answered: it has no lease.
    NotFound(Name),
    /// No reply: a request for this name during the silence after the start.
    Silent(Name),
    /// No reply: a response or a status request, which are for nodes.
    ForNodes,
    /// No reply: the octets spell no message.
    NoMessage,
}

impl Outcome {
    /// Whether there is a reply.
    pub fn has_reply(&self) -> bool
        ensures { result ≡ has_reply self.now }
    {
        match self {
            Outcome::Silent(_) | Outcome::ForNodes | Outcome::NoMessage => false,
            _ => true,
        }
    }
}
