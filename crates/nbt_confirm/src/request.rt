//! A request that waits, and the request to wait that it may be sent.

ghost use Rattle.std.specs.Prelude.{◌≡◌, ◌+◌, ◌<◌, ◌≤◌, ◌^◌};
ghost use Rattle.nbt_name.specs.Wire.{IsName};
ghost use Rattle.nbt_name.specs.Words.{word};
ghost use Rattle.nbt_lease.specs.Config.{milliseconds};
ghost use Rattle.nbt_lease.specs.declared.config.TheConstants.{LONGEST_MOST};
ghost use Rattle.nbt_packet.specs.Message.{nb, wait};
ghost use Rattle.nbt_packet.specs.Spelling.{Spells};
ghost use Rattle.nbt_packet.specs.Text.{answer_octets};
ghost use Rattle.nbt_confirm.specs.Inquiries.{same_kind};
ghost use Rattle.nbt_confirm.specs.Waiting as spec;
ghost use Rattle.nbt_confirm.specs.Waiting.{is_asking, is_for, is_past, is_same, wait_form, waiting_flags};

use crate::wire::{put_header, put_record_fields};
use arrayvec::ArrayVec;
use nbt_lease::Moment;
use nbt_name::{Addr, Kind, Name, put_word};

/// The flags of WAIT FOR ACKNOWLEDGEMENT RESPONSE: OPCODE 7, AA (RFC 1002 section 4.2.16).
const WAIT: u16 = 0xBC00;
/// How many octets its RDATA has: the flags of the request that waits (RFC 1002 section 4.2.16).
const RDLENGTH: u16 = 2;
/// By how many seconds a request waits longer than the lease lasts (our profile).
const LONGER: u32 = 5;

/// What a request waits for (our profile).
#[derive(Clone, Copy, Debug, PartialEq, Eq)]
pub enum Awaits {
    /// The answer of the holder, whose lease stands in its way.
    Holder,
    /// The answer of the requester, since the holder was silent.
    Requester,
    /// The end of the holder's lease, in milliseconds; nobody is asked before.
    LeaseEnd(u64),
    /// The answer of the requester, once that lease is over.
    AfterLease,
    /// The answer of the sender, which asks by OPCODE 15 for a name that nobody leases.
    Sender,
    /// The answer of the address that sent it, which isn't the one that it is for: the sender may be behind a masquerade.
    Source,
    /// The answer of a further address that its holder's machine listed: it is listed only once it has answered itself.
    Reach,
}

impl Awaits {
    /// Whether it is an answer.
    pub fn is_asking(self) -> bool
        ensures { result ≡ is_asking self }
    {
        match self {
            Awaits::LeaseEnd(_) => false,
            _ => true,
        }
    }

    /// Whether it is a lease's end that is there at `now`.
    pub(crate) fn is_past(self, now: u64) -> bool
        ensures { result ≡ is_past now self }
    {
        match self {
            Awaits::LeaseEnd(until) => until <= now,
            _ => false,
        }
    }
}

/// How a request came.
#[derive(Clone, Copy, Debug, PartialEq, Eq)]
pub struct Came {
    /// The endpoint that sent it.
    pub from: Addr,
    /// The server's own end at which it came; `None` for its first.
    pub local: Option<Addr>,
    /// The word of R, OPCODE, NM_FLAGS and RCODE that it came with (RFC 1002 section 4.2.1.1).
    pub flags: u16,
}

/// A registration or a refresh that waits, with what its reply needs.
#[derive(Debug, Drop)]
pub struct Request {
    /// The endpoint that sent it.
    pub from: Addr,
    /// The server's own end at which it came, from which its reply leaves; `None` for its first.
    pub local: Option<Addr>,
    /// NAME_TRN_ID, which its reply has too.
    pub id: u16,
    /// The word of R, OPCODE, NM_FLAGS and RCODE that it came with (RFC 1002 section 4.2.1.1).
    pub flags: u16,
    /// The name.
    pub name: Name,
    /// Unique, or a group's.
    pub kind: Kind,
    /// NB_ADDRESS, the 32-bit address that it is for.
    pub addr: u32,
    /// The TTL that it asks for, in seconds.
    pub ttl: u32,
    /// What it waits for.
    pub awaits: Awaits,
    /// The 32-bit address that is asked.
    pub asked: u32,
}

impl Request {
    /// Whether another one is the same request, sent by the same endpoint.
    pub(crate) fn is_same(&self, other: &Request) -> bool
        ensures { result ≡ is_same self.now other.now }
    {
        other.from.ip == self.from.ip
            && other.from.port == self.from.port
            && other.id == self.id
            && other.name == self.name
    }

    /// Whether it waits for the answer of this address about this name.
    pub(crate) fn is_for(&self, name: &Name, kind: Kind, asked: u32) -> bool
        ensures { result ≡ is_for name.now kind asked self.now }
    {
        self.awaits.is_asking()
            && self.name == *name
            && is_same_kind(self.kind, kind)
            && self.asked == asked
    }
}

/// Whether two kinds are the same.
pub(crate) fn is_same_kind(one: Kind, other: Kind) -> bool
    ensures { result ≡ same_kind one other }
{
    match one {
        Kind::Unique => match other {
            Kind::Unique => true,
            Kind::Group => false,
        },
        Kind::Group => match other {
            Kind::Unique => false,
            Kind::Group => true,
        },
    }
}

/// The TTL of the request to wait for a lease that ends at `end`, in milliseconds: the seconds that are left of it, rounded up, and
/// five (our profile). The caller must ensure that `end` is at most `now` and the longest lease that a server may have.
pub fn wait_seconds(now: Moment, end: u64) -> u32
    requires { end ≤ now + milliseconds LONGEST_MOST }
    ensures { result ≡ spec.wait_seconds now end }
{
    let left = end.saturating_sub(now.get());
    left.div_ceil(1000) as u32 + LONGER
}

/// Leaves in `out` the request to wait for so many seconds, and nothing else: WAIT FOR ACKNOWLEDGEMENT RESPONSE with OPCODE and
/// NM_FLAGS of the request as its RDATA (RFC 1002 section 4.2.16).
pub fn write_wait(request: &Request, seconds: u32, out: &mut ArrayVec<u8, 576>)
    ensures form { out.new.items ≡ wait_form request.now seconds }
    ensures spells { Spells out.new.items (wait request.now.id request.now.name seconds) }
{
    put_wait(
        request.id,
        flags_of(request.flags),
        &request.name,
        seconds,
        out,
    );
}

/// A response of one answer, with these flags as its RDATA.
fn put_wait(id: u16, flags: u16, name: &Name, seconds: u32, out: &mut ArrayVec<u8, 576>)
    ensures form { out.new.items ≡ answer_octets id 0xBC00 name.now nb seconds (word flags) }
    ensures number { id < 2 ^ 16 }
    ensures seconds_fit { seconds < 2 ^ 32 }
    ensures name { IsName name.now }
{
    put_header(id, WAIT, 0, 1, out);
    name.put_wire(out);
    put_record_fields(seconds, RDLENGTH, out);
    put_word(out, flags);
}

/// OPCODE and NM_FLAGS of these flags, without R and RCODE (RFC 1002 section 4.2.1.1).
fn flags_of(flags: u16) -> u16
    ensures { result ≡ waiting_flags flags }
{
    flags / 16 % 0x800 * 16
}
