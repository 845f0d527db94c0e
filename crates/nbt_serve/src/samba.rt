//! Requests that are taken for registrations, by one octet of their flags (RFC 1002 section 4.2.1.1).
//!
//! ```text
//!   0   1   2   3   4   5   6   7   8   9  10  11  12  13  14  15
//! +---+---+---+---+---+---+---+---+---+---+---+---+---+---+---+---+
//! | R |    OPCODE     |AA |TC |RD |RA | 0 | 0 | B |     RCODE     |
//! +---+---+---+---+---+---+---+---+---+---+---+---+---+---+---+---+
//! ```

ghost use Rattle.std.specs.Prelude.{◌≡◌, ◌↔◌, Some, None, IsTrue, IsNone, IfSome, MatchBool, length, ◌<◌};
ghost use Rattle.nbt_name.specs.declared.addr.Kind.TheVariants.{Group};
ghost use Rattle.nbt_packet.specs.declared.message.Registration.{Registration as Claim};
ghost use Rattle.nbt_name.specs.Words.{word_at};
ghost use Rattle.nbt_packet.specs.Message.{Requests, IsRequest, DesiresRecursion, opcode_of, registration, overwrite};
ghost use Rattle.nbt_packet.specs.Spelling.{Spells};
ghost use Rattle.nbt_serve.specs.Samba.{multi_homed, registration_octet, as_registration, IsTaken};
ghost use Rattle.nbt_serve.specs.Inner.SambaRequests.{Asks, Meets};

use nbt_name::{Kind, Name, read_word};
use nbt_packet::{Message, Registration, read};
use std::marker::Model;

/// Where the word of R, OPCODE, NM_FLAGS and RCODE stands (RFC 1002 section 4.2.1.1).
const FLAGS: usize = 2;

/// Where that word ends.
const FLAGS_END: usize = 4;

/// OPCODE of a multi-homed registration (our profile: RFC 1002 section 4.2.1.1 doesn't list it).
const OPCODE_MULTI_HOMED: u16 = 15;

/// OPCODE of a registration and of an overwrite (RFC 1002 section 4.2.1.1).
const OPCODE_REGISTRATION: u16 = 5;

/// The flags' first octet of a registration: OPCODE 5 and RD (RFC 1002 section 4.2.2).
const REGISTRATION_FLAGS: u8 = 0x29;

/// A claim with a name of its own, since the octets change before it is compared with what they spell then.
#[derive(Debug, Drop)]
struct OwnClaim {
    id: u16,
    name: Name,
    kind: Kind,
    addr: u32,
    ttl: u32,
}

impl Model for OwnClaim {
    ghost use Rattle.nbt_packet.specs.declared.message.Registration.{Registration as Claim};

    ghost Value = { Claim };

    ghost view = { λ c. record { id = c.id; name = c.name; kind = c.kind; addr = c.addr; ttl = c.ttl } };
}

impl OwnClaim {
    fn of(claim: &Registration<'_>) -> OwnClaim
        ensures { result ≡ claim.now }
    {
        OwnClaim {
            id: claim.id,
            name: claim.name.to_name(),
            kind: claim.kind,
            addr: claim.addr,
            ttl: claim.ttl,
        }
    }

    /// Whether it is the same as another one.
    fn is_same(&self, claim: &Registration<'_>) -> bool
        ensures { IsTrue result ↔ (self.now ≡ claim.now) }
    {
        self.id == claim.id
            && claim.name.is(&self.name)
            && self.kind == claim.kind
            && self.addr == claim.addr
            && self.ttl == claim.ttl
    }
}

/// What a request asks for, which is to be taken for a registration.
#[derive(Debug, Drop)]
enum Asked {
    /// OPCODE 15: what it is as a registration.
    MultiHomed,
    /// An overwrite of this group.
    Overwrite(OwnClaim),
}

/// Makes a registration of octets that are to be taken for one, by the third of them alone: R is clear then, OPCODE is 5
/// and RD is set; the other bits of it stay. They are a request of OPCODE 15 sent to one end, or an overwrite of a group
/// (RFC 1002 section 4.2.3), and with that octet they spell a registration, which has one entry; an overwrite becomes the
/// registration of its own name, kind, address, TTL and id. Returns whether they are taken. All other octets stay as they
/// are: a multi-homed registration of two entries, an overwrite of a unique name, one in whose name a pointer leads to the
/// flags (our profile).
pub fn take_registration(octets: &mut [u8]) -> bool
    ensures taken { IsTrue result ↔ ((r : Claim) × IsTaken octets.old r) }
    ensures octets { MatchBool result (octets.new ≡ as_registration octets.old) (octets.new ≡ octets.old) }
{
    let Some(asked) = asked_in(octets) else {
        return false;
    };
    nbt_packet::laws::one_message_spelled();
    let octet = octets[FLAGS];
    octets[FLAGS] = registration_octet(octet);
    let is_taken = is_met(octets, &asked);
    if !is_taken {
        octets[FLAGS] = octet;
    }
    is_taken
}

/// What the octets ask for, where that can be taken for a registration.
fn asked_in(octets: &[u8]) -> Option<Asked>
    ensures asks { IfSome result (Asks octets.now) }
    ensures none { IsNone result → (r : Claim) → ¬ IsTaken octets.now r }
    ensures room { IfSome result (λ asked. 3 < length octets.now) }
{
    if octets.len() < FLAGS_END {
        return None;
    }
    let flags = read_word(octets, FLAGS);
    if is_multi_homed(flags) {
        return Some(Asked::MultiHomed);
    }
    if !is_overwrite(flags) {
        return None;
    }
    let group = group_overwrite_in(octets)?;
    Some(Asked::Overwrite(group))
}

/// The overwrite of a group that the octets spell, if they spell one.
fn group_overwrite_in(octets: &[u8]) -> Option<OwnClaim>
    ensures { (r : Claim) → (result ≡ Some r) ↔ (Spells octets.now (overwrite r) × (r.kind ≡ Group)) }
{
    match read(octets)? {
        Message::Overwrite(claim) => match claim.kind {
            Kind::Group => Some(OwnClaim::of(&claim)),
            Kind::Unique => None,
        },
        _ => None,
    }
}

/// The registration that the octets spell, if they spell one.
fn registration_in(octets: &[u8]) -> Option<Registration<'_>>
    ensures { (r : Claim) → (result ≡ Some r) ↔ Spells octets.now (registration r) }
{
    match read(octets)? {
        Message::Registration(claim) => Some(claim),
        _ => None,
    }
}

/// R clear, OPCODE 15 and B clear.
fn is_multi_homed(flags: u16) -> bool
    ensures { IsTrue result ↔ Requests flags multi_homed }
{
    flags < 0x8000 && flags / 0x800 % 16 == OPCODE_MULTI_HOMED && flags / 0x10 % 2 == 0
}

/// R clear, OPCODE 5 and RD clear: so most octets are told without being read.
fn is_overwrite(flags: u16) -> bool
    ensures { IsTrue result ↔ (IsRequest flags × (opcode_of flags ≡ 5) × (¬ DesiresRecursion flags)) }
{
    flags < 0x8000 && flags / 0x800 % 16 == OPCODE_REGISTRATION && flags / 0x100 % 2 != 1
}

/// The flags' first octet with R clear, OPCODE 5 and RD set.
fn registration_octet(octet: u8) -> u8
    ensures { result ≡ registration_octet octet }
{
    REGISTRATION_FLAGS + 2 * (octet / 2 % 4)
}

/// Whether the octets spell a registration, and that which was asked for.
fn is_met(octets: &[u8], asked: &Asked) -> bool
    ensures { IsTrue result ↔ ((r : Claim) × Spells octets.now (registration r) × Meets asked.now r) }
{
    let Some(claim) = registration_in(octets) else {
        return false;
    };
    match asked {
        Asked::MultiHomed => true,
        Asked::Overwrite(group) => group.is_same(&claim),
    }
}
