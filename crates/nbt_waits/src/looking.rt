//! Which datagrams are looked at before a server handles them, and what is done with these.

ghost use Rattle.std.specs.Prelude.{◌≡◌, ◌≢◌, ◌⊎◌, ◌↔◌, ◌≤◌, [], Some, IfNone, IfSome, IsTrue};
ghost use Rattle.nbt_packet.specs.declared.message.Registration.{Registration as Claimed};
ghost use Rattle.nbt_packet.specs.Message.{refresh, registration};
ghost use Rattle.nbt_packet.specs.Packet.{RecordValue, record_if};
ghost use Rattle.nbt_packet.specs.Spelling.{Spells};
ghost use Rattle.nbt_packet.specs.Text.{entry};
ghost use Rattle.nbt_confirm.specs.declared.request.Awaits.{Awaits as Awaited};
ghost use Rattle.nbt_confirm.specs.Deciding.{AsksFirst, Claims};
ghost use Rattle.nbt_waits.specs.Doing.{done_by};
ghost use Rattle.nbt_waits.specs.Looking.{HasAdditional, IsAside, IsByPNode, IsHeard, IsMultiHomed, IsOthersRefresh, IsToBeAsked, LooksFirst};

use crate::asking::Asking;
use crate::note::Settled;
use nbt_confirm::{Came, NAME_PORT, asks_first, request_of};
use nbt_lease::{Moment, Table};
use nbt_name::Kind;
use nbt_packet::flags::{is_request, opcode};
use nbt_packet::{Message, Record, Registration, decode, entry_octets, read};

/// OPCODE of a query (RFC 1002 section 4.2.1.1).
pub(crate) const QUERY: u16 = 0;

/// OPCODEs of a refresh (RFC 1002 section 4.2.1.1, which has both).
pub(crate) const REFRESH: u16 = 8;

pub(crate) const OTHER_REFRESH: u16 = 9;

/// OPCODE of a multi-homed registration (our profile: RFC 1002 section 4.2.1.1 doesn't list it).
pub(crate) const MULTI_HOMED: u16 = 15;

/// Whether a datagram that came so is set aside, and looked at before the server handles it (our profile): a response to a query, from port
/// 137, while an inquiry is under way; what came as a request of OPCODE 15, and spells a registration now; and a refresh for another
/// address than the one that sent it, as it comes from behind a masquerade, or by another kind of node than a P node, as nmbd is. Our nodes
/// are P nodes.
pub fn is_aside(came: Came, octets: &[u8], is_asking: bool) -> bool
    ensures { IsTrue result ↔ IsAside is_asking came octets.now }
{
    is_heard(came, is_asking) || is_multi_homed(came, octets) || is_others_refresh(came, octets)
}

impl Asking {
    /// Looks at a claim that was set aside, which came so: it waits for what its sender says, where the sender is asked first. `None` where
    /// it comes to the server at once. `now` is at least the table's `last()`.
    pub fn look(&mut self, table: &Table, now: Moment, came: Came, octets: &[u8]) -> Option<Settled>
        requires { table.now.last ≤ now }
        ensures waits { IfSome result (λ settled. LooksFirst table.now now came octets.now self.old (done_by settled [] self.new)) }
        ensures none { IfNone result (((r : Claimed) (awaits : Awaited) → Claims octets.now r → ¬ AsksFirst table.now now came.from r awaits) × (self.new ≡ self.old)) }
    {
        let claim = claim_in(octets)?;
        let awaits = asks_first(table, now, came.from, &claim)?;
        Some(self.wait(request_of(came, &claim, awaits, came.from.ip)))
    }
}

/// Whether it is a response to a query, from the port of the name service, while an inquiry is under way.
fn is_heard(came: Came, is_asking: bool) -> bool
    ensures { IsTrue result ↔ IsHeard is_asking came }
{
    is_asking
        && !is_request(came.flags)
        && came.from.port == NAME_PORT
        && opcode(came.flags) == QUERY
}

/// Whether it came by OPCODE 15, and spells a registration now.
fn is_multi_homed(came: Came, octets: &[u8]) -> bool
    ensures { IsTrue result ↔ IsMultiHomed came octets.now }
{
    is_request(came.flags) && opcode(came.flags) == MULTI_HOMED && is_registration(octets)
}

/// Whether it is a refresh of which the sender is asked first.
fn is_others_refresh(came: Came, octets: &[u8]) -> bool
    ensures { IsTrue result ↔ IsOthersRefresh came octets.now }
{
    is_request(came.flags)
        && (opcode(came.flags) == REFRESH || opcode(came.flags) == OTHER_REFRESH)
        && is_refresh_to_ask(came.from.ip, octets)
}

/// Whether octets spell a registration.
fn is_registration(octets: &[u8]) -> bool
    ensures { IsTrue result ↔ ((r : Claimed) × Spells octets.now (registration r)) }
{
    match registration_in(octets) {
        Some(_) => true,
        None => false,
    }
}

/// The registration that octets spell, if they spell one.
fn registration_in(octets: &[u8]) -> Option<Registration<'_>>
    ensures { (r : Claimed) → (result ≡ Some r) ↔ Spells octets.now (registration r) }
{
    match read(octets)? {
        Message::Registration(claim) => Some(claim),
        _ => None,
    }
}

/// Whether octets spell a refresh of which the sender is asked first, at this address.
fn is_refresh_to_ask(ip: u32, octets: &[u8]) -> bool
    ensures { IsTrue result ↔ ((r : Claimed) × Spells octets.now (refresh r) × IsToBeAsked ip octets.now r) }
{
    match refresh_in(octets) {
        Some(claim) => claim.addr != ip || !is_by_p_node(octets, &claim),
        None => false,
    }
}

/// The refresh that octets spell, if they spell one.
fn refresh_in(octets: &[u8]) -> Option<Registration<'_>>
    ensures { (r : Claimed) → (result ≡ Some r) ↔ Spells octets.now (refresh r) }
{
    match read(octets)? {
        Message::Refresh(claim) => Some(claim),
        _ => None,
    }
}

/// Whether the entry of a claim has the NB_FLAGS of a P node (RFC 1002 section 4.2.1.3).
fn is_by_p_node(octets: &[u8], claim: &Registration<'_>) -> bool
    ensures { IsTrue result ↔ IsByPNode octets.now claim.now }
{
    match additional_in(octets) {
        Some(record) => is_entry(record.rdata, claim.kind, claim.addr),
        None => false,
    }
}

/// Whether RDATA is an entry as a P node writes it.
fn is_entry(rdata: &[u8], kind: Kind, addr: u32) -> bool
    ensures { IsTrue result ↔ (rdata.now ≡ entry kind addr) }
{
    rdata == entry_octets(kind, addr).as_slice()
}

/// The additional record that octets have, if they have one.
fn additional_in(octets: &[u8]) -> Option<Record<'_>>
    ensures { (additional : RecordValue) → (record_if result ≡ Some additional) ↔ HasAdditional octets.now additional }
{
    match decode(octets) {
        Ok((packet, _)) => packet.additional,
        Err(_) => None,
    }
}

/// The registration or refresh that the octets spell, if they spell one (RFC 1002 sections 4.2.2 and 4.2.4).
pub fn claim_in(octets: &[u8]) -> Option<Registration<'_>>
    ensures { (r : Claimed) → (result ≡ Some r) ↔ Claims octets.now r }
{
    match read(octets)? {
        Message::Registration(claim) => Some(claim),
        Message::Refresh(claim) => Some(claim),
        _ => None,
    }
}
