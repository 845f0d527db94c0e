//! Which requests wait, by what a name server makes of them (our profile).

ghost use Rattle.std.specs.Prelude.{◌≡◌, ◌≢◌, ◌≤◌, ◌↔◌, Some, IfNone, IfSome, IsTrue, length, ℕ};
ghost use Rattle.nbt_lease.specs.Lease.{leases_at};
ghost use Rattle.nbt_name.specs.declared.addr.Kind.TheVariants.{Group, Unique};
ghost use Rattle.nbt_packet.specs.declared.message.Registration.{Registration as Registered};
ghost use Rattle.nbt_confirm.specs.declared.request.Awaits.{Awaits as Waited};
ghost use Rattle.nbt_confirm.specs.declared.request.Request.{Request as Waiting};
ghost use Rattle.nbt_confirm.specs.Deciding.{AsksFirst, Claims, IsHeldBack, IsLeasedBy, MayBegin, MayJoin, request_of};
ghost use Rattle.nbt_server.specs.Outcomes.{claim_in};
ghost use Rattle.nbt_server.specs.declared.outcome.Claim.{Claim as Refusing};
ghost use Rattle.nbt_server.specs.declared.outcome.Outcome.TheVariants.{Refused};
ghost use Rattle.nbt_server.specs.declared.outcome.Refusal.TheVariants.{Active};

use crate::request::{Awaits, Came, Request, is_same_kind};
use nbt_lease::{Lease, Moment, Table};
use nbt_name::{Addr, Kind, Name};
use nbt_packet::{Message, Registration, read};
use nbt_server::{Claim, Outcome, Refusal};

/// The request that waits for the holder, where the server did this with these octets, which came so, at `now`: it refused a
/// registration or a refresh of a unique name with ACT_ERR (6), since another address leases that name, and its reply is held back. `None`
/// for all else, whose reply goes out (our profile). `now` is at least the table's `last()`.
pub fn held_back(
    table: &Table,
    now: Moment,
    came: Came,
    octets: &[u8],
    outcome: &Outcome,
) -> Option<Request>
    requires { table.now.last ≤ now }
    ensures held { IfSome result (IsHeldBack table.now now came octets.now outcome.now) }
    ensures others { IfNone result ((request : Waiting) → ¬ IsHeldBack table.now now came octets.now outcome.now request) }
{
    let (claim, holder) = unique_refused(outcome)?;
    let asked = claim_read(octets)?;
    if !is_claim(claim, &asked) || !is_leased_by(table, now, &claim.name, holder) {
        return None;
    }
    Some(request_of(came, &asked, Awaits::Holder, holder))
}

/// What a request of OPCODE 15 waits for before the server handles it: the answer of the address that sent it, as `Source` where it is
/// for another address, and as `Sender` where the server would begin a lease. `None` where the server handles it at once: it renews a
/// lease, or refuses the request (our profile). `now` is at least the table's `last()`.
pub fn asks_first(
    table: &Table,
    now: Moment,
    from: Addr,
    claim: &Registration<'_>,
) -> Option<Awaits>
    requires { table.now.last ≤ now }
    ensures asks { IfSome result (AsksFirst table.now now from claim.now) }
    ensures none { IfNone result ((awaits : Waited) → ¬ AsksFirst table.now now from claim.now awaits) }
{
    if claim.name.is_star() {
        return None;
    }
    if claim.addr != from.ip {
        return Some(Awaits::Source);
    }
    let name = claim.name.to_name();
    if may_begin(table, now, &name, claim.kind, from.ip) {
        Some(Awaits::Sender)
    } else {
        None
    }
}

/// The request that a claim is which came so, as it waits for what the machine at the 32-bit address `asked` says (our profile). The TTL
/// stays in seconds.
pub fn request_of(came: Came, claim: &Registration<'_>, awaits: Awaits, asked: u32) -> Request
    ensures { result ≡ request_of came claim.now awaits asked }
{
    Request {
        from: came.from,
        local: came.local,
        id: claim.id,
        flags: came.flags,
        name: claim.name.to_name(),
        kind: claim.kind,
        addr: claim.addr,
        ttl: claim.ttl,
        awaits,
        asked,
    }
}

/// The claim of a unique name that was refused since its name has other leases, and the address of the first of them.
fn unique_refused(outcome: &Outcome) -> Option<(&Claim, u32)>
    ensures some { IfSome result (λ pair. (outcome.now ≡ Refused pair.0.now (Active pair.1)) × (pair.0.now.kind ≡ Unique)) }
    ensures none { IfNone result ((claim : Refusing) (holder : ℕ) → outcome.now ≡ Refused claim (Active holder) → claim.kind ≢ Unique) }
{
    match outcome {
        Outcome::Refused(claim, Refusal::Active(holder)) => match claim.kind {
            Kind::Unique => Some((claim, *holder)),
            Kind::Group => None,
        },
        _ => None,
    }
}

/// The registration or refresh that the octets spell, if they spell one.
fn claim_read(octets: &[u8]) -> Option<Registration<'_>>
    ensures claims { (r : Registered) → (result ≡ Some r) ↔ Claims octets.now r }
    ensures room { IfSome result (λ r. 12 ≤ length octets.now) }
{
    match read(octets)? {
        Message::Registration(claim) => Some(claim),
        Message::Refresh(claim) => Some(claim),
        _ => None,
    }
}

/// Whether a claim is of this registration.
fn is_claim(claim: &Claim, asked: &Registration<'_>) -> bool
    ensures { IsTrue result ↔ (claim.now ≡ claim_in asked.now) }
{
    asked.name.is(&claim.name) && asked.addr == claim.addr && is_same_kind(asked.kind, claim.kind)
}

/// Whether this address leases the name as a unique one.
fn is_leased_by(table: &Table, now: Moment, name: &Name, holder: u32) -> bool
    requires { table.now.last ≤ now }
    ensures { IsTrue result ↔ IsLeasedBy holder (leases_at now table.now.rows name.now) }
{
    match table.members(now, name).next() {
        Some(lease) => is_unique_of(lease, holder),
        None => false,
    }
}

/// Whether a lease is a unique name's, of this address.
fn is_unique_of(lease: Lease, holder: u32) -> bool
    ensures { IsTrue result ↔ ((lease.kind ≡ Unique) × (lease.addr ≡ holder)) }
{
    lease.kind == Kind::Unique && lease.addr == holder
}

/// Whether the address has no lease of the name, and one of this kind may begin beside those of others.
fn may_begin(table: &Table, now: Moment, name: &Name, kind: Kind, ip: u32) -> bool
    requires { table.now.last ≤ now }
    ensures { IsTrue result ↔ MayBegin kind ip (leases_at now table.now.rows name.now) }
{
    match kind {
        Kind::Unique => table.members(now, name).next().is_none(),
        Kind::Group => may_join(table, now, name, ip),
    }
}

/// Whether all leases of the name are a group's, and none is this address's.
fn may_join(table: &Table, now: Moment, name: &Name, ip: u32) -> bool
    requires { table.now.last ≤ now }
    ensures { IsTrue result ↔ MayJoin ip (leases_at now table.now.rows name.now) }
{
    for lease in table.members(now, name) {
        if !is_joined_by(lease, ip) {
            return false;
        }
    }
    true
}

/// Whether it is a group's, and not this address's.
fn is_joined_by(lease: Lease, ip: u32) -> bool
    ensures { IsTrue result ↔ ((lease.kind ≡ Group) × (lease.addr ≢ ip)) }
{
    lease.kind == Kind::Group && lease.addr != ip
}
