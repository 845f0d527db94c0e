//! What a name server does with a message (RFC 1002 section 5.1.4).

ghost use Rattle.std.specs.Prelude.{◌≡◌, ◌≢◌, ℕ, List, ◌+◌, ◌*◌, ◌<◌, ◌≤◌, ◌↔◌, Option, Some, Ok, IsTrue, IfOk, IfErr, IfSome, IfNone, OnErr, [], length};
ghost use Rattle.nbt_packet.specs.Message.{MessageValue, message_of, query, release, registered, released};
ghost use Rattle.nbt_packet.specs.Spelling.{Spells, AreWritten};
ghost use Rattle.nbt_packet.specs.Text.{entries_most};
ghost use Rattle.nbt_lease.specs.Config.{IsConfig, milliseconds};
ghost use Rattle.nbt_lease.specs.declared.config.TheConstants.{LONGEST_MOST};
ghost use Rattle.nbt_lease.specs.Lease.{leases_at, latest_end, AreSound, HasNone};
ghost use Rattle.nbt_lease.specs.Rules.{IsLeastEnd};
ghost use Rattle.nbt_server.specs.Outcomes.{rcode_of, claim_in, not_own, holder, refusal_by, grant_outcome, IsUnanswered, Does, DoesWithin};
ghost use Rattle.nbt_server.specs.Serving.{AsksFor, IsOwn, seconds_until, entries, listed, is_cut, IsFull, IsOverLimit, NeedsMemory};

use crate::fault::ServerFault;
use crate::outcome::{Claim, Outcome, Refusal};
use arrayvec::ArrayVec;
use nbt_lease::{Grant, GrantFault, Moment, Released, Table};
use nbt_name::{LentName, Name};
use nbt_packet::{Message, Registration, entries_most, entry_octets, write};

/// RCODE NAM_ERR: the name has no lease (RFC 1002 section 4.2.14).
const NAME_ERROR: u8 = 3;

/// The most octets of a response's entries: 86 of six octets each, beside a name without a scope (RFC 1002 section
/// 4.2.13).
const ENTRIES_OCTETS: usize = 516;

/// Handles a message from the address `ip` by the rules, and returns what it did. A client may have `client_rows` live leases,
/// if that is limited. `out` has the reply, or stays empty if there is none. An outcome has a name by value, so what makes one returns
/// what is returned here, and it isn't moved again on its way out.
pub(crate) fn serve(
    table: &mut Table,
    client_rows: Option<u32>,
    now: Moment,
    ip: u32,
    message: Message<'_>,
    out: &mut ArrayVec<u8, 576>,
) -> Result<Outcome, ServerFault>
    requires limits { IsConfig table.old.config }
    requires time { table.old.last ≤ now }
    requires empty { out.old.items ≡ [] }
    ensures does { IfOk result (λ outcome. DoesWithin client_rows table.old now ip (message_of message.entry) outcome out.new.items (leases_at now table.new.rows)) }
    ensures fault { IfErr result (λ fault. fault ≡ ServerFault.OutOfMemory) }
    ensures memory { OnErr result (NeedsMemory table.old now ip (message_of message.entry)) }
    ensures room { OnErr result (¬ IsOverLimit client_rows table.old now ip (message_of message.entry)) }
    ensures refused { OnErr result ((leases_at now table.new.rows ≡ leases_at now table.old.rows) × (out.new.items ≡ [])) }
    ensures config { table.new.config ≡ table.old.config }
    ensures last { table.new.last ≤ now }
{
    match message {
        Message::Registration(asked) => lease(table, client_rows, now, ip, asked, out),
        Message::Refresh(asked) => lease(table, client_rows, now, ip, asked, out),
        Message::Overwrite(asked) => refuse(asked, Refusal::Overwrite, out),
        Message::Release {
            id,
            name,
            kind,
            addr,
        } => {
            let name = name.to_name();
            Ok(release(table, now, ip, id, Claim { name, kind, addr }, out))
        }
        Message::Query { id, name } => find(table, now, id, name, out),
        _ => Ok(Outcome::ForNodes),
    }
}

/// The outcome of a message during the silence after the start (our profile).
pub(crate) fn unanswered(message: Message<'_>) -> Outcome
    ensures { (octets : List ℕ) → Spells octets (message_of message.entry) → IsUnanswered octets result }
{
    match message {
        Message::Registration(asked) => Outcome::Silent(asked.name.to_name()),
        Message::Overwrite(asked) => Outcome::Silent(asked.name.to_name()),
        Message::Refresh(asked) => Outcome::Silent(asked.name.to_name()),
        Message::Release { name, .. } => Outcome::Silent(name.to_name()),
        Message::Query { name, .. } => Outcome::Silent(name.to_name()),
        _ => Outcome::ForNodes,
    }
}

/// Why a request isn't the sender's own; none if it is (our profile).
fn refusal_of(ip: u32, name: &LentName<'_>, addr: u32) -> Option<Refusal>
    ensures own { IfNone result (IsOwn ip name.now addr) }
    ensures other { IfSome result (λ refusal. (¬ IsOwn ip name.now addr) × (refusal ≡ not_own ip addr)) }
{
    if addr != ip {
        return Some(Refusal::NotOwn);
    }
    if name.is_star() {
        return Some(Refusal::Star);
    }
    None
}

/// Grants a registration or a refresh, or refuses it (RFC 1002 section 5.1.4.1). Expired leases are removed also where a client
/// is full: while some stand, its leases are counted one by one.
fn lease(
    table: &mut Table,
    client_rows: Option<u32>,
    now: Moment,
    ip: u32,
    asked: Registration<'_>,
    out: &mut ArrayVec<u8, 576>,
) -> Result<Outcome, ServerFault>
    requires { table.old.last ≤ now }
    ensures does { IfOk result (λ outcome. (m : MessageValue) → AsksFor m asked.entry → DoesWithin client_rows table.old now ip m outcome out.new.items (leases_at now table.new.rows)) }
    ensures fault { IfErr result (λ fault. fault ≡ ServerFault.OutOfMemory) }
    ensures memory { OnErr result ((m : MessageValue) → AsksFor m asked.entry → NeedsMemory table.old now ip m) }
    ensures room { OnErr result ((m : MessageValue) → AsksFor m asked.entry → ¬ IsOverLimit client_rows table.old now ip m) }
    ensures refused { OnErr result ((leases_at now table.new.rows ≡ leases_at now table.old.rows) × (out.new.items ≡ out.old.items)) }
    ensures config { table.new.config ≡ table.old.config }
    ensures last { table.new.last ≤ now }
{
    if let Some(refusal) = refusal_of(ip, &asked.name, asked.addr) {
        return refuse(asked, refusal, out);
    }
    let claim = Claim::from_registration(&asked);
    if is_full(client_rows, table, now, ip, &claim.name) {
        table.sweep_some(now);
        return refuse(asked, Refusal::ClientFull, out);
    }
    let fault = match table.grant(now, &claim.name, asked.addr, asked.kind, asked.ttl) {
        Ok(grant) => return accept(asked, claim, grant, out),
        Err(fault) => fault,
    };
    let Some(refusal) = refusal_by(fault, table, now, &claim.name) else {
        return Err(ServerFault::OutOfMemory);
    };
    refuse(asked, refusal, out)
}

/// Whether a client is full for a name: it has no lease of it, and as many as it may have. A lease of the name is looked for
/// first, so only a request that would begin one looks through the table.
fn is_full(client_rows: Option<u32>, table: &Table, now: Moment, ip: u32, name: &Name) -> bool
    requires { table.now.last ≤ now }
    ensures { IsTrue result ↔ IsFull client_rows table.now now ip name.now }
{
    let Some(most) = client_rows else {
        return false;
    };
    has_none(table, now, ip, name) && table.has_at_least(now, ip, most)
}

/// Whether a client has no live lease of a name.
fn has_none(table: &Table, now: Moment, ip: u32, name: &Name) -> bool
    requires { table.now.last ≤ now }
    ensures { IsTrue result ↔ HasNone ip (leases_at now table.now.rows name.now) }
{
    for lease in table.members(now, name) {
        if lease.addr == ip {
            return false;
        }
    }
    true
}

/// Why a grant is refused; none if it ran out of memory.
fn refusal_by(fault: GrantFault, table: &Table, now: Moment, name: &Name) -> Option<Refusal>
    requires { table.now.last ≤ now }
    ensures refusal { IfSome result (λ refusal. (refusal ≡ refusal_by (leases_at now table.now.rows name.now) fault) × (fault ≢ GrantFault.OutOfMemory)) }
    ensures memory { IfNone result (fault ≡ GrantFault.OutOfMemory) }
{
    match fault {
        GrantFault::Active => Some(Refusal::Active(holder(table, now, name))),
        GrantFault::TableFull => Some(Refusal::TableFull),
        GrantFault::GroupFull => Some(Refusal::GroupFull),
        GrantFault::OutOfMemory => None,
    }
}

/// The address of the first live lease of a name; 0 if there is none.
fn holder(table: &Table, now: Moment, name: &Name) -> u32
    requires { table.now.last ≤ now }
    ensures { result ≡ holder (leases_at now table.now.rows name.now) }
{
    match table.members(now, name).next() {
        Some(lease) => lease.addr,
        None => 0,
    }
}

/// Leaves in `out` the positive response to a registration or a refresh (RFC 1002 section 4.2.5).
fn accept(
    asked: Registration<'_>,
    claim: Claim,
    grant: Grant,
    out: &mut ArrayVec<u8, 576>,
) -> Result<Outcome, ServerFault>
    requires { claim ≡ claim_in asked }
    ensures outcome { result ≡ Ok (grant_outcome (claim_in asked.entry) grant) }
    ensures written { AreWritten (Some (registered 0 (record asked.entry { ttl = grant.seconds }))) out.new.items }
{
    respond(asked, 0, grant.seconds, out);
    if grant.renewed {
        Ok(Outcome::Renewed(claim, grant.seconds))
    } else {
        Ok(Outcome::Granted(claim, grant.seconds))
    }
}

/// Leaves in `out` the negative response to a registration, a refresh or an overwrite, with a TTL of 0 (RFC 1002 section
/// 4.2.6).
fn refuse(
    asked: Registration<'_>,
    refusal: Refusal,
    out: &mut ArrayVec<u8, 576>,
) -> Result<Outcome, ServerFault>
    ensures outcome { result ≡ Ok (Outcome.Refused (claim_in asked.entry) refusal) }
    ensures written { AreWritten (Some (registered (rcode_of refusal) (record asked.entry { ttl = 0 }))) out.new.items }
{
    let claim = Claim::from_registration(&asked);
    respond(asked, refusal.rcode(), 0, out);
    Ok(Outcome::Refused(claim, refusal))
}

/// Leaves in `out` a response to a registration, a refresh or an overwrite.
fn respond(asked: Registration<'_>, rcode: u8, ttl: u32, out: &mut ArrayVec<u8, 576>)
    requires { rcode ≤ 15 }
    ensures { AreWritten (Some (registered rcode (record asked.entry { ttl = ttl }))) out.new.items }
{
    let registration = Registration { ttl, ..asked };
    write(
        &Message::Registered {
            rcode,
            registration,
        },
        out,
    );
}

/// Releases a name, or refuses to (RFC 1002 section 5.1.4.1).
fn release(
    table: &mut Table,
    now: Moment,
    ip: u32,
    id: u16,
    claim: Claim,
    out: &mut ArrayVec<u8, 576>,
) -> Outcome
    requires { table.old.last ≤ now }
    ensures does { Does table.old now ip (release id claim.name claim.kind claim.addr) result out.new.items (leases_at now table.new.rows) }
    ensures config { table.new.config ≡ table.old.config }
    ensures last { table.new.last ≤ now }
{
    if let Some(refusal) = refusal_of(ip, &claim.name.lend(), claim.addr) {
        return refuse_release(id, claim, refusal, out);
    }
    match table.release(now, &claim.name, claim.addr) {
        Released::Gone => {
            respond_release(id, 0, &claim, out);
            Outcome::Released(claim)
        }
        Released::NoLease => {
            respond_release(id, 0, &claim, out);
            Outcome::NotLeased(claim)
        }
        Released::OfOthers => {
            let holder = holder(table, now, &claim.name);
            refuse_release(id, claim, Refusal::Active(holder), out)
        }
    }
}

/// Leaves in `out` the negative response to a release (RFC 1002 section 4.2.11).
fn refuse_release(id: u16, claim: Claim, refusal: Refusal, out: &mut ArrayVec<u8, 576>) -> Outcome
    ensures outcome { result ≡ Outcome.NotReleased claim refusal }
    ensures written { AreWritten (Some (released id (rcode_of refusal) claim.name claim.kind claim.addr)) out.new.items }
{
    respond_release(id, refusal.rcode(), &claim, out);
    Outcome::NotReleased(claim, refusal)
}

/// Leaves in `out` a response to a release (RFC 1002 sections 4.2.10 and 4.2.11).
fn respond_release(id: u16, rcode: u8, claim: &Claim, out: &mut ArrayVec<u8, 576>)
    requires { rcode ≤ 15 }
    ensures { AreWritten (Some (released id rcode claim.now.name claim.now.kind claim.now.addr)) out.new.items }
{
    let reply = Message::Released {
        id,
        rcode,
        name: claim.name.lend(),
        kind: claim.kind,
        addr: claim.addr,
    };
    write(&reply, out);
}

/// Leaves in `out` the response to a query, and returns which it is: the first leases of the name, as many as fit, with the
/// seconds until the first of all its leases expires; or that it has no lease (RFC 1002 sections 4.2.13 and 4.2.14).
/// Expired leases are removed first, 64 at the most. Where the name has none then, the first expiry is looked up.
fn find(
    table: &mut Table,
    now: Moment,
    id: u16,
    name: LentName<'_>,
    out: &mut ArrayVec<u8, 576>,
) -> Result<Outcome, ServerFault>
    requires limits { IsConfig table.old.config }
    requires time { table.old.last ≤ now }
    ensures does { IfOk result (λ outcome. (ip : ℕ) → Does table.old now ip (query id name.entry) outcome out.new.items (leases_at now table.new.rows)) }
    ensures done { OnErr result ⊥ }
    ensures config { table.new.config ≡ table.old.config }
    ensures last { table.new.last ≤ now }
{
    table.sweep_some(now);
    let name = name.to_name();
    let mut entries = ArrayVec::new();
    let listed = list(table, now, &name, &mut entries);
    let Some(end) = listed.end else {
        let missing = Message::NotFound {
            id,
            rcode: NAME_ERROR,
            name: Some(name.lend()),
        };
        write(&missing, out);
        return Ok(Outcome::NotFound(name));
    };
    let found = Message::Found {
        id,
        name: name.lend(),
        ttl: seconds_left(now, end),
        entries: entries.as_slice(),
        cut: listed.cut,
    };
    write(&found, out);
    Ok(Outcome::Found(name))
}

/// The seconds until an expiry, rounded up.
fn seconds_left(now: Moment, end: u64) -> u32
    requires { end ≤ now + milliseconds LONGEST_MOST }
    ensures { result ≡ seconds_until now end }
{
    let milliseconds = end.saturating_sub(now.get());
    milliseconds.div_ceil(1000) as u32
}

/// What a response to a query says of a name's live leases, beside their entries.
#[derive(Drop)]
struct Listed {
    /// Whether it has more than fit.
    cut: bool,
    /// The first expiry of all; none if there is no lease.
    end: Option<u64>,
}

/// Lists a name's live leases, by one look-up: puts the entries of the first ones, as many as fit, in their order (RFC 1002
/// section 4.2.13). It reads those that fit, and one more at most.
fn list(table: &Table, now: Moment, name: &Name, put: &mut ArrayVec<u8, ENTRIES_OCTETS>) -> Listed
    requires time { table.now.last ≤ now }
    requires empty { put.old.items ≡ [] }
    ensures entries { put.new.items ≡ entries (listed name.now (leases_at now table.now.rows name.now)) }
    ensures cut { result.cut ≡ is_cut name.now (leases_at now table.now.rows name.now) }
    ensures end { IsLeastEnd (leases_at now table.now.rows name.now) result.end }
    ensures sound { AreSound (latest_end table.now.config now) (leases_at now table.now.rows name.now) }
    ensures room { 0 < entries_most name.now }
{
    let mut room = entries_most(name);
    let leases = table.members(now, name);
    let end = leases.least_end();
    for lease in leases {
        if room == 0 {
            return Listed { cut: true, end };
        }
        let entry = entry_octets(lease.kind, lease.addr);
        put.try_extend_from_slice(&entry).unwrap();
        room -= 1;
    }
    Listed { cut: false, end }
}
