//! What a front decides of a datagram.

ghost use Rattle.std.specs.Prelude.{◌≡◌, ◌↔◌, ◌≤◌, ◌+◌, ◌++◌, ℕ, false, [], Some, None, IsTrue, IfSome, IfNone, IfOk, OnOk};
ghost use Rattle.std.specs.List.{flat_map};
ghost use Rattle.nbt_packet.specs.Message.{MessageValue, found, message_of, overwrite, query, registered, release, released};
ghost use Rattle.nbt_packet.specs.Spelling.{AreWritten, Spells};
ghost use Rattle.nbt_server.specs.Serving.{AsksFor};
ghost use Rattle.nbt_front.specs.FixedNames.{fixed_of};
ghost use Rattle.nbt_front.specs.Networks.{IsAllowed};
ghost use Rattle.nbt_front.specs.Standing.{leases_of};
ghost use Rattle.nbt_lease.specs.Config.{milliseconds};
ghost use Rattle.nbt_front.specs.Deciding.{Claims, Decides, desk_at, entries_of, Passes};

use crate::fixed::Fixed;
use crate::names::FixedNames;
use crate::network::{Network, is_in_any};
use crate::standing::Standing;
use arrayvec::ArrayVec;
use nbt_lease::{Config, Lease, Moment};
use nbt_name::{Addr, Kind, Name};
use nbt_packet::{Message, Registration, entries_most, read, write};
use std::alloc::{AllocError, Global};
use std::marker::Model;

/// RCODE RFS_ERR: the server refuses the sender (RFC 1002 section 4.2.6).
const REFUSED: u8 = 5;

/// RCODE ACT_ERR: another node has the name (RFC 1002 sections 4.2.6 and 4.2.11).
const ACTIVE: u8 = 6;

/// The milliseconds of a second.
const SECOND: u64 = 1_000;

/// What a front decided of a datagram.
#[derive(Debug, PartialEq, Eq, Drop)]
pub enum Decision {
    /// A claim of this name was refused, since its sender may not register (RCODE 5).
    NotAllowed(Name),
    /// A claim or a release of this name was refused, since the name is fixed, and not the sender's; or a claim, since a lease stands in the
    /// name's way, or since another machine may hold the name by what was fixed before (RCODE 6).
    FixedRefused(Name),
    /// A registration, a refresh or a release of a fixed name by one of its addresses was confirmed. It changes nothing.
    FixedConfirmed,
    /// A query for a fixed name was answered.
    FixedFound,
}

/// Who may register, and the names that are fixed. A contract sees these, and the longest lease.
#[derive(Drop)]
pub struct Front {
    allowed: Vec<Network>,
    given: usize,
    fixed: FixedNames,
    config: Config,
    files: FrontPaths,
}

/// The paths of the files from which a front is read, if there are any.
#[derive(Drop)]
struct FrontPaths {
    networks: Option<String>,
    fixed: Option<String>,
}

impl Model for Front {
    ghost use Rattle.nbt_front.specs.Deciding.{FrontValue};

    ghost Value = { FrontValue };

    ghost view = { λ f. record { allowed = f.allowed.items; fixed = f.fixed; longest = f.config.longest } };
}

impl Front {
    /// A front of these networks and names. Without a network every sender may register.
    pub fn new(allowed: Vec<Network>, fixed: FixedNames, config: Config) -> Front
        ensures { result ≡ record { allowed = allowed.items; fixed = fixed; longest = config.longest } }
    {
        Front {
            given: allowed.len(),
            allowed,
            fixed,
            config,
            files: FrontPaths {
                networks: None,
                fixed: None,
            },
        }
    }

    /// The same, read from the files of these paths, where there are such: as of now, its networks are those that weren't in one.
    pub fn read_from(&mut self, networks: Option<String>, fixed: Option<String>)
        ensures { self.new ≡ self.old }
    {
        self.given = self.allowed.len();
        self.files = FrontPaths { networks, fixed };
    }

    /// The path of the file of its networks, if there is one.
    pub fn networks_path(&self) -> Option<&str> {
        self.files.networks.as_deref()
    }

    /// The path of the file of its fixed names, if there is one.
    pub fn fixed_path(&self) -> Option<&str> {
        self.files.fixed.as_deref()
    }

    /// The front of those of its networks that were in no file, without names.
    pub fn given(&self, alloc: Global) -> Result<Front, AllocError> {
        let given = self.given.min(self.allowed.len());
        let allowed = Vec::from_slice(alloc, &self.allowed.as_slice()[..given])?;
        Ok(Front::new(allowed, FixedNames::none(alloc), self.config))
    }

    /// The same front without names.
    pub(crate) fn without_names(&self, alloc: Global) -> Result<Front, AllocError>
        ensures { IfOk result (λ front. front ≡ record self.now { fixed = [] }) }
    {
        let allowed = Vec::from_slice(alloc, self.allowed.as_slice())?;
        Ok(Front::new(allowed, FixedNames::none(alloc), self.config))
    }

    /// The same where senders of these networks may register too.
    pub fn allow(&mut self, networks: Vec<Network>) -> Result<(), AllocError>
        ensures { OnOk result (self.new ≡ record self.old { allowed = self.old.allowed ++ networks.items }) }
    {
        self.allowed.extend_from_slice(networks.as_slice())
    }

    /// The networks whose senders may register; without one everybody may.
    pub fn allowed(&self) -> &[Network]
        ensures { result.now ≡ self.now.allowed }
    {
        self.allowed.as_slice()
    }

    /// The same with these names fixed.
    pub fn fix(&mut self, fixed: FixedNames)
        ensures { self.new ≡ record self.old { fixed = fixed } }
    {
        self.fixed = fixed;
    }

    /// The names that are fixed.
    pub fn fixed(&self) -> &FixedNames
        ensures { result.now ≡ self.now.fixed }
    {
        &self.fixed
    }

    /// Appends the leases that machines may have by what is fixed, and confirmed until this moment: they end once the longest lease has passed.
    pub(crate) fn list_leases(
        &self,
        at: Moment,
        rows: &mut Vec<(Name, Lease)>,
    ) -> Result<(), AllocError>
        ensures { OnOk result (rows.new.items ≡ rows.old.items ++ flat_map (leases_of (at + milliseconds self.now.longest)) self.now.fixed) }
    {
        let end = at.get() + SECOND * u64::from(self.config.longest());
        self.fixed.list_leases(end, rows)
    }

    /// What it decides of a datagram from an address, while these leases stand in the way of its names, and in `reply` the reply; `None`
    /// where it leaves the datagram to the server, and then `reply` is as it was.
    pub fn decide(
        &self,
        from: Addr,
        octets: &[u8],
        standing: &Standing<'_>,
        reply: &mut ArrayVec<u8, 576>,
    ) -> Option<Decision>
        ensures decided { IfSome result (λ decision. (m : MessageValue) × (r : MessageValue) × Spells octets.now m
            × Decides (desk_at self.now standing.now) standing.now.at from.ip m decision r × AreWritten (Some r) reply.new.items) }
        ensures passed { IfNone result ((m : MessageValue) → Spells octets.now m → Passes (desk_at self.now standing.now) standing.now.at from.ip m) }
        ensures left { IfNone result (reply.new.items ≡ reply.old.items) }
    {
        if self.is_open() && standing.past.is_empty() {
            return None;
        }
        let message = read(octets)?;
        self.decide_message(from.ip, message, standing, reply)
    }

    /// Whether it has neither networks nor names, so that it decides nothing.
    fn is_open(&self) -> bool
        ensures { IsTrue result ↔ ((self.now.allowed ≡ []) × (self.now.fixed ≡ [])) }
    {
        self.allowed.is_empty() && self.fixed.is_empty()
    }

    /// The same of a message.
    fn decide_message(
        &self,
        ip: u32,
        message: Message<'_>,
        standing: &Standing<'_>,
        reply: &mut ArrayVec<u8, 576>,
    ) -> Option<Decision>
        ensures decided { IfSome result (λ decision. (r : MessageValue) × Decides (desk_at self.now standing.now) standing.now.at ip (message_of message.entry) decision r × AreWritten (Some r) reply.new.items) }
        ensures passed { IfNone result (Passes (desk_at self.now standing.now) standing.now.at ip (message_of message.entry)) }
        ensures left { IfNone result (reply.new.items ≡ reply.old.items) }
    {
        match message {
            Message::Registration(claim) => self.claim(ip, claim, standing, reply),
            Message::Refresh(claim) => self.claim(ip, claim, standing, reply),
            Message::Overwrite(claim) => self.overwrite(ip, claim, standing, reply),
            Message::Release {
                id,
                name,
                kind,
                addr,
            } => self.release(ip, id, name.to_name(), kind, addr, standing, reply),
            Message::Query { id, name } => self.find(id, name.to_name(), standing, reply),
            _ => None,
        }
    }

    /// Decides of a registration or a refresh.
    fn claim(
        &self,
        ip: u32,
        claim: Registration<'_>,
        standing: &Standing<'_>,
        reply: &mut ArrayVec<u8, 576>,
    ) -> Option<Decision>
        ensures decided { IfSome result (λ decision. (m : MessageValue) → AsksFor m claim.entry → (r : MessageValue) × Decides (desk_at self.now standing.now) standing.now.at ip m decision r × AreWritten (Some r) reply.new.items) }
        ensures passed { IfNone result ((m : MessageValue) → AsksFor m claim.entry → Passes (desk_at self.now standing.now) standing.now.at ip m) }
        ensures left { IfNone result (reply.new.items ≡ reply.old.items) }
    {
        let name = claim.name.to_name();
        let Some(fixed) = self.fixed.get(&name) else {
            return self.turn_away(ip, claim, standing, reply);
        };
        let holds = fixed.is_held_by(ip, claim.kind, claim.addr);
        if holds && standing.is_free(&name, claim.kind, ip) {
            let seconds = self.config.granted(claim.ttl);
            respond(claim, 0, seconds, reply);
            return Some(Decision::FixedConfirmed);
        }
        let name = respond(claim, ACTIVE, 0, reply);
        Some(Decision::FixedRefused(name))
    }

    /// Decides of an overwrite.
    fn overwrite(
        &self,
        ip: u32,
        claim: Registration<'_>,
        standing: &Standing<'_>,
        reply: &mut ArrayVec<u8, 576>,
    ) -> Option<Decision>
        ensures decided { IfSome result (λ decision. (r : MessageValue) × Decides (desk_at self.now standing.now) standing.now.at ip (overwrite claim.entry) decision r × AreWritten (Some r) reply.new.items) }
        ensures passed { IfNone result (Passes (desk_at self.now standing.now) standing.now.at ip (overwrite claim.entry)) }
        ensures left { IfNone result (reply.new.items ≡ reply.old.items) }
    {
        let name = claim.name.to_name();
        match self.fixed.get(&name) {
            Some(_) => {
                let name = respond(claim, ACTIVE, 0, reply);
                Some(Decision::FixedRefused(name))
            }
            None => self.turn_away(ip, claim, standing, reply),
        }
    }

    /// Refuses the claim of a name that isn't fixed, where its sender may not register, or another machine may hold the name by what was fixed
    /// before.
    fn turn_away(
        &self,
        ip: u32,
        claim: Registration<'_>,
        standing: &Standing<'_>,
        reply: &mut ArrayVec<u8, 576>,
    ) -> Option<Decision>
        requires free { fixed_of self.now.fixed claim.name ≡ None }
        ensures decided { IfSome result (λ decision. (m : MessageValue) → Claims m claim.entry → (r : MessageValue) × Decides (desk_at self.now standing.now) standing.now.at ip m decision r × AreWritten (Some r) reply.new.items) }
        ensures passed { IfNone result ((m : MessageValue) → Claims m claim.entry → Passes (desk_at self.now standing.now) standing.now.at ip m) }
        ensures left { IfNone result (reply.new.items ≡ reply.old.items) }
    {
        if !self.allows(ip) {
            let name = respond(claim, REFUSED, 0, reply);
            return Some(Decision::NotAllowed(name));
        }
        let name = claim.name.to_name();
        if !standing.is_taken(&name, claim.kind, ip) {
            return None;
        }
        let name = respond(claim, ACTIVE, 0, reply);
        Some(Decision::FixedRefused(name))
    }

    /// Whether this sender may register.
    fn allows(&self, ip: u32) -> bool
        ensures { IsTrue result ↔ IsAllowed self.now.allowed ip }
    {
        self.allowed.is_empty() || is_in_any(self.allowed.as_slice(), ip)
    }

    /// Decides of a release. That of a name in whose way a lease stands is the server's.
    fn release(
        &self,
        ip: u32,
        id: u16,
        name: Name,
        kind: Kind,
        addr: u32,
        standing: &Standing<'_>,
        reply: &mut ArrayVec<u8, 576>,
    ) -> Option<Decision>
        ensures decided { IfSome result (λ decision. (r : MessageValue) × Decides (desk_at self.now standing.now) standing.now.at ip (release id name kind addr) decision r × AreWritten (Some r) reply.new.items) }
        ensures passed { IfNone result (Passes (desk_at self.now standing.now) standing.now.at ip (release id name kind addr)) }
        ensures left { IfNone result (reply.new.items ≡ reply.old.items) }
    {
        let fixed = self.fixed.get(&name)?;
        if standing.has(&name) {
            return None;
        }
        if fixed.is_held_by(ip, kind, addr) {
            respond_release(id, 0, &name, kind, addr, reply);
            return Some(Decision::FixedConfirmed);
        }
        respond_release(id, ACTIVE, &name, kind, addr, reply);
        Some(Decision::FixedRefused(name))
    }

    /// Answers a query for a fixed name with its addresses, which all fit, and the longest lease as their TTL. That for a name in whose way
    /// a lease stands is the server's.
    fn find(
        &self,
        id: u16,
        name: Name,
        standing: &Standing<'_>,
        reply: &mut ArrayVec<u8, 576>,
    ) -> Option<Decision>
        ensures decided { (ip : ℕ) → IfSome result (λ decision. (r : MessageValue) × Decides (desk_at self.now standing.now) standing.now.at ip (query id name) decision r × AreWritten (Some r) reply.new.items) }
        ensures passed { (ip : ℕ) → IfNone result (Passes (desk_at self.now standing.now) standing.now.at ip (query id name)) }
        ensures left { IfNone result (reply.new.items ≡ reply.old.items) }
    {
        let fixed = self.fixed.get(&name)?;
        if standing.has(&name) {
            return None;
        }
        respond_found(id, &name, self.config.longest(), fixed, reply);
        Some(Decision::FixedFound)
    }
}

/// Leaves in `reply` the response to a registration, a refresh or an overwrite (RFC 1002 sections 4.2.5 and 4.2.6). Returns the claim's
/// name.
fn respond(claim: Registration<'_>, rcode: u8, ttl: u32, reply: &mut ArrayVec<u8, 576>) -> Name
    requires { rcode ≤ 15 }
    ensures name { result ≡ claim.entry.name }
    ensures written { AreWritten (Some (registered rcode (record claim.entry { ttl = ttl }))) reply.new.items }
{
    let name = claim.name.to_name();
    let registration = Registration { ttl, ..claim };
    write(
        &Message::Registered {
            rcode,
            registration,
        },
        reply,
    );
    name
}

/// Leaves in `reply` the response to a release (RFC 1002 sections 4.2.10 and 4.2.11).
fn respond_release(
    id: u16,
    rcode: u8,
    name: &Name,
    kind: Kind,
    addr: u32,
    reply: &mut ArrayVec<u8, 576>,
)
    requires { rcode ≤ 15 }
    ensures { AreWritten (Some (released id rcode name.now kind addr)) reply.new.items }
{
    let message = Message::Released {
        id,
        rcode,
        name: name.lend(),
        kind,
        addr,
    };
    write(&message, reply);
}

/// Leaves in `reply` the positive response to a query for a fixed name (RFC 1002 section 4.2.13).
fn respond_found(id: u16, name: &Name, ttl: u32, fixed: &Fixed, reply: &mut ArrayVec<u8, 576>)
    ensures { AreWritten (Some (found id name.now ttl (entries_of fixed.now) false)) reply.new.items }
{
    let entries = fixed.entries();
    let all_fit = fixed.addrs().len() <= entries_most(name);
    prove!(all_fit);
    let message = Message::Found {
        id,
        name: name.lend(),
        ttl,
        entries: entries.as_slice(),
        cut: false,
    };
    write(&message, reply);
}
