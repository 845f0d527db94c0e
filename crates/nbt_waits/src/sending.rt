//! What leaves of a server's reply.

ghost use Rattle.std.specs.Prelude.{◌≡◌, ◌≢◌, ◌+◌, ◌*◌, ◌<◌, ◌≤◌, ◌++◌, [], Option, Some, None, false, List, ℕ, if◌then◌else◌, length};
ghost use Rattle.std.specs.List.{list_any};
ghost use Rattle.nbt_packet.specs.Message.{MessageValue, found as found_by, message_of, released as released_by};
ghost use Rattle.nbt_packet.specs.Spelling.{Spells};
ghost use Rattle.nbt_packet.specs.Text.{text};
ghost use Rattle.nbt_confirm.specs.Further.{name_most};
ghost use Rattle.nbt_waits.specs.declared.sending.Reply.TheVariants as leaving;
ghost use Rattle.nbt_waits.specs.Sending as spec;
ghost use Rattle.nbt_waits.specs.Sending.{behind, entries_of, leaves, leaves_with, left_by, lists_more, refuses_release, refuses_unique};

use crate::asking::Asking;
use crate::replies::ACTIVE;
use crate::settling::is_there;
use arrayvec::ArrayVec;
use nbt_confirm::{FurtherAddresses, NAME_MOST};
use nbt_lease::Moment;
use nbt_name::{Kind, Name, read_long};
use nbt_packet::{Message, entries_most, entry_octets, read, write};

/// How many octets an entry has, NB_FLAGS and NB_ADDRESS (RFC 1002 section 4.2.13).
const ENTRY: usize = 6;

/// The octets of the entries of a holder and of 16 further addresses.
const ENTRIES_OCTETS: usize = 102;

/// G of NB_FLAGS, in its first octet: the name is a group's (RFC 1002 section 4.2.1.3).
const GROUP: u8 = 0x80;

/// What becomes of a server's reply.
#[derive(Clone, Copy, Debug, PartialEq, Eq)]
pub enum Reply {
    /// It doesn't leave: its request waits for what the holder says.
    HeldBack,
    /// It leaves as it is.
    AsItIs,
    /// What was left leaves in its place.
    Changed,
}

/// A positive name query response.
#[derive(Drop)]
struct Found<'a> {
    id: u16,
    name: Name,
    ttl: u32,
    entries: &'a [u8],
}

/// A response to a release.
#[derive(Drop)]
struct Released {
    id: u16,
    rcode: u8,
    name: Name,
    kind: Kind,
    addr: u32,
}

impl Asking {
    /// What leaves of a server's reply to the 32-bit address `ip` (our profile). A refusal of a unique name with ACT_ERR (6) is held back.
    /// A release of a further address that was refused so is confirmed, and that address ends. A response that lists the holder of a
    /// unique name lists the further addresses behind it that are listed at `now`. Every other reply leaves as it is.
    pub fn reply(
        &mut self,
        now: Moment,
        ip: u32,
        octets: &[u8],
        out: &mut ArrayVec<u8, 576>,
    ) -> Reply
        ensures spelled { (m : MessageValue) → Spells octets.now m → left_by result octets.now out.new.items self.new.further ≡ leaves now ip octets.now self.old.further m }
        ensures other { ((m : MessageValue) → ¬ Spells octets.now m) → left_by result octets.now out.new.items self.new.further ≡ leaves_with octets.now self.old.further }
        ensures further { self.new ≡ record self.old { further = self.new.further } }
    {
        match read(octets) {
            Some(message) => reply_in(&mut self.further, now, ip, &message, octets, out),
            None => Reply::AsItIs,
        }
    }
}

/// What leaves of a reply that is this message.
fn reply_in(
    further: &mut FurtherAddresses,
    now: Moment,
    ip: u32,
    message: &Message<'_>,
    octets: &[u8],
    out: &mut ArrayVec<u8, 576>,
) -> Reply
    ensures { left_by result octets.now out.new.items further.new ≡ leaves now ip octets.now further.old (message_of message.now) }
{
    match message {
        Message::Registered {
            rcode,
            registration,
        } => of_registered(*rcode, registration.kind),
        Message::Released {
            id,
            rcode,
            name,
            kind,
            addr,
        } => {
            let released = Released {
                id: *id,
                rcode: *rcode,
                name: name.to_name(),
                kind: *kind,
                addr: *addr,
            };
            of_released(further, ip, &released, out)
        }
        Message::Found {
            id,
            name,
            ttl,
            entries,
            cut,
        } => {
            if *cut {
                return Reply::AsItIs;
            }
            let found = Found {
                id: *id,
                name: name.to_name(),
                ttl: *ttl,
                entries: *entries,
            };
            of_found(further, now, &found, out)
        }
        Message::Registration(_)
        | Message::Overwrite(_)
        | Message::Refresh(_)
        | Message::Release { .. }
        | Message::Query { .. }
        | Message::StatusRequest { .. }
        | Message::NotFound { .. }
        | Message::Status { .. }
        | Message::Wait { .. } => Reply::AsItIs,
    }
}

/// What leaves of a response to a registration or a refresh.
fn of_registered(rcode: u8, kind: Kind) -> Reply
    ensures { result ≡ if refuses_unique rcode kind then leaving.HeldBack else leaving.AsItIs }
{
    if rcode == ACTIVE && kind == Kind::Unique {
        Reply::HeldBack
    } else {
        Reply::AsItIs
    }
}

/// What leaves of a response to a release, to this address.
fn of_released(
    further: &mut FurtherAddresses,
    ip: u32,
    released: &Released,
    out: &mut ArrayVec<u8, 576>,
) -> Reply
    ensures { (now : ℕ) (octets : List ℕ) → left_by result octets out.new.items further.new ≡ leaves now ip octets further.old (released_by released.now.id released.now.rcode released.now.name released.now.kind released.now.addr) }
{
    if released.rcode != ACTIVE
        || released.addr != ip
        || !is_there(further.rows(), &released.name, released.addr)
    {
        return Reply::AsItIs;
    }
    further.end(&released.name, released.addr);
    let reply = Message::Released {
        id: released.id,
        rcode: 0,
        name: released.name.lend(),
        kind: released.kind,
        addr: released.addr,
    };
    write(&reply, out);
    Reply::Changed
}

/// What leaves of a positive name query response that isn't cut.
fn of_found(
    further: &FurtherAddresses,
    now: Moment,
    found: &Found<'_>,
    out: &mut ArrayVec<u8, 576>,
) -> Reply
    ensures { (octets : List ℕ) → left_by result octets out.new.items further.now ≡ lists_more (behind (spec.holder_in found.now.entries.now) now found.now.name further.now) found.now.id found.now.name found.now.ttl found.now.entries.now octets further.now }
{
    let Some(holder) = holder_in(found.entries) else {
        return Reply::AsItIs;
    };
    let mut listed = ArrayVec::new();
    further.list(now, &found.name, holder, &mut listed);
    if listed.is_empty() {
        return Reply::AsItIs;
    }
    write_more(found, &listed, out);
    Reply::Changed
}

/// Leaves in `out` the response with these addresses behind its own.
fn write_more(found: &Found<'_>, listed: &ArrayVec<u32, NAME_MOST>, out: &mut ArrayVec<u8, 576>)
    requires { length found.now.entries.now ≡ 6 }
    ensures { out.new.items ≡ text (found_by found.now.id found.now.name found.now.ttl (found.now.entries.now ++ entries_of listed.now.items) false) }
{
    let most = entries_most(&found.name);
    prove!(NAME_MOST < most);
    let entries = entries_with(found.entries, listed);
    let reply = Message::Found {
        id: found.id,
        name: found.name.lend(),
        ttl: found.ttl,
        entries: entries.as_slice(),
        cut: false,
    };
    write(&reply, out);
}

/// The address of the one entry of a unique name that these are, if they are one.
fn holder_in(entries: &[u8]) -> Option<u32>
    ensures { result ≡ spec.holder_in entries.now }
{
    if entries.len() == ENTRY && entries[0] < GROUP {
        Some(read_long(entries, 2))
    } else {
        None
    }
}

/// An entry, and those of these addresses behind it.
fn entries_with(first: &[u8], addrs: &ArrayVec<u32, NAME_MOST>) -> ArrayVec<u8, ENTRIES_OCTETS>
    requires { length first.now ≡ 6 }
    ensures entries { result.items ≡ first.now ++ entries_of addrs.now.items }
    ensures length { length result.items ≡ 6 + 6 * length addrs.now.items }
{
    let mut entries = ArrayVec::new();
    entries.try_extend_from_slice(first).unwrap();
    for addr in addrs.as_slice() {
        let entry = entry_octets(Kind::Unique, *addr);
        entries.try_extend_from_slice(&entry).unwrap();
    }
    entries
}
