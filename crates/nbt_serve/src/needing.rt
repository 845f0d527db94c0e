//! Which datagrams need room in the store.

ghost use Rattle.std.specs.Prelude.{◌≤◌};

use nbt_lease::{Lease, Moment, Table};
use nbt_name::{Kind, Name};
use nbt_packet::{Message, Registration, read};
use nbt_server::Server;
use nbt_store::Room;

/// How much room there is for what comes of a datagram from an address, in a store that has so much: ample room where it has room for times
/// alone, and the server changes nothing by that datagram.
pub(crate) fn room_for(room: Room, server: &Server, now: Moment, ip: u32, octets: &[u8]) -> Room {
    let has_some = !room.is_ample() && !room.is_spent();
    if has_some && changes_nothing(server, now, ip, octets) {
        Room::Ample
    } else {
        room
    }
}

/// Whether the server refuses this datagram as it has it, or has nothing to do with it: octets that spell no message, what isn't the sender's
/// own, as the name that stands for all, an overwrite, a claim in whose way a lease stands, and a release by who has no lease of the name.
/// Not told apart from a change is a claim that is refused since the table, the group or its client has as many leases as it may.
fn changes_nothing(server: &Server, now: Moment, ip: u32, octets: &[u8]) -> bool {
    let table = server.table();
    if now.get() < table.last().get() {
        return false;
    }
    let Some(message) = read(octets) else {
        return true;
    };
    match message {
        Message::Registration(claim) => !is_own(&claim, ip) || is_taken(table, now, claim),
        Message::Refresh(claim) => !is_own(&claim, ip) || is_taken(table, now, claim),
        Message::Release { name, addr, .. } => {
            addr != ip || !has_lease(table, now, &name.to_name(), addr)
        }
        _ => true,
    }
}

/// Whether an address may claim this: it does so for itself, and the name isn't the one that stands for all.
fn is_own(claim: &Registration<'_>, ip: u32) -> bool {
    claim.addr == ip && !claim.name.is_star()
}

/// Whether a live lease stands in the way of a claim.
fn is_taken(table: &Table, now: Moment, claim: Registration<'_>) -> bool
    requires { table.now.last ≤ now }
{
    let name = claim.name.to_name();
    table
        .members(now, &name)
        .any(|lease| is_in_the_way(&lease, claim.kind, claim.addr))
}

/// Whether a lease stands in the way of a claim of its name: not both are a group, nor is it the unique lease of who claims the name as
/// unique.
fn is_in_the_way(lease: &Lease, kind: Kind, addr: u32) -> bool {
    match (lease.kind, kind) {
        (Kind::Group, Kind::Group) => false,
        (Kind::Unique, Kind::Unique) => lease.addr != addr,
        _ => true,
    }
}

/// Whether an address has a live lease of a name.
fn has_lease(table: &Table, now: Moment, name: &Name, addr: u32) -> bool
    requires { table.now.last ≤ now }
{
    table.members(now, name).any(|lease| lease.addr == addr)
}
