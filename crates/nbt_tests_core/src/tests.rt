//! Rows of worked examples, and the players that run them.

use nbt_lease::Moment;
use nbt_name::Name;
use std::process::Abort;

mod calls;
mod confirming;
mod datagrams;
mod expect;
mod large;
mod leases;
mod names;
mod node;
mod packets;
mod server;
mod sessions;
mod waiting;
mod world;

/// The sixteen octets of names: FRED's and TEAM's, filled with spaces, and of the name that stands for all.
const FRED: &[u8; 16] = b"FRED            ";

const TEAM: &[u8; 16] = b"TEAM            ";

const STAR: &[u8; 16] = b"*\0\0\0\0\0\0\0\0\0\0\0\0\0\0\0";

fn at(rt: &impl Abort, ms: u64) -> Moment {
    Moment::new(ms).expect(rt, "a moment")
}

fn fred(rt: &impl Abort, scope: &[u8]) -> Name {
    Name::new(FRED, scope).expect(rt, "a name")
}

fn team(rt: &impl Abort, scope: &[u8]) -> Name {
    Name::new(TEAM, scope).expect(rt, "a name")
}

/// The name of these octets, which may be those that stand for all.
fn name_of(rt: &impl Abort, octets: &[u8; 16]) -> Name {
    if octets == STAR {
        return Name::any(b"").expect(rt, "a name");
    }
    Name::new(octets, b"").expect(rt, "a name")
}

/// The octets with others at some places.
fn patched<R: Abort + AllocGlobal>(rt: &R, octets: &[u8], patches: &[(usize, u8)]) -> Vec<u8> {
    let mut copy = Vec::from_slice(rt.alloc(), octets).expect(rt, "memory");
    for (place, octet) in patches {
        *copy.get_mut(*place).expect(rt, "a place in the octets") = *octet;
    }
    copy
}
