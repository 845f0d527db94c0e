//! Rows of worked examples, and the players that run them.

use nbt_lease::{Config, Moment};
use nbt_name::Name;
use nbt_store::{Boot, Header};
use std::process::Abort;

mod clocks;
mod counting;
mod damage;
mod disks;
mod expect;
mod first_lines;
mod fixing;
mod folders;
mod following;
mod full;
mod keeping;
mod locks;
mod logging;
mod older;
mod order;
mod outlasting;
mod parts;
mod restarts;
mod resuming;
mod routes;
mod sharing;
mod stage;
mod store;
mod telling;
mod waiting;

/// The sixteen octets of names: FRED's and TEAM's, filled with spaces.
const FRED: &[u8; 16] = b"FRED            ";

const TEAM: &[u8; 16] = b"TEAM            ";

fn fred(rt: &impl Abort, scope: &[u8]) -> Name {
    Name::new(FRED, scope).expect(rt, "a name")
}

fn team(rt: &impl Abort, scope: &[u8]) -> Name {
    Name::new(TEAM, scope).expect(rt, "a name")
}

/// The head of a file that was written in the boot `boot-1` by a server that started at 5, whose last moment this is; the time of day was
/// 1,700,000,000,000 ms.
fn header(rt: &impl Abort, last: u64) -> Header {
    let boot = Boot::new(b"boot-1").expect(rt, "a boot");
    let config = Config::new(1000, 60, 4096).expect(rt, "limits");
    Header::new(
        config,
        boot,
        7,
        Moment::new(5).expect(rt, "a moment"),
        Moment::new(last).expect(rt, "a moment"),
        1_700_000_000_000,
    )
}
