//! A script's world: how it begins, and how its clocks go on.

ghost use Rattle.std.specs.Prelude.{◌≡◌, ◌≤◌, Some, None, MatchOption};
ghost use Rattle.nbt_sim.specs.Script.{AreFew, AreForEnds, ArePlaces, Does, entries};
ghost use Rattle.nbt_sim.specs.declared.instruction.Instruction.TheVariants as instruction;
ghost use Rattle.nbt_sim.specs.declared.report.Report.TheVariants as report;

use crate::report::Report;
use arrayvec::ArrayVec;
use nbt_lease::{Config, Moment};
use nbt_name::Addr;
use nbt_world::{Event, World};
use std::alloc::Global;

/// The most nodes of a world.
const NODES_MOST: usize = 8;

/// The most endpoints of a world.
pub const ENDS_MOST: usize = 9;

/// The server's 32-bit address, 127.0.0.1.
const SERVER: u32 = 0x7F00_0001;

/// The port of the name service (RFC 1002 section 6).
const PORT: u16 = 137;

/// A world of these limits with `nodes` nodes; `None` where there aren't 1 to 8.
pub fn begin(alloc: Global, config: Config, nodes: usize) -> Option<World>
    ensures { MatchOption result (¬ AreFew nodes)
        (λ world. Does None (instruction.Config config nodes) (Some world) report.Quiet) }
{
    if nodes == 0 || nodes > NODES_MOST {
        return None;
    }
    Some(World::new(alloc, config, &places()[..=nodes]).unwrap())
}

/// All clocks go on alike, and the true one to `moment`; `None` where that is before now.
pub fn go_on(world: &mut World, moment: Moment) -> Option<Report>
    ensures { MatchOption result (¬ (world.old.now.clock ≤ moment))
        (Does (Some world.old) (instruction.At moment) (Some world.new)) }
{
    let clock = world.clock();
    if moment < clock {
        return None;
    }
    let ms = moment.get() - clock.get();
    let _done = world.step(&Event::Tick(ms)).unwrap();
    Some(Report::Quiet)
}

/// The clocks go on, each by its own number of milliseconds: the true one, and then the endpoints'; `None` where there isn't
/// one for each endpoint.
pub fn drift(world: &mut World, ms: u64, moves: &ArrayVec<u64, ENDS_MOST>) -> Option<Report>
    ensures { MatchOption result (¬ AreForEnds world.old moves.now.items)
        (Does (Some world.old) (instruction.Advance ms moves.now) (Some world.new)) }
{
    if moves.len() != world.end_count() {
        return None;
    }
    let readings = entries_of(moves);
    let event = Event::Advance { ms, readings };
    let _done = world.step(&event).unwrap();
    Some(Report::Quiet)
}

/// The entries of an event, of which those of endpoints that the world hasn't are 0.
fn entries_of(moves: &ArrayVec<u64, ENDS_MOST>) -> [u64; ENDS_MOST]
    ensures { result ≡ entries moves.now.items }
{
    let mut entries = [0; ENDS_MOST];
    entries[..moves.len()].copy_from_slice(moves.as_slice());
    entries
}

/// The addresses of a server and of the most nodes.
fn places() -> [Addr; ENDS_MOST]
    ensures { ArePlaces result 8 }
{
    let mut addrs = [Addr {
        ip: SERVER,
        port: PORT,
    }; ENDS_MOST];
    let mut ip = SERVER;
    'places: for addr in &mut addrs {
        *addr = Addr { ip, port: PORT };
        ip += 1;
    }
    addrs
}
