//! Where rows over a port in memory are played. The port, its clock and the server are made, and dropped, in one place for all rows: each
//! place that owns them costs the prover.

use nbt_port::{MemoryClock, MemoryPort};
use nbt_server::Server;
use nbt_testing::{Row, clock, port, started};
use std::process::Abort;
use std::time;

/// What is played at a port in memory.
pub trait Scene {
    /// Plays it at this port, by this clock, and with this server where it needs one.
    fn play<R: Abort + AllocGlobal + time::Clock>(
        &self,
        rt: &R,
        port: &mut MemoryPort,
        clock: &mut MemoryClock,
        server: &mut Server,
    );
}

/// Plays a scene at a port that hands these out, by a clock that tells these moments, with a server that starts at 0 and has room for
/// 4,096 rows.
pub fn play_on<R: Abort + AllocGlobal + time::Clock, S: Scene>(
    rt: &R,
    given: &[Row],
    moments: &[u64],
    scene: &S,
) {
    let mut port = port(rt, given).expect(rt, "a port");
    let mut clock = clock(rt, moments).expect(rt, "a clock");
    let mut server = started(rt, 4096, 0).expect(rt, "a server");
    scene.play(rt, &mut port, &mut clock, &mut server)
}
