//! A name server over a port and a clock.

ghost use Rattle.std.specs.Prelude.{◌≡◌, ℕ, ◌+◌, ◌<◌, ◌≤◌, ◌^◌, IfOk, OnErr};
ghost use Rattle.nbt_port.specs.PortCalls.{CountsFailure};
ghost use Rattle.nbt_serve.specs.Serving.{Runs, Breaks, WatchesTurn};

use arrayvec::ArrayVec;
use nbt_log::Entry;
use nbt_port::{Clock, Device, Port};
use nbt_server::Server;

/// What a server did in some turns.
#[derive(Clone, Copy, Debug, PartialEq, Eq)]
pub struct Counts {
    /// The receives, also those at which nothing came: one a turn.
    pub receives: u64,
    /// The replies that were sent, also those that the port lost since there was no way to their ends.
    pub replies: u64,
    /// The datagrams that were lost, since the clock went back or memory was refused.
    pub lost: u64,
}

impl Counts {
    ghost use Rattle.nbt_serve.specs.Serving.{sum_of};

    /// Nothing yet.
    fn none() -> Counts
        ensures { result ≡ record { receives = 0; replies = 0; lost = 0 } }
    {
        Counts {
            receives: 0,
            replies: 0,
            lost: 0,
        }
    }

    /// Both together.
    fn plus(self, more: Counts) -> Counts
        requires receives { self.receives + more.receives < 2 ^ 64 }
        requires replies { self.replies + more.replies < 2 ^ 64 }
        requires lost { self.lost + more.lost < 2 ^ 64 }
        ensures { result ≡ sum_of self more }
    {
        Counts {
            receives: self.receives + more.receives,
            replies: self.replies + more.replies,
            lost: self.lost + more.lost,
        }
    }
}

/// The server goes through `turns` turns: in each it receives, and where a datagram came it reads the clock, handles the
/// datagram at that time, and sends the reply, if there is one. The reply leaves by the route of its datagram, from the address
/// that was asked. Returns what it did. A datagram that the server refuses is lost: the clock went back, or it changes the
/// leases and it is out of memory; start and leases stay, and the turns go on. Refused with `Device` at the first call of the
/// port that fails: the server is then as after the datagrams that came.
pub fn serve_turns<P: Port, C: Clock>(
    port: &mut P,
    clock: &mut C,
    server: &mut Server,
    turns: u64,
) -> Result<Counts, Device>
    ensures ok { IfOk result (λ counts. Runs P.does C.tells turns counts port.old clock.old server.old port.new clock.new server.new) }
    ensures err { OnErr result (Breaks P.does C.tells turns port.old clock.old server.old port.new clock.new server.new) }
    // It is refused exactly where the port's count of failures grew.
    ensures device { CountsFailure (P.failures port.old) (P.failures port.new) result }
{
    let mut octets = ArrayVec::new();
    let mut reply = ArrayVec::new();
    let mut counts = Counts::none();
    for _ in 0..turns {
        let one = serve_turn(port, clock, server, &mut octets, &mut reply)?;
        counts = counts.plus(one.counts);
    }
    Ok(counts)
}

/// What a server did in a turn.
#[derive(Debug, PartialEq, Eq, Drop)]
pub struct ServedTurn {
    /// What it did with the datagram that came; `None` where none came, and where it was lost.
    pub entry: Option<Entry>,
    /// The same, counted.
    pub counts: Counts,
}

/// The server goes through one turn, as [`serve_turns`] does. Returns what it did. `octets` and `reply` are buffers of the turn.
/// Refused with `Device` at the first call of the port that fails: the server is then as after the datagram that came.
pub fn serve_turn<P: Port, C: Clock>(
    port: &mut P,
    clock: &mut C,
    server: &mut Server,
    octets: &mut ArrayVec<u8, 2048>,
    reply: &mut ArrayVec<u8, 576>,
) -> Result<ServedTurn, Device>
    ensures ok { IfOk result (λ turned. WatchesTurn P.does C.tells port.old clock.old server.old turned.entry port.new clock.new server.new
        × Runs P.does C.tells 1 turned.counts port.old clock.old server.old port.new clock.new server.new) }
    ensures err { OnErr result (Breaks P.does C.tells 1 port.old clock.old server.old port.new clock.new server.new) }
    // It is refused exactly where the port's count of failures grew.
    ensures device { CountsFailure (P.failures port.old) (P.failures port.new) result }
{
    let mut counts = Counts {
        receives: 1,
        replies: 0,
        lost: 0,
    };
    let Some(from) = port.receive(octets)? else {
        return Ok(ServedTurn {
            entry: None,
            counts,
        });
    };
    let now = clock.now();
    match server.handle(now, from.peer, octets.as_slice(), reply) {
        Ok(outcome) => {
            if outcome.has_reply() {
                port.send(from, reply.as_slice())?;
                counts.replies = 1;
            }
            let entry = Some(Entry::of(from.peer, octets.as_slice(), outcome));
            Ok(ServedTurn { entry, counts })
        }
        Err(_) => {
            counts.lost = 1;
            Ok(ServedTurn {
                entry: None,
                counts,
            })
        }
    }
}
