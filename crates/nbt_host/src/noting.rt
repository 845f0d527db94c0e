//! A turn of a host, with what of it was its server's.

ghost use Rattle.std.specs.Prelude.{◌≡◌, ◌≤◌, false, OnOk, OnErr};
ghost use Rattle.nbt_node.specs.Node.{slots_most};
ghost use Rattle.nbt_host.specs.Hosting.{HostTurn, HostBreaks};
ghost use Rattle.nbt_host.specs.Inner.Noting.{NotedTurn};

use crate::asked::Noted;
use crate::goal::Goal;
use crate::turning::host_turn;
use crate::watching::{Look, Watch};
use arrayvec::ArrayVec;
use nbt_lease::Config;
use nbt_name::Addr;
use nbt_node::Node;
use nbt_port::{Device, Port, Route};

/// A port over another, which notes whether a datagram came from a server, and whether one was sent to it.
#[derive(Drop)]
struct NotingPort<'p, P> {
    beneath: &'p mut P,
    server: Addr,
    noted: Noted,
}

impl<P: Port> Port for NotingPort<'_, P> {
    ghost use Rattle.nbt_host.specs.Inner.Noting.{NotingDoes};

    ghost does = { λ old call new. NotingDoes P.does
        (record { port = old.beneath.now; name = old.beneath.ghost_name; server = old.server; noted = old.noted }) call
        (record { port = new.beneath.now; name = new.beneath.ghost_name; server = new.server; noted = new.noted }) };

    ghost failures = { λ p. P.failures p.beneath.now };

    fn receive(&mut self, octets: &mut ArrayVec<u8, 2048>) -> Result<Option<Route>, Device> {
        let came = self.beneath.receive(octets)?;
        if let Some(from) = came {
            self.noted.heard = self.noted.heard || from.peer == self.server;
        }
        Ok(came)
    }

    fn send(&mut self, to: Route, octets: &[u8]) -> Result<(), Device> {
        self.beneath.send(to, octets)?;
        self.noted.asked = self.noted.asked || to.peer == self.server;
        Ok(())
    }

    fn failures(&self) -> u64 {
        self.beneath.failures()
    }
}

/// A turn, as [`host_turn`] does it, and with the same refusal. Returns with its outcome whether a datagram came from the server in it,
/// and whether one was sent to it.
pub fn noted_turn<P: Port, K: Watch, const N: usize>(
    port: &mut P,
    watch: &mut K,
    node: &mut Node<N>,
    server: Addr,
    config: Config,
    goals: &mut [Goal],
    last: &mut Look,
) -> (Noted, Result<(), Device>)
    requires slots_at_least { 1 ≤ N }
    requires slots_at_most { N ≤ slots_most }
    ensures ok { OnOk result.1 (NotedTurn HostTurn P.does K.looks (record { slots = N; server = server; config = config }) result.0
        (record { port = port.old; watch = watch.old; last = last.old; host = record { goals = goals.old; node = node.old } })
        (record { port = port.new; watch = watch.new; last = last.new; host = record { goals = goals.new; node = node.new } })) }
    ensures err { OnErr result.1 (NotedTurn HostBreaks P.does K.looks (record { slots = N; server = server; config = config }) result.0
        (record { port = port.old; watch = watch.old; last = last.old; host = record { goals = goals.old; node = node.old } })
        (record { port = port.new; watch = watch.new; last = last.new; host = record { goals = goals.new; node = node.new } })) }
{
    let mut noting = NotingPort {
        beneath: port,
        server,
        noted: Noted {
            heard: false,
            asked: false,
        },
    };
    let turned = turn_over(&mut noting, watch, node, server, config, goals, last);
    (noting.noted, turned)
}

/// A turn over a port that has noted nothing yet.
fn turn_over<P: Port, K: Watch, const N: usize>(
    noting: &mut NotingPort<'_, P>,
    watch: &mut K,
    node: &mut Node<N>,
    server: Addr,
    config: Config,
    goals: &mut [Goal],
    last: &mut Look,
) -> Result<(), Device>
    requires slots_at_least { 1 ≤ N }
    requires slots_at_most { N ≤ slots_most }
    requires none { noting.old.noted ≡ record { heard = false; asked = false } }
    requires server { noting.old.server ≡ server }
    // It notes of the same port, by the same borrow.
    ensures name { noting.new.beneath.ghost_name ≡ noting.old.beneath.ghost_name }
    ensures ok { OnOk result (NotedTurn HostTurn P.does K.looks (record { slots = N; server = server; config = config }) noting.new.noted
        (record { port = noting.old.beneath.now; watch = watch.old; last = last.old; host = record { goals = goals.old; node = node.old } })
        (record { port = noting.new.beneath.now; watch = watch.new; last = last.new; host = record { goals = goals.new; node = node.new } })) }
    ensures err { OnErr result (NotedTurn HostBreaks P.does K.looks (record { slots = N; server = server; config = config }) noting.new.noted
        (record { port = noting.old.beneath.now; watch = watch.old; last = last.old; host = record { goals = goals.old; node = node.old } })
        (record { port = noting.new.beneath.now; watch = watch.new; last = last.new; host = record { goals = goals.new; node = node.new } })) }
{
    host_turn(noting, watch, node, server, config, goals, last)
}
