//! A lookup from its request to its reply.

ghost use Rattle.std.specs.Prelude.{◌<◌, ◌^◌, IfOk, OnErr};
ghost use Rattle.nbt_port.specs.PortCalls.{CountsFailure};
ghost use Rattle.nbt_client.specs.Lookups.{Waited, Looks, Broken, Fails};

use crate::lookup_turn::{Progress, take_turn};
use crate::question::{Question, begin, end_of};
use arrayvec::ArrayVec;
use nbt_node::{LookupFault, Node};
use nbt_port::{Clock, Device, Port, Route};

/// How a lookup ended.
#[derive(Clone, Copy, Debug, PartialEq, Eq)]
pub enum Ending {
    /// The node sends nothing, for this reason.
    Refused(LookupFault),
    /// A reply came that the node knows as its own.
    Told,
    /// None came in time.
    NoReply,
}

/// The node opens the lookup at the time that the clock tells, and its request is sent. Then turn after turn the clock is read,
/// the node is polled until it has nothing to send, the port receives once, the clock is read again, and the node handles what
/// came. The lookup is over with the first reply that the node knows as its own, which then stands in `octets`; where
/// `patience` milliseconds have passed since it was opened; where the node doesn't hold it open any more, which is so 5,000 ms
/// after its third sending (RFC 1002 section 6), or where the clock went back; and after `most` turns. Refused with `Device` at
/// the first call of the port that fails: nothing else is done, and the node is as it was before the receive, or as after the
/// call that made the sending, which is lost.
pub fn look_up<P: Port, C: Clock, const N: usize>(
    port: &mut P,
    clock: &mut C,
    node: &mut Node<N>,
    question: &Question,
    patience: u64,
    most: u64,
    octets: &mut ArrayVec<u8, 2048>,
) -> Result<Ending, Device>
    requires patience { patience < 2 ^ 62 }
    ensures ok { IfOk result (λ ending. Looks P.does C.tells question.now patience most port.old clock.old node.old ending octets.new.items port.new clock.new node.new) }
    ensures err { OnErr result (Fails P.does C.tells question.now patience most port.old clock.old node.old port.new clock.new node.new) }
    // It is refused exactly where the port's count of failures grew.
    ensures device { CountsFailure (P.failures port.old) (P.failures port.new) result }
{
    let now = clock.now();
    let mut out = ArrayVec::new();
    if let Err(fault) = begin(question, node, now, &mut out) {
        return Ok(Ending::Refused(fault));
    }
    port.send(Route::to(end_of(question)), out.as_slice())?;
    wait(port, clock, node, now.get() + patience, most, octets)
}

/// Turns until the lookup is over.
fn wait<P: Port, C: Clock, const N: usize>(
    port: &mut P,
    clock: &mut C,
    node: &mut Node<N>,
    limit: u64,
    most: u64,
    octets: &mut ArrayVec<u8, 2048>,
) -> Result<Ending, Device>
    ensures ok { IfOk result (λ ending. Waited P.does C.tells limit most ending octets.new.items
        (record { port = port.old; clock = clock.old; node = node.old }) (record { port = port.new; clock = clock.new; node = node.new })) }
    ensures err { OnErr result (Broken P.does C.tells limit most
        (record { port = port.old; clock = clock.old; node = node.old }) (record { port = port.new; clock = clock.new; node = node.new })) }
    ensures device { CountsFailure (P.failures port.old) (P.failures port.new) result }
{
    for _ in 0..most {
        match take_turn(port, clock, node, limit, octets)? {
            Progress::Waits => {}
            Progress::Told => return Ok(Ending::Told),
            Progress::Late => return Ok(Ending::NoReply),
        }
    }
    Ok(Ending::NoReply)
}
