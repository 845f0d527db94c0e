//! What holds of the calls of a port over memory, whatever the code does: laws over the definitions alone; and that the code's
//! numbers are theirs.

ghost use Rattle.std.specs.Prelude.{◌≡◌, ◌≤◌, ◌+◌, ◌++◌, List, min, take, drop};
ghost use Rattle.nbt_port.specs.Numbers.{octets_most, receive_wait, failures_most, count_most, forever, look_wait};
ghost use Rattle.nbt_port.specs.PortCalls.{PortCall, Chain};
ghost use Rattle.nbt_port.specs.Memory.{MemoryValue, MemoryDoes, sent_in, came_in, datagrams_in, received_in, failed_in};

use crate::limits::{FOREVER, MOST_FAILURES};
use crate::port::MOST;
use crate::udp::RECEIVE_WAIT;
use crate::udp_ports::LOOK_WAIT;

/// A port over memory keeps what was sent, in order; it hands out what it was given, in order, one a receive, of each
/// datagram its first 2,048 octets; and it counts the calls that failed, up to 2^64 - 1.
pub fn memory_tells()
    ensures { (acts : List PortCall) (old new : MemoryValue) → Chain MemoryDoes old acts new
        → (new.sent ≡ old.sent ++ sent_in acts) × (came_in acts ≡ datagrams_in (take (received_in acts) old.incoming))
        × (new.incoming ≡ drop (received_in acts) old.incoming) × (old.failures ≤ count_most → new.failures ≡ min (old.failures + failed_in acts) count_most) }
{}

/// A port hands out 2,048 octets at most, a receive over UDP waits 100 ms, an end gives up at the hundredth failure
/// in a row, and takes 2^61 turns where it has no end. A port over several sockets looks for addresses again after a
/// second.
pub fn numbers()
    ensures octets { MOST ≡ octets_most }
    ensures wait { RECEIVE_WAIT ≡ receive_wait }
    ensures failures { MOST_FAILURES ≡ failures_most }
    ensures turns { FOREVER ≡ forever }
    ensures looks { LOOK_WAIT ≡ look_wait }
{}
