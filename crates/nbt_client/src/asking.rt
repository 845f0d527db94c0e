//! A lookup over a port and a clock.

ghost use Rattle.std.specs.Prelude.{◌≡◌, ◌≢◌, ◌++◌, ◌⊎◌, ℕ, List, Err, IfOk, IfErr};
ghost use Rattle.std.specs.String.{string_bytes};
ghost use Rattle.nbt_port.specs.PortCalls.{one_more};
ghost use Rattle.nbt_client.specs.Asking.{Asks, AskFails, started_node};

use crate::answer::{Answer, write_ending};
use crate::lookup::look_up;
use crate::question::{Question, end_of};
use arrayvec::ArrayVec;
use nbt_lease::{Config, Moment};
use nbt_name::Addr;
use nbt_node::Node;
use nbt_port::{Clock, Fault, Port};

/// The greatest life of a datagram, in milliseconds, and the longest lease, in seconds, of a node that holds nothing: neither
/// is used.
const LIFE: u64 = 1_000;

const LONGEST: u32 = 60;

/// The most turns, of which each waits for one datagram: more than come in the time that a lookup has (our profile).
pub const TURNS_MOST: u64 = 1 << 40;

/// Starts a node at `own` whose server is the host that is asked, and looks up as [`look_up`] does, by the id `first_id`, for `patience`
/// milliseconds at most. Appends the text of the outcome: what the reply says, or the line `no reply`. Refused: `Device` at the first call
/// of the port that fails, and nothing is appended then; `Memory` after the lookup, where it is out of memory.
pub fn ask<P: Port, C: Clock>(
    port: &mut P,
    clock: &mut C,
    own: Addr,
    first_id: u16,
    question: &Question,
    patience: u32,
    out: &mut String,
) -> Result<Answer, Fault>
    ensures ok { IfOk result (λ answer. (text : List ℕ) × Asks P.does C.tells own first_id question.now patience port.old clock.old answer text port.new clock.new
        × (string_bytes out.new ≡ string_bytes out.old ++ text)) }
    ensures device { result ≡ Err Fault.Device → AskFails P.does C.tells own first_id question.now patience port.old clock.old port.new clock.new
        × (string_bytes out.new ≡ string_bytes out.old) }
    ensures faults { IfErr result (λ fault. (fault ≡ Fault.Device) ⊎ (fault ≡ Fault.Memory)) }
    // It is `Device` exactly where a call of the port failed.
    ensures failed { result ≡ Err Fault.Device → P.failures port.new ≡ one_more (P.failures port.old) }
    ensures well { result ≢ Err Fault.Device → P.failures port.new ≡ P.failures port.old }
{
    let now = clock.now();
    let mut node = start_node(own, first_id, question, now);
    let mut octets = ArrayVec::new();
    let ending = look_up(
        port,
        clock,
        &mut node,
        question,
        u64::from(patience),
        TURNS_MOST,
        &mut octets,
    )?;
    let answer = write_ending(ending, octets.as_slice(), out)?;
    Ok(answer)
}

/// The node that looks up.
fn start_node(own: Addr, first_id: u16, question: &Question, now: Moment) -> Node<1>
    ensures { result ≡ started_node own first_id question.now now }
{
    let config = Config::new(LIFE, LONGEST, 1).unwrap();
    Node::start_from(own, end_of(question), config, now, first_id)
}
