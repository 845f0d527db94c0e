//! The network between the ends.

ghost use Rattle.std.specs.Prelude.{◌≡◌, ℕ, ◌<◌, Some, [], ◌∷◌, ◌++◌, ◌↔◌, IsTrue};
ghost use Rattle.std.specs.Vec.{vec_len, vec_capacity};
ghost use Rattle.nbt_node.specs.Node.{NodeValue};
ghost use Rattle.nbt_world.specs.declared.ends.Ends.{Ends as EndsValue};
ghost use Rattle.nbt_world.specs.World.{WorldValue, with_node};
ghost use Rattle.nbt_packet.specs.Message.{message_of};
ghost use Rattle.nbt_world.specs.Step.{MovesName, SpellMove, given_of, after, outcome_of, TakenValue, IsTaken, after_taking, outcome_of_taking};

use crate::clocks::Clocks;
use crate::ends::Taken;
use crate::event::Outcome;
use crate::node_call::CallOutcome;
use arrayvec::ArrayVec;
use nbt_name::Addr;
use nbt_packet::{Message, read};

/// A datagram that an end sent.
#[derive(Debug, Drop)]
pub struct Datagram {
    pub from: Addr,
    pub to: Addr,
    /// When it was sent: the true moment, and what each end read.
    pub moment: Clocks,
    pub octets: ArrayVec<u8, 576>,
}

impl Datagram {
    /// Its octets once more.
    pub fn copy_octets(&self) -> ArrayVec<u8, 576>
        ensures { result.items ≡ self.now.octets.items }
    {
        let mut copy = ArrayVec::new();
        copy.try_extend_from_slice(self.octets.as_slice()).unwrap();
        copy
    }
}

/// Whether a message is a request about a lease, or grants one.
fn moves_name(message: &Message<'_>) -> bool
    ensures { IsTrue result ↔ MovesName (message_of message.now) }
{
    match message {
        Message::Registration(_)
        | Message::Overwrite(_)
        | Message::Refresh(_)
        | Message::Release { .. } => true,
        Message::Registered { rcode, .. } => *rcode == 0,
        _ => false,
    }
}

/// Whether octets spell such a message.
pub fn spell_move(octets: &[u8]) -> bool
    ensures { IsTrue result ↔ SpellMove octets.now }
{
    match read(octets) {
        Some(message) => moves_name(&message),
        None => false,
    }
}

/// Sends a datagram, for which there is room, and returns its number.
fn send(sent: &mut Vec<Datagram>, datagram: Datagram) -> usize
    requires { vec_len sent.old < vec_capacity sent.old }
    ensures number { result ≡ vec_len sent.old }
    ensures sent { sent.new.items ≡ sent.old.items ++ datagram ∷ [] }
{
    let number = sent.len();
    let pushed = sent.push(datagram);
    prove!(pushed.is_ok());
    number
}

/// Sends what a node's call gave, where it gave a datagram.
pub fn give(
    sent: &mut Vec<Datagram>,
    given: CallOutcome,
    from: Addr,
    moment: Clocks,
    octets: ArrayVec<u8, 576>,
) -> Outcome
    requires { vec_len sent.old < vec_capacity sent.old }
    ensures { (world : WorldValue) (number : ℕ) (new : NodeValue) → world.sent ≡ sent.old.items → world.now ≡ moment → new.addr ≡ from
        → (result ≡ outcome_of world (given_of given octets.items))
        × (after world number new (given_of given octets.items) ≡ record world { ends = with_node world.ends number (Some new); sent = sent.new.items }) }
{
    match given {
        CallOutcome::Nothing => Outcome::Nothing,
        CallOutcome::Refusal(fault) => Outcome::Refused(fault),
        CallOutcome::To(to) => Outcome::Sent(send(
            sent,
            Datagram {
                from,
                to,
                moment,
                octets,
            },
        )),
    }
}

/// Sends an end's reply to a datagram, where it has one.
pub fn reply(
    sent: &mut Vec<Datagram>,
    taken: Taken,
    from: Addr,
    to: Addr,
    moment: Clocks,
    octets: ArrayVec<u8, 576>,
) -> Outcome
    requires { vec_len sent.old < vec_capacity sent.old }
    ensures { (world : WorldValue) (ends : EndsValue) (value : TakenValue) → world.sent ≡ sent.old.items → world.now ≡ moment → IsTaken taken octets.items value
        → (result ≡ outcome_of_taking world value) × (after_taking world ends from to value ≡ record world { ends = ends; sent = sent.new.items }) }
{
    match taken {
        Taken::Down => Outcome::Down,
        Taken::Lost => Outcome::Lost,
        Taken::Silent => Outcome::Taken,
        Taken::Replies => Outcome::Sent(send(
            sent,
            Datagram {
                from,
                to,
                moment,
                octets,
            },
        )),
    }
}
