//! What holds of the polls and turns of a node, whatever the code does: laws over the definitions alone; and that the code's
//! numbers are theirs.

ghost use Rattle.std.specs.Prelude.{◌≡◌, ℕ, ◌+◌, ◌≤◌, List, length};
ghost use Rattle.nbt_node.specs.Node.{NodeValue, slots_most};
ghost use Rattle.nbt_node.specs.Transaction.{retry_timeout};
ghost use Rattle.nbt_port.specs.PortCalls.{PortCall, Chain};
ghost use Rattle.nbt_client.specs.Asking.{tries_most, turns_most};
ghost use Rattle.nbt_client.specs.OneAnswer.{OneNodeTurn};
ghost use Rattle.nbt_client.specs.Turning.{PollsTo};

use crate::asking::TURNS_MOST;
use crate::patience::{TRIES_MOST, TRY};
use crate::turning::SLOTS;

/// At one moment at most as many polls have something for an end as the node has slots, and one more for its lookup.
pub fn few_polls_send_at_one_moment()
    ensures { (now : ℕ) (old new : NodeValue) (acts : List PortCall) → Chain (PollsTo now) old acts new → length acts ≤ length old.slots + 1 }
{
    nbt_node::laws::settling_ends();
}

/// A node's turn whose moments don't go back is determined by them and by what came: the port's calls, what is seen, and the
/// node afterwards.
pub fn one_turn()
    ensures { OneNodeTurn }
{
    nbt_node::laws::one_answer();
}

/// A lookup sends its request three times at most, as a node does, one every 5,000 ms (RFC 1002 section 6), and takes 2^40 turns at
/// most; a node has 14 slots (our profile).
pub fn numbers()
    ensures tries { TRIES_MOST ≡ tries_most }
    ensures wait { TRY ≡ retry_timeout }
    ensures turns { TURNS_MOST ≡ turns_most }
    ensures slots { SLOTS ≡ slots_most }
{}
