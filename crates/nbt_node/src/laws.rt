//! What holds of a node's names, moves and calls, whatever the code does: laws over the definitions alone.

ghost use Rattle.std.specs.Prelude.{◌≡◌, ◌≢◌, ◌⊎◌, ℕ, ◌≤◌, List, Option, None};
ghost use Rattle.nbt_name.specs.declared.addr.Addr.{Addr};
ghost use Rattle.nbt_name.specs.declared.addr.Kind.{Kind};
ghost use Rattle.nbt_name.specs.Wire.{NameValue};
ghost use Rattle.nbt_packet.specs.Message.{MessageValue};
ghost use Rattle.nbt_lease.specs.Config.{ConfigValue};
ghost use Rattle.nbt_node.specs.declared.lookup.Wanted.{Wanted};
ghost use Rattle.nbt_node.specs.declared.state.State.{State};
ghost use Rattle.nbt_node.specs.Settling.{settled};
ghost use Rattle.nbt_node.specs.Node.{NodeValue, AreDistinct, settled_node, state_of, state_at};
ghost use Rattle.nbt_node.specs.Moves.{NameEvent, ask, Told, Move, NameMoves};
ghost use Rattle.nbt_node.specs.Calls.{started, ask_refusal, Sends, Opens, Polls};
ghost use Rattle.nbt_node.specs.Datagrams.{Handles};
ghost use Rattle.nbt_node.specs.Shifted.{StartsAlike, SettlesAlike, MovesAlike, TellsAlike, DoesAlike};

/// A state that is settled at a time stays as it is at that time.
#[tactic(auto, using(crate::proofs::Steps::settled_twice))]
pub fn settling_ends()
    ensures { (life now : ℕ) (state : State) → settled life now (settled life now state) ≡ settled life now state }
{}

/// Settling at one time, and then at a later one, is settling at the later one.
#[tactic(auto, using(crate::proofs::Steps::settled_twice))]
pub fn settling_in_steps()
    ensures { (life a b : ℕ) (state : State) → a ≤ b → settled life b (settled life a state) ≡ settled life b state }
{}

/// The same of a node, its names and its lookup, also where both times are the same.
#[tactic(auto, using(crate::proofs::Steps::node_steps))]
pub fn a_node_settles_in_steps()
    ensures { (node : NodeValue) (a b : ℕ) → a ≤ b → settled_node (settled_node node a) b ≡ settled_node node b }
{}

/// No two lines of the table of moves are about one event on one state.
#[tactic(auto, using(crate::proofs::OneMove::one_outcome))]
pub fn one_move()
    ensures { (node : NodeValue) (now : ℕ) (name : NameValue) (before : State) (event : NameEvent) (a b : State) (m n : Option MessageValue) (t u : Told) (i j : ℕ)
        → Move node now name before event a m t i → Move node now name before event b n u j → (a ≡ b) × (m ≡ n) × (t ≡ u) × (i ≡ j) }
{}

/// What becomes of each name of a node in which no name has two slots. So it is at the node's start, and after each of its
/// calls. The name that moves is then as its line says, and settled; every other name changes by time alone.
pub fn each_name()
    ensures start { (count : ℕ) (addr server : Addr) (config : ConfigValue) (now : ℕ) → AreDistinct (started count addr server config now).slots }

    // Where the name is registered, that may not be refused.
    ensures moves { (old new : NodeValue) (now : ℕ) (name : NameValue) (event : NameEvent) (sent : Option MessageValue) (told : Told)
        → AreDistinct old.slots → (moves : NameMoves old now name event new sent told)
        → (((kind : Kind) (ttl : ℕ) → event ≢ ask kind ttl) ⊎ (ask_refusal old now name ≡ None) → state_of new name ≡ settled old.config.life now moves.after)
        × ((q : NameValue) → q ≢ name → state_of new q ≡ state_at old now q) × AreDistinct new.slots }

    // Where the slots are settled alone: time passes, and a lookup opens, goes on or ends.
    ensures time { (old new : NodeValue) (now : ℕ) → AreDistinct old.slots → new.slots ≡ (settled_node old now).slots
        → ((q : NameValue) → state_of new q ≡ state_at old now q) × AreDistinct new.slots }
{}

/// Each call of a node has one answer: the node afterwards, what is sent, and what is reported.
pub fn one_answer()
    ensures sending { (old a b : NodeValue) (now : ℕ) (name : NameValue) (event : NameEvent) (x y : List ℕ)
        → Sends old now name event a x → Sends old now name event b y → (a ≡ b) × (x ≡ y) }
    ensures opening { (old a b : NodeValue) (now : ℕ) (name : NameValue) (to : Addr) (wanted : Wanted) (x y : List ℕ)
        → Opens old now name to wanted a x → Opens old now name to wanted b y → (a ≡ b) × (x ≡ y) }
    ensures poll { (old a b : NodeValue) (now : ℕ) (to other : Option Addr) (x y : List ℕ)
        → Polls old now a to x → Polls old now b other y → (a ≡ b) × (to ≡ other) × (x ≡ y) }
    ensures handling { (old a b : NodeValue) (now : ℕ) (from : Addr) (octets : List ℕ) (t u : Told) (x y : List ℕ)
        → Handles old now from octets a t x → Handles old now from octets b u y → (a ≡ b) × (t ≡ u) × (x ≡ y) }
{
    nbt_packet::laws::one_message_spelled();
}

/// A node whose clock shows a constant more at each time does the same, with each of its times greater by that constant: it
/// starts so, its names and its lookup settle so, and each line of the table of moves stands. It tells the same of what it
/// holds, and refuses each call for the same reason; else the call sends the same octets and reports the same. So nothing
/// that a node does depends on when its clock began.
pub fn a_shifted_node_does_the_same()
    ensures start { (more : ℕ) → StartsAlike more }
    ensures settling { (more : ℕ) → SettlesAlike more }
    ensures moves { (more : ℕ) → MovesAlike more }
    ensures telling { (more : ℕ) (node : NodeValue) (now : ℕ) (name : NameValue) → TellsAlike more node now name }
    ensures doing { (more : ℕ) (old : NodeValue) (now : ℕ) (new : NodeValue) → DoesAlike more old now new }
{}
