//! What holds of session packets and streams, whatever the code does: laws over the definitions alone.

ghost use Rattle.std.specs.Prelude.{◌≡◌, ℕ, ◌<◌, ◌≤◌, length, List, ◌++◌, [], take, Option, Some, Ok, Err};
ghost use Rattle.nbt_name.specs.declared.addr.Kind.{Kind};
ghost use Rattle.nbt_name.specs.Wire.{NameValue};
ghost use Rattle.nbt_session.specs.declared.caller.CallerState.{CallerState};
ghost use Rattle.nbt_session.specs.declared.fault.Fault.{Fault};
ghost use Rattle.nbt_session.specs.declared.fault.StreamFault.TheVariants.{Malformed, OutOfMemory};
ghost use Rattle.nbt_session.specs.declared.packet.PacketType.TheVariants.{Message};
ghost use Rattle.nbt_session.specs.Caller.{AnswerValue, CallerMoves};
ghost use Rattle.nbt_session.specs.Event.{EventValue, packet};
ghost use Rattle.nbt_session.specs.Listener.{ListenerValue, ListenerAnswerValue, ListenerMoves, LetsIn, open_count};
ghost use Rattle.nbt_session.specs.Packet.{PacketValue, IsPacket, header, request, text};
ghost use Rattle.nbt_session.specs.Parts.{PartValue, PiecesState, between, TakesPart, PartsRun, PutTogether, held_in, octets_in};
ghost use Rattle.nbt_session.specs.Stream.{Begins, IsPartial, StreamIs, HasFault};
ghost use Rattle.nbt_session.specs.Taking.{StreamState, holding, Takes, Taken, Run};

/// Each packet's text, whatever follows it, begins with that packet and with no other, and has no fault
/// (RFC 1002 section 4.3).
pub fn text_is_read()
    ensures read { (packet : PacketValue) (rest : List ℕ) → IsPacket packet → Begins (text packet ++ rest) packet rest }
    ensures one_packet { (octets : List ℕ) (a b : PacketValue) (x y : List ℕ)
        → Begins octets a x → Begins octets b y → (a ≡ b) × (x ≡ y) }
    ensures no_fault { (octets : List ℕ) (packet : PacketValue) (rest : List ℕ) (fault : Fault)
        → Begins octets packet rest → HasFault octets fault → ⊥ }
{
    nbt_name::laws::no_wire_form_begins_another();
    nbt_name::laws::wire_form_is_read();
    nbt_name::laws::one_name_or_fault();
}

/// Octets have one fault at most, and keep it, whatever comes after them.
pub fn one_fault()
    ensures one { (octets : List ℕ) (a b : Fault) → HasFault octets a → HasFault octets b → a ≡ b }
    ensures stays { (octets more : List ℕ) (fault : Fault) → HasFault octets fault → HasFault (octets ++ more) fault }
{
    nbt_name::laws::one_name_or_fault();
}

/// Octets are packets and a rest in one way.
pub fn one_stream()
    ensures { (octets : List ℕ) (a b : List PacketValue) (x y : List ℕ)
        → StreamIs octets a x → StreamIs octets b y → (a ≡ b) × (x ≡ y) }
{
    text_is_read();
}

/// However a stream of octets is cut into pieces, the packets that are returned and the octets that are held are those
/// of the octets taken; and a fault is returned where those octets and the piece go on with one.
pub fn cutting_changes_nothing()
    ensures packets { (octets : List ℕ) (packets : List PacketValue) (rest : List ℕ)
        → Run (holding []) octets packets (holding rest) → StreamIs octets packets rest }
    ensures fault { (octets piece : List ℕ) (packets : List PacketValue) (rest : List ℕ) (fault : Fault) (after : StreamState)
        → Run (holding []) octets packets (holding rest) → Takes piece (holding rest) (Err (Malformed fault)) after
        → StreamIs (octets ++ piece) packets (rest ++ piece) × HasFault (rest ++ piece) fault }
{
    text_is_read();
}

/// However a stream of octets is cut into pieces, the parts that are returned, put together, and the octets that are
/// held are those of the octets taken; and a fault is returned where those octets and the piece go on with one. In each
/// call the octets held before and those taken are the part's octets and those held after.
pub fn parts_are_the_stream()
    ensures call { (piece : List ℕ) (n : ℕ) (part : Option PartValue) (before after : PiecesState)
        → TakesPart piece before (Ok (n, part)) after → held_in before ++ take n piece ≡ octets_in part ++ held_in after }
    ensures packets { (octets : List ℕ) (parts : List PartValue) (after : PiecesState)
        → PartsRun (between []) octets parts after
        → (packets : List PacketValue) × (begun : List ℕ) × PutTogether parts packets begun × StreamIs octets packets (begun ++ held_in after) }
    ensures fault { (octets piece : List ℕ) (parts : List PartValue) (before after : PiecesState) (fault : Fault)
        → PartsRun (between []) octets parts before → TakesPart piece before (Err (Malformed fault)) after
        → (packets : List PacketValue) × PutTogether parts packets []
        × StreamIs (octets ++ piece) packets (held_in before ++ piece) × HasFault (held_in before ++ piece) fault }
{
    text_is_read();
}

/// A message of which octets are to come is no packet yet, and has no fault.
pub fn a_message_that_lacks_octets()
    ensures { (size : ℕ) (octets : List ℕ) → size ≤ 131071 → length octets < size
        → IsPartial (header Message size ++ octets) × ((fault : Fault) → ¬ HasFault (header Message size ++ octets) fault) }
{}

/// A stream that is given a piece has one answer, and is in one state afterwards, unless it runs out of memory.
pub fn one_answer()
    ensures { (piece : List ℕ) (before a b : StreamState) (x y : Taken)
        → Takes piece before x a → Takes piece before y b
        → (x ≡ Err OutOfMemory → ⊥) → (y ≡ Err OutOfMemory → ⊥) → (x ≡ y) × (a ≡ b) }
{
    text_is_read();
    one_fault();
}

/// What happens to a call has one line of its table: one state afterwards and one answer.
#[tactic(auto, using(crate::proofs::Calls::one_call_move))]
pub fn one_call_move()
    ensures { (called calling : NameValue) (before a b : CallerState) (event : EventValue) (x y : AnswerValue)
        → CallerMoves called calling before event a x → CallerMoves called calling before event b y → (a ≡ b) × (x ≡ y) }
{}

/// What happens to a connection has one line of the listener's table: one listener afterwards and one answer.
pub fn one_listener_move()
    ensures { (holds : NameValue → Option Kind) (before a b : ListenerValue) (slot : ℕ) (event : EventValue) (x y : ListenerAnswerValue)
        → ListenerMoves holds before slot event a x → ListenerMoves holds before slot event b y → (a ≡ b) × (x ≡ y) }
{}

/// A call is accepted, or retargeted, only where the node holds the called name.
pub fn calls_go_to_held_names()
    ensures { (holds : NameValue → Option Kind) (before after : ListenerValue) (slot : ℕ) (event : EventValue) (answer : ListenerAnswerValue)
        → ListenerMoves holds before slot event after answer → LetsIn answer
        → (called calling : NameValue) × (kind : Kind) × (event ≡ packet (request called calling)) × (holds called ≡ Some kind) }
{}

/// No more than `most` connections are open at a time.
pub fn at_most_so_many_are_open()
    ensures { (holds : NameValue → Option Kind) (before after : ListenerValue) (slot : ℕ) (event : EventValue) (answer : ListenerAnswerValue)
        → ListenerMoves holds before slot event after answer
        → open_count before.slots ≤ before.most → open_count after.slots ≤ after.most }
{}
