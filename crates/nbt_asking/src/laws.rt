//! What holds of all that is done between two turns, whatever the code does: laws over the definitions alone.

ghost use Rattle.std.specs.Prelude.{◌≡◌, ℕ, Bool, List, [], Option, None, max};
ghost use Rattle.nbt_name.specs.Wire.{NameValue};
ghost use Rattle.nbt_port.specs.PortCalls.{PortCall};
ghost use Rattle.nbt_log.specs.declared.entry.Entry.{Entry};
ghost use Rattle.nbt_server.specs.Serving.{ServerValue};
ghost use Rattle.nbt_waits.specs.Laws.{Are};
ghost use Rattle.nbt_asking.specs.Attending.{Attends, at_time};
ghost use Rattle.nbt_asking.specs.Laws.{AreConfirmed, HasNobody, ListsItsOwn};
ghost use Rattle.nbt_asking.specs.Port.{AskingDoes, AskingPortValue};

use crate::flags::TellsFlags;
use crate::ids::Ids;
use nbt_port::Port;

/// Between two turns an address becomes a further one only where a response confirmed it, which the machine of the address that was asked
/// sent, with the id and the name of the inquiry, and which lists it: what holds of each further address, and of each that is confirmed by
/// what was set aside, holds of each afterwards. No call of the port puts one.
pub fn a_further_address_was_confirmed<P: Port + TellsFlags, I: Ids>()
    ensures called { (holds : NameValue → ℕ → Bool) (old : AskingPortValue P I) (call : PortCall) (new : AskingPortValue P I)
        → Are holds old.desk.asking.further → AskingDoes P.does P.told old call new → Are holds new.desk.asking.further }
    ensures attended { (holds : NameValue → ℕ → Bool) (server : ServerValue) (at : ℕ) (octets : List ℕ) (entry logged : Option Entry) (old new : AskingPortValue P I)
        → Are holds old.desk.asking.further → AreConfirmed holds old.desk → Attends P.does I.draws server at octets entry logged old new → Are holds new.desk.asking.further }
{}

/// A server whose machines list their own address alone, as our nodes do, has no further address: neither a call of the port nor what is done
/// between two turns puts one.
pub fn our_nodes_have_no_further_address<P: Port + TellsFlags, I: Ids>()
    ensures called { (old : AskingPortValue P I) (call : PortCall) (new : AskingPortValue P I) → old.desk.asking.further ≡ [] → AskingDoes P.does P.told old call new → new.desk.asking.further ≡ [] }
    ensures attended { (server : ServerValue) (at : ℕ) (octets : List ℕ) (entry logged : Option Entry) (old new : AskingPortValue P I)
        → old.desk.asking.further ≡ [] → ListsItsOwn old.desk → Attends P.does I.draws server at octets entry logged old new → new.desk.asking.further ≡ [] }
{
    nbt_confirm::laws::a_node_of_ours_has_no_further_address();
}

/// Where nothing was set aside, nothing waits and no address is a further one, nothing is done between two turns without a datagram.
pub fn nothing_is_done_for_nobody<P: Port, I: Ids>()
    ensures { (server : ServerValue) (at : ℕ) (octets : List ℕ) (logged : Option Entry) (old new : AskingPortValue P I)
        → HasNobody old.desk → Attends P.does I.draws server at octets None logged old new → new ≡ at_time (max at server.last) old }
{}
