//! What holds of inquiries, waits and further addresses, whatever the code does: laws over the definitions alone; and that the code's
//! numbers are theirs.

ghost use Rattle.std.specs.Prelude.{◌≡◌, ◌<◌, ◌≤◌, ◌^◌, ◌⊎◌, ℕ, List, Some, Any, length};
ghost use Rattle.nbt_name.specs.declared.addr.Addr.{Addr};
ghost use Rattle.nbt_confirm.specs.declared.inquiry.Inquiry.{Inquiry as Asked};
ghost use Rattle.nbt_confirm.specs.declared.outcome.Answer.{Answer};
ghost use Rattle.nbt_confirm.specs.declared.outcome.Answer.TheVariants.{Listed, Silent};
ghost use Rattle.nbt_confirm.specs.declared.outcome.Outcome.TheVariants.{Further, Grant, Reached, Refuse};
ghost use Rattle.nbt_confirm.specs.declared.request.Awaits.{Awaits};
ghost use Rattle.nbt_confirm.specs.declared.request.Awaits.TheVariants.{AfterLease, Holder, Reach, Requester, Sender};
ghost use Rattle.nbt_confirm.specs.declared.request.Request.{Request};
ghost use Rattle.nbt_confirm.specs.declared.waits.Pending.{Pending};
ghost use Rattle.nbt_confirm.specs.Further.{further_most, name_most};
ghost use Rattle.nbt_confirm.specs.Inquiries.{ConfirmedValue, Confirms, IsFurther, ListsItselfAlone, MachineValue, entries_most, name_port, octets_most};
ghost use Rattle.nbt_confirm.specs.Waiting.{Hears, client_most, gap, outcome_of, queries, taken_as, waits_most, with_taken};

use crate::further::{FURTHER_MOST, NAME_MOST};
use crate::inquiry::NAME_PORT;
use crate::response::{ENTRIES_MOST, OCTETS_MOST};
use crate::waits::{CLIENT_MOST, GAP, QUERIES, WAITS_MOST};

/// A machine becomes known by a response alone that confirms an inquiry which was under way.
pub fn a_machine_answered()
    ensures { (from : Addr) (octets : List ℕ) (old new : List Pending) (machine : MachineValue) → Hears from octets old (Some machine) new → Any (λ p. Confirms p.inquiry from octets machine) old }
{}

/// A machine that lists itself alone, as our nodes do, has no further address.
pub fn a_node_of_ours_has_no_further_address()
    ensures { (i : Asked) (from : Addr) (octets : List ℕ) (machine : MachineValue) (c : ConfirmedValue) → from.ip < 2 ^ 32 → ListsItselfAlone from octets → Confirms i from octets machine → ¬ IsFurther machine c }
{
    nbt_packet::laws::one_message_spelled();
}

/// A request is granted only where the requester listed itself, and only after the lease that stood in its way, or where the name had
/// none; it adds a further address only where the holder listed it, which is listed only once it has answered itself; and a requester that doesn't list itself, as a node of ours before
/// it is granted, is refused.
pub fn what_an_answer_can_do()
    ensures grants { (awaits : Awaits) (answer : Answer) → outcome_of awaits answer ≡ Grant → ((awaits ≡ AfterLease) ⊎ (awaits ≡ Sender)) × (answer ≡ Listed) }
    ensures adds { (awaits : Awaits) (answer : Answer) → outcome_of awaits answer ≡ Further → (awaits ≡ Holder) × (answer ≡ Listed) }
    ensures reaches { (awaits : Awaits) (answer : Answer) → outcome_of awaits answer ≡ Reached → (awaits ≡ Reach) × (answer ≡ Listed) }
    ensures refuses { (answer : Answer) → (outcome_of Requester answer ≡ Refuse) ⊎ (answer ≡ Listed) }
{}

/// No more than 256 requests wait.
pub fn few_requests_wait()
    ensures { (requests : List Request) (r : Request) → length requests ≤ waits_most → length (with_taken (taken_as requests r) requests r) ≤ waits_most }
{}

/// The numbers of the code are those of the definitions.
pub fn numbers()
    ensures port { NAME_PORT ≡ name_port }
    ensures entries { ENTRIES_MOST ≡ entries_most }
    ensures octets { OCTETS_MOST ≡ octets_most }
    ensures waits { WAITS_MOST ≡ waits_most }
    ensures client { CLIENT_MOST ≡ client_most }
    ensures queries { QUERIES ≡ queries }
    ensures gap { GAP ≡ gap }
    ensures name { NAME_MOST ≡ name_most }
    ensures further { FURTHER_MOST ≡ further_most }
{}
