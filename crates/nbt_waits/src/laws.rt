//! What holds of all that is done with requests and where leases end, whatever the code does: laws over the definitions alone; and that the
//! code's numbers are theirs.

ghost use Rattle.std.specs.Prelude.{◌≡◌, ◌≢◌, ℕ, Bool, List, Option, Contains, true};
ghost use Rattle.nbt_name.specs.Wire.{NameValue};
ghost use Rattle.nbt_packet.specs.Message.{MessageValue};
ghost use Rattle.nbt_lease.specs.Lease.{TableValue};
ghost use Rattle.nbt_lease.specs.declared.lease.Lease.{Lease};
ghost use Rattle.nbt_confirm.specs.declared.further.Further.{Further};
ghost use Rattle.nbt_confirm.specs.declared.inquiry.Inquiry.{Inquiry};
ghost use Rattle.nbt_confirm.specs.declared.outcome.Outcome.{Outcome};
ghost use Rattle.nbt_confirm.specs.declared.outcome.Outcome.TheVariants.{Reached};
ghost use Rattle.nbt_confirm.specs.declared.request.Request.{Request};
ghost use Rattle.nbt_confirm.specs.Inquiries.{ConfirmedValue, MachineValue};
ghost use Rattle.nbt_waits.specs.declared.asking.Asking.{Asking};
ghost use Rattle.nbt_waits.specs.Doing.{Done};
ghost use Rattle.nbt_waits.specs.Lapsing.{follows_by, passes_on, unasked};
ghost use Rattle.nbt_waits.specs.Laws.{Are, HaveAnswered, IsConfirmed};
ghost use Rattle.nbt_waits.specs.Looking.{multi_homed, other_refresh_opcode, query_opcode, refresh_opcode};
ghost use Rattle.nbt_waits.specs.Sending.{leaves};
ghost use Rattle.nbt_waits.specs.Settling.{holds_back, settles};

use crate::lapsing::UNASKED;
use crate::looking::{MULTI_HOMED, OTHER_REFRESH, QUERY, REFRESH};

/// A further address is put only where it was confirmed: what holds of each further address, and of the one that was confirmed if one was,
/// holds of each afterwards.
pub fn a_further_address_was_confirmed()
    ensures settled { (holds : NameValue → ℕ → Bool) (table : TableValue) (now : ℕ) (outcome : Outcome) (r : Request) (c : Option ConfirmedValue) (old : Asking)
        → Are holds old.further → IsConfirmed holds c → Are holds (settles table now outcome r c old).asking.further }
    ensures held_back { (holds : NameValue → ℕ → Bool) (table : TableValue) (now : ℕ) (r : Request) (old : Asking) → Are holds old.further → Are holds (holds_back table now r old).asking.further }
    ensures passed_on { (holds : NameValue → ℕ → Bool) (now : ℕ) (name : NameValue) (holder : ℕ) (old : Asking) → Are holds old.further → Are holds (passes_on now name holder old).asking.further }
    ensures followed { (holds : NameValue → ℕ → Bool) (lease : Option Lease) (now : ℕ) (row : Further) (old : Asking) → Are holds old.further → Are holds (follows_by lease now row old).asking.further }
    ensures left { (holds : NameValue → ℕ → Bool) (now ip : ℕ) (octets : List ℕ) (further : List Further) (m : MessageValue) → Are holds further → Are holds (leaves now ip octets further m).further }
{}

/// It has answered only where its own answer came: what holds of each further address that has answered, and of the request's address where
/// that has answered now, holds of each that has answered afterwards. Only those are listed, or take a lease over.
pub fn a_further_address_has_answered()
    ensures settled { (holds : NameValue → ℕ → Bool) (table : TableValue) (now : ℕ) (outcome : Outcome) (r : Request) (c : Option ConfirmedValue) (old : Asking)
        → HaveAnswered holds old.further → (outcome ≡ Reached → holds r.name r.addr ≡ true) → HaveAnswered holds (settles table now outcome r c old).asking.further }
    ensures held_back { (holds : NameValue → ℕ → Bool) (table : TableValue) (now : ℕ) (r : Request) (old : Asking) → HaveAnswered holds old.further → HaveAnswered holds (holds_back table now r old).asking.further }
    ensures passed_on { (holds : NameValue → ℕ → Bool) (now : ℕ) (name : NameValue) (holder : ℕ) (old : Asking) → HaveAnswered holds old.further → HaveAnswered holds (passes_on now name holder old).asking.further }
    ensures followed { (holds : NameValue → ℕ → Bool) (lease : Option Lease) (now : ℕ) (row : Further) (old : Asking) → HaveAnswered holds old.further → HaveAnswered holds (follows_by lease now row old).asking.further }
    ensures left { (holds : NameValue → ℕ → Bool) (now ip : ℕ) (octets : List ℕ) (further : List Further) (m : MessageValue) → HaveAnswered holds further → HaveAnswered holds (leaves now ip octets further m).further }
{}

/// The numbers of the code are those of the definitions.
pub fn numbers()
    ensures unasked { UNASKED ≡ unasked }
    ensures query { QUERY ≡ query_opcode }
    ensures refresh { REFRESH ≡ refresh_opcode }
    ensures other_refresh { OTHER_REFRESH ≡ other_refresh_opcode }
    ensures multi_homed { MULTI_HOMED ≡ multi_homed }
{}
