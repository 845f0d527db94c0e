//! What a server has beside its leases that asks machines which addresses they have.

ghost use Rattle.std.specs.Prelude.{◌≡◌, [], not, Some, None, IfOk, IsTrue, ◌↔◌, is_some};
ghost use Rattle.nbt_confirm.specs.Waiting.{is_under_way, next_to_ask};
ghost use Rattle.nbt_waits.specs.Asking.{asks_nothing, are_full, granting};
ghost use Rattle.nbt_waits.specs.Doing.{done_by, granted_as, hands_on, waiting_note, waits};

use crate::granted::Granted;
use crate::note::{Asked, Note, Settled};
use nbt_confirm::{FurtherAddresses, Pending, Request, Taken, Waits};
use nbt_name::Name;
use std::alloc::{AllocError, Global};

/// The requests that wait, the further addresses that were confirmed, and the requests that the server may grant now. All memory is taken at
/// the start.
#[derive(Drop)]
pub struct Asking {
    /// The requests that wait, and the inquiries under way.
    pub waits: Waits,
    /// The further addresses.
    pub further: FurtherAddresses,
    /// The requests that come to the server next.
    pub granted: Granted,
    /// How many rows a client has at most, leases and further addresses together; a client is a 32-bit address.
    pub rows_per_client: u32,
}

impl Asking {
    /// Nothing waits, and nothing is confirmed. A client has so many rows at most.
    pub fn new(alloc: Global, rows_per_client: u32) -> Result<Asking, AllocError>
        ensures { IfOk result (λ asking. asking ≡ asks_nothing rows_per_client) }
    {
        Ok(Asking {
            waits: Waits::new(alloc)?,
            further: FurtherAddresses::new(alloc)?,
            granted: Granted::new(alloc)?,
            rows_per_client,
        })
    }

    /// Whether there is nothing to do but for what comes.
    pub fn is_idle(&self) -> bool
        ensures { IsTrue result ↔ ((self.now.waits.requests ≡ []) × (self.now.waits.pending ≡ []) × (self.now.further ≡ [])) }
    {
        self.waits.requests().is_empty()
            && self.waits.pending().is_empty()
            && self.further.rows().is_empty()
    }

    /// Whether a request waits for an answer, and no inquiry about its name is under way: an id is drawn only then.
    pub fn wants_id(&self) -> bool
        ensures { result ≡ is_some (next_to_ask self.now.waits) }
    {
        wants_id_in(self.waits.requests(), self.waits.pending())
    }

    /// Has a request wait, last of all. It is lost where too many wait; one that waits already is a resend, and ignored.
    pub fn wait(&mut self, request: Request) -> Settled
        ensures { done_by result [] self.new ≡ waits request self.old }
    {
        let mut note = Note::of(Asked::Waits(request.asked), &request);
        match self.waits.take(request) {
            Taken::Waits => Settled::silent(Some(note)),
            Taken::Resent => Settled::silent(None),
            Taken::ClientFull | Taken::Full => {
                note.asked = Asked::Lost;
                Settled::silent(Some(note))
            }
        }
    }

    /// Has the server have a request next, as if it had come now. It is lost where too many come to it.
    pub fn hand_on(&mut self, request: Request) -> Settled
        ensures { done_by result [] self.new ≡ hands_on request self.old }
    {
        let mut note = Note::of(Asked::Lost, &request);
        if self.granted.put(request) {
            note.asked = Asked::Granted;
        }
        Settled::silent(Some(note))
    }
}

/// Whether one of these requests waits for an answer, and none of these inquiries is about its name.
fn wants_id_in(requests: &[Request], pending: &[Pending]) -> bool
    ensures { result ≡ is_some (next_to_ask (record { requests = requests.now; pending = pending.now })) }
{
    for request in requests {
        if request.awaits.is_asking() && !is_under_way(pending, &request.name) {
            return true;
        }
    }
    false
}

/// Whether an inquiry about this name is under way.
fn is_under_way(pending: &[Pending], name: &Name) -> bool
    ensures { result ≡ is_under_way pending.now name.now }
{
    pending.iter().any(|other| other.inquiry.name == *name)
}
