//! The requests that the server may grant.

ghost use Rattle.std.specs.Prelude.{◌≡◌, ◌<◌, ◌≤◌, [], ◌∷◌, ◌++◌, not, length, Some, None, IfOk, IfSome, IfNone, vec_capacity};
ghost use Rattle.nbt_waits.specs.Asking.{are_full, with_granted};

use nbt_confirm::{Request, WAITS_MOST};
use std::alloc::{AllocError, Global};
use std::marker::Model;

/// The requests that the server may grant now, in the order in which they come to it, 256 at most. Their memory is taken at the start.
#[derive(Drop)]
pub struct Granted {
    requests: Vec<Request>,
}

impl Model for Granted {
    ghost use Rattle.std.specs.Prelude.{◌≡◌, List, vec_capacity};
    ghost use Rattle.nbt_confirm.specs.declared.request.Request.{Request};
    ghost use Rattle.nbt_confirm.specs.Waiting.{waits_most};

    ghost Value = { List Request };

    ghost view = { λ g. g.requests.items };

    ghost invariant = { λ g. vec_capacity g.requests ≡ waits_most };
}

impl Granted {
    /// None. The memory for 256 is taken here.
    pub fn new(alloc: Global) -> Result<Granted, AllocError>
        ensures { IfOk result (λ granted. granted ≡ []) }
    {
        let requests = Vec::with_capacity(alloc, WAITS_MOST)?;
        Ok(Granted { requests })
    }

    /// All of them.
    pub fn requests(&self) -> &[Request]
        ensures { result.now ≡ self.now }
    {
        self.requests.as_slice()
    }

    /// Has the server have a request, behind the others. Returns whether there was room: it is lost where 256 come to it.
    pub fn put(&mut self, request: Request) -> bool
        ensures room { result ≡ not (are_full self.old) }
        ensures requests { self.new ≡ with_granted request self.old }
    {
        if self.requests.len() >= WAITS_MOST {
            return false;
        }
        self.requests.push_reserved(request);
        true
    }

    /// The first of them, which comes to the server now; `None` if there is none.
    pub fn take(&mut self) -> Option<Request>
        ensures first { IfSome result (λ request. self.old ≡ request ∷ self.new) }
        ensures none { IfNone result ((self.old ≡ []) × (self.new ≡ [])) }
    {
        if self.requests.is_empty() {
            return None;
        }
        Some(self.requests.remove(0))
    }
}
