//! What a server that asks has beside its port.

ghost use Rattle.std.specs.Prelude.{◌≡◌, ◌↔◌, ◌≤◌, [], Some, IfNone, IfSome, IsTrue, length};
ghost use Rattle.nbt_name.specs.Words.{word_at};
ghost use Rattle.nbt_packet.specs.Message.{registration};
ghost use Rattle.nbt_packet.specs.Text.{text};
ghost use Rattle.nbt_waits.specs.Asking.{came_of, claim_of};
ghost use Rattle.nbt_asking.specs.Desk.{ComesBack, HasNothing, IsQuiet, Passes, Replies, any_under_way, handed, new_desk, octets_by, route_of};
ghost use Rattle.nbt_asking.specs.Inner.Doing.{TakesGranted};

use arrayvec::ArrayVec;
use nbt_confirm::{Came, Pending};
use nbt_lease::Moment;
use nbt_name::{Addr, read_word};
use nbt_port::Route;
use nbt_waits::{Aside, Asking, Reply, UNASKED, is_aside, write_claim};

/// What a server that asks has beside its port.
#[derive(Drop)]
pub struct Desk {
    /// What waits, the further addresses, and the requests that it may grant.
    pub asking: Asking,
    /// When that was looked at last.
    pub at: Moment,
    /// What is kept from the server.
    pub aside: Aside,
    /// How the datagram came that the server was handed last.
    pub last: Came,
    /// To whom the next reply with the id 0 doesn't leave, since nobody sent the request.
    pub quiet: Option<Addr>,
}

impl Desk {
    /// Nothing has come yet.
    pub fn new(asking: Asking) -> Desk
        ensures { result ≡ new_desk asking }
    {
        Desk {
            asking,
            at: Moment::zero(),
            aside: Aside::new(),
            last: Came {
                from: Addr { ip: 0, port: 0 },
                local: None,
                flags: 0,
            },
            quiet: None,
        }
    }

    /// What comes to the server without being received: what was looked at, or a request that it may grant. It is in `octets`. `None`, with
    /// `octets` as they were, if there is none.
    pub fn take_back(&mut self, octets: &mut ArrayVec<u8, 2048>) -> Option<Route>
        ensures back { IfSome result (λ from. ComesBack self.old from octets.new.items self.new) }
        ensures none { IfNone result (HasNothing self.old × (self.new ≡ self.old) × (octets.new.items ≡ octets.old.items)) }
    {
        if let Some(came) = self.aside.take_back(octets) {
            self.hand(came);
            return Some(by_route(came));
        }
        let came = take_granted(&mut self.asking, octets)?;
        self.hand(came);
        Some(by_route(came))
    }

    /// The server is handed what came so.
    fn hand(&mut self, came: Came)
        ensures { self.new ≡ handed came self.old }
    {
        if came.flags == UNASKED {
            self.quiet = Some(came.from);
        }
        self.last = came;
    }

    /// Sets aside what was received with these flags, where that is to be looked at first: then nothing came. Else the server is handed it.
    pub fn pass(
        &mut self,
        flags: u16,
        from: Option<Route>,
        octets: &mut ArrayVec<u8, 2048>,
    ) -> Option<Route>
        ensures { Passes self.old flags from octets.old.items result octets.new.items self.new }
    {
        let route = from?;
        let came = Came {
            from: route.peer,
            local: route.local,
            flags,
        };
        let is_asking = is_under_way(self.asking.waits.pending());
        if is_aside(came, octets.as_slice(), is_asking) {
            self.aside.put(came, octets.as_slice());
            octets.clear();
            return None;
        }
        self.last = came;
        Some(route)
    }

    /// What leaves of a reply of the server's: what is left in `out` in place of it, the reply as it is, or nothing.
    pub fn reply(&mut self, to: Route, octets: &[u8], out: &mut ArrayVec<u8, 576>) -> Reply
        ensures { Replies self.old to octets.now (octets_by result octets.now out.new.items) self.new }
    {
        if self.is_quiet(to, octets) {
            self.quiet = None;
            return Reply::HeldBack;
        }
        self.asking.reply(self.at, to.peer.ip, octets, out)
    }

    /// Whether it is the reply to a request that nobody sent.
    fn is_quiet(&self, to: Route, octets: &[u8]) -> bool
        ensures { IsTrue result ↔ IsQuiet self.now to octets.now }
    {
        self.quiet == Some(to.peer) && octets.len() >= 2 && read_word(octets, 0) == 0
    }
}

/// The first request that the server may grant, as it comes to it: leaves its registration in `octets`, and returns how it came; `None` if
/// there is none.
fn take_granted(asking: &mut Asking, octets: &mut ArrayVec<u8, 2048>) -> Option<Came>
    ensures taken { IfSome result (TakesGranted asking.old octets.new.items asking.new) }
    ensures none { IfNone result ((asking.old.granted ≡ []) × (asking.new ≡ asking.old) × (octets.new.items ≡ octets.old.items)) }
{
    let request = asking.granted.take()?;
    let mut claim = ArrayVec::new();
    write_claim(&request, &mut claim);
    octets.clear();
    octets.try_extend_from_slice(claim.as_slice()).unwrap();
    Some(Came {
        from: request.from,
        local: request.local,
        flags: request.flags,
    })
}

/// Whether an inquiry is under way.
fn is_under_way(pending: &[Pending]) -> bool
    ensures { result ≡ any_under_way pending.now }
{
    !pending.is_empty()
}

/// By which route a reply goes: that by which its request came.
pub(crate) fn by_route(came: Came) -> Route
    ensures { result ≡ route_of came }
{
    Route {
        peer: came.from,
        local: came.local,
    }
}
