//! A name that is given back, and what is known of it.

ghost use Rattle.std.specs.Prelude.{◌≡◌, ◌≤◌, ◌<◌, ◌^◌, is_none};
ghost use Rattle.nbt_packet.specs.Message.{message_of};
ghost use Rattle.nbt_host.specs.Releases.{fresh, request, is_due, is_open, sent_at};

use nbt_client::{TRIES_MOST, TRY, Want};
use nbt_lease::Moment;
use nbt_name::{Kind, Name};
use nbt_packet::Message;

/// How many ids there are.
const IDS: u64 = 0x1_0000;

/// A name that is given back, and what is known of it.
#[derive(Debug, Drop)]
pub struct Release {
    /// The name.
    pub name: Name,
    /// Who may hold it.
    pub kind: Kind,
    /// The id of its request, which the reply has too.
    pub id: u16,
    /// How often its request was sent.
    pub tries: u32,
    /// When the next sending is due, in milliseconds; after the last one, when its reply is no longer waited for.
    pub due: u64,
    /// The RCODE of the first reply, if one came: 0 confirms the release (RFC 1002 sections 4.2.10 and 4.2.11).
    pub rcode: Option<u8>,
}

impl Release {
    /// A name of which no request was sent, the id of which will be the last 16 bits of `number`.
    pub fn new(want: &Want, number: u64) -> Release
        ensures { result ≡ fresh number want.now }
    {
        Release {
            name: want.name.copy(),
            kind: want.kind,
            id: (number % IDS) as u16,
            tries: 0,
            due: 0,
            rcode: None,
        }
    }

    /// Its request, from a node at this address (RFC 1002 section 4.2.9).
    pub(crate) fn request(&self, own: u32) -> Message<'_>
        ensures { message_of result ≡ request own self.now }
    {
        Message::Release {
            id: self.id,
            name: self.name.lend(),
            kind: self.kind,
            addr: own,
        }
    }

    /// Whether its request is to be sent: no reply came, it wasn't sent three times, and its time has come.
    pub fn is_due(&self, now: Moment) -> bool
        ensures { result ≡ is_due now self.now }
    {
        self.rcode.is_none() && self.tries < TRIES_MOST && self.due <= now.get()
    }

    /// Whether it is open: no reply came, and 5 s haven't passed since its third sending.
    pub fn is_open(&self, now: Moment) -> bool
        ensures { result ≡ is_open now self.now }
    {
        self.rcode.is_none() && (self.tries < TRIES_MOST || now.get() < self.due)
    }

    /// Its request was sent.
    pub(crate) fn sent_at(&mut self, now: Moment)
        requires { self.old.tries < 3 }
        ensures { self.new ≡ sent_at now self.old }
    {
        self.tries += 1;
        self.due = now.get() + u64::from(TRY);
    }
}
