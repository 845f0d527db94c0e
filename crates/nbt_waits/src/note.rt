//! What came of a request, and what leaves.

ghost use Rattle.std.specs.Prelude.{◌≡◌, Some, None};
ghost use Rattle.nbt_waits.specs.Doing.{note_of};

use nbt_confirm::{Request, Way};
use nbt_name::{Addr, Kind, Name};

/// What came of a request that waited, or that was looked at. Addresses are of 32 bits.
#[derive(Clone, Copy, Debug, PartialEq, Eq)]
pub enum Asked {
    /// It waits for what the machine at this address says.
    Waits(u32),
    /// Its address is a further one of the holder's machine, for so many seconds.
    Confirmed(u32),
    /// Its address, which is a further one, has answered, and is listed.
    Reached,
    /// Another machine has the name, at this address.
    Refused(u32),
    /// It was told to wait for the end of the lease, so many seconds.
    Told(u32),
    /// The server may grant it.
    Granted,
    /// The address isn't the sender's.
    NotOwn,
    /// There is no room for a further address.
    Full,
    /// Nobody answered, and there is no reply.
    Unanswered,
    /// It was lost, since too many wait.
    Lost,
}

/// What came of a request, for the log and the statistics.
#[derive(Debug, Drop)]
pub struct Note {
    /// What came of it.
    pub asked: Asked,
    /// The endpoint that sent it.
    pub from: Addr,
    /// The name.
    pub name: Name,
    /// Unique, or a group's.
    pub kind: Kind,
    /// NB_ADDRESS, the 32-bit address that it is for.
    pub addr: u32,
}

impl Note {
    /// That this came of a request.
    pub(crate) fn of(asked: Asked, request: &Request) -> Note
        ensures { result ≡ note_of asked request.now }
    {
        Note {
            asked,
            from: request.from,
            name: request.name.copy(),
            kind: request.kind,
            addr: request.addr,
        }
    }
}

/// Where a reply goes that was left.
#[derive(Clone, Copy, Debug, PartialEq, Eq)]
pub struct Leaving {
    /// The endpoint that sent the request.
    pub to: Addr,
    /// The server's own end at which it came; `None` for its first.
    pub local: Option<Addr>,
    /// Also to this address of the same machine, since the request's own has never answered, and may get nothing.
    pub also: Option<Way>,
}

impl Leaving {
    /// To the endpoint that sent a request, and to nobody else.
    pub(crate) fn back(request: &Request) -> Leaving
        ensures { result ≡ record { to = request.now.from; local = request.now.local; also = None } }
    {
        Leaving {
            to: request.from,
            local: request.local,
            also: None,
        }
    }
}

/// What was done.
#[derive(Debug, Drop)]
pub struct Settled {
    /// What came of a request; `None` where there is nothing to say.
    pub note: Option<Note>,
    /// Where the reply goes; `None` where there is none.
    pub leaving: Option<Leaving>,
}

impl Settled {
    /// Nothing leaves.
    pub(crate) fn silent(note: Option<Note>) -> Settled
        ensures { result ≡ record { note = note; leaving = None } }
    {
        Settled {
            note,
            leaving: None,
        }
    }

    /// The reply goes back.
    pub(crate) fn answered(asked: Asked, request: &Request) -> Settled
        ensures note { result.note ≡ Some (note_of asked request.now) }
        ensures leaving { result.leaving ≡ Some (record { to = request.now.from; local = request.now.local; also = None }) }
    {
        Settled {
            note: Some(Note::of(asked, request)),
            leaving: Some(Leaving::back(request)),
        }
    }
}
