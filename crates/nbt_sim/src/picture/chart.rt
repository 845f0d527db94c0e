//! What a picture shows, as values: rows, datagrams, and what lasts.

ghost use Rattle.std.specs.Prelude.{◌≡◌, ◌-◌, ◌≤◌, ◌⊎◌, ℕ, [], ◌∷◌, ◌++◌, Some, IfOk, OnOk, MatchOption, slice_get, vec_len};
ghost use Rattle.nbt_sim.specs.Inner.Standing.{IsAbsent};

use nbt_name::{Addr, Kind, Name};
use std::alloc::{AllocError, Global};

/// The most endpoints of a world: the server and eight nodes.
pub const ENDS_MOST: usize = 9;

/// The most names that have a colour, and so bars and leases (our profile).
pub const NAMES_MOST: usize = 100;

/// What becomes of a datagram at an endpoint.
#[derive(Clone, Copy)]
pub enum Fate {
    /// The endpoint accepts it.
    Accepted,
    /// It is lost: its life has passed, or the server is out of memory for it.
    Lost,
    /// The endpoint is down.
    Missed,
}

/// What stands in a row.
#[derive(Clone, Copy)]
pub enum Sign {
    /// Words alone.
    Note,
    /// Something happens at the endpoint, or it starts.
    Mark,
    /// The endpoint crashes.
    Crash,
    /// The datagram of this number comes to the endpoint; one of an unknown sender where there is no number.
    Comes(Option<usize>, Fate),
}

/// One thing that happened, or words.
#[derive(Drop)]
pub struct Row {
    /// The true clock, in milliseconds.
    pub clock: u64,
    /// What each endpoint reads, in milliseconds: the server, and then the nodes.
    pub readings: [u64; ENDS_MOST],
    /// The endpoint that it is about, 0 for the server and where it is about none.
    pub column: usize,
    /// What it is.
    pub sign: Sign,
    /// What is said beside it.
    pub words: String,
    /// The number of the datagram that was sent then, if one was.
    pub sends: Option<usize>,
}

/// A datagram that an endpoint sent.
#[derive(Drop)]
pub struct Flight {
    /// The row in which it was sent.
    pub row: usize,
    /// The endpoint that sent it.
    pub from: usize,
    /// The endpoint that it is for; `None` where there is none at its address.
    pub to: Option<usize>,
    /// What it says.
    pub words: String,
    /// Whether it came, or was lost on its way.
    pub ended: bool,
}

/// Where something begins or ends beside a column.
#[derive(Clone, Copy)]
pub enum Spot {
    /// At a row.
    Row(usize),
    /// When the endpoint's own clock reads so many milliseconds, between two rows or after the last.
    Reading(u64),
}

/// What lasts beside a column.
#[derive(Clone, Copy, PartialEq, Eq)]
pub enum Sort {
    /// The endpoint is up.
    Up,
    /// The server is silent.
    Silence,
    /// The node holds a name.
    Hold,
    /// The server has a lease of a name.
    Lease,
}

/// Something that lasts beside a column.
#[derive(Clone, Copy)]
pub struct Span {
    /// The endpoint, 0 for the server.
    pub column: usize,
    /// What it is.
    pub sort: Sort,
    /// The lane beside the column in which a hold or a lease is, 0 next to it; 0 of all else.
    pub lane: usize,
    /// The place of its name among those of the chart; 0 where it has none.
    pub name: usize,
    /// As which kind the name is held or leased.
    pub kind: Kind,
    /// The 32-bit address of the machine that has the lease; 0 where it is none.
    pub addr: u32,
    /// When a lease or a silence is over by itself, by the endpoint's own clock in milliseconds; 0 for all else.
    pub over: u64,
    /// Where it begins.
    pub from: Spot,
    /// Where it ends; `None` while it lasts.
    pub to: Option<Spot>,
}

impl Span {
    /// Whether it is a hold or a lease beside this column.
    pub fn is_beside(&self, column: usize) -> bool {
        let has_name = self.sort == Sort::Hold || self.sort == Sort::Lease;
        has_name && self.column == column
    }
}

/// All of it.
#[derive(Drop)]
pub struct Chart {
    /// The addresses of the endpoints, the server's first; none before there is a world.
    pub addrs: Vec<Addr>,
    /// The names, in the order in which they came: the colours are theirs.
    pub names: Vec<Name>,
    pub rows: Vec<Row>,
    /// The datagrams that endpoints sent, in order.
    pub flights: Vec<Flight>,
    pub spans: Vec<Span>,
}

impl Chart {
    /// Nothing happened yet.
    pub fn new(alloc: Global) -> Chart {
        Chart {
            addrs: Vec::new(alloc),
            names: Vec::new(alloc),
            rows: Vec::new(alloc),
            flights: Vec::new(alloc),
            spans: Vec::new(alloc),
        }
    }

    /// The place of a name among the names, which it gets where it has none; `None` where it has none and no more names get
    /// one.
    pub fn place_of(&mut self, name: &Name) -> Result<Option<usize>, AllocError>
        ensures placed { IfOk result (λ found. MatchOption found
            (IsAbsent name.now self.old.names.items × (NAMES_MOST ≤ vec_len self.old.names))
            (λ place. slice_get self.new.names.items place ≡ Some name.now)) }
        ensures kept { (self.new.names.items ≡ self.old.names.items)
            ⊎ (IsAbsent name.now self.old.names.items × (self.new.names.items ≡ self.old.names.items ++ name.now ∷ [])) }
        ensures rest { self.new ≡ record self.old { names = self.new.names } }
    {
        if let Some(place) = find(self.names.as_slice(), name) {
            return Ok(Some(place));
        }
        let place = self.names.len();
        if place >= NAMES_MOST {
            return Ok(None);
        }
        self.names.push(name.copy())?;
        Ok(Some(place))
    }

    /// The endpoint at this address, if there is one: the first such.
    pub fn end_at(&self, addr: Addr) -> Option<usize>
        ensures { MatchOption result (IsAbsent addr self.now.addrs.items)
            (λ number. slice_get self.now.addrs.items number ≡ Some addr) }
    {
        self.addrs.iter().position(|other| *other == addr)
    }

    /// The row that was put last.
    pub fn last_row(&self) -> Spot
        ensures { result ≡ Spot.Row (vec_len self.now.rows - 1) }
    {
        Spot::Row(self.rows.len().saturating_sub(1))
    }

    /// Begins something that lasts, at the last row.
    pub fn begin(&mut self, span: Span) -> Result<(), AllocError>
        ensures begun { OnOk result (self.new.spans.items
            ≡ self.old.spans.items ++ record span { from = Spot.Row (vec_len self.old.rows - 1) } ∷ []) }
        ensures rest { self.new ≡ record self.old { spans = self.new.spans } }
    {
        let from = self.last_row();
        self.spans.push(Span { from, ..span })?;
        Ok(())
    }
}

/// The place of a name among others, if it is there.
pub fn find(names: &[Name], name: &Name) -> Option<usize>
    ensures { MatchOption result (IsAbsent name.now names.now) (λ place. slice_get names.now place ≡ Some name.now) }
{
    'names: for (place, other) in names.iter().enumerate() {
        if *other == *name {
            return Some(place);
        }
    }
    None
}
