//! A chart in the making: what lasts beside its columns, and where that began and ended.

ghost use Rattle.std.specs.Prelude.{◌≡◌};
ghost use Rattle.nbt_world.specs.Safety.{holding};

use crate::picture::chart::{Chart, ENDS_MOST, Sort, Span, Spot, find};
use nbt_lease::{Config, Lease, Moment};
use nbt_name::{Kind, Name};
use nbt_node::Node;
use nbt_server::Server;
use nbt_world::{SLOTS, World};
use std::alloc::{AllocError, Global};

/// A chart that is kept while a script is played.
#[derive(Drop)]
pub struct Sketch {
    pub chart: Chart,
    /// The places of the spans that last still. A line of a script looks at no others.
    open: Vec<usize>,
    /// For how long a server is silent after its start, in milliseconds.
    silence: u64,
    /// What each endpoint read when it was last looked at.
    seen: [u64; ENDS_MOST],
}

/// The most lanes beside a column; what has none of its own is drawn in the last.
const LANES_MOST: usize = 14;

impl Sketch {
    /// Nothing happened yet.
    pub fn new(alloc: Global) -> Sketch {
        Sketch {
            chart: Chart::new(alloc),
            open: Vec::new(alloc),
            silence: 0,
            seen: [0; ENDS_MOST],
        }
    }

    /// Where what it keeps is allocated.
    pub fn alloc(&self) -> Global {
        *self.open.allocator()
    }

    /// A world begins.
    pub fn begin(&mut self, config: Config, world: &World) -> Result<(), AllocError> {
        self.silence = 1000 * u64::from(config.longest());
        for number in 0..ENDS_MOST {
            if let Some(addr) = world.addr(number) {
                self.chart.addrs.push(addr)?;
            }
        }
        Ok(())
    }

    /// The clocks went on: what is over by now ended when it was over.
    pub fn pass(&mut self, world: &World) {
        let names = self.chart.names.as_slice();
        for place in self.open.iter() {
            if let Some(span) = self.chart.spans.as_mut_slice().get_mut(*place) {
                if let Some(end) = end_of(span, names, &self.seen, world) {
                    span.to = Some(Spot::Reading(end));
                }
            }
        }
        self.seen = readings_of(world);
        self.forget_ended();
    }

    /// An endpoint starts at the last row. It wasn't up, so nothing lasts beside it.
    pub fn start(&mut self, column: usize, world: &World) -> Result<(), AllocError> {
        if column == 0 {
            let over = world.reading(0).get().saturating_add(self.silence);
            self.open_span(nameless(0, Sort::Silence, over))?;
        }
        self.open_span(nameless(column, Sort::Up, 0))
    }

    /// All that lasts beside a column ends at the last row.
    pub fn stop(&mut self, column: usize) {
        let last = self.chart.last_row();
        for place in self.open.iter() {
            if let Some(span) = self.chart.spans.as_mut_slice().get_mut(*place) {
                if span.column == column {
                    span.to = Some(last);
                }
            }
        }
        self.forget_ended();
    }

    /// The server resumes at the last row: it is up, and its silence and its leases go on where they aren't over.
    pub fn resume(&mut self, world: &World) -> Result<(), AllocError> {
        let now = world.reading(0).get();
        let over = self.last_silence();
        if over > now {
            self.open_span(nameless(0, Sort::Silence, over))?;
        }
        self.open_span(nameless(0, Sort::Up, 0))?;
        for place in 0..self.chart.spans.len() {
            if let Some(lease) = self.lease_again(place, world) {
                self.go_on_as(lease)?;
            }
        }
        Ok(())
    }

    /// When the server's last silence is over, by its own clock; 0 where there was none.
    fn last_silence(&self) -> u64 {
        let mut over = 0;
        for span in self.chart.spans.iter() {
            if span.sort == Sort::Silence {
                over = span.over;
            }
        }
        over
    }

    /// The lease of the name and the machine of an earlier span, where the server has it still.
    fn lease_again(&self, place: usize, world: &World) -> Option<Span> {
        let span = self.chart.spans.as_slice().get(place)?;
        if span.sort != Sort::Lease {
            return None;
        }
        let name = self.chart.names.as_slice().get(span.name)?;
        let lease = claim_of(world, 0, name, span.addr)?;
        Some(Span {
            name: span.name,
            ..lease
        })
    }

    /// Looks at a name beside a column, as it is after the last row: what is held or leased of it no more ends there, and
    /// what was not yet begins there. Of leases that begin, it looks for that of this 32-bit address.
    pub fn look(
        &mut self,
        world: &World,
        column: usize,
        name: &Name,
        addr: u32,
    ) -> Result<(), AllocError> {
        self.end_lapsed(world, column, name);
        match claim_of(world, column, name, addr) {
            Some(claim) => self.go_on(name, claim),
            None => Ok(()),
        }
    }

    /// What is held or leased of a name beside a column no more ends at the last row.
    fn end_lapsed(&mut self, world: &World, column: usize, name: &Name) {
        let Some(number) = find(self.chart.names.as_slice(), name) else {
            return;
        };
        let last = self.chart.last_row();
        for place in self.open.iter() {
            if let Some(span) = self.chart.spans.as_mut_slice().get_mut(*place) {
                if span.is_beside(column) && span.name == number && !goes_on(span, name, world) {
                    span.to = Some(last);
                }
            }
        }
        self.forget_ended();
    }

    /// A name is held or leased: this begins at the last row, or goes on.
    fn go_on(&mut self, name: &Name, claim: Span) -> Result<(), AllocError> {
        let Some(number) = self.chart.place_of(name)? else {
            return Ok(());
        };
        self.go_on_as(Span {
            name: number,
            ..claim
        })
    }

    /// A hold or a lease begins at the last row, or goes on.
    fn go_on_as(&mut self, claim: Span) -> Result<(), AllocError> {
        for place in self.open.iter() {
            if let Some(span) = self.chart.spans.as_mut_slice().get_mut(*place) {
                if is_same(span, &claim) {
                    span.over = claim.over;
                    return Ok(());
                }
            }
        }
        let lane = self.free_lane(claim.column);
        self.open_span(Span { lane, ..claim })
    }

    /// The first lane beside a column in which nothing lasts now; `LANES_MOST` where there is none.
    fn free_lane(&self, column: usize) -> usize {
        let mut taken = [false; LANES_MOST];
        for place in self.open.iter() {
            if let Some(span) = self.chart.spans.as_slice().get(*place) {
                if span.is_beside(column) {
                    if let Some(lane) = taken.as_mut_slice().get_mut(span.lane) {
                        *lane = true;
                    }
                }
            }
        }
        taken
            .iter()
            .position(|is_taken| !*is_taken)
            .unwrap_or(LANES_MOST)
    }

    /// Something lasts from the last row on.
    fn open_span(&mut self, span: Span) -> Result<(), AllocError> {
        self.open.push(self.chart.spans.len())?;
        self.chart.begin(span)
    }

    /// What ended is open no more.
    fn forget_ended(&mut self) {
        let spans = self.chart.spans.as_slice();
        self.open.retain(|place| lasts(spans, *place));
    }
}

/// Something without a name that lasts from the first row on.
fn nameless(column: usize, sort: Sort, over: u64) -> Span {
    Span {
        column,
        sort,
        lane: 0,
        name: 0,
        kind: Kind::Unique,
        addr: 0,
        over,
        from: Spot::Row(0),
        to: None,
    }
}

fn lasts(spans: &[Span], place: usize) -> bool {
    match spans.get(place) {
        Some(span) => span.to.is_none(),
        None => false,
    }
}

/// Whether two spans are of the same claim on a name.
fn is_same(span: &Span, claim: &Span) -> bool {
    span.column == claim.column
        && span.sort == claim.sort
        && span.name == claim.name
        && span.addr == claim.addr
}

/// Whether a hold or a lease of a name goes on, as the same kind.
fn goes_on(span: &Span, name: &Name, world: &World) -> bool {
    match claim_of(world, span.column, name, span.addr) {
        Some(claim) => claim.kind == span.kind,
        None => false,
    }
}

/// What is held or leased of a name at an endpoint, as a span without the name; of leases the one of this 32-bit address.
fn claim_of(world: &World, column: usize, name: &Name, addr: u32) -> Option<Span> {
    if column == 0 {
        let lease = lease_of(world.server()?, world.reading(0), name, addr)?;
        return Some(Span {
            kind: lease.kind,
            addr,
            ..nameless(0, Sort::Lease, lease.end)
        });
    }
    Some(Span {
        kind: kind_held(world, column, name)?,
        ..nameless(column, Sort::Hold, 0)
    })
}

/// As which kind a node holds a name, by its own reading.
fn kind_held(world: &World, number: usize, name: &Name) -> Option<Kind>
    ensures { result ≡ holding world.now number name.now }
{
    world
        .node(number)?
        .holds(world.reading(number), &name.lend())
}

/// The live lease of a name that a machine has.
fn lease_of(server: &Server, now: Moment, name: &Name, addr: u32) -> Option<Lease> {
    let moment = now.max(server.last());
    server
        .table()
        .members(moment, name)
        .find(|lease| lease.addr == addr)
}

/// What all endpoints read.
pub fn readings_of(world: &World) -> [u64; ENDS_MOST] {
    let mut readings = [0; ENDS_MOST];
    for number in 0..ENDS_MOST {
        readings[number] = world.reading(number).get();
    }
    readings
}

/// When something ended that lasted when its endpoint was last looked at, by the endpoint's own clock; `None` where it lasts
/// still.
fn end_of(span: &Span, names: &[Name], seen: &[u64; ENDS_MOST], world: &World) -> Option<u64> {
    let now = world.reading(span.column).get();
    match span.sort {
        Sort::Up => None,
        Sort::Silence | Sort::Lease => (span.over <= now).then_some(span.over),
        Sort::Hold => {
            let node = world.node(span.column)?;
            let name = names.get(span.name)?;
            let held = seen.get(span.column)?;
            end_of_hold(node, name, *held, now)
        }
    }
}

/// The halvings that find a time among 2^60.
const HALVINGS: u32 = 61;

/// The first time, by its own clock, at which a node no longer holds a name that it held at `held`; `None` where it holds
/// the name at `now`.
fn end_of_hold(node: &Node<SLOTS>, name: &Name, held: u64, now: u64) -> Option<u64> {
    if holds_at(node, name, now) {
        return None;
    }
    let mut early = held;
    let mut late = now;
    for _ in 0..HALVINGS {
        let middle = early / 2 + late / 2 + (early % 2 + late % 2) / 2;
        if holds_at(node, name, middle) {
            early = middle;
        } else if early < middle {
            late = middle;
        }
    }
    Some(late)
}

fn holds_at(node: &Node<SLOTS>, name: &Name, ms: u64) -> bool {
    match Moment::new(ms) {
        Some(moment) => node.holds(moment, &name.lend()).is_some(),
        None => false,
    }
}
