//! When what watches a server that keeps its leases is shown what its turns were.

ghost use Rattle.std.specs.Prelude.{◌≡◌, ◌↔◌, ◌≤◌, [], Some, IfOk, IsTrue, map, filter};
ghost use Rattle.std.specs.VecDeque.{deque_capacity};
ghost use Rattle.nbt_port.specs.PortCalls.{Chain};
ghost use Rattle.nbt_serve.specs.Waiting.{batch};
ghost use Rattle.nbt_nbns.specs.Teller.{SeesOne, Tells, has_left, is_shown, queued};

use crate::staying::{Shown, Watcher};
use nbt_lease::{Config, Moment};
use nbt_log::Entry;
use nbt_serve::{BATCH, Sent, Waiting};
use nbt_server::Server;
use std::alloc::{AllocError, Global};
use std::collections::VecDeque;
use std::io::Write;
use std::marker::Model;

/// What a turn was that the watcher isn't shown yet.
#[derive(Debug, Drop)]
pub struct Untold {
    /// When its datagram was read.
    pub read: Moment,
    /// Whether its reply went ahead of those that wait.
    pub ahead: bool,
    /// What the server did with it.
    pub entry: Entry,
}

impl Untold {
    /// Whether it is shown once no reply waits, where what waited left at this moment, if it did.
    fn is_shown(&self, limits: Config, left: Option<Moment>) -> bool
        ensures { result ≡ is_shown limits.life left self.now }
    {
        !self.entry.outcome.has_reply() || self.ahead || self.has_left(limits, left)
    }

    /// Whether its reply has left then.
    fn has_left(&self, limits: Config, left: Option<Moment>) -> bool
        ensures { result ≡ has_left limits.life left self.now.read }
    {
        match left {
            Some(now) => now.get() <= self.read.get() + limits.life(),
            None => true,
        }
    }
}

/// The turns of a server that what watches it isn't shown yet, since a reply waits: a log says what was granted once the reply has left.
/// A contract sees them, in their order.
#[derive(Drop)]
pub struct Teller {
    untold: VecDeque<Untold>,
    ghost room: { batch ≤ deque_capacity untold },
}

impl Model for Teller {
    ghost use Rattle.std.specs.Prelude.{List};
    ghost use Rattle.nbt_nbns.specs.declared.teller.Untold.{Untold};

    ghost Value = { List Untold };

    ghost view = { λ t. t.untold.items };
}

impl Teller {
    /// Nothing is to be shown yet. The memory for 64 turns is taken here.
    pub fn new(alloc: Global) -> Result<Teller, AllocError>
        ensures { IfOk result (λ teller. teller ≡ []) }
    {
        let untold = VecDeque::with_capacity(alloc, BATCH)?;
        Ok(Teller { untold })
    }

    /// A turn was this, in which so much left. The watcher is shown each turn whose reply has left by now, in
    /// their order, this one last: so nothing while a reply waits, and that nothing was where there is none. A turn is left out whose
    /// reply was dropped since it would have left too late.
    pub(crate) fn tell<V: Watcher, W: Write, E: Write>(
        &mut self,
        server: &Server,
        waiting: &Waiting,
        sent: Sent,
        shown: &mut Shown,
        watcher: &mut V,
        writer: &mut W,
        errors: &mut E,
    )
        ensures { Tells V.sees server.now waiting.now sent shown.old self.old (record { watcher = watcher.old; text = W.contents writer.old }) self.new (record { watcher = watcher.new; text = W.contents writer.new }) }
    {
        self.queue(server.last(), sent.ahead, shown.entry.take());
        if !waiting.is_empty() {
            return;
        }
        self.drop_late(server.table().config(), sent.left);
        if self.has_none() {
            watcher.see(server, shown, writer, errors);
            return;
        }
        show_each(watcher, &mut self.untold, server, shown, writer, errors);
    }

    /// Whether no turn is to be shown.
    fn has_none(&self) -> bool
        ensures { IsTrue result ↔ (self.now ≡ []) }
    {
        self.untold.is_empty()
    }

    /// One more turn is to be shown, if the server took a datagram in it.
    fn queue(&mut self, read: Moment, ahead: bool, entry: Option<Entry>)
        ensures { self.new ≡ queued self.old read ahead entry }
    {
        let Some(entry) = entry else {
            return;
        };
        if self.untold.len() >= BATCH {
            self.untold.clear();
        }
        self.untold
            .push_back_reserved(Untold { read, ahead, entry });
    }

    /// The turns are left out whose replies were dropped.
    fn drop_late(&mut self, limits: Config, left: Option<Moment>)
        ensures { self.new ≡ filter (is_shown limits.life left) self.old }
    {
        self.untold.retain(|untold| untold.is_shown(limits, left));
    }
}

/// Shows a watcher each of these turns, with the moment and the health of `shown`.
fn show_each<V: Watcher, W: Write, E: Write>(
    watcher: &mut V,
    untold: &mut VecDeque<Untold>,
    server: &Server,
    shown: &Shown,
    writer: &mut W,
    errors: &mut E,
)
    ensures seen { Chain (SeesOne V.sees server.now) (record { watcher = watcher.old; text = W.contents writer.old }) (map (λ turn. record shown.now { entry = Some turn.entry }) untold.old.items) (record { watcher = watcher.new; text = W.contents writer.new }) }
    ensures none { untold.new.items ≡ [] }
    ensures capacity { deque_capacity untold.new ≡ deque_capacity untold.old }
{
    'turns: while let Some(turn) = untold.pop_front() {
        let seen = Shown {
            entry: Some(turn.entry),
            at: shown.at,
            health: shown.health,
        };
        watcher.see(server, &seen, writer, errors);
    }
}
