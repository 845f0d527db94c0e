//! A front at work: with a clock, what it is to say of the datagram that came last, and how much it replied. Another front may take its place.

ghost use Rattle.std.specs.Prelude.{◌≡◌, ℕ, [], Some, IfSome, IfNone, OnOk, OnErr};
ghost use Rattle.nbt_packet.specs.Message.{MessageValue};
ghost use Rattle.nbt_packet.specs.Spelling.{AreWritten, Spells};
ghost use Rattle.nbt_port.specs.PortCalls.{came};
ghost use Rattle.nbt_front.specs.Deciding.{Decides, desk_of, Passes, renewed};
ghost use Rattle.nbt_front.specs.Standing.{Leaves};

use crate::deciding::{Decision, Front};
use crate::standing::{Standing, copy_rows, name_released, take_out};
use crate::telling::Notes;
use arrayvec::ArrayVec;
use nbt_lease::{Lease, Moment};
use nbt_name::{Addr, Name};
use nbt_port::{Clock, OwnReplies, Route};
use std::alloc::{AllocError, Global};
use std::io::Write;
use std::marker::Model;

/// A front at work. A contract sees of it the front, the leases that stand in the way of its names, and those that machines may have by what was
/// fixed before.
#[derive(Drop)]
pub struct Desk<'a, C> {
    alloc: Global,
    first: &'a Front,
    later: Option<Front>,
    clock: C,
    kept: Vec<(Name, Lease)>,
    past: Vec<(Name, Lease)>,
    notes: Notes,
    replied: OwnReplies,
}

impl<'a, C> Model for Desk<'a, C> {
    ghost use Rattle.nbt_front.specs.Deciding.{DeskValue};
    ghost use Rattle.nbt_front.specs.Inner.Fronts.{latest};

    ghost Value = { DeskValue };

    ghost view = { λ d. record { front = latest d.first.now d.later; kept = d.kept.items; past = d.past.items } };
}

impl<'a, C> Desk<'a, C> {
    /// A front that replied nothing yet, and in whose way no lease stands. What it says is limited by this clock.
    pub fn new(alloc: Global, front: &'a Front, clock: C) -> Desk<'a, C>
        ensures { result ≡ desk_of front.now [] [] }
    {
        Desk {
            alloc,
            first: front,
            later: None,
            clock,
            kept: Vec::new(alloc),
            past: Vec::new(alloc),
            notes: Notes::new(),
            replied: OwnReplies::NONE,
        }
    }

    /// The same in whose way these leases stand, whose ends are times of its clock.
    pub fn keep(&mut self, rows: Vec<(Name, Lease)>)
        ensures { self.new ≡ record self.old { kept = rows.items } }
    {
        self.kept = rows;
    }

    /// Its front.
    pub fn front(&self) -> &Front
        ensures { result.now ≡ self.now.front }
    {
        match &self.later {
            Some(front) => front,
            None => self.first,
        }
    }

    /// The leases that stand in the way of its names.
    pub fn standing(&self) -> &[(Name, Lease)]
        ensures { result.now ≡ self.now.kept }
    {
        self.kept.as_slice()
    }

    /// Puts this front in the place of its own, at a moment of its clock at which the server has these live leases. Refused if out of memory; then
    /// it is as it was.
    pub fn renew(
        &mut self,
        front: Front,
        live: Vec<(Name, Lease)>,
        at: Moment,
    ) -> Result<(), AllocError>
        ensures ok { OnOk result (self.new ≡ renewed front live.items at self.old) }
        ensures err { OnErr result (self.new ≡ self.old) }
    {
        let mut past = Vec::new(self.alloc);
        self.front().list_leases(at, &mut past)?;
        copy_rows(self.past.as_slice(), &mut past)?;
        front.fixed().retain_left(at, &mut past);
        let mut live = live;
        front.fixed().retain_in_the_way(&mut live);
        self.later = Some(front);
        self.kept = live;
        self.past = past;
        Ok(())
    }

    /// What it replied.
    pub fn replied(&self) -> OwnReplies {
        self.replied
    }

    /// A datagram that came by this route is handed on: a lease that it releases stands in the way no longer.
    pub(crate) fn hand_on(&mut self, from: Route, octets: &[u8])
        ensures front { self.new.front ≡ self.old.front }
        ensures past { self.new.past ≡ self.old.past }
        ensures left { Leaves self.old.kept (came from octets.now) self.new.kept }
    {
        if self.kept.is_empty() {
            return;
        }
        if let Some(name) = name_released(from.peer.ip, octets) {
            take_out(&mut self.kept, &name, from.peer.ip);
        }
    }

    /// Nothing is to be said of the datagram that comes next.
    pub(crate) fn clear(&mut self)
        ensures { self.new ≡ self.old }
    {
        self.notes.clear();
    }

    /// Says in `errors` what was refused last, if something was. What can't be written is passed over.
    pub(crate) fn tell<E: Write>(&self, errors: &mut E) {
        self.notes.tell(self.alloc, errors);
    }
}

impl<'a, C: Clock> Desk<'a, C> {
    /// What the front decides of a datagram, as [`Front::decide`]. The clock is read where a lease stands in the way, or a machine may have one by what
    /// was fixed before.
    pub(crate) fn decide(
        &mut self,
        from: Addr,
        octets: &[u8],
        reply: &mut ArrayVec<u8, 576>,
    ) -> Option<Decision>
        ensures stays { self.new ≡ self.old }
        ensures decided { IfSome result (λ decision. (now : ℕ) × (m : MessageValue) × (r : MessageValue) × Spells octets.now m
            × Decides self.old now from.ip m decision r × AreWritten (Some r) reply.new.items) }
        ensures passed { IfNone result ((now : ℕ) × ((m : MessageValue) → Spells octets.now m → Passes self.old now from.ip m)) }
    {
        let at = self.moment();
        let standing = Standing {
            rows: self.kept.as_slice(),
            past: self.past.as_slice(),
            at,
        };
        self.front().decide(from, octets, &standing, reply)
    }

    /// The moment by which such leases are over or not, where there are any.
    fn moment(&mut self) -> Moment
        ensures { self.new ≡ self.old }
    {
        if self.kept.is_empty() && self.past.is_empty() {
            return Moment::zero();
        }
        self.clock.now()
    }

    /// Counts what was decided of a datagram from this address, and notes it where it is to be said.
    pub(crate) fn note(&mut self, ip: u32, decision: Decision)
        ensures { self.new ≡ self.old }
    {
        count(&mut self.replied, &decision);
        if is_refusal(&decision) {
            let now = self.clock.now();
            self.notes.note(now, ip, decision);
        }
    }
}

/// Whether a request was refused.
fn is_refusal(decision: &Decision) -> bool {
    match decision {
        Decision::NotAllowed(_) | Decision::FixedRefused(_) => true,
        Decision::FixedConfirmed | Decision::FixedFound => false,
    }
}

/// Counts a reply by what was decided.
fn count(replied: &mut OwnReplies, decision: &Decision) {
    match decision {
        Decision::NotAllowed(_) => replied.not_allowed = replied.not_allowed.saturating_add(1),
        Decision::FixedRefused(_) => replied.fixed_refused = replied
            .fixed_refused
            .saturating_add(1),
        Decision::FixedConfirmed => replied.fixed_confirmed = replied
            .fixed_confirmed
            .saturating_add(1),
        Decision::FixedFound => replied.fixed_found = replied.fixed_found.saturating_add(1),
    }
}
