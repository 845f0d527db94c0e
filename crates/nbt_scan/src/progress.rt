//! How far a scan has come, and what it does at a moment.

ghost use Rattle.std.specs.Prelude.{◌≡◌, ◌≢◌, ◌↔◌, ◌<◌, ◌^◌, IsTrue, length};
ghost use Rattle.nbt_scan.specs.Plans.{IsPlan};
ghost use Rattle.nbt_scan.specs.Progressing.{WasPassed, begun, due_at, step_at, past, again};

use crate::plan::Plan;
use nbt_lease::Moment;

/// What a scan does at a moment.
#[derive(Clone, Copy)]
pub enum Step {
    /// Nothing yet.
    Wait,
    /// The next address is due.
    Ask,
    /// The next pass begins.
    Again,
    /// It is over.
    Over,
}

/// How far a scan has come: in passes, each of which goes over all addresses.
#[derive(Clone, Copy)]
pub struct Progress {
    /// How many passes are left after this one.
    pub left: u32,
    /// When this one began.
    pub began: Moment,
    /// The place of its next address.
    pub place: usize,
    /// When it passed an address last; at first when it began.
    pub last: Moment,
}

/// The milliseconds of a second.
const SECOND: u64 = 1_000;

impl Progress {
    /// The first pass, begun at this time.
    pub fn begin(plan: &Plan, now: Moment) -> Progress
        requires { IsPlan plan.now }
        ensures { result ≡ begun plan.now now }
    {
        Progress {
            left: plan.tries - 1,
            began: now,
            place: 0,
            last: now,
        }
    }

    /// When the address at its place is due, in milliseconds.
    fn due_at(&self, plan: &Plan) -> u64
        requires plan { IsPlan plan.now }
        requires place { self.now.place < length plan.now.ips.items }
        ensures { result ≡ due_at plan.now self.now }
    {
        self.began.get() + self.place as u64 * SECOND / u64::from(plan.rate)
    }

    /// What it does at a moment: the next address, if it is due; behind the last address the next pass, `wait` milliseconds after the
    /// last one was passed, if a pass is left.
    pub fn step_at(&self, plan: &Plan, now: Moment) -> Step
        requires { IsPlan plan.now }
        ensures step { result ≡ step_at plan.now now self.now }
        ensures place { result ≡ Step.Ask → self.now.place < length plan.now.ips.items }
        ensures left { result ≡ Step.Again → 0 < self.now.left }
    {
        if self.place < plan.ips.len() {
            return self.step_within(plan, now);
        }
        if now.get() < self.last.get() + u64::from(plan.wait) {
            return Step::Wait;
        }
        if self.left == 0 {
            return Step::Over;
        }
        Step::Again
    }

    /// The same before the last address.
    fn step_within(&self, plan: &Plan, now: Moment) -> Step
        requires plan { IsPlan plan.now }
        requires place { self.now.place < length plan.now.ips.items }
        ensures step { result ≡ step_at plan.now now self.now }
        ensures other { result ≢ Step.Again }
    {
        if now.get() < self.due_at(plan) {
            return Step::Wait;
        }
        Step::Ask
    }

    /// Whether it passed the address at this place, in this pass or in one before it.
    pub fn has_passed(&self, plan: &Plan, place: usize) -> bool
        ensures { IsTrue result ↔ WasPassed plan.now self.now place }
    {
        place < self.place || u64::from(self.left) + 1 < u64::from(plan.tries)
    }

    /// It passed an address.
    pub fn go_past(&mut self, now: Moment)
        requires { self.old.place < 2 ^ 32 }
        ensures { self.new ≡ past now self.old }
    {
        self.place += 1;
        self.last = now;
    }

    /// The next pass begins.
    pub fn go_again(&mut self, now: Moment)
        requires { 0 < self.old.left }
        ensures { self.new ≡ again now self.old }
    {
        self.left -= 1;
        self.began = now;
        self.place = 0;
        self.last = now;
    }
}
