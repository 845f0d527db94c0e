//! A scan as far as it has come.

ghost use Rattle.std.specs.Prelude.{◌≡◌, IfOk};
ghost use Rattle.nbt_scan.specs.Plans.{IsPlan};
ghost use Rattle.nbt_scan.specs.Progressing.{is_end, is_over};
ghost use Rattle.nbt_scan.specs.Running.{first_scan};

use crate::plan::Plan;
use crate::progress::{Progress, Step};
use crate::replied::Replied;
use nbt_lease::Moment;
use std::alloc::{AllocError, Global};

/// A scan as far as it has come: its pass, and which addresses have replied.
#[derive(Drop)]
pub struct Scan {
    /// Its pass.
    pub progress: Progress,
    /// Which addresses have replied.
    pub replied: Replied,
}

impl Scan {
    /// A scan that begins at this time.
    pub fn begin(alloc: Global, plan: &Plan, now: Moment) -> Result<Scan, AllocError>
        requires { IsPlan plan.now }
        ensures { IfOk result (λ scan. scan ≡ first_scan plan.now now) }
    {
        let replied = Replied::none(alloc, plan.ips.len())?;
        Ok(Scan {
            progress: Progress::begin(plan, now),
            replied,
        })
    }

    /// Whether it is over: all addresses have replied, or the wait of the last pass is over.
    pub fn is_over(&self, plan: &Plan, now: Moment) -> bool
        requires { IsPlan plan.now }
        ensures { result ≡ is_over plan.now now self.now }
    {
        if self.replied.is_all() {
            return true;
        }
        is_end(self.progress.step_at(plan, now))
    }
}

/// Whether it is the end.
fn is_end(step: Step) -> bool
    ensures { result ≡ is_end step }
{
    match step {
        Step::Over => true,
        Step::Wait | Step::Ask | Step::Again => false,
    }
}
