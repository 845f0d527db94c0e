//! How far a scan is, as standard error says it.

use crate::plan::Plan;
use crate::scan::Scan;
use nbt_lease::Moment;
use std::io;
use std::io::Write;

/// The least milliseconds from one time that it is said to the next (our profile).
const PAUSE: u64 = 1_000;

/// What hides a line: the longest has so many characters, `nbt: asked 65536 of 65536 addresses, pass 3 of 3, 65536 replied`.
const BLANK: &str = "                                                               ";

/// Says how far a scan is, in a line that is written anew in its place once a second.
#[derive(Drop)]
pub struct Meter {
    /// Whether it says anything.
    shows: bool,
    /// When it says it next, in milliseconds; `None` before its first look.
    next: Option<u64>,
    /// Whether a line stands there.
    stands: bool,
}

impl Meter {
    /// One that says how far a scan is, or nothing.
    pub fn new(shows: bool) -> Meter {
        Meter {
            shows,
            next: None,
            stands: false,
        }
    }

    /// Says how far the scan is, a second after its first look or later, and a second after the last time or later. What can't be written
    /// is passed over.
    pub fn say<E: Write>(&mut self, plan: &Plan, scan: &Scan, now: Moment, errors: &mut E) {
        if self.shows && self.is_due(now.get()) {
            self.stands = true;
            let _ = write_line(plan, scan, errors);
        }
    }

    /// Hides the line, if one stands there, so that another can be written in its place. What can't be written is passed over.
    pub fn hide<E: Write>(&mut self, errors: &mut E) {
        if self.stands {
            self.stands = false;
            let _ = write_blank(errors);
        }
    }

    /// Whether it is time to say it; if so, or at the first look, it is next in a second.
    fn is_due(&mut self, now: u64) -> bool {
        let is_first = self.next.is_none();
        if let Some(next) = self.next
            && now < next
        {
            return false;
        }
        self.next = Some(now.saturating_add(PAUSE));
        !is_first
    }
}

/// Writes the line over the one that stands there.
fn write_line<E: Write>(plan: &Plan, scan: &Scan, errors: &mut E) -> io::Result<()> {
    let asked = scan.progress.place;
    let all = plan.ips.len();
    let pass = plan.tries.saturating_sub(scan.progress.left);
    let tries = plan.tries;
    let replied = scan.replied.count();
    write!(
        errors,
        "\r{BLANK}\rnbt: asked {asked} of {all} addresses, pass {pass} of {tries}, {replied} replied"
    )?;
    errors.flush()
}

/// Writes blanks over the line that stands there.
fn write_blank<E: Write>(errors: &mut E) -> io::Result<()> {
    write!(errors, "\r{BLANK}\r")?;
    errors.flush()
}
