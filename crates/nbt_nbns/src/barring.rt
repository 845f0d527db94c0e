//! What a server says of the requests that it barred.

use crate::state::State;
use nbt_lease::Moment;
use nbt_serve::Share;
use std::io;
use std::io::Write;
use std::net::Ipv4Addr;

/// How long it says nothing more after a line, in milliseconds (our profile).
const PAUSE: u64 = 1_000;

/// How many requests had been barred when a line was said last, and when that was.
#[derive(Debug, Drop)]
pub(crate) struct BarredNotes {
    told: u64,
    at: Option<Moment>,
}

impl BarredNotes {
    /// No request was barred yet.
    pub fn new() -> BarredNotes {
        BarredNotes { told: 0, at: None }
    }

    /// Says in `errors` how many requests a server with this state barred since the last line, and from whom the last one came, as `nbt: requests
    /// lost: 12, the last from 192.0.2.9; a client may make 20 changes a second`. It says so at a moment of the server's clock where there
    /// is such a request, and a second has passed since the last line; but not of those that it barred since its disk is full. What can't be
    /// written is passed over.
    pub fn tell<S, E: Write>(
        &mut self,
        state: &Option<State<S>>,
        is_full: bool,
        now: Moment,
        errors: &mut E,
    ) {
        match state {
            Some(state) if is_full => self.told = state.share.barred(),
            Some(state) => self.tell_of(&state.share, now, errors),
            None => {}
        }
    }

    fn tell_of<E: Write>(&mut self, share: &Share, now: Moment, errors: &mut E) {
        let barred = share.barred();
        if barred == self.told || self.is_early(now) {
            return;
        }
        if let Some(client) = share.last_barred() {
            let count = barred.saturating_sub(self.told);
            let _ = write_barred(count, client, share.limit(), errors);
            self.told = barred;
            self.at = Some(now);
        }
    }

    /// Whether a line was said less than a second before.
    fn is_early(&self, now: Moment) -> bool {
        match self.at {
            Some(at) => now.get().saturating_sub(at.get()) < PAUSE,
            None => false,
        }
    }
}

fn write_barred<E: Write>(count: u64, client: u32, limit: u32, errors: &mut E) -> io::Result<()> {
    let client = Ipv4Addr::from_bits(client);
    writeln!(
        errors,
        "nbt: requests lost: {count}, the last from {client}; a client may make {limit} changes a second"
    )?;
    errors.flush()
}
