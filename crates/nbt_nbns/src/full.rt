//! What a server says of a disk that is full.

use crate::state::State;
use nbt_lease::Moment;
use nbt_store::{Room, Store};
use std::io;
use std::io::Write;

/// How long it says nothing more of a disk that is still full, in milliseconds (our profile).
const PAUSE: u64 = 60_000;

/// Whether the disk of a state was full, and when a line said so last.
#[derive(Debug, Drop)]
pub(crate) struct FullNotes {
    told: Option<(Room, Moment)>,
}

impl FullNotes {
    /// The disk had room so far.
    pub fn new() -> FullNotes {
        FullNotes { told: None }
    }

    /// Says in `errors` that the disk of a state is full, as `nbt: FOLDER: the disk is full: changes are lost until there is room`, at first, once
    /// it has room for no line any more, and once a minute; and that it has room again. Returns whether it is full. What can't be written is
    /// passed over.
    pub fn tell<S: Store, E: Write>(
        &mut self,
        state: &Option<State<S>>,
        now: Moment,
        errors: &mut E,
    ) -> bool {
        match state {
            Some(state) => self.tell_of(&state.store, now, errors),
            None => false,
        }
    }

    fn tell_of<S: Store, E: Write>(&mut self, store: &S, now: Moment, errors: &mut E) -> bool {
        let room = store.room();
        if room.is_ample() {
            if self.told.is_some() {
                let _ = write_note(store.folder(), "there is room again", errors);
            }
            self.told = None;
            return false;
        }
        if !self.is_told(room, now) {
            let _ = write_note(store.folder(), note_of(room), errors);
            self.told = Some((room, now));
        }
        true
    }

    /// Whether that was said less than a minute before.
    fn is_told(&self, room: Room, now: Moment) -> bool {
        match self.told {
            Some((told, at)) => told == room && now.get().saturating_sub(at.get()) < PAUSE,
            None => false,
        }
    }
}

/// What is said of a disk that is full, or of a file that is as long as it may be, where there is so much room still.
fn note_of(room: Room) -> &'static str {
    match room {
        Room::Spent => "the disk is full: all requests are lost until there is room",
        Room::TooLong =>
            "the file has as many lines as it may: changes are lost until it is written anew",
        Room::Ample | Room::Scarce => "the disk is full: changes are lost until there is room",
    }
}

fn write_note<E: Write>(folder: Option<&str>, note: &str, errors: &mut E) -> io::Result<()> {
    write!(errors, "nbt: ")?;
    if let Some(folder) = folder {
        write!(errors, "{folder}: ")?;
    }
    writeln!(errors, "{note}")?;
    errors.flush()
}
