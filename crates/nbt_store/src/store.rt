//! What keeps changes over a crash.

ghost use Rattle.nbt_store.specs.Calls.{StoreCall, appending, beginning, going_on, syncing};

use crate::change::Change;
use crate::header::Header;
use crate::room::Room;
use crate::syncs::Syncs;
use std::collections::VecDeque;
use std::io;
use thiserror::Error;

/// A call of a store failed. What it keeps of the last change isn't known, so the server ends.
#[derive(Clone, Copy, Debug, PartialEq, Eq, Error)]
#[error("store")]
pub struct Broken;

/// A store of changes. A crash at any time leaves the first of them, in order, and as many as are durable at least. From a call
/// that failed on what it keeps isn't known, and the caller gives it up.
pub trait Store {
    /// What a call of it is: the store before, what the call did, and the store afterwards.
    ghost does: { Self → StoreCall → Self → Type 0 };

    /// Appends a change; a crash may keep it or not. Refused with `Broken` if the store fails: it may be appended or not.
    fn append(&mut self, change: &Change) -> Result<(), Broken>
        ensures { does self.old (appending change.now result) self.new };

    /// Makes all changes durable: every crash from then on keeps them. Refused with `Broken` if the store fails.
    fn sync(&mut self) -> Result<(), Broken>
        ensures { does self.old (syncing result) self.new };

    /// Begins to write a new file beside the file, of these changes, and of those that are appended from then on: the caller must ensure that
    /// they make the live leases that all changes make. Once it is whole it takes the place of all that is kept: until then a crash leaves
    /// what was kept before. One that was begun before is given up. Refused with `Broken` if the store fails.
    fn begin_renewal(&mut self, header: &Header, changes: VecDeque<Change>) -> Result<(), Broken>
        ensures { does self.old (beginning header.now changes.items result) self.new };

    /// Goes on with the new file, if there is one: writes the next part of it, and if it is whole then, puts it in place of all that is kept, so
    /// that all is durable. Returns whether it did. A crash within the call leaves what was kept before, or, if the file is whole, what that
    /// has. Refused with `Broken` if the store fails: what is kept is then the one or the other.
    fn go_on(&mut self) -> Result<bool, Broken>
        ensures { does self.old (going_on result) self.new };

    /// Whether a new file was begun, and isn't whole yet.
    fn is_renewing(&self) -> bool;

    /// Whether what is kept has several times as many lines as leases with which it was written last, so that it is to be renewed.
    fn is_long(&self) -> bool;

    /// How much room it has for changes that are still to be appended: where there is none, an append or a sync fails.
    fn room(&self) -> Room {
        Room::Ample
    }

    /// Whether there is room for a new file: where there is none, or not yet, it is not to be begun.
    fn can_renew(&self) -> bool {
        true
    }

    /// Why the first call that failed did, for people; `None` where none did.
    fn error(&self) -> Option<&io::Error>;

    /// The folder in which it keeps them, for people; `None` where it has none.
    fn folder(&self) -> Option<&str> {
        None
    }

    /// How often changes were made durable, and how long that took, where the store knows it.
    fn syncs(&self) -> Syncs {
        Syncs::NONE
    }
}
