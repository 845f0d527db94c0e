//! What a store needs of a disk.

ghost use Rattle.nbt_store.specs.DiskCalls.{DiskCall, creating, adding_beside, installing, adding, flushing};

use crate::room::Room;
use crate::syncs::Syncs;
use std::io;

/// What a store needs of a folder of a disk, call by call: the file, and a new file beside it.
pub trait Disk {
    /// What a call of it is: the disk before, what the call did, and the disk afterwards.
    ghost does: { Self → DiskCall → Self → Type 0 };

    /// Refused where the folder isn't the one any more that the disk began with, as where somebody moved it. The disk stays as it is.
    fn check(&self) -> io::Result<()> {
        Ok(())
    }

    /// Makes a new file of these octets beside the file, and makes them durable.
    fn create(&mut self, octets: &[u8]) -> io::Result<()>
        ensures { does self.old (creating octets.now result) self.new };

    /// Puts these octets at the end of the new file, and makes them durable. Refused where there is none.
    fn append_beside(&mut self, octets: &[u8]) -> io::Result<()>
        ensures { does self.old (adding_beside octets.now result) self.new };

    /// Puts the new file in the place of the file, and makes that durable. A crash leaves the old file or the new one.
    fn install(&mut self) -> io::Result<()>
        ensures { does self.old (installing result) self.new };

    /// Puts these octets at the end of the file. A crash before the next sync may leave any part of them, or none.
    fn append(&mut self, octets: &[u8]) -> io::Result<()>
        ensures { does self.old (adding octets.now result) self.new };

    /// Makes the octets of the file durable: every crash from then on keeps them.
    fn sync(&mut self) -> io::Result<()>
        ensures { does self.old (flushing result) self.new };

    /// How much room there is for what is still to be appended. A disk that is full may look here whether it has room again.
    fn room(&self) -> Room {
        Room::Ample
    }

    /// Whether there is room for a new file beside the file, as long as what the file has. A disk may take that room here, a part of it at each
    /// call, and says so once it has all of it.
    fn has_room_beside(&self) -> bool {
        true
    }

    /// How often octets became durable, and how long that took, where the disk knows it.
    fn syncs(&self) -> Syncs {
        Syncs::NONE
    }
}
