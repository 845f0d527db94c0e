//! What a name server keeps of its leases over a crash (our profile): changes of leases, in order, as lines of a file; and with what a
//! server begins that finds such a file: it goes on, or begins anew and is silent, and whether a kept lease outlasts that silence.
#![tactic(auto)]

mod beginning;
mod boot;
mod change;
mod disk;
mod disk_store;
mod draft;
mod fault;
mod form;
mod header;
pub mod laws;
mod memory_disk;
mod outlasting;
mod reading;
mod record;
mod resuming;
mod room;
mod sealing;
mod silence;
mod spare;
mod store;
mod syncs;
mod system_disk;
mod table;
mod times;
mod verb;
mod word;
mod writing;

pub use beginning::{Begun, begin};
pub use boot::Boot;
pub use change::Change;
pub use disk::Disk;
pub use disk_store::DiskStore;
pub use fault::{Fault, ReadFault};
pub use form::Form;
pub use header::Header;
pub use memory_disk::{MemoryDisk, Trouble};
pub use outlasting::{outlasts, outlasts_for};
pub use reading::{Loaded, load, load_header};
pub use resuming::{Decided, Found, Going, Reason, resume};
pub use room::Room;
pub use sealing::checksum;
pub use silence::{Onward, Seen, Silence, bears_out, why_silent};
pub use store::{Broken, Store};
pub use syncs::Syncs;
pub use system_disk::{LOCK_MOST, OTHER_LOCK, SystemDisk, is_lock_text, leases_at, this_boot};
pub use times::Times;
pub use writing::{write_change, write_file};
