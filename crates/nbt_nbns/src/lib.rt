//! A name server that stays up, over UDP, the system's clocks and its files: it logs what it made of each datagram, keeps the list of its
//! live leases, its hosts and its statistics in files, and keeps its leases over a restart in a folder, where it has one (our profile).
#![tactic(auto)]

mod arguments;
mod barring;
mod checking;
mod complaint;
mod content;
mod first_line;
mod folder;
mod full;
mod in_the_way;
mod journal;
mod keeper;
mod keeping;
pub mod laws;
mod limits;
mod lister;
mod logger;
mod opening;
mod outbox;
mod place;
mod renewing;
mod report;
mod resuming;
mod roomy;
mod running;
mod server;
mod standing;
mod starting;
mod state;
mod staying;
mod teller;
mod unlocked;

pub use arguments::{NbnsArguments, ServerArguments, StateFolder};
pub use checking::{check_server, write_check};
pub use content::Content;
pub use first_line::{
    Manner, manner_at_first, manner_of, write_addresses, write_begin, write_reason,
};
pub use folder::FolderStore;
pub use journal::Journal;
pub use keeper::{Keeper, Kept};
pub use keeping::keep_on;
pub use limits::{
    HOLDS_LEAST, Judged, LIVES_LEAST, LONGEST_QUIET, judge, write_refusal, write_warning,
};
pub use lister::Lister;
pub use logger::Logger;
pub use outbox::Outbox;
pub use place::{FilePlace, MemoryPlace, Place};
pub use renewing::{NotesFixed, Renewable, keep_renewed};
pub use report::{Report, StatsReport};
pub use running::run_nbns;
pub use server::{Folder, run_server};
pub use starting::journal_of;
pub use state::State;
pub use staying::{Shown, Watcher};
pub use teller::{Teller, Untold};
