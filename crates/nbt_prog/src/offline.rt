//! The commands that open no socket: `answer`, `show`, `check`, `sim`, `sim --draw`, `import` and `leases`. The texts of a command's arguments and its input come
//! in, and all that it prints goes out, with what a line on standard error is to say (our profile).
//!
//! Nothing here knows the command line.
mod answering;
mod checking;
mod drawing;
mod explaining;
mod failure;
mod files;
mod importing;
mod input;
mod listing;
mod playing;
mod printed;
mod reason;
mod showing;
mod texts;

pub use answering::answer;
pub use checking::check;
pub use drawing::draw;
pub use explaining::explain;
pub use failure::Failure;
pub use files::{Here, Nowhere, Place};
pub use importing::import;
pub use listing::leases;
pub use playing::sim;
pub use printed::{Ending, Printed};
pub use reason::report;
pub use showing::{Service, show};
pub use texts::address_of;
