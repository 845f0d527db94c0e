//! The command line of `nbt`: its commands and their arguments, and the help on them (our profile).
//!
//! [`read`] returns the texts of a command's arguments, by name. The caller reads their values, and refuses one beyond its limits by
//! [`bad_value`], in the same form as other wrong usage. No other crate uses `clap`, over which a proof takes long.
#![tactic(auto)]

mod admin;
mod argument;
mod bench;
mod limits;
mod lists;
mod network;
mod program;
mod refusal;
mod scan;
mod texts;

pub use admin::{ONCE, TWICE};
pub use limits::{LimitedArgument, LimitedCommand, WAIT_MOST, bad_value};
pub use lists::{ImportTexts, LeasesTexts};
pub use network::GROUP;
pub use program::no_text;
pub use refusal::{Refusal, Text};
pub use scan::ScanTexts;
pub use texts::{
    AdminLine, AnswerTexts, CommandLine, HostTexts, LookupTexts, NbnsTexts, NodeTexts, ServeTexts,
    ShowTexts, StatusTexts, read,
};
