//! Scripts of a world: what a line asks for, what it prints, and a script as its lines in order, or as a picture (our
//! profile).
//!
//! A script comes in as octets, and what it prints goes out at the end of a `String`. Nothing here knows the command
//! line.
#![tactic(auto)]

mod argument;
mod instruction;
pub mod laws;
mod picture;
mod printing;
mod report;
mod script;
mod script_world;
mod verb;
mod words;

pub use instruction::Instruction;
pub use picture::draw;
pub use report::Report;
pub use script::{Played, play, play_line};
