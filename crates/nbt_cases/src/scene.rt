//! Scenes: a command over a port, clocks and outputs that a script stands for, call by call.

mod command;
mod fixed;
mod kept;
mod line;
mod nbns;
mod nbns_words;
mod node;
mod paper;
mod place;
mod playing;
mod port;
mod renewed;
mod repeat;
mod script;
mod server;
mod stage;
mod table;
mod watch;
mod words;
mod world;

pub use playing::play;
pub use script::Scene;
pub use stage::Verdict;
