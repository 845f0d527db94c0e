//! A network of the programs' own acts, which leads to a world; and what holds over a crash of a name server and its next start (our
//! profile). Laws that join those of the crates below, over their definitions alone.
#![tactic(auto)]

pub mod laws;
