//! That a whole name server, as its contract says what it does, is a life in a network (our profile). A law that joins those of the crates below, over
//! their definitions alone.
#![tactic(auto)]

pub mod laws;
