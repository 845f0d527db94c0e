//! What comes of an instruction.

use arrayvec::ArrayVec;
use nbt_world::{Holder, Outcome};

/// What came of an instruction. What its line prints is a function of the two.
#[derive(Debug, Drop)]
pub enum Report {
    /// A world began, or its clocks went on; the line prints nothing.
    Quiet,
    /// This came of an event.
    Event(Outcome),
    /// These nodes hold the name.
    Holders(ArrayVec<Holder, 8>),
    /// Whether the clocks kept the drift bound so far.
    Kept(bool),
    /// Whether no clock was faster than the drift bound lets it be so far, and no node's slower.
    Timely(bool),
}
