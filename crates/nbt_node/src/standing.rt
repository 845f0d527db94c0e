//! How a name stands at a node.

ghost use Rattle.std.specs.Prelude.{◌≡◌};
ghost use Rattle.nbt_node.specs.Standing.{standing_of};

use crate::state::State;

/// How a name stands at a node (our profile).
#[derive(Clone, Copy, Debug, PartialEq, Eq)]
pub enum Standing {
    /// Nothing is known of the name. It may be registered, once the node has rested from its start.
    Idle,
    /// A registration is pending.
    Asking,
    /// The name is held.
    Held,
    /// A release is pending.
    Releasing,
    /// The name may not be registered yet: a request about it was refused, given up or answered, or its hold ended.
    Resting,
}

impl State {
    /// How a name in this state stands.
    pub fn standing(&self) -> Standing
        ensures { result ≡ standing_of self.now }
    {
        match self {
            State::Idle => Standing::Idle,
            State::Asking { .. } => Standing::Asking,
            State::Held { .. } => Standing::Held,
            State::Releasing { .. } => Standing::Releasing,
            State::Resting { .. } => Standing::Resting,
        }
    }
}
