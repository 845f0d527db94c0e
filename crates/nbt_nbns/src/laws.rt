//! That the code's numbers are those of the definitions.

ghost use Rattle.std.specs.Prelude.{◌≡◌};
ghost use Rattle.nbt_nbns.specs.Limits.{holds_least, lives_least, longest_quiet};

use crate::limits::{HOLDS_LEAST, LIVES_LEAST, LONGEST_QUIET};

/// The longest lease is 30 s and 20 lives of a datagram at least, and above 3,600 s a warning says how long a server is silent
/// (our profile).
pub fn numbers()
    ensures holds { HOLDS_LEAST ≡ holds_least }
    ensures lives { LIVES_LEAST ≡ lives_least }
    ensures quiet { LONGEST_QUIET ≡ longest_quiet }
{}
