//! What holds of looks at a machine's clocks, and of the time that a refresh has, whatever the code does: laws over the definitions
//! alone; and that the code's numbers are theirs.

ghost use Rattle.std.specs.Prelude.{◌≡◌, ℕ, ◌+◌, ◌-◌, ◌*◌, ◌<◌, ◌≤◌, List, ◌∷◌};
ghost use Rattle.std.specs.List.{list_any};
ghost use Rattle.nbt_lease.specs.Config.{milliseconds};
ghost use Rattle.nbt_lease.specs.Drift.{hold};
ghost use Rattle.nbt_node.specs.Transaction.{sendings, retry_timeout};
ghost use Rattle.nbt_host.specs.Sleeping.{has_slept, anchor_since};
ghost use Rattle.nbt_host.specs.ReleaseTurns.{turns_most};
ghost use Rattle.nbt_host.specs.declared.sleeping.Reading.{Reading};

use crate::release_turns::TURNS_MOST;

/// One reading stands for all: a machine slept since it exactly if it slept since any of them.
pub fn the_anchor_stands_for_all()
    ensures { (first : Reading) (more : List Reading) (later : Reading)
        → has_slept (anchor_since first more) later ≡ list_any (λ reading. has_slept reading later) (first ∷ more) }
{}

/// A hold of 30 s and 20 lives of a datagram at least outlasts its refresh: that begins after half of the seconds granted, and is
/// sent three times, one every 5 s; a reply to the last of them comes within two lives, before the hold ends.
pub fn hold_outlasts_its_refresh()
    ensures { (seconds life : ℕ) → 30 ≤ seconds → 20 * life ≤ milliseconds seconds
        → 500 * seconds + (sendings - 1) * retry_timeout + 2 * life < hold seconds }
{}

/// Names are given back in 2^40 turns at most (our profile).
pub fn numbers()
    ensures { TURNS_MOST ≡ turns_most }
{}
