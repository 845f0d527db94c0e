//! That the code's numbers are those of the definitions.

ghost use Rattle.std.specs.Prelude.{◌≡◌};
ghost use Rattle.nbt_scan.specs.Plans.{addresses_most};
ghost use Rattle.nbt_scan.specs.Scanning.{turns_most};

use crate::addresses::ADDRESSES_MOST;
use crate::scanning::TURNS_MOST;

/// A scan asks 65,536 addresses at most, and takes 2^40 turns at most (our profile).
pub fn numbers()
    ensures addresses { ADDRESSES_MOST ≡ addresses_most }
    ensures turns { TURNS_MOST ≡ turns_most }
{}
