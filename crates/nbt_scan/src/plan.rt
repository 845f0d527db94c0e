//! What a scan is to do.

ghost use Rattle.std.specs.Prelude.{◌↔◌, IsTrue};

use crate::addresses::{ADDRESSES_MOST, are_ascending};

/// What a scan is to do (our profile).
#[derive(Drop)]
pub struct Plan {
    /// The addresses, each below those behind it; 65,536 at most.
    pub ips: Vec<u32>,
    /// The port at which they are asked.
    pub port: u16,
    /// How many requests are sent in a second; 1 at least.
    pub rate: u32,
    /// How often an address is asked that doesn't reply; once at least.
    pub tries: u32,
    /// How many milliseconds after the last request of a pass replies are waited for.
    pub wait: u32,
}

impl Plan {
    ghost use Rattle.nbt_scan.specs.Plans.{IsPlan};

    /// Whether a scan can do it: the addresses are ascending and not too many, and neither the rate nor the number of passes is 0.
    pub fn is_sound(&self) -> bool
        ensures { IsTrue result ↔ IsPlan self.now }
    {
        if ADDRESSES_MOST < self.ips.len() {
            return false;
        }
        if self.rate == 0 {
            return false;
        }
        if self.tries == 0 {
            return false;
        }
        are_ascending(self.ips.as_slice())
    }
}
