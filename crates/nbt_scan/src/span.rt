//! A run of addresses.

ghost use Rattle.std.specs.Prelude.{◌≡◌, ◌++◌, ◌≤◌, OnOk};

use std::alloc::AllocError;

/// A run of addresses, from the first to the last.
#[derive(Clone, Copy)]
pub struct Span {
    /// The first.
    pub first: u32,
    /// The last, which isn't before the first.
    pub last: u32,
    ghost in_order: { first ≤ last },
}

impl Span {
    ghost use Rattle.nbt_scan.specs.Spans.{size_of, ips_of};

    /// How many addresses it has.
    pub fn size(&self) -> u64
        ensures { result ≡ size_of self.now }
    {
        u64::from(self.last - self.first) + 1
    }

    /// Appends its addresses.
    pub(crate) fn push_all(&self, ips: &mut Vec<u32>) -> Result<(), AllocError>
        ensures { OnOk result (ips.new.items ≡ ips.old.items ++ ips_of self.now) }
    {
        for k in 0..self.size() {
            ips.push(self.first + k as u32)?;
        }
        Ok(())
    }
}
