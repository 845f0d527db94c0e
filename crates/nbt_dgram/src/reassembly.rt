//! A datagram that is put together from its fragments (RFC 1002 section 5.3.3).

ghost use Rattle.std.specs.Prelude.{◌≡◌, ◌↔◌, IsTrue};

use crate::dgram::Names;
use crate::joined::Joined;
use arrayvec::ArrayVec;
use nbt_name::Name;
use std::marker::Model;

/// Names that borrow nothing.
#[derive(Debug, Drop)]
pub(crate) struct KeptNames {
    source: Name,
    destination: Name,
}

impl Model for KeptNames {
    ghost use Rattle.nbt_dgram.specs.declared.dgram.Names.{Names};

    ghost Value = { Names };

    ghost view = { λ n. record { source = n.source; destination = n.destination } };
}

impl KeptNames {
    /// Room for names that are set.
    pub(crate) fn blank() -> KeptNames {
        KeptNames {
            source: Name::blank(),
            destination: Name::blank(),
        }
    }

    /// The names, lent.
    pub(crate) fn lend(&self) -> Names<'_>
        ensures { result ≡ self.now }
    {
        Names {
            source: self.source.lend(),
            destination: self.destination.lend(),
        }
    }

    /// Become equal names, where they stand.
    pub(crate) fn set(&mut self, names: &Names<'_>)
        ensures { self.new ≡ names.now }
    {
        self.source.set(&names.source);
        self.destination.set(&names.destination);
    }

    /// Whether they are these.
    pub(crate) fn are(&self, names: &Names<'_>) -> bool
        ensures { IsTrue result ↔ (self.now ≡ names.now) }
    {
        names.source.is(&self.source) && names.destination.is(&self.destination)
    }
}

/// Room for a datagram that is put together from its fragments: its names, and at most 512 octets of data. It has 1,016 octets.
#[derive(Debug, Drop)]
pub struct Reassembly {
    pub(crate) names: KeptNames,
    pub(crate) data: ArrayVec<u8, 512>,
}

impl Reassembly {
    ghost use Rattle.nbt_dgram.specs.Joiner.{joined_of, whole};

    /// Room for any datagram. It stands apart for its room on the stack, which the names that are moved there take.
    #[inline(never)]
    pub fn new() -> Reassembly {
        Reassembly {
            names: KeptNames::blank(),
            data: ArrayVec::new(),
        }
    }

    /// Makes these the names.
    pub(crate) fn keep(&mut self, names: &KeptNames)
        ensures { self.new ≡ record self.old { names = names.now } }
    {
        self.names.set(&names.lend());
    }

    /// The datagram that stands there.
    pub(crate) fn joined(&self) -> Joined<'_>
        ensures { joined_of result ≡ whole self.now.names self.now.data.items }
    {
        Joined::Whole(self.names.lend(), self.data.as_slice())
    }
}
