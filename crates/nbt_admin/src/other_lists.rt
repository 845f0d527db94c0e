//! Lists of names that other programs keep, given as a file of fixed names.

use nbt_front::read_network;
use nbt_text::{fields_said, lines_of};
use std::alloc::Global;
use std::fmt;

/// With what a file begins in which Samba's name server keeps its leases.
const WINS_BEGIN: &[u8] = b"VERSION ";

/// A list of names that another program keeps, of which `nbt import` makes a file of fixed names (our profile).
#[derive(Clone, Copy, Debug, PartialEq, Eq)]
pub enum OtherList {
    /// The leases of Samba's name server.
    WinsDat,
    /// Lines that begin with an address, as those of lmhosts.
    Lmhosts,
}

impl OtherList {
    /// Which one octets look like whose line of this number, from 1 on, is none of a file of fixed names. `None` for any other, and where
    /// it is out of memory.
    pub(crate) fn seen_in(alloc: Global, octets: &[u8], number: usize) -> Option<OtherList> {
        if octets.starts_with(WINS_BEGIN) {
            return Some(OtherList::WinsDat);
        }
        let lines = lines_of(alloc, octets).ok()?;
        let line = lines.as_slice().get(number.checked_sub(1)?)?;
        let fields = fields_said(alloc, line).ok()??;
        read_network(fields.as_slice().first()?)?;
        Some(OtherList::Lmhosts)
    }
}

impl fmt::Display for OtherList {
    fn fmt<W: fmt::Write>(&self, f: &mut fmt::Formatter<W>) -> fmt::Result {
        match self {
            OtherList::WinsDat => f.write_str("wins.dat"),
            OtherList::Lmhosts => f.write_str("lmhosts"),
        }
    }
}
