//! The four octets that each packet begins with (RFC 1002 section 4.3.1).
//!
//!                          1 1 1 1 1 1 1 1 1 1 2 2 2 2 2 2 2 2 2 2 3 3
//!      0 1 2 3 4 5 6 7 8 9 0 1 2 3 4 5 6 7 8 9 0 1 2 3 4 5 6 7 8 9 0 1
//!     +---------------+-------------+-+-------------------------------+
//!     |      TYPE     |    FLAGS    |E|            LENGTH             |
//!     +---------------+-------------+-+-------------------------------+

ghost use Rattle.std.specs.Prelude.{◌≡◌, ◌<◌, ◌≤◌, length, IfOk, OnOk, IfErr, MatchOption};
ghost use Rattle.nbt_session.specs.declared.fault.Fault.{Fault};
ghost use Rattle.nbt_session.specs.Packet as spec;
ghost use Rattle.nbt_session.specs.Packet.{HasLength};
ghost use Rattle.nbt_session.specs.Stream.{HasFault};

use crate::fault::{Fault, FaultKind};
use crate::packet::PacketType;
use nbt_name::read_word;

/// How many octets a header has.
pub(crate) const HEADER: usize = 4;

/// FLAGS with E, the 17th bit of the length, alone (RFC 1002 section 4.3.1).
const E: u8 = 0x01;

/// What a header says: a type, and how many octets follow.
#[derive(Clone, Copy, Debug)]
pub(crate) struct Frame {
    pub(crate) kind: PacketType,
    pub(crate) count: usize,
}

/// Reads a header, or as much of one as is there: nothing where that isn't all, and has no fault so far.
pub(crate) fn frame_of(header: &[u8]) -> Result<Option<Frame>, Fault>
    requires { length header.now ≤ 4 }
    ensures frame { IfOk result (λ frame. MatchOption frame (length header.now < 4) (λ f. (header.now ≡ spec.header f.kind f.count) × HasLength f.kind f.count)) }
    ensures sound { OnOk result ((fault : Fault) → HasFault header.now fault → ⊥) }
    ensures fault { IfErr result (HasFault header.now) }
{
    let Some(&octet) = header.get(0) else {
        return Ok(None);
    };
    let Some(kind) = PacketType::of(octet) else {
        return Err(bad(FaultKind::BadType, 0));
    };
    let Some(&flags) = header.get(1) else {
        return Ok(None);
    };
    if flags > E {
        return Err(bad(FaultKind::BadFlags, 1));
    }
    if header.len() < HEADER {
        return Ok(None);
    }
    let count = usize::from(flags) * 0x10000 + usize::from(read_word(header, 2));
    let (least, most) = kind.lengths();
    if count < least || count > most {
        return Err(bad(FaultKind::BadLength, 2));
    }
    Ok(Some(Frame { kind, count }))
}

/// A fault at a place.
pub(crate) fn bad(kind: FaultKind, place: usize) -> Fault
    ensures { result ≡ record { kind = kind; place = place } }
{
    Fault { kind, place }
}
