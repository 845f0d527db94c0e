//! A datagram in its parts.
//!
//! ```text
//!                      1 1 1 1 1 1 1 1 1 1 2 2 2 2 2 2 2 2 2 2 3 3
//!  0 1 2 3 4 5 6 7 8 9 0 1 2 3 4 5 6 7 8 9 0 1 2 3 4 5 6 7 8 9 0 1
//! +-+-+-+-+-+-+-+-+-+-+-+-+-+-+-+-+-+-+-+-+-+-+-+-+-+-+-+-+-+-+-+-+
//! |   MSG_TYPE    |0 0 0 0|SNT|F|M|           DGM_ID              |
//! +-+-+-+-+-+-+-+-+-+-+-+-+-+-+-+-+-+-+-+-+-+-+-+-+-+-+-+-+-+-+-+-+
//! |                           SOURCE_IP                           |
//! +-+-+-+-+-+-+-+-+-+-+-+-+-+-+-+-+-+-+-+-+-+-+-+-+-+-+-+-+-+-+-+-+
//! |          SOURCE_PORT          |          DGM_LENGTH           |
//! +-+-+-+-+-+-+-+-+-+-+-+-+-+-+-+-+-+-+-+-+-+-+-+-+-+-+-+-+-+-+-+-+
//! |         PACKET_OFFSET         |                               |
//! +-+-+-+-+-+-+-+-+-+-+-+-+-+-+-+-+                               +
//! /                  SOURCE_NAME, DESTINATION_NAME                /
//! /                           USER_DATA                           /
//! +-+-+-+-+-+-+-+-+-+-+-+-+-+-+-+-+-+-+-+-+-+-+-+-+-+-+-+-+-+-+-+-+
//! ```
//!
//! RFC 1002 sections 4.4.1 to 4.4.5. DGM_LENGTH counts what stands after PACKET_OFFSET. PACKET_OFFSET counts octets
//! of data, and names stand in the first fragment alone: our profile's choices.

ghost use Rattle.std.specs.Prelude.{◌≡◌, ◌<◌, ◌≤◌, ◌^◌, ◌↔◌, true, false, length, IsTrue, IfSome, IfNone};
ghost use Rattle.nbt_dgram.specs.declared.dgram.Names.{Names};
ghost use Rattle.nbt_dgram.specs.declared.dgram.Part.TheVariants.{First};
ghost use Rattle.nbt_dgram.specs.Dgram.{fragment_of, type_of, body_of, dgram_of};
ghost use Rattle.nbt_dgram.specs.Fragments.{begin_of, end_of};
ghost use Rattle.nbt_dgram.specs.Joiner.{IsData};
ghost use Rattle.nbt_dgram.specs.Text.{offset_of, names_text, Fits};

use crate::msg_type::{Delivery, Lookup, MsgType};
use nbt_name::{Addr, LentName};

/// Who sends a datagram, and whom it is for.
#[derive(Debug, Drop)]
pub struct Names<'a> {
    /// SOURCE_NAME.
    pub source: LentName<'a>,
    /// DESTINATION_NAME.
    pub destination: LentName<'a>,
}

impl<'a> Names<'a> {
    /// The same names, lent once more.
    pub fn copy(&self) -> Names<'a>
        ensures { result ≡ self.now }
    {
        Names {
            source: self.source.copy(),
            destination: self.destination.copy(),
        }
    }
}

/// Where a fragment stands in its datagram.
#[derive(Debug, Drop)]
pub enum Part<'a> {
    /// At the beginning, with the names (F set).
    First(Names<'a>),
    /// Behind as many octets of data, without names (F clear).
    Later(u16),
}

/// A fragment of a datagram with data, or a whole one (RFC 1002 section 4.4.2).
#[derive(Debug, Drop)]
pub struct Fragment<'a> {
    /// Who the datagram is for.
    pub delivery: Delivery,
    /// Where the fragment stands, and the names where it is the first.
    pub part: Part<'a>,
    /// Whether other fragments follow (M).
    pub more: bool,
    /// USER_DATA, borrowed from the packet's octets.
    pub payload: &'a [u8],
}

impl<'a> Fragment<'a> {
    /// The names, where the fragment is the first and the last one: a whole datagram.
    pub(crate) fn names_if_whole(&self) -> Option<&Names<'a>>
        ensures whole { IfSome result (λ names. (self.now.part ≡ First names.now) × (self.now.more ≡ false)) }
        ensures part { IfNone result ((names : Names) → self.now.part ≡ First names → self.now.more ≡ true) }
    {
        let Part::First(names) = &self.part else {
            return None;
        };
        if self.more {
            return None;
        }
        Some(names)
    }

    /// How many octets of data stand before the fragment's.
    pub(crate) fn begin(&self) -> usize
        ensures value { result ≡ begin_of (fragment_of self.now) }
        ensures bound { result < 2 ^ 16 }
    {
        usize::from(self.part.offset())
    }

    /// How many octets of data there are up to the fragment's end.
    pub(crate) fn end(&self) -> usize
        ensures { result ≡ end_of (fragment_of self.now) }
    {
        self.begin() + self.payload.len()
    }
}

/// What stands after the ten octets that each datagram begins with.
#[derive(Debug, Drop)]
pub enum Body<'a> {
    /// 0x10 to 0x12: a fragment, or a whole datagram.
    Fragment(Fragment<'a>),
    /// 0x13: the error's code (RFC 1002 section 4.4.3). 0x82 is destination name not present, 0x83 invalid source name
    /// format, 0x84 invalid destination name format; any other is read too.
    Error(u8),
    /// 0x14 to 0x16: the name that is queried (RFC 1002 sections 4.4.4 and 4.4.5).
    Lookup(Lookup, LentName<'a>),
}

/// A packet of the datagram service (RFC 1002 section 4.4). Of FLAGS it keeps F and M alone, and these of a fragment
/// alone.
#[derive(Debug, Drop)]
pub struct Dgram<'a> {
    /// DGM_ID, by which the fragments of one datagram are known.
    pub id: u16,
    /// SOURCE_IP and SOURCE_PORT.
    pub source: Addr,
    /// The rest.
    pub body: Body<'a>,
}

/// The most octets that DGM_LENGTH counts.
const LENGTH_MOST: usize = 65535;

impl Part<'_> {
    /// PACKET_OFFSET: how many octets of data stand before the fragment's.
    pub fn offset(&self) -> u16
        ensures { result ≡ offset_of self.now }
    {
        match self {
            Part::First(_) => 0,
            Part::Later(offset) => *offset,
        }
    }

    /// How many octets the names take: 68 to 510, or none.
    pub(crate) fn names_len(&self) -> usize
        ensures value { result ≡ length (names_text self.now) }
        ensures bound { result ≤ 510 }
    {
        match self {
            Part::First(names) => names.source.wire_len() + names.destination.wire_len(),
            Part::Later(_) => 0,
        }
    }
}

impl Dgram<'_> {
    /// Whether the datagram has data: whether its type is 0x10 to 0x12.
    pub fn has_data(&self) -> bool
        ensures { IsTrue result ↔ IsData (dgram_of self.now) }
    {
        matches!(self.body, Body::Fragment(_))
    }

    /// Whether the datagram has a written form: its names and its data, where it has them, are at most 65,535 octets.
    pub fn fits(&self) -> bool
        ensures { IsTrue result ↔ Fits (dgram_of self.now) }
    {
        match &self.body {
            Body::Fragment(fragment) => {
                fragment.part.names_len() + fragment.payload.len() <= LENGTH_MOST
            }
            Body::Error(_) | Body::Lookup(_, _) => true,
        }
    }

    /// MSG_TYPE.
    pub fn msg_type(&self) -> MsgType
        ensures { result ≡ type_of (body_of self.now.body) }
    {
        match &self.body {
            Body::Fragment(fragment) => MsgType::Data(fragment.delivery),
            Body::Error(_) => MsgType::Error,
            Body::Lookup(lookup, _) => MsgType::Lookup(*lookup),
        }
    }
}

impl Default for Dgram<'_> {
    /// A blank for the unused places of an `ArrayVec`: an error with code 0 from nowhere.
    fn default() -> Self {
        Dgram {
            id: 0,
            source: Addr { ip: 0, port: 0 },
            body: Body::Error(0),
        }
    }
}
