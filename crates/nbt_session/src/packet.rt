//! Session packets (RFC 1002 section 4.3), and what their first octet and their length say.

ghost use Rattle.std.specs.Prelude.{◌≡◌, ◌≢◌, IfSome, IfNone};

use nbt_name::{Addr, Name};

/// The most octets of a message: what 17 bits of length can say (RFC 1002 section 4.3.1).
pub(crate) const MESSAGE_MOST: usize = 0x1FFFF;

/// The most octets after the header of another packet: two names of 255 octets (RFC 1002 section 4.3.2).
pub(crate) const OTHER_MOST: usize = 510;

/// A packet of a session (RFC 1002 section 4.3.1).
#[derive(Debug, PartialEq, Eq, Drop)]
pub enum Packet {
    /// SESSION MESSAGE: up to 131,071 octets of the user's (RFC 1002 section 4.3.6).
    Message(Vec<u8>),
    /// SESSION REQUEST: a call to a name, by a name (RFC 1002 section 4.3.2).
    Request {
        /// The name that is called.
        called: Name,
        /// The name that calls.
        calling: Name,
    },
    /// POSITIVE SESSION RESPONSE (RFC 1002 section 4.3.3).
    Positive,
    /// NEGATIVE SESSION RESPONSE, with its code (RFC 1002 section 4.3.4).
    Negative(u8),
    /// SESSION RETARGET RESPONSE: call there (RFC 1002 section 4.3.5).
    Retarget(Addr),
    /// SESSION KEEPALIVE (RFC 1002 section 4.3.7).
    KeepAlive,
}

/// The types of packets, which their first octet says (RFC 1002 section 4.3.1).
#[derive(Clone, Copy, Debug, PartialEq, Eq)]
pub enum PacketType {
    /// 0x00.
    Message,
    /// 0x81.
    Request,
    /// 0x82.
    Positive,
    /// 0x83.
    Negative,
    /// 0x84.
    Retarget,
    /// 0x85.
    KeepAlive,
}

impl PacketType {
    ghost use Rattle.nbt_session.specs.declared.packet.PacketType.{PacketType};
    ghost use Rattle.nbt_session.specs.Packet.{octet_of, least, most};

    /// The type that an octet says, or nothing where no packet has it.
    pub(crate) fn of(octet: u8) -> Option<PacketType>
        ensures found { IfSome result (λ kind. octet_of kind ≡ octet) }
        ensures none { IfNone result ((kind : PacketType) → octet_of kind ≢ octet) }
    {
        match octet {
            0x00 => Some(PacketType::Message),
            0x81 => Some(PacketType::Request),
            0x82 => Some(PacketType::Positive),
            0x83 => Some(PacketType::Negative),
            0x84 => Some(PacketType::Retarget),
            0x85 => Some(PacketType::KeepAlive),
            _ => None,
        }
    }

    /// The octet that says the type.
    pub(crate) fn octet(self) -> u8
        ensures { result ≡ octet_of self }
    {
        match self {
            PacketType::Message => 0x00,
            PacketType::Request => 0x81,
            PacketType::Positive => 0x82,
            PacketType::Negative => 0x83,
            PacketType::Retarget => 0x84,
            PacketType::KeepAlive => 0x85,
        }
    }

    /// The least and the greatest length of the type's packets, without the header's four octets (RFC 1002 sections
    /// 4.3.2 to 4.3.7). A request has two names of 34 to 255 octets.
    pub(crate) fn lengths(self) -> (usize, usize)
        ensures least { result.0 ≡ least self }
        ensures most { result.1 ≡ most self }
    {
        match self {
            PacketType::Message => (0, MESSAGE_MOST),
            PacketType::Request => (68, OTHER_MOST),
            PacketType::Positive | PacketType::KeepAlive => (0, 0),
            PacketType::Negative => (1, 1),
            PacketType::Retarget => (6, 6),
        }
    }
}
