//! The types of datagrams (RFC 1002 section 4.4.1).

ghost use Rattle.std.specs.Prelude.{◌≡◌, ◌↔◌, Some, IsTrue};
ghost use Rattle.nbt_dgram.specs.declared.msg_type.MsgType.{MsgType};
ghost use Rattle.nbt_dgram.specs.Numbers.{type_number};

/// Who a datagram with data is for.
#[derive(Clone, Copy, Debug, PartialEq, Eq)]
pub enum Delivery {
    /// 0x10, DIRECT_UNIQUE DATAGRAM: the one holder of a name.
    DirectUnique,
    /// 0x11, DIRECT_GROUP DATAGRAM: each member of a group.
    DirectGroup,
    /// 0x12, BROADCAST DATAGRAM: every host in a scope. It is read and written, and never handed up (our profile).
    Broadcast,
}

impl Delivery {
    /// Whether this is the other one.
    pub(crate) fn is(self, other: Delivery) -> bool
        ensures { IsTrue result ↔ (self ≡ other) }
    {
        self == other
    }
}

/// A query of a datagram distribution server, or its response. It is read and written, and not acted on (our profile).
#[derive(Clone, Copy, Debug, PartialEq, Eq)]
pub enum Lookup {
    /// 0x14, DATAGRAM QUERY REQUEST.
    Request,
    /// 0x15, DATAGRAM POSITIVE QUERY RESPONSE.
    Positive,
    /// 0x16, DATAGRAM NEGATIVE QUERY RESPONSE.
    Negative,
}

/// MSG_TYPE, 0x10 to 0x16.
#[derive(Clone, Copy, Debug, PartialEq, Eq)]
pub enum MsgType {
    /// 0x10 to 0x12: data.
    Data(Delivery),
    /// 0x13, DATAGRAM ERROR.
    Error,
    /// 0x14 to 0x16: a query, or its response.
    Lookup(Lookup),
}

impl MsgType {
    /// The type with this number, 0x10 to 0x16.
    pub fn of(number: u8) -> Option<MsgType>
        ensures { (t : MsgType) → (result ≡ Some t) ↔ (number ≡ type_number t) }
    {
        match number {
            0x10 => Some(MsgType::Data(Delivery::DirectUnique)),
            0x11 => Some(MsgType::Data(Delivery::DirectGroup)),
            0x12 => Some(MsgType::Data(Delivery::Broadcast)),
            0x13 => Some(MsgType::Error),
            0x14 => Some(MsgType::Lookup(Lookup::Request)),
            0x15 => Some(MsgType::Lookup(Lookup::Positive)),
            0x16 => Some(MsgType::Lookup(Lookup::Negative)),
            _ => None,
        }
    }

    /// The type's number, 0x10 to 0x16.
    pub fn number(self) -> u8
        ensures { result ≡ type_number self }
    {
        match self {
            MsgType::Data(Delivery::DirectUnique) => 0x10,
            MsgType::Data(Delivery::DirectGroup) => 0x11,
            MsgType::Data(Delivery::Broadcast) => 0x12,
            MsgType::Error => 0x13,
            MsgType::Lookup(Lookup::Request) => 0x14,
            MsgType::Lookup(Lookup::Positive) => 0x15,
            MsgType::Lookup(Lookup::Negative) => 0x16,
        }
    }
}
