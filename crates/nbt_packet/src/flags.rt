//! The flags' word of the header, R and OPCODE, the flags and RCODE (RFC 1002 section 4.2.1.1).
//!
//! ```text
//!   0   1   2   3   4   5   6   7   8   9  10  11  12  13  14  15
//! +---+---+---+---+---+---+---+---+---+---+---+---+---+---+---+---+
//! | R |    OPCODE     |AA |TC |RD |RA | 0 | 0 | B |     RCODE     |
//! +---+---+---+---+---+---+---+---+---+---+---+---+---+---+---+---+
//! ```

ghost use Rattle.std.specs.Prelude.{◌≡◌, ◌↔◌, IsTrue};
ghost use Rattle.nbt_packet.specs.Message.{IsRequest, IsUnicast, IsTruncated, DesiresRecursion, OffersRecursion, IsChallenge, opcode_of, rcode_of};

use crate::wire::OPCODE_REGISTRATION;

/// R clear: the packet is a request.
pub fn is_request(flags: u16) -> bool
    ensures { IsTrue result ↔ IsRequest flags }
{
    flags < 0x8000
}

/// B clear: the packet was unicast.
pub fn is_unicast(flags: u16) -> bool
    ensures { IsTrue result ↔ IsUnicast flags }
{
    flags / 0x10 % 2 == 0
}

/// TC set.
pub fn is_truncated(flags: u16) -> bool
    ensures { IsTrue result ↔ IsTruncated flags }
{
    flags / 0x200 % 2 == 1
}

/// RD set.
pub fn desires_recursion(flags: u16) -> bool
    ensures { IsTrue result ↔ DesiresRecursion flags }
{
    flags / 0x100 % 2 == 1
}

/// RA set.
pub fn offers_recursion(flags: u16) -> bool
    ensures { IsTrue result ↔ OffersRecursion flags }
{
    flags / 0x80 % 2 == 1
}

/// A positive response of OPCODE 5 with RA clear: an end node's challenge.
pub fn is_challenge(flags: u16) -> bool
    ensures { IsTrue result ↔ IsChallenge flags }
{
    opcode(flags) == OPCODE_REGISTRATION && rcode(flags) == 0 && !offers_recursion(flags)
}

/// OPCODE, 0 to 15.
pub fn opcode(flags: u16) -> u16
    ensures { result ≡ opcode_of flags }
{
    flags / 0x800 % 16
}

/// RCODE, 0 to 15.
pub fn rcode(flags: u16) -> u8
    ensures { result ≡ rcode_of flags }
{
    (flags % 16) as u8
}
