//! Why a packet spells no message (our profile).

/// Why a packet spells no message of this profile (RFC 1002 sections 4.2.2 to 4.2.18): the first of these that holds, in
/// this order.
#[derive(Clone, Copy, Debug, PartialEq, Eq)]
pub enum Reason {
    /// Our profile has no request, or no response, with this OPCODE.
    Opcode,
    /// B is set, and the packet is no status request.
    Broadcast,
    /// RA is clear in a positive response of OPCODE 5: an end node's challenge.
    Challenge,
    /// The sections are not those of such a message.
    Sections,
    /// A question or a record is of another type.
    OtherType,
    /// A question or a record is of another class.
    OtherClass,
    /// RDATA doesn't hold one entry, or whole entries, or as many names as it says.
    Length,
    /// The additional record is of another name than the question.
    OtherName,
}
