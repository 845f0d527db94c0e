//! What a session's stream returns, without holding a message.

use crate::packet::Packet;

/// A part of a session's stream: a packet, or a part of a message (RFC 1002 section 4.3).
#[derive(Debug, PartialEq, Eq, Drop)]
pub enum Part<'a> {
    /// A message begins, of this number of octets, 131,071 at most (RFC 1002 section 4.3.6).
    MessageStart(usize),
    /// The next octets of the message, one at least, borrowed from the piece.
    MessageData(&'a [u8]),
    /// The message is whole.
    MessageEnd,
    /// A packet that is no message.
    Other(Packet),
}
