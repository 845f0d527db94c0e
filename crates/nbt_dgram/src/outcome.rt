//! What a datagram's octets lead to.

use crate::dgram::Names;
use nbt_name::Addr;

/// What a datagram's octets mean for a node.
#[derive(Debug, Drop)]
pub enum Accept<'a> {
    /// A datagram for a name that the node holds: its names and its data, lent as by [`Joined::Whole`](crate::Joined::Whole).
    Up(Names<'a>, &'a [u8]),
    /// An error packet for this endpoint is in the buffer.
    Reply(Addr),
    /// An error that another host reports: the datagram's id, and the code.
    Error(u16, u8),
    /// Other fragments are missing.
    Waiting,
    /// Nothing.
    Nothing,
}
