//! What happens to a session's connection.

use crate::packet::Packet;

/// What happens to a connection, at the caller and at the listener.
#[derive(Debug, PartialEq, Eq, Drop)]
pub enum Event {
    /// The connection is established.
    Connected,
    /// A packet came.
    Packet(Packet),
    /// The connection is lost, couldn't be established, or its stream has a fault.
    Lost,
}
