//! What a node reports of a datagram.

/// What a datagram was to a node.
#[derive(Clone, Copy, Debug, PartialEq, Eq)]
pub enum Event<'a> {
    /// Nothing that the node waits for.
    Nothing,
    /// A status request. The reply for its sender is in the buffer.
    Reply,
    /// The registration is granted for these seconds. The name is held for `Config::hold` of them, counted from the first
    /// sending of the request, and may have lapsed already.
    Granted(u32),
    /// The hold is renewed for these seconds, counted in the same way from the first sending of the refresh.
    Renewed(u32),
    /// The registration is refused with this RCODE (RFC 1002 section 4.2.6).
    Refused(u8),
    /// The name is lost: its refresh was refused, or the server sent a conflict demand.
    Lost,
    /// The server replied to the release with this RCODE (RFC 1002 sections 4.2.10 and 4.2.11).
    Freed(u8),
    /// The server asks the node to wait for its reply: a WACK (RFC 1002 section 4.2.16).
    Wait,
    /// The name that was looked up exists (RFC 1002 section 4.2.13).
    Found {
        /// Its entries of six octets each, borrowed from the datagram.
        entries: &'a [u8],
        /// TC of the reply: the name has more entries than these.
        cut: bool,
    },
    /// The name that was looked up doesn't exist.
    NotFound,
    /// The names of the queried host, of 18 octets each, borrowed from the datagram (RFC 1002 section 4.2.18).
    Status(&'a [u8]),
}
