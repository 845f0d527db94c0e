//! Endpoints, and kinds of names.

/// An endpoint: a 32-bit address (RFC 791) and a port.
#[derive(Clone, Copy, Debug, PartialEq, Eq, PartialOrd, Ord, Hash)]
pub struct Addr {
    /// The 32-bit address.
    pub ip: u32,
    /// The UDP or TCP port.
    pub port: u16,
}

/// Who may hold a name (RFC 1001 section 5.2).
#[derive(Clone, Copy, Debug, PartialEq, Eq, PartialOrd, Ord, Hash)]
pub enum Kind {
    /// One node at a time.
    Unique,
    /// Any number of nodes, as a group.
    Group,
}
