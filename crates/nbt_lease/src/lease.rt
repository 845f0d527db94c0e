//! A lease, and what a grant and a release return.

use nbt_name::Kind;

/// A lease of a name. It lives until its expiry, and no longer at it.
#[derive(Clone, Copy, Debug, PartialEq, Eq)]
pub struct Lease {
    /// The 32-bit address of the node that holds the name.
    pub addr: u32,
    /// Whether the name is unique or a group's.
    pub kind: Kind,
    /// The expiry, in milliseconds. It may be above 2^60, the last time.
    pub end: u64,
}

/// What a grant returns.
#[derive(Clone, Copy, Debug, PartialEq, Eq)]
pub struct Grant {
    /// The seconds granted, 1 to the longest lease.
    pub seconds: u32,
    /// The lease's expiry after the call, in milliseconds. A renewal doesn't shorten a lease, so it may be later than the
    /// seconds granted.
    pub end: u64,
    /// Whether a live lease was renewed; else one began.
    pub renewed: bool,
}

/// What a release found (our profile).
#[derive(Clone, Copy, Debug, PartialEq, Eq)]
pub enum Released {
    /// The address's live lease, which is removed.
    Gone,
    /// No live lease of the name.
    NoLease,
    /// Live leases of the name, and none of the address.
    OfOthers,
}
