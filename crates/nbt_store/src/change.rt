//! Changes of leases.

ghost use Rattle.std.specs.Prelude.{◌≡◌};
ghost use Rattle.nbt_store.specs.Changes.{at_of};

use nbt_lease::Lease;
use nbt_name::Name;

/// What changed in the leases of a name, and when; or that nothing did by then. `at` is the server's time, in milliseconds, at which
/// the change was made.
#[derive(Debug, PartialEq, Eq, Drop)]
pub enum Change {
    /// A lease began. It goes last, and one of that address goes.
    Began {
        /// The name.
        name: Name,
        /// The lease.
        lease: Lease,
        /// When.
        at: u64,
    },
    /// The lease of an address has another expiry. It keeps its place.
    Moved {
        /// The name.
        name: Name,
        /// The 32-bit address.
        addr: u32,
        /// The expiry, in milliseconds.
        end: u64,
        /// When.
        at: u64,
    },
    /// The lease of an address was released.
    Released {
        /// The name.
        name: Name,
        /// The 32-bit address.
        addr: u32,
        /// When.
        at: u64,
    },
    /// The server's clock came to this time, and no lease changed.
    Reached {
        /// When.
        at: u64,
    },
    /// The same, and the time of day was this one then.
    Looked {
        /// The time of day, in milliseconds since the beginning of 1970.
        day: u64,
        /// When.
        at: u64,
    },
}

impl Change {
    /// An equal change.
    pub fn copy(&self) -> Change
        ensures { result ≡ self.now }
    {
        match self {
            Change::Began { name, lease, at } => Change::Began {
                name: name.copy(),
                lease: *lease,
                at: *at,
            },
            Change::Moved {
                name,
                addr,
                end,
                at,
            } => Change::Moved {
                name: name.copy(),
                addr: *addr,
                end: *end,
                at: *at,
            },
            Change::Released { name, addr, at } => Change::Released {
                name: name.copy(),
                addr: *addr,
                at: *at,
            },
            Change::Reached { at } => Change::Reached { at: *at },
            Change::Looked { day, at } => Change::Looked { day: *day, at: *at },
        }
    }

    /// When it was made.
    pub fn at(&self) -> u64
        ensures { result ≡ at_of self.now }
    {
        match self {
            Change::Began { at, .. }
            | Change::Moved { at, .. }
            | Change::Released { at, .. }
            | Change::Reached { at }
            | Change::Looked { at, .. } => *at,
        }
    }
}
