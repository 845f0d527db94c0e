//! What a configuration can have wrong, why a name isn't granted, and why kept leases can't be restored.

ghost use Rattle.std.specs.Prelude.{◌≡◌};
ghost use Rattle.nbt_lease.specs.Numbers.{config_fault_number, grant_fault_number, restore_fault_number};

use thiserror::Error;

/// Which limit a configuration doesn't keep (our profile's limits, numbers and order).
#[derive(Clone, Copy, Debug, PartialEq, Eq, Error)]
pub enum ConfigFault {
    /// 1: the greatest life of a datagram isn't 1 to 60,000 milliseconds.
    #[error("Life")]
    Life,
    /// 2: the longest lease isn't 1 to 1,000,000 seconds.
    #[error("Longest")]
    Longest,
    /// 3: the live leases of a server aren't 1 to 4,096, or of a large one 1 to 1,048,576.
    #[error("Rows")]
    Rows,
}

impl ConfigFault {
    /// The number of the fault, 1 to 3 (our profile).
    pub fn number(self) -> u8
        ensures { result ≡ config_fault_number self }
    {
        match self {
            ConfigFault::Life => 1,
            ConfigFault::Longest => 2,
            ConfigFault::Rows => 3,
        }
    }
}

/// Why a name isn't granted (our profile's numbers). The live leases are then as before. `Active` is checked first, then
/// `GroupFull`, `TableFull` and `OutOfMemory`.
#[derive(Clone, Copy, Debug, PartialEq, Eq, Error)]
pub enum GrantFault {
    /// 1: the name has live leases that conflict with this one.
    #[error("Active")]
    Active,
    /// 2: the table is full of live leases.
    #[error("TableFull")]
    TableFull,
    /// 3: the group has 1,000 live members.
    #[error("GroupFull")]
    GroupFull,
    /// 4: out of memory.
    #[error("OutOfMemory")]
    OutOfMemory,
}

impl GrantFault {
    /// The number of the fault, 1 to 4 (our profile).
    pub fn number(self) -> u8
        ensures { result ≡ grant_fault_number self }
    {
        match self {
            GrantFault::Active => 1,
            GrantFault::TableFull => 2,
            GrantFault::GroupFull => 3,
            GrantFault::OutOfMemory => 4,
        }
    }
}

/// Why no table is made of rows that were kept (our profile's numbers and order).
#[derive(Clone, Copy, Debug, PartialEq, Eq, Error)]
pub enum RestoreFault {
    /// 1: more of them live than the table may hold.
    #[error("TableFull")]
    TableFull,
    /// 2: a name's live leases are none that a table can have: two of one address, one that is unique beside another, more
    /// than 1,000, or one that expires later than the longest lease that is granted now.
    #[error("Unsound")]
    Unsound,
    /// 3: out of memory.
    #[error("OutOfMemory")]
    OutOfMemory,
}

impl RestoreFault {
    /// The number of the fault, 1 to 3 (our profile).
    pub fn number(self) -> u8
        ensures { result ≡ restore_fault_number self }
    {
        match self {
            RestoreFault::TableFull => 1,
            RestoreFault::Unsound => 2,
            RestoreFault::OutOfMemory => 3,
        }
    }
}
