//! How the devices of a name server are.

use nbt_port::OwnReplies;

/// How the devices of a name server are, since it began to serve.
#[derive(Clone, Copy, Debug, PartialEq, Eq)]
pub struct Health {
    /// How many calls of its port have failed.
    pub failures: u64,
    /// What its port replied by itself.
    pub own: OwnReplies,
    /// How many requests were barred, since their clients had their shares of changes.
    pub barred: u64,
    /// How often it made its changes durable.
    pub syncs: u64,
    /// How long that took, taken together, in milliseconds.
    pub sync_milliseconds: u64,
}
