//! What a host is to do.

use nbt_client::Want;
use nbt_lease::Config;
use nbt_name::Addr;

/// What a host is to do.
#[derive(Debug, Drop)]
pub struct HostArguments {
    /// Its own address and port. The address is that of its entries.
    pub bind: Addr,
    /// Those of its name server.
    pub server: Addr,
    /// Further ones of its name server's table, which are asked in turn where the one before is silent.
    pub others: Vec<Addr>,
    /// The limits.
    pub config: Config,
    /// The names that it requests, each once, 14 at most: one more is never requested.
    pub wants: Vec<Want>,
    /// After how many milliseconds it ends; `None` where it has no end.
    pub time: Option<u64>,
    /// Whether it prints renewals too.
    pub log: bool,
}
