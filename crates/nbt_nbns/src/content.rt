//! What a kept file has.

ghost use Rattle.std.specs.Prelude.{◌≡◌};
ghost use Rattle.nbt_nbns.specs.Contents.{head_of};

use nbt_log::{HOSTS_HEAD, LIST_HEAD, STATS_HEAD};

/// What a kept file has.
#[derive(Clone, Copy, Debug, PartialEq, Eq)]
pub enum Content {
    /// The list of live leases.
    Leases,
    /// The hosts, for a resolver.
    Hosts,
    /// The statistics, for Prometheus.
    Stats,
}

impl Content {
    /// The first line of such a file, with its end.
    pub fn head(self) -> &'static str
        ensures { result.now ≡ head_of self }
    {
        match self {
            Content::Leases => LIST_HEAD,
            Content::Hosts => HOSTS_HEAD,
            Content::Stats => STATS_HEAD,
        }
    }
}
