//! What a name server is told.

use nbt_front::Front;
use nbt_lease::Config;
use nbt_port::Bind;

/// What a name server is to do.
#[derive(Drop)]
pub struct NbnsArguments {
    /// Its own addresses and ports.
    pub bind: Bind,
    /// The limits.
    pub config: Config,
    /// After how many milliseconds it ends; `None` where it has no end.
    pub time: Option<u64>,
    /// Whether it logs what it makes of each datagram.
    pub log: bool,
    /// Whether the log has the broadcasts of B nodes too.
    pub broadcasts: bool,
    /// How many lines of a kind the log has in a second at most; 0 for any number.
    pub log_rate: u8,
    /// The path of the file that has the list of its live leases, if there is to be one.
    pub leases: Option<String>,
    /// The path of the file that has its hosts, if there is to be one.
    pub hosts: Option<String>,
    /// The path of the file that has its statistics, if there is to be one.
    pub stats: Option<String>,
    /// Whether registrations that Samba's programs send are left as they are.
    pub strict: bool,
    /// How many live leases a client may have.
    pub rows_per_client: u32,
    /// How many changes a client may make in a second where there is a state; 0 for any number.
    pub changes_per_client: u32,
    /// Who may register, and the names that are fixed.
    pub front: Front,
}

/// Where a server keeps its leases over a restart.
#[derive(Debug, Drop)]
pub struct StateFolder {
    /// The path of a folder that is there.
    pub path: String,
    /// Whether it is silent after another boot of its machine.
    pub silent_after_boot: bool,
}

/// What a name server is to do, and where it keeps its leases, if anywhere.
#[derive(Drop)]
pub struct ServerArguments {
    /// What it is to do.
    pub nbns: NbnsArguments,
    /// Where it keeps its leases; `None` where it keeps them in memory only.
    pub state: Option<StateFolder>,
}
