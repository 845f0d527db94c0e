//! How the hosts that replied are printed.

/// The lines of a host.
#[derive(Clone, Copy)]
pub enum Form {
    /// One line of columns.
    Plain,
    /// That, and a line below it for each of its names.
    Long,
    /// A line of /etc/hosts.
    Hosts,
    /// An object of JSON.
    Json,
}

/// How the hosts that replied are printed.
#[derive(Clone, Copy)]
pub struct Layout {
    /// The lines of each.
    pub form: Form,
    /// Whether they are printed at the end, by address; else each at once.
    pub sorted: bool,
}
