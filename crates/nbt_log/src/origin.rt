//! When a name server began.

/// When a name server began to serve, and until when it is silent.
#[derive(Clone, Copy, Debug, PartialEq, Eq)]
pub struct Origin {
    /// The second since 1970 in which it began to serve.
    pub since: u64,
    /// The moment up to which it is silent, in milliseconds; one before it began where it isn't.
    pub speaks: u64,
}
