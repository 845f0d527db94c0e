//! Whether a name may have pointers.

/// How a name is spelled (RFC 1002 section 4.1).
#[derive(Clone, Copy, Debug, PartialEq, Eq)]
pub enum Form {
    /// Label by label: the wire form itself.
    Plain,
    /// Pointers to smaller places may stand for the labels there.
    Compressed,
}
