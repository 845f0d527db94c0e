//! The numbers of names in octets (RFC 1001 section 14.1, RFC 1002 section 4.1).

/// The length octet of the first label, which is 32 letters (RFC 1001 section 14.1).
pub const LETTERS: u8 = 0x20;

/// How many letters the first label has, two for each of the sixteen octets (RFC 1001 section 14.1).
pub const LETTERS_COUNT: usize = 32;

/// How many octets the first label has with its length octet.
pub const LETTERS_WHOLE: usize = 33;

/// The most octets of a later label (RFC 1002 section 4.1).
pub const LABEL_MOST: usize = 63;

/// A pointer's first octet is at least this one (RFC 1002 section 4.1).
pub const POINTER: u8 = 0xC0;

/// The most octets of a wire form (RFC 1002 section 4.1, RFC 883).
pub const WIRE_MOST: usize = 255;

/// How many octets a wire form has beside its scope: the first label and the closing zero.
pub const WIRE_WITHOUT_SCOPE: usize = 34;

/// The most octets of a scope: with the first label and the closing zero, the wire form has 255.
pub const SCOPE_MOST: usize = 221;
