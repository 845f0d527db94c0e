//! Limits for servers and hosts that run until stopped.

/// How many turns in a row may fail: at the last of them it gives up (our profile).
pub const MOST_FAILURES: u64 = 100;

/// How many turns it takes where it has no end: more than any system lives to see (our profile).
pub const FOREVER: u64 = 1 << 61;
