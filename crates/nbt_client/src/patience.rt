//! How long a lookup waits.

ghost use Rattle.std.specs.Prelude.{◌≡◌, ◌≤◌};
ghost use Rattle.nbt_node.specs.Transaction.{retry_timeout};
ghost use Rattle.nbt_client.specs.Asking.{patience_of, tries_most};

/// The most sendings of a request (RFC 1002 section 6: UCAST_REQ_RETRY_COUNT).
pub const TRIES_MOST: u32 = 3;

/// The milliseconds from one sending to the next (RFC 1002 section 6: UCAST_REQ_RETRY_TIMEOUT).
pub const TRY: u32 = 5_000;

/// The milliseconds of a lookup that sends its request `tries` times at most, one every 5,000 ms, and waits `last` milliseconds
/// after the last (our profile).
pub fn patience_of(tries: u32, last: u32) -> u32
    requires tries_at_least { 1 ≤ tries }
    requires tries_at_most { tries ≤ tries_most }
    requires short { last ≤ retry_timeout }
    ensures { result ≡ patience_of tries last }
{
    (tries - 1) * TRY + last
}
