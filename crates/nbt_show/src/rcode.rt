//! RCODEs in words.

ghost use Rattle.std.specs.Prelude.{◌≡◌};
ghost use Rattle.nbt_show.specs.Rcodes.{rcode_words};

/// What the RCODE of a negative response says: in the words of the table of RFC 1002 sections 4.2.6, 4.2.11 and 4.2.14, shortened;
/// `unknown` for one that no table there has.
pub fn rcode_words(rcode: u8) -> &'static str
    ensures { result.now ≡ rcode_words rcode }
{
    match rcode {
        1 => "malformed request",
        2 => "server failure",
        3 => "no such name",
        4 => "unsupported request",
        5 => "refused",
        6 => "held by another",
        7 => "in conflict",
        _ => "unknown",
    }
}
