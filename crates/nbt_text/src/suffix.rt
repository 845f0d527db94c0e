//! What suffixes mean.

ghost use Rattle.std.specs.Prelude.{◌≡◌};
ghost use Rattle.nbt_text.specs.Suffixes.{unique_words, group_words, words_of};

use nbt_name::Kind;

/// What the suffix of a name says of its holder, or nothing where the list has none: Microsoft's list of NetBIOS suffixes, as
/// the documentation of Samba and of its nmblookup has it. RFC 1001 has no such list.
pub fn suffix_words(suffix: u8, kind: Kind) -> &'static str
    ensures { result.now ≡ words_of suffix kind }
{
    match kind {
        Kind::Unique => unique_words(suffix),
        Kind::Group => group_words(suffix),
    }
}

/// Of one machine's names.
fn unique_words(suffix: u8) -> &'static str
    ensures { result.now ≡ unique_words suffix }
{
    match suffix {
        0x00 => "workstation",
        0x03 => "messenger",
        0x06 => "remote access server",
        0x1B => "domain master browser",
        0x1D => "master browser",
        0x1F => "network DDE",
        0x20 => "file server",
        0x21 => "remote access client",
        _ => "",
    }
}

/// Of a group's.
fn group_words(suffix: u8) -> &'static str
    ensures { result.now ≡ group_words suffix }
{
    match suffix {
        0x00 => "domain or workgroup",
        0x1C => "domain controllers",
        0x1E => "browser service elections",
        _ => "",
    }
}
