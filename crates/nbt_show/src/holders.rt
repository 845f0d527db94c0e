//! Who holds a name.

ghost use Rattle.std.specs.Prelude.{◌≡◌, ◌++◌, [], ◌∷◌, ℕ, List, OnOk};
ghost use Rattle.std.specs.String.{string_bytes};
ghost use Rattle.nbt_packet.specs.Message.{kind_in};
ghost use Rattle.nbt_show.specs.Holders.{kind_word, entry_line, IsEntryLine, cut_text, not_found_text};
ghost use Rattle.nbt_show.specs.Rows.{PrintsRows};

use crate::rcode::rcode_words;
use nbt_name::Kind;
use nbt_text::write_entry_address;
use std::alloc::AllocError;

/// G in the first octet of NB_FLAGS and of NAME_FLAGS (RFC 1002 sections 4.2.2 and 4.2.18).
const GROUP: u8 = 0x80;

/// Appends a line for each entry, and one more where the reply was cut.
pub fn write_holders(entries: &[u8], cut: bool, out: &mut String) -> Result<(), AllocError>
    ensures { OnOk result ((lines : List ℕ) × PrintsRows 6 IsEntryLine entries.now lines
        × (string_bytes out.new ≡ string_bytes out.old ++ (lines ++ cut_text cut))) }
{
    write_entries(entries, out)?;
    if cut { out.push_str("cut\n") } else { Ok(()) }
}

/// Appends a line for each entry.
fn write_entries(entries: &[u8], out: &mut String) -> Result<(), AllocError>
    ensures { OnOk result ((lines : List ℕ) × PrintsRows 6 IsEntryLine entries.now lines × (string_bytes out.new ≡ string_bytes out.old ++ lines)) }
{
    let mut rest = entries;
    'entries: while let Some((entry, others)) = rest.split_first_chunk::<6>() {
        write_entry(entry, out)?;
        rest = others;
    }
    Ok(())
}

/// Appends the line of an entry.
fn write_entry(entry: &[u8; 6], out: &mut String) -> Result<(), AllocError>
    ensures { OnOk result (string_bytes out.new ≡ string_bytes out.old ++ entry_line entry.now) }
{
    write_entry_address(entry, out)?;
    let word = kind_word(kind_of(entry[0]));
    writeln!(out, " {word}")
}

/// Who may hold a name with these flags, by G in the first octet of NB_FLAGS or of NAME_FLAGS (RFC 1002 sections 4.2.2 and
/// 4.2.18).
pub fn kind_of(flags: u8) -> Kind
    ensures { result ≡ kind_in (flags ∷ []) }
{
    if flags < GROUP {
        Kind::Unique
    } else {
        Kind::Group
    }
}

/// The word for who may hold a name, `unique` or `group`.
pub fn kind_word(kind: Kind) -> &'static str
    ensures { result.now ≡ kind_word kind }
{
    match kind {
        Kind::Unique => "unique",
        Kind::Group => "group",
    }
}

/// Appends why there are no entries.
pub fn write_not_found(rcode: u8, out: &mut String) -> Result<(), AllocError>
    ensures { OnOk result (string_bytes out.new ≡ string_bytes out.old ++ not_found_text rcode) }
{
    let words = rcode_words(rcode);
    writeln!(out, "not found: {words} ({rcode})")
}
