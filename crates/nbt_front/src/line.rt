//! A line of the file of fixed names.

ghost use Rattle.std.specs.Prelude.{◌≡◌, ◌↔◌, ℕ, List, [], ◌∷◌, IsTrue, IfOk, IfErr, IfSome, IfNone, OnOk};
ghost use Rattle.nbt_text.specs.Texts.{texts};
ghost use Rattle.nbt_text.specs.ScopedNames.{SpellsScopedName, MisspellsScopedName};
ghost use Rattle.nbt_name.specs.declared.addr.Kind.{Kind as KindValue};
ghost use Rattle.nbt_front.specs.Files.{IsOfOne, IsRefusedBy, LineFails, Misspells, SpellsAddr, SpellsFixedName, SpellsKind, SpellsLine, Takes, said};

use crate::fault::{LineFault, Refused};
use crate::names::FixedNames;
use crate::network::ip_in;
use nbt_name::{Kind, Name};
use nbt_show::kind_word;
use nbt_text::{Case, fields_said, read_scoped_name};
use std::alloc::Global;

/// The first address after 0.0.0.0/8, which is of no other machine (RFC 1122 section 3.2.1.3).
const MACHINES_FIRST: u32 = 0x0100_0000;

/// The first multicast address, 224.0.0.0, and the first one after them (RFC 1112 section 4).
const MULTICAST_FIRST: u32 = 0xE000_0000;

const MULTICAST_END: u32 = 0xF000_0000;

/// The address of all machines of a network (RFC 919 section 7).
const ALL: u32 = 0xFFFF_FFFF;

/// What a line says: a name, its kind, and an address that has it.
#[derive(Debug, Drop)]
pub struct FixedLine {
    /// The name.
    pub name: Name,
    /// Its kind.
    pub kind: Kind,
    /// The 32-bit address.
    pub addr: u32,
}

/// Takes a line of the file of fixed names, as [`read_fixed`](crate::read_fixed) does. Refused with `Line` where it can't be taken, and
/// with `Memory` if out of memory.
pub fn take_line(alloc: Global, text: &[u8], names: &mut FixedNames) -> Result<(), Refused>
    ensures ok { OnOk result (Takes names.old text.now names.new) }
    ensures err { IfErr result (IsRefusedBy (LineFails names.old text.now)) }
{
    let Some(words) = fields_said(alloc, said(text))? else {
        return Ok(());
    };
    match line_of(words.as_slice()) {
        Ok(line) => names.add(line),
        Err(fault) => Err(Refused::Line(fault)),
    }
}

/// What a line says: a carriage return at its end is a part of what ends it.
pub(crate) fn said(text: &[u8]) -> &[u8]
    ensures { result.now ≡ said text.now }
{
    text.strip_suffix(b"\r").unwrap_or(text)
}

/// What the words of a line say.
fn line_of(words: &[&[u8]]) -> Result<FixedLine, LineFault>
    ensures ok { IfOk result (SpellsLine (texts words.now)) }
    ensures err { IfErr result (Misspells (texts words.now)) }
{
    match words {
        [name, kind, addr] => line_in(name, kind, addr),
        _ => Err(LineFault::Words),
    }
}

/// What three words say.
fn line_in(name: &[u8], kind: &[u8], addr: &[u8]) -> Result<FixedLine, LineFault>
    ensures ok { IfOk result (SpellsLine (name.now ∷ kind.now ∷ addr.now ∷ [])) }
    ensures err { IfErr result (Misspells (name.now ∷ kind.now ∷ addr.now ∷ [])) }
{
    let name = match read_scoped_name(Case::Folded, name, b"") {
        Ok(name) => name,
        Err(fault) => return Err(LineFault::Name(fault)),
    };
    if name.is_star() {
        return Err(LineFault::Star);
    }
    let Some(kind) = kind_in(kind) else {
        return Err(LineFault::Kind);
    };
    let Some(addr) = ip_in(addr) else {
        return Err(LineFault::Address);
    };
    if !is_of_one(addr) {
        return Err(LineFault::NotOne);
    }
    Ok(FixedLine { name, kind, addr })
}

/// The kind that a word says, `unique` or `group`.
pub fn kind_in(word: &[u8]) -> Option<Kind>
    ensures found { IfSome result (SpellsKind word.now) }
    ensures none { IfNone result ((kind : KindValue) → ¬ SpellsKind word.now kind) }
{
    if word == kind_word(Kind::Unique).as_bytes() {
        return Some(Kind::Unique);
    }
    if word == kind_word(Kind::Group).as_bytes() {
        return Some(Kind::Group);
    }
    None
}

/// Whether an address is of one machine.
fn is_of_one(ip: u32) -> bool
    ensures { IsTrue result ↔ IsOfOne ip }
{
    let is_multicast = MULTICAST_FIRST <= ip && ip < MULTICAST_END;
    MACHINES_FIRST <= ip && !is_multicast && ip != ALL
}
