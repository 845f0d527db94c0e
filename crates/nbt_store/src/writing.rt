//! Lines as they are written.

ghost use Rattle.std.specs.Prelude.{◌≡◌, ◌++◌, List, ℕ, [], ◌∷◌, IfOk, OnOk, codes, length, map};
ghost use Rattle.std.specs.Fmt.{decimal};
ghost use Rattle.std.specs.String.{string_bytes};
ghost use Rattle.nbt_text.specs.Lines.{one_line, words as words_spoken};
ghost use Rattle.nbt_text.specs.NameText.{SpellsName};
ghost use Rattle.nbt_text.specs.Number.{SpellsNumber};
ghost use Rattle.nbt_store.specs.declared.change.Change.TheVariants as changes;
ghost use Rattle.nbt_store.specs.declared.form.Form.TheVariants.{Three};
ghost use Rattle.nbt_store.specs.Boot.{AreMarks, SpellsBoot};
ghost use Rattle.nbt_store.specs.Checksum.{checksum as checksum_of, sealed};
ghost use Rattle.nbt_store.specs.Lines.{HaveLines, IsClosed, IsFile, IsHead, IsLine, SpellsHead};
ghost use Rattle.nbt_store.specs.Changes.{begun_all};
ghost use Rattle.nbt_store.specs.Records.{IsRecord, Says};
ghost use Rattle.nbt_store.specs.Words.{SpellsHost, kind_word, none_further};
ghost use Rattle.nbt_store.specs.Writing.{AddsWord, IsWord};

use crate::boot::Boot;
use crate::change::Change;
use crate::header::Header;
use crate::sealing::checksum;
use crate::word::NAME_SERVICE;
use nbt_lease::Lease;
use nbt_name::{Addr, Kind, Name};
use nbt_text::{end_line, write_address, write_hexadecimal, write_name};
use std::alloc::{AllocError, Global};

/// So many octets are reserved for a line: those of a name without a scope and more. A longer one takes more as it grows.
pub const LINE_ROOM: usize = 192;

/// Appends the line of a change behind one with this checksum, with its line feed. Returns its checksum. If out of memory, only a part
/// may be appended.
pub fn write_change(
    alloc: Global,
    sum: u32,
    change: &Change,
    out: &mut String,
) -> Result<u32, AllocError>
    ensures { IfOk result (λ next. (line : List ℕ) × IsRecord Three sum line change.now next × IsLine line × (string_bytes out.new ≡ string_bytes out.old ++ one_line line)) }
{
    let mut body = String::with_capacity(alloc, LINE_ROOM)?;
    write_words(change, &mut body)?;
    write_sealed(sum, &body, out)
}

/// Appends the line of a lease that began at this time, with its line feed. Returns its checksum.
fn write_row(
    alloc: Global,
    sum: u32,
    row: &(Name, Lease),
    at: u64,
    out: &mut String,
) -> Result<u32, AllocError>
    ensures { IfOk result (λ next. (line : List ℕ) × IsRecord Three sum line (changes.Began row.now.0 row.now.1 at) next × IsLine line × (string_bytes out.new ≡ string_bytes out.old ++ one_line line)) }
{
    let (name, lease) = row;
    let mut body = String::with_capacity(alloc, LINE_ROOM)?;
    write_began(name, *lease, at, &mut body)?;
    write_sealed(sum, &body, out)
}

/// Appends a file of these leases, each of which began: the line of the version, that of the header, and one for each
/// lease. Returns the checksum of the last line. If out of memory, only a part may be appended.
pub fn write_file(
    alloc: Global,
    header: &Header,
    rows: &[(Name, Lease)],
    out: &mut String,
) -> Result<u32, AllocError>
    requires { string_bytes out.old ≡ [] }
    ensures file { IfOk result (IsFile (string_bytes out.new) Three header.now (begun_all header.now.last rows.now)) }
    ensures counted { IfOk result (HaveLines (string_bytes out.new) Three (record { header = header.now; leases = length rows.now }) (begun_all header.now.last rows.now)) }
    ensures closed { OnOk result (IsClosed (string_bytes out.new)) }
{
    let mut sum = write_front(alloc, header, rows.len() as u64, out)?;
    for row in rows {
        sum = write_row(alloc, sum, row, header.last, out)?;
    }
    Ok(sum)
}

/// Appends the line of the version, and that of the header of a file of so many leases. Returns the checksum of that.
pub(crate) fn write_front(
    alloc: Global,
    header: &Header,
    leases: u64,
    out: &mut String,
) -> Result<u32, AllocError>
    requires { string_bytes out.old ≡ [] }
    ensures lines { IfOk result (HaveLines (string_bytes out.new) Three (record { header = header.now; leases = leases }) []) }
    ensures closed { OnOk result (IsClosed (string_bytes out.new)) }
{
    out.push_str("nbt leases, version 3")?;
    end_line(out)?;
    write_head(alloc, header, leases, out)
}

/// Appends the line of the header of a file of so many leases. Returns its checksum.
fn write_head(
    alloc: Global,
    header: &Header,
    leases: u64,
    out: &mut String,
) -> Result<u32, AllocError>
    ensures { IfOk result (λ next. (line : List ℕ) × IsHead line (record { header = header.now; leases = leases }) next × IsLine line × (string_bytes out.new ≡ string_bytes out.old ++ one_line line)) }
{
    let mut body = String::new(alloc);
    write_header(header, leases, &mut body)?;
    write_sealed(0, &body, out)
}

/// Appends the words of a line behind one with this checksum, their checksum and a line feed. Returns the checksum.
fn write_sealed(before: u32, body: &String, out: &mut String) -> Result<u32, AllocError>
    ensures line { OnOk result (string_bytes out.new ≡ string_bytes out.old ++ one_line (sealed before (string_bytes body.now))) }
    ensures sum { IfOk result (λ sum. sum ≡ checksum_of before (string_bytes body.now)) }
{
    let sum = checksum(before, body.as_bytes());
    out.push_str(body.as_str())?;
    out.push_str(" ")?;
    write_hexadecimal(sum.to_be_bytes().as_slice(), out)?;
    end_line(out)?;
    Ok(sum)
}

/// Puts the words of a change.
fn write_words(change: &Change, out: &mut String) -> Result<(), AllocError>
    requires { string_bytes out.old ≡ [] }
    ensures says { OnOk result (Says Three (words_spoken (string_bytes out.new)) change.now) }
    ensures line { OnOk result (IsLine (string_bytes out.new)) }
{
    match change {
        Change::Began { name, lease, at } => write_began(name, *lease, *at, out),
        Change::Moved {
            name,
            addr,
            end,
            at,
        } => write_moved(name, *addr, *end, *at, out),
        Change::Released { name, addr, at } => write_released(name, *addr, *at, out),
        Change::Reached { at } => write_reached(*at, out),
        Change::Looked { day, at } => write_looked(*day, *at, out),
    }
}

/// Puts `began NAME HOST FURTHER KIND END TIME`.
fn write_began(name: &Name, lease: Lease, at: u64, out: &mut String) -> Result<(), AllocError>
    requires { string_bytes out.old ≡ [] }
    ensures says { OnOk result (Says Three (words_spoken (string_bytes out.new)) (changes.Began name.now lease at)) }
    ensures line { OnOk result (IsLine (string_bytes out.new)) }
{
    out.push_str("began")?;
    add_name(name, out)?;
    add_host(lease.addr, out)?;
    add_no_further(out)?;
    add_kind(lease.kind, out)?;
    add_number(lease.end, out)?;
    add_number(at, out)?;
    Ok(())
}

/// Puts `moved NAME HOST END TIME`.
fn write_moved(
    name: &Name,
    addr: u32,
    end: u64,
    at: u64,
    out: &mut String,
) -> Result<(), AllocError>
    requires { string_bytes out.old ≡ [] }
    ensures says { OnOk result (Says Three (words_spoken (string_bytes out.new)) (changes.Moved name.now addr end at)) }
    ensures line { OnOk result (IsLine (string_bytes out.new)) }
{
    out.push_str("moved")?;
    add_name(name, out)?;
    add_host(addr, out)?;
    add_number(end, out)?;
    add_number(at, out)?;
    Ok(())
}

/// Puts `released NAME HOST TIME`.
fn write_released(name: &Name, addr: u32, at: u64, out: &mut String) -> Result<(), AllocError>
    requires { string_bytes out.old ≡ [] }
    ensures says { OnOk result (Says Three (words_spoken (string_bytes out.new)) (changes.Released name.now addr at)) }
    ensures line { OnOk result (IsLine (string_bytes out.new)) }
{
    out.push_str("released")?;
    add_name(name, out)?;
    add_host(addr, out)?;
    add_number(at, out)?;
    Ok(())
}

/// Puts `reached TIME`.
fn write_reached(at: u64, out: &mut String) -> Result<(), AllocError>
    requires { string_bytes out.old ≡ [] }
    ensures says { OnOk result (Says Three (words_spoken (string_bytes out.new)) (changes.Reached at)) }
    ensures line { OnOk result (IsLine (string_bytes out.new)) }
{
    out.push_str("reached")?;
    add_number(at, out)?;
    Ok(())
}

/// Puts `looked DAY TIME`.
fn write_looked(day: u64, at: u64, out: &mut String) -> Result<(), AllocError>
    requires { string_bytes out.old ≡ [] }
    ensures says { OnOk result (Says Three (words_spoken (string_bytes out.new)) (changes.Looked day at)) }
    ensures line { OnOk result (IsLine (string_bytes out.new)) }
{
    out.push_str("looked")?;
    add_number(day, out)?;
    add_number(at, out)?;
    Ok(())
}

/// Puts the words of a header, and of how many leases its file is.
fn write_header(header: &Header, leases: u64, out: &mut String) -> Result<(), AllocError>
    requires { string_bytes out.old ≡ [] }
    ensures says { OnOk result (SpellsHead (words_spoken (string_bytes out.new)) (record { header = header.now; leases = leases })) }
    ensures line { OnOk result (IsLine (string_bytes out.new)) }
{
    put_number(header.life, out)?;
    add_number(header.longest, out)?;
    add_number(header.rows, out)?;
    add_boot(&header.boot, out)?;
    add_number(header.ahead, out)?;
    add_number(header.start, out)?;
    add_number(header.last, out)?;
    add_number(header.day, out)?;
    add_number(leases, out)?;
    Ok(())
}

/// Puts a number.
fn put_number(number: u64, out: &mut String) -> Result<(), AllocError>
    requires { string_bytes out.old ≡ [] }
    ensures { OnOk result ((word : List ℕ) × SpellsNumber word number × (words_spoken (string_bytes out.new) ≡ word ∷ []) × IsLine (string_bytes out.new)) }
{
    push_number(number, out)?;
    Ok(())
}

/// Appends a number.
fn push_number(number: u64, out: &mut String) -> Result<(), AllocError>
    ensures { OnOk result (string_bytes out.new ≡ string_bytes out.old ++ decimal number) }
{
    let mut digits = itoa::Buffer::new();
    out.push_str(digits.format(number))
}

/// Appends a space and a name.
fn add_name(name: &Name, out: &mut String) -> Result<(), AllocError>
    ensures { OnOk result ((word : List ℕ) × SpellsName word name.now × AddsWord (string_bytes out.old) (string_bytes out.new) word) }
{
    let _sixteen = name.octets();
    out.push_str(" ")?;
    write_name(name, out)?;
    Ok(())
}

/// Appends a space and a host.
fn add_host(addr: u32, out: &mut String) -> Result<(), AllocError>
    ensures { OnOk result ((word : List ℕ) × SpellsHost word addr × AddsWord (string_bytes out.old) (string_bytes out.new) word) }
{
    let end = Addr {
        ip: addr,
        port: NAME_SERVICE,
    };
    out.push_str(" ")?;
    write_address(end, out)?;
    Ok(())
}

/// Appends a space, and that a lease has no further addresses.
fn add_no_further(out: &mut String) -> Result<(), AllocError>
    ensures { OnOk result (AddsWord (string_bytes out.old) (string_bytes out.new) none_further) }
{
    push_word("-", out)
}

/// Appends a space and a kind.
fn add_kind(kind: Kind, out: &mut String) -> Result<(), AllocError>
    ensures { OnOk result (AddsWord (string_bytes out.old) (string_bytes out.new) (kind_word kind)) }
{
    match kind {
        Kind::Unique => push_word("unique", out),
        Kind::Group => push_word("group", out),
    }
}

/// Appends a space and a word.
fn push_word(word: &str, out: &mut String) -> Result<(), AllocError>
    requires { IsWord word.now }
    ensures { OnOk result (AddsWord (string_bytes out.old) (string_bytes out.new) word.now) }
{
    out.push_str(" ")?;
    out.push_str(word)?;
    Ok(())
}

/// Appends a space and a number.
fn add_number(number: u64, out: &mut String) -> Result<(), AllocError>
    ensures { OnOk result ((word : List ℕ) × SpellsNumber word number × AddsWord (string_bytes out.old) (string_bytes out.new) word) }
{
    out.push_str(" ")?;
    push_number(number, out)?;
    Ok(())
}

/// Appends a space and a boot's id.
fn add_boot(boot: &Boot, out: &mut String) -> Result<(), AllocError>
    ensures { OnOk result ((word : List ℕ) × SpellsBoot word boot.now × AddsWord (string_bytes out.old) (string_bytes out.new) word) }
{
    out.push_str(" ")?;
    push_marks(boot.octets(), out)?;
    Ok(())
}

/// Appends characters that are no spaces.
fn push_marks(octets: &[u8], out: &mut String) -> Result<(), AllocError>
    requires { AreMarks octets.now }
    ensures { OnOk result (string_bytes out.new ≡ string_bytes out.old ++ octets.now) }
{
    for octet in octets {
        out.push(char::from(*octet))?;
    }
    Ok(())
}
