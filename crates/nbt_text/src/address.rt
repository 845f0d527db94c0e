//! An address as text: `A.B.C.D:PORT`, and for people without the port too (our profile).

ghost use Rattle.std.specs.Prelude.{◌≡◌, ℕ, ◌+◌, ◌*◌, ◌<◌, ◌≤◌, ◌^◌, ◌⊎◌, ◌++◌, ◌∷◌, ◌↔◌, List, IfSome, IfOk, IsSomeAnd, OnOk, IsTrue, Some, length, slice_index};
ghost use Rattle.std.specs.Fmt.{decimal};
ghost use Rattle.std.specs.String.{string_bytes};
ghost use Rattle.nbt_name.specs.declared.addr.Addr.{Addr as End};
ghost use Rattle.nbt_text.specs.Address.{SpellsAddress, SpellsUsual, SpellsEnd, SpellsSource, address_text, dotted, entry_address};

use crate::pieces::split_at_first;
use nbt_name::Addr;
use std::alloc::{AllocError, Global};

/// Reads `A.B.C.D:PORT`, where A to D are 0 to 255 and PORT is 0 to 65,535, in decimal without a leading zero.
pub fn parse_address(text: &str) -> Option<Addr>
    ensures { (address : Addr) → (result ≡ Some address) ↔ SpellsAddress text.now address }
{
    let (first, rest) = octet_before('.', text)?;
    let (second, rest) = octet_before('.', rest)?;
    let (third, rest) = octet_before('.', rest)?;
    let (fourth, rest) = octet_before(':', rest)?;
    let port = bare_number(rest)?;
    Some(Addr {
        ip: joined(first, second, third, fourth),
        port,
    })
}

/// Reads `A.B.C.D:PORT`, or `A.B.C.D`, which is at port 137 (RFC 1002 section 4.2.1): in decimal without leading zeros.
/// `None` where it is neither.
pub fn read_address(alloc: Global, text: &str) -> Result<Option<Addr>, AllocError>
    ensures { IfOk result (λ found. (address : End) → (found ≡ Some address) ↔ SpellsEnd text.now address) }
{
    read_usual(alloc, text, ":137")
}

/// Reads `A.B.C.D:PORT`, or `A.B.C.D`, which is at port 0: the address from which requests are sent, for which the system chooses the port.
/// `None` where it is neither.
pub fn read_source(alloc: Global, text: &str) -> Result<Option<Addr>, AllocError>
    ensures { IfOk result (λ found. (address : End) → (found ≡ Some address) ↔ SpellsSource text.now address) }
{
    read_usual(alloc, text, ":0")
}

/// Reads `A.B.C.D:PORT`, or `A.B.C.D`, behind which the usual port then stands, after its colon.
fn read_usual(alloc: Global, text: &str, usual: &str) -> Result<Option<Addr>, AllocError>
    ensures { IfOk result (λ found. (address : End) → (found ≡ Some address) ↔ SpellsUsual usual.now text.now address) }
{
    let (_, port) = split_at_first(b':', text.as_bytes());
    match port {
        Some(_) => Ok(parse_address(text)),
        None => {
            let whole = format!(in alloc; "{text}{usual}")?;
            Ok(parse_address(whole.as_str()))
        }
    }
}

/// Appends `A.B.C.D:PORT`.
pub fn write_address(address: Addr, out: &mut String) -> Result<(), AllocError>
    ensures { OnOk result (string_bytes out.new ≡ string_bytes out.old ++ address_text address) }
{
    write_dotted(address.ip, out)?;
    let port = address.port;
    write!(out, ":{port}")
}

/// Appends a 32-bit address as `192.0.2.7`.
pub fn write_dotted(ip: u32, out: &mut String) -> Result<(), AllocError>
    ensures { OnOk result (string_bytes out.new ≡ string_bytes out.old ++ dotted ip) }
{
    let first = ip / 0x0100_0000;
    let second = ip / 0x0001_0000 % 256;
    let third = ip / 0x0100 % 256;
    let fourth = ip % 256;
    write!(out, "{first}.{second}.{third}.{fourth}")
}

/// Appends the address of an entry as `192.0.2.7`: the four octets after its two of flags (RFC 1002 section 4.2.13).
pub fn write_entry_address(entry: &[u8; 6], out: &mut String) -> Result<(), AllocError>
    ensures { OnOk result (string_bytes out.new ≡ string_bytes out.old ++ entry_address entry.now) }
{
    let [_, _, a, b, c, d] = *entry;
    write!(out, "{a}.{b}.{c}.{d}")
}

/// The octets as one number, the first one highest.
fn joined(first: u8, second: u8, third: u8, fourth: u8) -> u32
    ensures { result ≡ ((first * 256 + second) * 256 + third) * 256 + fourth }
{
    let high = u32::from(first) * 256 + u32::from(second);
    let low = u32::from(third) * 256 + u32::from(fourth);
    high * 65536 + low
}

/// The octet that `text` begins with, and what follows the first `mark`.
fn octet_before(mark: char, text: &str) -> Option<(u8, &str)>
    requires { (mark ≡ 46) ⊎ (mark ≡ 58) }
    ensures bound { IfSome result (λ r. r.0 < 256) }
    ensures read { IfSome result (λ r. text.now ≡ decimal r.0 ++ (mark ∷ r.1.now)) }
    ensures found { (n : ℕ) (rest : List ℕ) → n < 256 → text.now ≡ decimal n ++ (mark ∷ rest)
        → IsSomeAnd result (λ r. (r.0 ≡ n) × (r.1.now ≡ rest)) }
{
    let (digits, rest) = text.split_once(mark)?;
    let octet = u8::try_from(bare_number(digits)?).ok()?;
    Some((octet, rest))
}

/// Reads a number with no sign and no leading zero.
fn bare_number(text: &str) -> Option<u16>
    ensures read { IfSome result (λ n. (n < 2 ^ 16) × (text.now ≡ decimal n)) }
    ensures found { (n : ℕ) → n < 2 ^ 16 → text.now ≡ decimal n → result ≡ Some n }
{
    if can_begin_decimal(text.as_bytes()) {
        text.parse::<u16>().ok()
    } else {
        None
    }
}

/// Whether the text begins with a digit, which is no zero unless it is alone.
fn can_begin_decimal(text: &[u8]) -> bool
    ensures { IsTrue result ↔ (((length text.now ≡ 1) × (slice_index text.now 0 ≡ 48))
        ⊎ ((0 < length text.now) × (49 ≤ slice_index text.now 0) × (slice_index text.now 0 ≤ 57))) }
{
    match text {
        [] => false,
        [b'0'] => true,
        [first, ..] => b'1' <= *first && *first <= b'9',
    }
}
