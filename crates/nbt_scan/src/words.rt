//! Reads networks, ranges and addresses.

ghost use Rattle.std.specs.Prelude.{◌≡◌, ◌+◌, ◌*◌, ◌/◌, ◌^◌, ◌<◌, ◌≤◌, ℕ, IfSome, IfNone, MatchResult, MatchOption};
ghost use Rattle.nbt_text.specs.Number.{SpellsWithin};
ghost use Rattle.nbt_scan.specs.declared.span.Span.{Span as Run};
ghost use Rattle.nbt_scan.specs.Words.{SpellsIp, SpellsNetwork, SpellsLast, SpellsRange, SpellsSpan, Has, HasNone, before, behind, addresses_of, margin};

use crate::span::Span;
use nbt_text::number_within;
use std::net::Ipv4Addr;

/// What is wrong with a text that is to be a network, a range or an address.
#[derive(Clone, Copy)]
pub enum SpanFault {
    /// A part of it is no address.
    Address,
    /// A network of too few or too many bits.
    Bits,
    /// A range whose last address is before its first.
    Backwards,
}

/// The fewest bits of a network, which has 65,536 addresses then; and the most, of one address (our profile).
const BITS_LEAST: u64 = 16;

const BITS_MOST: u64 = 32;

/// From so many bits on, a network has no address of its own, and none for broadcasts (RFC 3021).
const BITS_OF_HOSTS: u64 = 31;

/// Reads a network as `192.0.2.0/24`, a range as `192.0.2.10-192.0.2.20` or `192.0.2.10-20`, or an address, in decimal without leading zeros.
/// A network has 16 to 32 bits, and of less than 31 without its first and its last address. Refused: `Address` where a part isn't an address,
/// or a number up to 255; `Bits`; `Backwards`.
pub fn span_of(text: &str) -> Result<Span, SpanFault>
    ensures { MatchResult result (SpellsSpan text.now) (λ _. (span : Run) → ¬ SpellsSpan text.now span) }
{
    match split_at('/', text) {
        Some(parts) => network_of(parts.0, parts.1),
        None => range_or_address(text),
    }
}

/// Reads a range or an address.
fn range_or_address(text: &str) -> Result<Span, SpanFault>
    requires { HasNone 0x2F text.now }
    ensures { MatchResult result (SpellsSpan text.now) (λ _. (span : Run) → ¬ SpellsSpan text.now span) }
{
    match split_at('-', text) {
        Some(parts) => range_of(parts.0, parts.1),
        None => address_alone(text),
    }
}

/// Reads an address.
fn address_alone(text: &str) -> Result<Span, SpanFault>
    ensures { MatchResult result (λ span. SpellsIp text.now span.first × (span.last ≡ span.first)) (λ _. (ip : ℕ) → ¬ SpellsIp text.now ip) }
{
    match ip_of(text) {
        Some(ip) => Ok(Span {
            first: ip,
            last: ip,
        }),
        None => Err(SpanFault::Address),
    }
}

/// Reads a range: its first address, and its last or that one's last number.
fn range_of(front: &str, back: &str) -> Result<Span, SpanFault>
    ensures { MatchResult result (SpellsRange front.now back.now) (λ _. (span : Run) → ¬ SpellsRange front.now back.now span) }
{
    let Some(first) = ip_of(front) else {
        return Err(SpanFault::Address);
    };
    let Some(last) = last_of(first, back) else {
        return Err(SpanFault::Address);
    };
    match ordered(first, last) {
        Some(span) => Ok(span),
        None => Err(SpanFault::Backwards),
    }
}

/// The run from one address to another; `None` where that is before it.
fn ordered(first: u32, last: u32) -> Option<Span>
    ensures found { IfSome result (λ span. (span.first ≡ first) × (span.last ≡ last)) }
    ensures none { IfNone result (last < first) }
{
    if last < first {
        return None;
    }
    Some(Span { first, last })
}

/// Reads the last address of a range that begins with this one.
fn last_of(first: u32, text: &str) -> Option<u32>
    ensures found { IfSome result (SpellsLast first text.now) }
    ensures none { IfNone result ((last : ℕ) → ¬ SpellsLast first text.now last) }
{
    match split_at('.', text) {
        Some(_) => ip_of(text),
        None => last_by(first, text),
    }
}

/// The address beside another whose last number this is.
fn last_by(first: u32, text: &str) -> Option<u32>
    ensures found { IfSome result (λ last. (number : ℕ) × SpellsWithin 0 255 text.now number × (last ≡ first / 256 * 256 + number)) }
    ensures none { IfNone result ((number : ℕ) → ¬ SpellsWithin 0 255 text.now number) }
{
    match number_within(text, 0, 255) {
        Some(number) => Some(first / 256 * 256 + number as u32),
        None => None,
    }
}

/// Reads a network: one of its addresses, and how many bits they share.
fn network_of(front: &str, digits: &str) -> Result<Span, SpanFault>
    ensures { MatchResult result (SpellsNetwork front.now digits.now) (λ _. (span : Run) → ¬ SpellsNetwork front.now digits.now span) }
{
    let Some(ip) = ip_of(front) else {
        return Err(SpanFault::Address);
    };
    let Some(bits) = number_within(digits, BITS_LEAST, BITS_MOST) else {
        return Err(SpanFault::Bits);
    };
    Ok(span_with(ip, bits))
}

/// The addresses of hosts in the network of so many bits that has this one.
fn span_with(ip: u32, bits: u64) -> Span
    requires { (16 ≤ bits) × (bits ≤ 32) }
    ensures first { result.first ≡ ip / addresses_of bits * addresses_of bits + margin bits }
    ensures last { result.last + margin bits + 1 ≡ ip / addresses_of bits * addresses_of bits + addresses_of bits }
{
    let size = size_of(bits);
    let base = base_of(ip, bits, size);
    if bits < BITS_OF_HOSTS {
        return Span {
            first: (base + 1) as u32,
            last: (base + size - 2) as u32,
        };
    }
    Span {
        first: base as u32,
        last: (base + size - 1) as u32,
    }
}

/// The first address of a network of so many bits, and so of this size.
fn base_of(ip: u32, bits: u64, size: u64) -> u64
    requires bits { (16 ≤ bits) × (bits ≤ 32) }
    requires size { size ≡ addresses_of bits }
    requires some { 1 ≤ size }
    ensures value { result ≡ ip / size * size }
    ensures within { result + size ≤ 2 ^ 32 }
{
    ip as u64 / size * size
}

/// How many addresses a network of so many bits has.
fn size_of(bits: u64) -> u64
    requires { (16 ≤ bits) × (bits ≤ 32) }
    ensures value { result ≡ addresses_of bits }
    ensures some { 1 ≤ result }
    ensures most { result ≤ 65536 }
    ensures four { bits < 31 → 4 ≤ result }
{
    2u64.pow((BITS_MOST - bits) as u32)
}

/// Reads an address in decimal, without leading zeros.
fn ip_of(text: &str) -> Option<u32>
    ensures found { IfSome result (SpellsIp text.now) }
    ensures none { IfNone result ((ip : ℕ) → ¬ SpellsIp text.now ip) }
{
    match Ipv4Addr::parse_ascii(text.as_bytes()) {
        Ok(ip) => Some(ip.to_bits()),
        Err(_) => None,
    }
}

/// What stands before the first such character, and behind it; `None` where the text has none.
fn split_at(mark: char, text: &str) -> Option<(&str, &str)>
    requires { mark < 128 }
    ensures { MatchOption result (HasNone mark text.now) (λ parts. Has mark text.now × (parts.0.now ≡ before mark text.now) × (parts.1.now ≡ behind mark text.now)) }
{
    text.split_once(mark)
}
