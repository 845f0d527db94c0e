//! Networks of senders.

ghost use Rattle.std.specs.Prelude.{◌≡◌, ◌↔◌, ℕ, ◌≤◌, List, IsTrue, IfSome, IfNone, Any};
ghost use Rattle.nbt_text.specs.Number.{SpellsNumber};
ghost use Rattle.nbt_front.specs.Networks.{IsIn, NetworkValue, SpellsBits, SpellsIp, SpellsNetwork};
ghost use Rattle.nbt_front.specs.Inner.Tails.{tail_of};

use nbt_text::{parse_number, split_at_first};
use std::marker::Model;
use std::net::Ipv4Addr;

/// How many bits an address has.
const BITS: u32 = 32;

/// What stands between a network's address and how many bits are shared.
const SLASH: u8 = b'/';

/// A network: the addresses whose first bits are those of one of them.
#[derive(Clone, Copy, Debug, PartialEq, Eq)]
pub struct Network {
    ip: u32,
    bits: u32,
}

impl Model for Network {
    ghost use Rattle.std.specs.Prelude.{◌≤◌};
    ghost use Rattle.nbt_front.specs.Networks.{NetworkValue};

    ghost Value = { NetworkValue };

    ghost view = { λ n. record { ip = n.ip; bits = n.bits } };

    ghost invariant = { λ n. n.bits ≤ 32 };

    ghost inverse = { λ v. record { ip = v.ip; bits = v.bits } };
}

impl Network {
    /// The address that it was given by.
    pub fn ip(&self) -> u32
        ensures { result ≡ self.now.ip }
    {
        self.ip
    }

    /// How many bits its addresses share.
    pub fn bits(&self) -> u32
        ensures { result ≡ self.now.bits }
    {
        self.bits
    }

    /// Whether an address is in the network.
    pub fn contains(&self, ip: u32) -> bool
        ensures { IsTrue result ↔ IsIn ip self.now }
    {
        let size = 2u64.pow(BITS - self.bits);
        u64::from(ip) / size == u64::from(self.ip) / size
    }
}

/// Whether an address is in one of the networks.
pub(crate) fn is_in_any(networks: &[Network], ip: u32) -> bool
    ensures { IsTrue result ↔ Any (λ network. IsIn ip network) networks.now }
{
    networks.iter().any(|network| network.contains(ip))
}

/// Reads `192.0.2.0/24`, an address and how many of its first bits the others share, 0 to 32; or an address alone, which is all of
/// its network. The other bits of the address may be any. `None` where the text is neither.
pub fn read_network(text: &[u8]) -> Option<Network>
    ensures found { IfSome result (SpellsNetwork text.now) }
    ensures none { IfNone result ((network : NetworkValue) → ¬ SpellsNetwork text.now network) }
{
    let (front, rest) = split_at_first(SLASH, text);
    let bits = bits_behind(rest)?;
    let ip = ip_in(front)?;
    Some(Network { ip, bits })
}

/// How many bits are shared, by the digits behind the slash, if there is one.
fn bits_behind(rest: Option<&[u8]>) -> Option<u32>
    ensures found { IfSome result (SpellsBits (tail_of rest.entry)) }
    ensures none { IfNone result ((bits : ℕ) → ¬ SpellsBits (tail_of rest.entry) bits) }
{
    match rest {
        Some(digits) => bits_in(digits),
        None => Some(BITS),
    }
}

/// How many bits these digits say, 0 to 32.
fn bits_in(digits: &[u8]) -> Option<u32>
    ensures found { IfSome result (λ bits. SpellsNumber digits.now bits × (bits ≤ 32)) }
    ensures none { IfNone result ((bits : ℕ) → bits ≤ 32 → ¬ SpellsNumber digits.now bits) }
{
    let bits = parse_number(digits)?;
    if bits > u64::from(BITS) {
        return None;
    }
    Some(bits as u32)
}

/// The address that a text spells, A.B.C.D in decimal.
pub fn ip_in(text: &[u8]) -> Option<u32>
    ensures found { IfSome result (SpellsIp text.now) }
    ensures none { IfNone result ((ip : ℕ) → ¬ SpellsIp text.now ip) }
{
    match Ipv4Addr::parse_ascii(text) {
        Ok(ip) => Some(ip.to_bits()),
        Err(_) => None,
    }
}
