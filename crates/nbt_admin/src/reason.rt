//! Why a text is no address, in words.

use nbt_text::{parse_number, split_at_first};

const LEADING_ZERO: &str = "a leading zero";

/// Returns what is wrong with a text that spells no address: the first thing, or `None` where no words fit.
pub(crate) fn why_no_address(text: &str) -> Option<&'static str> {
    let (host, port) = split_at_first(b':', text.as_bytes());
    if let Some(port) = port {
        if !host.contains(&b'.') && port.contains(&b':') {
            return Some("an IPv6 address; IPv4 is wanted");
        }
    }
    match why_no_host(host) {
        Some(reason) => Some(reason),
        None if are_numbers(host) => why_no_port(port?),
        None => None,
    }
}

/// Returns what is wrong with what stands before the port.
fn why_no_host(host: &[u8]) -> Option<&'static str> {
    if host.iter().any(|octet| octet.is_ascii_alphabetic()) {
        return Some("a name; an address is wanted");
    }
    if !are_numbers(host) {
        return None;
    }
    if host.split(|octet| *octet == b'.').count() != 4 {
        return Some("an address has four parts, A.B.C.D");
    }
    for part in host.split(|octet| *octet == b'.') {
        if let Some(reason) = why_no_part(part) {
            return Some(reason);
        }
    }
    None
}

/// Returns whether there are digits and dots alone.
fn are_numbers(host: &[u8]) -> bool {
    host.iter()
        .all(|octet| octet.is_ascii_digit() || *octet == b'.')
}

/// Returns what is wrong with one of the four parts, which are digits.
fn why_no_part(part: &[u8]) -> Option<&'static str> {
    match part {
        [] => Some("an empty part"),
        [b'0', _, ..] => Some(LEADING_ZERO),
        _ => match parse_number(part) {
            Some(number) if number <= 255 => None,
            _ => Some("a part above 255"),
        },
    }
}

/// Returns what is wrong with a port.
fn why_no_port(port: &[u8]) -> Option<&'static str> {
    if !port.iter().all(|octet| octet.is_ascii_digit()) {
        return Some("the port is no number");
    }
    match port {
        [] => Some("the port is no number"),
        [b'0', _, ..] => Some(LEADING_ZERO),
        _ => Some("a port above 65535"),
    }
}
