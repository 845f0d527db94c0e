//! Names as other programs write them: characters, and a suffix beside them.

use crate::reason::Reason;
use hex::FromHex;
use nbt_front::LineFault;
use nbt_name::Name;
use nbt_text::Case;

/// The most characters before the suffix (RFC 1001 section 14, our profile).
const FRONT_MOST: usize = 15;

/// The name of these characters, filled up with spaces, and of a suffix. Refused, in this order: no character, or more than fifteen; an
/// octet that isn't from 0x20 to 0x7E; and one that begins with `*`.
pub(crate) fn name_of(case: Case, front: &[u8], suffix: u8) -> Result<Name, Reason> {
    if front.is_empty() || front.len() > FRONT_MOST {
        return Err(Reason::Length);
    }
    if !front.iter().all(|octet| b' ' <= *octet && *octet <= b'~') {
        return Err(Reason::Character);
    }
    let mut octets = [b' '; 16];
    octets[..front.len()].copy_from_slice(front);
    if case == Case::Folded {
        octets.make_ascii_uppercase();
    }
    octets[FRONT_MOST] = suffix;
    match Name::new(&octets, b"") {
        Ok(name) => Ok(name),
        Err(_) => Err(Reason::Fixed(LineFault::Star)),
    }
}

/// The octet of two hexadecimal digits.
pub(crate) fn octet_of(digits: &[u8]) -> Option<u8> {
    let octets = <[u8; 1] as FromHex>::from_hex(digits).ok()?;
    Some(octets[0])
}
