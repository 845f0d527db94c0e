//! Names of hosts, and their lines for a resolver.

ghost use Rattle.std.specs.Prelude.{◌≡◌, ◌++◌, ◌↔◌, ◌<◌, ℕ, length, slice_index, IsTrue, OnOk};
ghost use Rattle.std.specs.String.{string_bytes};
ghost use Rattle.nbt_text.specs.HostNames.{IsHostName, IsHostCharacter, host_line};

use crate::address::write_dotted;
use crate::lines::end_line;
use std::alloc::AllocError;

/// The most characters of a host's name (RFC 1001 section 14, our profile).
const HOST_MOST: usize = 15;

/// What may stand within a host name, and not at its ends.
const HYPHEN: u8 = b'-';

/// Appends a line as in /etc/hosts, of an address and of a host name: `192.0.2.7 FILER`.
pub fn write_host(addr: u32, host: &[u8], out: &mut String) -> Result<(), AllocError>
    requires { IsHostName host.now }
    ensures { OnOk result (string_bytes out.new ≡ string_bytes out.old ++ host_line addr host.now) }
{
    write_dotted(addr, out)?;
    out.push(' ')?;
    write_characters(host, out)?;
    end_line(out)
}

/// Appends the characters of a host name.
fn write_characters(host: &[u8], out: &mut String) -> Result<(), AllocError>
    requires { IsHostName host.now }
    ensures { OnOk result (string_bytes out.new ≡ string_bytes out.old ++ host.now) }
{
    for octet in host {
        out.push(char::from(*octet))?;
    }
    Ok(())
}

/// Whether these characters are a host name: 1 to 15 letters, digits and hyphens, the first and the last of them no hyphen (RFC 952,
/// RFC 1123 section 2.1; a NetBIOS name has no more than 15).
pub fn is_host_name(host: &[u8]) -> bool
    ensures { IsTrue result ↔ IsHostName host.now }
{
    if host.is_empty() || host.len() > HOST_MOST {
        return false;
    }
    host[0] != HYPHEN && host[host.len() - 1] != HYPHEN && are_host_characters(host)
}

/// Whether each of these is a character of a host name.
fn are_host_characters(octets: &[u8]) -> bool
    ensures { IsTrue result ↔ ((k : ℕ) → k < length octets.now → IsHostCharacter (slice_index octets.now k)) }
{
    'octets: for place in 0..octets.len() {
        if !is_host_character(octets[place]) {
            return false;
        }
    }
    true
}

/// Whether this is a letter, a digit or a hyphen.
fn is_host_character(octet: u8) -> bool
    ensures { IsTrue result ↔ IsHostCharacter octet }
{
    matches!(octet, b'A'..=b'Z' | b'a'..=b'z' | b'0'..=b'9' | HYPHEN)
}
