//! The line of a host for /etc/hosts.

ghost use Rattle.std.specs.Prelude.{◌≡◌, ◌++◌, ℕ, List, OnOk};
ghost use Rattle.std.specs.String.{string_bytes};
ghost use Rattle.nbt_scan.specs.Lines.{name_of, IsHostsLine};

use crate::cells::write_name;
use crate::host::Host;
use nbt_text::{is_host_name, write_host};
use std::alloc::AllocError;

/// Appends `192.0.2.7 FILER`, with the file server's name, or else the computer's. Nothing where there is none, or it isn't the name of a
/// host: letters, digits and hyphens, of which none begins or ends it (RFC 952, RFC 1123 section 2.1).
pub fn write_hosts_line(ip: u32, host: &Host, out: &mut String) -> Result<(), AllocError>
    ensures { OnOk result ((line : List ℕ) × IsHostsLine ip host.now line × (string_bytes out.new ≡ string_bytes out.old ++ line)) }
{
    let mut word = String::new(*out.allocator());
    write_name(name_of(host), &mut word)?;
    let host = word.as_str().as_bytes();
    if !is_host_name(host) {
        return Ok(());
    }
    write_host(ip, host, out)
}

/// The file server's name, or else the computer's.
fn name_of(host: &Host) -> Option<[u8; 18]>
    ensures { result ≡ name_of host.now }
{
    match host.server {
        Some(name) => Some(name),
        None => host.computer,
    }
}
