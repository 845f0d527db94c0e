//! The hosts of a name server, as a resolver reads them.

ghost use Rattle.std.specs.Prelude.{◌≡◌, ◌++◌, ◌↔◌, ◌≤◌, ℕ, List, length, IsTrue, IfSome, IsNone, OnOk};
ghost use Rattle.std.specs.String.{string_bytes};
ghost use Rattle.nbt_text.specs.SuffixedNames.{IsCutAt};
ghost use Rattle.nbt_text.specs.Texts.{PrintsEach};
ghost use Rattle.nbt_log.specs.Hosts.{HasHost, IsHost, IsSpace, PrintsHost, server_octets};
ghost use Rattle.nbt_log.specs.Inner.Casing.{IsClearIn};

use crate::casing::{Cases, FixedCapitals, may_tell};
use nbt_lease::{Lease, Moment};
use nbt_name::{Kind, Name};
use nbt_text::{is_host_name, write_host};
use std::alloc::AllocError;

/// The first line of the hosts, with its end, which says what a file is (our profile). A resolver passes it over.
pub const HOSTS_HEAD: &str = "# hosts of nbt nbns\n";

/// Appends the lines of the hosts of these rows at `now`, in their order, beside these names that are fixed and these that live.
pub(crate) fn write_hosts(
    now: Moment,
    rows: &[(Name, Lease)],
    fixed: &FixedCapitals,
    cases: &Cases,
    out: &mut String,
) -> Result<(), AllocError>
    ensures { OnOk result ((text : List ℕ) × PrintsEach (PrintsHost (IsClearIn fixed.now cases.now) now) rows.now text × (string_bytes out.new ≡ string_bytes out.old ++ text)) }
{
    let mut rest = rows;
    'rows: while let Some((row, others)) = rest.split_first() {
        write_row(now, row, fixed, cases, out)?;
        rest = others;
    }
    Ok(())
}

/// Appends the line of a row, if it has one.
fn write_row(
    now: Moment,
    row: &(Name, Lease),
    fixed: &FixedCapitals,
    cases: &Cases,
    out: &mut String,
) -> Result<(), AllocError>
    ensures { OnOk result ((text : List ℕ) × PrintsHost (IsClearIn fixed.now cases.now) now row.now text × (string_bytes out.new ≡ string_bytes out.old ++ text)) }
{
    match host_in(now, row, fixed, cases) {
        Some(host) => write_host(row.1.addr, host, out),
        None => Ok(()),
    }
}

/// The host of a row, if its lease lives and is a host's of which a resolver may be told.
fn host_in<'a>(
    now: Moment,
    row: &'a (Name, Lease),
    fixed: &FixedCapitals,
    cases: &Cases,
) -> Option<&'a [u8]>
    ensures host { IfSome result (λ host. HasHost (IsClearIn fixed.now cases.now) now row.now host.now) }
    ensures none { IsNone result → (host : List ℕ) → ¬ HasHost (IsClearIn fixed.now cases.now) now row.now host }
{
    if now.get() >= row.1.end || !may_tell(fixed, cases, row.0.octets()) {
        return None;
    }
    match row.1.kind {
        Kind::Unique => host_of(&row.0),
        Kind::Group => None,
    }
}

/// The host name of a file server, if its name is one.
fn host_of(name: &Name) -> Option<&[u8]>
    ensures host { IfSome result (λ host. IsHost name.now host.now) }
    ensures none { IsNone result → (host : List ℕ) → ¬ IsHost name.now host }
{
    let host = before_space(name.octets().as_slice());
    if name.scope().is_empty() && is_host_name(host) && filled(host) == *name.octets() {
        Some(host)
    } else {
        None
    }
}

/// The octets before the first space.
fn before_space(octets: &[u8]) -> &[u8]
    ensures { (rest : List ℕ) × IsCutAt IsSpace octets.now result.now rest }
{
    let mut count = 0;
    'octets: while count < octets.len() && !is_space(octets[count]) {
        count += 1;
    }
    &octets[..count]
}

/// Whether an octet fills a name up.
fn is_space(octet: u8) -> bool
    ensures { IsTrue result ↔ IsSpace octet }
{
    octet == b' '
}

/// The sixteen octets of the file server of this name.
fn filled(host: &[u8]) -> [u8; 16]
    requires { length host.now ≤ 15 }
    ensures { result ≡ server_octets host.now }
{
    let mut octets = [b' '; 16];
    octets[..host.len()].copy_from_slice(host);
    octets
}
