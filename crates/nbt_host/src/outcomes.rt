//! What is printed of names that were given back.

ghost use Rattle.std.specs.Prelude.{◌≡◌, ◌++◌, ℕ, List, OnOk};
ghost use Rattle.std.specs.List.{list_all};
ghost use Rattle.std.specs.String.{string_bytes};
ghost use Rattle.nbt_host.specs.TurnLines.{TellsAll};
ghost use Rattle.nbt_host.specs.Outcomes.{IsOutcomeLine, words_before, text_after, is_confirmed};

use crate::release::Release;
use nbt_log::write_reason;
use nbt_text::{end_line, write_word};
use std::alloc::AllocError;

/// RCODE: the name isn't there (NAM_ERR), as a server says of a name that it has no lease of.
const NAME_ERROR: u8 = 3;

/// Appends a line for each name, in the list's order, as `released FILER#20`; `not leased FILER#20` where the server says that it
/// has no such name; `refused FILER#20: held by another (6)`; and `no reply for FILER#20`.
pub fn write_outcomes(releases: &[Release], out: &mut String) -> Result<(), AllocError>
    ensures { OnOk result ((text : List ℕ) × TellsAll IsOutcomeLine releases.now text × (string_bytes out.new ≡ string_bytes out.old ++ text)) }
{
    for release in releases {
        write_outcome(release, out)?;
    }
    Ok(())
}

/// Appends the line of one name.
fn write_outcome(release: &Release, out: &mut String) -> Result<(), AllocError>
    ensures { OnOk result ((line : List ℕ) × IsOutcomeLine release.now line × (string_bytes out.new ≡ string_bytes out.old ++ line)) }
{
    out.push_str(words_before(release.rcode))?;
    write_word(&release.name, out)?;
    write_after(release.rcode, out)
}

/// What stands before the name.
fn words_before(rcode: Option<u8>) -> &'static str
    ensures { result.now ≡ words_before rcode }
{
    match rcode {
        Some(0) => "released ",
        Some(NAME_ERROR) => "not leased ",
        Some(_) => "refused ",
        None => "no reply for ",
    }
}

/// Appends what stands after the name, and the end of the line.
fn write_after(rcode: Option<u8>, out: &mut String) -> Result<(), AllocError>
    ensures { OnOk result (string_bytes out.new ≡ string_bytes out.old ++ text_after rcode) }
{
    match rcode {
        Some(0) | Some(NAME_ERROR) | None => end_line(out),
        Some(rcode) => write_reason(rcode, out),
    }
}

/// Whether the server confirmed of each name that it isn't leased to this host any more.
pub fn are_confirmed(releases: &[Release]) -> bool
    ensures { result ≡ list_all is_confirmed releases.now }
{
    releases.iter().all(|release| is_confirmed(release))
}

/// Whether the server confirmed that of this name.
fn is_confirmed(release: &Release) -> bool
    ensures { result ≡ is_confirmed release.now }
{
    match release.rcode {
        Some(rcode) => rcode == 0 || rcode == NAME_ERROR,
        None => false,
    }
}
