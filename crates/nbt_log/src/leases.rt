//! The list of the live leases.

ghost use Rattle.std.specs.Prelude.{◌≡◌, ◌++◌, ◌↔◌, ℕ, List, OnOk, IsTrue};
ghost use Rattle.std.specs.String.{string_bytes};
ghost use Rattle.nbt_text.specs.Texts.{PrintsEach};
ghost use Rattle.nbt_log.specs.Leases.{IsLeaseText, PrintsRow, MayReplace, machine};

use crate::dates::Dates;
use crate::time::write_time;
use nbt_lease::{Lease, Moment};
use nbt_name::Name;
use nbt_show::kind_word;
use nbt_text::{end_line, write_dotted, write_word};
use std::alloc::AllocError;

/// The first line of a list of leases, with its end, which says what a file is (our profile).
pub const LIST_HEAD: &str = "# live leases of nbt nbns\n";

/// Whether a text whose first line is `head`, as [`LIST_HEAD`], may be put in place of a file that begins with these octets, the
/// first ones of it, as many as `head` has, or all: where there are none, or they are that line.
pub fn may_replace(head: &str, first: &[u8]) -> bool
    ensures { IsTrue result ↔ MayReplace head.now first.now }
{
    first.is_empty() || first == head.as_bytes()
}

/// Appends a line for each of the rows whose lease lives at `now`, in their order.
pub(crate) fn write_leases(
    dates: &Dates,
    now: Moment,
    rows: &[(Name, Lease)],
    out: &mut String,
) -> Result<(), AllocError>
    ensures { OnOk result ((text : List ℕ) × PrintsEach (PrintsRow dates.now now) rows.now text × (string_bytes out.new ≡ string_bytes out.old ++ text)) }
{
    let mut rest = rows;
    'rows: while let Some((row, others)) = rest.split_first() {
        write_row(dates, now, row, out)?;
        rest = others;
    }
    Ok(())
}

/// Appends the line of a row whose lease lives.
fn write_row(
    dates: &Dates,
    now: Moment,
    row: &(Name, Lease),
    out: &mut String,
) -> Result<(), AllocError>
    ensures { OnOk result ((text : List ℕ) × PrintsRow dates.now now row.now text × (string_bytes out.new ≡ string_bytes out.old ++ text)) }
{
    let (name, lease) = row;
    if now.get() < lease.end {
        write_lease(dates, name, lease, out)
    } else {
        Ok(())
    }
}

/// Appends the line of a lease.
fn write_lease(
    dates: &Dates,
    name: &Name,
    lease: &Lease,
    out: &mut String,
) -> Result<(), AllocError>
    ensures { OnOk result ((text : List ℕ) × IsLeaseText dates.now name.now lease.now text × (string_bytes out.new ≡ string_bytes out.old ++ text)) }
{
    write_word(name, out)?;
    write_machine(lease, out)?;
    write_time(dates.second_at(lease.end), out)?;
    end_line(out)
}

/// Appends the kind and the holder of a lease.
fn write_machine(lease: &Lease, out: &mut String) -> Result<(), AllocError>
    ensures { OnOk result (string_bytes out.new ≡ string_bytes out.old ++ machine lease.now) }
{
    let kind = kind_word(lease.kind);
    write!(out, " {kind} ")?;
    write_dotted(lease.addr, out)?;
    out.push_str(" ")
}
