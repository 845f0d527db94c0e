//! The list of a name server's leases, as `nbns --leases` keeps it.

ghost use Rattle.std.specs.Prelude.{◌≡◌, ◌↔◌, [], ◌∷◌, IfOk, IfSome, IsTrue};
ghost use Rattle.nbt_log.specs.Dates.{IsTimeText};
ghost use Rattle.nbt_text.specs.Lines.{words};
ghost use Rattle.nbt_lists.specs.Rows.{SpellsRow};

use crate::source::is_list_head;
use jiff_fmt::temporal::parse_timestamp;
use nbt_front::{ip_in, kind_in};
use nbt_log::write_time;
use nbt_name::{Kind, Name};
use nbt_text::{Case, lines_of, read_scoped_name, words_of};
use std::alloc::{AllocError, AllocFailed, Global};
use std::fmt;

/// A lease of the list.
#[derive(Debug, Drop)]
pub struct Row {
    /// The name.
    pub name: Name,
    /// Its kind.
    pub kind: Kind,
    /// The 32-bit address.
    pub addr: u32,
    /// Its expiry, in seconds since 1970.
    pub end: u64,
}

/// Why a text is no list.
#[derive(Clone, Copy, Debug, PartialEq, Eq)]
pub enum ListFault {
    /// Out of memory.
    Memory,
    /// The first line isn't that of a list.
    Head,
    /// This line, counted from 1, is no row.
    Line(usize),
}

impl fmt::Display for ListFault {
    fn fmt<W: fmt::Write>(&self, f: &mut fmt::Formatter<W>) -> fmt::Result {
        match self {
            ListFault::Memory => f.write_str("out of memory"),
            ListFault::Head => f.write_str(
                "line 1: not the first line of a list, # live leases of nbt nbns",
            ),
            ListFault::Line(number) => write!(
                f,
                "line {number}: a name, its kind, an address and a time are wanted, as FILER#20 unique 192.0.2.7 2026-11-24T09:17:03Z"
            ),
        }
    }
}

impl From<AllocError> for ListFault {
    fn from(_error: AllocError) -> ListFault {
        ListFault::Memory
    }
}

impl<T: Drop> From<AllocFailed<T>> for ListFault {
    fn from(_error: AllocFailed<T>) -> ListFault {
        ListFault::Memory
    }
}

/// Reads a list of leases: its first line, and then a row a line, in their order. The last line may be empty. Refused with `Head` where
/// the first line is another one, with `Line` at the first line that is no row, and with `Memory` if out of memory.
pub fn read_list(alloc: Global, text: &[u8]) -> Result<Vec<Row>, ListFault> {
    let lines = lines_of(alloc, text)?;
    let lines = lines.as_slice();
    if !lines.first().is_some_and(|line| is_list_head(line)) {
        return Err(ListFault::Head);
    }
    let mut rows = Vec::new(alloc);
    for place in 1..lines.len() {
        let number = place + 1;
        match read_row(alloc, lines[place])? {
            Some(row) => rows.push(row)?,
            None if lines[place].is_empty() && number == lines.len() => {}
            None => return Err(ListFault::Line(number)),
        }
    }
    Ok(rows)
}

/// Reads a row, as `FILER#20 unique 192.0.2.7 2026-11-24T09:17:03Z`; `None` where the line is none.
pub fn read_row(alloc: Global, line: &[u8]) -> Result<Option<Row>, AllocError>
    ensures { IfOk result (λ found. IfSome found (SpellsRow (words line.now))) }
{
    let words = words_of(alloc, line)?;
    match words.as_slice() {
        [name, kind, addr, end] => row_of(alloc, name, kind, addr, end),
        _ => Ok(None),
    }
}

/// The row that four words say.
fn row_of(
    alloc: Global,
    name: &[u8],
    kind: &[u8],
    addr: &[u8],
    end: &[u8],
) -> Result<Option<Row>, AllocError>
    ensures { IfOk result (λ found. IfSome found (SpellsRow (name.now ∷ kind.now ∷ addr.now ∷ end.now ∷ []))) }
{
    let Some(end) = second_of(alloc, end)? else {
        return Ok(None);
    };
    let Ok(name) = read_scoped_name(Case::Exact, name, b"") else {
        return Ok(None);
    };
    let (Some(kind), Some(addr)) = (kind_in(kind), ip_in(addr)) else {
        return Ok(None);
    };
    Ok(Some(Row {
        name,
        kind,
        addr,
        end,
    }))
}

/// The second since 1970 whose text this is.
fn second_of(alloc: Global, text: &[u8]) -> Result<Option<u64>, AllocError>
    ensures { IfOk result (λ found. IfSome found (λ second. IsTimeText second text.now)) }
{
    let Ok(time) = parse_timestamp(text) else {
        return Ok(None);
    };
    let Ok(second) = u64::try_from(time.floor_second()) else {
        return Ok(None);
    };
    let mut same = String::new(alloc);
    write_time(second, &mut same)?;
    if !are_same(same.as_bytes(), text) {
        return Ok(None);
    }
    Ok(Some(second))
}

/// Whether two texts are the same.
fn are_same(one: &[u8], other: &[u8]) -> bool
    ensures { IsTrue result ↔ (one.now ≡ other.now) }
{
    one == other
}
