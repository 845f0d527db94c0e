//! A list of leases as a table, for people.

use crate::left::{left_at, write_left};
use crate::list::Row;
use nbt_log::write_time;
use nbt_show::kind_word;
use nbt_text::{end_line, suffix_words, write_dotted, write_word};
use std::alloc::AllocError;

/// The heads of the columns.
const NAME: &str = "NAME";

const KIND: &str = "KIND";

const ADDRESS: &str = "ADDRESS";

const LEFT: &str = "LEFT";

const EXPIRES: &str = "EXPIRES";

const MEANING: &str = "MEANING";

/// The widths of the columns that have one: `unique`, `255.255.255.255`, `23h 59m`, and `2026-11-24T09:17:03Z`.
const KIND_WIDTH: usize = 6;

const ADDRESS_WIDTH: usize = 15;

const LEFT_WIDTH: usize = 7;

const EXPIRES_WIDTH: usize = 20;

/// Where the suffix of a name stands (RFC 1001 section 14).
const SUFFIX: usize = 15;

/// Appends the rows as a table, in their order, below a line of heads: the name, its kind, the address, how long the lease has left at
/// `now`, which is in seconds since 1970, when it expires, and what the suffix means, if it means something. Without `now` it isn't
/// known how long. Of no rows `no leases`.
pub fn write_table(rows: &[Row], now: Option<u64>, out: &mut String) -> Result<(), AllocError> {
    if rows.is_empty() {
        return out.push_str("no leases\n");
    }
    let width = width_of(rows, out)?;
    write_padded(NAME, width, out)?;
    write_padded(KIND, KIND_WIDTH, out)?;
    write_padded(ADDRESS, ADDRESS_WIDTH, out)?;
    write_padded(LEFT, LEFT_WIDTH, out)?;
    write_padded(EXPIRES, EXPIRES_WIDTH, out)?;
    out.push_str(MEANING)?;
    end_line(out)?;
    for row in rows {
        write_row(row, now, width, out)?;
    }
    Ok(())
}

/// The width of the column of names.
fn width_of(rows: &[Row], out: &String) -> Result<usize, AllocError> {
    let mut width = NAME.len();
    let mut word = String::new(*out.allocator());
    for row in rows {
        word.clear();
        write_word(&row.name, &mut word)?;
        width = width.max(word.len());
    }
    Ok(width)
}

/// Appends the line of a row.
fn write_row(
    row: &Row,
    now: Option<u64>,
    width: usize,
    out: &mut String,
) -> Result<(), AllocError> {
    let alloc = *out.allocator();
    let mut cell = String::new(alloc);
    write_word(&row.name, &mut cell)?;
    write_padded(cell.as_str(), width, out)?;
    write_padded(kind_word(row.kind), KIND_WIDTH, out)?;
    cell.clear();
    write_dotted(row.addr, &mut cell)?;
    write_padded(cell.as_str(), ADDRESS_WIDTH, out)?;
    cell.clear();
    write_left(left_at(row.end, now), &mut cell)?;
    write_padded(cell.as_str(), LEFT_WIDTH, out)?;
    write_time(row.end, out)?;
    write_meaning(suffix_words(row.name.octets()[SUFFIX], row.kind), out)?;
    end_line(out)
}

/// Appends what a suffix means, where it means something.
fn write_meaning(words: &str, out: &mut String) -> Result<(), AllocError> {
    if words.is_empty() {
        return Ok(());
    }
    write!(out, "  {words}")
}

/// Appends a cell, spaces up to this width, and two more.
fn write_padded(cell: &str, width: usize, out: &mut String) -> Result<(), AllocError> {
    out.push_str(cell)?;
    for _ in cell.len()..width {
        out.push(' ')?;
    }
    out.push_str("  ")
}
