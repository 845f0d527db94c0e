//! A list of leases as objects of JSON, for programs.

use crate::left::left_at;
use crate::list::Row;
use nbt_log::write_time;
use nbt_show::kind_word;
use nbt_text::{end_line, suffix_words, write_dotted, write_word};
use serde_json::{Value, json};
use std::alloc::{AllocError, Global};

/// Where the suffix of a name stands (RFC 1001 section 14).
const SUFFIX: usize = 15;

/// Appends an object of JSON (RFC 8259) for each row, a line each, in their order. Its members are `address`; `expires`, a time as in RFC
/// 3339; `kind`; `meaning`, what the suffix means, or `null`; `name`, with its suffix and its scope; and `seconds_left` at `now`, which
/// is in seconds since 1970: 0 where the lease is over, `null` where it isn't known what time it is.
pub fn write_objects(rows: &[Row], now: Option<u64>, out: &mut String) -> Result<(), AllocError> {
    for row in rows {
        write_object(row, now, out)?;
        end_line(out)?;
    }
    Ok(())
}

/// Appends the object of a row.
fn write_object(row: &Row, now: Option<u64>, out: &mut String) -> Result<(), AllocError> {
    let alloc = *out.allocator();
    let mut address = String::new(alloc);
    write_dotted(row.addr, &mut address)?;
    let mut expires = String::new(alloc);
    write_time(row.end, &mut expires)?;
    let mut name = String::new(alloc);
    write_word(&row.name, &mut name)?;
    let object = json!(in alloc; {
        "address": address.as_str(),
        "expires": expires.as_str(),
        "kind": kind_word(row.kind),
        "meaning": meaning_of(alloc, row)?,
        "name": name.as_str(),
        "seconds_left": seconds_of(left_at(row.end, now)),
    })?;
    out.push_str(object.to_string(alloc)?.as_str())
}

/// What the suffix of a row's name means, or `null` where it means nothing.
fn meaning_of(alloc: Global, row: &Row) -> Result<Value, AllocError> {
    match suffix_words(row.name.octets()[SUFFIX], row.kind) {
        "" => Ok(Value::Null),
        words => Value::try_from_str(alloc, words),
    }
}

/// So many seconds, or `null`.
fn seconds_of(left: Option<u64>) -> Value {
    match left {
        Some(left) => Value::from(left),
        None => Value::Null,
    }
}
