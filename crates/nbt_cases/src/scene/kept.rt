//! Leases that are kept, by the words of a scene.

use crate::scene::script::Scene;
use nbt_lease::Lease;
use nbt_name::{Addr, Kind, Name};
use nbt_text::{Case, read_address, read_scoped_name};
use std::alloc::{AllocError, Global};

/// The leases that are kept, by the words of each: its name, its kind, its address and its end. `None` where some words are none.
pub fn kept_leases(alloc: Global, scene: &Scene) -> Result<Option<Vec<(Name, Lease)>>, AllocError> {
    let mut rows = Vec::new(alloc);
    for words in scene.kept.iter() {
        match kept_lease(alloc, words.as_str())? {
            Some(row) => rows.push(row)?,
            None => return Ok(None),
        }
    }
    Ok(Some(rows))
}

fn kept_lease(alloc: Global, words: &str) -> Result<Option<(Name, Lease)>, AllocError> {
    let (name, rest) = words.split_once(" ").unwrap_or((words, ""));
    let (kind, rest) = rest.split_once(" ").unwrap_or((rest, ""));
    let (addr, end) = rest.split_once(" ").unwrap_or((rest, ""));
    let kind = if kind == "group" {
        Kind::Group
    } else {
        Kind::Unique
    };
    let addr = read_address(alloc, addr)?;
    Ok(row_of(
        read_scoped_name(Case::Exact, name.as_bytes(), b"").ok(),
        kind,
        addr,
        end,
    ))
}

fn row_of(name: Option<Name>, kind: Kind, addr: Option<Addr>, end: &str) -> Option<(Name, Lease)> {
    let lease = Lease {
        addr: addr?.ip,
        kind,
        end: end.parse().ok()?,
    };
    Some((name?, lease))
}
