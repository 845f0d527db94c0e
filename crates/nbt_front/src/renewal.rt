//! How one front differs from another.

use crate::deciding::Front;
use crate::fixed::Fixed;
use crate::names::FixedNames;
use crate::network::Network;
use nbt_name::Name;
use nbt_text::{write_dotted, write_word};
use std::alloc::AllocError;

/// How many names or networks of a kind a line lists at most (our profile).
const LISTED_MOST: u64 = 5;

/// Whether two fronts have the same networks, in the same order, and the same names.
pub(crate) fn is_same(old: &Front, new: &Front) -> bool {
    old.allowed() == new.allowed() && are_same(old.fixed(), new.fixed())
}

fn are_same(old: &FixedNames, new: &FixedNames) -> bool {
    old.len() == new.len()
        && old
            .entries()
            .iter()
            .all(|(name, fixed)| has_same(new, name, fixed))
}

fn has_same(names: &FixedNames, name: &Name, fixed: &Fixed) -> bool {
    match names.get(name) {
        Some(other) => other.is_same_as(fixed),
        None => false,
    }
}

/// Appends how a front differs from another one, as `nbt: networks that may register: 2; added 192.0.2.0/24` and `nbt: fixed names: 12; added
/// FILER#20, LASER1; taken out LASER2; changed PROXY#00`, a line for each of both where they differ.
pub(crate) fn write_renewal(old: &Front, new: &Front, out: &mut String) -> Result<(), AllocError> {
    if old.allowed() != new.allowed() {
        let count = new.allowed().len();
        write!(out, "nbt: networks that may register: {count}")?;
        write_networks("; added ", new.allowed(), old.allowed(), out)?;
        write_networks("; taken out ", old.allowed(), new.allowed(), out)?;
        writeln!(out)?;
    }
    if !are_same(old.fixed(), new.fixed()) {
        let count = new.fixed().len();
        write!(out, "nbt: fixed names: {count}")?;
        write_names("; added ", Which::Missing, new.fixed(), old.fixed(), out)?;
        write_names(
            "; taken out ",
            Which::Missing,
            old.fixed(),
            new.fixed(),
            out,
        )?;
        write_names("; changed ", Which::Changed, new.fixed(), old.fixed(), out)?;
        writeln!(out)?;
    }
    Ok(())
}

/// Which names are listed.
#[derive(Clone, Copy, Debug, PartialEq, Eq)]
enum Which {
    /// Those that the others haven't.
    Missing,
    /// Those that the others have with another kind or other addresses.
    Changed,
}

impl Which {
    /// Whether a name is listed beside these others.
    fn lists(self, name: &Name, fixed: &Fixed, others: &FixedNames) -> bool {
        match others.get(name) {
            Some(other) => self == Which::Changed && !other.is_same_as(fixed),
            None => self == Which::Missing,
        }
    }
}

/// Appends which names are listed, if some are: five at most, and how many more.
fn write_names(
    what: &str,
    which: Which,
    names: &FixedNames,
    others: &FixedNames,
    out: &mut String,
) -> Result<(), AllocError> {
    let mut count = 0u64;
    for (name, fixed) in names.entries() {
        if which.lists(name, fixed, others) {
            write_before(what, count, out)?;
            if count < LISTED_MOST {
                write_word(name, out)?;
            }
            count = count.saturating_add(1);
        }
    }
    write_more(count, out)
}

/// Appends which of these networks aren't among others, if some aren't: five at most, and how many more.
fn write_networks(
    what: &str,
    networks: &[Network],
    others: &[Network],
    out: &mut String,
) -> Result<(), AllocError> {
    let mut count = 0u64;
    for network in networks {
        if !others.contains(network) {
            write_before(what, count, out)?;
            if count < LISTED_MOST {
                write_dotted(network.ip(), out)?;
                let bits = network.bits();
                write!(out, "/{bits}")?;
            }
            count = count.saturating_add(1);
        }
    }
    write_more(count, out)
}

/// Appends what stands before one of a list of which so many were counted before.
fn write_before(what: &str, count: u64, out: &mut String) -> Result<(), AllocError> {
    if count == 0 {
        return out.push_str(what);
    }
    if count < LISTED_MOST {
        return out.push_str(", ");
    }
    Ok(())
}

/// Appends how many of a list of so many weren't listed, if some weren't.
fn write_more(count: u64, out: &mut String) -> Result<(), AllocError> {
    let more = count.saturating_sub(LISTED_MOST);
    if more > 0 {
        write!(out, " and {more} more")?;
    }
    Ok(())
}
