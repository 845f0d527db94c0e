//! What is loaded of a file: as it is, cut at each octet, with each octet changed in turn, with its lines in another order, and with made
//! up lines.

use super::expect::{expect_eq, expect_eq_in};
use nbt_store::{Fault, Form, Loaded, ReadFault, Times, load};
use std::alloc::Global;
use std::fmt::Debug;
use std::process::Abort;

/// Until when a file goes: its last time, and the time at which the time of day was read last, with that.
pub type Until = (u64, u64, u64);

/// How many leases a file has, and until when it goes.
pub type State = (usize, Until);

/// What is loaded of octets.
pub type Got = Result<State, Fault>;

/// Which case it is, what the file begins with, what stands behind that, and what is loaded: how many leases, or why none are.
pub type Made<'a> = (&'a str, &'a str, &'a str, Result<usize, Fault>);

/// Numbers of lines of a file, counted from 1, in the order in which they stand, and how many leases are loaded, or why none are.
pub type Order<'a> = (&'a [usize], Result<usize, Fault>);

/// The time of day when the files were written, in milliseconds.
pub const DAY: u64 = 1_700_000_000_000;

/// What is loaded of these octets, once more if it was out of memory.
fn load_again(alloc: Global, octets: &[u8]) -> Result<Loaded, ReadFault> {
    match load(alloc, octets) {
        Err(ReadFault::Memory) => load(alloc, octets),
        loaded => loaded,
    }
}

/// What is loaded of these octets. They are of this form, if they are a file.
pub fn loaded<R: Abort + AllocGlobal>(rt: &R, form: Form, octets: &[u8]) -> Got {
    match load_again(rt.alloc(), octets) {
        Ok(loaded) => {
            expect_eq(rt, &loaded.form, &form);
            let Times { last, seen, day } = loaded.times;
            Ok((loaded.rows.len(), (last, seen, day)))
        }
        Err(ReadFault::File(fault)) => Err(fault),
        Err(ReadFault::Memory) => panic!(rt; "out of memory"),
    }
}

/// How many leases are loaded of these octets.
fn count_in<R: Abort + AllocGlobal>(rt: &R, form: Form, octets: &[u8]) -> Result<usize, Fault> {
    let (rows, _) = loaded(rt, form, octets)?;
    Ok(rows)
}

/// How many line feeds there are.
fn feeds(octets: &[u8]) -> usize {
    octets.iter().filter(|octet| **octet == b'\n').count()
}

/// What is loaded of so many lines that have their end. The first three were written together, and the states are those from then on.
fn of_lines(rt: &impl Abort, states: &[State], lines: usize) -> Got {
    match lines {
        0 => Err(Fault::Empty),
        1 => Err(Fault::Damaged(2)),
        2 => Err(Fault::Damaged(3)),
        _ => Ok(*states.get(lines - 3).expect(rt, "a state")),
    }
}

/// A file cut at each octet has the states of its whole lines.
pub fn cut_at_each<R: Abort + AllocGlobal>(rt: &R, form: Form, whole: &[u8], states: &[State]) {
    for place in 0..=whole.len() {
        let cut = &whole[..place];
        let wanted = of_lines(rt, states, feeds(cut));
        expect_eq_in(rt, &place, &loaded(rt, form, cut), &wanted);
    }
}

/// The fault of a file that is damaged behind so many line feeds.
fn damaged_behind(feeds: usize) -> Fault {
    match feeds {
        0 => Fault::Version,
        _ => Fault::Damaged(feeds.saturating_add(1)),
    }
}

/// A file in which one octet is another is refused at the line of that octet. At its very end the last line is torn.
fn change_octet<R: Abort + AllocGlobal>(
    rt: &R,
    form: Form,
    whole: &[u8],
    states: &[State],
    place: usize,
    octet: u8,
) {
    let (before, behind) = whole.split_at_checked(place).expect(rt, "past the end");
    let (was, rest) = behind.split_first().expect(rt, "at the end");
    if *was == octet {
        return;
    }
    let mut octets = Vec::new(rt.alloc());
    octets.extend_from_slice(before).expect(rt, "memory");
    octets.push(octet).expect(rt, "memory");
    octets.extend_from_slice(rest).expect(rt, "memory");
    let wanted = if rest.is_empty() {
        of_lines(rt, states, feeds(before))
    } else {
        Err(damaged_behind(feeds(before)))
    };
    let got = loaded(rt, form, octets.as_slice());
    expect_eq_in(rt, &(place, octet), &got, &wanted);
}

/// The same with each octet of a file, in which each becomes one of several others: none of them makes the number of one version that
/// of another that is read.
pub fn change_each<R: Abort + AllocGlobal>(rt: &R, form: Form, whole: &[u8], states: &[State]) {
    for place in 0..whole.len() {
        change_at(rt, form, whole, states, place)
    }
}

fn change_at<R: Abort + AllocGlobal>(
    rt: &R,
    form: Form,
    whole: &[u8],
    states: &[State],
    place: usize,
) {
    let was = *whole.get(place).expect(rt, "past the end");
    for octet in [0, b'\n', b' ', b'0', b'~', 255, was ^ 4] {
        change_octet(rt, form, whole, states, place, octet);
    }
}

/// The lines of a file of these numbers, each with its line feed.
fn in_order<R: Abort + AllocGlobal>(rt: &R, whole: &str, order: &[usize]) -> String {
    let mut text = String::new(rt.alloc());
    for number in order {
        let line = line_of(rt, whole, *number);
        text.push_str(line).expect(rt, "memory");
        text.push_str("\n").expect(rt, "memory");
    }
    text
}

/// The line of a text of this number.
fn line_of<'a>(rt: &impl Abort, text: &'a str, number: usize) -> &'a str {
    let before = number.checked_sub(1).expect(rt, "a number");
    text.lines().nth(before).expect(rt, "a line")
}

/// Each is as it says.
pub fn see_orders<R: Abort + AllocGlobal>(rt: &R, form: Form, whole: &str, rows: &[Order<'_>]) {
    for row in rows {
        let (order, wanted) = *row;
        let text = in_order(rt, whole, order);
        expect_eq_in(rt, row, &count_in(rt, form, text.as_bytes()), &wanted);
    }
}

/// Both texts, one behind the other.
fn both<R: Abort + AllocGlobal>(rt: &R, front: &str, behind: &str) -> String {
    format!(in rt.alloc(); "{front}{behind}").expect(rt, "memory")
}

/// Each is as it says.
pub fn see_made<R: Abort + AllocGlobal>(rt: &R, form: Form, rows: &[Made<'_>]) {
    for row in rows {
        let (_, front, behind, wanted) = *row;
        let text = both(rt, front, behind);
        expect_eq_in(rt, row, &count_in(rt, form, text.as_bytes()), &wanted);
    }
}

/// These two texts, one behind the other, go until then.
pub fn see_times<R: Abort + AllocGlobal>(
    rt: &R,
    row: &impl Debug,
    front: &str,
    behind: &str,
    wanted: Until,
) {
    let text = both(rt, front, behind);
    let got = loaded(rt, Form::Three, text.as_bytes()).map(|state| state.1);
    expect_eq_in(rt, row, &got, &Ok(wanted))
}

/// Each has its fault.
pub fn see_faults<R: Abort + AllocGlobal>(rt: &R, form: Form, rows: &[(&[u8], Fault)]) {
    for row in rows {
        let (octets, fault) = *row;
        expect_eq_in(rt, row, &count_in(rt, form, octets), &Err(fault));
    }
}
