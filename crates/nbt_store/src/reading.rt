//! The file of a store as it is read, line by line.

ghost use Rattle.std.specs.Prelude.{◌≡◌, ◌<◌, ◌≤◌, ◌+◌, List, ℕ, [], ◌∷◌, length, IfOk, IfErr, IfSome, OnOk, MatchOption};
ghost use Rattle.std.specs.List.{IsDistinct};
ghost use Rattle.std.specs.Map.{keys_of};
ghost use Rattle.nbt_name.specs.Wire.{same_name};
ghost use Rattle.nbt_lease.specs.Inner.Index.{members_of};
ghost use Rattle.nbt_store.specs.declared.change.Change.{Change as ChangeValue};
ghost use Rattle.nbt_store.specs.declared.header.Header.{Header as HeaderValue};
ghost use Rattle.nbt_store.specs.Changes.{after, after_all, no_leases};
ghost use Rattle.nbt_store.specs.Lines.{AreBefore, StandsIn, line_number, whole_lines};
ghost use Rattle.nbt_store.specs.Reading.{HasFront, HasHeader, HasNone, IsBadHere, IsBadLine, IsBadRest, IsLoaded, IsRefused, counted};
ghost use Rattle.nbt_store.specs.Records.{IsRecord};
ghost use Rattle.nbt_store.specs.Times.{first_times, times_after, times_after_all};

use crate::fault::{Fault, ReadFault};
use crate::form::Form;
use crate::header::{Head, Header, read_head};
use crate::record::read_record;
use crate::table::{Group, apply, list_rows, stands_in};
use crate::times::Times;
use indexmap::IndexMap;
use nbt_lease::Lease;
use nbt_name::Name;
use nbt_text::{NEWLINE, split_at_first};
use std::alloc::{AllocError, Global};

/// The number of the header's line.
const HEAD_LINE: usize = 2;

/// The number of the first change's line.
const FIRST_LINE: usize = 3;

/// What is kept.
#[derive(Drop)]
pub struct Loaded {
    /// Which form the file has.
    pub form: Form,
    /// Under which limits, and at which times it was written.
    pub header: Header,
    /// Until when it goes. In the older form that is when it was written.
    pub times: Times,
    /// The leases, those of one name in order of their beginnings. Leases that are over may be among them.
    pub rows: Vec<(Name, Lease)>,
}

/// What stands in the first two lines.
#[derive(Drop)]
struct Front<'a> {
    form: Form,
    head: Head,
    sum: u32,
    rest: &'a [u8],
}

/// How far a file was read: the checksum of the last line, how many lines of changes, and until when they go.
#[derive(Clone, Copy, Debug, PartialEq, Eq)]
pub(crate) struct Progress {
    /// The checksum of the last line.
    pub sum: u32,
    /// How many lines of changes there are.
    pub count: usize,
    /// Until when they go.
    pub times: Times,
}

/// Loads the octets of a file: its header, until when it goes, and the leases that its changes make in their order. What stands behind
/// the last line feed was torn by a crash, and is left out. Refused in this order: `Empty` (1) if no line has its end, `Version` (2)
/// if the first is of another version, `Damaged` (3) with the number of the first line that isn't what it should be, or moves or
/// releases a lease that isn't there, or that is missing of the leases with which the file was written; and with `Memory` if out of
/// memory. Of the older form it is not asked whether a lease is there.
pub fn load(alloc: Global, octets: &[u8]) -> Result<Loaded, ReadFault>
    ensures loaded { IfOk result (λ l. IsLoaded octets.now l.form l.header l.times l.rows.items) }
    ensures refused { IfErr result (IsRefused octets.now) }
{
    let front = read_front(alloc, octets)?;
    let mut members = IndexMap::new(alloc);
    let times = read_rest(alloc, &front, &mut members)?;
    let rows = list_rows(alloc, &members)?;
    Ok(Loaded {
        form: front.form,
        header: front.head.header,
        times,
        rows,
    })
}

/// The header of a file, whatever stands behind its line; `None` where the first two lines can't be read. Refused where it is out of
/// memory.
pub fn load_header(alloc: Global, octets: &[u8]) -> Result<Option<Header>, AllocError>
    ensures { IfOk result (λ found. MatchOption found ((h : HeaderValue) → ¬ HasHeader octets.now h) (HasHeader octets.now)) }
{
    match read_front(alloc, octets) {
        Ok(front) => Ok(Some(front.head.header)),
        Err(ReadFault::File(_)) => Ok(None),
        Err(ReadFault::Memory) => Err(AllocError),
    }
}

/// Reads the first two lines.
fn read_front(alloc: Global, octets: &[u8]) -> Result<Front<'_>, ReadFault>
    ensures front { IfOk result (λ f. HasFront octets.now f.form f.head f.sum f.rest.now) }
    ensures refused { IfErr result (IsRefused octets.now) }
    ensures none { IfErr result (HasNone octets.now) }
{
    let Some((first, behind)) = next_line(octets) else {
        return Err(ReadFault::File(Fault::Empty));
    };
    let Some(form) = Form::of_line(first) else {
        return Err(ReadFault::File(Fault::Version));
    };
    let Some((second, rest)) = next_line(behind) else {
        return Err(ReadFault::File(Fault::Damaged(HEAD_LINE)));
    };
    let Some((head, sum)) = read_head(alloc, second)? else {
        return Err(ReadFault::File(Fault::Damaged(HEAD_LINE)));
    };
    Ok(Front {
        form,
        head,
        sum,
        rest,
    })
}

/// Makes the changes of the lines behind the first two that have their end, in order, of which there are as many at least as leases
/// with which the file was written. Returns until when they go.
fn read_rest(
    alloc: Global,
    front: &Front<'_>,
    members: &mut IndexMap<Name, Group>,
) -> Result<Times, ReadFault>
    requires names { IsDistinct same_name (keys_of members.old.entries) }
    requires none { members_of members.old.entries ≡ no_leases }
    ensures changes { IfOk result (λ times. (cs : List ChangeValue) × (last : ℕ) × AreBefore front.now.form front.now.sum (whole_lines front.now.rest.now) cs last × (front.now.head.leases ≤ length cs)
        × (times ≡ times_after_all cs (first_times front.now.head.header)) × (members_of members.new.entries ≡ after_all cs no_leases)) }
    ensures refused { IfErr result (IsBadRest front.now.form front.now.sum (whole_lines front.now.rest.now) front.now.head.leases) }
    ensures names { OnOk result (IsDistinct same_name (keys_of members.new.entries)) }
{
    let first = Progress {
        sum: front.sum,
        count: 0,
        times: Times::first(&front.head.header),
    };
    let read = read_changes(alloc, front.form, first, front.rest, members)?;
    if (read.count as u64) < front.head.leases {
        return Err(ReadFault::File(Fault::Damaged(line_of(read.count))));
    }
    Ok(read.times)
}

/// The number of the line of the next change.
fn line_of(count: usize) -> usize
    ensures { result ≡ line_number count }
{
    count.saturating_add(FIRST_LINE)
}

/// Makes the changes of the lines that have their end, in order, behind what was read. Returns how far they go.
fn read_changes(
    alloc: Global,
    form: Form,
    first: Progress,
    octets: &[u8],
    members: &mut IndexMap<Name, Group>,
) -> Result<Progress, ReadFault>
    requires names { IsDistinct same_name (keys_of members.old.entries) }
    requires none { members_of members.old.entries ≡ no_leases }
    requires nothing { first.count ≡ 0 }
    ensures changes { IfOk result (λ now. (cs : List ChangeValue) × AreBefore form first.sum (whole_lines octets.now) cs now.sum × (now.count ≡ counted (length cs))
        × (now.times ≡ times_after_all cs first.times) × (members_of members.new.entries ≡ after_all cs no_leases)) }
    ensures refused { IfErr result (IsBadLine form first.sum (whole_lines octets.now)) }
    ensures names { OnOk result (IsDistinct same_name (keys_of members.new.entries)) }
{
    let mut now = first;
    let mut rest = octets;
    'lines: while let Some((line, others)) = next_line(rest) {
        now = read_change(alloc, form, now, line, members)?;
        rest = others;
    }
    Ok(now)
}

/// Makes the change of a line, behind what was read. Returns how far it goes then. Refused where it is no change's line, or of one
/// without its lease.
fn read_change(
    alloc: Global,
    form: Form,
    now: Progress,
    line: &[u8],
    members: &mut IndexMap<Name, Group>,
) -> Result<Progress, ReadFault>
    requires names { IsDistinct same_name (keys_of members.old.entries) }
    ensures made { IfOk result (λ next. (c : ChangeValue) × IsRecord form now.sum line.now c next.sum × StandsIn form c (members_of members.old.entries)
        × (members_of members.new.entries ≡ after c (members_of members.old.entries)) × (next.times ≡ times_after c now.times) × (next.count ≡ counted (now.count + 1))) }
    ensures refused { IfErr result (IsBadHere form now line.now (members_of members.old.entries)) }
    ensures names { OnOk result (IsDistinct same_name (keys_of members.new.entries)) }
{
    let Some((change, sum)) = read_record(alloc, form, now.sum, line)? else {
        return Err(ReadFault::File(Fault::Damaged(line_of(now.count))));
    };
    if !stands_in(form, members, &change) {
        return Err(ReadFault::File(Fault::Damaged(line_of(now.count))));
    }
    let times = now.times.after(&change);
    apply(alloc, members, change)?;
    Ok(Progress {
        sum,
        count: now.count.saturating_add(1),
        times,
    })
}

/// The first line that has its end, and the octets behind it.
fn next_line(octets: &[u8]) -> Option<(&[u8], &[u8])>
    ensures line { MatchOption result (whole_lines octets.now ≡ []) (λ p. whole_lines octets.now ≡ p.0.now ∷ whole_lines p.1.now) }
    ensures shorter { IfSome result (λ p. length p.1.now < length octets.now) }
{
    let (line, rest) = split_at_first(NEWLINE, octets);
    match rest {
        Some(rest) => Some((line, rest)),
        None => None,
    }
}
