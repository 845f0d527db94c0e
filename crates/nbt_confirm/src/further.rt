//! The further addresses of the machines that hold names.

ghost use Rattle.std.specs.Prelude.{◌≡◌, ◌↔◌, ◌<◌, ◌≤◌, ◌++◌, [], List, not, ◌&&◌, nat_eq, nat_lt, filter, length, map, take, max, min, Some, None, IfOk, IsTrue, vec_capacity, vec_len};
ghost use Rattle.std.specs.List.{find, list_any, position};
ghost use Rattle.nbt_confirm.specs.Firsts.{with_first, without_first};
ghost use Rattle.nbt_confirm.specs.Further as spec;
ghost use Rattle.nbt_confirm.specs.Further.{further_most, is_at, is_confirmed, is_kept, is_listed, is_next, is_of, kept_at, listed_at, name_most, put_as, put_row, reached_row, renewed_row, with_put, without, without_name};

use crate::machine::Confirmed;
use arrayvec::ArrayVec;
use nbt_lease::Moment;
use nbt_name::Name;
use std::alloc::{AllocError, Global};
use std::marker::Model;

/// The most further addresses of a name (our profile).
pub const NAME_MOST: usize = 16;

/// The most further addresses of all names (our profile): as many as the leases of a server that isn't large.
pub const FURTHER_MOST: usize = 4_096;

/// A further address of the machine that holds a name.
#[derive(Debug, Drop)]
pub struct Further {
    /// The name.
    pub name: Name,
    /// The holder's 32-bit address, at which its machine was asked.
    pub holder: u32,
    /// The further 32-bit address.
    pub addr: u32,
    /// Until when it is listed, in milliseconds: no longer than the holder's lease.
    pub end: u64,
    /// Until when its own refreshes last, in milliseconds: so long it may take the lease over.
    pub renewed_until: u64,
    /// Whether it has answered itself: before that it isn't listed, and takes no lease over.
    pub reached: bool,
}

/// What became of a further address that was confirmed.
#[derive(Clone, Copy, Debug, PartialEq, Eq)]
pub enum Put {
    /// It was added.
    Begun,
    /// It was there, and lasts at least as long as before.
    Renewed,
    /// It was not added: the name has 16.
    NameFull,
    /// It was not added: there are 4,096.
    Full,
}

/// The further addresses of all names, in the order in which they were confirmed. Their memory is taken at the start.
#[derive(Drop)]
pub struct FurtherAddresses {
    rows: Vec<Further>,
}

impl Model for FurtherAddresses {
    ghost use Rattle.std.specs.Prelude.{◌≡◌, List, vec_capacity};
    ghost use Rattle.nbt_confirm.specs.declared.further.Further.{Further};
    ghost use Rattle.nbt_confirm.specs.Further.{further_most};

    ghost Value = { List Further };

    ghost view = { λ f. f.rows.items };

    ghost invariant = { λ f. vec_capacity f.rows ≡ further_most };
}

impl FurtherAddresses {
    /// None. The memory for 4,096 is taken here.
    pub fn new(alloc: Global) -> Result<FurtherAddresses, AllocError>
        ensures { IfOk result (λ further. further ≡ []) }
    {
        let rows = Vec::with_capacity(alloc, FURTHER_MOST)?;
        Ok(FurtherAddresses { rows })
    }

    /// All of them, those too that are listed no longer.
    pub fn rows(&self) -> &[Further]
        ensures { result.now ≡ self.now }
    {
        self.rows.as_slice()
    }

    /// Puts one that was confirmed, which lasts by its own request until `until`, and is listed until then, but no longer than
    /// the holder's lease, until `lease_end`; both in milliseconds. One that is there is renewed, and isn't shortened by its own
    /// request. Those that are over at `now` go first. It is not put, in this order, as `NameFull` if the name has 16, and as
    /// `Full` if there are 4,096.
    pub fn put(&mut self, now: Moment, confirmed: &Confirmed, until: u64, lease_end: u64) -> Put
        ensures put { result ≡ put_as (kept_at now self.old) confirmed.now }
        ensures rows { self.new ≡ with_put result (kept_at now self.old) confirmed.now until lease_end }
    {
        self.sweep(now);
        let put = put_in(self.rows.as_slice(), confirmed);
        match put {
            Put::Begun => self.rows.push_reserved(row_of(confirmed, until, lease_end)),
            Put::Renewed => renew_in(
                &mut self.rows,
                confirmed.name(),
                confirmed.addr(),
                confirmed.holder(),
                until,
                lease_end,
            ),
            Put::NameFull | Put::Full => {}
        }
        put
    }

    /// Whether an address is a further one of the name at `now`, while this address holds it, whether it has answered or not.
    pub fn has(&self, now: Moment, name: &Name, holder: u32, addr: u32) -> bool
        ensures { result ≡ list_any (λ row. is_confirmed now name.now holder row && nat_eq row.addr addr) self.now }
    {
        has_in(self.rows.as_slice(), now.get(), name, holder, addr)
    }

    /// Renews one that is there, for its own refresh: it lasts until `until` at least, and is listed so long, but no longer than the
    /// holder's lease, until `lease_end`; both in milliseconds. Nothing changes where it isn't there.
    pub fn renew(&mut self, name: &Name, holder: u32, addr: u32, until: u64, lease_end: u64)
        ensures { self.new ≡ with_first (is_at name.now addr) (renewed_row holder until lease_end) self.old }
    {
        renew_in(&mut self.rows, name, addr, holder, until, lease_end);
    }

    /// Has one be listed from now on, since it has answered itself. Nothing changes where it isn't there.
    pub fn reach(&mut self, name: &Name, addr: u32)
        ensures { self.new ≡ with_first (is_at name.now addr) reached_row self.old }
    {
        reach_in(&mut self.rows, name, addr);
    }

    /// Whether one is there that has answered itself.
    pub fn is_reached(&self, name: &Name, addr: u32) -> bool
        ensures { result ≡ list_any (λ row. is_at name.now addr row && row.reached) self.now }
    {
        is_reached_in(self.rows.as_slice(), name, addr)
    }

    /// Ends one, if it is there, for its own release.
    pub fn end(&mut self, name: &Name, addr: u32)
        ensures { self.new ≡ without name.now addr self.old }
    {
        end_in(&mut self.rows, name, addr);
    }

    /// Ends those of a name, as with the holder's lease where none takes it over.
    pub fn end_all(&mut self, name: &Name)
        ensures { self.new ≡ without_name name.now self.old }
    {
        end_all_in(&mut self.rows, name);
    }

    /// The 32-bit address that takes the lease over from a holder that released it, or whose lease is over: the first one that this
    /// holder confirmed, and whose own refreshes last; none if there is none. All further addresses of the name end: the new holder
    /// has to confirm each anew. The caller has the server grant it the name, by its rules.
    pub fn take_next(&mut self, now: Moment, name: &Name, holder: u32) -> Option<u32>
        ensures next { result ≡ spec.addr_in (find (is_next now name.now holder) self.old) }
        ensures rows { self.new ≡ without_name name.now self.old }
    {
        let next = next_in(self.rows.as_slice(), now.get(), name, holder);
        end_all_in(&mut self.rows, name);
        next
    }

    /// Removes those that are over at `now`, and no others.
    pub fn sweep(&mut self, now: Moment)
        ensures { self.new ≡ kept_at now self.old }
    {
        sweep_in(&mut self.rows, now.get());
    }

    /// Leaves in `out` the further 32-bit addresses of a name at `now`, while this address holds it, in the order in which they were
    /// confirmed: the first 16, and a name has no more.
    pub fn list(&self, now: Moment, name: &Name, holder: u32, out: &mut ArrayVec<u32, NAME_MOST>)
        ensures { out.new.items ≡ take name_most (listed_at now name.now holder self.now) }
    {
        list_in(self.rows.as_slice(), now.get(), name, holder, out);
    }

    /// How many of them are this address, over all names, and aren't over at `now`: each counts as a row of its client.
    pub fn count_of(&self, now: Moment, addr: u32) -> usize
        ensures { result ≡ spec.count_of now addr self.now }
    {
        count_in(self.rows.as_slice(), now.get(), addr)
    }
}

/// What becomes of one that is confirmed beside these.
fn put_in(rows: &[Further], confirmed: &Confirmed) -> Put
    ensures { result ≡ put_as rows.now confirmed.now }
{
    if is_there(rows, confirmed.name(), confirmed.addr()) {
        return Put::Renewed;
    }
    if count_named(rows, confirmed.name()) >= NAME_MOST {
        return Put::NameFull;
    }
    if rows.len() >= FURTHER_MOST {
        return Put::Full;
    }
    Put::Begun
}

/// Whether one is of this name and address.
fn is_there(rows: &[Further], name: &Name, addr: u32) -> bool
    ensures { result ≡ list_any (is_at name.now addr) rows.now }
{
    rows.iter().any(|row| row.name == *name && row.addr == addr)
}

/// How many are of this name.
fn count_named(rows: &[Further], name: &Name) -> usize
    ensures { result ≡ length (filter (is_of name.now) rows.now) }
{
    rows.iter().filter(|row| row.name == *name).count()
}

/// How many of an address aren't over.
fn count_in(rows: &[Further], now: u64, addr: u32) -> usize
    ensures { result ≡ spec.count_of now addr rows.now }
{
    rows.iter()
        .filter(|row| row.addr == addr && now < row.renewed_until)
        .count()
}

/// The row of one that is confirmed.
fn row_of(confirmed: &Confirmed, until: u64, lease_end: u64) -> Further
    ensures { result ≡ put_row confirmed.now until lease_end }
{
    Further {
        name: confirmed.name().copy(),
        holder: confirmed.holder(),
        addr: confirmed.addr(),
        end: until.min(lease_end),
        renewed_until: until,
        reached: false,
    }
}

/// Renews the first one of this name and address.
fn renew_in(
    rows: &mut Vec<Further>,
    name: &Name,
    addr: u32,
    holder: u32,
    until: u64,
    lease_end: u64,
)
    ensures rows { rows.new.items ≡ with_first (is_at name.now addr) (renewed_row holder until lease_end) rows.old.items }
    ensures capacity { vec_capacity rows.new ≡ vec_capacity rows.old }
{
    if let Some(place) = place_at(rows.as_slice(), name, addr) {
        renew_one(&mut rows[place], holder, until, lease_end);
    }
}

/// The place of the first one of this name and address.
fn place_at(rows: &[Further], name: &Name, addr: u32) -> Option<usize>
    ensures { result ≡ position (is_at name.now addr) rows.now }
{
    rows.iter()
        .position(|row| row.name == *name && row.addr == addr)
}

/// Renews one.
fn renew_one(row: &mut Further, holder: u32, until: u64, lease_end: u64)
    ensures { row.new ≡ renewed_row holder until lease_end row.old }
{
    row.holder = holder;
    row.renewed_until = row.renewed_until.max(until);
    row.end = row.renewed_until.min(lease_end);
}

/// Has the first one of this name and address be listed.
fn reach_in(rows: &mut Vec<Further>, name: &Name, addr: u32)
    ensures rows { rows.new.items ≡ with_first (is_at name.now addr) reached_row rows.old.items }
    ensures capacity { vec_capacity rows.new ≡ vec_capacity rows.old }
{
    if let Some(place) = place_at(rows.as_slice(), name, addr) {
        reach_one(&mut rows[place]);
    }
}

/// Has one be listed.
fn reach_one(row: &mut Further)
    ensures { row.new ≡ reached_row row.old }
{
    row.reached = true;
}

/// Whether one of this name and address has answered.
fn is_reached_in(rows: &[Further], name: &Name, addr: u32) -> bool
    ensures { result ≡ list_any (λ row. is_at name.now addr row && row.reached) rows.now }
{
    rows.iter()
        .any(|row| row.name == *name && row.addr == addr && row.reached)
}

/// Whether an address is a further one of the name.
fn has_in(rows: &[Further], now: u64, name: &Name, holder: u32, addr: u32) -> bool
    ensures { result ≡ list_any (λ row. is_confirmed now name.now holder row && nat_eq row.addr addr) rows.now }
{
    rows.iter().any(|row| is_confirmed(row, now, name, holder) && row.addr == addr)
}

/// Whether it is one of the name's, and the holder that confirmed it has its lease still.
fn is_confirmed(row: &Further, now: u64, name: &Name, holder: u32) -> bool
    ensures { result ≡ is_confirmed now name.now holder row.now }
{
    row.name == *name && row.holder == holder && now < row.end
}

/// Whether it has answered too.
fn is_listed(row: &Further, now: u64, name: &Name, holder: u32) -> bool
    ensures { result ≡ is_listed now name.now holder row.now }
{
    row.reached && is_confirmed(row, now, name, holder)
}

/// The first address that may take the lease over from this holder.
fn next_in(rows: &[Further], now: u64, name: &Name, holder: u32) -> Option<u32>
    ensures { result ≡ spec.addr_in (find (is_next now name.now holder) rows.now) }
{
    for row in rows {
        if row.reached && row.name == *name && row.holder == holder && now < row.renewed_until {
            return Some(row.addr);
        }
    }
    None
}

/// Ends one.
fn end_in(rows: &mut Vec<Further>, name: &Name, addr: u32)
    ensures rows { rows.new.items ≡ without name.now addr rows.old.items }
    ensures capacity { vec_capacity rows.new ≡ vec_capacity rows.old }
{
    rows.retain(|row| !(row.name == *name && row.addr == addr));
}

/// Ends those of a name.
fn end_all_in(rows: &mut Vec<Further>, name: &Name)
    ensures rows { rows.new.items ≡ without_name name.now rows.old.items }
    ensures capacity { vec_capacity rows.new ≡ vec_capacity rows.old }
{
    rows.retain(|row| !(row.name == *name));
}

/// Removes those that are over.
fn sweep_in(rows: &mut Vec<Further>, now: u64)
    ensures rows { rows.new.items ≡ kept_at now rows.old.items }
    ensures capacity { vec_capacity rows.new ≡ vec_capacity rows.old }
{
    rows.retain(|row| now < row.renewed_until);
}

/// Lists the first 16 further addresses of a name.
fn list_in(rows: &[Further], now: u64, name: &Name, holder: u32, out: &mut ArrayVec<u32, NAME_MOST>)
    ensures { out.new.items ≡ take name_most (listed_at now name.now holder rows.now) }
{
    out.clear();
    for row in rows {
        if out.is_full() {
            return;
        }
        if is_listed(row, now, name, holder) {
            out.push(row.addr);
        }
    }
}
