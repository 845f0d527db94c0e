//! The table of leases.

ghost use Rattle.std.specs.Prelude.{◌≡◌, ◌≢◌, ℕ, ◌+◌, ◌<◌, ◌≤◌, ◌↔◌, [], ◌++◌, length, filter, IsTrue, IsOk, IfOk, IsErrOf, OnOk, OnErr};
ghost use Rattle.std.specs.List.{IsDistinct};
ghost use Rattle.std.specs.Map.{keys_of};
ghost use Rattle.nbt_name.specs.Wire.{NameValue, same_name};
ghost use Rattle.nbt_lease.specs.Lease.{TableValue, is_live, leases_at, HasNone};
ghost use Rattle.nbt_lease.specs.Config.{granted};
ghost use Rattle.nbt_lease.specs.Rules.{Asked, begun, Releases};
ghost use Rattle.nbt_lease.specs.Inner.Placing.{HoldsLive, MayBegin, Places};
ghost use Rattle.nbt_lease.specs.Inner.Index.{members_of, rows_of, living, AreLive};

use crate::config::Config;
use crate::fault::{GrantFault, RestoreFault};
use crate::index::Index;
use crate::lease::{Grant, Lease, Released};
use crate::looks::Looks;
use crate::members::Members;
use crate::moment::Moment;
use crate::restoring::{begin_live, count_live};
use crate::standing::Standing;
use nbt_name::{Kind, Name};
use std::alloc::{AllocError, Global};
use std::hash::RandomState;
use std::marker::{Brand, Model};
use std::sync::ledger::{Blank, Ledger};

/// The most expired leases that one call removes of all names, those that expired first.
const SWEEP_MOST: u32 = 64;

/// The leases of a name server: of each name those that live, in order of their beginnings. No two live leases are of
/// one name and one address, and the live leases of a name are at most 1,000, all of a group, or one that is unique.
///
/// Times don't go back: the caller must ensure that `now` of each call is at least `last()`.
#[derive(Drop)]
pub struct Table {
    config: Config,
    last: Moment,
    index: Index,
}

impl Model for Table {
    ghost use Rattle.std.specs.Prelude.{◌≤◌, length};
    ghost use Rattle.std.specs.List.{IsDistinct};
    ghost use Rattle.std.specs.Map.{keys_of};
    ghost use Rattle.nbt_name.specs.Wire.{same_name};
    ghost use Rattle.nbt_lease.specs.Lease.{TableValue, leases_at, IsSound};
    ghost use Rattle.nbt_lease.specs.Inner.Index.{rows_of};

    ghost Value = { TableValue };

    ghost view = { λ t. record { config = t.config; last = t.last; rows = rows_of t.index } };

    ghost invariant = { λ t. IsDistinct same_name (keys_of t.index) × IsSound t.config t.last (leases_at t.last (rows_of t.index)) × (length (rows_of t.index) ≤ t.config.rows) };
}

impl Table {
    ghost use Rattle.nbt_lease.specs.Lease.{count_of, live_count, IsSound};
    ghost use Rattle.nbt_lease.specs.Rules.{asked, Grants, ChangesLeases, IsLeastEnd};

    /// A table without leases, at time 0. Takes no memory.
    pub fn new(alloc: Global, config: Config) -> Table
        ensures config { result.config ≡ config }
        ensures last { result.last ≡ 0 }
        ensures empty { result.rows ≡ [] }
    {
        Table {
            config,
            last: Moment::zero(),
            index: Index::new(alloc),
        }
    }

    /// A table of those of these rows that live at `now`, those of a name in their order. Its last time is `now`. Refused in
    /// this order (our profile):
    /// - `TableFull` (1): more of them live than the limits allow.
    /// - `Unsound` (2): a name's live leases are none that a table can have at `now`: two of one address, one that is unique
    ///   beside another, more than 1,000, or one that expires later than the longest lease that is granted now.
    /// - `OutOfMemory` (3): out of memory, before all were looked at.
    pub fn restore(
        alloc: Global,
        config: Config,
        now: Moment,
        rows: &[(Name, Lease)],
    ) -> Result<Table, RestoreFault>
        ensures leases { IfOk result (λ table. leases_at now table.rows ≡ leases_at now rows.now) }
        ensures config { IfOk result (λ table. table.config ≡ config) }
        ensures last { IfOk result (λ table. table.last ≡ now) }

        // When it is refused.
        ensures sound { IsOk result → IsSound config now (leases_at now rows.now) }
        ensures full { IsErrOf result RestoreFault.TableFull ↔ (config.rows < live_count now rows.now) }
        ensures unsound { IsErrOf result RestoreFault.Unsound → ¬ IsSound config now (leases_at now rows.now) }
    {
        let ms = now.get();
        if count_live(rows, ms) > config.rows() {
            return Err(RestoreFault::TableFull);
        }
        let latest = ms + 1000 * u64::from(config.longest());
        let mut index = Index::new(alloc);
        begin_live(&mut index, ms, latest, rows)?;
        Ok(Table {
            config,
            last: now,
            index,
        })
    }

    /// Takes room for as many names as there may be leases, so that no later call moves what the table has as it grows, and
    /// hashes names by these keys from now on, so that whoever doesn't know them can't choose names with equal hashes. Neither
    /// changes what any call returns, but that a name needs less memory later. If out of memory, all is as before.
    pub fn make_room(&mut self, keys: RandomState) -> Result<(), AllocError>
        ensures { self.new ≡ self.old }
    {
        self.index.make_room(self.config.rows(), keys)
    }

    /// The limits.
    pub fn config(&self) -> Config
        ensures { result ≡ self.now.config }
    {
        self.config
    }

    /// The time of the last `grant`, `release` or `sweep`, refused ones too; at first 0.
    pub fn last(&self) -> Moment
        ensures last { result ≡ self.now.last }
        ensures sound { IsSound self.now.config self.now.last (leases_at self.now.last self.now.rows) }
    {
        self.last
    }

    /// Grants the name to the address for `ttl` seconds, or for the longest lease if `ttl` is 0; or renews its live lease,
    /// which keeps its place and never gets shorter. Returns the seconds granted, at most the longest lease, and the
    /// lease's expiry. Refused in this order (our profile):
    /// - `Active` (1): the name has live leases. For a group they aren't all of a group; for a unique name they aren't one
    ///   unique lease of the address.
    /// - `GroupFull` (3): a lease would begin, and the group has 1,000 live members.
    /// - `TableFull` (2): a lease would begin, and the table is full of live leases.
    /// - `OutOfMemory` (4): out of memory; only where the live leases would change.
    ///
    /// After a refusal the live leases are as before. Each call removes expired leases before it takes memory: at most 64 of
    /// all names, those that expired first, and the address's own of this name. What has expired and still stands counts
    /// for nothing. `now` is at least `last()`, and is `last()` afterwards.
    pub fn grant(
        &mut self,
        now: Moment,
        name: &Name,
        addr: u32,
        kind: Kind,
        ttl: u32,
    ) -> Result<Grant, GrantFault>
        requires { self.old.last ≤ now }
        ensures rule { result ≢ Err GrantFault.OutOfMemory → Grants self.old now name.now (asked addr kind ttl) result (leases_at now self.new.rows) }
        ensures memory { result ≡ Err GrantFault.OutOfMemory → ChangesLeases self.old now name.now (asked addr kind ttl) }
        ensures refused { OnErr result (leases_at now self.new.rows ≡ leases_at now self.old.rows) }

        // What the table is afterwards.
        ensures room { live_count now self.new.rows ≤ self.new.config.rows }
        ensures config { self.new.config ≡ self.old.config }
        ensures last { self.new.last ≡ now }
        ensures sound { IsSound self.new.config now (leases_at now self.new.rows) }
    {
        self.last = now;
        let ms = now.get();
        let seconds = self.config.granted(ttl);
        let lease = Lease {
            addr,
            kind,
            end: ms + 1000 * u64::from(seconds),
        };
        drop_some::<Brand>(&mut self.index, ms, SWEEP_MOST, Blank::new(1));
        renew_or_begin(
            &mut self.index,
            self.config.rows(),
            ms,
            name,
            lease,
            seconds,
        )
    }

    /// Removes the address's live lease of the name, of either kind: `Gone`. If it has none, `NoLease` if the name has no
    /// live lease, else `OfOthers`; the live leases are then as before. Each call removes expired leases: at most 64 of all
    /// names, those that expired first, and the address's own of this name. Takes no memory. `now` is at least `last()`, and
    /// is `last()` afterwards.
    pub fn release(&mut self, now: Moment, name: &Name, addr: u32) -> Released
        requires { self.old.last ≤ now }
        ensures rule { Releases self.old now name.now addr result (leases_at now self.new.rows) }
        ensures unchanged { result ≢ Released.Gone → leases_at now self.new.rows ≡ leases_at now self.old.rows }
        ensures config { self.new.config ≡ self.old.config }
        ensures last { self.new.last ≡ now }
        ensures sound { IsSound self.new.config now (leases_at now self.new.rows) }
    {
        self.last = now;
        let ms = now.get();
        drop_some::<Brand>(&mut self.index, ms, SWEEP_MOST, Blank::new(1));
        end_lease(&mut self.index, ms, name, addr)
    }

    /// The live leases of the name at `now`, in order of their beginnings: at most 1,000. Borrows them and takes no memory.
    /// `now` is at least `last()`.
    pub fn members<'a>(&'a self, now: Moment, name: &'a Name) -> Members<'a>
        requires { self.now.last ≤ now }
        ensures members { result ≡ leases_at now self.now.rows name.now }
        ensures sound { IsSound self.now.config now (leases_at now self.now.rows) }
    {
        self.index.live(name, now.get())
    }

    /// Whether the address has at least `count` live leases at `now`, over all names. Takes no memory. One look-up where the
    /// address has fewer rows, or no row of the table is over at `now`; else it reads name after name until it has found so many.
    pub fn has_at_least(&self, now: Moment, addr: u32, count: u32) -> bool
        ensures { IsTrue result ↔ (count ≤ count_of now addr self.now.rows) }
    {
        self.index.has_at_least(addr, now.get(), count as usize)
    }

    /// Appends all rows: each name with each of its leases, those of one name in order of their beginnings. Expired leases
    /// may be among them. If out of memory, only some of them may be appended.
    pub fn list_rows(&self, out: &mut Vec<(Name, Lease)>) -> Result<(), AllocError>
        ensures { OnOk result (out.new.items ≡ out.old.items ++ self.now.rows) }
    {
        self.index.list(out)
    }

    /// The first expiry among the live leases of the name at `now`, in milliseconds; none if it has no live lease. Takes no
    /// memory. `now` is at least `last()`.
    pub fn least_end(&self, now: Moment, name: &Name) -> Option<u64>
        requires { self.now.last ≤ now }
        ensures end { IsLeastEnd (leases_at now self.now.rows name.now) result }
        ensures sound { IsSound self.now.config now (leases_at now self.now.rows) }
    {
        self.members(now, name).least_end()
    }

    /// Removes the leases that are over at `now`, and no others. Takes no memory. `now` is at least `last()`, and is `last()`
    /// afterwards.
    pub fn sweep(&mut self, now: Moment)
        requires { self.old.last ≤ now }
        ensures leases { leases_at now self.new.rows ≡ leases_at now self.old.rows }
        ensures over { live_count now self.new.rows ≡ length self.new.rows }
        ensures config { self.new.config ≡ self.old.config }
        ensures last { self.new.last ≡ now }
        ensures sound { IsSound self.new.config now (leases_at now self.new.rows) }
    {
        self.sweep_uncounted::<Brand>(now, Blank::new(1));
    }

    /// Removes the leases that are over at `now`, and no others. It looks at each of them and at one more at most; each look
    /// adds one to `looks`. Takes no memory. `now` is at least `last()`, and is `last()` afterwards.
    pub fn sweep_counted<L: Ledger>(&mut self, now: Moment, looks: &mut Looks<L>)
        requires { self.old.last ≤ now }
        ensures leases { leases_at now self.new.rows ≡ leases_at now self.old.rows }
        ensures over { live_count now self.new.rows ≡ length self.new.rows }
        ensures looks { looks.new + length self.new.rows ≤ looks.old + length self.old.rows + 1 }
        ensures config { self.new.config ≡ self.old.config }
        ensures last { self.new.last ≡ now }
        ensures sound { IsSound self.new.config now (leases_at now self.new.rows) }
    {
        self.last = now;
        self.index.drop_expired(now.get(), looks);
    }

    /// Removes leases that are over at `now`, those that expired first, and 64 at the most; no others. Takes no memory. `now` is
    /// at least `last()`, and is `last()` afterwards.
    pub fn sweep_some(&mut self, now: Moment)
        requires { self.old.last ≤ now }
        ensures leases { leases_at now self.new.rows ≡ leases_at now self.old.rows }
        ensures bound { length self.old.rows ≤ length self.new.rows + 64 }
        ensures over { length self.old.rows < length self.new.rows + 64 → live_count now self.new.rows ≡ length self.new.rows }
        ensures config { self.new.config ≡ self.old.config }
        ensures last { self.new.last ≡ now }
        ensures sound { IsSound self.new.config now (leases_at now self.new.rows) }
    {
        self.last = now;
        drop_some::<Brand>(&mut self.index, now.get(), SWEEP_MOST, Blank::new(1));
    }

    /// Sweeps without counting the looks.
    fn sweep_uncounted<L: Ledger>(&mut self, now: Moment, blank: Blank)
        requires time { self.old.last ≤ now }
        requires name { blank.name ≡ L.name }
        requires parts { blank.parts ≡ L.parts }
        requires part_count { 0 < blank.parts }
        ensures leases { leases_at now self.new.rows ≡ leases_at now self.old.rows }
        ensures over { live_count now self.new.rows ≡ length self.new.rows }
        ensures config { self.new.config ≡ self.old.config }
        ensures last { self.new.last ≡ now }
        ensures sound { IsSound self.new.config now (leases_at now self.new.rows) }
    {
        let mut looks = Looks::<L>::new(blank);
        self.sweep_counted(now, &mut looks);
    }
}

/// Removes so many leases that are over, at the most, without counting the looks.
fn drop_some<L: Ledger>(index: &mut Index, now: u64, most: u32, blank: Blank)
    requires name { blank.name ≡ L.name }
    requires parts { blank.parts ≡ L.parts }
    requires part_count { 0 < blank.parts }
    requires names { IsDistinct same_name (keys_of index.old) }
    ensures leases { (q : NameValue) → filter (is_live now) (members_of index.new q) ≡ filter (is_live now) (members_of index.old q) }
    ensures fewer { length (rows_of index.new) ≤ length (rows_of index.old) }
    ensures bound { length (rows_of index.old) ≤ length (rows_of index.new) + most }
    ensures over { length (rows_of index.old) < length (rows_of index.new) + most → (q : NameValue) → AreLive now (members_of index.new q) }
    ensures names { IsDistinct same_name (keys_of index.new) }
{
    let mut looks = Looks::<L>::new(blank);
    index.drop_some(now, most, &mut looks);
}

/// Renews the address's live lease, or begins one, for this many seconds. Its lease that is over goes first, since it would
/// be renewed; others that are over may stand.
fn renew_or_begin(
    index: &mut Index,
    most: usize,
    now: u64,
    name: &Name,
    lease: Lease,
    seconds: u32,
) -> Result<Grant, GrantFault>
    requires names { IsDistinct same_name (keys_of index.old) }
    requires fits { length (rows_of index.old) ≤ most }
    requires lives { now < lease.end }
    ensures rule { (table : TableValue) (a : Asked) → HoldsLive table now index.old → table.config.rows ≡ most → lease ≡ begun table.config now a → seconds ≡ granted table.config.longest a.ttl → Places table now name.now a result (living now index.new) }
    ensures fits { length (rows_of index.new) ≤ most }
    ensures names { IsDistinct same_name (keys_of index.new) }
{
    index.end_over(name, lease.addr, now);
    let standing = Standing::find(index.members(name), lease.addr, now);
    if !standing.allows(lease.kind) {
        return Err(GrantFault::Active);
    }
    let Ok(renewed) = index.renew(name, lease.addr, lease.end) else {
        return Err(GrantFault::OutOfMemory);
    };
    if let Some(end) = renewed {
        return Ok(Grant {
            seconds,
            end,
            renewed: true,
        });
    }
    if standing.is_full() {
        return Err(GrantFault::GroupFull);
    }
    begin(index, most, now, name, lease, seconds)
}

/// Begins a lease, which goes last, for this many seconds. Leases that are over may stand, but only where there is room.
fn begin(
    index: &mut Index,
    most: usize,
    now: u64,
    name: &Name,
    lease: Lease,
    seconds: u32,
) -> Result<Grant, GrantFault>
    requires none { HasNone lease.addr (members_of index.old name.now) }
    requires names { IsDistinct same_name (keys_of index.old) }
    requires fits { length (rows_of index.old) ≤ most }
    requires lives { now < lease.end }
    ensures rule { (table : TableValue) (a : Asked) → HoldsLive table now index.old → table.config.rows ≡ most → lease ≡ begun table.config now a → seconds ≡ granted table.config.longest a.ttl
        → MayBegin a (leases_at now table.rows name.now) → Places table now name.now a result (living now index.new) }
    ensures fits { length (rows_of index.new) ≤ most }
    ensures names { IsDistinct same_name (keys_of index.new) }
{
    if index.count() >= most {
        return Err(GrantFault::TableFull);
    }
    if let Err(_) = index.begin(name, lease) {
        return Err(GrantFault::OutOfMemory);
    }
    Ok(Grant {
        seconds,
        end: lease.end,
        renewed: false,
    })
}

/// Ends the address's live lease of the name. Its lease that is over goes first; others that are over may stand.
fn end_lease(index: &mut Index, now: u64, name: &Name, addr: u32) -> Released
    requires names { IsDistinct same_name (keys_of index.old) }
    ensures rule { (table : TableValue) → HoldsLive table now index.old → Releases table now name.now addr result (living now index.new) }
    ensures count { length (rows_of index.new) ≤ length (rows_of index.old) }
    ensures names { IsDistinct same_name (keys_of index.new) }
{
    index.end_over(name, addr, now);
    if index.end(name, addr) {
        return Released::Gone;
    }
    if index.live(name, now).next().is_none() {
        return Released::NoLease;
    }
    Released::OfOthers
}
