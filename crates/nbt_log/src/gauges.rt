//! What a name server's leases are at a moment, in numbers.

ghost use Rattle.std.specs.Prelude.{◌≡◌, ◌&&◌, count_by};
ghost use Rattle.nbt_lease.specs.Lease.{is_live};
ghost use Rattle.nbt_log.specs.Gauges.{is_of, count_of, gauges_of, greatest_left, least_left, less_of};

use nbt_lease::{Lease, Moment};
use nbt_name::{Kind, Name};

/// What a name server's leases are at a moment.
#[derive(Clone, Copy, Debug, PartialEq, Eq)]
pub struct Gauges {
    /// How many unique names live.
    pub unique: u64,
    /// How many members of groups live.
    pub groups: u64,
    /// How many more leases the table has room for.
    pub free: u64,
    /// The least time left of a live lease, in milliseconds; 0 where none lives.
    pub least_left: u64,
    /// The greatest time left of a live lease, in milliseconds; 0 where none lives.
    pub greatest_left: u64,
}

/// What the leases of these rows are at `now`, in a table of `most` rows.
pub fn measure(rows: &[(Name, Lease)], most: usize, now: Moment) -> Gauges
    ensures { result ≡ gauges_of now most rows.now }
{
    let now = now.get();
    let unique = count_of(rows, now, Kind::Unique);
    let groups = count_of(rows, now, Kind::Group);
    Gauges {
        unique,
        groups,
        free: (most as u64).saturating_sub(unique).saturating_sub(groups),
        least_left: least_left(rows, now),
        greatest_left: greatest_left(rows, now),
    }
}

/// How many leases of this kind live.
fn count_of(rows: &[(Name, Lease)], now: u64, kind: Kind) -> u64
    ensures { result ≡ count_of now kind rows.now }
{
    rows.iter()
        .filter(|row| lives_as(&row.1, now, kind))
        .count() as u64
}

/// Whether a lease is of this kind, and lives.
fn lives_as(lease: &Lease, now: u64, kind: Kind) -> bool
    ensures { result ≡ (is_of kind lease.now.kind && is_live now lease.now) }
{
    lease.kind == kind && now < lease.end
}

/// The greatest time left.
fn greatest_left(rows: &[(Name, Lease)], now: u64) -> u64
    ensures { result ≡ greatest_left now rows.now }
{
    let mut greatest = 0;
    for row in rows {
        greatest = greatest.max(row.1.end.saturating_sub(now));
    }
    greatest
}

/// The least time left.
fn least_left(rows: &[(Name, Lease)], now: u64) -> u64
    ensures { result ≡ least_left now rows.now }
{
    let mut least = 0;
    for row in rows {
        least = less_of(least, row.1.end.saturating_sub(now));
    }
    least
}

/// The less of two times, of which 0 is none.
fn less_of(a: u64, b: u64) -> u64
    ensures { result ≡ less_of a b }
{
    if a == 0 {
        b
    } else if b == 0 {
        a
    } else {
        a.min(b)
    }
}
