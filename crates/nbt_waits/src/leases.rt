//! What a table says of a unique name's lease, and until when a request lasts.

ghost use Rattle.std.specs.Prelude.{◌≡◌, ◌+◌, ◌≤◌, IfSome};
ghost use Rattle.nbt_lease.specs.Config.{milliseconds};
ghost use Rattle.nbt_lease.specs.Lease.{AreSound, latest_end, leases_at};
ghost use Rattle.nbt_lease.specs.declared.config.TheConstants.{LONGEST_MOST as longest_most};
ghost use Rattle.nbt_server.specs.Serving as serving;
ghost use Rattle.nbt_waits.specs.Asking as spec;
ghost use Rattle.nbt_waits.specs.Asking.{end_by, lease_at};
ghost use Rattle.nbt_waits.specs.Lapsing as lapsing;
ghost use Rattle.nbt_waits.specs.Settling as settling;

use nbt_lease::{LONGEST_MOST, Lease, Moment, Table};
use nbt_name::{Kind, Name};

/// The milliseconds of a second.
const SECOND: u64 = 1_000;

/// The first live lease of a name: a unique name has one at most.
pub(crate) fn lease_of(table: &Table, now: Moment, name: &Name) -> Option<Lease>
    requires { table.now.last ≤ now }
    ensures first { result ≡ lease_at table.now now name.now }
    ensures end { IfSome result (λ lease. lease.end ≤ now + milliseconds longest_most) }
{
    let longest = table.config().longest();
    prove!(longest <= LONGEST_MOST);
    first_lease(table, now, name)
}

/// The same, which is no longer than the longest lease that the table grants.
fn first_lease(table: &Table, now: Moment, name: &Name) -> Option<Lease>
    requires { table.now.last ≤ now }
    ensures first { result ≡ lease_at table.now now name.now }
    ensures sound { AreSound (latest_end table.now.config now) (leases_at now table.now.rows name.now) }
{
    table.members(now, name).next()
}

/// Whether a lease is a unique name's, of this address.
pub(crate) fn is_of(lease: Lease, holder: u32) -> bool
    ensures { result ≡ spec.is_of holder lease }
{
    lease.kind == Kind::Unique && lease.addr == holder
}

/// The expiry of this address's lease of a unique name; `None` if it has none.
pub(crate) fn end_of(table: &Table, now: Moment, name: &Name, holder: u32) -> Option<u64>
    requires { table.now.last ≤ now }
    ensures { result ≡ end_by holder (lease_at table.now now name.now) }
{
    let lease = lease_of(table, now, name)?;
    if is_of(lease, holder) {
        Some(lease.end)
    } else {
        None
    }
}

/// Until when a request for so many seconds lasts, in milliseconds.
pub(crate) fn until_of(table: &Table, now: Moment, ttl: u32) -> u64
    ensures until { result ≡ settling.until_of table.now now ttl }
    ensures bound { result ≤ now + milliseconds longest_most }
{
    now.get() + SECOND * u64::from(table.config().granted(ttl))
}

/// The seconds until then, rounded up.
pub(crate) fn seconds_until(now: Moment, until: u64) -> u32
    requires { until ≤ now + milliseconds longest_most }
    ensures { result ≡ serving.seconds_until now until }
{
    until.saturating_sub(now.get()).div_ceil(SECOND) as u32
}

/// The same, as far as a TTL says it.
pub(crate) fn seconds_left(now: Moment, until: u64) -> u32
    ensures { result ≡ lapsing.seconds_left now until }
{
    let seconds = until.saturating_sub(now.get()).div_ceil(SECOND);
    seconds.min(u64::from(u32::MAX)) as u32
}
