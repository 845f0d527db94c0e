//! A table's leases, begun from rows that were kept.

ghost use Rattle.std.specs.Prelude.{◌≡◌, ◌≢◌, [], ◌∷◌, ◌++◌, Err, OnOk};
ghost use Rattle.std.specs.List.{IsDistinct};
ghost use Rattle.std.specs.Map.{keys_of};
ghost use Rattle.nbt_name.specs.Wire.{NameValue, same_name};
ghost use Rattle.nbt_lease.specs.Lease.{Rows, leases_at, live_count, AreSound};
ghost use Rattle.nbt_lease.specs.Inner.Index.{members_of, AreLive};

use crate::fault::RestoreFault;
use crate::index::Index;
use crate::lease::Lease;
use crate::standing::Standing;
use nbt_name::Name;

/// How many of these rows live at `now`.
pub(crate) fn count_live(rows: &[(Name, Lease)], now: u64) -> usize
    ensures { result ≡ live_count now rows.now }
{
    let mut live = 0;
    for (index, row) in rows.iter().enumerate() {
        if now < row.1.end {
            live += 1;
        }
    }
    live
}

/// Begins those of these rows that live at `now`, in their order. None may expire after `latest`.
pub(crate) fn begin_live(
    index: &mut Index,
    now: u64,
    latest: u64,
    rows: &[(Name, Lease)],
) -> Result<(), RestoreFault>
    requires empty { index.old ≡ [] }
    ensures leases { OnOk result (members_of index.new ≡ leases_at now rows.now) }
    ensures sound { OnOk result ((q : NameValue) → AreSound latest (leases_at now rows.now q)) }
    ensures unsound { result ≡ Err RestoreFault.Unsound → ¬ ((q : NameValue) → AreSound latest (leases_at now rows.now q)) }
    ensures room { result ≢ Err RestoreFault.TableFull }
    ensures names { IsDistinct same_name (keys_of index.new) }
{
    for (place, row) in rows.iter().enumerate() {
        begin_one(index, now, latest, &row.0, row.1)?;
    }
    Ok(())
}

/// Begins a lease that was kept, if it lives at `now`: it goes last at its name. All leases live.
fn begin_one(
    index: &mut Index,
    now: u64,
    latest: u64,
    name: &Name,
    lease: Lease,
) -> Result<(), RestoreFault>
    requires sound { AreSound latest (members_of index.old name.now) }
    requires live { AreLive now (members_of index.old name.now) }
    requires names { IsDistinct same_name (keys_of index.old) }
    ensures leases { OnOk result ((rows : Rows) → members_of index.old ≡ leases_at now rows → members_of index.new ≡ leases_at now (rows ++ (name.now, lease) ∷ [])) }
    ensures sound { OnOk result ((rows : Rows) → members_of index.old ≡ leases_at now rows → AreSound latest (leases_at now (rows ++ (name.now, lease) ∷ []) name.now)) }
    ensures unsound { result ≡ Err RestoreFault.Unsound → (rows : Rows) → members_of index.old ≡ leases_at now rows → ¬ AreSound latest (leases_at now (rows ++ (name.now, lease) ∷ []) name.now) }
    ensures room { result ≢ Err RestoreFault.TableFull }
    ensures names { IsDistinct same_name (keys_of index.new) }
{
    if lease.end <= now {
        return Ok(());
    }
    let standing = Standing::find(index.members(name), lease.addr, now);
    if latest < lease.end || !standing.admits(lease.kind) {
        return Err(RestoreFault::Unsound);
    }
    if index.begin(name, lease).is_err() {
        return Err(RestoreFault::OutOfMemory);
    }
    Ok(())
}
