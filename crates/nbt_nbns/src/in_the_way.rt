//! What is said at the start of leases that stand in the way of fixed names.

use nbt_lease::{Lease, Moment};
use nbt_log::{Dates, write_time};
use nbt_name::Name;
use nbt_text::{write_dotted, write_word};
use std::alloc::{AllocError, Global};
use std::io;
use std::io::Write;

/// Says in `errors` of each of these leases whose it is, and until when it stands, by this moment and time of day. What can't be written is
/// passed over.
pub(crate) fn tell_standing<E: Write>(
    alloc: Global,
    rows: &[(Name, Lease)],
    moment: Moment,
    time: Moment,
    errors: &mut E,
) {
    let dates = Dates { moment, time };
    for (name, lease) in rows {
        let _ = tell_lease(alloc, name, lease, &dates, errors);
    }
}

fn tell_lease<E: Write>(
    alloc: Global,
    name: &Name,
    lease: &Lease,
    dates: &Dates,
    errors: &mut E,
) -> io::Result<()> {
    let mut text = String::new(alloc);
    write_lease(name, lease, dates, &mut text)?;
    writeln!(errors, "nbt: fixed name {text}, which stands until it ends")?;
    errors.flush()
}

/// Appends a lease as `LASER1#20: leased to 192.0.2.9 until 2026-11-24T09:17:03Z`.
fn write_lease(
    name: &Name,
    lease: &Lease,
    dates: &Dates,
    out: &mut String,
) -> Result<(), AllocError> {
    write_word(name, out)?;
    out.push_str(": leased to ")?;
    write_dotted(lease.addr, out)?;
    out.push_str(" until ")?;
    write_time(dates.second_at(lease.end), out)
}
