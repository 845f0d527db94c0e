//! How long a lease has left, for people.

ghost use Rattle.std.specs.Prelude.{◌≡◌, ◌-◌};
ghost use Rattle.std.specs.Option.{option_map};

use std::alloc::AllocError;

/// The seconds of a minute, an hour and a day.
const MINUTE: u64 = 60;

const HOUR: u64 = 3_600;

const DAY: u64 = 86_400;

/// The seconds that are left at `now` of a lease that ends at `end`: 0 where it is over; `None` where it isn't known what time it is.
pub(crate) fn left_at(end: u64, now: Option<u64>) -> Option<u64>
    ensures { result ≡ option_map (λ second. end - second) now }
{
    Some(end.saturating_sub(now?))
}

/// Appends these seconds in the two greatest of their units, as `4m 58s` or `2d 3h`: `over` where none is left, `-` where it isn't known.
pub(crate) fn write_left(left: Option<u64>, out: &mut String) -> Result<(), AllocError> {
    match left {
        None => out.push_str("-"),
        Some(0) => out.push_str("over"),
        Some(left) => write_seconds(left, out),
    }
}

/// Appends seconds in the two greatest of their units.
fn write_seconds(left: u64, out: &mut String) -> Result<(), AllocError> {
    let (days, hours) = (left / DAY, left % DAY / HOUR);
    let (minutes, seconds) = (left % HOUR / MINUTE, left % MINUTE);
    if days > 0 {
        write!(out, "{days}d {hours}h")
    } else if hours > 0 {
        write!(out, "{hours}h {minutes}m")
    } else if minutes > 0 {
        write!(out, "{minutes}m {seconds}s")
    } else {
        write!(out, "{seconds}s")
    }
}
