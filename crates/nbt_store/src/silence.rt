//! Whether a server goes on with what is kept, and by which clock, or is silent, and why.

ghost use Rattle.std.specs.Prelude.{◌≡◌, ◌≤◌, ◌+◌, IfOk};
ghost use Rattle.nbt_lease.specs.Config.{last_moment};
ghost use Rattle.nbt_store.specs.Numbers.{silence_number};
ghost use Rattle.nbt_store.specs.Silence.{IsInTime, bears_out as bears_it_out, by_new_clock as new_clock, by_other_clock as other_clock, by_same_clock as same_clock, can_be_told, going_on, has_sound_times as sound_times, is_same_clock as is_same, passed_at_most as most_passed, passed_since as passed};

use crate::boot::Boot;
use crate::form::Form;
use crate::header::Header;
use crate::times::Times;
use nbt_lease::{Config, Moment};
use thiserror::Error;

/// Why a server is silent though leases are kept (our profile's numbers and order).
#[derive(Clone, Copy, Debug, PartialEq, Eq, Error)]
pub enum Silence {
    /// 1: they were granted under another greatest life.
    #[error("another LIFE")]
    OtherLife,
    /// 2: they were granted under another longest lease.
    #[error("another LONGEST")]
    OtherLongest,
    /// 3: they were granted under more rows.
    #[error("another number of rows")]
    OtherRows,
    /// 4: the file has times that no server keeps: a beginning after the last time, or a time past 2^60 ms.
    #[error("times that no server keeps")]
    BadTimes,
    /// 5: they were kept in another boot, and the server is to be silent then.
    #[error("another boot")]
    OtherBoot,
    /// 6: they were kept in this boot, but its clocks went apart since, and the server is to be silent then as after another boot.
    #[error("clocks that went apart")]
    Apart,
    /// 7: they were kept in the older form, which has no times of changes, and the clock can't go on.
    #[error("an older version")]
    Older,
}

impl Silence {
    /// The number of the reason, 1 to 7 (our profile).
    pub fn number(self) -> u8
        ensures { result ≡ silence_number self }
    {
        match self {
            Silence::OtherLife => 1,
            Silence::OtherLongest => 2,
            Silence::OtherRows => 3,
            Silence::BadTimes => 4,
            Silence::OtherBoot => 5,
            Silence::Apart => 6,
            Silence::Older => 7,
        }
    }
}

/// What a machine's clocks show at a start.
#[derive(Drop)]
pub struct Seen<'a> {
    /// The boot.
    pub boot: &'a Boot,
    /// The monotonic clock at first, in ms.
    pub before: Moment,
    /// Then the time of day, in ms since 1970.
    pub day: Moment,
    /// Then the monotonic clock again, in ms.
    pub monotonic: Moment,
}

/// By which clock a server goes on. Times are milliseconds.
#[derive(Clone, Copy, Debug, PartialEq, Eq)]
pub struct Onward {
    /// By how much later all times of the file count.
    pub shift: u64,
    /// By how much the clock is ahead of the machine's monotonic clock.
    pub ahead: u64,
    /// What it reads at the start.
    pub reads: u64,
    /// From which of its times on the server serves.
    pub serves: u64,
    /// How much time passed since the last time of the file, by the clock that shows the most.
    pub passed: u64,
}

/// How much longer than its last time a server may have served that a start knows nothing more of, in milliseconds (our profile).
const SECOND: u64 = 1_000;

/// By how many milliseconds two clocks may go apart beside a thousandth (our profile).
const SLACK: u128 = 200;

/// The last time of a clock, in milliseconds (our profile).
const LAST: u64 = 1 << 60;

/// By which clock a server with these limits goes on with what was kept; or why it is silent. The first reason counts, in the order of
/// `Silence`.
///
/// In the boot of the file the clock goes on as much ahead of the machine's as it was, where the time of day bears that out: since both
/// were read together last, they went on by the same, within 200 ms and a thousandth. Else it goes on from the last time of the file: it
/// stood while nobody served. Then nothing is served in its first second, since the server that kept the file may have served for as
/// long after that time. Where the machine's clock is further, all times of the file count as later by the difference. With
/// `silent_after_boot` a clock that stood is a reason.
pub fn why_silent(
    form: Form,
    header: &Header,
    times: &Times,
    config: Config,
    seen: &Seen<'_>,
    silent_after_boot: bool,
) -> Result<Onward, Silence>
    ensures value { result ≡ going_on form header.now times.now config seen.now silent_after_boot }
    ensures in_time { IfOk result (IsInTime header.now times.now seen.now) }
{
    if header.life != config.life() {
        return Err(Silence::OtherLife);
    }
    if header.longest != u64::from(config.longest()) {
        return Err(Silence::OtherLongest);
    }
    if header.rows > config.rows() as u64 {
        return Err(Silence::OtherRows);
    }
    if !has_sound_times(header, times, seen) {
        return Err(Silence::BadTimes);
    }
    if is_same_clock(header, times, seen) {
        return Ok(by_same_clock(header, times, seen));
    }
    by_other_clock(form, header, times, seen, silent_after_boot)
}

/// Whether the times of the file are those of a server, and can be told now.
fn has_sound_times(header: &Header, times: &Times, seen: &Seen<'_>) -> bool
    ensures { result ≡ sound_times header.now times.now seen.now }
{
    header.start <= times.last && times.seen <= times.last && can_be_told(header, times, seen)
}

/// Whether clocks can show all times of the file and a second more.
fn can_be_told(header: &Header, times: &Times, seen: &Seen<'_>) -> bool
    ensures { result ≡ can_be_told header.now times.now seen.now }
{
    times.last.saturating_add(SECOND) <= LAST
        && header.ahead <= LAST
        && seen.monotonic.get() + SECOND <= LAST
}

/// Whether the clock of the file goes on in this boot, and the time of day bears it out.
fn is_same_clock(header: &Header, times: &Times, seen: &Seen<'_>) -> bool
    ensures { result ≡ is_same header.now times.now seen.now }
{
    let reads = seen.monotonic.get().saturating_add(header.ahead);
    header.boot.octets() == seen.boot.octets()
        && times.last <= reads
        && (reads <= LAST && bears_out(times.seen, times.day, reads, seen.day.get()))
}

/// Whether a clock and the time of day went on by the same from one reading of both to another, within 200 ms and a thousandth (our
/// profile). Times are milliseconds.
pub fn bears_out(time: u64, day: u64, new_time: u64, new_day: u64) -> bool
    ensures { result ≡ bears_it_out time day new_time new_day }
{
    let time = u128::from(time);
    let day = u128::from(day);
    let new_time = u128::from(new_time);
    let new_day = u128::from(new_day);
    1000 * new_day + 1001 * time <= 1000 * day + 1001 * new_time + 1000 * SLACK
        && 1000 * new_time + 1001 * day <= 1000 * time + 1001 * new_day + 1000 * SLACK
}

/// How much time passed since the last time of the file, as the time of day shows it.
fn passed_since(times: &Times, seen: &Seen<'_>) -> u64
    requires { times.now.seen ≤ times.now.last }
    ensures { result ≡ passed times.now seen.now }
{
    let late = seen.monotonic.get().saturating_sub(seen.before.get());
    let now = seen.day.get() + late;
    now.saturating_sub(times.day.saturating_add(times.last - times.seen))
}

/// The same by the clock that shows the most: in the boot of the file the machine's clock shows it too.
fn passed_at_most(header: &Header, times: &Times, seen: &Seen<'_>) -> u64
    requires known { times.now.seen ≤ times.now.last }
    requires fits { header.now.ahead ≤ last_moment }
    ensures { result ≡ most_passed header.now times.now seen.now }
{
    let by_day = passed_since(times, seen);
    if header.boot.octets() != seen.boot.octets() {
        return by_day;
    }
    let reads = seen.monotonic.get() + header.ahead;
    by_day.max(reads.saturating_sub(times.last))
}

/// The clock of the file, which goes on.
fn by_same_clock(header: &Header, times: &Times, seen: &Seen<'_>) -> Onward
    requires begun { header.now.start ≤ times.now.last }
    requires known { times.now.seen ≤ times.now.last }
    requires ahead { header.now.ahead ≤ last_moment }
    requires further { times.now.last ≤ seen.now.monotonic + header.now.ahead }
    requires fits { seen.now.monotonic + header.now.ahead ≤ last_moment }
    ensures value { result ≡ same_clock header.now times.now seen.now }
    ensures in_time { IsInTime header.now times.now seen.now result }
{
    let reads = seen.monotonic.get() + header.ahead;
    Onward {
        shift: 0,
        ahead: header.ahead,
        reads,
        serves: reads,
        passed: passed_at_most(header, times, seen),
    }
}

/// A clock that stood, unless the server is to be silent then.
fn by_other_clock(
    form: Form,
    header: &Header,
    times: &Times,
    seen: &Seen<'_>,
    silent_after_boot: bool,
) -> Result<Onward, Silence>
    requires begun { header.now.start ≤ times.now.last }
    requires known { times.now.seen ≤ times.now.last }
    requires ahead { header.now.ahead ≤ last_moment }
    requires fits { times.now.last + 1000 ≤ last_moment }
    requires fits_here { seen.now.monotonic + 1000 ≤ last_moment }
    ensures value { result ≡ other_clock form header.now times.now seen.now silent_after_boot }
    ensures in_time { IfOk result (IsInTime header.now times.now seen.now) }
{
    if silent_after_boot && header.boot.octets() != seen.boot.octets() {
        return Err(Silence::OtherBoot);
    }
    if silent_after_boot {
        return Err(Silence::Apart);
    }
    match form {
        Form::Two => Err(Silence::Older),
        Form::Three => Ok(by_new_clock(header, times, seen)),
    }
}

/// A clock that goes on from the last time of the file.
fn by_new_clock(header: &Header, times: &Times, seen: &Seen<'_>) -> Onward
    requires begun { header.now.start ≤ times.now.last }
    requires known { times.now.seen ≤ times.now.last }
    requires ahead { header.now.ahead ≤ last_moment }
    requires fits { times.now.last + 1000 ≤ last_moment }
    requires fits_here { seen.now.monotonic + 1000 ≤ last_moment }
    ensures value { result ≡ new_clock header.now times.now seen.now }
    ensures in_time { IsInTime header.now times.now seen.now result }
{
    let monotonic = seen.monotonic.get();
    let reads = times.last.max(monotonic);
    Onward {
        shift: reads - times.last,
        ahead: reads - monotonic,
        reads,
        serves: reads + SECOND,
        passed: passed_at_most(header, times, seen),
    }
}
