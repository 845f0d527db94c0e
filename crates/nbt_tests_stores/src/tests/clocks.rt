//! By which clock a server goes on with what is kept, or why it is silent. What is expected was computed apart from this program.

use super::damage::{DAY, Until};
use super::expect::expect_eq_in;
use nbt_lease::{Config, Moment};
use nbt_store::{Boot, Form, Header, Onward, Seen, Silence, Times, why_silent};
use std::process::Abort;

/// The form of the file, by how much its clock was ahead, and when its server began.
type Written = (Form, u64, u64);

/// The boot, and what the clocks show: the monotonic one, the time of day, and then the monotonic one again.
type Shown = (&'static [u8], u64, u64, u64);

/// By how much later all times of the file count, by how much the clock is ahead, what it reads, from when on the server serves, and how
/// much time passed.
type On = (u64, u64, u64, u64, u64);

/// Which case it is, the file, until when it goes, what the clocks show, whether the server is silent after another boot; and by which
/// clock it goes on, or why it is silent. The file is of the boot `SAME_BOOT`.
type Asked = (
    &'static str,
    Written,
    Until,
    Shown,
    bool,
    Result<On, Silence>,
);

const SAME_BOOT: &[u8] = b"boot-1";

const OTHER_BOOT: &[u8] = b"boot-1-";

/// The greatest time that a clock can show.
const GREATEST: u64 = 1 << 60;

const ASKED: &[Asked] = &[
    (
        "at once",
        (Form::Three, 7, 5),
        (77, 77, DAY),
        (SAME_BOOT, 70, DAY, 70),
        false,
        Ok((0, 7, 77, 77, 0)),
    ),
    (
        "at once, of the older form",
        (Form::Two, 7, 5),
        (77, 77, DAY),
        (SAME_BOOT, 70, DAY, 70),
        false,
        Ok((0, 7, 77, 77, 0)),
    ),
    (
        "at once, where it is to be silent after another boot",
        (Form::Three, 7, 5),
        (77, 77, DAY),
        (SAME_BOOT, 70, DAY, 70),
        true,
        Ok((0, 7, 77, 77, 0)),
    ),
    (
        "a millisecond before the last time: the clock stood",
        (Form::Three, 7, 5),
        (77, 77, DAY),
        (SAME_BOOT, 69, DAY, 69),
        false,
        Ok((0, 8, 77, 1_077, 0)),
    ),
    (
        "the same, of the older form",
        (Form::Two, 7, 5),
        (77, 77, DAY),
        (SAME_BOOT, 69, DAY, 69),
        false,
        Err(Silence::Older),
    ),
    (
        "the same, where it is to be silent then",
        (Form::Three, 7, 5),
        (77, 77, DAY),
        (SAME_BOOT, 69, DAY, 69),
        true,
        Err(Silence::Apart),
    ),
    (
        "the day goes on by 200 ms and a thousandth more",
        (Form::Three, 7, 5),
        (77, 77, DAY),
        (SAME_BOOT, 10_070, DAY + 10_210, 10_070),
        false,
        Ok((0, 7, 10_077, 10_077, 10_210)),
    ),
    (
        "by a millisecond more than that",
        (Form::Three, 7, 5),
        (77, 77, DAY),
        (SAME_BOOT, 10_070, DAY + 10_211, 10_070),
        false,
        Ok((9_993, 0, 10_070, 11_070, 10_211)),
    ),
    (
        "the day goes on by 200 ms and a thousandth less",
        (Form::Three, 7, 5),
        (77, 77, DAY),
        (SAME_BOOT, 10_070, DAY + 9_791, 10_070),
        false,
        Ok((0, 7, 10_077, 10_077, 10_000)),
    ),
    (
        "by a millisecond less than that",
        (Form::Three, 7, 5),
        (77, 77, DAY),
        (SAME_BOOT, 10_070, DAY + 9_790, 10_070),
        false,
        Ok((9_993, 0, 10_070, 11_070, 10_000)),
    ),
    (
        "the day went back by 199 ms at once",
        (Form::Three, 7, 5),
        (77, 77, DAY),
        (SAME_BOOT, 70, DAY - 199, 70),
        false,
        Ok((0, 7, 77, 77, 0)),
    ),
    (
        "and by a millisecond more than that",
        (Form::Three, 7, 5),
        (77, 77, DAY),
        (SAME_BOOT, 70, DAY - 200, 70),
        false,
        Ok((0, 7, 77, 1_077, 0)),
    ),
    (
        "it went on by 200 ms at once",
        (Form::Three, 7, 5),
        (77, 77, DAY),
        (SAME_BOOT, 70, DAY + 200, 70),
        false,
        Ok((0, 7, 77, 77, 200)),
    ),
    (
        "and by a millisecond more than that",
        (Form::Three, 7, 5),
        (77, 77, DAY),
        (SAME_BOOT, 70, DAY + 201, 70),
        false,
        Ok((0, 7, 77, 1_077, 201)),
    ),
    (
        "clocks that went apart, of the older form",
        (Form::Two, 7, 5),
        (77, 77, DAY),
        (SAME_BOOT, 70, DAY + 201, 70),
        false,
        Err(Silence::Older),
    ),
    (
        "clocks that went apart, where it is to be silent then",
        (Form::Three, 7, 5),
        (77, 77, DAY),
        (SAME_BOOT, 70, DAY - 200, 70),
        true,
        Err(Silence::Apart),
    ),
    (
        "the same, of the older form",
        (Form::Two, 7, 5),
        (77, 77, DAY),
        (SAME_BOOT, 70, DAY - 200, 70),
        true,
        Err(Silence::Apart),
    ),
    (
        "by the last look the day is borne out, and by the second line it isn't",
        (Form::Three, 7, 5),
        (9_000, 8_000, DAY + 3_607_923),
        (SAME_BOOT, 9_993, DAY + 3_609_923, 9_993),
        false,
        Ok((0, 7, 10_000, 10_000, 1_000)),
    ),
    (
        "by the second line it is, and by the last look it isn't",
        (Form::Three, 7, 5),
        (9_000, 8_000, DAY + 3_607_923),
        (SAME_BOOT, 9_993, DAY + 9_923, 9_993),
        false,
        Ok((993, 0, 9_993, 10_993, 1_000)),
    ),
    (
        "the last time is that of a line behind the look",
        (Form::Three, 7, 5),
        (9_000, 8_000, DAY + 7_923),
        (SAME_BOOT, 8_993, DAY + 8_923, 8_993),
        false,
        Ok((0, 7, 9_000, 9_000, 0)),
    ),
    (
        "and a millisecond before it",
        (Form::Three, 7, 5),
        (9_000, 8_000, DAY + 7_923),
        (SAME_BOOT, 8_992, DAY + 8_922, 8_992),
        false,
        Ok((0, 8, 9_000, 10_000, 0)),
    ),
    (
        "the clock shows more than the day",
        (Form::Three, 7, 5),
        (77, 77, DAY),
        (SAME_BOOT, 10_070, DAY + 9_800, 10_070),
        false,
        Ok((0, 7, 10_077, 10_077, 10_000)),
    ),
    (
        "the day shows more, and there was a stall between both readings",
        (Form::Three, 7, 5),
        (77, 77, DAY),
        (SAME_BOOT, 10_000, DAY + 9_990, 10_070),
        false,
        Ok((0, 7, 10_077, 10_077, 10_060)),
    ),
    (
        "the clock of this boot is too far ahead to be told",
        (Form::Three, u64::MAX, 5),
        (77, 77, DAY),
        (SAME_BOOT, 70, DAY, 70),
        false,
        Err(Silence::BadTimes),
    ),
    (
        "as far ahead as it can be",
        (Form::Three, GREATEST, 5),
        (77, 77, DAY),
        (SAME_BOOT, 0, DAY, 0),
        false,
        Ok((0, 77, 77, 1_077, GREATEST - 77)),
    ),
    (
        "and a millisecond further",
        (Form::Three, GREATEST + 1, 5),
        (77, 77, DAY),
        (SAME_BOOT, 0, DAY, 0),
        false,
        Err(Silence::BadTimes),
    ),
    (
        "it can just be told",
        (Form::Three, GREATEST - 70, 5),
        (77, 77, 0),
        (SAME_BOOT, 70, GREATEST - 77, 70),
        false,
        Ok((0, GREATEST - 70, GREATEST, GREATEST, GREATEST - 77)),
    ),
    (
        "it can't be told any more",
        (Form::Three, GREATEST - 69, 5),
        (77, 77, 0),
        (SAME_BOOT, 70, GREATEST - 76, 70),
        false,
        Ok((0, 7, 77, 1_077, GREATEST - 76)),
    ),
    (
        "the day went back, and the machine's clock shows how much time passed",
        (Form::Three, 7, 5),
        (77, 77, DAY),
        (SAME_BOOT, 50_070, DAY - 3_600_000, 50_070),
        false,
        Ok((49_993, 0, 50_070, 51_070, 50_000)),
    ),
    (
        "another boot, whose clock is behind",
        (Form::Three, 7, 5),
        (77, 77, DAY),
        (OTHER_BOOT, 30, DAY + 1_000, 30),
        false,
        Ok((0, 47, 77, 1_077, 1_000)),
    ),
    (
        "whose clock shows the last time",
        (Form::Three, 7, 5),
        (77, 77, DAY),
        (OTHER_BOOT, 77, DAY + 1_000, 77),
        false,
        Ok((0, 0, 77, 1_077, 1_000)),
    ),
    (
        "whose clock is further by a millisecond",
        (Form::Three, 7, 5),
        (77, 77, DAY),
        (OTHER_BOOT, 78, DAY + 1_000, 78),
        false,
        Ok((1, 0, 78, 1_078, 1_000)),
    ),
    (
        "whose clock is much further",
        (Form::Three, 7, 5),
        (77, 77, DAY),
        (OTHER_BOOT, 10_000, DAY + 1_000, 10_000),
        false,
        Ok((9_923, 0, 10_000, 11_000, 1_000)),
    ),
    (
        "the day went back by 2 s",
        (Form::Three, 7, 5),
        (77, 77, DAY),
        (OTHER_BOOT, 30, DAY - 2_000, 30),
        false,
        Ok((0, 47, 77, 1_077, 0)),
    ),
    (
        "by an hour",
        (Form::Three, 7, 5),
        (77, 77, DAY),
        (OTHER_BOOT, 30, DAY - 3_600_000, 30),
        false,
        Ok((0, 47, 77, 1_077, 0)),
    ),
    (
        "to 1970",
        (Form::Three, 7, 5),
        (77, 77, DAY),
        (OTHER_BOOT, 30, 0, 30),
        false,
        Ok((0, 47, 77, 1_077, 0)),
    ),
    (
        "an hour later",
        (Form::Three, 7, 5),
        (77, 77, DAY),
        (OTHER_BOOT, 30, DAY + 3_600_000, 30),
        false,
        Ok((0, 47, 77, 1_077, 3_600_000)),
    ),
    (
        "behind a look: the day counts from there",
        (Form::Three, 7, 5),
        (9_000, 8_000, DAY + 500_000),
        (OTHER_BOOT, 30, DAY + 501_500, 30),
        false,
        Ok((0, 8_970, 9_000, 10_000, 500)),
    ),
    (
        "with a stall of 40 ms between the readings of the clock",
        (Form::Three, 7, 5),
        (77, 77, DAY),
        (OTHER_BOOT, 30, DAY + 1_000, 70),
        false,
        Ok((0, 7, 77, 1_077, 1_040)),
    ),
    (
        "another boot after which it is to be silent",
        (Form::Three, 7, 5),
        (77, 77, DAY),
        (OTHER_BOOT, 70, DAY, 70),
        true,
        Err(Silence::OtherBoot),
    ),
    (
        "the same, of the older form",
        (Form::Two, 7, 5),
        (77, 77, DAY),
        (OTHER_BOOT, 70, DAY, 70),
        true,
        Err(Silence::OtherBoot),
    ),
    (
        "another boot, of the older form",
        (Form::Two, 7, 5),
        (77, 77, DAY),
        (OTHER_BOOT, 70, DAY, 70),
        false,
        Err(Silence::Older),
    ),
    (
        "a server that began at its last time",
        (Form::Three, 7, 77),
        (77, 77, DAY),
        (SAME_BOOT, 70, DAY, 70),
        false,
        Ok((0, 7, 77, 77, 0)),
    ),
    (
        "one that began later",
        (Form::Three, 7, 78),
        (77, 77, DAY),
        (SAME_BOOT, 70, DAY, 70),
        false,
        Err(Silence::BadTimes),
    ),
    (
        "a look that is later than all",
        (Form::Three, 7, 5),
        (77, 78, DAY),
        (SAME_BOOT, 70, DAY, 70),
        false,
        Err(Silence::BadTimes),
    ),
    (
        "the greatest last time",
        (Form::Three, 7, 5),
        (GREATEST - 1_000, 77, DAY),
        (OTHER_BOOT, 30, DAY, 30),
        false,
        Ok((0, GREATEST - 1_030, GREATEST - 1_000, GREATEST, 0)),
    ),
    (
        "a greater one",
        (Form::Three, 7, 5),
        (GREATEST - 999, 77, DAY),
        (OTHER_BOOT, 30, DAY, 30),
        false,
        Err(Silence::BadTimes),
    ),
    (
        "the greatest of all",
        (Form::Three, 7, 5),
        (u64::MAX, 77, DAY),
        (OTHER_BOOT, 30, DAY, 30),
        false,
        Err(Silence::BadTimes),
    ),
    (
        "the greatest clock",
        (Form::Three, 7, 5),
        (77, 77, DAY),
        (OTHER_BOOT, GREATEST - 1_000, DAY, GREATEST - 1_000),
        false,
        Ok((GREATEST - 1_077, 0, GREATEST - 1_000, GREATEST, 0)),
    ),
    (
        "a greater one",
        (Form::Three, 7, 5),
        (77, 77, DAY),
        (OTHER_BOOT, GREATEST - 999, DAY, GREATEST - 999),
        false,
        Err(Silence::BadTimes),
    ),
    (
        "bad times, where it is to be silent after another boot",
        (Form::Three, 7, 78),
        (77, 77, DAY),
        (OTHER_BOOT, 70, DAY, 70),
        true,
        Err(Silence::BadTimes),
    ),
    (
        "bad times of the older form, in another boot",
        (Form::Two, 7, 78),
        (77, 77, DAY),
        (OTHER_BOOT, 70, DAY, 70),
        false,
        Err(Silence::BadTimes),
    ),
];

/// The header of this file. It was written at 77, when the time of day was `DAY`; but a row says until when the file goes.
fn header(rt: &impl Abort, (_, ahead, start): Written) -> Header {
    Header {
        life: 1000,
        longest: 60,
        rows: 4096,
        boot: Boot::new(SAME_BOOT).expect(rt, "a boot"),
        ahead,
        start,
        last: 77,
        day: DAY,
    }
}

fn on(onward: Onward) -> On {
    let Onward {
        shift,
        ahead,
        reads,
        serves,
        passed,
    } = onward;
    (shift, ahead, reads, serves, passed)
}

/// What is said of this file by a server with these limits.
fn said(
    rt: &impl Abort,
    file: Written,
    (last, seen_at, seen_day): Until,
    limits: Config,
    (boot, before, day, monotonic): Shown,
    silent: bool,
) -> Result<On, Silence> {
    let boot = Boot::new(boot).expect(rt, "a boot");
    let seen = Seen {
        boot: &boot,
        before: Moment::new(before).expect(rt, "a moment"),
        day: Moment::new(day).expect(rt, "a moment"),
        monotonic: Moment::new(monotonic).expect(rt, "a moment"),
    };
    let times = Times {
        last,
        seen: seen_at,
        day: seen_day,
    };
    why_silent(file.0, &header(rt, file), &times, limits, &seen, silent).map(on)
}

/// Each row is as it says, for a server of so many rows.
fn ask_all(rt: &impl Abort, rows: &[Asked], most: usize) {
    let limits = Config::large(1000, 60, most).expect(rt, "limits");
    for row in rows {
        let (_, file, until, shown, silent, wanted) = *row;
        let got = said(rt, file, until, limits, shown, silent);
        expect_eq_in(rt, row, &got, &wanted);
    }
}

#[test]
fn clocks_by_which_a_server_goes_on(rt: HostRuntime) {
    // The files are of 4,096 rows. With more it is the same.
    for most in [4_096, 4_097, 1_048_576] {
        ask_all(&rt, ASKED, most);
    }
}

/// What a server is asked for: LIFE, LONGEST and the rows; when the one that kept the file began; and why it is silent. All else is a
/// reason too: the file is of the older form and of another boot, after which the server is silent.
type Limits = ((u64, u32, usize), u64, Silence);

const LIMITS: [Limits; 5] = [
    ((999, 61, 4095), 78, Silence::OtherLife),
    ((1000, 61, 4095), 78, Silence::OtherLongest),
    ((1000, 60, 4095), 78, Silence::OtherRows),
    ((1000, 60, 4096), 78, Silence::BadTimes),
    ((1000, 60, 4096), 77, Silence::OtherBoot),
];

fn ask_limits(rt: &impl Abort, rows: &[Limits]) {
    for row in rows {
        let ((life, longest, most), start, wanted) = *row;
        let limits = Config::new(life, longest, most).expect(rt, "limits");
        let file = (Form::Two, 7, start);
        let shown = (OTHER_BOOT, 70, DAY, 70);
        let got = said(rt, file, (77, 77, DAY), limits, shown, true);
        expect_eq_in(rt, row, &got, &Err(wanted));
    }
}

#[test]
fn the_first_reason_for_a_silence_counts(rt: HostRuntime) {
    ask_limits(&rt, &LIMITS)
}
