//! Whether a lease that was kept outlasts the silence of a server that begins anew with a shorter longest lease.

use super::damage::DAY;
use super::expect::expect_eq_in;
use super::restarts::{
    BEGUN_LATER, File, LOOKED, OLDER, Shown, boot_of, kept_of, seen_in, write_found,
};
use nbt_lease::Config;
use nbt_store::{Found, outlasts, outlasts_for};
use std::process::Abort;

/// Which case it is, the longest lease now, what is found, what the clocks show; and whether a lease may outlast the silence of a server
/// that begins then. The file is of a longest lease of 60 s.
type Shorter<'a> = (&'a str, u32, File<'a>, Shown, bool);

const SHORTER: &[Shorter<'static>] = &[
    (
        "a second less, at once",
        59,
        File::Ends(&[20_000, 60_077]),
        (true, 70, DAY, 70),
        true,
    ),
    (
        "a millisecond before it is over",
        59,
        File::Ends(&[60_077]),
        (true, 1_069, DAY + 999, 1_069),
        true,
    ),
    (
        "when it is over",
        59,
        File::Ends(&[60_077]),
        (true, 1_070, DAY + 1_000, 1_070),
        false,
    ),
    (
        "when it is over, of the older form",
        59,
        File::Octets(OLDER),
        (true, 1_070, DAY + 1_000, 1_070),
        false,
    ),
    (
        "no lease, while one from before the silence of that server may live",
        1,
        File::Ends(&[]),
        (true, 58_997, DAY + 58_927, 58_997),
        true,
    ),
    (
        "no lease, when that silence is over",
        1,
        File::Ends(&[]),
        (true, 58_998, DAY + 58_928, 58_998),
        false,
    ),
    (
        "the same longest lease, and a lease that is longer than any",
        60,
        File::Ends(&[60_078]),
        (true, 70, DAY, 70),
        false,
    ),
    (
        "a longer one",
        61,
        File::Ends(&[3_600_000]),
        (true, 70, DAY, 70),
        false,
    ),
    (
        "another boot: its clock stood at the last time",
        59,
        File::At(70_000, &[129_001]),
        (false, 30, DAY + 1_000, 30),
        true,
    ),
    (
        "another boot, and a lease that is over then",
        59,
        File::At(70_000, &[129_000]),
        (false, 30, DAY + 1_000, 30),
        false,
    ),
    (
        "another boot an hour later: its clock stood all the same",
        59,
        File::At(70_000, &[129_001]),
        (false, 30, DAY + 3_600_000, 30),
        true,
    ),
    (
        "another boot whose clock is further",
        59,
        File::At(70_000, &[129_001]),
        (false, 100_000, DAY + 1_000, 100_000),
        true,
    ),
    (
        "the same, and a lease that is over then",
        59,
        File::At(70_000, &[129_000]),
        (false, 100_000, DAY + 1_000, 100_000),
        false,
    ),
    (
        "another boot, while the silence of the earlier server may not be over",
        59,
        File::At(1_004, &[]),
        (false, 30, DAY + 1_000, 30),
        true,
    ),
    (
        "another boot, when it is over",
        59,
        File::At(1_005, &[]),
        (false, 30, DAY + 1_000, 30),
        false,
    ),
    (
        "another boot, of the older form: no clock goes on",
        59,
        File::Octets(OLDER),
        (false, 3_600_000, DAY + 3_600_000, 3_600_000),
        true,
    ),
    (
        "the clock of this boot goes on",
        59,
        File::At(70_000, &[129_999]),
        (true, 70_993, DAY + 1_201, 70_993),
        false,
    ),
    (
        "the clocks of this boot went apart: it stood",
        59,
        File::At(70_000, &[129_999]),
        (true, 70_993, DAY + 1_202, 70_993),
        true,
    ),
    (
        "a millisecond before the last time: it stood",
        59,
        File::At(70_000, &[129_001]),
        (true, 69_992, DAY, 69_992),
        true,
    ),
    (
        "the same, and a lease that is over then",
        59,
        File::At(70_000, &[129_000]),
        (true, 69_992, DAY, 69_992),
        false,
    ),
    (
        "by the last time, and not by that of the second line",
        59,
        File::Octets(LOOKED),
        (false, 30, DAY, 30),
        false,
    ),
    (
        "times that no server keeps",
        1,
        File::Octets(BEGUN_LATER),
        (true, 3_600_000, DAY + 3_600_000, 3_600_000),
        true,
    ),
    (
        "a file that is damaged behind its header",
        59,
        File::Damaged(&[]),
        (true, 3_600_000, DAY, 3_600_000),
        true,
    ),
    (
        "the same longest lease, and a damaged file",
        60,
        File::Damaged(&[60_077]),
        (true, 70, DAY, 70),
        false,
    ),
    (
        "a header that can't be read",
        1,
        File::Octets("nbt leases, version 3\ngarbage\n"),
        (true, 70, DAY, 70),
        false,
    ),
    ("no file", 1, File::None, (true, 70, DAY, 70), false),
    (
        "another version",
        1,
        File::Octets("nbt leases, version 1\n"),
        (true, 70, DAY, 70),
        false,
    ),
];

/// A lease outlasts the silence, or doesn't, as the row says; whatever else there is to say of a start then.
fn outlast_as(rt: &(impl Abort + AllocGlobal), row: &Shorter<'_>) {
    let (_, longest, file, shown, wanted) = *row;
    let mut text = String::new(rt.alloc());
    write_found(rt, rt.alloc(), file, &mut text);
    let boot = boot_of(rt, shown.0);
    let found = Found {
        kept: kept_of(file, text.as_str()),
        config: Config::new(999, longest, 8).expect(rt, "limits"),
        seen: seen_in(rt, &boot, shown),
        silent_after_boot: true,
    };
    expect_eq_in(
        rt,
        row,
        &outlasts(rt.alloc(), &found).expect(rt, "outlasts"),
        &wanted,
    );
}

fn outlast_all(rt: &(impl Abort + AllocGlobal), rows: &[Shorter<'_>]) {
    for row in rows {
        outlast_as(rt, row);
    }
}

#[test]
fn leases_that_outlast_a_shorter_silence(rt: HostRuntime) {
    outlast_all(&rt, SHORTER)
}

/// Which case it is, the longest lease now, what is found, what the clocks show; and in how many milliseconds a server that begins then
/// outlasts each lease, where that is known. The file is of a longest lease of 60 s.
type Waiting<'a> = (&'a str, u32, File<'a>, Shown, Option<u64>);

const WAITING: &[Waiting<'static>] = &[
    (
        "a second less, at once",
        59,
        File::Ends(&[20_000, 60_077]),
        (true, 70, DAY, 70),
        Some(1_000),
    ),
    (
        "the last lease isn't the one that ends last",
        59,
        File::Ends(&[60_077, 20_000]),
        (true, 70, DAY, 70),
        Some(1_000),
    ),
    (
        "a millisecond before it is over",
        59,
        File::Ends(&[60_077]),
        (true, 1_069, DAY + 999, 1_069),
        Some(1),
    ),
    (
        "when it is over",
        59,
        File::Ends(&[60_077]),
        (true, 1_070, DAY + 1_000, 1_070),
        Some(0),
    ),
    (
        "no lease, while one from before the silence of that server may live",
        1,
        File::Ends(&[]),
        (true, 58_997, DAY + 58_927, 58_997),
        Some(1),
    ),
    (
        "a lease that ends before that silence does",
        1,
        File::Ends(&[20_000]),
        (true, 58_997, DAY + 58_927, 58_997),
        Some(1),
    ),
    (
        "another boot: its clock stood at the last time, and stands still",
        59,
        File::At(70_000, &[129_001]),
        (false, 30, DAY + 1_000, 30),
        None,
    ),
    (
        "the clocks of this boot went apart: it stood",
        59,
        File::At(70_000, &[129_999]),
        (true, 70_993, DAY + 1_202, 70_993),
        None,
    ),
    (
        "a file that is damaged behind its header",
        59,
        File::Damaged(&[]),
        (true, 3_600_000, DAY, 3_600_000),
        None,
    ),
    ("no file", 1, File::None, (true, 70, DAY, 70), None),
];

/// A server that begins so much later outlasts each lease, as the row says.
fn wait_as(rt: &(impl Abort + AllocGlobal), row: &Waiting<'_>) {
    let (_, longest, file, shown, wanted) = *row;
    let mut text = String::new(rt.alloc());
    write_found(rt, rt.alloc(), file, &mut text);
    let boot = boot_of(rt, shown.0);
    let found = Found {
        kept: kept_of(file, text.as_str()),
        config: Config::new(999, longest, 8).expect(rt, "limits"),
        seen: seen_in(rt, &boot, shown),
        silent_after_boot: true,
    };
    expect_eq_in(
        rt,
        row,
        &outlasts_for(rt.alloc(), &found).expect(rt, "a wait"),
        &wanted,
    );
}

#[test]
fn how_long_a_lease_outlasts_a_shorter_silence(rt: HostRuntime) {
    for row in WAITING {
        wait_as(&rt, row);
    }
}
