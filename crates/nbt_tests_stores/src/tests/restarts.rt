//! Whether a server goes on with what was kept. A datagram lives 1,000 ms at most, the longest lease is 60 s, and a table has four rows.
//! What is expected of clocks was computed apart from this program.

use super::damage::DAY;
use super::expect::{expect, expect_eq_in, expect_in};
use arrayvec::ArrayVec;
use nbt_lease::{Config, Lease, Moment};
use nbt_name::{Addr, Kind, Name};
use nbt_server::ServerFault;
use nbt_store::{Begun, Boot, Fault, Found, Header, Reason, Seen, Silence, begin, write_file};
use nbt_testing::octets;
use std::alloc::Global;
use std::process::Abort;

/// What is found: no file, these octets, or the file of a group whose members' leases end at these times, as it was written at 77 or at
/// this time by the server's clock, or with a line behind it that is none. Its server's clock was 7 ms ahead, the time of day was `DAY`,
/// and the server began at 5.
#[derive(Clone, Copy, Debug)]
pub enum File<'a> {
    None,
    Octets(&'a str),
    Ends(&'a [u64]),
    At(u64, &'a [u64]),
    Damaged(&'a [u64]),
}

/// Whether the boot is that of the file, and what the clocks show: the monotonic one, the time of day, and then the monotonic one again.
pub type Shown = (bool, u64, u64, u64);

/// By how much the server's clock is ahead, when the server began, what its clock reads, from when on it serves, and when the leases end
/// that live then.
type Goes<'a> = (u64, u64, u64, u64, &'a [u64]);

/// Which case it is, what is found, what the clocks show, whether the server is silent after another boot; and how it goes on, or why it
/// begins anew.
type Start<'a> = (&'a str, File<'a>, Shown, bool, Result<Goes<'a>, Reason>);

/// A file of a server whose time of day was set on by 100 s while it served.
pub const LOOKED: &str = "nbt leases, version 3\n\
1000 60 4 boot-1 7 5 77 1700000000000 0 23aeb336\n\
began TEAM 127.0.0.2:137 - group 60080 80 b735b928\n\
looked 1700000107000 7077 4c6a6e12\n\
reached 8000 4a48474e\n";

/// One of the older form.
pub const OLDER: &str = "nbt leases, version 2\n\
1000 60 4 boot-1 7 5 77 1700000000000 1 23aeb337\n\
began TEAM 127.0.0.2:137 group 60077 fcfabb9c\n";

/// One of a longest lease of 61 s.
const OTHER_LONGEST: &str = "nbt leases, version 3\n\
1000 61 4 boot-1 7 5 77 1700000000000 1 f9684c33\n\
began TEAM 127.0.0.2:137 - group 60077 77 4f40030f\n";

/// One whose server began a millisecond after its last time.
pub const BEGUN_LATER: &str = "nbt leases, version 3\n\
1000 60 4 boot-1 7 78 77 1700000000000 1 436fafbd\n\
began TEAM 127.0.0.2:137 - group 60077 77 b8f18eab\n";

/// One whose last time is so late that no clock can show a second more.
const TOO_LATE: &str = "nbt leases, version 3\n\
1000 60 4 boot-1 7 5 1152921504606845977 1700000000000 0 c1262862\n";

/// One whose clock was as far ahead as a file can say.
const MUCH_AHEAD: &str = "nbt leases, version 3\n\
1000 60 4 boot-1 18446744073709551615 5 77 1700000000000 1 a77b367d\n\
began TEAM 127.0.0.2:137 - group 60077 77 f5886fbb\n";

const STARTS: &[Start<'static>] = &[
    (
        "no file",
        File::None,
        (true, 70, DAY, 70),
        false,
        Err(Reason::Nothing),
    ),
    (
        "an empty file",
        File::Octets(""),
        (true, 70, DAY, 70),
        false,
        Err(Reason::File(Fault::Empty)),
    ),
    (
        "another version",
        File::Octets("nbt leases, version 1\n"),
        (true, 70, DAY, 70),
        false,
        Err(Reason::File(Fault::Version)),
    ),
    (
        "no header",
        File::Octets("nbt leases, version 3\n"),
        (true, 70, DAY, 70),
        false,
        Err(Reason::File(Fault::Damaged(2))),
    ),
    (
        "a line that is none",
        File::Damaged(&[60_077]),
        (true, 70, DAY, 70),
        false,
        Err(Reason::File(Fault::Damaged(4))),
    ),
    (
        "at once",
        File::Ends(&[60_000, 60_077]),
        (true, 70, DAY, 70),
        false,
        Ok((7, 5, 77, 77, &[60_000, 60_077])),
    ),
    (
        "at once, of the older form",
        File::Octets(OLDER),
        (true, 70, DAY, 70),
        false,
        Ok((7, 5, 77, 77, &[60_077])),
    ),
    (
        "a millisecond before the last time: its clock stood",
        File::Ends(&[60_000, 60_077]),
        (true, 69, DAY, 69),
        false,
        Ok((8, 5, 77, 1_077, &[60_000, 60_077])),
    ),
    (
        "a lease that ends now is over",
        File::Ends(&[60_076, 60_077]),
        (true, 60_069, DAY + 59_999, 60_069),
        false,
        Ok((7, 5, 60_076, 60_076, &[60_077])),
    ),
    (
        "all are over, a millisecond before the longest lease has passed",
        File::Ends(&[60_076]),
        (true, 60_069, DAY + 59_999, 60_069),
        false,
        Ok((7, 5, 60_076, 60_076, &[])),
    ),
    (
        "the longest lease has passed",
        File::Ends(&[60_077]),
        (true, 60_070, DAY + 60_000, 60_070),
        false,
        Err(Reason::Over),
    ),
    (
        "and some live",
        File::Ends(&[60_078, 70_000]),
        (true, 60_071, DAY + 60_001, 60_071),
        false,
        Err(Reason::Over),
    ),
    (
        "a file without leases",
        File::Ends(&[]),
        (true, 60_069, DAY + 59_999, 60_069),
        false,
        Ok((7, 5, 60_076, 60_076, &[])),
    ),
    (
        "an old one",
        File::Ends(&[]),
        (true, 60_070, DAY + 60_000, 60_070),
        false,
        Err(Reason::Over),
    ),
    (
        "it has passed by the machine's clock alone",
        File::Ends(&[60_077]),
        (true, 60_070, DAY + 59_900, 60_070),
        false,
        Err(Reason::Over),
    ),
    (
        "it has passed by the time of day alone",
        File::Ends(&[60_077]),
        (true, 60_000, DAY + 60_000, 60_000),
        false,
        Err(Reason::Over),
    ),
    (
        "a millisecond less by the time of day",
        File::Ends(&[60_077]),
        (true, 60_000, DAY + 59_999, 60_000),
        false,
        Ok((7, 5, 60_007, 60_007, &[60_077])),
    ),
    (
        "it has passed with what the clocks stalled while they were read",
        File::Ends(&[60_077]),
        (true, 59_999, DAY + 59_999, 60_000),
        false,
        Err(Reason::Over),
    ),
    (
        "the day went on by 200 ms and a thousandth more",
        File::Ends(&[60_077]),
        (true, 10_070, DAY + 10_210, 10_070),
        false,
        Ok((7, 5, 10_077, 10_077, &[60_077])),
    ),
    (
        "and by a millisecond more: another clock",
        File::Ends(&[60_077]),
        (true, 10_070, DAY + 10_211, 10_070),
        false,
        Ok((0, 9_998, 10_070, 11_070, &[70_070])),
    ),
    (
        "the day went on by 200 ms and a thousandth less",
        File::Ends(&[60_077]),
        (true, 10_070, DAY + 9_791, 10_070),
        false,
        Ok((7, 5, 10_077, 10_077, &[60_077])),
    ),
    (
        "and by a millisecond less: another clock",
        File::Ends(&[60_077]),
        (true, 10_070, DAY + 9_790, 10_070),
        false,
        Ok((0, 9_998, 10_070, 11_070, &[70_070])),
    ),
    (
        "clocks that went apart, of the older form",
        File::Octets(OLDER),
        (true, 70, DAY + 201, 70),
        false,
        Err(Reason::Other(Silence::Older)),
    ),
    (
        "clocks that went apart, where it is silent after another boot",
        File::Ends(&[60_077]),
        (true, 70, DAY + 201, 70),
        true,
        Err(Reason::Other(Silence::Apart)),
    ),
    (
        "this boot, where it is silent after another one",
        File::Ends(&[60_077]),
        (true, 70, DAY, 70),
        true,
        Ok((7, 5, 77, 77, &[60_077])),
    ),
    (
        "a file whose clock is too far ahead",
        File::Octets(MUCH_AHEAD),
        (true, 70, DAY, 70),
        false,
        Err(Reason::Other(Silence::BadTimes)),
    ),
    (
        "the day went back, and the longest lease has passed by the machine's clock",
        File::Ends(&[60_077]),
        (true, 60_070, DAY - 3_600_000, 60_070),
        false,
        Err(Reason::Over),
    ),
    (
        "a millisecond less by that clock",
        File::Ends(&[60_077]),
        (true, 60_069, DAY - 3_600_000, 60_069),
        false,
        Ok((0, 59_997, 60_069, 61_069, &[120_069])),
    ),
    (
        "the day stood, and the longest lease has passed by the machine's clock",
        File::Ends(&[60_077]),
        (true, 60_070, DAY, 60_070),
        false,
        Err(Reason::Over),
    ),
    (
        "another boot whose clock is behind",
        File::Ends(&[60_077]),
        (false, 30, DAY + 1_000, 30),
        false,
        Ok((47, 5, 77, 1_077, &[60_077])),
    ),
    (
        "another boot whose clock is further: all is as much later",
        File::Ends(&[60_000, 60_077]),
        (false, 100, DAY + 1_000, 100),
        false,
        Ok((0, 28, 100, 1_100, &[60_023, 60_100])),
    ),
    (
        "another boot whose clock is much further",
        File::Ends(&[60_077]),
        (false, 1_000_000, DAY + 1_000, 1_000_000),
        false,
        Ok((0, 999_928, 1_000_000, 1_001_000, &[1_060_000])),
    ),
    (
        "another boot, and the day went back by 2 s",
        File::Ends(&[60_077]),
        (false, 30, DAY - 2_000, 30),
        false,
        Ok((47, 5, 77, 1_077, &[60_077])),
    ),
    (
        "another boot, and the day went back by 2 s, where its clock is further",
        File::Ends(&[60_077]),
        (false, 100, DAY - 2_000, 100),
        false,
        Ok((0, 28, 100, 1_100, &[60_100])),
    ),
    (
        "another boot, and the day went back by an hour",
        File::Ends(&[60_077]),
        (false, 100, DAY - 3_600_000, 100),
        false,
        Ok((0, 28, 100, 1_100, &[60_100])),
    ),
    (
        "another boot 2 s later",
        File::Ends(&[60_077]),
        (false, 100, DAY + 2_000, 100),
        false,
        Ok((0, 28, 100, 1_100, &[60_100])),
    ),
    (
        "another boot an hour later",
        File::Ends(&[60_077]),
        (false, 100, DAY + 3_600_000, 100),
        false,
        Err(Reason::Over),
    ),
    (
        "another boot, a millisecond before the longest lease has passed",
        File::Ends(&[60_077]),
        (false, 100, DAY + 59_999, 100),
        false,
        Ok((0, 28, 100, 1_100, &[60_100])),
    ),
    (
        "another boot, once it has passed",
        File::Ends(&[60_077]),
        (false, 100, DAY + 60_000, 100),
        false,
        Err(Reason::Over),
    ),
    (
        "another boot, once it has passed with a stall",
        File::Ends(&[60_077]),
        (false, 99, DAY + 59_999, 100),
        false,
        Err(Reason::Over),
    ),
    (
        "another boot, and its clock alone shows more than the longest lease",
        File::Ends(&[60_077]),
        (false, 3_600_000, DAY + 59_999, 3_600_000),
        false,
        Ok((0, 3_599_928, 3_600_000, 3_601_000, &[3_660_000])),
    ),
    (
        "another boot after which it is silent",
        File::Ends(&[60_077]),
        (false, 100, DAY + 1_000, 100),
        true,
        Err(Reason::Other(Silence::OtherBoot)),
    ),
    (
        "another boot, of the older form",
        File::Octets(OLDER),
        (false, 100, DAY + 1_000, 100),
        false,
        Err(Reason::Other(Silence::Older)),
    ),
    (
        "another boot after which it is silent, of the older form",
        File::Octets(OLDER),
        (false, 100, DAY + 1_000, 100),
        true,
        Err(Reason::Other(Silence::OtherBoot)),
    ),
    (
        "a lease that ends within the first second",
        File::Ends(&[1_077, 1_078]),
        (false, 30, DAY + 1_000, 30),
        false,
        Ok((47, 5, 77, 1_077, &[1_078])),
    ),
    (
        "the same, where the clock is further",
        File::Ends(&[1_077, 1_078]),
        (false, 100, DAY + 1_000, 100),
        false,
        Ok((0, 28, 100, 1_100, &[1_101])),
    ),
    (
        "a lease that is longer than any",
        File::Ends(&[60_078]),
        (true, 70, DAY, 70),
        false,
        Err(Reason::Unsound),
    ),
    (
        "a lease that is longer than any at the end of the first second",
        File::Ends(&[61_078]),
        (false, 30, DAY, 30),
        false,
        Err(Reason::Unsound),
    ),
    (
        "as long as one may be then, where the clock is further",
        File::Ends(&[61_077]),
        (false, 100, DAY, 100),
        false,
        Ok((0, 28, 100, 1_100, &[61_100])),
    ),
    (
        "longer than that",
        File::Ends(&[61_078]),
        (false, 100, DAY, 100),
        false,
        Err(Reason::Unsound),
    ),
    (
        "a lease that ends at the end of all time",
        File::Ends(&[u64::MAX]),
        (false, 100, DAY, 100),
        false,
        Err(Reason::Unsound),
    ),
    (
        "more leases than rows",
        File::Ends(&[60_000, 60_000, 60_000, 60_000, 60_000]),
        (true, 70, DAY, 70),
        false,
        Err(Reason::Full),
    ),
    (
        "more leases than rows, of which one ends within the first second",
        File::Ends(&[60_000, 60_000, 1_077, 60_000, 60_000]),
        (false, 30, DAY, 30),
        false,
        Ok((47, 5, 77, 1_077, &[60_000, 60_000, 60_000, 60_000])),
    ),
    (
        "more leases than rows, and all too long",
        File::Ends(&[70_000, 70_000, 70_000, 70_000, 70_000]),
        (true, 70, DAY, 70),
        false,
        Err(Reason::Full),
    ),
    (
        "more leases than rows, once the longest lease has passed",
        File::Ends(&[70_000, 70_000, 70_000, 70_000, 70_000]),
        (true, 60_070, DAY + 60_000, 60_070),
        false,
        Err(Reason::Over),
    ),
    (
        "a server that began after its last time",
        File::Octets(BEGUN_LATER),
        (true, 70, DAY, 70),
        false,
        Err(Reason::Other(Silence::BadTimes)),
    ),
    (
        "a time that no clock can show",
        File::Octets(TOO_LATE),
        (true, 70, DAY, 70),
        false,
        Err(Reason::Other(Silence::BadTimes)),
    ),
    (
        "another longest lease",
        File::Octets(OTHER_LONGEST),
        (true, 70, DAY, 70),
        false,
        Err(Reason::Other(Silence::OtherLongest)),
    ),
    (
        "by the last look, at the last time",
        File::Octets(LOOKED),
        (true, 7_993, DAY + 107_923, 7_993),
        false,
        Ok((7, 5, 8_000, 8_000, &[60_080])),
    ),
    (
        "by the last look, a millisecond before the last time",
        File::Octets(LOOKED),
        (true, 7_992, DAY + 107_922, 7_992),
        false,
        Ok((8, 5, 8_000, 9_000, &[60_080])),
    ),
    (
        "by the time of day of the second line the clocks went apart",
        File::Octets(LOOKED),
        (true, 7_993, DAY + 7_923, 7_993),
        false,
        Ok((7, 5, 8_000, 9_000, &[60_080])),
    ),
    (
        "another boot, a millisecond before the longest lease has passed since the last time",
        File::Octets(LOOKED),
        (false, 30, DAY + 167_922, 30),
        false,
        Ok((7_970, 5, 8_000, 9_000, &[60_080])),
    ),
    (
        "another boot, once it has passed since then",
        File::Octets(LOOKED),
        (false, 30, DAY + 167_923, 30),
        false,
        Err(Reason::Over),
    ),
    (
        "a server in its silence goes on with it",
        File::At(30_000, &[]),
        (false, 31_000, DAY, 31_000),
        false,
        Ok((0, 1_005, 31_000, 32_000, &[])),
    ),
];

pub fn boot_of(rt: &impl Abort, same: bool) -> Boot {
    let text: &[u8] = if same { b"boot-1" } else { b"boot-2" };
    Boot::new(text).expect(rt, "a boot")
}

fn team(rt: &impl Abort) -> Name {
    Name::new(b"TEAM            ", b"").expect(rt, "a name")
}

fn moment(rt: &impl Abort, ms: u64) -> Moment {
    Moment::new(ms).expect(rt, "a moment")
}

/// Writes what is in the file, if there is one.
pub fn write_found(rt: &impl Abort, alloc: Global, file: File<'_>, out: &mut String) {
    match file {
        File::None => {}
        File::Octets(text) => out.push_str(text).expect(rt, "memory"),
        File::Ends(ends) => write_ends(rt, alloc, 77, ends, out),
        File::At(last, ends) => write_ends(rt, alloc, last, ends, out),
        File::Damaged(ends) => {
            write_ends(rt, alloc, 77, ends, out);
            out.push_str("garbage\n").expect(rt, "memory");
        }
    }
}

/// Writes the file of a group whose members' leases end at these times, as it is written at this time.
fn write_ends(rt: &impl Abort, alloc: Global, last: u64, ends: &[u64], out: &mut String) {
    let mut rows = Vec::new(alloc);
    let mut addr: u32 = 0x7F00_0001;
    for end in ends {
        addr = addr.saturating_add(1);
        let lease = Lease {
            addr,
            kind: Kind::Group,
            end: *end,
        };
        rows.push((team(rt), lease)).expect(rt, "memory");
    }
    let header = Header::new(
        Config::new(1000, 60, 4).expect(rt, "limits"),
        boot_of(rt, true),
        7,
        moment(rt, 5),
        moment(rt, last),
        DAY,
    );
    let mut text = String::new(alloc);
    write_file(alloc, &header, rows.as_slice(), &mut text).expect(rt, "a file");
    out.push_str(text.as_str()).expect(rt, "memory");
}

/// What the clocks show in this boot.
pub fn seen_in<'a>(rt: &impl Abort, boot: &'a Boot, shown: Shown) -> Seen<'a> {
    let (_, before, day, monotonic) = shown;
    Seen {
        boot,
        before: moment(rt, before),
        day: moment(rt, day),
        monotonic: moment(rt, monotonic),
    }
}

/// The octets of the file, if there is one.
pub fn kept_of<'a>(file: File<'_>, text: &'a str) -> Option<&'a [u8]> {
    match file {
        File::None => None,
        _ => Some(text.as_bytes()),
    }
}

/// A server begins as the row says.
fn begin_as(rt: &(impl Abort + AllocGlobal), row: &Start<'_>) {
    let (_, file, shown, silent_after_boot, wanted) = *row;
    let mut text = String::new(rt.alloc());
    write_found(rt, rt.alloc(), file, &mut text);
    let boot = boot_of(rt, shown.0);
    let found = Found {
        kept: kept_of(file, text.as_str()),
        config: Config::new(1000, 60, 4).expect(rt, "limits"),
        seen: seen_in(rt, &boot, shown),
        silent_after_boot,
    };
    let begun = begin(rt.alloc(), &found).expect(rt, "begin");
    match wanted {
        Ok(goes) => expect_on(rt, row, &found, &begun, goes),
        Err(reason) => expect_anew(rt, row, &found, &begun, reason),
    }
}

/// The server goes on so.
fn expect_on(
    rt: &(impl Abort + AllocGlobal),
    row: &Start<'_>,
    found: &Found<'_>,
    begun: &Begun,
    (ahead, start, reads, serves, ends): Goes<'_>,
) {
    expect_eq_in(rt, row, &begun.reason, &None);
    let got = (
        begun.start.get(),
        begun.reads.get(),
        begun.server.last().get(),
    );
    expect_eq_in(rt, row, &got, &(start, reads, serves));
    expect_header(rt, row, found, begun, (ahead, start, reads));
    expect_ends(rt, row, begun, ends)
}

/// The server begins anew for this reason: it has no lease, and its clock is the machine's.
fn expect_anew(
    rt: &(impl Abort + AllocGlobal),
    row: &Start<'_>,
    found: &Found<'_>,
    begun: &Begun,
    reason: Reason,
) {
    expect_eq_in(rt, row, &begun.reason, &Some(reason));
    let now = found.seen.monotonic.get();
    let got = (
        begun.start.get(),
        begun.reads.get(),
        begun.server.last().get(),
    );
    expect_eq_in(rt, row, &got, &(now, now, now));
    expect_header(rt, row, found, begun, (0, now, now));
    expect_ends(rt, row, begun, &[])
}

/// The file that the server writes then is of this boot and of this time of day, and says by how much its clock is ahead, when it began,
/// and what its clock reads.
fn expect_header(
    rt: &impl Abort,
    row: &Start<'_>,
    found: &Found<'_>,
    begun: &Begun,
    (ahead, start, reads): (u64, u64, u64),
) {
    let wanted = Header::new(
        found.config,
        boot_of(rt, row.2.0),
        ahead,
        moment(rt, start),
        moment(rt, reads),
        row.2.2,
    );
    expect_eq_in(rt, row, &begun.header, &wanted)
}

/// The leases that live when the server serves end at these times.
fn expect_ends(rt: &impl Abort, row: &Start<'_>, begun: &Begun, ends: &[u64]) {
    let mut found: ArrayVec<u64, 8> = ArrayVec::new();
    for lease in begun.server.table().members(begun.server.last(), &team(rt)) {
        found.try_push(lease.end).ok().expect(rt, "at most 8");
    }
    expect_eq_in(rt, row, &found.as_slice(), &ends)
}

fn begin_all(rt: &(impl Abort + AllocGlobal), rows: &[Start<'_>]) {
    for row in rows {
        begin_as(rt, row);
    }
}

#[test]
fn servers_that_start_over_a_state(rt: HostRuntime) {
    begin_all(&rt, STARTS)
}

/// A query for the group, which has a lease at 120,000.
const QUERY: &str = "0007 0100 one-name TEAM NB";

/// When a datagram comes, and whether it is handled, and not lost. The file was written at 70,000, when the silence of its server was over.
const FIRST_SECOND: [(u64, bool); 4] = [
    (70_000, false),
    (70_999, false),
    (71_000, true),
    (71_001, true),
];

/// The server that begins so handles a datagram, or loses it, as each row says.
fn expect_lost(rt: &(impl Abort + AllocGlobal), begun: Begun) {
    let mut server = begun.server;
    let query = octets(rt, QUERY).expect(rt, "octets");
    let from = Addr {
        ip: 0x7F00_0003,
        port: 137,
    };
    for row in &FIRST_SECOND {
        let mut out = ArrayVec::new();
        let came = server.on_datagram(moment(rt, row.0), from, query.as_slice(), &mut out);
        expect_in(rt, row, came.is_ok() == row.1);
        expect_in(rt, row, out.is_empty() != row.1);
        expect_in(
            rt,
            row,
            came.err()
                == if row.1 {
                    None
                } else {
                    Some(ServerFault::ClockBack)
                },
        );
    }
}

/// A server that goes on by a clock that stood serves nothing in its first second.
#[test]
fn nothing_is_served_in_the_first_second_after_another_boot(rt: HostRuntime) {
    let mut text = String::new(rt.alloc());
    write_found(&rt, rt.alloc(), File::At(70_000, &[120_000]), &mut text);
    let boot = boot_of(&rt, false);
    let found = Found {
        kept: Some(text.as_bytes()),
        config: Config::new(1000, 60, 4).expect(&rt, "limits"),
        seen: seen_in(&rt, &boot, (false, 30, DAY, 30)),
        silent_after_boot: false,
    };
    let begun = begin(rt.alloc(), &found).expect(&rt, "begin");
    expect(&rt, begun.reason.is_none());
    expect_lost(&rt, begun)
}
