//! Tables of more than 4,096 rows: their limits, one that is full, leases that end at once, and one client among many.

ghost use Rattle.std.specs.Prelude.{◌≤◌};

use super::at;
use super::expect::{expect, expect_eq, expect_eq_in, expect_in};
use arrayvec::ArrayVec;
use nbt_lease::{Config, ConfigFault, GrantFault, Lease, Moment, Released, Table};
use nbt_name::{Addr, Kind, Name};
use nbt_server::Server;
use nbt_testing::octets;
use std::fs;
use std::hash::RandomState;
use std::process::Abort;
use std::rt::Files;

/// A lease of 60 s that begins at 0 is over at this moment.
const OVER: u64 = 60_000;

/// The client that has several leases.
const CLIENT: u32 = 0x0A00_0001;

/// How many rows tables have.
const SIZES: [u32; 2] = [4_097, 65_536];

/// The name of a number: its letters are those of the number in hexadecimal.
fn numbered(rt: &impl Abort, number: u32) -> Name {
    let mut octets = *b"N00000000       ";
    let mut rest = number;
    for place in 1..9 {
        octets[place] = b'A' + (rest % 16) as u8;
        rest /= 16;
    }
    Name::new(&octets, b"").expect(rt, "a name")
}

/// The moment, which must not lie before the table's last one.
fn later(rt: &impl Abort, table: &Table, ms: u64) -> Moment
    ensures { table.now.last ≤ result }
{
    let now = at(rt, ms);
    expect_in(rt, &"moments go on", table.last() <= now);
    now
}

/// What comes of a number's name that is asked for by an address, for 60 s.
fn grant(
    rt: &impl Abort,
    table: &mut Table,
    ms: u64,
    number: u32,
    addr: u32,
) -> Option<GrantFault> {
    let now = later(rt, table, ms);
    let name = numbered(rt, number);
    table.grant(now, &name, addr, Kind::Unique, 60).err()
}

/// A table that has room for so many leases, and has them: each of a name and an address of its own, up to 60 s.
fn full_table<R: Abort + AllocGlobal>(rt: &R, rows: u32) -> Table {
    let config = Config::large(1000, 60, rows as usize).expect(rt, "limits");
    let mut table = Table::new(rt.alloc(), config);
    for number in 0..rows {
        expect_eq_in(
            rt,
            &number,
            &grant(rt, &mut table, 0, number, number),
            &None,
        );
    }
    table
}

#[test]
fn limits_of_many_rows(rt: HostRuntime) {
    for rows in [0, 1_048_577] {
        let refused = Config::large(1, 1, rows).err();
        expect_eq(&rt, &refused, &Some(ConfigFault::Rows));
    }
    for rows in [1, 4_097, 1_048_576] {
        let config = Config::large(60_000, 1_000_000, rows).expect(&rt, "limits");
        expect_eq(&rt, &config.rows(), &rows);
        expect_eq(&rt, &config.life(), &60_000);
        expect_eq(&rt, &config.longest(), &1_000_000);
    }
    expect_eq(&rt, &Config::large(0, 0, 0).err(), &Some(ConfigFault::Life));
    expect_eq(
        &rt,
        &Config::large(1, 0, 0).err(),
        &Some(ConfigFault::Longest),
    );
}

/// How many rows a table has, those that are over too.
fn count_rows<R: Abort + AllocGlobal>(rt: &R, table: &Table) -> usize {
    let mut rows = Vec::new(rt.alloc());
    table.list_rows(&mut rows).expect(rt, "memory");
    rows.len()
}

/// A grant and a release remove 64 rows that are over, and their own, and no more.
fn expect_few_removed<R: Abort + AllocGlobal>(rt: &R, table: &mut Table, rows: u32) {
    let stand = |gone| (rows as usize).saturating_sub(gone);
    let none = grant(rt, table, OVER, rows, rows);
    expect_eq_in(rt, &rows, &none, &None);
    expect_eq_in(rt, &rows, &count_rows(rt, table), &stand(64 - 1));
    let none = grant(rt, table, OVER, 1_000, 1_000);
    expect_eq_in(rt, &rows, &none, &None);
    expect_eq_in(rt, &rows, &count_rows(rt, table), &stand(128 - 1));
    let now = later(rt, table, OVER);
    let gone = table.release(now, &numbered(rt, 2_000), 2_000);
    expect_eq_in(rt, &rows, &gone, &Released::NoLease);
    expect_eq_in(rt, &rows, &count_rows(rt, table), &stand(192));
}

#[test]
fn a_call_removes_few_of_many_that_are_over(rt: HostRuntime) {
    for rows in SIZES {
        expect_few_removed(&rt, &mut full_table(&rt, rows), rows);
    }
}

/// A lease of a number's name.
fn lease_of(rt: &impl Abort, number: u32, addr: u32, end: u64) -> (Name, Lease) {
    let lease = Lease {
        addr,
        kind: Kind::Unique,
        end,
    };
    (numbered(rt, number), lease)
}

/// A server of a hundred leases that are soon over, and of the one that its client may have.
fn server_of_many<R: Abort + AllocGlobal>(rt: &R) -> Server {
    let mut rows = Vec::new(rt.alloc());
    for number in 0..100 {
        rows.push(lease_of(rt, number, number, 1_000_001))
            .expect(rt, "memory");
    }
    rows.push(lease_of(rt, 100, CLIENT, 1_060_000))
        .expect(rt, "memory");
    let config = Config::large(1000, 60, 4_097).expect(rt, "limits");
    let (zero, now) = (Moment::zero(), at(rt, 1_000_000));
    let mut server = Server::resume(rt.alloc(), config, zero, zero, now, rows.as_slice())
        .ok()
        .expect(rt, "a server");
    server.limit_clients(1);
    server
}

/// A client that is full is refused, and each time 64 leases that are over are removed: while some stand, its own are counted one by one.
#[test]
fn leases_that_are_over_go_where_a_client_is_full(rt: HostRuntime) {
    let mut server = server_of_many(&rt);
    let text = "0001 2900 two-parts TEAM NB again NB 60s group 0a000001";
    let asks = octets(&rt, text).expect(&rt, "octets");
    let from = Addr {
        ip: CLIENT,
        port: 137,
    };
    for left in [37, 1, 1] {
        let mut out = ArrayVec::new();
        let now = at(&rt, 1_000_001);
        let replies = server.on_datagram(now, from, asks.as_slice(), &mut out);
        expect_eq(&rt, &replies, &Ok(true));
        let rcode = out.as_slice().get(3).map(|octet| *octet & 15);
        expect_eq(&rt, &rcode, &Some(2));
        expect_eq(&rt, &count_rows(&rt, server.table()), &left);
    }
}

/// How many octets of address space this process has.
fn address_space<R: Abort + AllocGlobal + Files>(rt: &R) -> u64 {
    let text = fs::read_to_string(rt, "/proc/self/statm").expect(rt, "its sizes");
    let pages: u64 = text
        .as_str()
        .split(' ')
        .next()
        .and_then(|word| word.parse().ok())
        .expect(rt, "a number of pages");
    pages.saturating_mul(4_096)
}

/// Room for all rows is taken at once, once: a name has 237 octets at least. What the table had stays, and its calls are as before.
#[test]
fn a_table_takes_room_for_all_its_rows(rt: HostRuntime) {
    let config = Config::large(1000, 60, 1_048_576).expect(&rt, "limits");
    let mut table = Table::new(rt.alloc(), config);
    for number in 0..100 {
        expect_eq(&rt, &grant(&rt, &mut table, 0, number, number), &None);
    }
    let before = address_space(&rt);
    let keys = RandomState::new(&rt).expect(&rt, "random octets");
    table.make_room(keys).expect(&rt, "memory");
    let room = address_space(&rt).saturating_sub(before);
    expect(&rt, 1_048_576 * 237 < room && room < 1_048_576 * 474);
    for number in 0..200 {
        let wanted = (number < 100).then_some(GrantFault::Active);
        expect_eq_in(
            &rt,
            &number,
            &grant(&rt, &mut table, 0, number, CLIENT),
            &wanted,
        );
    }
    expect_eq(&rt, &count_rows(&rt, &table), &200);
    // What the calls themselves take is far less than a table that moves.
    let more = address_space(&rt).saturating_sub(before.saturating_add(room));
    expect(&rt, more < 1_048_576);
}

/// Nothing is kept of an address that has no lease any more: as many as come and go, a table is as large as before.
#[test]
fn addresses_that_come_and_go_take_no_room(rt: HostRuntime) {
    let config = Config::large(1000, 60, 4_097).expect(&rt, "limits");
    let mut table = Table::new(rt.alloc(), config);
    let mut before = 0;
    for addr in 0..30_000 {
        if addr == 100 {
            before = address_space(&rt);
        }
        let none = grant(&rt, &mut table, 0, 0, addr);
        expect_eq_in(&rt, &addr, &none, &None);
        let now = later(&rt, &table, 0);
        let gone = table.release(now, &numbered(&rt, 0), addr);
        expect_eq_in(&rt, &addr, &gone, &Released::Gone);
    }
    let room = address_space(&rt).saturating_sub(before);
    expect(&rt, room < 262_144);
}

/// Has an address lease a number's name. Where memory is refused for that the same call is made once more.
fn grow(rt: &impl Abort, table: &mut Table, number: u32) {
    let mut refused = grant(rt, table, 0, number, number);
    if refused == Some(GrantFault::OutOfMemory) {
        refused = grant(rt, table, 0, number, number);
    }
    expect_eq_in(rt, &number, &refused, &None);
}

/// A table of a million rows grows, and takes room. With `rt try --test --fail-alloc N` the Nth allocation is refused. Where it is one of
/// these calls', the call says so, the leases are as before, and the same call with memory is done.
#[test]
fn refused_memory_at_each_growth_of_a_large_table(rt: HostRuntime) {
    let config = Config::large(1000, 60, 1_048_576).expect(&rt, "limits");
    let mut table = Table::new(rt.alloc(), config);
    for number in 0..40 {
        grow(&rt, &mut table, number);
    }
    let keys = RandomState::new(&rt).expect(&rt, "random octets");
    if table.make_room(keys).is_err() {
        expect_eq(&rt, &count_rows(&rt, &table), &40);
        table.make_room(keys).expect(&rt, "memory");
    }
    for number in 0..80 {
        grow(&rt, &mut table, number);
    }
    expect_eq(&rt, &count_rows(&rt, &table), &80);
}

/// A table is full at its rows, to the last millisecond; then all of its leases end at once, and there is room.
#[test]
fn many_leases_end_at_once(rt: HostRuntime) {
    let full = Some(GrantFault::TableFull);
    for rows in SIZES {
        let mut table = full_table(&rt, rows);
        for ms in [0, OVER - 1] {
            let refused = grant(&rt, &mut table, ms, rows, CLIENT);
            expect_eq_in(&rt, &rows, &refused, &full);
        }
        for number in rows..rows + 100 {
            let none = grant(&rt, &mut table, OVER, number, number);
            expect_eq_in(&rt, &number, &none, &None);
        }
        expect_none(&rt, &table, 0);
        expect_none(&rt, &table, rows - 1);
    }
}

/// The name of a number has no live lease.
fn expect_none(rt: &impl Abort, table: &Table, number: u32) {
    let now = later(rt, table, OVER);
    let name = numbered(rt, number);
    expect_in(rt, &number, table.least_end(now, &name).is_none());
}

/// A name that is released leaves room for one; a client has as many leases as it has, also once those of all others are over.
#[test]
fn one_client_among_many(rt: HostRuntime) {
    let rows = 100_000;
    let mut table = full_table(&rt, rows);
    for number in 0..64 {
        let now = later(&rt, &table, 1);
        let gone = table.release(now, &numbered(&rt, number), number);
        expect_eq_in(&rt, &number, &gone, &Released::Gone);
        let none = grant(&rt, &mut table, 1, rows + number, CLIENT);
        expect_eq_in(&rt, &number, &none, &None);
    }
    for ms in [1, OVER] {
        let now = later(&rt, &table, ms);
        expect_in(&rt, &ms, table.has_at_least(now, CLIENT, 64));
        expect_in(&rt, &ms, !table.has_at_least(now, CLIENT, 65));
        expect_in(&rt, &ms, !table.has_at_least(now, CLIENT + 1, 1));
    }
    let now = later(&rt, &table, OVER + 1);
    expect(&rt, !table.has_at_least(now, CLIENT, 1));
}
