//! What a server over a folder of this machine says at its start of leases that stand in the way of fixed names.

use super::expect::{expect_eq_in, expect_in};
use super::following::{arguments, path_for};
use nbt_front::{Front, read_fixed};
use nbt_name::Addr;
use nbt_nbns::{ServerArguments, run_server};
use nbt_port::Bind;
use nbt_testing::config;
use std::fs::File;
use std::net::Net;
use std::process::Abort;
use std::random::RandomSource;
use std::rt::Files;
use std::{fs, time};

/// A port that no other test has.
const PORT: u16 = 20_202;

/// The file of another boot, whose time of day is yet to come, with a lease of FRED.
const LEASED: &str = "nbt leases, version 3\n\
1000 60 16 another-boot 0 0 100000 4000000000000 1 ec38cef8\n\
began FRED 127.0.0.2:137 - unique 150000 100000 0fdd1e8b\n";

/// What is said before the time and behind it, and of how many octets a time is.
const BEFORE: &str = "nbt: fixed name FRED#20: leased to 127.0.0.2 until ";

const BEHIND: &str = "Z, which stands until it ends\n";

const TIME: usize = 19;

/// The fixed names, and whether the lease stands in their way.
const FIXED: &[(&str, bool)] = &[
    ("FRED#20 unique 127.0.0.3\n", true),
    ("FRED#20 group 127.0.0.2\nFRED#20 group 127.0.0.3\n", true),
    ("FRED#20 unique 127.0.0.2\n", false),
    (
        "FRED#00 unique 127.0.0.3\nTEAM#20 unique 127.0.0.3\n",
        false,
    ),
    ("", false),
];

/// A server that ends after its first turn.
fn fixing<R: Abort + AllocGlobal>(rt: &R, folder: &str, names: &str) -> ServerArguments {
    let Ok(fixed) = read_fixed(rt.alloc(), names.as_bytes()) else {
        panic!(rt; "no names");
    };
    let here = Addr {
        ip: 0x7F2A_1707,
        port: PORT,
    };
    let mut arguments = arguments(rt, Some(folder));
    arguments.nbns.bind = Bind::To(vec![in rt.alloc(); here].expect(rt, "memory"));
    arguments.nbns.time = Some(0);
    arguments.nbns.front = Front::new(Vec::new(rt.alloc()), fixed, config(16).expect(rt, "limits"));
    arguments
}

fn expect_said<R: Abort + AllocGlobal + Net + time::Clock + RandomSource + Files<File = File>>(
    rt: &R,
    folder: &str,
    row: &(&str, bool),
) {
    let (names, stands) = *row;
    let leases = format!(in rt.alloc(); "{folder}/leases").expect(rt, "memory");
    fs::write(rt, leases.as_str(), LEASED).expect(rt, "written");
    let arguments = fixing(rt, folder, names);
    let mut printed = Vec::new(rt.alloc());
    let mut errors = Vec::new(rt.alloc());
    let ended = run_server(rt, rt.alloc(), &arguments, &mut printed, &mut errors);
    expect_in(rt, row, ended.is_ok());
    let said = errors.as_slice();
    let whole = BEFORE.len() + TIME + BEHIND.len();
    expect_eq_in(rt, row, &said.len(), &(if stands { whole } else { 0 }));
    expect_eq_in(rt, row, &said.starts_with(BEFORE.as_bytes()), &stands);
    expect_eq_in(rt, row, &said.ends_with(BEHIND.as_bytes()), &stands);
}

#[test]
fn a_start_says_which_leases_stand_in_the_way_of_fixed_names(rt: HostRuntime) {
    let folder = path_for(&rt, "fixing").expect(&rt, "a path");
    fs::create_dir(&rt, folder.as_str()).expect(&rt, "a folder");
    for row in FIXED {
        expect_said(&rt, folder.as_str(), row);
    }
    fs::remove_dir_all(&rt, folder.as_str()).expect(&rt, "removed");
}
