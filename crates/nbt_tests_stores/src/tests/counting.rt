//! The statistics of a server over a folder of this machine: they go on counting what its devices do.

use super::expect::expect;
use super::following::{Client, arguments, machine_beside, path_for};
use nbt_front::{Front, read_fixed};
use nbt_name::Addr;
use nbt_nbns::{ServerArguments, run_server};
use nbt_port::Bind;
use nbt_testing::{REGISTRATION, config, octets, registration_of_many};
use std::fs::File;
use std::net::{Ipv4Addr, Net, SocketAddr, UdpSocket};
use std::process::Abort;
use std::random::RandomSource;
use std::rt::Files;
use std::{fs, time};

/// A port that no other test has, of the server at 127.0.0.1 and of the client at 127.0.0.2.
const PORT: u16 = 20_201;

/// Another one's name, which is fixed.
const FIXED: &str = "FRED#20 unique 127.0.0.3\n";

/// A client that wants the fixed name, and another one.
fn client<R: Abort + AllocGlobal + Net>(rt: &R) -> Client {
    let here = SocketAddr::from((Ipv4Addr::new(127, 0, 0, 2), PORT));
    Client {
        socket: UdpSocket::bind(rt, here).expect(rt, "bound"),
        to: SocketAddr::from((Ipv4Addr::new(127, 0, 0, 1), PORT)),
        packets: [
            octets(rt, REGISTRATION).expect(rt, "octets"),
            registration_of_many(rt, 1).expect(rt, "a registration"),
        ],
    }
}

/// A server that ends when its silence of 60 s is over for 140 s, and keeps statistics in this file.
fn counted<R: Abort + AllocGlobal>(rt: &R, folder: &str, stats: &str) -> ServerArguments {
    let Ok(fixed) = read_fixed(rt.alloc(), FIXED.as_bytes()) else {
        panic!(rt; "no names");
    };
    let here = Addr {
        ip: 0x7F00_0001,
        port: PORT,
    };
    let mut arguments = arguments(rt, Some(folder));
    arguments.nbns.bind = Bind::To(vec![in rt.alloc(); here].expect(rt, "memory"));
    arguments.nbns.time = Some(200_000);
    arguments.nbns.stats = Some(String::from_str(rt.alloc(), stats).expect(rt, "memory"));
    arguments.nbns.front = Front::new(Vec::new(rt.alloc()), fixed, config(16).expect(rt, "limits"));
    arguments
}

/// Runs it, while the client sends at each reading of a clock that shows ten seconds more each time.
fn run_counted<R: Abort + AllocGlobal + Net + time::Clock + RandomSource + Files<File = File>>(
    rt: &R,
    arguments: &ServerArguments,
) {
    run_beside(rt, &client(rt), arguments)
}

fn run_beside<'a, R: Abort + AllocGlobal + Net + time::Clock + RandomSource + Files<File = File>>(
    rt: &'a R,
    client: &'a Client,
    arguments: &ServerArguments,
) {
    let machine = machine_beside(rt, client);
    let mut printed = Vec::new(rt.alloc());
    let mut errors = Vec::new(rt.alloc());
    let ended = run_server(&machine, rt.alloc(), arguments, &mut printed, &mut errors);
    expect(rt, ended.is_ok());
}

/// The number behind this name.
fn number_of(text: &str, name: &str) -> Option<u64> {
    for line in text.lines() {
        if let Some(number) = line.strip_prefix(name) {
            return number.trim_start().parse().ok();
        }
    }
    None
}

/// A sync follows the one at the start, and the front replies itself.
#[test]
fn statistics_of_a_kept_server_go_on(rt: HostRuntime) {
    let folder = path_for(&rt, "counted").expect(&rt, "a path");
    let stats = path_for(&rt, "counted.prom").expect(&rt, "a path");
    fs::create_dir(&rt, folder.as_str()).expect(&rt, "a folder");
    run_counted(&rt, &counted(&rt, folder.as_str(), stats.as_str()));
    expect_counted(
        &rt,
        fs::read_to_string(&rt, stats.as_str())
            .expect(&rt, "its text")
            .as_str(),
    );
    fs::remove_file(&rt, stats.as_str()).expect(&rt, "removed");
    fs::remove_dir_all(&rt, folder.as_str()).expect(&rt, "removed");
}

fn expect_counted(rt: &impl Abort, text: &str) {
    let syncs = number_of(text, "nbt_nbns_state_syncs_total ");
    let refused = number_of(
        text,
        "nbt_nbns_own_replies_total{result=\"fixed_refused\"} ",
    );
    expect(rt, syncs > Some(1));
    expect(rt, refused > Some(0));
}
