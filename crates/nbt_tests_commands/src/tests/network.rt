//! The commands that open sockets: what they do on this machine with nobody else, and what without a machine.

use super::LimitedWriter;
use super::ending::{expect_ending, expect_printed, status_of};
use super::expect::{expect, expect_eq};
use super::looping::end;
use super::machine::Machine;
use super::street::Street;
use super::terminal::words_of;
use nbt_prog::command;
use std::fs::File;
use std::io;
use std::io::ErrorKind;
use std::net::{Net, TcpListener, TcpStream, UdpSocket};
use std::process::Abort;
use std::random::RandomSource;
use std::rt::Files;
use std::time::Clock;

/// All that `loop` tells.
const TOLD: &str = "\
server up
n1 asks FRED: granted 60
n2 asks FRED: refused 6
n1 asks TEAM: granted 60
n2 asks TEAM: granted 60
n2 finds FRED: 127.0.0.2
n2 finds TEAM: 127.0.0.2 127.0.0.3
datagram to FRED: 5 octets
call to FRED: open
message: 5 octets
n1 releases FRED: 0
call to FRED: refused 82
done
";

/// What is done on this machine. The last ones, a server and two nodes, play twice in a row.
static DONE: [(&str, &str, u8); 5] = [
    (
        "nbt lookup FRED --server 127.42.22.1:20138 --bind 127.42.22.2:20138 --tries 1 --wait 1ms",
        "no reply\n",
        5,
    ),
    (
        "nbt serve 127.42.22.1:20138 1000 60 1",
        "turns 1 replies 0 lost 0\n",
        0,
    ),
    (
        "nbt node 127.42.22.2:20138 127.42.22.1:20138 1000 60 FRED group 0 1",
        "not held\n",
        0,
    ),
    ("nbt loop 21037", TOLD, 0),
    ("nbt loop 21037", TOLD, 0),
];

/// What `command` doesn't do, which has no machine. The address 192.0.2.1 is for documents alone (RFC 5737).
static NOT_DONE: [&str; 6] = [
    "nbt lookup FRED --server 127.42.22.1:20138 --bind 127.42.22.2:20138 --tries 1 --wait 1ms",
    "nbt status 192.0.2.1",
    "nbt serve 127.42.22.1:20138 1000 60 1",
    "nbt serve 192.0.2.1:20138 1000 60 1",
    "nbt node 127.42.22.2:20138 127.42.22.1:20138 1000 60 FRED group 0 1",
    "nbt loop 22237",
];

#[test]
fn with_nobody_else(rt: HostRuntime) {
    for row in &DONE {
        let (line, text, status) = *row;
        expect_ending(&rt, &rt, "", line, "", status, text, "");
    }
    for line in &NOT_DONE {
        let words = words_of(&rt, line, "");
        let mut paper = LimitedWriter::new();
        let status = command(rt.alloc(), words.as_slice(), &mut io::empty(), &mut paper);
        expect_printed(&rt, &line, status, &paper, 3, b"device\n");
    }
    expect_usage(&rt);
}

/// No word at all, not even the program's own name, is wrong usage.
fn expect_usage<R: Abort + AllocGlobal>(rt: &R) {
    let words: [&str; 0] = [];
    let mut paper = LimitedWriter::new();
    let status = command(rt.alloc(), &words, &mut io::empty(), &mut paper);
    expect_eq(rt, &"no word", &status, &2);
    let text = paper.text.as_slice();
    expect(
        rt,
        &text,
        text.starts_with(b"NetBIOS over TCP") && text.ends_with(b"\n"),
    );
}

/// Commands whose port can't be bound, since another program has it or since its address is no address of this machine, and what is
/// said of it.
static NOT_BOUND: [(&str, &str); 11] = [
    (
        "nbt lookup FRED --server 127.42.24.2:22337 --bind 127.42.24.1:22337",
        "nbt: 127.42.24.1:22337: Address already in use (os error 98)\n",
    ),
    (
        "nbt status 127.42.24.2:22337 --bind 192.0.2.1:22337",
        "nbt: 192.0.2.1:22337: Cannot assign requested address (os error 99)\n",
    ),
    (
        "nbt serve 127.42.24.1:22337 1000 60 1",
        "nbt: 127.42.24.1:22337: Address already in use (os error 98)\n",
    ),
    (
        "nbt serve 192.0.2.1:22337 1000 60 --forever",
        "nbt: 192.0.2.1:22337: Cannot assign requested address (os error 99)\n",
    ),
    (
        "nbt node 127.42.24.1:22337 127.42.24.2:22337 1000 60 FRED unique 60 --forever",
        "nbt: 127.42.24.1:22337: Address already in use (os error 98)\n",
    ),
    (
        "nbt node 192.0.2.1:22337 127.42.24.2:22337 1000 60 FRED unique 60 1",
        "nbt: 192.0.2.1:22337: Cannot assign requested address (os error 99)\n",
    ),
    (
        "nbt loop 22237",
        "nbt: 127.0.0.2:22238: Address already in use (os error 98)\n",
    ),
    (
        "nbt loop 22437",
        "nbt: 127.0.0.2:22439: Address already in use (os error 98)\n",
    ),
    (
        "nbt serve 192.0.2.1:20138 1000 60 1",
        "nbt: 192.0.2.1:20138: Cannot assign requested address (os error 99)\n",
    ),
    (
        "nbt nbns --bind 127.42.22.4:20138",
        "nbt: 127.42.22.4:20138: Address already in use (os error 98)\n",
    ),
    (
        "nbt release FRED --server 127.42.24.2:22337 --bind 192.0.2.1:22337",
        "nbt: 192.0.2.1:22337: Cannot assign requested address (os error 99)\n",
    ),
];

/// Scans whose port another program has, and what they print: with --json each line is an object.
static NOT_SCANNED: [(&str, &str); 2] = [
    ("nbt scan 127.42.24.2 --bind 127.42.24.1:22337", "device\n"),
    (
        "nbt scan 127.42.24.2 --bind 127.42.24.1:22337 --json",
        "{\"error\":\"device\"}\n",
    ),
];

/// Commands that bind a port first, what they print and end with where the machine has no memory for it, and what is said at last.
static BINDING: [(&str, &str, u8, &[u8]); 9] = [
    (
        "nbt serve 127.42.24.1:22337 1000 60 --forever",
        "device\n",
        3,
        b"nbt: 127.42.24.1:22337: out of memory\n",
    ),
    (
        "nbt node 127.42.24.1:22337 127.42.24.2:22337 1000 60 FRED unique 60 1",
        "device\n",
        3,
        b"nbt: 127.42.24.1:22337: out of memory\n",
    ),
    (
        "nbt loop 22237",
        "memory\n",
        4,
        b"nbt: memory was refused\n",
    ),
    // Without --bind they are at every address of this machine: those that ask at a port that the system chooses, and the server at 137 of each.
    (
        "nbt lookup FRED --server 127.42.24.2:22337",
        "device\n",
        3,
        b"nbt: 0.0.0.0:0: out of memory\n",
    ),
    // An own address without a port is at a port that the system chooses, too.
    (
        "nbt lookup FRED --server 127.42.24.1:137 --bind 127.42.24.1",
        "device\n",
        3,
        b"nbt: 127.42.24.1:0: out of memory\n",
    ),
    (
        "nbt status 127.42.24.2:22337",
        "device\n",
        3,
        b"nbt: 0.0.0.0:0: out of memory\n",
    ),
    (
        "nbt host FRED --server 127.42.24.2:22337 --bind 127.42.24.1:22337",
        "device\n",
        3,
        b"nbt: 127.42.24.1:22337: out of memory\n",
    ),
    (
        "nbt scan 127.42.24.2 --json",
        "{\"error\":\"memory\"}\n",
        4,
        b"nbt: 0.0.0.0:0: out of memory\nnbt: memory was refused\n",
    ),
    (
        "nbt nbns",
        "memory\n",
        4,
        b"nbt: /proc/net/fib_trie: out of memory; one socket serves all addresses\nnbt: 0.0.0.0:137: out of memory\nnbt: memory was refused\n",
    ),
];

fn expect_not_bound<R: Abort + AllocGlobal + Net + Clock + RandomSource + Files<File = File>>(
    rt: &R,
) {
    for row in &NOT_BOUND {
        let (line, said) = *row;
        expect_ending(rt, rt, "", line, "", 3, "device\n", said);
    }
    let said = "nbt: 127.42.24.1:22337: Address already in use (os error 98)\n";
    for row in &NOT_SCANNED {
        let (line, text) = *row;
        expect_ending(rt, rt, "", line, "", 3, text, said);
    }
}

/// A port below 1024 without privileges, and another one: what is printed, and how standard error ends.
static UNPRIVILEGED: [(&str, &str, u8, &[u8]); 7] = [
    (
        "nbt nbns --bind 127.42.24.1",
        "device\n",
        3,
        b"nbt: 127.42.24.1:137: permission denied\nnbt: a port below 1024 needs privileges: run it as root or with CAP_NET_BIND_SERVICE, or give it another one by --bind ADDRESS:PORT\n",
    ),
    (
        "nbt nbns",
        "device\n",
        3,
        b"nbt: 0.0.0.0:137: permission denied\nnbt: a port below 1024 needs privileges: run it as root or with CAP_NET_BIND_SERVICE, or give it another one by --bind ADDRESS:PORT\n",
    ),
    (
        "nbt host FRED --server 127.42.24.2 --bind 127.42.24.1:1023",
        "device\n",
        3,
        b"nbt: 127.42.24.1:1023: permission denied\nnbt: a port below 1024 needs privileges: run it as root or with CAP_NET_BIND_SERVICE, or give it another one by --bind ADDRESS:PORT\n",
    ),
    (
        "nbt release FRED --server 127.42.24.2 --bind 127.42.24.1",
        "device\n",
        3,
        b"nbt: 127.42.24.1:137: permission denied\nnbt: a port below 1024 needs privileges: run it as root or with CAP_NET_BIND_SERVICE, or give it another one by --bind ADDRESS:PORT\n",
    ),
    (
        "nbt nbns --bind 127.42.24.1:1024",
        "device\n",
        3,
        b"nbt: 127.42.24.1:1024: permission denied\n",
    ),
    (
        "nbt host FRED --server 127.42.24.2 --bind 127.42.24.1:1024",
        "device\n",
        3,
        b"nbt: 127.42.24.1:1024: permission denied\n",
    ),
    // The commands of the bench say what they always said.
    (
        "nbt serve 127.42.24.1:137 1000 60 --forever",
        "device\n",
        3,
        b"nbt: 127.42.24.1:137: permission denied\n",
    ),
];

/// A program that has as many open files as it may.
static WITHOUT_FILES: [(&str, &str, u8, &[u8]); 4] = [
    (
        "nbt nbns --bind 127.42.24.1",
        "device\n",
        3,
        b"nbt: 127.42.24.1:137: Too many open files (os error 24)\nnbt: each address takes an open file: allow more of them by `ulimit -n`, or by LimitNOFILE= of a unit\n",
    ),
    (
        "nbt nbns",
        "device\n",
        3,
        b"nbt: 0.0.0.0:137: Too many open files (os error 24)\nnbt: each address takes an open file: allow more of them by `ulimit -n`, or by LimitNOFILE= of a unit\n",
    ),
    (
        "nbt host FRED --server 127.42.24.2 --bind 127.42.24.1",
        "device\n",
        3,
        b"nbt: 127.42.24.1:137: Too many open files (os error 24)\nnbt: each address takes an open file: allow more of them by `ulimit -n`, or by LimitNOFILE= of a unit\n",
    ),
    // The commands of the bench say what they always said.
    (
        "nbt serve 127.42.24.1:137 1000 60 --forever",
        "device\n",
        3,
        b"nbt: 127.42.24.1:137: Too many open files (os error 24)\n",
    ),
];

/// None of its sockets is at that port, since its machine refuses it for this reason.
fn expect_refused<R>(
    rt: &R,
    port: &UdpSocket,
    error: io::Error,
    rows: &[(&'static str, &'static str, u8, &'static [u8])],
)
where
    R: Abort + AllocGlobal + Net<Stream = TcpStream, Listener = TcpListener> + Files<File = File>,
{
    let street = Street::new();
    let machine = Machine {
        refusal: Some(error),
        ..Machine::new(rt, port, port, &street)
    };
    for row in rows {
        let (line, text, status, said) = *row;
        let mut paper = LimitedWriter::new();
        let mut errors = LimitedWriter::new();
        let got = status_of(rt, &machine, line, "", &mut paper, &mut errors);
        expect_printed(rt, &line, got, &paper, status, text.as_bytes());
        expect(rt, &line, errors.text.as_slice().ends_with(said));
    }
}

#[test]
fn ports_that_can_not_be_had(rt: HostRuntime) {
    let taken = UdpSocket::bind(&rt, "127.42.24.1:22337").expect(&rt, "a port");
    let _served = UdpSocket::bind(&rt, "127.42.22.4:20138").expect(&rt, "a port");
    let _datagrams = UdpSocket::bind(&rt, end(2, 22238)).expect(&rt, "a port");
    let _sessions = TcpListener::bind(&rt, end(2, 22439)).expect(&rt, "a port");
    expect_not_bound(&rt);
    expect_refused(
        &rt,
        &taken,
        io::Error::from(ErrorKind::OutOfMemory),
        &BINDING,
    );
    expect_refused(
        &rt,
        &taken,
        io::Error::from(ErrorKind::PermissionDenied),
        &UNPRIVILEGED,
    );
    expect_refused(
        &rt,
        &taken,
        io::Error::from_raw_os_error(24),
        &WITHOUT_FILES,
    );
}
