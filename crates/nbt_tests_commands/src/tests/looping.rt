//! The command `loop` with strangers on its network, and with connections that fail.

use super::LimitedWriter;
use super::ending::{expect_ending, expect_printed};
use super::expect::expect_eq;
use super::machine::Machine;
use super::street::{Luck, Street};
use arrayvec::ArrayVec;
use nbt_prog::command_telling;
use std::cell::Cell;
use std::fs::File;
use std::io;
use std::io::Write;
use std::net::{IpAddr, Ipv4Addr, Net, SocketAddr, TcpListener, TcpStream, UdpSocket};
use std::process::Abort;
use std::rt::Files;
use std::time::Duration;

/// An address of this machine.
pub fn end(last: u8, port: u16) -> SocketAddr {
    SocketAddr::new(IpAddr::V4(Ipv4Addr::new(127, 0, 0, last)), port)
}

/// The luck of the first connection at the end that calls and at the end that listens, and how many connections both
/// calls are made with.
static LUCKS: [(Luck, Luck, usize); 17] = [
    (Luck::Well, Luck::Well, 2),
    (Luck::Refused, Luck::Well, 3),
    (Luck::Mute, Luck::Well, 3),
    (Luck::Deaf, Luck::Well, 3),
    (Luck::Garbled, Luck::Well, 3),
    (Luck::Well, Luck::Mute, 3),
    (Luck::Well, Luck::Deaf, 3),
    (Luck::Well, Luck::Garbled, 3),
    (Luck::Well, Luck::Silent, 3),
    (Luck::Interrupted, Luck::Well, 2),
    (Luck::Well, Luck::Interrupted, 2),
    (Luck::Well, Luck::Signalled, 2),
    (Luck::Untimed, Luck::Well, 3),
    (Luck::Well, Luck::Untimed, 3),
    (Luck::Nameless, Luck::Well, 3),
    (Luck::Slow, Luck::Well, 2),
    (Luck::Well, Luck::Slow, 2),
];

/// A datagram from TEAM at 127.0.0.4:21340 to NONE, which is nobody's name.
static TO_NOBODY: &[u8] =
    b"\x10\x06\x00\x07\x7F\x00\x00\x04\x53\x5C\x00\x49\x00\x00 FEEFEBENCACACACACACACACACACACACA\x00 EOEPEOEFCACACACACACACACACACACACA\x00hello";

/// The same from 127.0.0.4:101, a port below those of this protocol.
static TO_NOBODY_FROM_BELOW: &[u8] =
    b"\x10\x06\x00\x07\x7F\x00\x00\x04\x00\x65\x00\x49\x00\x00 FEEFEBENCACACACACACACACACACACACA\x00 EOEPEOEFCACACACACACACACACACACACA\x00hello";

/// What comes of it: an error from n1's own port, 127.0.0.2:21138 (RFC 1002 section 4.4.3).
static NOT_PRESENT: &[u8] = b"\x13\x06\x00\x07\x7F\x00\x00\x02\x52\x92\x82";

/// A reply to the lookup of FRED that `n2` makes as its third request: FRED is at 127.0.0.2, and at 127.0.0.9 too.
static FOUND_TWICE: &[u8] =
    b"\x00\x03\x85\x80\x00\x00\x00\x01\x00\x00\x00\x00 EGFCEFEECACACACACACACACACACACACA\x00\x00\x20\x00\x01\x00\x00\x00\x3C\x00\x0C\x20\x00\x7F\x00\x00\x02\x20\x00\x7F\x00\x00\x09";

/// All that is told where that one came to `n2` before the server's own.
static TOLD_TWICE: &str = "\
server up
n1 asks FRED: granted 60
n2 asks FRED: refused 6
n1 asks TEAM: granted 60
n2 asks TEAM: granted 60
n2 finds FRED: 127.0.0.2 127.0.0.9
n2 finds TEAM: 127.0.0.2 127.0.0.3
datagram to FRED: 5 octets
call to FRED: open
message: 5 octets
n1 releases FRED: 0
call to FRED: refused 82
done
";

/// How many ends of connections are open as each of these lines is told: both of the call from when it is open to when it
/// is hung up, and none of a call that is refused.
static OPEN: [usize; 13] = [0, 0, 0, 0, 0, 0, 0, 0, 2, 2, 0, 0, 0];

/// A port below those of this protocol, and one above.
const BELOW: u16 = 101;

const ABOVE: u16 = 21340;

/// A network where the first connection has this luck at its two ends, and TEAM at this port sends to nobody.
fn street_of(caller: Luck, listener: Luck, teller: u16) -> Street {
    let octets = if teller == BELOW {
        TO_NOBODY_FROM_BELOW
    } else {
        TO_NOBODY
    };
    Street {
        strangers: Some((end(3, 21138), octets, end(2, 21138))),
        caller: Cell::new(caller),
        listener,
        ..Street::new()
    }
}

/// The port at which TEAM is told that its datagram was for nobody: the one below where this program may have it.
fn teller_of(rt: &HostRuntime) -> io::Result<UdpSocket> {
    match UdpSocket::bind(rt, end(4, BELOW)) {
        Err(error) if error.kind() == io::ErrorKind::PermissionDenied => {
            UdpSocket::bind(rt, end(4, ABOVE))
        }
        bound => bound,
    }
}

/// What is told, with how many ends of connections were open as each line was. Before the first lookup the server's socket
/// sends `n2` a reply to it.
#[derive(Drop)]
struct Watcher<'a> {
    paper: LimitedWriter,
    open: ArrayVec<usize, 16>,
    street: &'a Street,
    server: &'a UdpSocket,
}

impl<'a> Write for Watcher<'a> {
    fn write(&mut self, buf: &[u8]) -> io::Result<usize> {
        let _ = self.open.try_push(self.street.open.get());
        if buf.starts_with(b"n2 asks TEAM") {
            self.server.send_to(FOUND_TWICE, end(3, 21137))?;
        }
        self.paper.write(buf)
    }

    fn flush(&mut self) -> io::Result<()> {
        self.paper.flush()
    }
}

/// Plays `loop` on this network. Both calls are made with as many connections.
fn expect_told<'a, R>(
    rt: &'a R,
    row: usize,
    server: &'a UdpSocket,
    stranger: &'a UdpSocket,
    street: &'a Street,
    connections: usize,
)
where
    R: Abort + AllocGlobal + Net<Stream = TcpStream, Listener = TcpListener> + Files<File = File>,
{
    let machine = Machine::new(rt, server, stranger, street);
    let mut told = Watcher {
        paper: LimitedWriter::new(),
        open: ArrayVec::new(),
        street,
        server,
    };
    let status = command_telling(
        &machine,
        rt.alloc(),
        &["nbt", "loop", "21137"],
        &mut io::empty(),
        &mut told,
        &mut io::sink(),
    );
    expect_printed(rt, &row, status, &told.paper, 0, TOLD_TWICE.as_bytes());
    expect_eq(rt, &row, &told.open.as_slice(), &OPEN.as_slice());
    expect_eq(rt, &row, &street.connections.get(), &connections);
}

/// Plays `loop` where the first connection has the luck of this row at its two ends, and TEAM at this port sends to nobody. The
/// stranger is at a port of its own.
fn expect_luck<R>(rt: &R, row: usize, lucks: &(Luck, Luck, usize), teller: u16)
where
    R: Abort + AllocGlobal + Net<Stream = TcpStream, Listener = TcpListener> + Files<File = File>,
{
    let (caller, listener, connections) = *lucks;
    let server = UdpSocket::bind(rt, end(1, 21137)).expect(rt, "the server's port");
    let stranger = UdpSocket::bind(rt, end(1, 0)).expect(rt, "the stranger's port");
    let street = street_of(caller, listener, teller);
    expect_told(rt, row, &server, &stranger, &street, connections);
}

/// What comes of TEAM's datagram.
fn expect_not_present<R: Abort>(rt: &R, row: usize, teller: &UdpSocket) {
    let mut buffer = [0; 600];
    let (count, from) = teller
        .recv_from(&mut buffer)
        .expect(rt, "what TEAM is told");
    expect_eq(rt, &row, &&buffer[..count], &NOT_PRESENT);
    expect_eq(rt, &row, &from, &end(2, 21138));
}

/// A row is printed as its number, from 0.
#[test]
fn strangers_and_a_connection_that_fails_change_nothing(rt: HostRuntime) {
    let teller = teller_of(&rt).expect(&rt, "the teller's port");
    let port = teller.local_addr().expect(&rt, "its address").port();
    let wait = Some(Duration::from_millis(1));
    teller
        .set_read_timeout(wait)
        .expect(&rt, "how long it waits");
    for (row, lucks) in LUCKS.iter().enumerate() {
        expect_luck(&rt, row, lucks, port);
        expect_not_present(&rt, row, &teller);
    }
}

/// What is told where the socket that listens fails: it is a device's fault at the first call.
static TOLD_WITHOUT_CALLS: &str = "\
server up
n1 asks FRED: granted 60
n2 asks FRED: refused 6
n1 asks TEAM: granted 60
n2 asks TEAM: granted 60
n2 finds FRED: 127.0.0.2
n2 finds TEAM: 127.0.0.2 127.0.0.3
datagram to FRED: 5 octets
device
";

/// What is said of it.
static WHY_WITHOUT_CALLS: &str = "nbt: 127.0.0.2:21139: accept: invalid input parameter\n";

#[test]
fn a_socket_that_listens_and_fails_ends_all(rt: HostRuntime) {
    let server = UdpSocket::bind(&rt, end(1, 21137)).expect(&rt, "the server's port");
    let stranger = UdpSocket::bind(&rt, end(1, 0)).expect(&rt, "the stranger's port");
    let street = street_of(Luck::Well, Luck::Refused, ABOVE);
    expect_ending(
        &rt,
        &Machine::new(&rt, &server, &stranger, &street),
        "a socket that listens and fails",
        "nbt loop 21137",
        "",
        3,
        TOLD_WITHOUT_CALLS,
        WHY_WITHOUT_CALLS,
    );
}
