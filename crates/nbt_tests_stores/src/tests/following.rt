//! A port that follows the addresses of its machine: those in a list that a test writes, by a clock that it sets.

use super::expect::{expect, expect_eq, expect_eq_in};
use arrayvec::ArrayVec;
use nbt_front::{FixedNames, Front};
use nbt_lease::Config;
use nbt_name::Addr;
use nbt_nbns::{Folder, NbnsArguments, ServerArguments, StateFolder, run_server};
use nbt_port::{Bind, Device, Fault, Port, Route, UdpPort, UdpPorts};
use nbt_serve::SambaPort;
use nbt_testing::config;
use std::alloc::Allocator;
use std::cell::Cell;
use std::fs::{File, Metadata, OpenOptions};
use std::net::{Net, SocketAddr, UdpSocket};
use std::process::Abort;
use std::random::RandomSource;
use std::rt::Files;
use std::time::Duration;
use std::{env, fs, io, process, time};

/// Where Linux lists the addresses of a machine.
const LIST: &str = "/proc/net/fib_trie";

/// The time of day at which its monotonic clock shows 0, in milliseconds since 1970.
const DAY: u64 = 1_795_511_463_000;

/// This machine with other lists of its addresses: one when it is read first, and another one from then on. Its monotonic clock shows so
/// many milliseconds, and at each reading so many more, and a client sends, if there is one. It has memory for sockets or not. One file
/// can't be opened, if its path is given; and another takes the place of one while it is opened, if that is given.
#[derive(Drop)]
pub(super) struct Machine<'a, N> {
    pub host: &'a N,
    pub first: &'a str,
    pub list: &'a str,
    pub is_read: Cell<bool>,
    pub since_boot: Cell<u64>,
    pub step: u64,
    pub client: Option<&'a Client>,
    pub has_memory: Cell<bool>,
    pub closed: Option<&'a str>,
    pub swap: Option<Swap<'a>>,
    /// How many random octets were drawn, and whether there are any.
    pub drawn: Cell<usize>,
    pub has_random: bool,
}

/// While a file of this path is opened, the one of another path takes its place: before it is opened, or afterwards.
#[derive(Clone, Copy, Debug)]
pub(super) struct Swap<'a> {
    pub path: &'a str,
    pub by: &'a str,
    pub before: bool,
}

/// A client that sends two packets to a server.
#[derive(Drop)]
pub(super) struct Client {
    pub socket: UdpSocket,
    pub to: SocketAddr,
    pub packets: [Vec<u8>; 2],
}

impl Client {
    fn send(&self) {
        for packet in &self.packets {
            let _ = self.socket.send_to(packet.as_slice(), self.to);
        }
    }
}

/// A machine whose list is in one file, and whose clock a test sets.
fn machine_of<'a, N>(host: &'a N, list: &'a str, since_boot: u64) -> Machine<'a, N> {
    Machine {
        host,
        first: list,
        list,
        is_read: Cell::new(false),
        since_boot: Cell::new(since_boot),
        step: 0,
        client: None,
        has_memory: Cell::new(true),
        closed: None,
        swap: None,
        drawn: Cell::new(0),
        has_random: true,
    }
}

/// A machine whose clock shows ten seconds more at each reading, at which this client sends.
pub(super) fn machine_beside<'a, N>(host: &'a N, client: &'a Client) -> Machine<'a, N> {
    Machine {
        host,
        first: "",
        list: "",
        is_read: Cell::new(false),
        since_boot: Cell::new(0),
        step: 10_000,
        client: Some(client),
        has_memory: Cell::new(true),
        closed: None,
        swap: None,
        drawn: Cell::new(0),
        has_random: true,
    }
}

/// A machine on which the file of this path can't be opened.
pub(super) fn machine_refusing<'a, N>(host: &'a N, path: &'a str) -> Machine<'a, N> {
    let mut machine = machine_of(host, "", 0);
    machine.closed = Some(path);
    machine
}

/// A machine on which one file takes the place of another.
pub(super) fn machine_swapping<'a, N>(host: &'a N, swap: Swap<'a>) -> Machine<'a, N> {
    let mut machine = machine_of(host, "", 0);
    machine.swap = Some(swap);
    machine
}

impl<'a, N> time::Clock for Machine<'a, N> {
    fn monotonic(&self) -> io::Result<Duration> {
        if let Some(client) = self.client {
            client.send();
        }
        let now = self.since_boot.get();
        self.since_boot.set(now.saturating_add(self.step));
        Ok(Duration::from_millis(now))
    }

    fn since_1970(&self) -> io::Result<Duration> {
        Ok(Duration::from_millis(DAY.saturating_add(self.since_boot.get())))
    }
}

impl<'a, N: Net> Net for Machine<'a, N> {
    type Stream = N::Stream;

    type Listener = N::Listener;

    fn bind(&self, addr: SocketAddr) -> io::Result<N::Listener> {
        self.host.bind(addr)
    }

    fn connect(&self, addr: SocketAddr) -> io::Result<N::Stream> {
        self.host.connect(addr)
    }

    fn bind_udp(&self, addr: SocketAddr) -> io::Result<UdpSocket> {
        if !self.has_memory.get() {
            return Err(io::Error::from(io::ErrorKind::OutOfMemory));
        }
        self.host.bind_udp(addr)
    }
}

impl<'a, N: RandomSource> RandomSource for Machine<'a, N> {
    fn fill_bytes(&self, octets: &mut [u8]) -> io::Result<()> {
        if !self.has_random {
            return Err(io::Error::other("none"));
        }
        let drawn = self.drawn.get();
        self.drawn.set(drawn.saturating_add(octets.len()));
        self.host.fill_bytes(octets)
    }
}

impl<'a, N: Files> Files for Machine<'a, N> {
    type File = N::File;

    type Dir = N::Dir;

    fn open_file(&self, how: &OpenOptions, path: &str) -> io::Result<N::File> {
        if self.closed == Some(path) {
            return Err(io::Error::from(io::ErrorKind::PermissionDenied));
        }
        if path != LIST {
            self.swap_at(path, true)?;
            let file = self.host.open_file(how, path)?;
            self.swap_at(path, false)?;
            return Ok(file);
        }
        let path = if self.is_read.get() {
            self.list
        } else {
            self.first
        };
        self.is_read.set(true);
        self.host.open_file(how, path)
    }

    fn open_dir(&self, path: &str) -> io::Result<N::Dir> {
        self.host.open_dir(path)
    }

    fn metadata(&self, path: &str) -> io::Result<Metadata> {
        self.host.metadata(path)
    }

    fn symlink_metadata(&self, path: &str) -> io::Result<Metadata> {
        self.host.symlink_metadata(path)
    }

    fn copy(&self, from: &str, to: &str) -> io::Result<u64> {
        self.host.copy(from, to)
    }

    fn rename(&self, from: &str, to: &str) -> io::Result<()> {
        self.host.rename(from, to)
    }

    fn remove_file(&self, path: &str) -> io::Result<()> {
        self.host.remove_file(path)
    }

    fn create_dir(&self, path: &str) -> io::Result<()> {
        self.host.create_dir(path)
    }

    fn remove_dir(&self, path: &str) -> io::Result<()> {
        self.host.remove_dir(path)
    }

    fn remove_dir_all<B: Allocator>(&self, alloc: B, path: &str) -> io::Result<()> {
        self.host.remove_dir_all(alloc, path)
    }
}

impl<'a, N: Files> Machine<'a, N> {
    /// Another file takes the place of the one of this path, if that is to be before it is opened, or afterwards.
    fn swap_at(&self, path: &str, before: bool) -> io::Result<()> {
        match self.swap {
            Some(swap) if swap.path == path && swap.before == before => {
                self.host.rename(swap.by, swap.path)
            }
            _ => Ok(()),
        }
    }
}

/// A path in the folder for temporary files that no other test has.
pub(super) fn path_for(rt: &HostRuntime, name: &str) -> Option<String> {
    let folder = env::temp_dir(rt).ok()?;
    let folder = folder.as_path().to_str()?;
    let id = process::id(rt.process());
    format!(in rt.alloc(); "{folder}/nbt-{id}-{name}").ok()
}

/// The port of the first test, and that of the second one.
const PORT: u16 = 20_195;

const BEGUN: u16 = 20_196;

/// An address of the port.
const fn at(last: u32) -> Addr {
    Addr {
        ip: 0x7F2A_2000 | last,
        port: PORT,
    }
}

const ONE: &str = "|-- 127.42.32.1\n/32 host LOCAL\n";

const ONE_AND_TWO: &str = "|-- 127.42.32.1\n/32 host LOCAL\n|-- 127.42.32.2\n/32 host LOCAL\n";

const TWO_AND_THREE: &str = "|-- 127.42.32.2\n/32 host LOCAL\n|-- 127.42.32.3\n/32 host LOCAL\n";

/// 192.0.2.1 is for documents alone (RFC 5737), so no machine can serve it.
const WITH_ANOTHERS: &str =
    "|-- 127.42.32.2\n/32 host LOCAL\n|-- 192.0.2.1\n/32 host LOCAL\n|-- 127.42.32.3\n/32 host LOCAL\n";

const THREE_TWICE: &str =
    "|-- 127.42.32.3\n/32 host LOCAL\nLocal:\n|-- 127.42.32.3\n/32 host LOCAL\n";

const ONE_FOR_THREE: &str =
    "nbt: 127.42.32.3:20195 is gone, not served any more\nnbt: serving 127.42.32.1:20195 too\n";

const REFUSED: &str = "nbt: 192.0.2.1:20195: Cannot assign requested address (os error 99)\n";

/// What the clock shows at a receive, which addresses the machine has then, which are served afterwards, by their last parts, and what
/// is said of it.
type Look = (u64, &'static str, &'static [u32], &'static str);

/// The first look was at 1,000 ms.
const LOOKS: [Look; 12] = [
    (1_999, TWO_AND_THREE, &[1, 2], ""),
    (
        2_000,
        TWO_AND_THREE,
        &[2, 3],
        "nbt: 127.42.32.1:20195 is gone, not served any more\nnbt: serving 127.42.32.3:20195 too\n",
    ),
    // What was said isn't said again.
    (2_000, TWO_AND_THREE, &[2, 3], ""),
    (2_999, ONE, &[2, 3], ""),
    (3_000, TWO_AND_THREE, &[2, 3], ""),
    // One that can't be served is told once, as long as the machine has it.
    (4_000, WITH_ANOTHERS, &[2, 3], REFUSED),
    (5_000, WITH_ANOTHERS, &[2, 3], ""),
    (6_000, TWO_AND_THREE, &[2, 3], ""),
    (7_000, WITH_ANOTHERS, &[2, 3], REFUSED),
    // A list without an address is none.
    (8_000, "Main:\n", &[2, 3], ""),
    (
        9_000,
        THREE_TWICE,
        &[3],
        "nbt: 127.42.32.2:20195 is gone, not served any more\n",
    ),
    (10_000, THREE_TWICE, &[3], ""),
];

/// These addresses are served, by their last parts.
fn expect_served<R: Abort + AllocGlobal, M: Net + Files + time::Clock>(
    rt: &R,
    about: &Look,
    port: &UdpPorts<'_, M>,
    served: &[u32],
) {
    let mut wanted = Vec::new(rt.alloc());
    for last in served {
        wanted.push(at(*last)).expect(rt, "memory");
    }
    expect_eq_in(
        rt,
        about,
        &port.addresses().expect(rt, "addresses").as_slice(),
        &wanted.as_slice(),
    );
}

/// Receives without waiting.
fn receive<R: Abort, P: Port>(
    rt: &R,
    port: &mut P,
    octets: &mut ArrayVec<u8, 2048>,
) -> Result<Option<Route>, Device> {
    expect(rt, port.failures() < 1 << 62);
    port.receive_now(octets)
}

fn expect_looks<R: Abort + AllocGlobal, N: Net + Files>(
    rt: &R,
    machine: &Machine<'_, N>,
    port: &mut UdpPorts<'_, Machine<'_, N>>,
    looks: &[Look],
) {
    for look in looks {
        let (now, list, served, said) = *look;
        machine.since_boot.set(now);
        fs::write(machine.host, machine.list, list).expect(rt, "written");
        expect_eq_in(
            rt,
            look,
            &receive(rt, port, &mut ArrayVec::new()).expect(rt, "received"),
            &None,
        );
        expect_said(rt, look, port, said);
        expect_served(rt, look, port, served);
    }
}

/// This is said of what changed.
fn expect_said<R: Abort + AllocGlobal, M: Net + Files + time::Clock>(
    rt: &R,
    about: &Look,
    port: &mut UdpPorts<'_, M>,
    said: &str,
) {
    let mut errors = Vec::new(rt.alloc());
    port.tell_changes(&mut errors);
    expect_eq_in(rt, about, &errors.as_slice(), &said.as_bytes());
}

/// A host.
const HOST: Addr = Addr {
    ip: 0x7F2A_2009,
    port: PORT,
};

/// What a host sends to an address that came comes, and the reply leaves from there.
fn expect_reply<R: Abort, P: Port>(rt: &R, port: &mut P, host: &mut UdpPort, to: Addr) {
    let mut octets = ArrayVec::new();
    expect(rt, host.failures() < 1 << 62);
    host.send(Route::to(to), b"hello").expect(rt, "sent");
    let route = Route {
        peer: HOST,
        local: Some(to),
    };
    expect_eq(
        rt,
        &receive(rt, port, &mut octets).expect(rt, "received"),
        &Some(route),
    );
    expect(rt, port.failures() < 1 << 62);
    port.send(route, b"reply").expect(rt, "sent");
    expect_eq(
        rt,
        &receive(rt, host, &mut octets).expect(rt, "received"),
        &Some(Route::to(to)),
    );
    expect_eq(rt, &octets.as_slice(), &b"reply".as_slice());
}

/// A reply whose request came at an address that is gone meanwhile is lost, and no failure.
fn expect_lost<R: Abort, P: Port>(rt: &R, port: &mut P, host: &mut UdpPort, gone: Addr) {
    let route = Route {
        peer: HOST,
        local: Some(gone),
    };
    expect_eq(rt, &port.failures(), &0);
    port.send(route, b"reply").expect(rt, "sent");
    expect_eq(rt, &port.failures(), &0);
    expect_eq(
        rt,
        &receive(rt, host, &mut ArrayVec::new()).expect(rt, "received"),
        &None,
    );
}

#[test]
fn addresses_that_come_and_go(rt: HostRuntime) {
    let list = path_for(&rt, "come-and-go").expect(&rt, "a path");
    let machine = machine_of(&rt, list.as_str(), 1_000);
    let bind = Bind::Every(PORT);
    let mut errors = Vec::new(rt.alloc());
    fs::write(&rt, list.as_str(), ONE_AND_TWO).expect(&rt, "written");
    let mut port = UdpPorts::bind(&machine, rt.alloc(), &bind, &mut errors).expect(&rt, "bound");
    expect(&rt, errors.is_empty());
    expect_followed(&rt, &machine, &mut port, list.as_str());
    expect_told_over_another(&rt, &machine, SambaPort::new(port), list.as_str())
}

/// A port follows its machine's addresses.
fn expect_followed<R: Abort + AllocGlobal + Net + Files>(
    rt: &R,
    machine: &Machine<'_, R>,
    port: &mut UdpPorts<'_, Machine<'_, R>>,
    list: &str,
) {
    let mut host = UdpPort::bind(rt, HOST).expect(rt, "bound");
    expect_looks(rt, machine, port, &LOOKS);
    expect_reply(rt, port, &mut host, at(3));
    expect_lost(rt, port, &mut host, at(2));
    // Without the list it keeps what it has.
    fs::remove_file(rt, list).expect(rt, "removed");
    machine.since_boot.set(20_000);
    expect_reply(rt, port, &mut host, at(3))
}

/// A port over another one says what changed, too.
fn expect_told_over_another<R: Abort + AllocGlobal + Net + Files>(
    rt: &R,
    machine: &Machine<'_, R>,
    port: SambaPort<UdpPorts<'_, Machine<'_, R>>>,
    list: &str,
) {
    let mut port = port;
    fs::write(rt, list, ONE).expect(rt, "written");
    machine.since_boot.set(30_000);
    expect_eq(
        rt,
        &receive(rt, &mut port, &mut ArrayVec::new()).expect(rt, "received"),
        &None,
    );
    let mut errors = Vec::new(rt.alloc());
    port.tell_changes(&mut errors);
    expect_eq(rt, &errors.as_slice(), &ONE_FOR_THREE.as_bytes());
    fs::remove_file(rt, list).expect(rt, "removed");
}

/// Which addresses a machine has, behind so many empty lines; what comes of a port that is to have them all, as the number of those that
/// it has, or why it is refused; and what is said. `None` in place of a list: there is none.
type Begin = (
    Option<&'static str>,
    usize,
    Result<&'static [u32], Fault>,
    &'static str,
);

const NOBODYS: &str = "|-- 192.0.2.1\n/32 host LOCAL\n";

const NOT_BOUND: &str = "nbt: 192.0.2.1:20196: Cannot assign requested address (os error 99)\n";

const BEGINS: [Begin; 6] = [
    (Some(ONE_AND_TWO), 0, Ok(&[0x7F2A_2001, 0x7F2A_2002]), ""),
    // A machine with many routes has a long list.
    (
        Some(ONE_AND_TWO),
        200_000,
        Ok(&[0x7F2A_2001, 0x7F2A_2002]),
        "",
    ),
    (
        Some("|-- 192.0.2.1\n/32 host LOCAL\n|-- 127.42.32.1\n/32 host LOCAL\n"),
        0,
        Ok(&[0x7F2A_2001]),
        NOT_BOUND,
    ),
    (Some(NOBODYS), 0, Err(Fault::NoPort), NOT_BOUND),
    (
        Some("Main:\n"),
        0,
        Ok(&[0]),
        "nbt: /proc/net/fib_trie: it has no address; one socket serves all addresses\n",
    ),
    (
        None,
        0,
        Ok(&[0]),
        "nbt: /proc/net/fib_trie: No such file or directory (os error 2); one socket serves all addresses\n",
    ),
];

/// Writes a list behind empty lines, or removes it.
fn put_list<R: Abort + AllocGlobal + Files>(rt: &R, path: &str, list: Option<&str>, lines: usize) {
    let Some(list) = list else {
        fs::remove_file(rt, path).expect(rt, "removed");
        return;
    };
    let mut octets = Vec::from_elem(rt.alloc(), b'\n', lines).expect(rt, "memory");
    octets
        .extend_from_slice(list.as_bytes())
        .expect(rt, "memory");
    fs::write(rt, path, octets.as_slice()).expect(rt, "written");
}

/// The 32-bit addresses that a port has at first.
fn begun<R: Abort + AllocGlobal, M: Net + Files + time::Clock>(
    rt: &R,
    machine: &M,
    bind: &Bind,
    errors: &mut Vec<u8>,
) -> Result<Vec<u32>, Fault> {
    match UdpPorts::bind(machine, rt.alloc(), bind, errors) {
        Ok(mut port) => {
            // It said what there was to say.
            port.tell_changes(errors);
            Ok(numbers_of(rt, port.addresses().expect(rt, "addresses").as_slice()))
        }
        Err(fault) => Err(fault),
    }
}

/// The 32 bits of each address.
fn numbers_of<R: Abort + AllocGlobal>(rt: &R, addresses: &[Addr]) -> Vec<u32> {
    let mut found = Vec::new(rt.alloc());
    for addr in addresses {
        found.push(addr.ip).expect(rt, "memory");
    }
    found
}

fn expect_begun<R: Abort>(
    rt: &R,
    row: &Begin,
    found: &Result<Vec<u32>, Fault>,
    wanted: &Result<&'static [u32], Fault>,
) {
    match (found, wanted) {
        (Ok(found), Ok(wanted)) => expect_eq_in(rt, row, &found.as_slice(), wanted),
        (Err(found), Err(wanted)) => expect_eq_in(rt, row, found, wanted),
        _ => expect(rt, false),
    }
}

#[test]
fn every_address_that_a_machine_lists(rt: HostRuntime) {
    let path = path_for(&rt, "every-address").expect(&rt, "a path");
    let machine = machine_of(&rt, path.as_str(), 0);
    let bind = Bind::Every(BEGUN);
    for row in &BEGINS {
        expect_begin(&rt, &machine, path.as_str(), &bind, row);
    }
    expect_no_memory(&rt, &machine, path.as_str(), &bind)
}

/// A port begins as the row says.
fn expect_begin<R: Abort + AllocGlobal + Net + Files>(
    rt: &R,
    machine: &Machine<'_, R>,
    path: &str,
    bind: &Bind,
    row: &Begin,
) {
    let (list, lines, wanted, said) = row;
    put_list(rt, path, *list, *lines);
    let mut errors = Vec::new(rt.alloc());
    let found = begun(rt, machine, bind, &mut errors);
    expect_begun(rt, row, &found, wanted);
    expect_eq_in(rt, row, &errors.as_slice(), &said.as_bytes());
}

/// Where there is no memory for a socket, that is why there is none.
fn expect_no_memory<R: Abort + AllocGlobal + Net + Files>(
    rt: &R,
    machine: &Machine<'_, R>,
    path: &str,
    bind: &Bind,
) {
    put_list(rt, path, Some(ONE), 0);
    machine.has_memory.set(false);
    let mut errors = Vec::new(rt.alloc());
    let found = begun(rt, machine, bind, &mut errors);
    expect_eq(rt, &found.err(), &Some(Fault::Memory));
    expect_eq(
        rt,
        &errors.as_slice(),
        &b"nbt: 127.42.32.1:20196: out of memory\n".as_slice(),
    );
    fs::remove_file(rt, path).expect(rt, "removed");
}

/// The address that a line names which names one.
#[test]
fn the_first_of_the_addresses(rt: HostRuntime) {
    let all = Addr { ip: 0, port: 137 };
    expect_eq(&rt, &Bind::Every(137).first(), &all);
    let some = Bind::To(vec![in rt.alloc(); at(2), at(1)].expect(&rt, "memory"));
    expect_eq(&rt, &some.first(), &at(2));
}

/// A server of every address that ends 2.5 s after its start, which keeps its leases in this folder, if there is one.
pub(super) fn arguments<R: Abort + AllocGlobal>(rt: &R, folder: Option<&str>) -> ServerArguments {
    let state = match folder {
        Some(folder) => Some(StateFolder {
            path: String::from_str(rt.alloc(), folder).expect(rt, "memory"),
            silent_after_boot: false,
        }),
        None => None,
    };
    let none = FixedNames::none(rt.alloc());
    ServerArguments {
        nbns: NbnsArguments {
            bind: Bind::Every(SERVED),
            config: config(16).expect(rt, "limits"),
            time: Some(2_500),
            log: false,
            broadcasts: false,
            log_rate: 10,
            leases: None,
            hosts: None,
            stats: None,
            strict: folder.is_none(),
            rows_per_client: 64,
            changes_per_client: 0,
            front: Front::new(Vec::new(rt.alloc()), none, config(16).expect(rt, "limits")),
        },
        state,
    }
}

/// The port of the third test.
const SERVED: u16 = 20_199;

const CAME: &str = "nbt: serving 127.42.32.2:20199 too\n";

/// Runs it, while another address comes.
fn expect_told<R: Abort + AllocGlobal + Net + RandomSource + Files<File = File>>(
    rt: &R,
    machine: &Machine<'_, R>,
    folder: Option<&str>,
) {
    let mut printed = Vec::new(rt.alloc());
    let mut errors = Vec::new(rt.alloc());
    let arguments = arguments(rt, folder);
    machine.is_read.set(false);
    let ended = run_server(machine, rt.alloc(), &arguments, &mut printed, &mut errors);
    expect_eq(rt, &ended, &Ok(Folder::Own));
    expect(
        rt,
        printed
            .as_slice()
            .starts_with(b"serving 127.42.32.1:20199, "),
    );
    expect_eq(rt, &errors.as_slice(), &CAME.as_bytes());
}

#[test]
fn a_server_says_which_address_came(rt: HostRuntime) {
    let first = path_for(&rt, "served-first").expect(&rt, "a path");
    let list = path_for(&rt, "served").expect(&rt, "a path");
    let folder = path_for(&rt, "served-state").expect(&rt, "a path");
    expect_came(&rt, first.as_str(), list.as_str(), folder.as_str())
}

/// A server says so without a folder, and with this one.
fn expect_came<'a, R: Abort + AllocGlobal + Net + RandomSource + Files<File = File>>(
    rt: &'a R,
    first: &'a str,
    list: &'a str,
    folder: &str,
) {
    fs::write(rt, first, ONE).expect(rt, "written");
    fs::write(rt, list, ONE_AND_TWO).expect(rt, "written");
    fs::create_dir(rt, folder).expect(rt, "a folder");
    let machine = Machine {
        first,
        step: 1_000,
        ..machine_of(rt, list, 0)
    };
    expect_told(rt, &machine, None);
    expect_told(rt, &machine, Some(folder));
    fs::remove_file(rt, first).expect(rt, "removed");
    fs::remove_file(rt, list).expect(rt, "removed");
    fs::remove_dir_all(rt, folder).expect(rt, "removed");
}

/// The port of the last test.
const KEYED: u16 = 20_998;

/// What a server says that draws no keys.
const NO_KEYS: &[u8] =
    b"nbt: the system gives no random keys, so names may be chosen that are found slowly: none\n";

/// What the system says of this process behind a word, in units of 1,024 octets.
fn kilobytes<R: Abort + AllocGlobal + Files>(rt: &R, word: &str) -> u64 {
    let text = fs::read_to_string(rt, "/proc/self/status").expect(rt, "its status");
    text.as_str()
        .lines()
        .find_map(|line| line.strip_prefix(word))
        .and_then(|rest| rest.trim_ascii().strip_suffix(" kB"))
        .and_then(|count| count.parse().ok())
        .expect(rt, "a number")
}

/// A server draws its keys at its start, 16 octets, and no more, and takes room for all its rows, of 237 octets at least; where there are
/// no keys it says so, and serves.
fn expect_keys<R: Abort + AllocGlobal + Net + RandomSource + Files<File = File>>(
    rt: &R,
    machine: &Machine<'_, R>,
    folder: Option<&str>,
) {
    let mut printed = Vec::new(rt.alloc());
    let mut errors = Vec::new(rt.alloc());
    let mut arguments = arguments(rt, folder);
    arguments.nbns.bind = Bind::Every(KEYED);
    arguments.nbns.config = Config::large(1000, 60, 1_048_576).expect(rt, "limits");
    machine.drawn.set(0);
    let before = kilobytes(rt, "VmSize:");
    let ended = run_server(machine, rt.alloc(), &arguments, &mut printed, &mut errors);
    expect_eq(rt, &ended, &Ok(Folder::Own));
    expect(
        rt,
        printed
            .as_slice()
            .starts_with(b"serving 127.42.32.1:20998, "),
    );
    let (drawn, said): (usize, &[u8]) = if machine.has_random {
        (16, b"")
    } else {
        (0, NO_KEYS)
    };
    expect_eq(rt, &machine.drawn.get(), &drawn);
    expect_eq(rt, &errors.as_slice(), &said);
    let took = kilobytes(rt, "VmPeak:").saturating_sub(before);
    expect(rt, !machine.has_random || took >= 1_048_576 * 237 / 1_024);
}

#[test]
fn a_server_draws_keys_at_its_start(rt: HostRuntime) {
    let list = path_for(&rt, "keyed").expect(&rt, "a path");
    let folder = path_for(&rt, "keyed-state").expect(&rt, "a path");
    fs::write(&rt, list.as_str(), ONE).expect(&rt, "written");
    fs::create_dir(&rt, folder.as_str()).expect(&rt, "a folder");
    for has_random in [true, false] {
        let machine = Machine {
            step: 1_000,
            has_random,
            ..machine_of(&rt, list.as_str(), 0)
        };
        expect_keys(&rt, &machine, None);
        expect_keys(&rt, &machine, Some(folder.as_str()));
    }
    fs::remove_file(&rt, list.as_str()).expect(&rt, "removed");
    fs::remove_dir_all(&rt, folder.as_str()).expect(&rt, "removed");
}
