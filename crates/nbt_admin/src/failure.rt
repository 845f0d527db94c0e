//! Why a command for people who run a network failed.

ghost use Rattle.std.specs.Prelude.{◌≡◌};

use crate::hosting::{NAMES_MOST, SERVERS_MOST};
use crate::letters::how_to_write;
use crate::other_lists::OtherList;
use crate::reason::why_no_address;
use crate::scanning::{PORT_MOST, RATE_MOST};
use crate::timing::{CHANGES_MOST, LOG_RATE_MOST};
use nbt_args::{LimitedArgument, Refusal, Text};
use nbt_front::{LineFault, NetworksFault};
use nbt_lease::{Config, LARGE_ROWS_MOST, LIFE_MOST, LONGEST_MOST};
use nbt_nbns::write_refusal;
use nbt_port::Fault;
use nbt_scan::ADDRESSES_MOST;
use nbt_text::BadUnit;
use std::alloc::{AllocError, AllocFailed, Global};
use std::io::Write;
use std::{fmt, io};

/// What is wrong with an argument (our profile).
#[derive(Clone, Copy)]
pub enum ArgumentFault {
    /// Not an address.
    Address,
    /// An address to which requests are sent, and that isn't of one machine.
    NotOne,
    /// The same, at port 0.
    NoPort,
    /// The own address, to which no request is sent.
    Itself,
    /// An address that isn't of one machine, at which no other host reaches this one.
    Anywhere,
    /// An address at port 0, for which the system chooses one.
    AnyPort,
    /// An address that an earlier argument has too.
    AddressTwice,
    /// Not a name.
    Name(nbt_text::Fault),
    /// A name that begins with `*`, which is not sent to a server.
    Star,
    /// A name that an earlier argument has too.
    Twice,
    /// An address where a name is wanted.
    NameWanted,
    /// The same, where it may be a further host's.
    OtherHost,
    /// Not a life of a datagram.
    Life,
    /// Not a longest lease.
    Longest,
    /// Not a time.
    Time,
    /// Empty, and so no folder.
    Folder,
    /// An empty path of the list of leases.
    NoPath,
    /// An empty path of the hosts.
    NoHosts,
    /// An empty path of the statistics.
    NoStats,
    /// A path that an earlier argument has too.
    PathTwice,
    /// A path whose last component is the name of a file that the folder of a state has for itself.
    Stores,
    /// An empty path of the file of networks.
    NoAllowed,
    /// An empty path of the file of fixed names.
    NoFixed,
    /// Not a number of live leases for a server.
    Rows,
    /// Not a number of live leases for a client.
    ClientRows,
    /// Not a number of changes of a client in a second.
    ClientChanges,
    /// Not a number of lines of a kind in a second.
    LogRate,
    /// Not a network.
    Network,
    /// No network, range or address.
    Addresses,
    /// A network of too few or too many bits.
    Bits,
    /// A range whose last address is before its first.
    Backwards,
    /// A network or a range with an address that isn't of one machine.
    NotEachOne,
    /// Not a number of requests in a second.
    Rate,
    /// Not a time to wait for replies.
    Wait,
    /// Not a port.
    Port,
}

impl ArgumentFault {
    /// What the argument should be.
    fn what(self) -> &'static str {
        match self {
            ArgumentFault::Address
            | ArgumentFault::NotOne
            | ArgumentFault::NoPort
            | ArgumentFault::Itself
            | ArgumentFault::Anywhere
            | ArgumentFault::AnyPort
            | ArgumentFault::AddressTwice => "address",
            ArgumentFault::Name(_)
            | ArgumentFault::Star
            | ArgumentFault::Twice
            | ArgumentFault::NameWanted
            | ArgumentFault::OtherHost => "name",
            ArgumentFault::Life => "life",
            ArgumentFault::Longest => "longest lease",
            ArgumentFault::Time => "time",
            ArgumentFault::Folder => "folder",
            ArgumentFault::NoPath => "list of leases",
            ArgumentFault::NoHosts => "hosts",
            ArgumentFault::NoStats => "statistics",
            ArgumentFault::PathTwice | ArgumentFault::Stores => "file",
            ArgumentFault::NoAllowed => "networks",
            ArgumentFault::NoFixed => "fixed names",
            ArgumentFault::Rows => "rows",
            ArgumentFault::ClientRows => "rows per client",
            ArgumentFault::ClientChanges => "changes per client",
            ArgumentFault::LogRate => "log rate",
            ArgumentFault::Network => "network",
            ArgumentFault::Addresses | ArgumentFault::NotEachOne => "address",
            ArgumentFault::Bits => "network",
            ArgumentFault::Backwards => "range",
            ArgumentFault::Rate => "rate",
            ArgumentFault::Wait => "wait",
            ArgumentFault::Port => "port",
        }
    }
}

impl fmt::Display for ArgumentFault {
    fn fmt<W: fmt::Write>(&self, f: &mut fmt::Formatter<W>) -> fmt::Result {
        match self {
            ArgumentFault::Address => f.write_str("no A.B.C.D or A.B.C.D:PORT in decimal"),
            ArgumentFault::NotOne => f.write_str("an address of one machine is wanted"),
            ArgumentFault::NoPort => f.write_str("a port from 1 to 65535 is wanted"),
            ArgumentFault::Itself => f.write_str("that is this host's own address (--bind)"),
            ArgumentFault::Anywhere => {
                f.write_str("not an address at which others find this machine")
            }
            ArgumentFault::AnyPort => f.write_str("not the port of a host"),
            ArgumentFault::Name(fault) => write_name_fault(*fault, f),
            ArgumentFault::Star => f.write_str("no server is asked for a name that begins with *"),
            ArgumentFault::NameWanted => f.write_str("an address; a name is wanted"),
            ArgumentFault::OtherHost => f.write_str("an address; --also asks further hosts"),
            ArgumentFault::Twice | ArgumentFault::AddressTwice | ArgumentFault::PathTwice => {
                f.write_str("given twice")
            }
            ArgumentFault::Life => {
                let most = LIFE_MOST / 1_000;
                write!(f, "not a time from 1ms to {most}s")
            }
            ArgumentFault::Longest => {
                let most = LONGEST_MOST;
                write!(f, "not a time in whole seconds from 1s to {most}s")
            }
            ArgumentFault::Time => f.write_str("not a time, as 1500ms, 300s, 5m, 2h or 1d"),
            ArgumentFault::Folder => f.write_str("an empty text names no folder"),
            ArgumentFault::NoPath
            | ArgumentFault::NoHosts
            | ArgumentFault::NoStats
            | ArgumentFault::NoAllowed
            | ArgumentFault::NoFixed => f.write_str("no path of a file"),
            ArgumentFault::Stores => f.write_str(
                "a file of that name belongs to the folder of --state",
            ),
            ArgumentFault::Rows | ArgumentFault::ClientRows => {
                let most = LARGE_ROWS_MOST;
                write!(f, "not a whole number from 1 to {most}")
            }
            ArgumentFault::ClientChanges => {
                let most = CHANGES_MOST;
                write!(f, "not a whole number from 0 to {most}")
            }
            ArgumentFault::LogRate => {
                let most = LOG_RATE_MOST;
                write!(f, "not a whole number from 0 to {most}")
            }
            ArgumentFault::Network => f.write_str(
                "no A.B.C.D/BITS or A.B.C.D in decimal, with 0 to 32 bits",
            ),
            ArgumentFault::Addresses => f.write_str(
                "no A.B.C.D/BITS, A.B.C.D-A.B.C.D, A.B.C.D-D or A.B.C.D in decimal",
            ),
            ArgumentFault::Bits => f.write_str("not from /16 to /32"),
            ArgumentFault::Backwards => f.write_str("its last address is before its first"),
            ArgumentFault::NotEachOne => f.write_str("it has an address that isn't of one machine"),
            ArgumentFault::Rate => {
                let most = RATE_MOST;
                write!(f, "not a whole number from 1 to {most}")
            }
            ArgumentFault::Wait => {
                let limits = LimitedArgument::Wait;
                write!(f, "not {limits}")
            }
            ArgumentFault::Port => {
                let most = PORT_MOST;
                write!(f, "not a whole number from 1 to {most}")
            }
        }
    }
}

/// What is wrong with a name. Of its scope it says how one looks.
fn write_name_fault<W: fmt::Write>(
    fault: nbt_text::Fault,
    f: &mut fmt::Formatter<W>,
) -> fmt::Result {
    write!(f, "{fault}")?;
    if fault == nbt_text::Fault::Scope {
        f.write_str("; it is as NETBIOS.COM: parts of 1 to 63 characters between dots")?;
    }
    Ok(())
}

/// An invalid argument, and what is wrong with it. It prints as
/// `name 'FILESERVER-NUMBER-1': 19 characters, at most 15`. Of an address, and of a time whose unit is missing or unknown, it has what is
/// wrong with the text.
#[derive(Drop)]
pub struct BadArgument {
    pub text: String,
    pub fault: ArgumentFault,
}

impl fmt::Display for BadArgument {
    fn fmt<W: fmt::Write>(&self, f: &mut fmt::Formatter<W>) -> fmt::Result {
        let what = self.fault.what();
        let text = self.text.as_str();
        let fault = self.fault;
        match fault {
            ArgumentFault::Address => match why_no_address(text) {
                Some(reason) => write!(f, "{what} '{text}': {reason}"),
                None => write!(f, "{what} '{text}': {fault}"),
            },
            ArgumentFault::Life
            | ArgumentFault::Longest
            | ArgumentFault::Time
            | ArgumentFault::Wait => {
                match BadUnit::of(text) {
                    Some(reason) => write!(f, "{what} '{text}': {reason}"),
                    None => write!(f, "{what} '{text}': {fault}"),
                }
            }
            ArgumentFault::Name(nbt_text::Fault::Character(place)) => {
                let how = how_to_write(text, place);
                write!(f, "{what} '{text}': {fault}{how}")
            }
            _ => write!(f, "{what} '{text}': {fault}"),
        }
    }
}

/// A line of the file of fixed names that can't be taken: the file's path, the line's number from 1 on, what is wrong with it, and which
/// other list the file looks like. It prints as `printers.txt: line 3: kind: unique or group is wanted`, and behind that maybe as
/// `; it looks like lmhosts: nbt import printers.txt makes a file of fixed names of it`.
#[derive(Drop)]
pub struct BadLine {
    pub path: String,
    pub number: usize,
    pub fault: LineFault,
    pub other: Option<OtherList>,
}

impl fmt::Display for BadLine {
    fn fmt<W: fmt::Write>(&self, f: &mut fmt::Formatter<W>) -> fmt::Result {
        let path = self.path.as_str();
        let number = self.number;
        let fault = self.fault;
        write!(f, "{path}: line {number}: {fault}")?;
        if let Some(other) = &self.other {
            write!(
                f,
                "; it looks like {other}: nbt import {path} makes a file of fixed names of it"
            )?;
        }
        Ok(())
    }
}

/// A file of networks that can't be taken: its path, and what is wrong with it. It prints as
/// `networks.txt: line 3: one network is wanted, as 192.0.2.0/24`.
#[derive(Drop)]
pub struct BadNetworks {
    pub path: String,
    pub fault: NetworksFault,
}

impl fmt::Display for BadNetworks {
    fn fmt<W: fmt::Write>(&self, f: &mut fmt::Formatter<W>) -> fmt::Result {
        let path = self.path.as_str();
        match self.fault {
            NetworksFault::Line(number, fault) => write!(f, "{path}: line {number}: {fault}"),
            NetworksFault::NoNetwork => write!(f, "{path}: no line names a network"),
            NetworksFault::Memory => write!(f, "{path}: out of memory"),
        }
    }
}

/// What standard error reports of a command's arguments.
#[derive(Drop)]
pub enum Complaint {
    /// An argument is invalid.
    Argument(BadArgument),
    /// A line of the file of fixed names can't be taken.
    Line(BadLine),
    /// The file of networks can't be taken.
    Networks(BadNetworks),
    /// The longest lease is too short, as `nbt_nbns::judge` has it.
    Short(Config),
    /// This number of names is more than a host can hold.
    Many(usize),
    /// This number of servers is more than a host can have.
    ManyServers(usize),
    /// A host has several servers, which aren't said to be addresses of one table.
    OneTable,
    /// More addresses are given than a scan asks.
    ManyAddresses,
}

impl Complaint {
    /// Writes the line `nbt: ` and what is wrong. Failures to write it are ignored.
    pub fn report<E: Write>(&self, alloc: Global, errors: &mut E) {
        let _ = self.write_line(alloc, errors);
    }

    fn write_line<E: Write>(&self, alloc: Global, errors: &mut E) -> io::Result<()> {
        match self {
            Complaint::Argument(bad) => writeln!(errors, "nbt: {bad}")?,
            Complaint::Line(bad) => writeln!(errors, "nbt: {bad}")?,
            Complaint::Networks(bad) => writeln!(errors, "nbt: {bad}")?,
            Complaint::Short(config) => {
                let mut text = String::new(alloc);
                write_refusal(*config, &mut text)?;
                writeln!(errors, "nbt: {text}")?;
            }
            Complaint::Many(count) => {
                let most = NAMES_MOST;
                writeln!(errors, "nbt: {count} names, at most {most}")?;
            }
            Complaint::ManyServers(count) => {
                let most = SERVERS_MOST;
                writeln!(errors, "nbt: {count} servers, at most {most}")?;
            }
            Complaint::OneTable => writeln!(
                errors,
                "nbt: several servers only with --one-table, where all are addresses of one table"
            )?,
            Complaint::ManyAddresses => {
                let most = ADDRESSES_MOST;
                writeln!(errors, "nbt: too many addresses, at most {most}")?;
            }
        }
        errors.flush()
    }
}

/// Why a command for people who run a network failed.
#[derive(Drop)]
pub enum Failure {
    /// Wrong usage.
    Usage(Text),
    /// An invalid argument, or several that don't fit together.
    Complaint(Complaint),
    /// A port, a clock, a socket or the output failed, or memory is out.
    Fault(Fault),
}

impl Failure {
    ghost use Rattle.nbt_admin.specs.Failures.{Reports};

    /// Makes the failure for an invalid argument, or out of memory.
    pub(crate) fn of_argument(alloc: Global, text: &str, fault: ArgumentFault) -> Failure
        ensures { Reports text.now fault result }
    {
        match String::from_str(alloc, text) {
            Ok(owned) => Failure::Complaint(Complaint::Argument(BadArgument {
                text: owned,
                fault,
            })),
            Err(_) => Failure::Fault(Fault::Memory),
        }
    }
}

impl From<Fault> for Failure {
    ghost use Rattle.nbt_admin.specs.declared.failure.Failure.TheVariants as failure;

    ghost from_gives = { λ fault result. result ≡ failure.Fault fault };

    fn from(fault: Fault) -> Failure {
        Failure::Fault(fault)
    }
}

impl<T: Drop> From<AllocFailed<T>> for Failure {
    ghost use Rattle.nbt_admin.specs.Failures.{out_of_memory};

    ghost from_gives = { λ _ result. result ≡ out_of_memory };

    fn from(_error: AllocFailed<T>) -> Failure {
        Failure::Fault(Fault::Memory)
    }
}

impl From<AllocError> for Failure {
    ghost use Rattle.nbt_admin.specs.Failures.{out_of_memory};

    ghost from_gives = { λ _ result. result ≡ out_of_memory };

    fn from(_error: AllocError) -> Failure {
        Failure::Fault(Fault::Memory)
    }
}

impl From<Refusal> for Failure {
    ghost use Rattle.nbt_admin.specs.Failures.{failure_of_usage};

    ghost from_gives = { λ refusal failure. failure ≡ failure_of_usage refusal };

    fn from(refusal: Refusal) -> Failure {
        match refusal {
            Refusal::Help(text) | Refusal::Wrong(text) => Failure::Usage(text),
            Refusal::Memory => Failure::Fault(Fault::Memory),
        }
    }
}
