//! Why a call of the system failed.

use nbt_name::Addr;
use std::io::Write;
use std::net::{Ipv4Addr, SocketAddrV4};
use std::{fmt, io};

/// The first port that needs no privileges, as most systems have it.
const PRIVILEGED_END: u16 = 1_024;

/// The system's number for a program that has as many open files as it may (EMFILE).
const TOO_MANY_FILES: i32 = 24;

/// A call of the system.
#[derive(Clone, Copy, Debug, PartialEq, Eq)]
pub enum MachineCall {
    /// A port is opened.
    Bind,
    /// A datagram is waited for.
    Receive,
    /// A datagram is sent.
    Send,
    /// A connection is accepted.
    Accept,
    /// The clock is read.
    Clock,
}

impl MachineCall {
    /// What stands before the system's text: the call, but for a port that can't be bound.
    fn words(self) -> &'static str {
        match self {
            MachineCall::Bind => "",
            MachineCall::Receive => "receive: ",
            MachineCall::Send => "send: ",
            MachineCall::Accept => "accept: ",
            MachineCall::Clock => "clock: ",
        }
    }
}

/// A call of the system that failed: which, for the host at which address, and why. Its text is the address, the call and the
/// system's own text, as `127.0.0.1:10137: Address already in use (os error 98)`.
#[derive(Clone, Copy, Debug)]
pub struct Cause {
    call: MachineCall,
    end: Addr,
    error: io::Error,
}

impl Cause {
    /// This call failed so, for the host at this address.
    pub fn new(call: MachineCall, end: Addr, error: io::Error) -> Cause {
        Cause { call, end, error }
    }

    /// Whether the system was out of memory.
    pub(crate) fn is_of_memory(&self) -> bool {
        self.error.kind() == io::ErrorKind::OutOfMemory
    }

    /// Where the system keeps a port for privileged programs, or the program may have no more open files, prints a line that says what to do
    /// for a command that takes `--bind`. A failure to write it is ignored.
    pub(crate) fn advise<E: Write>(&self, errors: &mut E) {
        if self.is_of_privileges() {
            let _ = write_advice(errors);
        }
        if self.is_of_files() {
            let _ = write_advice_on_files(errors);
        }
    }

    /// Whether the program may have no more open files, of which a socket is one.
    pub(crate) fn is_of_files(&self) -> bool {
        self.error.raw_os_error() == Some(TOO_MANY_FILES)
    }

    /// Whether the system keeps the port for privileged programs.
    fn is_of_privileges(&self) -> bool {
        self.call == MachineCall::Bind
            && self.end.port < PRIVILEGED_END
            && self.error.kind() == io::ErrorKind::PermissionDenied
    }

    /// Prints the line `nbt: `, the text and `more`. A failure to write it is ignored.
    pub fn tell<E: Write>(&self, more: &str, errors: &mut E) {
        let _ = write_line(self, more, errors);
    }
}

impl fmt::Display for Cause {
    fn fmt<W: fmt::Write>(&self, f: &mut fmt::Formatter<W>) -> fmt::Result {
        let end = SocketAddrV4::new(Ipv4Addr::from_bits(self.end.ip), self.end.port);
        let words = self.call.words();
        let error = self.error;
        write!(f, "{end}: {words}{error}")
    }
}

fn write_line<E: Write>(cause: &Cause, more: &str, errors: &mut E) -> io::Result<()> {
    writeln!(errors, "nbt: {cause}{more}")?;
    errors.flush()
}

fn write_advice<E: Write>(errors: &mut E) -> io::Result<()> {
    writeln!(
        errors,
        "nbt: a port below {PRIVILEGED_END} needs privileges: run it as root or with CAP_NET_BIND_SERVICE, or give it another one by --bind ADDRESS:PORT"
    )?;
    errors.flush()
}

fn write_advice_on_files<E: Write>(errors: &mut E) -> io::Result<()> {
    writeln!(
        errors,
        "nbt: each address takes an open file: allow more of them by `ulimit -n`, or by LimitNOFILE= of a unit"
    )?;
    errors.flush()
}
