//! What happens in a world, and what comes of it.

use nbt_name::{Addr, Kind, Name};
use thiserror::Error;

/// What happens next in a world. Ends are numbered: 0 is the server, and the nodes are numbered from 1. Datagrams are
/// numbered from 0, in the order of their sending.
#[derive(Debug, Drop)]
pub enum Event {
    /// All clocks go on by this number of milliseconds, each at most to 2^60.
    Tick(u64),
    /// The clocks go on, each by its own number of milliseconds, and each at most to 2^60; also those of ends that are
    /// down.
    Advance {
        /// By how much the true clock goes on.
        ms: u64,
        /// By how much each end's reading goes on: the server's, and then the nodes'. Those of ends that the world hasn't
        /// aren't looked at.
        readings: [u64; 9],
    },
    /// An end starts, and knows nothing of before.
    Start(usize),
    /// An end crashes. A node loses everything; the server can resume.
    Crash(usize),
    /// The server resumes after a crash, with the live leases that it had. It isn't silent.
    Resume,
    /// A node asks for a name.
    Ask {
        /// The node's number.
        node: usize,
        /// The name.
        name: Name,
        /// Who may hold it.
        kind: Kind,
        /// For how many seconds; 0 for as long as may be.
        ttl: u32,
    },
    /// A node gives a name back.
    Release {
        /// The node's number.
        node: usize,
        /// The name.
        name: Name,
    },
    /// A node asks the server who holds a name.
    Resolve {
        /// The node's number.
        node: usize,
        /// The name.
        name: Name,
    },
    /// A node asks the end at an address which names it holds.
    NameStatus {
        /// The node's number.
        node: usize,
        /// The address.
        to: Addr,
        /// The name that the request is for.
        name: Name,
    },
    /// A node sends what is due.
    Poll(usize),
    /// The datagram of this number is delivered.
    Deliver(usize),
    /// A datagram comes from an address that is no end's, to the end of a number.
    Stranger {
        /// The address that it is from.
        from: Addr,
        /// The number of the end that it is for.
        to: usize,
        /// Its octets.
        octets: Vec<u8>,
    },
    /// Another program on an end's machine sends a datagram to the end of a number, where it comes at once.
    Beside {
        /// The address that it is from, with an end's 32 bits and any port.
        from: Addr,
        /// The number of the end that it is for.
        to: usize,
        /// Its octets: any but a registration, an overwrite, a refresh, a release or a positive reply to a registration.
        octets: Vec<u8>,
    },
}

/// What came of an event.
#[derive(Clone, Copy, Debug, PartialEq, Eq)]
pub enum Outcome {
    /// The clocks went on, or the end started, crashed or resumed.
    Done,
    /// The datagram of this number was sent.
    Sent(usize),
    /// The node refused the call, with this number.
    Refused(u8),
    /// Nothing was to do: the end is up or down already, the world has no such end, the server never was up before it was to
    /// resume, or nothing was due.
    Nothing,
    /// The end is down, or the world has no such node.
    Down,
    /// There is no such datagram or no end at its address; or a stranger's datagram is for no end, or from an end's
    /// 32-bit address. Or another program's datagram is for no end, from an address that is no end's, or would move a
    /// name.
    Nobody,
    /// The datagram's life has passed, or memory was refused to the server for it.
    Lost,
    /// The end took the datagram and sent none.
    Taken,
}

/// Memory was refused to the world, which then is as it was.
#[derive(Clone, Copy, Debug, PartialEq, Eq, Error)]
#[error("OutOfMemory")]
pub struct OutOfMemory;
