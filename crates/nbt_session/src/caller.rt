//! The caller of a session (RFC 1001 section 16.1, RFC 1002 section 5.2.1).

ghost use Rattle.std.specs.Prelude.{◌≡◌, ◌+◌, ◌<◌, ◌≤◌};
ghost use Rattle.nbt_name.specs.Wire.{NameValue};
ghost use Rattle.nbt_session.specs.declared.caller.CallerState.TheVariants.{Connecting, Waiting, Open, Failed};
ghost use Rattle.nbt_session.specs.Event.{event_of};
ghost use Rattle.nbt_session.specs.Caller.{CallerMoves, answer_of, connect, fail};
ghost use Rattle.nbt_session.specs.Inner.Calling.{TriesFit};

use crate::event::Event;
use crate::packet::Packet;
use nbt_name::{Addr, Name};
use std::marker::Model;

/// How many connections are tried for one call (SSN_RETRY_COUNT, RFC 1002 section 6). Those to which it is retargeted
/// count too (our profile).
const TRIES: u8 = 4;

/// What the caller does next.
#[derive(Debug, PartialEq, Eq, Drop)]
pub enum CallerAnswer {
    /// Nothing.
    Nothing,
    /// Connects there. An earlier connection is given up.
    Connect(Addr),
    /// Sends the packet.
    Send(Packet),
    /// The session is open.
    Open,
    /// Hands up a message's octets.
    Up(Vec<u8>),
    /// The session is over.
    Closed,
    /// The call failed, and its connection is given up.
    Fail(Failure),
}

/// Why a call failed (our profile's numbers).
#[derive(Clone, Copy, Debug, PartialEq, Eq)]
pub enum Failure {
    /// 1: the fourth connection couldn't be established, or was lost before the call was accepted.
    NoConnection,
    /// 2: the call was refused, with the code of the NEGATIVE SESSION RESPONSE.
    Refused(u8),
    /// 3: a packet came that has no place there.
    Protocol,
    /// 4: the fourth try was retargeted.
    TooManyTries,
}

impl Failure {
    ghost use Rattle.nbt_session.specs.Numbers.{failure_number};

    /// The number of the failure, 1 to 4 (our profile).
    pub fn number(self) -> u8
        ensures { result ≡ failure_number self }
    {
        match self {
            Failure::NoConnection => 1,
            Failure::Refused(_) => 2,
            Failure::Protocol => 3,
            Failure::TooManyTries => 4,
        }
    }
}

/// Where a call stands.
#[derive(Clone, Copy, Debug, PartialEq, Eq)]
pub enum CallerState {
    /// A connection is tried.
    Connecting {
        /// Where.
        to: Addr,
        /// Which try this is, 1 to 4.
        tries: u8,
    },
    /// The request was sent.
    Waiting {
        /// Where.
        to: Addr,
        /// Which try this is, 1 to 4.
        tries: u8,
    },
    /// The call was accepted.
    Open,
    /// The session was open, and is over.
    Closed,
    /// The call failed.
    Failed,
}

/// One call to a name, by a name. Its methods allocate no memory.
#[derive(Debug, Drop)]
pub struct Caller {
    called: Name,
    calling: Name,
    state: CallerState,
}

impl Model for Caller {
    ghost use Rattle.nbt_session.specs.Caller.{CallerValue};
    ghost use Rattle.nbt_session.specs.Inner.Calling.{TriesFit};

    ghost Value = { CallerValue };

    ghost view = { λ c. record { called = c.called; calling = c.calling; state = c.state } };

    ghost invariant = { λ c. TriesFit c.state };
}

impl Caller {
    /// Begins a call, and says where to connect: the first of four tries (RFC 1002 section 5.2.1; the number is our
    /// profile's).
    pub fn begin(called: Name, calling: Name, to: Addr) -> (Caller, CallerAnswer)
        ensures caller { result.0 ≡ record { called = called; calling = calling; state = Connecting to 1 } }
        ensures answer { answer_of result.1 ≡ connect to }
    {
        let state = CallerState::Connecting { to, tries: 1 };
        let caller = Caller {
            called,
            calling,
            state,
        };
        (caller, CallerAnswer::Connect(to))
    }

    /// What the caller does when something happens to its connection (RFC 1002 section 5.2.1; what may follow what is
    /// our profile). A retarget doesn't begin the tries anew.
    pub fn on(&mut self, event: Event) -> CallerAnswer
        ensures moves { CallerMoves self.old.called self.old.calling self.old.state (event_of event) self.new.state (answer_of result) }
        ensures called { self.new.called ≡ self.old.called }
        ensures calling { self.new.calling ≡ self.old.calling }
    {
        let (state, answer) = match self.state {
            CallerState::Connecting { to, tries } => {
                connecting(&self.called, &self.calling, to, tries, event)
            }
            CallerState::Waiting { to, tries } => waiting(to, tries, event),
            CallerState::Open => open(event),
            CallerState::Closed => (CallerState::Closed, CallerAnswer::Nothing),
            CallerState::Failed => (CallerState::Failed, CallerAnswer::Nothing),
        };
        self.state = state;
        answer
    }
}

/// A connection is tried.
fn connecting(
    called: &Name,
    calling: &Name,
    to: Addr,
    tries: u8,
    event: Event,
) -> (CallerState, CallerAnswer)
    requires { TriesFit (Connecting to tries) }
    ensures moves { CallerMoves called.now calling.now (Connecting to tries) (event_of event) result.0 (answer_of result.1) }
    ensures tries { TriesFit result.0 }
{
    match event {
        Event::Connected => {
            let request = Packet::Request {
                called: called.copy(),
                calling: calling.copy(),
            };
            (
                CallerState::Waiting { to, tries },
                CallerAnswer::Send(request),
            )
        }
        Event::Packet(_) => failed(Failure::Protocol),
        Event::Lost => next_try(to, tries, Failure::NoConnection),
    }
}

/// The request was sent.
fn waiting(to: Addr, tries: u8, event: Event) -> (CallerState, CallerAnswer)
    requires { TriesFit (Waiting to tries) }
    ensures moves { (called calling : NameValue) → CallerMoves called calling (Waiting to tries) (event_of event) result.0 (answer_of result.1) }
    ensures tries { TriesFit result.0 }
{
    let packet = match event {
        Event::Connected => {
            return (CallerState::Waiting { to, tries }, CallerAnswer::Nothing);
        }
        Event::Lost => return next_try(to, tries, Failure::NoConnection),
        Event::Packet(packet) => packet,
    };
    match packet {
        Packet::Positive => (CallerState::Open, CallerAnswer::Open),
        Packet::Negative(code) => failed(Failure::Refused(code)),
        Packet::Retarget(other) => next_try(other, tries, Failure::TooManyTries),
        Packet::KeepAlive => (CallerState::Waiting { to, tries }, CallerAnswer::Nothing),
        Packet::Message(_) => failed(Failure::Protocol),
        Packet::Request {
            called: _,
            calling: _,
        } => failed(Failure::Protocol),
    }
}

/// The session is open.
fn open(event: Event) -> (CallerState, CallerAnswer)
    ensures moves { (called calling : NameValue) → CallerMoves called calling Open (event_of event) result.0 (answer_of result.1) }
    ensures tries { TriesFit result.0 }
{
    let packet = match event {
        Event::Connected => return (CallerState::Open, CallerAnswer::Nothing),
        Event::Lost => return (CallerState::Closed, CallerAnswer::Closed),
        Event::Packet(packet) => packet,
    };
    match packet {
        Packet::Message(octets) => (CallerState::Open, CallerAnswer::Up(octets)),
        Packet::KeepAlive => (CallerState::Open, CallerAnswer::Nothing),
        _ => failed(Failure::Protocol),
    }
}

/// Tries once more, at `to`, or fails after the last try.
fn next_try(to: Addr, tries: u8, failure: Failure) -> (CallerState, CallerAnswer)
    requires { tries ≤ 4 }
    ensures more { tries < 4 → (result.0 ≡ Connecting to (tries + 1)) × (answer_of result.1 ≡ connect to) }
    ensures last { tries ≡ 4 → (result.0 ≡ Failed) × (answer_of result.1 ≡ fail failure) }
{
    if tries == TRIES {
        return failed(failure);
    }
    let state = CallerState::Connecting {
        to,
        tries: tries + 1,
    };
    (state, CallerAnswer::Connect(to))
}

fn failed(failure: Failure) -> (CallerState, CallerAnswer)
    ensures state { result.0 ≡ Failed }
    ensures answer { answer_of result.1 ≡ fail failure }
{
    (CallerState::Failed, CallerAnswer::Fail(failure))
}
