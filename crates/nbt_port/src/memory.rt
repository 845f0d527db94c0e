//! Ports and clocks over memory, which record what is done with them.

ghost use Rattle.std.specs.Prelude.{◌≡◌, ℕ, [], ◌∷◌, ◌++◌, None, Some, MatchBool, OnOk, OnErr};
ghost use Rattle.nbt_port.specs.Memory.{IsToFail, one_later, HandsOut, values_of, to as datagram_to};

use crate::clock::Clock;
use crate::port::{Device, MOST, Port, Route, one_more};
use arrayvec::ArrayVec;
use nbt_lease::Moment;
use std::alloc::{AllocError, Global};
use std::collections::VecDeque;
use std::marker::Model;

/// A datagram: its route, and its octets.
#[derive(Debug, Drop)]
pub struct Datagram {
    /// By which it came, or leaves.
    pub route: Route,
    /// Its octets.
    pub octets: Vec<u8>,
}

/// A port over memory. It hands out what it was given, one datagram or nothing a receive, and keeps what is sent. One call can
/// be made to fail.
#[derive(Drop)]
pub struct MemoryPort {
    alloc: Global,
    incoming: VecDeque<Option<Datagram>>,
    sent: Vec<Datagram>,
    failures: u64,
    fails_after: Option<u64>,
}

impl Model for MemoryPort {
    ghost use Rattle.nbt_port.specs.Memory.{MemoryValue, values_of};

    ghost Value = { MemoryValue };

    ghost view = { λ p. record { incoming = p.incoming.items; sent = values_of p.sent.items; failures = p.failures; fails_after = p.fails_after } };
}

impl MemoryPort {
    ghost use Rattle.nbt_port.specs.Memory.{values_of};

    /// A port that hands these out, in order, and then nothing. No call of it fails, but a send where it is out of memory.
    pub fn new(alloc: Global, incoming: VecDeque<Option<Datagram>>) -> MemoryPort
        ensures { result ≡ record { incoming = incoming.items; sent = []; failures = 0; fails_after = None } }
    {
        MemoryPort {
            alloc,
            incoming,
            sent: Vec::new(alloc),
            failures: 0,
            fails_after: None,
        }
    }

    /// After `calls` more calls, one call is to fail.
    pub fn fail_after(&mut self, calls: u64)
        ensures { self.new ≡ record self.old { fails_after = Some calls } }
    {
        self.fails_after = Some(calls);
    }

    /// What was sent, in order.
    pub fn sent(&self) -> &[Datagram]
        ensures { values_of result.now ≡ self.now.sent }
    {
        self.sent.as_slice()
    }
}

impl Port for MemoryPort {
    ghost use Rattle.nbt_port.specs.Memory.{MemoryDoes};

    ghost does = { MemoryDoes };

    ghost failures = { λ p. p.failures };

    fn receive(&mut self, octets: &mut ArrayVec<u8, 2048>) -> Result<Option<Route>, Device> {
        if is_to_fail(&mut self.fails_after) {
            self.failures = one_more(self.failures);
            return Err(Device);
        }
        Ok(hand_out(&mut self.incoming, octets))
    }

    fn send(&mut self, to: Route, octets: &[u8]) -> Result<(), Device> {
        if is_to_fail(&mut self.fails_after) {
            self.failures = one_more(self.failures);
            return Err(Device);
        }
        match keep(self.alloc, &mut self.sent, to, octets) {
            Ok(()) => Ok(()),
            Err(_) => {
                self.failures = one_more(self.failures);
                Err(Device)
            }
        }
    }

    fn failures(&self) -> u64 {
        self.failures
    }
}

/// Counts a call. Returns whether it is to fail, which no other is then.
fn is_to_fail(fails_after: &mut Option<u64>) -> bool
    ensures { MatchBool result (IsToFail fails_after.old × (fails_after.new ≡ None)) ((¬ IsToFail fails_after.old) × (fails_after.new ≡ one_later fails_after.old)) }
{
    match *fails_after {
        Some(0) => {
            *fails_after = None;
            true
        }
        Some(calls) => {
            *fails_after = Some(calls - 1);
            false
        }
        None => false,
    }
}

/// Hands out the first of what is to come.
fn hand_out(
    incoming: &mut VecDeque<Option<Datagram>>,
    octets: &mut ArrayVec<u8, 2048>,
) -> Option<Route>
    ensures { HandsOut incoming.old.items result octets.new.items incoming.new.items }
{
    octets.clear();
    let Some(front) = incoming.pop_front() else {
        return None;
    };
    let datagram = front?;
    let most = datagram.octets.len().min(MOST);
    let _ = octets.try_extend_from_slice(&datagram.octets[..most]);
    Some(datagram.route)
}

/// Keeps what is sent, after all that was sent before.
fn keep(alloc: Global, sent: &mut Vec<Datagram>, to: Route, octets: &[u8]) -> Result<(), AllocError>
    ensures ok { OnOk result (values_of sent.new.items ≡ values_of sent.old.items ++ datagram_to to octets.now ∷ []) }
    ensures err { OnErr result (values_of sent.new.items ≡ values_of sent.old.items) }
{
    let octets = Vec::from_slice(alloc, octets)?;
    sent.push(Datagram { route: to, octets })?;
    Ok(())
}

/// A clock over memory. It tells the times that it was given, in order, and then the last of them again; 0 where it was given
/// none.
#[derive(Drop)]
pub struct MemoryClock {
    left: VecDeque<Moment>,
    last: Moment,
}

impl Model for MemoryClock {
    ghost use Rattle.nbt_port.specs.Memory.{ToldValue};

    ghost Value = { ToldValue };

    ghost view = { λ c. record { left = c.left.items; last = c.last } };
}

impl MemoryClock {
    /// A clock that tells these times.
    pub fn new(moments: VecDeque<Moment>) -> MemoryClock
        ensures { result ≡ record { left = moments.items; last = 0 } }
    {
        MemoryClock {
            left: moments,
            last: Moment::zero(),
        }
    }
}

impl Clock for MemoryClock {
    ghost use Rattle.nbt_port.specs.Memory.{Tells};

    ghost tells = { Tells };

    fn now(&mut self) -> Moment {
        if let Some(moment) = self.left.pop_front() {
            self.last = moment;
        }
        self.last
    }
}
