//! What rows over a port in memory share: a clock that tells moments, a port that hands out datagrams, and what was sent.

use crate::pieces::{REFUSED_MEMORY, octets};
use nbt_lease::Moment;
use nbt_name::Addr;
use nbt_port::{Datagram, MemoryClock, MemoryPort, Route};
use std::collections::VecDeque;

/// A datagram as words, with the end that it is from or for; nothing where there are no octets.
pub type Row = (Addr, &'static str);

/// The same with the route by which it comes or leaves.
pub type RoutedRow = (Route, &'static str);

/// A clock that tells these moments.
pub fn clock<R: AllocGlobal>(rt: &R, moments: &[u64]) -> Option<MemoryClock> {
    let mut told = VecDeque::new(rt.alloc());
    for ms in moments {
        told.push_back(Moment::new(*ms)?).ok()?;
    }
    Some(MemoryClock::new(told))
}

/// A port that hands these out, which come at its first address.
pub fn port<R: AllocGlobal>(rt: &R, given: &[Row]) -> Result<MemoryPort, &'static str> {
    let mut incoming = VecDeque::new(rt.alloc());
    for (addr, words) in given {
        give(rt, &mut incoming, Route::to(*addr), words)?;
    }
    Ok(MemoryPort::new(rt.alloc(), incoming))
}

/// A port that hands these out.
pub fn routed_port<R: AllocGlobal>(
    rt: &R,
    given: &[RoutedRow],
) -> Result<MemoryPort, &'static str> {
    let mut incoming = VecDeque::new(rt.alloc());
    for (route, words) in given {
        give(rt, &mut incoming, *route, words)?;
    }
    Ok(MemoryPort::new(rt.alloc(), incoming))
}

/// One more comes by this route, or nothing.
fn give<R: AllocGlobal>(
    rt: &R,
    incoming: &mut VecDeque<Option<Datagram>>,
    route: Route,
    words: &str,
) -> Result<(), &'static str> {
    let octets = octets(rt, words)?;
    let is_one = !octets.is_empty();
    let datagram = Datagram { route, octets };
    incoming
        .push_back(if is_one { Some(datagram) } else { None })
        .ok()
        .ok_or(REFUSED_MEMORY)
}

/// Whether these were sent, in order, each from the first address; the words of the first that was not, where one was not.
pub fn sent_all<R: AllocGlobal>(
    rt: &R,
    port: &MemoryPort,
    sent: &[Row],
) -> Result<(), &'static str> {
    expect_count(port, sent.len())?;
    for (got, (addr, words)) in port.sent().iter().zip(sent) {
        expect_same(rt, got, Route::to(*addr), *words)?;
    }
    Ok(())
}

/// Whether these were sent, in order, each by its route; the words of the first that was not, where one was not.
pub fn sent_by_routes<R: AllocGlobal>(
    rt: &R,
    port: &MemoryPort,
    sent: &[RoutedRow],
) -> Result<(), &'static str> {
    expect_count(port, sent.len())?;
    for (got, (route, words)) in port.sent().iter().zip(sent) {
        expect_same(rt, got, *route, *words)?;
    }
    Ok(())
}

fn expect_count(port: &MemoryPort, count: usize) -> Result<(), &'static str> {
    if port.sent().len() == count {
        Ok(())
    } else {
        Err("more or fewer datagrams were sent")
    }
}

/// Whether a datagram has these words, and went by this route; the words where it isn't so.
fn expect_same<R: AllocGlobal>(
    rt: &R,
    got: &Datagram,
    route: Route,
    words: &'static str,
) -> Result<(), &'static str> {
    let octets = octets(rt, words)?;
    if got.route == route && got.octets.as_slice() == octets.as_slice() {
        Ok(())
    } else {
        Err(words)
    }
}
