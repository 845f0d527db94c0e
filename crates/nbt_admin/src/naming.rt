//! Reads addresses and names.

ghost use Rattle.std.specs.Prelude.{◌≡◌, ◌↔◌, ◌≤◌, IsTrue};
ghost use Rattle.nbt_admin.specs.Texts.{case_of, IsOfHere, IsOfOne, AreOfOne, NeedsApart, NeedsName, ReadsAddress, ReadsHere, ReadsSource, ReadsPeer, ReadsOwn, ReadsName, ReadsSought};

use crate::failure::{ArgumentFault, Failure};
use nbt_name::{Addr, Name};
use nbt_text::{Case, read_address, read_scoped_name, read_source};
use std::alloc::Global;

/// The first address after 0.0.0.0/8, which is of no other machine (RFC 1122 section 3.2.1.3).
const MACHINES_FIRST: u32 = 0x0100_0000;

/// The first multicast address, 224.0.0.0, and the first address behind them, 240.0.0.0 (RFC 1112 section 4).
const MULTICAST_FIRST: u32 = 0xE000_0000;

const MULTICAST_END: u32 = 0xF000_0000;

/// The address 255.255.255.255, which is for all machines of a network (RFC 919 section 7).
const ALL: u32 = 0xFFFF_FFFF;

/// Reads an address.
pub fn address_of(alloc: Global, text: &str) -> Result<Addr, Failure>
    ensures { ReadsAddress text.now result }
{
    match read_address(alloc, text)? {
        Some(end) => Ok(end),
        None => Err(Failure::of_argument(alloc, text, ArgumentFault::Address)),
    }
}

/// Reads an address of this machine from which requests are sent.
pub fn source_of(alloc: Global, text: &str) -> Result<Addr, Failure>
    ensures { ReadsSource text.now result }
{
    let source = match read_source(alloc, text)? {
        Some(source) => source,
        None => return Err(Failure::of_argument(alloc, text, ArgumentFault::Address)),
    };
    if !is_of_here(source.ip) {
        return Err(Failure::of_argument(alloc, text, ArgumentFault::NotOne));
    }
    Ok(source)
}

/// Reads an address of this machine at which requests come: that of one machine, or 0.0.0.0, which stands for each that it has.
pub fn here_of(alloc: Global, text: &str) -> Result<Addr, Failure>
    ensures { ReadsHere text.now result }
{
    let here = address_of(alloc, text)?;
    if !is_of_here(here.ip) {
        return Err(Failure::of_argument(alloc, text, ArgumentFault::NotOne));
    }
    Ok(here)
}

/// Reads an address to which requests can be sent. Refused, after what is no address: one that isn't of one machine, and port 0.
pub fn peer_of(alloc: Global, text: &str) -> Result<Addr, Failure>
    ensures { ReadsPeer text.now result }
{
    let peer = address_of(alloc, text)?;
    if !is_of_one(peer.ip) {
        return Err(Failure::of_argument(alloc, text, ArgumentFault::NotOne));
    }
    if peer.port == 0 {
        return Err(Failure::of_argument(alloc, text, ArgumentFault::NoPort));
    }
    Ok(peer)
}

/// Reads an address at which other hosts reach this machine: that of one machine.
pub fn own_of(alloc: Global, text: &str) -> Result<Addr, Failure>
    ensures { ReadsOwn text.now result }
{
    let own = address_of(alloc, text)?;
    if !is_of_one(own.ip) {
        return Err(Failure::of_argument(alloc, text, ArgumentFault::Anywhere));
    }
    Ok(own)
}

/// Refuses to send requests to the own address, by the text of the other one.
pub fn apart(alloc: Global, text: &str, peer: Addr, own: Addr) -> Result<(), Failure>
    ensures { NeedsApart text.now peer own result }
{
    if peer == own {
        return Err(Failure::of_argument(alloc, text, ArgumentFault::Itself));
    }
    Ok(())
}

/// Refuses, with this fault, an address where a name is wanted.
pub fn expect_no_address(alloc: Global, text: &str, fault: ArgumentFault) -> Result<(), Failure>
    ensures { NeedsName fault text.now result }
{
    match read_address(alloc, text)? {
        Some(_) => Err(Failure::of_argument(alloc, text, fault)),
        None => Ok(()),
    }
}

/// Returns whether an address can be this machine's: of one machine, or 0.0.0.0.
fn is_of_here(ip: u32) -> bool
    ensures { IsTrue result ↔ IsOfHere ip }
{
    ip == 0 || is_of_one(ip)
}

/// Returns whether an address is of one machine: not of 0.0.0.0/8, no multicast address, and not 255.255.255.255.
fn is_of_one(ip: u32) -> bool
    ensures { IsTrue result ↔ IsOfOne ip }
{
    let is_multicast = MULTICAST_FIRST <= ip && ip < MULTICAST_END;
    MACHINES_FIRST <= ip && !is_multicast && ip != ALL
}

/// Returns whether each address from the first to the last is of one machine.
#[tactic(auto, using(crate::proofs::Ends::below_multicast, crate::proofs::Ends::above_multicast, crate::proofs::Ends::over_multicast, crate::proofs::Ends::below_machines, crate::proofs::Ends::to_all))]
pub fn are_of_one(first: u32, last: u32) -> bool
    requires { first ≤ last }
    ensures { IsTrue result ↔ AreOfOne first last }
{
    MACHINES_FIRST <= first && (last < MULTICAST_FIRST || (MULTICAST_END <= first && last < ALL))
}

/// Reads a name, with this scope if none stands behind its suffix.
pub fn name_of(alloc: Global, exact: bool, text: &str, scope: &str) -> Result<Name, Failure>
    ensures { ReadsName exact scope.now text.now result }
{
    let case = case_of(exact);
    match read_scoped_name(case, text.as_bytes(), scope.as_bytes()) {
        Ok(name) => Ok(name),
        Err(fault) => Err(Failure::of_argument(alloc, text, ArgumentFault::Name(fault))),
    }
}

/// Reads a name that can be requested from a server: it doesn't begin with `*`.
pub fn name_to_ask(alloc: Global, exact: bool, text: &str, scope: &str) -> Result<Name, Failure>
    ensures { ReadsSought exact scope.now text.now result }
{
    let name = name_of(alloc, exact, text, scope)?;
    if name.is_star() {
        return Err(Failure::of_argument(alloc, text, ArgumentFault::Star));
    }
    Ok(name)
}

/// Returns whether lower-case letters are kept.
fn case_of(exact: bool) -> Case
    ensures { result ≡ case_of exact }
{
    if exact { Case::Exact } else { Case::Folded }
}
