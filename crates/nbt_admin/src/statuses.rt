//! Asks hosts for their names, one after the other.

ghost use Rattle.std.specs.Prelude.{◌≡◌, ◌≤◌, ◌++◌, nat_eq, nat_lt, true, length, max, IfOk, OnOk};
ghost use Rattle.std.specs.Io.KnownBytes.{Appends};
ghost use Rattle.nbt_text.specs.Lines.{line_feed};
ghost use Rattle.nbt_admin.specs.Statuses.{AskedOf, AskedInTurn, fronted, shown, fronted_octet};

use crate::asking::HostAsked;
use nbt_client::ask_here;
use nbt_port::Fault;
use std::alloc::{AllocError, Global};
use std::io::Write;
use std::net::Net;
use std::random::RandomSource;
use std::{io, time};

/// What ends a line.
const LINE_FEED: u8 = b'\n';

/// Sends the requests one after the other, prints each answer, and returns the greatest of their statuses. If there is more than one, each
/// line begins with its host's address, as it was given. The first that fails ends it.
pub fn ask_all<M: Net + time::Clock + RandomSource, W: Write, E: Write>(
    machine: &M,
    alloc: Global,
    requests: &[HostAsked<'_>],
    writer: &mut W,
    errors: &mut E,
) -> Result<u8, Fault>
    ensures done { IfOk result (λ status. AskedInTurn (nat_lt 1 (length requests.now)) requests.now status (W.contents writer.old) (W.contents writer.new)) }
    ensures bound { IfOk result (λ status. status ≤ 5) }
{
    ask_in_turn(machine, alloc, are_many(requests), requests, writer, errors)
}

/// Whether there is more than one.
fn are_many(requests: &[HostAsked<'_>]) -> bool
    ensures { result ≡ nat_lt 1 (length requests.now) }
{
    1 < requests.len()
}

/// The same, where `many` tells whether the lines begin so.
fn ask_in_turn<M: Net + time::Clock + RandomSource, W: Write, E: Write>(
    machine: &M,
    alloc: Global,
    many: bool,
    requests: &[HostAsked<'_>],
    writer: &mut W,
    errors: &mut E,
) -> Result<u8, Fault>
    ensures done { IfOk result (λ status. AskedInTurn many requests.now status (W.contents writer.old) (W.contents writer.new)) }
    ensures bound { IfOk result (λ status. status ≤ 5) }
{
    let mut status = 0;
    for request in requests {
        let one = ask_one(machine, alloc, many, request, writer, errors)?;
        status = greatest(status, one);
    }
    Ok(status)
}

fn greatest(one: u8, other: u8) -> u8
    ensures { result ≡ max one other }
{
    if one < other { other } else { one }
}

/// Sends a request, prints its answer, and returns the status.
fn ask_one<M: Net + time::Clock + RandomSource, W: Write, E: Write>(
    machine: &M,
    alloc: Global,
    many: bool,
    request: &HostAsked<'_>,
    writer: &mut W,
    errors: &mut E,
) -> Result<u8, Fault>
    ensures done { IfOk result (λ status. AskedOf many request.now status (W.contents writer.old) (W.contents writer.new)) }
    ensures bound { IfOk result (λ status. status ≤ 5) }
{
    let asked = &request.arguments;
    let mut text = String::new(alloc);
    let answer = ask_here(
        machine,
        asked.bind,
        &asked.question,
        asked.patience,
        &mut text,
        errors,
    )?;
    let mut octets = Vec::new(alloc);
    write_shown(many, request.host, text.as_bytes(), &mut octets)?;
    print(octets.as_slice(), writer).map_err(|_| Fault::Output)?;
    Ok(answer.status())
}

fn print<W: Write>(octets: &[u8], writer: &mut W) -> io::Result<()>
    ensures { OnOk result (Appends (W.contents writer.old) (W.contents writer.new) octets.now) }
{
    writer.write_all(octets)?;
    writer.flush()
}

/// Appends an answer as it is printed.
fn write_shown(many: bool, host: &str, text: &[u8], out: &mut Vec<u8>) -> Result<(), AllocError>
    ensures { OnOk result (out.new.items ≡ out.old.items ++ shown many host.now text.now) }
{
    if !many {
        return out.extend_from_slice(text);
    }
    write_fronted(host.as_bytes(), text, out)
}

/// Appends a text, with the host's address and a space before each of its lines.
fn write_fronted(host: &[u8], text: &[u8], out: &mut Vec<u8>) -> Result<(), AllocError>
    ensures { OnOk result (out.new.items ≡ out.old.items ++ fronted host.now true text.now) }
{
    let mut begins = true;
    for octet in text {
        write_octet(host, begins, *octet, out)?;
        begins = is_line_feed(*octet);
    }
    Ok(())
}

/// Appends an octet, behind what stands before a line if one begins here.
fn write_octet(host: &[u8], begins: bool, octet: u8, out: &mut Vec<u8>) -> Result<(), AllocError>
    ensures { OnOk result (out.new.items ≡ out.old.items ++ fronted_octet host.now begins octet) }
{
    if begins {
        out.extend_from_slice(host)?;
        out.push(b' ')?;
    }
    out.push(octet)?;
    Ok(())
}

/// Whether it ends a line.
fn is_line_feed(octet: u8) -> bool
    ensures { result ≡ nat_eq octet line_feed }
{
    octet == LINE_FEED
}
