//! The line of what a server did with a datagram.

ghost use Rattle.std.specs.Prelude.{◌≡◌, ◌++◌, ℕ, List, OnOk, codes};
ghost use Rattle.std.specs.String.{string_bytes};
ghost use Rattle.nbt_log.specs.Lines.{place, seconds_text, reason_text, count_text, left_text, seconds_part, from_text, refusal_words, why_text, stranger_verb, IsHead, IsLeaseLine, IsRefusalLine, IsReleaseLine, IsUnansweredLine, IsStrangerLine, IsLine};
ghost use Rattle.nbt_text.specs.Address.{dotted};

use crate::entry::Entry;
use crate::time::write_time;
use nbt_name::{Addr, Name};
use nbt_server::{Claim, Outcome, Refusal};
use nbt_show::{kind_word, rcode_words};
use nbt_text::{end_line, write_address, write_dotted, write_word};
use std::alloc::AllocError;

/// Appends the line of what a server did with a datagram in a second since 1970, as `2026-11-24T09:12:03Z granted FILER#20
/// 192.0.2.7 unique 300 s`; none of a query, and of a release of a name without leases. It says how many lines of its kind were
/// left out before it, where some were.
pub fn write_entry(
    second: u64,
    entry: &Entry,
    left_out: u64,
    out: &mut String,
) -> Result<(), AllocError>
    ensures { OnOk result ((line : List ℕ) × IsLine second left_out entry.now line × (string_bytes out.new ≡ string_bytes out.old ++ line)) }
{
    let (from, count) = (entry.from, entry.count);
    match &entry.outcome {
        Outcome::Granted(claim, seconds) => {
            write_lease(second, " granted ", claim, *seconds, left_out, out)
        }
        Outcome::Renewed(claim, seconds) => {
            write_lease(second, " renewed ", claim, *seconds, left_out, out)
        }
        Outcome::Refused(claim, refusal) => {
            write_refusal(second, " refused ", from, claim, *refusal, left_out, out)
        }
        Outcome::NotReleased(claim, refusal) => {
            write_refusal(
                second,
                " release refused ",
                from,
                claim,
                *refusal,
                left_out,
                out,
            )
        }
        Outcome::Released(claim) => write_release(second, claim, left_out, out),
        Outcome::Silent(name) => write_unanswered(second, from, name, left_out, out),
        Outcome::ForNodes => {
            let verb = stranger_verb(entry.is_broadcast, " foreign");
            write_stranger(second, verb, from, count, left_out, out)
        }
        Outcome::NoMessage => {
            let verb = stranger_verb(entry.is_broadcast, " malformed");
            write_stranger(second, verb, from, count, left_out, out)
        }
        Outcome::NotLeased(_) | Outcome::Found(_) | Outcome::NotFound(_) => Ok(()),
    }
}

/// The word of what was no request to a server: ` broadcast`, or this one.
fn stranger_verb(is_broadcast: bool, other: &'static str) -> &'static str
    ensures { result.now ≡ stranger_verb is_broadcast other.now }
{
    if is_broadcast { " broadcast" } else { other }
}

/// Appends the line of a lease, with its seconds.
fn write_lease(
    second: u64,
    verb: &str,
    claim: &Claim,
    seconds: u32,
    left_out: u64,
    out: &mut String,
) -> Result<(), AllocError>
    ensures { OnOk result ((line : List ℕ) × IsLeaseLine second verb.now claim.now seconds left_out line × (string_bytes out.new ≡ string_bytes out.old ++ line)) }
{
    write_head(second, verb, claim, out)?;
    write_lease_seconds(seconds, out)?;
    write_left_out(left_out, out)
}

/// Appends for how many seconds a lease is, as ` 300 s`.
fn write_lease_seconds(seconds: u32, out: &mut String) -> Result<(), AllocError>
    ensures { OnOk result (string_bytes out.new ≡ string_bytes out.old ++ seconds_part seconds) }
{
    write!(out, " {seconds} s")
}

/// Appends the line of a refusal, with its sender and its reason.
fn write_refusal(
    second: u64,
    verb: &str,
    from: Addr,
    claim: &Claim,
    refusal: Refusal,
    left_out: u64,
    out: &mut String,
) -> Result<(), AllocError>
    ensures { OnOk result ((line : List ℕ) × IsRefusalLine second verb.now from claim.now refusal left_out line × (string_bytes out.new ≡ string_bytes out.old ++ line)) }
{
    write_head(second, verb, claim, out)?;
    write_from(from, out)?;
    write_why(refusal, out)?;
    write_left_out(left_out, out)
}

/// Appends the sender of a datagram, as ` from 192.0.2.9:137`.
fn write_from(from: Addr, out: &mut String) -> Result<(), AllocError>
    ensures { OnOk result (string_bytes out.new ≡ string_bytes out.old ++ from_text from) }
{
    out.push_str(" from ")?;
    write_address(from, out)
}

/// Appends why a request was refused, in words and by its RCODE, as `: another has it: 192.0.2.7 (6)`.
fn write_why(refusal: Refusal, out: &mut String) -> Result<(), AllocError>
    ensures { OnOk result (string_bytes out.new ≡ string_bytes out.old ++ why_text refusal) }
{
    out.push_str(": ")?;
    write_refusal_words(refusal, out)?;
    let rcode = refusal.rcode();
    write!(out, " ({rcode})")
}

/// Appends why a request was refused, in words.
fn write_refusal_words(refusal: Refusal, out: &mut String) -> Result<(), AllocError>
    ensures { OnOk result (string_bytes out.new ≡ string_bytes out.old ++ refusal_words refusal) }
{
    match refusal {
        Refusal::NotOwn => out.push_str("not its own address"),
        Refusal::Star => out.push_str("its name begins with *"),
        Refusal::Overwrite => out.push_str("an overwrite"),
        Refusal::Active(holder) => write_holder(holder, out),
        Refusal::TableFull => out.push_str("the table is full"),
        Refusal::GroupFull => out.push_str("the group is full"),
        Refusal::ClientFull => out.push_str("the client has too many names"),
    }
}

/// Appends which address has a name.
fn write_holder(holder: u32, out: &mut String) -> Result<(), AllocError>
    ensures { OnOk result (string_bytes out.new ≡ string_bytes out.old ++ (codes "another has it: " ++ dotted holder)) }
{
    out.push_str("another has it: ")?;
    write_dotted(holder, out)
}

/// Appends the line of a lease that was released.
fn write_release(
    second: u64,
    claim: &Claim,
    left_out: u64,
    out: &mut String,
) -> Result<(), AllocError>
    ensures { OnOk result ((line : List ℕ) × IsReleaseLine second claim.now left_out line × (string_bytes out.new ≡ string_bytes out.old ++ line)) }
{
    write_head(second, " released ", claim, out)?;
    write_left_out(left_out, out)
}

/// Appends the line of a request that came during the silence after the start.
fn write_unanswered(
    second: u64,
    from: Addr,
    name: &Name,
    left_out: u64,
    out: &mut String,
) -> Result<(), AllocError>
    ensures { OnOk result ((line : List ℕ) × IsUnansweredLine second from name.now left_out line × (string_bytes out.new ≡ string_bytes out.old ++ line)) }
{
    write_time(second, out)?;
    out.push_str(" unanswered ")?;
    write_word(name, out)?;
    write_from(from, out)?;
    write_left_out(left_out, out)
}

/// Appends for how many seconds a lease is, as ` 300 s`, and the end of the line.
pub fn write_seconds(seconds: u32, out: &mut String) -> Result<(), AllocError>
    ensures { OnOk result (string_bytes out.new ≡ string_bytes out.old ++ seconds_text seconds) }
{
    writeln!(out, " {seconds} s")
}

/// Appends the reason of a refusal, in words and as a number, as `: held by another (6)`, and the end of the line.
pub fn write_reason(rcode: u8, out: &mut String) -> Result<(), AllocError>
    ensures { OnOk result (string_bytes out.new ≡ string_bytes out.old ++ reason_text rcode) }
{
    let words = rcode_words(rcode);
    writeln!(out, ": {words} ({rcode})")
}

/// Appends the beginning of the line of a registration: the time, what was done, and whose it is.
fn write_head(second: u64, verb: &str, claim: &Claim, out: &mut String) -> Result<(), AllocError>
    ensures { OnOk result ((head : List ℕ) × IsHead second verb.now claim.now head × (string_bytes out.new ≡ string_bytes out.old ++ head)) }
{
    write_time(second, out)?;
    out.push_str(verb)?;
    write_word(&claim.name, out)?;
    write_place(claim, out)
}

/// Appends the address for which a name is registered, and its kind.
fn write_place(claim: &Claim, out: &mut String) -> Result<(), AllocError>
    ensures { OnOk result (string_bytes out.new ≡ string_bytes out.old ++ place claim.now) }
{
    out.push_str(" ")?;
    write_dotted(claim.addr, out)?;
    let kind = kind_word(claim.kind);
    write!(out, " {kind}")
}

/// Appends the line of a datagram that was no request to a server.
fn write_stranger(
    second: u64,
    verb: &str,
    from: Addr,
    count: usize,
    left_out: u64,
    out: &mut String,
) -> Result<(), AllocError>
    ensures { OnOk result ((line : List ℕ) × IsStrangerLine second verb.now from count left_out line × (string_bytes out.new ≡ string_bytes out.old ++ line)) }
{
    write_time(second, out)?;
    out.push_str(verb)?;
    write_from(from, out)?;
    write_count(count, out)?;
    write_left_out(left_out, out)
}

/// Appends how many octets there were.
fn write_count(count: usize, out: &mut String) -> Result<(), AllocError>
    ensures { OnOk result (string_bytes out.new ≡ string_bytes out.old ++ count_text count) }
{
    write!(out, ": {count} octets")
}

/// Appends how many lines were left out, if any were, and the end of the line.
fn write_left_out(left_out: u64, out: &mut String) -> Result<(), AllocError>
    ensures { OnOk result (string_bytes out.new ≡ string_bytes out.old ++ left_text left_out) }
{
    if left_out == 0 {
        end_line(out)
    } else {
        writeln!(out, ", {left_out} left out before")
    }
}
