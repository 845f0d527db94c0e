//! What came of a step, and its text.

ghost use Rattle.std.specs.Prelude.{◌≡◌, ◌++◌, OnOk};
ghost use Rattle.std.specs.String.{string_bytes};
ghost use Rattle.nbt_bench.specs.Texts.{outcome_text, event_text, addresses_text, entry_text, failure_text};

use nbt_node::Event;
use nbt_session::Failure;
use nbt_text::{write_entry_address, write_hexadecimal};
use std::alloc::AllocError;

/// What came of a step.
#[derive(Clone, Copy, Debug, PartialEq, Eq)]
pub enum Outcome<'a> {
    /// What a reply of the server was to the node.
    Event(Event<'a>),
    /// So many octets were handed up.
    Octets(usize),
    /// The session is open.
    Open,
    /// The call failed.
    Failed(Failure),
    /// Nothing.
    Nothing,
}

/// Appends the outcome's text, after a space.
pub fn write_outcome(outcome: Outcome<'_>, out: &mut String) -> Result<(), AllocError>
    ensures { OnOk result (string_bytes out.new ≡ string_bytes out.old ++ outcome_text outcome.entry) }
{
    match outcome {
        Outcome::Event(event) => write_event(event, out),
        Outcome::Octets(count) => write!(out, " {count} octets"),
        Outcome::Open => out.push_str(" open"),
        Outcome::Failed(failure) => write_failure(failure, out),
        Outcome::Nothing => out.push_str(" none"),
    }
}

/// Appends what a reply was to the node.
fn write_event(event: Event<'_>, out: &mut String) -> Result<(), AllocError>
    ensures { OnOk result (string_bytes out.new ≡ string_bytes out.old ++ event_text event.entry) }
{
    match event {
        Event::Granted(seconds) => write!(out, " granted {seconds}"),
        Event::Refused(rcode) => write!(out, " refused {rcode}"),
        Event::Freed(rcode) => write!(out, " {rcode}"),
        Event::Found { entries, .. } => write_addresses(entries, out),
        _ => out.push_str(" none"),
    }
}

/// Appends the address of each entry of six octets.
fn write_addresses(entries: &[u8], out: &mut String) -> Result<(), AllocError>
    ensures { OnOk result (string_bytes out.new ≡ string_bytes out.old ++ addresses_text entries.now) }
{
    let (entries, _) = entries.as_chunks::<6>();
    for entry in entries {
        write_entry(entry, out)?;
    }
    Ok(())
}

/// Appends the address of one entry.
fn write_entry(entry: &[u8; 6], out: &mut String) -> Result<(), AllocError>
    ensures { OnOk result (string_bytes out.new ≡ string_bytes out.old ++ entry_text entry.now) }
{
    out.push_str(" ")?;
    write_entry_address(entry, out)
}

/// Appends why a call failed: the code of a refusal in hexadecimal, or the number of the failure.
fn write_failure(failure: Failure, out: &mut String) -> Result<(), AllocError>
    ensures { OnOk result (string_bytes out.new ≡ string_bytes out.old ++ failure_text failure) }
{
    match failure {
        Failure::Refused(code) => {
            out.push_str(" refused ")?;
            write_hexadecimal(&[code], out)
        }
        _ => {
            let number = failure.number();
            write!(out, " failed {number}")
        }
    }
}
