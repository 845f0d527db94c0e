//! Reads networks, ranges and addresses.

ghost use Rattle.std.specs.Prelude.{◌≡◌, Ok, Err, IfOk, IfErr};
ghost use Rattle.nbt_admin.specs.Scans.{ReadsSpan, ReadsSpans, fault_of_run};

use crate::failure::{ArgumentFault, Complaint, Failure};
use crate::naming::are_of_one;
use crate::reading::{ReadEach, read_each};
use nbt_scan::{Span, SpanFault, are_few, span_of};
use std::alloc::Global;

/// Reads networks, ranges and addresses. Refused at the first text that is none, or has an address that isn't of one machine; and then if
/// these are too many.
pub fn spans_of(alloc: Global, texts: &[&str]) -> Result<Vec<Span>, Failure>
    ensures read { IfOk result (λ spans. ReadsSpans texts.now (Ok spans.items)) }
    ensures failure { IfErr result (λ failure. ReadsSpans texts.now (Err failure)) }
{
    let spans = read_each(alloc, &Spans, Vec::new(alloc), texts)?;
    if !are_few(spans.as_slice()) {
        return Err(Failure::Complaint(Complaint::ManyAddresses));
    }
    Ok(spans)
}

/// Reads networks, ranges and addresses, whatever was read before.
#[derive(Clone, Copy)]
struct Spans;

impl<'a> ReadEach<'a> for Spans {
    ghost use Rattle.nbt_admin.specs.Scans.{ReadsSpan};

    type Value = Span;

    ghost reads = { λ _ _ text. ReadsSpan text.now };

    fn read(&self, alloc: Global, _before: &[Span], text: &'a str) -> Result<Span, Failure> {
        told_span(alloc, text)
    }
}

/// Reads a network, a range or an address, each of whose addresses is of one machine, and says what is wrong with another text.
fn told_span(alloc: Global, text: &str) -> Result<Span, Failure>
    ensures { ReadsSpan text.now result }
{
    let span = match span_of(text) {
        Ok(span) => span,
        Err(fault) => return Err(Failure::of_argument(alloc, text, fault_of(fault))),
    };
    if !are_of_one(span.first, span.last) {
        return Err(Failure::of_argument(alloc, text, fault_of_run(span)));
    }
    Ok(span)
}

/// Returns what is said of a run that has an address that isn't of one machine.
fn fault_of_run(span: Span) -> ArgumentFault
    ensures { result ≡ fault_of_run span }
{
    if span.first == span.last {
        ArgumentFault::NotOne
    } else {
        ArgumentFault::NotEachOne
    }
}

/// Returns what is wrong with the argument.
fn fault_of(fault: SpanFault) -> ArgumentFault {
    match fault {
        SpanFault::Address => ArgumentFault::Addresses,
        SpanFault::Bits => ArgumentFault::Bits,
        SpanFault::Backwards => ArgumentFault::Backwards,
    }
}
