//! Ends a command: prints its output or its failure, and returns the status.

ghost use Rattle.std.specs.Prelude.{◌≡◌, ◌≤◌, ◌⊎◌, OnOk, IfSome, codes};
ghost use Rattle.std.specs.Io.KnownBytes.{Appends};
ghost use Rattle.nbt_port.specs.Faults.{fault_status};
ghost use Rattle.nbt_port.specs.declared.fault.Fault.TheVariants.{Memory};
ghost use Rattle.nbt_text.specs.Lines.{one_line};
ghost use Rattle.nbt_prog.specs.Inner.Failure.{failure_status, fault_object, fault_text};
ghost use Rattle.nbt_prog.specs.Inner.Outcome.{status_of_outcome, text_of_outcome};

use crate::failure::Failure;
use crate::offline::Printed;
use nbt_port::Fault;
use std::io;
use std::io::Write;

/// Prints the text of a failure and returns its status. Prints nothing if the output failed. Where the command prints objects of JSON, the
/// word of a fault stands in one.
pub fn conclude_failed<W: Write>(failure: Failure, in_objects: bool, writer: &mut W) -> u8
    ensures bound { result ≤ 4 }
    ensures status { (result ≡ 3) ⊎ (result ≡ failure_status failure) }
    ensures memory { result ≡ 4
        → Appends (W.contents writer.old) (W.contents writer.new) (fault_text in_objects Memory) }
{
    match failure {
        Failure::Fault(Fault::Output) => Fault::Output.status(),
        Failure::Fault(fault) if in_objects => conclude_in_object(fault, writer),
        failure => conclude(Err(failure), writer),
    }
}

/// Prints the word of a fault in an object of JSON, and returns its status.
fn conclude_in_object<W: Write>(fault: Fault, writer: &mut W) -> u8
    ensures bound { result ≤ 4 }
    ensures printed { (result ≡ 3) ⊎ ((result ≡ fault_status fault)
        × Appends (W.contents writer.old) (W.contents writer.new) (fault_object fault)) }
{
    if print_object(fault, writer).is_err() {
        return Fault::Output.status();
    }
    fault.status()
}

/// Writes the word of a fault in an object of JSON.
fn print_object<W: Write>(fault: Fault, writer: &mut W) -> io::Result<()>
    ensures { OnOk result (Appends (W.contents writer.old) (W.contents writer.new) (fault_object fault)) }
{
    writer.write_all(object_of(fault).as_bytes())?;
    writer.flush()
}

/// The line of a fault as an object of JSON (RFC 8259), with its end: its word, as [`Fault::line`] has it, is a member.
fn object_of(fault: Fault) -> &'static str
    ensures { result.now ≡ fault_object fault }
{
    match fault {
        Fault::NoPort | Fault::NoClock | Fault::Device | Fault::Store => {
            "{\"error\":\"device\"}\n"
        }
        Fault::Output => "",
        Fault::Memory => "{\"error\":\"memory\"}\n",
    }
}

/// Prints the output or the text of the failure, and returns the status.
pub fn conclude<W: Write>(outcome: Result<Printed, Failure>, writer: &mut W) -> u8
    ensures bound { result ≤ 4 }
    ensures printed { (result ≡ 3) ⊎ ((result ≡ status_of_outcome outcome)
        × IfSome (text_of_outcome outcome)
        (Appends (W.contents writer.old) (W.contents writer.new))) }
    ensures memory { result ≡ 4
        → Appends (W.contents writer.old) (W.contents writer.new) (one_line (codes "memory")) }
{
    let status = match &outcome {
        Ok(printed) => printed.ending.status(),
        Err(failure) => failure.status(),
    };
    match print(&outcome, writer) {
        Ok(()) => status,
        Err(_) => Fault::Output.status(),
    }
}

/// Writes the output or the text of the failure.
fn print<W: Write>(outcome: &Result<Printed, Failure>, writer: &mut W) -> io::Result<()>
    ensures { OnOk result (IfSome (text_of_outcome outcome.now)
        (Appends (W.contents writer.old) (W.contents writer.new))) }
{
    match outcome {
        Ok(printed) => writer.write_all(printed.text.as_bytes())?,
        Err(Failure::Help(text) | Failure::Usage(text)) => write!(writer, "{text}")?,
        Err(failure) => writer.write_all(failure.line().as_bytes())?,
    }
    writer.flush()
}
