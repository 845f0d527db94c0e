//! What the octets of one datagram say, part by part, as text (our profile).

ghost use Rattle.std.specs.Prelude.{◌≡◌, ℕ, ◌++◌, List, OnOk, IfOk, codes};
ghost use Rattle.std.specs.String.{string_bytes};
ghost use Rattle.nbt_dgram.specs.Dgram.{body_of, dgram_of, fragment_of};
ghost use Rattle.nbt_show.specs.DgramText.{PrintsBody, PrintsDgram, PrintsPart, data_line, head_line, name_line, two_digits};
ghost use Rattle.nbt_text.specs.NameText.{PrintsName};

use crate::packet_text::{write_data, write_word};
use nbt_dgram::{Body, Dgram, Fragment, Part, decode};
use nbt_name::LentName;
use nbt_text::{end_line, write_address, write_hexadecimal, write_name};
use std::alloc::AllocError;

/// Where FLAGS stands (RFC 1002 section 4.4.1).
const FLAGS: usize = 1;

/// Appends a line for the octets that each datagram begins with, with the second one as the flags; a line for each
/// name, for the data or for the error's code; and one for how many octets the datagram takes. Or appends the line of
/// its fault. Returns whether a datagram stands there.
pub fn write_dgram(octets: &[u8], out: &mut String) -> Result<bool, AllocError>
    ensures { IfOk result (λ stands. (text : List ℕ) × (string_bytes out.new ≡ string_bytes out.old ++ text)
        × PrintsDgram octets.now stands text) }
{
    match decode(octets) {
        Ok((dgram, length)) => {
            write_head(octets[FLAGS], &dgram, out)?;
            write_body(&dgram.body, out)?;
            writeln!(out, "length {length}")?;
            Ok(true)
        }
        Err(fault) => {
            let word = fault.kind.word();
            let place = fault.place;
            writeln!(out, "fault {word} at {place}")?;
            Ok(false)
        }
    }
}

/// Appends the line of the octets that each datagram begins with.
fn write_head(flags: u8, dgram: &Dgram<'_>, out: &mut String) -> Result<(), AllocError>
    ensures { OnOk result (string_bytes out.new ≡ string_bytes out.old ++ head_line flags (dgram_of dgram.now)) }
{
    out.push_str("type ")?;
    write_octet(dgram.msg_type().number(), out)?;
    out.push_str(" flags ")?;
    write_octet(flags, out)?;
    out.push_str(" id ")?;
    write_word(dgram.id, out)?;
    out.push_str(" from ")?;
    write_address(dgram.source, out)?;
    end_line(out)
}

/// Appends the lines of what stands after the first ten octets.
fn write_body(body: &Body<'_>, out: &mut String) -> Result<(), AllocError>
    ensures { OnOk result ((text : List ℕ) × (string_bytes out.new ≡ string_bytes out.old ++ text)
        × PrintsBody (body_of body.now) text) }
{
    match body {
        Body::Fragment(fragment) => {
            write_part(&fragment.part, out)?;
            write_payload(fragment, out)
        }
        Body::Error(code) => {
            out.push_str("error ")?;
            write_octet(*code, out)?;
            end_line(out)
        }
        Body::Lookup(_, name) => write_name_line("destination ", name, out),
    }
}

/// Appends the lines of the names, where there are names.
fn write_part(part: &Part<'_>, out: &mut String) -> Result<(), AllocError>
    ensures { OnOk result ((text : List ℕ) × (string_bytes out.new ≡ string_bytes out.old ++ text)
        × PrintsPart PrintsName (codes "source ") (codes "destination ") part.now text) }
{
    let Part::First(names) = part else {
        return Ok(());
    };
    write_name_line("source ", &names.source, out)?;
    write_name_line("destination ", &names.destination, out)
}

/// Appends the line of a fragment's data.
fn write_payload(fragment: &Fragment<'_>, out: &mut String) -> Result<(), AllocError>
    ensures { OnOk result (string_bytes out.new ≡ string_bytes out.old ++ data_line (fragment_of fragment.now)) }
{
    let offset = fragment.part.offset();
    write!(out, "offset {offset} data ")?;
    write_data(fragment.payload, out)?;
    end_line(out)
}

/// Appends the line of a name.
fn write_name_line(label: &str, name: &LentName<'_>, out: &mut String) -> Result<(), AllocError>
    ensures { OnOk result ((text : List ℕ) × (string_bytes out.new ≡ string_bytes out.old ++ name_line label.now text)
        × PrintsName name.now text) }
{
    out.push_str(label)?;
    write_name(&name.to_name(), out)?;
    end_line(out)
}

/// Appends the octet in two hexadecimal digits.
pub fn write_octet(octet: u8, out: &mut String) -> Result<(), AllocError>
    ensures { OnOk result (string_bytes out.new ≡ string_bytes out.old ++ two_digits octet) }
{
    write_hexadecimal(&[octet], out)
}
