//! The command `show` with `--explain`: what it prints without it, and then the same in words.

ghost use Rattle.std.specs.Prelude.{IfOk};
ghost use Rattle.std.specs.String.{string_bytes};
ghost use Rattle.nbt_prog.specs.Printed.{is_done};
ghost use Rattle.nbt_prog.specs.Showing.{ShowsAndExplains, ExplainsHex};
ghost use Rattle.nbt_prog.specs.Texts.{StandsFor};

use crate::offline::failure::Failure;
use crate::offline::input::read_input;
use crate::offline::printed::Printed;
use crate::offline::reason;
use crate::offline::showing::{Service, service_of, show_octets};
use crate::offline::texts::digits_of;
use nbt_show::{explain_dgram, explain_packet, explain_session};
use std::alloc::{AllocError, Global};
use std::io::{Read, Write};

/// Prints what [`show`](crate::show) does, and then what explains the octets. In HEX colons and white space may stand between digits, and `-`
/// stands for the text that `reader` has, read to its end. Refused: `Unreadable` where that text spells no octets, or has more than 1,048,576;
/// `Device` where `reader` fails; or out of memory. A line in `errors` says what is unreadable.
pub fn explain<R: Read, E: Write>(
    alloc: Global,
    kind: &str,
    hex: &str,
    reader: &mut R,
    errors: &mut E,
) -> Result<Printed, Failure>
    ensures shown { IfOk result (λ printed.
        ExplainsHex kind.now hex.now (R.remaining reader.old) (is_done printed.ending) (string_bytes printed.text)) }
{
    let octets = octets_for(alloc, hex, reader, errors)?;
    let printed = explain_octets(alloc, service_of(kind), octets.as_slice())?;
    Ok(printed)
}

/// The octets that HEX stands for.
fn octets_for<R: Read, E: Write>(
    alloc: Global,
    hex: &str,
    reader: &mut R,
    errors: &mut E,
) -> Result<Vec<u8>, Failure>
    ensures { IfOk result (λ octets. StandsFor hex.now (R.remaining reader.old) octets.items) }
{
    match hex {
        "-" => {
            let input = read_input(alloc, reader, reason::HEX_INPUT, errors)?;
            digits_of(alloc, input.as_slice(), reason::HEX_INPUT, errors)
        }
        _ => digits_of(alloc, hex.as_bytes(), reason::HEX, errors),
    }
}

/// What `show` prints of these octets, with its ending, and then what explains them.
fn explain_octets(alloc: Global, service: Service, octets: &[u8]) -> Result<Printed, AllocError>
    ensures { IfOk result (λ printed.
        ShowsAndExplains service octets.now (is_done printed.ending) (string_bytes printed.text)) }
{
    let mut printed = show_octets(alloc, service, octets)?;
    let explained = match service {
        Service::Name => explain_packet(alloc, octets)?,
        Service::Dgram => explain_dgram(alloc, octets)?,
        Service::Session => explain_session(alloc, octets)?,
    };
    printed.text.push_str(explained.as_str())?;
    Ok(printed)
}
