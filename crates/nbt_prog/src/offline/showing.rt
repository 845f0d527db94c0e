//! The command `show`: what the octets of one packet say, part by part, or those of a session's stream, packet by
//! packet.

ghost use Rattle.std.specs.Prelude.{◌≡◌, ◌↔◌, IfOk, IfErr, codes};
ghost use Rattle.std.specs.String.{string_bytes};
ghost use Rattle.nbt_prog.specs.Failures.{IsUnreadable};
ghost use Rattle.nbt_prog.specs.Printed.{is_done};
ghost use Rattle.nbt_prog.specs.Showing.{Shows, ShowsHex, IsService};
ghost use Rattle.nbt_prog.specs.Texts.{IsHexadecimal};

use crate::offline::failure::Failure;
use crate::offline::printed::{Ending, Printed};
use crate::offline::texts::octets_of;
use nbt_show::{write_dgram, write_packet, write_session};
use std::alloc::{AllocError, Global};
use std::io::Write;

/// Of which service octets are.
#[derive(Clone, Copy)]
pub enum Service {
    /// The name service.
    Name,
    /// The datagram service.
    Dgram,
    /// The session service.
    Session,
}

/// Of the octets that HEX spells, of the service that KIND names, `dgram`, `session`, or else that of names: a line for each part of the packet, for
/// the message that one of the name service spells, and for how many octets it takes; of a session's stream a line for each packet, and for how
/// many octets are left. Or the line of a fault, and the ending is then `Refused`. Refused: `Unreadable` where HEX spells no octets, and a line
/// in `errors` says so; or out of memory, which may be at any step.
pub fn show<E: Write>(
    alloc: Global,
    kind: &str,
    hex: &str,
    errors: &mut E,
) -> Result<Printed, Failure>
    ensures shown { IfOk result (λ printed. ShowsHex kind.now hex.now (is_done printed.ending) (string_bytes printed.text)) }
    ensures failure { IfErr result (IsUnreadable (IsHexadecimal hex.now)) }
{
    let octets = octets_of(alloc, hex, errors)?;
    let printed = show_octets(alloc, service_of(kind), octets.as_slice())?;
    Ok(printed)
}

/// The service that a KIND names.
pub fn service_of(kind: &str) -> Service
    ensures { IsService kind.now result }
{
    match kind {
        "dgram" => Service::Dgram,
        "session" => Service::Session,
        _ => Service::Name,
    }
}

/// What `show` prints of these octets.
pub fn show_octets(alloc: Global, service: Service, octets: &[u8]) -> Result<Printed, AllocError>
    ensures { IfOk result (λ printed. Shows service octets.now (is_done printed.ending) (string_bytes printed.text)) }
{
    let mut text = String::new(alloc);
    let is_faultless = match service {
        Service::Name => write_packet(octets, &mut text)?,
        Service::Dgram => write_dgram(octets, &mut text)?,
        Service::Session => write_session(octets, &mut text)?,
    };
    let ending = Ending::of(is_faultless);
    Ok(Printed { text, ending })
}
