//! The replies to requests.

ghost use Rattle.std.specs.Prelude.{◌≡◌, map, Ok, OnOk, OnErr};
ghost use Rattle.nbt_packet.specs.Message.{message_if};
ghost use Rattle.nbt_port.specs.PortCalls.{receiving, receive_failed, CountsFailure};
ghost use Rattle.nbt_host.specs.Releases.{answered};
ghost use Rattle.nbt_host.specs.ReleaseTurns.{Hears};
ghost use Rattle.nbt_host.specs.Inner.ReleaseSteps.{Heard};

use crate::release::Release;
use arrayvec::ArrayVec;
use nbt_name::Addr;
use nbt_packet::{Message, read};
use nbt_port::{Device, Port, Route};

/// Receives once, and takes what came, which counts from the server alone.
pub fn hear<P: Port>(port: &mut P, server: Addr, releases: &mut [Release]) -> Result<(), Device>
    ensures ok { OnOk result (Heard P.does server (record { port = port.old; releases = releases.old }) (record { port = port.new; releases = releases.new })) }
    ensures err { OnErr result (P.does port.old receive_failed port.new × (releases.new ≡ releases.old)) }
    ensures device { CountsFailure (P.failures port.old) (P.failures port.new) result }
{
    let mut octets = ArrayVec::new();
    let from = port.receive(&mut octets)?;
    take_from(server, from, octets.as_slice(), releases);
    Ok(())
}

/// Takes a datagram, if one came, and if it is the server's.
fn take_from(server: Addr, from: Option<Route>, octets: &[u8], releases: &mut [Release])
    ensures { Hears server releases.old (receiving (Ok from) octets.now) releases.new }
{
    let Some(from) = from else {
        return;
    };
    if !(from.peer == server) {
        return;
    }
    take_all(&read(octets), releases);
}

/// Takes a message for whichever name it is.
fn take_all(message: &Option<Message<'_>>, releases: &mut [Release])
    ensures { releases.new ≡ map (answered (message_if message.now)) releases.old }
{
    for release in releases.iter_mut() {
        take(message, release);
    }
}

/// Takes a message, if it is the first reply for this name.
fn take(message: &Option<Message<'_>>, release: &mut Release)
    ensures { release.new ≡ answered (message_if message.now) release.old }
{
    if let Some(
        Message::Released {
            id,
            rcode,
            name,
            ..
        },
    ) = message
    {
        if *id == release.id && release.rcode.is_none() && name.is(&release.name) {
            release.rcode = Some(*rcode);
        }
    }
}
