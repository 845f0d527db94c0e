//! What stands after a packet's header (RFC 1002 sections 4.3.2 to 4.3.7).

ghost use Rattle.std.specs.Prelude.{◌≡◌, ◌≢◌, ◌+◌, ◌<◌, ◌≤◌, ◌^◌, ◌++◌, length, IfOk, IfErr};
ghost use Rattle.nbt_name.specs.Words.{word, long};
ghost use Rattle.nbt_session.specs.declared.packet.PacketType.TheVariants.{Message, Request};
ghost use Rattle.nbt_session.specs.Packet.{HasLength, IsPacket, type_of, body_of, packet_of};
ghost use Rattle.nbt_session.specs.Stream.{RequestFault, name_fault};

use crate::fault::{Fault, FaultKind};
use crate::header::{HEADER, bad};
use crate::packet::{Packet, PacketType};
use nbt_name::{Addr, NameFault, NameFaultKind, read_long, read_plain, read_word};

/// The packet that these octets after a header are. It is no message.
pub(crate) fn other_in(kind: PacketType, body: &[u8]) -> Result<Packet, Fault>
    requires other { kind ≢ Message }
    requires long { HasLength kind (length body.now) }
    ensures packet { IfOk result (λ p. IsPacket (packet_of p)) }
    ensures kind { IfOk result (λ p. type_of (packet_of p) ≡ kind) }
    ensures body { IfOk result (λ p. body_of (packet_of p) ≡ body.now) }
    ensures fault { IfErr result (λ fault. (kind ≡ Request) × RequestFault body.now fault) }
{
    match kind {
        PacketType::Message => unreachable!(),
        PacketType::Request => request_in(body),
        PacketType::Positive => Ok(Packet::Positive),
        PacketType::Negative => Ok(Packet::Negative(body[0])),
        PacketType::Retarget => Ok(Packet::Retarget(addr_in(body))),
        PacketType::KeepAlive => Ok(Packet::KeepAlive),
    }
}

/// The two names of a request (RFC 1002 section 4.3.2).
fn request_in(body: &[u8]) -> Result<Packet, Fault>
    requires { length body.now ≤ 510 }
    ensures packet { IfOk result (λ p. IsPacket (packet_of p)) }
    ensures kind { IfOk result (λ p. type_of (packet_of p) ≡ Request) }
    ensures body { IfOk result (λ p. body_of (packet_of p) ≡ body.now) }
    ensures fault { IfErr result (RequestFault body.now) }
{
    let (called, next) = match read_plain(body, 0) {
        Ok(read) => read,
        Err(fault) => return Err(fault_of(fault)),
    };
    let (calling, end) = match read_plain(body, next) {
        Ok(read) => read,
        Err(fault) => return Err(fault_of(fault)),
    };
    if end < body.len() {
        return Err(bad(FaultKind::BadLength, 2));
    }
    Ok(Packet::Request { called, calling })
}

/// A name's fault, as the request's: its place is counted from the header on, and a name that is cut is a fault of the
/// length.
fn fault_of(fault: NameFault) -> Fault
    requires { fault.place ≤ 510 }
    ensures { result ≡ name_fault fault }
{
    match fault.kind {
        NameFaultKind::Short => bad(FaultKind::BadLength, 2),
        NameFaultKind::BadLabel
        | NameFaultKind::BadHalf
        | NameFaultKind::BadPointer
        | NameFaultKind::Long => bad(FaultKind::BadName, HEADER + fault.place),
    }
}

/// The address and the port of a retarget (RFC 1002 section 4.3.5).
fn addr_in(body: &[u8]) -> Addr
    requires { length body.now ≡ 6 }
    ensures octets { long result.ip ++ word result.port ≡ body.now }
    ensures fits { (result.ip < 2 ^ 32) × (result.port < 2 ^ 16) }
{
    Addr {
        ip: read_long(body, 0),
        port: read_word(body, 4),
    }
}
