//! The packet that comes next on a session's stream whose octets all lie in memory: nothing is copied (our profile).

ghost use Rattle.std.specs.Prelude.{◌≡◌, ◌≤◌, [], length, drop, Err, IfOk, IfSome, IfNone};
ghost use Rattle.nbt_session.specs.declared.fault.Fault.{Fault};
ghost use Rattle.nbt_session.specs.declared.fault.StreamFault.TheVariants.{Malformed};
ghost use Rattle.nbt_session.specs.Parts.{between};
ghost use Rattle.nbt_session.specs.Stream.{Begins, IsPartial, HasFault};
ghost use Rattle.nbt_show.specs.SessionText.{whole_of};

use nbt_session::{Packet, Part, Pieces, StreamFault};

/// A whole packet of a session's stream (RFC 1002 section 4.3).
#[derive(Debug, Drop)]
pub enum Whole<'a> {
    /// A message, whose octets are borrowed.
    Message(&'a [u8]),
    /// Another packet.
    Other(Packet),
}

/// Takes the octets up to the end of one packet (RFC 1002 section 4.3): how many, and the packet; or nothing, where no packet is
/// whole and there is no fault. `pieces` stands between two packets, and does so again after a packet. Refused with the fault that
/// the octets begin with.
pub fn next_packet<'a>(
    pieces: &mut Pieces,
    octets: &'a [u8],
) -> Result<Option<(usize, Whole<'a>)>, StreamFault>
    requires { pieces.old ≡ between [] }
    ensures within { IfOk result (λ found. IfSome found (λ t. t.0 ≤ length octets.now)) }
    ensures whole { IfOk result (λ found. IfSome found (λ t. Begins octets.now (whole_of t.1) (drop t.0 octets.now))) }
    ensures anew { IfOk result (λ found. IfSome found (λ t. pieces.new ≡ between [])) }
    ensures partial { IfOk result (λ found. IfNone found (IsPartial octets.now)) }
    ensures sound { IfOk result (λ found. IfNone found ((fault : Fault) → ¬ HasFault octets.now fault)) }
    ensures fault { (fault : Fault) → result ≡ Err (Malformed fault) → HasFault octets.now fault }
{
    nbt_session::laws::a_message_that_lacks_octets();
    let mut begin = 0;
    let mut taken = 0;
    'parts: loop {
        let (count, part) = pieces.take(&octets[taken..])?;
        taken += count;
        match part {
            None => return Ok(None),
            Some(Part::MessageStart(_)) => begin = taken,
            Some(Part::MessageData(_)) => {}
            Some(Part::MessageEnd) => {
                return Ok(Some((taken, Whole::Message(&octets[begin..taken]))));
            }
            Some(Part::Other(packet)) => return Ok(Some((taken, Whole::Other(packet)))),
        }
    }
}
