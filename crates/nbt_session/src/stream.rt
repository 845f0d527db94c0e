//! A session's stream of octets, packet by packet (RFC 1002 section 4.3).

ghost use Rattle.std.specs.Prelude.{◌≡◌, ◌≤◌, [], length, List, ℕ, IfOk};
ghost use Rattle.nbt_name.specs.Wire.{AreOctets};
ghost use Rattle.nbt_session.specs.Inner.Gathering.{IsGathering, Gathers};
ghost use Rattle.nbt_session.specs.Taking.{Takes, holding, taken};

use crate::fault::StreamFault;
use crate::packet::Packet;
use crate::part::Part;
use crate::pieces::Pieces;
use std::alloc::Global;
use std::marker::Model;
use std::mem;

/// A stream of session packets that comes in pieces (RFC 1002 section 4.3). It holds what came of the next packet, at
/// most 131,075 octets, and allocates memory for a message's alone.
#[derive(Debug, Drop)]
pub struct Stream {
    pieces: Pieces,
    /// What came of the message that isn't whole.
    message: Vec<u8>,
}

impl Model for Stream {
    ghost use Rattle.nbt_session.specs.Taking.{StreamState};
    ghost use Rattle.nbt_session.specs.Inner.Gathering.{stream_state, IsGathering};

    ghost Value = { StreamState };

    ghost view = { λ s. stream_state s.pieces s.message.items };

    ghost invariant = { λ s. IsGathering s.pieces s.message.items };
}

impl Stream {
    /// A stream of which nothing came. It allocates no memory.
    pub fn new(alloc: Global) -> Stream
        ensures { result ≡ holding [] }
    {
        Stream {
            pieces: Pieces::new(),
            message: Vec::new(alloc),
        }
    }

    /// Takes the octets of `piece` up to the end of one packet, and says how many it took: all of them where no packet
    /// is whole (RFC 1002 section 4.3). Refused: `OutOfMemory` (5), then nothing is taken and nothing changes; as soon
    /// as the octets are there that show it, `BadType` (1), `BadFlags` (2), `BadLength` (3), `BadName` (4), with a
    /// place counted from the packet's first octet, and then for ever.
    pub fn take(&mut self, piece: &[u8]) -> Result<(usize, Option<Packet>), StreamFault>
        ensures takes { Takes piece.now self.old (taken result) self.new }
        ensures within { IfOk result (λ t. t.0 ≤ length piece.now) }
        ensures held_octets { (held : List ℕ) → self.new ≡ holding held → length held ≤ 131075 }
    {
        let before = self.pieces.copy();
        let held = self.message.len();
        match gather(&mut self.pieces, &mut self.message, piece) {
            Err(StreamFault::OutOfMemory) => {
                self.pieces = before;
                self.message.truncate(held);
                Err(StreamFault::OutOfMemory)
            }
            answer => answer,
        }
    }
}

/// Takes parts of the piece, and puts a message's octets together, until a packet is whole or the piece is taken.
fn gather(
    pieces: &mut Pieces,
    message: &mut Vec<u8>,
    piece: &[u8],
) -> Result<(usize, Option<Packet>), StreamFault>
    requires { IsGathering pieces.old message.old.items }
    ensures gathers { Gathers piece.now pieces.old message.old.items (taken result) pieces.new message.new.items }
    ensures within { IfOk result (λ t. t.0 ≤ length piece.now) }
{
    let mut taken = 0;
    'parts: loop {
        let (count, part) = pieces.take(&piece[taken..])?;
        taken += count;
        match part {
            None => return Ok((taken, None)),
            Some(Part::MessageStart(_)) => {}
            Some(Part::MessageData(octets)) => message.extend_from_slice(octets)?,
            Some(Part::MessageEnd) => return Ok((taken, Some(Packet::Message(give_up(message))))),
            Some(Part::Other(packet)) => return Ok((taken, Some(packet))),
        }
    }
}

/// The message's octets. None are left.
fn give_up(message: &mut Vec<u8>) -> Vec<u8>
    ensures octets { result.items ≡ message.old.items }
    ensures fits { AreOctets result.items }
    ensures nothing { message.new.items ≡ [] }
{
    let alloc = *message.allocator();
    mem::replace(message, Vec::new(alloc))
}
