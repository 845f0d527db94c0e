//! A session's stream of octets, which comes and goes in pieces (RFC 1002 section 4.3).

ghost use Rattle.std.specs.Prelude.{◌≡◌, ◌≤◌, [], length, List, ℕ, IfOk};
ghost use Rattle.nbt_session.specs.Parts.{TakesPart, between, part_taken};

use crate::coming::{Came, Coming};
use crate::fault::{Fault, StreamFault};
use crate::part::Part;
use std::marker::Model;

/// A stream of session packets that comes in pieces, and returns a message's octets as they come (RFC 1002 section 4.3).
/// It allocates no memory, and holds what came of the next packet, but of a message its header alone: at most 514 octets.
#[derive(Debug, Drop)]
pub struct Pieces {
    coming: Coming,
    place: Place,
}

/// Where a stream stands.
#[derive(Clone, Copy, Debug)]
pub(crate) enum Place {
    /// Between packets, or in one that is no message.
    Between,
    /// In a message, of which this number of octets is to come.
    Inside(usize),
    /// At a fault.
    Faulty(Fault),
}

impl Model for Pieces {
    ghost use Rattle.nbt_session.specs.Parts.{PiecesState};
    ghost use Rattle.nbt_session.specs.Inner.Pieces.{state_of, IsAt};

    ghost Value = { PiecesState };

    ghost view = { λ p. state_of p.coming p.place };

    ghost invariant = { λ p. IsAt p.coming p.place };
}

impl Pieces {
    /// A stream of which nothing came.
    pub fn new() -> Pieces
        ensures { result ≡ between [] }
    {
        Pieces {
            coming: Coming::nothing(),
            place: Place::Between,
        }
    }

    /// An equal stream.
    pub(crate) fn copy(&self) -> Pieces
        ensures { result ≡ self.now }
    {
        Pieces {
            coming: self.coming.copy(),
            place: self.place,
        }
    }

    /// Takes the octets of `piece` up to the end of one part, and says how many it took: all of them where it returns
    /// no part (RFC 1002 section 4.3). `MessageStart` comes as soon as the header is whole, `MessageData` borrows the
    /// octets of the piece that belong to the message, and `MessageEnd` is returned by the next call after the last of
    /// them, of an empty piece too, and takes none. Refused, as soon as the octets are there that show it: `BadType`
    /// (1), `BadFlags` (2), `BadLength` (3), `BadName` (4), with a place counted from the packet's first octet, and
    /// then for ever. `OutOfMemory` (5) is never returned.
    pub fn take<'a>(&mut self, piece: &'a [u8]) -> Result<(usize, Option<Part<'a>>), StreamFault>
        ensures takes { TakesPart piece.now self.old (part_taken result) self.new }
        ensures within { IfOk result (λ t. t.0 ≤ length piece.now) }
        ensures held_octets { (held : List ℕ) → self.new ≡ between held → length held ≤ 514 }
    {
        match self.place {
            Place::Between => match self.coming.take(piece) {
                Ok((taken, Came::Nothing)) => Ok((taken, None)),
                Ok((taken, Came::Message(size))) => {
                    self.place = Place::Inside(size);
                    Ok((taken, Some(Part::MessageStart(size))))
                }
                Ok((taken, Came::Other(packet))) => Ok((taken, Some(Part::Other(packet)))),
                Err(fault) => {
                    self.place = Place::Faulty(fault);
                    Err(StreamFault::Malformed(fault))
                }
            },
            Place::Inside(missing) => {
                if missing == 0 {
                    self.place = Place::Between;
                    return Ok((0, Some(Part::MessageEnd)));
                }
                let count = missing.min(piece.len());
                if count == 0 {
                    return Ok((0, None));
                }
                self.place = Place::Inside(missing - count);
                Ok((count, Some(Part::MessageData(&piece[..count]))))
            }
            Place::Faulty(fault) => Err(StreamFault::Malformed(fault)),
        }
    }
}
