//! A session's stream in C's memory: its octets come in pieces, and its parts are reported (RFC 1002 section 4.3).

ghost use Rattle.std.specs.Prelude.{◌≡◌, [], Some, IsSome, IsNone};
ghost use Rattle.nbt_session.specs.Parts.{between, part_if};
ghost use Rattle.nbt_c.specs.Memory.{Changes};
ghost use Rattle.nbt_c.specs.Sessions.{TakesFor, part_after};
ghost use Rattle.nbt_c.specs.Sizes.{stream_size, object_align};

use crate::held::CPieces;
use crate::packet::CPacket;
use nbt_session::{Part, Pieces, StreamFault};

/// A part of a session's stream, as C sees it. A field that its kind doesn't name stays as it was.
#[repr(C)]
#[derive(Drop)]
pub struct CPart {
    /// 0 none, 1 a message begins, 2 octets of it, 3 it is whole, 4 another packet.
    pub kind: u8,
    /// Of a message that begins: how many octets it has; of octets of it: how many, and those are the first of the piece.
    pub size: usize,
    /// Of another packet: it.
    pub packet: CPacket,
}

impl CPart {
    /// Reports it.
    fn report(&mut self, part: &Option<Part<'_>>)
        ensures { self.new ≡ part_after self.old (part_if part.now) }
    {
        match part {
            None => self.kind = 0,
            Some(Part::MessageStart(size)) => {
                self.kind = 1;
                self.size = *size;
            }
            Some(Part::MessageData(octets)) => {
                self.kind = 2;
                self.size = octets.len();
            }
            Some(Part::MessageEnd) => self.kind = 3,
            Some(Part::Other(packet)) => {
                self.kind = 4;
                self.packet.report(packet);
            }
        }
    }
}

/// The size of a stream's memory in octets.
#[unsafe(no_mangle)]
pub extern "C" fn nbt_pieces_size() -> usize
    ensures { result ≡ stream_size }
{
    size_of::<Pieces>()
}

/// The alignment of that memory in octets.
#[unsafe(no_mangle)]
pub extern "C" fn nbt_pieces_align() -> usize
    ensures { result ≡ object_align }
{
    align_of::<Pieces>()
}

/// `nbt_session::Pieces::new`: a stream of which nothing came stands in the memory.
#[unsafe(no_mangle)]
pub extern "C" fn nbt_pieces_start(pieces: &mut CPieces)
    requires { IsNone pieces.old.pieces }
    ensures { pieces.new.pieces ≡ Some (between []) }
{
    pieces.put(Pieces::new());
}

/// Calls `nbt_session::Pieces::take` with what C passes.
fn take(pieces: &mut Pieces, piece: &[u8], part: &mut CPart, taken: &mut usize) -> u8
    ensures { TakesFor piece.now pieces.old part.old result part.new taken.new pieces.new }
{
    match pieces.take(piece) {
        Ok((count, found)) => {
            part.report(&found);
            *taken = count;
            0
        }
        Err(StreamFault::Malformed(fault)) => {
            *taken = fault.place;
            fault.kind.number()
        }
        Err(StreamFault::OutOfMemory) => StreamFault::OutOfMemory.number(),
    }
}

/// `nbt_session::Pieces::take`: takes octets of the piece up to the end of one part. 0, and `part` says it, `taken` being how many
/// octets it took; where they end no part, that is all of them, and the part is none. Octets of a message are the first of the
/// piece. The call after a message's last octets reports that it is whole, of an empty piece too. Refused, `part` being left as it
/// was and `taken` being the fault's place, counted from the packet's first octet: `BadType` (1), `BadFlags` (2), `BadLength` (3),
/// `BadName` (4), and then for ever.
#[unsafe(no_mangle)]
pub extern "C" fn nbt_pieces_take(
    pieces: &mut CPieces,
    piece: &[u8],
    part: &mut CPart,
    taken: &mut usize,
) -> u8
    requires { IsSome pieces.old.pieces }
    ensures { Changes pieces.old.pieces pieces.new.pieces (λ old new. TakesFor piece.now old part.old result part.new taken.new new) }
{
    take(pieces.get(), piece, part, taken)
}
