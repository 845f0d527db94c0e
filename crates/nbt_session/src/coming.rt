//! The packet that comes next on a session's stream, as far as it came (RFC 1002 section 4.3).

ghost use Rattle.std.specs.Prelude.{◌≡◌, ◌+◌, ◌≤◌, [], ◌++◌, length, None, IfOk, IfErr};
ghost use Rattle.nbt_session.specs.Parts.{TakesPart, between};
ghost use Rattle.nbt_session.specs.Stream.{HasFault};

use crate::body::other_in;
use crate::fault::Fault;
use crate::header::{Frame, HEADER, frame_of};
use crate::packet::{OTHER_MOST, Packet, PacketType};
use arrayvec::ArrayVec;
use std::mem;

/// What came of a packet, until it is whole or its header shows a message: at most 514 octets.
#[derive(Debug, Drop)]
pub(crate) struct Coming {
    /// What came of the header, while it isn't whole.
    header: ArrayVec<u8, HEADER>,
    /// What the header says, once it is whole. It is no message's.
    frame: Option<Frame>,
    /// What came after it.
    body: ArrayVec<u8, OTHER_MOST>,
}

/// How far a piece brings the header.
#[derive(Debug, Drop)]
pub(crate) enum Reach {
    /// It isn't whole with the whole piece. This came of it.
    Cut(ArrayVec<u8, HEADER>),
    /// It says this, and takes this number of octets of the piece.
    Whole(Frame, usize),
}

/// What is whole with a piece.
#[derive(Debug, Drop)]
pub(crate) enum Came {
    /// Nothing.
    Nothing,
    /// The header of a message of this number of octets.
    Message(usize),
    /// Another packet.
    Other(Packet),
}

impl Coming {
    ghost use Rattle.nbt_session.specs.Inner.Coming.{octets_of, IsComing, IsEmptied, Reaches, came, state_after};

    /// Nothing came yet.
    pub(crate) fn nothing() -> Coming
        ensures coming { IsComing result }
        ensures nothing { octets_of result ≡ [] }
    {
        Coming {
            header: ArrayVec::new(),
            frame: None,
            body: ArrayVec::new(),
        }
    }

    /// The same octets of the same packet.
    pub(crate) fn copy(&self) -> Coming
        requires { IsComing self.now }
        ensures coming { IsComing result }
        ensures octets { octets_of result ≡ octets_of self.now }
    {
        Coming {
            header: copied(&self.header),
            frame: self.frame,
            body: copied(&self.body),
        }
    }

    /// Takes the octets of a piece up to the end of the packet, or of a message's header: how many, and what is whole.
    pub(crate) fn take(&mut self, piece: &[u8]) -> Result<(usize, Came), Fault>
        requires { IsComing self.old }
        ensures coming { IsComing self.new }
        ensures takes { TakesPart piece.now (between (octets_of self.old)) (came result) (state_after self.new result) }
        ensures within { IfOk result (λ t. t.0 ≤ length piece.now) }
        ensures emptied { IfOk result (λ t. IsEmptied self.new t.1) }
    {
        let (frame, begin) = match self.reach(piece)? {
            Reach::Whole(frame, begin) => (frame, begin),
            Reach::Cut(header) => {
                self.header = header;
                return Ok((piece.len(), Came::Nothing));
            }
        };
        if let PacketType::Message = frame.kind {
            let _nothing = self.give_up();
            return Ok((begin, Came::Message(frame.count)));
        }
        let rest = &piece[begin..];
        let missing = frame.count - self.body.len();
        if rest.len() < missing {
            self.body.try_extend_from_slice(rest).unwrap();
            self.frame = Some(frame);
            return Ok((piece.len(), Came::Nothing));
        }
        self.body.try_extend_from_slice(&rest[..missing]).unwrap();
        let body = self.give_up();
        let packet = other_in(frame.kind, body.as_slice())?;
        Ok((begin + missing, Came::Other(packet)))
    }

    /// Reads the header, with the octets of the piece that belong to it.
    fn reach(&self, piece: &[u8]) -> Result<Reach, Fault>
        requires { IsComing self.now }
        ensures reaches { IfOk result (Reaches self.now piece.now) }
        ensures fault { IfErr result (HasFault (octets_of self.now ++ piece.now)) }
    {
        if let Some(frame) = self.frame {
            return Ok(Reach::Whole(frame, 0));
        }
        let begin = piece.len().min(self.header.remaining_capacity());
        let header = joined(&self.header, &piece[..begin]);
        match frame_of(header.as_slice())? {
            Some(frame) => Ok(Reach::Whole(frame, begin)),
            None => Ok(Reach::Cut(header)),
        }
    }

    /// What stands after the header. Nothing is held afterwards.
    fn give_up(&mut self) -> ArrayVec<u8, OTHER_MOST>
        ensures body { result.items ≡ self.old.body.items }
        ensures nothing { (self.new.header.items ≡ []) × (self.new.frame ≡ None) × (self.new.body.items ≡ []) }
    {
        self.header = ArrayVec::new();
        self.frame = None;
        mem::replace(&mut self.body, ArrayVec::new())
    }
}

/// A header, as far as it came, and its next octets.
fn joined(header: &ArrayVec<u8, HEADER>, octets: &[u8]) -> ArrayVec<u8, HEADER>
    requires { length header.now.items + length octets.now ≤ 4 }
    ensures { result.items ≡ header.now.items ++ octets.now }
{
    let mut whole = ArrayVec::new();
    whole.try_extend_from_slice(header.as_slice()).unwrap();
    whole.try_extend_from_slice(octets).unwrap();
    whole
}

/// The same octets.
fn copied<const N: usize>(octets: &ArrayVec<u8, N>) -> ArrayVec<u8, N>
    ensures { result.items ≡ octets.now.items }
{
    let mut copy = ArrayVec::new();
    copy.try_extend_from_slice(octets.as_slice()).unwrap();
    copy
}
