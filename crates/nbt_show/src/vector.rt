//! Vectors: octets, and what the reader of packets, or of datagrams, has to say of them (our profile).

ghost use Rattle.std.specs.Prelude.{◌≡◌, ◌↔◌, ℕ, [], ◌∷◌, List, IsTrue, Some, IfOk, MatchOption, codes};
ghost use Rattle.nbt_show.specs.declared.vector.Expected.{Expected};
ghost use Rattle.nbt_show.specs.declared.vector.Expected.TheVariants as expects;
ghost use Rattle.nbt_show.specs.declared.vector.Service.{Service};
ghost use Rattle.nbt_text.specs.Number.{SpellsNumber};
ghost use Rattle.nbt_text.specs.Texts.{texts};
ghost use Rattle.nbt_show.specs.Inner.Line.{LineIs};
ghost use Rattle.nbt_show.specs.Verdicts.{Says, SpellsExpected, SpellsVector, service_word};

use nbt_dgram::{DgramFault, DgramFaultKind};
use nbt_packet::{Fault, FaultKind};
use nbt_text::{octets_of, parse_number, words_said};
use std::alloc::{AllocError, Global};

/// What stands in a line.
#[derive(Debug, Drop)]
pub enum Line {
    /// Spaces alone, or a remark, whose first octet is `#`.
    Blank,
    /// A vector.
    Vector(Vector),
    /// Neither.
    Unreadable,
}

/// Octets, and what is expected of them.
#[derive(Debug, Drop)]
pub struct Vector {
    /// The octets.
    pub octets: Vec<u8>,
    /// What their reader has to say.
    pub expected: Expected,
}

/// The service whose reader is tried.
#[derive(Clone, Copy, Debug, PartialEq, Eq)]
pub enum Service {
    /// The name service.
    Name,
    /// The datagram service.
    Dgram,
}

/// How many octets the packet or datagram has with which the octets begin, or their fault.
#[derive(Debug, Drop)]
pub enum Expected {
    /// By the reader of packets of the name service.
    Name(Result<usize, Fault>),
    /// By the reader of datagrams.
    Dgram(Result<usize, DgramFault>),
}

impl Vector {
    /// Whether the reader says what is expected.
    pub fn holds(&self) -> bool
        ensures { IsTrue result ↔ Says self.now.octets.items self.now.expected }
    {
        let octets = self.octets.as_slice();
        match &self.expected {
            Expected::Name(expected) => name_holds(octets, expected),
            Expected::Dgram(expected) => dgram_holds(octets, expected),
        }
    }
}

/// Whether the reader of packets says what is expected.
fn name_holds(octets: &[u8], expected: &Result<usize, Fault>) -> bool
    ensures { IsTrue result ↔ Says octets.now (expects.Name expected.now) }
{
    match (nbt_packet::decode(octets), expected) {
        (Ok((_, taken)), Ok(expected)) => taken == *expected,
        (Err(fault), Err(expected)) => fault == *expected,
        _ => false,
    }
}

/// Whether the reader of datagrams says what is expected.
fn dgram_holds(octets: &[u8], expected: &Result<usize, DgramFault>) -> bool
    ensures { IsTrue result ↔ Says octets.now (expects.Dgram expected.now) }
{
    match (nbt_dgram::decode(octets), expected) {
        (Ok((_, taken)), Ok(expected)) => taken == *expected,
        (Err(fault), Err(expected)) => fault == *expected,
        _ => false,
    }
}

/// Reads a line: `name HEX ok N` or `name HEX fault WORD PLACE`, or the same with `dgram`, in words between spaces,
/// where empty HEX is `-`, N and PLACE are digits alone, and WORD is a fault of the service. A line of spaces, or one
/// whose first octet is `#`, is blank.
pub fn parse_line(alloc: Global, line: &[u8]) -> Result<Line, AllocError>
    ensures { IfOk result (LineIs line.now) }
{
    let Some(words) = words_said(alloc, line)? else {
        return Ok(Line::Blank);
    };
    match vector_of(alloc, words.as_slice())? {
        Some(vector) => Ok(Line::Vector(vector)),
        None => Ok(Line::Unreadable),
    }
}

/// The vector that the words spell.
fn vector_of(alloc: Global, words: &[&[u8]]) -> Result<Option<Vector>, AllocError>
    ensures { IfOk result (λ found. MatchOption found
        ((octets : List ℕ) (expected : Expected) → ¬ SpellsVector (texts words.now) octets expected)
        (λ vector. SpellsVector (texts words.now) vector.octets.items vector.expected)) }
{
    let [service, digits, rest @ ..] = words else {
        return Ok(None);
    };
    let Some(service) = service_of(service) else {
        return Ok(None);
    };
    let Some(expected) = expected_of(service, rest) else {
        return Ok(None);
    };
    match octets_of(alloc, digits)? {
        Some(octets) => Ok(Some(Vector { octets, expected })),
        None => Ok(None),
    }
}

/// The service that the word names.
fn service_of(word: &[u8]) -> Option<Service>
    ensures { (service : Service) → (result ≡ Some service) ↔ (word.now ≡ service_word service) }
{
    match word {
        b"name" => Some(Service::Name),
        b"dgram" => Some(Service::Dgram),
        _ => None,
    }
}

/// What is expected of the service's reader: `ok N` or `fault WORD PLACE`.
fn expected_of(service: Service, words: &[&[u8]]) -> Option<Expected>
    ensures { (e : Expected) → (result ≡ Some e) ↔ SpellsExpected service (texts words.now) e }
{
    match words {
        [verdict, count] => {
            if !are_equal(verdict, b"ok") {
                return None;
            }
            expected_count(service, count)
        }
        [verdict, word, place] => {
            if !are_equal(verdict, b"fault") {
                return None;
            }
            expected_fault(service, word, place)
        }
        _ => None,
    }
}

/// `ok N`.
fn expected_count(service: Service, count: &[u8]) -> Option<Expected>
    ensures { (e : Expected) → (result ≡ Some e) ↔ SpellsExpected service (codes "ok" ∷ count.now ∷ []) e }
{
    let count = place_of(count)?;
    match service {
        Service::Name => Some(Expected::Name(Ok(count))),
        Service::Dgram => Some(Expected::Dgram(Ok(count))),
    }
}

/// `fault WORD PLACE`, with a word of the service's faults.
fn expected_fault(service: Service, word: &[u8], place: &[u8]) -> Option<Expected>
    ensures { (e : Expected) → (result ≡ Some e)
        ↔ SpellsExpected service (codes "fault" ∷ word.now ∷ place.now ∷ []) e }
{
    let place = place_of(place)?;
    match service {
        Service::Name => {
            let kind = FaultKind::from_word(word)?;
            Some(Expected::Name(Err(Fault { kind, place })))
        }
        Service::Dgram => {
            let kind = DgramFaultKind::from_word(word)?;
            Some(Expected::Dgram(Err(DgramFault { kind, place })))
        }
    }
}

/// A number as a count of octets, or as a place among them.
fn place_of(word: &[u8]) -> Option<usize>
    ensures { (place : ℕ) → (result ≡ Some place) ↔ SpellsNumber word.now place }
{
    match parse_number(word) {
        Some(place) => Some(place as usize),
        None => None,
    }
}

/// Whether two words are the same, octet by octet.
fn are_equal(word: &[u8], other: &[u8]) -> bool
    ensures { IsTrue result ↔ (word.now ≡ other.now) }
{
    word == other
}
