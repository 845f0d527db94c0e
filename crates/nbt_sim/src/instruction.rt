//! What a line of a script asks for.

ghost use Rattle.std.specs.Prelude.{◌≡◌, ◌↔◌, ℕ, Some, IfOk, MatchOption};
ghost use Rattle.nbt_text.specs.Texts.{texts};
ghost use Rattle.nbt_sim.specs.declared.instruction.Instruction.{Instruction};
ghost use Rattle.nbt_sim.specs.declared.instruction.Instruction.TheVariants as instruction;
ghost use Rattle.nbt_sim.specs.declared.verb.Verb.TheVariants as verbs;
ghost use Rattle.nbt_sim.specs.Line.{Says, SaysOf};
ghost use Rattle.nbt_sim.specs.Line.{LineIs};

use crate::argument::{Argument, Arguments};
use crate::verb::{Verb, verb_of};
use crate::words::{End, Moves, NewWorld, Node, Seconds, TheServer};
use arrayvec::ArrayVec;
use nbt_lease::{Config, Moment};
use nbt_name::{Addr, Kind, Name};
use nbt_text::{octets_of, words_said};
use nbt_world::Event;
use std::alloc::{AllocError, Global};

/// What a line asks for.
#[derive(Debug, Drop)]
pub enum Instruction {
    /// A world with these limits and this number of nodes.
    Config(Config, usize),
    /// All clocks go on alike, and the true one to this time.
    At(Moment),
    /// The clocks go on, each by its own number of milliseconds.
    Advance {
        /// By how much the true clock goes on.
        ms: u64,
        /// By how much the endpoints' clocks do: the server's, and then the nodes'.
        moves: ArrayVec<u64, 9>,
    },
    /// Something happens in the world.
    Happens(Event),
    /// Who holds a name.
    Holders(Name),
    /// Whether the clocks kept the drift bound so far.
    Kept,
    /// Whether no clock was faster than the drift bound lets it be so far, and no node's slower.
    Timely,
}

/// What stands in a line.
#[derive(Debug, Drop)]
pub enum Line {
    /// Spaces alone, or a remark, whose first octet is `#`.
    Blank,
    /// An instruction.
    Says(Instruction),
    /// Neither.
    Unreadable,
}

/// Reads a line, in words between spaces. A line of spaces, or one whose first octet is `#`, is blank.
pub fn parse_line(alloc: Global, line: &[u8]) -> Result<Line, AllocError>
    ensures { IfOk result (LineIs line.now) }
{
    let Some(words) = words_said(alloc, line)? else {
        return Ok(Line::Blank);
    };
    match instruction_of(alloc, words.as_slice())? {
        Some(instruction) => Ok(Line::Says(instruction)),
        None => Ok(Line::Unreadable),
    }
}

/// The instruction that the words spell.
fn instruction_of(alloc: Global, words: &[&[u8]]) -> Result<Option<Instruction>, AllocError>
    ensures { IfOk result (λ found. MatchOption found ((i : Instruction) → ¬ Says (texts words.now) i)
        (Says (texts words.now))) }
{
    let Some((first, rest)) = words.split_first() else {
        return Ok(None);
    };
    let Some(verb) = verb_of(first) else {
        return Ok(None);
    };
    match verb {
        Verb::Stranger => stranger_of(alloc, rest),
        Verb::Beside => beside_of(alloc, rest),
        _ => Ok(arguments_of(verb, rest)),
    }
}

/// What the words after a verb say that is about no datagram from outside.
fn arguments_of(verb: Verb, words: &[&[u8]]) -> Option<Instruction>
    requires stranger { ¬ (verb ≡ verbs.Stranger) }
    requires beside { ¬ (verb ≡ verbs.Beside) }
    ensures { (i : Instruction) → (result ≡ Some i) ↔ SaysOf verb (texts words.now) i }
{
    match verb {
        Verb::Config => NewWorld::read_all(words).map(|(config, nodes)| {
            Instruction::Config(config, nodes)
        }),
        Verb::At => <(Moment, ())>::read_all(words).map(|(moment, ())| Instruction::At(moment)),
        Verb::Advance => <(u64, Moves)>::read_all(words).map(|(ms, moves)| {
            Instruction::Advance { ms, moves }
        }),
        Verb::Start => <(End, ())>::read_all(words).map(|(end, ())| happens(Event::Start(end))),
        Verb::Crash => <(End, ())>::read_all(words).map(|(end, ())| happens(Event::Crash(end))),
        Verb::Resume => <(TheServer, ())>::read_all(words).map(|((), ())| happens(Event::Resume)),
        Verb::Ask => ask_of(words),
        Verb::Release => <(Node, (Name, ()))>::read_all(words).map(|(node, (name, ()))| {
            happens(Event::Release { node, name })
        }),
        Verb::Resolve => <(Node, (Name, ()))>::read_all(words).map(|(node, (name, ()))| {
            happens(Event::Resolve { node, name })
        }),
        Verb::Status => {
            let asked = <(Node, (Addr, (Name, ())))>::read_all(words);
            asked.map(|(node, (to, (name, ())))| happens(Event::NameStatus { node, to, name }))
        }
        Verb::Poll => <(Node, ())>::read_all(words).map(|(node, ())| happens(Event::Poll(node))),
        Verb::Deliver => <(usize, ())>::read_all(words).map(|(k, ())| happens(Event::Deliver(k))),
        Verb::Stranger | Verb::Beside => unreachable!(),
        Verb::Holders => <(Name, ())>::read_all(words).map(|(name, ())| Instruction::Holders(name)),
        Verb::Kept => <()>::read_all(words).map(|()| Instruction::Kept),
        Verb::Timely => <()>::read_all(words).map(|()| Instruction::Timely),
    }
}

/// `NODE NAME KIND TTL`.
fn ask_of(words: &[&[u8]]) -> Option<Instruction>
    ensures { (i : Instruction) → (result ≡ Some i) ↔ SaysOf verbs.Ask (texts words.now) i }
{
    let asked = <(Node, (Name, (Kind, (Seconds, ()))))>::read_all(words);
    asked.map(|(node, (name, (kind, (ttl, ()))))| {
        happens(Event::Ask {
            node,
            name,
            kind,
            ttl,
        })
    })
}

/// An event is to happen.
fn happens(event: Event) -> Instruction
    ensures { result ≡ instruction.Happens event }
{
    Instruction::Happens(event)
}

/// `ADDRESS E HEX` of an unknown sender.
fn stranger_of(alloc: Global, words: &[&[u8]]) -> Result<Option<Instruction>, AllocError>
    ensures { IfOk result (λ found. MatchOption found ((i : Instruction) → ¬ SaysOf verbs.Stranger (texts words.now) i)
        (SaysOf verbs.Stranger (texts words.now))) }
{
    let [from, to, digits] = words else {
        return Ok(None);
    };
    let Some(from) = Addr::read(from) else {
        return Ok(None);
    };
    let Some(to) = End::read(to) else {
        return Ok(None);
    };
    match octets_of(alloc, digits)? {
        Some(octets) => Ok(Some(Instruction::Happens(Event::Stranger { from, to, octets }))),
        None => Ok(None),
    }
}

/// `ADDRESS E HEX` of another program on an endpoint's machine.
fn beside_of(alloc: Global, words: &[&[u8]]) -> Result<Option<Instruction>, AllocError>
    ensures { IfOk result (λ found. MatchOption found ((i : Instruction) → ¬ SaysOf verbs.Beside (texts words.now) i)
        (SaysOf verbs.Beside (texts words.now))) }
{
    let [from, to, digits] = words else {
        return Ok(None);
    };
    let Some(from) = Addr::read(from) else {
        return Ok(None);
    };
    let Some(to) = End::read(to) else {
        return Ok(None);
    };
    match octets_of(alloc, digits)? {
        Some(octets) => Ok(Some(Instruction::Happens(Event::Beside { from, to, octets }))),
        None => Ok(None),
    }
}
