//! The words after the first one of a line: endpoints, addresses, kinds, numbers.

ghost use Rattle.std.specs.Prelude.{◌≡◌, ◌↔◌, ℕ, Some};
ghost use Rattle.nbt_lease.specs.Config.{ConfigValue, config_of as limits_of};
ghost use Rattle.nbt_sim.specs.Arguments.{AreLimits};
ghost use Rattle.nbt_sim.specs.Words.{SpellsEnd, SpellsNode};

use crate::argument::{Argument, Arguments};
use crate::script_world::ENDS_MOST;
use arrayvec::ArrayVec;
use nbt_lease::{Config, Moment};
use nbt_name::{Addr, Kind, Name};
use nbt_text::{parse_address, parse_name, parse_number};

/// The number of a node, `n1` to `n8`.
fn node_of(word: &[u8]) -> Option<usize>
    ensures { (number : ℕ) → (result ≡ Some number) ↔ SpellsNode word.now number }
{
    let [b'n', digit] = word else {
        return None;
    };
    if *digit < b'1' || *digit > b'8' {
        return None;
    }
    Some(usize::from(*digit - b'0'))
}

/// The number of an endpoint: 0 for `s`, the server, or a node's.
fn end_of(word: &[u8]) -> Option<usize>
    ensures { (number : ℕ) → (result ≡ Some number) ↔ SpellsEnd word.now number }
{
    if word == b"s".as_slice() {
        return Some(0);
    }
    node_of(word)
}

/// A node.
pub struct Node;

impl Argument for Node {
    type Value = usize;

    ghost spells = { SpellsNode };

    fn read(word: &[u8]) -> Option<usize> {
        node_of(word)
    }
}

/// The server.
pub struct TheServer;

impl Argument for TheServer {
    ghost use Rattle.nbt_sim.specs.Words.{SpellsServer};

    type Value = ();

    ghost spells = { SpellsServer };

    fn read(word: &[u8]) -> Option<()> {
        if word == b"s".as_slice() {
            Some(())
        } else {
            None
        }
    }
}

/// An endpoint.
pub struct End;

impl Argument for End {
    type Value = usize;

    ghost spells = { SpellsEnd };

    fn read(word: &[u8]) -> Option<usize> {
        end_of(word)
    }
}

impl Argument for Name {
    ghost use Rattle.nbt_text.specs.NameText.{SpellsName};

    type Value = Name;

    ghost spells = { SpellsName };

    fn read(word: &[u8]) -> Option<Name> {
        parse_name(word)
    }
}

impl Argument for Addr {
    ghost use Rattle.nbt_text.specs.Address.{SpellsAddress};

    type Value = Addr;

    ghost spells = { SpellsAddress };

    fn read(word: &[u8]) -> Option<Addr> {
        parse_address(str::from_utf8(word).ok()?)
    }
}

/// A kind, `unique` or `group`.
impl Argument for Kind {
    ghost use Rattle.nbt_sim.specs.Words.{SpellsKind};

    type Value = Kind;

    ghost spells = { SpellsKind };

    fn read(word: &[u8]) -> Option<Kind> {
        match word {
            b"unique" => Some(Kind::Unique),
            b"group" => Some(Kind::Group),
            _ => None,
        }
    }
}

impl Argument for u64 {
    ghost use Rattle.nbt_text.specs.Number.{SpellsNumber};

    type Value = u64;

    ghost spells = { SpellsNumber };

    fn read(word: &[u8]) -> Option<u64> {
        parse_number(word)
    }
}

/// A number as the number of a datagram, or of nodes, or of leases.
impl Argument for usize {
    ghost use Rattle.nbt_text.specs.Number.{SpellsNumber};

    type Value = usize;

    ghost spells = { SpellsNumber };

    fn read(word: &[u8]) -> Option<usize> {
        match parse_number(word) {
            Some(count) => Some(count as usize),
            None => None,
        }
    }
}

/// A number of seconds, below 2^32.
pub struct Seconds;

impl Argument for Seconds {
    ghost use Rattle.nbt_sim.specs.Words.{SpellsSeconds};

    type Value = u32;

    ghost spells = { SpellsSeconds };

    fn read(word: &[u8]) -> Option<u32> {
        u32::try_from(parse_number(word)?).ok()
    }
}

/// A time, at most 2^60 ms.
impl Argument for Moment {
    ghost use Rattle.nbt_sim.specs.Words.{SpellsMoment};

    type Value = Moment;

    ghost spells = { SpellsMoment };

    fn read(word: &[u8]) -> Option<Moment> {
        Moment::new(parse_number(word)?)
    }
}

/// A number for each word, and nine at most.
pub struct Moves;

impl Arguments for Moves {
    ghost use Rattle.nbt_sim.specs.Arguments.{SpellsMoves};

    type Values = ArrayVec<u64, 9>;

    ghost spell = { SpellsMoves };

    fn read_all(words: &[&[u8]]) -> Option<ArrayVec<u64, 9>> {
        if words.len() > ENDS_MOST {
            return None;
        }
        let mut moves = ArrayVec::new();
        for word in words {
            moves.push(parse_number(word)?);
        }
        Some(moves)
    }
}

/// `LIFE LONGEST ROWS NODES`.
pub struct NewWorld;

impl Arguments for NewWorld {
    ghost use Rattle.nbt_sim.specs.Arguments.{SpellsWorld};

    type Values = (Config, usize);

    ghost spell = { SpellsWorld };

    fn read_all(words: &[&[u8]]) -> Option<(Config, usize)> {
        let (life, (longest, (rows, (nodes, ())))) = <(u64, (u64, (usize, (usize, ()))))>::read_all(
            words,
        )?;
        let config = limits(life, longest, rows)?;
        Some((config, nodes))
    }
}

/// The limits of these numbers, of which `longest` may be too large for one.
fn limits(life: u64, longest: u64, rows: usize) -> Option<Config>
    ensures { (config : ConfigValue) → (result ≡ Some config)
        ↔ (AreLimits life longest rows × (config ≡ limits_of life longest rows)) }
{
    Config::new(life, u32::try_from(longest).ok()?, rows).ok()
}
