//! The IPv4 addresses of this machine, which Linux lists in `/proc/net/fib_trie`.

ghost use Rattle.std.specs.Prelude.{◌≡◌, ◌↔◌, ◌++◌, ◌∷◌, [], ℕ, List, IsTrue, IfOk, OnOk, codes};
ghost use Rattle.nbt_text.specs.Lines.{words};
ghost use Rattle.nbt_text.specs.Texts.{texts};
ghost use Rattle.nbt_port.specs.OwnAddresses.{AreOwn, Says, Steps};

use nbt_text::{lines_of, words_of};
use std::alloc::{AllocError, Global};
use std::fs::{File, OpenFile};
use std::io;
use std::io::Read;
use std::net::Ipv4Addr;
use std::rt::Files;

/// Where Linux lists them.
pub(crate) const LIST: &str = "/proc/net/fib_trie";

/// The most octets of a list that are read: a machine with many thousand routes has a longer one (our profile).
const LIST_MOST: u64 = 1 << 20;

/// What a line of the list says.
#[derive(Clone, Copy, Debug, PartialEq, Eq)]
enum Line {
    /// A leaf: the lines below are about this address.
    Leaf(u32),
    /// The address of the leaf is the machine's own.
    Own,
    /// Something else.
    Other,
}

/// The addresses that the machine has now. One that two tables list is there twice. Refused where the list can't be read, is 1 MiB
/// long or longer, or has none.
pub(crate) fn read_own<M: Files>(machine: &M, alloc: Global) -> io::Result<Vec<u32>> {
    let mut list = Vec::new(alloc);
    File::open(machine, LIST)?
        .take(LIST_MOST)
        .read_to_end(&mut list)?;
    if list.len() as u64 >= LIST_MOST {
        return Err(io::Error::other("it is too long"));
    }
    let own = own_addresses(alloc, list.as_slice())?;
    if own.is_empty() {
        return Err(io::Error::other("it has no address"));
    }
    Ok(own)
}

/// The machine's own addresses in a list as Linux writes it: a leaf `|-- 192.0.2.1` has one where a line `/32 host LOCAL` stands
/// below it, before the next leaf. In the order of those lines, as often as they stand there. Refused where it is out of memory.
pub fn own_addresses(alloc: Global, list: &[u8]) -> Result<Vec<u32>, AllocError>
    ensures { IfOk result (λ own. AreOwn list.now own.items) }
{
    let lines = lines_of(alloc, list)?;
    let mut leaf = None;
    let mut own = Vec::new(alloc);
    for line in lines.as_slice() {
        step(line_of(alloc, line)?, &mut leaf, &mut own)?;
    }
    Ok(own)
}

/// One line: another leaf, or that the leaf's address is the machine's own.
fn step(line: Line, leaf: &mut Option<u32>, own: &mut Vec<u32>) -> Result<(), AllocError>
    ensures { OnOk result ((added : List ℕ) × Steps line leaf.old leaf.new added × (own.new.items ≡ own.old.items ++ added)) }
{
    match line {
        Line::Leaf(ip) => *leaf = Some(ip),
        Line::Own => {
            if let Some(ip) = *leaf {
                own.push(ip)?;
            }
        }
        Line::Other => {}
    }
    Ok(())
}

/// What a line says.
fn line_of(alloc: Global, line: &[u8]) -> Result<Line, AllocError>
    ensures { IfOk result (λ said. Says (words line.now) said) }
{
    let words = words_of(alloc, line)?;
    Ok(said_by(words.as_slice()))
}

/// What a line of these words says.
fn said_by(words: &[&[u8]]) -> Line
    ensures { Says (texts words.now) result }
{
    match words {
        [mark, text] if is_text(mark, b"|--") => leaf_of(text),
        [length, scope, kind]
            if is_text(length, b"/32") && is_text(scope, b"host") && is_text(kind, b"LOCAL") => {
            Line::Own
        }
        _ => Line::Other,
    }
}

/// The leaf of this address, if the text is one.
fn leaf_of(text: &[u8]) -> Line
    ensures { Says (codes "|--" ∷ text.now ∷ []) result }
{
    match Ipv4Addr::parse_ascii(text) {
        Ok(ip) => Line::Leaf(ip.to_bits()),
        Err(_) => Line::Other,
    }
}

/// Whether a word is this one.
fn is_text(word: &[u8], text: &[u8]) -> bool
    ensures { IsTrue result ↔ (word.now ≡ text.now) }
{
    word == text
}
