//! Which files have names and addresses, and how one is told from the others.

use nbt_log::LIST_HEAD;
use nbt_text::NEWLINE;

/// A kind of file that has names and addresses.
#[derive(Clone, Copy, Debug, PartialEq, Eq)]
pub enum Source {
    /// What Samba's nmbd keeps as a WINS server, `wins.dat`.
    Wins,
    /// `lmhosts`, as Windows and Samba read it.
    Lmhosts,
    /// The output of nbtscan: its table, or what it prints with `-s`.
    Nbtscan,
    /// The list that `nbns --leases` keeps.
    List,
}

impl Source {
    /// Its word: `wins.dat`, `lmhosts`, `nbtscan` or `list`.
    pub fn word(self) -> &'static str {
        match self {
            Source::Wins => "wins.dat",
            Source::Lmhosts => "lmhosts",
            Source::Nbtscan => "nbtscan",
            Source::List => "list",
        }
    }

    /// The kind that a word names.
    pub fn named(word: &str) -> Option<Source> {
        match word {
            "wins.dat" => Some(Source::Wins),
            "lmhosts" => Some(Source::Lmhosts),
            "nbtscan" => Some(Source::Nbtscan),
            "list" => Some(Source::List),
            _ => None,
        }
    }

    /// The kind of a file with these lines: the first line decides that looks like one of some kind.
    pub(crate) fn of(lines: &[&[u8]]) -> Option<Source> {
        lines.iter().find_map(|line| told_by(line))
    }
}

/// How the first lines of wins.dat and of nbtscan's output begin.
const WINS_HEAD: &[u8] = b"VERSION ";

const NBTSCAN_HEADS: [&[u8]; 2] = [b"Doing NBT name scan", b"IP address "];

/// The kind of file that a line tells.
fn told_by(line: &[u8]) -> Option<Source> {
    if is_list_head(line) {
        return Some(Source::List);
    }
    if line.starts_with(WINS_HEAD) || line.starts_with(b"\"") {
        return Some(Source::Wins);
    }
    if NBTSCAN_HEADS.iter().any(|head| line.starts_with(head)) {
        return Some(Source::Nbtscan);
    }
    match behind_address(line.trim_ascii()) {
        Some(b' ' | b'\t') => Some(Source::Lmhosts),
        Some(_) => Some(Source::Nbtscan),
        None => None,
    }
}

/// Whether a line is the first one of a list of leases.
pub(crate) fn is_list_head(line: &[u8]) -> bool {
    match LIST_HEAD.as_bytes().split_last() {
        Some((&NEWLINE, head)) => line == head,
        _ => false,
    }
}

/// The octet behind the digits and dots that a line begins with, if they are an address.
fn behind_address(line: &[u8]) -> Option<u8> {
    let (addr, rest) = cut_address(line);
    nbt_front::ip_in(addr)?;
    rest.first().copied()
}

/// The digits and dots that a text begins with, and the rest.
pub(crate) fn cut_address(text: &[u8]) -> (&[u8], &[u8]) {
    match text.iter().position(|octet| !is_of_address(*octet)) {
        Some(place) => (&text[..place], &text[place..]),
        None => (text, b""),
    }
}

/// Whether an octet is a digit or a dot.
fn is_of_address(octet: u8) -> bool {
    octet.is_ascii_digit() || octet == b'.'
}
