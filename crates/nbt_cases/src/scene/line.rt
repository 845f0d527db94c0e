//! What the lines of a scene say.

use crate::scene::repeat::listed;
use crate::text::Names;
use nbt_name::Addr;
use nbt_nbns::Content;
use nbt_port::{Datagram, Route};
use nbt_testing::octets;
use nbt_text::read_address;
use std::alloc::{AllocError, Global};
use std::io::ErrorKind;

/// How much standard output takes: so many octets, and then a write fails so.
#[derive(Clone, Copy)]
pub struct Takes {
    pub count: usize,
    pub then: ErrorKind,
}

impl Takes {
    /// All that is written.
    pub const ALL: Takes = Takes {
        count: usize::MAX,
        then: ErrorKind::StorageFull,
    };
}

/// A line of a scene, which is either something that happens or one check: a call that the command has to make then.
#[derive(Drop)]
pub enum Line {
    /// It is this moment from here on, in milliseconds. A receive that waits comes to it.
    At(u64),
    /// The time of day is from here on so many milliseconds ahead of what the moments say.
    Set(i64),
    /// A client of a server may have so many leases from here on.
    Limit(u32),
    /// Standard output takes so much from here on.
    Output(Takes),
    /// This is asked of what plays.
    Asks(String),
    /// A receive hands this out.
    Comes(Datagram),
    /// A receive fails.
    Fails,
    /// Check: this is sent.
    Sends(Datagram),
    /// Check: this is sent, and the call fails.
    Loses(Datagram),
    /// Check: these octets are printed.
    Prints(Vec<u8>),
    /// Check: these octets are written to standard error.
    Says(Vec<u8>),
    /// Check: this is a line of the text that a file is given; without one, any lines.
    Keeps(Content, Option<String>),
    /// Check: a file is given a text, and refuses it.
    Refuses(Content),
    /// Check: the command ends so, as `status 0` or `device`.
    Ends(String),
    /// No line of a scene.
    Unknown,
}

impl Line {
    /// Reads a line.
    pub fn read<R: AllocGlobal>(rt: &R, names: &Names, line: &str) -> Result<Line, AllocError> {
        let alloc = rt.alloc();
        let (word, text) = line.split_once(" ").unwrap_or((line, ""));
        match word {
            "at" => Ok(text.parse().map_or(Line::Unknown, Line::At)),
            "set" => Ok(text.parse().map_or(Line::Unknown, Line::Set)),
            "limit" => Ok(text.parse().map_or(Line::Unknown, Line::Limit)),
            "from" => Ok(datagram_of(rt, names, text)?.map_or(Line::Unknown, Line::Comes)),
            "sends" => Ok(datagram_of(rt, names, text)?.map_or(Line::Unknown, Line::Sends)),
            "loses" => Ok(datagram_of(rt, names, text)?.map_or(Line::Unknown, Line::Loses)),
            "fails" => Ok(Line::Fails),
            "output" => Ok(takes_of(text).map_or(Line::Unknown, Line::Output)),
            "leases" | "hosts" | "stats" => kept_line(alloc, word, text),
            "refuses" => Ok(content_of(text).map_or(Line::Unknown, Line::Refuses)),
            ">" => Ok(Line::Prints(whole_line(alloc, names, text)?)),
            "!" => Ok(Line::Says(whole_line(alloc, names, text)?)),
            _ => ending_of(alloc, line),
        }
    }

    /// Whether it is something that the command has to do.
    pub fn is_check(&self) -> bool {
        match self {
            Line::Sends(_) | Line::Loses(_) | Line::Prints(_) | Line::Says(_) | Line::Ends(_) =>
                true,
            Line::Keeps(_, line) => line.is_some(),
            Line::Refuses(_) => true,
            _ => false,
        }
    }
}

/// How much standard output takes, by `all`, a number of octets behind which a write would wait, or why it takes none.
fn takes_of(text: &str) -> Option<Takes> {
    let (count, then) = match text {
        "all" => return Some(Takes::ALL),
        "full" => (0, ErrorKind::StorageFull),
        "interrupted" => (0, ErrorKind::Interrupted),
        _ => (text.parse().ok()?, ErrorKind::WouldBlock),
    };
    Some(Takes { count, then })
}

/// What a file has that a name server keeps, by its word.
fn content_of(word: &str) -> Option<Content> {
    match word {
        "leases" => Some(Content::Leases),
        "hosts" => Some(Content::Hosts),
        "stats" => Some(Content::Stats),
        _ => None,
    }
}

/// The word of what a file has.
pub fn content_word(content: Content) -> &'static str {
    match content {
        Content::Leases => "leases",
        Content::Hosts => "hosts",
        Content::Stats => "stats",
    }
}

/// A line of a file, or `...` for any.
fn kept_line(alloc: Global, word: &str, text: &str) -> Result<Line, AllocError> {
    let Some(content) = content_of(word) else {
        return Ok(Line::Unknown);
    };
    if text == "..." {
        return Ok(Line::Keeps(content, None));
    }
    Ok(Line::Keeps(content, Some(String::from_str(alloc, text)?)))
}

/// A text as a line, or without its end.
pub fn whole_line(alloc: Global, names: &Names, text: &str) -> Result<Vec<u8>, AllocError> {
    let mut octets = Vec::new(alloc);
    names.push_line(alloc, text, &mut octets)?;
    Ok(octets)
}

/// How a command is to end, in brackets.
fn ending_of(alloc: Global, line: &str) -> Result<Line, AllocError> {
    match line
        .strip_prefix("[")
        .and_then(|line| line.strip_suffix("]"))
    {
        Some(text) => Ok(Line::Ends(String::from_str(alloc, text)?)),
        None => Ok(Line::Unknown),
    }
}

/// An address, behind ` at ` that of the port's own, if it isn't its first, and a datagram by the names of its pieces, if it is one.
pub fn datagram_of<R: AllocGlobal>(
    rt: &R,
    names: &Names,
    text: &str,
) -> Result<Option<Datagram>, AllocError> {
    let text = names.words_of(rt.alloc(), text)?;
    let (peer, rest) = first_of(text.as_str());
    let (local, words) = match rest.strip_prefix("at ") {
        Some(rest) => first_of(rest),
        None => ("", rest),
    };
    let peer = read_address(rt.alloc(), peer)?;
    let own = read_address(rt.alloc(), local)?;
    if own.is_none() && !local.is_empty() {
        return Ok(None);
    }
    let words = listed(rt.alloc(), words)?;
    Ok(with_octets(peer, own, octets(rt, words.as_str()).ok()))
}

/// The first word of a text, and what is behind it, which is nothing where there is none.
fn first_of(text: &str) -> (&str, &str) {
    text.split_once(" ").unwrap_or((text, "-"))
}

/// All as one, where there are both an address and octets.
fn with_octets(
    peer: Option<Addr>,
    local: Option<Addr>,
    octets: Option<Vec<u8>>,
) -> Option<Datagram> {
    let peer = peer?;
    Some(Datagram {
        route: Route { peer, local },
        octets: octets?,
    })
}
