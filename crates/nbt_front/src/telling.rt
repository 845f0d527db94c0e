//! What a front says of the requests that it refused.

use crate::deciding::Decision;
use nbt_lease::Moment;
use nbt_log::Limiter;
use nbt_name::Name;
use nbt_text::write_word;
use std::alloc::{AllocError, Global};
use std::io;
use std::io::Write;
use std::net::Ipv4Addr;

/// Why a request was refused.
#[derive(Clone, Copy, Debug, PartialEq, Eq)]
enum Why {
    /// Its sender may not register.
    NotAllowed,
    /// Its name is fixed.
    Fixed,
}

impl Why {
    /// What is said of it.
    fn words(self) -> &'static str {
        match self {
            Why::NotAllowed => "not allowed",
            Why::Fixed => "a fixed name",
        }
    }
}

/// A refused request: its name and its sender, why, and how many of that kind were left out before it.
#[derive(Debug, Drop)]
struct Note {
    name: Name,
    ip: u32,
    why: Why,
    left_out: u64,
}

/// What is to be said of the datagram that came last: at most ten lines of a kind in any second.
#[derive(Debug, Drop)]
pub(crate) struct Notes {
    last: Option<Note>,
    at: Moment,
    not_allowed: Limiter,
    fixed: Limiter,
}

impl Notes {
    /// Nothing is to be said.
    pub fn new() -> Notes {
        Notes {
            last: None,
            at: Moment::zero(),
            not_allowed: Limiter::new(),
            fixed: Limiter::new(),
        }
    }

    /// Nothing is to be said of the datagram that comes next.
    pub fn clear(&mut self) {
        self.last = None;
    }

    /// Notes what was decided of a datagram from this address, where that was to refuse it, and a line may be said of it. Where the
    /// time went back, the lines of before don't count.
    pub fn note(&mut self, now: Moment, ip: u32, decision: Decision) {
        if now < self.at {
            self.not_allowed = Limiter::new();
            self.fixed = Limiter::new();
        }
        self.at = now;
        self.last = match decision {
            Decision::NotAllowed(name) => {
                note_of(self.not_allowed.take(now), name, ip, Why::NotAllowed)
            }
            Decision::FixedRefused(name) => note_of(self.fixed.take(now), name, ip, Why::Fixed),
            Decision::FixedConfirmed | Decision::FixedFound => None,
        };
    }

    /// Says it, as `nbt: refused FILER#20 192.0.2.9: not allowed`. What can't be written is passed over.
    pub fn tell<E: Write>(&self, alloc: Global, errors: &mut E) {
        if let Some(note) = &self.last {
            let _ = tell_note(alloc, note, errors);
        }
    }
}

/// The note, where its line isn't left out.
fn note_of(left_out: Option<u64>, name: Name, ip: u32, why: Why) -> Option<Note> {
    let left_out = left_out?;
    Some(Note {
        name,
        ip,
        why,
        left_out,
    })
}

fn tell_note<E: Write>(alloc: Global, note: &Note, errors: &mut E) -> io::Result<()> {
    let mut text = String::new(alloc);
    write_note(note, &mut text)?;
    writeln!(errors, "nbt: {text}")?;
    errors.flush()
}

fn write_note(note: &Note, out: &mut String) -> Result<(), AllocError> {
    let ip = Ipv4Addr::from_bits(note.ip);
    let why = note.why.words();
    let left_out = note.left_out;
    out.push_str("refused ")?;
    write_word(&note.name, out)?;
    write!(out, " {ip}: {why}")?;
    if left_out > 0 {
        write!(out, ", {left_out} left out before")?;
    }
    Ok(())
}
