//! How runs end.

ghost use Rattle.std.specs.Prelude.{◌≡◌, ◌↔◌, true, None, Some, IfSome, vec_len};
ghost use Rattle.nbt_cases.specs.Wanted.{IsExact};

use crate::case::Case;
use bstr::ByteSlice;
use nbt_prog::{command, command_telling};
use std::alloc::Global;
use std::fs::File;
use std::io;
use std::io::Write;
use std::net::Net;
use std::random::RandomSource;
use std::rt::Files;
use std::time::Clock;

/// What stands for anything in a text that is wanted.
const ANYTHING: &[u8] = b"...";

/// What was written, and how much of it was flushed.
#[derive(Drop)]
pub struct Paper {
    pub octets: Vec<u8>,
    flushed: usize,
}

impl Paper {
    fn new(alloc: Global) -> Paper {
        Paper {
            octets: Vec::new(alloc),
            flushed: 0,
        }
    }

    fn is_flushed(&self) -> bool
        ensures { (result ≡ true) ↔ (self.now.flushed ≡ vec_len self.now.octets) }
    {
        self.flushed == self.octets.len()
    }
}

impl Write for Paper {
    fn write(&mut self, buf: &[u8]) -> io::Result<usize> {
        self.octets.extend_from_slice(buf)?;
        Ok(buf.len())
    }

    fn flush(&mut self) -> io::Result<()> {
        self.flushed = self.octets.len();
        Ok(())
    }
}

/// How a run ended, and what it said on standard error, where there is one.
#[derive(Drop)]
pub struct Ending {
    pub status: u8,
    pub printed: Paper,
    pub said: Option<Paper>,
}

impl Ending {
    /// Plays a case on this machine.
    pub fn on<R: AllocGlobal + Net + Clock + RandomSource + Files<File = File>>(
        rt: &R,
        case: &Case,
    ) -> Ending {
        let mut printed = Paper::new(rt.alloc());
        let mut said = Paper::new(rt.alloc());
        let status = command_telling(
            rt,
            rt.alloc(),
            case.words.as_slice(),
            &mut case.input.as_slice(),
            &mut printed,
            &mut said,
        );
        Ending {
            status,
            printed,
            said: Some(said),
        }
    }

    /// Plays a case without a machine.
    pub fn without(alloc: Global, case: &Case) -> Ending {
        let mut printed = Paper::new(alloc);
        let words = case.words.as_slice();
        let status = command(alloc, words, &mut case.input.as_slice(), &mut printed);
        Ending {
            status,
            printed,
            said: None,
        }
    }

    /// Whether it ended as the case wants it to: with this status, with what it prints and says, and all of that flushed.
    pub fn is_wanted(&self, case: &Case) -> bool
        ensures status { result ≡ true → case.now.status ≡ Some self.now.status }
        ensures printed { result ≡ true → IsExact case.now.printed.items
            → self.now.printed.octets.items ≡ case.now.printed.items }
        ensures said { result ≡ true → IfSome case.now.said (λ wanted. IfSome self.now.said (λ said.
            IsExact wanted.items → said.octets.items ≡ wanted.items)) }
        ensures flushed { result ≡ true → self.now.printed.flushed ≡ vec_len self.now.printed.octets }
        ensures said_flushed { result ≡ true → IfSome case.now.said (λ _. IfSome self.now.said (λ said. said.flushed ≡ vec_len said.octets)) }
        ensures passes { case.now.status ≡ Some self.now.status → IsExact case.now.printed.items
            → self.now.printed.octets.items ≡ case.now.printed.items
            → self.now.printed.flushed ≡ vec_len self.now.printed.octets
            → case.now.said ≡ None → result ≡ true }
    {
        let is_said = match (&case.said, &self.said) {
            (Some(wanted), Some(said)) => {
                said.is_flushed() && fits(wanted.as_slice(), said.octets.as_slice())
            }
            _ => true,
        };
        case.status == Some(self.status)
            && self.printed.is_flushed()
            && fits(case.printed.as_slice(), self.printed.octets.as_slice())
            && is_said
    }
}

/// Whether a text is the one that is wanted.
fn fits(wanted: &[u8], text: &[u8]) -> bool
    ensures exact { IsExact wanted.now → ((result ≡ true) ↔ (text.now ≡ wanted.now)) }
{
    match wanted.split_once_str(ANYTHING) {
        None => text == wanted,
        Some((start, later)) => match text.strip_prefix(start) {
            Some(rest) => goes_on(later, rest),
            None => false,
        },
    }
}

/// Whether a text has, after anything, what is wanted, up to its end.
fn goes_on(wanted: &[u8], text: &[u8]) -> bool {
    let mut wanted = wanted;
    let mut text = text;
    for _ in 0..wanted.len() {
        let Some((next, later)) = wanted.split_once_str(ANYTHING) else {
            break;
        };
        let Some((_, rest)) = text.split_once_str(next) else {
            return false;
        };
        wanted = later;
        text = rest;
    }
    text.ends_with(wanted)
}
