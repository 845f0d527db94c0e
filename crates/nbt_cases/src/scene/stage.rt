//! Where a scene is played: what happens next, and whether each call is the one that it has next.

use crate::scene::line::{Line, Takes, content_word};
use crate::scene::script::Scene;
use arrayvec::ArrayVec;
use nbt_lease::Moment;
use nbt_nbns::Content;
use nbt_port::{Datagram, Device, Route};
use nbt_text::write_address;
use std::alloc::{AllocError, Global};
use std::cell::Cell;
use std::io::ErrorKind;

/// The time of day at the moment 0, 2026-11-24T09:11:03Z, in milliseconds since 1970.
const DAY: i64 = 1_795_511_463_000;

/// A scene, and how far it is. After the first call that isn't the one that comes next, each call fails.
#[derive(Drop)]
pub struct Stage<'a> {
    alloc: Global,
    scene: &'a Scene,
    place: Cell<usize>,
    /// How many octets of the line at this place were written.
    written: Cell<usize>,
    is_flushed: Cell<bool>,
    now: Cell<u64>,
    ahead: Cell<i64>,
    limit: Cell<Option<u32>>,
    output: Cell<Takes>,
    checks: Cell<u64>,
    is_wrong: Cell<bool>,
    missed: Cell<Option<String>>,
}

impl<'a> Stage<'a> {
    pub fn new(alloc: Global, scene: &'a Scene) -> Stage<'a> {
        let stage = Stage {
            alloc,
            scene,
            place: Cell::new(0),
            written: Cell::new(0),
            is_flushed: Cell::new(true),
            now: Cell::new(scene.start),
            ahead: Cell::new(0),
            limit: Cell::new(None),
            output: Cell::new(Takes::ALL),
            checks: Cell::new(0),
            is_wrong: Cell::new(false),
            missed: Cell::new(None),
        };
        stage.settle();
        stage
    }

    /// How many checks were made, and what was done in place of the line at which it failed.
    pub fn into_verdict(self) -> Verdict {
        Verdict {
            checks: self.checks.get(),
            place: self.place.get(),
            is_wrong: self.is_wrong.get(),
            missed: self.missed.take(),
        }
    }

    /// The moment, in milliseconds.
    pub fn now(&self) -> Moment {
        Moment::new(self.now.get()).unwrap_or(Moment::zero())
    }

    /// The time of day.
    pub fn day(&self) -> Moment {
        let now = i64::try_from(self.now.get()).unwrap_or(0);
        let day = DAY.saturating_add(now).saturating_add(self.ahead.get());
        u64::try_from(day)
            .ok()
            .and_then(|day| Moment::new(day))
            .unwrap_or(Moment::zero())
    }

    /// How many octets standard output takes.
    pub fn room(&self) -> usize {
        self.scene.room
    }

    /// How many of so many octets standard output takes. Refused where it takes none of them.
    pub fn take_output(&self, count: usize) -> Result<usize, ErrorKind> {
        let takes = self.output.get();
        if takes.count == 0 && count > 0 {
            return Err(takes.then);
        }
        let taken = count.min(takes.count);
        self.output.set(Takes {
            count: takes.count - taken,
            then: takes.then,
        });
        Ok(taken)
    }

    /// How many leases a client of a server may have, where there is a limit.
    pub fn limit(&self) -> Option<u32> {
        self.limit.get()
    }

    /// What is asked next of what plays, if that is next.
    pub fn request(&self) -> Option<&'a str> {
        match self.next() {
            Some(Line::Asks(words)) => {
                self.pass();
                Some(words.as_str())
            }
            _ => None,
        }
    }

    /// What is asked is nothing that can be done, or something is done that never may be.
    pub fn refuse(&self, text: &str) {
        self.miss(String::from_str(self.alloc, text))
    }

    /// A text is printed as a line.
    pub fn print(&self, text: &str) {
        self.write(false, text.as_bytes());
        self.write(false, b"\n");
        self.flush();
    }

    /// Whether there is something to receive, or time that passes.
    pub fn has_more(&self) -> bool {
        matches!(
            self.next(),
            Some(Line::At(_) | Line::Comes(_) | Line::Fails)
        )
    }

    /// So many milliseconds pass.
    pub fn sleep(&self, ms: u64) {
        self.now.set(self.now.get().saturating_add(ms));
    }

    /// A call of the port that receives. Where it waits, it is the next moment of the scene afterwards.
    pub fn receive(
        &self,
        waits: bool,
        octets: &mut ArrayVec<u8, 2048>,
    ) -> Result<Option<Route>, Device> {
        octets.clear();
        if !self.is_flushed.get() {
            self.miss(String::from_str(self.alloc, "it receives before it flushes what it wrote"));
            return Err(Device);
        }
        let waited = waits && self.wait();
        match self.next() {
            Some(Line::Comes(datagram)) => {
                self.pass();
                let most = datagram.octets.len().min(octets.remaining_capacity());
                let _ = octets.try_extend_from_slice(&datagram.octets[..most]);
                Ok(Some(datagram.route))
            }
            Some(Line::Fails) => {
                self.pass();
                Err(Device)
            }
            _ if waited || !waits => Ok(None),
            _ => {
                self.miss(String::from_str(self.alloc, "it receives"));
                Err(Device)
            }
        }
    }

    /// A call of the port that sends.
    pub fn send(&self, to: Route, octets: &[u8]) -> Result<(), Device> {
        match self.next() {
            Some(Line::Sends(wanted)) if is_same(wanted, to, octets) => {
                self.pass();
                Ok(())
            }
            Some(Line::Loses(wanted)) if is_same(wanted, to, octets) => {
                self.pass();
                Err(Device)
            }
            _ => {
                self.miss(told_sending(self.alloc, to, octets));
                Err(Device)
            }
        }
    }

    /// Octets are printed, or said on standard error.
    pub fn write(&self, is_error: bool, octets: &[u8]) {
        self.is_flushed
            .set(octets.is_empty() && self.is_flushed.get());
        for octet in octets {
            if !self.takes(is_error, *octet) {
                self.miss(told_writing(self.alloc, is_error, octets));
                return;
            }
        }
    }

    /// A file is given a text. Returns whether it takes it: then each of its lines is the next one, or one of any that may stand there.
    pub fn keep(&self, content: Content, text: &str) -> bool {
        if self.passes_refusal(content) {
            return false;
        }
        for line in text.lines() {
            self.keep_line(content, line);
        }
        if self.is_kept_next(content, 0, None) {
            self.pass();
        }
        if !text.ends_with("\n") || self.has_kept(content) {
            self.miss(told_keeping(self.alloc, content, "ends"));
        }
        true
    }

    /// Whether a line of this file comes next.
    fn has_kept(&self, content: Content) -> bool {
        matches!(self.next(), Some(Line::Keeps(wanted, _)) if *wanted == content)
    }

    fn passes_refusal(&self, content: Content) -> bool {
        let is_next = matches!(self.next(), Some(Line::Refuses(wanted)) if *wanted == content);
        if is_next {
            self.pass();
        }
        is_next
    }

    /// A line of a text that a file is given.
    fn keep_line(&self, content: Content, line: &str) {
        if !self.is_kept_next(content, 0, None) {
            return self.pass_kept(content, line);
        }
        if self.is_kept_next(content, 1, Some(line)) {
            self.pass();
            self.pass();
        }
    }

    fn pass_kept(&self, content: Content, line: &str) {
        if self.is_kept_next(content, 0, Some(line)) {
            self.pass();
        } else {
            self.miss(told_keeping(self.alloc, content, line));
        }
    }

    /// Whether the line so far behind the next one is this one of a file, or stands for any.
    fn is_kept_next(&self, content: Content, behind: usize, line: Option<&str>) -> bool {
        if self.is_wrong.get() {
            return false;
        }
        let place = self.place.get().saturating_add(behind);
        match self.scene.lines.get(place) {
            Some(Line::Keeps(wanted, text)) => {
                *wanted == content && text.as_ref().map(|text| text.as_str()) == line
            }
            _ => false,
        }
    }

    pub fn flush(&self) {
        self.is_flushed.set(true);
    }

    /// The command ends so, with all flushed that it wrote.
    pub fn end(&self, text: &str) {
        let is_wanted = match self.next() {
            Some(Line::Ends(wanted)) => self.is_flushed.get() && wanted.as_str() == text,
            _ => false,
        };
        if is_wanted {
            self.pass();
        }
        if !is_wanted || self.place.get() < self.scene.lines.len() {
            self.miss(format!(in self.alloc; "it ends: [{text}]"));
        }
    }

    /// Whether this is the next octet that has to be written.
    fn takes(&self, is_error: bool, octet: u8) -> bool {
        let wanted = match self.next() {
            Some(Line::Prints(wanted)) if !is_error => wanted,
            Some(Line::Says(wanted)) if is_error => wanted,
            _ => return false,
        };
        let place = self.written.get();
        if wanted.get(place) != Some(&octet) {
            return false;
        }
        self.written.set(place.saturating_add(1));
        if self.written.get() >= wanted.len() {
            self.pass();
        }
        true
    }

    /// Comes to the next moment, if that is next. Returns whether it is.
    pub fn wait(&self) -> bool {
        let Some(Line::At(ms)) = self.next() else {
            return false;
        };
        self.now.set(*ms);
        self.pass();
        true
    }

    /// The line that comes next; none once it has gone wrong.
    fn next(&self) -> Option<&'a Line> {
        if self.is_wrong.get() {
            return None;
        }
        self.scene.lines.get(self.place.get())
    }

    /// Passes the line that comes next, and those behind it that make no call.
    fn pass(&self) {
        if let Some(line) = self.next() {
            let checks = self.checks.get().saturating_add(u64::from(line.is_check()));
            self.checks.set(checks);
        }
        self.step();
        self.settle();
    }

    /// What stands next is true from now on.
    fn settle(&self) {
        let Some(lines) = self.scene.lines.get(self.place.get()..) else {
            return;
        };
        for line in lines {
            match line {
                Line::Set(ahead) => self.ahead.set(*ahead),
                Line::Limit(rows) => self.limit.set(Some(*rows)),
                Line::Output(takes) => self.output.set(*takes),
                _ => return,
            }
            self.step();
        }
    }

    fn step(&self) {
        self.place.set(self.place.get().saturating_add(1));
        self.written.set(0);
    }

    /// It goes wrong. What is done in place of the next line is kept, if nothing went wrong before.
    fn miss(&self, done: Result<String, AllocError>) {
        if !self.is_wrong.get() {
            self.missed.set(done.ok());
        }
        self.is_wrong.set(true);
    }
}

/// What came of a scene.
#[derive(Drop)]
pub struct Verdict {
    pub checks: u64,
    /// The line at which it ended.
    pub place: usize,
    pub is_wrong: bool,
    /// What was done in place of that line, where it is known.
    pub missed: Option<String>,
}

fn is_same(wanted: &Datagram, to: Route, octets: &[u8]) -> bool {
    wanted.route == to && wanted.octets.as_slice() == octets
}

fn told_sending(alloc: Global, to: Route, octets: &[u8]) -> Result<String, AllocError> {
    let mut text = String::from_str(alloc, "sends ")?;
    write_address(to.peer, &mut text)?;
    if let Some(local) = to.local {
        text.push_str(" at ")?;
        write_address(local, &mut text)?;
    }
    text.push_str(" ")?;
    for octet in octets {
        write!(text, "{octet:02x}")?;
    }
    Ok(text)
}

fn told_keeping(alloc: Global, content: Content, line: &str) -> Result<String, AllocError> {
    let mut text = String::from_str(alloc, content_word(content))?;
    text.push_str(" ")?;
    text.push_str(line)?;
    Ok(text)
}

fn told_writing(alloc: Global, is_error: bool, octets: &[u8]) -> Result<String, AllocError> {
    let mut text = String::from_str(alloc, if is_error { "! " } else { "> " })?;
    let written = String::from_utf8_lossy(alloc, octets)?;
    text.push_str(written.as_str())?;
    Ok(text)
}
