//! A text about a name server, kept in a place.

ghost use Rattle.std.specs.Prelude.{◌≡◌, ◌↔◌, Some, IsTrue, IfOk, MatchResult};
ghost use Rattle.std.specs.String.{string_bytes};
ghost use Rattle.nbt_nbns.specs.Keeping.{IsDue, Keeps, new_keeper, text_of};

use crate::complaint::Complaint;
use crate::place::Place;
use crate::report::Report;
use nbt_lease::Moment;
use nbt_log::Dates;
use nbt_server::Server;
use std::alloc::{AllocError, Global};
use std::io;
use std::io::Write;
use std::marker::Model;

/// How long it is from one look to the next, in milliseconds (our profile).
const SECOND: u64 = 1_000;

/// What became of a look.
#[derive(Clone, Copy, Debug, PartialEq, Eq)]
pub enum Kept {
    /// The last one was less than a second ago.
    Early,
    /// The text is the one that the place has.
    Same,
    /// The place has the text now.
    Written,
    /// A part of a list was made, and it isn't whole yet.
    Unfinished,
    /// Memory was refused, or the place refused it.
    Failed,
}

/// Keeps a text in a place. A contract sees when it looked last, which text the place has, if it was given one, and the place.
#[derive(Drop)]
pub struct Keeper<L> {
    alloc: Global,
    looked: Option<Moment>,
    text: Option<String>,
    complaint: Complaint,
    place: L,
}

impl<L> Model for Keeper<L> {
    ghost use Rattle.nbt_nbns.specs.Keeping.{KeeperValue, text_of};

    ghost Value = { KeeperValue L };

    ghost view = { λ k. record { looked = k.looked; text = text_of k.text; place = k.place } };
}

impl<L> Keeper<L> {
    /// It didn't look yet, and gave this place no text.
    pub fn new(alloc: Global, place: L) -> Keeper<L>
        ensures { result ≡ new_keeper place }
    {
        Keeper {
            alloc,
            looked: None,
            text: None,
            complaint: Complaint::new(),
            place,
        }
    }

    /// The place.
    pub fn place(&self) -> &L
        ensures { result.now ≡ self.now.place }
    {
        &self.place
    }
}

impl<L: Place> Keeper<L> {
    /// Looks at what there is to report at `now`, at most once in a second, and gives the place its text where it has another one.
    /// Where that can't be done, that is said in `errors`, by the name of the place, the first time of a row, and the next look
    /// tries again; that it can be done again is said too.
    pub fn keep<T: Report, E: Write>(
        &mut self,
        report: &T,
        server: &Server,
        dates: &Dates,
        now: Moment,
        errors: &mut E,
    ) -> Kept
        ensures { Keeps L.puts L.refuses (T.says report.now server.now dates.now now) now self.old result self.new }
    {
        if !is_due(self.looked, now) {
            return Kept::Early;
        }
        match self.look(report, server, dates, now) {
            Ok(kept) => {
                self.complaint.end(self.place.name(), errors);
                kept
            }
            Err(error) => {
                self.complaint.tell(self.place.name(), error, errors);
                Kept::Failed
            }
        }
    }

    /// Looks at what there is to report at `now`, and gives the place its text where it has another one.
    fn look<T: Report>(
        &mut self,
        report: &T,
        server: &Server,
        dates: &Dates,
        now: Moment,
    ) -> io::Result<Kept>
        requires due { IsDue self.old.looked now }
        ensures { MatchResult result (λ kept. Keeps L.puts L.refuses (T.says report.now server.now dates.now now) now self.old kept self.new)
            (λ error. Keeps L.puts L.refuses (T.says report.now server.now dates.now now) now self.old Kept.Failed self.new) }
    {
        self.looked = Some(now);
        let text = reported(self.alloc, report, server, dates, now)?;
        if has(&self.text, text.as_str()) {
            return Ok(Kept::Same);
        }
        self.place.replace(text.as_str())?;
        self.text = Some(text);
        Ok(Kept::Written)
    }
}

/// Whether a second has passed since the last look, if there was one.
fn is_due(looked: Option<Moment>, now: Moment) -> bool
    ensures { IsTrue result ↔ IsDue looked now }
{
    match looked {
        Some(looked) => looked.get() + SECOND <= now.get(),
        None => true,
    }
}

/// Whether the place has this text.
pub(crate) fn has(text: &Option<String>, other: &str) -> bool
    ensures { IsTrue result ↔ (text_of text.now ≡ Some other.now) }
{
    match text {
        Some(text) => text.as_str() == other,
        None => false,
    }
}

/// The text of what there is to report at `now`.
fn reported<T: Report>(
    alloc: Global,
    report: &T,
    server: &Server,
    dates: &Dates,
    now: Moment,
) -> Result<String, AllocError>
    ensures { IfOk result (λ text. T.says report.now server.now dates.now now (string_bytes text)) }
{
    let mut text = String::new(alloc);
    report.write(alloc, server, dates, now, &mut text)?;
    Ok(text)
}
