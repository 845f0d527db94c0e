//! A list of a name server's rows, kept in a place, and made by parts.

ghost use Rattle.std.specs.Prelude.{◌≡◌, ◌↔◌, IsTrue, IfOk, MatchResult};
ghost use Rattle.std.specs.String.{string_bytes};
ghost use Rattle.nbt_log.specs.Drafts.{listing_of};
ghost use Rattle.nbt_nbns.specs.Keeping.{text_of};
ghost use Rattle.nbt_nbns.specs.Listers.{IsLookDue, ListsOn, new_lister, next_draft, pause};

use crate::complaint::Complaint;
use crate::keeper::{Kept, has};
use crate::place::Place;
use crate::report::rows_of;
use nbt_lease::Moment;
use nbt_log::{Draft, Listing};
use nbt_server::Server;
use std::alloc::{AllocError, Global};
use std::io;
use std::io::Write;
use std::marker::Model;

/// How long it is from the end of one list to the beginning of the next, in milliseconds (our profile).
const SECOND: u64 = 1_000;

/// How long it is from one part of a list to the next, in milliseconds (our profile): so that a part, which takes some 0.1 ms, takes a
/// small share of a processor, and comes once in a turn that shows several datagrams.
const PART: u64 = 5;

/// Keeps a list of a server's rows in a place, and makes it by parts. A contract sees when it looked last, the list that is being made, which
/// text the place has, if it was given one, and the place. A list that isn't whole yet is lost when its server ends: the place
/// has the one before.
#[derive(Drop)]
pub struct Lister<L> {
    alloc: Global,
    looked: Option<Moment>,
    draft: Option<Draft>,
    text: Option<String>,
    complaint: Complaint,
    place: L,
}

impl<L> Model for Lister<L> {
    ghost use Rattle.nbt_nbns.specs.Keeping.{text_of};
    ghost use Rattle.nbt_nbns.specs.Listers.{ListerValue};

    ghost Value = { ListerValue L };

    ghost view = { λ l. record { looked = l.looked; draft = l.draft; text = text_of l.text; place = l.place } };
}

impl<L> Lister<L> {
    /// It didn't look yet, and gave this place no text.
    pub fn new(alloc: Global, place: L) -> Lister<L>
        ensures { result ≡ new_lister place }
    {
        Lister {
            alloc,
            looked: None,
            draft: None,
            text: None,
            complaint: Complaint::new(),
            place,
        }
    }
}

impl<L: Place> Lister<L> {
    /// Looks at a server's rows at `now`, and makes one part of their list: of the one that is being made, at most once in 5 ms, or the first of a
    /// new one, a second after the last look at the earliest. A list is of what was to be listed when it was begun, of the rows that the
    /// server had then, and as of that moment: what is listed, the names that are fixed too, counts for the next one where it
    /// changes meanwhile. Once the list is whole, the place is given its text, where it has another one. Where that can't be
    /// done, that is said in `errors`, by the name of the place, the first time of a row, and a second later a new list is
    /// begun; that it can be done again is said too.
    pub fn keep<E: Write>(
        &mut self,
        listing: &Listing<'_>,
        server: &Server,
        now: Moment,
        errors: &mut E,
    ) -> Kept
        ensures { ListsOn L.puts L.refuses (listing_of listing.now) server.now.table.rows now self.old result self.new }
    {
        if !is_due(self.looked, &self.draft, now) {
            return Kept::Early;
        }
        match self.look(listing, server, now) {
            Ok(Kept::Unfinished) => Kept::Unfinished,
            Ok(kept) => {
                self.complaint.end(self.place.name(), errors);
                kept
            }
            Err(error) => {
                self.complaint.tell(self.place.name(), error, errors);
                Kept::Failed
            }
        }
    }

    /// Makes one part of the list, and gives the place the text of a whole one where it has another one.
    fn look(&mut self, listing: &Listing<'_>, server: &Server, now: Moment) -> io::Result<Kept>
        requires due { IsLookDue self.old.looked self.old.draft now }
        ensures { MatchResult result (λ kept. ListsOn L.puts L.refuses (listing_of listing.now) server.now.table.rows now self.old kept self.new)
            (λ error. ListsOn L.puts L.refuses (listing_of listing.now) server.now.table.rows now self.old Kept.Failed self.new) }
    {
        self.looked = Some(now);
        let begun = self.draft.take();
        let draft = drafted(self.alloc, begun, listing, server, now)?;
        if !draft.is_whole() {
            self.draft = Some(draft);
            return Ok(Kept::Unfinished);
        }
        let text = draft.into_text();
        if has(&self.text, text.as_str()) {
            return Ok(Kept::Same);
        }
        self.place.replace(text.as_str())?;
        self.text = Some(text);
        Ok(Kept::Written)
    }
}

/// Whether it is so long since the last look, if there was one, that this list is gone on with, or a new one is begun.
fn is_due(looked: Option<Moment>, draft: &Option<Draft>, now: Moment) -> bool
    ensures { IsTrue result ↔ IsLookDue looked draft.now now }
{
    match looked {
        Some(looked) => looked.get() + pause(draft) <= now.get(),
        None => true,
    }
}

/// How long a look waits after the last one, by the list that is being made.
fn pause(draft: &Option<Draft>) -> u64
    ensures { result ≡ pause draft.now }
{
    match draft {
        Some(_) => PART,
        None => SECOND,
    }
}

/// A list that was begun, with one part more, or a new one with the first.
fn drafted(
    alloc: Global,
    begun: Option<Draft>,
    listing: &Listing<'_>,
    server: &Server,
    now: Moment,
) -> Result<Draft, AllocError>
    ensures { IfOk result (λ draft. draft ≡ next_draft begun (listing_of listing.now) server.now.table.rows now) }
{
    match begun {
        Some(draft) => draft.go_on(),
        None => {
            let rows = rows_of(alloc, server)?;
            Draft::begin(alloc, listing, now, rows)?.go_on()
        }
    }
}
