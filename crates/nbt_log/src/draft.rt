//! A list of a server's rows that is made by parts.

ghost use Rattle.std.specs.Prelude.{◌≡◌, ◌++◌, ◌↔◌, ℕ, List, [], length, IfOk, IsTrue, OnOk};
ghost use Rattle.std.specs.String.{string_bytes};
ghost use Rattle.nbt_text.specs.Texts.{PrintsEach};
ghost use Rattle.nbt_lease.specs.Lease.{Rows};
ghost use Rattle.nbt_log.specs.Drafts.{IsDraftText, IsWhole, listing_of, new_draft, noted_at_first, one_part_listed, one_part_more, one_part_noted};
ghost use Rattle.nbt_log.specs.Inner.Drafting.{Knows, Prints, head_in, listing_in};

use crate::casing::{Cases, FixedCapitals};
use crate::dates::Dates;
use crate::hosts::{HOSTS_HEAD, write_hosts};
use crate::leases::{LIST_HEAD, write_leases};
use nbt_lease::{Lease, Moment};
use nbt_name::Name;
use std::alloc::{AllocError, Global};
use std::marker::Model;

/// How many rows a part has at most (our profile).
pub const PART_MOST: usize = 256;

/// What of a server's rows is listed.
#[derive(Clone, Copy)]
pub enum Listing<'a> {
    /// The live leases: the line [`LIST_HEAD`], and then a line for each of the rows whose lease lives, in their order, with its end by
    /// these dates, as `FILER#20 unique 192.0.2.7 2026-11-24T09:17:03Z`. A lease no longer lives at its expiry.
    Leases(Dates),
    /// The hosts beside these names that are fixed: the line [`HOSTS_HEAD`], and then, in the order of the rows, a line as in /etc/hosts for
    /// each live lease of a unique name of suffix 20, a file server's, without a scope, as `192.0.2.7 FILER`. Left out is a name that
    /// is no host name: 1 to 15 letters, digits and hyphens, the first and the last of them no hyphen (RFC 952, RFC 1123 section
    /// 2.1), filled up with spaces. So is one that a resolver, to which small letters and capitals are one, would take for another: a
    /// name that reads like one that is fixed, and a name with a small letter that reads like a live lease of other octets.
    Hosts(&'a FixedCapitals),
}

/// How the rows of a draft are printed.
#[derive(Drop)]
pub(crate) enum Printer {
    /// Live leases, by these dates.
    Leases(Dates),
    /// Hosts, beside these names that are fixed and these that live.
    Hosts(FixedCapitals, Cases),
}

impl Printer {
    /// How a listing is printed. No row is noted yet.
    fn of(alloc: Global, listing: &Listing<'_>) -> Result<Printer, AllocError>
        ensures listing { IfOk result (λ printer. listing_in printer ≡ listing_of listing.now) }
        ensures knows { IfOk result (λ printer. (now : ℕ) → Knows printer now []) }
    {
        match listing {
            Listing::Leases(dates) => Ok(Printer::Leases(*dates)),
            Listing::Hosts(fixed) => Ok(Printer::Hosts(fixed.copy()?, Cases::new(alloc))),
        }
    }

    /// Of how many of so many rows nothing needs to be noted.
    fn noted_at_first(&self, count: usize) -> usize
        ensures { (rows : Rows) → count ≡ length rows → result ≡ noted_at_first (listing_in self.now) rows }
    {
        match self {
            Printer::Leases(_) => count,
            Printer::Hosts(_, _) => 0,
        }
    }

    /// Notes what lines need to know of these rows, behind others.
    fn note(&mut self, now: Moment, rows: &[(Name, Lease)]) -> Result<(), AllocError>
        ensures listing { OnOk result (listing_in self.new ≡ listing_in self.old) }
        ensures head { OnOk result (head_in self.new ≡ head_in self.old) }
        ensures knows { OnOk result ((before : Rows) → Knows self.old now before → Knows self.new now (before ++ rows.now)) }
    {
        match self {
            Printer::Leases(_) => Ok(()),
            Printer::Hosts(_, cases) => cases.note_rows(now, rows),
        }
    }

    /// The first line, with its end.
    fn head(&self) -> &'static str
        ensures { result.now ≡ head_in self.now }
    {
        match self {
            Printer::Leases(_) => LIST_HEAD,
            Printer::Hosts(_, _) => HOSTS_HEAD,
        }
    }

    /// Appends the lines of these rows, in their order.
    fn write(&self, now: Moment, rows: &[(Name, Lease)], out: &mut String) -> Result<(), AllocError>
        ensures { OnOk result ((text : List ℕ) × PrintsEach (Prints self.now now) rows.now text × (string_bytes out.new ≡ string_bytes out.old ++ text)) }
    {
        match self {
            Printer::Leases(dates) => write_leases(dates, now, rows, out),
            Printer::Hosts(fixed, cases) => write_hosts(now, rows, fixed, cases, out),
        }
    }
}

/// A list that is made by parts: of the rows that a server had at one moment, as it was at that moment, whatever became of them
/// since. Hosts are listed beside the names that were fixed then, and only once the names of all rows are noted, since a name is left
/// out where another one reads like it. A contract sees what is listed, the moment, the rows, of how many of them the names are
/// noted, and how many of them are in it so far.
#[derive(Drop)]
pub struct Draft {
    at: Moment,
    rows: Vec<(Name, Lease)>,
    printer: Printer,
    noted: usize,
    done: usize,
    text: String,
}

impl Model for Draft {
    ghost use Rattle.std.specs.String.{string_bytes};
    ghost use Rattle.nbt_log.specs.Drafts.{DraftValue};
    ghost use Rattle.nbt_log.specs.Inner.Drafting.{IsBegun, listing_in};

    ghost Value = { DraftValue };

    ghost view = { λ d. record { listing = listing_in d.printer; at = d.at; rows = d.rows.items; noted = d.noted; done = d.done } };

    ghost invariant = { λ d. IsBegun d.printer d.at d.rows.items d.noted d.done (string_bytes d.text) };
}

impl Draft {
    /// Begins a list of these rows at `now`, of which none is in it yet.
    pub fn begin(
        alloc: Global,
        listing: &Listing<'_>,
        now: Moment,
        rows: Vec<(Name, Lease)>,
    ) -> Result<Draft, AllocError>
        ensures { IfOk result (λ draft. draft ≡ new_draft (listing_of listing.now) now rows.items) }
    {
        let printer = Printer::of(alloc, listing)?;
        let noted = printer.noted_at_first(rows.len());
        let text = String::from_str(alloc, printer.head())?;
        Ok(Draft {
            at: now,
            rows,
            printer,
            noted,
            done: 0,
            text,
        })
    }

    /// The same with one part more. Of a list of hosts the names of the next 256 rows, or of all that are left, are noted; once all are
    /// noted, the lines of so many rows come in. Of any other list they come in at once. If out of memory the draft is lost.
    pub fn go_on(self) -> Result<Draft, AllocError>
        ensures { IfOk result (λ draft. draft ≡ one_part_more self) }
    {
        let draft = self.with_names()?;
        if draft.noted == draft.rows.len() {
            draft.with_lines()
        } else {
            Ok(draft)
        }
    }

    /// The same with the names of one part more noted.
    fn with_names(self) -> Result<Draft, AllocError>
        ensures { IfOk result (λ draft. draft ≡ one_part_noted self) }
    {
        let Draft {
            at,
            rows,
            mut printer,
            noted,
            done,
            text,
        } = self;
        let end = (noted + PART_MOST).min(rows.len());
        if noted < end {
            printer.note(at, &rows[noted..end])?;
        }
        Ok(Draft {
            at,
            rows,
            printer,
            noted: end,
            done,
            text,
        })
    }

    /// The same with the lines of one part more, once all names are noted.
    fn with_lines(self) -> Result<Draft, AllocError>
        requires { self.noted ≡ length self.rows }
        ensures { IfOk result (λ draft. draft ≡ one_part_listed self) }
    {
        let Draft {
            at,
            rows,
            printer,
            noted,
            done,
            mut text,
        } = self;
        let end = (done + PART_MOST).min(rows.len());
        printer.write(at, &rows[done..end], &mut text)?;
        Ok(Draft {
            at,
            rows,
            printer,
            noted,
            done: end,
            text,
        })
    }

    /// Whether all rows are in it.
    pub fn is_whole(&self) -> bool
        ensures { IsTrue result ↔ IsWhole self.now }
    {
        self.done == self.rows.len()
    }

    /// Its text, once all rows are in it.
    pub fn into_text(self) -> String
        requires { IsWhole self }
        ensures { IsDraftText self (string_bytes result) }
    {
        self.text
    }
}
