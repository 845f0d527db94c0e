//! The log of a name server, and the files about it, turn by turn.

ghost use Rattle.std.specs.Prelude.{◌≡◌};
ghost use Rattle.nbt_log.specs.Drafts.{listing_of};
ghost use Rattle.nbt_nbns.specs.Journaling.{FollowsDay, ListsIn, LogsIn, KeepsIn, dropped_of};
ghost use Rattle.nbt_nbns.specs.Reports.{SaysStats};

use crate::keeper::Keeper;
use crate::lister::Lister;
use crate::logger::Logger;
use crate::place::Place;
use crate::report::StatsReport;
use crate::staying::{Shown, Watcher};
use nbt_lease::Moment;
use nbt_log::{Dates, FixedCapitals, Listing, Origin, Tally};
use nbt_port::Clock;
use nbt_server::Server;
use std::io::Write;

/// Logs what each turn of a server was, counts it, and keeps the list of its leases, its hosts and its statistics, each in a place and
/// where it is wanted. It dates times by the time of day, and anew where that clock was set.
#[derive(Drop)]
pub struct Journal<D, L> {
    /// What dates the times of the monotonic clock.
    pub dates: Dates,
    /// The clock that tells the time of day.
    pub day: D,
    /// The moment at which it was read last.
    pub day_read: Moment,
    /// The log, if there is one.
    pub log: Option<Logger>,
    /// The list of live leases, if it is kept.
    pub leases: Option<Lister<L>>,
    /// The hosts, if they are kept.
    pub hosts: Option<Lister<L>>,
    /// The names that are fixed: no host is told that reads like one of them.
    pub fixed: FixedCapitals,
    /// The statistics, if they are kept.
    pub stats: Option<Keeper<L>>,
    /// What the server has done.
    pub tally: Tally,
    /// When it began.
    pub origin: Origin,
}

impl<D: Clock, L: Place> Watcher for Journal<D, L> {
    ghost use Rattle.nbt_nbns.specs.Journaling.{Journals};

    ghost sees = { Journals D.tells L.puts L.refuses };

    fn see<W: Write, E: Write>(
        &mut self,
        server: &Server,
        shown: &Shown,
        writer: &mut W,
        errors: &mut E,
    ) {
        follow_day(&mut self.day, &mut self.dates, &mut self.day_read, shown.at);
        let before = dropped_of(&self.log);
        log_in(&mut self.log, self.dates, shown, writer, errors);
        let dropped = dropped_of(&self.log).saturating_sub(before);
        self.tally.count(&shown.entry, dropped);
        let leases = Listing::Leases(self.dates);
        list_in(&mut self.leases, &leases, server, shown.at, errors);
        let hosts = Listing::Hosts(&self.fixed);
        list_in(&mut self.hosts, &hosts, server, shown.at, errors);
        keep_stats(
            &mut self.stats,
            &self.tally,
            self.origin,
            server,
            self.dates,
            shown,
            errors,
        );
    }
}

/// The dates follow the time of day, which is read once for all turns of one moment.
fn follow_day<D: Clock>(day: &mut D, dates: &mut Dates, read: &mut Moment, at: Moment)
    ensures { FollowsDay D.tells at day.old dates.old read.old day.new dates.new read.new }
{
    if *read == at {
        return;
    }
    let time = day.now();
    dates.follow(at, time);
    *read = at;
}

/// How many lines a log dropped of which no note tells yet, if there is a log.
fn dropped_of(log: &Option<Logger>) -> u64
    ensures { result ≡ dropped_of log.now }
{
    match log {
        Some(logger) => logger.dropped(),
        None => 0,
    }
}

/// Logs what is shown, if there is a log.
fn log_in<W: Write, E: Write>(
    log: &mut Option<Logger>,
    dates: Dates,
    shown: &Shown,
    writer: &mut W,
    errors: &mut E,
)
    ensures { LogsIn dates shown.now (W.contents writer.old) log.old log.new (W.contents writer.new) }
{
    if let Some(logger) = log {
        logger.log(&dates, shown, writer, errors);
    }
}

/// Looks at the rows of a server, if a list of them is kept.
fn list_in<L: Place, E: Write>(
    kept: &mut Option<Lister<L>>,
    listing: &Listing<'_>,
    server: &Server,
    now: Moment,
    errors: &mut E,
)
    ensures { ListsIn L.puts L.refuses (listing_of listing.now) server.now.table.rows now kept.old kept.new }
{
    if let Some(lister) = kept {
        lister.keep(listing, server, now, errors);
    }
}

/// Looks at the statistics, if they are kept: only then are they put together.
fn keep_stats<L: Place, E: Write>(
    kept: &mut Option<Keeper<L>>,
    tally: &Tally,
    origin: Origin,
    server: &Server,
    dates: Dates,
    shown: &Shown,
    errors: &mut E,
)
    ensures { KeepsIn L.puts L.refuses (SaysStats (record { tally = tally.now; health = shown.now.health; origin = origin }) server.now dates shown.now.at) shown.now.at kept.old kept.new }
{
    if let Some(keeper) = kept {
        let stats = StatsReport {
            tally: *tally,
            health: shown.health,
            origin,
        };
        keeper.keep(&stats, server, &dates, shown.at, errors);
    }
}
