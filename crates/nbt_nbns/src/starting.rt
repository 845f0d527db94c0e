//! How a name server begins, over a machine: its clocks, its files, and its first line.

ghost use Rattle.std.specs.Prelude.{◌≡◌, ◌⊎◌, ℕ, List, [], OnOk, IfOk, IfErr};
ghost use Rattle.std.specs.Io.KnownBytes.{Appends};
ghost use Rattle.nbt_name.specs.declared.addr.Addr.{Addr};
ghost use Rattle.nbt_nbns.specs.Begin.{IsBegin, manner_at_first};
ghost use Rattle.nbt_nbns.specs.Running.{StartsAnew, log_of, keeper_of, lister_of, place_of, origin_of, new_journal};
ghost use Rattle.nbt_nbns.specs.Inner.Starting.{Starts, StartsNot};

use crate::arguments::NbnsArguments;
use crate::complaint::complain;
use crate::content::Content;
use crate::first_line::{Manner, manner_at_first, write_begin};
use crate::folder::FolderStore;
use crate::journal::Journal;
use crate::keeper::Keeper;
use crate::lister::Lister;
use crate::logger::Logger;
use crate::place::FilePlace;
use crate::roomy::make_room;
use crate::state::State;
use nbt_lease::{Config, Moment};
use nbt_log::{Dates, Origin, Tally};
use nbt_port::{
    Clock, Fault, MachineClock, SteadyClock, UdpPorts, print, readable_clock, steady_clock,
};
use nbt_server::Server;
use std::alloc::Global;
use std::io::Write;
use std::net::Net;
use std::random::RandomSource;
use std::rt::Files;
use std::{io, time};

/// The milliseconds of a second.
const SECOND: u64 = 1_000;

/// What goes on of a server that began, beside its port.
#[derive(Drop)]
pub(crate) struct Started<S, C, D, V> {
    /// The clock by which it serves.
    pub clock: C,
    /// The server.
    pub server: Server,
    /// What it keeps over a restart, if it has a folder for that.
    pub state: Option<State<S>>,
    /// The time of day, for that.
    pub day: D,
    /// What sees each turn.
    pub journal: V,
}

/// Such a server over a machine, by this clock.
pub(crate) type StartedHere<'a, M, C> = Started<
    FolderStore<'a, M>,
    C,
    MachineClock<'a, M>,
    MachineJournal<'a, M>,
>;

/// What sees the turns of a server over a machine.
pub(crate) type MachineJournal<'a, M> = Journal<MachineClock<'a, M>, FilePlace<'a, M>>;

/// Reads both clocks, looks at the files, and prints where a server serves, for how long it is silent, and until when; then the server
/// begins without a state, and limits its clients. Refused with `NoClock`, `Memory` or `Output` before anything is printed, and with `Output` where the
/// line can't be written: a line in `errors` says why of each but `Memory`.
pub(crate) fn start<'a, M: Net + time::Clock + RandomSource + Files, W: Write, E: Write>(
    machine: &'a M,
    alloc: Global,
    arguments: &NbnsArguments,
    port: &UdpPorts<'_, M>,
    writer: &mut W,
    errors: &mut E,
) -> Result<StartedHere<'a, M, SteadyClock<'a, M>>, Fault>
    ensures ok { IfOk result (λ started. Starts (StartsAnew arguments.now) arguments.now [] (W.contents writer.old) (W.contents writer.new) started) }
    ensures err { IfErr result (StartsNot (W.contents writer.old) (W.contents writer.new)) }
{
    let mut clock = steady_clock(machine, arguments.bind.first(), errors)?;
    let mut day = readable_clock(machine, arguments.bind.first(), errors)?;
    let start = clock.now();
    let dates = Dates {
        moment: start,
        time: day.now(),
    };
    let mut server = Server::start(alloc, arguments.config, start);
    make_room(machine, &mut server, errors)?;
    let journal = tell_begin(
        machine, alloc, arguments, port, dates, day, start, writer, errors,
    )?;
    server.limit_clients(arguments.rows_per_client);
    Ok(Started {
        clock,
        server,
        state: None,
        day: MachineClock::new(machine),
        journal,
    })
}

/// The journal of a server that begins so: once it is there, the first line is printed, and flushed. Refused as [`start`] is.
fn tell_begin<'a, M: Net + time::Clock + Files, W: Write, E: Write>(
    machine: &'a M,
    alloc: Global,
    arguments: &NbnsArguments,
    port: &UdpPorts<'_, M>,
    dates: Dates,
    day: MachineClock<'a, M>,
    start: Moment,
    writer: &mut W,
    errors: &mut E,
) -> Result<MachineJournal<'a, M>, Fault>
    ensures journal { IfOk result (λ journal. journal ≡ new_journal arguments.now dates day.entry start) }
    ensures line { OnOk result ((at : List Addr) × (line : List ℕ) × IsBegin at (manner_at_first arguments.now.config.longest dates) line × Appends (W.contents writer.old) (W.contents writer.new) line) }
    ensures err { IfErr result (StartsNot (W.contents writer.old) (W.contents writer.new)) }
{
    let journal = journal_of(machine, alloc, arguments, dates, day, start, errors)?;
    let manner = manner_at_first(arguments.config.longest(), &dates);
    print_begin(alloc, port, manner, writer, errors)?;
    Ok(journal)
}

/// Prints where a server serves, and how it begins, and flushes. Refused: `Memory`, and then nothing is printed; `Output` where the
/// line can't be written, and a line in `errors` says why.
pub(crate) fn print_begin<M: Net + time::Clock + Files, W: Write, E: Write>(
    alloc: Global,
    port: &UdpPorts<'_, M>,
    manner: Manner,
    writer: &mut W,
    errors: &mut E,
) -> Result<(), Fault>
    ensures ok { OnOk result ((at : List Addr) × (line : List ℕ) × IsBegin at manner line × Appends (W.contents writer.old) (W.contents writer.new) line) }
    ensures err { IfErr result (λ fault. (fault ≡ Fault.Output) ⊎ ((fault ≡ Fault.Memory) × (W.contents writer.new ≡ W.contents writer.old))) }
{
    let at = port.addresses()?;
    let mut line = String::new(alloc);
    write_begin(at.as_slice(), manner, &mut line)?;
    match print(line.as_str(), writer) {
        Ok(()) => Ok(()),
        Err(error) => {
            complain("the first line", error, errors);
            Err(Fault::Output)
        }
    }
}

/// The journal of a server that serves from now on, by these dates and this clock of the day, and that first began at `start`, before
/// its silence. Refused: `Memory`; `Output` where a file may not be put in place of what stands at its path, of the list of leases
/// before that of the hosts, and that before that of the statistics, and a line in `errors` says why.
pub fn journal_of<'a, M: Files, D: Drop, E: Write>(
    machine: &'a M,
    alloc: Global,
    arguments: &NbnsArguments,
    dates: Dates,
    day: D,
    start: Moment,
    errors: &mut E,
) -> Result<Journal<D, FilePlace<'a, M>>, Fault>
    ensures ok { IfOk result (λ journal. journal ≡ new_journal arguments.now dates day start) }
    ensures err { IfErr result (λ fault. (fault ≡ Fault.Output) ⊎ (fault ≡ Fault.Memory)) }
{
    let leases = place_of(machine, alloc, Content::Leases, &arguments.leases, errors)?;
    let hosts = place_of(machine, alloc, Content::Hosts, &arguments.hosts, errors)?;
    let stats = place_of(machine, alloc, Content::Stats, &arguments.stats, errors)?;
    Ok(Journal {
        dates,
        day,
        day_read: dates.moment,
        log: log_of(
            alloc,
            arguments.log,
            arguments.broadcasts,
            arguments.log_rate,
        ),
        leases: lister_of(alloc, leases),
        hosts: lister_of(alloc, hosts),
        fixed: arguments.front.fixed().capitals(alloc)?,
        stats: keeper_of(alloc, stats),
        tally: Tally::new(),
        origin: origin_of(&dates, start, arguments.config),
    })
}

/// The log, if there is to be one.
fn log_of(alloc: Global, is_wanted: bool, broadcasts: bool, most: u8) -> Option<Logger>
    ensures { result ≡ log_of is_wanted broadcasts most }
{
    if is_wanted {
        Some(Logger::new(alloc, broadcasts, most))
    } else {
        None
    }
}

/// When a server began that serves from now on, by these dates, and that first began at `start`, before its silence.
fn origin_of(dates: &Dates, start: Moment, config: Config) -> Origin
    ensures { result ≡ origin_of dates.now start config.longest }
{
    Origin {
        since: dates.second_at(dates.moment.get()),
        speaks: start.get() + SECOND * u64::from(config.longest()),
    }
}

/// What lists into this place, if there is one.
fn lister_of<L>(alloc: Global, place: Option<L>) -> Option<Lister<L>>
    ensures { result ≡ lister_of place }
{
    match place {
        Some(place) => Some(Lister::new(alloc, place)),
        None => None,
    }
}

/// What keeps a text in this place, if there is one.
fn keeper_of<L>(alloc: Global, place: Option<L>) -> Option<Keeper<L>>
    ensures { result ≡ keeper_of place }
{
    match place {
        Some(place) => Some(Keeper::new(alloc, place)),
        None => None,
    }
}

/// The file of this path, if there is to be one. Refused: `Memory`; `Output` where it may not be put in place of what stands there, and a
/// line in `errors` says why.
fn place_of<'a, M: Files, E: Write>(
    machine: &'a M,
    alloc: Global,
    content: Content,
    path: &Option<String>,
    errors: &mut E,
) -> Result<Option<FilePlace<'a, M>>, Fault>
    ensures ok { IfOk result (λ place. place ≡ place_of content path.now) }
    ensures err { IfErr result (λ fault. (fault ≡ Fault.Output) ⊎ (fault ≡ Fault.Memory)) }
{
    let Some(path) = path else {
        return Ok(None);
    };
    let place = FilePlace::new(machine, alloc, content, path.as_str())?;
    if let Some((path, error)) = place.taken() {
        complain(path, error, errors);
        return Err(Fault::Output);
    }
    Ok(Some(place))
}
