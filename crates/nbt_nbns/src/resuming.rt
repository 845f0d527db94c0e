//! How a name server begins that keeps its leases, over a machine: its clocks, its folder, and its first line.

ghost use Rattle.std.specs.Prelude.{◌≡◌, ℕ, List, OnOk, IfOk, IfErr};
ghost use Rattle.std.specs.Io.KnownBytes.{Appends};
ghost use Rattle.nbt_name.specs.declared.addr.Addr.{Addr};
ghost use Rattle.nbt_front.specs.Standing.{in_the_way};
ghost use Rattle.nbt_nbns.specs.Running.{new_journal};
ghost use Rattle.nbt_nbns.specs.Begin.{IsBegin, manner_of};
ghost use Rattle.nbt_nbns.specs.Servers.{StartsKept, dates_of};
ghost use Rattle.nbt_nbns.specs.Inner.Starting.{Starts, StartsNot};
ghost use Rattle.nbt_nbns.specs.Inner.Resuming.{kept_of};

use crate::arguments::{NbnsArguments, StateFolder};
use crate::first_line::manner_of;
use crate::folder::FolderStore;
use crate::in_the_way::tell_standing;
use crate::opening::{Clocks, Locked, open_store};
use crate::starting::{MachineJournal, Started, StartedHere, journal_of, print_begin};
use crate::state::State;
use crate::teller::Teller;
use nbt_front::Front;
use nbt_lease::{Lease, Moment};
use nbt_log::Dates;
use nbt_name::Name;
use nbt_port::{Ahead, Fault, MachineClock, SteadyClock, UdpPorts};
use nbt_serve::{Share, Waiting};
use nbt_server::Server;
use nbt_store::Begun;
use std::alloc::Global;
use std::fs::File;
use std::io::Write;
use std::net::Net;
use std::random::RandomSource;
use std::rt::Files;
use std::time;

/// A server over a machine that goes on over boots.
type Resumed<'a, M> = StartedHere<'a, M, Ahead<SteadyClock<'a, M>>>;

/// Such a server that began, and of its leases those that stand in the way of fixed names.
#[derive(Drop)]
pub(crate) struct StartedServer<'a, M: time::Clock + Files> {
    /// The server, with all that goes on.
    pub kept: Resumed<'a, M>,
    /// The leases.
    pub standing: Vec<(Name, Lease)>,
}

/// Over a folder that is locked, reads the clocks and the file, and prints how a server begins with what is found. Before, a line in `errors` says of each lease that
/// stands in the way of a fixed name until when it does. Refused with `Output`, and else with another fault than `Device`, before anything is printed; a line
/// in `errors` says why.
pub(crate) fn start<
    'a,
    M: Net + time::Clock + RandomSource + Files<File = File>,
    W: Write,
    E: Write,
>(
    machine: &'a M,
    alloc: Global,
    arguments: &NbnsArguments,
    state: &'a StateFolder,
    locked: Locked<'a, M>,
    port: &UdpPorts<'_, M>,
    writer: &mut W,
    errors: &mut E,
) -> Result<StartedServer<'a, M>, Fault>
    ensures ok { IfOk result (λ started. Starts (StartsKept arguments.now state.now) arguments.now started.standing.items (W.contents writer.old) (W.contents writer.new) started.kept) }
    ensures err { IfErr result (StartsNot (W.contents writer.old) (W.contents writer.new)) }
{
    let clocks = locked.clocks(machine, arguments.bind.first(), errors)?;
    let told = clocks.told;
    let time = told.time;
    let begun = locked.begin(machine, alloc, state, arguments.config, told, errors)?;
    let opened = open_store(locked, alloc, &begun, errors)?;
    let count = opened.rows.len();
    let standing = standing_of(alloc, &arguments.front, opened.rows);
    tell_standing(alloc, standing.as_slice(), begun.reads, time, errors);
    let waiting = Waiting::new(alloc, begun.header.last)?;
    let teller = Teller::new(alloc)?;
    let journal = tell_begin(
        machine, alloc, arguments, port, &begun, time, count, writer, errors,
    )?;
    let share = Share::new(alloc, arguments.changes_per_client);
    let rows_per_client = arguments.rows_per_client;
    let kept = kept_of(
        begun,
        opened.store,
        clocks,
        share,
        waiting,
        teller,
        journal,
        rows_per_client,
    );
    Ok(StartedServer { kept, standing })
}

/// Of these leases those that stand in the way of this front's names. Where there are none, what the others took is given back.
pub(crate) fn standing_of(
    alloc: Global,
    front: &Front,
    rows: Vec<(Name, Lease)>,
) -> Vec<(Name, Lease)>
    ensures { result.items ≡ in_the_way front.now.fixed rows.items }
{
    let mut rows = rows;
    front.fixed().retain_in_the_way(&mut rows);
    if rows.is_empty() {
        return Vec::new(alloc);
    }
    rows
}

/// What goes on of a server that begins so. It limits its clients to so many rows.
fn kept_of<'a, M: Net + time::Clock + Files>(
    begun: Begun,
    store: FolderStore<'a, M>,
    clocks: Clocks<'a, M>,
    share: Share,
    waiting: Waiting,
    teller: Teller,
    journal: MachineJournal<'a, M>,
    rows_per_client: u32,
) -> Resumed<'a, M>
    ensures { result ≡ kept_of begun store.entry clocks.entry.steady clocks.entry.day share waiting teller journal.entry rows_per_client }
{
    let Clocks { steady, day, .. } = clocks;
    let Begun { server, header, .. } = begun;
    let mut server = server;
    server.limit_clients(rows_per_client);
    Started {
        clock: Ahead {
            clock: steady,
            by: header.ahead,
        },
        server,
        state: Some(State {
            store,
            header,
            share,
            waiting,
            teller,
        }),
        day,
        journal,
    }
}

/// What sees the turns of a server that begins so, at this time of the day, with so many leases: once it is there, the first line is printed,
/// and flushed. Refused as [`start`].
fn tell_begin<'a, M: Net + time::Clock + Files, W: Write, E: Write>(
    machine: &'a M,
    alloc: Global,
    arguments: &NbnsArguments,
    port: &UdpPorts<'_, M>,
    begun: &Begun,
    time: Moment,
    count: usize,
    writer: &mut W,
    errors: &mut E,
) -> Result<MachineJournal<'a, M>, Fault>
    ensures journal { IfOk result (λ journal. journal ≡ new_journal arguments.now (dates_of begun.now time) 0 begun.now.start) }
    ensures line { OnOk result ((at : List Addr) × (line : List ℕ) × IsBegin at (manner_of arguments.now.config.longest begun.now.start begun.now.server.last (dates_of begun.now time) count begun.now.reason) line × Appends (W.contents writer.old) (W.contents writer.new) line) }
    ensures err { IfErr result (StartsNot (W.contents writer.old) (W.contents writer.new)) }
{
    let dates = Dates {
        moment: begun.reads,
        time,
    };
    let day = MachineClock::new(machine);
    let journal = journal_of(machine, alloc, arguments, dates, day, begun.start, errors)?;
    let longest = arguments.config.longest();
    let speaks = begun.server.last();
    let manner = manner_of(longest, begun.start, speaks, &dates, count, begun.reason);
    print_begin(alloc, port, manner, writer, errors)?;
    Ok(journal)
}
