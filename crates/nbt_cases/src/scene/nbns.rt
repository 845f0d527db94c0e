//! A name server that stays up, over the port, the clocks, the outputs and the files of a scene.

use crate::scene::kept::kept_leases;
use crate::scene::paper::ScenePaper;
use crate::scene::place::ScenePlace;
use crate::scene::port::ScenePort;
use crate::scene::renewed::SceneFiles;
use crate::scene::script::Scene;
use crate::scene::stage::Stage;
use crate::scene::watch::{Day, Sleeper, Steady};
use nbt_args::NbnsTexts;
use nbt_front::{Desk, Front, FrontPort, read_fixed, read_network};
use nbt_lease::{Config, Lease, Moment};
use nbt_log::{Dates, FixedCapitals, Origin, Tally};
use nbt_name::Name;
use nbt_nbns::{Content, Journal, Keeper, Lister, Logger, State, keep_renewed};
use nbt_port::{Fault, Port, until_of};
use nbt_serve::SambaPort;
use nbt_server::Server;
use nbt_store::{DiskStore, MemoryDisk};
use nbt_text::read_duration;
use std::alloc::{AllocError, Global};

/// The milliseconds of a second.
const SECOND: u64 = 1_000;

/// How many live leases a client may have, without an argument.
const CLIENT_ROWS: u32 = 64;

/// How many lines of a kind a log has in a second at most, without an argument.
const LOG_RATE: u8 = 10;

/// What sees the turns of a server of a scene.
type SceneJournal<'s, 'a> = Journal<Day<'s, 'a>, ScenePlace<'s, 'a>>;

/// Has a name server stay up. It goes on with the leases that are kept, if there are some, from the moment 0 on; else it starts.
pub fn serve(
    stage: &Stage<'_>,
    alloc: Global,
    scene: &Scene,
    texts: &NbnsTexts<'_>,
    writer: &mut ScenePaper<'_, '_>,
    errors: &mut ScenePaper<'_, '_>,
) -> Result<(), Fault> {
    let config = config_of(scene, texts).ok_or(Fault::NoPort)?;
    let clients = client_rows_of(texts).ok_or(Fault::NoPort)?;
    let front = front_of(alloc, scene, texts, config)?;
    let rows = kept_leases(alloc, scene)?.ok_or(Fault::NoPort)?;
    let mut server = server_of(alloc, config, stage.now(), rows.as_slice())?;
    server.limit_clients(clients);
    let mut files = SceneFiles::new(alloc, scene, config);
    serve_with(
        stage,
        alloc,
        texts,
        &front,
        &mut files,
        rows,
        &mut server,
        writer,
        errors,
    )
}

/// Has a server stay up behind this front, which goes on with these leases, if there are some.
fn serve_with(
    stage: &Stage<'_>,
    alloc: Global,
    texts: &NbnsTexts<'_>,
    front: &Front,
    files: &mut SceneFiles<'_>,
    rows: Vec<(Name, Lease)>,
    server: &mut Server,
    writer: &mut ScenePaper<'_, '_>,
    errors: &mut ScenePaper<'_, '_>,
) -> Result<(), Fault> {
    let longest = server.table().config().longest();
    let fixed = front.fixed().capitals(alloc)?;
    let mut journal = journal_of(stage, alloc, texts, longest, fixed, rows.is_empty());
    let mut rows = rows;
    front.fixed().retain_in_the_way(&mut rows);
    let mut desk = Desk::new(alloc, front, Steady(stage));
    desk.keep(rows);
    serve_behind(
        stage,
        alloc,
        desk,
        files,
        texts,
        server,
        &mut journal,
        writer,
        errors,
    )
}

/// The limits of a server.
fn config_of(scene: &Scene, texts: &NbnsTexts<'_>) -> Option<Config> {
    let life = read_duration(texts.life.as_bytes())?;
    let longest = read_duration(texts.longest.as_bytes())? / SECOND;
    Config::large(life, u32::try_from(longest).ok()?, rows_of(scene, texts)?).ok()
}

/// How many rows it has: as many as its option says, or else as the scene does.
fn rows_of(scene: &Scene, texts: &NbnsTexts<'_>) -> Option<usize> {
    match texts.rows {
        Some(text) => text.parse().ok(),
        None => Some(scene.rows),
    }
}

fn client_rows_of(texts: &NbnsTexts<'_>) -> Option<u32> {
    match texts.rows_per_client {
        Some(text) => text.parse().ok(),
        None => Some(CLIENT_ROWS),
    }
}

/// What stands before a server. Refused with `NoPort` where a text is no network, and with `Store` where a line of the file of fixed names
/// can't be taken.
fn front_of(
    alloc: Global,
    scene: &Scene,
    texts: &NbnsTexts<'_>,
    config: Config,
) -> Result<Front, Fault> {
    let mut allowed = Vec::new(alloc);
    for text in texts.allow.iter() {
        let network = read_network(text.as_bytes()).ok_or(Fault::NoPort)?;
        allowed.push(network)?;
    }
    match read_fixed(alloc, scene.fixed.as_slice()) {
        Ok(fixed) => Ok(Front::new(allowed, fixed, config)),
        Err(_) => Err(Fault::Store),
    }
}

/// A server that starts, or goes on with these leases. Refused with `Store` where no server can have them.
fn server_of(
    alloc: Global,
    config: Config,
    now: Moment,
    rows: &[(Name, Lease)],
) -> Result<Server, Fault> {
    if rows.is_empty() {
        return Ok(Server::start(alloc, config, now));
    }
    match Server::resume(alloc, config, Moment::zero(), now, now, rows) {
        Ok(server) => Ok(server),
        Err(_) => Err(Fault::Store),
    }
}

/// What sees the turns of a server that starts now, or began at the moment 0.
fn journal_of<'s, 'a>(
    stage: &'s Stage<'a>,
    alloc: Global,
    texts: &NbnsTexts<'_>,
    longest: u32,
    fixed: FixedCapitals,
    starts: bool,
) -> SceneJournal<'s, 'a> {
    let dates = Dates {
        moment: stage.now(),
        time: stage.day(),
    };
    let began = if starts { stage.now().get() } else { 0 };
    Journal {
        dates,
        day: Day(stage),
        day_read: dates.moment,
        log: log_of(alloc, texts),
        leases: lister_of(stage, alloc, texts.leases, Content::Leases),
        hosts: lister_of(stage, alloc, texts.hosts, Content::Hosts),
        fixed,
        stats: keeper_of(stage, alloc, texts.stats),
        tally: Tally::new(),
        origin: Origin {
            since: dates.second_at(dates.moment.get()),
            speaks: began.saturating_add(SECOND * u64::from(longest)),
        },
    }
}

fn log_of(alloc: Global, texts: &NbnsTexts<'_>) -> Option<Logger> {
    if texts.log {
        Some(Logger::new(alloc, texts.broadcasts, log_rate_of(texts)))
    } else {
        None
    }
}

/// How many lines of a kind a log has in a second at most.
fn log_rate_of(texts: &NbnsTexts<'_>) -> u8 {
    match texts.log_rate {
        Some(text) => text.parse().ok().unwrap_or(LOG_RATE),
        None => LOG_RATE,
    }
}

/// The list that is kept in a file, if there is to be one.
fn lister_of<'s, 'a>(
    stage: &'s Stage<'a>,
    alloc: Global,
    path: Option<&str>,
    content: Content,
) -> Option<Lister<ScenePlace<'s, 'a>>> {
    match path {
        Some(_) => Some(Lister::new(alloc, ScenePlace::new(stage, content))),
        None => None,
    }
}

/// The statistics that are kept in a file, if there are to be some.
fn keeper_of<'s, 'a>(
    stage: &'s Stage<'a>,
    alloc: Global,
    path: Option<&str>,
) -> Option<Keeper<ScenePlace<'s, 'a>>> {
    match path {
        Some(_) => Some(Keeper::new(alloc, ScenePlace::new(stage, Content::Stats))),
        None => None,
    }
}

/// Has a server stay up behind a front, over the port as it is where that is strict, else over one that takes Samba's registrations.
fn serve_behind(
    stage: &Stage<'_>,
    alloc: Global,
    desk: Desk<'_, Steady<'_, '_>>,
    files: &mut SceneFiles<'_>,
    texts: &NbnsTexts<'_>,
    server: &mut Server,
    journal: &mut SceneJournal<'_, '_>,
    writer: &mut ScenePaper<'_, '_>,
    errors: &mut ScenePaper<'_, '_>,
) -> Result<(), Fault> {
    let until = until_of(
        stage.now(),
        texts.time.and_then(|text| read_duration(text.as_bytes())),
    );
    let port = ScenePort::new(stage);
    if texts.strict {
        let mut port = FrontPort::new(port, desk);
        watch(
            &mut port, stage, alloc, server, journal, files, until, writer, errors,
        )
    } else {
        let mut port = FrontPort::new(SambaPort::new(port), desk);
        watch(
            &mut port, stage, alloc, server, journal, files, until, writer, errors,
        )
    }
}

/// Watches a server without a state until it ends, with the files that take the place of that of fixed names.
fn watch<P: Port>(
    port: &mut FrontPort<'_, P, Steady<'_, '_>>,
    stage: &Stage<'_>,
    alloc: Global,
    server: &mut Server,
    journal: &mut SceneJournal<'_, '_>,
    files: &mut SceneFiles<'_>,
    until: Option<Moment>,
    writer: &mut ScenePaper<'_, '_>,
    errors: &mut ScenePaper<'_, '_>,
) -> Result<(), Fault> {
    let mut no_state: Option<State<DiskStore<MemoryDisk>>> = None;
    keep_renewed(
        port,
        &mut Steady(stage),
        server,
        &mut no_state,
        &mut Day(stage),
        journal,
        files,
        until,
        alloc,
        &Sleeper(stage),
        writer,
        errors,
    )
}
