//! Reads the arguments of `nbns`.

ghost use Rattle.std.specs.Prelude.{◌≡◌, ◌≢◌, ◌↔◌, [], None, Ok, Err, IsTrue, IfErr, OnOk};
ghost use Rattle.nbt_admin.specs.Reading.{Fits, IfGiven};
ghost use Rattle.nbt_admin.specs.Serving.{AreApart, TwiceFails, path_of, IsNamed, IsStores, NeedsFree, NeedsPaths, ReadsFiles, ReadsFolder, ReadsNbns, ReadsPath, ReadsServer};

use crate::binding::bind_of;
use crate::failure::{ArgumentFault, Failure};
use crate::fronting::Networks;
use crate::reading::read_each;
use crate::timing::{
    client_changes_of, client_rows_of, config_of, ending_of, fit, log_rate_of, rows_of, with_rows,
};
use nbt_args::NbnsTexts;
use nbt_front::{FixedNames, Front, Network};
use nbt_nbns::{NbnsArguments, ServerArguments, StateFolder};
use std::alloc::Global;

/// How many live leases a client may have, without an argument (our profile).
const CLIENT_ROWS: u32 = 64;

/// How many changes a client may make in a second, without an argument (our profile).
const CLIENT_CHANGES: u32 = 20;

/// How many lines of a kind a log has in a second at most, without an argument (our profile).
const LOG_RATE: u8 = 10;

/// Reads the arguments of `nbns`. Refused, in this order: the first text that is no network, an empty path of the file of networks, and of that of fixed names, and then
/// as [`nbns_arguments`] has it. No name is fixed yet.
pub fn server_arguments(alloc: Global, texts: &NbnsTexts<'_>) -> Result<ServerArguments, Failure>
    ensures { ReadsServer texts.now result }
{
    let allowed = read_each(alloc, &Networks, Vec::new(alloc), texts.allow.as_slice())?;
    expect_paths(alloc, texts)?;
    nbns_arguments(alloc, texts, allowed)
}

/// Refuses an empty path of the file of networks, and then of that of fixed names.
fn expect_paths(alloc: Global, texts: &NbnsTexts<'_>) -> Result<(), Failure>
    ensures { NeedsPaths texts.now result }
{
    expect_path(alloc, texts.allow_file, ArgumentFault::NoAllowed)?;
    expect_path(alloc, texts.fixed, ArgumentFault::NoFixed)?;
    Ok(())
}

/// Reads all of them but the networks, which these are. Refused, in this order: the life, the longest lease, the time, a longest lease that is
/// too short for a network, the addresses, the folder of the state, the files as [`files_of`] has them, one that the state has for itself,
/// its leases, those of a client, the changes of a client in a second, and the lines of a log in a second.
fn nbns_arguments(
    alloc: Global,
    texts: &NbnsTexts<'_>,
    allowed: Vec<Network>,
) -> Result<ServerArguments, Failure>
    ensures { ReadsNbns texts.now allowed.items result }
{
    let config = config_of(alloc, texts.life, texts.longest)?;
    let time = ending_of(alloc, texts.time)?;
    fit(config)?;
    let bind = bind_of(alloc, texts.binds.as_slice())?;
    let state = state_of(alloc, texts.state, texts.silent_after_boot)?;
    let files = files_of(alloc, texts)?;
    expect_beside(alloc, texts)?;
    let rows = rows_of(alloc, texts.rows)?;
    let client_rows = client_rows_of(alloc, texts.rows_per_client)?;
    let changes = client_changes_of(alloc, texts.changes_per_client)?;
    let rate = log_rate_of(alloc, texts.log_rate)?;
    let rows_per_client = client_rows.unwrap_or(CLIENT_ROWS);
    let changes_per_client = changes.unwrap_or(CLIENT_CHANGES);
    let log_rate = rate.unwrap_or(LOG_RATE);
    Ok(ServerArguments {
        nbns: NbnsArguments {
            bind,
            config: with_rows(config, rows),
            time,
            log: texts.log,
            broadcasts: texts.broadcasts,
            log_rate,
            leases: files.leases,
            hosts: files.hosts,
            stats: files.stats,
            strict: texts.strict,
            rows_per_client,
            changes_per_client,
            front: Front::new(allowed, FixedNames::none(alloc), config),
        },
        state,
    })
}

/// Reads where a server keeps its leases, if anywhere. Refused: an empty text.
fn state_of(
    alloc: Global,
    text: Option<&str>,
    silent_after_boot: bool,
) -> Result<Option<StateFolder>, Failure>
    ensures { IfGiven (ReadsFolder silent_after_boot) text.entry result }
{
    match text {
        Some(text) => Ok(Some(folder_of(alloc, text, silent_after_boot)?)),
        None => Ok(None),
    }
}

fn folder_of(alloc: Global, text: &str, silent_after_boot: bool) -> Result<StateFolder, Failure>
    ensures { ReadsFolder silent_after_boot text.now result }
{
    if text.is_empty() {
        return Err(Failure::of_argument(alloc, text, ArgumentFault::Folder));
    }
    let path = String::from_str(alloc, text)?;
    Ok(StateFolder {
        path,
        silent_after_boot,
    })
}

/// The paths of the files that a server keeps, if any.
#[derive(Drop)]
struct Files {
    leases: Option<String>,
    hosts: Option<String>,
    stats: Option<String>,
}

/// Reads which files a server keeps. Refused, in this order: an empty path of the list of leases, of the hosts, of the statistics; and
/// the first path that an earlier one of them is too.
fn files_of(alloc: Global, texts: &NbnsTexts<'_>) -> Result<Files, Failure>
    ensures { ReadsFiles texts.now result }
{
    let leases = file_of(alloc, texts.leases, ArgumentFault::NoPath)?;
    let hosts = file_of(alloc, texts.hosts, ArgumentFault::NoHosts)?;
    let stats = file_of(alloc, texts.stats, ArgumentFault::NoStats)?;
    apart(alloc, texts.leases, texts.hosts)?;
    apart(alloc, texts.leases, texts.stats)?;
    apart(alloc, texts.hosts, texts.stats)?;
    Ok(Files {
        leases,
        hosts,
        stats,
    })
}

/// Refuses the second path where both are given, and are the same.
fn apart(alloc: Global, one: Option<&str>, other: Option<&str>) -> Result<(), Failure>
    ensures ok { OnOk result (AreApart (path_of one.entry) (path_of other.entry)) }
    ensures failure { IfErr result (TwiceFails (path_of one.entry) (path_of other.entry)) }
{
    match (one, other) {
        (Some(one), Some(other)) if one == other => {
            Err(Failure::of_argument(alloc, other, ArgumentFault::PathTwice))
        }
        _ => Ok(()),
    }
}

/// Refuses a file that the folder of the state has for itself, where there is that folder: the list of leases, the hosts, or the statistics,
/// the first of them.
fn expect_beside(alloc: Global, texts: &NbnsTexts<'_>) -> Result<(), Failure>
    ensures { NeedsFree texts.now result }
{
    expect_free(alloc, texts.state, texts.leases)?;
    expect_free(alloc, texts.state, texts.hosts)?;
    expect_free(alloc, texts.state, texts.stats)?;
    Ok(())
}

/// Refuses a path, if there is one, whose last component is the name of a file that the folder of a state has for itself, if there is one.
fn expect_free(alloc: Global, state: Option<&str>, path: Option<&str>) -> Result<(), Failure>
    ensures { Fits (λ path. state.entry ≢ None → ¬ IsStores path) ArgumentFault.Stores path.entry result }
{
    match (state, path) {
        (Some(_), Some(path)) if is_stores(path.as_bytes()) => {
            Err(Failure::of_argument(alloc, path, ArgumentFault::Stores))
        }
        _ => Ok(()),
    }
}

/// Whether the last component of a path is the name of a file that the folder of a state has for itself.
fn is_stores(path: &[u8]) -> bool
    ensures { IsTrue result ↔ IsStores path.now }
{
    is_named(b"leases.new", path) || is_named(b"leases.bad", path)
}

/// Whether the last component of a path is this name.
fn is_named(name: &[u8], path: &[u8]) -> bool
    ensures { IsTrue result ↔ IsNamed name.now path.now }
{
    match path.strip_suffix(name) {
        Some(folder) => folder.is_empty() || folder.ends_with(b"/"),
        None => false,
    }
}

/// Refuses an empty path of a file, if there is one, with this fault.
fn expect_path(alloc: Global, text: Option<&str>, fault: ArgumentFault) -> Result<(), Failure>
    ensures { Fits (λ path. path ≢ []) fault text.entry result }
{
    match text {
        Some(text) if text.is_empty() => Err(Failure::of_argument(alloc, text, fault)),
        _ => Ok(()),
    }
}

/// Copies the path of a file, if there is one. Refused with this fault where it is empty.
fn file_of(
    alloc: Global,
    text: Option<&str>,
    fault: ArgumentFault,
) -> Result<Option<String>, Failure>
    ensures { IfGiven (ReadsPath fault) text.entry result }
{
    match text {
        Some(text) => Ok(Some(path_of(alloc, text, fault)?)),
        None => Ok(None),
    }
}

/// Copies a path. Refused with this fault where it is empty.
fn path_of(alloc: Global, text: &str, fault: ArgumentFault) -> Result<String, Failure>
    ensures { ReadsPath fault text.now result }
{
    if text.is_empty() {
        return Err(Failure::of_argument(alloc, text, fault));
    }
    Ok(String::from_str(alloc, text)?)
}
