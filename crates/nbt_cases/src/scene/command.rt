//! Commands, over the port, the clocks and the outputs of a scene.

ghost use Rattle.nbt_scan.specs.Plans.{IsPlan};

use crate::scene::nbns::serve;
use crate::scene::paper::ScenePaper;
use crate::scene::port::ScenePort;
use crate::scene::script::Scene;
use crate::scene::stage::Stage;
use crate::scene::watch::{Day, Sleeper, Steady};
use nbt_admin::{
    AskArguments, Failure, ScanArguments, host_arguments, lookup_arguments, release_arguments,
    scan_arguments, status_requests,
};
use nbt_args::{AdminLine, CommandLine};
use nbt_client::ask;
use nbt_host::{Clocks, HostArguments, WatchedClocks, host_over, release_over};
use nbt_port::{Fault, print};
use nbt_scan::{Meter, scan_over};
use std::alloc::{AllocError, Global};

/// The id of a lookup, the first one of releases, and that of each address of a scan, which are random over a machine.
const FIRST_ID: u16 = 1;

/// Plays a command up to its end.
pub fn play_command(stage: &Stage<'_>, alloc: Global, scene: &Scene) -> Result<(), AllocError> {
    match run(stage, alloc, scene) {
        Ok(status) => stage.end(format!(in alloc; "status {status}")?.as_str()),
        Err(failure) => stage.end(word_of(&failure)),
    }
    Ok(())
}

/// What stands for a failure in a scene.
fn word_of(failure: &Failure) -> &'static str {
    match failure {
        Failure::Usage(_) => "usage",
        Failure::Complaint(_) => "complaint",
        Failure::Fault(Fault::NoPort) => "no port",
        Failure::Fault(Fault::NoClock) => "no clock",
        Failure::Fault(Fault::Device) => "device",
        Failure::Fault(Fault::Output) => "output",
        Failure::Fault(Fault::Store) => "store",
        Failure::Fault(Fault::Memory) => "memory",
    }
}

/// Runs the command of a scene, and returns its status.
fn run(stage: &Stage<'_>, alloc: Global, scene: &Scene) -> Result<u8, Failure> {
    let line = nbt_args::read(alloc, scene.words.as_slice())?;
    let mut writer = ScenePaper::new(stage, false);
    let mut errors = ScenePaper::new(stage, true);
    match &line {
        CommandLine::Admin(AdminLine::Lookup(texts)) => {
            let asked = lookup_arguments(alloc, texts)?;
            Ok(look_up(stage, alloc, &asked, &mut writer)?)
        }
        CommandLine::Admin(AdminLine::Status(texts)) => {
            let requests = status_requests(alloc, texts)?;
            match requests.first() {
                Some(request) => Ok(look_up(stage, alloc, &request.arguments, &mut writer)?),
                None => Err(Failure::Fault(Fault::NoPort)),
            }
        }
        CommandLine::Admin(AdminLine::Host(texts)) => {
            let host = host_arguments(alloc, texts)?;
            Ok(hold(stage, alloc, &host, &mut writer, &mut errors)?)
        }
        CommandLine::Admin(AdminLine::Release(texts)) => {
            let host = release_arguments(alloc, texts)?;
            Ok(release(stage, alloc, &host, &mut writer)?)
        }
        CommandLine::Admin(AdminLine::Nbns(texts)) => {
            serve(stage, alloc, scene, texts, &mut writer, &mut errors)?;
            Ok(0)
        }
        CommandLine::Admin(AdminLine::Scan(texts)) => {
            let arguments = scan_arguments(alloc, texts)?;
            Ok(scan(stage, alloc, &arguments, &mut writer, &mut errors)?)
        }
        _ => Err(Failure::Fault(Fault::NoPort)),
    }
}

/// A lookup, or a status request.
fn look_up(
    stage: &Stage<'_>,
    alloc: Global,
    asked: &AskArguments,
    writer: &mut ScenePaper<'_, '_>,
) -> Result<u8, Fault> {
    let mut text = String::new(alloc);
    let answer = ask(
        &mut ScenePort::new(stage),
        &mut Steady(stage),
        asked.bind,
        FIRST_ID,
        &asked.question,
        asked.patience,
        &mut text,
    )?;
    print(text.as_str(), writer).map_err(|_| Fault::Output)?;
    Ok(answer.status())
}

/// A host. Its status is 5 where it didn't hold all names at its end.
fn hold(
    stage: &Stage<'_>,
    alloc: Global,
    host: &HostArguments,
    writer: &mut ScenePaper<'_, '_>,
    errors: &mut ScenePaper<'_, '_>,
) -> Result<u8, Fault> {
    let clocks = Clocks {
        steady: Steady(stage),
        day: Day(stage),
    };
    let all = host_over(
        &mut ScenePort::new(stage),
        WatchedClocks::new(clocks, 0),
        alloc,
        host.bind,
        host,
        &Sleeper(stage),
        writer,
        errors,
    )?;
    Ok(if all { 0 } else { 5 })
}

/// A host's release. Its status is 1 where one name wasn't confirmed.
fn release(
    stage: &Stage<'_>,
    alloc: Global,
    host: &HostArguments,
    writer: &mut ScenePaper<'_, '_>,
) -> Result<u8, Fault> {
    let all = release_over(
        &mut ScenePort::new(stage),
        &mut Steady(stage),
        alloc,
        host.bind,
        host.server,
        FIRST_ID,
        host.wants.as_slice(),
        writer,
    )?;
    Ok(if all { 0 } else { 1 })
}

/// A scan. Its status is 1 where no host replied.
fn scan(
    stage: &Stage<'_>,
    alloc: Global,
    arguments: &ScanArguments,
    writer: &mut ScenePaper<'_, '_>,
    errors: &mut ScenePaper<'_, '_>,
) -> Result<u8, Fault>
    requires { IsPlan arguments.now.plan }
{
    let ids = vec![in alloc; FIRST_ID; arguments.plan.ips.len()]?;
    let any = scan_over(
        &mut ScenePort::new(stage),
        &mut Steady(stage),
        alloc,
        &arguments.plan,
        ids.as_slice(),
        arguments.layout,
        writer,
        &mut Meter::new(arguments.progress),
        errors,
    )?;
    Ok(if any { 0 } else { 1 })
}
