//! What a host prints of a turn.

ghost use Rattle.std.specs.Prelude.{◌≡◌, ◌++◌, ℕ, List, OnOk};
ghost use Rattle.std.specs.List.{list_any};
ghost use Rattle.std.specs.String.{string_bytes};
ghost use Rattle.nbt_host.specs.TurnLines.{lapse_of, news_of, again_of, IsLineIf, IsSleepLine, IsSilenceLine, IsGoingOnLine, IsChangeLine, span_text, is_told, tells_silence, has_lines, TellsGoal, TellsAll, TellsTurn};

use crate::asked::Asked;
use crate::event::{Event, write_event};
use crate::goal::{Goal, Refusal};
use crate::news::News;
use nbt_log::write_time;
use nbt_name::{Addr, Name};
use nbt_text::{end_line, write_address};
use std::alloc::AllocError;

/// Appends what is printed of a turn, in this second since 1970: that the machine slept, that no reply has
/// come from the server, and then of each name, in the list's
/// order, that its hold lapsed, what came for it, a renewal where `log` is set alone, and after the first refusal of a row that
/// it is requested again.
pub fn write_turn(
    second: u64,
    log: bool,
    server: Addr,
    slept: bool,
    goals: &[Goal],
    out: &mut String,
) -> Result<(), AllocError>
    ensures { OnOk result ((text : List ℕ) × TellsTurn second log server slept goals.now text × (string_bytes out.new ≡ string_bytes out.old ++ text)) }
{
    write_sleep(second, slept, out)?;
    write_silence(second, server, is_any_silent(goals), out)?;
    write_goals(second, log, goals, out)
}

/// Appends that the machine slept, if it did.
fn write_sleep(second: u64, slept: bool, out: &mut String) -> Result<(), AllocError>
    ensures { OnOk result ((text : List ℕ) × IsSleepLine second slept text × (string_bytes out.new ≡ string_bytes out.old ++ text)) }
{
    if !slept {
        return Ok(());
    }
    write_time(second, out)?;
    out.push_str(" slept, or its clock was set: asks anew")?;
    end_line(out)
}

/// Appends that no reply has come from the server, if none has.
fn write_silence(
    second: u64,
    server: Addr,
    silent: bool,
    out: &mut String,
) -> Result<(), AllocError>
    ensures { OnOk result ((text : List ℕ) × IsSilenceLine second server silent text × (string_bytes out.new ≡ string_bytes out.old ++ text)) }
{
    if !silent {
        return Ok(());
    }
    write_time(second, out)?;
    out.push_str(" no reply yet from ")?;
    write_address(server, out)?;
    end_line(out)
}

/// Appends that a server was silent for so many seconds, and who is asked from then on, if another one is.
pub fn write_change(
    second: u64,
    seconds: u32,
    server: Addr,
    next: Option<Asked>,
    out: &mut String,
) -> Result<(), AllocError>
    ensures { OnOk result ((text : List ℕ) × IsChangeLine second seconds server next text × (string_bytes out.new ≡ string_bytes out.old ++ text)) }
{
    match next {
        Some(next) => write_going_on(second, seconds, server, next.server, out),
        None => Ok(()),
    }
}

/// Appends that a server was silent for so many seconds, and who is asked from then on.
fn write_going_on(
    second: u64,
    seconds: u32,
    server: Addr,
    next: Addr,
    out: &mut String,
) -> Result<(), AllocError>
    ensures { OnOk result ((line : List ℕ) × IsGoingOnLine second seconds server next line × (string_bytes out.new ≡ string_bytes out.old ++ line)) }
{
    write_time(second, out)?;
    out.push_str(" no reply from ")?;
    write_address(server, out)?;
    write_span(seconds, out)?;
    write_address(next, out)?;
    end_line(out)
}

/// Appends for how long a server was silent.
fn write_span(seconds: u32, out: &mut String) -> Result<(), AllocError>
    ensures { OnOk result (string_bytes out.new ≡ string_bytes out.old ++ span_text seconds) }
{
    write!(out, " for {seconds} s: goes on with ")
}

/// Appends what is printed of each name.
fn write_goals(second: u64, log: bool, goals: &[Goal], out: &mut String) -> Result<(), AllocError>
    ensures { OnOk result ((text : List ℕ) × TellsAll (TellsGoal second log) goals.now text × (string_bytes out.new ≡ string_bytes out.old ++ text)) }
{
    for goal in goals {
        write_goal(second, log, goal, out)?;
    }
    Ok(())
}

/// Appends what is printed of a name.
fn write_goal(second: u64, log: bool, goal: &Goal, out: &mut String) -> Result<(), AllocError>
    ensures { OnOk result ((text : List ℕ) × TellsGoal second log goal.now text × (string_bytes out.new ≡ string_bytes out.old ++ text)) }
{
    let name = &goal.want.name;
    write_if(second, lapse_of(goal.lapsed), name, out)?;
    write_if(second, news_of(log, goal.news), name, out)?;
    write_if(second, again_of(goal.news, goal.refusal), name, out)
}

/// Appends the line of an event, if there is one.
fn write_if(
    second: u64,
    event: Option<Event>,
    name: &Name,
    out: &mut String,
) -> Result<(), AllocError>
    ensures { OnOk result ((line : List ℕ) × IsLineIf second name.now event line × (string_bytes out.new ≡ string_bytes out.old ++ line)) }
{
    match event {
        Some(event) => write_event(second, event, name, out),
        None => Ok(()),
    }
}

/// Whether something is printed of a turn.
pub fn has_lines(log: bool, slept: bool, goals: &[Goal]) -> bool
    ensures { result ≡ has_lines log slept goals.now }
{
    slept || is_any_silent(goals) || is_any_told(log, goals)
}

/// Whether it is printed that no reply has come.
fn is_any_silent(goals: &[Goal]) -> bool
    ensures { result ≡ list_any tells_silence goals.now }
{
    goals.iter().any(|goal| goal.silent)
}

/// Whether something is printed of a name.
fn is_any_told(log: bool, goals: &[Goal]) -> bool
    ensures { result ≡ list_any (is_told log) goals.now }
{
    goals.iter().any(|goal| is_told(log, goal))
}

/// Whether something is printed of this name.
fn is_told(log: bool, goal: &Goal) -> bool
    ensures { result ≡ is_told log goal.now }
{
    goal.lapsed || news_of(log, goal.news).is_some()
}

/// What is told of a hold that was over by time, if it was.
fn lapse_of(lapsed: bool) -> Option<Event>
    ensures { result ≡ lapse_of lapsed }
{
    lapsed.then_some(Event::Lapsed)
}

/// What is told of what came.
fn news_of(log: bool, news: Option<News>) -> Option<Event>
    ensures { result ≡ news_of log news }
{
    match news? {
        News::Granted(seconds) => Some(Event::Granted(seconds)),
        News::Untimed(seconds) => Some(Event::Untimed(seconds)),
        News::Brief(seconds) => Some(Event::Brief(seconds)),
        News::Renewed(seconds) => log.then_some(Event::Renewed(seconds)),
        News::Doubted => Some(Event::Doubted),
        News::Refused(rcode) => Some(Event::Refused(rcode)),
        News::Lost => Some(Event::Lost),
        News::Freed(_) => None,
    }
}

/// After the first refusal of a row, that the name is requested again.
fn again_of(news: Option<News>, refusal: Option<Refusal>) -> Option<Event>
    ensures { result ≡ again_of news refusal }
{
    match (news, refusal) {
        (Some(News::Refused(_)), Some(last)) => (last.times == 1).then_some(Event::AsksAgain),
        _ => None,
    }
}
