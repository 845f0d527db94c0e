//! A host that releases its names.

ghost use Rattle.std.specs.Prelude.{◌≡◌, ◌≤◌, ◌↔◌, map, IsTrue, IfOk, OnOk, OnErr};
ghost use Rattle.std.specs.List.{list_any};
ghost use Rattle.nbt_node.specs.Node.{slots_most};
ghost use Rattle.nbt_port.specs.PortCalls.{CountsFailure};
ghost use Rattle.nbt_host.specs.Releasing.{leaving, is_open, GoesOn, Breaks, Ended, Broken, GivesAllBack, FailsToGiveBack};
ghost use Rattle.nbt_host.specs.Inner.Parts.{EndTurnIs};

use crate::goal::{Goal, Stage};
use crate::turning::host_turn;
use crate::watching::{Look, Watch};
use nbt_lease::{Config, Moment};
use nbt_name::Addr;
use nbt_node::Node;
use nbt_port::{Clock, Device, Port};

/// The milliseconds for which a host waits at most for the replies to its releases: three sendings, and 5 s after each (RFC
/// 1002 section 6).
pub const GIVING_BACK: u64 = 15_000;

/// Releases all names. The clock is read, and every goal is `Leaving`; turns follow, in which each name that is held is
/// released at once, its request being sent again by the node's own rule, three times in all and 5 s apart. It is over after a
/// turn at which no reply to a release is waited for, or at the end of which 15 s have passed since that time, or after `most`
/// turns. The stages of the goals then say how each came out: `Left(0)` is confirmed, any other `Left` is denied with that
/// RCODE, `Doubtful` is denied after its request was sent again, `Released` has no reply, and `Leaving` was not held. A name whose grant comes meanwhile is released in the next turn,
/// if there is one. Where the machine slept, the host starts again, and waits on: its names aren't held any more. Refused with `Device`
/// at the first call of the port that fails. The caller must ensure that `N` is 1 to 14.
pub fn give_back<P: Port, K: Clock + Watch, const N: usize>(
    port: &mut P,
    watch: &mut K,
    node: &mut Node<N>,
    server: Addr,
    config: Config,
    goals: &mut [Goal],
    last: &mut Look,
    most: u64,
) -> Result<(), Device>
    requires slots_at_least { 1 ≤ N }
    requires slots_at_most { N ≤ slots_most }
    ensures ok { OnOk result (GivesAllBack P.does K.tells K.looks (record { slots = N; server = server; config = config }) most
        (record { port = port.old; watch = watch.old; last = last.old; host = record { goals = goals.old; node = node.old } })
        (record { port = port.new; watch = watch.new; last = last.new; host = record { goals = goals.new; node = node.new } })) }
    ensures err { OnErr result (FailsToGiveBack P.does K.tells K.looks (record { slots = N; server = server; config = config }) most
        (record { port = port.old; watch = watch.old; last = last.old; host = record { goals = goals.old; node = node.old } })
        (record { port = port.new; watch = watch.new; last = last.new; host = record { goals = goals.new; node = node.new } })) }
    // It is refused exactly where the port's count of failures grew.
    ensures device { CountsFailure (P.failures port.old) (P.failures port.new) result }
{
    leave_all(goals);
    let limit = watch.now().get() + GIVING_BACK;
    wait(port, watch, node, server, config, goals, last, limit, most)
}

/// Every name is to be released.
fn leave_all(goals: &mut [Goal])
    ensures { goals.new ≡ map leaving goals.old }
{
    for goal in goals.iter_mut() {
        goal.stage = Stage::Leaving;
    }
}

/// Turns until the ending is over.
fn wait<P: Port, K: Clock + Watch, const N: usize>(
    port: &mut P,
    watch: &mut K,
    node: &mut Node<N>,
    server: Addr,
    config: Config,
    goals: &mut [Goal],
    last: &mut Look,
    limit: u64,
    most: u64,
) -> Result<(), Device>
    requires slots_at_least { 1 ≤ N }
    requires slots_at_most { N ≤ slots_most }
    ensures ok { OnOk result (Ended P.does K.tells K.looks (record { slots = N; server = server; config = config }) limit most
        (record { port = port.old; watch = watch.old; last = last.old; host = record { goals = goals.old; node = node.old } })
        (record { port = port.new; watch = watch.new; last = last.new; host = record { goals = goals.new; node = node.new } })) }
    ensures err { OnErr result (Broken P.does K.tells K.looks (record { slots = N; server = server; config = config }) limit most
        (record { port = port.old; watch = watch.old; last = last.old; host = record { goals = goals.old; node = node.old } })
        (record { port = port.new; watch = watch.new; last = last.new; host = record { goals = goals.new; node = node.new } })) }
    ensures device { CountsFailure (P.failures port.old) (P.failures port.new) result }
{
    for _ in 0..most {
        let goes_on = end_turn(port, watch, node, server, config, goals, last, limit)?;
        if !goes_on {
            return Ok(());
        }
    }
    Ok(())
}

/// A turn. Returns whether the ending goes on after it.
fn end_turn<P: Port, K: Clock + Watch, const N: usize>(
    port: &mut P,
    watch: &mut K,
    node: &mut Node<N>,
    server: Addr,
    config: Config,
    goals: &mut [Goal],
    last: &mut Look,
    limit: u64,
) -> Result<bool, Device>
    requires slots_at_least { 1 ≤ N }
    requires slots_at_most { N ≤ slots_most }
    ensures ok { IfOk result (λ on. EndTurnIs P.does K.tells K.looks (record { slots = N; server = server; config = config }) limit on
        (record { port = port.old; watch = watch.old; last = last.old; host = record { goals = goals.old; node = node.old } })
        (record { port = port.new; watch = watch.new; last = last.new; host = record { goals = goals.new; node = node.new } })) }
    ensures err { OnErr result (Breaks P.does K.looks (record { slots = N; server = server; config = config })
        (record { port = port.old; watch = watch.old; last = last.old; host = record { goals = goals.old; node = node.old } })
        (record { port = port.new; watch = watch.new; last = last.new; host = record { goals = goals.new; node = node.new } })) }
    ensures device { CountsFailure (P.failures port.old) (P.failures port.new) result }
{
    host_turn(port, watch, node, server, config, goals, last)?;
    let now = watch.now();
    Ok(goes_on(goals, limit, now))
}

/// Whether the ending goes on after a turn.
fn goes_on(goals: &[Goal], limit: u64, now: Moment) -> bool
    ensures { IsTrue result ↔ GoesOn limit goals.now now }
{
    now.get() < limit && is_any_open(goals)
}

/// Whether a reply to a release is waited for.
fn is_any_open(goals: &[Goal]) -> bool
    ensures { result ≡ list_any is_open goals.now }
{
    goals.iter().any(|goal| is_open(goal))
}

/// Whether a reply to the release of this name is waited for.
fn is_open(goal: &Goal) -> bool
    ensures { result ≡ is_open goal.now }
{
    matches!(goal.stage, Stage::Released)
}
