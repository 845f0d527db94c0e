//! One turn of a host.

ghost use Rattle.std.specs.Prelude.{◌≡◌, ◌≤◌, List, ℕ, Some, None, Ok, OnOk, OnErr, map, if◌then◌else◌};
ghost use Rattle.nbt_node.specs.Node.{slots_most};
ghost use Rattle.nbt_node.specs.Calls.{started_from};
ghost use Rattle.nbt_port.specs.PortCalls.{PortCall, Chain, CountsFailure};
ghost use Rattle.nbt_host.specs.Goals.{anew};
ghost use Rattle.nbt_host.specs.Sleeping.{last_of};
ghost use Rattle.nbt_host.specs.Hosting.{HostTurn, HostBreaks, first_id, woken};
ghost use Rattle.nbt_host.specs.Inner.Parts.{Listens, LosesListening};
ghost use Rattle.nbt_host.specs.declared.watching.Look.{Look as LookValue};

use crate::goal::{Goal, forget_all, hear_all, see_all};
use crate::hearing::hear;
use crate::requesting::request_all;
use crate::watching::{Look, Watch};
use arrayvec::ArrayVec;
use nbt_client::poll_all;
use nbt_lease::Config;
use nbt_name::Addr;
use nbt_node::Node;
use nbt_port::{Device, Port};

/// The host goes through one turn. Its machine's clocks are looked at, and at that time each name is: where the hold that was told
/// of is over by time, it has lapsed. In the list's order each name that is wanted is asked for, unless a refusal stands whose
/// time hasn't come, and each that is to be released is; a call that the node refuses is ignored, and so is one for a name that
/// is held or asked for. Each request goes to `server`. Then the node is polled until it has nothing to send, each datagram
/// going to its destination, the port receives once, the clocks are looked at again, and the node handles what came at that time. A
/// query for a name that is held then is answered, to whoever sent it, with the node's address and its kind; of the rest the
/// node itself replies to a status request. A held name of which the server says that it is released or refused, in a reply that
/// nothing waits for, is refreshed at the next turn, or as soon as more than `Config::quiet()` has passed since the last sending about
/// it; its hold stays as it is. What came of the names stands in `goals` afterwards: `lapsed` and `news` are this turn's.
///
/// Where a look says that the machine slept, the host is as that of a machine that crashed and starts at that time: the node knows
/// nothing, counts its ids from [`Look::first_id`], has the limits `config`, and rests first, and of each goal what is wanted and its stage alone stay. At the first look
/// the turn then goes on; at the second nothing is made of what came, and nothing is answered. `last` is then the turn's last look,
/// with whether any of its looks said so.
///
/// Refused with `Device` at the first call of the port that fails: nothing else of the turn is done, the node is as it
/// was before the receive, or as after the call that made the sending, which is lost, and the goals are as after the looks. The
/// caller must ensure that `N` is 1 to 14.
pub fn host_turn<P: Port, K: Watch, const N: usize>(
    port: &mut P,
    watch: &mut K,
    node: &mut Node<N>,
    server: Addr,
    config: Config,
    goals: &mut [Goal],
    last: &mut Look,
) -> Result<(), Device>
    requires slots_at_least { 1 ≤ N }
    requires slots_at_most { N ≤ slots_most }
    ensures ok { OnOk result ((acts : List PortCall) × (seen : List LookValue)
        × HostTurn (record { slots = N; server = server; config = config }) (record { goals = goals.old; node = node.old }) acts seen (record { goals = goals.new; node = node.new })
        × (last.new ≡ last_of last.old seen) × Chain P.does port.old acts port.new × Chain K.looks watch.old seen watch.new) }
    ensures err { OnErr result ((acts : List PortCall) × (seen : List LookValue)
        × HostBreaks (record { slots = N; server = server; config = config }) (record { goals = goals.old; node = node.old }) acts seen (record { goals = goals.new; node = node.new })
        × (last.new ≡ last_of last.old seen) × Chain P.does port.old acts port.new × Chain K.looks watch.old seen watch.new) }
    // It is refused exactly where the port's count of failures grew.
    ensures device { CountsFailure (P.failures port.old) (P.failures port.new) result }
{
    *last = wake(watch, node, server, config, goals);
    let now = last.at;
    see_all(node, now, goals);
    let mut out = ArrayVec::new();
    request_all(port, node, server, now, goals, &mut out)?;
    poll_all(port, node, now, &mut out)?;
    listen(port, watch, node, server, config, goals, last, &mut out)
}

/// Looks at the clocks, and starts again where the machine slept.
fn wake<K: Watch, const N: usize>(
    watch: &mut K,
    node: &mut Node<N>,
    server: Addr,
    config: Config,
    goals: &mut [Goal],
) -> Look
    requires slots_at_least { 1 ≤ N }
    requires slots_at_most { N ≤ slots_most }
    ensures looks { K.looks watch.old result watch.new }
    ensures node { node.new ≡ (if result.slept then started_from N node.old.addr server config result.at (first_id result) else node.old) }
    ensures goals { goals.new ≡ (if result.slept then map anew goals.old else goals.old) }
{
    let look = watch.look();
    if look.slept {
        start_again(node, goals, server, config, &look);
    }
    look
}

/// The host is as that of a machine that crashed and started at a look, and asks this server: the node knows nothing, and of each goal
/// what is wanted and its stage alone stay.
pub fn start_again<const N: usize>(
    node: &mut Node<N>,
    goals: &mut [Goal],
    server: Addr,
    config: Config,
    look: &Look,
)
    requires slots_at_least { 1 ≤ N }
    requires slots_at_most { N ≤ slots_most }
    ensures node { node.new ≡ started_from N node.old.addr server config look.now.at (first_id look.now) }
    ensures goals { goals.new ≡ map anew goals.old }
{
    *node = Node::start_from(node.addr(), server, config, look.at, look.first_id());
    forget_all(goals);
}

/// Receives once, looks at the clocks, and takes what came, where the machine didn't sleep.
fn listen<P: Port, K: Watch, const N: usize>(
    port: &mut P,
    watch: &mut K,
    node: &mut Node<N>,
    server: Addr,
    config: Config,
    goals: &mut [Goal],
    last: &mut Look,
    out: &mut ArrayVec<u8, 576>,
) -> Result<(), Device>
    requires slots_at_least { 1 ≤ N }
    requires slots_at_most { N ≤ slots_most }
    ensures ok { OnOk result (Listens P.does K.looks (record { slots = N; server = server; config = config })
        (record { port = port.old; watch = watch.old; last = last.old; host = record { goals = goals.old; node = node.old } })
        (record { port = port.new; watch = watch.new; last = last.new; host = record { goals = goals.new; node = node.new } })) }
    ensures err { OnErr result (LosesListening P.does K.looks
        (record { port = port.old; watch = watch.old; last = last.old; host = record { goals = goals.old; node = node.old } })
        (record { port = port.new; watch = watch.new; last = last.new; host = record { goals = goals.new; node = node.new } })) }
    ensures device { CountsFailure (P.failures port.old) (P.failures port.new) result }
{
    let mut octets = ArrayVec::new();
    let from = port.receive(&mut octets)?;
    let second = wake(watch, node, server, config, goals);
    let slept = second.slept;
    let at = second.at;
    let first = *last;
    *last = second.with_earlier(first);
    if slept {
        return Ok(());
    }
    let notice = hear(port, node, server, at, from, octets.as_slice(), out)?;
    hear_all(node, config, at, &notice, goals);
    Ok(())
}
