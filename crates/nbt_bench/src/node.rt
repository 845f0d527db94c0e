//! An end node over UDP and the machine's clock.

ghost use Rattle.std.specs.Prelude.{◌≡◌, ◌≢◌, ℕ, OnOk, IfOk, IfErr, IsOk};
ghost use Rattle.std.specs.Io.KnownBytes.{Appends};
ghost use Rattle.nbt_node.specs.Calls.{started};
ghost use Rattle.nbt_node.specs.Node.{holds};
ghost use Rattle.nbt_port.specs.Staying.{StaysUntil, EndsEarly};
ghost use Rattle.nbt_bench.specs.Node.{Turns, BreaksTurns, FailsTurn, TakesTurns, EndsTurns, RunsFor, NodeEndsFor, RunsNode, NodeFails, NodeIsCut, RunsNodeHere, NodeFailsHere, NodeIsCutHere, seen_text, held_text};

use crate::port::bound_port;
use nbt_client::{SLOTS, Seen, Want, node_turn};
use nbt_lease::{Config, Moment};
use nbt_name::Addr;
use nbt_node::Node;
use nbt_port::{
    Clock, FOREVER, Fault, MachineClock, Port, Turn, Turned, readable_clock, stay_up, tell_end_of,
};
use std::io::Write;
use std::net::Net;
use std::{io, time};

/// What a node is to do.
#[derive(Debug, Drop)]
pub struct NodeArguments {
    /// Its own address and port.
    pub bind: Addr,
    /// Those of its name server.
    pub server: Addr,
    /// The limits.
    pub config: Config,
    /// The name that it asks for.
    pub want: Want,
    /// How many turns; `None` where there is no end.
    pub turns: Option<u64>,
}

/// Runs an end node on a UDP port of this machine, over its clock. It prints a line for each event as it comes, and after
/// the last turn whether the name is held. Where there is no end, it stays up for 2^61 turns, also where the port fails: it says
/// so in `errors`, waits 100 ms after each turn that failed, and goes on from where the call that failed left the node.
/// Refused: `NoPort` where the port can't be bound; `NoClock` where the clock can't be read at first; `Device` where the port
/// fails, with a number of turns at the first call that does, and with no end at the hundredth turn in a row that fails;
/// `Output` where a line can't be written to `writer`: at once after the turn in which the event was seen, or after all turns. Of
/// each but the last a line in `errors` says which call of the machine failed, for which address, and why. What can't be
/// written to `errors` is passed over. It takes no memory, and isn't refused with `Memory`.
pub fn run_node<M: Net + time::Clock, W: Write, E: Write>(
    machine: &M,
    arguments: &NodeArguments,
    writer: &mut W,
    errors: &mut E,
) -> Result<(), Fault>
    ensures ok { OnOk result (RunsNodeHere arguments.now (W.contents writer.old) (W.contents writer.new)) }
    ensures device { result ≡ Err Fault.Device → NodeFailsHere arguments.now (W.contents writer.old) (W.contents writer.new) }
    ensures output { result ≡ Err Fault.Output → NodeIsCutHere arguments.now (W.contents writer.old) (W.contents writer.new) }
    ensures memory { result ≢ Err Fault.Memory }
{
    let mut port = bound_port(machine, arguments.bind, errors)?;
    let mut clock = readable_clock(machine, arguments.bind, errors)?;
    let run = run_turns(&mut port, &mut clock, arguments, writer, machine, errors);
    tell_end_of(run.err(), port.cause(), errors);
    run
}

/// Runs the node over a port, and prints each event as it comes, and last whether the name is held.
pub fn run_turns<P: Port, M: time::Clock, W: Write, E: Write>(
    port: &mut P,
    clock: &mut MachineClock<'_, M>,
    arguments: &NodeArguments,
    writer: &mut W,
    machine: &M,
    errors: &mut E,
) -> Result<(), Fault>
    ensures ok { OnOk result (RunsNode P.does arguments.now
        port.old clock.old (W.contents writer.old) port.new clock.new (W.contents writer.new)) }
    ensures device { result ≡ Err Fault.Device → NodeFails P.does arguments.now
        port.old clock.old (W.contents writer.old) port.new clock.new (W.contents writer.new) }
    ensures output { result ≡ Err Fault.Output → NodeIsCut P.does arguments.now
        port.old clock.old (W.contents writer.old) port.new clock.new (W.contents writer.new) }
    ensures memory { result ≢ Err Fault.Memory }
{
    let mut node = start_node(clock, arguments);
    run_for(port, clock, &mut node, arguments, writer, machine, errors)?;
    tell_end(&node, clock.last(), &arguments.want, writer).map_err(|_| Fault::Output)
}

/// The node, which starts at the moment that the clock tells.
fn start_node<C: Clock>(clock: &mut C, arguments: &NodeArguments) -> Node<SLOTS>
    ensures { (now : ℕ) × C.tells clock.old now clock.new
        × (result ≡ started SLOTS arguments.now.bind arguments.now.server arguments.now.config now) }
{
    let now = clock.now();
    Node::start(arguments.bind, arguments.server, arguments.config, now)
}

/// The node takes its turns, or stays up, and prints what is seen in each.
fn run_for<P: Port, C: Clock, W: Write, M: time::Clock, E: Write>(
    port: &mut P,
    clock: &mut C,
    node: &mut Node<SLOTS>,
    arguments: &NodeArguments,
    writer: &mut W,
    machine: &M,
    errors: &mut E,
) -> Result<(), Fault>
    ensures ok { OnOk result (RunsFor P.does C.tells arguments.now.turns arguments.now.server arguments.now.want (record { port = port.old; clock = clock.old; node = node.old; text = W.contents writer.old })
        (record { port = port.new; clock = clock.new; node = node.new; text = W.contents writer.new })) }
    ensures err { IfErr result (λ fault. NodeEndsFor P.does C.tells arguments.now.turns arguments.now.server arguments.now.want fault (record { port = port.old; clock = clock.old; node = node.old; text = W.contents writer.old })
        (record { port = port.new; clock = clock.new; node = node.new; text = W.contents writer.new })) }
{
    match arguments.turns {
        Some(turns) => take_turns(port, clock, node, arguments, turns, writer),
        None => node_on(
            port, clock, node, arguments, FOREVER, writer, machine, errors,
        ),
    }
}

/// Takes `turns` turns, and prints what is seen in each.
fn take_turns<P: Port, C: Clock, W: Write>(
    port: &mut P,
    clock: &mut C,
    node: &mut Node<SLOTS>,
    arguments: &NodeArguments,
    turns: u64,
    writer: &mut W,
) -> Result<(), Fault>
    ensures ok { OnOk result (TakesTurns P.does C.tells arguments.now.server arguments.now.want turns
        (record { port = port.old; clock = clock.old; node = node.old; text = W.contents writer.old }) (record { port = port.new; clock = clock.new; node = node.new; text = W.contents writer.new })) }
    ensures err { IfErr result (λ fault. EndsTurns P.does C.tells arguments.now.server arguments.now.want (FailsTurn P.does C.tells arguments.now.server arguments.now.want fault) turns
        (record { port = port.old; clock = clock.old; node = node.old; text = W.contents writer.old }) (record { port = port.new; clock = clock.new; node = node.new; text = W.contents writer.new })) }
{
    for _ in 0..turns {
        take_turn(port, clock, node, arguments, writer)?;
    }
    Ok(())
}

/// The node takes `turns` turns, and stays up as [`stay_up`] says.
fn node_on<P: Port, C: Clock, W: Write, M: time::Clock, E: Write>(
    port: &mut P,
    clock: &mut C,
    node: &mut Node<SLOTS>,
    arguments: &NodeArguments,
    turns: u64,
    writer: &mut W,
    machine: &M,
    errors: &mut E,
) -> Result<(), Fault>
    ensures ok { OnOk result (StaysUntil (Turns P.does C.tells arguments.now.server arguments.now.want) (BreaksTurns P.does C.tells arguments.now.server arguments.now.want) (λ _ _. ⊥) turns
        (record { port = port.old; clock = clock.old; node = node.old; text = W.contents writer.old }) (record { port = port.new; clock = clock.new; node = node.new; text = W.contents writer.new })) }
    ensures err { IfErr result (λ fault. EndsEarly (Turns P.does C.tells arguments.now.server arguments.now.want) (BreaksTurns P.does C.tells arguments.now.server arguments.now.want)
        (FailsTurn P.does C.tells arguments.now.server arguments.now.want) turns fault
        (record { port = port.old; clock = clock.old; node = node.old; text = W.contents writer.old }) (record { port = port.new; clock = clock.new; node = node.new; text = W.contents writer.new })) }
{
    let mut turn = NodeTurn {
        port,
        clock,
        node,
        arguments,
        writer,
    };
    stay_up(&mut turn, turns, machine, errors)
}

/// One turn of a node that stays up.
#[derive(Drop)]
struct NodeTurn<'p, 'c, 'n, 'a, 'w, P, C, W> {
    port: &'p mut P,
    clock: &'c mut C,
    node: &'n mut Node<SLOTS>,
    arguments: &'a NodeArguments,
    writer: &'w mut W,
}

impl<P: Port, C: Clock, W: Write> Turn for NodeTurn<'_, '_, '_, '_, '_, P, C, W> {
    ghost use Rattle.std.specs.Prelude.{List, [], ◌∷◌};
    ghost use Rattle.nbt_client.specs.declared.turning.Seen.{Seen};
    ghost use Rattle.nbt_bench.specs.Node.{Running};
    ghost use Rattle.nbt_bench.specs.declared.node.NodeArguments.{NodeArguments};

    ghost State = { Running P C };

    ghost Shown = { Seen };

    ghost Fixed = { NodeArguments × List ℕ };

    ghost state = { λ t. record { port = t.port.now; clock = t.clock.now; node = t.node.now; text = W.contents t.writer.now } };

    ghost fixed = { λ t. (t.arguments.now, t.port.ghost_name ∷ t.clock.ghost_name ∷ t.node.ghost_name ∷ t.writer.ghost_name ∷ []) };

    ghost turns = { λ a. Turns P.does C.tells a.0.server a.0.want };

    ghost breaks = { λ a. BreaksTurns P.does C.tells a.0.server a.0.want };

    ghost last = { λ _ _ _. ⊥ };

    ghost cuts = { λ a. FailsTurn P.does C.tells a.0.server a.0.want };

    fn take<E: Write>(&mut self, _errors: &mut E) -> Turned {
        match take_turn(
            self.port,
            self.clock,
            self.node,
            self.arguments,
            self.writer,
        ) {
            Ok(_) => Turned::Well,
            Err(Fault::Device) => Turned::Failed(self.port.cause()),
            Err(fault) => Turned::CutOff(fault),
        }
    }
}

/// Takes a turn, and prints what is seen in it.
fn take_turn<P: Port, C: Clock, W: Write>(
    port: &mut P,
    clock: &mut C,
    node: &mut Node<SLOTS>,
    arguments: &NodeArguments,
    writer: &mut W,
) -> Result<Seen, Fault>
    ensures ok { IfOk result (λ seen. Turns P.does C.tells arguments.now.server arguments.now.want
        (record { port = port.old; clock = clock.old; node = node.old; text = W.contents writer.old }) seen (record { port = port.new; clock = clock.new; node = node.new; text = W.contents writer.new })) }
    ensures err { IfErr result (λ fault. FailsTurn P.does C.tells arguments.now.server arguments.now.want fault
        (record { port = port.old; clock = clock.old; node = node.old; text = W.contents writer.old }) (record { port = port.new; clock = clock.new; node = node.new; text = W.contents writer.new })) }
{
    let seen = node_turn(port, clock, node, arguments.server, &arguments.want)?;
    tell(seen, writer).map_err(|_| Fault::Output)?;
    Ok(seen)
}

/// Prints an event, if it is one, at once.
fn tell<W: Write>(seen: Seen, writer: &mut W) -> io::Result<()>
    ensures told { OnOk result (Appends (W.contents writer.old) (W.contents writer.new) (seen_text seen)) }
    ensures nothing { seen ≡ Seen.Nothing → IsOk result }
{
    match seen {
        Seen::Nothing => return Ok(()),
        Seen::Granted(seconds) => writeln!(writer, "granted {seconds}")?,
        Seen::Renewed(seconds) => writeln!(writer, "renewed {seconds}")?,
        Seen::Refused(rcode) => writeln!(writer, "refused {rcode}")?,
        Seen::Lost => writeln!(writer, "lost")?,
    }
    writer.flush()
}

/// Prints whether the name is held at a moment, at once.
fn tell_end<W: Write>(
    node: &Node<SLOTS>,
    now: Moment,
    want: &Want,
    writer: &mut W,
) -> io::Result<()>
    ensures { OnOk result (Appends (W.contents writer.old) (W.contents writer.new)
        (held_text (holds node.now want.now.name now))) }
{
    match node.holds(now, &want.name.lend()) {
        Some(_) => writeln!(writer, "held")?,
        None => writeln!(writer, "not held")?,
    }
    writer.flush()
}
