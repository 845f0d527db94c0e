//! A name server over UDP and the machine's clock.

ghost use Rattle.std.specs.Prelude.{◌≡◌, ◌≢◌, ℕ, OnOk, IfErr};
ghost use Rattle.std.specs.Io.KnownBytes.{Appends};
ghost use Rattle.nbt_port.specs.Staying.{StaysUntil, EndsEarly};
ghost use Rattle.nbt_bench.specs.Serve.{ServesTurn, BreaksServing, RunsServer, ServerFails, ServerIsCut, RunsServerHere, ServerFailsHere, ServerIsCutHere, ServesFor, FailsFor, IsCutFor, counts_text};

use crate::port::bound_port;
use arrayvec::ArrayVec;
use nbt_lease::Config;
use nbt_name::Addr;
use nbt_port::{Clock, FOREVER, Fault, Port, Turn, Turned, readable_clock, stay_up, tell_end_of};
use nbt_serve::{Counts, serve_turn, serve_turns};
use nbt_server::Server;
use std::alloc::Global;
use std::io::Write;
use std::net::{Ipv4Addr, Net, SocketAddrV4};
use std::{io, time};

/// What a server is to do.
#[derive(Clone, Copy, Debug, PartialEq, Eq)]
pub struct ServeArguments {
    /// Its own address and port.
    pub bind: Addr,
    /// The limits.
    pub config: Config,
    /// How many turns; `None` where there is no end.
    pub turns: Option<u64>,
}

/// Runs a name server on a UDP port of this machine, over its clock. With a number of turns it goes through them, and prints
/// what was done, after the last. Where there is no end, it first prints a line that says that it has begun, and then stays
/// up for 2^61 turns, also where the port fails: it says so in `errors`, waits 100 ms after each turn that failed, and goes on
/// with the leases that it has. Refused: `NoPort` where the port can't be bound; `NoClock` where the clock can't be read at
/// first; `Device` where the port fails, with a number of turns at the first call that does, and with no end at the hundredth
/// turn in a row that fails; `Output` where the line can't be written to `writer`, with a number of turns after the last of
/// them, and with no end before the first. Of each but the last a line in `errors` says which call of the machine failed, for
/// which address, and why. What can't be written to `errors` is passed over. Refused memory costs a datagram, and is no reason to
/// end: it isn't refused with `Memory`.
pub fn run_server<M: Net + time::Clock, W: Write, E: Write>(
    machine: &M,
    alloc: Global,
    arguments: &ServeArguments,
    writer: &mut W,
    errors: &mut E,
) -> Result<(), Fault>
    ensures ok { OnOk result (RunsServerHere arguments.now (W.contents writer.old) (W.contents writer.new)) }
    ensures device { result ≡ Err Fault.Device → ServerFailsHere arguments.now (W.contents writer.old) (W.contents writer.new) }
    ensures output { result ≡ Err Fault.Output → ServerIsCutHere arguments.now }
    ensures memory { result ≢ Err Fault.Memory }
{
    let mut port = bound_port(machine, arguments.bind, errors)?;
    let mut clock = readable_clock(machine, arguments.bind, errors)?;
    let served = serve(
        alloc, &mut port, &mut clock, arguments, writer, machine, errors,
    );
    tell_end_of(served.err(), port.cause(), errors);
    served
}

/// Serves over a port and a clock, and prints what was done; with no end, that it has begun, and then it stays up.
pub fn serve<P: Port, C: Clock, W: Write, M: time::Clock, E: Write>(
    alloc: Global,
    port: &mut P,
    clock: &mut C,
    arguments: &ServeArguments,
    writer: &mut W,
    machine: &M,
    errors: &mut E,
) -> Result<(), Fault>
    ensures ok { OnOk result (RunsServer P.does C.tells arguments.now
        port.old clock.old (W.contents writer.old) port.new clock.new (W.contents writer.new)) }
    ensures device { result ≡ Err Fault.Device → ServerFails P.does C.tells arguments.now
        port.old clock.old (W.contents writer.old) port.new clock.new (W.contents writer.new) }
    ensures output { result ≡ Err Fault.Output → ServerIsCut P.does C.tells arguments.now port.old clock.old port.new clock.new }
    ensures memory { result ≢ Err Fault.Memory }
{
    let start = clock.now();
    let mut server = Server::start(alloc, arguments.config, start);
    serve_for(port, clock, &mut server, arguments, writer, machine, errors)
}

/// The server goes through its turns, or stays up, and prints what is to be printed of it.
fn serve_for<P: Port, C: Clock, W: Write, M: time::Clock, E: Write>(
    port: &mut P,
    clock: &mut C,
    server: &mut Server,
    arguments: &ServeArguments,
    writer: &mut W,
    machine: &M,
    errors: &mut E,
) -> Result<(), Fault>
    ensures ok { OnOk result (ServesFor P.does C.tells arguments.now.turns (record { port = port.old; clock = clock.old; server = server.old }) (W.contents writer.old)
        (record { port = port.new; clock = clock.new; server = server.new }) (W.contents writer.new)) }
    ensures device { result ≡ Err Fault.Device → FailsFor P.does C.tells arguments.now.turns (record { port = port.old; clock = clock.old; server = server.old }) (W.contents writer.old)
        (record { port = port.new; clock = clock.new; server = server.new }) (W.contents writer.new) }
    ensures output { result ≡ Err Fault.Output → IsCutFor P.does C.tells arguments.now.turns (record { port = port.old; clock = clock.old; server = server.old })
        (record { port = port.new; clock = clock.new; server = server.new }) }
    ensures memory { result ≢ Err Fault.Memory }
{
    match arguments.turns {
        Some(turns) => {
            let counts = serve_turns(port, clock, server, turns)?;
            print_counts(counts, writer).map_err(|_| Fault::Output)?;
            Ok(())
        }
        None => {
            print_begin(arguments, writer).map_err(|_| Fault::Output)?;
            serve_on(port, clock, server, FOREVER, machine, errors)
        }
    }
}

/// The server goes through `turns` turns, and stays up as [`stay_up`] says.
fn serve_on<P: Port, C: Clock, M: time::Clock, E: Write>(
    port: &mut P,
    clock: &mut C,
    server: &mut Server,
    turns: u64,
    machine: &M,
    errors: &mut E,
) -> Result<(), Fault>
    ensures ok { OnOk result (StaysUntil (ServesTurn P.does C.tells) (BreaksServing P.does C.tells) (λ _ _. ⊥) turns
        (record { port = port.old; clock = clock.old; server = server.old }) (record { port = port.new; clock = clock.new; server = server.new })) }
    ensures err { IfErr result (λ fault. EndsEarly (ServesTurn P.does C.tells) (BreaksServing P.does C.tells) (λ _ _ _. ⊥) turns fault
        (record { port = port.old; clock = clock.old; server = server.old }) (record { port = port.new; clock = clock.new; server = server.new })) }
{
    let mut turn = ServerTurn {
        port,
        clock,
        server,
        octets: ArrayVec::new(),
        reply: ArrayVec::new(),
    };
    stay_up(&mut turn, turns, machine, errors)
}

/// One turn of a server that stays up.
#[derive(Drop)]
struct ServerTurn<'a, P, C> {
    port: &'a mut P,
    clock: &'a mut C,
    server: &'a mut Server,
    octets: ArrayVec<u8, 2048>,
    reply: ArrayVec<u8, 576>,
}

impl<P: Port, C: Clock> Turn for ServerTurn<'_, P, C> {
    ghost use Rattle.std.specs.Prelude.{List, [], ◌∷◌};
    ghost use Rattle.nbt_serve.specs.declared.serving.Counts.{Counts};
    ghost use Rattle.nbt_bench.specs.Serve.{Serving};

    ghost State = { Serving P C };

    ghost Shown = { Counts };

    ghost Fixed = { List ℕ };

    ghost state = { λ t. record { port = t.port.now; clock = t.clock.now; server = t.server.now } };

    ghost fixed = { λ t. t.port.ghost_name ∷ t.clock.ghost_name ∷ t.server.ghost_name ∷ [] };

    ghost turns = { λ _. ServesTurn P.does C.tells };

    ghost breaks = { λ _. BreaksServing P.does C.tells };

    ghost last = { λ _ _ _. ⊥ };

    ghost cuts = { λ _ _ _ _. ⊥ };

    fn take<E: Write>(&mut self, _errors: &mut E) -> Turned {
        match serve_turn(
            self.port,
            self.clock,
            self.server,
            &mut self.octets,
            &mut self.reply,
        ) {
            Ok(_) => Turned::Well,
            Err(_) => Turned::Failed(self.port.cause()),
        }
    }
}

/// Prints what was done, at once.
fn print_counts<W: Write>(counts: Counts, writer: &mut W) -> io::Result<()>
    ensures { OnOk result (Appends (W.contents writer.old) (W.contents writer.new) (counts_text counts)) }
{
    let Counts {
        receives,
        replies,
        lost,
    } = counts;
    writeln!(writer, "turns {receives} replies {replies} lost {lost}")?;
    writer.flush()
}

/// Prints where the server is, and for how long it will be silent, at once.
fn print_begin<W: Write>(arguments: &ServeArguments, writer: &mut W) -> io::Result<()> {
    let bind = SocketAddrV4::new(Ipv4Addr::from_bits(arguments.bind.ip), arguments.bind.port);
    let seconds = arguments.config.longest();
    writeln!(writer, "serving {bind}, silent for {seconds} s")?;
    writer.flush()
}
