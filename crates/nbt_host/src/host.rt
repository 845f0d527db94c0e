//! A host that holds names, turn by turn, and what it prints.

ghost use Rattle.std.specs.Prelude.{◌≡◌, ℕ, List, map, length, true, OnOk, OnErr, IfOk, IfErr, MatchResult};
ghost use Rattle.std.specs.List.{list_all};
ghost use Rattle.std.specs.Io.KnownBytes.{Appends};
ghost use Rattle.nbt_node.specs.Node.{NodeValue, slots_most};
ghost use Rattle.nbt_log.specs.Dates.{second_at};
ghost use Rattle.nbt_host.specs.Goals.{in_full, wanted, is_held};
ghost use Rattle.nbt_host.specs.Begin.{begin_text};
ghost use Rattle.nbt_host.specs.Host.{dates_of, terms_of, going_on_with, moved, Starts, CantPrint};
ghost use Rattle.nbt_host.specs.Hosting.{HostTurn, HostBreaks};
ghost use Rattle.nbt_host.specs.Inner.Through.{Through};
ghost use Rattle.nbt_host.specs.Turning.{PrintsTurn, prints_lines, TurnsWell, TurnsBadly, TurnIsCut};
ghost use Rattle.nbt_port.specs.Numbers.{forever};
ghost use Rattle.nbt_port.specs.Staying.{StaysUntil};
ghost use Rattle.nbt_host.specs.Staying.{TurnsOn, TurnsLast, HostingFails};
ghost use Rattle.nbt_host.specs.ReleaseLines.{PrintsEnding, GivesBack, GivingBackFails};
ghost use Rattle.nbt_host.specs.Running.{RunsHost, RunFails};

use crate::arguments::HostArguments;
use crate::asked::Asked;
use crate::begin::write_begin;
use crate::goal::Goal;
use crate::noting::noted_turn;
use crate::release_lines::write_endings;
use crate::releasing::give_back;
use crate::turn_lines::{has_lines, write_change, write_turn};
use crate::turning::start_again;
use crate::watching::{Look, Watch};
use nbt_client::{SLOTS, Want};
use nbt_lease::{Config, Moment};
use nbt_log::Dates;
use nbt_name::Addr;
use nbt_node::Node;
use nbt_port::{
    Cause, Clock, Device, FOREVER, Fault, Port, Turn, Turned, is_over, not_printed, print, stay_up,
};
use std::alloc::{AllocError, Global};
use std::io::Write;
use std::marker::Model;
use std::net::{Ipv4Addr, SocketAddrV4};
use std::{io, time};

/// What a turn showed beside the names.
#[derive(Clone, Copy, Debug, PartialEq, Eq)]
pub struct Shown {
    /// Whether the machine slept before it or in it.
    pub slept: bool,
    /// The moment after it.
    pub at: Moment,
}

/// A host: its names, its node, the server that it asks, and the clocks of its machine. A contract sees the clocks, what they told last,
/// the server, the names and the node.
#[derive(Drop)]
pub struct Host<K> {
    alloc: Global,
    watch: K,
    last: Look,
    asked: Asked,
    goals: Vec<Goal>,
    node: Node<SLOTS>,
}

impl<K> Model for Host<K> {
    ghost use Rattle.nbt_host.specs.Host.{HostingValue};

    ghost Value = { HostingValue K };

    ghost view = { λ h. record { watch = h.watch; last = h.last; asked = h.asked; host = record { goals = h.goals.items; node = h.node } } };
}

impl<K> Host<K> {
    /// What both clocks told last: when it started, or at the last look of its last turn.
    pub(crate) fn last(&self) -> Look
        ensures { result ≡ self.now.last }
    {
        self.last
    }

    /// The second since 1970 in which a moment lies, by what both clocks told last.
    fn second_at(&self, at: Moment) -> u64
        ensures { result ≡ second_at (dates_of self.now.last) at }
    {
        let dates = Dates {
            moment: self.last.at,
            time: self.last.day,
        };
        dates.second_at(at.get())
    }

    /// Prints which host asks which server for how many names, at once. Refused: `Memory` where memory is refused, and `Output` where
    /// the line can't be written, for which `errors` has the reason.
    pub(crate) fn tell_begin<W: Write, E: Write>(
        &self,
        at: Addr,
        server: Addr,
        writer: &mut W,
        errors: &mut E,
    ) -> Result<(), Fault>
        ensures ok { OnOk result (Appends (W.contents writer.old) (W.contents writer.new) (begin_text at server (length self.now.host.goals))) }
        ensures err { IfErr result (λ fault. CantPrint fault) }
    {
        let mut text = String::new(self.alloc);
        write_begin(at, server, self.goals.len(), &mut text)?;
        match print(text.as_str(), writer) {
            Ok(()) => Ok(()),
            Err(error) => Err(not_printed(error, errors)),
        }
    }

    /// Who is asked from the last look on, in place of a server that is silent.
    fn going_on_with(&self, arguments: &HostArguments) -> Option<Asked>
        ensures { result ≡ going_on_with arguments.now self.now }
    {
        self.asked.next(arguments, self.last.at)
    }

    /// Asks another server, if the one before is silent: the host is from its last look on as one whose machine crashed and started.
    fn move_on(&mut self, arguments: &HostArguments)
        ensures { self.new ≡ moved arguments.now self.old }
    {
        let Some(asked) = self.going_on_with(arguments) else {
            return;
        };
        let server = asked.server;
        let config = arguments.config;
        let goals = self.goals.as_mut_slice();
        start_again(&mut self.node, goals, server, config, &self.last);
        self.asked = asked;
    }

    /// Prints what a turn showed, if anything, at once, and last that another server is asked from then on, if one is. Where there is
    /// nothing it isn't refused.
    fn tell_turn<W: Write, E: Write>(
        &self,
        arguments: &HostArguments,
        shown: &Shown,
        writer: &mut W,
        errors: &mut E,
    ) -> Result<(), Fault>
        ensures ok { OnOk result (PrintsTurn arguments.now shown.now self.now (W.contents writer.old) (W.contents writer.new)) }
        ensures err { IfErr result (λ fault. CantPrint fault × (prints_lines arguments.now shown.now self.now ≡ true)) }
    {
        if !self.prints_lines(arguments, shown) {
            return Ok(());
        }
        let second = self.second_at(shown.at);
        let log = arguments.log;
        let server = self.asked.server;
        let next = self.going_on_with(arguments);
        let mut text = String::new(self.alloc);
        write_turn(
            second,
            log,
            server,
            shown.slept,
            self.goals.as_slice(),
            &mut text,
        )?;
        write_change(second, arguments.config.longest(), server, next, &mut text)?;
        match print(text.as_str(), writer) {
            Ok(()) => Ok(()),
            Err(error) => Err(not_printed(error, errors)),
        }
    }

    /// Whether something is printed of a turn.
    fn prints_lines(&self, arguments: &HostArguments, shown: &Shown) -> bool
        ensures { result ≡ prints_lines arguments.now shown.now self.now }
    {
        self.going_on_with(arguments).is_some()
            || has_lines(arguments.log, shown.slept, self.goals.as_slice())
    }

    /// Prints what came of giving the names back, at once.
    fn tell_ending<W: Write, E: Write>(
        &self,
        at: Moment,
        writer: &mut W,
        errors: &mut E,
    ) -> Result<(), Fault>
        ensures ok { OnOk result (PrintsEnding at self.now.last self.now.host.goals (W.contents writer.old) (W.contents writer.new)) }
        ensures err { IfErr result (λ fault. CantPrint fault) }
    {
        let second = self.second_at(at);
        let mut text = String::new(self.alloc);
        write_endings(second, self.goals.as_slice(), &mut text)?;
        match print(text.as_str(), writer) {
            Ok(()) => Ok(()),
            Err(error) => Err(not_printed(error, errors)),
        }
    }

    /// Whether all names are held at a moment.
    fn holds_all(&self, now: Moment) -> bool
        ensures { result ≡ list_all (is_held self.now.host.node now) self.now.host.goals }
    {
        are_held(&self.node, now, self.goals.as_slice())
    }
}

impl<K: Watch + Drop> Host<K> {
    /// A host on a machine with these clocks, which knows nothing of its names, and asks the first of its servers. It starts at the moment
    /// of a first look at them, and rests first; its ids count from [`Look::first_id`]. Refused where memory is.
    pub fn start(
        alloc: Global,
        mut watch: K,
        arguments: &HostArguments,
    ) -> Result<Host<K>, AllocError>
        ensures { IfOk result (λ host. Starts K.looks arguments.now watch host) }
    {
        let goals = goals_of(alloc, arguments.config, arguments.wants.as_slice())?;
        let last = watch.look();
        let node = Node::start_from(
            arguments.bind,
            arguments.server,
            arguments.config,
            last.at,
            last.first_id(),
        );
        Ok(Host {
            alloc,
            watch,
            last,
            asked: Asked::begin(arguments.server, 0, last.at),
            goals,
            node,
        })
    }
}

impl<K: Clock + Watch> Host<K> {
    /// One turn at the server that is asked, as `host_turn` does it, and whether that one was heard or asked in it.
    fn turn<P: Port>(&mut self, port: &mut P, arguments: &HostArguments) -> Result<(), Device>
        ensures ok { OnOk result (Through HostTurn P.does K.looks arguments.now port.old self.old port.new self.new) }
        ensures err { OnErr result (Through HostBreaks P.does K.looks arguments.now port.old self.old port.new self.new) }
    {
        let (noted, turned) = noted_turn(
            port,
            &mut self.watch,
            &mut self.node,
            self.asked.server,
            arguments.config,
            self.goals.as_mut_slice(),
            &mut self.last,
        );
        self.asked = self.asked.after_turn(noted, self.last.at);
        turned
    }

    /// What the turn showed. The steady clock is read.
    fn shown(&mut self) -> Shown
        ensures told { K.tells self.old.watch result.at self.new.watch }
        ensures slept { result.slept ≡ self.old.last.slept }
        ensures rest { self.new ≡ record self.old { watch = self.new.watch } }
    {
        Shown {
            slept: self.last.slept,
            at: self.watch.now(),
        }
    }

    /// One turn, and what is printed of it, also where a call of the port fails; then another server is asked, if the one before is
    /// silent. Returns what it showed, or `Device` where a call failed. Refused: `Output` where the lines can't be written, for which `errors` has the reason, and `Memory` where memory is refused
    /// for them.
    fn go<P: Port, W: Write, E: Write>(
        &mut self,
        port: &mut P,
        arguments: &HostArguments,
        writer: &mut W,
        errors: &mut E,
    ) -> Result<Result<Shown, Device>, Fault>
        ensures ok { IfOk result (λ turned. MatchResult turned
            (λ shown. TurnsWell P.does K.tells K.looks arguments.now
            (record { port = port.old; host = self.old; text = W.contents writer.old }) shown (record { port = port.new; host = self.new; text = W.contents writer.new }))
            (λ _. TurnsBadly P.does K.tells K.looks arguments.now
            (record { port = port.old; host = self.old; text = W.contents writer.old }) (record { port = port.new; host = self.new; text = W.contents writer.new }))) }
        ensures err { IfErr result (λ fault. CantPrint fault × TurnIsCut P.does K.tells K.looks arguments.now
            (record { port = port.old; host = self.old; text = W.contents writer.old }) (record { port = port.new; host = self.new; text = W.contents writer.new })) }
    {
        let turned = self.turn(port, arguments);
        let shown = self.shown();
        self.tell_turn(arguments, &shown, writer, errors)?;
        self.move_on(arguments);
        match turned {
            Ok(_) => Ok(Ok(shown)),
            Err(failure) => Ok(Err(failure)),
        }
    }

    /// Goes through turns until the moment `until`, if there is one, and through 2^61 of them at most, and stays up when the port
    /// fails. What each turn shows is printed after it, at once. After a turn that failed it says so in `errors`, the first time of a
    /// row, waits 100 ms by the machine's clock, and goes on from where the failure left it; when the row is over, it says how many
    /// failed. Refused: `Device` at the hundredth failure in a row; `Output` where what a turn shows can't be written; `Memory` where
    /// memory is refused for it; each at once. What can't be written to `errors` is passed over.
    pub fn stay<P: Port, M: time::Clock, W: Write, E: Write>(
        &mut self,
        port: &mut P,
        arguments: &HostArguments,
        until: Option<Moment>,
        machine: &M,
        writer: &mut W,
        errors: &mut E,
    ) -> Result<(), Fault>
        ensures ok { OnOk result (StaysUntil (TurnsOn P.does K.tells K.looks arguments.now until) (TurnsBadly P.does K.tells K.looks arguments.now) (TurnsLast P.does K.tells K.looks arguments.now until) forever
            (record { port = port.old; host = self.old; text = W.contents writer.old }) (record { port = port.new; host = self.new; text = W.contents writer.new })) }
        ensures err { IfErr result (λ fault. HostingFails P.does K.tells K.looks arguments.now until fault
            (record { port = port.old; host = self.old; text = W.contents writer.old }) (record { port = port.new; host = self.new; text = W.contents writer.new })) }
    {
        let mut turn = StayingTurn {
            host: self,
            port,
            arguments,
            until,
            writer,
            lost: false,
        };
        stay_up(&mut turn, FOREVER, machine, errors)
    }

    /// Gives all names back to the server that is asked, as [`give_back`] does, and prints what came of each, at once, also where the port failed. Refused:
    /// `Device` at the first call of the port that fails; `Output`, for which `errors` has the reason, and `Memory` where the lines can't be
    /// printed.
    pub fn end<P: Port, W: Write, E: Write>(
        &mut self,
        port: &mut P,
        arguments: &HostArguments,
        writer: &mut W,
        errors: &mut E,
    ) -> Result<(), Fault>
        ensures ok { OnOk result (GivesBack P.does K.tells K.looks (terms_of arguments.now self.old.asked)
            (record { port = port.old; host = self.old; text = W.contents writer.old }) (record { port = port.new; host = self.new; text = W.contents writer.new })) }
        ensures err { IfErr result (λ fault. GivingBackFails P.does K.tells K.looks (terms_of arguments.now self.old.asked) fault
            (record { port = port.old; host = self.old; text = W.contents writer.old }) (record { port = port.new; host = self.new; text = W.contents writer.new })) }
    {
        let present = self.asked.server;
        let given = give_back(
            port,
            &mut self.watch,
            &mut self.node,
            present,
            arguments.config,
            self.goals.as_mut_slice(),
            &mut self.last,
            FOREVER,
        );
        let at = self.watch.now();
        self.tell_ending(at, writer, errors)?;
        given?;
        Ok(())
    }

    /// Stays up until the moment `until`, if there is one, and then gives all names back. Returns whether all were held when its time
    /// ended, before that. Refused as [`Host::stay`] and [`Host::end`] are.
    pub fn run<P: Port, M: time::Clock, W: Write, E: Write>(
        &mut self,
        port: &mut P,
        arguments: &HostArguments,
        until: Option<Moment>,
        machine: &M,
        writer: &mut W,
        errors: &mut E,
    ) -> Result<bool, Fault>
        ensures ok { IfOk result (λ all. RunsHost P.does K.tells K.looks arguments.now until all
            (record { port = port.old; host = self.old; text = W.contents writer.old }) (record { port = port.new; host = self.new; text = W.contents writer.new })) }
        ensures err { IfErr result (λ fault. RunFails P.does K.tells K.looks arguments.now until fault
            (record { port = port.old; host = self.old; text = W.contents writer.old }) (record { port = port.new; host = self.new; text = W.contents writer.new })) }
    {
        self.stay(port, arguments, until, machine, writer, errors)?;
        let now = self.watch.now();
        let all = self.holds_all(now);
        self.end(port, arguments, writer, errors)?;
        Ok(all)
    }
}

/// One turn of a host that stays up.
#[derive(Drop)]
struct StayingTurn<'h, 'p, 'a, 'w, P, K, W> {
    host: &'h mut Host<K>,
    port: &'p mut P,
    arguments: &'a HostArguments,
    until: Option<Moment>,
    writer: &'w mut W,
    /// Whether the last request to the server had no route, which was said.
    lost: bool,
}

impl<P: Port, K: Clock + Watch, W: Write> Turn for StayingTurn<'_, '_, '_, '_, P, K, W> {
    ghost use Rattle.std.specs.Prelude.{[], ◌∷◌, Option};
    ghost use Rattle.nbt_host.specs.Host.{Running};
    ghost use Rattle.nbt_host.specs.Staying.{IsCutBy};
    ghost use Rattle.nbt_host.specs.declared.arguments.HostArguments.{HostArguments};
    ghost use Rattle.nbt_host.specs.declared.host.Shown.{Shown};

    ghost State = { Running P K };

    ghost Shown = { Shown };

    ghost Fixed = { HostArguments × Option ℕ × List ℕ };

    ghost state = { λ t. record { port = t.port.now; host = t.host.now; text = W.contents t.writer.now } };

    ghost fixed = { λ t. (t.arguments.now, t.until, t.host.ghost_name ∷ t.port.ghost_name ∷ t.writer.ghost_name ∷ []) };

    ghost turns = { λ f. TurnsOn P.does K.tells K.looks f.0 f.1 };

    ghost breaks = { λ f. TurnsBadly P.does K.tells K.looks f.0 };

    ghost last = { λ f. TurnsLast P.does K.tells K.looks f.0 f.1 };

    ghost cuts = { λ f. IsCutBy P.does K.tells K.looks f.0 };

    fn take<E: Write>(&mut self, errors: &mut E) -> Turned {
        let went = self.host.go(self.port, self.arguments, self.writer, errors);
        self.lost = tell_lost(self.lost, self.port.lost(), self.arguments.server, errors);
        match went {
            Ok(Ok(shown)) if is_over(&self.until, shown.at) => Turned::Last,
            Ok(Ok(_)) => Turned::Well,
            Ok(Err(_)) => Turned::Failed(self.port.cause()),
            Err(fault) => Turned::CutOff(fault),
        }
    }
}

/// Says that requests to the server have no route, and why, where that is new, and that they have one again. Returns whether they have
/// none. A failure to write it is ignored.
fn tell_lost<E: Write>(was_lost: bool, lost: Option<Cause>, server: Addr, errors: &mut E) -> bool {
    match lost {
        Some(cause) if !was_lost => cause.tell("; going on", errors),
        None if was_lost => {
            let _ = tell_found(server, errors);
        }
        _ => {}
    }
    lost.is_some()
}

fn tell_found<E: Write>(server: Addr, errors: &mut E) -> io::Result<()> {
    let end = SocketAddrV4::new(Ipv4Addr::from_bits(server.ip), server.port);
    writeln!(errors, "nbt: {end} has a route again")?;
    errors.flush()
}

/// What a host keeps of its names when it starts.
fn goals_of(alloc: Global, config: Config, wants: &[Want]) -> Result<Vec<Goal>, AllocError>
    ensures { IfOk result (λ goals. goals.items ≡ map (wanted config) wants.now) }
{
    let mut goals = Vec::new(alloc);
    for want in wants {
        goals.push(Goal::new(in_full(config, want)))?;
    }
    Ok(goals)
}

/// What is wanted, by its seconds: TTL 0 stands for the longest lease, which some servers take for none.
fn in_full(config: Config, want: &Want) -> Want
    ensures { result ≡ in_full config want.now }
{
    Want {
        name: want.name.copy(),
        kind: want.kind,
        ttl: config.granted(want.ttl),
    }
}

/// Whether all names are held at a moment.
fn are_held<const N: usize>(node: &Node<N>, now: Moment, goals: &[Goal]) -> bool
    ensures { result ≡ list_all (is_held node.now now) goals.now }
{
    for goal in goals {
        if !is_held(node, now, goal) {
            return false;
        }
    }
    true
}

/// Whether a name is held at a moment.
fn is_held<const N: usize>(node: &Node<N>, now: Moment, goal: &Goal) -> bool
    ensures { result ≡ is_held node.now now goal.now }
{
    node.holds(now, &goal.want.name.lend()).is_some()
}
