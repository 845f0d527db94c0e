//! The port of a server that asks, and what is done between two of its turns.

ghost use Rattle.std.specs.Prelude.{◌≡◌, ◌≤◌, ◌↔◌, max, Some, IfNone, IfSome, IsTrue, true, false, List, ℕ};
ghost use Rattle.nbt_name.specs.declared.addr.Kind.TheVariants.{Unique};
ghost use Rattle.nbt_packet.specs.Message.{registered};
ghost use Rattle.nbt_packet.specs.Text.{text};
ghost use Rattle.nbt_server.specs.Serving.{active_error};
ghost use Rattle.nbt_server.specs.declared.outcome.Outcome.TheVariants.{Released};
ghost use Rattle.nbt_confirm.specs.Deciding.{IsHeldBack};
ghost use Rattle.nbt_confirm.specs.declared.request.Request.{Request as Waiting};
ghost use Rattle.nbt_confirm.specs.Waiting.{waits_most};
ghost use Rattle.nbt_waits.specs.Lapsing.{Follows, Wakes};
ghost use Rattle.nbt_waits.specs.Looking.{aside};
ghost use Rattle.nbt_waits.specs.Settling.{Serves, ServesSilence, holds_back};
ghost use Rattle.nbt_asking.specs.Attending.{Attends, Begins, BeginsNone, DoesAll, DoesSo, GivesUp, IsActive, LooksAside, LooksAtClaim, LooksAtOutcome, LooksAtResponse, LooksAtTurn, Refuses, ReleasesNone, Repeats, exactly, most, tallied};
ghost use Rattle.nbt_asking.specs.Desk.{new_desk};
ghost use Rattle.nbt_asking.specs.Inner.Doing.{IsIdle, IsLetBe, One};
ghost use Rattle.nbt_asking.specs.Steps.{AsMany, NoneIsLeft};

use crate::desk::Desk;
use crate::flags::TellsFlags;
use crate::ids::Ids;
use crate::notes::Notes;
use crate::sending::{leave, send_back, send_query};
use arrayvec::ArrayVec;
use nbt_confirm::{Came, Machine, Silence, WAITS_MOST, held_back};
use nbt_lease::{Moment, Table};
use nbt_log::Entry;
use nbt_name::Kind;
use nbt_packet::flags::is_request;
use nbt_packet::{Message, Registration, write};
use nbt_port::{Cause, Device, OwnReplies, Port, Route};
use nbt_server::{Claim, Outcome, Refusal, Server};
use nbt_waits::{Asking, Reply, Settled, claim_in};
use std::io::Write;
use std::marker::Model;

/// How many things of a kind are done between two turns at most (our profile).
const MOST: usize = 16;

/// RCODE ACT_ERR: another has the name (RFC 1002 section 4.2.6).
const ACTIVE: u8 = 6;

/// The port of a server that asks, over another one. Between two turns it has to be called by [`AskingPort::attend`].
#[derive(Drop)]
pub struct AskingPort<P, I> {
    /// The port beneath.
    pub beneath: P,
    /// What such a server has beside it.
    pub desk: Desk,
    /// What came of requests.
    pub notes: Notes,
    ids: I,
    out: ArrayVec<u8, 576>,
}

impl<P, I> Model for AskingPort<P, I> {
    ghost use Rattle.nbt_asking.specs.Port.{AskingPortValue};

    ghost Value = { AskingPortValue P I };

    ghost view = { λ p. record { port = p.beneath; ids = p.ids; desk = p.desk; tally = p.notes } };
}

impl<P, I> AskingPort<P, I> {
    /// A port over this one, with a source of ids, and the notes of what comes.
    pub fn new(beneath: P, ids: I, asking: Asking, notes: Notes) -> AskingPort<P, I>
        ensures { result ≡ record { port = beneath; ids = ids; desk = new_desk asking; tally = notes } }
    {
        AskingPort {
            beneath,
            desk: Desk::new(asking),
            notes,
            ids,
            out: ArrayVec::new(),
        }
    }

    /// What was done is noted, and counted.
    fn note(&mut self, settled: Settled)
        ensures { self.new ≡ record self.old { tally = tallied settled.note self.old.tally } }
    {
        if let Some(note) = settled.note {
            self.notes.put(note);
        }
    }
}

impl<P: Port + TellsFlags, I: Ids> AskingPort<P, I> {
    /// What is done between two turns, at this moment, after a turn in which the server did this with these octets; `entry` is `None` where
    /// no datagram came to it. What was set aside is looked at, a refusal is held back whose request waits, and each query and reply leaves
    /// that is due. The server stays as it is. Where the request waits, `entry` is `None` afterwards, since nothing was refused yet. A send
    /// that fails is a datagram that was lost.
    pub fn attend(&mut self, server: &Server, at: Moment, octets: &[u8], entry: &mut Option<Entry>)
        ensures { Attends P.does I.draws server.now at octets.now entry.old entry.new self.old self.new }
    {
        let now = later(at, server.last());
        self.desk.at = now;
        if self.is_idle() && is_let_be(entry) {
            return;
        }
        let table = server.table();
        self.look_aside(table, now);
        self.look_at_turn(table, now, octets, entry);
        self.give_up(table, now);
        self.desk.asking.further.sweep(now);
        self.wake(table, now);
        self.follow(table, now);
        self.repeat(now);
        self.begin(now);
    }

    /// Whether nothing is set aside or waits, and no address is a further one.
    fn is_idle(&self) -> bool
        ensures { IsTrue result → IsIdle self.now.desk }
    {
        !self.desk.aside.is_there() && self.desk.asking.is_idle()
    }

    /// Looks at what was set aside.
    fn look_aside(&mut self, table: &Table, now: Moment)
        requires { table.now.last ≤ now }
        ensures { LooksAside P.does table.now now self.old self.new }
    {
        if !self.desk.aside.is_there() {
            return;
        }
        let came = self.desk.aside.came();
        if is_request(came.flags) {
            self.look_at_claim(table, now, came);
        } else {
            self.look_at_response(table, now, came);
        }
    }

    /// Looks at a claim that was set aside and came so: its sender is asked first, or it comes to the server.
    fn look_at_claim(&mut self, table: &Table, now: Moment, came: Came)
        requires { table.now.last ≤ now }
        ensures { (octets : List ℕ) → self.old.desk.aside ≡ aside came octets → LooksAtClaim table.now now came octets self.old self.new }
    {
        match self
            .desk
            .asking
            .look(table, now, came, self.desk.aside.octets())
        {
            Some(settled) => {
                self.desk.aside.let_go();
                self.note(settled);
            }
            None => self.desk.aside.come_back(),
        }
    }

    /// Hears a response that was set aside and came so, and serves the requests that waited for it.
    fn look_at_response(&mut self, table: &Table, now: Moment, came: Came)
        requires { table.now.last ≤ now }
        ensures { (octets : List ℕ) → self.old.desk.aside ≡ aside came octets → LooksAtResponse P.does table.now now came octets self.old self.new }
    {
        let machine = self
            .desk
            .asking
            .waits
            .hear(came.from, self.desk.aside.octets());
        self.desk.aside.let_go();
        if let Some(machine) = machine {
            self.serve(table, now, &machine);
        }
    }

    /// Serves the requests that waited for what a machine said.
    fn serve(&mut self, table: &Table, now: Moment, machine: &Machine)
        requires { table.now.last ≤ now }
        ensures { DoesAll waits_most P.does (Serves table.now now machine.now) self.old self.new }
    {
        for _ in 0..WAITS_MOST {
            if !self.serve_one(table, now, machine) {
                return;
            }
        }
    }

    /// Serves the first of them. Returns whether there was one.
    fn serve_one(&mut self, table: &Table, now: Moment, machine: &Machine) -> bool
        requires { table.now.last ≤ now }
        ensures { One (DoesSo P.does (Serves table.now now machine.now)) (NoneIsLeft (DoesSo P.does (Serves table.now now machine.now))) result self.old self.new }
    {
        let Some(settled) = self.desk.asking.serve(table, now, machine, &mut self.out) else {
            return false;
        };
        leave(&mut self.beneath, settled.leaving, self.out.as_slice());
        self.note(settled);
        true
    }

    /// Serves the requests that waited for one who didn't answer.
    fn serve_silence(&mut self, table: &Table, now: Moment, silence: &Silence)
        requires { table.now.last ≤ now }
        ensures { DoesAll waits_most P.does (ServesSilence table.now now silence.now) self.old self.new }
    {
        for _ in 0..WAITS_MOST {
            if !self.serve_one_silent(table, now, silence) {
                return;
            }
        }
    }

    /// Serves the first of them. Returns whether there was one.
    fn serve_one_silent(&mut self, table: &Table, now: Moment, silence: &Silence) -> bool
        requires { table.now.last ≤ now }
        ensures { One (DoesSo P.does (ServesSilence table.now now silence.now)) (NoneIsLeft (DoesSo P.does (ServesSilence table.now now silence.now))) result self.old self.new }
    {
        let Some(settled) = self
            .desk
            .asking
            .serve_silence(table, now, silence, &mut self.out)
        else {
            return false;
        };
        leave(&mut self.beneath, settled.leaving, self.out.as_slice());
        self.note(settled);
        true
    }

    /// Gives up inquiries that nobody answered.
    fn give_up(&mut self, table: &Table, now: Moment)
        requires { table.now.last ≤ now }
        ensures { AsMany most (GivesUp P.does table.now now) (NoneIsLeft (GivesUp P.does table.now now)) self.old self.new }
    {
        for _ in 0..MOST {
            if !self.give_up_one(table, now) {
                return;
            }
        }
    }

    /// Gives the first of them up. Returns whether there was one.
    fn give_up_one(&mut self, table: &Table, now: Moment) -> bool
        requires { table.now.last ≤ now }
        ensures { One (GivesUp P.does table.now now) (NoneIsLeft (GivesUp P.does table.now now)) result self.old self.new }
    {
        let Some(silence) = self.desk.asking.waits.give_up(now) else {
            return false;
        };
        self.serve_silence(table, now, &silence);
        true
    }

    /// Wakes requests that waited for a lease's end.
    fn wake(&mut self, table: &Table, now: Moment)
        requires { table.now.last ≤ now }
        ensures { DoesAll most P.does (Wakes table.now now) self.old self.new }
    {
        for _ in 0..MOST {
            if !self.wake_one(table, now) {
                return;
            }
        }
    }

    /// Wakes the first of them. Returns whether there was one.
    fn wake_one(&mut self, table: &Table, now: Moment) -> bool
        requires { table.now.last ≤ now }
        ensures { One (DoesSo P.does (Wakes table.now now)) (NoneIsLeft (DoesSo P.does (Wakes table.now now))) result self.old self.new }
    {
        let Some(settled) = self.desk.asking.wake(table, now) else {
            return false;
        };
        self.note(settled);
        true
    }

    /// Follows leases that were renewed or are over.
    fn follow(&mut self, table: &Table, now: Moment)
        requires { table.now.last ≤ now }
        ensures { DoesAll most P.does (Follows table.now now) self.old self.new }
    {
        for _ in 0..MOST {
            if !self.follow_one(table, now) {
                return;
            }
        }
    }

    /// Follows the first of them. Returns whether there was one.
    fn follow_one(&mut self, table: &Table, now: Moment) -> bool
        requires { table.now.last ≤ now }
        ensures { One (DoesSo P.does (Follows table.now now)) (NoneIsLeft (DoesSo P.does (Follows table.now now))) result self.old self.new }
    {
        let Some(settled) = self.desk.asking.follow_lease(table, now) else {
            return false;
        };
        self.note(settled);
        true
    }

    /// Looks at what the server did in its turn.
    fn look_at_turn(&mut self, table: &Table, now: Moment, octets: &[u8], entry: &mut Option<Entry>)
        requires { table.now.last ≤ now }
        ensures { LooksAtTurn P.does table.now now octets.now entry.old entry.new self.old self.new }
    {
        let Some(done) = &*entry else {
            return;
        };
        let mut came = self.desk.last;
        came.from = done.from;
        if self.look_at_outcome(table, now, came, octets, &done.outcome) {
            *entry = None;
        }
    }

    /// Looks at what the server did with octets that came so. Returns whether that is held back.
    fn look_at_outcome(
        &mut self,
        table: &Table,
        now: Moment,
        came: Came,
        octets: &[u8],
        outcome: &Outcome,
    ) -> bool
        requires { table.now.last ≤ now }
        ensures { LooksAtOutcome P.does table.now now came octets.now outcome.now self.old result self.new }
    {
        if is_active(outcome) {
            return self.hold_back(table, now, came, octets, outcome);
        }
        let Some(claim) = released_in(outcome) else {
            return false;
        };
        let settled = self.desk.asking.pass_on(now, &claim.name, claim.addr);
        self.note(settled);
        false
    }

    /// Holds a refusal back whose request waits. Returns whether it does; else the refusal leaves now.
    fn hold_back(
        &mut self,
        table: &Table,
        now: Moment,
        came: Came,
        octets: &[u8],
        outcome: &Outcome,
    ) -> bool
        requires { table.now.last ≤ now }
        ensures held { result ≡ true → (r : Waiting) × IsHeldBack table.now now came octets.now outcome.now r × DoesSo P.does (exactly (holds_back table.now now r)) self.old self.new }
        ensures refused { result ≡ false → ((r : Waiting) → ¬ IsHeldBack table.now now came octets.now outcome.now r) × Refuses P.does came octets.now self.old self.new }
    {
        let Some(request) = held_back(table, now, came, octets, outcome) else {
            self.refuse(came, octets);
            return false;
        };
        let settled = self
            .desk
            .asking
            .hold_back(table, now, request, &mut self.out);
        leave(&mut self.beneath, settled.leaving, self.out.as_slice());
        self.note(settled);
        true
    }

    /// Sends the refusal of a unique name that a group has, which was held back.
    fn refuse(&mut self, came: Came, octets: &[u8])
        ensures { Refuses P.does came octets.now self.old self.new }
    {
        let Some(claim) = claim_in(octets) else {
            return;
        };
        let Kind::Unique = claim.kind else {
            return;
        };
        write_refusal(claim, &mut self.out);
        send_back(&mut self.beneath, came, self.out.as_slice());
    }

    /// Sends the queries that are due.
    fn repeat(&mut self, now: Moment)
        ensures { DoesAll most P.does (Repeats now) self.old self.new }
    {
        for _ in 0..MOST {
            if !self.repeat_one(now) {
                return;
            }
        }
    }

    /// Sends the first of them. Returns whether there was one.
    fn repeat_one(&mut self, now: Moment) -> bool
        ensures { One (DoesSo P.does (Repeats now)) (NoneIsLeft (DoesSo P.does (Repeats now))) result self.old self.new }
    {
        let Some(way) = self.desk.asking.waits.repeat(now, &mut self.out) else {
            return false;
        };
        send_query(&mut self.beneath, way, self.out.as_slice());
        true
    }

    /// Begins inquiries, as long as somebody is to be asked and there are ids.
    fn begin(&mut self, now: Moment)
        ensures { AsMany most (Begins P.does I.draws now) (BeginsNone I.draws) self.old self.new }
    {
        for _ in 0..MOST {
            if !self.begin_one(now) {
                return;
            }
        }
    }

    /// Begins the first of them. Returns whether it did.
    fn begin_one(&mut self, now: Moment) -> bool
        ensures { One (Begins P.does I.draws now) (BeginsNone I.draws) result self.old self.new }
    {
        if !self.desk.asking.wants_id() {
            return false;
        }
        let Some(id) = self.ids.draw() else {
            return false;
        };
        let Some(way) = self.desk.asking.waits.begin(now, id, &mut self.out) else {
            return false;
        };
        send_query(&mut self.beneath, way, self.out.as_slice());
        true
    }
}

impl<P: Port + TellsFlags, I: Ids> Port for AskingPort<P, I> {
    ghost use Rattle.nbt_asking.specs.Port.{AskingDoes};

    ghost does = { AskingDoes P.does P.told };

    ghost failures = { λ p. P.failures p.port };

    fn receive(&mut self, octets: &mut ArrayVec<u8, 2048>) -> Result<Option<Route>, Device> {
        if let Some(route) = self.desk.take_back(octets) {
            return Ok(Some(route));
        }
        let from = self.beneath.receive(octets)?;
        let flags = self.beneath.flags();
        Ok(self.desk.pass(flags, from, octets))
    }

    fn receive_now(&mut self, octets: &mut ArrayVec<u8, 2048>) -> Result<Option<Route>, Device> {
        if let Some(route) = self.desk.take_back(octets) {
            return Ok(Some(route));
        }
        let from = self.beneath.receive_now(octets)?;
        let flags = self.beneath.flags();
        Ok(self.desk.pass(flags, from, octets))
    }

    fn send(&mut self, to: Route, octets: &[u8]) -> Result<(), Device> {
        match self.desk.reply(to, octets, &mut self.out) {
            Reply::HeldBack => Ok(()),
            Reply::Changed => self.beneath.send(to, self.out.as_slice()),
            Reply::AsItIs => self.beneath.send(to, octets),
        }
    }

    fn failures(&self) -> u64 {
        self.beneath.failures()
    }

    fn cause(&self) -> Option<Cause> {
        self.beneath.cause()
    }

    fn lost(&self) -> Option<Cause> {
        self.beneath.lost()
    }

    fn own_replies(&self) -> OwnReplies {
        self.beneath.own_replies()
    }

    fn tell_changes<E: Write>(&self, errors: &mut E) {
        self.beneath.tell_changes(errors)
    }
}

/// Whether nothing is to be done about what the server did.
fn is_let_be(entry: &Option<Entry>) -> bool
    ensures { IsTrue result → IsLetBe entry.now }
{
    match entry {
        Some(entry) => !is_active(&entry.outcome) && released_in(&entry.outcome).is_none(),
        None => true,
    }
}

/// Whether the server refused something, since another has the name.
fn is_active(outcome: &Outcome) -> bool
    ensures { IsTrue result ↔ IsActive outcome.now }
{
    matches!(outcome, Outcome::Refused(_, Refusal::Active(_)))
}

/// The claim of a unique name that was released, if one was.
fn released_in(outcome: &Outcome) -> Option<&Claim>
    ensures some { IfSome result (λ claim. (outcome.now ≡ Released claim.now) × (claim.now.kind ≡ Unique)) }
    ensures none { IfNone result (ReleasesNone outcome.now) }
{
    match outcome {
        Outcome::Released(claim) => match claim.kind {
            Kind::Unique => Some(claim),
            Kind::Group => None,
        },
        _ => None,
    }
}

/// Leaves in `out` the refusal of this, since another has the name, and nothing else (RFC 1002 section 4.2.6).
fn write_refusal(claim: Registration<'_>, out: &mut ArrayVec<u8, 576>)
    ensures { out.new.items ≡ text (registered active_error (record claim.entry { ttl = 0 })) }
{
    let reply = Message::Registered {
        rcode: ACTIVE,
        registration: Registration { ttl: 0, ..claim },
    };
    write(&reply, out);
}

/// The later of two times.
fn later(one: Moment, other: Moment) -> Moment
    ensures { result ≡ max one other }
{
    if one.get() < other.get() { other } else { one }
}
