//! The requests that wait, and the inquiries under way.

ghost use Rattle.std.specs.Prelude.{◌≡◌, ◌+◌, ◌<◌, ◌≤◌, ℕ, List, Option, [], ◌∷◌, ◌++◌, not, ◌&&◌, filter, length, map, Some, None, IfOk, IsTrue, IfSome, nat_eq, vec_capacity, vec_len};
ghost use Rattle.std.specs.List.{find, flat_map, list_any, position};
ghost use Rattle.std.specs.Option.{option_map};
ghost use Rattle.nbt_lease.specs.Config.{last_moment};
ghost use Rattle.nbt_name.specs.Wire.{same_name};
ghost use Rattle.nbt_confirm.specs.declared.outcome.Answer.TheVariants.{Silent};
ghost use Rattle.nbt_confirm.specs.Firsts.{with_first, without_first};
ghost use Rattle.nbt_confirm.specs.Inquiries.{response_of};
ghost use Rattle.nbt_confirm.specs.Waiting as spec;
ghost use Rattle.nbt_confirm.specs.Waiting.{Hears, IsFirst, Sends, answer_of, dues, end_in, inquiry_in, inquiry_of, is_answered, is_asking, is_for, is_past, is_same, is_to_repeat, is_unanswered, is_under_way, next_begun, next_to_ask, repeated, served_by, taken_as, waits_most, with_begun, with_taken};

use crate::inquiry::{Inquiry, Way, write_inquiry};
use crate::machine::Machine;
use crate::outcome::{Answer, Outcome, outcome_of};
use crate::request::{Awaits, Request};
use crate::response::{Response, response_in};
use arrayvec::ArrayVec;
use nbt_lease::Moment;
use nbt_name::{Addr, Kind, Name};
use std::alloc::{AllocError, Global};
use std::marker::Model;

/// The most requests that wait (our profile).
pub const WAITS_MOST: usize = 256;

/// The most requests of a client that wait; a client is a 32-bit address (our profile).
pub const CLIENT_MOST: usize = 32;

/// How many queries an inquiry has at most (our profile; UCAST_REQ_RETRY_COUNT of RFC 1002 section 6 is 3).
pub const QUERIES: u8 = 3;

/// The milliseconds between two queries of an inquiry, and after the last (our profile).
pub const GAP: u64 = 250;

/// An inquiry under way.
#[derive(Debug, Drop)]
pub struct Pending {
    /// What is asked, by one id for all its queries.
    pub inquiry: Inquiry,
    /// How many of its queries are left.
    pub left: u8,
    /// When the next one is due, or its end where none is left, in milliseconds.
    pub due: u64,
}

/// Whether a request waits.
#[derive(Clone, Copy, Debug, PartialEq, Eq)]
pub enum Taken {
    /// It does.
    Waits,
    /// It does already: it is a resend, and ignored.
    Resent,
    /// Its client has 32 requests that wait: it is ignored.
    ClientFull,
    /// 256 requests wait: it is ignored.
    Full,
}

/// A request that waits no longer, and what is to be done with it.
#[derive(Debug, Drop)]
pub struct Served {
    /// The request.
    pub request: Request,
    /// What is to be done.
    pub outcome: Outcome,
}

/// An inquiry of which no query was answered. Only [`Waits::give_up`] gives one.
#[derive(Debug, Drop)]
pub struct Silence {
    inquiry: Inquiry,
}

impl Model for Silence {
    ghost use Rattle.nbt_confirm.specs.declared.inquiry.Inquiry.{Inquiry};

    ghost Value = { Inquiry };

    ghost view = { λ s. s.inquiry };
}

/// The requests that wait for what a machine says or for a lease's end, 256 at most, and the inquiries under way, one about a name
/// at a time. Their memory is taken at the start.
#[derive(Drop)]
pub struct Waits {
    requests: Vec<Request>,
    pending: Vec<Pending>,
}

impl Model for Waits {
    ghost use Rattle.std.specs.Prelude.{◌≡◌, vec_capacity};
    ghost use Rattle.nbt_confirm.specs.Waiting.{WaitsValue, waits_most};

    ghost Value = { WaitsValue };

    ghost view = { λ w. record { requests = w.requests.items; pending = w.pending.items } };

    ghost invariant = { λ w. (vec_capacity w.requests ≡ waits_most) × (vec_capacity w.pending ≡ waits_most) };
}

impl Waits {
    /// Nothing waits. The memory for 256 requests and as many inquiries is taken here.
    pub fn new(alloc: Global) -> Result<Waits, AllocError>
        ensures { IfOk result (λ waits. waits ≡ record { requests = []; pending = [] }) }
    {
        let requests = Vec::with_capacity(alloc, WAITS_MOST)?;
        let pending = Vec::with_capacity(alloc, WAITS_MOST)?;
        Ok(Waits { requests, pending })
    }

    /// The requests that wait, in the order in which they came.
    pub fn requests(&self) -> &[Request]
        ensures { result.now ≡ self.now.requests }
    {
        self.requests.as_slice()
    }

    /// The inquiries under way, in the order in which they began.
    pub fn pending(&self) -> &[Pending]
        ensures { result.now ≡ self.now.pending }
    {
        self.pending.as_slice()
    }

    /// Has a request wait, last of all. It is ignored, in this order, as `Resent` if the same endpoint has sent the same request,
    /// by id and name, and that one waits; as `ClientFull` if 32 requests of the client wait; as `Full` if 256 requests wait.
    pub fn take(&mut self, request: Request) -> Taken
        ensures taken { result ≡ taken_as self.old.requests request }
        ensures requests { self.new ≡ record self.old { requests = with_taken result self.old.requests request } }
    {
        let taken = taken_in(self.requests.as_slice(), &request);
        if taken == Taken::Waits {
            self.requests.push_reserved(request);
        }
        taken
    }

    /// Begins the inquiry of the first request that waits for an answer, and of whose name no inquiry is under way, with this id.
    /// Leaves its first query in `out`, and returns where it goes; `None`, with `out` empty, if there is no such request, or 256
    /// inquiries are under way.
    pub fn begin(&mut self, now: Moment, id: u16, out: &mut ArrayVec<u8, 576>) -> Option<Way>
        ensures sends { Sends (inquiry_in (next_begun now id self.old)) result out.new.items }
        ensures pending { self.new ≡ record self.old { pending = with_begun (next_begun now id self.old) self.old.pending } }
    {
        out.clear();
        let pending = next_pending(self.requests.as_slice(), self.pending.as_slice(), now, id)?;
        write_inquiry(&pending.inquiry, out);
        let way = pending.inquiry.way();
        self.pending.push_reserved(pending);
        Some(way)
    }

    /// Repeats the first query that is due: leaves it in `out`, and returns where it goes; `None`, with `out` empty, if none is due.
    pub fn repeat(&mut self, now: Moment, out: &mut ArrayVec<u8, 576>) -> Option<Way>
        ensures sends { Sends (inquiry_in (find (is_to_repeat now) self.old.pending)) result out.new.items }
        ensures pending { self.new ≡ record self.old { pending = with_first (is_to_repeat now) (repeated now) self.old.pending } }
    {
        repeat_in(&mut self.pending, now, out)
    }

    /// The machine that these octets confirm, if they are a positive response to an inquiry under way: from the address that was
    /// asked and port 137, with the inquiry's id and name, no longer than 576 octets and of 86 entries at most (RFC 1002 section
    /// 4.2.13, our profile). That inquiry ends. Any other octets change nothing, a negative response too.
    pub fn hear(&mut self, from: Addr, octets: &[u8]) -> Option<Machine>
        ensures pending { Hears from octets.now self.old.pending result self.new.pending }
        ensures requests { self.new.requests ≡ self.old.requests }
    {
        let response = response_in(from, octets)?;
        let pending = take_answered(&mut self.pending, &response)?;
        Some(Machine::by(pending.inquiry, &response))
    }

    /// The first inquiry of which all queries are over, and none was answered. It ends.
    pub fn give_up(&mut self, now: Moment) -> Option<Silence>
        ensures silence { result ≡ inquiry_in (find (is_unanswered now) self.old.pending) }
        ensures pending { self.new ≡ record self.old { pending = without_first (is_unanswered now) self.old.pending } }
    {
        let pending = take_unanswered(&mut self.pending, now.get())?;
        Some(Silence {
            inquiry: pending.inquiry,
        })
    }

    /// Serves the first request that waits for what this machine said, which waits no longer: `None` if there is none. The caller
    /// calls it until then, so one response serves every request that waited for it.
    pub fn serve(&mut self, machine: &Machine) -> Option<Served>
        ensures served { result ≡ option_map (served_by (answer_of machine.now)) (find (is_for machine.now.name machine.now.kind machine.now.asked) self.old.requests) }
        ensures requests { self.new ≡ record self.old { requests = without_first (is_for machine.now.name machine.now.kind machine.now.asked) self.old.requests } }
    {
        let request = take_for(
            &mut self.requests,
            machine.name(),
            machine.kind(),
            machine.asked(),
        )?;
        let outcome = outcome_of(request.awaits, machine.answer(&request));
        Some(Served { request, outcome })
    }

    /// The same where no query was answered.
    pub fn serve_silence(&mut self, silence: &Silence) -> Option<Served>
        ensures served { result ≡ option_map (served_by (λ _. Silent)) (find (is_for silence.now.name silence.now.kind silence.now.asked) self.old.requests) }
        ensures requests { self.new ≡ record self.old { requests = without_first (is_for silence.now.name silence.now.kind silence.now.asked) self.old.requests } }
    {
        let inquiry = &silence.inquiry;
        let request = take_for(
            &mut self.requests,
            &inquiry.name,
            inquiry.kind,
            inquiry.asked,
        )?;
        let outcome = outcome_of(request.awaits, Answer::Silent);
        Some(Served { request, outcome })
    }

    /// The first request that waited for a lease's end that is there, which waits no longer; `None` if there is none.
    pub fn wake(&mut self, now: Moment) -> Option<Request>
        ensures woken { result ≡ find (λ r. is_past now r.awaits) self.old.requests }
        ensures requests { self.new ≡ record self.old { requests = without_first (λ r. is_past now r.awaits) self.old.requests } }
    {
        take_past(&mut self.requests, now.get())
    }

    /// When something is due first, in milliseconds: a query, an inquiry's end or a lease's end; `None` if nothing is.
    pub fn next_due(&self) -> Option<u64>
        ensures { IsFirst (dues self.now) result }
    {
        let query = first_query(self.pending.as_slice());
        first_end(query, self.requests.as_slice())
    }
}

/// Whether a request is to wait beside these.
fn taken_in(requests: &[Request], request: &Request) -> Taken
    ensures { result ≡ taken_as requests.now request.now }
{
    if is_resent(requests, request) {
        return Taken::Resent;
    }
    if count_of(requests, request.from.ip) >= CLIENT_MOST {
        return Taken::ClientFull;
    }
    if requests.len() >= WAITS_MOST {
        return Taken::Full;
    }
    Taken::Waits
}

/// Whether the same request waits already.
fn is_resent(requests: &[Request], request: &Request) -> bool
    ensures { result ≡ list_any (is_same request.now) requests.now }
{
    requests.iter().any(|other| request.is_same(other))
}

/// How many requests are of this client.
fn count_of(requests: &[Request], ip: u32) -> usize
    ensures { result ≡ spec.count_of ip requests.now }
{
    requests
        .iter()
        .filter(|request| request.from.ip == ip)
        .count()
}

/// The inquiry that begins next, after its first query; none if there is no room for one.
fn next_pending(requests: &[Request], pending: &[Pending], now: Moment, id: u16) -> Option<Pending>
    ensures begun { result ≡ next_begun now id (record { requests = requests.now; pending = pending.now }) }
    ensures room { IfSome result (λ begun. length pending.now < waits_most) }
{
    if pending.len() >= WAITS_MOST {
        return None;
    }
    let inquiry = next_inquiry(requests, pending, id)?;
    Some(Pending {
        inquiry,
        left: QUERIES - 1,
        due: now.get() + GAP,
    })
}

/// The inquiry of the first request that waits for an answer, and of whose name none is under way.
fn next_inquiry(requests: &[Request], pending: &[Pending], id: u16) -> Option<Inquiry>
    ensures { result ≡ option_map (inquiry_of id) (next_to_ask (record { requests = requests.now; pending = pending.now })) }
{
    for request in requests {
        if request.awaits.is_asking() && !is_under_way(pending, &request.name) {
            return Some(Inquiry {
                id,
                name: request.name.copy(),
                kind: request.kind,
                asked: request.asked,
                local: request.local,
            });
        }
    }
    None
}

/// Whether an inquiry about this name is under way.
fn is_under_way(pending: &[Pending], name: &Name) -> bool
    ensures { result ≡ is_under_way pending.now name.now }
{
    pending.iter().any(|other| other.inquiry.name == *name)
}

/// Repeats the first query that is due.
fn repeat_in(pending: &mut Vec<Pending>, now: Moment, out: &mut ArrayVec<u8, 576>) -> Option<Way>
    ensures sends { Sends (inquiry_in (find (is_to_repeat now) pending.old.items)) result out.new.items }
    ensures pending { pending.new.items ≡ with_first (is_to_repeat now) (repeated now) pending.old.items }
    ensures capacity { vec_capacity pending.new ≡ vec_capacity pending.old }
{
    out.clear();
    let place = place_to_repeat(pending.as_slice(), now.get())?;
    let first = &pending[place];
    write_inquiry(&first.inquiry, out);
    let way = first.inquiry.way();
    repeat_one(&mut pending[place], now);
    Some(way)
}

/// One query less is left, and the next is due after the gap.
fn repeat_one(pending: &mut Pending, now: Moment)
    ensures { pending.new ≡ repeated now pending.old }
{
    pending.left = pending.left.saturating_sub(1);
    pending.due = now.get() + GAP;
}

/// The place of the first query that is due.
fn place_to_repeat(pending: &[Pending], now: u64) -> Option<usize>
    ensures { result ≡ position (is_to_repeat now) pending.now }
{
    pending.iter().position(|p| p.due <= now && 0 < p.left)
}

/// Takes out the inquiry that a response answers.
fn take_answered(pending: &mut Vec<Pending>, response: &Response<'_>) -> Option<Pending>
    ensures found { result ≡ find (is_answered (response_of response.now)) pending.old.items }
    ensures left { pending.new.items ≡ without_first (is_answered (response_of response.now)) pending.old.items }
    ensures capacity { vec_capacity pending.new ≡ vec_capacity pending.old }
{
    let place = place_answered(pending.as_slice(), response)?;
    Some(pending.remove(place))
}

/// The place of the inquiry that a response answers.
fn place_answered(pending: &[Pending], response: &Response<'_>) -> Option<usize>
    ensures { result ≡ position (is_answered (response_of response.now)) pending.now }
{
    pending.iter().position(|p| response.answers(&p.inquiry))
}

/// Takes out the first inquiry of which all queries are over.
fn take_unanswered(pending: &mut Vec<Pending>, now: u64) -> Option<Pending>
    ensures found { result ≡ find (is_unanswered now) pending.old.items }
    ensures left { pending.new.items ≡ without_first (is_unanswered now) pending.old.items }
    ensures capacity { vec_capacity pending.new ≡ vec_capacity pending.old }
{
    let place = place_unanswered(pending.as_slice(), now)?;
    Some(pending.remove(place))
}

/// The place of the first inquiry of which all queries are over.
fn place_unanswered(pending: &[Pending], now: u64) -> Option<usize>
    ensures { result ≡ position (is_unanswered now) pending.now }
{
    pending.iter().position(|p| p.due <= now && p.left == 0)
}

/// Takes out the first request that waits for the answer of this address about this name.
fn take_for(requests: &mut Vec<Request>, name: &Name, kind: Kind, asked: u32) -> Option<Request>
    ensures found { result ≡ find (is_for name.now kind asked) requests.old.items }
    ensures left { requests.new.items ≡ without_first (is_for name.now kind asked) requests.old.items }
    ensures capacity { vec_capacity requests.new ≡ vec_capacity requests.old }
{
    let place = place_for(requests.as_slice(), name, kind, asked)?;
    Some(requests.remove(place))
}

/// The place of that request.
fn place_for(requests: &[Request], name: &Name, kind: Kind, asked: u32) -> Option<usize>
    ensures { result ≡ position (is_for name.now kind asked) requests.now }
{
    requests.iter().position(|r| r.is_for(name, kind, asked))
}

/// Takes out the first request that waited for a lease's end that is there.
fn take_past(requests: &mut Vec<Request>, now: u64) -> Option<Request>
    ensures found { result ≡ find (λ r. is_past now r.awaits) requests.old.items }
    ensures left { requests.new.items ≡ without_first (λ r. is_past now r.awaits) requests.old.items }
    ensures capacity { vec_capacity requests.new ≡ vec_capacity requests.old }
{
    let place = place_past(requests.as_slice(), now)?;
    Some(requests.remove(place))
}

/// The place of that request.
fn place_past(requests: &[Request], now: u64) -> Option<usize>
    ensures { result ≡ position (λ r. is_past now r.awaits) requests.now }
{
    requests.iter().position(|r| r.awaits.is_past(now))
}

/// When the first query is due, or the end of the first inquiry.
fn first_query(pending: &[Pending]) -> Option<u64>
    ensures { IsFirst (map (λ p. p.due) pending.now) result }
{
    let mut first = None;
    for one in pending {
        first = Some(earlier(first, one.due));
    }
    first
}

/// The first of a time, if there is one, and of the leases' ends for which requests wait.
fn first_end(time: Option<u64>, requests: &[Request]) -> Option<u64>
    ensures { (times : List ℕ) → IsFirst times time → IsFirst (times ++ flat_map (λ r. end_in r.awaits) requests.now) result }
{
    let mut first = time;
    for request in requests {
        first = with_end(first, request.awaits);
    }
    first
}

/// The first of a time, if there is one, and of the lease's end that is waited for, if one is.
fn with_end(first: Option<u64>, awaits: Awaits) -> Option<u64>
    ensures { (times : List ℕ) → IsFirst times first → IsFirst (times ++ end_in awaits) result }
{
    match awaits {
        Awaits::LeaseEnd(until) => Some(earlier(first, until)),
        _ => first,
    }
}

/// The earlier of a time, if there is one, and another.
fn earlier(first: Option<u64>, other: u64) -> u64
    ensures { (times : List ℕ) → IsFirst times first → IsFirst (times ++ other ∷ []) (Some result) }
{
    first.unwrap_or(other).min(other)
}
