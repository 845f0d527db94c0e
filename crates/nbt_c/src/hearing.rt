//! A node in C's memory: it handles datagrams, polls, and says when it polls next, and which names it holds.

ghost use Rattle.std.specs.Prelude.{◌≡◌, ◌↔◌, ◌<◌, ◌≤◌, ℕ, List, [], Option, Some, IsSome, IfOk, OnErr};
ghost use Rattle.nbt_name.specs.declared.addr.Addr.{Addr as End};
ghost use Rattle.nbt_name.specs.declared.addr.Kind.{Kind as HeldKind};
ghost use Rattle.nbt_lease.specs.Config.{last_moment};
ghost use Rattle.nbt_node.specs.Moves.{Told, told_of};
ghost use Rattle.nbt_packet.specs.Message.{MessageValue, message_if};
ghost use Rattle.nbt_packet.specs.Spelling.{Spells};
ghost use Rattle.nbt_node.specs.Waiting.{sends_at, IsFirst};
ghost use Rattle.nbt_c.specs.Events.{event_for, lent_by};
ghost use Rattle.nbt_c.specs.Ends.{addr_of};
ghost use Rattle.nbt_c.specs.Nodes.{Hears, is_request, PollsNode, Holds, Stands, end_after, held_number, standing_number};
ghost use Rattle.nbt_c.specs.Memory.{Changes, Reads};
ghost use Rattle.nbt_c.specs.Results.{Leaves, Puts, PutsMost, TellsTime};

use crate::buffer::{Octets, put_most, put_packet};
use crate::ends::{CAddr, kind_number};
use crate::event::{CEvent, answer, lent_by};
use crate::held::{CNode, HeldNode};
use crate::name::CName;
use crate::results::{NO_MOMENT, NO_NAME, NOTHING_DUE, given};
use nbt_lease::Moment;
use nbt_name::{Addr, Kind};
use nbt_node::{ClockBack, Event, Standing};
use nbt_packet::{Message, read};

/// Whether something may be sent back to who sent the message: to a query, or a status request.
fn is_request(message: &Option<Message<'_>>) -> bool
    ensures { result ≡ is_request (message_if message.now) }
{
    matches!(
        message,
        Some(Message::Query { .. }) | Some(Message::StatusRequest { .. })
    )
}

/// Calls `nbt_node::Node::handle` and `nbt_node::reply_to`.
fn handle_and_answer<'a>(
    node: &mut HeldNode,
    now: Moment,
    from: Addr,
    octets: &[u8],
    message: &Option<Message<'a>>,
    out: &mut Octets,
) -> Result<Event<'a>, ClockBack>
    requires spells { (m : MessageValue) → (message_if message.now ≡ Some m) ↔ Spells octets.now m }
    requires moment { now ≤ last_moment }
    ensures ok { IfOk result (λ event. Hears node.old now from octets.now 0 node.new (told_of event) (message_if message.now) out.new.items) }
    ensures err { OnErr result ((now < node.old.last) × (node.new ≡ node.old) × (out.new.items ≡ [])) }
{
    let event = node.handle(now, from, message, out)?;
    Ok(answer(node, now, message, event, out))
}

/// Handles a request, and puts what is sent back into the caller's buffer. It stands apart for its room on the stack: no other message
/// needs a reply's.
#[inline(never)]
fn hear_request<'a>(
    node: &mut HeldNode,
    now: Moment,
    from: Addr,
    octets: &[u8],
    message: &Option<Message<'a>>,
    out: &mut [u8; 576],
    size: &mut usize,
) -> Result<Event<'a>, ClockBack>
    requires spells { (m : MessageValue) → (message_if message.now ≡ Some m) ↔ Spells octets.now m }
    requires moment { now ≤ last_moment }
    ensures ok { IfOk result (λ event. (reply : List ℕ) × Hears node.old now from octets.now 0 node.new (told_of event) (message_if message.now) reply × Puts reply out.old out.new size.new) }
    ensures err { OnErr result ((now < node.old.last) × (node.new ≡ node.old) × Puts [] out.old out.new size.new) }
{
    let mut reply = Octets::new();
    let heard = handle_and_answer(node, now, from, octets, message, &mut reply);
    *size = put_packet(reply.as_slice(), out);
    heard
}

/// Handles a message, and puts what is sent back, if anything is, into the caller's buffer.
fn hear<'a>(
    node: &mut HeldNode,
    now: Moment,
    from: Addr,
    octets: &[u8],
    message: &Option<Message<'a>>,
    out: &mut [u8; 576],
    size: &mut usize,
) -> Result<Event<'a>, ClockBack>
    requires spells { (m : MessageValue) → (message_if message.now ≡ Some m) ↔ Spells octets.now m }
    requires moment { now ≤ last_moment }
    ensures ok { IfOk result (λ event. (reply : List ℕ) × Hears node.old now from octets.now 0 node.new (told_of event) (message_if message.now) reply × Puts reply out.old out.new size.new) }
    ensures err { OnErr result ((now < node.old.last) × (node.new ≡ node.old) × Puts [] out.old out.new size.new) }
{
    if is_request(message) {
        return hear_request(node, now, from, octets, message, out, size);
    }
    *size = 0;
    node.handle_unanswered(now, from, message)
}

/// `nbt_node::Node::on_datagram`, and `nbt_node::reply_to`: handles a datagram of these octets, which came at `now` from `from`, and
/// answers a query for a name that the node holds then (RFC 1002 section 4.2.13). 0, and `event` says what it was to the node; of
/// found and status, the first octets of the entries or names stand in `lent`, as many as fit. A reply to `from` stands at the front
/// of `out`, `size` being how many octets it has, else 0. Refused, the node staying as it was, `event` being nothing and `size` 0:
/// 253 where `now` is above 2^60 ms, `ClockBack` (4) where it is before the node's start or the time of an earlier call that wasn't
/// refused.
#[unsafe(no_mangle)]
pub extern "C" fn nbt_node_on_datagram(
    node: &mut CNode,
    now: u64,
    from: CAddr,
    octets: &[u8],
    event: &mut CEvent,
    lent: &mut [u8],
    out: &mut [u8; 576],
    size: &mut usize,
) -> u8
    requires { IsSome node.old.node }
    ensures { Changes node.old.node node.new.node (λ old new. (told : Told) × (message : Option MessageValue)
        × Leaves out.old out.new size.new (Hears old now (addr_of from) octets.now result new told message)
        × (event.new ≡ event_for told message) × PutsMost (lent_by told) lent.old lent.new) }
{
    let message = read(octets);
    hear_message(
        node.get(),
        now,
        from.addr(),
        octets,
        &message,
        event,
        lent,
        out,
        size,
    )
}

/// The same with the message that the octets spell.
fn hear_message(
    node: &mut HeldNode,
    now: u64,
    from: Addr,
    octets: &[u8],
    message: &Option<Message<'_>>,
    event: &mut CEvent,
    lent: &mut [u8],
    out: &mut [u8; 576],
    size: &mut usize,
) -> u8
    requires { (m : MessageValue) → (message_if message.now ≡ Some m) ↔ Spells octets.now m }
    ensures { (told : Told) × (heard : Option MessageValue) × (reply : List ℕ) × Hears node.old now from octets.now result node.new told heard reply
        × (event.new ≡ event_for told heard) × PutsMost (lent_by told) lent.old lent.new × Puts reply out.old out.new size.new }
{
    event.become_nothing();
    let Some(now) = Moment::new(now) else {
        *size = 0;
        return NO_MOMENT;
    };
    match hear(node, now, from, octets, message, out, size) {
        Ok(told) => {
            event.report(&told, message);
            put_most(lent_by(&told), lent);
            0
        }
        Err(fault) => fault.number(),
    }
}

/// Calls `nbt_node::Node::poll` with what C passes.
fn poll(node: &mut HeldNode, now: u64, to: &mut CAddr, out: &mut Octets) -> u8
    ensures { (end : Option End) × PollsNode node.old now result node.new end out.new.items × (to.new ≡ end_after to.old end) }
{
    out.clear();
    given!(now = Moment::new(now), else NO_MOMENT);
    match node.poll(now, out) {
        Ok(Some(end)) => {
            *to = CAddr::of(end);
            0
        }
        Ok(None) => 0,
        Err(fault) => fault.number(),
    }
}

/// `nbt_node::Node::poll`: sends at most one datagram that is due at `now`. 0, and it stands at the front of `out` for the endpoint
/// in `to`, `size` being how many octets it has; where none is due, `size` is 0 and `to` stays. Whoever polls calls until `size` is
/// 0. Refused, the node staying as it was and `size` being 0: 253, 4 as by `nbt_node_on_datagram`.
#[unsafe(no_mangle)]
pub extern "C" fn nbt_node_poll(
    node: &mut CNode,
    now: u64,
    to: &mut CAddr,
    out: &mut [u8; 576],
    size: &mut usize,
) -> u8
    requires { IsSome node.old.node }
    ensures { Changes node.old.node node.new.node (λ old new. (end : Option End)
        × Leaves out.old out.new size.new (PollsNode old now result new end) × (to.new ≡ end_after to.old end)) }
{
    let mut octets = Octets::new();
    let result = poll(node.get(), now, to, &mut octets);
    *size = put_packet(octets.as_slice(), out);
    result
}

/// `nbt_node::Node::next_due`: when `nbt_node_poll` sends something next, in milliseconds, if no other call with the node comes before:
/// the first time, of those that aren't before its last call, at which it would. 0, and that time stands in `due`; or 249 where there
/// is none, `due` being left as it was. The node stays.
#[unsafe(no_mangle)]
pub extern "C" fn nbt_node_next_due(node: &mut CNode, due: &mut u64) -> u8
    requires { IsSome node.old.node }
    ensures { Reads node.old.node node.new.node (λ it. (next : Option ℕ) × IsFirst (sends_at it) it.last next
        × TellsTime next due.old result due.new) }
{
    tell_time(node.get().next_due(), due)
}

/// Tells a time, if there is one.
fn tell_time(time: Option<u64>, out: &mut u64) -> u8
    ensures { TellsTime time out.old result out.new }
{
    given!(time = time, else NOTHING_DUE);
    *out = time;
    0
}

/// Calls `nbt_node::Node::holds` with what C passes.
fn holds(node: &HeldNode, now: u64, name: &CName, held: &mut u8) -> u8
    ensures { (kind : Option HeldKind) × Holds node.now now name.now result kind × (held.new ≡ held_number kind) }
{
    *held = 0;
    given!(now = Moment::new(now), else NO_MOMENT);
    given!(name = name.lend(), else NO_NAME);
    *held = held_number(node.holds(now, &name));
    0
}

fn held_number(kind: Option<Kind>) -> u8
    ensures { result ≡ held_number kind }
{
    match kind {
        None => 0,
        Some(kind) => kind_number(kind),
    }
}

/// `nbt_node::Node::holds`: how the node holds the name at `now`. 0, and `held` is 0 where it doesn't, 1 as one machine's and 2 as
/// a group's. Else `held` is 0: 253, 255 as by `nbt_node_ask`. The node stays.
#[unsafe(no_mangle)]
pub extern "C" fn nbt_node_holds(node: &mut CNode, now: u64, name: &CName, held: &mut u8) -> u8
    requires { IsSome node.old.node }
    ensures { Reads node.old.node node.new.node (λ it. (kind : Option HeldKind) × Holds it now name.now result kind
        × (held.new ≡ held_number kind)) }
{
    holds(node.get(), now, name, held)
}

/// Calls `nbt_node::Node::standing` with what C passes.
fn stands(node: &HeldNode, now: u64, name: &CName, state: &mut u8) -> u8
    ensures { Stands node.now now name.now state.old result state.new }
{
    given!(now = Moment::new(now), else NO_MOMENT);
    given!(name = name.lend(), else NO_NAME);
    given!(standing = node.standing(now, &name), else ClockBack.number());
    *state = standing_number(standing);
    0
}

fn standing_number(standing: Standing) -> u8
    ensures { result ≡ standing_number standing }
{
    match standing {
        Standing::Idle => 0,
        Standing::Asking => 1,
        Standing::Held => 2,
        Standing::Releasing => 3,
        Standing::Resting => 4,
    }
}

/// `nbt_node::Node::standing`: how the name stands at the node at `now`, as time alone has left it. 0, and `state` is 0 idle, 1
/// asking, 2 held, 3 releasing or 4 resting. Else `state` stays: 253, 255 as by `nbt_node_ask`, or `ClockBack` (4) as by
/// `nbt_node_on_datagram`. The node stays.
#[unsafe(no_mangle)]
pub extern "C" fn nbt_node_state(node: &mut CNode, now: u64, name: &CName, state: &mut u8) -> u8
    requires { IsSome node.old.node }
    ensures { Reads node.old.node node.new.node (λ it. Stands it now name.now state.old result state.new) }
{
    stands(node.get(), now, name, state)
}
