//! The listening endpoint of sessions, in C's memory (RFC 1002 section 5.2.1): 14 entries, and 8 connections.

ghost use Rattle.std.specs.Prelude.{◌≡◌, ◌≢◌, IsSome, IsNone, IfSome, IfNone};
ghost use Rattle.nbt_session.specs.declared.packet.PacketType.TheVariants.{Message};
ghost use Rattle.nbt_session.specs.Listener.{ListenerAnswerValue, answer_of, send, send_and_close};
ghost use Rattle.nbt_session.specs.Packet.{PacketValue, type_of};
ghost use Rattle.nbt_c.specs.Listening.{StartsListener, ListensTo, StopsListening, ListensFor, kind_of, sent_for};
ghost use Rattle.nbt_c.specs.Memory.{Changes, Reads};
ghost use Rattle.nbt_c.specs.Results.{Puts};
ghost use Rattle.nbt_c.specs.Sizes.{listener_size, object_align};

use crate::buffer::{Octets, put_packet};
use crate::caller::event_of;
use crate::ends::CAddr;
use crate::framing::put_text;
use crate::held::{CListener, CNode, HeldNode};
use crate::name::CName;
use crate::packet::CPacket;
use crate::results::{NO_MOMENT, NO_NAME, NO_PLACE, NO_ROOM, given};
use nbt_lease::Moment;
use nbt_name::Addr;
use nbt_session::{Entry, Listener, ListenerAnswer};
use std::alloc::Global;

/// How many connections a listener has.
const SLOTS: usize = 8;

/// Calls that are accepted, as C passes them: to a name, by anybody or by one name; here, or at another endpoint.
#[repr(C)]
#[derive(Drop)]
pub struct CEntry {
    /// The name that is called.
    pub called: CName,
    /// Whether `calling` alone may call; else any name may.
    pub by_one: bool,
    /// The one name that may call.
    pub calling: CName,
    /// Whether the call is to be made at `retarget` instead.
    pub elsewhere: bool,
    /// Where the call is to be made.
    pub retarget: CAddr,
}

impl CEntry {
    ghost use Rattle.nbt_c.specs.Listening.{HoldsEntry, entry_in};

    /// The entry that is held; `None` where a name of it holds none.
    fn read(&self) -> Option<Entry>
        ensures read { IfSome result (λ entry. HoldsEntry self.now × (entry ≡ entry_in self.now)) }
        ensures none { IfNone result (¬ HoldsEntry self.now) }
    {
        let called = self.called.read()?;
        let retarget = self.retarget_if();
        if !self.by_one {
            return Some(Entry {
                called,
                calling: None,
                retarget,
            });
        }
        let calling = self.calling.read()?;
        Some(Entry {
            called,
            calling: Some(calling),
            retarget,
        })
    }

    /// Where the call is to be made instead, if anywhere.
    fn retarget_if(&self) -> Option<Addr>
        ensures { result ≡ (entry_in self.now).retarget }
    {
        if self.elsewhere {
            Some(self.retarget.addr())
        } else {
            None
        }
    }
}

/// The size of a listener's memory in octets.
#[unsafe(no_mangle)]
pub extern "C" fn nbt_listener_size() -> usize
    ensures { result ≡ listener_size }
{
    size_of::<Listener<14, 8>>()
}

/// The alignment of that memory in octets.
#[unsafe(no_mangle)]
pub extern "C" fn nbt_listener_align() -> usize
    ensures { result ≡ object_align }
{
    align_of::<Listener<14, 8>>()
}

/// `nbt_session::Listener::new`: a listener of 14 entries and 8 connections, of which `most` may be open at a time, stands in the
/// memory. 0; else none does: 251 where `most` is above 8.
#[unsafe(no_mangle)]
pub extern "C" fn nbt_listener_start(listener: &mut CListener, most: usize) -> u8
    requires { IsNone listener.old.listener }
    ensures { StartsListener most result listener.new.listener }
{
    if most > SLOTS {
        return NO_PLACE;
    }
    listener.put(Listener::new(most));
    0
}

/// Calls `nbt_session::Listener::listen` with what C passes.
fn listen(listener: &mut Listener<14, 8>, entry: &CEntry) -> u8
    ensures { ListensTo entry.now listener.old result listener.new }
{
    given!(entry = entry.read(), else NO_NAME);
    match listener.listen(entry) {
        Ok(()) => 0,
        Err(_) => NO_ROOM,
    }
}

/// `nbt_session::Listener::listen`: accepts calls by the entry from now on, where no earlier entry accepts them. 0; else the
/// listener stays as it was: 255 where a name of the entry holds none, 254 where 14 entries stand.
#[unsafe(no_mangle)]
pub extern "C" fn nbt_listener_listen(listener: &mut CListener, entry: &CEntry) -> u8
    requires { IsSome listener.old.listener }
    ensures { Changes listener.old.listener listener.new.listener (λ old new. ListensTo entry.now old result new) }
{
    listen(listener.get(), entry)
}

/// Calls `nbt_session::Listener::unlisten` with what C passes.
fn unlisten(listener: &mut Listener<14, 8>, called: &CName) -> u8
    ensures { StopsListening called.now listener.old result listener.new }
{
    given!(called = called.read(), else NO_NAME);
    listener.unlisten(&called);
    0
}

/// `nbt_session::Listener::unlisten`: removes all entries of the name. 0; 255 where `called` holds no name, the listener staying as
/// it was.
#[unsafe(no_mangle)]
pub extern "C" fn nbt_listener_unlisten(listener: &mut CListener, called: &CName) -> u8
    requires { IsSome listener.old.listener }
    ensures { Changes listener.old.listener listener.new.listener (λ old new. StopsListening called.now old result new) }
{
    unlisten(listener.get(), called)
}

/// 0 nothing, 2 send, 4 up, 7 send and close, 8 close.
fn kind_of(answer: &ListenerAnswer) -> u8
    ensures { result ≡ kind_of (answer_of answer.now) }
{
    match answer {
        ListenerAnswer::Nothing => 0,
        ListenerAnswer::Send(_) => 2,
        ListenerAnswer::SendAndClose(_) => 7,
        ListenerAnswer::Close => 8,
        ListenerAnswer::Up(_) => 4,
    }
}

/// Leaves in `out` the packet that is to be sent, if there is one.
fn put_sent(answer: &ListenerAnswer, out: &mut Octets)
    requires sent { (packet : PacketValue) → answer_of answer.now ≡ send packet → type_of packet ≢ Message }
    requires last { (packet : PacketValue) → answer_of answer.now ≡ send_and_close packet → type_of packet ≢ Message }
    ensures { out.new.items ≡ sent_for (answer_of answer.now) }
{
    match answer {
        ListenerAnswer::Send(packet) => put_text(packet, out),
        ListenerAnswer::SendAndClose(packet) => put_text(packet, out),
        _ => out.clear(),
    }
}

/// Calls `nbt_session::Listener::on` with what C passes.
fn hand(
    alloc: Global,
    listener: &mut Listener<14, 8>,
    now: u64,
    node: &HeldNode,
    slot: usize,
    happened: u8,
    packet: &CPacket,
    kind: &mut u8,
    out: &mut Octets,
) -> u8
    ensures { (answer : ListenerAnswerValue) × ListensFor listener.old now node.now slot happened packet.now result answer listener.new
        × (kind.new ≡ kind_of answer) × (out.new.items ≡ sent_for answer) }
{
    *kind = 0;
    out.clear();
    given!(now = Moment::new(now), else NO_MOMENT);
    if slot >= SLOTS {
        return NO_PLACE;
    }
    match event_of(alloc, happened, packet) {
        Ok(event) => {
            let answer = listener.on(now, node, slot, event);
            *kind = kind_of(&answer);
            put_sent(&answer, out);
            0
        }
        Err(number) => number,
    }
}

/// `nbt_session::Listener::on`: what the listener does when something happens to a connection, by the names that the node holds at
/// `now`; `happened` and `packet` are as by `nbt_caller_on`. 0, and `kind` says it: 0 nothing, 2 send, 4 up, 7 send and close, 8
/// close; of send, and of send and close, the packet stands at the front of `out`, `size` being how many octets it has, else 0.
/// Refused, the listener staying as it was, and `kind` and `size` being 0: 253 where `now` is above 2^60 ms, 251 where `slot` is
/// above 7, 252, 255 as by `nbt_caller_on`. The node stays.
#[unsafe(no_mangle)]
pub extern "C" fn nbt_listener_on(
    alloc: Global,
    listener: &mut CListener,
    node: &mut CNode,
    now: u64,
    slot: usize,
    happened: u8,
    packet: &CPacket,
    kind: &mut u8,
    out: &mut [u8; 576],
    size: &mut usize,
) -> u8
    requires listener { IsSome listener.old.listener }
    requires node { IsSome node.old.node }
    ensures { Reads node.old.node node.new.node (λ it. Changes listener.old.listener listener.new.listener (λ old new. (answer : ListenerAnswerValue)
        × ListensFor old now it slot happened packet.now result answer new × (kind.new ≡ kind_of answer)
        × Puts (sent_for answer) out.old out.new size.new)) }
{
    let mut sent = Octets::new();
    let result = hand(
        alloc,
        listener.get(),
        now,
        node.get(),
        slot,
        happened,
        packet,
        kind,
        &mut sent,
    );
    *size = put_packet(sent.as_slice(), out);
    result
}
