//! The calling endpoint of a session, in C's memory (RFC 1002 section 5.2.1).

ghost use Rattle.std.specs.Prelude.{◌≡◌, IsSome, IsNone, IfOk, IfErr};
ghost use Rattle.nbt_session.specs.declared.packet.PacketType.TheVariants.{Request};
ghost use Rattle.nbt_session.specs.Caller.{AnswerValue, answer_of, send};
ghost use Rattle.nbt_session.specs.Event.{event_of as event_value};
ghost use Rattle.nbt_session.specs.Packet.{PacketValue, packet_of, text, type_of};
ghost use Rattle.nbt_c.specs.Calling.{Begins, CallsFor, IsEvent, EventFault, answer_after, sent_by};
ghost use Rattle.nbt_c.specs.Ends.{addr_of};
ghost use Rattle.nbt_c.specs.Memory.{Changes};
ghost use Rattle.nbt_c.specs.Results.{Puts};
ghost use Rattle.nbt_c.specs.Sizes.{caller_size, object_align};

use crate::buffer::{Octets, put_packet};
use crate::ends::CAddr;
use crate::framing::put_names;
use crate::held::CCaller;
use crate::name::CName;
use crate::packet::CPacket;
use crate::results::{NO_KIND, NO_NAME, given};
use nbt_session::{Caller, CallerAnswer, Event, Failure, Packet};
use std::alloc::Global;

/// What the calling endpoint does next, as C sees it. A field that its kind doesn't name stays as it was.
#[repr(C)]
#[derive(Drop)]
pub struct CAnswer {
    /// 0 nothing, 1 connect, 2 send, 3 open, 4 up, 5 closed, 6 fail.
    pub kind: u8,
    /// Of fail: why, 1 to 4 (our profile).
    pub failure: u8,
    /// Of fail because the call was refused: the code (RFC 1002 section 4.3.4).
    pub code: u8,
    /// Of connect: where.
    pub to: CAddr,
}

impl CAnswer {
    ghost use Rattle.nbt_c.specs.Calling.{with_failure};

    /// Reports it.
    fn report(&mut self, answer: &CallerAnswer)
        ensures { self.new ≡ answer_after self.old (answer_of answer.now) }
    {
        match answer {
            CallerAnswer::Nothing => self.kind = 0,
            CallerAnswer::Connect(to) => {
                self.kind = 1;
                self.to = CAddr::of(*to);
            }
            CallerAnswer::Send(_) => self.kind = 2,
            CallerAnswer::Open => self.kind = 3,
            CallerAnswer::Up(_) => self.kind = 4,
            CallerAnswer::Closed => self.kind = 5,
            CallerAnswer::Fail(failure) => {
                self.report_failure(*failure);
                self.kind = 6;
                self.failure = failure.number();
            }
        }
    }

    /// Reports the code with which a call was refused.
    fn report_failure(&mut self, failure: Failure)
        ensures { self.new ≡ with_failure self.old failure }
    {
        match failure {
            Failure::Refused(code) => self.code = code,
            _ => {}
        }
    }
}

/// The size of a call's memory in octets.
#[unsafe(no_mangle)]
pub extern "C" fn nbt_caller_size() -> usize
    ensures { result ≡ caller_size }
{
    size_of::<Caller>()
}

/// The alignment of that memory in octets.
#[unsafe(no_mangle)]
pub extern "C" fn nbt_caller_align() -> usize
    ensures { result ≡ object_align }
{
    align_of::<Caller>()
}

/// `nbt_session::Caller::begin`: a call to `called` by `calling` stands in the memory, and the program connects to `to`. 0; else
/// none does: 255 where `called` or `calling` holds no name.
#[unsafe(no_mangle)]
pub extern "C" fn nbt_caller_begin(
    caller: &mut CCaller,
    called: &CName,
    calling: &CName,
    to: CAddr,
) -> u8
    requires { IsNone caller.old.caller }
    ensures { Begins called.now calling.now (addr_of to) result caller.new.caller }
{
    given!(called = called.read(), else NO_NAME);
    given!(calling = calling.read(), else NO_NAME);
    let (begun, _) = Caller::begin(called, calling, to.addr());
    caller.put(begun);
    0
}

/// What happened, of what C passes.
pub(crate) fn event_of(alloc: Global, happened: u8, packet: &CPacket) -> Result<Event, u8>
    ensures event { IfOk result (λ event. IsEvent happened packet.now (event_value event)) }
    ensures fault { IfErr result (EventFault happened packet.now) }
{
    match happened {
        0 => Ok(Event::Connected),
        1 => match packet.read(alloc) {
            Ok(packet) => Ok(Event::Packet(packet)),
            Err(number) => Err(number),
        },
        2 => Ok(Event::Lost),
        _ => Err(NO_KIND),
    }
}

/// Leaves in `out` the packet that is to be sent, if there is one.
fn put_sent(answer: &CallerAnswer, out: &mut Octets)
    requires { (packet : PacketValue) → answer_of answer.now ≡ send packet → type_of packet ≡ Request }
    ensures { out.new.items ≡ sent_by (answer_of answer.now) }
{
    match answer {
        CallerAnswer::Send(packet) => put_request(packet, out),
        _ => out.clear(),
    }
}

/// Leaves in `out` the text of a request.
fn put_request(packet: &Packet, out: &mut Octets)
    requires { type_of (packet_of packet.now) ≡ Request }
    ensures { out.new.items ≡ text (packet_of packet.now) }
{
    if let Packet::Request { called, calling } = packet {
        put_names(called, calling, out);
    }
}

/// Calls `nbt_session::Caller::on` with what C passes.
fn call(
    alloc: Global,
    caller: &mut Caller,
    happened: u8,
    packet: &CPacket,
    told: &mut CAnswer,
    out: &mut Octets,
) -> u8
    ensures { (answer : AnswerValue) × CallsFor caller.old happened packet.now result answer caller.new
        × (told.new ≡ answer_after told.old answer) × (out.new.items ≡ sent_by answer) }
{
    match event_of(alloc, happened, packet) {
        Ok(event) => {
            let answer = caller.on(event);
            told.report(&answer);
            put_sent(&answer, out);
            0
        }
        Err(number) => {
            told.report(&CallerAnswer::Nothing);
            out.clear();
            number
        }
    }
}

/// `nbt_session::Caller::on`: what the call does when something happens to its connection: 0 the connection stands, 1 `packet`
/// came, 2 the connection is gone, couldn't be had, or its stream has a fault. Of a message only its kind is read: its octets are
/// the program's. 0, and `told` says what is to be done; of send, the packet stands at the front of `out`, `size` being how many
/// octets it has, else 0. Refused, the call staying as it was, `told` being nothing and `size` 0: 252 where `happened` is none of
/// these or the packet's kind is no TYPE, 255 where a name of a request holds none.
#[unsafe(no_mangle)]
pub extern "C" fn nbt_caller_on(
    alloc: Global,
    caller: &mut CCaller,
    happened: u8,
    packet: &CPacket,
    told: &mut CAnswer,
    out: &mut [u8; 576],
    size: &mut usize,
) -> u8
    requires { IsSome caller.old.caller }
    ensures { Changes caller.old.caller caller.new.caller (λ old new. (answer : AnswerValue) × CallsFor old happened packet.now result answer new
        × (told.new ≡ answer_after told.old answer) × Puts (sent_by answer) out.old out.new size.new) }
{
    let mut sent = Octets::new();
    let result = call(alloc, caller.get(), happened, packet, told, &mut sent);
    *size = put_packet(sent.as_slice(), out);
    result
}
