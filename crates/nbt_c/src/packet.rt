//! A session packet as C sees it.

ghost use Rattle.std.specs.Prelude.{◌≡◌, ◌≢◌, IfOk, IfErr};

use crate::ends::CAddr;
use crate::name::CName;
use crate::results::{NO_KIND, NO_NAME};
use nbt_session::Packet;
use std::alloc::Global;

/// TYPE of a SESSION MESSAGE (RFC 1002 section 4.3.1).
pub(crate) const MESSAGE: u8 = 0x00;
/// TYPE of a SESSION REQUEST.
pub(crate) const REQUEST: u8 = 0x81;
/// TYPE of a POSITIVE SESSION RESPONSE.
pub(crate) const POSITIVE: u8 = 0x82;
/// TYPE of a NEGATIVE SESSION RESPONSE.
pub(crate) const NEGATIVE: u8 = 0x83;
/// TYPE of a SESSION RETARGET RESPONSE.
pub(crate) const RETARGET: u8 = 0x84;
/// TYPE of a SESSION KEEPALIVE.
pub(crate) const KEEP_ALIVE: u8 = 0x85;

/// A session packet, as C sees it, but for a message's octets. A field that its kind doesn't name stays as it was.
#[repr(C)]
#[derive(Drop)]
pub struct CPacket {
    /// TYPE: 0x00 a message, 0x81 a request, 0x82 a positive and 0x83 a negative response, 0x84 a retarget, 0x85 a keep alive.
    pub kind: u8,
    /// Of a negative response: the code (RFC 1002 section 4.3.4).
    pub code: u8,
    /// Of a retarget: where the call is to be made.
    pub to: CAddr,
    /// Of a request: the name that is called.
    pub called: CName,
    /// Of a request: the name that calls.
    pub calling: CName,
}

impl CPacket {
    ghost use Rattle.nbt_session.specs.Packet.{packet_of};
    ghost use Rattle.nbt_c.specs.Sessions.{IsPacketIn, PacketFault, packet_after};

    /// Reports it.
    pub(crate) fn report(&mut self, packet: &Packet)
        ensures { self.new ≡ packet_after self.old (packet_of packet.now) }
    {
        match packet {
            Packet::Message(_) => self.kind = MESSAGE,
            Packet::Request { called, calling } => {
                self.kind = REQUEST;
                self.called = CName::of(called);
                self.calling = CName::of(calling);
            }
            Packet::Positive => self.kind = POSITIVE,
            Packet::Negative(code) => {
                self.kind = NEGATIVE;
                self.code = *code;
            }
            Packet::Retarget(to) => {
                self.kind = RETARGET;
                self.to = CAddr::of(*to);
            }
            Packet::KeepAlive => self.kind = KEEP_ALIVE,
        }
    }

    /// The packet that is held, or the number of what is wrong with it: 252 where its kind is no TYPE, 255 where a name of a request
    /// holds none. A message is read without octets.
    pub(crate) fn read(&self, alloc: Global) -> Result<Packet, u8>
        ensures packet { IfOk result (λ packet. IsPacketIn self.now (packet_of packet)) }
        ensures fault { IfErr result (PacketFault self.now) }
    {
        if self.kind == MESSAGE {
            return Ok(Packet::Message(Vec::new(alloc)));
        }
        self.read_other()
    }

    /// The same of a packet that is no message.
    pub(crate) fn read_other(&self) -> Result<Packet, u8>
        requires { self.now.kind ≢ 0 }
        ensures packet { IfOk result (λ packet. IsPacketIn self.now (packet_of packet)) }
        ensures fault { IfErr result (PacketFault self.now) }
    {
        match self.kind {
            REQUEST => self.read_request(),
            POSITIVE => Ok(Packet::Positive),
            NEGATIVE => Ok(Packet::Negative(self.code)),
            RETARGET => Ok(Packet::Retarget(self.to.addr())),
            KEEP_ALIVE => Ok(Packet::KeepAlive),
            _ => Err(NO_KIND),
        }
    }

    /// A request with the two names that are held.
    fn read_request(&self) -> Result<Packet, u8>
        requires { self.now.kind ≡ 0x81 }
        ensures packet { IfOk result (λ packet. IsPacketIn self.now (packet_of packet)) }
        ensures fault { IfErr result (PacketFault self.now) }
    {
        let Some(called) = self.called.read() else {
            return Err(NO_NAME);
        };
        let Some(calling) = self.calling.read() else {
            return Err(NO_NAME);
        };
        Ok(Packet::Request { called, calling })
    }
}
