//! The datagram service: data are split, sent and accepted (RFC 1002 sections 5.3.2 and 5.3.3).

use crate::end_node::{EndNode, NameServer, receive, send};
use crate::outcome::Outcome;
use arrayvec::ArrayVec;
use nbt_dgram::{Accept, Delivery, Fragments, Reassembly, accept, encode, split};
use nbt_name::{Addr, Name};
use nbt_port::{Device, Port};

/// The DGM_ID of the one datagram (RFC 1002 section 4.4.1).
const ID: u16 = 1;

/// How often the receiver receives for one datagram, which comes in two packets at most. The rest is for what another program
/// of this system sends there, and for a receive that ends early.
const RECEIVES: u32 = 8;

/// Sends data from a name of one end node to a name of another, at `to`. Returns how many octets were handed up there
/// (RFC 1002 sections 5.3.2 and 5.3.3).
pub fn send_data<P: Port + Drop>(
    sender: &mut EndNode<P>,
    receiver: &mut EndNode<P>,
    server: &mut NameServer<P>,
    source: &Name,
    destination: &Name,
    to: Addr,
    payload: &[u8],
) -> Result<Outcome<'static>, Device> {
    let own = sender.datagrams_at;
    let Ok(packets) = split(
        Delivery::DirectUnique,
        ID,
        own,
        &source.lend(),
        &destination.lend(),
        payload,
    ) else {
        return Ok(Outcome::Nothing);
    };
    send_packets(&mut sender.datagrams, to, &packets)?;
    receive_data(receiver, server, own)
}

/// Sends each packet.
fn send_packets<P: Port>(port: &mut P, to: Addr, packets: &Fragments<'_>) -> Result<(), Device> {
    let mut out = ArrayVec::new();
    for packet in packets.as_slice() {
        if packet.fits() && encode(packet, &mut out).is_ok() {
            send(port, to, out.as_slice())?;
        }
    }
    Ok(())
}

/// Receives until the data that `source` sent are handed up, and returns how many octets they are. What another program sent is
/// ignored. `Nothing` where they aren't handed up by the last receive.
fn receive_data<P: Port + Drop>(
    end: &mut EndNode<P>,
    server: &mut NameServer<P>,
    source: Addr,
) -> Result<Outcome<'static>, Device> {
    let mut octets = ArrayVec::new();
    for _ in 0..RECEIVES {
        let from = receive(&mut end.datagrams, &mut octets)?.map(|route| route.peer);
        if from == Some(source) {
            if let Some(count) = accept_one(end, server, octets.as_slice())? {
                return Ok(Outcome::Octets(count));
            }
        }
    }
    Ok(Outcome::Nothing)
}

/// Accepts one datagram, and returns how many octets are handed up, where its data are whole. Where its destination
/// name isn't held, the error packet is sent (RFC 1002 sections 4.4.3 and 5.3.3).
fn accept_one<P: Port + Drop>(
    end: &mut EndNode<P>,
    server: &mut NameServer<P>,
    octets: &[u8],
) -> Result<Option<usize>, Device> {
    let mut out = ArrayVec::new();
    let now = server.now();
    let own = end.datagrams_at;
    let mut room = Reassembly::new();
    match accept(
        &mut end.joiner,
        now,
        &end.node,
        own,
        octets,
        &mut room,
        &mut out,
    ) {
        Accept::Up(_, payload) => Ok(Some(payload.len())),
        Accept::Reply(to) => {
            send(&mut end.datagrams, to, out.as_slice())?;
            Ok(None)
        }
        _ => Ok(None),
    }
}
