//! How a program uses the libraries: it starts a name server, hands it the octets of one datagram, and prints the reply.
//! The octets and the moment would come from a socket and a clock.
#![tactic(auto)]

use arrayvec::ArrayVec;
use nbt_lease::{Config, Moment};
use nbt_name::Addr;
use nbt_server::Server;
use std::io;

/// FRED asks for its name for 60 seconds, from 127.0.0.2 (RFC 1002 section 4.2.2).
const REGISTRATION: &[u8; 68] = b"\x00\x01\x29\x00\x00\x01\x00\x00\x00\x00\x00\x01\
      \x20EGFCEFEECACACACACACACACACACACACA\x00\x00\x20\x00\x01\
      \xC0\x0C\x00\x20\x00\x01\x00\x00\x00\x3C\x00\x06\x20\x00\x7F\x00\x00\x02";

fn main(rt: HostRuntime) -> io::Result<()> {
    // A datagram lives 1,000 ms at most, the longest lease is 60 s, and there is room for 4,096 leases.
    let (Ok(config), Some(now)) = (Config::new(1_000, 60, 4_096), Moment::new(60_000)) else {
        return Ok(());
    };
    let sender = Addr {
        ip: 0x7F000002,
        port: 137,
    };
    let mut server = Server::start(rt.alloc(), config, Moment::zero());
    let mut reply = ArrayVec::new();
    match server.on_datagram(now, sender, REGISTRATION, &mut reply) {
        Ok(true) => println!(rt; "{}", hex::encode(rt.alloc(), reply.as_slice())?),
        Ok(false) => println!(rt; "no reply"),
        Err(fault) => println!(rt; "{fault}"),
    }
}
