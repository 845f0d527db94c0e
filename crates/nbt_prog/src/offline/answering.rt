//! The command `answer`: one packet in, the reply out.

ghost use Rattle.std.specs.Prelude.{◌≡◌, Option, IfOk, IfErr};
ghost use Rattle.std.specs.String.{string_bytes};
ghost use Rattle.hex.specs.Hex.{encode_lower};
ghost use Rattle.nbt_packet.specs.Message.{MessageValue};
ghost use Rattle.nbt_server.specs.Serving.{ServerValue};
ghost use Rattle.nbt_server.specs.Calls.{ServerTakes};
ghost use Rattle.nbt_text.specs.Lines.{one_line};
ghost use Rattle.nbt_prog.specs.Answering.{new_server as fresh, answer_text, Answers, AnswerArguments};
ghost use Rattle.nbt_prog.specs.Failures.{IsUnreadable};

use crate::offline::failure::Failure;
use crate::offline::printed::{Ending, Printed};
use crate::offline::texts::{address_of, octets_of};
use arrayvec::ArrayVec;
use nbt_lease::{Config, Moment, ROWS_MOST};
use nbt_name::Addr;
use nbt_server::Server;
use nbt_text::{end_line, write_hexadecimal};
use std::alloc::{AllocError, Global};
use std::io::Write;

/// The most octets of a datagram of the name service.
const REPLY_MOST: usize = 576;

/// The greatest life of a datagram, in milliseconds.
const LIFE: u64 = 1000;

/// The longest lease, in seconds.
const LONGEST: u32 = 60;

/// The reply of a new name server to the packet that HEX spells, from the sender that FROM spells, at this time: in hexadecimal, or `none`,
/// on one line. Refused: `Unreadable` where FROM is no address or HEX no octets, in this order, and a line in `errors` says which; then out of
/// memory, which may be at any step.
pub fn answer<E: Write>(
    alloc: Global,
    from: &str,
    hex: &str,
    at: Moment,
    errors: &mut E,
) -> Result<Printed, Failure>
    ensures answered { IfOk result (λ printed. Answers from.now hex.now at (string_bytes printed.text)) }
    ensures ending { IfOk result (λ printed. printed.ending ≡ Ending.Done) }
    ensures failure { IfErr result (IsUnreadable (AnswerArguments from.now hex.now)) }
{
    let sender = address_of(from, errors)?;
    let octets = octets_of(alloc, hex, errors)?;
    let text = reply_line(alloc, sender, at, octets.as_slice())?;
    let ending = Ending::Done;
    Ok(Printed { text, ending })
}

/// The reply of a new server, on a line.
fn reply_line(alloc: Global, from: Addr, at: Moment, octets: &[u8]) -> Result<String, AllocError>
    ensures { IfOk result (λ line. (reply : Option MessageValue) × (after : ServerValue)
        × ServerTakes fresh at from.ip octets.now reply after × (string_bytes line ≡ answer_text reply)) }
{
    let mut server = new_server(alloc);
    let mut reply = ArrayVec::<u8, REPLY_MOST>::new();
    let Ok(is_reply) = server.on_datagram(at, from, octets, &mut reply) else {
        return Err(AllocError);
    };
    if is_reply {
        hexadecimal_line(alloc, reply.as_slice())
    } else {
        String::from_str(alloc, "none\n")
    }
}

/// A server without leases that started at 0.
fn new_server(alloc: Global) -> Server
    ensures { result ≡ fresh }
{
    let config = Config::new(LIFE, LONGEST, ROWS_MOST).unwrap();
    Server::start(alloc, config, Moment::zero())
}

/// The octets in lower-case hexadecimal, and the end of the line.
fn hexadecimal_line(alloc: Global, octets: &[u8]) -> Result<String, AllocError>
    ensures { IfOk result (λ line. string_bytes line ≡ one_line (encode_lower octets.now)) }
{
    let mut line = String::new(alloc);
    write_hexadecimal(octets, &mut line)?;
    end_line(&mut line)?;
    Ok(line)
}
