//! What a datagram says, in the field's words.

use nbt_name::{Kind, LentName, Name};
use nbt_packet::{Message, Registration, read};
use nbt_show::{kind_word, rcode_words};
use nbt_text::write_name;
use std::alloc::AllocError;

/// The name that a datagram is about, and the 32-bit address of the machine that requests or holds it, 0 where it names none.
/// `None` where the octets spell no message with a name.
pub fn claimed_in(octets: &[u8]) -> Option<(Name, u32)> {
    match read(octets)? {
        Message::Registration(asked) | Message::Overwrite(asked) | Message::Refresh(asked) => {
            Some((asked.name.to_name(), asked.addr))
        }
        Message::Registered { registration, .. } => {
            Some((registration.name.to_name(), registration.addr))
        }
        Message::Release { name, addr, .. } | Message::Released { name, addr, .. } => {
            Some((name.to_name(), addr))
        }
        Message::Query { name, .. } | Message::StatusRequest { name, .. } => Some((
            name.to_name(),
            0,
        )),
        Message::Found { name, .. } | Message::Status { name, .. } => Some((name.to_name(), 0)),
        Message::Wait { name, .. } => Some((name.to_name(), 0)),
        Message::NotFound { .. } => None,
    }
}

/// Appends what octets say, as `registration FRED 60 s`, `positive FRED 60 s` or `refused: active`; of octets that spell no
/// message how many they are.
pub fn write_said(octets: &[u8], out: &mut String) -> Result<(), AllocError> {
    match read(octets) {
        Some(message) => write_message(&message, out),
        None => {
            let count = octets.len();
            write!(out, "{count} octets")
        }
    }
}

/// The octets of an entry of a positive query response (RFC 1002 section 4.2.13).
const ENTRY: usize = 6;

/// The octets of a name of a status response (RFC 1002 section 4.2.18).
const STATUS_NAME: usize = 18;

fn write_message(message: &Message<'_>, out: &mut String) -> Result<(), AllocError> {
    match message {
        Message::Registration(asked) => write_registration("registration ", asked, out),
        Message::Overwrite(asked) => write_registration("overwrite ", asked, out),
        Message::Refresh(asked) => write_registration("refresh ", asked, out),
        Message::Release { name, .. } => write_about("release ", name, out),
        Message::Query { name, .. } => write_about("query ", name, out),
        Message::StatusRequest { name, .. } => write_about("status request ", name, out),
        Message::Registered {
            rcode: 0,
            registration,
        } => write_registration("positive ", registration, out),
        Message::Registered { rcode, .. } => write_refusal("refused: ", *rcode, out),
        Message::Released { rcode: 0, name, .. } => write_about("released ", name, out),
        Message::Released { rcode, .. } => write_refusal("release refused: ", *rcode, out),
        Message::Found { name, entries, .. } => {
            write_about("found ", name, out)?;
            let count = entries.len() / ENTRY;
            write!(out, ", entries: {count}")
        }
        Message::NotFound { rcode, .. } => write_refusal("not found: ", *rcode, out),
        Message::Status { names, .. } => {
            let count = names.len() / STATUS_NAME;
            write!(out, "status, names: {count}")
        }
        Message::Wait { ttl, .. } => write!(out, "wait {ttl} s"),
    }
}

/// Appends what is said, of which name, its kind where it is a group's, and for how long.
fn write_registration(
    what: &str,
    asked: &Registration<'_>,
    out: &mut String,
) -> Result<(), AllocError> {
    write_about(what, &asked.name, out)?;
    if asked.kind == Kind::Group {
        out.push_str(" group")?;
    }
    let seconds = asked.ttl;
    write!(out, " {seconds} s")
}

/// Appends what is said, and of which name.
fn write_about(what: &str, name: &LentName<'_>, out: &mut String) -> Result<(), AllocError> {
    write_named(what, &name.to_name(), out)
}

/// Appends what is said or done, and of which name.
pub fn write_named(what: &str, name: &Name, out: &mut String) -> Result<(), AllocError> {
    out.push_str(what)?;
    write_name(name, out)
}

/// The RCODE of a name that another has (RFC 1002 section 4.2.6).
const ACTIVE: u8 = 6;

/// Appends a refusal, with its reason.
fn write_refusal(what: &str, rcode: u8, out: &mut String) -> Result<(), AllocError> {
    out.push_str(what)?;
    out.push_str(if rcode == ACTIVE {
        "active"
    } else {
        rcode_words(rcode)
    })
}

/// Appends what a node requests, as `ask FRED unique 60 s`.
pub fn write_asked(name: &Name, kind: Kind, ttl: u32, out: &mut String) -> Result<(), AllocError> {
    write_named("ask ", name, out)?;
    let kind = kind_word(kind);
    write!(out, " {kind} {ttl} s")
}
