//! Writing a datagram's one written form (RFC 1002 section 4.4).

ghost use Rattle.std.specs.Prelude.{◌≡◌, ◌+◌, ◌<◌, ◌≤◌, ◌^◌, ◌↔◌, [], ◌++◌, length, OnOk, OnErr, IsErr};
ghost use Rattle.nbt_dgram.specs.Dgram.{type_of, fragment, fragment_of, body_of, dgram_of};
ghost use Rattle.nbt_dgram.specs.Text as spec;
ghost use Rattle.nbt_dgram.specs.Text.{names_text, dgm_length, flags_of, body_text, text, Fits};

use crate::dgram::{Body, Dgram, Fragment, Part};
use crate::fault::Full;
use arrayvec::ArrayVec;
use nbt_name::{put_long, put_word};

/// SNT of FLAGS: a P node (RFC 1002 section 4.4.1).
const P_NODE: u8 = 0x04;
/// F of FLAGS: the first fragment.
const FIRST: u8 = 0x02;
/// M of FLAGS: more fragments follow.
const MORE: u8 = 0x01;

/// Leaves in `out` the datagram's one written form and nothing else (RFC 1002 section 4.4): as a P node writes it, and
/// with F alone where it is no fragment. `Full` (1) exactly where that form is longer than 576 octets; `out` is then
/// empty. The caller must ensure that the datagram fits, which `Dgram::fits` tests.
pub fn encode(dgram: &Dgram<'_>, out: &mut ArrayVec<u8, 576>) -> Result<(), Full>
    requires { Fits (dgram_of dgram.now) }
    ensures ok { OnOk result (out.new.items ≡ text (dgram_of dgram.now)) }
    ensures full { IsErr result ↔ (576 < length (text (dgram_of dgram.now))) }
    ensures empty { OnErr result (out.new.items ≡ []) }
{
    put_head(out, dgram);
    match &dgram.body {
        Body::Fragment(fragment) => put_fragment(out, fragment),
        Body::Error(code) => {
            out.push(*code);
            Ok(())
        }
        Body::Lookup(_, name) => {
            name.put_wire(out);
            Ok(())
        }
    }
}

/// The ten octets that each datagram begins with (RFC 1002 section 4.4.1).
fn put_head(out: &mut ArrayVec<u8, 576>, dgram: &Dgram<'_>)
    ensures { out.new.items ≡ spec.head (type_of (body_of dgram.now.body)) (flags_of (body_of dgram.now.body))
        dgram.now.id dgram.now.source }
{
    out.clear();
    out.push(dgram.msg_type().number());
    out.push(flags(&dgram.body));
    put_word(out, dgram.id);
    put_long(out, dgram.source.ip);
    put_word(out, dgram.source.port);
}

/// FLAGS: SNT, F and M.
fn flags(body: &Body<'_>) -> u8
    ensures { result ≡ flags_of (body_of body.now) }
{
    let Body::Fragment(fragment) = body else {
        return P_NODE + FIRST;
    };
    let first = match fragment.part {
        Part::First(_) => FIRST,
        Part::Later(_) => 0,
    };
    let more = if fragment.more { MORE } else { 0 };
    P_NODE + first + more
}

/// DGM_LENGTH, PACKET_OFFSET, the names and the data (RFC 1002 section 4.4.2). `Full` where the datagram is longer than
/// 576 octets.
fn put_fragment(out: &mut ArrayVec<u8, 576>, written: &Fragment<'_>) -> Result<(), Full>
    requires head { length out.old.items ≡ 10 }
    requires fits { dgm_length (fragment_of written.now) < 2 ^ 16 }
    ensures ok { OnOk result (out.new.items ≡ out.old.items ++ body_text (fragment (fragment_of written.now))) }
    ensures full { IsErr result ↔ (576 < 10 + length (body_text (fragment (fragment_of written.now)))) }
    ensures empty { OnErr result (out.new.items ≡ []) }
{
    let count = written.part.names_len() + written.payload.len();
    put_word(out, count as u16);
    put_word(out, written.part.offset());
    put_names(out, &written.part);
    if out.remaining_capacity() < written.payload.len() {
        out.clear();
        return Err(Full);
    }
    out.try_extend_from_slice(written.payload).unwrap();
    Ok(())
}

/// The names, where the fragment is the first.
fn put_names(out: &mut ArrayVec<u8, 576>, part: &Part<'_>)
    requires { length out.old.items ≡ 14 }
    ensures form { out.new.items ≡ out.old.items ++ names_text part.now }
    ensures fits { length (names_text part.now) ≤ 510 }
{
    if let Part::First(names) = part {
        names.source.put_wire(out);
        names.destination.put_wire(out);
    }
}
