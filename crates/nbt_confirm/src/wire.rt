//! The parts that a query and a request to wait are written of (RFC 1002 sections 4.2.1.1 to 4.2.1.3).

ghost use Rattle.std.specs.Prelude.{◌≡◌, ◌≤◌, ◌++◌, length};
ghost use Rattle.nbt_name.specs.Words.{word, long};
ghost use Rattle.nbt_packet.specs.Message.{nb, internet};
ghost use Rattle.nbt_packet.specs.Text.{header};

use arrayvec::ArrayVec;
use nbt_name::{put_long, put_word};

/// Type NB, a name's entries (RFC 1002 section 4.2.1.3).
pub(crate) const NB: u16 = 0x0020;
/// Class IN (RFC 1002 section 4.2.1.3).
pub(crate) const IN: u16 = 0x0001;

/// Leaves in `out` the six words of the header and nothing else; NSCOUNT and ARCOUNT are 0 (RFC 1002 section 4.2.1.1).
pub(crate) fn put_header(
    id: u16,
    flags: u16,
    questions: u16,
    answers: u16,
    out: &mut ArrayVec<u8, 576>,
)
    ensures { out.new.items ≡ header id flags questions answers 0 }
{
    out.clear();
    put_word(out, id);
    put_word(out, flags);
    put_word(out, questions);
    put_word(out, answers);
    put_word(out, 0);
    put_word(out, 0);
}

/// What stands between a record's name and its RDATA: type NB, the class IN, TTL and RDLENGTH (RFC 1002 section 4.2.1.3).
pub(crate) fn put_record_fields(ttl: u32, rdlength: u16, out: &mut ArrayVec<u8, 576>)
    requires { length out.old.items ≤ 560 }
    ensures { out.new.items ≡ out.old.items ++ (word nb ++ word internet ++ long ttl ++ word rdlength) }
{
    put_word(out, NB);
    put_word(out, IN);
    put_long(out, ttl);
    put_word(out, rdlength);
}
