//! An inquiry: what a machine is asked about a name.

ghost use Rattle.std.specs.Prelude.{◌≡◌, ◌<◌, ◌^◌};
ghost use Rattle.nbt_name.specs.Wire.{IsName};
ghost use Rattle.nbt_packet.specs.Message.{nb, query};
ghost use Rattle.nbt_packet.specs.Spelling.{Spells};
ghost use Rattle.nbt_packet.specs.Text.{question_octets};
ghost use Rattle.nbt_confirm.specs.Inquiries.{inquiry_form, way_of};

use crate::wire::{IN, NB, put_header};
use arrayvec::ArrayVec;
use nbt_name::{Addr, Kind, Name, put_word};

/// NAME_SERVICE_UDP_PORT (RFC 1002 section 6): an inquiry goes to this port, and its response comes from it.
pub const NAME_PORT: u16 = 137;

/// The flags of a name query to one end, with RD clear (RFC 1002 section 4.2.12).
const FLAGS: u16 = 0;

/// A question to the machine at an address: which addresses it has this name at.
#[derive(Debug, PartialEq, Eq, Drop)]
pub struct Inquiry {
    /// NAME_TRN_ID of its queries.
    pub id: u16,
    /// The name.
    pub name: Name,
    /// Whether the name is asked for as a unique name or as a group's: entries of the other kind don't count.
    pub kind: Kind,
    /// The 32-bit address that is asked, at port 137.
    pub asked: u32,
    /// The server's own end from which its queries leave; `None` for its first.
    pub local: Option<Addr>,
}

/// Where a query goes.
#[derive(Clone, Copy, Debug, PartialEq, Eq)]
pub struct Way {
    /// To this 32-bit address, at port 137.
    pub asked: u32,
    /// From this end of the server; `None` for its first.
    pub local: Option<Addr>,
}

impl Inquiry {
    /// Where its queries go.
    pub fn way(&self) -> Way
        ensures { result ≡ way_of self.now }
    {
        Way {
            asked: self.asked,
            local: self.local,
        }
    }
}

/// Leaves in `out` an inquiry's query, 50 octets and more with a scope, and nothing else: NAME QUERY REQUEST with RD clear (RFC
/// 1002 section 4.2.12), which a machine answers for the names that it holds itself.
pub fn write_inquiry(inquiry: &Inquiry, out: &mut ArrayVec<u8, 576>)
    ensures form { out.new.items ≡ inquiry_form inquiry.now }
    ensures spells { Spells out.new.items (query inquiry.now.id inquiry.now.name) }
{
    put_query(inquiry.id, &inquiry.name, out);
}

/// A query of one question.
fn put_query(id: u16, name: &Name, out: &mut ArrayVec<u8, 576>)
    ensures form { out.new.items ≡ question_octets id 0 nb name.now }
    ensures number { id < 2 ^ 16 }
    ensures name { IsName name.now }
{
    put_header(id, FLAGS, 1, 0, out);
    name.put_wire(out);
    put_word(out, NB);
    put_word(out, IN);
}
