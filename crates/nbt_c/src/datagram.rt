//! What the octets of a datagram say, whatever names a node holds.

ghost use Rattle.std.specs.Prelude.{◌≡◌, ℕ, ◌≤◌, length, Ok, Err};
ghost use Rattle.nbt_dgram.specs.declared.fault.DgramFault.{DgramFault as Fault};
ghost use Rattle.nbt_dgram.specs.Dgram.{DgramValue, DgramIs, FaultIs, decoded};
ghost use Rattle.nbt_dgram.specs.Numbers.{fault_number};
ghost use Rattle.nbt_dgram.specs.Text.{names_text};
ghost use Rattle.nbt_c.specs.Datagrams.{dgram_after};

use crate::ends::CAddr;
use crate::name::CName;
use nbt_dgram::{Body, Dgram, DgramFault, Part, decode};

/// How many octets stand before a fragment's names, and before the data of one without names (RFC 1002 section 4.4.2).
const FRAGMENT_HEAD: usize = 14;

/// A packet of the datagram service, as C sees it (RFC 1002 section 4.4). A field that its kind doesn't name stays as it was.
#[repr(C)]
#[derive(Drop)]
pub struct CDgram {
    /// MSG_TYPE: 0x10 to 0x12 a fragment or a whole datagram, 0x13 an error, 0x14 to 0x16 a query and its answers.
    pub kind: u8,
    /// Of an error: the code (RFC 1002 section 4.4.3).
    pub code: u8,
    /// Of a fragment: F, it is the first, and has the names.
    pub first: bool,
    /// Of a fragment: M, others follow.
    pub more: bool,
    /// DGM_ID.
    pub id: u16,
    /// Of a fragment: PACKET_OFFSET, how many octets of data stand before its own.
    pub offset: u16,
    /// SOURCE_IP and SOURCE_PORT.
    pub from: CAddr,
    /// Of a first fragment: SOURCE_NAME.
    pub source: CName,
    /// Of a first fragment: DESTINATION_NAME; of a query and its answers: the name that is asked for.
    pub destination: CName,
    /// Of a fragment: where its data begin, counted from the packet's first octet.
    pub place: usize,
    /// Of a fragment: how many octets of data it has.
    pub size: usize,
}

impl CDgram {
    ghost use Rattle.nbt_dgram.specs.Dgram.{body_of, dgram_of};
    ghost use Rattle.nbt_c.specs.Datagrams.{with_part, with_body, dgram_after};

    /// Reports it.
    fn report(&mut self, dgram: &Dgram<'_>)
        ensures { self.new ≡ dgram_after self.old (dgram_of dgram.now) }
    {
        self.report_body(&dgram.body);
        self.kind = dgram.msg_type().number();
        self.id = dgram.id;
        self.from = CAddr::of(dgram.source);
    }

    /// Reports what stands after the ten octets that each datagram begins with.
    fn report_body(&mut self, body: &Body<'_>)
        ensures { self.new ≡ with_body self.old (body_of body.now) }
    {
        match body {
            Body::Fragment(fragment) => {
                self.report_part(&fragment.part);
                self.more = fragment.more;
                self.place = FRAGMENT_HEAD + names_size(&fragment.part);
                self.size = fragment.payload.len();
            }
            Body::Error(code) => self.code = *code,
            Body::Lookup(_, name) => self.destination.store(&Some(name.copy())),
        }
    }

    /// Reports where a fragment stands, and its names.
    fn report_part(&mut self, part: &Part<'_>)
        ensures { self.new ≡ with_part self.old part.now }
    {
        match part {
            Part::First(names) => {
                self.first = true;
                self.offset = 0;
                self.source.store(&Some(names.source.copy()));
                self.destination.store(&Some(names.destination.copy()));
            }
            Part::Later(offset) => {
                self.first = false;
                self.offset = *offset;
            }
        }
    }
}

/// How many octets a fragment's names have.
fn names_size(part: &Part<'_>) -> usize
    ensures value { result ≡ length (names_text part.now) }
    ensures bound { result ≤ 510 }
{
    match part {
        Part::First(names) => names.source.wire_len() + names.destination.wire_len(),
        Part::Later(_) => 0,
    }
}

/// `nbt_dgram::decode`: the datagram that the octets begin with. 0, and it stands in `told`, `next` being how many octets it
/// has; or the first fault's number, 1 to 8, `told` being left as it was and `next` being the fault's place (RFC 1002 section
/// 4.4).
#[unsafe(no_mangle)]
pub extern "C" fn nbt_datagram_read(octets: &[u8], told: &mut CDgram, next: &mut usize) -> u8
    ensures dgram { (d : DgramValue) (count : ℕ) → DgramIs octets.now d count
        → (result ≡ 0) × (told.new ≡ dgram_after told.old d) × (next.new ≡ count) }
    ensures fault { (fault : Fault) → FaultIs octets.now fault
        → (result ≡ fault_number fault.kind) × (told.new ≡ told.old) × (next.new ≡ fault.place) }
{
    report(&decode(octets), told, next)
}

/// Reports what was read: 0, the datagram and how many octets it has, or the fault's number and its place.
fn report(read: &Result<(Dgram<'_>, usize), DgramFault>, told: &mut CDgram, next: &mut usize) -> u8
    ensures dgram { (d : DgramValue) (count : ℕ) → decoded read.now ≡ Ok (d, count)
        → (result ≡ 0) × (told.new ≡ dgram_after told.old d) × (next.new ≡ count) }
    ensures fault { (fault : Fault) → decoded read.now ≡ Err fault
        → (result ≡ fault_number fault.kind) × (told.new ≡ told.old) × (next.new ≡ fault.place) }
{
    match read {
        Ok((dgram, count)) => {
            told.report(dgram);
            *next = *count;
            0
        }
        Err(fault) => {
            *next = fault.place;
            fault.kind.number()
        }
    }
}
