//! Reading a datagram from octets (RFC 1002 section 4.4).

ghost use Rattle.std.specs.Prelude.{◌≡◌, ◌≢◌, ℕ, ◌+◌, ◌<◌, ◌≤◌, ◌↔◌, true, Ok, Err, length, IfOk, IfErr};
ghost use Rattle.nbt_name.specs.Reading.{PlainNameAt};
ghost use Rattle.nbt_dgram.specs.declared.fault.DgramFault.{DgramFault};
ghost use Rattle.nbt_dgram.specs.Numbers.{fault_within as name_fault, short, bad_offset, head_size};
ghost use Rattle.nbt_dgram.specs.Fields.{first_at, more_at, offset_at, end_at};
ghost use Rattle.nbt_dgram.specs.Text.{Fits};
ghost use Rattle.nbt_dgram.specs.Inner.Decoding.{NameFaultAt, IsReadPart};
ghost use Rattle.nbt_dgram.specs.Dgram.{DgramValue, IsTypeAt, FragmentAt, BodyAt, DgramIs, NamesFault, FragmentFault, FaultIs, type_of, fragment_of, body_of, dgram_of, decoded};

use crate::dgram::{Body, Dgram, Fragment, Names, Part};
use crate::fault::{DgramFault, DgramFaultKind};
use crate::msg_type::{Delivery, Lookup, MsgType};
use nbt_name::{Addr, LentName, NameFault, NameFaultKind, find_plain, read_long, read_word};

/// How many octets each datagram begins with: up to SOURCE_PORT.
const HEAD: usize = 10;
/// How many octets stand before a fragment's names: up to PACKET_OFFSET.
const FRAGMENT_HEAD: usize = 14;
/// Where DGM_LENGTH stands (RFC 1002 section 4.4.2).
const LENGTH: usize = 10;
/// Where PACKET_OFFSET stands (RFC 1002 section 4.4.2).
const OFFSET: usize = 12;

/// Reads the datagram that the octets begin with, and returns it with how many octets it took. The fault is the first
/// one in reading order: `BadType` (6) at 0; `Short` (1) where the octets up to PACKET_OFFSET, an error's code or, for
/// a lookup, SOURCE_PORT aren't all there; `BadOffset` (7) at 12 where F is set and PACKET_OFFSET isn't 0; `Short`
/// where the octets that DGM_LENGTH counts aren't all there; then the names' own faults (1 to 5), but `BadLength` (8)
/// at 10 where a name passes the octets that DGM_LENGTH counts. Octets after the datagram are not looked at (RFC 1002
/// section 4.4; the order is our profile's).
pub fn decode(octets: &[u8]) -> Result<(Dgram<'_>, usize), DgramFault>
    ensures dgram { (d : DgramValue) (n : ℕ) → (decoded result ≡ Ok (d, n)) ↔ DgramIs octets.now d n }
    ensures fault { (fault : DgramFault) → (decoded result ≡ Err fault) ↔ FaultIs octets.now fault }
    ensures within { IfOk result (λ read. read.1 ≤ length octets.now) }

    // What was read can be written.
    ensures fits { IfOk result (λ read. Fits (dgram_of read.0)) }
{
    dgram_at(octets)
}

/// Reads a datagram: what is found stands there.
fn dgram_at(octets: &[u8]) -> Result<(Dgram<'_>, usize), DgramFault>
    ensures dgram { IfOk result (λ read. DgramIs octets.now (dgram_of read.0) read.1) }
    ensures fault { IfErr result (FaultIs octets.now) }
    ensures within { IfOk result (λ read. read.1 ≤ length octets.now) }
{
    let msg_type = type_at(octets)?;
    let (body, end) = body_at(octets, msg_type)?;
    let source = Addr {
        ip: read_long(octets, 4),
        port: read_word(octets, 8),
    };
    let id = read_word(octets, 2);
    Ok((Dgram { id, source, body }, end))
}

/// The type, where the octets are there that each datagram of the type has.
fn type_at(octets: &[u8]) -> Result<MsgType, DgramFault>
    ensures msg_type { IfOk result (λ t. IsTypeAt octets.now t × (head_size t ≤ length octets.now)) }
    ensures fault { IfErr result (FaultIs octets.now) }
{
    let Some(&number) = octets.first() else {
        return Err(short_of(octets));
    };
    let Some(msg_type) = MsgType::of(number) else {
        return Err(DgramFault {
            kind: DgramFaultKind::BadType,
            place: 0,
        });
    };
    if octets.len() < least_of(msg_type) {
        return Err(short_of(octets));
    }
    Ok(msg_type)
}

/// How many octets a datagram of this type has at least.
fn least_of(msg_type: MsgType) -> usize
    ensures { result ≡ head_size msg_type }
{
    match msg_type {
        MsgType::Data(_) => FRAGMENT_HEAD,
        MsgType::Error => HEAD + 1,
        MsgType::Lookup(_) => HEAD,
    }
}

/// What stands after the ten octets that each datagram begins with.
fn body_at(octets: &[u8], msg_type: MsgType) -> Result<(Body<'_>, usize), DgramFault>
    requires kind { IsTypeAt octets.now msg_type }
    requires head { head_size msg_type ≤ length octets.now }
    ensures body { IfOk result (λ read. BodyAt octets.now (body_of read.0) read.1) }
    ensures kind { IfOk result (λ read. type_of (body_of read.0) ≡ msg_type) }
    ensures fault { IfErr result (FaultIs octets.now) }
    ensures within { IfOk result (λ read. read.1 ≤ length octets.now) }
{
    match msg_type {
        MsgType::Data(delivery) => {
            let (fragment, end) = fragment_at(octets, delivery)?;
            Ok((Body::Fragment(fragment), end))
        }
        MsgType::Error => Ok((Body::Error(octets[HEAD]), HEAD + 1)),
        MsgType::Lookup(lookup) => {
            let (name, end) = find_plain(octets, HEAD)?;
            Ok((Body::Lookup(lookup, name), end))
        }
    }
}

/// A fragment: the octets that DGM_LENGTH counts, with F after its names.
fn fragment_at(octets: &[u8], delivery: Delivery) -> Result<(Fragment<'_>, usize), DgramFault>
    requires { 14 ≤ length octets.now }
    ensures fragment { IfOk result (λ read. FragmentAt octets.now (fragment_of read.0) read.1) }
    ensures delivery { IfOk result (λ read. read.0.delivery ≡ delivery) }
    ensures fault { IfErr result (FragmentFault octets.now) }
    ensures within { IfOk result (λ read. read.1 ≤ length octets.now) }
{
    let first = is_first(octets);
    let offset = offset_if(octets, first)?;
    let end = end_of(octets)?;
    let (part, begin) = part_at(&octets[..end], first, offset)?;
    let fragment = Fragment {
        delivery,
        part,
        more: has_more(octets),
        payload: &octets[begin..end],
    };
    Ok((fragment, end))
}

/// PACKET_OFFSET, which is 0 in a first fragment.
fn offset_if(octets: &[u8], first: bool) -> Result<u16, DgramFault>
    requires { 14 ≤ length octets.now }
    ensures offset { IfOk result (λ offset. (offset ≡ offset_at octets.now) × (first ≡ true → offset ≡ 0)) }
    ensures fault { IfErr result (λ fault. (first ≡ true) × (offset_at octets.now ≢ 0) × (fault ≡ bad_offset)) }
{
    let offset = read_word(octets, OFFSET);
    if first && offset != 0 {
        return Err(DgramFault {
            kind: DgramFaultKind::BadOffset,
            place: OFFSET,
        });
    }
    Ok(offset)
}

/// Where the octets end that DGM_LENGTH counts.
fn end_of(octets: &[u8]) -> Result<usize, DgramFault>
    requires { 14 ≤ length octets.now }
    ensures end { IfOk result (λ end. (end ≡ end_at octets.now) × (end ≤ length octets.now)) }
    ensures fault { IfErr result (λ fault. (length octets.now < end_at octets.now) × (fault ≡ short octets.now)) }
{
    let end = FRAGMENT_HEAD + usize::from(read_word(octets, LENGTH));
    if octets.len() < end {
        return Err(short_of(octets));
    }
    Ok(end)
}

/// F, the first fragment.
fn is_first(octets: &[u8]) -> bool
    requires { 14 ≤ length octets.now }
    ensures { result ≡ first_at octets.now }
{
    octets[1] / 2 % 2 == 1
}

/// M, more fragments follow.
fn has_more(octets: &[u8]) -> bool
    requires { 14 ≤ length octets.now }
    ensures { result ≡ more_at octets.now }
{
    octets[1] % 2 == 1
}

/// Where a fragment stands, with its names where it is the first, and the place after them.
fn part_at(octets: &[u8], first: bool, offset: u16) -> Result<(Part<'_>, usize), DgramFault>
    requires { 14 ≤ length octets.now }
    ensures part { IfOk result (λ read. IsReadPart octets.now first offset read.0 read.1) }
    ensures fault { IfErr result (λ fault. (first ≡ true) × NamesFault octets.now fault) }
    ensures within { IfOk result (λ read. read.1 ≤ length octets.now) }
{
    if !first {
        return Ok((Part::Later(offset), FRAGMENT_HEAD));
    }
    let (source, named) = name_at(octets, FRAGMENT_HEAD)?;
    let (destination, next) = name_at(octets, named)?;
    let names = Names {
        source,
        destination,
    };
    Ok((Part::First(names), next))
}

/// A plain name within the octets that DGM_LENGTH counts.
fn name_at(octets: &[u8], place: usize) -> Result<(LentName<'_>, usize), DgramFault>
    requires { place ≤ length octets.now }
    ensures name { IfOk result (λ read. PlainNameAt octets.now place read.0 read.1) }
    ensures fault { IfErr result (NameFaultAt octets.now place) }
    ensures within { IfOk result (λ read. read.1 ≤ length octets.now) }
{
    match find_plain(octets, place) {
        Ok(read) => Ok(read),
        Err(fault) => Err(fault_within(fault)),
    }
}

/// A name's fault within the octets that DGM_LENGTH counts: where these end within the name, DGM_LENGTH is wrong.
fn fault_within(fault: NameFault) -> DgramFault
    ensures { result ≡ name_fault fault }
{
    if matches!(fault.kind, NameFaultKind::Short) {
        return DgramFault {
            kind: DgramFaultKind::BadLength,
            place: LENGTH,
        };
    }
    DgramFault::from(fault)
}

/// The octets end where one is missing.
fn short_of(octets: &[u8]) -> DgramFault
    ensures { result ≡ short octets.now }
{
    DgramFault {
        kind: DgramFaultKind::Short,
        place: octets.len(),
    }
}
