//! The room that a file of leases has for lines to come: zeros behind its lines. What is written over them needs no more of the disk, so
//! one that is full takes lines still.

use crate::room::Room;
use std::io;
use std::io::{ErrorKind, Write};

/// So many octets of room a file gets (our profile).
pub(crate) const ROOM: u64 = 1 << 20;

/// So many of them a file gets at once, at most, unless too few are left (our profile): neither they nor their sync take long.
pub(crate) const ROOM_PART: u64 = 1 << 16;

/// Where fewer are left the file gets a part of them anew (our profile).
const WHOLE: u64 = ROOM - ROOM_PART;

/// Where fewer are left, since the disk has none, they are for times alone (our profile).
const LEAST: u64 = ROOM / 2;

/// A line has fewer octets (our profile). Where fewer are left there is room for none.
pub(crate) const LINE_MOST: u64 = 4_096;

/// For so many milliseconds after a disk had no room it isn't asked again (our profile).
pub(crate) const PAUSE: u64 = 1_000;

/// For so many milliseconds after a disk had no room for a new file it isn't asked again for that (our profile).
pub(crate) const PAUSE_BESIDE: u64 = 60_000;

/// So many zeros are written at once.
const PART: usize = 4_096;

/// So many octets of a file a disk writes whole or not at all (our profile).
const SECTOR: usize = 512;

/// How much room that is, of which so many octets are left.
pub(crate) fn room_of(left: u64) -> Room {
    if left >= LEAST {
        Room::Ample
    } else if left >= LINE_MOST {
        Room::Scarce
    } else {
        Room::Spent
    }
}

/// Whether so little is left that the file is to get a part of its room anew.
pub(crate) fn lacks_part(left: u64) -> bool {
    left < WHOLE
}

/// So many octets of room a file gets at once that has so many left: no more than a part, but so many that there is room for changes.
pub(crate) fn part_of(left: u64) -> u64 {
    let part = ROOM_PART.max(LEAST.saturating_sub(left));
    ROOM.saturating_sub(left).min(part)
}

/// Whether this says that the disk is full.
pub(crate) fn is_full(error: &io::Error) -> bool {
    matches!(
        error.kind(),
        ErrorKind::StorageFull | ErrorKind::QuotaExceeded
    )
}

/// Writes so many zeros, a part at a time. Refused with an error of the writer: those before are then written.
pub(crate) fn write_zeros<W: Write>(file: &mut W, count: u64) -> io::Result<()> {
    let zeros = [0; PART];
    let mut left = count;
    for _ in 0..count.div_ceil(PART as u64) {
        let part = usize::try_from(left).unwrap_or(PART).min(PART);
        file.write_all(&zeros[..part])?;
        left = left.saturating_sub(part as u64);
    }
    Ok(())
}

/// What a file has without its room: what stands before the first zero, where zeros follow to the end of its sector. So what a crash leaves
/// of lines that were written over zeros are the first of them, and an octet that became a zero is damage.
pub(crate) fn without_room(octets: &[u8]) -> &[u8] {
    let Some(end) = octets.iter().position(|octet| *octet == 0) else {
        return octets;
    };
    let (lines, behind) = octets.split_at(end);
    let in_sector = (SECTOR - end % SECTOR).min(behind.len());
    if behind[..in_sector].iter().all(|octet| *octet == 0) {
        lines
    } else {
        octets
    }
}
