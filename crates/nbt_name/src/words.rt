//! Numbers in octets, most significant octet first (RFC 1002 section 4.2.1): words of two octets and long words of four.

ghost use Rattle.std.specs.Prelude.{◌≡◌, ◌+◌, ◌≤◌, ◌++◌, length};
ghost use Rattle.nbt_name.specs.Words.{word_at, long_at, word, long};

use arrayvec::ArrayVec;
use byteorder::{BigEndian, ByteOrder};

/// The word of two octets at `place`. The caller must ensure that both exist (RFC 1002 section 4.2.1).
pub fn read_word(octets: &[u8], place: usize) -> u16
    requires { place + 2 ≤ length octets.now }
    ensures { result ≡ word_at octets.now place }
{
    BigEndian::read_u16(&octets[place..])
}

/// The long word of four octets at `place`. The caller must ensure that all four exist (RFC 1002 section 4.2.1).
pub fn read_long(octets: &[u8], place: usize) -> u32
    requires { place + 4 ≤ length octets.now }
    ensures { result ≡ long_at octets.now place }
{
    BigEndian::read_u32(&octets[place..])
}

/// Appends the two octets of a word. The caller must ensure that they fit (RFC 1002 section 4.2.1).
pub fn put_word<const CAP: usize>(out: &mut ArrayVec<u8, CAP>, x: u16)
    requires { length out.old.items + 2 ≤ CAP }
    ensures { out.new.items ≡ out.old.items ++ word x }
{
    let mut octets = [0; 2];
    BigEndian::write_u16(&mut octets, x);
    out.try_extend_from_slice(&octets).unwrap();
}

/// Appends the four octets of a long word. The caller must ensure that they fit (RFC 1002 section 4.2.1).
pub fn put_long<const CAP: usize>(out: &mut ArrayVec<u8, CAP>, x: u32)
    requires { length out.old.items + 4 ≤ CAP }
    ensures { out.new.items ≡ out.old.items ++ long x }
{
    let mut octets = [0; 4];
    BigEndian::write_u32(&mut octets, x);
    out.try_extend_from_slice(&octets).unwrap();
}
