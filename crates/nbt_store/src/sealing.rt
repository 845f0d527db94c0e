//! The checksum that closes a line.

ghost use Rattle.std.specs.Prelude.{◌≡◌, List, ℕ, IfSome, IsSomeAnd};
ghost use Rattle.nbt_store.specs.Checksum.{checksum as checksum_of, seal_digits, sealed};

use arrayvec::ArrayVec;

/// The greatest prime below 2^32 (our profile).
const PRIME: u64 = 4_294_967_291;

/// The base of the digits: one more than there are octets (our profile).
const BASE: u64 = 257;

/// How many octets close a line: a space and eight digits.
const SEAL: usize = 9;

/// The checksum of octets, which goes on from that of what stood before them: they are read as further digits to the base 257, modulo
/// 4,294,967,291 (our profile). Of octets that differ in one alone, the checksums differ.
pub fn checksum(before: u32, octets: &[u8]) -> u32
    ensures { result ≡ checksum_of before octets.now }
{
    let mut sum = u64::from(before);
    for octet in octets {
        sum = (sum * BASE + u64::from(*octet) + 1) % PRIME;
    }
    sum as u32
}

/// What closes a line whose words have this checksum: a space, and its eight digits.
fn seal_of(sum: u32) -> ArrayVec<u8, 9>
    ensures { result.items ≡ seal_digits sum }
{
    let mut digits = [0; 8];
    hex::encode_to_slice(sum.to_be_bytes().as_slice(), &mut digits).unwrap();
    let mut octets = ArrayVec::new();
    octets.push(b' ');
    octets.try_extend_from_slice(&digits).unwrap();
    octets
}

/// The words of a line behind one with this checksum, and theirs, if that closes it.
pub(crate) fn unsealed(before: u32, line: &[u8]) -> Option<(&[u8], u32)>
    ensures found { IfSome result (λ p. (line.now ≡ sealed before p.0.now) × (p.1 ≡ checksum_of before p.0.now)) }
    ensures only { (body : List ℕ) → line.now ≡ sealed before body → IsSomeAnd result (λ p. p.0.now ≡ body) }
{
    if line.len() < SEAL {
        return None;
    }
    let at = line.len() - SEAL;
    let (body, closing) = line.split_at(at);
    let sum = checksum(before, body);
    if closing == seal_of(sum).as_slice() {
        Some((body, sum))
    } else {
        None
    }
}
