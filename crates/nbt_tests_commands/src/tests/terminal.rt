//! Words and octets, as rows write them.

use super::expect::expect;
use arrayvec::ArrayVec;
use std::io;
use std::process::Abort;

/// FRED on the wire (RFC 1001 section 14.1).
const FRED: &str = "20454746434546454543414341434143414341434143414341434143414341434100";

/// TEAM on the wire.
const TEAM: &str = "20464545464542454e43414341434143414341434143414341434143414341434100";

/// The name of `*` and fifteen octets 0 on the wire.
const STAR: &str = "20434b41414141414141414141414141414141414141414141414141414141414100";

/// The words of a line, and then this one, if it isn't empty.
pub fn words_of<'a, R: Abort>(rt: &R, line: &'a str, last: &'a str) -> ArrayVec<&'a str, 24> {
    let mut words = ArrayVec::new();
    for word in line.split(" ") {
        expect(rt, &line, words.try_push(word).is_ok());
    }
    if !last.is_empty() {
        expect(rt, &line, words.try_push(last).is_ok());
    }
    words
}

/// The octets of a datagram in hexadecimal: `_` between them is left out, and `{FRED}`, `{TEAM}` and `{STAR}` are those names on the wire.
pub fn octets_of(text: &str) -> io::Result<ArrayVec<u8, 600>> {
    let mut octets = ArrayVec::new();
    for part in text.split("_") {
        for digits in digits_of(part).as_bytes().chunks(2) {
            let mut octet = [0];
            if hex::decode_to_slice(digits, &mut octet).is_err()
                || octets.try_extend_from_slice(&octet).is_err()
            {
                return Err(io::Error::from(io::ErrorKind::InvalidData));
            }
        }
    }
    Ok(octets)
}

fn digits_of(part: &str) -> &str {
    match part {
        "{FRED}" => FRED,
        "{TEAM}" => TEAM,
        "{STAR}" => STAR,
        _ => part,
    }
}
