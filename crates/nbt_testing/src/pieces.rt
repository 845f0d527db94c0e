//! Pieces of packets by their names.

use nbt_text::octets_of;

/// Why there are no octets, where memory was refused.
pub const REFUSED_MEMORY: &str = "memory was refused";

/// Pieces of packets by their names (RFC 1002 section 4.2). `FRED`, `TEAM` and `STAR` are names on the wire, and `again`
/// is a pointer to the question's; the longest scope is three labels of 63 octets and one of 28, so that the name has 255.
/// `NB`, `NULL` and `NBSTAT` are a type and the class; `one-name` and `two-parts` are the counts of a request, `reply` those
/// of a response; `unique` and `group` are the length of an address entry and its NB_FLAGS, and `statistics` those of a
/// status response; `-` is nothing. `NODEB`, `WINSB`, `SPY01` and `LAB4` are names of real programs, `H-unique` the length of an
/// entry and the NB_FLAGS of nmbd.
const PIECES: [(&str, &str); 32] = [
    ("-", ""),
    (
        "FRED",
        "20454746434546454543414341434143414341434143414341434143414341434100",
    ),
    (
        "TEAM",
        "20464545464542454e43414341434143414341434143414341434143414341434100",
    ),
    (
        "STAR",
        "20434b41414141414141414141414141414141414141414141414141414141414100",
    ),
    (
        "TEAM-in-the-longest-scope",
        "20464545464542454e4341434143414341434143414341434143414341434143413f6161616161616161616161616161616161616161616161616161616161616161616161616161616161616161616161616161616161616161616161616161613f6161616161616161616161616161616161616161616161616161616161616161616161616161616161616161616161616161616161616161616161616161613f6161616161616161616161616161616161616161616161616161616161616161616161616161616161616161616161616161616161616161616161616161611c6161616161616161616161616161616161616161616161616161616100",
    ),
    ("again", "c00c"),
    ("NB", "00200001"),
    ("NULL", "000a0001"),
    ("NBSTAT", "00210001"),
    ("one-name", "0001000000000000"),
    ("two-parts", "0001000000000001"),
    ("reply", "0000000100000000"),
    ("0s", "00000000"),
    ("1s", "00000001"),
    ("10s", "0000000a"),
    ("30s", "0000001e"),
    ("60s", "0000003c"),
    ("unique", "00062000"),
    ("group", "0006a000"),
    (
        "statistics",
        "00000000000000000000000000000000000000000000000000000000000000000000000000000000000000000000",
    ),
    ("127.0.0.1", "7f000001"),
    ("127.0.0.2", "7f000002"),
    ("127.0.0.3", "7f000003"),
    (
        "NODEB",
        "20454f45504545454645434341434143414341434143414341434143414341434100",
    ),
    (
        "NODEB-in-LAB.TEST",
        "20454f455045454546454343414341434143414341434143414341434143414341034c4142045445535400",
    ),
    (
        "WINSB",
        "204648454a454f464445434341434143414341434143414341434143414341414100",
    ),
    (
        "SPY01",
        "2046444641464a444144424341434143414341434143414341434143414341414100",
    ),
    (
        "LAB4",
        "20454d45424543444543414341434143414341434143414341434143414341424d00",
    ),
    ("20s", "00000014"),
    ("H-unique", "00066000"),
    ("198.18.137.2", "c6128902"),
    ("198.18.137.3", "c6128903"),
];

/// The octets that words say: pieces by their names, and all else in hexadecimal.
pub fn octets<R: AllocGlobal>(rt: &R, text: &str) -> Result<Vec<u8>, &'static str> {
    let mut octets = Vec::new(rt.alloc());
    for word in text.split(' ') {
        let piece = octets_of(rt.alloc(), digits(word).as_bytes())
            .ok()
            .ok_or(REFUSED_MEMORY)?
            .ok_or("no octets")?;
        put(&mut octets, piece.as_slice())?;
    }
    Ok(octets)
}

/// Puts octets behind others.
pub fn put(octets: &mut Vec<u8>, piece: &[u8]) -> Result<(), &'static str> {
    octets.extend_from_slice(piece).ok().ok_or(REFUSED_MEMORY)
}

fn digits(word: &str) -> &str {
    for (name, digits) in &PIECES {
        if *name == word {
            return *digits;
        }
    }
    word
}
