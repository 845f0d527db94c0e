//! Worked packets of every kind (RFC 1002 section 4.2).

use crate::pieces::{octets, put};

pub const FIRST: u32 = 0x7F000002;

pub const SECOND: u32 = 0x7F000003;

pub const REGISTRATION: &str = "0001 2900 two-parts FRED NB again NB 60s unique 127.0.0.2";

pub const GRANTED: &str = "0001 ad80 reply FRED NB 60s unique 127.0.0.2";

/// The same by 127.0.0.3, which is refused since the name is active.
pub const RIVAL: &str = "0001 2900 two-parts FRED NB again NB 60s unique 127.0.0.3";

pub const REFUSED: &str = "0001 ad86 reply FRED NB 0s unique 127.0.0.3";

pub const REFRESH: &str = "0001 4000 two-parts FRED NB again NB 60s unique 127.0.0.2";

pub const QUERY: &str = "0008 0100 one-name FRED NB";

/// FRED is 127.0.0.2's, for a second more.
pub const FOUND: &str = "0008 8580 reply FRED NB 1s unique 127.0.0.2";

pub const NOT_FOUND: &str = "0008 8583 reply FRED NULL 0s 0000";

pub const RELEASE: &str = "0002 3000 two-parts FRED NB again NB 0s unique 127.0.0.2";

/// The worked examples of every kind: registration, refresh, release, query and status request; their replies; and a wait
/// of 5 s.
pub const EVERY_KIND: [&str; 12] = [
    REGISTRATION,
    REFRESH,
    RELEASE,
    QUERY,
    "0009 0000 one-name STAR NBSTAT",
    GRANTED,
    "0002 b400 reply FRED NB 0s unique 127.0.0.2",
    "0007 8580 reply TEAM NB 60s 000c a000 127.0.0.2 a000 127.0.0.3",
    NOT_FOUND,
    "0008 8583 00000000 00000000",
    "0009 8400 reply STAR NBSTAT 0s 0041 01 46524544202020202020202020202020 2400 statistics",
    "0009 bc00 reply FRED NB 00000005 0002 2900",
];

/// One of 65,536 packets, each with a name of its own, of fourteen N and two octets: `head` is its flags and counts in words, and
/// `tail` what comes after the name.
pub fn one_of_many<R: AllocGlobal>(
    rt: &R,
    number: u16,
    head: &str,
    tail: &str,
) -> Result<Vec<u8>, &'static str> {
    let head = octets(rt, head)?;
    let tail = octets(rt, tail)?;
    let [high, low] = number.to_be_bytes();
    let letters = [
        b'A' + high / 16,
        b'A' + high % 16,
        b'A' + low / 16,
        b'A' + low % 16,
    ];
    let mut packet = Vec::new(rt.alloc());
    put(&mut packet, &number.to_be_bytes())?;
    put(&mut packet, head.as_slice())?;
    put(&mut packet, b" EOEOEOEOEOEOEOEOEOEOEOEOEOEO")?;
    put(&mut packet, &letters)?;
    put(&mut packet, tail.as_slice())?;
    Ok(packet)
}

/// The registration of one of 65,536 names by 127.0.0.2.
pub fn registration_of_many<R: AllocGlobal>(rt: &R, number: u16) -> Result<Vec<u8>, &'static str> {
    one_of_many(
        rt,
        number,
        "2900 two-parts",
        "00 NB again NB 60s unique 127.0.0.2",
    )
}
