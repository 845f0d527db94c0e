//! Names that are printed with the scope of another. What words come to is in the scenes of nbt_cases.

use super::expect::{expect, expect_eq};
use nbt_text::laws::{printed_name_is_read, printed_octets_are_read, printed_scoped_name_is_read};
use nbt_text::{parse_name, with_octets, write_name};
use std::process::Abort;

/// A name, whose scope alone is taken; octets; and how they are printed with it, which no line of a script can have.
static SCOPED: [(&str, &[u8; 16], &str); 4] = [
    ("A.NETBIOS.COM", b"FILER           ", "FILER.NETBIOS.COM"),
    ("A", b"FILER           ", "FILER"),
    (
        "FRED.hex:2e",
        b"FILER          \0",
        "hex:46494c45522020202020202020202000.hex:2e",
    ),
    (
        "FRED.COM",
        b"*\0\0\0\0\0\0\0\0\0\0\0\0\0\0\0",
        "hex:2a000000000000000000000000000000.COM",
    ),
];

fn expect_printed<R: Abort>(rt: &R, row: &(&str, &[u8; 16], &str), text: &mut String) {
    let (scoped, octets, printed) = *row;
    text.clear();
    match parse_name(scoped.as_bytes()) {
        Some(name) => write_name(&with_octets(octets, &name), text).expect(rt, "memory"),
        None => expect(rt, &scoped, false),
    }
    expect_eq(rt, &scoped, &text.as_str(), &printed);
}

/// No word, and two.
static NO_NAMES: [&[u8]; 2] = [b"", b"F R"];

#[test]
fn names_as_text(rt: HostRuntime) {
    printed_octets_are_read();
    printed_name_is_read();
    printed_scoped_name_is_read();
    let mut text = String::new(rt.alloc());
    for row in &SCOPED {
        expect_printed(&rt, row, &mut text);
    }
    for octets in &NO_NAMES {
        expect(&rt, &octets, parse_name(octets).is_none());
    }
}
