//! Octets and lines as text. What numbers, times, addresses and names come to is in the scenes of nbt_cases.

use super::expect::{expect, expect_eq};
use hex::FromHexError;
use nbt_show::read_digits;
use nbt_text::{NEWLINE, digits_of, end_line, lines_of, words_said};
use std::process::Abort;

/// Words, and their digits after `hex:`.
static AFTER_HEX: [(&[u8], Option<&[u8]>); 6] = [
    (b"hex:46", Some(b"46")),
    (b"hex:", Some(b"")),
    (b"hex:hex:", Some(b"hex:")),
    (b"hex", None),
    (b"HEX:46", None),
    (b"46", None),
];

/// HEX with marks between its digits, and its octets.
static READ: [(&[u8], &[u8]); 7] = [
    (b"", b""),
    (b" :\r\n", b""),
    (b"00afAF", b"\x00\xaf\xaf"),
    (b"00:01 29\n00", b"\x00\x01\x29\x00"),
    (b"0:0 0\r\n1", b"\x00\x01"),
    (b"::00 01\n", b"\x00\x01"),
    (b"0 0 0 1 2 9 0 0", b"\x00\x01\x29\x00"),
];

/// HEX that can't be read, and why.
static REFUSED: [(&[u8], FromHexError); 5] = [
    (b"0", FromHexError::OddLength),
    (b"00:0", FromHexError::OddLength),
    (b"00-01", FromHexError::OddLength),
    (
        b"0g",
        FromHexError::InvalidHexCharacter { c: 'g', index: 1 },
    ),
    (
        b"00 :\t1",
        FromHexError::InvalidHexCharacter { c: '\t', index: 2 },
    ),
];

fn expect_digits<R: Abort + AllocGlobal>(rt: &R) {
    for row in &AFTER_HEX {
        let (text, digits) = *row;
        expect(rt, &text, digits_of(text) == digits);
    }
    for row in &READ {
        let (text, expected) = *row;
        let octets = read_digits(rt.alloc(), text).expect(rt, "octets");
        expect_eq(rt, &text, &octets.as_slice(), &expected);
    }
    for row in &REFUSED {
        let (text, error) = *row;
        expect(
            rt,
            &text,
            read_digits(rt.alloc(), text).err() == Some(error),
        );
    }
}

/// Inputs, and the words of each line, each with a comma after it, or `-` of a line that is passed over.
static LINES: [(&[u8], &str); 6] = [
    (b"", "-\n"),
    (b"a b", "a,b,\n"),
    (b"a\n", "a,\n-\n"),
    (b"\n", "-\n-\n"),
    (b"  a   b \n#c d\n #c\n   ", "a,b,\n-\n#c,\n-\n"),
    (b"a\r\nb", "a\r,\nb,\n"),
];

fn write_words<R: Abort + AllocGlobal>(rt: &R, line: &[u8], text: &mut String) {
    match words_said(rt.alloc(), line).expect(rt, "memory") {
        None => text.push('-').expect(rt, "memory"),
        Some(words) => {
            for word in words.iter() {
                for octet in *word {
                    text.push(char::from(*octet)).expect(rt, "memory");
                }
                text.push(',').expect(rt, "memory");
            }
        }
    }
    end_line(text).expect(rt, "memory");
}

fn expect_said<R: Abort + AllocGlobal>(rt: &R, input: &[u8], wanted: &str, text: &mut String) {
    text.clear();
    let lines = lines_of(rt.alloc(), input).expect(rt, "memory");
    for line in lines.iter() {
        write_words(rt, *line, text);
    }
    expect_eq(rt, &input, &text.as_str(), &wanted);
}

#[test]
fn octets_and_lines_as_text(rt: HostRuntime) {
    let mut text = String::new(rt.alloc());
    expect_digits(&rt);
    for row in &LINES {
        let (input, wanted) = *row;
        expect_said(&rt, input, wanted, &mut text);
    }
    expect(&rt, &"line feed", NEWLINE == b'\n');
}
