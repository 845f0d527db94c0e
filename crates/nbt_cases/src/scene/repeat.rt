//! Lines and words that stand for many.

use std::alloc::{AllocError, Global};

/// A line in which a number stands for each `@`: for `@.` it as an address, for `@4` its last four hexadecimal digits, for `@n` four letters
/// of it as a name has them (RFC 1001 section 14.1), and for `@` alone eight digits.
pub fn with_number(alloc: Global, line: &str, number: u32) -> Result<String, AllocError> {
    let mut text = String::new(alloc);
    for (i, part) in line.split("@").enumerate() {
        if i == 0 {
            text.push_str(part)?;
        } else {
            push_number(part, number, &mut text)?;
        }
    }
    Ok(text)
}

/// Appends a number in the form that the text behind it begins with, and the rest of the text.
fn push_number(after: &str, number: u32, text: &mut String) -> Result<(), AllocError> {
    let [first, second, third, fourth] = number.to_be_bytes();
    match after.split_at_checked(1) {
        Some((".", rest)) => write!(text, "{first}.{second}.{third}.{fourth}{rest}"),
        Some(("4", rest)) => write!(text, "{third:02x}{fourth:02x}{rest}"),
        Some(("n", rest)) => {
            for octet in [third, fourth] {
                write!(text, "{:02x}{:02x}", b'A' + octet / 16, b'A' + octet % 16)?;
            }
            text.push_str(rest)
        }
        _ => write!(text, "{number:08x}{after}"),
    }
}

/// Words, in which `WORD:A-B` is the word and a number of eight digits behind it, for each number from A to B.
pub fn listed(alloc: Global, words: &str) -> Result<String, AllocError> {
    let mut text = String::new(alloc);
    for word in words.split(" ") {
        match list_of(word) {
            Some((word, first, last)) => {
                for number in first..=last {
                    write!(text, "{word} {number:08x} ")?;
                }
            }
            None => write!(text, "{word} ")?,
        }
    }
    text.push_str("-")?;
    Ok(text)
}

fn list_of(word: &str) -> Option<(&str, u32, u32)> {
    let (word, numbers) = word.split_once(":")?;
    let (first, last) = numbers.split_once("-")?;
    Some((word, first.parse().ok()?, last.parse().ok()?))
}
