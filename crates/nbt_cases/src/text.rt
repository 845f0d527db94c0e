//! What the texts of cases stand for.

use std::alloc::{AllocError, Global};

/// Names and their texts.
#[derive(Drop)]
pub struct Names {
    rows: Vec<(String, Vec<u8>)>,
}

impl Names {
    pub fn new(alloc: Global) -> Names {
        Names {
            rows: Vec::new(alloc),
        }
    }

    /// Takes in a name and, after a space, what it stands for from here on.
    pub fn define(&mut self, alloc: Global, text: &str) -> Result<(), AllocError> {
        let (name, text) = text.split_once(" ").unwrap_or((text, ""));
        let octets = self.octets_of(alloc, text)?;
        self.rows.push((String::from_str(alloc, name)?, octets))?;
        Ok(())
    }

    /// What a line stands for, with its end, unless a `\` takes that away.
    pub fn push_line(
        &self,
        alloc: Global,
        line: &str,
        octets: &mut Vec<u8>,
    ) -> Result<(), AllocError> {
        match line.strip_suffix("\\") {
            Some(text) => self.push_text(alloc, text, octets),
            None => {
                self.push_text(alloc, line, octets)?;
                octets.push(b'\n')?;
                Ok(())
            }
        }
    }

    /// What a text stands for.
    pub fn octets_of(&self, alloc: Global, text: &str) -> Result<Vec<u8>, AllocError> {
        let mut octets = Vec::new(alloc);
        self.push_text(alloc, text, &mut octets)?;
        Ok(octets)
    }

    /// These words, in each of which that is a name, its text stands for it.
    pub fn words_of(&self, alloc: Global, text: &str) -> Result<String, AllocError> {
        let mut words = String::new(alloc);
        for word in text.split(" ") {
            if !words.is_empty() {
                words.push_str(" ")?;
            }
            let text = self.once(alloc, word)?;
            words.push_str(String::from_utf8_lossy(alloc, text.as_slice())?.as_str())?;
        }
        Ok(words)
    }

    fn push_text(&self, alloc: Global, text: &str, octets: &mut Vec<u8>) -> Result<(), AllocError> {
        for (i, part) in text.split("${").enumerate() {
            match part.split_once("}") {
                Some((items, after)) if i > 0 => {
                    for item in items.split("_") {
                        self.push_item(alloc, item, octets)?;
                    }
                    push_escaped(after, octets)?;
                }
                _ => push_escaped(part, octets)?,
            }
        }
        Ok(())
    }

    /// An item, as often as it says.
    fn push_item(&self, alloc: Global, item: &str, octets: &mut Vec<u8>) -> Result<(), AllocError> {
        let (item, count) = item.split_once("*").unwrap_or((item, "1"));
        let once = self.once(alloc, item)?;
        for _ in 0..count.parse::<u32>().unwrap_or(0) {
            octets.extend_from_slice(once.as_slice())?;
        }
        Ok(())
    }

    /// The text of a name, or else the item itself.
    fn once(&self, alloc: Global, item: &str) -> Result<Vec<u8>, AllocError> {
        for (name, octets) in self.rows.iter() {
            if name.as_str() == item {
                return Vec::from_slice(alloc, octets.as_slice());
            }
        }
        let mut octets = Vec::new(alloc);
        push_escaped(item, &mut octets)?;
        Ok(octets)
    }
}

/// A text in which `\XX` is an octet.
fn push_escaped(text: &str, octets: &mut Vec<u8>) -> Result<(), AllocError> {
    for (i, part) in text.split("\\").enumerate() {
        match octet_of(part) {
            Some((octet, after)) if i > 0 => {
                octets.push(octet)?;
                octets.extend_from_slice(after.as_bytes())?;
            }
            _ => octets.extend_from_slice(part.as_bytes())?,
        }
    }
    Ok(())
}

/// The octet of the two digits that a text begins with, and what comes after them.
fn octet_of(text: &str) -> Option<(u8, &str)> {
    let (digits, after) = text.split_at_checked(2)?;
    let octet = u8::from_str_radix(digits, 16).ok()?;
    Some((octet, after))
}
