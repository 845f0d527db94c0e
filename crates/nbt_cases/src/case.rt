//! Cases, as their lines say.

use crate::text::Names;
use std::alloc::Global;
use std::rt::Files;
use std::{fs, io};

/// A command, its input, and how it is to end. A `said` of none isn't looked at.
#[derive(Drop)]
pub struct Case {
    pub name: String,
    pub words: Vec<String>,
    pub input: Vec<u8>,
    pub status: Option<u8>,
    pub printed: Vec<u8>,
    pub said: Option<Vec<u8>>,
}

impl Case {
    /// Reads the lines of a case. What they define is added to `names`.
    pub fn read<R: AllocGlobal + Files>(
        rt: &R,
        names: &mut Names,
        lines: &str,
    ) -> io::Result<Case> {
        let mut case = Case {
            name: String::new(rt.alloc()),
            words: Vec::new(rt.alloc()),
            input: Vec::new(rt.alloc()),
            status: None,
            printed: Vec::new(rt.alloc()),
            said: None,
        };
        for line in lines.lines() {
            case.take(rt, names, line)?;
        }
        Ok(case)
    }

    /// Whether there is nothing to be played: remarks and definitions alone.
    pub fn is_empty(&self) -> bool {
        self.words.is_empty() && self.status.is_none() && self.printed.is_empty()
    }

    fn take<R: AllocGlobal + Files>(
        &mut self,
        rt: &R,
        names: &mut Names,
        line: &str,
    ) -> io::Result<()> {
        let alloc = rt.alloc();
        match line.split_once(" ").unwrap_or((line, "")) {
            ("#", text) => self.name = String::from_str(alloc, text)?,
            ("=", text) => names.define(alloc, text)?,
            ("$", text) => self.take_command(rt, names, text)?,
            ("<", text) => names.push_line(alloc, text, &mut self.input)?,
            ("!", text) => {
                let mut said = self.said.take().unwrap_or(Vec::new(alloc));
                if line != "!" {
                    names.push_line(alloc, text, &mut said)?;
                }
                self.said = Some(said);
            }
            ("[status", text) => {
                self.status = text.strip_suffix("]").and_then(|text| text.parse().ok());
            }
            _ => names.push_line(alloc, line, &mut self.printed)?,
        }
        Ok(())
    }

    fn take_command<R: AllocGlobal + Files>(
        &mut self,
        rt: &R,
        names: &Names,
        text: &str,
    ) -> io::Result<()> {
        let alloc = rt.alloc();
        if self.name.is_empty() {
            self.name = String::from_str(alloc, text)?;
        }
        let (words, file) = text.split_once(" < ").unwrap_or((text, ""));
        if !file.is_empty() {
            self.input = fs::read(rt, file)?;
        }
        for word in words.split(" ") {
            let word = if word == "''" { "" } else { word };
            let octets = names.octets_of(alloc, word)?;
            self.words
                .push(String::from_utf8_lossy(alloc, octets.as_slice())?)?;
        }
        Ok(())
    }
}
