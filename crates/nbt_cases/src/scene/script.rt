//! Scenes, as their lines say.

use crate::scene::line::{Line, datagram_of, whole_line};
use crate::scene::repeat::with_number;
use crate::text::Names;
use nbt_lease::ROWS_MOST;
use nbt_port::Datagram;
use std::alloc::{AllocError, Global};

/// A command, and what happens to it and has to be done by it, in order.
#[derive(Drop)]
pub struct Scene {
    pub name: String,
    pub words: Vec<String>,
    /// The moment at which the command starts.
    pub start: u64,
    /// How many octets its output takes.
    pub room: usize,
    /// How many leases a name server's table has room for.
    pub rows: usize,
    /// The leases that a name server goes on with, in words.
    pub kept: Vec<String>,
    /// The file of fixed names.
    pub fixed: Vec<u8>,
    /// The files that take its place later, in their order.
    pub later: Vec<LaterFile>,
    pub lines: Vec<Line>,
    /// The lines as they were written.
    pub texts: Vec<String>,
}

impl Scene {
    /// Reads the lines of a scene. What they define is added to `names`.
    pub fn read<R: AllocGlobal>(
        rt: &R,
        names: &mut Names,
        lines: &str,
    ) -> Result<Scene, AllocError> {
        let mut scene = Scene {
            name: String::new(rt.alloc()),
            words: Vec::new(rt.alloc()),
            start: 0,
            room: usize::MAX,
            rows: ROWS_MOST,
            kept: Vec::new(rt.alloc()),
            fixed: Vec::new(rt.alloc()),
            later: Vec::new(rt.alloc()),
            lines: Vec::new(rt.alloc()),
            texts: Vec::new(rt.alloc()),
        };
        let mut repeated: Option<Repeated> = None;
        for line in lines.lines() {
            repeated = match repeated.take() {
                Some(body) if line == "next" => {
                    scene.take_all(rt, names, &body)?;
                    None
                }
                Some(mut body) => {
                    body.lines.push(String::from_str(rt.alloc(), line)?)?;
                    Some(body)
                }
                None => scene.begin(rt, names, line)?,
            };
        }
        if repeated.is_some() {
            scene.lines.push(Line::Unknown)?;
        }
        Ok(scene)
    }

    /// Takes a line, unless it begins lines that are repeated.
    fn begin<R: AllocGlobal>(
        &mut self,
        rt: &R,
        names: &mut Names,
        line: &str,
    ) -> Result<Option<Repeated>, AllocError> {
        let repeated = Repeated::begin(rt.alloc(), line);
        if repeated.is_none() {
            self.take(rt, names, line)?;
        }
        Ok(repeated)
    }

    /// Takes lines for each of their numbers.
    fn take_all<R: AllocGlobal>(
        &mut self,
        rt: &R,
        names: &mut Names,
        body: &Repeated,
    ) -> Result<(), AllocError> {
        for number in body.first..=body.last {
            for line in body.lines.iter() {
                let line = with_number(rt.alloc(), line.as_str(), number)?;
                self.take(rt, names, line.as_str())?;
            }
        }
        Ok(())
    }

    /// Whether there is nothing to be played: remarks and definitions alone.
    pub fn is_empty(&self) -> bool {
        self.words.is_empty() && self.lines.is_empty()
    }

    fn take<R: AllocGlobal>(
        &mut self,
        rt: &R,
        names: &mut Names,
        line: &str,
    ) -> Result<(), AllocError> {
        let alloc = rt.alloc();
        match line.split_once(" ").unwrap_or((line, "")) {
            ("#", text) => {
                if self.name.is_empty() {
                    self.name = String::from_str(alloc, text)?;
                }
            }
            ("=", text) => names.define(alloc, text)?,
            ("$", text) => self.take_command(alloc, names, text)?,
            ("start", text) => self.start = text.parse().unwrap_or(u64::MAX),
            ("do", text) => self.take_request(alloc, names, line, text)?,
            ("cuts", text) => self.take_cut(rt, names, text)?,
            ("room", text) => self.room = text.parse().unwrap_or(0),
            ("rows", text) => self.rows = text.parse().unwrap_or(0),
            ("kept", text) => self.kept.push(names.words_of(alloc, text)?)?,
            ("fixed", text) => names.push_line(alloc, text, &mut self.fixed)?,
            ("replaced", text) => self.later.push(LaterFile {
                at: text.parse().unwrap_or(u64::MAX),
                octets: Vec::new(alloc),
            })?,
            ("later", text) => {
                if let Some(file) = self.later.as_mut_slice().last_mut() {
                    names.push_line(alloc, text, &mut file.octets)?;
                }
            }
            _ => {
                self.lines.push(Line::read(rt, names, line)?)?;
                self.texts.push(String::from_str(alloc, line)?)?;
            }
        }
        Ok(())
    }

    /// Takes what is asked, and the answer behind ` = `, if there is one.
    fn take_request(
        &mut self,
        alloc: Global,
        names: &Names,
        line: &str,
        text: &str,
    ) -> Result<(), AllocError> {
        let (words, answer) = text.split_once(" = ").unwrap_or((text, ""));
        self.lines.push(Line::Asks(names.words_of(alloc, words)?))?;
        self.texts.push(String::from_str(alloc, line)?)?;
        if !answer.is_empty() {
            self.lines
                .push(Line::Prints(whole_line(alloc, names, answer)?))?;
            self.texts.push(String::from_str(alloc, line)?)?;
        }
        Ok(())
    }

    /// Takes a datagram that comes cut to each shorter length.
    fn take_cut<R: AllocGlobal>(
        &mut self,
        rt: &R,
        names: &Names,
        text: &str,
    ) -> Result<(), AllocError> {
        let Some(whole) = datagram_of(rt, names, text)? else {
            return Ok(self.lines.push(Line::Unknown)?);
        };
        for length in 0..whole.octets.len() {
            let octets = Vec::from_slice(rt.alloc(), &whole.octets[..length])?;
            let route = whole.route;
            self.lines.push(Line::Comes(Datagram { route, octets }))?;
            self.texts.push(String::from_str(rt.alloc(), text)?)?;
        }
        Ok(())
    }

    fn take_command(&mut self, alloc: Global, names: &Names, text: &str) -> Result<(), AllocError> {
        if self.name.is_empty() {
            self.name = String::from_str(alloc, text)?;
        }
        for word in names.words_of(alloc, text)?.as_str().split(" ") {
            self.words.push(String::from_str(alloc, word)?)?;
        }
        Ok(())
    }
}

/// A file of fixed names that takes the place of another one, at this moment.
#[derive(Drop)]
pub struct LaterFile {
    pub at: u64,
    pub octets: Vec<u8>,
}

/// Lines that are repeated for each number from the first to the last, which stands for `@` in them.
#[derive(Drop)]
struct Repeated {
    first: u32,
    last: u32,
    lines: Vec<String>,
}

impl Repeated {
    /// The lines behind `for FIRST LAST`; none behind another.
    fn begin(alloc: Global, line: &str) -> Option<Repeated> {
        let (first, last) = line.strip_prefix("for ")?.split_once(" ")?;
        Some(Repeated {
            first: first.parse().ok()?,
            last: last.parse().ok()?,
            lines: Vec::new(alloc),
        })
    }
}
