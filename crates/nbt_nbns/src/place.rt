//! Where a text is kept, as the list of leases.

ghost use Rattle.std.specs.Prelude.{◌≡◌, ℕ, List, [], IfOk, OnOk, OnErr, map};
ghost use Rattle.std.specs.String.{string_bytes};
ghost use Rattle.nbt_nbns.specs.Places.{file_of};

use crate::content::Content;
use crate::standing::check_place;
use std::alloc::{AllocError, Global};
use std::fs::OpenOptions;
use std::io::{ErrorKind, Write};
use std::marker::Model;
use std::rt::Files;
use std::{fs, io};

/// A place that has one text, which is replaced as a whole.
pub trait Place {
    /// What a replacing is: the place before, the text, and the place afterwards.
    ghost puts: { Self → List ℕ → Self → Type 0 };

    /// What a refusal is: the place before, the text that it refused, and the place afterwards.
    ghost refuses: { Self → List ℕ → Self → Type 0 };

    /// What it is called where it is said that it can't be written.
    fn name(&self) -> &str;

    /// Puts this text in place of the one that it has. A reader sees the one or the other, and never a part. Where the place
    /// refuses it, the error says why, and the earlier text stays.
    fn replace(&mut self, text: &str) -> io::Result<()>
        ensures ok { OnOk result (puts self.old text.now self.new) }
        ensures err { OnErr result (refuses self.old text.now self.new) };
}

/// A place over memory, which keeps each text that it took. A contract sees them in order.
#[derive(Drop)]
pub struct MemoryPlace {
    alloc: Global,
    texts: Vec<String>,
    refusals: u64,
}

impl Model for MemoryPlace {
    ghost use Rattle.std.specs.Prelude.{ℕ, List, map};
    ghost use Rattle.std.specs.String.{string_bytes};

    ghost Value = { List (List ℕ) };

    ghost view = { λ p. map string_bytes p.texts.items };
}

impl MemoryPlace {
    /// It has no text yet.
    pub fn new(alloc: Global) -> MemoryPlace
        ensures { result ≡ [] }
    {
        MemoryPlace {
            alloc,
            texts: Vec::new(alloc),
            refusals: 0,
        }
    }

    /// It refuses as many texts as that, and takes them again afterwards.
    pub fn refuse(&mut self, count: u64)
        ensures { self.new ≡ self.old }
    {
        self.refusals = count;
    }

    /// The texts that it took.
    pub fn texts(&self) -> &[String]
        ensures { map string_bytes result.now ≡ self.now }
    {
        self.texts.as_slice()
    }
}

impl Place for MemoryPlace {
    ghost use Rattle.nbt_nbns.specs.Places.{Adds, Stays};

    ghost puts = { Adds };

    ghost refuses = { Stays };

    fn name(&self) -> &str {
        "the list of leases"
    }

    fn replace(&mut self, text: &str) -> io::Result<()> {
        if self.refusals > 0 {
            self.refusals -= 1;
            return Err(io::Error::other("the place is full"));
        }
        let text = String::from_str(self.alloc, text)?;
        self.texts.push(text)?;
        Ok(())
    }
}

/// A file of this system that has a text of one kind. The text is written to a new file beside it, which is then renamed over it.
/// Both are refused where something else stands at their paths, as [`check_place`] says, and nothing of it changes. A contract
/// sees the kind and the two paths.
#[derive(Drop)]
pub struct FilePlace<'a, R: Files> {
    machine: &'a R,
    content: Content,
    path: String,
    beside: String,
}

impl<'a, R: Files> Model for FilePlace<'a, R> {
    ghost use Rattle.std.specs.String.{string_bytes};
    ghost use Rattle.nbt_nbns.specs.Places.{FileValue};

    ghost Value = { FileValue };

    ghost view = { λ p. record { content = p.content; path = string_bytes p.path; beside = string_bytes p.beside } };
}

impl<'a, R: Files> FilePlace<'a, R> {
    /// The file of this path, which is to have this. The new file beside it has the same path with `.new` after it.
    pub fn new(
        machine: &'a R,
        alloc: Global,
        content: Content,
        path: &str,
    ) -> Result<FilePlace<'a, R>, AllocError>
        ensures { IfOk result (λ place. place ≡ file_of content path.now) }
    {
        let beside = format!(in alloc; "{path}.new")?;
        let path = String::from_str(alloc, path)?;
        Ok(FilePlace {
            machine,
            content,
            path,
            beside,
        })
    }

    /// The first of both paths at which something stands that may not be replaced, and why; `None` where both are free.
    pub fn taken(&self) -> Option<(&str, io::Error)> {
        match check_place(self.machine, self.path.as_str(), self.content) {
            Err(error) => Some((self.path.as_str(), error)),
            Ok(()) => {
                let error = check_place(self.machine, self.beside.as_str(), self.content).err()?;
                Some((self.beside.as_str(), error))
            }
        }
    }
}

impl<'a, R: Files> Place for FilePlace<'a, R> {
    ghost use Rattle.nbt_nbns.specs.Places.{Stays};

    ghost puts = { Stays };

    ghost refuses = { Stays };

    /// The path of the file.
    fn name(&self) -> &str {
        self.path.as_str()
    }

    fn replace(&mut self, text: &str) -> io::Result<()> {
        if let Some((_, error)) = self.taken() {
            return Err(error);
        }
        clear(self.machine, self.beside.as_str())?;
        match write_new(self.machine, self.beside.as_str(), text) {
            Ok(()) => fs::rename(self.machine, self.beside.as_str(), self.path.as_str()),
            Err(error) => {
                let _ = clear(self.machine, self.beside.as_str());
                Err(error)
            }
        }
    }
}

/// Removes the file at this path, if there is one.
fn clear<R: Files>(machine: &R, path: &str) -> io::Result<()> {
    match fs::remove_file(machine, path) {
        Err(error) if error.kind() != ErrorKind::NotFound => Err(error),
        _ => Ok(()),
    }
}

/// Writes a new file. Refused where something stands at its path, also a link.
fn write_new<R: Files>(machine: &R, path: &str, text: &str) -> io::Result<()> {
    let mut file = OpenOptions::new()
        .write(true)
        .create_new(true)
        .open(machine, path)?;
    file.write_all(text.as_bytes())
}
