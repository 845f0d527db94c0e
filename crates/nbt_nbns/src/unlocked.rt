//! The folder of a state as it stands: nothing in it is made or written, and its lock is kept for no longer than a look.

ghost use Rattle.std.specs.Prelude.{IfErr};
ghost use Rattle.nbt_nbns.specs.Opening.{IsStoreFault};

use crate::opening::refused;
use nbt_port::Fault;
use nbt_store::{LOCK_MOST, OTHER_LOCK, is_lock_text, leases_at};
use std::alloc::Global;
use std::fs::{File, OpenFile};
use std::io::{ErrorKind, Read, Write};
use std::rt::Files;
use std::{fs, io};

/// Whether another server has the lock of a folder, which has to be there. The lock is opened as a start opens it, tried as one that several may
/// have, and given back at once; where there is no file `lock` nobody has it. Refused with `Memory` or `Store`: a line in `errors` says why, also
/// where `lock` says something else than a server's does.
pub(crate) fn is_held<M: Files<File = File>, E: Write>(
    machine: &M,
    alloc: Global,
    folder: &str,
    errors: &mut E,
) -> Result<bool, Fault>
    ensures { IfErr result IsStoreFault }
{
    match look_at_lock(machine, alloc, folder) {
        Ok(held) => Ok(held),
        Err(error) => Err(refused("the folder can't be used", folder, error, errors)),
    }
}

fn look_at_lock<M: Files<File = File>>(
    machine: &M,
    alloc: Global,
    folder: &str,
) -> io::Result<bool> {
    let path = format!(in alloc; "{folder}/lock")?;
    if !is_file(machine, path.as_str(), "lock is no regular file")? {
        File::open(machine, folder)?;
        return Ok(false);
    }
    let mut how = File::options();
    how.read(true);
    how.write(true);
    let mut file = how.open(machine, path.as_str())?;
    match share(&file) {
        Ok(()) => {}
        Err(error) if error.kind() == ErrorKind::WouldBlock => return Ok(true),
        Err(error) => return Err(error),
    }
    check_lock_text(&mut file)?;
    Ok(false)
}

/// Refused where the file `lock` says something else than a server's does.
fn check_lock_text(file: &mut File) -> io::Result<()> {
    let mut octets = [0; LOCK_MOST];
    let count = file.read(&mut octets)?;
    if is_lock_text(&octets[..count]) {
        Ok(())
    } else {
        Err(io::Error::other(OTHER_LOCK))
    }
}

/// Takes the lock of a file as one that several may have.
fn share(file: &File) -> io::Result<()> {
    file.try_lock_shared()?;
    Ok(())
}

/// The octets of the file of the leases in a folder, as [`leases_at`] has them for a server of so many rows.
pub(crate) fn leases_in<M: Files<File = File>>(
    machine: &M,
    alloc: Global,
    folder: &str,
    rows: usize,
) -> io::Result<Option<Vec<u8>>> {
    let path = format!(in alloc; "{folder}/leases")?;
    leases_at(machine, alloc, path.as_str(), rows)
}

/// Whether a regular file stands at a path, to which no link leads; refused, with these words, where something else does.
fn is_file<M: Files>(machine: &M, path: &str, why_not: &'static str) -> io::Result<bool> {
    match fs::symlink_metadata(machine, path) {
        Ok(metadata) if metadata.is_file() => Ok(true),
        Ok(_) => Err(io::Error::other(why_not)),
        Err(error) if error.kind() == ErrorKind::NotFound => Ok(false),
        Err(error) => Err(error),
    }
}
