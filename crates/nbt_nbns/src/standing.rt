//! What stands at the path of a file that is to be kept.

ghost use Rattle.std.specs.Prelude.{◌≤◌, IfOk, length};

use crate::content::Content;
use nbt_log::may_replace;
use std::fs::Metadata;
use std::io::{ErrorKind, Read};
use std::rt::Files;
use std::{fs, io};

/// The most octets of a first line that are looked at, which are more than any kept file's has.
const HEAD_MOST: usize = 64;

/// Looks at what stands at a path. Passed where nothing does, an empty file, or one whose first line is that of what the file is to
/// have. Refused at all else: a link, a folder, a device, a pipe, a socket, and a file with another first line; and where the
/// system refuses to look. Nothing there changes.
pub(crate) fn check_place<R: Files>(machine: &R, path: &str, content: Content) -> io::Result<()> {
    match fs::symlink_metadata(machine, path) {
        Ok(metadata) => check_kind(&metadata)?,
        Err(error) if error.kind() == ErrorKind::NotFound => return Ok(()),
        Err(error) => return Err(error),
    }
    let head = content.head();
    let mut octets = [0; HEAD_MOST];
    let most = head.len().min(HEAD_MOST);
    let count = read_first(&mut fs::open(machine, path)?, &mut octets[..most])?;
    if may_replace(head, &octets[..count]) {
        Ok(())
    } else {
        Err(io::Error::other(why_not(content)))
    }
}

/// Why a file with another first line stays.
fn why_not(content: Content) -> &'static str {
    match content {
        Content::Leases => "its first line isn't '# live leases of nbt nbns': name another file",
        Content::Hosts => "its first line isn't '# hosts of nbt nbns': name another file",
        Content::Stats => "its first line isn't '# statistics of nbt nbns': name another file",
    }
}

/// Refused at all but a regular file.
fn check_kind(metadata: &Metadata) -> io::Result<()> {
    if metadata.is_file() {
        Ok(())
    } else if metadata.is_symlink() {
        Err(io::Error::other("a link is there"))
    } else if metadata.is_dir() {
        Err(io::Error::other("a folder is there"))
    } else {
        Err(io::Error::other("a device, a pipe or a socket is there"))
    }
}

/// Reads the first octets, as many as there is room for, or all. Returns how many.
fn read_first<R: Read>(reader: &mut R, octets: &mut [u8]) -> io::Result<usize>
    ensures { IfOk result (λ count. count ≤ length octets.new) }
{
    let mut count = 0;
    while count < octets.len() {
        let more = reader.read(&mut octets[count..])?;
        if more == 0 {
            break;
        }
        count += more;
    }
    Ok(count)
}
