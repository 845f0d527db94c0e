//! What is told of the replies: at once, or at the end by address.

ghost use Rattle.std.specs.Prelude.{◌≡◌, ◌≢◌, ◌++◌, ℕ, List, Err, OnOk};
ghost use Rattle.std.specs.String.{string_bytes};
ghost use Rattle.nbt_scan.specs.Sheets.{Tells, PrintsKept};
ghost use Rattle.nbt_scan.specs.Inner.Steps.{reply_of};

use crate::form::Layout;
use crate::hearing::Heard;
use crate::lines::write_host;
use nbt_port::{Fault, print};
use std::alloc::AllocError;
use std::io::Write;

/// The lines of a host, kept for the end.
#[derive(Drop)]
pub struct Kept {
    /// Its address.
    pub ip: u32,
    /// Its lines.
    pub text: String,
}

/// Prints the lines of a host that replied, or keeps them. Refused: `Output` where they can't be written; `Memory` where it is out of
/// memory.
pub fn tell<W: Write>(
    layout: Layout,
    heard: &Heard<'_>,
    kept: &mut Vec<Kept>,
    writer: &mut W,
) -> Result<(), Fault>
    ensures ok { OnOk result (Tells layout (reply_of heard.now)
        (record { kept = kept.old.items; text = W.contents writer.old }) (record { kept = kept.new.items; text = W.contents writer.new })) }
    ensures port { result ≢ Err Fault.Device }
{
    let mut text = String::new(*kept.allocator());
    write_host(layout.form, heard, &mut text)?;
    if layout.sorted {
        kept.push(Kept { ip: heard.ip, text })?;
        return Ok(());
    }
    match print(text.as_str(), writer) {
        Ok(()) => Ok(()),
        Err(_) => Err(Fault::Output),
    }
}

/// Appends the lines that were kept, by address.
pub fn write_kept(kept: &mut Vec<Kept>, out: &mut String) -> Result<(), AllocError>
    ensures { OnOk result ((lines : List ℕ) × PrintsKept kept.old.items lines × (string_bytes out.new ≡ string_bytes out.old ++ lines)) }
{
    kept.sort_by_key(|host| host.ip)?;
    for host in kept.iter() {
        out.push_str(host.text.as_str())?;
    }
    Ok(())
}
