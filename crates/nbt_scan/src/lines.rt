//! The lines of a host that replied.

ghost use Rattle.std.specs.Prelude.{◌≡◌, ◌++◌, ℕ, List, OnOk};
ghost use Rattle.std.specs.String.{string_bytes};
ghost use Rattle.nbt_show.specs.Rows.{PrintsRows};
ghost use Rattle.nbt_scan.specs.Lines.{PrintsHost, IsColumns, IsNameBelow};

use crate::columns::write_columns;
use crate::form::Form;
use crate::hearing::Heard;
use crate::host::Host;
use crate::hosts_line::write_hosts_line;
use crate::json::write_object;
use crate::names_below::write_names_below;
use std::alloc::AllocError;

/// Appends the lines of a host that replied.
pub fn write_host(form: Form, heard: &Heard<'_>, out: &mut String) -> Result<(), AllocError>
    ensures { OnOk result ((lines : List ℕ) × PrintsHost form heard.now.ip heard.now.names.now heard.now.statistics.now lines × (string_bytes out.new ≡ string_bytes out.old ++ lines)) }
{
    let host = Host::of(heard.names, heard.statistics);
    match form {
        Form::Plain => write_columns(heard.ip, &host, out),
        Form::Long => write_long(heard.ip, &host, heard.names, out),
        Form::Hosts => write_hosts_line(heard.ip, &host, out),
        Form::Json => write_object(heard.ip, &host, heard.names, out),
    }
}

/// Appends the line of a host, and its names below it.
fn write_long(ip: u32, host: &Host, names: &[u8], out: &mut String) -> Result<(), AllocError>
    ensures { OnOk result ((line : List ℕ) × IsColumns ip host.now line × (below : List ℕ) × PrintsRows 18 IsNameBelow names.now below × (string_bytes out.new ≡ string_bytes out.old ++ (line ++ below))) }
{
    write_columns(ip, host, out)?;
    write_names_below(names, out)
}
