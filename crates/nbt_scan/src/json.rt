//! The line of a host as an object of JSON.

ghost use Rattle.std.specs.Prelude.{◌≡◌, ◌++◌, ℕ, List, OnOk, Some, codes};
ghost use Rattle.std.specs.List.{flat_map};
ghost use Rattle.std.specs.String.{string_bytes};
ghost use Rattle.nbt_text.specs.Address.{dotted};
ghost use Rattle.nbt_show.specs.Rows.{PrintsRows};
ghost use Rattle.nbt_scan.specs.Json.{escaped, string, member, next, PrintsValue, server_value, unit_value, IsName, IsNextName, PrintsNames, IsObject};

use crate::cells::write_stem;
use crate::host::Host;
use nbt_text::{end_line, write_dotted, write_octets, write_unit_id};
use std::alloc::AllocError;

/// Appends a host as an object of JSON (RFC 8259), and the end of the line. Its members are `address`; `computer`, `workgroup` and
/// `user`, each a string, and `null` where the host doesn't report it; `server`, whether it is a file server; `unit_id`, a string or
/// `null`; and `names`, a list of all its names with their suffixes.
pub fn write_object(ip: u32, host: &Host, names: &[u8], out: &mut String) -> Result<(), AllocError>
    ensures { OnOk result ((line : List ℕ) × IsObject ip host.now names.now line × (string_bytes out.new ≡ string_bytes out.old ++ line)) }
{
    write_address(ip, out)?;
    write_name("computer", host.computer, out)?;
    write_name("workgroup", host.group, out)?;
    write_name("user", host.user, out)?;
    write_server(host.server, out)?;
    write_unit(host.unit, out)?;
    write_names(names, out)?;
    out.push_str("}")?;
    end_line(out)
}

/// Appends the first member, an address.
fn write_address(ip: u32, out: &mut String) -> Result<(), AllocError>
    ensures { OnOk result (string_bytes out.new ≡ string_bytes out.old ++ member (codes "{") (codes "address") (string (dotted ip))) }
{
    let mut word = String::new(*out.allocator());
    write_dotted(ip, &mut word)?;
    let mut value = String::new(*out.allocator());
    write_string(word.as_str(), &mut value)?;
    write_member("{", "address", value.as_str(), out)
}

/// Appends the member of a name without its suffix.
fn write_name(key: &str, name: Option<[u8; 18]>, out: &mut String) -> Result<(), AllocError>
    ensures { OnOk result ((value : List ℕ) × PrintsValue name value × (string_bytes out.new ≡ string_bytes out.old ++ next key.now value)) }
{
    let mut value = String::new(*out.allocator());
    write_value(name, &mut value)?;
    write_member(",", key, value.as_str(), out)
}

/// Appends a name without its suffix as a string, and `null` for none.
fn write_value(name: Option<[u8; 18]>, out: &mut String) -> Result<(), AllocError>
    ensures { OnOk result ((value : List ℕ) × PrintsValue name value × (string_bytes out.new ≡ string_bytes out.old ++ value)) }
{
    match name {
        Some(name) => write_known(&name, out),
        None => out.push_str("null"),
    }
}

/// Appends a name without its suffix as a string.
fn write_known(name: &[u8; 18], out: &mut String) -> Result<(), AllocError>
    ensures { OnOk result ((value : List ℕ) × PrintsValue (Some name.now) value × (string_bytes out.new ≡ string_bytes out.old ++ value)) }
{
    let mut word = String::new(*out.allocator());
    let octets = name.first_chunk::<16>().unwrap();
    write_stem(octets, &mut word)?;
    write_string(word.as_str(), out)
}

/// Appends the member that says whether it is a file server.
fn write_server(server: Option<[u8; 18]>, out: &mut String) -> Result<(), AllocError>
    ensures { OnOk result (string_bytes out.new ≡ string_bytes out.old ++ next (codes "server") (server_value server)) }
{
    write_member(",", "server", server_value(server), out)
}

/// `true` for a file server, else `false`.
fn server_value(server: Option<[u8; 18]>) -> &'static str
    ensures { result.now ≡ server_value server }
{
    match server {
        Some(_) => "true",
        None => "false",
    }
}

/// Appends the member of the unit id.
fn write_unit(unit: Option<[u8; 6]>, out: &mut String) -> Result<(), AllocError>
    ensures { OnOk result (string_bytes out.new ≡ string_bytes out.old ++ next (codes "unit_id") (unit_value unit)) }
{
    let mut value = String::new(*out.allocator());
    write_unit_value(unit, &mut value)?;
    write_member(",", "unit_id", value.as_str(), out)
}

/// Appends a unit id as a string, and `null` for none.
fn write_unit_value(unit: Option<[u8; 6]>, out: &mut String) -> Result<(), AllocError>
    ensures { OnOk result (string_bytes out.new ≡ string_bytes out.old ++ unit_value unit) }
{
    let Some(unit) = unit else {
        return out.push_str("null");
    };
    let mut word = String::new(*out.allocator());
    write_unit_id(&unit, &mut word)?;
    write_string(word.as_str(), out)
}

/// Appends the member of the names.
fn write_names(names: &[u8], out: &mut String) -> Result<(), AllocError>
    ensures { OnOk result ((list : List ℕ) × PrintsNames names.now list × (string_bytes out.new ≡ string_bytes out.old ++ next (codes "names") list)) }
{
    let mut value = String::new(*out.allocator());
    write_list(names, &mut value)?;
    write_member(",", "names", value.as_str(), out)
}

/// Appends the names, of 18 octets each, between brackets.
fn write_list(names: &[u8], out: &mut String) -> Result<(), AllocError>
    ensures { OnOk result ((list : List ℕ) × PrintsNames names.now list × (string_bytes out.new ≡ string_bytes out.old ++ list)) }
{
    match names.split_first_chunk::<18>() {
        Some((name, others)) => write_some(name, others, out),
        None => out.push_str("[]"),
    }
}

/// Appends a name and those behind it, between brackets.
fn write_some(name: &[u8; 18], others: &[u8], out: &mut String) -> Result<(), AllocError>
    ensures { OnOk result ((first : List ℕ) × IsName name.now first × (rest : List ℕ) × PrintsRows 18 IsNextName others.now rest
        × (string_bytes out.new ≡ string_bytes out.old ++ (codes "[" ++ first ++ rest ++ codes "]"))) }
{
    out.push_str("[")?;
    write_suffixed(name, out)?;
    write_others(others, out)?;
    out.push_str("]")
}

/// Appends each name behind a comma.
fn write_others(names: &[u8], out: &mut String) -> Result<(), AllocError>
    ensures { OnOk result ((text : List ℕ) × PrintsRows 18 IsNextName names.now text × (string_bytes out.new ≡ string_bytes out.old ++ text)) }
{
    let mut rest = names;
    'names: while let Some((name, others)) = rest.split_first_chunk::<18>() {
        write_next(name, out)?;
        rest = others;
    }
    Ok(())
}

/// Appends a name behind a comma.
fn write_next(name: &[u8; 18], out: &mut String) -> Result<(), AllocError>
    ensures { OnOk result ((text : List ℕ) × IsNextName name.now text × (string_bytes out.new ≡ string_bytes out.old ++ text)) }
{
    out.push_str(",")?;
    write_suffixed(name, out)
}

/// Appends a name with its suffix, as a string.
fn write_suffixed(name: &[u8; 18], out: &mut String) -> Result<(), AllocError>
    ensures { OnOk result ((text : List ℕ) × IsName name.now text × (string_bytes out.new ≡ string_bytes out.old ++ text)) }
{
    let mut word = String::new(*out.allocator());
    let octets = name.first_chunk::<16>().unwrap();
    write_octets(octets, &mut word)?;
    write_string(word.as_str(), out)
}

/// Appends a member: `{` or `,`, its name, a colon and its value.
fn write_member(before: &str, key: &str, value: &str, out: &mut String) -> Result<(), AllocError>
    ensures { OnOk result (string_bytes out.new ≡ string_bytes out.old ++ member before.now key.now value.now) }
{
    out.push_str(before)?;
    write_string(key, out)?;
    out.push_str(":")?;
    out.push_str(value)
}

/// Appends a text between quotation marks.
fn write_string(text: &str, out: &mut String) -> Result<(), AllocError>
    ensures { OnOk result (string_bytes out.new ≡ string_bytes out.old ++ string text.now) }
{
    out.push_str("\"")?;
    write_escaped(text.as_bytes(), out)?;
    out.push_str("\"")
}

/// Appends octets, each as [`write_octet`] does.
fn write_escaped(text: &[u8], out: &mut String) -> Result<(), AllocError>
    ensures { OnOk result (string_bytes out.new ≡ string_bytes out.old ++ flat_map escaped text.now) }
{
    for octet in text {
        write_octet(*octet, out)?;
    }
    Ok(())
}

/// Appends an octet: a quotation mark and a backslash behind a backslash, and what isn't ASCII that can be seen, or a space, as a question
/// mark.
fn write_octet(octet: u8, out: &mut String) -> Result<(), AllocError>
    ensures { OnOk result (string_bytes out.new ≡ string_bytes out.old ++ escaped octet) }
{
    if octet == b'"' || octet == b'\\' {
        out.push('\\')?;
        return out.push(char::from(octet));
    }
    if b' ' <= octet && octet <= b'~' {
        return out.push(char::from(octet));
    }
    out.push('?')
}
