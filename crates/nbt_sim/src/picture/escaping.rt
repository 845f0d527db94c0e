//! A text inside an XML document (XML 1.0 sections 2.2, 2.4 and 4.6).

ghost use Rattle.std.specs.Prelude.{◌≡◌, ◌++◌, OnOk};
ghost use Rattle.std.specs.String.{string_bytes};
ghost use Rattle.nbt_sim.specs.Escaping.{written, written_octet};

use std::alloc::AllocError;

/// Appends a text as what stands for it in XML: the five octets that mean something there by their names, every other one
/// from 0x20 to 0x7E as it is, and `?` in place of all others. What is written of a text without those is read back as that
/// text (`laws::written_is_read`).
pub fn write_escaped(text: &[u8], out: &mut String) -> Result<(), AllocError>
    ensures { OnOk result (string_bytes out.new ≡ string_bytes out.old ++ written text.now) }
{
    let mut rest = text;
    'octets: while let Some((octet, others)) = rest.split_first() {
        write_octet(*octet, out)?;
        rest = others;
    }
    Ok(())
}

/// Appends what stands for an octet.
fn write_octet(octet: u8, out: &mut String) -> Result<(), AllocError>
    ensures { OnOk result (string_bytes out.new ≡ string_bytes out.old ++ written_octet octet) }
{
    match octet {
        b'&' => out.push_str("&amp;"),
        b'<' => out.push_str("&lt;"),
        b'>' => out.push_str("&gt;"),
        b'"' => out.push_str("&quot;"),
        b'\'' => out.push_str("&apos;"),
        _ if octet < 0x20 || 0x7E < octet => out.push_str("?"),
        _ => out.push(char::from(octet)),
    }
}
