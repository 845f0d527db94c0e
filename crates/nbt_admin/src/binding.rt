//! Reads the addresses that a name server is to serve.

ghost use Rattle.std.specs.Prelude.{◌≡◌, ◌↔◌, Any, IsTrue};
ghost use Rattle.nbt_admin.specs.Serving.{ReadsBind};

use crate::failure::{ArgumentFault, Failure};
use crate::naming::here_of;
use crate::reading::{ReadEach, read_each};
use nbt_name::Addr;
use nbt_port::Bind;
use std::alloc::Global;

/// The port of a name server (RFC 1002 section 4.2.1).
const NAME_PORT: u16 = 137;

/// Reads which addresses a server is to serve: every address of the machine, at port 137, where there is no text. Refused at the first
/// text that is no address, or that of no machine, or repeats one.
pub fn bind_of(alloc: Global, texts: &[&str]) -> Result<Bind, Failure>
    ensures { ReadsBind texts.now result }
{
    let addresses = read_each(alloc, &Addresses, Vec::new(alloc), texts)?;
    let found = addresses.as_slice();
    if found.is_empty() {
        return Ok(Bind::Every(NAME_PORT));
    }
    Ok(Bind::To(addresses))
}

/// Reads addresses, of which no two are the same.
#[derive(Clone, Copy)]
struct Addresses;

impl<'a> ReadEach<'a> for Addresses {
    ghost use Rattle.nbt_admin.specs.Serving.{ReadsNext};

    type Value = Addr;

    ghost reads = { λ _ before text. ReadsNext before text };

    fn read(&self, alloc: Global, before: &[Addr], text: &'a str) -> Result<Addr, Failure> {
        let address = here_of(alloc, text)?;
        if is_given(address, before) {
            return Err(Failure::of_argument(alloc, text, ArgumentFault::AddressTwice));
        }
        Ok(address)
    }
}

/// Whether one of them is this address.
pub fn is_given(address: Addr, addresses: &[Addr]) -> bool
    ensures { IsTrue result ↔ Any (λ other. other ≡ address) addresses.now }
{
    addresses.iter().any(|other| *other == address)
}
