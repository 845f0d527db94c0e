//! Reads what stands before a name server: the networks whose machines may register, and the file of fixed names.

ghost use Rattle.std.specs.Prelude.{◌⊎◌, IfOk, IfErr, OnOk};
ghost use Rattle.nbt_admin.specs.Failures.{IsFault};
ghost use Rattle.nbt_admin.specs.Fronts.{FixedFails, FrontFails, GivesFixed, GivesNetworks, NetworksFail, ReadsFront};

use crate::failure::{ArgumentFault, BadLine, BadNetworks, Complaint, Failure};
use crate::other_lists::OtherList;
use crate::reading::ReadEach;
use nbt_args::NbnsTexts;
use nbt_front::{
    FileFault, FixedNames, Front, Network, NetworksFault, octets_in, read_fixed, read_network,
    read_networks,
};
use nbt_port::Fault;
use std::alloc::Global;
use std::io;
use std::io::Write;
use std::rt::Files;

/// Reads networks.
#[derive(Clone, Copy)]
pub(crate) struct Networks;

impl<'a> ReadEach<'a> for Networks {
    ghost use Rattle.nbt_admin.specs.Serving.{ReadsNetwork};

    type Value = Network;

    ghost reads = { λ _ before text. ReadsNetwork before text };

    fn read(&self, alloc: Global, _before: &[Network], text: &'a str) -> Result<Network, Failure> {
        match read_network(text.as_bytes()) {
            Some(network) => Ok(network),
            None => Err(Failure::of_argument(alloc, text, ArgumentFault::Network)),
        }
    }
}

/// The names that are fixed by the file of this path; none without a path. Refused at the first line that can't be taken; and with
/// `Store` where the file can't be read, is no regular one, or has 16 MiB or more: a line in `errors` then says why.
fn fixed_of<M: Files, E: Write>(
    machine: &M,
    alloc: Global,
    path: Option<&str>,
    errors: &mut E,
) -> Result<FixedNames, Failure>
    ensures given { IfOk result (GivesFixed path.entry) }
    ensures failure { IfErr result (λ failure. IsFault failure ⊎ FixedFails path.entry failure) }
{
    let Some(path) = path else {
        return Ok(FixedNames::none(alloc));
    };
    let octets = match octets_in(machine, alloc, path) {
        Ok(octets) => octets,
        Err(error) => {
            let _ = complain(path, error, errors);
            return Err(Failure::Fault(Fault::Store));
        }
    };
    match read_fixed(alloc, octets.as_slice()) {
        Ok(names) => Ok(names),
        Err(FileFault::Line(number, fault)) => Err(Failure::Complaint(Complaint::Line(BadLine {
            path: String::from_str(alloc, path)?,
            number,
            fault,
            other: OtherList::seen_in(alloc, octets.as_slice(), number),
        }))),
        Err(FileFault::Memory) => Err(Failure::Fault(Fault::Memory)),
    }
}

/// The networks of the file of this path; none without a path. Refused where the file can't be taken; and with `Store` where it can't be read, is no
/// regular one, or has 16 MiB or more: a line in `errors` then says why.
fn networks_of<M: Files, E: Write>(
    machine: &M,
    alloc: Global,
    path: Option<&str>,
    errors: &mut E,
) -> Result<Vec<Network>, Failure>
    ensures given { IfOk result (λ networks. GivesNetworks path.entry networks.items) }
    ensures failure { IfErr result (λ failure. IsFault failure ⊎ NetworksFail path.entry failure) }
{
    let Some(path) = path else {
        return Ok(Vec::new(alloc));
    };
    let octets = match octets_in(machine, alloc, path) {
        Ok(octets) => octets,
        Err(error) => {
            let _ = complain(path, error, errors);
            return Err(Failure::Fault(Fault::Store));
        }
    };
    match read_networks(alloc, octets.as_slice()) {
        Ok(networks) => Ok(networks),
        Err(NetworksFault::Memory) => Err(Failure::Fault(Fault::Memory)),
        Err(fault) => {
            let path = String::from_str(alloc, path)?;
            Err(Failure::Complaint(Complaint::Networks(BadNetworks { path, fault })))
        }
    }
}

/// Reads the files of what stands before a server: its networks, and then its fixed names. Refused as these are.
pub(crate) fn read_front<M: Files, E: Write>(
    machine: &M,
    alloc: Global,
    texts: &NbnsTexts<'_>,
    front: &mut Front,
    errors: &mut E,
) -> Result<(), Failure>
    ensures ok { OnOk result (ReadsFront texts.now front.old front.new) }
    ensures failure { IfErr result (λ failure. IsFault failure ⊎ FrontFails texts.now failure) }
{
    let networks = networks_of(machine, alloc, texts.allow_file, errors)?;
    let names = fixed_of(machine, alloc, texts.fixed, errors)?;
    let allow_file = copy_of(alloc, texts.allow_file)?;
    let fixed = copy_of(alloc, texts.fixed)?;
    front.read_from(allow_file, fixed);
    front.allow(networks)?;
    front.fix(names);
    Ok(())
}

/// Copies a text, if there is one.
fn copy_of(alloc: Global, text: Option<&str>) -> Result<Option<String>, Failure>
    ensures { IfErr result IsFault }
{
    match text {
        Some(text) => Ok(Some(String::from_str(alloc, text)?)),
        None => Ok(None),
    }
}

fn complain<E: Write>(path: &str, error: io::Error, errors: &mut E) -> io::Result<()> {
    writeln!(errors, "nbt: {path}: {error}")?;
    errors.flush()
}
