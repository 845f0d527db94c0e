//! Reads the arguments of `lookup` and `status`.

ghost use Rattle.std.specs.Prelude.{Ok, Err, IfOk, IfErr};
ghost use Rattle.nbt_admin.specs.Times.{ReadsPatience, AreTries};
ghost use Rattle.nbt_admin.specs.Asking.{ReadsLookup, ReadsStatus, AsksHost};

use crate::failure::{ArgumentFault, Failure};
use crate::naming::{apart, expect_no_address, name_of, name_to_ask, peer_of, source_of};
use crate::reading::{ReadEach, read_each};
use nbt_args::{LimitedArgument, LimitedCommand, LookupTexts, StatusTexts};
use nbt_client::{Question, TRIES_MOST, patience_of};
use nbt_name::Addr;
use nbt_text::duration_within;
use std::alloc::Global;

/// The arguments of a lookup or of a status request: the own address, the question, and the time to wait for a reply, in milliseconds.
#[derive(Drop)]
pub struct AskArguments {
    pub bind: Addr,
    pub question: Question,
    pub patience: u32,
}

/// A status request: the host's address as it was given, and the arguments.
#[derive(Drop)]
pub struct HostAsked<'a> {
    pub host: &'a str,
    pub arguments: AskArguments,
}

/// Reads the arguments of `lookup`. Refused, in this order: a wait beyond its limits, which is wrong usage, the server's address, which is of
/// one machine and has a port, the own address, one that is both, a name that is an address, and the name, which doesn't begin with `*`.
pub fn lookup_arguments(alloc: Global, texts: &LookupTexts<'_>) -> Result<AskArguments, Failure>
    ensures { ReadsLookup texts.now result }
{
    let patience = patience(alloc, LimitedCommand::Lookup, texts.tries, texts.wait)?;
    let server = peer_of(alloc, texts.to)?;
    let bind = source_of(alloc, texts.bind)?;
    apart(alloc, texts.to, server, bind)?;
    expect_no_address(alloc, texts.name, ArgumentFault::NameWanted)?;
    let name = name_to_ask(alloc, texts.exact, texts.name, texts.scope)?;
    let question = Question::Holders(server, name);
    Ok(AskArguments {
        bind,
        question,
        patience,
    })
}

/// Reads the arguments of `status`: a request for each host. Refused as the first host's arguments are, and then as those of the others in
/// their order.
pub fn status_requests<'a>(
    alloc: Global,
    texts: &StatusTexts<'a>,
) -> Result<Vec<HostAsked<'a>>, Failure>
    ensures given { IfOk result (λ requests. ReadsStatus texts.now (Ok requests.items)) }
    ensures failure { IfErr result (λ failure. ReadsStatus texts.now (Err failure)) }
{
    let hosts = Hosts { first: texts.first };
    let mut requests = Vec::new(alloc);
    let request = hosts.read(alloc, &[], texts.first.to)?;
    requests.push(request)?;
    read_each(alloc, &hosts, requests, texts.others.as_slice())
}

/// Reads the addresses of hosts, which are sent what the first host is.
#[derive(Clone, Copy)]
struct Hosts<'a> {
    first: LookupTexts<'a>,
}

impl<'a> ReadEach<'a> for Hosts<'a> {
    ghost use Rattle.nbt_admin.specs.Asking.{ReadsHost};

    type Value = HostAsked<'a>;

    ghost reads = { λ hosts before host. ReadsHost hosts.first before host };

    fn read(
        &self,
        alloc: Global,
        _before: &[HostAsked<'a>],
        host: &'a str,
    ) -> Result<HostAsked<'a>, Failure> {
        let texts = LookupTexts {
            to: host,
            ..self.first
        };
        let arguments = status_arguments(alloc, &texts)?;
        Ok(HostAsked { host, arguments })
    }
}

/// Reads the arguments of a status request to one host. Refused as those of `lookup` are, with the host's address in place of the server's. Any
/// name is valid that is no address.
fn status_arguments(alloc: Global, texts: &LookupTexts<'_>) -> Result<AskArguments, Failure>
    ensures { AsksHost texts.now result }
{
    let patience = patience(alloc, LimitedCommand::Status, texts.tries, texts.wait)?;
    let host = peer_of(alloc, texts.to)?;
    let bind = source_of(alloc, texts.bind)?;
    apart(alloc, texts.to, host, bind)?;
    expect_no_address(alloc, texts.name, ArgumentFault::OtherHost)?;
    let name = name_of(alloc, texts.exact, texts.name, texts.scope)?;
    let question = Question::Names(host, name);
    Ok(AskArguments {
        bind,
        question,
        patience,
    })
}

/// Returns for how many milliseconds a request waits, with its repetitions.
fn patience(alloc: Global, command: LimitedCommand, tries: &str, wait: &str) -> Result<u32, Failure>
    ensures { ReadsPatience tries.now wait.now result }
{
    let limits = LimitedArgument::Wait;
    match duration_within(wait, limits.least(), limits.most()) {
        Some(last) => Ok(patience_of(tries_of(tries), last as u32)),
        None => Err(Failure::from(nbt_args::bad_value(alloc, command, limits, wait))),
    }
}

/// Returns the number of requests that TRIES names.
pub(crate) fn tries_of(text: &str) -> u32
    ensures { AreTries text.now result }
{
    match text {
        nbt_args::ONCE => 1,
        nbt_args::TWICE => 2,
        _ => TRIES_MOST,
    }
}
