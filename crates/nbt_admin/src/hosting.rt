//! Reads the arguments of `host` and of `release`.

ghost use Rattle.std.specs.Prelude.{◌≡◌, ◌↔◌, Ok, Err, Any, IsTrue, IfOk, IfErr};
ghost use Rattle.nbt_admin.specs.Hosting.{IsServer, NeedsOneTable, ReadsAway, ReadsHost, ReadsOthers, ReadsRelease, ReadsWants};

use crate::binding::is_given;
use crate::failure::{ArgumentFault, Complaint, Failure};
use crate::naming::{apart, name_to_ask, own_of, peer_of};
use crate::reading::{ReadEach, read_each};
use crate::timing::{config_of, ending_of, fit};
use nbt_args::HostTexts;
use nbt_client::Want;
use nbt_host::HostArguments;
use nbt_name::{Addr, Kind, Name};
use std::alloc::Global;

/// The greatest number of names of a host, as a node holds (our profile).
pub const NAMES_MOST: usize = 14;

/// The greatest number of servers of a host (our profile).
pub const SERVERS_MOST: usize = 4;

/// Reads the arguments of `host`. Refused, in this order: the life, the longest lease, the time, a longest lease that is too short for a
/// network, the server's address, which is of one machine and has a port, the own address, which is of one machine too, one that is
/// both, the further servers as [`others_of`] has them, the number of names, and the names, those of groups last, of which none begins
/// with `*` or is repeated. Each name is wanted with TTL 0, which stands for the longest lease: a host requests it by its seconds.
pub fn host_arguments(alloc: Global, texts: &HostTexts<'_>) -> Result<HostArguments, Failure>
    ensures { ReadsHost texts.now result }
{
    let config = config_of(alloc, texts.life, texts.longest)?;
    let time = ending_of(alloc, texts.time)?;
    fit(config)?;
    let server = peer_of(alloc, texts.server)?;
    let bind = own_of(alloc, texts.bind)?;
    apart(alloc, texts.server, server, bind)?;
    let others = others_of(alloc, texts, server, bind)?;
    let wants = wants_of(alloc, texts)?;
    Ok(HostArguments {
        bind,
        server,
        others,
        config,
        wants,
        time,
        log: texts.log,
    })
}

/// Reads the arguments of `release`, which are those of `host`. Refused as [`host_arguments`] refuses them, and last the own address
/// where its port is 0.
pub fn release_arguments(alloc: Global, texts: &HostTexts<'_>) -> Result<HostArguments, Failure>
    ensures { ReadsRelease texts.now result }
{
    let arguments = host_arguments(alloc, texts)?;
    if arguments.bind.port == 0 {
        return Err(Failure::of_argument(alloc, texts.bind, ArgumentFault::AnyPort));
    }
    Ok(arguments)
}

/// Reads the further servers, beside the first. Refused, in this order: too many, several without the word that all are of one table,
/// and the first that is no address of one machine with a port, or the own address, or one that an earlier server has.
fn others_of(
    alloc: Global,
    texts: &HostTexts<'_>,
    server: Addr,
    bind: Addr,
) -> Result<Vec<Addr>, Failure>
    ensures others { IfOk result (λ others. ReadsOthers texts.now server bind (Ok others.items)) }
    ensures failure { IfErr result (λ failure. ReadsOthers texts.now server bind (Err failure)) }
{
    expect_one_table(texts)?;
    let others = Others { server, bind };
    read_each(alloc, &others, Vec::new(alloc), texts.others.as_slice())
}

/// Refuses too many servers, and several that aren't said to be addresses of one table.
fn expect_one_table(texts: &HostTexts<'_>) -> Result<(), Failure>
    ensures { NeedsOneTable texts.now result }
{
    let count = 1 + texts.others.len();
    if count > SERVERS_MOST {
        return Err(Failure::Complaint(Complaint::ManyServers(count)));
    }
    if count > 1 && !texts.one_table {
        return Err(Failure::Complaint(Complaint::OneTable));
    }
    Ok(())
}

/// Reads further servers of a host that has this one, at this address of its own. No two are the same.
#[derive(Clone, Copy)]
struct Others {
    server: Addr,
    bind: Addr,
}

impl<'a> ReadEach<'a> for Others {
    ghost use Rattle.nbt_admin.specs.Hosting.{ReadsOther};

    type Value = Addr;

    ghost reads = { λ others before text. ReadsOther others.server others.bind before text };

    fn read(&self, alloc: Global, before: &[Addr], text: &'a str) -> Result<Addr, Failure> {
        let other = away_from(alloc, text, self.bind)?;
        if self.has(other, before) {
            return Err(Failure::of_argument(alloc, text, ArgumentFault::AddressTwice));
        }
        Ok(other)
    }
}

impl Others {
    /// Whether this is the first server's address, or one of these.
    fn has(&self, other: Addr, before: &[Addr]) -> bool
        ensures { IsTrue result ↔ IsServer self.now.server before.now other }
    {
        self.server == other || is_given(other, before)
    }
}

/// Reads the address of a server that isn't the own one. Refused, in this order: what is no address of one machine with a port, and the own
/// address.
fn away_from(alloc: Global, text: &str, bind: Addr) -> Result<Addr, Failure>
    ensures { ReadsAway bind text.now result }
{
    let other = peer_of(alloc, text)?;
    apart(alloc, text, other, bind)?;
    Ok(other)
}

/// Reads the names to hold, if these are not too many: first those for this machine alone.
fn wants_of(alloc: Global, texts: &HostTexts<'_>) -> Result<Vec<Want>, Failure>
    ensures wants { IfOk result (λ wants. ReadsWants texts.now (Ok wants.items)) }
    ensures failure { IfErr result (λ failure. ReadsWants texts.now (Err failure)) }
{
    let count = texts.names.len() + texts.groups.len();
    if count > NAMES_MOST {
        return Err(Failure::Complaint(Complaint::Many(count)));
    }
    let exact = texts.exact;
    let scope = texts.scope;
    let names = Wants {
        exact,
        scope,
        kind: Kind::Unique,
    };
    let groups = Wants {
        exact,
        scope,
        kind: Kind::Group,
    };
    let alone = read_each(alloc, &names, Vec::new(alloc), texts.names.as_slice())?;
    read_each(alloc, &groups, alone, texts.groups.as_slice())
}

/// Reads names of a kind, with a scope if none stands behind the suffix. No two are the same.
#[derive(Clone, Copy)]
struct Wants<'a> {
    exact: bool,
    scope: &'a str,
    kind: Kind,
}

impl<'a, 'b> ReadEach<'a> for Wants<'b> {
    ghost use Rattle.nbt_admin.specs.Hosting.{ReadsWant};

    type Value = Want;

    ghost reads = { λ wants before text. ReadsWant wants.exact wants.scope.now wants.kind before text };

    fn read(&self, alloc: Global, before: &[Want], text: &'a str) -> Result<Want, Failure> {
        let name = name_to_ask(alloc, self.exact, text, self.scope)?;
        if is_among(&name, before) {
            return Err(Failure::of_argument(alloc, text, ArgumentFault::Twice));
        }
        Ok(Want {
            name,
            kind: self.kind,
            ttl: 0,
        })
    }
}

/// Returns whether one of the wants has this name.
fn is_among(name: &Name, wants: &[Want]) -> bool
    ensures { IsTrue result ↔ Any (λ want. want.name ≡ name.now) wants.now }
{
    wants.iter().any(|want| want.name == *name)
}
