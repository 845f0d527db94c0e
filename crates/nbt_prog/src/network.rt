//! Reads the arguments of `serve` and `node`.

ghost use Rattle.std.specs.Prelude.{◌≡◌, ◌↔◌, IfOk, IfErr, IsSome, IfSome, codes};
ghost use Rattle.nbt_name.specs.Wire.{IsStar};
ghost use Rattle.nbt_name.specs.declared.addr.Kind.TheVariants.{Group};
ghost use Rattle.nbt_text.specs.Address.{SpellsAddress};
ghost use Rattle.nbt_prog.specs.Texts.{IsAddress};
ghost use Rattle.nbt_prog.specs.Inner.Failure.{UsageFails};
ghost use Rattle.nbt_prog.specs.Inner.Refusals.{FirstFault, ServeNumbers, NodeNumbers, AreNodeTexts, AreLimits, AreTurns, IsHeld};
ghost use Rattle.nbt_prog.specs.Network.{ServeGiven, NodeGiven, IsConfigOf, SpellsTurns, SpellsHeld};

use crate::failure::Failure;
use crate::numbers::number;
use crate::offline;
use nbt_args::{GROUP, LimitedArgument, LimitedCommand, NodeTexts, ServeTexts};
use nbt_bench::{NodeArguments, ServeArguments};
use nbt_client::Want;
use nbt_lease::{Config, ROWS_MOST};
use nbt_name::{Addr, Kind, Name};
use nbt_text::parse_name;
use std::alloc::Global;
use std::io;
use std::io::Write;

/// Reads the arguments of `serve`. Refused, in this order: a number beyond its limits, which is wrong usage, and an address that can't be
/// read, which a line in `errors` reports.
pub fn serve_arguments<E: Write>(
    alloc: Global,
    texts: &ServeTexts<'_>,
    errors: &mut E,
) -> Result<ServeArguments, Failure>
    ensures given { IfOk result (ServeGiven texts.now) }
    ensures failure { IfErr result (FirstFault (ServeNumbers texts.now) (IsAddress texts.now.bind.now)) }
{
    let config = config(alloc, LimitedCommand::Serve, texts.life, texts.longest)?;
    let turns = turns(alloc, LimitedCommand::Serve, texts.turns)?;
    let bind = address_of(texts.bind, errors)?;
    Ok(ServeArguments {
        bind,
        config,
        turns,
    })
}

/// Reads the arguments of `node`. Refused likewise, and last a name that can't be read or begins with `*`.
pub fn node_arguments<E: Write>(
    alloc: Global,
    texts: &NodeTexts<'_>,
    errors: &mut E,
) -> Result<NodeArguments, Failure>
    ensures given { IfOk result (NodeGiven texts.now) }
    ensures failure { IfErr result (FirstFault (NodeNumbers texts.now) (AreNodeTexts texts.now)) }
{
    let config = config(alloc, LimitedCommand::Node, texts.life, texts.longest)?;
    let ttl = number(alloc, LimitedCommand::Node, LimitedArgument::Ttl, texts.ttl)? as u32;
    let turns = turns(alloc, LimitedCommand::Node, texts.turns)?;
    let bind = address_of(texts.bind, errors)?;
    let server = address_of(texts.server, errors)?;
    let name = held_name_of(texts.name, errors)?;
    let kind = kind_of(texts.kind);
    let want = Want { name, kind, ttl };
    Ok(NodeArguments {
        bind,
        server,
        config,
        want,
        turns,
    })
}

/// Reads the limits that a server and its nodes share.
fn config(
    alloc: Global,
    command: LimitedCommand,
    life: &str,
    longest: &str,
) -> Result<Config, Failure>
    ensures read { IfOk result (IsConfigOf life.now longest.now) }
    ensures limits { IfOk result (λ _. AreLimits life.now longest.now) }
    ensures failure { IfErr result (UsageFails (AreLimits life.now longest.now)) }
{
    let life = number(alloc, command, LimitedArgument::Life, life)?;
    let longest = number(alloc, command, LimitedArgument::Longest, longest)? as u32;
    Ok(Config::new(life, longest, ROWS_MOST).unwrap())
}

/// Reads the number of turns; `None` for no limit.
fn turns(alloc: Global, command: LimitedCommand, text: Option<&str>) -> Result<Option<u64>, Failure>
    ensures read { IfOk result (SpellsTurns text.entry) }
    ensures limits { IfOk result (λ _. AreTurns text.entry) }
    ensures failure { IfErr result (UsageFails (AreTurns text.entry)) }
{
    match text {
        Some(text) => Ok(Some(number(alloc, command, LimitedArgument::Turns, text)?)),
        None => Ok(None),
    }
}

/// Reads an address.
fn address_of<E: Write>(text: &str, errors: &mut E) -> Result<Addr, Failure>
    ensures read { IfOk result (SpellsAddress text.now) }
    ensures failure { IfErr result (λ failure. ¬ IsAddress text.now × (failure ≡ Failure.Unreadable)) }
{
    Ok(offline::address_of(text, errors)?)
}

/// Reads a name that a node can hold.
fn held_name_of<E: Write>(text: &str, errors: &mut E) -> Result<Name, Failure>
    ensures read { IfOk result (SpellsHeld text.now) }
    ensures failure { IfErr result (λ failure. ¬ IsHeld text.now × (failure ≡ Failure.Unreadable)) }
{
    match name_to_hold(text) {
        Some(name) => Ok(name),
        None => {
            let _ = write_name(text, errors);
            Err(Failure::Unreadable)
        }
    }
}

fn write_name<E: Write>(text: &str, errors: &mut E) -> io::Result<()> {
    writeln!(errors, "nbt: name '{text}': no name that can be held")?;
    errors.flush()
}

/// Reads a name that doesn't begin with `*`.
fn name_to_hold(text: &str) -> Option<Name>
    ensures read { IfSome result (SpellsHeld text.now) }
    ensures found { IsHeld text.now → IsSome result }
{
    match parse_name(text.as_bytes()) {
        Some(name) => without_star(name),
        None => None,
    }
}

/// Returns the name if it doesn't begin with `*`.
fn without_star(name: Name) -> Option<Name>
    ensures found { IsSome result ↔ (¬ IsStar name) }
    ensures value { IfSome result (λ n. n ≡ name) }
{
    if name.is_star() {
        return None;
    }
    Some(name)
}

/// Returns the kind that KIND names: `group`, or else `unique`.
fn kind_of(text: &str) -> Kind
    ensures { (result ≡ Group) ↔ (text.now ≡ codes "group") }
{
    match text {
        GROUP => Kind::Group,
        _ => Kind::Unique,
    }
}
