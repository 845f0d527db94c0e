//! A node in C's memory: it starts, registers, releases and looks up names.

ghost use Rattle.std.specs.Prelude.{◌≡◌, IsNone, IsSome};
ghost use Rattle.nbt_c.specs.Ends.{addr_of, kind_of};
ghost use Rattle.nbt_c.specs.Sizes.{node_size, object_align};
ghost use Rattle.nbt_c.specs.Nodes.{Starts, StartsFrom, Asks, GivesBack, Resolves, AsksStatus};
ghost use Rattle.nbt_c.specs.Memory.{Changes};
ghost use Rattle.nbt_c.specs.Results.{Leaves};

use crate::buffer::{Octets, put_packet};
use crate::ends::{CAddr, CConfig};
use crate::held::{CNode, HeldNode};
use crate::name::CName;
use crate::results::{NO_KIND, NO_MOMENT, NO_NAME, given};
use nbt_lease::{Config, Moment};
use nbt_name::{Addr, Kind};
use nbt_node::Node;

/// The id of the first request of a node that isn't given another, as `nbt_node::Node::start` has it.
const FIRST_ID: u16 = 1;

/// The size of a node's memory in octets.
#[unsafe(no_mangle)]
pub extern "C" fn nbt_node_size() -> usize
    ensures { result ≡ node_size }
{
    size_of::<HeldNode>()
}

/// The alignment of that memory in octets.
#[unsafe(no_mangle)]
pub extern "C" fn nbt_node_align() -> usize
    ensures { result ≡ object_align }
{
    align_of::<HeldNode>()
}

/// `nbt_node::Node::start`: a node at `own`, whose name server is at `server`, stands in the memory. It has the slots that the library
/// was built for: 14, 4 or 1. 0; else none does: the number of the first limit that isn't kept, `Life` (1), `Longest` (2), `Rows` (3),
/// or 253 where `now` is above 2^60 ms.
#[unsafe(no_mangle)]
pub extern "C" fn nbt_node_start(
    node: &mut CNode,
    own: CAddr,
    server: CAddr,
    config: CConfig,
    now: u64,
) -> u8
    requires { IsNone node.old.node }
    ensures { Starts (addr_of own) (addr_of server) config now result node.new.node }
{
    nbt_node_start_from(node, own, server, config, now, FIRST_ID)
}

/// `nbt_node::Node::start_from`: the same, but the node's first request has the id `first_id`, where that of `nbt_node_start` has 1.
#[unsafe(no_mangle)]
pub extern "C" fn nbt_node_start_from(
    node: &mut CNode,
    own: CAddr,
    server: CAddr,
    config: CConfig,
    now: u64,
    first_id: u16,
) -> u8
    requires { IsNone node.old.node }
    ensures { StartsFrom (addr_of own) (addr_of server) config now first_id result node.new.node }
{
    let limits = match Config::new(config.life, config.longest, config.rows as usize) {
        Ok(limits) => limits,
        Err(fault) => return fault.number(),
    };
    given!(now = Moment::new(now), else NO_MOMENT);
    node.put(Node::start_from(own.addr(), server.addr(), limits, now, first_id));
    0
}

/// 0 is a name of one machine, 1 one of a group.
fn kind_of(number: u8) -> Option<Kind>
    ensures { result ≡ kind_of number }
{
    match number {
        0 => Some(Kind::Unique),
        1 => Some(Kind::Group),
        _ => None,
    }
}

/// Calls `nbt_node::Node::ask` with what C passes.
fn ask(node: &mut HeldNode, now: u64, name: &CName, kind: u8, ttl: u32, out: &mut Octets) -> u8
    ensures { Asks node.old now name.now kind ttl result node.new out.new.items }
{
    out.clear();
    given!(now = Moment::new(now), else NO_MOMENT);
    given!(name = name.lend(), else NO_NAME);
    given!(kind = kind_of(kind), else NO_KIND);
    match node.ask(now, &name, kind, ttl, out) {
        Ok(()) => 0,
        Err(fault) => fault.number(),
    }
}

/// `nbt_node::Node::ask`: registers the name at the server, for `ttl` seconds or, where that is 0, as long as may be. 0, and the
/// NAME REGISTRATION REQUEST for the server stands at the front of `out`, `size` being how many octets it has. Else the node stays
/// as it was, and `size` is 0: 253 where `now` is above 2^60 ms, 255 where `name` holds no name, 252 where `kind` is neither 0 nor
/// 1, or the number of the node's refusal, 1 to 5.
#[unsafe(no_mangle)]
pub extern "C" fn nbt_node_ask(
    node: &mut CNode,
    now: u64,
    name: &CName,
    kind: u8,
    ttl: u32,
    out: &mut [u8; 576],
    size: &mut usize,
) -> u8
    requires { IsSome node.old.node }
    ensures { Changes node.old.node node.new.node (λ old new. Leaves out.old out.new size.new (Asks old now name.now kind ttl result new)) }
{
    let mut octets = Octets::new();
    let result = ask(node.get(), now, name, kind, ttl, &mut octets);
    *size = put_packet(octets.as_slice(), out);
    result
}

/// Calls `nbt_node::Node::release` with what C passes.
fn release(node: &mut HeldNode, now: u64, name: &CName, out: &mut Octets) -> u8
    ensures { GivesBack node.old now name.now result node.new out.new.items }
{
    out.clear();
    given!(now = Moment::new(now), else NO_MOMENT);
    given!(name = name.lend(), else NO_NAME);
    match node.release(now, &name, out) {
        Ok(()) => 0,
        Err(fault) => fault.number(),
    }
}

/// `nbt_node::Node::release`: releases the name. 0, and the NAME RELEASE REQUEST for the server stands at the front of `out`,
/// `size` being how many octets it has. Else the node stays as it was, and `size` is 0: 253, 255 as by `nbt_node_ask`, or the
/// number of the node's refusal, 1 or 4.
#[unsafe(no_mangle)]
pub extern "C" fn nbt_node_release(
    node: &mut CNode,
    now: u64,
    name: &CName,
    out: &mut [u8; 576],
    size: &mut usize,
) -> u8
    requires { IsSome node.old.node }
    ensures { Changes node.old.node node.new.node (λ old new. Leaves out.old out.new size.new (GivesBack old now name.now result new)) }
{
    let mut octets = Octets::new();
    let result = release(node.get(), now, name, &mut octets);
    *size = put_packet(octets.as_slice(), out);
    result
}

/// Calls `nbt_node::Node::resolve` with what C passes.
fn resolve(node: &mut HeldNode, now: u64, name: &CName, out: &mut Octets) -> u8
    ensures { Resolves node.old now name.now result node.new out.new.items }
{
    out.clear();
    given!(now = Moment::new(now), else NO_MOMENT);
    given!(name = name.lend(), else NO_NAME);
    match node.resolve(now, &name, out) {
        Ok(()) => 0,
        Err(fault) => fault.number(),
    }
}

/// `nbt_node::Node::resolve`: looks up at the server who holds the name. 0, and the NAME QUERY REQUEST for the server stands at the
/// front of `out`, `size` being how many octets it has. Else the node stays as it was, and `size` is 0: 253, 255 as by
/// `nbt_node_ask`, or the number of the node's refusal, 2, 4 or 5.
#[unsafe(no_mangle)]
pub extern "C" fn nbt_node_resolve(
    node: &mut CNode,
    now: u64,
    name: &CName,
    out: &mut [u8; 576],
    size: &mut usize,
) -> u8
    requires { IsSome node.old.node }
    ensures { Changes node.old.node node.new.node (λ old new. Leaves out.old out.new size.new (Resolves old now name.now result new)) }
{
    let mut octets = Octets::new();
    let result = resolve(node.get(), now, name, &mut octets);
    *size = put_packet(octets.as_slice(), out);
    result
}

/// Calls `nbt_node::Node::name_status` with what C passes.
fn ask_status(node: &mut HeldNode, now: u64, to: Addr, name: &CName, out: &mut Octets) -> u8
    ensures { AsksStatus node.old now to name.now result node.new out.new.items }
{
    out.clear();
    given!(now = Moment::new(now), else NO_MOMENT);
    given!(name = name.lend(), else NO_NAME);
    match node.name_status(now, to, &name, out) {
        Ok(()) => 0,
        Err(fault) => fault.number(),
    }
}

/// `nbt_node::Node::name_status`: asks the endpoint at `to` for the names that it holds. 0, and the NODE STATUS REQUEST for it
/// stands at the front of `out`, `size` being how many octets it has. Else the node stays as it was, and `size` is 0: 253, 255 as
/// by `nbt_node_ask`, or the number of the node's refusal, 2 or 4.
#[unsafe(no_mangle)]
pub extern "C" fn nbt_node_name_status(
    node: &mut CNode,
    now: u64,
    to: CAddr,
    name: &CName,
    out: &mut [u8; 576],
    size: &mut usize,
) -> u8
    requires { IsSome node.old.node }
    ensures { Changes node.old.node node.new.node (λ old new. Leaves out.old out.new size.new (AsksStatus old now (addr_of to) name.now result new)) }
{
    let mut octets = Octets::new();
    let result = ask_status(node.get(), now, to.addr(), name, &mut octets);
    *size = put_packet(octets.as_slice(), out);
    result
}
