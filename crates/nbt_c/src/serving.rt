//! A name server in C's memory: it starts, handles datagrams, lists its live leases, and ends.

ghost use Rattle.std.specs.Prelude.{◌≡◌, Option, None, IsSome, IsNone, slice_get};
ghost use Rattle.nbt_name.specs.Wire.{NameValue};
ghost use Rattle.nbt_lease.specs.declared.lease.Lease.{Lease as HeldLease};
ghost use Rattle.nbt_c.specs.Ends.{addr_of};
ghost use Rattle.nbt_c.specs.Memory.{Changes, Reads};
ghost use Rattle.nbt_c.specs.Results.{Leaves};
ghost use Rattle.nbt_c.specs.Serving.{StartsServer, ServesFor, TellsLease, TellsRow, lease_after, name_of_row, lease_of_row};
ghost use Rattle.nbt_c.specs.Sizes.{server_size, object_align};

use crate::buffer::{Octets, put_packet};
use crate::ends::{CAddr, CConfig, kind_number};
use crate::held::CServer;
use crate::name::CName;
use crate::results::{NO_LEASE, NO_MOMENT, NO_NAME, given};
use nbt_lease::{Config, Lease, Members, Moment};
use nbt_name::{Addr, Name};
use nbt_server::{Server, ServerFault};
use std::alloc::Global;

/// A lease of a name.
#[repr(C)]
#[derive(Drop)]
pub struct CLease {
    /// The 32-bit address of the machine that holds the name.
    pub ip: u32,
    /// 1 as one machine's, 2 as a group's.
    pub kind: u8,
    /// When the lease expires, in milliseconds: it lives before that.
    pub end: u64,
}

impl CLease {
    ghost use Rattle.nbt_c.specs.Serving.{lease_for};

    fn of(lease: Lease) -> CLease
        ensures { result ≡ lease_for lease }
    {
        CLease {
            ip: lease.addr,
            kind: kind_number(lease.kind),
            end: lease.end,
        }
    }
}

/// The size of a server's memory in octets, beside what it asks `malloc` for.
#[unsafe(no_mangle)]
pub extern "C" fn nbt_server_size() -> usize
    ensures { result ≡ server_size }
{
    size_of::<Server>()
}

/// The alignment of that memory in octets.
#[unsafe(no_mangle)]
pub extern "C" fn nbt_server_align() -> usize
    ensures { result ≡ object_align }
{
    align_of::<Server>()
}

/// `nbt_server::Server::start`: a server without leases stands in the memory. 0; else none does: the number of the first limit that
/// isn't kept, `Life` (1), `Longest` (2), `Rows` (3), or 253 where `now` is above 2^60 ms.
#[unsafe(no_mangle)]
pub extern "C" fn nbt_server_start(
    alloc: Global,
    server: &mut CServer,
    config: CConfig,
    now: u64,
) -> u8
    requires { IsNone server.old.server }
    ensures { StartsServer config now result server.new.server }
{
    let limits = match Config::new(config.life, config.longest, config.rows as usize) {
        Ok(limits) => limits,
        Err(fault) => return fault.number(),
    };
    given!(now = Moment::new(now), else NO_MOMENT);
    server.put(Server::start(alloc, limits, now));
    0
}

/// Frees the memory that the server has allocated. No server stands in the caller's memory then.
#[unsafe(no_mangle)]
pub extern "C" fn nbt_server_end(server: &mut CServer)
    requires { IsSome server.old.server }
    ensures { server.new.server ≡ None }
{
    let _ = server.take();
}

/// Calls `nbt_server::Server::on_datagram` with what C passes.
fn serve(server: &mut Server, now: u64, from: Addr, octets: &[u8], out: &mut Octets) -> u8
    ensures { ServesFor server.old now from octets.now result server.new out.new.items }
{
    out.clear();
    given!(now = Moment::new(now), else NO_MOMENT);
    match server.on_datagram(now, from, octets, out) {
        Ok(_) => 0,
        Err(fault) => fault.number(),
    }
}

/// `nbt_server::Server::on_datagram`: handles a datagram of these octets, which came at `now` from `from`. 0, and a reply to `from`
/// stands at the front of `out`, `size` being how many octets it has, else 0. Refused, `size` being 0: 253 where `now` is above
/// 2^60 ms and `ClockBack` (1), the server staying as it was; `OutOfMemory` (2), the live leases staying as they were.
#[unsafe(no_mangle)]
pub extern "C" fn nbt_server_on_datagram(
    server: &mut CServer,
    now: u64,
    from: CAddr,
    octets: &[u8],
    out: &mut [u8; 576],
    size: &mut usize,
) -> u8
    requires { IsSome server.old.server }
    ensures { Changes server.old.server server.new.server (λ old new. Leaves out.old out.new size.new (ServesFor old now (addr_of from) octets.now result new)) }
{
    let mut reply = Octets::new();
    let result = serve(server.get(), now, from.addr(), octets, &mut reply);
    *size = put_packet(reply.as_slice(), out);
    result
}

/// The member with this number, counted from 0.
fn nth_of(mut members: Members<'_>, which: usize) -> Option<Lease>
    ensures { result ≡ slice_get members.entry which }
{
    members.nth(which)
}

/// One of the live leases of a name, of what C passes.
fn report_lease(server: &Server, now: u64, name: &CName, which: usize, lease: &mut CLease) -> u8
    ensures { (found : Option HeldLease) × TellsLease server.now now name.now which result found × (lease.new ≡ lease_after lease.old found) }
{
    given!(now = Moment::new(now), else NO_MOMENT);
    given!(name = name.read(), else NO_NAME);
    if now.get() < server.last().get() {
        return ServerFault::ClockBack.number();
    }
    let table = server.table();
    match nth_of(table.members(now, &name), which) {
        Some(found) => {
            *lease = CLease::of(found);
            0
        }
        None => NO_LEASE,
    }
}

/// `nbt_lease::Table::members`: of the name's leases that live at `now`, in order of their beginnings, the one with this number,
/// counted from 0. 0, and it stands in `lease`. Else `lease` stays: 253, 255 as by `nbt_node_ask`; `ClockBack` (1) where `now` is
/// before the time of the last datagram; 250 where no more leases live. The server stays.
#[unsafe(no_mangle)]
pub extern "C" fn nbt_server_lease(
    server: &mut CServer,
    now: u64,
    name: &CName,
    which: usize,
    lease: &mut CLease,
) -> u8
    requires { IsSome server.old.server }
    ensures { Reads server.old.server server.new.server (λ it. (found : Option HeldLease) × TellsLease it now name.now which result found
        × (lease.new ≡ lease_after lease.old found)) }
{
    report_lease(server.get(), now, name, which, lease)
}

/// One of the rows of the server's table, of what C passes.
fn report_row(
    alloc: Global,
    server: &Server,
    which: usize,
    name: &mut CName,
    lease: &mut CLease,
) -> u8
    ensures { (found : Option (NameValue × HeldLease)) × TellsRow server.now which result found
        × (name.new ≡ name_of_row name.old found) × (lease.new ≡ lease_of_row lease.old found) }
{
    let mut rows: Vec<(Name, Lease)> = Vec::new(alloc);
    let Ok(()) = server.table().list_rows(&mut rows) else {
        return ServerFault::OutOfMemory.number();
    };
    match rows.get(which) {
        Some(row) => {
            *name = CName::of(&row.0);
            *lease = CLease::of(row.1);
            0
        }
        None => NO_LEASE,
    }
}

/// `nbt_lease::Table::list_rows`: of all rows of the table, the one with this number, counted from 0, each name's in order of their
/// beginnings. An expired lease may stand among them: its `end` tells. 0, and the row's name stands in `name`, its lease in
/// `lease`. Else both stay: `OutOfMemory` (2) where there is no memory for a list of the rows; 250 where there are no more. The
/// server stays.
#[unsafe(no_mangle)]
pub extern "C" fn nbt_server_row(
    alloc: Global,
    server: &mut CServer,
    which: usize,
    name: &mut CName,
    lease: &mut CLease,
) -> u8
    requires { IsSome server.old.server }
    ensures { Reads server.old.server server.new.server (λ it. (found : Option (NameValue × HeldLease)) × TellsRow it which result found
        × (name.new ≡ name_of_row name.old found) × (lease.new ≡ lease_of_row lease.old found)) }
{
    report_row(alloc, server.get(), which, name, lease)
}
