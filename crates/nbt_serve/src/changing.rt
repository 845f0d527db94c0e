//! What a datagram changes in the leases of a server.

ghost use Rattle.std.specs.Prelude.{◌≡◌, ◌≤◌, [], Some};
ghost use Rattle.nbt_lease.specs.Config.{milliseconds};
ghost use Rattle.nbt_lease.specs.Lease.{leases_at};
ghost use Rattle.nbt_serve.specs.Changing.{IsChange, changes_leases};
ghost use Rattle.nbt_serve.specs.Inner.Telling.{Tells, TellsMove};

use nbt_lease::{Lease, Moment, Table};
use nbt_server::{Claim, Outcome, Server};
use nbt_store::Change;

/// What a server changed in the leases by the datagram that it handled last, by what it did with it: that a lease began, that it has
/// this expiry from now on, or that it was released; `None` if nothing. A renewal is such a change also where the expiry stays.
/// Whatever was kept of the server's leases before has them after that change, and its time is the server's. A lease that moves or goes was
/// there.
pub fn change_of(server: &Server, outcome: &Outcome) -> Option<Change>
    ensures { IsChange outcome.now server.now result }
{
    nbt_lease::laws::later_leases_live_now();
    change_by(outcome, server.last(), server.table())
}

/// Whether the server changed a lease.
pub(crate) fn changes_leases(outcome: &Outcome) -> bool
    ensures { result ≡ changes_leases outcome.now }
{
    match outcome {
        Outcome::Granted(_, _) | Outcome::Renewed(_, _) | Outcome::Released(_) => true,
        _ => false,
    }
}

/// The change that a server made now, by what it did and its table afterwards.
fn change_by(outcome: &Outcome, now: Moment, table: &Table) -> Option<Change>
    requires { table.now.last ≤ now }
    ensures { Tells now (leases_at now table.now.rows) outcome.now result }
{
    match outcome {
        Outcome::Granted(claim, seconds) => Some(beginning(claim, now, *seconds)),
        Outcome::Renewed(claim, _) => move_of(claim, now, table),
        Outcome::Released(claim) => Some(Change::Released {
            name: claim.name.copy(),
            addr: claim.addr,
            at: now.get(),
        }),
        _ => None,
    }
}

/// A lease of this claim began now, for so many seconds.
fn beginning(claim: &Claim, now: Moment, seconds: u32) -> Change
    ensures { Tells now (λ _. []) (Outcome.Granted claim.now seconds) (Some result) }
{
    Change::Began {
        name: claim.name.copy(),
        lease: Lease {
            addr: claim.addr,
            kind: claim.kind,
            end: now.get() + 1000 * u64::from(seconds),
        },
        at: now.get(),
    }
}

/// The lease of this claim has the expiry that it has in the table; none if it isn't there.
fn move_of(claim: &Claim, now: Moment, table: &Table) -> Option<Change>
    requires { table.now.last ≤ now }
    ensures { TellsMove now claim.now (leases_at now table.now.rows) result }
{
    for lease in table.members(now, &claim.name) {
        if lease.addr == claim.addr {
            return Some(Change::Moved {
                name: claim.name.copy(),
                addr: claim.addr,
                end: lease.end,
                at: now.get(),
            });
        }
    }
    None
}
