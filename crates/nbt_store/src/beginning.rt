//! How a server begins that keeps its leases.

ghost use Rattle.std.specs.Prelude.{◌≡◌, IfOk};
ghost use Rattle.nbt_store.specs.Beginning.{BeginsAs, IsBegun};

use crate::boot::Boot;
use crate::header::Header;
use crate::resuming::{Decided, Found, Going, Reason, resume};
use nbt_lease::Moment;
use nbt_server::Server;
use std::alloc::{AllocError, Global};

/// A server that begins, and keeps its leases.
#[derive(Drop)]
pub struct Begun {
    /// The server: its last time is the one from which on it serves.
    pub server: Server,
    /// When it first began, before its silence.
    pub start: Moment,
    /// What its clock reads now.
    pub reads: Moment,
    /// The header of the file that is to have its leases: its last time is what the server's clock reads now.
    pub header: Header,
    /// Why it begins anew, without leases; `None` where it goes on.
    pub reason: Option<Reason>,
}

/// A server begins: it goes on with what is found, or begins anew, as [`resume`] decides. Refused where it is out of memory.
pub fn begin(alloc: Global, found: &Found<'_>) -> Result<Begun, AllocError>
    ensures { IfOk result (BeginsAs found.now) }
{
    let decided = resume(alloc, found)?;
    Ok(begun_of(alloc, found, decided))
}

/// The server that begins so.
fn begun_of(alloc: Global, found: &Found<'_>, decided: Decided) -> Begun
    ensures { IsBegun found.now decided result }
{
    let seen = &found.seen;
    let day = seen.day.get();
    let boot = copy_of(seen.boot);
    match decided {
        Decided::Goes(
            Going {
                server,
                start,
                reads,
                ahead,
            },
        ) => {
            let header = Header::new(found.config, boot, ahead, start, reads, day);
            Begun {
                server,
                start,
                reads,
                header,
                reason: None,
            }
        }
        Decided::Silent(reason) => {
            let start = seen.monotonic;
            Begun {
                server: Server::start(alloc, found.config, start),
                start,
                reads: start,
                header: Header::new(found.config, boot, 0, start, start, day),
                reason: Some(reason),
            }
        }
    }
}

/// The same boot.
pub(crate) fn copy_of(boot: &Boot) -> Boot
    ensures { result ≡ boot.now }
{
    Boot::new(boot.octets()).unwrap()
}
