//! Whose changes a file has: the second line.

ghost use Rattle.std.specs.Prelude.{◌≡◌, ◌↔◌, ℕ, Some, IfOk, MatchOption};
ghost use Rattle.nbt_text.specs.Texts.{texts};
ghost use Rattle.nbt_store.specs.declared.header.Head.{Head as HeadSeen};
ghost use Rattle.nbt_store.specs.Lines.{IsHead, SpellsHead};

use crate::boot::Boot;
use crate::sealing::unsealed;
use crate::word::Words;
use nbt_lease::{Config, Moment};
use nbt_text::words_of;
use std::alloc::{AllocError, Global};

/// Under which limits leases are kept, and at which times. Times are milliseconds of the server's clock, which is the machine's
/// monotonic clock plus `ahead`. So one clock goes on over boots.
#[derive(Debug, PartialEq, Eq, Drop)]
pub struct Header {
    /// The greatest life of a datagram, in milliseconds.
    pub life: u64,
    /// The longest lease, in seconds.
    pub longest: u64,
    /// The most live leases.
    pub rows: u64,
    /// The boot in which the file was written.
    pub boot: Boot,
    /// By how many milliseconds the server's clock was ahead of the machine's monotonic clock in that boot.
    pub ahead: u64,
    /// When the server began, before its silence.
    pub start: u64,
    /// The server's time when the file was written.
    pub last: u64,
    /// The time of day at that time, in milliseconds since the beginning of 1970.
    pub day: u64,
}

impl Header {
    ghost use Rattle.nbt_store.specs.Headers.{header_of};

    /// The header of a server with these limits in this boot, whose clock is `ahead` ms ahead of the machine's, which began at
    /// `start`, and whose file is written at `last`, when the time of day is `day` ms.
    pub fn new(
        config: Config,
        boot: Boot,
        ahead: u64,
        start: Moment,
        last: Moment,
        day: u64,
    ) -> Header
        ensures { result ≡ header_of config boot ahead start last day }
    {
        Header {
            life: config.life(),
            longest: u64::from(config.longest()),
            rows: config.rows() as u64,
            boot,
            ahead,
            start: start.get(),
            last: last.get(),
            day,
        }
    }
}

/// What the second line says.
#[derive(Drop)]
pub(crate) struct Head {
    /// Under which limits leases are kept, and at which times.
    pub header: Header,
    /// With how many leases the file was written.
    pub leases: u64,
}

/// Reads the second line, without its line feed; returns its checksum beside. `None` if it is no such line.
pub(crate) fn read_head(alloc: Global, line: &[u8]) -> Result<Option<(Head, u32)>, AllocError>
    ensures { IfOk result (λ found. MatchOption found ((head : HeadSeen) (sum : ℕ) → ¬ IsHead line.now head sum) (λ p. IsHead line.now p.0 p.1)) }
{
    let Some((body, sum)) = unsealed(0, line) else {
        return Ok(None);
    };
    let words = words_of(alloc, body)?;
    let Some(head) = head_in(words.as_slice()) else {
        return Ok(None);
    };
    Ok(Some((head, sum)))
}

/// The words of the second line.
type HeadWords = (
    u64,
    (u64, (u64, (Boot, (u64, (u64, (u64, (u64, (u64, ())))))))),
);

/// The head that words spell.
fn head_in(words: &[&[u8]]) -> Option<Head>
    ensures { (head : HeadSeen) → (result ≡ Some head) ↔ SpellsHead (texts words.now) head }
{
    let values = HeadWords::read_all(words);
    values.map(|(
        life,
        (longest, (rows, (boot, (ahead, (start, (last, (day, (leases, ())))))))),
    )| Head {
        header: Header {
            life,
            longest,
            rows,
            boot,
            ahead,
            start,
            last,
            day,
        },
        leases,
    })
}
