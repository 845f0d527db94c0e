//! The texts about a name server that can be kept.

ghost use Rattle.std.specs.Prelude.{◌≡◌, ◌++◌, [], ℕ, List, OnOk, IfOk};
ghost use Rattle.std.specs.String.{string_bytes};
ghost use Rattle.nbt_lease.specs.Lease.{Rows};
ghost use Rattle.nbt_log.specs.declared.dates.Dates.{Dates as DatesValue};
ghost use Rattle.nbt_server.specs.Serving.{ServerValue};
ghost use Rattle.nbt_nbns.specs.Reports.{figures_of};

use nbt_lease::{Lease, Moment};
use nbt_log::{Dates, Figures, Health, Origin, Tally, measure, write_stats};
use nbt_name::Name;
use nbt_server::Server;
use std::alloc::{AllocError, Global};

/// A text about a name server.
pub trait Report {
    /// Which text it is: of what is reported, of a server, by the dates and at a moment.
    ghost says: { Self → ServerValue → DatesValue → ℕ → List ℕ → Type 0 };

    /// Appends the text of a server at `now`.
    fn write(
        &self,
        alloc: Global,
        server: &Server,
        dates: &Dates,
        now: Moment,
        out: &mut String,
    ) -> Result<(), AllocError>
        ensures { OnOk result ((text : List ℕ) × says self.now server.now dates.now now text × (string_bytes out.new ≡ string_bytes out.old ++ text)) };
}

/// The statistics, as [`write_stats`] has them.
#[derive(Clone, Copy, Debug, PartialEq, Eq)]
pub struct StatsReport {
    /// What the server has done.
    pub tally: Tally,
    /// How its devices are.
    pub health: Health,
    /// When it began.
    pub origin: Origin,
}

impl Report for StatsReport {
    ghost use Rattle.nbt_nbns.specs.Reports.{SaysStats};

    ghost says = { SaysStats };

    fn write(
        &self,
        alloc: Global,
        server: &Server,
        dates: &Dates,
        now: Moment,
        out: &mut String,
    ) -> Result<(), AllocError> {
        let rows = rows_of(alloc, server)?;
        let most = server.table().config().rows();
        let figures = Figures {
            tally: self.tally,
            health: self.health,
            gauges: measure(rows.as_slice(), most, now),
            since: self.origin.since,
            silence: self.origin.speaks.saturating_sub(now.get()),
            written: dates.second_at(now.get()),
        };
        write_stats(&figures, out)
    }
}

/// All rows of a server's table.
pub(crate) fn rows_of(alloc: Global, server: &Server) -> Result<Vec<(Name, Lease)>, AllocError>
    ensures { IfOk result (λ rows. rows.items ≡ server.now.table.rows) }
{
    let mut rows = Vec::new(alloc);
    server.table().list_rows(&mut rows)?;
    Ok(rows)
}
