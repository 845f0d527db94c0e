//! The statistics of a name server, as Prometheus' text format has them.

ghost use Rattle.std.specs.Prelude.{◌≡◌, ◌++◌, OnOk};
ghost use Rattle.std.specs.String.{string_bytes};
ghost use Rattle.nbt_log.specs.Stats.{requests_text, unanswered_text, strangers_text, refusals_text, own_text, leases_text, times_left_text, times_text, port_text, state_text, build_text, counters_text, gauges_text, devices_text, stats_text};

use crate::gauges::Gauges;
use crate::health::Health;
use crate::metrics::{COUNTER, GAUGE, write_metric, write_time};
use crate::tally::{OutcomeCounts, RefusalCounts, Tally};
use nbt_port::OwnReplies;
use std::alloc::AllocError;

/// The first line of the statistics, with its end, which says what a file is (our profile). Prometheus passes it over.
pub const STATS_HEAD: &str = "# statistics of nbt nbns\n";

/// Of which version the program is, as a label.
const VERSION: &str = "{version=\"0.1.0\"}";

/// What the statistics of a name server say.
#[derive(Clone, Copy, Debug, PartialEq, Eq)]
pub struct Figures {
    /// What it has done.
    pub tally: Tally,
    /// How its devices are.
    pub health: Health,
    /// What its leases are.
    pub gauges: Gauges,
    /// The second since 1970 in which it began to serve.
    pub since: u64,
    /// How long it is silent still, in milliseconds.
    pub silence: u64,
    /// The second since 1970 in which this is written.
    pub written: u64,
}

/// Appends the statistics: the line [`STATS_HEAD`], and each metric with its help, its type and its samples, in a fixed order. Times are
/// in seconds.
pub fn write_stats(figures: &Figures, out: &mut String) -> Result<(), AllocError>
    ensures { OnOk result (string_bytes out.new ≡ string_bytes out.old ++ stats_text figures.now) }
{
    out.push_str(STATS_HEAD)?;
    write_counters(&figures.tally, &figures.health.own, out)?;
    write_gauges(&figures.gauges, out)?;
    write_times(figures.since, figures.silence, figures.written, out)?;
    write_devices(&figures.health, figures.tally.lines_dropped, out)
}

/// Appends what was counted of the datagrams.
fn write_counters(tally: &Tally, own: &OwnReplies, out: &mut String) -> Result<(), AllocError>
    ensures { OnOk result (string_bytes out.new ≡ string_bytes out.old ++ counters_text tally.now own.now) }
{
    write_requests(&tally.outcomes, out)?;
    write_unanswered(&tally.outcomes, out)?;
    write_strangers(&tally.outcomes, out)?;
    write_refusals(&tally.refusals, out)?;
    write_own(own, out)
}

fn write_requests(counts: &OutcomeCounts, out: &mut String) -> Result<(), AllocError>
    ensures { OnOk result (string_bytes out.new ≡ string_bytes out.old ++ requests_text counts.now) }
{
    write_metric(
        "requests_total",
        COUNTER,
        "Requests that the server handled, by what they asked for and what came of it.",
        &[
            ("{kind=\"registration\",result=\"granted\"}", counts.granted),
            ("{kind=\"registration\",result=\"renewed\"}", counts.renewed),
            ("{kind=\"registration\",result=\"refused\"}", counts.refused),
            ("{kind=\"release\",result=\"released\"}", counts.released),
            (
                "{kind=\"release\",result=\"not_leased\"}",
                counts.not_leased,
            ),
            ("{kind=\"release\",result=\"refused\"}", counts.not_released),
            ("{kind=\"query\",result=\"found\"}", counts.found),
            ("{kind=\"query\",result=\"not_found\"}", counts.not_found),
        ],
        out,
    )
}

fn write_unanswered(counts: &OutcomeCounts, out: &mut String) -> Result<(), AllocError>
    ensures { OnOk result (string_bytes out.new ≡ string_bytes out.old ++ unanswered_text counts.now) }
{
    write_metric(
        "unanswered_requests_total",
        COUNTER,
        "Requests that came in the silence after the start, and got no reply.",
        &[("", counts.unanswered)],
        out,
    )
}

fn write_strangers(counts: &OutcomeCounts, out: &mut String) -> Result<(), AllocError>
    ensures { OnOk result (string_bytes out.new ≡ string_bytes out.old ++ strangers_text counts.now) }
{
    write_metric(
        "other_datagrams_total",
        COUNTER,
        "Datagrams that are no requests to a name server.",
        &[
            ("{kind=\"foreign\"}", counts.foreign),
            ("{kind=\"malformed\"}", counts.malformed),
            ("{kind=\"broadcast\"}", counts.broadcast),
        ],
        out,
    )
}

fn write_refusals(counts: &RefusalCounts, out: &mut String) -> Result<(), AllocError>
    ensures { OnOk result (string_bytes out.new ≡ string_bytes out.old ++ refusals_text counts.now) }
{
    write_metric(
        "refusals_total",
        COUNTER,
        "Registrations and releases that were refused, by the reason.",
        &[
            ("{reason=\"not_own\"}", counts.not_own),
            ("{reason=\"star\"}", counts.star),
            ("{reason=\"overwrite\"}", counts.overwrite),
            ("{reason=\"active\"}", counts.active),
            ("{reason=\"table_full\"}", counts.table_full),
            ("{reason=\"group_full\"}", counts.group_full),
            ("{reason=\"client_full\"}", counts.client_full),
        ],
        out,
    )
}

fn write_own(own: &OwnReplies, out: &mut String) -> Result<(), AllocError>
    ensures { OnOk result (string_bytes out.new ≡ string_bytes out.old ++ own_text own.now) }
{
    write_metric(
        "own_replies_total",
        COUNTER,
        "Requests that got their reply before the leases were looked at.",
        &[
            ("{result=\"not_allowed\"}", own.not_allowed),
            ("{result=\"fixed_refused\"}", own.fixed_refused),
            ("{result=\"fixed_confirmed\"}", own.fixed_confirmed),
            ("{result=\"fixed_found\"}", own.fixed_found),
        ],
        out,
    )
}

/// Appends what the leases are.
fn write_gauges(gauges: &Gauges, out: &mut String) -> Result<(), AllocError>
    ensures { OnOk result (string_bytes out.new ≡ string_bytes out.old ++ gauges_text gauges.now) }
{
    write_leases(gauges, out)?;
    write_times_left(gauges, out)
}

fn write_leases(gauges: &Gauges, out: &mut String) -> Result<(), AllocError>
    ensures { OnOk result (string_bytes out.new ≡ string_bytes out.old ++ leases_text gauges.now) }
{
    write_metric(
        "leases",
        GAUGE,
        "Live leases.",
        &[
            ("{kind=\"unique\"}", gauges.unique),
            ("{kind=\"group\"}", gauges.groups),
        ],
        out,
    )?;
    write_metric(
        "rows_free",
        GAUGE,
        "Leases that may still begin before the table is full.",
        &[("", gauges.free)],
        out,
    )
}

fn write_times_left(gauges: &Gauges, out: &mut String) -> Result<(), AllocError>
    ensures { OnOk result (string_bytes out.new ≡ string_bytes out.old ++ times_left_text gauges.now) }
{
    write_time(
        "lease_least_left_seconds",
        GAUGE,
        "The least time left of a live lease, 0 without any.",
        gauges.least_left,
        out,
    )?;
    write_time(
        "lease_greatest_left_seconds",
        GAUGE,
        "The greatest time left of a live lease, 0 without any.",
        gauges.greatest_left,
        out,
    )
}

/// Appends when the server began, how long it is silent, and when this is written.
fn write_times(since: u64, silence: u64, written: u64, out: &mut String) -> Result<(), AllocError>
    ensures { OnOk result (string_bytes out.new ≡ string_bytes out.old ++ times_text since silence written) }
{
    write_metric(
        "start_time_seconds",
        GAUGE,
        "When the server began to serve, in seconds since 1970.",
        &[("", since)],
        out,
    )?;
    write_time(
        "silence_left_seconds",
        GAUGE,
        "How long the silence after the start lasts still.",
        silence,
        out,
    )?;
    write_metric(
        "written_timestamp_seconds",
        GAUGE,
        "When these statistics were written, in seconds since 1970.",
        &[("", written)],
        out,
    )
}

/// Appends how the port, the log and the files are, and of which version the program is.
fn write_devices(health: &Health, lines_dropped: u64, out: &mut String) -> Result<(), AllocError>
    ensures { OnOk result (string_bytes out.new ≡ string_bytes out.old ++ devices_text health.now lines_dropped) }
{
    write_port(health.failures, lines_dropped, out)?;
    write_state(health, out)?;
    write_build(out)
}

fn write_port(failures: u64, lines_dropped: u64, out: &mut String) -> Result<(), AllocError>
    ensures { OnOk result (string_bytes out.new ≡ string_bytes out.old ++ port_text failures lines_dropped) }
{
    write_metric(
        "port_failures_total",
        COUNTER,
        "Calls of the port that failed.",
        &[("", failures)],
        out,
    )?;
    write_metric(
        "log_lines_dropped_total",
        COUNTER,
        "Lines of the log that were dropped, since its reader was slow or it could not be written.",
        &[("", lines_dropped)],
        out,
    )
}

fn write_state(health: &Health, out: &mut String) -> Result<(), AllocError>
    ensures { OnOk result (string_bytes out.new ≡ string_bytes out.old ++ state_text health.now) }
{
    write_metric(
        "barred_requests_total",
        COUNTER,
        "Requests that were dropped, since their client had its changes of that second.",
        &[("", health.barred)],
        out,
    )?;
    write_metric(
        "state_syncs_total",
        COUNTER,
        "How often the state was made durable.",
        &[("", health.syncs)],
        out,
    )?;
    write_time(
        "state_sync_seconds_total",
        COUNTER,
        "How long it took to make the state durable, taken together.",
        health.sync_milliseconds,
        out,
    )
}

fn write_build(out: &mut String) -> Result<(), AllocError>
    ensures { OnOk result (string_bytes out.new ≡ string_bytes out.old ++ build_text) }
{
    write_metric(
        "build_info",
        GAUGE,
        "Of which version the program is; its value is always 1.",
        &[(VERSION, 1)],
        out,
    )
}
