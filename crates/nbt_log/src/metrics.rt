//! Metrics in Prometheus' text format.

ghost use Rattle.std.specs.Prelude.{◌≡◌, ◌++◌, map, OnOk};
ghost use Rattle.std.specs.String.{string_bytes};
ghost use Rattle.nbt_log.specs.Metrics.{help_text, type_text, head_text, sample_text, sample_of, samples_text, metric_text, seconds_text, seconds_metric};

use nbt_text::end_line;
use std::alloc::AllocError;

/// The type of a metric that only grows.
pub(crate) const COUNTER: &str = "counter";

/// The type of a metric that may grow and shrink.
pub(crate) const GAUGE: &str = "gauge";

/// Appends a metric: what it is, its type, and its samples, each with its labels, which are empty or in braces. The name is
/// without `nbt_nbns_`.
pub(crate) fn write_metric(
    name: &str,
    kind: &str,
    help: &str,
    samples: &[(&str, u64)],
    out: &mut String,
) -> Result<(), AllocError>
    ensures { OnOk result (string_bytes out.new ≡ string_bytes out.old ++ metric_text name.now kind.now help.now (map sample_of samples.now)) }
{
    write_head(name, kind, help, out)?;
    write_samples(name, samples, out)
}

/// Appends a metric of one sample, which is a time in milliseconds and is written in seconds.
pub(crate) fn write_time(
    name: &str,
    kind: &str,
    help: &str,
    milliseconds: u64,
    out: &mut String,
) -> Result<(), AllocError>
    ensures { OnOk result (string_bytes out.new ≡ string_bytes out.old ++ seconds_metric name.now kind.now help.now milliseconds) }
{
    write_head(name, kind, help, out)?;
    write!(out, "nbt_nbns_{name} ")?;
    write_seconds(milliseconds, out)
}

/// Appends what a metric is, and its type.
fn write_head(name: &str, kind: &str, help: &str, out: &mut String) -> Result<(), AllocError>
    ensures { OnOk result (string_bytes out.new ≡ string_bytes out.old ++ head_text name.now kind.now help.now) }
{
    write_help(name, help, out)?;
    write_type(name, kind, out)
}

fn write_help(name: &str, help: &str, out: &mut String) -> Result<(), AllocError>
    ensures { OnOk result (string_bytes out.new ≡ string_bytes out.old ++ help_text name.now help.now) }
{
    out.push_str("# HELP nbt_nbns_")?;
    out.push_str(name)?;
    out.push_str(" ")?;
    out.push_str(help)?;
    end_line(out)
}

fn write_type(name: &str, kind: &str, out: &mut String) -> Result<(), AllocError>
    ensures { OnOk result (string_bytes out.new ≡ string_bytes out.old ++ type_text name.now kind.now) }
{
    out.push_str("# TYPE nbt_nbns_")?;
    out.push_str(name)?;
    out.push_str(" ")?;
    out.push_str(kind)?;
    end_line(out)
}

/// Appends samples, in their order.
fn write_samples(name: &str, samples: &[(&str, u64)], out: &mut String) -> Result<(), AllocError>
    ensures { OnOk result (string_bytes out.new ≡ string_bytes out.old ++ samples_text name.now (map sample_of samples.now)) }
{
    for sample in samples {
        write_sample(name, sample.0, sample.1, out)?;
    }
    Ok(())
}

/// Appends a sample.
fn write_sample(name: &str, labels: &str, value: u64, out: &mut String) -> Result<(), AllocError>
    ensures { OnOk result (string_bytes out.new ≡ string_bytes out.old ++ sample_text name.now (labels.now, value)) }
{
    write!(out, "nbt_nbns_{name}{labels} {value}\n")
}

/// Appends a time in seconds, with three digits behind the point, and the end of the line.
fn write_seconds(milliseconds: u64, out: &mut String) -> Result<(), AllocError>
    ensures { OnOk result (string_bytes out.new ≡ string_bytes out.old ++ seconds_text milliseconds) }
{
    let seconds = milliseconds / 1000;
    let tenths = milliseconds / 100 % 10;
    let hundredths = milliseconds / 10 % 10;
    let thousandths = milliseconds % 10;
    write!(out, "{seconds}.{tenths}{hundredths}{thousandths}\n")
}
