//! Reads the arguments of `scan`.

ghost use Rattle.std.specs.Prelude.{◌≡◌, IfOk};
ghost use Rattle.nbt_scan.specs.Plans.{IsPlan};
ghost use Rattle.nbt_admin.specs.Scans.{ReadsScan, ReadsWait, form_of};

use crate::asking::tries_of;
use crate::failure::{ArgumentFault, Failure};
use crate::naming::source_of;
use crate::spans::spans_of;
use crate::timing::number_of;
use nbt_args::{ScanTexts, WAIT_MOST};
use nbt_name::Addr;
use nbt_scan::{Form, Layout, Plan, addresses_of};
use nbt_text::duration_within;
use std::alloc::Global;

/// The most requests in a second (our profile).
pub(crate) const RATE_MOST: u64 = 10_000;

/// The greatest port.
pub(crate) const PORT_MOST: u64 = 65_535;

/// The arguments of a scan: the own address, what it is to do, how it prints, and whether it says how far it is.
#[derive(Drop)]
pub struct ScanArguments {
    pub bind: Addr,
    pub plan: Plan,
    pub layout: Layout,
    pub progress: bool,
}

/// Reads the arguments of `scan`. Refused, in this order: the rate, the wait, the port, the own address, the networks, ranges and addresses,
/// and if these are too many.
pub fn scan_arguments(alloc: Global, texts: &ScanTexts<'_>) -> Result<ScanArguments, Failure>
    ensures reads { ReadsScan texts.now result }
    ensures sound { IfOk result (λ a. IsPlan a.plan) }
{
    let rate = number_of(alloc, texts.rate, RATE_MOST, ArgumentFault::Rate)?;
    let wait = wait_of(alloc, texts.wait)?;
    let port = number_of(alloc, texts.port, PORT_MOST, ArgumentFault::Port)?;
    let bind = source_of(alloc, texts.bind)?;
    let spans = spans_of(alloc, texts.addresses.as_slice())?;
    let runs = spans.as_slice();
    let ips = addresses_of(alloc, runs)?;
    let plan = Plan {
        ips,
        port: port as u16,
        rate,
        tries: tries_of(texts.tries),
        wait,
    };
    let layout = Layout {
        form: form_of(texts.long, texts.hosts, texts.json),
        sorted: texts.sorted,
    };
    Ok(ScanArguments {
        bind,
        plan,
        layout,
        progress: texts.progress,
    })
}

/// Reads for how long replies are waited for, in milliseconds.
fn wait_of(alloc: Global, text: &str) -> Result<u32, Failure>
    ensures { ReadsWait text.now result }
{
    match duration_within(text, 1, WAIT_MOST) {
        Some(wait) => Ok(wait as u32),
        None => Err(Failure::of_argument(alloc, text, ArgumentFault::Wait)),
    }
}

/// Returns how a host is printed.
fn form_of(long: bool, hosts: bool, json: bool) -> Form
    ensures { result ≡ form_of long hosts json }
{
    if json {
        return Form::Json;
    }
    if hosts {
        return Form::Hosts;
    }
    if long { Form::Long } else { Form::Plain }
}
