//! The addresses of runs.

ghost use Rattle.std.specs.Prelude.{◌≡◌, ◌↔◌, ◌++◌, IsTrue, IfOk, OnOk};
ghost use Rattle.std.specs.List.{flat_map};
ghost use Rattle.nbt_scan.specs.Spans.{ips_of, AreFew, AreOf};

use crate::addresses::ADDRESSES_MOST;
use crate::span::Span;
use std::alloc::{AllocError, Global};

/// Whether runs have 65,536 addresses at most, each counted as often as a run has it.
pub fn are_few(spans: &[Span]) -> bool
    ensures { IsTrue result ↔ AreFew spans.now }
{
    let mut left = ADDRESSES_MOST as u64;
    for span in spans {
        let size = span.size();
        if left < size {
            return false;
        }
        left -= size;
    }
    true
}

/// The addresses of runs, ascending, each once.
pub fn addresses_of(alloc: Global, spans: &[Span]) -> Result<Vec<u32>, AllocError>
    requires { AreFew spans.now }
    ensures { IfOk result (λ ips. AreOf spans.now ips.items) }
{
    let mut ips = Vec::new(alloc);
    push_spans(spans, &mut ips)?;
    ips.sort_unstable();
    ips.dedup();
    Ok(ips)
}

/// Appends the addresses of runs, in order.
fn push_spans(spans: &[Span], ips: &mut Vec<u32>) -> Result<(), AllocError>
    ensures { OnOk result (ips.new.items ≡ ips.old.items ++ flat_map ips_of spans.now) }
{
    for span in spans {
        span.push_all(ips)?;
    }
    Ok(())
}
