//! The summary of a block of ticks that follow one another, by passes over its steps.

ghost use Rattle.std.specs.Prelude.{◌-◌, ◌≤◌, IfOk};
ghost use Rattle.chunk_join.specs.Summaries.{IsSummary};

use crate::block_messages::{Receives, fates_by, keep_older, receives_in, sent_in};
use crate::block_silences::silences_in;
use crate::parts::Part;
use std::alloc::{AllocError, Global};
use step_trace::{ProcSet, Trace, steps_before};

/// The summary of the ticks `from` to `to`. The first step is found by bisection.
pub(crate) fn part_of_block(
    alloc: Global,
    trace: &Trace,
    set: ProcSet,
    from: u64,
    to: u64,
) -> Result<Part, AllocError>
    requires low { 1 ≤ from }
    requires order { from ≤ to }
    requires high { to ≤ trace.now.last }
    ensures { IfOk result (λ part. IsSummary set trace.now (from - 1) to part) }
{
    // It says that the trace is one.
    let _ticks = trace.last_tick();
    let before = steps_before(trace, from);
    let end = steps_before(trace, to + 1);
    let Receives { mut taken, last } = receives_in(alloc, trace, set, from, before, end)?;
    let fates = fates_by(alloc, &taken, before, end)?;
    let sent = sent_in(alloc, trace, set, from, before, end, &fates)?;
    keep_older(&mut taken, from);
    let silent = silences_in(alloc, trace, set, from, to, before)?;
    Ok(Part {
        set,
        from,
        to,
        sent,
        taken,
        last,
        silent,
    })
}
