//! Why an analyst doesn't follow a trace.

ghost use Rattle.std.specs.Prelude.{OnOk, IfErr};
ghost use Rattle.step_trace.specs.Extensions.{Extends};
ghost use Rattle.chunk_join.specs.Analysts.{IsFeedRefusal};

use step_trace::{Step, Trace};

/// Why a trace was not followed, in the order in which the reasons are tested.
#[derive(Debug, Drop)]
pub enum FeedError {
    /// The trace doesn't extend the one that is followed. At number `at` it differs from it first, and has `found`,
    /// a step with its tick before it. If it has all steps of that one, `at` is the number after them. At 0 it is of
    /// another configuration.
    NotAnExtension { at: u64, found: Option<(u64, Step)> },
    /// Out of memory.
    Memory,
}

/// Whether a trace extends what was seen; else the first difference, with a copy of what the trace has there.
pub(crate) fn compare(trace: &Trace, seen: &Trace) -> Result<(), FeedError>
    ensures extends { OnOk result (Extends trace.now seen.now) }
    ensures refused { IfErr result (λ why. IsFeedRefusal trace.now seen.now why) }
{
    if trace.begins(seen) {
        return Ok(());
    }
    if !trace.config().is_same(seen.config()) {
        return Err(FeedError::NotAnExtension { at: 0, found: None });
    }
    let at = trace.first_difference(seen);
    match trace.placed(at) {
        Ok(found) => Err(FeedError::NotAnExtension { at, found }),
        Err(_) => Err(FeedError::Memory),
    }
}
