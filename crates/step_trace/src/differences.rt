//! Where a trace differs from one that was seen before.

ghost use Rattle.std.specs.Prelude.{◌≡◌, ◌≢◌, ◌+◌, ◌<◌, ◌≤◌, ℕ, None, length, IfOk, OnErr};
ghost use Rattle.step_trace.specs.Differences.{placed_at};
ghost use Rattle.step_trace.specs.Traces.{ids_at};

use crate::steps::Step;
use crate::traces::Trace;
use std::alloc::AllocError;

impl Trace {
    /// A copy of the step of this number, with its tick before it, if there is one.
    ///
    /// Fails only if out of memory, and only if the step takes more than one message.
    pub fn placed(&self, no: u64) -> Result<Option<(u64, Step)>, AllocError>
        ensures placed { IfOk result (λ there. there ≡ placed_at self.now no) }
        ensures more { OnErr result (placed_at self.now no ≢ None) }
        ensures several { OnErr result (1 < length (ids_at self.now.steps no)) }
    {
        match self.step(no) {
            Some(step) => Ok(Some((self.tick_at(no), step.clone()?))),
            None => Ok(None),
        }
    }

    /// The least number of a step that was seen and that this trace doesn't have, or has with another value
    /// or tick; else the number after all of these. It compares only steps and their ticks. Takes no memory.
    pub fn first_difference(&self, seen: &Trace) -> u64
        ensures first { 1 ≤ result }
        ensures last { result ≤ length seen.now.steps + 1 }
        ensures before { (k : ℕ) → k < result → placed_at self.now k ≡ placed_at seen.now k }
        ensures differs { result ≤ length seen.now.steps
            → placed_at self.now result ≢ placed_at seen.now result }
    {
        let end = seen.len() as u64 + 1;
        for no in self.same_pages(seen) + 1..end {
            if !self.is_same_at(seen, no) {
                return no;
            }
        }
        end
    }
}
